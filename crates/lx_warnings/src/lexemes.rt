//! Lexemes of a pattern that may not mean what their writer intended.

use crate::brackets::{character_before, look_at_brackets};
use crate::branches::{Branch, Branches};
use crate::escapes::look_at_escapes;
use crate::kinds::{KindSet, WarningKind};
use crate::suspects::{Subject, Suspect, SuspectSearch, push_part, push_suspect};
use lx_diagnose::Span;
use lx_diagnose::places::between;
use lx_diagnose::scan::is_at;
use lx_ere::lexeme::Lexeme;
use std::alloc::AllocError;

// Warns of an interval after several units.
fn look_at_interval(
    search: &mut SuspectSearch<'_>,
    allowed: &KindSet,
    branch: Branch,
    at: Span,
) -> Result<(), AllocError> {
    if branch.units < 2 {
        return Ok(());
    }
    let suspect = Suspect {
        kind: WarningKind::Interval,
        at,
        phrase: "the interval repeats all of `@`, and in flex the end alone: write `(~)` for that, or put `@` in parentheses",
        subject: Subject::Parts(
            between(branch.start, at.start),
            between(branch.last, at.end()),
        ),
    };
    push_suspect(search, allowed, suspect)
}

// Warns of a repeat after a repeat, or after the last byte of a multi-byte character.
fn look_at_repeat(
    search: &mut SuspectSearch<'_>,
    allowed: &KindSet,
    branches: &Branches,
    at: Span,
) -> Result<(), AllocError> {
    let text = search.text;
    if branches.behind_repeat && is_at(text, at.start, b'?') {
        let both = between(at.start.saturating_sub(1), at.end());
        let phrase = "`@` is not lazy: the longest text is taken";
        return push_part(search, allowed, WarningKind::Lazy, both, phrase);
    }
    if branches.innermost.last.saturating_add(1) != at.start {
        return Ok(());
    }
    match character_before(text, branches.innermost.start, at.start) {
        Some(character) => {
            let suspect = Suspect {
                kind: WarningKind::ManyBytes,
                at,
                phrase: "`@` repeats the last byte of `~` alone; put the character in quotes",
                subject: Subject::Parts(at, character),
            };
            push_suspect(search, allowed, suspect)
        }
        None => Ok(()),
    }
}

// Returns true if a multi-byte quotation mark begins here: one of U+2018 to U+201F.
fn is_curly_at(text: &[u8], at: usize) -> bool {
    let last = at.saturating_add(2);
    is_at(text, at, 0xE2)
        && is_at(text, at.saturating_add(1), 0x80)
        && last < text.len()
        && 0x98 <= text[last]
        && text[last] < 0xA0
}

// Examines a lexeme that is one byte, an escape or brackets.
fn look_at_set(
    search: &mut SuspectSearch<'_>,
    allowed: &KindSet,
    at: Span,
) -> Result<(), AllocError> {
    let text = search.text;
    if is_at(text, at.start, b'[') {
        look_at_brackets(search, allowed, at)?;
        look_at_escapes(search, allowed, at)
    } else if is_at(text, at.start, b'\\') {
        look_at_escapes(search, allowed, at)
    } else if is_curly_at(text, at.start) {
        let mark = Span {
            start: at.start,
            len: 3,
        };
        let phrase = "`@` is three bytes and quotes nothing; write plain quotes";
        push_part(search, allowed, WarningKind::CurlyQuotes, mark, phrase)
    } else {
        Ok(())
    }
}

/// Examines the lexeme at this position, which comes after these branches.
pub(crate) fn look_at_lexeme(
    search: &mut SuspectSearch<'_>,
    allowed: &KindSet,
    branches: &Branches,
    lexeme: &Lexeme,
    at: Span,
) -> Result<(), AllocError> {
    let text = search.text;
    match lexeme {
        Lexeme::Set(_) => look_at_set(search, allowed, at),
        Lexeme::Quoted(_, _) => look_at_escapes(search, allowed, at),
        // it repeats a text once
        Lexeme::Interval(1, Some(1)) => Ok(()),
        Lexeme::Interval(_, _) => look_at_interval(search, allowed, branches.innermost, at),
        Lexeme::Repeat(_, _) => look_at_repeat(search, allowed, branches, at),
        Lexeme::Name(_)
        | Lexeme::EmptyWord
        | Lexeme::OpenGroup
        | Lexeme::CloseGroup
        | Lexeme::Bar => Ok(()),
    }
}
