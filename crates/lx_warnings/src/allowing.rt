//! Comments that switch warnings off for the next line.

use crate::kinds::{KindSet, kind_named};
use lx_diagnose::Span;
use lx_diagnose::places::between;
use lx_diagnose::scan::{begins_at, find, next_blank, part, skip_blanks};

// Skips a word and the blanks after it. Returns `None` if the word isn't there.
fn skip_word(text: &[u8], at: usize, end: usize, word: &[u8]) -> Option<usize> {
    if begins_at(text, at, word) {
        Some(skip_blanks(text, at.saturating_add(word.len()), end))
    } else {
        None
    }
}

// Returns the start of the names in a comment that allows warnings.
fn names_start(text: &[u8], line: Span) -> Option<usize> {
    let end = line.end();
    let opened = skip_word(text, skip_blanks(text, line.start, end), end, b"/*")?;
    let marked = skip_word(text, opened, end, b"lx:")?;
    skip_word(text, marked, end, b"allow")
}

// Adds the kind with this name to the set, if there is one.
fn with_named(set: KindSet, name: &[u8]) -> KindSet {
    match kind_named(name) {
        Some(kind) => set.with(kind, true),
        None => set,
    }
}

/// Returns the kinds that a line allows by ` /* lx: allow NAME .. */`.
pub(crate) fn allowed_by(text: &[u8], line: Span) -> KindSet {
    let mut allowed = KindSet::none();
    let Some(start) = names_start(text, line) else {
        return allowed;
    };
    let Some(end) = find(text, start, line.end(), b"*/") else {
        return allowed;
    };
    let mut next = start;
    for at in start..end {
        let first = skip_blanks(text, at, end);
        if at == next && first < end {
            let behind_name = next_blank(text, first, end);
            allowed = with_named(allowed, part(text, between(first, behind_name)));
            next = behind_name;
        }
    }
    allowed
}
