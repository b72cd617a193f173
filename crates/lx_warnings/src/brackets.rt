//! Bracket expressions that may not mean what their writer intended.

use crate::kinds::{KindSet, WarningKind};
use crate::suspects::{SuspectSearch, push_part};
use lx_diagnose::Span;
use lx_diagnose::places::between;
use lx_diagnose::scan::{begins_at, find, is_at, part, skip_name};
use lx_ere::escape::escape_at;
use std::alloc::AllocError;

// Returns true if the byte is a continuation byte of a multi-byte UTF-8 character (RFC 3629, 3).
fn is_continuation_at(text: &[u8], at: usize) -> bool {
    at < text.len() && 0x80 <= text[at] && text[at] < 0xC0
}

// Returns true if the byte is the first one of such a character.
fn is_lead_at(text: &[u8], at: usize) -> bool {
    at < text.len() && 0xC2 <= text[at] && text[at] < 0xF5
}

/// Returns the multi-byte character that begins at this position, if one does. It has at most four bytes.
pub(crate) fn character_at(text: &[u8], at: usize, end: usize) -> Option<Span> {
    let mut behind = at.saturating_add(1);
    if !is_lead_at(text, at) || behind >= end || !is_continuation_at(text, behind) {
        return None;
    }
    for next in behind..end {
        if next - at < 4 && next == behind && is_continuation_at(text, next) {
            behind = next + 1;
        }
    }
    Some(between(at, behind))
}

/// Returns the multi-byte character that ends before a position, if one does.
pub(crate) fn character_before(text: &[u8], start: usize, end: usize) -> Option<Span> {
    for at in start.max(end.saturating_sub(4))..end {
        if let Some(character) = character_at(text, at, end) {
            if character.end() == end {
                return Some(character);
            }
        }
    }
    None
}

// Warns of the first multi-byte character in brackets.
fn look_at_characters(
    search: &mut SuspectSearch<'_>,
    allowed: &KindSet,
    brackets: Span,
) -> Result<(), AllocError> {
    let text = search.text;
    let phrase =
        "`@` is several bytes, and brackets take one of them; write alternatives, as (a|@)";
    for at in brackets.start..brackets.end() {
        if let Some(character) = character_at(text, at, brackets.end()) {
            return push_part(search, allowed, WarningKind::ManyBytes, character, phrase);
        }
    }
    Ok(())
}

// Warns of a class without its outer brackets.
fn look_at_class(
    search: &mut SuspectSearch<'_>,
    allowed: &KindSet,
    brackets: Span,
) -> Result<(), AllocError> {
    let text = search.text;
    let phrase = "`@` takes one of its bytes; for the class write [@]";
    let name = brackets.start.saturating_add(2);
    let behind = skip_name(text, name, brackets.end());
    if begins_at(text, brackets.start, b"[:")
        && name < behind
        && begins_at(text, behind, b":]")
        && behind.saturating_add(2) == brackets.end()
    {
        return push_part(search, allowed, WarningKind::ClassOutside, brackets, phrase);
    }
    Ok(())
}

// Returns the byte of a point in brackets, and the position after it.
fn point_at(text: &[u8], at: usize, end: usize) -> (u8, usize) {
    let rest = part(text, between(at, end));
    if begins_at(text, at, b"[.") && rest.len() >= 5 {
        return (rest[2], at.saturating_add(5));
    }
    let Some((first, more)) = rest.split_first() else {
        return (0, end);
    };
    if *first == b'\\' {
        if let Some((byte, behind)) = escape_at(more) {
            return (byte, end.saturating_sub(behind.len()));
        }
    }
    (*first, at.saturating_add(1))
}

// Returns the position after the class or equivalence class at this position.
fn skip_class(text: &[u8], at: usize, end: usize) -> Option<usize> {
    let behind = at.saturating_add(2);
    if begins_at(text, at, b"[:") {
        match find(text, behind, end, b":]") {
            Some(close) => Some(close.saturating_add(2)),
            None => None,
        }
    } else if begins_at(text, at, b"[=") {
        Some(at.saturating_add(5))
    } else {
        None
    }
}

// Returns the warning on a range from byte `low` to byte `high`.
fn range_phrase(low: u8, high: u8) -> Option<&'static str> {
    if low.is_ascii_uppercase() && high.is_ascii_lowercase() {
        Some("`@` takes [ \\ ] ^ _ and the grave accent too; for letters write A-Za-z")
    } else if low.is_ascii_digit() && high.is_ascii_alphabetic() {
        Some("`@` takes more than digits and letters; for these write 0-9A-Za-z")
    } else {
        None
    }
}

// Examines the member of brackets that begins at this position. Returns the position after it.
fn look_at_member(
    search: &mut SuspectSearch<'_>,
    allowed: &KindSet,
    at: usize,
    end: usize,
) -> Result<usize, AllocError> {
    let text = search.text;
    if let Some(behind) = skip_class(text, at, end) {
        return Ok(behind);
    }
    let (low, behind) = point_at(text, at, end);
    let high_at = behind.saturating_add(1);
    if !is_at(text, behind, b'-') || high_at >= end {
        return Ok(behind);
    }
    let (high, behind_range) = point_at(text, high_at, end);
    if let Some(phrase) = range_phrase(low, high) {
        let range = between(at, behind_range);
        push_part(search, allowed, WarningKind::WideRange, range, phrase)?;
    }
    Ok(behind_range)
}

fn look_at_ranges(
    search: &mut SuspectSearch<'_>,
    allowed: &KindSet,
    brackets: Span,
) -> Result<(), AllocError> {
    let text = search.text;
    let end = brackets.end().saturating_sub(1);
    let first = brackets.start.saturating_add(1);
    let mut next = if is_at(text, first, b'^') {
        first.saturating_add(1)
    } else {
        first
    };
    for at in first..end {
        if at == next {
            next = look_at_member(search, allowed, at, end)?;
        }
    }
    Ok(())
}

/// Examines a bracket expression.
pub(crate) fn look_at_brackets(
    search: &mut SuspectSearch<'_>,
    allowed: &KindSet,
    brackets: Span,
) -> Result<(), AllocError> {
    look_at_class(search, allowed, brackets)?;
    look_at_characters(search, allowed, brackets)?;
    look_at_ranges(search, allowed, brackets)
}
