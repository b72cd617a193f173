//! Causes of escapes and of quoted strings (E10).

use crate::causes::PatternCause;
use crate::found::{Found, found_at, found_byte};
use crate::places::{Span, between};
use crate::scan::{is_at, part};
use lx_ere::escape::escape_at;

fn is_hexadecimal_at(text: &[u8], at: usize) -> bool {
    at < text.len() && text[at].is_ascii_hexdigit()
}

fn is_octal_at(text: &[u8], at: usize) -> bool {
    at < text.len() && b'0' <= text[at] && text[at] < b'8'
}

// Returns the position after the digits of an escape. At most three digits count if they are octal.
fn skip_number(text: &[u8], start: usize, end: usize) -> usize {
    if is_at(text, start, b'x') {
        let digits = start.saturating_add(1);
        for at in digits..end {
            if !is_hexadecimal_at(text, at) {
                return at;
            }
        }
        return end;
    }
    for at in start..end.min(start.saturating_add(3)) {
        if !is_octal_at(text, at) {
            return at;
        }
    }
    end.min(start.saturating_add(3))
}

/// Explains why the backslash at this position begins no escape.
pub(crate) fn escape_cause(text: &[u8], at: usize, end: usize) -> (PatternCause, Found) {
    let start = at.saturating_add(1);
    if start >= end {
        (PatternCause::EscapeEnd, found_byte(at))
    } else {
        (
            PatternCause::EscapeLarge,
            found_at(between(at, skip_number(text, start, end))),
        )
    }
}

/// Returns the number of bytes of the escape after a backslash, or `None` if there is no escape.
pub(crate) fn escape_len(text: &[u8], at: usize, end: usize) -> Option<usize> {
    let behind = part(text, between(at.saturating_add(1), end));
    match escape_at(behind) {
        Some((_, rest)) => Some(behind.len().saturating_sub(rest.len())),
        None => None,
    }
}

/// Explains why the quote at this position begins no string.
pub(crate) fn quote_cause(text: &[u8], at: usize, end: usize) -> (PatternCause, Found) {
    let start = at.saturating_add(1);
    if is_at(text, start, b'"') {
        return (
            PatternCause::QuoteEmpty,
            found_at(Span { start: at, len: 2 }),
        );
    }
    let mut next = start;
    for i in start..end {
        if i < next {
            continue;
        }
        if is_at(text, i, b'"') {
            break;
        }
        if is_at(text, i, b'\\') {
            match escape_len(text, i, end) {
                Some(len) => next = (i + 1).saturating_add(len),
                None => return escape_cause(text, i, end),
            }
        }
    }
    (PatternCause::QuoteOpen, found_at(between(at, end)))
}
