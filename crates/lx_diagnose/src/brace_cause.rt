//! Causes of wrong text in braces (E10).

use crate::causes::PatternCause;
use crate::found::{Found, found_at, found_byte};
use crate::places::{Span, between};
use crate::scan::{begins_at, is_at, is_digit_at, is_word_at, part, skip_digits, skip_name};
use lx_rules::limits::MAX_BOUND;

// Returns the number that digits spell. For a large number, returns any large one.
fn number_in(text: &[u8], digits: Span) -> usize {
    let mut number: usize = 0;
    for digit in part(text, digits) {
        if number <= MAX_BOUND {
            number = number * 10 + usize::from(digit.saturating_sub(b'0'));
        }
    }
    number
}

// Returns the text up to and including the closing brace, or up to the end if there is none.
fn braces_at(text: &[u8], at: usize, end: usize) -> Span {
    for i in at..end {
        if is_at(text, i, b'}') {
            return between(at, i + 1);
        }
    }
    between(at, end)
}

// Explains why an interval that begins with these digits is malformed.
fn interval_cause(text: &[u8], at: usize, end: usize) -> (PatternCause, Found) {
    let braces = braces_at(text, at, end);
    let start = at.saturating_add(1);
    let low = between(start, skip_digits(text, start, end));
    let least = number_in(text, low);
    if least > MAX_BOUND {
        return (PatternCause::IntervalLarge, found_at(low));
    }
    let next = low.end().saturating_add(1);
    let high = between(next, skip_digits(text, next, end));
    if !is_at(text, low.end(), b',') || high.len == 0 || !is_at(text, high.end(), b'}') {
        return (PatternCause::IntervalForm, found_at(braces));
    }
    let most = number_in(text, high);
    if most > MAX_BOUND {
        (PatternCause::IntervalLarge, found_at(high))
    } else if least > most {
        (PatternCause::IntervalBackwards, found_at(braces))
    } else {
        (PatternCause::IntervalForm, found_at(braces))
    }
}

// Returns a name with hyphens that begins here, or `None` if there is none.
fn hyphened_name(text: &[u8], start: usize, end: usize) -> Option<Span> {
    if is_digit_at(text, start) || !is_at(text, skip_name(text, start, end), b'-') {
        return None;
    }
    for at in start..end {
        if is_at(text, at, b'}') {
            return Some(between(start, at));
        }
        if !is_word_at(text, at) && !is_at(text, at, b'-') {
            return None;
        }
    }
    None
}

/// Explains why the text from this brace on is neither a name nor an interval.
pub(crate) fn brace_cause(text: &[u8], at: usize, end: usize) -> (PatternCause, Found) {
    let start = at.saturating_add(1);
    if begins_at(text, at, b"{-}") || begins_at(text, at, b"{+}") {
        return (
            PatternCause::SetOperator,
            found_at(Span { start: at, len: 3 }),
        );
    }
    if is_digit_at(text, start) {
        return interval_cause(text, at, end);
    }
    if is_at(text, start, b',') && is_digit_at(text, start.saturating_add(1)) {
        return (
            PatternCause::IntervalLow,
            found_at(braces_at(text, at, end)),
        );
    }
    match hyphened_name(text, start, end) {
        Some(name) if is_word_at(text, start) => (PatternCause::NameHyphen, found_at(name)),
        _ => (PatternCause::BraceOpen, found_byte(at)),
    }
}
