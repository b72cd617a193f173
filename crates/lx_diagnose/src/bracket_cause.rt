//! Causes of bracket expressions (E10).

use crate::causes::PatternCause;
use crate::escape_cause::{escape_cause, escape_len};
use crate::found::{Found, found_at, found_byte, found_named};
use crate::places::{Span, between};
use crate::scan::{begins_at, find, is_at, is_listed, part, skip_name};
use lx_ere::escape::escape_at;

// Classes of XBD 9.3.5.
const CLASSES: &[u8] =
    b" upper lower alpha digit alnum xdigit space blank punct print graph cntrl ";

// The result of reading one member of the brackets.
#[derive(Clone, Copy)]
enum MemberReading {
    // The member was read, up to this position.
    Upto(usize),
    // The member is malformed.
    Bad(PatternCause, Found),
}

// Returns true if a `-` follows that isn't directly before the closing bracket.
fn range_follows(text: &[u8], at: usize) -> bool {
    is_at(text, at, b'-') && !is_at(text, at.saturating_add(1), b']')
}

// Returns the text from `[:`, `[.` or `[=` up to the matching mark, including both.
fn marked_at(text: &[u8], at: usize, end: usize, close: &[u8]) -> Option<Span> {
    match find(text, at.saturating_add(2), end, close) {
        Some(last) => Some(between(at, last.saturating_add(2))),
        None => None,
    }
}

// Reads a class from its `[:` on.
fn class_member(text: &[u8], at: usize, end: usize) -> MemberReading {
    let Some(class) = marked_at(text, at, end, b":]") else {
        return MemberReading::Bad(
            PatternCause::ClassUnknown,
            found_at(Span { start: at, len: 2 }),
        );
    };
    let name = between(at.saturating_add(2), class.end().saturating_sub(2));
    if is_at(text, name.start, b'^') {
        let positive = between(name.start.saturating_add(1), name.end());
        return MemberReading::Bad(PatternCause::ClassNegated, found_named(class, positive));
    }
    if skip_name(text, name.start, name.end()) < name.end()
        || !is_listed(CLASSES, part(text, name))
    {
        return MemberReading::Bad(PatternCause::ClassUnknown, found_named(class, name));
    }
    if range_follows(text, class.end()) {
        return MemberReading::Bad(PatternCause::ClassRange, found_at(class));
    }
    MemberReading::Upto(class.end())
}

// Reads one byte between marks, as in `[.c.]`.
fn collation_member(text: &[u8], at: usize, end: usize, close: &[u8]) -> MemberReading {
    match marked_at(text, at, end, close) {
        Some(element) if element.len == 5 => MemberReading::Upto(element.end()),
        Some(element) => MemberReading::Bad(PatternCause::LongCollation, found_at(element)),
        None => MemberReading::Bad(
            PatternCause::LongCollation,
            found_at(Span { start: at, len: 2 }),
        ),
    }
}

// Reads a point of a range: one byte, maybe escaped or between marks.
fn point_member(text: &[u8], at: usize, end: usize) -> MemberReading {
    if is_at(text, at, b'\\') {
        return match escape_len(text, at, end) {
            Some(len) => MemberReading::Upto(at.saturating_add(1).saturating_add(len)),
            None => {
                let (cause, place) = escape_cause(text, at, end);
                MemberReading::Bad(cause, place)
            }
        };
    }
    if begins_at(text, at, b"[.") {
        return collation_member(text, at, end, b".]");
    }
    MemberReading::Upto(at.saturating_add(1))
}

// Returns the byte of a point.
fn point_byte(text: &[u8], point: Span) -> u8 {
    match part(text, point) {
        [b'\\', rest @ ..] => match escape_at(rest) {
            Some((byte, _)) => byte,
            None => 0,
        },
        [b'[', b'.', byte, ..] => *byte,
        [byte, ..] => *byte,
        [] => 0,
    }
}

// Reads the end of a range whose first point is known.
fn range_member(text: &[u8], low: Span, end: usize) -> MemberReading {
    let at = low.end().saturating_add(1);
    if begins_at(text, at, b"[:") || begins_at(text, at, b"[=") {
        return MemberReading::Bad(
            PatternCause::ClassRange,
            found_at(Span { start: at, len: 2 }),
        );
    }
    match point_member(text, at, end) {
        MemberReading::Bad(cause, place) => MemberReading::Bad(cause, place),
        MemberReading::Upto(behind) => {
            let high = between(at, behind);
            if point_byte(text, low) > point_byte(text, high) {
                MemberReading::Bad(
                    PatternCause::RangeBackwards,
                    found_at(between(low.start, behind)),
                )
            } else if range_follows(text, behind) {
                MemberReading::Bad(PatternCause::RangeShared, found_at(high))
            } else {
                MemberReading::Upto(behind)
            }
        }
    }
}

// Reads the member that begins at this position.
fn member_at(text: &[u8], at: usize, end: usize) -> MemberReading {
    if begins_at(text, at, b"[:") {
        return class_member(text, at, end);
    }
    if begins_at(text, at, b"[=") {
        return collation_member(text, at, end, b"=]");
    }
    match point_member(text, at, end) {
        MemberReading::Bad(cause, place) => MemberReading::Bad(cause, place),
        MemberReading::Upto(behind) => {
            if range_follows(text, behind) && behind.saturating_add(1) < end {
                range_member(text, between(at, behind), end)
            } else {
                MemberReading::Upto(behind)
            }
        }
    }
}

/// Explains why the bracket at this position begins no bracket expression.
pub(crate) fn bracket_cause(text: &[u8], at: usize, end: usize) -> (PatternCause, Found) {
    let opening = at.saturating_add(1);
    let first = if is_at(text, opening, b'^') {
        opening.saturating_add(1)
    } else {
        opening
    };
    let mut next = first;
    for i in first..end {
        if i < next {
            continue;
        }
        if i > first && is_at(text, i, b']') {
            return (PatternCause::NoReading, found_at(between(at, i + 1)));
        }
        match member_at(text, i, end) {
            MemberReading::Upto(behind) => next = behind,
            MemberReading::Bad(cause, place) => return (cause, place),
        }
    }
    (PatternCause::BracketsOpen, found_byte(at))
}
