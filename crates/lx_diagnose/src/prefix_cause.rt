//! Causes of wrong text before a pattern (E10).

use crate::causes::PatternCause;
use crate::found::{Found, found_at, found_byte, found_named};
use crate::places::{Span, between};
use crate::scan::{
    begins_at, is_at, is_digit_at, is_word_at, next_blank, part, skip_blanks, skip_name,
    trim_blanks_end,
};
use crate::sectioning::{PrefixExtent, RuleExtent};
use lx_spec::action::read_action;
use std::alloc::{AllocError, Global};

// Start of a flex rule for the end of a file, which is no pattern.
const END_OF_FILE: &[u8] = b"<<EOF>>";

// Returns true if the text from `start` up to `end` is the name of a condition, or `0`.
fn is_name_in(text: &[u8], start: usize, end: usize) -> bool {
    start < end && !is_digit_at(text, start) && skip_name(text, start, end) == end
        || part(text, between(start, end)) == b"0".as_slice()
}

// Returns the first text between commas that isn't the name of a condition.
fn first_other(text: &[u8], names: Span) -> Option<Span> {
    let mut start = names.start;
    let end = names.end();
    for at in names.start..end {
        if is_at(text, at, b',') {
            if !is_name_in(text, start, at) {
                return Some(between(start, at));
            }
            start = at + 1;
        }
    }
    if is_name_in(text, start, end) {
        None
    } else {
        Some(between(start, end))
    }
}

// Returns true if the field is a name with blanks before or after it.
fn is_name_with_blanks(text: &[u8], field: Span) -> bool {
    let end = field.end();
    let start = skip_blanks(text, field.start, end);
    next_blank(text, field.start, end) < end
        && is_name_in(text, start, trim_blanks_end(text, start, end))
}

fn listed_cause(text: &[u8], line: Span, names: Span) -> Option<(PatternCause, Found)> {
    let Some(other) = first_other(text, names) else {
        return None;
    };
    if part(text, names) == b"*".as_slice() {
        let list = Span {
            start: line.start,
            len: 3,
        };
        return Some((PatternCause::AllConditions, found_at(list)));
    }
    if is_name_with_blanks(text, other) {
        return Some((PatternCause::PrefixBlank, found_at(other)));
    }
    if is_word_at(text, names.start) {
        Some((PatternCause::PrefixName, found_at(other)))
    } else {
        Some((PatternCause::PrefixOperator, found_byte(line.start)))
    }
}

fn unclosed_cause(text: &[u8], line: Span) -> (PatternCause, Found) {
    let opening = found_byte(line.start);
    if is_word_at(text, line.start.saturating_add(1)) {
        (PatternCause::PrefixName, opening)
    } else {
        (PatternCause::PrefixOperator, opening)
    }
}

fn cause_after_list(text: &[u8], rule: RuleExtent) -> Option<(PatternCause, Found)> {
    if rule.pattern.len == 0 {
        let behind = Span {
            start: rule.pattern.start,
            len: 0,
        };
        return Some((PatternCause::PatternMissing, found_at(behind)));
    }
    if part(text, rule.pattern) == b"{".as_slice() {
        return Some((
            PatternCause::Scope,
            found_named(rule.pattern, between(rule.line.start, rule.pattern.start)),
        ));
    }
    None
}

// Explains a comment that is read as a pattern. `//` without more may be meant as a pattern.
fn comment_cause(
    alloc: Global,
    text: &[u8],
    rule: RuleExtent,
) -> Result<Option<(PatternCause, Found)>, AllocError> {
    let mark = Span {
        start: rule.pattern.start,
        len: 2,
    };
    if begins_at(text, mark.start, b"/*")
        || begins_at(text, mark.start, b"//")
            && read_action(alloc, part(text, rule.action))?.is_none()
    {
        Ok(Some((PatternCause::CommentLine, found_at(mark))))
    } else {
        Ok(None)
    }
}

/// Explains why a rule is unreadable, if this shows before its pattern is read.
pub(crate) fn prefix_cause(
    alloc: Global,
    text: &[u8],
    rule: RuleExtent,
) -> Result<Option<(PatternCause, Found)>, AllocError> {
    if begins_at(text, rule.line.start, END_OF_FILE) {
        let word = Span {
            start: rule.line.start,
            len: END_OF_FILE.len(),
        };
        return Ok(Some((PatternCause::EndOfFile, found_at(word))));
    }
    match rule.prefix {
        PrefixExtent::Absent => comment_cause(alloc, text, rule),
        PrefixExtent::Unclosed => Ok(Some(unclosed_cause(text, rule.line))),
        PrefixExtent::Listed(names) => match listed_cause(text, rule.line, names) {
            Some(cause) => Ok(Some(cause)),
            None => {
                let behind = Span {
                    start: rule.pattern.start,
                    len: END_OF_FILE.len(),
                };
                if part(text, behind) == END_OF_FILE {
                    Ok(Some((PatternCause::EndOfFile, found_at(behind))))
                } else {
                    Ok(cause_after_list(text, rule))
                }
            }
        },
    }
}
