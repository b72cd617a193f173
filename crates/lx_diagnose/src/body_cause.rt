//! Causes of unreadable expressions (E10): the position where reading stops, and the reason.

use crate::brace_cause::brace_cause;
use crate::bracket_cause::bracket_cause;
use crate::causes::PatternCause;
use crate::escape_cause::{escape_cause, quote_cause};
use crate::found::{Found, found_at, found_byte};
use crate::places::{Span, between};
use crate::scan::{is_at, is_blank_at, part};
use lx_ere::lexeme::{Lexeme, lexeme_at};
use std::alloc::{AllocError, Global};

/// The text that is read: the pattern of a rule after its `^`, or a substitute, which has no anchors.
#[derive(Clone, Copy)]
pub(crate) enum Body {
    Pattern,
    Substitute,
}

// An open group from its parenthesis on, or the part outside all groups. Its flags are true if anything follows its last bar, and if it ends with a
// unit that can be repeated.
#[derive(Clone, Copy)]
struct Group {
    opened: usize,
    is_filled: bool,
    ends_with_unit: bool,
}

// The effect of a lexeme on the groups.
#[derive(Clone, Copy)]
enum LexemeEffect {
    Unit,
    Repeat,
    Interval,
    Open,
    Close,
    Bar,
}

// The open groups, the innermost last, and a flag that is true if an interval was read last.
#[derive(Drop)]
struct OpenGroups {
    outer: Vec<Group>,
    innermost: Group,
    behind_interval: bool,
}

fn kind_of(lexeme: &Lexeme) -> LexemeEffect {
    match lexeme {
        Lexeme::Set(_) | Lexeme::Quoted(_, _) | Lexeme::Name(_) | Lexeme::EmptyWord => {
            LexemeEffect::Unit
        }
        Lexeme::Interval(_, _) => LexemeEffect::Interval,
        Lexeme::OpenGroup => LexemeEffect::Open,
        Lexeme::CloseGroup => LexemeEffect::Close,
        Lexeme::Repeat(_, _) => LexemeEffect::Repeat,
        Lexeme::Bar => LexemeEffect::Bar,
    }
}

fn empty_group(opened: usize) -> Group {
    Group {
        opened,
        is_filled: false,
        ends_with_unit: false,
    }
}

// Explains why a repeat isn't allowed here.
fn repeat_cause(text: &[u8], at: Span, groups: &OpenGroups) -> PatternCause {
    let behind_parenthesis = at.start > 0 && groups.innermost.opened == at.start - 1;
    if is_at(text, at.start, b'?') && behind_parenthesis && !groups.outer.is_empty() {
        PatternCause::GroupOption
    } else if groups.behind_interval {
        PatternCause::RepeatBehindInterval
    } else {
        PatternCause::NothingToRepeat
    }
}

fn close_group(groups: &mut OpenGroups) -> Option<PatternCause> {
    if groups.outer.is_empty() {
        return Some(PatternCause::GroupNotOpen);
    }
    if !groups.innermost.is_filled {
        return Some(PatternCause::EmptyAlternative);
    }
    if let Some(outer) = groups.outer.pop() {
        groups.innermost = Group {
            opened: outer.opened,
            is_filled: true,
            ends_with_unit: true,
        };
    }
    None
}

// Returns the innermost group after a lexeme that belongs to no group. Returns `None` if the lexeme isn't allowed there.
fn with_lexeme(group: Group, kind: LexemeEffect) -> Option<Group> {
    match kind {
        LexemeEffect::Unit => Some(Group {
            opened: group.opened,
            is_filled: true,
            ends_with_unit: true,
        }),
        LexemeEffect::Repeat => if group.ends_with_unit {
            Some(group)
        } else {
            None
        },
        LexemeEffect::Interval => if group.is_filled {
            Some(Group {
                opened: group.opened,
                is_filled: true,
                ends_with_unit: false,
            })
        } else {
            None
        },
        LexemeEffect::Bar => if group.is_filled {
            Some(empty_group(group.opened))
        } else {
            None
        },
        LexemeEffect::Open | LexemeEffect::Close => Some(group),
    }
}

// Takes a lexeme. Returns the cause if it isn't allowed at its place.
fn take_lexeme(
    text: &[u8],
    groups: &mut OpenGroups,
    kind: LexemeEffect,
    at: Span,
) -> Result<Option<PatternCause>, AllocError> {
    match kind {
        LexemeEffect::Open => {
            groups.outer.push(groups.innermost)?;
            groups.innermost = empty_group(at.start);
            groups.behind_interval = false;
            Ok(None)
        }
        LexemeEffect::Close => {
            groups.behind_interval = false;
            Ok(close_group(groups))
        }
        _ => match with_lexeme(groups.innermost, kind) {
            Some(group) => {
                groups.innermost = group;
                groups.behind_interval = matches!(kind, LexemeEffect::Interval);
                Ok(None)
            }
            None => Ok(Some(match kind {
                LexemeEffect::Repeat | LexemeEffect::Interval => repeat_cause(text, at, groups),
                _ => PatternCause::EmptyAlternative,
            })),
        },
    }
}

// Explains why a slash isn't allowed at its place.
fn slash_cause(text: &[u8], span: Span, at: usize) -> (PatternCause, Found) {
    let next = at.saturating_add(1);
    let end = span.end();
    if at == span.start || next == end || is_at(text, next, b'/') {
        (PatternCause::Slash, found_byte(at))
    } else {
        (PatternCause::LookAhead, found_at(between(at, end)))
    }
}

fn anchor_cause(body: Body, is_outermost: bool, inside: PatternCause) -> PatternCause {
    match body {
        Body::Substitute if is_outermost => PatternCause::DefinitionAnchor,
        _ => inside,
    }
}

fn blank_cause(text: &[u8], span: Span, at: usize) -> (PatternCause, Found) {
    if is_at(text, span.start, b'=') || is_at(text, span.start, b':') {
        (PatternCause::DefinitionEquals, found_byte(span.start))
    } else {
        (PatternCause::DefinitionBlank, found_byte(at))
    }
}

// Explains why the text at this position spells no lexeme.
fn spelling_cause(text: &[u8], body: Body, span: Span, at: usize) -> (PatternCause, Found) {
    let here = found_byte(at);
    let end = span.end();
    if is_at(text, at, b'\\') {
        escape_cause(text, at, end)
    } else if is_at(text, at, b'"') {
        quote_cause(text, at, end)
    } else if is_at(text, at, b'[') {
        bracket_cause(text, at, end)
    } else if is_at(text, at, b'{') {
        brace_cause(text, at, end)
    } else if is_at(text, at, b'/') {
        slash_cause(text, span, at)
    } else if is_at(text, at, b'^') {
        (
            anchor_cause(body, at == span.start, PatternCause::CaretInside),
            here,
        )
    } else if is_at(text, at, b'$') {
        (
            anchor_cause(
                body,
                at.saturating_add(1) == end,
                PatternCause::DollarInside,
            ),
            here,
        )
    } else if is_blank_at(text, at) {
        blank_cause(text, span, at)
    } else {
        (PatternCause::OddByte, here)
    }
}

// Returns true if a pattern may end with the text at this position.
fn is_ending(text: &[u8], body: Body, at: usize, end: usize) -> bool {
    let rest = part(text, between(at, end));
    match body {
        Body::Pattern => rest.is_empty() || rest == b"$".as_slice() || rest == b"/\\n".as_slice(),
        Body::Substitute => rest.is_empty(),
    }
}

// Explains why reading can't end after the last spelling. Returns `None` if it can.
fn end_cause(
    text: &[u8],
    body: Body,
    span: Span,
    at: usize,
    groups: &OpenGroups,
) -> Option<(PatternCause, Found)> {
    let end = span.end();
    let is_open = !groups.outer.is_empty();
    if !is_ending(text, body, at, end) || is_open && at < end {
        return Some(spelling_cause(text, body, span, at));
    }
    if is_open {
        let opening = found_byte(groups.innermost.opened);
        return Some((PatternCause::ParenthesisOpen, opening));
    }
    if groups.innermost.is_filled {
        return None;
    }
    if at == span.start {
        Some((PatternCause::NothingButAnchors, found_at(span)))
    } else {
        Some((
            PatternCause::EmptyAlternative,
            found_byte(at.saturating_sub(1)),
        ))
    }
}

/// Explains why an expression is unreadable. Returns `None` if it is readable.
pub(crate) fn body_cause(
    alloc: Global,
    text: &[u8],
    body: Body,
    span: Span,
) -> Result<Option<(PatternCause, Found)>, AllocError> {
    let mut groups = OpenGroups {
        outer: Vec::new(alloc),
        innermost: empty_group(span.start),
        behind_interval: false,
    };
    let end = span.end();
    let mut rest = part(text, span);
    for _ in 0..span.len {
        let Some((lexeme, behind)) = lexeme_at(alloc, rest)? else {
            break;
        };
        let at = between(
            end.saturating_sub(rest.len()),
            end.saturating_sub(behind.len()),
        );
        if let Some(cause) = take_lexeme(text, &mut groups, kind_of(&lexeme), at)? {
            return Ok(Some((cause, found_at(at))));
        }
        rest = behind;
    }
    let at = end.saturating_sub(rest.len());
    Ok(end_cause(text, body, span, at, &groups))
}
