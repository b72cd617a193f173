//! Causes of constructs that are open at the end of the text (E03).

use crate::causes::OpenCause;
use crate::found::{Found, found_at};
use crate::line_cause::is_rule;
use crate::outline::Outline;
use crate::places::{Span, between, one_byte};
use crate::scan::{begins_at, is_at, skip_blanks};
use crate::sectioning::RuleExtent;
use lx_spec::block::{Mode, counts, mode_after_line, next_mode};
use std::alloc::{AllocError, Global};

// The state of an action that was read up to a position.
#[derive(Drop)]
struct ActionReading {
    mode: Mode,
    // Open braces, the outermost first.
    braces: Vec<Span>,
    // Start of the last comment.
    comment: Span,
    // First closing brace that doesn't count while one is open: it is in a comment or in quotes.
    hidden: Option<Span>,
}

fn is_comment(mode: Mode) -> bool {
    matches!(mode, Mode::Comment | Mode::Star)
}

fn take_brace(reading: &mut ActionReading, byte: u8, at: usize) -> Result<(), AllocError> {
    let counts = counts(reading.mode);
    if byte == b'{' && counts {
        reading.braces.push(one_byte(at))?;
    } else if byte == b'}' && counts {
        let _ = reading.braces.pop();
    } else if byte == b'}' && reading.hidden.is_none() && !reading.braces.is_empty() {
        reading.hidden = Some(one_byte(at));
    }
    Ok(())
}

fn take_byte(reading: &mut ActionReading, byte: u8, at: usize) -> Result<(), AllocError> {
    if byte == b'\n' {
        reading.mode = mode_after_line(reading.mode);
        return Ok(());
    }
    take_brace(reading, byte, at)?;
    let mode = next_mode(reading.mode, byte);
    if is_comment(mode) && !is_comment(reading.mode) {
        reading.comment = Span {
            start: at.saturating_sub(1),
            len: 2,
        };
    }
    reading.mode = mode;
    Ok(())
}

// Returns the first further line of an action that reads as a rule.
fn next_rule(alloc: Global, text: &[u8], action: Span) -> Result<Option<Span>, AllocError> {
    for at in action.start..action.end() {
        if is_at(text, at, b'\n') {
            let start = at.saturating_add(1);
            let line = between(start, line_end(text, start));
            if is_rule(alloc, text, line)? {
                return Ok(Some(line));
            }
        }
    }
    Ok(None)
}

fn line_end(text: &[u8], start: usize) -> usize {
    for at in start..text.len() {
        if is_at(text, at, b'\n') || is_at(text, at, b'\r') {
            return at;
        }
    }
    text.len()
}

fn action_cause(
    alloc: Global,
    text: &[u8],
    rule: RuleExtent,
) -> Result<(OpenCause, Found), AllocError> {
    let mut reading = ActionReading {
        mode: Mode::Code,
        braces: Vec::new(alloc),
        comment: rule.action,
        hidden: None,
    };
    for at in rule.action.start..rule.action.end() {
        if at < text.len() {
            take_byte(&mut reading, text[at], at)?;
        }
    }
    if is_comment(reading.mode) {
        return Ok((OpenCause::ActionComment, found_at(reading.comment)));
    }
    let opened = match reading.braces.first() {
        Some(brace) if brace.start < rule.line.end() => *brace,
        _ => rule.action,
    };
    let mut place = found_at(opened);
    match reading.hidden {
        Some(hidden) => {
            place.other = hidden;
            place.note = Some(hidden);
            Ok((OpenCause::HiddenBrace, place))
        }
        None => {
            place.note = next_rule(alloc, text, rule.action)?;
            Ok((OpenCause::Action, place))
        }
    }
}

// Returns the first `%}` after a position that has blanks before it on its line.
fn indented_close(text: &[u8], from: usize) -> Option<Span> {
    for at in from..text.len() {
        if is_at(text, at, b'\n') {
            let behind = skip_blanks(text, at.saturating_add(1), text.len());
            if begins_at(text, behind, b"%}") {
                return Some(Span {
                    start: behind,
                    len: 2,
                });
            }
        }
    }
    None
}

/// Explains why a construct that begins on a line is open at the end of the text.
pub(crate) fn open_cause(
    alloc: Global,
    text: &[u8],
    outline: &Outline,
    line: Span,
) -> Result<(OpenCause, Found), AllocError> {
    if let Some(rule) = outline.rule {
        return action_cause(alloc, text, rule);
    }
    let mut place = found_at(Span {
        start: line.start,
        len: 2,
    });
    if begins_at(text, line.start, b"%{") {
        place.note = indented_close(text, line.start);
        return Ok((OpenCause::Group, place));
    }
    if begins_at(text, line.start, b"/*") {
        return Ok((OpenCause::Comment, place));
    }
    Ok((OpenCause::NotClosed, found_at(line)))
}
