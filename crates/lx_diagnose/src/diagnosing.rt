//! Finds a cause and a place from a code and a line.

ghost use Rattle.std.specs.Prelude.{◌≡◌, IfOk, IfSome};
ghost use Rattle.lx_diagnose.specs.Causes.{code_of};
ghost use Rattle.lx_diagnose.specs.Places.{IsInText};

use crate::action_cause::action_cause;
use crate::causes::Cause;
use crate::condition_cause::condition_cause;
use crate::found::{Found, found_at};
use crate::general::general_cause;
use crate::line_cause::line_cause;
use crate::lines::{line_span, place_in, place_of};
use crate::name_cause::{depth_cause, name_cause};
use crate::open_cause::open_cause;
use crate::outline::{Outline, outline_of};
use crate::pattern_cause::pattern_cause;
use crate::places::{Span, TextPlace};
use crate::section_cause::{limit_cause, rules_cause, twice_cause};
use crate::sectioning::RuleExtent;
use lx_spec::{Code, SpecFault};
use std::alloc::{AllocError, Global};

/// The reason why a specification is rejected, and its place.
#[derive(Clone, Copy)]
pub struct Diagnosis {
    pub cause: Cause,
    /// The place of the cause, in the line of the fault. The column is 0 if the cause isn't in that line.
    pub place: TextPlace,
    /// Part of the text that is the name in the sentence.
    pub name: Span,
    /// Part of the text that is the other name, for example a declared name that is similar.
    pub other: Span,
    /// A second place: of the first declaration of a name, in a definition, or on another line of an action. `note_words` describes it.
    pub note: Option<TextPlace>,
}

// Returns the second place: the one that the cause names, or the cause's own place if that is on another line than the fault.
fn note_of(text: &[u8], place: TextPlace, found: Found) -> Option<TextPlace>
    ensures { IfSome result (IsInText text.now) }
{
    match found.note {
        Some(span) => Some(place_of(text, span)),
        None => {
            if place.line > 0 && place.column == 0 {
                Some(place_of(text, found.at))
            } else {
                None
            }
        }
    }
}

fn diagnosis_of(text: &[u8], line: u32, cause: Cause, found: Found) -> Diagnosis
    ensures cause { result.cause ≡ cause }
    ensures line { result.place.line ≡ line }
    ensures place { IsInText text.now result.place }
    ensures note { IfSome result.note (IsInText text.now) }
{
    let place = place_in(text, line, found.at);
    Diagnosis {
        cause,
        place,
        name: found.name,
        other: found.other,
        note: note_of(text, place, found),
    }
}

// Returns the cause of a fault on the line of a rule.
fn cause_in_rule(
    alloc: Global,
    text: &[u8],
    outline: &Outline,
    rule: RuleExtent,
    fault: SpecFault,
) -> Result<(Cause, Found), AllocError>
    ensures { IfOk result (λ r. code_of r.0 ≡ fault.code) }
{
    match fault.code {
        Code::NoReading => {
            let (cause, found) = pattern_cause(alloc, outline, text, rule)?;
            Ok((Cause::NoReading(cause), found))
        }
        Code::Undefined => {
            let (cause, found) = name_cause(alloc, outline, text, rule)?;
            Ok((Cause::Undefined(cause), found))
        }
        Code::TooDeep => {
            let (cause, found) = depth_cause(alloc, outline, text, rule)?;
            Ok((Cause::TooDeep(cause), found))
        }
        Code::NoCondition => {
            let (cause, found) = condition_cause(alloc, outline, text, rule)?;
            Ok((Cause::NoCondition(cause), found))
        }
        Code::NoAction => {
            let (cause, found) = action_cause(alloc, text, rule)?;
            Ok((Cause::NoAction(cause), found))
        }
        Code::NoNext => Ok((Cause::NoNext, found_at(rule.action))),
        _ => cause_in_line(alloc, text, outline, fault),
    }
}

// Returns the cause of a fault of the sections, or of one with no further details.
fn cause_in_line(
    alloc: Global,
    text: &[u8],
    outline: &Outline,
    fault: SpecFault,
) -> Result<(Cause, Found), AllocError>
    ensures { IfOk result (λ r. code_of r.0 ≡ fault.code) }
{
    let line = line_span(text, fault.line);
    match fault.code {
        Code::NoRules => {
            let (cause, found) = rules_cause(outline, text);
            Ok((Cause::NoRules(cause), found))
        }
        Code::NotClosed => {
            let (cause, found) = open_cause(alloc, text, outline, line)?;
            Ok((Cause::NotClosed(cause), found))
        }
        Code::NoForm => {
            let (cause, found) = line_cause(alloc, text, line)?;
            Ok((Cause::NoForm(cause), found))
        }
        Code::Twice => {
            let (cause, found) = twice_cause(outline, text, fault.line, line);
            Ok((Cause::Twice(cause), found))
        }
        Code::TooMany => {
            let (cause, found) = limit_cause(outline, fault.line, line);
            Ok((Cause::TooMany(cause), found))
        }
        code => Ok((general_cause(code), found_at(line))),
    }
}

fn cause_of(alloc: Global, text: &[u8], fault: SpecFault) -> Result<(Cause, Found), AllocError>
    ensures { IfOk result (λ r. code_of r.0 ≡ fault.code) }
{
    let outline = outline_of(alloc, text, fault.line)?;
    match outline.rule {
        Some(rule) => cause_in_rule(alloc, text, &outline, rule, fault),
        None => cause_in_line(alloc, text, &outline, fault),
    }
}

/// Explains why a text is rejected with this code and line, as [`lx_spec::read_spec`] rejects it. Err: an allocation failed.
///
/// For any other text, code and line the diagnosis is useless, but its cause belongs to the code and its place is in the text.
pub fn diagnose(alloc: Global, text: &[u8], fault: SpecFault) -> Result<Diagnosis, AllocError>
    ensures code { IfOk result (λ d. code_of d.cause ≡ fault.code) }
    ensures line { IfOk result (λ d. d.place.line ≡ fault.line) }
    ensures place { IfOk result (λ d. IsInText text.now d.place) }
    ensures note { IfOk result (λ d. IfSome d.note (IsInText text.now)) }
{
    let (cause, found) = cause_of(alloc, text, fault)?;
    Ok(diagnosis_of(text, fault.line, cause, found))
}
