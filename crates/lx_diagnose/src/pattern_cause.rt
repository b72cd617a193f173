//! Causes of unreadable patterns and substitutes (E10).

use crate::body_cause::{Body, body_cause};
use crate::causes::PatternCause;
use crate::found::{Found, found_at};
use crate::names::{body_of, substitute_of, visits_of};
use crate::outline::Outline;
use crate::places::Span;
use crate::prefix_cause::prefix_cause;
use crate::scan::is_at;
use crate::sectioning::RuleExtent;
use lx_ere::read::MAX_PATTERN_BYTES;
use std::alloc::{AllocError, Global};

// Explains why a text is unreadable as a pattern or as a substitute. Looks at no more than the text.
fn text_cause(
    alloc: Global,
    text: &[u8],
    body: Body,
    whole: Span,
) -> Result<Option<(PatternCause, Found)>, AllocError> {
    if whole.len > MAX_PATTERN_BYTES {
        return Ok(Some((PatternCause::TooLong, found_at(whole))));
    }
    let span = match body {
        Body::Pattern => body_of(text, whole),
        Body::Substitute => whole,
    };
    match body_cause(alloc, text, body, span)? {
        Some((PatternCause::NothingButAnchors, _)) => Ok(Some((
            PatternCause::NothingButAnchors,
            found_at(whole),
        ))),
        Some((cause, found)) => Ok(Some((cause_by_quotes(text, span, cause, found), found))),
        None => Ok(None),
    }
}

// Refines the cause of an empty or open string. If the expression begins with a quote, an earlier quote was probably meant as a byte.
fn cause_by_quotes(text: &[u8], span: Span, cause: PatternCause, found: Found) -> PatternCause {
    let at = found.at.start;
    if !is_at(text, span.start, b'"') {
        return cause;
    }
    match cause {
        PatternCause::QuoteEmpty if at > span.start || is_at(text, at.saturating_add(2), b'"') =>
            PatternCause::QuoteInside,
        PatternCause::QuoteOpen if at > span.start => PatternCause::QuoteInside,
        _ => cause,
    }
}

// Returns the cause of the first definition to which the rule leads whose substitute is unreadable. The place is the name in the rule, and the second
// place is in the definition.
fn definition_cause(
    alloc: Global,
    outline: &Outline,
    text: &[u8],
    rule: RuleExtent,
) -> Result<Option<(PatternCause, Found)>, AllocError> {
    let visits = visits_of(alloc, outline, text, rule)?;
    for visit in &visits {
        let substitute = substitute_of(&outline.definitions, visit.definition);
        if let Some((cause, place)) = text_cause(alloc, text, Body::Substitute, substitute)? {
            return Ok(Some((
                cause,
                Found {
                    at: visit.via,
                    name: place.name,
                    other: place.other,
                    note: Some(place.at),
                },
            )));
        }
    }
    Ok(None)
}

/// Explains why a rule is unreadable: its list of conditions, its pattern, or a substitute to which it leads.
pub(crate) fn pattern_cause(
    alloc: Global,
    outline: &Outline,
    text: &[u8],
    rule: RuleExtent,
) -> Result<(PatternCause, Found), AllocError> {
    if let Some(cause) = prefix_cause(alloc, text, rule)? {
        return Ok(cause);
    }
    if let Some(cause) = text_cause(alloc, text, Body::Pattern, rule.pattern)? {
        return Ok(cause);
    }
    match definition_cause(alloc, outline, text, rule)? {
        Some(cause) => Ok(cause),
        None => Ok((PatternCause::NoReading, found_at(rule.pattern))),
    }
}
