//! Causes of names that aren't defined (E11), or are nested too deep (E12).

use crate::causes::{DepthCause, NameCause};
use crate::depth::{Depth, depth_from, mentions_of};
use crate::found::{Found, found_named};
use crate::names::{body_of, inside, names_in, number_of, substitute_of, visits_of};
use crate::outline::{ConditionLine, Outline};
use crate::places::Span;
use crate::scan::part;
use crate::sectioning::RuleExtent;
use crate::similar::Closest;
use std::alloc::{AllocError, Global};

// Returns the first name of an expression that isn't defined.
fn first_undefined(
    alloc: Global,
    outline: &Outline,
    text: &[u8],
    span: Span,
) -> Result<Option<Span>, AllocError> {
    for name in &names_in(alloc, text, span)? {
        if number_of(outline, text, *name).is_none() {
            return Ok(Some(*name));
        }
    }
    Ok(None)
}

/// Returns the first declaration of the condition whose name is at this place.
pub(crate) fn condition_named(
    conditions: &[ConditionLine],
    text: &[u8],
    name: Span,
) -> Option<Span> {
    for condition in conditions {
        if part(text, condition.name) == part(text, name) {
            return Some(condition.name);
        }
    }
    None
}

// Explains why the name in braces isn't defined. `at` is its place in the rule, or of the name that leads to it. `within` is its place in a
// definition.
fn undefined_cause(
    outline: &Outline,
    text: &[u8],
    braces: Span,
    at: Span,
    within: Option<Span>,
) -> (NameCause, Found) {
    let name = inside(braces);
    let mut place = found_named(at, name);
    place.note = within;
    if condition_named(&outline.conditions, text, name).is_some() {
        return (NameCause::Condition, place);
    }
    let word = part(text, name);
    let mut closest = Closest::to(word);
    for definition in &outline.definitions {
        closest = closest.or(text, word, definition.name);
    }
    match closest.name {
        Some(similar) => {
            place.other = similar;
            (NameCause::Similar, place)
        }
        None => (NameCause::NotDefined, place),
    }
}

/// Explains why a name to which the rule leads isn't defined.
pub(crate) fn name_cause(
    alloc: Global,
    outline: &Outline,
    text: &[u8],
    rule: RuleExtent,
) -> Result<(NameCause, Found), AllocError> {
    let body = body_of(text, rule.pattern);
    if let Some(braces) = first_undefined(alloc, outline, text, body)? {
        return Ok(undefined_cause(outline, text, braces, braces, None));
    }
    let visits = visits_of(alloc, outline, text, rule)?;
    for visit in &visits {
        let substitute = substitute_of(&outline.definitions, visit.definition);
        if let Some(braces) = first_undefined(alloc, outline, text, substitute)? {
            return Ok(undefined_cause(outline, text, braces, visit.via, Some(braces)));
        }
    }
    Ok((NameCause::Unknown, found_named(rule.pattern, rule.pattern)))
}

/// Explains why names are nested too deep.
pub(crate) fn depth_cause(
    alloc: Global,
    outline: &Outline,
    text: &[u8],
    rule: RuleExtent,
) -> Result<(DepthCause, Found), AllocError> {
    let visits = visits_of(alloc, outline, text, rule)?;
    let mut mentions = mentions_of(alloc, outline, text, &visits)?;
    let names = names_in(alloc, text, body_of(text, rule.pattern))?;
    for name in &names {
        let at = *name;
        if let Some(definition) = number_of(outline, text, at) {
            match depth_from(alloc, &mut mentions, definition)? {
                Some(Depth::Circle(mention)) => {
                    let mut place = found_named(at, inside(mention));
                    place.note = Some(mention);
                    return Ok((DepthCause::Circle, place));
                }
                Some(Depth::TooLong) => return Ok((
                    DepthCause::TooDeep,
                    found_named(at, inside(at)),
                )),
                None => {}
            }
        }
    }
    Ok((DepthCause::TooDeep, found_named(rule.pattern, rule.pattern)))
}
