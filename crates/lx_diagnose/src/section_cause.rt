//! Causes of names declared twice (E05), of exceeded limits (E06), and of a text without rules section (E02).

use crate::causes::{LimitCause, RulesCause, TwiceCause};
use crate::found::{Found, found_at, found_noted};
use crate::name_cause::condition_named;
use crate::outline::{ConditionLine, DefinitionLine, Outline};
use crate::places::{Span, between};
use crate::scan::{begins_at, is_at, is_blank_at, part, skip_blanks, skip_name};

// The first words of actions.
const RETURN: &[u8] = b"return";

const BEGIN: &[u8] = b"BEGIN";

// Returns the first of the definitions with this name.
fn definition_named(definitions: &[DefinitionLine], text: &[u8], name: Span) -> Option<Span> {
    for definition in definitions {
        if part(text, definition.name) == part(text, name) {
            return Some(definition.name);
        }
    }
    None
}

// Returns the later place of a name that is declared twice, with the first place.
fn repeated_name(name: Span, first: Option<Span>) -> Option<Found> {
    match first {
        Some(first) => if first.start < name.start {
            Some(found_noted(name, first))
        } else {
            None
        },
        None => None,
    }
}

fn definition_again(outline: &Outline, text: &[u8], line: u32) -> Option<Found> {
    for definition in &outline.definitions {
        if definition.line == line {
            let first = definition_named(&outline.definitions, text, definition.name);
            if let Some(found) = repeated_name(definition.name, first) {
                return Some(found);
            }
        }
    }
    None
}

fn condition_again(
    conditions: &[ConditionLine],
    text: &[u8],
    line: u32,
) -> Option<(TwiceCause, Found)> {
    for condition in conditions {
        if condition.line == line {
            if part(text, condition.name) == b"INITIAL".as_slice() {
                return Some((TwiceCause::Initial, found_at(condition.name)));
            }
            let first = condition_named(conditions, text, condition.name);
            if let Some(found) = repeated_name(condition.name, first) {
                return Some((TwiceCause::Again, found));
            }
        }
    }
    None
}

/// Returns the name that is declared a second time on a line.
pub(crate) fn twice_cause(
    outline: &Outline,
    text: &[u8],
    line: u32,
    whole: Span,
) -> (TwiceCause, Found) {
    if let Some(found) = definition_again(outline, text, line) {
        return (TwiceCause::Again, found);
    }
    match condition_again(&outline.conditions, text, line) {
        Some(cause) => cause,
        None => (
            TwiceCause::Again,
            found_at(between(whole.start, skip_name(text, whole.start, whole.end()))),
        ),
    }
}

/// Returns the limit that is exceeded on a line.
pub(crate) fn limit_cause(outline: &Outline, line: u32, whole: Span) -> (LimitCause, Found) {
    for definition in &outline.definitions {
        if definition.line == line {
            return (LimitCause::Definitions, found_at(definition.name));
        }
    }
    for condition in &outline.conditions {
        if condition.line == line {
            return (LimitCause::Conditions, found_at(condition.name));
        }
    }
    (LimitCause::Rules, found_at(whole))
}

// Returns a cause without its own line: its place is the second place.
fn found_without_line(at: Span) -> Found {
    let mut place = found_noted(at, at);
    place.other = at;
    place
}

// Returns the first `%%` with blanks before it on its line.
fn indented_percent(text: &[u8]) -> Option<Span> {
    for at in 0..text.len() {
        let begins = at == 0 || is_at(text, at - 1, b'\n');
        if begins && is_blank_at(text, at) {
            let behind = skip_blanks(text, at, text.len());
            if begins_at(text, behind, b"%%") {
                return Some(Span {
                    start: behind,
                    len: 2,
                });
            }
        }
    }
    None
}

// Returns true if a substitute begins or ends like an action.
fn is_like_action(text: &[u8], substitute: Span) -> bool {
    let last = substitute.end().saturating_sub(1);
    is_at(text, substitute.start, b'{') && !is_at(text, last, b'}')
        || begins_at(text, substitute.start, RETURN)
        || begins_at(text, substitute.start, BEGIN)
        || substitute.len > 1 && is_at(text, last, b';')
}

/// Explains why no line begins the rules section.
pub(crate) fn rules_cause(outline: &Outline, text: &[u8]) -> (RulesCause, Found) {
    if let Some(percent) = indented_percent(text) {
        return (RulesCause::IndentedPercent, found_without_line(percent));
    }
    for definition in &outline.definitions {
        let substitute = definition.substitute;
        if is_like_action(text, substitute) {
            return (
                RulesCause::RulesAsDefinitions,
                found_without_line(between(definition.name.start, substitute.end())),
            );
        }
    }
    (RulesCause::Missing, found_at(Span { start: 0, len: 0 }))
}
