//! Causes of undeclared conditions (E13).

use crate::causes::ConditionCause;
use crate::found::{Found, found_at, found_named};
use crate::name_cause::condition_named;
use crate::outline::{ConditionLine, Outline};
use crate::places::{Span, between};
use crate::scan::{is_at, part};
use crate::sectioning::{PrefixExtent, RuleExtent};
use crate::similar::Closest;
use crate::words::{PlacedWords, words_of};
use lx_spec::word::Word;
use std::alloc::{AllocError, Global};

fn is_known(outline: &Outline, text: &[u8], name: Span) -> bool {
    let word = part(text, name);
    word == b"INITIAL".as_slice()
        || word == b"0".as_slice()
        || condition_named(&outline.conditions, text, name).is_some()
}

// Returns the first name between commas that isn't declared.
fn undeclared_in_list(outline: &Outline, text: &[u8], names: Span) -> Option<Span> {
    let mut start = names.start;
    for at in names.start..names.end() {
        if is_at(text, at, b',') {
            let name = between(start, at);
            if !is_known(outline, text, name) {
                return Some(name);
            }
            start = at + 1;
        }
    }
    let last = between(start, names.end());
    if is_known(outline, text, last) {
        None
    } else {
        Some(last)
    }
}

fn is_begin(word: Word) -> bool {
    match word {
        Word::Letters(text) => text == b"BEGIN".as_slice(),
        _ => false,
    }
}

fn are_letters(words: &[Word], number: usize) -> bool {
    if number < words.len() {
        matches!(words[number], Word::Letters(_))
    } else {
        false
    }
}

// Returns the number of the word that names the condition after `BEGIN`, maybe in a parenthesis.
fn begin_name(words: &[Word], number: usize) -> usize {
    let next = number.saturating_add(1);
    if are_letters(words, next) {
        next
    } else {
        next.saturating_add(1)
    }
}

// Returns the first name that a `BEGIN` has and that isn't declared.
fn undeclared_in_action(outline: &Outline, text: &[u8], words: &PlacedWords) -> Option<Span> {
    for i in 0..words.words.len() {
        if is_begin(words.words[i]) {
            let number = begin_name(&words.words, i);
            if are_letters(&words.words, number) && number < words.places.len() {
                let name = words.places[number];
                if !is_known(outline, text, name) {
                    return Some(name);
                }
            }
        }
    }
    None
}

fn begins_small(text: &[u8], name: Span) -> bool {
    name.start < text.len() && text[name.start].is_ascii_lowercase()
}

// Explains why a name isn't that of a condition: a declared name is similar, or otherwise the cause that the place suggests.
fn undeclared_cause(
    conditions: &[ConditionLine],
    text: &[u8],
    name: Span,
    by_place: ConditionCause,
) -> (ConditionCause, Found) {
    let word = part(text, name);
    let mut closest = Closest::to(word);
    for condition in conditions {
        closest = closest.or(text, word, condition.name);
    }
    let mut place = found_at(name);
    match closest.name {
        Some(similar) => {
            place.other = similar;
            place.note = Some(similar);
            (ConditionCause::Similar, place)
        }
        None => (by_place, place),
    }
}

/// Explains why a condition that a rule names isn't declared.
pub(crate) fn condition_cause(
    alloc: Global,
    outline: &Outline,
    text: &[u8],
    rule: RuleExtent,
) -> Result<(ConditionCause, Found), AllocError> {
    if let PrefixExtent::Listed(names) = rule.prefix {
        if let Some(name) = undeclared_in_list(outline, text, names) {
            let by_place = if outline.conditions.is_empty() {
                ConditionCause::Tag
            } else {
                ConditionCause::NotDeclared
            };
            return Ok(undeclared_cause(&outline.conditions, text, name, by_place));
        }
    }
    let words = words_of(alloc, text, rule.action)?;
    if let Some(name) = undeclared_in_action(outline, text, &words) {
        let by_place = if begins_small(text, name) {
            ConditionCause::BeginVariable
        } else {
            ConditionCause::NotDeclared
        };
        return Ok(undeclared_cause(&outline.conditions, text, name, by_place));
    }
    Ok((
        ConditionCause::Unknown,
        found_named(rule.pattern, rule.pattern),
    ))
}
