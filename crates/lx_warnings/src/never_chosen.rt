//! The warning on a rule that is never chosen.

use crate::warnings::Known;
use lx_diagnose::wording::{Fillings, fill};
use lx_reach::Takers;
use lx_spec::Spec;
use std::alloc::{AllocError, Global};

// Warning if it isn't known which rules take its texts.
const UNKNOWN: &str =
    "this rule is never chosen: each of its matches gives way to a longer one or to a rule before it, or is empty";

// Warning if it has no texts that a rule could take.
const NO_TEXT: &str = "this rule is never chosen: it matches no text of a byte or more";

// Greatest number of lines that are named.
const MOST_LINES: usize = 3;

// Returns the rules that take the texts of this one, if they are known.
fn takers_of<'t>(takers: &'t [Takers], rule: usize) -> Option<&'t Takers> {
    for known in takers {
        if usize::from(known.of) == rule {
            return Some(known);
        }
    }
    None
}

// Appends words in which `#` is replaced by a number.
fn push_number(
    alloc: Global,
    phrase: &mut Vec<u8>,
    words: &[u8],
    number: u32,
) -> Result<(), AllocError> {
    let fillings = Fillings {
        name: b"",
        other: b"",
        line: number,
    };
    phrase.extend_from_slice(&fill(alloc, words, &fillings)?)
}

fn line_of(spec: &Spec, rule: u16) -> u32 {
    let rule = usize::from(rule);
    if rule < spec.rules.len() {
        spec.rules[rule].line
    } else {
        0
    }
}

// Appends the lines of the first of these rules, and the number of the others.
fn push_lines(
    alloc: Global,
    phrase: &mut Vec<u8>,
    spec: &Spec,
    rules: &[u16],
) -> Result<(), AllocError> {
    for i in 0..rules.len().min(MOST_LINES) {
        let words: &[u8] = if i == 0 {
            b"#"
        } else if i + 1 == rules.len() {
            b" and #"
        } else {
            b", #"
        };
        push_number(alloc, phrase, words, line_of(spec, rules[i]))?;
    }
    let others = rules.len().saturating_sub(MOST_LINES);
    if others == 0 {
        return Ok(());
    }
    let words: &[u8] = if others == 1 {
        b" and # other"
    } else {
        b" and # others"
    };
    push_number(
        alloc,
        phrase,
        words,
        u32::try_from(others).unwrap_or(u32::MAX),
    )
}

// Appends the rules that take its texts, and an example for `@`.
fn push_takers(
    alloc: Global,
    phrase: &mut Vec<u8>,
    spec: &Spec,
    takers: &Takers,
) -> Result<(), AllocError> {
    let mut rules = Vec::new(alloc);
    rules.extend_from_slice(&takers.rules)?;
    rules.sort_unstable();
    let is_one = rules.len() == 1;
    phrase.extend_from_slice(if is_one {
        b"this rule is never chosen: the rule of line "
    } else {
        b"this rule is never chosen: the rules of lines "
    })?;
    push_lines(alloc, phrase, spec, &rules)?;
    phrase.extend_from_slice(match (is_one, takers.is_whole) {
        (true, true) => b" takes all its texts, as `@`",
        (true, false) => b" takes its texts, as `@`",
        (false, true) => b" take all its texts, as `@`",
        (false, false) => b" take its texts, as `@`",
    })
}

/// Returns the warning on the rule with this number, which is never chosen. If known, it names the rules that take its texts, with a shortest text.
pub(crate) fn phrase_and_example<'k>(
    alloc: Global,
    known: &Known<'k>,
    rule: usize,
) -> Result<(Vec<u8>, &'k [u8]), AllocError> {
    let mut phrase = Vec::new(alloc);
    let mut example: &[u8] = b"";
    match takers_of(known.takers, rule) {
        Some(takers) if !takers.rules.is_empty() => {
            push_takers(alloc, &mut phrase, known.spec, takers)?;
            example = &takers.example;
        }
        Some(takers) if takers.is_whole => phrase.extend_from_slice(NO_TEXT.as_bytes())?,
        _ => phrase.extend_from_slice(UNKNOWN.as_bytes())?,
    }
    Ok((phrase, example))
}
