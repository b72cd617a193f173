//! Finds the items of a text, match after match, by the plain choice. Checks at each match what it relies on.

use crate::choice::choose;
use lx_rules::rule::Step;
use lx_rules::spec::Spec;
use lx_scan::Item;
use std::alloc::{AllocError, Global};

/// Steps if no rule matches.
const ECHO: &[Step] = &[Step::Echo];

// Adds the items of the steps, with `len` bytes from `start` on this line. Returns the condition after the steps.
fn take_steps(
    items: &mut Vec<Item>,
    steps: &[Step],
    line: u64,
    start: usize,
    len: usize,
    condition: u16,
) -> Result<u16, AllocError> {
    let mut behind = condition;
    for step in steps {
        match *step {
            Step::Echo => items.push(Item::Echo { line, start, len })?,
            Step::Begin(next) => behind = next,
            Step::Return(kind) => items.push(Item::Token {
                kind,
                line,
                start,
                len,
            })?,
        }
    }
    Ok(behind)
}

// Returns the chosen steps and the number of bytes at the start of a text.
fn choose_steps<'a>(
    alloc: Global,
    spec: &'a Spec,
    condition: u16,
    begin: bool,
    text: &[u8],
) -> Result<(&'a [Step], usize), AllocError> {
    if usize::from(condition) >= spec.conditions.len() {
        return Ok((ECHO, 1));
    }
    let Some((number, len)) = choose(alloc, spec, condition, begin, text)? else {
        return Ok((ECHO, 1));
    };
    match spec.rules.get(usize::from(number)) {
        Some(rule) => Ok((rule.action.as_slice(), len)),
        None => Ok((ECHO, 1)),
    }
}

// Counts the newlines among the bytes.
fn newlines_in(bytes: &[u8]) -> u64 {
    let mut count: u64 = 0;
    for byte in bytes {
        if *byte == b'\n' {
            count = count.saturating_add(1);
        }
    }
    count
}

/// Returns the items of the text by the rules of the specification.
pub(crate) fn plain_items(
    alloc: Global,
    spec: &Spec,
    text: &[u8],
) -> Result<Vec<Item>, AllocError> {
    let mut items = Vec::new(alloc);
    let mut condition = 0;
    let mut begin = true;
    let mut line: u64 = 1;
    let mut rest = text;
    for _match in 0..text.len() {
        if rest.is_empty() {
            break;
        }
        let start = text.len().saturating_sub(rest.len());
        let (steps, len) = choose_steps(alloc, spec, condition, begin, rest)?;
        condition = take_steps(&mut items, steps, line, start, len, condition)?;
        let (front, behind) = rest.split_at(len.clamp(1, rest.len()));
        begin = front.last() == Some(&b'\n');
        line = line.saturating_add(newlines_in(front));
        rest = behind;
    }
    Ok(items)
}
