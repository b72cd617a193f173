//! Finds the rules that take the texts of rules that are never chosen.

use crate::further::MAX_READ_BYTES;
use crate::{read, tables_of};
use bstr::ByteSlice;
use lx_reach::{Takers, takers_of};
use lx_rules::limits::MAX_SPECIFICATION_BYTES;
use lx_spec::Code;
use lx_spec::parsed_sections::RawRule;
use lx_spec::rule_line::RulePrefix;
use lx_spec::section::read_sections;
use lx_tables::Tables;
use std::alloc::{AllocError, Global};

// The most rules for which takers are looked for.
const MAX_LISTED: usize = 20;

fn push_lines_before(made: &mut Vec<u8>, text: &[u8], line: u32) -> Result<(), AllocError> {
    let mut number: usize = 1;
    let mut lines = text.lines_with_terminator();
    while let Some(found) = lines.next() {
        if number >= line as usize {
            break;
        }
        made.extend_from_slice(found)?;
        number = number.saturating_add(1);
    }
    Ok(())
}

// Makes a text with all that comes before the first rule, and then only this rule, with an empty action.
fn text_with(
    alloc: Global,
    text: &[u8],
    first: u32,
    rule: &RawRule<'_>,
) -> Result<Vec<u8>, AllocError> {
    let mut made = Vec::new(alloc);
    push_lines_before(&mut made, text, first)?;
    if let RulePrefix::Listed(names) = rule.prefix {
        made.extend_from_slice(b"<")?;
        made.extend_from_slice(names)?;
        made.extend_from_slice(b">")?;
    }
    made.extend_from_slice(rule.pattern)?;
    made.extend_from_slice(b" ;\n")?;
    Ok(made)
}

// Finds the rules that take the texts of the rule with this number, by the tables of all rules and a text with this rule only. Returns `None` if that
// text has no tables.
fn takers_by_text(
    alloc: Global,
    alone: &[u8],
    tables: &Tables,
    number: u16,
) -> Result<Option<Takers>, AllocError> {
    let Ok(spec) = read(alloc, alone)? else {
        return Ok(None);
    };
    match tables_of(alloc, &spec)? {
        Ok(alone) => Ok(Some(takers_of(alloc, &alone, tables, number)?)),
        Err(_) => Ok(None),
    }
}

// Does the same for these rules of a text, by the tables of all of them.
fn takers_among(
    alloc: Global,
    text: &[u8],
    rules: &[RawRule<'_>],
    tables: &Tables,
    chosen: &[bool],
) -> Result<Vec<Takers>, AllocError> {
    let mut takers = Vec::new(alloc);
    let Some(first) = rules.first() else {
        return Ok(takers);
    };
    let mut left = MAX_READ_BYTES;
    for number in 0..tables.rules() {
        let place = usize::from(number);
        if place >= rules.len() || place >= chosen.len() || takers.len() >= MAX_LISTED {
            break;
        }
        if chosen[place] {
            continue;
        }
        let alone = text_with(alloc, text, first.line, &rules[place])?;
        if alone.len() > left {
            break;
        }
        left -= alone.len();
        if let Some(found) = takers_by_text(alloc, &alone, tables, number)? {
            takers.push(found)?;
        }
    }
    Ok(takers)
}

/// Finds the rules that take the texts of rules that are never chosen. Examines at most the first 20 of these, and reads at most 2,000,000 bytes.
pub(crate) fn takers_in(
    alloc: Global,
    text: &[u8],
    tables: &Tables,
    chosen: &[bool],
) -> Result<Vec<Takers>, AllocError> {
    if text.len() > MAX_SPECIFICATION_BYTES {
        return Ok(Vec::new(alloc));
    }
    match read_sections(alloc, text) {
        Ok(sections) => takers_among(alloc, text, &sections.rules, tables, chosen),
        Err(fault) => {
            if fault.code == Code::Memory {
                Err(AllocError)
            } else {
                Ok(Vec::new(alloc))
            }
        }
    }
}
