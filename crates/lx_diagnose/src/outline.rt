//! The outline of a text: its declarations with their lines, and the parts of one rule.

use crate::places::{Span, between};
use crate::scan::{is_at, is_blank_at, next_blank, part};
use crate::sectioning::{LineKind, RuleExtent, Section, kind_of_line, line_between};
use lx_rules::name_table::add_number;
use std::alloc::{AllocError, Global};
use std::collections::BTreeMap;

/// The definition of a name, with its line.
#[derive(Clone, Copy)]
pub(crate) struct DefinitionLine {
    pub line: u32,
    pub name: Span,
    pub substitute: Span,
}

/// A declared condition, with its line.
#[derive(Clone, Copy)]
pub(crate) struct ConditionLine {
    pub line: u32,
    pub name: Span,
}

/// The definitions and conditions of a text, and the rule that begins on the sought line, if there is one. Has both if a name is declared twice.
#[derive(Drop)]
pub(crate) struct Outline {
    pub definitions: Vec<DefinitionLine>,
    pub conditions: Vec<ConditionLine>,
    pub numbers: BTreeMap<Vec<u8>, usize>,
    pub rule: Option<RuleExtent>,
}

// The number of a line, and its position without the line end.
#[derive(Clone, Copy)]
struct NumberedLine {
    number: u32,
    at: Span,
}

fn push_conditions(
    conditions: &mut Vec<ConditionLine>,
    text: &[u8],
    line: NumberedLine,
) -> Result<(), AllocError> {
    let end = line.at.end();
    let mut next = next_blank(text, line.at.start, end);
    for at in line.at.start..end {
        if at < next || is_blank_at(text, at) {
            continue;
        }
        next = next_blank(text, at, end);
        conditions.push(ConditionLine {
            line: line.number,
            name: between(at, next),
        })?;
    }
    Ok(())
}

fn take_definition(
    outline: &mut Outline,
    text: &[u8],
    line: NumberedLine,
    kind: LineKind,
) -> Result<(), AllocError> {
    match kind {
        LineKind::Conditions => push_conditions(&mut outline.conditions, text, line),
        LineKind::Definition { name, substitute } => {
            outline.definitions.push(DefinitionLine {
                line: line.number,
                name,
                substitute,
            })?;
            Ok(())
        }
        _ => Ok(()),
    }
}

// Takes the first line of the sought rule, or a further line of its action. Returns true if the last rule that began is the sought one.
fn take_rule(
    outline: &mut Outline,
    line: NumberedLine,
    kind: LineKind,
    sought: u32,
    is_sought: bool,
) -> bool {
    match kind {
        LineKind::Rule(rule) => {
            let begins = line.number == sought;
            if begins {
                outline.rule = Some(rule);
            }
            begins
        }
        LineKind::MoreAction => {
            if is_sought && let Some(rule) = outline.rule {
                outline.rule = Some(rule.with_line(line.at));
            }
            is_sought
        }
        _ => is_sought,
    }
}

fn add_names(
    alloc: Global,
    numbers: &mut BTreeMap<Vec<u8>, usize>,
    text: &[u8],
    definitions: &[DefinitionLine],
) -> Result<(), AllocError> {
    for i in 0..definitions.len() {
        add_number(alloc, numbers, part(text, definitions[i].name), i)?;
    }
    Ok(())
}

/// Returns the outline of a text, with the rule that begins on this line.
pub(crate) fn outline_of(alloc: Global, text: &[u8], sought: u32) -> Result<Outline, AllocError> {
    let mut outline = Outline {
        definitions: Vec::new(alloc),
        conditions: Vec::new(alloc),
        numbers: BTreeMap::new(alloc),
        rule: None,
    };
    let mut section = Section::Definitions;
    let mut is_sought = false;
    let mut number: u32 = 1;
    let mut start = 0;
    for end in 0..=text.len() {
        let ends = if end == text.len() {
            start < end
        } else {
            is_at(text, end, b'\n')
        };
        if ends {
            let line = NumberedLine {
                number,
                at: line_between(text, start, end),
            };
            let (kind, next) = kind_of_line(text, line.at, section);
            take_definition(&mut outline, text, line, kind)?;
            is_sought = take_rule(&mut outline, line, kind, sought, is_sought);
            section = next;
            start = end + 1;
            number = number.saturating_add(1);
        }
    }
    add_names(alloc, &mut outline.numbers, text, &outline.definitions)?;
    Ok(outline)
}
