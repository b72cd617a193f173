//! The positions of the parts of an accepted specification.

use crate::allowing::allowed_by;
use crate::kinds::KindSet;
use lx_diagnose::Span;
use lx_diagnose::places::between;
use lx_diagnose::scan::{is_at, is_blank_at, next_blank};
use lx_diagnose::sectioning::{LineKind, Section, kind_of_line, line_between};
use std::alloc::{AllocError, Global};

/// A part of the text, with the kinds that the line before it allows.
#[derive(Clone, Copy)]
pub(crate) struct TextPart {
    pub at: Span,
    pub allowed: KindSet,
}

/// A name and its substitute.
#[derive(Clone, Copy)]
pub(crate) struct DefinitionPart {
    pub name: Span,
    pub substitute: Span,
    pub allowed: KindSet,
}

/// A rule: its start, its pattern after the list of conditions, and its action up to the end of its last line.
#[derive(Clone, Copy)]
pub(crate) struct RuleText {
    pub start: usize,
    pub pattern: Span,
    pub action: Span,
    pub allowed: KindSet,
}

/// The parts of a text, each kind in order.
#[derive(Drop)]
pub(crate) struct Layout {
    /// Lines that declare conditions.
    pub declarations: Vec<TextPart>,
    /// Names of conditions, without INITIAL.
    pub conditions: Vec<TextPart>,
    pub definitions: Vec<DefinitionPart>,
    /// The line that begins the rules section.
    pub rules_begin: Option<TextPart>,
    pub rules: Vec<RuleText>,
    /// Skipped lines of the rules section, except those of groups and actions.
    pub skipped: Vec<TextPart>,
    /// Lines after the rules section.
    pub behind: Vec<TextPart>,
}

fn take_conditions(layout: &mut Layout, text: &[u8], line: TextPart) -> Result<(), AllocError> {
    layout.declarations.push(line)?;
    let end = line.at.end();
    let mut next = next_blank(text, line.at.start, end);
    for at in line.at.start..end {
        if at < next || is_blank_at(text, at) {
            continue;
        }
        next = next_blank(text, at, end);
        layout.conditions.push(TextPart {
            at: between(at, next),
            allowed: line.allowed,
        })?;
    }
    Ok(())
}

// Extends the last rule by this line.
fn lengthen_rule(layout: &mut Layout, line: Span) {
    if let Some(rule) = layout.rules.last_mut() {
        rule.action = between(rule.action.start, line.end());
    }
}

fn take_line(
    layout: &mut Layout,
    text: &[u8],
    line: TextPart,
    kind: LineKind,
) -> Result<(), AllocError> {
    let allowed = line.allowed;
    match kind {
        LineKind::Silent => {}
        LineKind::Conditions => take_conditions(layout, text, line)?,
        LineKind::Definition { name, substitute } => layout.definitions.push(DefinitionPart {
            name,
            substitute,
            allowed,
        })?,
        LineKind::RulesBegin => layout.rules_begin = Some(line),
        LineKind::Skipped => layout.skipped.push(line)?,
        LineKind::Rule(rule) => layout.rules.push(RuleText {
            start: rule.line.start,
            pattern: rule.pattern,
            action: rule.action,
            allowed,
        })?,
        LineKind::MoreAction => lengthen_rule(layout, line.at),
        LineKind::Behind => layout.behind.push(line)?,
    }
    Ok(())
}

// Returns the kinds that a line allows on the next one, if the line isn't part of another construct.
fn allowed_on_next(text: &[u8], line: Span, section: Section) -> KindSet {
    match section {
        Section::Definitions | Section::Rules => allowed_by(text, line),
        _ => KindSet::none(),
    }
}

fn empty_layout(alloc: Global) -> Layout {
    Layout {
        declarations: Vec::new(alloc),
        conditions: Vec::new(alloc),
        definitions: Vec::new(alloc),
        rules_begin: None,
        rules: Vec::new(alloc),
        skipped: Vec::new(alloc),
        behind: Vec::new(alloc),
    }
}

/// Returns the positions of the parts of a text.
pub(crate) fn layout_of(alloc: Global, text: &[u8]) -> Result<Layout, AllocError> {
    let mut layout = empty_layout(alloc);
    let mut section = Section::Definitions;
    let mut allowed = KindSet::none();
    let mut start = 0;
    for end in 0..=text.len() {
        let ends = if end == text.len() {
            start < end
        } else {
            is_at(text, end, b'\n')
        };
        if ends {
            let at = line_between(text, start, end);
            let (kind, next) = kind_of_line(text, at, section);
            take_line(&mut layout, text, TextPart { at, allowed }, kind)?;
            allowed = allowed_on_next(text, at, section);
            section = next;
            start = end + 1;
        }
    }
    Ok(layout)
}
