//! Skipped lines that look like rules.

use crate::kinds::{KindSet, WarningKind};
use crate::layout::{Layout, TextPart};
use crate::suspects::{Suspect, SuspectSearch, push_part, push_suspect, suspect_at};
use lx_diagnose::places::between;
use lx_diagnose::scan::{part, skip_blanks};
use lx_ere::{EreFault, read_pattern};
use lx_spec::action::{Action, Statement, read_action};
use lx_spec::rule_line::{RuleLine, RulePrefix, rule_line_of};
use std::alloc::{AllocError, Global};

// Warning on a line that begins with a blank, if the blank may belong to the pattern.
const BLANK_PHRASE: &str =
    "this line is skipped, since a blank begins it; a rule for a blank begins with \" \" or [ ]";

fn does_anything(statements: &[Statement]) -> bool {
    for statement in statements {
        if !matches!(*statement, Statement::Nothing) {
            return true;
        }
    }
    false
}

// Returns true if no C statement begins like the text.
fn is_no_statement(text: &[u8]) -> bool {
    match text.first() {
        Some(byte) => matches!(*byte, b'\\' | b'[' | b'^' | b'.' | b'<' | b'"'),
        None => false,
    }
}

// Returns true if the text is an action. With `takes_nothing`, an action without effect counts too.
fn is_action(alloc: Global, text: &[u8], takes_nothing: bool) -> Result<bool, AllocError> {
    match read_action(alloc, text)? {
        Some(Action::Shared) => Ok(true),
        Some(Action::Own(statements)) => {
            Ok(does_anything(&statements) || takes_nothing && !statements.is_empty())
        }
        None => Ok(false),
    }
}

// Returns true if only an action follows the blank at the start of the line. Then the blank, maybe repeated, is the pattern.
fn is_action_behind_blank(alloc: Global, text: &[u8]) -> Result<bool, AllocError> {
    match text {
        [b'+' | b'*' | b'?', b' ' | b'\t', action @ ..] => is_action(alloc, action, true),
        _ => is_action(alloc, text, true),
    }
}

fn is_pattern(alloc: Global, text: &[u8]) -> Result<bool, AllocError> {
    match read_pattern(alloc, text) {
        Ok(_) => Ok(true),
        Err(EreFault::Memory) => Err(AllocError),
        Err(EreFault::NoReading) => Ok(false),
    }
}

// Returns true if the text would be a rule on one line, with an action that has an effect.
fn is_rule(alloc: Global, text: &[u8]) -> Result<bool, AllocError> {
    match rule_line_of(text) {
        RuleLine::BeginsRule {
            prefix,
            pattern,
            action,
        } => {
            if matches!(prefix, RulePrefix::Unclosed)
                || !is_action(alloc, action, is_no_statement(text))?
            {
                return Ok(false);
            }
            is_pattern(alloc, pattern)
        }
        RuleLine::Skipped | RuleLine::OpensGroup | RuleLine::RulesEnd => Ok(false),
    }
}

fn look_at_line(
    search: &mut SuspectSearch<'_>,
    allowed: &KindSet,
    suspect: Suspect,
) -> Result<(), AllocError> {
    let alloc = search.alloc;
    let text = search.text;
    if !allowed.contains(suspect.kind) && is_rule(alloc, part(text, suspect.at))? {
        return push_suspect(search, allowed, suspect);
    }
    Ok(())
}

// Examines a line of the rules section that begins with a blank. Either a rule follows the blank, or the blank is the pattern.
fn look_at_indented(search: &mut SuspectSearch<'_>, line: &TextPart) -> Result<(), AllocError> {
    let alloc = search.alloc;
    let text = search.text;
    let end = line.at.end();
    let at = between(skip_blanks(text, line.at.start, end), end);
    if is_action_behind_blank(alloc, part(text, at))? {
        let kind = WarningKind::SkippedRule;
        return push_part(search, &line.allowed, kind, at, BLANK_PHRASE);
    }
    let phrase = if is_no_statement(part(text, at)) {
        "this looks like a rule, and is skipped: a blank begins the line; a blank of a pattern is written \" \" or [ ]"
    } else {
        "this looks like a rule, and is skipped: a blank begins the line"
    };
    let suspect = suspect_at(WarningKind::SkippedRule, at, phrase);
    look_at_line(search, &line.allowed, suspect)
}

// Examines the text behind the `%%` that begins the rules section.
fn look_at_beginning(search: &mut SuspectSearch<'_>, line: &TextPart) -> Result<(), AllocError> {
    let text = search.text;
    let end = line.at.end();
    let at = between(skip_blanks(text, line.at.start.saturating_add(2), end), end);
    let suspect = suspect_at(
        WarningKind::SkippedLine,
        at,
        "this looks like a rule, and is skipped: it stands on the line of %%",
    );
    look_at_line(search, &line.allowed, suspect)
}

/// Examines the lines of the rules section that begin with a blank, the text on the line before it, and the lines after it.
pub(crate) fn look_at_skipped(
    search: &mut SuspectSearch<'_>,
    layout: &Layout,
) -> Result<(), AllocError> {
    if let Some(line) = &layout.rules_begin {
        look_at_beginning(search, line)?;
    }
    for line in &layout.skipped {
        look_at_indented(search, line)?;
    }
    for line in &layout.behind {
        let suspect = suspect_at(
            WarningKind::SkippedLine,
            line.at,
            "this looks like a rule, and is skipped: it comes after the second %%",
        );
        look_at_line(search, &KindSet::none(), suspect)?;
    }
    Ok(())
}
