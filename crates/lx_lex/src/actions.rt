//! The actions of a scanner: a case for each rule, and one for each condition at the end of the input.

use crate::outline::{FileOutline, RuleOutline};
use crate::source_names::{SourceName, place_in, push_line};
use crate::template::Output;
use lx_c::pushing::push_number_then;
use lx_flex::TextRange;
use lx_flex::conditions::FlexCondition;
use lx_flex::rules::RuleAction;
use std::alloc::{AllocError, Global};

/// The source and the target of C text.
#[derive(Clone, Copy)]
pub(crate) struct CodePlaces<'a> {
    /// The whole text.
    pub(crate) text: &'a [u8],
    pub(crate) sources: &'a [SourceName<'a>],
    /// Name of the printed file.
    pub(crate) printed: &'a [u8],
    /// True if `#line` directives are printed.
    pub(crate) with_lines: bool,
    /// True if the actions of rules have labels in the place of cases.
    pub(crate) as_labels: bool,
}

impl<'a> CodePlaces<'a> {
    /// Appends the directive for a line of the whole text.
    pub(crate) fn push_line(&self, output: &mut Output, line: u32) -> Result<(), AllocError> {
        if !self.with_lines {
            return Ok(());
        }
        let (name, number) = place_in(self.sources, line);
        push_line(output, number, name)
    }

    /// Appends C text with the directive for its line.
    pub(crate) fn push_code(
        &self,
        output: &mut Output,
        range: TextRange,
    ) -> Result<(), AllocError> {
        self.push_line(output, range.line)?;
        output.push(range.of(self.text))?;
        output.end_line()
    }

    /// Appends several parts. Then the directive for the printed file follows, if there were any.
    pub(crate) fn push_all_code(
        &self,
        output: &mut Output,
        ranges: &[TextRange],
    ) -> Result<(), AllocError> {
        for range in ranges {
            self.push_code(output, *range)?;
        }
        if ranges.is_empty() {
            Ok(())
        } else {
            self.push_return(output)
        }
    }

    /// Appends the directive for the printed file itself.
    pub(crate) fn push_return(&self, output: &mut Output) -> Result<(), AllocError> {
        if !self.with_lines {
            return Ok(());
        }
        output.end_line()?;
        let next = output.line().saturating_add(1);
        push_line(output, next, self.printed)
    }
}

fn is_among(numbers: &[u16], number: u16) -> bool {
    for known in numbers {
        if *known == number {
            return true;
        }
    }
    false
}

/// Returns true if a rule for the end of the input is for this condition. Without a list of conditions it is for all (flex's manual, "End-of-File Rules").
fn is_for(rule: &RuleOutline, number: u16) -> bool {
    match &rule.conditions {
        Some(conditions) => is_among(conditions.as_slice(), number),
        None => true,
    }
}

fn push_end_case(output: &mut Output, condition: &FlexCondition) -> Result<(), AllocError> {
    output.push(b"case YY_STATE_EOF(")?;
    output.push(condition.name.as_slice())?;
    output.push(b"):\n")
}

/// Appends the cases of a rule for the end of the input: of its conditions that no rule before it took. `done` are the conditions that were taken.
fn push_end_cases(
    output: &mut Output,
    done: &mut Vec<u16>,
    conditions: &[FlexCondition],
    rule: &RuleOutline,
) -> Result<(), AllocError> {
    let mut number: u16 = 0;
    for condition in conditions {
        if is_for(rule, number) && !is_among(done.as_slice(), number) {
            push_end_case(output, condition)?;
            done.push(number)?;
        }
        number = number.saturating_add(1);
    }
    Ok(())
}

/// Appends the cases of the conditions without a rule for the end of the input.
fn push_other_ends(
    output: &mut Output,
    done: &[u16],
    conditions: &[FlexCondition],
) -> Result<(), AllocError> {
    let mut number: u16 = 0;
    let mut some = false;
    for condition in conditions {
        if !is_among(done, number) {
            push_end_case(output, condition)?;
            some = true;
        }
        number = number.saturating_add(1);
    }
    if some {
        output.push(b"    yyterminate();\n")
    } else {
        Ok(())
    }
}

/// Appends the action of a rule after its cases. `before_end` is true if the next rule is one for the end of the input.
fn push_action(
    output: &mut Output,
    places: CodePlaces,
    rule: &RuleOutline,
    before_end: bool,
) -> Result<(), AllocError> {
    match rule.action {
        RuleAction::Bar => {
            if before_end && rule.pattern.is_some() {
                output.push(b"YY_RULE_SETUP\n")?;
            }
            Ok(())
        }
        RuleAction::Code(range) => {
            if rule.pattern.is_some() {
                output.push(b"YY_RULE_SETUP\n")?;
            }
            places.push_code(output, range)?;
            output.push(b"    YY_BREAK\n")
        }
    }
}

/// Appends the C text that the file has after this number of rules.
fn push_code_after(
    output: &mut Output,
    places: CodePlaces,
    outline: &FileOutline,
    rules: usize,
) -> Result<(), AllocError> {
    for part in outline.code.as_slice() {
        if part.rules == rules {
            places.push_code(output, part.code)?;
        }
    }
    Ok(())
}

/// Appends the actions of all rules, in the order of the file.
pub(crate) fn push_actions(
    alloc: Global,
    output: &mut Output,
    places: CodePlaces,
    outline: &FileOutline,
) -> Result<(), AllocError> {
    let conditions = outline.declared.conditions.as_slice();
    let mut done = Vec::new(alloc);
    let mut before: usize = 0;
    let mut number: u64 = 0;
    for rule in outline.rules.as_slice() {
        push_code_after(output, places, outline, before)?;
        before = before.saturating_add(1);
        if rule.pattern.is_some() {
            number = number.saturating_add(1);
            output.push(if places.as_labels {
                b"yy_do_"
            } else {
                b"case "
            })?;
            push_number_then(&mut output.text, number, b":\n")?;
        } else {
            push_end_cases(output, &mut done, conditions, rule)?;
        }
        let before_end = match outline.rules.get(before) {
            Some(next) => next.pattern.is_none(),
            None => false,
        };
        push_action(output, places, rule, before_end)?;
    }
    push_code_after(output, places, outline, before)?;
    push_other_ends(output, done.as_slice(), conditions)?;
    places.push_return(output)
}
