//! Turns rules of a flex file into rules of lx, with their `<<EOF>>` rules and actions, and reports losses.

use crate::actions::{FlexAction, action_of, problems_before_rules};
use crate::c_code::{lines_before, tidy};
use crate::cursor::{FilePlace, TextRange};
use crate::definitions::Declared;
use crate::lengths::matches_empty;
use crate::report::{ImportCause, ReadFault, Reports};
use crate::rules::{FlexRule, RuleAction};
use lx_ere::{ByteSet, Expr, Pattern};
use lx_flex_pattern::{PatternReading, translate};
use std::alloc::{AllocError, Global};

/// The conditions in which a rule is active, and its pattern.
#[derive(Debug, Drop)]
pub struct ImportedRule {
    /// Place of the rule in the file.
    pub place: FilePlace,
    /// Numbers of its conditions, in ascending order. `None` if it names none.
    pub conditions: Option<Vec<u16>>,
    /// Pattern of the rule.
    pub pattern: Pattern,
}

/// A rule with its text in lx.
#[derive(Drop)]
pub(crate) struct JudgedRule {
    pub(crate) rule: ImportedRule,
    /// Pattern of the rule in lx.
    pub(crate) text: Vec<u8>,
    pub(crate) action: FlexAction,
}

/// Returns the action of a rule, with the parts that lx supports.
fn judged_action(
    alloc: Global,
    text: &[u8],
    declared: &Declared,
    action: RuleAction,
) -> Result<FlexAction, AllocError> {
    match action {
        RuleAction::Bar => Ok(FlexAction::Bar),
        RuleAction::Code(range) => {
            let code = range.of(text);
            let line = range.line.saturating_add(lines_before(code));
            action_of(alloc, tidy(code), line, declared.conditions.as_slice())
        }
    }
}

/// A rule that is kept: with its pattern in lx, a flag for trailing context that lx doesn't have, and its action.
type KeptRule = (ImportedRule, bool, FlexAction);

/// The rules that are kept, from the last to the first, and the action of the rule after them, if that one is removed.
#[derive(Drop)]
struct KeptRules {
    list: Vec<KeptRule>,
    carried: Option<FlexAction>,
}

impl KeptRules {
    /// Removes the rule before the others if it is for `<<EOF>>`, otherwise keeps it. A rule whose action is that of a removed one gets that action.
    fn add(
        &mut self,
        rule: FlexRule,
        action: FlexAction,
        reports: &mut Reports,
    ) -> Result<(), AllocError> {
        let FlexRule {
            place,
            conditions,
            reading,
            action: _written,
        } = rule;
        let is_bar = matches!(action, FlexAction::Bar);
        let Some(reading) = reading else {
            if !is_bar {
                self.carried = Some(action);
            }
            return reports.add(place, ImportCause::EofRule, false);
        };
        let carried = self.carried.take();
        let action = if is_bar {
            carried.unwrap_or(FlexAction::Bar)
        } else {
            action
        };
        let (pattern, trailing) = with_newline(reading);
        let rule = ImportedRule {
            place,
            conditions,
            pattern,
        };
        self.list.push((rule, trailing, action))?;
        Ok(())
    }
}

/// Removes the rules for `<<EOF>>`. Returns the others.
fn without_eof_rules(
    alloc: Global,
    text: &[u8],
    declared: &Declared,
    rules: Vec<FlexRule>,
    reports: &mut Reports,
) -> Result<Vec<KeptRule>, AllocError> {
    let mut left = rules;
    let mut kept = KeptRules {
        list: Vec::new(alloc),
        carried: None,
    };
    for _ in 0..left.len() {
        let Some(rule) = left.pop() else {
            break;
        };
        let action = judged_action(alloc, text, declared, rule.action)?;
        kept.add(rule, action, reports)?;
    }
    kept.list.reverse();
    Ok(kept.list)
}

/// Reports what lx can't do of the code before the first rule.
pub(crate) fn judge_first_code(
    alloc: Global,
    text: &[u8],
    declared: &Declared,
    code: &[TextRange],
    reports: &mut Reports,
) -> Result<(), AllocError> {
    for range in code {
        let conditions = declared.conditions.as_slice();
        let problems = problems_before_rules(alloc, range.of(text), range.line, conditions)?;
        reports.add_losses(problems.as_slice())?;
    }
    Ok(())
}

/// Returns true if the only text of the expression is a newline.
fn is_newline(expr: &Expr) -> bool {
    match expr {
        Expr::Set(set) => set == &ByteSet::of(b'\n'),
        _ => false,
    }
}

/// Returns the pattern, with a `$` for a newline as the trailing context. The flag is true if there is another trailing context.
fn with_newline(reading: PatternReading) -> (Pattern, bool) {
    let PatternReading {
        pattern,
        trailing,
        length: _length,
        parts: _parts,
    } = reading;
    let Some(trailing) = trailing else {
        return (pattern, false);
    };
    if !is_newline(&trailing) {
        return (pattern, true);
    }
    let Pattern {
        line_begin,
        line_end: _line_end,
        expr,
    } = pattern;
    let pattern = Pattern {
        line_begin,
        line_end: true,
        expr,
    };
    (pattern, false)
}

/// Reports on a pattern with `$` or with another trailing context.
fn judge_pattern(
    reports: &mut Reports,
    rule: &ImportedRule,
    trailing: bool,
    behind_bar: bool,
) -> Result<(), AllocError> {
    if trailing {
        reports.add_loss(rule.place, ImportCause::TrailingContext)?;
    }
    if rule.pattern.line_end && behind_bar {
        reports.add_loss(rule.place, ImportCause::DollarBehindBar)?;
    }
    if rule.pattern.line_end && matches_empty(&rule.pattern.expr) {
        reports.add_loss(rule.place, ImportCause::EmptyBeforeDollar)?;
    }
    Ok(())
}

/// Reports what lx can't do of an action. Keeps the conditions that the action begins unconditionally, and the rule's number.
fn judge_action(
    reports: &mut Reports,
    place: FilePlace,
    action: &FlexAction,
    last: bool,
) -> Result<(), AllocError> {
    match action {
        FlexAction::Bar => {
            if last {
                reports.add(place, ImportCause::DanglingBar, true)?;
            }
        }
        FlexAction::Steps(_) => {}
        FlexAction::Code {
            text: _,
            line: _,
            begins: _,
            problems,
        } => reports.add_losses(problems.as_slice())?,
    }
    Ok(())
}

/// Returns the rule's pattern in lx, or `None` with a report.
fn text_of(
    alloc: Global,
    reports: &mut Reports,
    rule: &ImportedRule,
) -> Result<Option<Vec<u8>>, ReadFault> {
    match translate(alloc, &rule.pattern) {
        Ok(text) => Ok(Some(text)),
        Err(lx_flex_pattern::PatternFault::Memory) => Err(ReadFault::Memory),
        Err(cause) => {
            reports.add(rule.place, ImportCause::Pattern(cause), true)?;
            Ok(None)
        }
    }
}

/// Reports all remarks on a rule, and adds it as lx has it, if its pattern can be printed.
fn judge_rule(
    alloc: Global,
    reports: &mut Reports,
    kept: KeptRule,
    behind_bar: bool,
    is_last: bool,
    judged: &mut Vec<JudgedRule>,
) -> Result<(), ReadFault> {
    let (rule, trailing, action) = kept;
    judge_pattern(reports, &rule, trailing, behind_bar)?;
    judge_action(reports, rule.place, &action, is_last)?;
    if let Some(text) = text_of(alloc, reports, &rule)? {
        judged.push(JudgedRule { rule, text, action })?;
    }
    Ok(())
}

/// Returns the rules as lx has them, and reports all remarks on them.
pub(crate) fn judge_rules(
    alloc: Global,
    text: &[u8],
    declared: &Declared,
    rules: Vec<FlexRule>,
    reports: &mut Reports,
) -> Result<Vec<JudgedRule>, ReadFault> {
    let kept = without_eof_rules(alloc, text, declared, rules, reports)?;
    let count = kept.len();
    let mut judged = Vec::new(alloc);
    let mut behind_bar = false;
    let mut number: usize = 0;
    for rule in kept {
        number = number.saturating_add(1);
        let is_bar = matches!(&rule.2, FlexAction::Bar);
        judge_rule(
            alloc,
            reports,
            rule,
            behind_bar,
            number == count,
            &mut judged,
        )?;
        behind_bar = is_bar;
    }
    Ok(judged)
}
