//! The end of the match of a rule, before its action: its trailing context is cut off.

use crate::arrays::start_row;
use crate::outline::{FileOutline, MatchCut, PatternOutline, RuleOutline};
use crate::printing::ScannerTables;
use crate::skeleton_states::STATE_BACK;
use crate::template::{Environment, Output, push_template};
use lx_c::pushing::push_number_then;
use lx_tables::Tables;
use std::alloc::{AllocError, Global};

/// Appends the statement that looks for the end of a rule's token. Its parts begin in two conditions of the cut's tables, from this one on.
fn push_varying_cut(
    output: &mut Output,
    environment: &Environment,
    condition: u16,
    tables: &Tables,
    can_be_empty: (bool, bool),
) -> Result<(), AllocError> {
    output.push(b"yy_cp = yy_cut_match(yy_bp, yy_cp, ")?;
    push_number_then(&mut output.text, start_row(tables, condition), b", ")?;
    let context = condition.saturating_add(1);
    push_number_then(&mut output.text, start_row(tables, context), b", ")?;
    output.push(if can_be_empty.0 { b"1, " } else { b"0, " })?;
    output.push(if can_be_empty.1 { b"1" } else { b"0" })?;
    output.push(if environment.has(b"reentrant") {
        b", yyscanner"
    } else {
        b""
    })?;
    output.push(b");")
}

/// The means to find the ends of tokens: the tables for those of several lengths, and the condition of the next rule with such a token.
#[derive(Clone, Copy)]
struct CutPlace<'t> {
    tables: Option<&'t Tables>,
    condition: u16,
}

/// Appends the statement that cuts the match of a rule.
fn push_cut(
    output: &mut Output,
    environment: &Environment,
    cut: MatchCut,
    place: &mut CutPlace,
) -> Result<(), AllocError> {
    match cut {
        MatchCut::Whole => Ok(()),
        MatchCut::Before(length) => {
            output.push(b"yy_cp -= ")?;
            push_number_then(&mut output.text, u64::from(length), b";")
        }
        MatchCut::First(length) => {
            output.push(b"yy_cp = yy_bp + ")?;
            push_number_then(&mut output.text, u64::from(length), b";")
        }
        MatchCut::Varying { token, context } => {
            let condition = place.condition;
            place.condition = condition.saturating_add(2);
            match place.tables {
                Some(tables) => {
                    push_varying_cut(output, environment, condition, tables, (token, context))
                }
                None => Ok(()),
            }
        }
    }
}

/// Appends the cases that cut trailing context off.
pub(crate) fn push_cuts(
    output: &mut Output,
    environment: &Environment,
    outline: &FileOutline,
    cut_tables: Option<&Tables>,
) -> Result<(), AllocError> {
    output.push(
        b"            switch (yy_act) { /* The token ends before its trailing context. */\n",
    )?;
    let mut place = CutPlace {
        tables: cut_tables,
        condition: 1,
    };
    let mut number: u64 = 0;
    for rule in outline.rules.as_slice() {
        let Some(pattern) = rule.pattern else {
            continue;
        };
        number = number.saturating_add(1);
        if pattern.cut != MatchCut::Whole {
            output.push(b"            case ")?;
            push_number_then(&mut output.text, number, b": ")?;
            push_cut(output, environment, pattern.cut, &mut place)?;
            output.push(b" break;\n")?;
        }
    }
    output.push(b"            }\n")
}

/// Returns true if no match of a rule leaves the next one at the start of a line.
fn ends_within_line(pattern: PatternOutline) -> bool {
    !pattern.has_newline && pattern.cut == MatchCut::Whole
}

/// Appends the counting of lines in a match, and the flag for the start of the next line.
fn push_ends(
    output: &mut Output,
    environment: &Environment,
    pattern: PatternOutline,
    is_skipped: bool,
) -> Result<(), AllocError> {
    if environment.has(b"yylineno") && pattern.has_newline {
        output.push(b"YY_COUNT_LINES\n")?;
    }
    if !environment.has(b"bol") {
        return Ok(());
    }
    if ends_within_line(pattern) {
        return output.push(b"YY_END_NO_LINE\n");
    }
    output.push(if is_skipped {
        b"YY_END_SKIPPED_LINE\n"
    } else {
        b"YY_END_LINE\n"
    })
}

/// The states of a condition in which a match begins.
#[derive(Clone, Copy)]
struct StartStates {
    within_line: u32,
    at_line_begin: u32,
}

/// Returns the states in which the match after a rule without an action begins, if only one condition has the rule: such a rule enters no other one.
fn starts_after(tables: &Tables, outline: &FileOutline, rule: &RuleOutline) -> Option<StartStates> {
    let condition = outline.only_condition(rule)?;
    if condition < tables.conditions() {
        return Some(StartStates {
            within_line: tables.start(condition, false).0,
            at_line_begin: tables.start(condition, true).0,
        });
    }
    None
}

/// Appends the way from a rule without an action to the next match: to the state in which it begins, if that is known.
fn push_skip(
    output: &mut Output,
    environment: &Environment,
    pattern: PatternOutline,
    starts: Option<StartStates>,
) -> Result<(), AllocError> {
    let Some(starts) = starts else {
        return output.push(b"YY_SKIP(goto yy_next_match;)\n");
    };
    output.push(b"YY_SKIP(")?;
    let has_two = starts.within_line != starts.at_line_begin;
    if has_two && environment.has(b"bol") && !ends_within_line(pattern) {
        output.push(b"if (YY_AT_BOL()) goto yy__s")?;
        push_number_then(
            &mut output.text,
            u64::from(starts.at_line_begin),
            b"; else ",
        )?;
    }
    output.push(b"goto yy__s")?;
    push_number_then(&mut output.text, u64::from(starts.within_line), b";)\n")
}

/// A match of a rule, as far as it is known when a scanner is printed.
#[derive(Clone, Copy)]
struct MatchOutline {
    number: u64,
    pattern: PatternOutline,
    /// True if the action does nothing.
    is_idle: bool,
    /// States in which the next match begins if the action does nothing.
    starts: Option<StartStates>,
}

/// Appends what is done with a match of a rule, up to the jump to its action. A rule without an action goes on with the next match.
fn push_match(
    output: &mut Output,
    environment: &Environment,
    matched: MatchOutline,
) -> Result<(), AllocError> {
    let MatchOutline {
        number,
        pattern,
        is_idle,
        starts,
    } = matched;
    let is_skipped = is_idle && !environment.has(b"yymore") && !environment.has(b"debug");
    if is_skipped {
        push_ends(output, environment, pattern, true)?;
        push_skip(output, environment, pattern, starts)?;
    }
    output.push(b"yy_act = ")?;
    push_number_then(&mut output.text, number, b";\nYY_TAKE\n")?;
    if !is_skipped {
        push_ends(output, environment, pattern, false)?;
    }
    if environment.has(b"debug") {
        output.push(b"YY_TRACE\n")?;
    }
    Ok(())
}

/// Appends the jumps from the number of a rule to what is done with its match.
fn push_jumps(output: &mut Output, outline: &FileOutline) -> Result<(), AllocError> {
    let mut number: u64 = 0;
    for rule in outline.rules.as_slice() {
        if rule.pattern.is_some() {
            number = number.saturating_add(1);
            output.push(b"case ")?;
            push_number_then(&mut output.text, number, b": goto yy_a")?;
            push_number_then(&mut output.text, number, b";\n")?;
        }
    }
    output.push(b"default: yy_cp = yy_bp + 1; goto yy_a_default;\n}\n")
}

/// Appends what is done with the byte that no rule matches.
fn push_default_match(
    output: &mut Output,
    environment: &Environment,
    number: u64,
) -> Result<(), AllocError> {
    let pattern = PatternOutline {
        line_begin: false,
        has_newline: true,
        cut: MatchCut::Whole,
    };
    output.push(b"yy_a_default:\n")?;
    push_match(
        output,
        environment,
        MatchOutline {
            number,
            pattern,
            is_idle: false,
            starts: None,
        },
    )?;
    output.push(b"goto yy_do_default;\n")
}

/// Appends the jump to the action of a rule: to its label, or to the choice by its number where the action may not be compiled.
fn push_jump(
    output: &mut Output,
    environment: &Environment,
    number: u64,
) -> Result<(), AllocError> {
    if !environment.has(b"labels") {
        return output.push(b"goto yy_do_rule;\n");
    }
    output.push(b"goto yy_do_")?;
    push_number_then(&mut output.text, number, b";\n")
}

/// Appends the label of a rule's match, what is done with it, and the jump to the rule's action.
fn push_labelled_match(
    output: &mut Output,
    environment: &Environment,
    matched: MatchOutline,
    place: &mut CutPlace,
) -> Result<(), AllocError> {
    output.push(b"yy_a")?;
    push_number_then(&mut output.text, matched.number, b":\n")?;
    push_cut(output, environment, matched.pattern.cut, place)?;
    output.end_line()?;
    push_match(output, environment, matched)?;
    push_jump(output, environment, matched.number)
}

/// Appends what is done where a walk through the states ends: the last place is found where a rule matched, and that rule's match is taken.
pub(crate) fn push_matches(
    alloc: Global,
    output: &mut Output,
    environment: &Environment,
    outline: &FileOutline,
    tables: ScannerTables,
) -> Result<(), AllocError> {
    push_template(alloc, output, environment, STATE_BACK)?;
    push_jumps(output, outline)?;
    let mut place = CutPlace {
        tables: tables.cut_tables,
        condition: 1,
    };
    let code_follows = outline.code_follows(alloc)?;
    let may_skip = !outline.may_define_hooks();
    let mut number: u64 = 0;
    for index in 0..outline.rules.len() {
        let rule = &outline.rules[index];
        let Some(pattern) = rule.pattern else {
            continue;
        };
        number = number.saturating_add(1);
        let matched = MatchOutline {
            number,
            pattern,
            is_idle: may_skip && outline.is_idle(index, code_follows.as_slice()),
            starts: starts_after(tables.tables, outline, rule),
        };
        push_labelled_match(output, environment, matched, &mut place)?;
    }
    push_default_match(output, environment, number.saturating_add(1))
}
