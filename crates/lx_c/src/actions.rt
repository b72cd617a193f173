//! The arrays of what rules do.

ghost use Rattle.lx_c.specs.Actions as actions;
ghost use Rattle.lx_c.specs.Numbers.{max_first_kind};
ghost use Rattle.lx_c.specs.declared.templates.TheConstants.{ACTIONS};
ghost use Rattle.lx_tables.specs.Model.{rule_at};
ghost use Rattle.std.specs.List.{flat_map, list_any};
ghost use Rattle.std.specs.Prelude.{OnOk, length, ◌++◌, ◌<◌, ◌≡◌, ◌≤◌};

use crate::kind_name;
use crate::options::Options;
use crate::pushing::{PushResult, push, push_either, push_filled, push_number, push_number_then};
use crate::templates::{
    ACTIONS, KINDS, LINE_END, LINE_ENDS, NAMES, NO_LINE_END, NOTHING_PENDING, PENDING, STEP_ARRAY,
    STEPS, STEPS_OF,
};
use lx_rules::rule::{Kind, Step};
use lx_tables::Tables;

// Returns true if an action is nothing or one return.
fn is_simple(steps: &[Step]) -> bool
    ensures { result ≡ actions.is_simple steps.now }
{
    matches!(steps.first(), None | Some(Step::Return(_)))
}

// Returns true if some rule ends with `$`.
fn has_line_ends(tables: &Tables) -> bool
    ensures { result ≡ list_any (λ rule. rule.line_end) tables.now.rules }
{
    for rule in 0..tables.rules() {
        if tables.cut(rule) {
            return true;
        }
    }
    false
}

fn push_step_word(
    text: &mut Vec<u8>,
    options: &Options,
    first: u64,
    tables: &Tables,
    step: Step,
) -> PushResult
    requires { first ≤ max_first_kind }
    ensures { OnOk result
        (text.new.items ≡ text.old.items ++ actions.step_word options.now first tables.now step) }
{
    match step {
        Step::Echo => push(text, b"-2"),
        Step::Begin(condition) => {
            push(text, b"-")?;
            push_number(text, 4 + u64::from(condition))
        }
        Step::Return(Kind::Name(kind)) if options.has_include() => {
            push(text, kind_name(tables, kind))
        }
        Step::Return(Kind::Name(kind)) => push_number(text, first + u64::from(kind)),
        Step::Return(Kind::Number(n)) => push_number(text, u64::from(n)),
    }
}

fn push_step_entries(
    text: &mut Vec<u8>,
    options: &Options,
    first: u64,
    tables: &Tables,
    steps: &[Step],
) -> PushResult
    requires { first ≤ max_first_kind }
    ensures { OnOk result (text.new.items ≡ text.old.items
        ++ flat_map (actions.step_entry options.now first tables.now) steps.now) }
{
    for step in steps {
        push_step_word(text, options, first, tables, *step)?;
        push(text, b",")?;
    }
    Ok(())
}

// Appends the array of the steps of a rule, if its action has steps of its own.
fn push_steps_array(
    text: &mut Vec<u8>,
    options: &Options,
    first: u64,
    tables: &Tables,
    rule: u16,
) -> PushResult
    requires first { first ≤ max_first_kind }
    requires rule { rule < length tables.now.rules }
    ensures { OnOk result (text.new.items
        ≡ text.old.items ++ actions.steps_array options.now first tables.now rule
        (rule_at tables.now rule).steps) }
{
    let steps = tables.steps(rule);
    if is_simple(steps) {
        return Ok(());
    }
    push_filled(text, options, STEP_ARRAY)?;
    push_number_then(text, u64::from(rule), b"[] = {")?;
    push_step_entries(text, options, first, tables, steps)?;
    push(text, b"-1};\n")
}

fn push_steps_arrays(
    text: &mut Vec<u8>,
    options: &Options,
    first: u64,
    tables: &Tables,
) -> PushResult
    requires { first ≤ max_first_kind }
    ensures { OnOk result
        (text.new.items ≡ text.old.items ++ actions.steps_arrays options.now first tables.now) }
{
    for rule in 0..tables.rules() {
        push_steps_array(text, options, first, tables, rule)?;
    }
    Ok(())
}

// Appends the place of the steps of a rule.
fn push_steps_entry(text: &mut Vec<u8>, options: &Options, rule: u16, steps: &[Step]) -> PushResult
    ensures { OnOk result
        (text.new.items ≡ text.old.items ++ actions.steps_entry options.now rule steps.now) }
{
    if is_simple(steps) {
        return push(text, b"0,\n");
    }
    push_filled(text, options, STEPS_OF)?;
    push_number_then(text, u64::from(rule), b",\n")
}

fn push_steps(text: &mut Vec<u8>, options: &Options, tables: &Tables) -> PushResult
    ensures { OnOk result
        (text.new.items ≡ text.old.items ++ actions.steps_text options.now tables.now) }
{
    push_filled(text, options, STEPS)?;
    for rule in 0..tables.rules() {
        push_steps_entry(text, options, rule, tables.steps(rule))?;
    }
    push(text, b"0};\n")
}

// Appends what an action gives at once.
fn push_action_entry(
    text: &mut Vec<u8>,
    options: &Options,
    first: u64,
    tables: &Tables,
    steps: &[Step],
) -> PushResult
    requires { first ≤ max_first_kind }
    ensures { OnOk result (text.new.items
        ≡ text.old.items ++ actions.action_entry options.now first tables.now steps.now) }
{
    match steps.first() {
        None => push(text, b"-1")?,
        Some(Step::Return(kind)) => {
            push_step_word(text, options, first, tables, Step::Return(*kind))?
        }
        Some(_) => push(text, b"-4")?,
    }
    push(text, b",\n")
}

fn push_actions_array(
    text: &mut Vec<u8>,
    options: &Options,
    first: u64,
    tables: &Tables,
) -> PushResult
    requires { first ≤ max_first_kind }
    ensures { OnOk result (text.new.items
        ≡ text.old.items ++ actions.array_text options.now ACTIONS.now
        (actions.action_entries options.now first tables.now)) }
{
    push_filled(text, options, ACTIONS)?;
    for rule in 0..tables.rules() {
        push_action_entry(text, options, first, tables, tables.steps(rule))?;
    }
    push(text, b"0};\n")
}

fn push_line_end_entry(text: &mut Vec<u8>, line_end: bool) -> PushResult
    ensures { OnOk result (text.new.items ≡ text.old.items ++ actions.line_end_entry line_end) }
{
    if line_end {
        push(text, b"1,\n")
    } else {
        push(text, b"0,\n")
    }
}

// Appends what says which rules end with `$`.
fn push_line_ends(text: &mut Vec<u8>, options: &Options, tables: &Tables) -> PushResult
    ensures { OnOk result
        (text.new.items ≡ text.old.items ++ actions.line_ends_text options.now tables.now) }
{
    if !has_line_ends(tables) {
        return push_filled(text, options, NO_LINE_END);
    }
    push_filled(text, options, LINE_END)?;
    push_filled(text, options, LINE_ENDS)?;
    for rule in 0..tables.rules() {
        push_line_end_entry(text, tables.cut(rule))?;
    }
    push(text, b"0};\n")
}

fn has_echo(steps: &[Step]) -> bool
    ensures { result ≡ list_any actions.is_echo steps.now }
{
    for step in steps {
        if matches!(*step, Step::Echo) {
            return true;
        }
    }
    false
}

// Returns true if some action has an ECHO.
fn has_echoes(tables: &Tables) -> bool
    ensures { result ≡ actions.has_echoes tables.now }
{
    for rule in 0..tables.rules() {
        if has_echo(tables.steps(rule)) {
            return true;
        }
    }
    false
}

// Appends the entry of a kind: its name, between quotes or without.
fn push_kind_entry(text: &mut Vec<u8>, quote: &[u8], kind: &[u8]) -> PushResult
    ensures { OnOk result
        (text.new.items ≡ text.old.items ++ actions.kind_entry quote.now kind.now) }
{
    push(text, quote)?;
    push(text, kind)?;
    push(text, quote)?;
    push(text, b",\n")
}

// Appends an array with an entry for each kind.
fn push_kind_entries(
    text: &mut Vec<u8>,
    options: &Options,
    tables: &Tables,
    head: &[u8],
    quote: &[u8],
) -> PushResult
    ensures { OnOk result (text.new.items
        ≡ text.old.items ++ actions.array_text options.now head.now
        (actions.kind_entries tables.now quote.now)) }
{
    push_filled(text, options, head)?;
    for place in 0..tables.kinds() {
        push_kind_entry(text, quote, tables.kind(place))?;
    }
    push(text, b"0};\n")
}

// Appends the array of the kinds, if a file declares them.
fn push_kinds_array(text: &mut Vec<u8>, options: &Options, tables: &Tables) -> PushResult
    ensures { OnOk result (text.new.items
        ≡ text.old.items ++ actions.kinds_array options.now tables.now) }
{
    if options.has_include() {
        push_kind_entries(text, options, tables, KINDS, b"")
    } else {
        Ok(())
    }
}

/// Appends the arrays of what rules do; the first kind has the number `first`.
pub(crate) fn push_actions(
    text: &mut Vec<u8>,
    options: &Options,
    first: u64,
    tables: &Tables,
) -> PushResult
    requires { first ≤ max_first_kind }
    ensures { OnOk result
        (text.new.items ≡ text.old.items ++ actions.actions_from options.now first tables.now) }
{
    push_steps_arrays(text, options, first, tables)?;
    push_steps(text, options, tables)?;
    push_actions_array(text, options, first, tables)?;
    push_line_ends(text, options, tables)?;
    push_either(text, options, has_echoes(tables), PENDING, NOTHING_PENDING)?;
    push_kind_entries(text, options, tables, NAMES, b"\"")?;
    push_kinds_array(text, options, tables)
}
