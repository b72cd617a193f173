//! The code of each state, for texts with an end of their own and for texts that end with a NUL.

ghost use Rattle.lx_automaton.specs.Automata.{state_count};
ghost use Rattle.lx_c.specs.StateCode as states;
ghost use Rattle.std.specs.Prelude.{IfSome, OnOk, ◌++◌, ◌<◌, ◌≡◌, ◌≤◌};

use crate::loops::push_loop;
use crate::options::Options;
use crate::pushing::{PushResult, push, push_filled, push_number, push_number_then, push_numbered};
use crate::row_numbers::rule_word;
use crate::state_templates::{CASE, GO, KEEP, LABEL, LAST, NEWLINE, SINGLE, STOP, SWITCH, TEST};
use crate::stepping::{CodedStates, leads, step_count, target_of};
use crate::targets::{
    first_target, group_count, in_group, main_target, marked_target, other_target, single_count,
};
use lx_tables::Tables;

/// The greatest number of bytes that are tested one by one.
const MOST_SINGLES: u32 = 4;

// Appends what keeps a place: the one before a step to a state that accepts no rule.
fn push_keep(text: &mut Vec<u8>, options: &Options, before: u32, after: u32) -> PushResult
    ensures { OnOk result
        (text.new.items ≡ text.old.items ++ states.keep_text options.now before after) }
{
    if before == 0 {
        return Ok(());
    }
    if after == 0 {
        push_numbered(text, options, KEEP, before, b") ")?;
    }
    Ok(())
}

// Appends that a step may be one on a newline.
fn push_newline(text: &mut Vec<u8>, code: CodedStates<'_>, state: u32, target: u32) -> PushResult
    requires { state < state_count code.tables.now.machine }
    ensures { OnOk result (text.new.items ≡ text.old.items
        ++ states.newline_text code.entry.options.now code.entry.nul_ends code.entry.tables.now.machine state target) }
{
    if code.nul_ends {
        return Ok(());
    }
    if leads(Some(target), target_of(code.tables, state, b'\n')) {
        push_filled(text, code.options, NEWLINE)
    } else {
        Ok(())
    }
}

// Appends a step.
fn push_edge(text: &mut Vec<u8>, code: CodedStates<'_>, state: u32, target: u32) -> PushResult
    requires state { state < state_count code.tables.now.machine }
    requires target { target < state_count code.tables.now.machine }
    ensures { OnOk result (text.new.items ≡ text.old.items
        ++ states.edge_text code.entry.options.now code.entry.nul_ends code.entry.tables.now.machine state target) }
{
    let before = rule_word(code.tables, state);
    let after = rule_word(code.tables, target);
    push_keep(text, code.options, before, after)?;
    push_newline(text, code, state, target)?;
    push_numbered(text, code.options, GO, target, b")")
}

// Appends the test by the marks of a target, and the step there.
fn push_test(
    text: &mut Vec<u8>,
    code: CodedStates<'_>,
    state: u32,
    marked: Option<u32>,
) -> PushResult
    requires state { state < state_count code.tables.now.machine }
    requires marked { IfSome marked (λ t. t < state_count code.tables.now.machine) }
    ensures { OnOk result (text.new.items ≡ text.old.items
        ++ states.test_code code.entry.options.now code.entry.nul_ends code.entry.tables.now.machine state marked) }
{
    match marked {
        None => Ok(()),
        Some(target) => {
            push_numbered(text, code.options, TEST, target, b")) { ")?;
            push_edge(text, code, state, target)?;
            push(text, b" }\n")
        }
    }
}

// Returns true for the quote and the backslash, before which C wants a backslash.
fn is_escaped(byte: u16) -> bool
    ensures { result ≡ states.is_escaped byte }
{
    byte == 39 || byte == 92
}

// Returns true for the bytes of printable characters.
fn is_printable(byte: u16) -> bool
    ensures { result ≡ states.is_printable byte }
{
    32 <= byte && byte <= 126
}

// Appends a byte as C has it: the newline, a character, or a number.
fn push_byte(text: &mut Vec<u8>, byte: u16) -> PushResult
    requires { byte < 256 }
    ensures { OnOk result (text.new.items ≡ text.old.items ++ states.byte_text byte) }
{
    if byte == 10 {
        return push(text, b"'\\n'");
    }
    if is_escaped(byte) {
        return push(text, &[b'\'', b'\\', byte as u8, b'\'']);
    }
    if is_printable(byte) {
        return push(text, &[b'\'', byte as u8, b'\'']);
    }
    push_number(text, u64::from(byte))
}

// Appends the test of a byte, if it leads to another state.
fn push_single(
    text: &mut Vec<u8>,
    code: CodedStates<'_>,
    state: u32,
    marked: Option<u32>,
    byte: u16,
) -> PushResult
    requires state { state < state_count code.tables.now.machine }
    requires byte { byte < 256 }
    ensures { OnOk result (text.new.items ≡ text.old.items
        ++ states.single_code code.entry.options.now code.entry.nul_ends code.entry.tables.now.machine state byte
        (states.other_target code.entry.nul_ends code.entry.tables.now.machine state marked byte)) }
{
    match other_target(code, state, marked, byte) {
        None => Ok(()),
        Some(target) => {
            push_filled(text, code.options, SINGLE)?;
            push_byte(text, byte)?;
            push(text, b") { ")?;
            push_edge(text, code, state, target)?;
            push(text, b" }\n")
        }
    }
}

fn push_singles(
    text: &mut Vec<u8>,
    code: CodedStates<'_>,
    state: u32,
    marked: Option<u32>,
) -> PushResult
    requires { state < state_count code.tables.now.machine }
    ensures { OnOk result (text.new.items ≡ text.old.items
        ++ states.single_codes code.entry.options.now code.entry.nul_ends code.entry.tables.now.machine state marked) }
{
    for byte in 0..256 {
        push_single(text, code, state, marked, byte)?;
    }
    Ok(())
}

// Appends the space before a label, of which this number of labels come before.
fn push_label_begin(text: &mut Vec<u8>, before: u32, byte: u16) -> PushResult
    ensures { OnOk result (text.new.items ≡ text.old.items ++ states.label_begin before byte) }
{
    if before == 0 {
        return push(text, CASE);
    }
    if byte % 16 == 0 {
        return push(text, b"\n        case ");
    }
    push(text, b" case ")
}

fn push_label_text(text: &mut Vec<u8>, before: u32, byte: u16) -> PushResult
    requires { byte < 256 }
    ensures { OnOk result (text.new.items ≡ text.old.items ++ states.label_text before byte) }
{
    push_label_begin(text, before, byte)?;
    push_byte(text, byte)?;
    push(text, b":")
}

// Appends the label of a byte, if it is of a group.
fn push_label(
    text: &mut Vec<u8>,
    code: CodedStates<'_>,
    state: u32,
    group: Option<u32>,
    byte: u16,
) -> PushResult
    requires state { state < state_count code.tables.now.machine }
    requires byte { byte < 256 }
    ensures { OnOk result (text.new.items ≡ text.old.items
        ++ states.label code.entry.nul_ends code.entry.tables.now.machine state group byte) }
{
    if in_group(code, state, group, byte) {
        push_label_text(text, group_count(code, state, group, byte), byte)
    } else {
        Ok(())
    }
}

fn push_labels(
    text: &mut Vec<u8>,
    code: CodedStates<'_>,
    state: u32,
    group: Option<u32>,
) -> PushResult
    requires { state < state_count code.tables.now.machine }
    ensures { OnOk result (text.new.items ≡ text.old.items
        ++ states.labels code.entry.nul_ends code.entry.tables.now.machine state group) }
{
    for byte in 0..256 {
        push_label(text, code, state, group, byte)?;
    }
    Ok(())
}

// Appends the cases of a target.
fn push_group(text: &mut Vec<u8>, code: CodedStates<'_>, state: u32, target: u32) -> PushResult
    requires state { state < state_count code.tables.now.machine }
    requires target { target < state_count code.tables.now.machine }
    ensures { OnOk result (text.new.items ≡ text.old.items
        ++ states.group_code code.entry.options.now code.entry.nul_ends code.entry.tables.now.machine state target) }
{
    push_labels(text, code, state, Some(target))?;
    push(text, b" ")?;
    push_edge(text, code, state, target)?;
    push(text, b"\n")
}

// Appends the cases of a byte's target, unless an earlier byte leads there too, or it is the main one.
fn push_case(
    text: &mut Vec<u8>,
    code: CodedStates<'_>,
    state: u32,
    main: Option<u32>,
    byte: u16,
) -> PushResult
    requires state { state < state_count code.tables.now.machine }
    requires byte { byte < 256 }
    ensures { OnOk result (text.new.items ≡ text.old.items
        ++ states.case_code code.entry.options.now code.entry.nul_ends code.entry.tables.now.machine state main byte
        (states.other_target code.entry.nul_ends code.entry.tables.now.machine state None byte)) }
{
    let Some(target) = other_target(code, state, None, byte) else {
        return Ok(());
    };
    if main == Some(target) {
        return Ok(());
    }
    if group_count(code, state, Some(target), byte) == 0 {
        push_group(text, code, state, target)
    } else {
        Ok(())
    }
}

fn push_cases(
    text: &mut Vec<u8>,
    code: CodedStates<'_>,
    state: u32,
    main: Option<u32>,
) -> PushResult
    requires { state < state_count code.tables.now.machine }
    ensures { OnOk result (text.new.items ≡ text.old.items
        ++ states.case_codes code.entry.options.now code.entry.nul_ends code.entry.tables.now.machine state main) }
{
    for byte in 0..256 {
        push_case(text, code, state, main, byte)?;
    }
    Ok(())
}

// Appends the cases of the bytes that lead nowhere, if there are any.
fn push_stop_cases(text: &mut Vec<u8>, code: CodedStates<'_>, state: u32) -> PushResult
    requires { state < state_count code.tables.now.machine }
    ensures { OnOk result (text.new.items ≡ text.old.items
        ++ states.stop_cases code.entry.nul_ends code.entry.tables.now.machine state) }
{
    if group_count(code, state, None, 256) == 0 {
        return Ok(());
    }
    push_labels(text, code, state, None)?;
    push(text, b" break;\n")
}

// Appends the steps to the main target, after all others.
fn push_main(text: &mut Vec<u8>, code: CodedStates<'_>, state: u32, main: Option<u32>) -> PushResult
    requires state { state < state_count code.tables.now.machine }
    requires main { IfSome main (λ t. t < state_count code.tables.now.machine) }
    ensures { OnOk result (text.new.items ≡ text.old.items
        ++ states.main_code code.entry.options.now code.entry.nul_ends code.entry.tables.now.machine state main) }
{
    match main {
        None => push(text, b"        }\n"),
        Some(target) => {
            push_stop_cases(text, code, state)?;
            push(text, b"        default: ")?;
            push_edge(text, code, state, target)?;
            push(text, b"\n        }\n")
        }
    }
}

// Appends the steps to other states as cases.
fn push_switch(
    text: &mut Vec<u8>,
    code: CodedStates<'_>,
    state: u32,
    main: Option<u32>,
) -> PushResult
    requires state { state < state_count code.tables.now.machine }
    requires main { IfSome main (λ t. t < state_count code.tables.now.machine) }
    ensures { OnOk result (text.new.items ≡ text.old.items
        ++ states.switch_code code.entry.options.now code.entry.nul_ends code.entry.tables.now.machine state main) }
{
    push_filled(text, code.options, SWITCH)?;
    push_cases(text, code, state, main)?;
    push_main(text, code, state, main)
}

// Appends the test before all cases, and these.
fn push_tested_cases(text: &mut Vec<u8>, code: CodedStates<'_>, state: u32) -> PushResult
    requires { state < state_count code.tables.now.machine }
    ensures { OnOk result (text.new.items ≡ text.old.items
        ++ states.cases_code code.entry.options.now code.entry.nul_ends code.entry.tables.now.machine state) }
{
    let first = first_target(code.tables, state);
    let main = main_target(code, state);
    push_test(text, code, state, first)?;
    push_switch(text, code, state, main)
}

// Appends the steps to other states.
fn push_tests(
    text: &mut Vec<u8>,
    code: CodedStates<'_>,
    state: u32,
    marked: Option<u32>,
) -> PushResult
    requires state { state < state_count code.tables.now.machine }
    requires marked { IfSome marked (λ t. t < state_count code.tables.now.machine) }
    ensures { OnOk result (text.new.items ≡ text.old.items
        ++ states.tests_code code.entry.options.now code.entry.nul_ends code.entry.tables.now.machine state marked) }
{
    if MOST_SINGLES < single_count(code, state, marked) {
        return push_tested_cases(text, code, state);
    }
    push_singles(text, code, state, marked)?;
    push_test(text, code, state, marked)
}

// Appends the end of a walk, by the rule that the state accepts.
fn push_end(text: &mut Vec<u8>, code: CodedStates<'_>, template: &[u8], state: u32) -> PushResult
    requires { state < state_count code.tables.now.machine }
    ensures { OnOk result (text.new.items ≡ text.old.items
        ++ states.end_code code.entry.options.now template.now code.entry.tables.now.machine state) }
{
    push_numbered(text, code.options, template, state, b", ")?;
    push_number_then(text, u64::from(rule_word(code.tables, state)), b")\n")
}

// Appends all steps of a state.
fn push_steps(text: &mut Vec<u8>, code: CodedStates<'_>, state: u32) -> PushResult
    requires { state < state_count code.tables.now.machine }
    ensures { OnOk result (text.new.items ≡ text.old.items
        ++ states.steps_code code.entry.options.now code.entry.nul_ends code.entry.tables.now.machine state) }
{
    let marked = marked_target(code.tables, state);
    push_loop(text, code, state)?;
    push_tests(text, code, state, marked)?;
    push_end(text, code, STOP, state)
}

// Returns true for a state without steps that accepts a rule.
fn is_last(tables: &Tables, state: u32) -> bool
    requires { state < state_count tables.now.machine }
    ensures { result ≡ states.is_last tables.now.machine state }
{
    step_count(tables, state, None) == 0 && rule_word(tables, state) != 0
}

// Appends the code of a state after its label. In a last state it doesn't look at the next byte.
fn push_walk(text: &mut Vec<u8>, code: CodedStates<'_>, state: u32) -> PushResult
    requires { state < state_count code.tables.now.machine }
    ensures { OnOk result (text.new.items ≡ text.old.items
        ++ states.walk_code code.entry.options.now code.entry.nul_ends code.entry.tables.now.machine state) }
{
    if is_last(code.tables, state) {
        return push_end(text, code, LAST, state);
    }
    push_steps(text, code, state)
}

fn push_state(text: &mut Vec<u8>, code: CodedStates<'_>, state: u32) -> PushResult
    requires { state < state_count code.tables.now.machine }
    ensures { OnOk result (text.new.items ≡ text.old.items
        ++ states.state_code code.entry.options.now code.entry.nul_ends code.entry.tables.now.machine state) }
{
    push_numbered(text, code.options, LABEL, state, b":\n")?;
    push_walk(text, code, state)
}

/// Appends the code of all states, by macros that the scanner defines.
pub fn push_state_codes(text: &mut Vec<u8>, code: CodedStates<'_>) -> PushResult
    ensures { OnOk result (text.new.items ≡ text.old.items
        ++ states.state_codes code.entry.options.now code.entry.nul_ends code.entry.tables.now.machine) }
{
    for state in 0..code.tables.states() {
        push_state(text, code, state)?;
    }
    Ok(())
}
