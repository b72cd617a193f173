//! Code for each state of a text that ends with a NUL, and its arrays.

ghost use Rattle.std.specs.Prelude.{IfOk, OnOk, codes, length, true, ◌++◌, ◌<◌, ◌≡◌};
ghost use Rattle.lx_automaton.specs.Automata.{start_of, state_count, target_of};
ghost use Rattle.lx_c.specs.Options.{yy_options};
ghost use Rattle.lx_lex.specs.Arrays.{head_text};
ghost use Rattle.lx_lex.specs.StateCode as states;

use crate::skeleton_states::{GOTO_STATE, RESUME};
use lx_c::pushing::{PushResult, push, push_number_then, push_type};
use lx_c::state_templates::CASE;
use lx_c::stepping::{CodedStates, target_of};
use lx_c::{Options, push_marks, push_state_codes, rule_word};
use lx_tables::Tables;
use std::alloc::{AllocError, Global};

// Appends the beginning of an array whose numbers are at most this.
fn push_head(text: &mut Vec<u8>, most: u64, name: &[u8]) -> PushResult
    ensures { OnOk result (text.new.items ≡ text.old.items ++ head_text most name.now) }
{
    push(text, b"static const ")?;
    push_type(text, most)?;
    push(text, b" ")?;
    push(text, name)
}

fn push_accept_entries(text: &mut Vec<u8>, tables: &Tables) -> PushResult
    ensures { OnOk result
        (text.new.items ≡ text.old.items ++ states.accept_entries tables.now.machine) }
{
    for state in 0..tables.states() {
        push_number_then(text, u64::from(rule_word(tables, state)), b",")?;
    }
    Ok(())
}

// Returns one more than the target of a state on a NUL of the text, or 0.
fn nul_word(tables: &Tables, state: u32) -> u64
    requires { state < state_count tables.now.machine }
    ensures { result ≡ states.state_word (target_of tables.now.machine state 0) }
{
    match target_of(tables, state, 0) {
        None => 0,
        Some(target) => u64::from(target) + 1,
    }
}

fn push_nul_entries(text: &mut Vec<u8>, tables: &Tables) -> PushResult
    ensures { OnOk result
        (text.new.items ≡ text.old.items ++ states.nul_entries tables.now.machine) }
{
    for state in 0..tables.states() {
        push_number_then(text, nul_word(tables, state), b",")?;
    }
    Ok(())
}

fn push_accept_array(text: &mut Vec<u8>, tables: &Tables) -> PushResult
    ensures { OnOk result (text.new.items ≡ text.old.items ++ states.accept_array tables.now) }
{
    push_head(text, u64::from(tables.rules()), b"yy_accept[] = {\n")?;
    push_accept_entries(text, tables)?;
    push(text, b"0};\n")
}

fn push_nul_array(text: &mut Vec<u8>, tables: &Tables) -> PushResult
    ensures { OnOk result (text.new.items ≡ text.old.items ++ states.nul_array tables.now) }
{
    push_head(text, u64::from(tables.states()), b"yy_nul[] = {\n")?;
    push_nul_entries(text, tables)?;
    push(text, b"0};\n")
}

// Appends the arrays of code for states.
fn push_all_arrays(text: &mut Vec<u8>, options: &Options, tables: &Tables) -> PushResult
    requires { options.now ≡ yy_options }
    ensures { OnOk result
        (text.new.items ≡ text.old.items ++ states.state_arrays_text tables.now) }
{
    push_accept_array(text, tables)?;
    push_nul_array(text, tables)?;
    push_marks(text, CodedStates::new(options, tables, true))
}

/// Returns the arrays of code for states: the rule of each state, its step on a NUL, and the marks of bytes of loops.
pub(crate) fn state_arrays_of(alloc: Global, tables: &Tables) -> Result<Vec<u8>, AllocError>
    ensures { IfOk result (λ text. text.items ≡ states.state_arrays_text tables.now) }
{
    let options = Options::of_lex(alloc)?;
    let mut text = Vec::new(alloc);
    push_all_arrays(&mut text, &options, tables)?;
    Ok(text)
}

// Appends the jump from a number to the code of a state.
fn push_goto(text: &mut Vec<u8>, number: u64, state: u32) -> PushResult
    ensures { OnOk result (text.new.items ≡ text.old.items ++ states.goto_code number state) }
{
    push(text, CASE)?;
    push_number_then(text, number, GOTO_STATE)?;
    push_number_then(text, u64::from(state), b";\n")
}

// Appends the states in which a condition starts, not at line begin and at line begin.
fn push_start(text: &mut Vec<u8>, tables: &Tables, condition: u16) -> PushResult
    requires { condition < length tables.now.machine.starts }
    ensures { OnOk result
        (text.new.items ≡ text.old.items ++ states.start_code tables.now.machine condition) }
{
    let number = 2 * u64::from(condition);
    push_goto(text, number, tables.start(condition, false).0)?;
    push_goto(text, number + 1, tables.start(condition, true).0)
}

fn push_starts(text: &mut Vec<u8>, tables: &Tables) -> PushResult
    ensures { OnOk result
        (text.new.items ≡ text.old.items ++ states.start_codes tables.now.machine) }
{
    for condition in 0..tables.conditions() {
        push_start(text, tables, condition)?;
    }
    Ok(())
}

fn push_resumes(text: &mut Vec<u8>, tables: &Tables) -> PushResult
    ensures { OnOk result
        (text.new.items ≡ text.old.items ++ states.resume_codes tables.now.machine) }
{
    for state in 0..tables.states() {
        push_goto(text, u64::from(state), state)?;
    }
    Ok(())
}

// Appends the code from the starts of the conditions through the states, and that by which a walk goes on in a state.
fn push_all_states(text: &mut Vec<u8>, options: &Options, tables: &Tables) -> PushResult
    requires { options.now ≡ yy_options }
    ensures { OnOk result
        (text.new.items ≡ text.old.items ++ states.states_text tables.now.machine) }
{
    push_starts(text, tables)?;
    push(text, b"        }\n")?;
    push_state_codes(text, CodedStates::new(options, tables, true))?;
    push(text, RESUME)?;
    push_resumes(text, tables)?;
    push(text, b"        }\n")
}

/// Returns this code.
pub(crate) fn states_of(alloc: Global, tables: &Tables) -> Result<Vec<u8>, AllocError>
    ensures { IfOk result (λ text. text.items ≡ states.states_text tables.now.machine) }
{
    let options = Options::of_lex(alloc)?;
    let mut text = Vec::new(alloc);
    push_all_states(&mut text, &options, tables)?;
    Ok(text)
}
