//! The text of `lex.backup`: the states in which a scanner may go back to an earlier end of a match (flex's manual, "Performance").

ghost use Rattle.std.specs.Prelude.{◌<◌};
ghost use Rattle.lx_automaton.specs.Automata.{state_count};

use lx_automaton::State;
use lx_c::pushing::{push, push_number_then};
use lx_c::stepping::target_of;
use lx_tables::Tables;
use std::alloc::{AllocError, Global};

// Greatest length of the text that is shown for a state.
const SHOWN: usize = 40;

/// A step into a state: the state that it comes from, and its byte.
#[derive(Clone, Copy)]
struct StepInto {
    from: u32,
    byte: u8,
}

// Returns a step into a state, if there is one.
fn step_into(steps: &[Option<StepInto>], state: u32) -> Option<StepInto> {
    match steps.get(state as usize) {
        Some(step) => *step,
        None => None,
    }
}

// Notes the steps of a state where none into the same state was noted before.
fn note_steps(tables: &Tables, from: u32, steps: &mut Vec<Option<StepInto>>)
    requires { from < state_count tables.now.machine }
{
    for place in 0..256u16 {
        let byte = place as u8;
        if let Some(target) = target_of(tables, from, byte) {
            if let Some(step) = steps.get_mut(target as usize) {
                if step.is_none() {
                    *step = Some(StepInto { from, byte });
                }
            }
        }
    }
}

// Returns a step into each state, if there is one.
fn steps_into_all(alloc: Global, tables: &Tables) -> Result<Vec<Option<StepInto>>, AllocError> {
    let mut steps = no_steps(alloc, tables)?;
    for state in 0..tables.states() {
        note_steps(tables, state, &mut steps);
    }
    Ok(steps)
}

// Returns a step into each state from one that has a step into it, if there is one: so into each state after two bytes or more.
fn further_steps(
    alloc: Global,
    tables: &Tables,
    steps: &[Option<StepInto>],
) -> Result<Vec<Option<StepInto>>, AllocError> {
    let mut further = no_steps(alloc, tables)?;
    for state in 0..tables.states() {
        if step_into(steps, state).is_some() {
            note_steps(tables, state, &mut further);
        }
    }
    Ok(further)
}

fn no_steps(alloc: Global, tables: &Tables) -> Result<Vec<Option<StepInto>>, AllocError> {
    let mut steps = Vec::new(alloc);
    for _ in 0..tables.states() {
        steps.push(None)?;
    }
    Ok(steps)
}

// Appends a byte as flex shows it: one that isn't printed by three octal digits, and a blank between apostrophes.
fn push_shown(text: &mut Vec<u8>, byte: u8) -> Result<(), AllocError> {
    if byte == b' ' {
        return push(text, b"' '");
    }
    if b' ' < byte && byte < 127 {
        return push(text, &[byte]);
    }
    push(
        text,
        &[
            b'\\',
            b'0' + byte / 64,
            b'0' + byte / 8 % 8,
            b'0' + byte % 8,
        ],
    )
}

// Appends the bytes on which a state has a step, or has none, as ranges between brackets.
fn push_ranges(
    text: &mut Vec<u8>,
    tables: &Tables,
    state: u32,
    has_step: bool,
) -> Result<(), AllocError>
    requires { state < state_count tables.now.machine }
{
    push(text, b"[")?;
    let mut was_within = false;
    let mut is_long = false;
    for place in 0..256u16 {
        let byte = place as u8;
        if target_of(tables, state, byte).is_some() == has_step {
            if was_within {
                is_long = true;
            } else {
                push(text, b" ")?;
                push_shown(text, byte)?;
                is_long = false;
            }
            was_within = true;
        } else {
            if was_within && is_long {
                push(text, b"-")?;
                push_shown(text, byte.wrapping_sub(1))?;
            }
            was_within = false;
        }
    }
    if was_within && is_long {
        push(text, b"-")?;
        push_shown(text, 255)?;
    }
    push(text, b" ]\n")
}

// Returns the last bytes of a text that leads to a state, in the order from its end.
fn text_into(
    alloc: Global,
    further: &[Option<StepInto>],
    steps: &[Option<StepInto>],
    state: u32,
) -> Result<Vec<u8>, AllocError> {
    let mut text = Vec::new(alloc);
    let mut step = step_into(further, state);
    let mut place = state;
    for count in 0..SHOWN {
        let Some(StepInto { from, byte }) = step else {
            return Ok(text);
        };
        if 1 < count && place <= from {
            return Ok(text);
        }
        text.push(byte)?;
        place = from;
        step = step_into(steps, from);
    }
    Ok(text)
}

// Appends what is said of a state.
fn push_state(
    output: &mut Vec<u8>,
    tables: &Tables,
    state: u32,
    text: &[u8],
) -> Result<(), AllocError>
    requires { state < state_count tables.now.machine }
{
    push(output, b"State #")?;
    push_number_then(
        output,
        u64::from(state),
        b" is non-accepting -\n after the text: ",
    )?;
    if SHOWN <= text.len() {
        push(output, b"..")?;
    }
    for count in 0..text.len() {
        push_shown(output, text[text.len() - 1 - count])?;
    }
    push(output, b"\n out-transitions: ")?;
    push_ranges(output, tables, state, true)?;
    push(output, b" jam-transitions: EOF ")?;
    push_ranges(output, tables, state, false)?;
    push(output, b"\n")
}

/// Returns the text of `lex.backup`: what is said of each state that accepts no rule and that a text of two bytes or more leads to, and their number.
/// After a single byte the default rule matches, so nothing is given back. Err: an allocation failed.
pub fn backup_of(alloc: Global, tables: &Tables) -> Result<Vec<u8>, AllocError> {
    let steps = steps_into_all(alloc, tables)?;
    let further = further_steps(alloc, tables, &steps)?;
    let mut output = Vec::new(alloc);
    let mut count: u64 = 0;
    for state in 0..tables.states() {
        if step_into(&further, state).is_some() && tables.accepts(State(state)).is_none() {
            let text = text_into(alloc, &further, &steps, state)?;
            push_state(&mut output, tables, state, &text)?;
            count = count.saturating_add(1);
        }
    }
    if count == 0 {
        push(&mut output, b"No backing up.\n")?;
    } else {
        push_number_then(&mut output, count, b" backing up (non-accepting) states.\n")?;
    }
    Ok(output)
}
