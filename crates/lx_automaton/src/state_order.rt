//! The order of an automaton's states in tables. The starts come first, in the order of the conditions, for each condition without and then at line
//! begin. Then come the targets of the states in order, by ascending class. Each state has its place when it is first met.

ghost use Rattle.std.specs.Prelude.{◌≡◌, ◌≢◌, ◌<◌, ◌≤◌, ℕ, IfOk, OnOk, length, slice_index};
ghost use Rattle.lx_automaton.specs.Automata.{state_count, max_states};
ghost use Rattle.lx_automaton.specs.Numbered.{AreMet, AreAllMet};

use crate::{Automaton, State};
use std::alloc::{AllocError, Global};

/// The states of an automaton in another order.
#[derive(Drop)]
pub struct StateOrder {
    /// States that were met, in the new order.
    pub states: Vec<u32>,
    /// For each state, 0 before it is met, or one more than its place among the met ones.
    pub encoded_options: Vec<u16>,
}

/// Gives a state the next number, unless it has one.
fn meet(state_order: &mut StateOrder, state: u32) -> Result<(), AllocError>
    requires met { AreMet state_order.old.states.items state_order.old.encoded_options.items }
    requires state { state < length state_order.old.encoded_options.items }
    requires few { length state_order.old.encoded_options.items ≤ max_states }
    ensures met { OnOk result
        (AreMet state_order.new.states.items state_order.new.encoded_options.items) }
    ensures long { OnOk result (length state_order.new.encoded_options.items
        ≡ length state_order.old.encoded_options.items) }
    ensures there { OnOk result (slice_index state_order.new.encoded_options.items state ≢ 0) }
    ensures kept { OnOk result ((s : ℕ) → slice_index state_order.old.encoded_options.items s ≢ 0
        → slice_index state_order.new.encoded_options.items s ≢ 0) }
{
    if state_order.encoded_options[state as usize] != 0 {
        return Ok(());
    }
    state_order.states.push(state)?;
    let number = state_order.states.len() as u16;
    state_order.encoded_options[state as usize] = number;
    Ok(())
}

/// Gives numbers to the starts.
fn meet_starts(automaton: &Automaton, state_order: &mut StateOrder) -> Result<(), AllocError>
    requires met { AreMet state_order.old.states.items state_order.old.encoded_options.items }
    requires long { length state_order.old.encoded_options.items ≡ state_count automaton.now }
    ensures met { OnOk result
        (AreMet state_order.new.states.items state_order.new.encoded_options.items) }
    ensures long { OnOk result
        (length state_order.new.encoded_options.items ≡ state_count automaton.now) }
{
    for condition in 0..automaton.conditions() {
        meet(state_order, automaton.start(condition, false).0)?;
        meet(state_order, automaton.start(condition, true).0)?;
    }
    Ok(())
}

/// Gives numbers to the targets of a state.
fn meet_targets(
    automaton: &Automaton,
    state_order: &mut StateOrder,
    state: u32,
) -> Result<(), AllocError>
    requires met { AreMet state_order.old.states.items state_order.old.encoded_options.items }
    requires long { length state_order.old.encoded_options.items ≡ state_count automaton.now }
    requires state { state < state_count automaton.now }
    ensures met { OnOk result
        (AreMet state_order.new.states.items state_order.new.encoded_options.items) }
    ensures long { OnOk result
        (length state_order.new.encoded_options.items ≡ state_count automaton.now) }
{
    for class in 0..automaton.classes() {
        if let Some(target) = automaton.class_step(State(state), class as u8) {
            meet(state_order, target.0)?;
        }
    }
    Ok(())
}

/// Gives numbers to all other states. No text leads to them.
fn meet_others(automaton: &Automaton, state_order: &mut StateOrder) -> Result<(), AllocError>
    requires met { AreMet state_order.old.states.items state_order.old.encoded_options.items }
    requires long { length state_order.old.encoded_options.items ≡ state_count automaton.now }
    ensures met { OnOk result
        (AreAllMet state_order.new.states.items state_order.new.encoded_options.items) }
    ensures long { OnOk result
        (length state_order.new.encoded_options.items ≡ state_count automaton.now) }
{
    for state in 0..automaton.states() {
        meet(state_order, state)?;
    }
    Ok(())
}

/// Returns the new order of all states.
pub fn state_order_of(alloc: Global, automaton: &Automaton) -> Result<StateOrder, AllocError>
    ensures met { IfOk result
        (λ state_order. AreAllMet state_order.states.items state_order.encoded_options.items) }
    ensures long { IfOk result
        (λ state_order. length state_order.encoded_options.items ≡ state_count automaton.now) }
{
    let encoded_options = vec![in alloc; 0u16; automaton.states() as usize]?;
    let mut state_order = StateOrder {
        states: Vec::new(alloc),
        encoded_options,
    };
    meet_starts(automaton, &mut state_order)?;
    let mut place = 0;
    while place < state_order.states.len() {
        let state = state_order.states[place];
        meet_targets(automaton, &mut state_order, state)?;
        place += 1;
    }
    meet_others(automaton, &mut state_order)?;
    Ok(state_order)
}
