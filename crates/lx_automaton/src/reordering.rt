//! Reorders the lists of an automaton by a new order of its states.

ghost use Rattle.std.specs.Prelude.{◌≡◌, ◌<◌, ◌≤◌, ◌+◌, ◌*◌, ℕ, IfOk, OnOk, length, slice_index};
ghost use Rattle.lx_rules.specs.Limits.{max_rules};
ghost use Rattle.lx_automaton.specs.Automata.{state_count, accepted_by, class_target};
ghost use Rattle.lx_automaton.specs.EncodedOptions.{decoded_option};
ghost use Rattle.lx_automaton.specs.Numbered.{AreAllMet, AreStarts, AreAccepted, AreRows, encoded_option_of, rule_below};

use crate::state_order::StateOrder;
use crate::{Automaton, State};
use std::alloc::{AllocError, Global};

/// Returns the new number of a state.
fn number(state_order: &StateOrder, state: State) -> u32
    requires met { AreAllMet state_order.now.states.items state_order.now.encoded_options.items }
    requires state { state.0 < length state_order.now.encoded_options.items }
    ensures { result + 1 ≡ slice_index state_order.now.encoded_options.items state.0 }
{
    u32::from(state_order.encoded_options[state.0 as usize]) - 1
}

/// Returns the starts by their new numbers.
pub fn starts_of(
    alloc: Global,
    automaton: &Automaton,
    state_order: &StateOrder,
) -> Result<Vec<(u32, u32)>, AllocError>
    requires met { AreAllMet state_order.now.states.items state_order.now.encoded_options.items }
    requires long { length state_order.now.encoded_options.items ≡ state_count automaton.now }
    ensures { IfOk result (λ starts.
        AreStarts automaton.now state_order.now.encoded_options.items starts.items
        (length automaton.now.starts)) }
{
    let mut starts = Vec::new(alloc);
    for condition in 0..automaton.conditions() {
        let elsewhere = number(state_order, automaton.start(condition, false));
        let at_begin = number(state_order, automaton.start(condition, true));
        starts.push((elsewhere, at_begin))?;
    }
    Ok(starts)
}

/// Returns the class of each byte.
pub fn classes_of(alloc: Global, automaton: &Automaton) -> Result<Vec<u8>, AllocError>
    ensures { IfOk result (λ classes. classes.items ≡ automaton.now.classes) }
{
    let mut classes = Vec::new(alloc);
    for byte in 0..256u16 {
        classes.push(automaton.class(byte as u8))?;
    }
    Ok(classes)
}

/// Returns the encoded option of the rule that a state accepts, if it is below `rules`. The rule of a state to which no text leads is unknown.
fn encoded_rule(automaton: &Automaton, state: u32, rules: u16) -> u16
    requires state { state < state_count automaton.now }
    requires rules { rules ≤ max_rules }
    ensures { decoded_option result ≡ rule_below rules (accepted_by automaton.now state) }
{
    match automaton.accepts(State(state)) {
        None => 0,
        Some(rule) => { if rule < rules { rule + 1 } else { 0 } }
    }
}

/// Returns the encoded options of the rules that the states accept.
pub fn accepted_of(
    alloc: Global,
    automaton: &Automaton,
    state_order: &StateOrder,
    rules: u16,
) -> Result<Vec<u16>, AllocError>
    requires met { AreAllMet state_order.now.states.items state_order.now.encoded_options.items }
    requires long { length state_order.now.encoded_options.items ≡ state_count automaton.now }
    requires rules { rules ≤ max_rules }
    ensures { IfOk result (λ accepted.
        AreAccepted automaton.now rules state_order.now.states.items accepted.items
        (length state_order.now.states.items)) }
{
    let mut accepted = Vec::new(alloc);
    for place in 0..state_order.states.len() {
        accepted.push(encoded_rule(automaton, state_order.states[place], rules))?;
    }
    Ok(accepted)
}

/// Returns the target of a state on a class as an encoded option: 0, or one more than the new number.
fn encoded_target(automaton: &Automaton, state_order: &StateOrder, state: u32, class: u8) -> u16
    requires met { AreAllMet state_order.now.states.items state_order.now.encoded_options.items }
    requires long { length state_order.now.encoded_options.items ≡ state_count automaton.now }
    requires state { state < state_count automaton.now }
    requires class { class < automaton.now.width }
    ensures { result ≡ encoded_option_of state_order.now.encoded_options.items
        (class_target automaton.now state class) }
{
    match automaton.class_step(State(state), class) {
        None => 0,
        Some(target) => state_order.encoded_options[target.0 as usize],
    }
}

/// Adds the row of a state.
fn add_row(
    automaton: &Automaton,
    state_order: &StateOrder,
    place: usize,
    targets: &mut Vec<u16>,
) -> Result<(), AllocError>
    requires met { AreAllMet state_order.now.states.items state_order.now.encoded_options.items }
    requires long { length state_order.now.encoded_options.items ≡ state_count automaton.now }
    requires place { place < length state_order.now.states.items }
    requires rows { AreRows automaton.now state_order.now.states.items
        state_order.now.encoded_options.items targets.old.items (place * automaton.now.width) }
    ensures { OnOk result (AreRows automaton.now state_order.now.states.items
        state_order.now.encoded_options.items targets.new.items
        ((place + 1) * automaton.now.width)) }
{
    for class in 0..automaton.classes() {
        let encoded_option = encoded_target(
            automaton,
            state_order,
            state_order.states[place],
            class as u8,
        );
        targets.push(encoded_option)?;
    }
    Ok(())
}

/// Makes the rows of the states.
pub fn rows_of(
    alloc: Global,
    automaton: &Automaton,
    state_order: &StateOrder,
) -> Result<Vec<u16>, AllocError>
    requires met { AreAllMet state_order.now.states.items state_order.now.encoded_options.items }
    requires long { length state_order.now.encoded_options.items ≡ state_count automaton.now }
    ensures { IfOk result (λ targets.
        AreRows automaton.now state_order.now.states.items state_order.now.encoded_options.items
        targets.items (length state_order.now.states.items * automaton.now.width)) }
{
    let mut targets = Vec::new(alloc);
    for place in 0..state_order.states.len() {
        add_row(automaton, state_order, place, &mut targets)?;
    }
    Ok(targets)
}
