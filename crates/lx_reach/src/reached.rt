//! Finds the states to which texts lead from a range of conditions.

ghost use Rattle.std.specs.Prelude.{◌≡◌, ◌≢◌, ◌<◌, ◌≤◌, ◌⊎◌, ℕ, IfOk, OnOk, length, slice_index};
ghost use Rattle.lx_automaton.specs.Automata.{state_count};
ghost use Rattle.lx_reach.specs.Reached.{AreMet, IsStart, IsTarget, IsReached, AreTargets};

use crate::met::{Met, meet, none_met};
use lx_tables::{State, Tables};
use std::alloc::{AllocError, Global};

// Meets the states in which the conditions from `first` up to `end` begin.
fn meet_starts(tables: &Tables, first: u16, end: u16, met: &mut Met) -> Result<(), AllocError>
    requires end { end ≤ length tables.now.machine.starts }
    requires met { AreMet met.old.numbers.items met.old.places.items }
    requires long { length met.old.places.items ≡ state_count tables.now.machine }
    requires none { (s : ℕ) → slice_index met.old.places.items s ≡ 0 }
    ensures met { OnOk result (AreMet met.new.numbers.items met.new.places.items) }
    ensures long { OnOk result (length met.new.places.items ≡ state_count tables.now.machine) }
    ensures there { OnOk result ((s : ℕ) → IsStart tables.now.machine first end s
        → slice_index met.new.places.items s ≢ 0) }
    ensures only { OnOk result ((s : ℕ) → slice_index met.new.places.items s ≢ 0
        → IsStart tables.now.machine first end s) }
{
    for condition in first..end {
        meet(met, tables.start(condition, false).0)?;
        meet(met, tables.start(condition, true).0)?;
    }
    Ok(())
}

/// Meets the targets of a state, like [`meet`]. Err: an allocation failed, and some of them aren't added.
pub fn meet_targets(tables: &Tables, met: &mut Met, state: u32) -> Result<(), AllocError>
    requires met { AreMet met.old.numbers.items met.old.places.items }
    requires long { length met.old.places.items ≡ state_count tables.now.machine }
    requires state { state < state_count tables.now.machine }
    ensures met { OnOk result (AreMet met.new.numbers.items met.new.places.items) }
    ensures long { OnOk result (length met.new.places.items ≡ state_count tables.now.machine) }
    ensures there { OnOk result
        ((t : ℕ) → IsTarget tables.now.machine state t → slice_index met.new.places.items t ≢ 0) }
    ensures kept { OnOk result ((s : ℕ) → slice_index met.old.places.items s ≢ 0
        → slice_index met.new.places.items s ≢ 0) }
    ensures only { OnOk result ((t : ℕ) → slice_index met.new.places.items t ≢ 0
        → slice_index met.old.places.items t ≢ 0 ⊎ IsTarget tables.now.machine state t) }
    ensures more { OnOk result (length met.old.numbers.items ≤ length met.new.numbers.items) }
    ensures front { OnOk result ((i : ℕ) → i < length met.old.numbers.items
        → slice_index met.new.numbers.items i ≡ slice_index met.old.numbers.items i) }
{
    for byte in 0..256u16 {
        if let Some(target) = tables.step(State(state), byte as u8) {
            meet(met, target.0)?;
        }
    }
    Ok(())
}

/// Returns the states to which some text, maybe the empty one, leads from the conditions from `first` up to `end`. Err: an allocation failed.
pub fn reached_states(
    alloc: Global,
    tables: &Tables,
    first: u16,
    end: u16,
) -> Result<Met, AllocError>
    requires end { end ≤ length tables.now.machine.starts }
    ensures met { IfOk result (λ met. AreMet met.numbers.items met.places.items) }
    ensures long { IfOk result (λ met. length met.places.items ≡ state_count tables.now.machine) }
    ensures only { IfOk result (λ met.
        (s : ℕ) → slice_index met.places.items s ≢ 0
        → IsReached tables.now.machine first end 0 s) }
    ensures all { IfOk result (λ met.
        (s : ℕ) → IsReached tables.now.machine first end 0 s
        → slice_index met.places.items s ≢ 0) }
{
    let mut met = none_met(alloc, tables.states() as usize)?;
    meet_starts(tables, first, end, &mut met)?;
    let mut place = 0;
    while place < met.numbers.len() {
        let state = met.numbers[place];
        meet_targets(tables, &mut met, state)?;
        place += 1;
    }
    Ok(met)
}

/// Returns the targets of the states in a list. Err: an allocation failed.
pub fn targets_of(alloc: Global, tables: &Tables, from: &Met) -> Result<Met, AllocError>
    requires met { AreMet from.now.numbers.items from.now.places.items }
    requires long { length from.now.places.items ≡ state_count tables.now.machine }
    ensures met { IfOk result (λ met. AreMet met.numbers.items met.places.items) }
    ensures long { IfOk result (λ met. length met.places.items ≡ state_count tables.now.machine) }
    ensures are { IfOk result
        (λ met. AreTargets tables.now.machine from.now.places.items met.places.items) }
{
    let mut met = none_met(alloc, tables.states() as usize)?;
    for place in 0..from.numbers.len() {
        meet_targets(tables, &mut met, from.numbers[place])?;
    }
    Ok(met)
}
