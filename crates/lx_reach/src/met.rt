//! Numbers, of states or conditions, that are met one after the other, each once.

ghost use Rattle.std.specs.Prelude.{◌≡◌, ◌≢◌, ◌<◌, ◌≤◌, ◌⊎◌, ℕ, IfOk, OnOk, length, slice_index};
ghost use Rattle.lx_automaton.specs.Automata.{max_states};
ghost use Rattle.lx_reach.specs.Reached.{AreMet};

use std::alloc::{AllocError, Global};

/// Numbers, each once, in the order in which they were met.
#[derive(Drop)]
pub struct Met {
    pub numbers: Vec<u32>,
    /// For each number, 0 or one more than its place among those.
    pub places: Vec<u16>,
}

/// Returns the state in which no number below a count is met. Err: an allocation failed.
pub fn none_met(alloc: Global, count: usize) -> Result<Met, AllocError>
    ensures met { IfOk result (λ met. AreMet met.numbers.items met.places.items) }
    ensures long { IfOk result (λ met. length met.places.items ≡ count) }
    ensures none { IfOk result (λ met. (s : ℕ) → slice_index met.places.items s ≡ 0) }
{
    let places = vec![in alloc; 0u16; count]?;
    Ok(Met {
        numbers: Vec::new(alloc),
        places,
    })
}

/// Adds a number, unless it is there. Err: an allocation failed, and it isn't added.
pub fn meet(met: &mut Met, number: u32) -> Result<(), AllocError>
    requires met { AreMet met.old.numbers.items met.old.places.items }
    requires number { number < length met.old.places.items }
    requires few { length met.old.places.items ≤ max_states }
    ensures met { OnOk result (AreMet met.new.numbers.items met.new.places.items) }
    ensures long { OnOk result (length met.new.places.items ≡ length met.old.places.items) }
    ensures there { OnOk result (slice_index met.new.places.items number ≢ 0) }
    ensures kept { OnOk result ((s : ℕ) → slice_index met.old.places.items s ≢ 0
        → slice_index met.new.places.items s ≢ 0) }
    ensures only { OnOk result ((s : ℕ) → slice_index met.new.places.items s ≢ 0
        → slice_index met.old.places.items s ≢ 0 ⊎ s ≡ number) }
    ensures more { OnOk result (length met.old.numbers.items ≤ length met.new.numbers.items) }
    ensures front { OnOk result ((i : ℕ) → i < length met.old.numbers.items
        → slice_index met.new.numbers.items i ≡ slice_index met.old.numbers.items i) }
{
    if met.places[number as usize] != 0 {
        return Ok(());
    }
    met.numbers.push(number)?;
    let place = met.numbers.len() as u16;
    met.places[number as usize] = place;
    Ok(())
}
