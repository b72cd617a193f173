//! Finds the start conditions that are entered.

ghost use Rattle.std.specs.Prelude.{◌≡◌, ◌≢◌, ◌<◌, ◌≤◌, ◌⊎◌, ℕ, true, false, IfOk, OnOk, length, slice_index, slice_index_or};
ghost use Rattle.lx_scan.specs.Steps.{condition_after};
ghost use Rattle.lx_tables.specs.Model.{rule_at};
ghost use Rattle.lx_reach.specs.Chosen.{AreFlagsOf};
ghost use Rattle.lx_reach.specs.Entered.{IsBehind, IsEntered};
ghost use Rattle.lx_reach.specs.Reached.{AreMet};

use crate::chosen_in;
use crate::met::{Met, meet, none_met};
use lx_scan::scanner::condition_behind;
use lx_tables::Tables;
use std::alloc::{AllocError, Global};

// Meets the conditions after the actions of the marked rules.
fn meet_next(
    tables: &Tables,
    condition: u16,
    flags: &[bool],
    met: &mut Met,
) -> Result<(), AllocError>
    requires condition { condition < length tables.now.machine.starts }
    requires flags { length flags.now ≡ length tables.now.rules }
    requires met { AreMet met.old.numbers.items met.old.places.items }
    requires long { length met.old.places.items ≡ length tables.now.machine.starts }
    ensures met { OnOk result (AreMet met.new.numbers.items met.new.places.items) }
    ensures long { OnOk result (length met.new.places.items ≡ length tables.now.machine.starts) }
    ensures there { OnOk result ((c : ℕ) → IsBehind tables.now condition flags.now c
        → slice_index met.new.places.items c ≢ 0) }
    ensures kept { OnOk result ((c : ℕ) → slice_index met.old.places.items c ≢ 0
        → slice_index met.new.places.items c ≢ 0) }
    ensures only { OnOk result ((c : ℕ) → slice_index met.new.places.items c ≢ 0
        → slice_index met.old.places.items c ≢ 0 ⊎ IsBehind tables.now condition flags.now c) }
    ensures more { OnOk result (length met.old.numbers.items ≤ length met.new.numbers.items) }
    ensures front { OnOk result ((i : ℕ) → i < length met.old.numbers.items
        → slice_index met.new.numbers.items i ≡ slice_index met.old.numbers.items i) }
{
    for rule in 0..tables.rules() {
        if flags[rule as usize] {
            meet(met, condition_behind(tables.steps(rule), condition) as u32)?;
        }
    }
    Ok(())
}

// Returns the conditions that are entered, in the order in which they were met.
fn conditions_met(alloc: Global, tables: &Tables) -> Result<Met, AllocError>
    ensures long { IfOk result (λ met. length met.places.items ≡ length tables.now.machine.starts) }
    ensures only { IfOk result
        (λ met. (c : ℕ) → slice_index met.places.items c ≢ 0 → IsEntered tables.now c) }
    ensures all { IfOk result
        (λ met. (c : ℕ) → IsEntered tables.now c → slice_index met.places.items c ≢ 0) }
{
    let mut met = none_met(alloc, tables.conditions() as usize)?;
    meet(&mut met, 0)?;
    let mut place = 0;
    while place < met.numbers.len() {
        let condition = met.numbers[place] as u16;
        let flags = chosen_in(alloc, tables, condition)?;
        meet_next(tables, condition, &flags, &mut met)?;
        place += 1;
    }
    Ok(met)
}

// Tests for each number if it isn't 0.
fn marks_of(alloc: Global, places: &[u16]) -> Result<Vec<bool>, AllocError>
    ensures long { IfOk result (λ flags. length flags.items ≡ length places.now) }
    ensures holds { IfOk result (λ flags.
        (n : ℕ) → slice_index_or flags.items n false ≡ true → slice_index places.now n ≢ 0) }
    ensures fails { IfOk result (λ flags.
        (n : ℕ) → slice_index_or flags.items n false ≡ false → slice_index places.now n ≡ 0) }
{
    let mut flags = Vec::new(alloc);
    for place in places {
        flags.push(*place != 0)?;
    }
    Ok(flags)
}

/// Tests for each start condition if it is entered: INITIAL is, and from each entered condition those after the actions of the rules that are chosen
/// in it (XCU `lex`, "Actions in lex": BEGIN). Err: an allocation failed.
pub fn entered_conditions(alloc: Global, tables: &Tables) -> Result<Vec<bool>, AllocError>
    ensures { IfOk result (λ flags.
        AreFlagsOf (length tables.now.machine.starts) (IsEntered tables.now) flags.items) }
{
    let met = conditions_met(alloc, tables)?;
    marks_of(alloc, &met.places)
}
