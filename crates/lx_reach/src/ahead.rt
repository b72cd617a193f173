//! Finds rules for which lookahead over a run of one byte fails.

ghost use Rattle.std.specs.Prelude.{◌≡◌, ◌<◌, ◌≤◌, ◌⊎◌, IfNone, IfSome, None, OnOk, Some, length};
ghost use Rattle.lx_automaton.specs.Automata.{state_count};

use crate::met::{meet, none_met};
use crate::reached::meet_targets;
use lx_tables::{State, Tables};
use std::alloc::{AllocError, Global};

/// A rule for which a run of this byte, of any length, is read to its end without a match on the way.
#[derive(Clone, Copy)]
pub struct FarAhead {
    pub rule: u16,
    pub byte: u8,
}

// Returns the state after `count` bytes, if they lead to one.
fn state_after_run(tables: &Tables, state: State, byte: u8, count: u32) -> Option<State>
    requires { state.0 < state_count tables.now.machine }
    ensures { IfSome result (λ s. s.0 < state_count tables.now.machine) }
{
    let mut state = state;
    for _count in 0..count {
        state = tables.step(state, byte)?;
    }
    Some(state)
}

// Returns true if none of `count` successive states on a byte, from `state` on, accepts, and each has a step.
fn never_accepts(tables: &Tables, state: State, byte: u8, count: u32) -> bool
    requires { state.0 < state_count tables.now.machine }
{
    let mut state = state;
    for _count in 0..count {
        if tables.accepts(state).is_some() {
            return false;
        }
        let Some(next) = tables.step(state, byte) else {
            return false;
        };
        state = next;
    }
    true
}

// Returns a state of the cycle in which the runs of a byte end, if none of the cycle's states accepts. A run as long as the number of states reaches
// the cycle.
fn failing_cycle(tables: &Tables, start: State, byte: u8) -> Option<State>
    requires { start.0 < state_count tables.now.machine }
    ensures { IfSome result (λ s. s.0 < state_count tables.now.machine) }
{
    let state = state_after_run(tables, start, byte, tables.states())?;
    if never_accepts(tables, state, byte, tables.states()) {
        Some(state)
    } else {
        None
    }
}

// Returns the smaller one of two rules.
fn earlier(rule: Option<u16>, other: Option<u16>) -> Option<u16>
    ensures among { IfSome result (λ n. (rule ≡ Some n) ⊎ (other ≡ Some n)) }
    ensures first { IfSome result (λ n. IfSome rule (λ r. n ≤ r)) }
    ensures second { IfSome result (λ n. IfSome other (λ r. n ≤ r)) }
    ensures none { IfNone result ((rule ≡ None) × (other ≡ None)) }
{
    match (rule, other) {
        (Some(rule), Some(other)) => Some(rule.min(other)),
        (Some(rule), None) => Some(rule),
        (None, other) => other,
    }
}

// Returns the first of the rules to whose matches a state can lead.
fn first_rule(alloc: Global, tables: &Tables, state: State) -> Result<Option<u16>, AllocError>
    requires { state.0 < state_count tables.now.machine }
{
    let mut met = none_met(alloc, tables.states() as usize)?;
    meet(&mut met, state.0)?;
    let mut rule = None;
    let mut place = 0;
    while place < met.numbers.len() {
        let next = met.numbers[place];
        rule = earlier(rule, tables.accepts(State(next)));
        meet_targets(tables, &mut met, next)?;
        place += 1;
    }
    Ok(rule)
}

fn is_found(found: &[FarAhead], rule: u16) -> bool {
    for far in found {
        if far.rule == rule {
            return true;
        }
    }
    false
}

// Examines the runs of a byte from a state.
fn look_at_run(
    alloc: Global,
    tables: &Tables,
    start: State,
    byte: u8,
    seen: &mut Vec<bool>,
    found: &mut Vec<FarAhead>,
) -> Result<(), AllocError>
    requires start { start.0 < state_count tables.now.machine }
    requires seen { length seen.old.items ≡ state_count tables.now.machine }
    ensures seen { OnOk result (length seen.new.items ≡ state_count tables.now.machine) }
{
    let Some(state) = failing_cycle(tables, start, byte) else {
        return Ok(());
    };
    if seen[state.0 as usize] {
        return Ok(());
    }
    seen[state.0 as usize] = true;
    if let Some(rule) = first_rule(alloc, tables, state)? {
        if !is_found(found, rule) {
            found.push(FarAhead { rule, byte })?;
        }
    }
    Ok(())
}

fn look_at_start(
    alloc: Global,
    tables: &Tables,
    start: State,
    seen: &mut Vec<bool>,
    found: &mut Vec<FarAhead>,
) -> Result<(), AllocError>
    requires start { start.0 < state_count tables.now.machine }
    requires seen { length seen.old.items ≡ state_count tables.now.machine }
    ensures seen { OnOk result (length seen.new.items ≡ state_count tables.now.machine) }
{
    for byte in 0..=255 {
        look_at_run(alloc, tables, start, byte, seen, found)?;
    }
    Ok(())
}

/// Finds the rules for which lookahead over some run of one byte fails. The run is at the start of a match in one of these conditions. It is read to
/// its end, and no match ends within it. A text of such bytes may be read to its end again after each of them. Returns each of the rules once. Err:
/// an allocation failed.
pub fn far_ahead(
    alloc: Global,
    tables: &Tables,
    entered: &[bool],
) -> Result<Vec<FarAhead>, AllocError> {
    let mut seen = vec![in alloc; false; tables.states() as usize]?;
    let mut found = Vec::new(alloc);
    let conditions = tables.conditions();
    for condition in 0..conditions {
        if usize::from(condition) < entered.len() && entered[usize::from(condition)] {
            look_at_start(
                alloc,
                tables,
                tables.start(condition, false),
                &mut seen,
                &mut found,
            )?;
            look_at_start(
                alloc,
                tables,
                tables.start(condition, true),
                &mut seen,
                &mut found,
            )?;
        }
    }
    Ok(found)
}
