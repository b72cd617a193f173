//! Finds the rules that are chosen for some text.

ghost use Rattle.std.specs.Prelude.{◌≡◌, ◌<◌, ◌≤◌, ◌⊎◌, ℕ, true, false, IfOk, length, slice_index, slice_index_or};
ghost use Rattle.lx_automaton.specs.Automata.{state_count};
ghost use Rattle.lx_reach.specs.Chosen.{AreFlagsOf, AreNeverChosen, IsChosenIn, IsEverChosen};
ghost use Rattle.lx_reach.specs.Taken.{AreCounted, IsCounted, IsTaken};

use crate::reached::{reached_states, targets_of};
use lx_tables::well_formed::tables_are_well_formed;
use lx_tables::{State, Tables};
use std::alloc::{AllocError, Global};

// Marks the rule that a state accepts. Marks one that ends with `$` only if `with_line_ends`.
fn mark_state(tables: &Tables, state: u32, with_line_ends: bool, flags: &mut Vec<bool>)
    requires state { state < state_count tables.now.machine }
    requires long { length flags.old.items ≡ length tables.now.rules }
    ensures long { length flags.new.items ≡ length tables.now.rules }
    ensures kept { (r : ℕ) → slice_index_or flags.old.items r false ≡ true
        → slice_index_or flags.new.items r false ≡ true }
    ensures there { (r : ℕ) → IsCounted tables.now with_line_ends state r
        → slice_index_or flags.new.items r false ≡ true }
    ensures only { (r : ℕ) → slice_index_or flags.new.items r false ≡ true
        → (slice_index_or flags.old.items r false ≡ true)
        ⊎ IsCounted tables.now with_line_ends state r }
{
    let Some(rule) = tables.accepts(State(state)) else {
        return;
    };
    if with_line_ends || !tables.cut(rule) {
        flags[rule as usize] = true;
    }
}

// Marks the rules that these states accept.
fn mark(tables: &Tables, states: &[u32], with_line_ends: bool, flags: &mut Vec<bool>)
    requires states { (i : ℕ) → i < length states.now
        → slice_index states.now i < state_count tables.now.machine }
    requires long { length flags.old.items ≡ length tables.now.rules }
    ensures long { length flags.new.items ≡ length tables.now.rules }
    ensures are { AreCounted tables.now with_line_ends states.now (length states.now)
        flags.old.items flags.new.items }
{
    for place in 0..states.len() {
        mark_state(tables, states[place], with_line_ends, flags);
    }
}

// Tests for each rule if it is the choice for some text of bytes in a condition from `first` up to `end`. A match of no bytes is never a choice. The
// newline of a `$` isn't a part of the token, so no text of one byte has a rule with `$` as its choice.
fn takable_rules(
    alloc: Global,
    tables: &Tables,
    first: u16,
    end: u16,
) -> Result<Vec<bool>, AllocError>
    requires end { end ≤ length tables.now.machine.starts }
    ensures { IfOk result
        (λ flags. AreFlagsOf (length tables.now.rules) (IsTaken tables.now first end) flags.items) }
{
    let any = reached_states(alloc, tables, first, end)?;
    let one = targets_of(alloc, tables, &any)?;
    let two = targets_of(alloc, tables, &one)?;
    let mut flags = vec![in alloc; false; tables.rules() as usize]?;
    mark(tables, &one.numbers, false, &mut flags);
    mark(tables, &two.numbers, true, &mut flags);
    Ok(flags)
}

/// Tests for each rule if it is the choice for some text of bytes, in some condition (XCU `lex`, "Rules in lex"). The text may be at the start of a
/// line or elsewhere. Also counts conditions that are never entered. Err: an allocation failed.
pub fn chosen_rules(alloc: Global, tables: &Tables) -> Result<Vec<bool>, AllocError>
    ensures { IfOk result
        (λ flags. AreFlagsOf (length tables.now.rules) (IsEverChosen tables.now) flags.items) }
{
    takable_rules(alloc, tables, 0, tables.conditions())
}

/// Tests for each rule if it is the choice for some text of bytes in this condition.
pub fn chosen_in(alloc: Global, tables: &Tables, condition: u16) -> Result<Vec<bool>, AllocError>
    requires { condition < length tables.now.machine.starts }
    ensures { IfOk result (λ flags.
        AreFlagsOf (length tables.now.rules) (IsChosenIn tables.now condition) flags.items) }
{
    // a law: there are few conditions
    tables_are_well_formed(tables);
    takable_rules(alloc, tables, condition, condition + 1)
}

fn is_unset(flags: &[bool], number: u16) -> bool
    requires { number < length flags.now }
    ensures unset { result ≡ true → slice_index_or flags.now number false ≡ false }
    ensures set { result ≡ false → slice_index_or flags.now number false ≡ true }
{
    !flags[number as usize]
}

/// Returns the rules that aren't the choice for any text of bytes, in any condition, in ascending order. Err: an allocation failed.
pub fn never_chosen(alloc: Global, tables: &Tables) -> Result<Vec<u16>, AllocError>
    ensures { IfOk result
        (λ rules. AreNeverChosen tables.now (length tables.now.rules) rules.items) }
{
    let chosen = chosen_rules(alloc, tables)?;
    let mut rules = Vec::new(alloc);
    for number in 0..tables.rules() {
        if is_unset(&chosen, number) {
            rules.push(number)?;
        }
    }
    Ok(rules)
}
