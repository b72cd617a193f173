//! Drafts an automaton: a state for each start and for each position set.

ghost use Rattle.std.specs.Prelude.{◌≡◌, ◌+◌, ◌*◌, ◌<◌, ◌≤◌, ◌++◌, IfOk, IfSome, None, length, map, replicate};
ghost use Rattle.std.specs.Option.{option_map};
ghost use Rattle.lx_rules.specs.Limits.{max_start_conditions, max_rules, max_reached_sets};
ghost use Rattle.lx_automaton.specs.Automata.{Machine, IsMachine};
ghost use Rattle.lx_auto.specs.Drafting.{AreAllBelow, AreStartStates, IsDrafted};
ghost use Rattle.lx_automaton.specs.EncodedOptions.{decoded_option};

use crate::explored::Explored;
use crate::sets::groups::ByteGroups;
use lx_automaton::AutomatonDraft;
use std::alloc::{AllocError, Global};

// Returns the states of the starts, two for each condition.
fn start_states(alloc: Global, conditions: usize) -> Result<Vec<(u32, u32)>, AllocError>
    requires { conditions ≤ max_start_conditions }
    ensures { IfOk result (λ starts. AreStartStates starts.items conditions) }
{
    let mut starts = Vec::new(alloc);
    for condition in 0..conditions {
        let state = 2 * condition as u32;
        starts.push((state, state + 1))?;
    }
    Ok(starts)
}

// Encodes a rule: 0 for none, otherwise one more than its number.
fn encoded_rule(rule: Option<usize>) -> u16
    requires { IfSome rule (λ r. r < max_rules) }
    ensures { decoded_option result ≡ rule }
{
    match rule {
        Some(rule) => rule as u16 + 1,
        None => 0,
    }
}

// Encodes the state of a set in the same way. The states of the starts come before it.
fn encoded_state(starts: usize, set: Option<usize>) -> u16
    requires starts { starts ≤ 2 * max_start_conditions }
    requires set { IfSome set (λ j. j < max_reached_sets) }
    ensures { decoded_option result ≡ option_map (λ j. starts + j) set }
{
    match set {
        Some(set) => (starts + set) as u16 + 1,
        None => 0,
    }
}

// Encodes what the states accept: nothing at the starts, and the rules that the sets match.
fn encoded_accepted(
    alloc: Global,
    starts: usize,
    matched: &[Option<usize>],
) -> Result<Vec<u16>, AllocError>
    requires { AreAllBelow matched.now max_rules }
    ensures { IfOk result
        (λ encoded. map decoded_option encoded.items ≡ replicate starts None ++ matched.now) }
{
    let mut encoded = vec![in alloc; 0u16; starts]?;
    for rule in matched {
        encoded.push(encoded_rule(*rule))?;
    }
    Ok(encoded)
}

// Encodes the targets of all states.
fn encoded_targets(
    alloc: Global,
    starts: usize,
    targets: &[Option<usize>],
) -> Result<Vec<u16>, AllocError>
    requires starts { starts ≤ 2 * max_start_conditions }
    requires sets { AreAllBelow targets.now max_reached_sets }
    ensures { IfOk result (λ encoded.
        map decoded_option encoded.items ≡ map (option_map (λ j. starts + j)) targets.now) }
{
    let mut encoded = Vec::with_capacity(alloc, targets.len())?;
    for set in targets {
        encoded.push(encoded_state(starts, *set))?;
    }
    Ok(encoded)
}

/// Drafts the automaton over the explored sets.
pub(crate) fn draft_of(
    alloc: Global,
    conditions: usize,
    groups: &ByteGroups,
    explored: &Explored,
) -> Result<AutomatonDraft, AllocError>
    requires conditions { conditions ≤ max_start_conditions }
    requires rules { AreAllBelow explored.now.matched.items max_rules }
    requires sets { AreAllBelow explored.now.targets.items max_reached_sets }
    requires machine { (m : Machine)
        → IsDrafted conditions groups.now.classes.items (length groups.now.representatives.items)
        explored.now.matched.items explored.now.targets.items m → IsMachine m }
    ensures { IfOk result (λ draft.
        IsDrafted conditions groups.now.classes.items (length groups.now.representatives.items)
        explored.now.matched.items explored.now.targets.items draft) }
{
    let starts = start_states(alloc, conditions)?;
    let classes = Vec::from_slice(alloc, &groups.classes)?;
    let accepted = encoded_accepted(alloc, 2 * conditions, &explored.matched)?;
    let targets = encoded_targets(alloc, 2 * conditions, &explored.targets)?;
    let width = groups.representatives.len();
    Ok(AutomatonDraft::of(starts, classes, width, accepted, targets))
}
