//! Candidates for the states that step into a set.

ghost use Rattle.std.specs.Prelude.{◌≡◌, ◌<◌, ◌≤◌, ℕ, true, IfOk, OnOk, Contains, length};
ghost use Rattle.lx_minimize.specs.Completion.{total, IsComplete, max_complete_states};
ghost use Rattle.lx_minimize.specs.Partitions.{flag};
ghost use Rattle.lx_minimize.specs.Sources.{AddsBelow, AreAllListed, AreSourcesOf, AreStatesBelow, ContainPreimage};

use crate::Complete;
use crate::predecessors::Predecessors;
use std::alloc::{AllocError, Global};

/// Returns all states.
pub(crate) fn all_states(alloc: Global, count: usize) -> Result<Vec<u16>, AllocError>
    requires { count ≤ max_complete_states }
    ensures { IfOk result (λ states. AreStatesBelow count states.items) }
{
    let mut states = Vec::with_capacity(alloc, count)?;
    for state in 0..count {
        states.push(state as u16)?;
    }
    Ok(states)
}

// Adds the states that are below the count.
fn add_below(states: &[u16], count: usize, all: &mut Vec<u16>) -> Result<(), AllocError>
    ensures { OnOk result (AddsBelow states.now count all.old.items all.new.items) }
{
    for i in 0..states.len() {
        if (states[i] as usize) < count {
            all.push(states[i])?;
        }
    }
    Ok(())
}

// Returns the states that step to one of the members on a class.
fn sources_of_all(
    alloc: Global,
    m: &Complete,
    predecessors: &Predecessors,
    members: &[u16],
    class: usize,
) -> Result<Vec<u16>, AllocError>
    requires complete { IsComplete m.now }
    requires listed { AreAllListed m.now predecessors.now }
    requires class { class < m.now.width }
    ensures { IfOk result (λ states. AreSourcesOf m.now members.now class states.items) }
{
    let mut states = Vec::new(alloc);
    for i in 0..members.len() {
        let sources = predecessors.sources(members[i], class as u16);
        add_below(sources, m.labels.len(), &mut states)?;
    }
    Ok(states)
}

/// Returns candidates for the states that step into a set on a class. If each state is listed at its targets, returns exactly these states, otherwise
/// all.
pub(crate) fn sources_into(
    alloc: Global,
    m: &Complete,
    predecessors: &Predecessors,
    listed: bool,
    inside: &[bool],
    members: &[u16],
    class: usize,
) -> Result<Vec<u16>, AllocError>
    requires complete { IsComplete m.now }
    requires listed { listed ≡ true → AreAllListed m.now predecessors.now }
    requires members { (s : ℕ) → s < total m.now → flag inside.now s ≡ true
        → Contains members.now s }
    requires class { class < m.now.width }
    ensures { IfOk result (λ states. ContainPreimage m.now inside.now class states.items) }
{
    if listed {
        return sources_of_all(alloc, m, predecessors, members, class);
    }
    all_states(alloc, m.labels.len())
}
