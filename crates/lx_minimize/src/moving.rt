//! Finds states that move out of their block, and classes on which states of a block have different steps.

ghost use Rattle.std.specs.Prelude.{◌≡◌, ◌≢◌, ◌<◌, ◌↔◌, ℕ, Bool, IsTrue, IfOk, IfSome, IfNone, length, slice_index, Contains};
ghost use Rattle.lx_minimize.specs.Completion.{total, step_of, IsComplete};
ghost use Rattle.lx_minimize.specs.Partitions.{block, member_of, flag, IsSound, IsStable, IsMoved, IsRemaining, AreMovedStates, AreRenumbered, StepsLikeRepresentative};
ghost use Rattle.lx_minimize.specs.Sources.{AreMovedStatesAmong, ContainPreimage};

use crate::members::next_of_block;
use crate::{Complete, Partition, step};
use std::alloc::{AllocError, Global};

/// Returns true if the state steps into the set.
#[inline]
pub(crate) fn steps_into(m: &Complete, inside: &[bool], state: usize, class: usize) -> bool
    requires complete { IsComplete m.now }
    requires inside { length inside.now ≡ total m.now }
    requires state { state < total m.now }
    requires class { class < m.now.width }
    ensures { result ≡ flag inside.now (step_of m.now state class) }
{
    inside[step(m, state, class)]
}

/// Returns true if a state is in the block and steps into the set. If `wanted` is false, it has to step out of it.
#[inline]
fn is_moved(
    m: &Complete,
    blocks: &[u16],
    inside: &[bool],
    from: u16,
    class: usize,
    wanted: bool,
    state: usize,
) -> bool
    requires complete { IsComplete m.now }
    requires inside { length inside.now ≡ total m.now }
    requires blocks { length blocks.now ≡ total m.now }
    requires class { class < m.now.width }
    requires state { state < total m.now }
    ensures { IsTrue result ↔ IsMoved m.now blocks.now inside.now from class wanted state }
{
    blocks[state] == from && steps_into(m, inside, state, class) == wanted
}

// Returns the states of a block that step into the set, or out of it if `wanted` is false. Tries all states of the block.
fn moved_states_of_all(
    alloc: Global,
    m: &Complete,
    blocks: &[u16],
    inside: &[bool],
    from: u16,
    class: usize,
    wanted: bool,
) -> Result<Vec<u16>, AllocError>
    requires complete { IsComplete m.now }
    requires inside { length inside.now ≡ total m.now }
    requires blocks { length blocks.now ≡ total m.now }
    requires class { class < m.now.width }
    ensures { IfOk result (λ moved_states.
        AreMovedStates m.now blocks.now inside.now from class wanted (total m.now)
        moved_states.items) }
{
    let mut moved_states = Vec::new(alloc);
    let mut behind = 0;
    while let Some(state) = next_of_block(blocks, behind, blocks.len(), from) {
        if is_moved(m, blocks, inside, from, class, wanted, state) {
            moved_states.push(state as u16)?;
        }
        behind = state + 1;
    }
    Ok(moved_states)
}

// Returns those of `states` that are in the block and step into the set, or out of it if `wanted` is false.
fn moved_states_among(
    alloc: Global,
    m: &Complete,
    blocks: &[u16],
    inside: &[bool],
    states: &[u16],
    from: u16,
    class: usize,
    wanted: bool,
) -> Result<Vec<u16>, AllocError>
    requires complete { IsComplete m.now }
    requires inside { length inside.now ≡ total m.now }
    requires blocks { length blocks.now ≡ total m.now }
    requires states { (s : ℕ) → Contains states.now s → s < total m.now }
    requires class { class < m.now.width }
    ensures { IfOk result (λ moved_states.
        AreMovedStatesAmong m.now blocks.now inside.now from class wanted states.now
        moved_states.items) }
{
    let mut moved_states = Vec::new(alloc);
    for i in 0..states.len() {
        if is_moved(m, blocks, inside, from, class, wanted, states[i] as usize) {
            moved_states.push(states[i])?;
        }
    }
    Ok(moved_states)
}

/// Returns the states of a block that step into the set, or out of it if `wanted` is false. All that step into it are among `sources`.
pub(crate) fn moved_states_of(
    alloc: Global,
    m: &Complete,
    blocks: &[u16],
    inside: &[bool],
    sources: &[u16],
    from: u16,
    class: usize,
    wanted: bool,
) -> Result<Vec<u16>, AllocError>
    requires complete { IsComplete m.now }
    requires inside { length inside.now ≡ total m.now }
    requires blocks { length blocks.now ≡ total m.now }
    requires sources { ContainPreimage m.now inside.now class sources.now }
    requires class { class < m.now.width }
    ensures { IfOk result (λ moved_states.
        AreMovedStates m.now blocks.now inside.now from class wanted (total m.now)
        moved_states.items) }
{
    if wanted {
        return moved_states_among(alloc, m, blocks, inside, sources, from, class, true);
    }
    moved_states_of_all(alloc, m, blocks, inside, from, class, false)
}

/// Returns a state of the block that isn't moved, which is the representative unless that is moved.
pub(crate) fn remaining_state_of(
    m: &Complete,
    blocks: &[u16],
    inside: &[bool],
    representative: u16,
    from: u16,
    class: usize,
    wanted: bool,
) -> Option<u16>
    requires complete { IsComplete m.now }
    requires inside { length inside.now ≡ total m.now }
    requires blocks { length blocks.now ≡ total m.now }
    requires representative { representative < total m.now }
    requires class { class < m.now.width }
    ensures state { IfSome result (λ s. s < total m.now) }
    ensures remaining_state { IfSome result
        (λ s. IsRemaining m.now blocks.now inside.now from class wanted s) }
    ensures none { IfNone result ((s : ℕ) → s < total m.now
        → IsRemaining m.now blocks.now inside.now from class wanted s → ⊥) }
{
    let state = representative as usize;
    if blocks[state] == from && steps_into(m, inside, state, class) != wanted {
        return Some(representative);
    }
    first_remaining_state(m, blocks, inside, from, class, wanted)
}

// Returns the first state of the block that isn't moved.
fn first_remaining_state(
    m: &Complete,
    blocks: &[u16],
    inside: &[bool],
    from: u16,
    class: usize,
    wanted: bool,
) -> Option<u16>
    requires complete { IsComplete m.now }
    requires inside { length inside.now ≡ total m.now }
    requires blocks { length blocks.now ≡ total m.now }
    requires class { class < m.now.width }
    ensures state { IfSome result (λ s. s < total m.now) }
    ensures remaining_state { IfSome result
        (λ s. IsRemaining m.now blocks.now inside.now from class wanted s) }
    ensures none { IfNone result ((s : ℕ) → s < total m.now
        → IsRemaining m.now blocks.now inside.now from class wanted s → ⊥) }
{
    let mut behind = 0;
    while let Some(state) = next_of_block(blocks, behind, blocks.len(), from) {
        if steps_into(m, inside, state, class) != wanted {
            return Some(state as u16);
        }
        behind = state + 1;
    }
    None
}

/// Gives the states of the list a number.
pub(crate) fn renumber(blocks: &mut [u16], moved_states: &[u16], fresh: u16)
    requires { (j : ℕ) → j < length moved_states.now
        → slice_index moved_states.now j < length blocks.old }
    ensures { AreRenumbered blocks.old blocks.new moved_states.now fresh (length moved_states.now) }
{
    for i in 0..moved_states.len() {
        blocks[moved_states[i] as usize] = fresh;
    }
}

/// Returns a class on which the state steps to another block than the representative of its block.
fn unstable_class(m: &Complete, p: &Partition, s: usize) -> Option<usize>
    requires complete { IsComplete m.now }
    requires sound { IsSound m.now p.now }
    requires state { s < total m.now }
    ensures some { IfSome result (λ c.
        (c < m.now.width) × (block p.now (step_of m.now s c)
        ≢ block p.now (step_of m.now (member_of p.now (block p.now s)) c))) }
    ensures none { IfNone result (StepsLikeRepresentative m.now p.now s m.now.width) }
{
    let other = p.representatives[p.block_of[s] as usize] as usize;
    for class in 0..m.width {
        if p.block_of[step(m, s, class)] != p.block_of[step(m, other, class)] {
            return Some(class);
        }
    }
    None
}

/// Returns a state and a class on which it steps to another block than the representative of its block.
pub(crate) fn first_unstable(m: &Complete, p: &Partition) -> Option<(usize, usize)>
    requires complete { IsComplete m.now }
    requires sound { IsSound m.now p.now }
    ensures state { IfSome result (λ found. found.0 < total m.now) }
    ensures class { IfSome result (λ found. found.1 < m.now.width) }
    ensures unstable { IfSome result (λ found.
        block p.now (step_of m.now found.0 found.1)
        ≢ block p.now (step_of m.now (member_of p.now (block p.now found.0)) found.1)) }
    ensures stable { IfNone result (IsStable m.now p.now) }
{
    for s in 0..m.labels.len() {
        if let Some(class) = unstable_class(m, p, s) {
            return Some((s, class));
        }
    }
    None
}
