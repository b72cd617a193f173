//! Finds the states of blocks, 32 at a time.

ghost use Rattle.std.specs.Prelude.{◌≡◌, ◌≢◌, ◌<◌, ◌≤◌, ◌+◌, ℕ, true, false, IfOk, IfSome, IfNone, Contains, length, slice_index};
ghost use Rattle.lx_minimize.specs.Partitions.{AreFlags, flag};
ghost use Rattle.lx_minimize.specs.Completion.{max_complete_states};

use std::alloc::{AllocError, Global};
use std::simd::prelude::*;

// Number of states that are tested at once.
const LANES: usize = 32;

// Returns the number of states before the first one of the block, among the next 32.
#[inline(always)]
fn lanes_before(blocks: &[u16], from: usize, number: u16) -> usize
    requires { from + 32 ≤ length blocks.now }
    ensures few { result ≤ 32 }
    ensures before { (s : ℕ) → from ≤ s → s < from + result → slice_index blocks.now s ≢ number }
    ensures found { result < 32 → slice_index blocks.now (from + result) ≡ number }
{
    let lanes = u16x32::from_slice(&blocks[from..]);
    let mask = lanes.simd_eq(u16x32::splat(number)).to_bitmask();
    LANES.min(mask.trailing_zeros() as usize)
}

/// Returns the first state of a block from `from` up to `end`.
pub(crate) fn next_of_block(blocks: &[u16], from: usize, end: usize, number: u16) -> Option<usize>
    requires order { from ≤ end }
    requires end { end ≤ length blocks.now }
    ensures state { IfSome result (λ s. s < end) }
    ensures behind { IfSome result (λ s. from ≤ s) }
    ensures within { IfSome result (λ s. slice_index blocks.now s ≡ number) }
    ensures first { IfSome result
        (λ s. (t : ℕ) → from ≤ t → t < s → slice_index blocks.now t ≢ number) }
    ensures none { IfNone result
        ((t : ℕ) → from ≤ t → t < end → slice_index blocks.now t ≢ number) }
{
    let mut done = from;
    while LANES <= end - done {
        let before = lanes_before(blocks, done, number);
        if before < LANES {
            return Some(done + before);
        }
        done += LANES;
    }
    for state in done..end {
        if blocks[state] == number {
            return Some(state);
        }
    }
    None
}

/// The states of a block, as flags of all states and as a list.
#[derive(Drop)]
pub(crate) struct Members {
    pub(crate) inside: Vec<bool>,
    pub(crate) states: Vec<u16>,
}

/// Returns the states of a block, given a lower and an upper bound of them.
pub(crate) fn members_between(
    alloc: Global,
    blocks: &[u16],
    number: u16,
    low: u16,
    high: u16,
) -> Result<Members, AllocError>
    requires small { length blocks.now ≤ max_complete_states }
    requires low { (s : ℕ) → s < length blocks.now → slice_index blocks.now s ≡ number → low ≤ s }
    requires high { (s : ℕ) → s < length blocks.now → slice_index blocks.now s ≡ number → s ≤ high }
    ensures flags { IfOk result
        (λ members. AreFlags blocks.now number (length blocks.now) members.inside.items) }
    ensures listed { IfOk result (λ members.
        (s : ℕ) → s < length blocks.now → flag members.inside.items s ≡ true
        → Contains members.states.items s) }
{
    let mut inside = vec![in alloc; false; blocks.len()]?;
    let mut states = Vec::new(alloc);
    let end = blocks.len().min(high as usize + 1);
    let mut from = end.min(low as usize);
    while let Some(state) = next_of_block(blocks, from, end, number) {
        inside[state] = true;
        states.push(state as u16)?;
        from = state + 1;
    }
    Ok(Members { inside, states })
}

/// Returns the states of a block.
pub(crate) fn members_of(alloc: Global, blocks: &[u16], number: u16) -> Result<Members, AllocError>
    requires { length blocks.now ≤ max_complete_states }
    ensures flags { IfOk result
        (λ members. AreFlags blocks.now number (length blocks.now) members.inside.items) }
    ensures listed { IfOk result (λ members.
        (s : ℕ) → s < length blocks.now → flag members.inside.items s ≡ true
        → Contains members.states.items s) }
{
    members_between(alloc, blocks, number, 0, u16::MAX)
}
