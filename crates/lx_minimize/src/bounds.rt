//! Bounds of the states of blocks.

ghost use Rattle.std.specs.Prelude.{◌≡◌, ◌<◌, ◌≤◌, ◌++◌, ◌∷◌, [], ℕ, IfOk, OnOk, length, max, min, slice_index, slice_set};
ghost use Rattle.lx_minimize.specs.Completion.{IsComplete};
ghost use Rattle.lx_minimize.specs.Partitions.{IsSound};
ghost use Rattle.lx_minimize.specs.BlockBounds.{AreBounds};

use crate::{Complete, Partition};
use std::alloc::{AllocError, Global};

/// For each block, a lower and an upper bound of its states.
#[derive(Drop)]
pub(crate) struct Bounds {
    pub(crate) lows: Vec<u16>,
    pub(crate) highs: Vec<u16>,
}

/// A range of states, from a low one to a high one.
#[derive(Clone, Copy)]
pub(crate) struct StateRange {
    pub(crate) low: u16,
    pub(crate) high: u16,
}

// Adds a state of a block to its bounds.
fn add_state(bounds: &mut Bounds, block: u16, state: u16)
    requires low { block < length bounds.old.lows.items }
    requires high { block < length bounds.old.highs.items }
    ensures lows { bounds.new.lows.items ≡ slice_set bounds.old.lows.items block
        (min (slice_index bounds.old.lows.items block) state) }
    ensures highs { bounds.new.highs.items ≡ slice_set bounds.old.highs.items block
        (max (slice_index bounds.old.highs.items block) state) }
{
    let at = block as usize;
    bounds.lows[at] = bounds.lows[at].min(state);
    bounds.highs[at] = bounds.highs[at].max(state);
}

/// Returns the bounds of all blocks.
pub(crate) fn bounds_of(alloc: Global, m: &Complete, p: &Partition) -> Result<Bounds, AllocError>
    requires complete { IsComplete m.now }
    requires sound { IsSound m.now p.now }
    ensures { IfOk result (λ bounds. AreBounds p.now bounds) }
{
    let count = p.representatives.len();
    let mut bounds = Bounds {
        lows: vec![in alloc; u16::MAX; count]?,
        highs: vec![in alloc; 0; count]?,
    };
    for state in 0..p.block_of.len() {
        add_state(&mut bounds, p.block_of[state], state as u16);
    }
    Ok(bounds)
}

/// Returns the range of these states.
pub(crate) fn range_of(states: &[u16]) -> StateRange
    ensures low { (j : ℕ) → j < length states.now → result.low ≤ slice_index states.now j }
    ensures high { (j : ℕ) → j < length states.now → slice_index states.now j ≤ result.high }
{
    let mut low = u16::MAX;
    let mut high = 0;
    for i in 0..states.len() {
        low = low.min(states[i]);
        high = high.max(states[i]);
    }
    StateRange { low, high }
}

/// Adds the bounds of a new block.
pub(crate) fn add_bounds(bounds: &mut Bounds, range: StateRange) -> Result<(), AllocError>
    ensures lows { OnOk result (bounds.new.lows.items ≡ bounds.old.lows.items ++ range.low ∷ []) }
    ensures highs { OnOk result
        (bounds.new.highs.items ≡ bounds.old.highs.items ++ range.high ∷ []) }
{
    bounds.lows.push(range.low)?;
    bounds.highs.push(range.high)?;
    Ok(())
}
