//! The worklist by which blocks are split (Hopcroft 1971): the blocks that are still to be used as splitters. Of the two parts of a split, the
//! smaller one gets the new number and is used. The proofs about the partition don't depend on the order.

ghost use Rattle.std.specs.Prelude.{◌≡◌, ◌<◌, ◌≤◌, ◌+◌, ◌-◌, ◌*◌, ◌++◌, ◌∷◌, [], ℕ, true, Contains, IfOk, OnOk, length, vec_len};
ghost use Rattle.lx_minimize.specs.Completion.{total, IsComplete, max_complete_states};
ghost use Rattle.lx_minimize.specs.Partitions.{block_count, AreFlags, IsSound, IsSplitter, flag};
ghost use Rattle.lx_minimize.specs.BlockBounds.{AreBounds};
ghost use Rattle.lx_minimize.specs.SplitMeasure.{splits_left};
ghost use Rattle.lx_minimize.specs.Sources.{AreAllListed, ContainPreimage};

use crate::bounds::{Bounds, StateRange, add_bounds, bounds_of};
use crate::candidates::sources_into;
use crate::members::{Members, members_between, members_of};
use crate::predecessors::Predecessors;
use crate::split::{side_of, split};
use crate::{Complete, Partition};
use std::alloc::{AllocError, Global};

/// The blocks that are still to be used as splitters, with the data for choosing splits.
#[derive(Drop)]
pub(crate) struct Worklist {
    /// Number of states of each block.
    pub(crate) sizes: Vec<u32>,
    /// Number of states of each block that step into the splitter.
    pub(crate) hits: Vec<u32>,
    /// Blocks that have such states.
    pub(crate) touched: Vec<u16>,
    /// Blocks that are still to be used as splitters.
    pub(crate) pending: Vec<u16>,
    /// Bounds of the states of each block.
    pub(crate) bounds: Bounds,
}

/// Counts a state for its block.
fn count_state(counts: &mut [u32], block: u16)
    ensures { length counts.new ≡ length counts.old }
{
    if let Some(count) = counts.get_mut(block as usize) {
        *count = count.wrapping_add(1);
    }
}

/// Returns the worklist for a partition, with all its blocks pending.
fn worklist_of(alloc: Global, m: &Complete, p: &Partition) -> Result<Worklist, AllocError>
    requires complete { IsComplete m.now }
    requires sound { IsSound m.now p.now }
    ensures { IfOk result (λ worklist. AreBounds p.now worklist.bounds) }
{
    let count = p.representatives.len();
    let mut sizes = vec![in alloc; 0; count]?;
    for i in 0..p.block_of.len() {
        count_state(&mut sizes, p.block_of[i]);
    }
    let hits = vec![in alloc; 0; count]?;
    let mut pending = Vec::with_capacity(alloc, count)?;
    for i in 0..p.block_of.len() {
        // each block once, at its representative
        if p.representatives.get(p.block_of[i] as usize).copied() == Some(i as u16) {
            pending.push(p.block_of[i])?;
        }
    }
    let bounds = bounds_of(alloc, m, p)?;
    Ok(Worklist {
        sizes,
        hits,
        touched: Vec::new(alloc),
        pending,
        bounds,
    })
}

/// Counts a state that steps into the splitter, for its block.
#[inline]
fn hit(worklist: &mut Worklist, block: u16) -> Result<(), AllocError>
    ensures pending { OnOk result (vec_len worklist.new.pending ≡ vec_len worklist.old.pending) }
    ensures bounds { worklist.new.bounds ≡ worklist.old.bounds }
{
    if let Some(hits) = worklist.hits.get_mut(block as usize) {
        let first = *hits == 0;
        *hits = hits.wrapping_add(1);
        if first {
            worklist.touched.push(block)?;
        }
    }
    Ok(())
}

/// Counts for each block its states among these, which step into the splitter.
fn count_hits(worklist: &mut Worklist, p: &Partition, sources: &[u16]) -> Result<(), AllocError>
    ensures pending { OnOk result (vec_len worklist.new.pending ≡ vec_len worklist.old.pending) }
    ensures bounds { worklist.new.bounds ≡ worklist.old.bounds }
{
    for i in 0..sources.len() {
        if let Some(block) = p.block_of.get(sources[i] as usize).copied() {
            hit(worklist, block)?;
        }
    }
    Ok(())
}

/// Returns the count of a block's hits, and resets it.
fn take_hits(worklist: &mut Worklist, block: usize) -> u32
    ensures pending { vec_len worklist.new.pending ≡ vec_len worklist.old.pending }
    ensures touched { vec_len worklist.new.touched ≡ vec_len worklist.old.touched }
    ensures bounds { worklist.new.bounds ≡ worklist.old.bounds }
{
    if let Some(hits) = worklist.hits.get_mut(block) {
        let count = *hits;
        *hits = 0;
        count
    } else {
        0
    }
}

/// Notes that a block was split, with the range of the new one's states, and that the new one is to be used.
fn add_block(
    worklist: &mut Worklist,
    from: usize,
    left: u32,
    fresh: u16,
    moved: u32,
    range: StateRange,
) -> Result<(), AllocError>
    ensures pending { OnOk result
        (vec_len worklist.new.pending ≡ vec_len worklist.old.pending + 1) }
    ensures touched { OnOk result (vec_len worklist.new.touched ≡ vec_len worklist.old.touched) }
    ensures lows { OnOk result
        (worklist.new.bounds.lows.items ≡ worklist.old.bounds.lows.items ++ range.low ∷ []) }
    ensures highs { OnOk result
        (worklist.new.bounds.highs.items ≡ worklist.old.bounds.highs.items ++ range.high ∷ []) }
{
    if let Some(size) = worklist.sizes.get_mut(from) {
        *size = left;
    }
    worklist.sizes.push(moved)?;
    worklist.hits.push(0)?;
    add_bounds(&mut worklist.bounds, range)?;
    worklist.pending.push(fresh)?;
    Ok(())
}

/// Splits a block by its steps into the set.
fn split_touched(
    alloc: Global,
    m: &Complete,
    p: &mut Partition,
    worklist: &mut Worklist,
    inside: &[bool],
    sources: &[u16],
    class: usize,
    from: usize,
) -> Result<(), AllocError>
    requires complete { IsComplete m.now }
    requires sound { IsSound m.now p.old }
    requires splitter { IsSplitter m.now inside.now }
    requires sources { ContainPreimage m.now inside.now class sources.now }
    requires bounds { AreBounds p.old worklist.old.bounds }
    ensures sound { OnOk result (IsSound m.now p.new) }
    ensures splits_left { OnOk result
        (splits_left m.now p.new worklist.new ≤ splits_left m.now p.old worklist.old) }
    ensures bounds { OnOk result (AreBounds p.new worklist.new.bounds) }
    ensures touched { OnOk result (vec_len worklist.new.touched ≡ vec_len worklist.old.touched) }
{
    let fresh = p.representatives.len();
    if from >= fresh {
        return Ok(());
    }
    let hits = take_hits(worklist, from);
    let size = worklist.sizes.get(from).copied().unwrap_or(0);
    if hits >= size {
        return Ok(());
    }
    let wanted = side_of(m, inside, from, class, hits <= size / 2);
    let moved = if wanted { hits } else { size - hits };
    let Some(range) = split(alloc, m, p, inside, sources, from, class, wanted)? else {
        return Ok(());
    };
    add_block(worklist, from, size - moved, fresh as u16, moved, range)?;
    Ok(())
}

/// Splits all blocks by their steps into the set on a class. All states that step into it are among `sources`.
fn split_by(
    alloc: Global,
    m: &Complete,
    p: &mut Partition,
    worklist: &mut Worklist,
    inside: &[bool],
    sources: &[u16],
    class: usize,
) -> Result<(), AllocError>
    requires complete { IsComplete m.now }
    requires sound { IsSound m.now p.old }
    requires splitter { IsSplitter m.now inside.now }
    requires sources { ContainPreimage m.now inside.now class sources.now }
    requires bounds { AreBounds p.old worklist.old.bounds }
    ensures sound { OnOk result (IsSound m.now p.new) }
    ensures splits_left { OnOk result
        (splits_left m.now p.new worklist.new ≤ splits_left m.now p.old worklist.old) }
    ensures bounds { OnOk result (AreBounds p.new worklist.new.bounds) }
{
    count_hits(worklist, p, sources)?;
    while let Some(from) = worklist.touched.pop() {
        split_touched(alloc, m, p, worklist, inside, sources, class, from as usize)?;
    }
    Ok(())
}

/// Returns the states of a block, by the bounds of all blocks.
fn members_by(
    alloc: Global,
    p: &Partition,
    bounds: &Bounds,
    block: u16,
) -> Result<Members, AllocError>
    requires small { length p.now.block_of.items ≤ max_complete_states }
    requires bounds { AreBounds p.now bounds.now }
    ensures flags { IfOk result (λ members.
        AreFlags p.now.block_of.items block (length p.now.block_of.items)
        members.inside.items) }
    ensures listed { IfOk result (λ members.
        (s : ℕ) → s < length p.now.block_of.items → flag members.inside.items s ≡ true
        → Contains members.states.items s) }
{
    let number = block as usize;
    if number < bounds.lows.len() && number < bounds.highs.len() {
        let low = bounds.lows[number];
        let high = bounds.highs[number];
        return members_between(alloc, &p.block_of, block, low, high);
    }
    members_of(alloc, &p.block_of, block)
}

/// Splits all blocks by their steps into a block, on each class.
fn split_all(
    alloc: Global,
    m: &Complete,
    p: &mut Partition,
    worklist: &mut Worklist,
    predecessors: &Predecessors,
    listed: bool,
    block: u16,
) -> Result<(), AllocError>
    requires complete { IsComplete m.now }
    requires sound { IsSound m.now p.old }
    requires listed { listed ≡ true → AreAllListed m.now predecessors.now }
    requires bounds { AreBounds p.old worklist.old.bounds }
    ensures sound { OnOk result (IsSound m.now p.new) }
    ensures splits_left { OnOk result
        (splits_left m.now p.new worklist.new ≤ splits_left m.now p.old worklist.old) }
    ensures bounds { OnOk result (AreBounds p.new worklist.new.bounds) }
{
    let Members { inside, states } = members_by(alloc, p, &worklist.bounds, block)?;
    for class in 0..m.width {
        let sources = sources_into(alloc, m, predecessors, listed, &inside, &states, class)?;
        split_by(alloc, m, p, worklist, &inside, &sources, class)?;
    }
    Ok(())
}

/// Splits blocks while some are pending.
pub(crate) fn refine_by_worklist(
    alloc: Global,
    m: &Complete,
    p: &mut Partition,
) -> Result<(), AllocError>
    requires complete { IsComplete m.now }
    requires sound { IsSound m.now p.old }
    ensures sound { OnOk result (IsSound m.now p.new) }
{
    let predecessors = Predecessors::of(alloc, m)?;
    let listed = predecessors.lists_all(m);
    let mut worklist = worklist_of(alloc, m, p)?;
    while let Some(block) = worklist.pending.pop() {
        split_all(alloc, m, p, &mut worklist, &predecessors, listed, block)?;
    }
    Ok(())
}
