//! Splits blocks until states of one block step to the same blocks.

ghost use Rattle.std.specs.Prelude.{◌≡◌, ◌≢◌, ◌<◌, ◌+◌, ◌^◌, ◌++◌, ◌∷◌, [], ℕ, Bool, true, false, None, IfOk, IfSome, OnOk, length, slice_index, slice_set};
ghost use Rattle.lx_minimize.specs.Completion.{total, step_of, IsComplete};
ghost use Rattle.lx_minimize.specs.BlockBounds.{HasNewBlock};
ghost use Rattle.lx_minimize.specs.Sources.{ContainPreimage};
ghost use Rattle.lx_minimize.specs.Partitions.{block, block_count, member_of, flag, IsSound, IsStable, IsSplitter, IsRemaining, AreMovedStates, AreRenumbered, IsStableBlock};

use crate::bounds::{StateRange, range_of};
use crate::candidates::all_states;
use crate::members::members_of;
use crate::moving::{first_unstable, moved_states_of, remaining_state_of, renumber, steps_into};
use crate::worklist::refine_by_worklist;
use crate::{Complete, Partition, step};
use std::alloc::{AllocError, Global};

/// Returns the side of the states that move. Of block 0 they are those that don't step like state 0, and of other blocks the wanted ones.
pub(crate) fn side_of(
    m: &Complete,
    inside: &[bool],
    from: usize,
    class: usize,
    wanted: bool,
) -> bool
    requires complete { IsComplete m.now }
    requires inside { length inside.now ≡ total m.now }
    requires class { class < m.now.width }
    ensures { from ≡ 0 → result ≢ flag inside.now (step_of m.now 0 class) }
{
    if from == 0 {
        !steps_into(m, inside, 0, class)
    } else {
        wanted
    }
}

/// Gives the moved states a new block.
fn divide(
    m: &Complete,
    p: &mut Partition,
    from: usize,
    remaining_state: u16,
    moved_states: &[u16],
) -> Result<(), AllocError>
    requires small { block_count p.old < 2 ^ 16 }
    requires from { from < block_count p.old }
    requires some { 0 < length moved_states.now }
    requires below { (j : ℕ) → j < length moved_states.now
        → slice_index moved_states.now j < length p.old.block_of.items }
    ensures representatives { OnOk result (p.new.representatives.items
        ≡ slice_set p.old.representatives.items from remaining_state
        ++ slice_index moved_states.now 0 ∷ []) }
    ensures blocks { OnOk result (AreRenumbered p.old.block_of.items p.new.block_of.items
        moved_states.now (block_count p.old) (length moved_states.now)) }
{
    let fresh = p.representatives.len() as u16;
    p.representatives[from] = remaining_state;
    p.representatives.push(moved_states[0])?;
    renumber(&mut p.block_of, moved_states, fresh);
    Ok(())
}

/// Splits a block by its steps into the set, if only some of its states step into it. The wanted states move into a new block; of block 0 those that
/// don't step like state 0. All that step into the set are among `sources`. Returns the range of the moved states.
pub(crate) fn split(
    alloc: Global,
    m: &Complete,
    p: &mut Partition,
    inside: &[bool],
    sources: &[u16],
    from: usize,
    class: usize,
    wanted: bool,
) -> Result<Option<StateRange>, AllocError>
    requires complete { IsComplete m.now }
    requires sound { IsSound m.now p.old }
    requires splitter { IsSplitter m.now inside.now }
    requires sources { ContainPreimage m.now inside.now class sources.now }
    requires from { from < block_count p.old }
    ensures sound { OnOk result (IsSound m.now p.new) }
    ensures count { IfOk result
        (λ moved. IfSome moved (λ _. block_count p.new ≡ block_count p.old + 1)) }
    ensures divided { IfOk result (λ moved. IfSome moved (HasNewBlock p.old p.new)) }
    ensures unsplit { IfOk result
        (λ moved. moved ≡ None → IsStableBlock m.now p.old.block_of.items inside.now from class) }
    ensures same { IfOk result (λ moved. moved ≡ None → p.new ≡ p.old) }
{
    let wanted = side_of(m, inside, from, class, wanted);
    let blocks = p.block_of.as_slice();
    let moved_states = moved_states_of(
        alloc,
        m,
        blocks,
        inside,
        sources,
        from as u16,
        class,
        wanted,
    )?;
    if moved_states.is_empty() {
        return Ok(None);
    }
    let representative = p.representatives[from];
    let Some(remaining_state) = remaining_state_of(
        m,
        blocks,
        inside,
        representative,
        from as u16,
        class,
        wanted,
    ) else {
        return Ok(None);
    };
    let moved = range_of(&moved_states);
    divide(m, p, from, remaining_state, &moved_states)?;
    Ok(Some(moved))
}

/// Splits the block of a state that steps to another block than the block's representative.
fn split_at(
    alloc: Global,
    m: &Complete,
    p: &mut Partition,
    s: usize,
    class: usize,
) -> Result<(), AllocError>
    requires complete { IsComplete m.now }
    requires sound { IsSound m.now p.old }
    requires state { s < total m.now }
    requires class { class < m.now.width }
    requires unstable { block p.old (step_of m.now s class)
        ≢ block p.old (step_of m.now (member_of p.old (block p.old s)) class) }
    ensures sound { OnOk result (IsSound m.now p.new) }
    ensures more { OnOk result (block_count p.new ≡ block_count p.old + 1) }
{
    let into = p.block_of[step(m, s, class)];
    let members = members_of(alloc, &p.block_of, into)?;
    let from = p.block_of[s] as usize;
    let sources = all_states(alloc, m.labels.len())?;
    let _split = split(
        alloc,
        m,
        p,
        &members.inside,
        sources.as_slice(),
        from,
        class,
        true,
    )?;
    Ok(())
}

/// Splits blocks until states of one block step to the same blocks.
pub(crate) fn refine(alloc: Global, m: &Complete, start: Partition) -> Result<Partition, AllocError>
    requires complete { IsComplete m.now }
    requires sound { IsSound m.now start }
    ensures sound { IfOk result (λ p. IsSound m.now p) }
    ensures stable { IfOk result (λ p. IsStable m.now p) }
{
    let mut p = start;
    refine_by_worklist(alloc, m, &mut p)?;
    // if the order was right, nothing is left to split
    while let Some((s, class)) = first_unstable(m, &p) {
        split_at(alloc, m, &mut p, s, class)?;
    }
    Ok(p)
}
