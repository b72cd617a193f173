//! The automaton of the blocks of a partition.

ghost use Rattle.std.specs.Prelude.{◌≡◌, ◌≢◌, ◌<◌, ◌≤◌, ◌+◌, ◌*◌, ℕ, Bool, true, false, if◌then◌else◌, IfOk, OnOk, length, slice_index};
ghost use Rattle.lx_automaton.specs.Automata.{IsMachine, state_count};
ghost use Rattle.lx_minimize.specs.Completion.{total, IsComplete, IsCompletion};
ghost use Rattle.lx_automaton.specs.Equivalence.{AreEquivalentMachines, IsMinimal, HasLiveSteps};
ghost use Rattle.lx_automaton.specs.Leading.{AreAllLedTo};
ghost use Rattle.lx_minimize.specs.Partitions.{block, block_count, IsSound, IsStable};
ghost use Rattle.lx_minimize.specs.Quotients.{number_of, AreStates, AreStarts, HaveNoDeadStart, HasDeadStart, AreRowStates, AreLabels, AreTargets};

use crate::{Complete, Partition, step};
use lx_automaton::{Automaton, AutomatonDraft};
use std::alloc::{AllocError, Global};

/// Returns the state of the quotient for a state of the automaton.
fn state_of(m: &Complete, p: &Partition, state: u32) -> u32
    requires complete { IsComplete m.now }
    requires sound { IsSound m.now p.now }
    requires state { state + 1 < total m.now }
    ensures { result ≡ number_of p.now (block p.now (state + 1)) }
{
    let number = p.block_of[state as usize + 1] as u32;
    if number == 0 {
        p.representatives.len() as u32 - 1
    } else {
        number - 1
    }
}

/// Returns the starts of the quotient.
fn starts_of(
    alloc: Global,
    m: &Complete,
    p: &Partition,
    starts: &[(u32, u32)],
) -> Result<Vec<(u32, u32)>, AllocError>
    requires complete { IsComplete m.now }
    requires sound { IsSound m.now p.now }
    requires states { AreStates m.now starts.now }
    ensures { IfOk result (λ new. AreStarts p.now starts.now new.items (length starts.now)) }
{
    let mut new = Vec::new(alloc);
    for condition in 0..starts.len() {
        let (elsewhere, at_begin) = starts[condition];
        new.push((state_of(m, p, elsewhere), state_of(m, p, at_begin)))?;
    }
    Ok(new)
}

/// Returns true if a start is in block 0, so that nothing is ever accepted from it.
fn has_dead_start(m: &Complete, p: &Partition, starts: &[(u32, u32)]) -> bool
    requires complete { IsComplete m.now }
    requires sound { IsSound m.now p.now }
    requires states { AreStates m.now starts.now }
    ensures dead { result ≡ true → HasDeadStart p.now starts.now }
    ensures none { result ≡ false → HaveNoDeadStart p.now starts.now (length starts.now) }
{
    for condition in 0..starts.len() {
        let (elsewhere, at_begin) = starts[condition];
        if p.block_of[elsewhere as usize + 1] == 0 || p.block_of[at_begin as usize + 1] == 0 {
            return true;
        }
    }
    false
}

/// Returns the states that represent the quotient's states.
fn rows_of(alloc: Global, p: &Partition, dead: bool) -> Result<Vec<u16>, AllocError>
    requires { 0 < block_count p.now }
    ensures rows { IfOk result (λ rows. AreRowStates p.now rows.items) }
    ensures count { IfOk result
        (λ rows. length rows.items + (if dead then 0 else 1) ≡ block_count p.now) }
{
    let mut rows = Vec::from_slice(alloc, &p.representatives[1..])?;
    if dead {
        rows.push(0)?;
    }
    Ok(rows)
}

/// Returns the labels of these states.
fn labels_of(alloc: Global, m: &Complete, rows: &[u16]) -> Result<Vec<u16>, AllocError>
    requires { (i : ℕ) → i < length rows.now → slice_index rows.now i < total m.now }
    ensures { IfOk result (λ labels. AreLabels m.now rows.now labels.items (length rows.now)) }
{
    let mut labels = Vec::new(alloc);
    for i in 0..rows.len() {
        labels.push(m.labels[rows[i] as usize])?;
    }
    Ok(labels)
}

/// Adds the row of the blocks to which one of these states steps.
fn add_row(
    m: &Complete,
    p: &Partition,
    rows: &[u16],
    i: usize,
    targets: &mut Vec<u16>,
) -> Result<(), AllocError>
    requires complete { IsComplete m.now }
    requires sound { IsSound m.now p.now }
    requires row { i < length rows.now }
    requires states { (j : ℕ) → j < length rows.now → slice_index rows.now j < total m.now }
    requires targets { AreTargets m.now p.now rows.now targets.old.items (i * m.now.width) }
    ensures { OnOk result
        (AreTargets m.now p.now rows.now targets.new.items ((i + 1) * m.now.width)) }
{
    for class in 0..m.width {
        targets.push(p.block_of[step(m, rows[i] as usize, class)])?;
    }
    Ok(())
}

/// Returns the blocks to which these states step. A block's number is its encoded state, and 0 is none.
fn targets_of(
    alloc: Global,
    m: &Complete,
    p: &Partition,
    rows: &[u16],
) -> Result<Vec<u16>, AllocError>
    requires complete { IsComplete m.now }
    requires sound { IsSound m.now p.now }
    requires states { (j : ℕ) → j < length rows.now → slice_index rows.now j < total m.now }
    ensures { IfOk result
        (λ targets. AreTargets m.now p.now rows.now targets.items (length rows.now * m.now.width)) }
{
    let mut targets = Vec::new(alloc);
    for i in 0..rows.len() {
        add_row(m, p, rows, i, &mut targets)?;
    }
    Ok(targets)
}

/// Makes the automaton of the blocks, over the automaton's classes.
pub(crate) fn quotient(
    alloc: Global,
    automaton: &Automaton,
    m: &Complete,
    p: &Partition,
) -> Result<AutomatonDraft, AllocError>
    requires completion { IsCompletion automaton.now m.now }
    requires sound { IsSound m.now p.now }
    requires stable { IsStable m.now p.now }
    ensures machine { IfOk result (λ q. IsMachine q) }
    ensures conditions { IfOk result (λ q. length q.starts ≡ length automaton.now.starts) }
    ensures answers { IfOk result (λ q. AreEquivalentMachines automaton.now q) }
    ensures minimal { IfOk result (λ q. IsMinimal q) }
    ensures live { IfOk result (λ q. HasLiveSteps q) }
    ensures led_to { IfOk result (λ q. AreAllLedTo automaton.now → AreAllLedTo q) }
{
    let width = automaton.classes() as usize;
    let dead = has_dead_start(m, p, automaton.starts());
    let rows = rows_of(alloc, p, dead)?;
    let starts = starts_of(alloc, m, p, automaton.starts())?;
    let labels = labels_of(alloc, m, &rows)?;
    let targets = targets_of(alloc, m, p, &rows)?;
    let classes = Vec::from_slice(alloc, automaton.byte_classes())?;
    Ok(AutomatonDraft::of(starts, classes, width, labels, targets))
}
