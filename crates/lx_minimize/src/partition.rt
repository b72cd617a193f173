//! Partitions of states into blocks. The first partition is by the states' labels.

ghost use Rattle.std.specs.Prelude.{◌≡◌, ◌≢◌, ◌<◌, ◌≤◌, ◌+◌, ◌++◌, ◌∷◌, [], ℕ, IfOk, OnOk, length, slice_index};
ghost use Rattle.lx_minimize.specs.Completion.{total, label_of, IsComplete};
ghost use Rattle.lx_minimize.specs.Partitions.{IsSound, AreLabelledBelow, AreBlocksByLabel};

use crate::complete::Complete;
use std::alloc::{AllocError, Global};

/// A partition of the states into blocks: the block of each state, and a representative state of each block.
#[derive(Drop)]
pub struct Partition {
    pub block_of: Vec<u16>,
    pub representatives: Vec<u16>,
}

/// Returns the greatest label of a state.
fn largest_label(m: &Complete) -> u16
    ensures { (s : ℕ) → s < total m.now → label_of m.now s ≤ result }
{
    let mut largest = 0;
    for state in 0..m.labels.len() {
        largest = largest.max(m.labels[state]);
    }
    largest
}

/// Returns the block of each label before there is any. An entry is 0 for none, otherwise one more than the block.
fn no_blocks(alloc: Global, m: &Complete) -> Result<Vec<u16>, AllocError>
    ensures { IfOk result (λ block_by_label. AreBlocksByLabel m.now [] block_by_label.items) }
{
    let largest = largest_label(m);
    vec![in alloc; 0; largest as usize + 1]
}

/// Returns the block with the state's label, or the next number if there is none.
fn block_for(m: &Complete, representatives: &[u16], block_by_label: &[u16], state: usize) -> usize
    requires state { state < total m.now }
    requires labels { AreBlocksByLabel m.now representatives.now block_by_label.now }
    ensures at_most { result ≤ length representatives.now }
    ensures found { result < length representatives.now
        → label_of m.now (slice_index representatives.now result) ≡ label_of m.now state }
    ensures fresh { result ≡ length representatives.now → (b : ℕ) → b < length representatives.now
        → label_of m.now (slice_index representatives.now b) ≢ label_of m.now state }
{
    let encoded = block_by_label[m.labels[state] as usize];
    if encoded == 0 {
        return representatives.len();
    }
    encoded as usize - 1
}

/// Adds a state to the block with this number.
fn push_state(
    m: &Complete,
    state: usize,
    number: usize,
    blocks: &mut Vec<u16>,
    representatives: &mut Vec<u16>,
) -> Result<(), AllocError>
    requires complete { IsComplete m.now }
    requires state { state < total m.now }
    requires labelled { AreLabelledBelow m.now state blocks.old.items representatives.old.items }
    requires at_most { number ≤ length representatives.old.items }
    requires found { number < length representatives.old.items
        → label_of m.now (slice_index representatives.old.items number) ≡ label_of m.now state }
    requires fresh { number ≡ length representatives.old.items → (b : ℕ)
        → b < length representatives.old.items
        → label_of m.now (slice_index representatives.old.items b) ≢ label_of m.now state }
    ensures labelled { OnOk result
        (AreLabelledBelow m.now (state + 1) blocks.new.items representatives.new.items) }
    ensures same { number < length representatives.old.items
        → OnOk result (representatives.new.items ≡ representatives.old.items) }
    ensures more { number ≡ length representatives.old.items
        → OnOk result (representatives.new.items ≡ representatives.old.items ++ state ∷ []) }
{
    blocks.push(number as u16)?;
    if number < representatives.len() {
        return Ok(());
    }
    representatives.push(state as u16)?;
    Ok(())
}

/// Adds a state to the block of its label.
fn add_state(
    m: &Complete,
    state: usize,
    blocks: &mut Vec<u16>,
    representatives: &mut Vec<u16>,
    block_by_label: &mut Vec<u16>,
) -> Result<(), AllocError>
    requires complete { IsComplete m.now }
    requires state { state < total m.now }
    requires labelled { AreLabelledBelow m.now state blocks.old.items representatives.old.items }
    requires labels { AreBlocksByLabel m.now representatives.old.items block_by_label.old.items }
    ensures labelled { OnOk result
        (AreLabelledBelow m.now (state + 1) blocks.new.items representatives.new.items) }
    ensures labels { OnOk result
        (AreBlocksByLabel m.now representatives.new.items block_by_label.new.items) }
{
    let number = block_for(m, representatives, block_by_label, state);
    if number < representatives.len() {
        return push_state(m, state, number, blocks, representatives);
    }
    push_state(m, state, number, blocks, representatives)?;
    block_by_label[m.labels[state] as usize] = number as u16 + 1;
    Ok(())
}

/// Returns all states in the blocks of their labels.
fn labelled_states(alloc: Global, m: &Complete) -> Result<Partition, AllocError>
    requires { IsComplete m.now }
    ensures { IfOk result
        (λ p. AreLabelledBelow m.now (total m.now) p.block_of.items p.representatives.items) }
{
    let mut block_of = Vec::with_capacity(alloc, m.labels.len())?;
    let mut representatives = Vec::new(alloc);
    let mut block_by_label = no_blocks(alloc, m)?;
    for state in 0..m.labels.len() {
        add_state(
            m,
            state,
            &mut block_of,
            &mut representatives,
            &mut block_by_label,
        )?;
    }
    Ok(Partition {
        block_of,
        representatives,
    })
}

/// Returns the partition by labels.
pub fn by_labels(alloc: Global, m: &Complete) -> Result<Partition, AllocError>
    requires { IsComplete m.now }
    ensures { IfOk result (λ p. IsSound m.now p) }
{
    let partition = labelled_states(alloc, m)?;
    Ok(partition)
}
