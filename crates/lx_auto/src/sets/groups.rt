//! Groups of bytes that no position distinguishes.

ghost use Rattle.std.specs.Prelude.{◌≡◌, ◌≤◌, ◌<◌, ◌+◌, ℕ, List, true, false, All, IfOk, OnOk, MatchOption, length, slice_index};
ghost use Rattle.lx_auto.specs.Leaves.{PlainLeaf, AreGroupsOf};
ghost use Rattle.lx_auto.specs.LeafViews.{leaf_view, leaves_view};
ghost use Rattle.lx_auto.specs.Grouping.{representative_of, RespectsGroups, AreTogether, IsSplitBelow};

use crate::sets::leaf::{Leaf, are_same, has};
use std::alloc::{AllocError, Global};

/// The groups of bytes, each with one representative byte.
#[derive(Drop)]
pub(crate) struct ByteGroups {
    /// Group of each byte.
    pub(crate) classes: Vec<u8>,
    /// Representative byte of each group.
    pub(crate) representatives: Vec<u8>,
    pub ghost bytes: { length classes.items ≡ 256 },
    pub ghost below: { (b : ℕ) → b < 256 → slice_index classes.items b < length representatives.items },
    pub ghost few: { length representatives.items < 257 },
    pub ghost small: { (k : ℕ) → k < length representatives.items → slice_index representatives.items k < 256 },
}

// Returns all bytes in one group.
fn one_group(alloc: Global) -> Result<ByteGroups, AllocError> {
    let classes = vec![in alloc; 0u8; 256]?;
    let representatives = vec![in alloc; 0u8; 1]?;
    Ok(ByteGroups {
        classes,
        representatives,
    })
}

// Returns the representative of a byte's group.
fn representative(groups: &ByteGroups, byte: u8) -> u8
    ensures { result
        ≡ representative_of groups.now.classes.items groups.now.representatives.items byte }
{
    let class = groups.classes[byte as usize];
    groups.representatives[class as usize]
}

// Returns true if the leaf distinguishes a byte from its representative.
fn splits(leaf: &Leaf, groups: &ByteGroups) -> bool
    ensures { result ≡ false → RespectsGroups (leaf_view leaf.now) groups.now.classes.items
        groups.now.representatives.items }
{
    for i in 0..256usize {
        let byte = i as u8;
        if has(leaf, byte) != has(leaf, representative(groups, byte)) {
            return true;
        }
    }
    false
}

// Returns true if the two bytes are in one group and the leaf doesn't distinguish them.
fn are_together(leaf: &Leaf, groups: &ByteGroups, first: u8, second: u8) -> bool
    ensures { result ≡ true
        → AreTogether (leaf_view leaf.now) groups.now.classes.items first second }
{
    groups.classes[first as usize] == groups.classes[second as usize]
        && has(leaf, first) == has(leaf, second)
}

// Finds the first of the new groups to which the byte can go.
fn find_group(leaf: &Leaf, groups: &ByteGroups, representatives: &[u8], byte: u8) -> Option<usize>
    ensures within { MatchOption result (Unit {0}) (λ class. class < length representatives.now) }
    ensures together { MatchOption result (Unit {0}) (λ class.
        AreTogether (leaf_view leaf.now) groups.now.classes.items
        (slice_index representatives.now class) byte) }
{
    for class in 0..representatives.len() {
        if are_together(leaf, groups, representatives[class], byte) {
            return Some(class);
        }
    }
    None
}

// Returns the new group of a byte: an existing one, or a new one that it begins.
fn group_for(
    leaf: &Leaf,
    groups: &ByteGroups,
    byte: u8,
    representatives: &mut Vec<u8>,
) -> Result<usize, AllocError>
    ensures within { IfOk result (λ class. class < length representatives.new.items) }
    ensures longer { OnOk result
        (length representatives.old.items ≤ length representatives.new.items) }
    ensures few { OnOk result
        (length representatives.new.items ≤ length representatives.old.items + 1) }
    ensures small { ((k : ℕ) → k < length representatives.old.items
        → slice_index representatives.old.items k < 256)
        → OnOk result ((k : ℕ) → k < length representatives.new.items
        → slice_index representatives.new.items k < 256) }
    ensures kept { OnOk result ((k : ℕ) → k < length representatives.old.items
        → slice_index representatives.new.items k ≡ slice_index representatives.old.items k) }
    ensures together { IfOk result (λ class.
        AreTogether (leaf_view leaf.now) groups.now.classes.items
        (slice_index representatives.new.items class) byte) }
{
    match find_group(leaf, groups, representatives, byte) {
        Some(class) => Ok(class),
        None => {
            let class = representatives.len();
            representatives.push(byte)?;
            Ok(class)
        }
    }
}

// Splits each group by the leaf's bytes.
fn split(alloc: Global, leaf: &Leaf, groups: &ByteGroups) -> Result<ByteGroups, AllocError>
    ensures { IfOk result (λ new.
        IsSplitBelow (leaf_view leaf.now) groups.now.classes.items new.classes.items
        new.representatives.items 256) }
{
    let mut classes = Vec::new(alloc);
    let mut representatives = Vec::new(alloc);
    for i in 0..256usize {
        let class = group_for(leaf, groups, i as u8, &mut representatives)?;
        classes.push(class as u8)?;
    }
    Ok(ByteGroups {
        classes,
        representatives,
    })
}

// Splits the groups if the leaf distinguishes bytes of one group.
fn refine(alloc: Global, leaf: &Leaf, groups: ByteGroups) -> Result<ByteGroups, AllocError>
    ensures own { IfOk result
        (λ new. RespectsGroups (leaf_view leaf.now) new.classes.items new.representatives.items) }
    ensures others { (other : PlainLeaf)
        → RespectsGroups other groups.classes.items groups.representatives.items
        → IfOk result (λ new. RespectsGroups other new.classes.items new.representatives.items) }
{
    if splits(leaf, &groups) {
        let finer = split(alloc, leaf, &groups)?;
        return Ok(finer);
    }
    Ok(groups)
}

// Greatest number of leaves that are kept after a split. Most positions have the bytes of an earlier one.
const MOST_KEPT: usize = 64;

// Returns true if one of the leaves has the same bytes as this one.
fn is_among(kept: &[Leaf], leaf: &Leaf) -> bool
    ensures { (classes representatives : List ℕ)
        → All (λ k. RespectsGroups (leaf_view k) classes representatives) kept.now → result ≡ true
        → RespectsGroups (leaf_view leaf.now) classes representatives }
{
    for other in kept {
        if are_same(other, leaf) {
            return true;
        }
    }
    false
}

// Keeps a leaf, unless there are enough.
fn keep<'s>(kept: &mut Vec<Leaf<'s>>, leaf: Leaf<'s>) -> Result<(), AllocError>
    ensures { (classes representatives : List ℕ)
        → All (λ k. RespectsGroups (leaf_view k) classes representatives) kept.old.items
        → RespectsGroups (leaf_view leaf.entry) classes representatives → OnOk result
        (All (λ k. RespectsGroups (leaf_view k) classes representatives) kept.new.items) }
{
    if kept.len() == MOST_KEPT {
        return Ok(());
    }
    kept.push(leaf)?;
    Ok(())
}

/// Groups the bytes that no leaf distinguishes.
pub(crate) fn groups_of<'s>(alloc: Global, leaves: &[Leaf<'s>]) -> Result<ByteGroups, AllocError>
    ensures { IfOk result (λ groups.
        AreGroupsOf (leaves_view leaves.now) groups.classes.items
        groups.representatives.items) }
{
    let mut groups = one_group(alloc)?;
    let mut kept = Vec::new(alloc);
    for i in 0..leaves.len() {
        let leaf = leaves[i];
        if is_among(&kept, &leaf) {
            continue;
        }
        groups = refine(alloc, &leaf, groups)?;
        keep(&mut kept, leaf)?;
    }
    Ok(groups)
}
