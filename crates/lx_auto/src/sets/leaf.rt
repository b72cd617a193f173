//! Leaves of the positions, in order.

ghost use Rattle.std.specs.Prelude.{◌≡◌, ◌++◌, ℕ, List, true, IfOk, OnOk};
ghost use Rattle.lx_ere.specs.Regex.{Regex};
ghost use Rattle.lx_rules.specs.Plain.{PlainRule};
ghost use Rattle.lx_auto.specs.Unfolded.{Unfolded};
ghost use Rattle.lx_auto.specs.NodeViews.{node_view, nodes_view};
ghost use Rattle.lx_auto.specs.PositionSets.{numbered};
ghost use Rattle.lx_auto.specs.RuleParts.{ArePartsOf};
ghost use Rattle.lx_auto.specs.Leaves.{leaf_has, AreLeavesOf};
ghost use Rattle.lx_auto.specs.LeafViews.{leaf_view, leaves_view, leaves_of_part, leaves_of_parts};
ghost use Rattle.lx_auto.specs.NodeLeaves.{leaf_in, leaves_in};

use crate::rules::rule_part::RulePart;
use crate::unfolding::node::Node;
use lx_ere::set::ByteSet;
use std::alloc::{AllocError, Global};

/// The meaning of a position.
#[derive(Clone, Copy)]
pub(crate) enum Leaf<'s> {
    /// One byte of the set.
    Set(&'s ByteSet),
    /// The newline of a line end.
    Newline,
}

/// Returns true if the leaf has the byte.
pub(crate) fn has(leaf: &Leaf, byte: u8) -> bool
    ensures { result ≡ leaf_has (leaf_view leaf.now) byte }
{
    match *leaf {
        Leaf::Set(set) => set.has(byte),
        Leaf::Newline => byte == 10,
    }
}

/// Returns true only if the two have the same bytes. This is a quick test: it doesn't compare a set of only the newline with a line end.
pub(crate) fn are_same(a: &Leaf, b: &Leaf) -> bool
    ensures { result ≡ true → leaf_view a.now ≡ leaf_view b.now }
{
    match (*a, *b) {
        (Leaf::Set(one), Leaf::Set(other)) => *one == *other,
        (Leaf::Newline, Leaf::Newline) => true,
        _ => false,
    }
}

// Adds the leaf of a node, if it is one.
fn push_leaf<'s>(node: &Node<'s>, leaves: &mut Vec<Leaf<'s>>) -> Result<(), AllocError>
    ensures { OnOk result (leaves_view leaves.new.items
        ≡ leaves_view leaves.old.items ++ leaf_in (node_view node.now)) }
{
    match *node {
        Node::Leaf(set) => leaves.push(Leaf::Set(set))?,
        _ => {}
    }
    Ok(())
}

// Adds the leaves of nodes, in order.
fn push_leaves<'s>(nodes: &[Node<'s>], leaves: &mut Vec<Leaf<'s>>) -> Result<(), AllocError>
    ensures { OnOk result (leaves_view leaves.new.items
        ≡ leaves_view leaves.old.items ++ leaves_in (nodes_view nodes.now)) }
{
    for node in nodes {
        push_leaf(node, leaves)?;
    }
    Ok(())
}

// Adds the leaves of a rule, with the newline of a line end after all others.
fn push_part<'s>(part: &RulePart<'s>, leaves: &mut Vec<Leaf<'s>>) -> Result<(), AllocError>
    ensures { OnOk result
        (leaves_view leaves.new.items ≡ leaves_view leaves.old.items ++ leaves_of_part part.now) }
{
    push_leaves(&part.nodes, leaves)?;
    if part.line_end {
        leaves.push(Leaf::Newline)?;
    }
    Ok(())
}

// Collects the leaves of the rules, one rule after the other.
fn leaves_of_all<'s>(alloc: Global, parts: &[RulePart<'s>]) -> Result<Vec<Leaf<'s>>, AllocError>
    ensures { IfOk result (λ leaves. leaves_view leaves.items ≡ leaves_of_parts parts.now) }
{
    let mut leaves = Vec::new(alloc);
    for i in 0..parts.len() {
        push_part(&parts[i], &mut leaves)?;
    }
    Ok(leaves)
}

/// Collects the leaf of each position of the rules.
pub(crate) fn leaves_of<'s>(
    alloc: Global,
    parts: &[RulePart<'s>],
) -> Result<Vec<Leaf<'s>>, AllocError>
    ensures { (tree_of : Regex → Unfolded) (plain : List PlainRule) (total : ℕ)
        → ArePartsOf parts.now (numbered tree_of 0 plain) total → IfOk result
        (λ leaves. AreLeavesOf (numbered tree_of 0 plain) (leaves_view leaves.items)) }
{
    let leaves = leaves_of_all(alloc, parts)?;
    Ok(leaves)
}
