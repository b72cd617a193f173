//! Finds where a set of positions can end in an expression, and which positions can be read next, in two passes over its nodes.

ghost use Rattle.std.specs.Prelude.{◌≡◌, ◌+◌, ◌<◌, ◌≤◌, ◌^◌, ◌∷◌, [], ℕ, false, IfOk, OnOk, reverse, slice_set, length};
ghost use Rattle.lx_auto.specs.Marking as plain;
ghost use Rattle.lx_auto.specs.Marking.{null_of, nulls_from, end_of, ends_from, behind_node, before_node, first_flag, other_flags, entered_children, read_at, reads_from};
ghost use Rattle.lx_auto.specs.NodeViews.{node_view, nodes_view};

use crate::unfolding::node::Node;
use std::alloc::{AllocError, Global};

// Initial capacity of a stack, in flags. Most expressions need no more.
const STACK: usize = 16;

/// Returns the flag with this number, or false past the end.
#[inline(always)]
pub(crate) fn flag(flags: &[bool], i: usize) -> bool
    ensures { result ≡ plain.flag flags.now i }
{
    i < flags.len() && flags[i]
}

/// Returns true if one of `count` flags from `from` on is set. Reads all of them, since a loop that can't stop early reads many at once.
pub(crate) fn has_flag(flags: &[bool], from: usize, count: usize) -> bool
    requires { from + count < 2 ^ 63 }
    ensures { result ≡ false → (q : ℕ) → from ≤ q → q < from + count
        → plain.flag flags.now q ≡ false }
{
    let end = (from + count).min(flags.len());
    let mut found = false;
    for i in from..end {
        found = found | flags[i];
    }
    found
}

/// Sets the flag with this number. Past the end, does nothing.
pub(crate) fn set_flag(flags: &mut Vec<bool>, i: usize, flag: bool)
    ensures set { flags.new.items ≡ slice_set flags.old.items i flag }
    ensures long { length flags.new.items ≡ length flags.old.items }
{
    if i < flags.len() {
        flags[i] = flag;
    }
}

// Returns the number of the left child of a node that has `previous_position` nodes before it, and `right` of them in its right child.
#[inline(always)]
fn left_of(before: usize, right: usize) -> usize
    ensures { result ≡ plain.left_of before right }
{
    before.saturating_sub(right).saturating_sub(1)
}

fn is_null(node: &Node, nulls: &[bool]) -> bool
    ensures { result ≡ null_of (node_view node.now) nulls.now }
{
    let last = nulls.len().saturating_sub(1);
    match *node {
        Node::Leaf(_) => false,
        Node::Cat(right) => flag(nulls, left_of(nulls.len(), right)) && flag(nulls, last),
        Node::Alt(right) => flag(nulls, left_of(nulls.len(), right)) || flag(nulls, last),
        Node::Optional => true,
        Node::Repeated => flag(nulls, last),
    }
}

/// Tests for each node if its expression matches the empty word.
pub(crate) fn nulls_of(alloc: Global, nodes: &[Node]) -> Result<Vec<bool>, AllocError>
    ensures { IfOk result (λ nulls. nulls.items ≡ nulls_from (nodes_view nodes.now) []) }
{
    let mut nulls = Vec::with_capacity(alloc, nodes.len())?;
    for node in nodes {
        nulls.push(is_null(node, &nulls))?;
    }
    Ok(nulls)
}

fn can_end(nulls: &[bool], marks: &[bool], position: usize, node: &Node, ends: &[bool]) -> bool
    ensures { result ≡ end_of nulls.now marks.now position (node_view node.now) ends.now }
{
    let last = ends.len().saturating_sub(1);
    match *node {
        Node::Leaf(_) => flag(marks, position),
        Node::Cat(right) => {
            flag(ends, last) || (flag(ends, left_of(ends.len(), right)) && flag(nulls, last))
        }
        Node::Alt(right) => flag(ends, left_of(ends.len(), right)) || flag(ends, last),
        Node::Optional | Node::Repeated => flag(ends, last),
    }
}

/// Returns the next position after a node.
pub(crate) fn next_position(node: &Node, position: usize) -> usize
    requires { position < 2 ^ 63 }
    ensures { result ≡ behind_node (node_view node.now) position }
{
    match *node {
        Node::Leaf(_) => position + 1,
        _ => position,
    }
}

/// Tests for each node if a word whose last position is marked can end there. `first` is the first position.
pub(crate) fn ends_of(
    alloc: Global,
    nodes: &[Node],
    nulls: &[bool],
    marks: &[bool],
    first: usize,
) -> Result<Vec<bool>, AllocError>
    requires { first < 2 ^ 32 }
    ensures { IfOk result
        (λ ends. ends.items ≡ ends_from nulls.now marks.now first (nodes_view nodes.now) []) }
{
    let mut ends = Vec::with_capacity(alloc, nodes.len())?;
    let mut position = first;
    for node in nodes {
        ends.push(can_end(nulls, marks, position, node, &ends))?;
        position = next_position(node, position);
    }
    Ok(ends)
}

// Pops the flag of the next expression, which is true if that may be entered.
fn pop_flag(stack: &mut Vec<bool>) -> bool
    ensures flag { result ≡ first_flag (reverse stack.old.items) }
    ensures rest { reverse stack.new.items ≡ other_flags (reverse stack.old.items) }
{
    match stack.pop() {
        Some(flag) => flag,
        None => false,
    }
}

// Pushes the flags of a node's children, which are true if they may be entered. The node has `previous_position` nodes before it.
fn push_entered(
    nulls: &[bool],
    ends: &[bool],
    node: &Node,
    before: usize,
    entered: bool,
    stack: &mut Vec<bool>,
) -> Result<(), AllocError>
    ensures { OnOk result (reverse stack.new.items
        ≡ entered_children nulls.now ends.now (node_view node.now) before entered
        (reverse stack.old.items)) }
{
    match *node {
        Node::Leaf(_) => {}
        Node::Cat(right) => {
            let left = left_of(before, right);
            stack.push(entered)?;
            stack.push((entered && flag(nulls, left)) || flag(ends, left))?;
        }
        Node::Alt(_) => {
            stack.push(entered)?;
            stack.push(entered)?;
        }
        Node::Optional => stack.push(entered)?,
        Node::Repeated => stack.push(entered || flag(ends, before.saturating_sub(1)))?,
    }
    Ok(())
}

// Returns the last position of those before a node and its own.
fn previous_position(node: &Node, position: usize) -> usize
    ensures { result ≡ before_node (node_view node.now) position }
{
    match *node {
        Node::Leaf(_) => position.saturating_sub(1),
        _ => position,
    }
}

// Sets a leaf's position if it may be entered, so that it can be read.
fn read(node: &Node, position: usize, entered: bool, reads: &mut Vec<bool>)
    ensures set { reads.new.items ≡ read_at (node_view node.now) position entered reads.old.items }
    ensures long { length reads.new.items ≡ length reads.old.items }
{
    if let Node::Leaf(_) = *node {
        set_flag(reads, position.saturating_sub(1), entered);
    }
}

/// Sets for each position of an expression if it can be read next: after a marked one, or at the start of the expression if that is entered. `end` is
/// the position after its last one.
pub(crate) fn mark_reads(
    alloc: Global,
    nodes: &[Node],
    nulls: &[bool],
    ends: &[bool],
    entered: bool,
    end: usize,
    reads: &mut Vec<bool>,
) -> Result<(), AllocError>
    ensures long { OnOk result (length reads.new.items ≡ length reads.old.items) }
    ensures set { OnOk result (reads.new.items
        ≡ reads_from nulls.now ends.now (reverse (nodes_view nodes.now)) (entered ∷ []) end
        reads.old.items) }
{
    let mut stack = Vec::with_capacity(alloc, STACK)?;
    stack.push(entered)?;
    let mut position = end;
    let mut rest = nodes.len();
    'down: while 0 < rest {
        rest -= 1;
        let node = &nodes[rest];
        let own = pop_flag(&mut stack);
        read(node, position, own, reads);
        push_entered(nulls, ends, node, rest, own, &mut stack)?;
        position = previous_position(node, position);
    }
    Ok(())
}
