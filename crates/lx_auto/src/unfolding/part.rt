//! Expressions whose nodes were appended last, and the operations on them.

ghost use Rattle.std.specs.Prelude.{◌≡◌, ◌+◌, ◌&&◌, ◌||◌, min, false, IfOk};
ghost use Rattle.lx_auto.specs.Simplified.{cat_of, alt_of, opt_of, plus_of};
ghost use Rattle.lx_auto.specs.NodeViews.{nodes_view, Joins, Changes};

use crate::unfolding::node::Node;
use std::alloc::AllocError;

/// The nodes of an expression, the last ones of the list.
#[derive(Clone, Copy)]
pub(crate) struct Part {
    /// Number of nodes. It is 0 for the empty word.
    pub(crate) size: usize,
    /// True if the expression matches the empty word.
    pub(crate) nullable: bool,
    /// True if a repetition of the expression equals the expression.
    pub(crate) repeated: bool,
}

/// The empty word, which has no nodes.
pub(crate) const EMPTY: Part = Part {
    size: 0,
    nullable: true,
    repeated: false,
};

// Makes a node above two expressions. Memory never holds as many nodes as would saturate the sum.
fn node_of_two(left: Part, right: Part, nullable: bool) -> Part
    ensures { result ≡ record
        { size = min 18446744073709551615 (left.size + right.size + 1); nullable = nullable; repeated = false } }
{
    Part {
        size: left.size.saturating_add(right.size).saturating_add(1),
        nullable,
        repeated: false,
    }
}

// Makes a node above one expression.
fn node_of_one(part: Part, nullable: bool, repeated: bool) -> Part
    ensures { result ≡ record
        { size = min 18446744073709551615 (part.size + 1); nullable = nullable; repeated = repeated } }
{
    Part {
        size: part.size.saturating_add(1),
        nullable,
        repeated,
    }
}

fn both(left: bool, right: bool) -> bool
    ensures { result ≡ (left && right) }
{
    left && right
}

fn either(left: bool, right: bool) -> bool
    ensures { result ≡ (left || right) }
{
    left || right
}

/// Joins the left expression and then the right one.
pub(crate) fn join(nodes: &mut Vec<Node<'_>>, left: Part, right: Part) -> Result<Part, AllocError>
    ensures { IfOk result (λ part.
        Joins cat_of (nodes_view nodes.old.items) (nodes_view nodes.new.items) left right
        part) }
{
    if left.size == 0 {
        return Ok(right);
    }
    if right.size == 0 {
        return Ok(left);
    }
    nodes.push(Node::Cat(right.size))?;
    Ok(node_of_two(left, right, both(left.nullable, right.nullable)))
}

/// Joins the left expression or the right one.
pub(crate) fn choose(nodes: &mut Vec<Node<'_>>, left: Part, right: Part) -> Result<Part, AllocError>
    ensures { IfOk result (λ part.
        Joins alt_of (nodes_view nodes.old.items) (nodes_view nodes.new.items) left right
        part) }
{
    if left.size == 0 {
        return optional(nodes, right);
    }
    if right.size == 0 {
        return optional(nodes, left);
    }
    nodes.push(Node::Alt(right.size))?;
    Ok(node_of_two(left, right, either(left.nullable, right.nullable)))
}

/// Makes the expression optional.
pub(crate) fn optional(nodes: &mut Vec<Node<'_>>, part: Part) -> Result<Part, AllocError>
    ensures { IfOk result
        (λ new. Changes opt_of (nodes_view nodes.old.items) (nodes_view nodes.new.items) part new) }
{
    if part.nullable {
        return Ok(part);
    }
    nodes.push(Node::Optional)?;
    Ok(node_of_one(part, true, part.repeated))
}

/// Repeats the expression one or more times.
pub(crate) fn one_or_more(nodes: &mut Vec<Node<'_>>, part: Part) -> Result<Part, AllocError>
    ensures { IfOk result (λ new.
        Changes plus_of (nodes_view nodes.old.items) (nodes_view nodes.new.items) part new) }
{
    if part.size == 0 {
        return Ok(part);
    }
    if part.repeated {
        return Ok(part);
    }
    nodes.push(Node::Repeated)?;
    Ok(node_of_one(part, part.nullable, true))
}
