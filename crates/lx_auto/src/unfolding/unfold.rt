//! Unfolds expressions to nodes.

ghost use Rattle.std.specs.Prelude.{◌≡◌, ◌≤◌, ◌++◌, map, IfOk, OnOk, Some};
ghost use Rattle.lx_ere.specs.Regex.{regex_of};
ghost use Rattle.lx_rules.specs.views.Rules.{definition_view};
ghost use Rattle.lx_rules.specs.Limits.{max_name_depth};
ghost use Rattle.lx_auto.specs.NameViews.{tree_at};
ghost use Rattle.lx_auto.specs.NodeViews.{nodes_view, Appends};
ghost use Rattle.lx_auto.specs.Unfolded.{leaf};
ghost use Rattle.lx_auto.specs.Unfolding.{Unfolds, UnfoldsName, AreFragments};

use crate::unfolding::fragment::Fragment;
use crate::unfolding::names::Names;
use crate::unfolding::node::Node;
use crate::unfolding::part::{EMPTY, Part, choose, join};
use crate::unfolding::repeat::{has_no_copy, repeat};
use lx_ere::expr::Expr;
use lx_ere::set::ByteSet;
use std::alloc::AllocError;

/// Appends the nodes of an expression. Copies names that have nodes, and unfolds others at most `depth` deep.
#[cycle(unfold)]
pub(crate) fn unfold<'s>(
    names: &Names<'s>,
    fragments: &[Option<Fragment<'s>>],
    depth: u8,
    expr: &'s Expr,
    nodes: &mut Vec<Node<'s>>,
) -> Result<Part, AllocError>
    requires shallow { depth ≤ max_name_depth }
    requires fragments { AreFragments names.now.definitions.now fragments.now }
    ensures { IfOk result (λ part.
        Unfolds (map definition_view names.now.definitions.now) depth (regex_of expr.now)
        (nodes_view nodes.old.items) (nodes_view nodes.new.items) part) }
{
    match expr {
        Expr::Nil => Ok(EMPTY),
        Expr::Set(set) => append_leaf(set, nodes),
        Expr::Then(first, second) => {
            let left = unfold(names, fragments, depth, first, nodes)?;
            let right = unfold(names, fragments, depth, second, nodes)?;
            join(nodes, left, right)
        }
        Expr::Or(one, other) => {
            let left = unfold(names, fragments, depth, one, nodes)?;
            let right = unfold(names, fragments, depth, other, nodes)?;
            choose(nodes, left, right)
        }
        Expr::Times { body, low, high } => {
            // a body without copies isn't unfolded, whatever its size
            if has_no_copy(*high) {
                return Ok(EMPTY);
            }
            let part = unfold(names, fragments, depth, body, nodes)?;
            repeat(nodes, part, *low, *high)
        }
        Expr::Name(name) => match names.number_of(name) {
            Some(number) => unfold_definition(names, fragments, depth, number, nodes),
            None => Ok(EMPTY),
        },
    }
}

// Appends the nodes of the definition with this number.
#[cycle(unfold)]
fn unfold_definition<'s>(
    names: &Names<'s>,
    fragments: &[Option<Fragment<'s>>],
    depth: u8,
    number: usize,
    nodes: &mut Vec<Node<'s>>,
) -> Result<Part, AllocError>
    requires shallow { depth ≤ max_name_depth }
    requires fragments { AreFragments names.now.definitions.now fragments.now }
    ensures { IfOk result (λ part.
        UnfoldsName (map definition_view names.now.definitions.now) depth
        (tree_at names.now.definitions.now (Some number)) (nodes_view nodes.old.items)
        (nodes_view nodes.new.items) part) }
{
    if depth == 0 {
        return Ok(EMPTY);
    }
    let Some(definition) = names.definitions.get(number) else {
        return Ok(EMPTY);
    };
    match fragments.get(number) {
        Some(Some(fragment)) => append_fragment(fragment, nodes),
        _ => unfold(names, fragments, depth - 1, &definition.expr, nodes),
    }
}

// Appends a node for one byte of the set.
fn append_leaf<'s>(set: &'s ByteSet, nodes: &mut Vec<Node<'s>>) -> Result<Part, AllocError>
    ensures { IfOk result (λ part.
        Appends (leaf set.now) (nodes_view nodes.old.items) (nodes_view nodes.new.items) part) }
{
    nodes.push(Node::Leaf(set))?;
    Ok(Part {
        size: 1,
        nullable: false,
        repeated: false,
    })
}

// Appends the nodes of a fragment.
fn append_fragment<'s>(
    fragment: &Fragment<'s>,
    nodes: &mut Vec<Node<'s>>,
) -> Result<Part, AllocError>
    ensures nodes { OnOk result (nodes.new.items ≡ nodes.old.items ++ fragment.now.nodes.items) }
    ensures part { IfOk result (λ part. part ≡ fragment.now.part) }
{
    nodes.extend_from_slice(&fragment.nodes)?;
    Ok(fragment.part)
}
