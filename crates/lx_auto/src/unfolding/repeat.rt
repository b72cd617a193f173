//! Writes repeats out.

ghost use Rattle.std.specs.Prelude.{◌≡◌, ◌↔◌, ◌-◌, ◌<◌, ◌≤◌, false, ◌++◌, drop, length, IsTrue, IfOk, OnOk};
ghost use Rattle.lx_auto.specs.Simplified.{simplified_counted, simplified_unbounded, simplified_repeated};
ghost use Rattle.lx_auto.specs.NodeViews.{nodes_view, Joins, Changes};
ghost use Rattle.lx_auto.specs.Copies.{copies, is_no_copy, joined_as};

use crate::unfolding::node::Node;
use crate::unfolding::part::{EMPTY, Part, join, one_or_more, optional};
use std::alloc::AllocError;

// Appends `times` more copies of the last nodes.
fn append_copies(nodes: &mut Vec<Node<'_>>, size: usize, times: u8) -> Result<(), AllocError>
    ensures { OnOk result (nodes.new.items ≡ nodes.old.items
        ++ copies times (drop (length nodes.old.items - size) nodes.old.items)) }
{
    let end = nodes.as_slice().len();
    let start = end.saturating_sub(size);
    for _copy in 0..times {
        nodes.extend_from_within(start..end)?;
    }
    Ok(())
}

// Joins the body and then the copies after it. All of it is optional unless it is required.
fn close_copy(
    nodes: &mut Vec<Node<'_>>,
    body: Part,
    behind: Part,
    is_required: bool,
) -> Result<Part, AllocError>
    ensures { IfOk result (λ part.
        Joins (joined_as is_required) (nodes_view nodes.old.items) (nodes_view nodes.new.items)
        body behind part) }
{
    let both = join(nodes, body, behind)?;
    if is_required {
        Ok(both)
    } else {
        optional(nodes, both)
    }
}

// Returns true if the next copy is required, after `closed` copies are closed.
fn is_required(low: u8, high: u8, closed: u8) -> bool
    requires { closed < high }
    ensures { IsTrue result ↔ (high - closed ≤ low) }
{
    high - closed <= low
}

// Writes out `high` copies of the body. The first `low` are required, and each other one is optional after the one before.
fn repeat_counted(
    nodes: &mut Vec<Node<'_>>,
    body: Part,
    low: u8,
    high: u8,
) -> Result<Part, AllocError>
    requires { 0 < high }
    ensures { IfOk result (λ part.
        Changes (λ r. simplified_counted r low high) (nodes_view nodes.old.items)
        (nodes_view nodes.new.items) body part) }
{
    append_copies(nodes, body.size, high - 1)?;
    let mut behind = EMPTY;
    for closed in 0..high {
        behind = close_copy(nodes, body, behind, is_required(low, high, closed))?;
    }
    Ok(behind)
}

// Writes out `low` copies of the body, at least one, and repeats the last one.
fn repeat_unbounded(nodes: &mut Vec<Node<'_>>, body: Part, low: u8) -> Result<Part, AllocError>
    requires { 0 < low }
    ensures { IfOk result (λ part.
        Changes (λ r. simplified_unbounded r (low - 1)) (nodes_view nodes.old.items)
        (nodes_view nodes.new.items) body part) }
{
    append_copies(nodes, body.size, low - 1)?;
    let mut behind = one_or_more(nodes, body)?;
    for _closed in 0..low - 1 {
        behind = join(nodes, body, behind)?;
    }
    Ok(behind)
}

/// Returns true if a repeat with this bound has no copies.
pub(crate) fn has_no_copy(high: Option<u8>) -> bool
    ensures { result ≡ is_no_copy high }
{
    match high {
        Some(high) => high == 0,
        None => false,
    }
}

/// Writes the body out for each repetition.
pub(crate) fn repeat(
    nodes: &mut Vec<Node<'_>>,
    body: Part,
    low: u8,
    high: Option<u8>,
) -> Result<Part, AllocError>
    requires { is_no_copy high ≡ false }
    ensures { IfOk result (λ part.
        Changes (λ r. simplified_repeated r low high) (nodes_view nodes.old.items)
        (nodes_view nodes.new.items) body part) }
{
    match high {
        Some(high) => repeat_counted(nodes, body, low, high),
        None if low == 0 => {
            let once = one_or_more(nodes, body)?;
            optional(nodes, once)
        }
        None => repeat_unbounded(nodes, body, low),
    }
}
