//! Numbers the positions of an expression's blocks, one after the other.

ghost use Rattle.std.specs.Prelude.{◌≡◌, ◌+◌, ◌<◌, ◌^◌, length, IfOk};
ghost use Rattle.lx_auto.specs.Blocks.{IsBlockOver, AreBlocksOver, leaf_total, is_sequence_node, are_sequence_nodes};
ghost use Rattle.lx_auto.specs.NodeLeaves.{leaves_in};
ghost use Rattle.lx_auto.specs.NodeViews.{node_view, nodes_view};
ghost use Rattle.lx_auto.specs.Chunks.{block_nodes};

use crate::rules::block::Block;
use crate::sets::marking::{next_position, nulls_of};
use crate::unfolding::node::Node;
use std::alloc::{AllocError, Global};

/// Returns the number of positions of the nodes.
pub(crate) fn count_leaves(nodes: &[Node]) -> usize
    requires { length nodes.now < 2 ^ 63 }
    ensures { result ≡ length (leaves_in (nodes_view nodes.now)) }
{
    let mut count = 0;
    for node in nodes {
        count = next_position(node, count);
    }
    count
}

fn is_leaf_or_joins(node: &Node) -> bool
    ensures { result ≡ is_sequence_node (node_view node.now) }
{
    match *node {
        Node::Leaf(_) | Node::Cat(_) => true,
        Node::Alt(_) | Node::Optional | Node::Repeated => false,
    }
}

// Returns true if the positions of the nodes form a sequence.
fn are_sequence(nodes: &[Node]) -> bool
    ensures { result ≡ are_sequence_nodes (nodes_view nodes.now) }
{
    let mut is_sequence = true;
    for node in nodes {
        is_sequence = is_sequence && is_leaf_or_joins(node);
    }
    is_sequence
}

// Makes a block whose positions are numbered from the base on.
fn block_of<'s>(alloc: Global, nodes: &[Node<'s>], base: usize) -> Result<Block<'s>, AllocError>
    requires small { base + length (leaves_in (nodes_view nodes.now)) < 2 ^ 32 }
    ensures { IfOk result (λ block. IsBlockOver block (nodes_view nodes.now) base) }
{
    let nulls = nulls_of(alloc, nodes)?;
    let count = count_leaves(nodes);
    let is_sequence = are_sequence(nodes);
    let own = Vec::from_slice(alloc, nodes)?;
    Ok(Block {
        nodes: own,
        nulls,
        base,
        count,
        is_sequence,
    })
}

/// Makes the blocks with these nodes.
pub(crate) fn number_blocks<'s>(
    alloc: Global,
    nodes: &[Vec<Node<'s>>],
    base: usize,
) -> Result<Vec<Block<'s>>, AllocError>
    requires { base + leaf_total (block_nodes nodes.now) < 2 ^ 32 }
    ensures { IfOk result (λ blocks. AreBlocksOver blocks.items (block_nodes nodes.now) base) }
{
    let mut blocks = Vec::new(alloc);
    let mut next = base;
    for i in 0..nodes.len() {
        let block = block_of(alloc, &nodes[i], next)?;
        next += block.count;
        blocks.push(block)?;
    }
    Ok(blocks)
}
