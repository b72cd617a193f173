//! Splits expressions into blocks of few nodes. If a set of positions touches few blocks, only these are visited.

ghost use Rattle.std.specs.Prelude.{◌≡◌, ◌++◌, [], true, List, IfOk, OnOk, reverse};
ghost use Rattle.lx_auto.specs.Unfolded.{Unfolded, leaf};
ghost use Rattle.lx_auto.specs.Nodes.{nodes_of};
ghost use Rattle.lx_auto.specs.NodeViews.{node_view, nodes_view};
ghost use Rattle.lx_auto.specs.Outlines.{outline_of_block};
ghost use Rattle.lx_auto.specs.Passing.{HasNoEmptyPart, IsSimplified};
ghost use Rattle.lx_auto.specs.Chunks as plain;
ghost use Rattle.lx_auto.specs.Chunks.{IsSingleBlockOf, IsOutlinedOf, IsGrowingChunkOf, IsChunkOf, AreChunks, IsPopped, binary_expression, unary_expression, binary_step, unary_step, tree_step, IsSplitOf};

use crate::rules::chunk::{
    BinaryOperator, Chunk, GrowingChunk, Outlined, SingleBlock, UnaryOperator,
};
use crate::sets::marking::{flag, nulls_of};
use crate::unfolding::node::Node;
use lx_ere::set::ByteSet;
use std::alloc::{AllocError, Global};

/// Greatest number of nodes of a block.
const BLOCK: usize = 512;

fn binary_node(operator: BinaryOperator, right: usize) -> Node<'static>
    ensures { node_view result ≡ plain.binary_node operator right }
{
    match operator {
        BinaryOperator::Concatenation => Node::Cat(right),
        BinaryOperator::Alternation => Node::Alt(right),
    }
}

fn binary_null(operator: BinaryOperator, left: bool, right: bool) -> bool
    ensures { result ≡ plain.binary_null operator left right }
{
    match operator {
        BinaryOperator::Concatenation => left && right,
        BinaryOperator::Alternation => left || right,
    }
}

fn unary_node(operator: UnaryOperator) -> Node<'static>
    ensures { node_view result ≡ plain.unary_node operator }
{
    match operator {
        UnaryOperator::Optional => Node::Optional,
        UnaryOperator::OneOrMore => Node::Repeated,
    }
}

fn unary_null(operator: UnaryOperator, body: bool) -> bool
    ensures { result ≡ plain.unary_null operator body }
{
    match operator {
        UnaryOperator::Optional => true,
        UnaryOperator::OneOrMore => body,
    }
}

// Makes the outline of one block: a leaf, which is optional if the block matches the empty word.
fn outline_nodes<'s>(
    alloc: Global,
    placeholder_set: &'s ByteSet,
    nullable: bool,
) -> Result<Vec<Node<'s>>, AllocError>
    ensures { IfOk result (λ nodes.
        nodes_view nodes.items ≡ nodes_of (outline_of_block placeholder_set.now nullable)) }
{
    let mut outline = Vec::new(alloc);
    outline.push(Node::Leaf(placeholder_set))?;
    if nullable {
        outline.push(Node::Optional)?;
    }
    Ok(outline)
}

// Wraps one block as a split expression.
fn outline_single_block<'s>(
    alloc: Global,
    block: SingleBlock<'s>,
) -> Result<Outlined<'s>, AllocError>
    ensures { (e : Unfolded) → IsSingleBlockOf block.entry e → IfOk result (λ o. IsOutlinedOf o e) }
{
    let outline = outline_nodes(alloc, block.placeholder_set, block.nullable)?;
    let mut blocks = Vec::new(alloc);
    blocks.push(block.nodes)?;
    Ok(Outlined { outline, blocks })
}

// Appends blocks.
fn push_blocks<'s>(
    blocks: &mut Vec<Vec<Node<'s>>>,
    more: Vec<Vec<Node<'s>>>,
) -> Result<(), AllocError>
    ensures { OnOk result (blocks.new.items ≡ blocks.old.items ++ more.entry.items) }
{
    for nodes in more {
        blocks.push(nodes)?;
    }
    Ok(())
}

// Joins two split expressions.
fn join_outlined<'s>(
    operator: BinaryOperator,
    mut left: Outlined<'s>,
    right: Outlined<'s>,
) -> Result<Outlined<'s>, AllocError>
    ensures { (a b : Unfolded) → IsOutlinedOf left.entry a → IsOutlinedOf right.entry b
        → IfOk result (λ o. IsOutlinedOf o (binary_expression operator a b)) }
{
    let node = binary_node(operator, right.outline.len());
    left.outline.extend_from_slice(&right.outline)?;
    left.outline.push(node)?;
    push_blocks(&mut left.blocks, right.blocks)?;
    Ok(left)
}

// Joins two blocks to one.
fn join_single_blocks<'s>(
    operator: BinaryOperator,
    mut left: SingleBlock<'s>,
    right: SingleBlock<'s>,
) -> Result<SingleBlock<'s>, AllocError>
    ensures { (a b : Unfolded) → IsSingleBlockOf left.entry a → IsSingleBlockOf right.entry b
        → IfOk result (λ w. IsSingleBlockOf w (binary_expression operator a b)) }
{
    let node = binary_node(operator, right.nodes.len());
    left.nodes.extend_from_slice(&right.nodes)?;
    left.nodes.push(node)?;
    left.nullable = binary_null(operator, left.nullable, right.nullable);
    Ok(left)
}

// Makes the outline of an expression with a first block.
fn outline_growing<'s>(alloc: Global, growing: GrowingChunk<'s>) -> Result<Outlined<'s>, AllocError>
    ensures { (e : Unfolded) → IsGrowingChunkOf growing.entry e
        → IfOk result (λ o. IsOutlinedOf o e) }
{
    let first = outline_single_block(alloc, growing.first)?;
    join_outlined(growing.operator, first, growing.rest)
}

// Makes the outline of an expression.
fn outline<'s>(alloc: Global, chunk: Chunk<'s>) -> Result<Outlined<'s>, AllocError>
    ensures { (e : Unfolded) → IsChunkOf chunk.entry e → IfOk result (λ o. IsOutlinedOf o e) }
{
    match chunk {
        Chunk::Small(block) => outline_single_block(alloc, block),
        Chunk::Large(outlined) => Ok(outlined),
        Chunk::Growing(growing) => outline_growing(alloc, growing),
    }
}

// Returns true if two blocks are to become one.
fn fit_together(left: &SingleBlock, right: &SingleBlock) -> bool {
    left.nodes.len().saturating_add(right.nodes.len()) < BLOCK
}

fn are_same(one: BinaryOperator, other: BinaryOperator) -> bool
    ensures { result ≡ true → one ≡ other }
{
    match one {
        BinaryOperator::Concatenation => match other {
            BinaryOperator::Concatenation => true,
            BinaryOperator::Alternation => false,
        },
        BinaryOperator::Alternation => match other {
            BinaryOperator::Concatenation => false,
            BinaryOperator::Alternation => true,
        },
    }
}

// Prepends a block to a split expression.
fn prepend<'s>(
    operator: BinaryOperator,
    first: SingleBlock<'s>,
    rest: Outlined<'s>,
) -> GrowingChunk<'s>
    ensures { (a b : Unfolded) → IsSingleBlockOf first.entry a → IsOutlinedOf rest.entry b
        → IsGrowingChunkOf result (binary_expression operator a b) }
{
    GrowingChunk {
        operator,
        first,
        rest,
    }
}

// Prepends a block to an expression with a first block. The two blocks may become one.
fn prepend_to_growing<'s>(
    alloc: Global,
    operator: BinaryOperator,
    left: SingleBlock<'s>,
    right: GrowingChunk<'s>,
) -> Result<GrowingChunk<'s>, AllocError>
    ensures { (a b : Unfolded) → IsSingleBlockOf left.entry a → IsGrowingChunkOf right.entry b
        → IfOk result (λ l. IsGrowingChunkOf l (binary_expression operator a b)) }
{
    if !are_same(right.operator, operator) || !fit_together(&left, &right.first) {
        let rest = outline_growing(alloc, right)?;
        return Ok(prepend(operator, left, rest));
    }
    let first = join_single_blocks(right.operator, left, right.first)?;
    Ok(GrowingChunk {
        operator: right.operator,
        first,
        rest: right.rest,
    })
}

// Joins a block and another expression.
fn join_small<'s>(
    alloc: Global,
    operator: BinaryOperator,
    left: SingleBlock<'s>,
    right: Chunk<'s>,
) -> Result<Chunk<'s>, AllocError>
    ensures { (a b : Unfolded) → IsSingleBlockOf left.entry a → IsChunkOf right.entry b
        → IfOk result (λ p. IsChunkOf p (binary_expression operator a b)) }
{
    match right {
        Chunk::Small(second) => {
            if fit_together(&left, &second) {
                let joined = join_single_blocks(operator, left, second)?;
                return Ok(Chunk::Small(joined));
            }
            let rest = outline_single_block(alloc, second)?;
            Ok(Chunk::Growing(prepend(operator, left, rest)))
        }
        Chunk::Large(rest) => Ok(Chunk::Growing(prepend(operator, left, rest))),
        Chunk::Growing(growing) => {
            let joined = prepend_to_growing(alloc, operator, left, growing)?;
            Ok(Chunk::Growing(joined))
        }
    }
}

// Joins a split expression and another one.
fn join_large<'s>(
    alloc: Global,
    operator: BinaryOperator,
    left: Outlined<'s>,
    right: Chunk<'s>,
) -> Result<Chunk<'s>, AllocError>
    ensures { (a b : Unfolded) → IsOutlinedOf left.entry a → IsChunkOf right.entry b
        → IfOk result (λ p. IsChunkOf p (binary_expression operator a b)) }
{
    let second = outline(alloc, right)?;
    let joined = join_outlined(operator, left, second)?;
    Ok(Chunk::Large(joined))
}

// Joins two expressions.
fn join<'s>(
    alloc: Global,
    operator: BinaryOperator,
    left: Chunk<'s>,
    right: Chunk<'s>,
) -> Result<Chunk<'s>, AllocError>
    ensures { (a b : Unfolded) → IsChunkOf left.entry a → IsChunkOf right.entry b
        → IfOk result (λ p. IsChunkOf p (binary_expression operator a b)) }
{
    match left {
        Chunk::Small(first) => join_small(alloc, operator, first, right),
        Chunk::Large(first) => join_large(alloc, operator, first, right),
        Chunk::Growing(growing) => {
            let first = outline_growing(alloc, growing)?;
            join_large(alloc, operator, first, right)
        }
    }
}

// Adds a node above a block.
fn extend_single_block<'s>(
    operator: UnaryOperator,
    mut block: SingleBlock<'s>,
) -> Result<SingleBlock<'s>, AllocError>
    ensures { (a : Unfolded) → IsSingleBlockOf block.entry a
        → IfOk result (λ w. IsSingleBlockOf w (unary_expression operator a)) }
{
    block.nodes.push(unary_node(operator))?;
    block.nullable = unary_null(operator, block.nullable);
    Ok(block)
}

// Adds a node above a split expression.
fn extend_outlined<'s>(
    operator: UnaryOperator,
    mut body: Outlined<'s>,
) -> Result<Outlined<'s>, AllocError>
    ensures { (a : Unfolded) → IsOutlinedOf body.entry a
        → IfOk result (λ o. IsOutlinedOf o (unary_expression operator a)) }
{
    body.outline.push(unary_node(operator))?;
    Ok(body)
}

// Adds a node above an expression.
fn extend<'s>(
    alloc: Global,
    operator: UnaryOperator,
    body: Chunk<'s>,
) -> Result<Chunk<'s>, AllocError>
    ensures { (a : Unfolded) → IsChunkOf body.entry a
        → IfOk result (λ p. IsChunkOf p (unary_expression operator a)) }
{
    match body {
        Chunk::Small(block) => {
            let extended = extend_single_block(operator, block)?;
            Ok(Chunk::Small(extended))
        }
        Chunk::Large(outlined) => {
            let extended = extend_outlined(operator, outlined)?;
            Ok(Chunk::Large(extended))
        }
        Chunk::Growing(growing) => {
            let outlined = outline_growing(alloc, growing)?;
            let extended = extend_outlined(operator, outlined)?;
            Ok(Chunk::Large(extended))
        }
    }
}

// Makes the expression of one leaf.
fn leaf_chunk<'s>(alloc: Global, set: &'s ByteSet) -> Result<Chunk<'s>, AllocError>
    ensures { IfOk result (λ p. IsChunkOf p (leaf set.now)) }
{
    let mut nodes = Vec::new(alloc);
    nodes.push(Node::Leaf(set))?;
    Ok(Chunk::Small(SingleBlock {
        placeholder_set: set,
        nullable: false,
        nodes,
    }))
}

// Removes the last expression.
fn pop_chunk<'s>(chunks: &mut Vec<Chunk<'s>>) -> Option<Chunk<'s>>
    ensures { (trees : List Unfolded) → AreChunks (reverse chunks.old.items) trees
        → IsPopped trees (reverse chunks.new.items) result }
{
    chunks.pop()
}

// Adds a node above the last two expressions.
fn add_binary<'s>(
    alloc: Global,
    operator: BinaryOperator,
    chunks: &mut Vec<Chunk<'s>>,
) -> Result<(), AllocError>
    ensures { (trees : List Unfolded) → AreChunks (reverse chunks.old.items) trees
        → OnOk result (AreChunks (reverse chunks.new.items)
        (binary_step (binary_expression operator) trees)) }
{
    let Some(right) = pop_chunk(chunks) else {
        return Ok(());
    };
    let Some(left) = pop_chunk(chunks) else {
        return Ok(());
    };
    let joined = join(alloc, operator, left, right)?;
    chunks.push(joined)?;
    Ok(())
}

// Adds a node above the last expression.
fn add_unary<'s>(
    alloc: Global,
    operator: UnaryOperator,
    chunks: &mut Vec<Chunk<'s>>,
) -> Result<(), AllocError>
    ensures { (trees : List Unfolded) → AreChunks (reverse chunks.old.items) trees → OnOk result
        (AreChunks (reverse chunks.new.items) (unary_step (unary_expression operator) trees)) }
{
    let Some(body) = pop_chunk(chunks) else {
        return Ok(());
    };
    let extended = extend(alloc, operator, body)?;
    chunks.push(extended)?;
    Ok(())
}

// Adds one node.
fn add_node<'s>(
    alloc: Global,
    node: &Node<'s>,
    chunks: &mut Vec<Chunk<'s>>,
) -> Result<(), AllocError>
    ensures { (trees : List Unfolded) → AreChunks (reverse chunks.old.items) trees → OnOk result
        (AreChunks (reverse chunks.new.items) (tree_step (node_view node.now) trees)) }
{
    match *node {
        Node::Leaf(set) => {
            let chunk = leaf_chunk(alloc, set)?;
            chunks.push(chunk)?;
            Ok(())
        }
        Node::Cat(_) => add_binary(alloc, BinaryOperator::Concatenation, chunks),
        Node::Alt(_) => add_binary(alloc, BinaryOperator::Alternation, chunks),
        Node::Optional => add_unary(alloc, UnaryOperator::Optional, chunks),
        Node::Repeated => add_unary(alloc, UnaryOperator::OneOrMore, chunks),
    }
}

// Returns the expressions that the nodes form.
fn chunks_of<'s>(alloc: Global, nodes: &[Node<'s>]) -> Result<Vec<Chunk<'s>>, AllocError>
    ensures { IfOk result
        (λ chunks. AreChunks (reverse chunks.items) (plain.trees_from (nodes_view nodes.now) [])) }
{
    let mut chunks = Vec::new(alloc);
    for node in nodes {
        add_node(alloc, node, &mut chunks)?;
    }
    Ok(chunks)
}

// Splits an expression into blocks wherever it has too many nodes for one.
fn split_by_size<'s>(alloc: Global, nodes: &[Node<'s>]) -> Result<Outlined<'s>, AllocError>
    ensures { (e : Unfolded) → nodes_view nodes.now ≡ nodes_of e → IsSimplified e
        → IfOk result (λ o. IsSplitOf o e) }
{
    let mut chunks = chunks_of(alloc, nodes)?;
    match pop_chunk(&mut chunks) {
        Some(chunk) => outline(alloc, chunk),
        None => Ok(Outlined {
            outline: Vec::new(alloc),
            blocks: Vec::new(alloc),
        }),
    }
}

// Keeps an expression as one block, regardless of its number of nodes.
fn keep_single_block<'s>(
    alloc: Global,
    placeholder_set: &'s ByteSet,
    nodes: &[Node<'s>],
) -> Result<Outlined<'s>, AllocError>
    ensures { (e : Unfolded) → nodes_view nodes.now ≡ nodes_of e → HasNoEmptyPart e
        → IfOk result (λ o. IsOutlinedOf o e) }
{
    let nulls = nulls_of(alloc, nodes)?;
    let nullable = flag(&nulls, nulls.len().saturating_sub(1));
    let own = Vec::from_slice(alloc, nodes)?;
    let block = SingleBlock {
        placeholder_set,
        nullable,
        nodes: own,
    };
    outline_single_block(alloc, block)
}

/// Splits an expression into blocks. It stays one block if its outline would have more than half of its number of nodes.
pub(crate) fn split_into_blocks<'s>(
    alloc: Global,
    nodes: &[Node<'s>],
) -> Result<Outlined<'s>, AllocError>
    ensures { (e : Unfolded) → nodes_view nodes.now ≡ nodes_of e → IsSimplified e
        → IfOk result (λ o. IsSplitOf o e) }
{
    let apart = split_by_size(alloc, nodes)?;
    if nodes.len() <= BLOCK || apart.outline.len() <= nodes.len() / 2 {
        return Ok(apart);
    }
    match nodes[0] {
        Node::Leaf(set) => keep_single_block(alloc, set, nodes),
        _ => Ok(apart),
    }
}
