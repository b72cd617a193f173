//! Parts of an expression that is being split into blocks.

use crate::unfolding::node::Node;
use lx_ere::set::ByteSet;

/// The operator of a node above two expressions.
#[derive(Clone, Copy)]
pub(crate) enum BinaryOperator {
    /// The first expression, and then the other one.
    Concatenation,
    /// One expression or the other.
    Alternation,
}

/// The operator of a node above one expression.
#[derive(Clone, Copy)]
pub(crate) enum UnaryOperator {
    /// The expression or the empty word.
    Optional,
    /// One or more of the expression.
    OneOrMore,
}

/// An expression that is one block.
#[derive(Drop)]
pub(crate) struct SingleBlock<'s> {
    /// Set of its first leaf, which represents it in outlines.
    pub(crate) placeholder_set: &'s ByteSet,
    /// True if it matches the empty word.
    pub(crate) nullable: bool,
    pub(crate) nodes: Vec<Node<'s>>,
}

/// An expression split into blocks.
#[derive(Drop)]
pub(crate) struct Outlined<'s> {
    /// Nodes of its outline, in which each block is a leaf.
    pub(crate) outline: Vec<Node<'s>>,
    /// Nodes of each block.
    pub(crate) blocks: Vec<Vec<Node<'s>>>,
}

/// An expression whose first block may still grow at its front.
#[derive(Drop)]
pub(crate) struct GrowingChunk<'s> {
    /// Operator between the first block and the rest.
    pub(crate) operator: BinaryOperator,
    pub(crate) first: SingleBlock<'s>,
    pub(crate) rest: Outlined<'s>,
}

/// An expression that is one block, or split into several.
#[derive(Drop)]
pub(crate) enum Chunk<'s> {
    /// An expression with few nodes.
    Small(SingleBlock<'s>),
    /// An expression with more nodes.
    Large(Outlined<'s>),
    /// An expression with more nodes, whose first block isn't full.
    Growing(GrowingChunk<'s>),
}
