//! Blocks: parts of a rule's expression, with the data to follow their positions.

ghost use Rattle.std.specs.Prelude.{◌<◌, ◌^◌};

use crate::unfolding::node::Node;

/// A block: its nodes, a flag for each node that matches the empty word, and the range of its positions.
#[derive(Drop)]
pub(crate) struct Block<'s> {
    pub(crate) nodes: Vec<Node<'s>>,
    pub(crate) nulls: Vec<bool>,
    /// First position of the block.
    pub(crate) base: usize,
    /// Number of positions of the block.
    pub(crate) count: usize,
    /// True if its positions form a sequence: no part of it is an alternative, optional or repeated.
    pub(crate) is_sequence: bool,
    pub ghost small: { base < 2 ^ 32 },
    pub ghost few: { count < 2 ^ 32 },
}
