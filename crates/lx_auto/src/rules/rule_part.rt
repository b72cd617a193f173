//! Rules, with the data to follow their positions.

ghost use Rattle.std.specs.Prelude.{◌<◌};

use crate::rules::block::Block;
use crate::unfolding::node::Node;

/// A rule: the nodes of its expression, the blocks into which it is split, and the range of its positions.
#[derive(Drop)]
pub(crate) struct RulePart<'s> {
    pub(crate) nodes: Vec<Node<'s>>,
    /// Outline of the rule: an expression with a position for each block.
    pub(crate) outline: Vec<Node<'s>>,
    /// For each node of the outline, true if it matches the empty word.
    pub(crate) nulls: Vec<bool>,
    pub(crate) blocks: Vec<Block<'s>>,
    /// First position of the rule.
    pub(crate) base: usize,
    /// Number of positions of the pattern.
    pub(crate) count: usize,
    /// True if a newline comes after them, which is one more position.
    pub(crate) line_end: bool,
    pub ghost small: { base < 65536 },
    pub ghost few: { count < 65536 },
}
