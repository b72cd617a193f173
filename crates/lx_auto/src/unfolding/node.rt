//! Nodes of unfolded expressions, in post-order.

use lx_ere::set::ByteSet;

/// A node. Its only child, or its right one, comes before it, and the left one before that.
#[derive(Clone, Copy)]
pub(crate) enum Node<'s> {
    /// One byte of the set.
    Leaf(&'s ByteSet),
    /// The left child, then the right one, which has this number of nodes.
    Cat(usize),
    /// Either child. The right one has this number of nodes.
    Alt(usize),
    /// The child, or the empty word.
    Optional,
    /// One or more of the child.
    Repeated,
}
