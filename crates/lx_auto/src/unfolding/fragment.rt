//! Nodes of definitions. A definition is unfolded once and then copied.

use crate::unfolding::node::Node;
use crate::unfolding::part::Part;

/// The nodes of a name's definition.
#[derive(Drop)]
pub(crate) struct Fragment<'s> {
    pub(crate) nodes: Vec<Node<'s>>,
    pub(crate) part: Part,
}
