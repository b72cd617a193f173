//! A table of position sets with their numbers.

use smallvec::SmallVec;
use std::collections::HashMap;

/// A set of positions, in ascending order.
pub(crate) type PositionSet = SmallVec<u16, 8>;

/// A list of rules, in ascending order. A table numbers these lists as it does sets.
pub(crate) type RuleList = PositionSet;

/// The sets in the order of their numbers, and the number of each.
#[derive(Drop)]
pub(crate) struct SetTable {
    pub(crate) sets: Vec<PositionSet>,
    pub(crate) numbers: HashMap<PositionSet, usize>,
}
