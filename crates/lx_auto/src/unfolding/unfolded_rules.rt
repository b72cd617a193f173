//! The unfolded rules of a specification.

use crate::rules::rule_part::RulePart;

/// The parts of the rules, and the number of positions of all together.
#[derive(Drop)]
pub(crate) struct UnfoldedRules<'s> {
    pub(crate) parts: Vec<RulePart<'s>>,
    pub(crate) total: usize,
}
