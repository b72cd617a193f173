//! The positions of a specification before sets of them are reached.

ghost use Rattle.std.specs.Prelude.{◌≤◌};

use crate::rules::rule_part::RulePart;
use crate::sets::groups::ByteGroups;
use crate::sets::leaf::Leaf;

/// The positions of all rules.
#[derive(Drop)]
pub(crate) struct PositionTable<'s> {
    pub(crate) parts: Vec<RulePart<'s>>,
    /// Number of positions.
    pub(crate) total: usize,
    pub(crate) leaves: Vec<Leaf<'s>>,
    pub(crate) groups: ByteGroups,
    pub ghost small: { total ≤ 65536 },
}
