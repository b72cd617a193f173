//! Positions of all rules, and sets of them.

pub(crate) mod all_matched;
pub(crate) mod bare;
pub(crate) mod follow;
pub(crate) mod groups;
pub(crate) mod leaf;
pub(crate) mod marking;
pub(crate) mod position_table;
pub(crate) mod set_numbering;
pub(crate) mod set_steps;
pub(crate) mod set_table;
pub(crate) mod spec_positions;
