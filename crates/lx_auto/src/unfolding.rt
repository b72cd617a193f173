//! Unfolds expressions: names and counts are written out, so that each leaf is a position.

pub(crate) mod count;
pub(crate) mod definition_order;
pub(crate) mod fill;
pub(crate) mod fragment;
pub(crate) mod names;
pub(crate) mod node;
pub(crate) mod part;
pub(crate) mod repeat;
pub(crate) mod unfold;
pub(crate) mod unfolded_rules;
