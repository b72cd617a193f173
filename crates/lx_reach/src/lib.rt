//! Finds the rules that a scanner can choose, the start conditions that it can enter, and the states that texts lead to.
#![tactic(auto)]

pub mod ahead;
pub mod chosen;
pub mod contexts;
pub mod entered;
pub mod met;
pub mod reached;
pub mod ruling;
pub mod takers;
pub mod untaken;

pub use crate::ahead::{FarAhead, far_ahead};
pub use crate::chosen::{chosen_in, chosen_rules, never_chosen};
pub use crate::contexts::{EmptyParts, is_dangerous};
pub use crate::entered::entered_conditions;
pub use crate::takers::{Takers, takers_of};
pub use crate::untaken::is_default_chosen;
