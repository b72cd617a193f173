//! Says what a specification means (POSIX.1-2017, XCU `lex`): its conditions, definitions, rules and steps, and the rule that a scanner chooses.
#![tactic(auto)]

pub mod active;
pub mod condition;
pub mod definition;
pub mod identifier;
pub mod limits;
pub mod name_table;
pub mod rule;
pub mod spec;
pub mod steps;
pub mod well_formed;

pub use crate::condition::Condition;
pub use crate::definition::Definition;
pub use crate::rule::{Kind, Rule, Step};
pub use crate::spec::Spec;
pub use crate::steps::Steps;
