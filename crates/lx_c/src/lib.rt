//! Prints a scanner in C from tables.
#![tactic(auto)]

mod actions;
mod declarations;
mod direct;
mod direct_templates;
mod driver;
mod fault;
pub mod judging;
mod kinds;
pub mod laws;
mod loops;
pub mod options;
pub mod printing;
pub mod pushing;
mod row_numbers;
mod rows;
mod state_code;
pub mod state_templates;
pub mod stepping;
mod targets;
mod templates;
mod words;

pub use crate::fault::{KindFault, OptionFault};
pub use crate::judging::{MAX_DIRECT_STATES, judge};
pub use crate::kinds::{first_kind, kind_name};
pub use crate::loops::push_marks;
pub use crate::options::Options;
pub use crate::printing::{header_of, scanner_of};
pub use crate::row_numbers::{greatest_word, rule_word, start_word, target_word};
pub use crate::state_code::push_state_codes;
