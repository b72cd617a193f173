//! Deterministic automata over classes of bytes (Rabin and Scott 1959), and the order in which their states are printed.
#![tactic(auto)]

pub mod automaton;
pub mod classes;
pub mod draft;
pub mod lists;
mod reordering;
mod state_order;

pub use crate::automaton::{Automaton, State};
pub use crate::classes::with_byte_classes;
pub use crate::draft::AutomatonDraft;
pub use crate::lists::{ListAutomaton, RuleLists, first_rules_are_answers};
pub use crate::reordering::{accepted_of, classes_of, rows_of, starts_of};
pub use crate::state_order::{StateOrder, state_order_of};
