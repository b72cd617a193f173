//! Builds the automaton of a specification: its positions and the subset construction (McNaughton and Yamada 1960, Glushkov 1961).
#![tactic(auto)]

pub mod building;
mod drafting;
mod explore;
mod explored;
pub mod fault;
pub mod list_building;
mod list_numbers;
mod rules;
mod sets;
pub mod spelling;
mod unfolding;

pub use crate::building::{build, build_merged};
pub use crate::fault::{BuildFault, ListFault};
pub use crate::list_building::build_lists;
pub use crate::sets::spec_positions::count_positions;
pub use lx_automaton::{Automaton, ListAutomaton, RuleLists, State};
pub use lx_minimize::merge;
