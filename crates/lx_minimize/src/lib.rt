//! Merges the states of an automaton to the fewest (Moore 1956, Hopcroft 1971).
#![tactic(auto)]

mod bounds;
mod candidates;
mod complete;
mod members;
pub mod merging;
mod moving;
mod partition;
mod predecessors;
mod quotient;
mod split;
mod worklist;

pub use crate::merging::merge;
pub use complete::{Complete, completion_of, step};
pub use partition::{Partition, by_labels};
