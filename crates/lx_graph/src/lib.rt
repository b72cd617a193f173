//! Prints the automaton of tables as a graph for Graphviz, in DOT.
#![tactic(auto)]

mod edges;
pub mod graph;
mod labels;
mod nodes;

pub use crate::graph::graph_of;
