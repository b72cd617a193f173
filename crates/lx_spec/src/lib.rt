//! Reads specifications (POSIX.1-2017, XCU `lex`, "Input Files"): the first fault of a text, or the specification that it is.
#![tactic(auto)]

pub mod action;
pub mod block;
pub mod build;
pub mod bytes;
pub mod check;
pub mod constant;
pub mod definition_faults;
pub mod definition_index;
pub mod dictionary;
pub mod fault;
pub mod graph;
pub mod kind_index;
pub mod line;
pub mod parsed_sections;
pub mod prefix;
pub mod reach;
pub mod read;
pub mod resolved_rule;
pub mod returned_value;
pub mod rule_line;
pub mod section;
pub mod symbol_table;
pub mod word;

pub use crate::fault::{Code, SpecFault};
pub use crate::read::read_spec;
pub use lx_rules::{Condition, Definition, Kind, Rule, Spec, Step, Steps};
