//! Checks the text of a specification: finds its faults or, if it is accepted, the rules that are never chosen.
#![tactic(auto)]

pub mod checking;
mod further;
pub mod report;
mod takers;
pub mod text_fault;
pub mod verdict;
pub mod without;

pub use crate::checking::check;
pub use crate::report::{Accepted, Counts, Report};
pub use crate::text_fault::TextFault;
pub use crate::verdict::{read, tables_of};
