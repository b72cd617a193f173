//! Reports on the text of a specification.

use crate::TextFault;
use lx_reach::Takers;
use lx_spec::Spec;
use lx_tables::Tables;

/// Sizes of an accepted text and of its tables.
#[derive(Debug, Clone, Copy, PartialEq, Eq)]
pub struct Counts {
    pub rules: u32,
    /// Number of definitions that rules reach.
    pub definitions: u32,
    /// Number of start conditions, including INITIAL.
    pub conditions: u32,
    /// Number of positions, at most 16,384.
    pub positions: u32,
    pub states: u32,
    /// Number of byte classes.
    pub classes: u32,
}

/// A text that is accepted.
#[derive(Drop)]
pub struct Accepted {
    /// The specification in the text.
    pub spec: Spec,
    pub tables: Tables,
    pub counts: Counts,
    /// For each rule, true if it is ever chosen.
    pub chosen: Vec<bool>,
    /// For each start condition, true if it is entered.
    pub entered: Vec<bool>,
    /// Rules that take the texts of rules that are never chosen, for the first 20 of these.
    pub takers: Vec<Takers>,
}

/// A report on the text of a specification.
#[derive(Drop)]
pub enum Report {
    /// The text is rejected for these faults. There is at least one, and the first one comes first.
    Refused(Vec<TextFault>),
    Accepted(Accepted),
}
