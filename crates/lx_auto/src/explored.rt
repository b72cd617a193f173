//! Results of the exploration.

use crate::sets::set_table::SetTable;

/// The position sets that were reached, the steps of all states, and the rule that each set matches.
#[derive(Drop)]
pub(crate) struct Explored {
    pub(crate) table: SetTable,
    /// For each state and each group of bytes, the number of the set to which the step leads. The rows of the starts come first, for each condition
    /// without and then at line begin. Then come the rows of the sets.
    pub(crate) targets: Vec<Option<usize>>,
    /// For each set, the rule that it matches.
    pub(crate) matched: Vec<Option<usize>>,
}
