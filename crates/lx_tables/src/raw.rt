//! The lists of tables that were read and not yet tested.

use crate::table_rule::TableRule;

/// The part that both versions of the text have.
#[derive(Drop)]
pub struct RawFront {
    /// For each condition, the state without line begin and the state at line begin.
    pub starts: Vec<(u32, u32)>,
    /// Names of the kinds.
    pub kinds: Vec<Vec<u8>>,
    pub rules: Vec<TableRule>,
}

/// The lists of tables. An encoded option is 0 for nothing, or one more than the number.
#[derive(Drop)]
pub struct RawTables {
    /// For each condition, the state without line begin and the state at line begin.
    pub starts: Vec<(u32, u32)>,
    /// Class of each byte.
    pub classes: Vec<u8>,
    /// Number of classes.
    pub width: usize,
    /// For each state, the encoded option of the rule that it accepts.
    pub accepted: Vec<u16>,
    /// Encoded options of the states' targets, row by row.
    pub targets: Vec<u16>,
    /// Names of the kinds.
    pub kinds: Vec<Vec<u8>>,
    pub rules: Vec<TableRule>,
}
