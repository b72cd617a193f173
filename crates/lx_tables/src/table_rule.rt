//! Rules of tables.

use lx_rules::steps::Steps;

/// A rule: the steps of its action, and a flag that is true if it ends with `$`.
#[derive(Drop)]
pub struct TableRule {
    pub line_end: bool,
    pub steps: Steps,
}
