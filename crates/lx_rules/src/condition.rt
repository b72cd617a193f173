//! Start conditions.

/// A start condition (XCU `lex`, "Definitions in lex": `%s` and `%x`).
#[derive(Drop)]
pub struct Condition {
    pub name: Vec<u8>,
    /// True if only rules that name the condition are active in it.
    pub exclusive: bool,
}
