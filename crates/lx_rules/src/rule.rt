//! Rules and their actions.

use crate::steps::Steps;
use lx_ere::expr::Pattern;

/// The kind of a token that an action returns (XCU `lex`, "Actions in lex": `return`).
#[derive(Debug, Clone, Copy, PartialEq, Eq)]
pub enum Kind {
    /// An identifier, by its place in the specification's list of kinds.
    Name(u32),
    /// A number below 2,147,483,648, or the byte of a character constant.
    Number(u32),
}

/// One step of an action.
#[derive(Debug, Clone, Copy, PartialEq, Eq)]
pub enum Step {
    /// `ECHO`: copies the matched text to the output.
    Echo,
    /// `BEGIN`: enters the start condition with this number.
    Begin(u16),
    /// `return`: returns a token of this kind.
    Return(Kind),
}

/// A rule: the conditions in which it is active, its pattern and its action.
#[derive(Drop)]
pub struct Rule {
    /// The line on which the rule begins, counted from 1.
    pub line: u32,
    /// Numbers of the conditions in which the rule is active, in ascending order. Without any, it is active in each inclusive condition.
    pub conditions: Option<Vec<u16>>,
    pub pattern: Pattern,
    /// Steps of the action in order. A return comes last. A rule whose action is that of the next rule shares its steps.
    pub action: Steps,
}
