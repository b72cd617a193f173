//! Reads the extended regular expressions of `lex` as trees (POSIX.1-2017, XBD 9.4; XCU `lex`, "Regular Expressions in lex").
#![tactic(auto)]

pub mod bracket;
pub mod escape;
pub mod expr;
pub mod extent;
pub mod fault;
pub mod groups;
pub mod lexeme;
pub mod name;
pub mod prefix;
pub mod read;
pub mod set;

pub use crate::expr::{Expr, Pattern};
pub use crate::extent::pattern_end;
pub use crate::fault::EreFault;
pub use crate::read::{read_pattern, read_substitute};
pub use crate::set::ByteSet;
