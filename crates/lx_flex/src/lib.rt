//! Brings specifications of flex over to specifications of `lx`.
#![tactic(auto)]

mod actions;
mod c_code;
mod checking;
pub mod conditions;
pub mod cursor;
pub mod definitions;
pub mod file;
pub mod flags;
pub mod importing;
pub mod judging;
pub mod lengths;
pub mod naming;
pub mod options;
mod printing;
pub mod report;
pub mod rules;
mod scopes;
pub mod tokens;
mod warning;

pub use crate::cursor::{FilePlace, TextRange};
pub use crate::importing::{ImportOptions, Imported, import};
pub use crate::judging::ImportedRule;
pub use crate::naming::ImportedDefinition;
pub use crate::report::{ImportCause, ImportFault, ImportReport, Reports, Taker};
