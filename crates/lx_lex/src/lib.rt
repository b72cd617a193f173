//! Prints a scanner in C of a file for lex or flex, with the C of its actions.
#![tactic(auto)]

mod actions;
mod arrays;
pub mod backing_up;
pub mod forms;
pub mod laws;
mod list_arrays;
pub mod outline;
pub mod printing;
mod rule_code;
mod skeleton_calls;
mod skeleton_head;
mod skeleton_scan;
mod skeleton_states;
pub mod source_names;
mod state_code;
mod template;
pub mod translating;

pub use crate::backing_up::backup_of;
pub use crate::forms::{ScannerForm, asked_form, form_of};
pub use crate::outline::{FileOutline, MatchCut, split};
pub use crate::printing::{PrintOptions, ScannerTables, header_of, scanner_of};
pub use crate::source_names::{SourceName, place_in};
pub use crate::translating::{cut_specification_of, specification_of};
