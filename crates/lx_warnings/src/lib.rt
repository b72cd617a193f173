//! Warns of what is suspicious in an accepted specification, or in a file for lex or flex.
#![tactic(auto)]

mod action;
mod allowing;
mod brackets;
mod branches;
mod escapes;
pub mod flex_file;
pub mod kinds;
mod layout;
mod lexemes;
mod never_chosen;
mod pattern;
mod skipped;
mod suspects;
mod suspicion;
mod untaken;
pub mod warnings;

pub use crate::flex_file::{warn_of_contexts, warn_of_tables};
pub use crate::kinds::{ALL, KindSet, WarningKind, kind_named, name_of};
pub use crate::untaken::untaken_bytes;
pub use crate::warnings::{Known, Warning, Warnings, warnings_of, warnings_of_rejected};
