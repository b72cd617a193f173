//! Reads the patterns of flex and prints patterns of `lx` that match the same texts.
#![tactic(auto)]

mod bounds;
mod brackets;
pub mod fault;
pub mod flags;
mod interval;
mod lexing;
pub mod mirror;
pub mod names;
pub mod options;
mod printing;
pub mod reading;
mod sets;
mod spelling;
pub mod translation;

pub use crate::fault::PatternFault;
pub use crate::names::{NamedPattern, NamedPatterns};
pub use crate::options::PatternOptions;
pub use crate::reading::{PatternReading, read_pattern};
pub use crate::translation::{has_same_texts, is_read_as, translate, translate_substitute};
