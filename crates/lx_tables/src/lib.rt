//! Tables that drive a scanner: in memory, printed as text and read again.
#![tactic(auto)]

mod byte_values;
mod copying;
pub mod examples;
mod fault;
mod fields;
pub mod joined;
pub mod joining;
pub mod label;
mod lenient;
mod limits;
mod lines;
pub mod making;
pub mod printing;
mod raw;
pub mod read;
mod table_rule;
pub mod tables;
pub mod uniqueness;
mod version;
pub mod well_formed;
mod writing;

pub use crate::fault::TableFault;
pub use crate::fields::byte_at;
pub use crate::joined::{Joined, JoinedState, Transition, UNTOLD};
pub use crate::label::{ECHO_LABEL, kind_of_label, label_of};
pub use crate::lenient::read_leniently;
pub use crate::limits::has_limits;
pub use crate::raw::{RawFront, RawTables};
pub use crate::table_rule::TableRule;
pub use crate::tables::Tables;
pub use crate::version::Version;
pub use crate::writing::write_bytes;
pub use lx_automaton::State;
