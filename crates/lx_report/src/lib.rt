//! Reports what `lx check` finds: as lines in the form of C compilers, and as SARIF 2.1.0.
#![tactic(auto)]

pub mod bytes;
mod errors;
pub mod finding;
pub mod flex_file;
pub mod lines;
mod ordering;
mod pieces;
mod repeated;
pub mod sarif;
mod sarif_report;
pub mod saying;
pub mod subject;
mod warnings;

pub use crate::flex_file::{NamedText, push_reports};
pub use crate::sarif_report::sarif_of;
pub use crate::saying::{Said, report_of};
pub use crate::subject::ReportSubject;
pub use bytes::{push_number, push_shown};
pub use finding::{Finding, ReportPlace, Severity};
pub use lines::{push_finding, push_marked};
pub use pieces::push_count;
pub use sarif::{push_result, push_sarif_end, push_sarif_start};
