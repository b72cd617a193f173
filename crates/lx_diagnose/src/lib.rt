//! Explains why a specification is refused: from a code and a line to a cause, a place and words.
#![tactic(auto)]

mod action_cause;
mod body_cause;
mod brace_cause;
mod bracket_cause;
pub mod causes;
mod condition_cause;
mod depth;
pub mod diagnosing;
mod escape_cause;
pub mod explaining;
mod found;
mod general;
mod line_cause;
pub mod lines;
mod name_cause;
mod names;
pub mod naming;
mod open_cause;
mod outline;
mod pattern_cause;
pub mod phrases;
pub mod places;
mod prefix_cause;
pub mod scan;
mod section_cause;
pub mod sectioning;
pub mod similar;
pub mod table_text;
pub mod topic;
mod topics;
pub mod wording;
pub mod words;

pub use crate::causes::Cause;
pub use crate::diagnosing::{Diagnosis, diagnose};
pub use crate::explaining::{advice_of, all_topics, explain, words_of};
pub use crate::lines::line_bytes;
pub use crate::naming::name_of;
pub use crate::phrases::note_words;
pub use crate::places::{Span, TextPlace};
pub use crate::similar::Nearest;
pub use crate::table_text::{TableCause, table_cause, table_sentence, table_topic};
pub use crate::topic::{code_word, hint, topic_of};
pub use crate::wording::sentence;
