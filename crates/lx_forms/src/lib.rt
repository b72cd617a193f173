//! Other forms of a listing: names of files, chosen kinds alone, no texts, JSON.
#![tactic(auto)]

mod choosing;
mod form;
mod format;
mod json_laws;
mod json_lines;
mod laws;
mod name_list;
mod printing;
mod selection;
mod strings;
mod style;
mod text_lines;

pub use choosing::{ChoiceFault, choose};
pub use form::Form;
pub use format::Format;
pub use json_laws::{json_lines_are_objects, strings_are_utf8};
pub use laws::{bare_listings_are_listings, listings_join, words_select_by_kind};
pub use name_list::{NameListFault, push_names};
pub use printing::list_plan_in;
pub use selection::Selection;
pub use style::FormStyle;
