//! Makes the lines of a listing.
#![tactic(auto)]

mod buffer;
mod decimals;
mod draft;
mod escape;
mod fields;
mod lines;
mod place;
mod plain;
mod prefixes;
mod shared;
mod style;
mod texts;

pub use buffer::LineBuffer;
pub use draft::Draft;
pub use escape::{Escape, NameEscape, TextEscape};
pub use fields::{Digits, Numbers, RestParts, kind_of, numbers_of, place_fields, place_small};
pub use lines::{PlanDraft, push_each, push_lines};
pub use place::{place_4, place_16, place_all, place_byte};
pub use plain::{
    PlainStyle, place_kind, push_field, push_kind, push_line, push_line_with, push_number,
    push_text,
};
pub use prefixes::Prefixes;
pub use shared::place_number;
pub use style::{LinePrefix, LineStyle};
pub use texts::{place_any_text, place_text};
