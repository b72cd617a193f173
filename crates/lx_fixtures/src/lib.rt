//! Specifications, plans and pieces that the tests share.
#![tactic(auto)]

mod items;
mod pieces;
mod plans;
mod readers;
mod rules;

pub use items::{echo, token};
pub use pieces::{among_strangers, first_piece, piece};
pub use plans::{NoPlan, inputs, last_file_first, mixed_plan, plan_of, tables_of};
pub use readers::take_first;
pub use rules::{
    MIXED_FILES, MIXED_LISTING, MIXED_RULES, NO_RULES, NO_RULES_TEXTS, THREE_FILES,
    THREE_FILES_LISTING, THREE_RULES, THREE_RULES_TEXTS, TWO_WORDS, Texts,
};
