//! Reads the command line of `lx`.
#![tactic(auto)]

mod app;
mod commands;
mod reading;
mod request;
mod version;

pub use reading::{plain_words_ask, read_words};
pub use request::{
    ALONE, CWords, CheckWords, FormWords, ITEMS, ImportWords, ListRequest, ListWords, MOST_TOLD,
    PrintWords, Request, ShowWords, TOLD, WordsFault,
};
pub use version::VERSION;
