//! The scanner: cuts a text into items by tables, also a text that arrives in blocks.
#![tactic(auto)]

pub mod answering;
pub mod block_scanner;
pub mod blocks;
mod choice;
pub mod cursor;
mod ends;
pub mod flat;
pub mod item;
pub mod lines;
pub mod list;
pub mod memory;
pub mod place;
mod progress;
pub mod ruling;
pub mod scanner;
mod walk;

pub use crate::block_scanner::BlockScanner;
pub use crate::blocks::{decided_items, scan_blocks};
pub use crate::cursor::Cursor;
pub use crate::flat::FlatItem;
pub use crate::item::Item;
pub use crate::list::ItemList;
pub use crate::memory::ScanMemory;
pub use crate::place::{Match, Place};
pub use crate::scanner::{next_match, scan};
