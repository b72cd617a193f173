//! Plans of files, the pieces of their items, and the relay that delivers arriving pieces in order.
#![tactic(auto)]

mod arrivals;
mod arrivals_of;
mod collector;
mod cutter;
mod delivering;
mod in_order;
mod input;
mod items;
mod list_arrivals;
mod maker;
mod piece;
mod plan;
mod plan_pieces;
mod reader;
mod reader_of;
mod ready_files;
mod relaying;
mod reorder_buffer;
mod reply;
mod taker;
mod turn_queue;
mod waiting;

pub use arrivals::Arrivals;
pub use arrivals_of::ArrivalsOf;
pub use collector::Collector;
pub use cutter::Cutter;
pub use delivering::{RelayFault, deliver_all, offer_to};
pub use in_order::InOrder;
pub use input::Input;
pub use items::Items;
pub use list_arrivals::ListArrivals;
pub use maker::{KeepItems, Maker};
pub use piece::{Mark, Piece};
pub use plan::{MAX_FILES, MAX_ITEMS, MAX_WORKERS, Plan, plans_are_well_formed};
pub use plan_pieces::relay_plan;
pub use reader::{Held, Reader, ReaderFault};
pub use reader_of::ReaderOf;
pub use relaying::{relay, relay_of};
pub use reply::{Refused, Reply, Why};
pub use taker::Taker;
pub use turn_queue::TurnQueue;
pub use waiting::place;
