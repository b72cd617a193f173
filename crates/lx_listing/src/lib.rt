//! Writes a listing: the lines of all files in order, on one thread or with workers.
#![tactic(auto)]

mod direct;
mod gathering;
mod lengths;
mod listing;
mod maker;
mod parts;
mod printer;
mod printing;
mod shown;
mod shown_lines;
mod sink;
mod spare_memory;
mod spares;
mod stream;
mod styled;
mod writing;

pub use listing::Listing;
pub use maker::LineMaker;
pub use printing::{list_plan, print_listing};
pub use shown::{Shown, ShownForm};
pub use sink::{Lent, LineSink};
pub use spare_memory::{Spares, emptied};
pub use stream::{BlockTaker, StreamLines};
pub use styled::list_plan_by;
pub use writing::{LineWrites, write_block};
