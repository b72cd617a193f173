//! Scans files by several threads: workers draw files and send pieces, one thread delivers them, and none is lost.
#![tactic(auto)]

mod backoff;
mod claim_seat;
mod claims;
mod collecting;
mod draw_rule;
mod finishing;
mod gate;
mod job;
mod joining;
mod meeting_gate;
mod note;
mod pace;
mod passes;
mod post;
mod post_arrivals;
mod post_rule;
mod run_context;
mod run_fault;
mod scanning;
mod signals;
mod starting;
mod threads;
mod working;

pub use backoff::Backoff;
pub use claim_seat::ClaimSeat;
pub use claims::{Claims, Unsettled};
pub use finishing::{Unfinished, finish};
pub use gate::{Gate, OpenGate};
pub use lx_piece::MAX_WORKERS;
pub use meeting_gate::MeetingGate;
pub use note::{Note, WorkerFault};
pub use pace::Pace;
pub use passes::{SendPass, TakePass, WORKER_SLOTS};
pub use post::Post;
pub use post_arrivals::{NoteArrivals, PostArrivals};
pub use run_fault::RunFault;
pub use scanning::{scan_all, scan_made};
pub use threads::{Unstarted, scan};
