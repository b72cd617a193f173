//! The environment of a command.

use lx_listing::LineWrites;
use std::alloc::Global;

/// The threads and the memory of a command, and how the lines of its listing are written.
#[derive(Drop)]
pub(crate) struct Session<'r, R> {
    pub rt: &'r R,
    pub alloc: Global,
    pub writes: LineWrites,
}
