//! Faults of the program.

use lx_auto::BuildFault;
use lx_spec::SpecFault;
use lx_tables::TableFault;
use std::alloc::AllocError;
use std::io;
use thiserror::Error;

/// Reason why nothing is listed.
#[derive(Debug, Drop, Error)]
pub(crate) enum PlainFault {
    #[error("two words are wanted: a specification and a file")]
    Words,
    /// A file or the output failed.
    #[error("{0}")]
    Device(#[from] io::Error),
    #[error("the specification: {0}")]
    Specification(#[from] SpecFault),
    #[error("its automaton: {0}")]
    Automaton(#[from] BuildFault),
    #[error("its printed tables: {0}")]
    Tables(#[from] TableFault),
    #[error("out of memory")]
    Memory(#[from] AllocError),
    /// This way has another result than the plain scanner.
    #[error("other than by the plain scanner: {0}")]
    Differs(&'static str),
}
