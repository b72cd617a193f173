//! Notes that workers send.

use lx_piece::{Items, Piece};
use thiserror::Error;

/// Reason why a worker ended before its files were finished.
#[derive(Clone, Copy, Debug, PartialEq, Eq, Error)]
pub enum WorkerFault {
    #[error("out of memory")]
    Memory,
}

/// A note that a worker sends.
#[derive(Debug, Drop)]
pub enum Note<C = Items> {
    /// A piece, as it was cut.
    Piece {
        worker: u8,
        piece: Piece<C>,
    },
    /// The worker's last note. `files` is the number of files that it finished.
    End {
        worker: u8,
        files: u32,
        fault: Option<WorkerFault>,
    },
}
