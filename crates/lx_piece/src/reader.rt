//! Readers, which take pieces in order.

ghost use Rattle.std.specs.Prelude.{◌≡◌, ◌+◌, ◌<◌, ℕ, List, OnOk, OnErr, slice_set, slice_index};
ghost use Rattle.lx_piece.specs.Plans.{Planned};
ghost use Rattle.lx_piece.specs.Pieces.{top_number};
ghost use Rattle.lx_piece.specs.NextPiece.{IsNextPiece};

use crate::Piece;
use thiserror::Error;

/// Reason why a reader didn't take a piece.
#[derive(Clone, Copy, Debug, PartialEq, Eq, Error)]
pub enum ReaderFault {
    /// The device to which the reader passes the pieces failed, now or earlier.
    #[error("the device failed")]
    Device,
    #[error("out of memory")]
    Memory,
}

/// The amount that a reader holds for later. Workers wait while it is large. No contract speaks of it.
#[derive(Clone, Copy, Debug, PartialEq, Eq)]
pub struct Held {
    /// Number of the file that the reader waits for.
    pub file: u32,
    /// Number of bytes held of later files.
    pub bytes: u64,
}

impl Held {
    /// The value of a reader that holds nothing.
    pub const NOTHING: Held = Held { file: 0, bytes: 0 };
}

/// A reader, which takes the pieces of a plan's files, those of each file in order.
pub trait Reader {
    /// The plan whose pieces it takes.
    ghost plan: { Self → Planned };

    /// Number of pieces that it took, for each file.
    ghost counts: { Self → List ℕ };

    /// Number of failures of its device.
    ghost fault_count: { Self → ℕ };

    /// Its effect between one state and a later one, in its own terms.
    ghost follows: { Self → Self → Type 0 };

    /// Takes its file's next piece, and counts it. After an error no count has changed. Counts in `faults` the failures of the device, and no others.
    fn take(&mut self, piece: Piece) -> Result<(), ReaderFault>
        requires next { IsNextPiece (plan self.old) (counts self.old) piece }
        requires countable { fault_count self.old < top_number }
        ensures plan { plan self.new ≡ plan self.old }
        ensures follows { follows self.old self.new }
        ensures ok { OnOk result (counts self.new ≡ slice_set (counts self.old) piece.file
            (slice_index (counts self.old) piece.file + 1)) }
        ensures err { OnErr result (counts self.new ≡ counts self.old) }
        ensures device { result ≡ Err ReaderFault.Device
            → fault_count self.new ≡ fault_count self.old + 1 }
        ensures memory { result ≡ Err ReaderFault.Memory
            → fault_count self.new ≡ fault_count self.old }
        ensures no_fault { OnOk result (fault_count self.new ≡ fault_count self.old) };

    /// Returns the number of failures of its device.
    fn faults(&self) -> u64
        ensures { result ≡ fault_count self.now };

    /// Returns what it holds for later.
    fn held(&self) -> Held {
        Held::NOTHING
    }

    ghost follows_itself: { (s : Self) → follows s s };

    ghost follows_on: { (s t u : Self) → follows s t → follows t u → follows s u };
}
