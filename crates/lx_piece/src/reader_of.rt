//! Readers of pieces that carry what a maker made of their items.

ghost use Rattle.std.specs.Prelude.{◌≡◌, ◌+◌, ◌<◌, ℕ, List, OnOk, OnErr, Err, slice_set, slice_index};
ghost use Rattle.lx_piece.specs.Plans.{Planned};
ghost use Rattle.lx_piece.specs.Pieces.{top_number};
ghost use Rattle.lx_piece.specs.NextPiece.{IsNextPiece, IsNextPieceBy};

use crate::reader::{Held, Reader, ReaderFault};
use crate::{Items, KeepItems, Maker, Piece};

/// A reader of pieces that carry what a maker made of their items.
pub trait ReaderOf<M: Maker> {
    /// The plan whose pieces it takes.
    ghost plan: { Self → Planned };

    /// Number of pieces that it took, for each file.
    ghost counts: { Self → List ℕ };

    /// Number of failures of its device.
    ghost fault_count: { Self → ℕ };

    /// Its effect between one state and a later one, in its own terms.
    ghost follows: { Self → Self → Type 0 };

    /// Takes its file's next piece, and counts it. After an error no count has changed. Counts in `faults` the failures of the device, and no others.
    fn take(&mut self, piece: Piece<M::Made>) -> Result<(), ReaderFault>
        requires next { IsNextPieceBy M.made (plan self.old) (counts self.old) piece }
        requires countable { fault_count self.old < top_number }
        ensures plan { plan self.new ≡ plan self.old }
        ensures follows { follows self.old self.new }
        ensures ok { OnOk result (counts self.new ≡ slice_set (counts self.old) piece.file
            (slice_index (counts self.old) piece.file + 1)) }
        ensures err { OnErr result (counts self.new ≡ counts self.old) }
        ensures device { result ≡ Err ReaderFault.Device
            → fault_count self.new ≡ fault_count self.old + 1 }
        ensures memory { result ≡ Err ReaderFault.Memory
            → fault_count self.new ≡ fault_count self.old }
        ensures no_fault { OnOk result (fault_count self.new ≡ fault_count self.old) };

    /// Returns the number of failures of its device.
    fn faults(&self) -> u64
        ensures { result ≡ fault_count self.now };

    /// Returns what it holds for later.
    fn held(&self) -> Held {
        Held::NOTHING
    }

    ghost follows_itself: { (s : Self) → follows s s };

    ghost follows_on: { (s t u : Self) → follows s t → follows t u → follows s u };
}

// A reader of pieces that carry their items.
impl<R: Reader> ReaderOf<KeepItems> for R {
    ghost plan = { R.plan };

    ghost counts = { R.counts };

    ghost fault_count = { R.fault_count };

    ghost follows = { R.follows };

    fn take(&mut self, piece: Piece<Items>) -> Result<(), ReaderFault>
        requires next { IsNextPiece (R.plan self.old) (R.counts self.old) piece }
        requires countable { R.fault_count self.old < top_number }
        ensures plan { R.plan self.new ≡ R.plan self.old }
        ensures follows { R.follows self.old self.new }
        ensures ok { OnOk result (R.counts self.new ≡ slice_set (R.counts self.old) piece.file
            (slice_index (R.counts self.old) piece.file + 1)) }
        ensures err { OnErr result (R.counts self.new ≡ R.counts self.old) }
        ensures device { result ≡ Err ReaderFault.Device
            → R.fault_count self.new ≡ R.fault_count self.old + 1 }
        ensures memory { result ≡ Err ReaderFault.Memory
            → R.fault_count self.new ≡ R.fault_count self.old }
        ensures no_fault { OnOk result (R.fault_count self.new ≡ R.fault_count self.old) }
    {
        Reader::take(self, piece)
    }

    fn faults(&self) -> u64 {
        Reader::faults(self)
    }

    fn held(&self) -> Held {
        Reader::held(self)
    }

    ghost follows_itself = { R.follows_itself };

    ghost follows_on = { R.follows_on };
}
