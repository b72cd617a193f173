//! A reader of pieces of items that writes their listing.

ghost use Rattle.std.specs.Prelude.{◌≡◌, ◌+◌, ◌<◌, [], All, IfOk, OnOk, OnErr, Err, replicate, true, false};
ghost use Rattle.lx_scan.specs.ItemParts.{IsItemOf};
ghost use Rattle.lx_piece.specs.Waiting.{counted};
ghost use Rattle.lx_piece.specs.Pieces.{top_number};
ghost use Rattle.lx_piece.specs.Plans.{bytes_of, files_of, kinds_of};
ghost use Rattle.lx_piece.specs.NextPiece.{IsNextPiece};
ghost use Rattle.lx_listing.specs.Listings.{AppendsWhole, IsDue, Prints};
ghost use Rattle.lx_listing.specs.Printing.{as_shown};

use crate::printer::Printer;
use crate::sink::Owned;
use crate::spares::Alone;
use crate::{LineMaker, LineWrites, Shown};
use lx_piece::{Held, Piece, Plan, Reader, ReaderFault, TurnQueue};
use std::alloc::{AllocError, Global};
use std::io::Write;
use std::marker::Model;

// Converts a piece of items to a piece of a listing.
fn shown_piece(plan: &Plan, piece: Piece) -> Piece<Shown>
    requires { All (IsItemOf (kinds_of plan.now) (bytes_of plan.now piece.file)) piece.items }
    ensures { result ≡ as_shown plan.now piece }
{
    let Piece {
        run,
        file,
        number,
        mark,
        items,
    } = piece;
    Piece {
        run,
        file,
        number,
        mark,
        items: Shown::of_given(plan, file, items.into_vec()),
    }
}

/// A reader that writes the lines of a plan's files in their order, with the cut line after those of a file whose reading failed. Holds the pieces of
/// later files until the earlier ones are closed. Each line goes out in one write, or in further ones for what the device didn't accept. A write of 0
/// bytes or an error is a fault of the device. If an allocation fails for a line, nothing of it is written. After a fault of either kind it writes
/// nothing more. Each later call returns Device, which is counted.
#[derive(Drop)]
pub struct Listing<'a, W: Write> {
    plan: &'a Plan,
    queue: TurnQueue<LineMaker<Alone>, Printer<Alone, Owned<W>>>,
}

impl<'a, W: Write> Model for Listing<'a, W> {
    ghost use Rattle.lx_listing.specs.Listings.{Printed, printed};
    ghost use Rattle.lx_listing.specs.Printing.{IsInStep, turn_of};

    ghost Value = { Printed };

    ghost view = { λ s.
        printed (record
        { plan = s.plan.now; counts = s.queue.counts; faults = s.queue.faults; failed = s.queue.failed })
        (W.contents s.queue.taker.sink.out) };

    ghost invariant = { λ s.
        IsInStep s.plan.now s.queue.taker.draft.plan (turn_of s.queue.taker.file s.queue.taker.number)
        s.queue.counts s.queue.failed };
}

impl<'a, W: Write> Listing<'a, W> {
    /// Returns a listing that has taken nothing and writes to `out`.
    pub fn new(alloc: Global, plan: &'a Plan, out: W) -> Result<Listing<'a, W>, AllocError>
    where
        W: Drop,
        ensures plan { IfOk result (λ listing. listing.progress.plan ≡ plan.now) }
        ensures counts { IfOk result
            (λ listing. listing.progress.counts ≡ replicate (files_of plan.now) 0) }
        ensures faults { IfOk result (λ listing. listing.progress.faults ≡ 0) }
        ensures failed { IfOk result (λ listing. listing.progress.failed ≡ false) }
        ensures written { IfOk result (λ listing. listing.written ≡ W.contents out) }
        // Nothing is due yet, since it has taken nothing.
        ensures due { IfOk result (λ listing. IsDue plan.now listing.progress.counts []) }
    {
        let sink = Owned {
            out,
            writes: LineWrites::EachLine,
        };
        let printer = Printer::new(alloc, plan, Alone::new(), sink);
        let Ok(queue) = TurnQueue::new(alloc, plan, printer) else {
            return Err(AllocError);
        };
        Ok(Listing { plan, queue })
    }
}

impl<'a, W: Write> Reader for Listing<'a, W> {
    ghost use Rattle.std.specs.Prelude.{◌≡◌, ◌+◌, ◌<◌, OnOk, OnErr, Err, false, true};
    ghost use Rattle.lx_piece.specs.Pieces.{top_number};
    ghost use Rattle.lx_piece.specs.Waiting.{counted};
    ghost use Rattle.lx_piece.specs.NextPiece.{IsNextPiece};
    ghost use Rattle.lx_listing.specs.Listings.{AppendsWhole, Prints};
    ghost use Rattle.lx_listing.specs.ListingLaws.{prints_nothing, prints_on};

    ghost plan = { λ s. s.progress.plan };

    ghost counts = { λ s. s.progress.counts };

    ghost fault_count = { λ s. s.progress.faults };

    ghost follows = { Prints };

    /// Takes the next piece of a file. After a fault of either kind the listing has failed: it returns Device from then on.
    fn take(&mut self, piece: Piece) -> Result<(), ReaderFault>
        requires next { IsNextPiece self.old.progress.plan self.old.progress.counts piece }
        requires countable { self.old.progress.faults < top_number }
        ensures plan { self.new.progress.plan ≡ self.old.progress.plan }
        ensures follows { Prints self.old self.new }
        ensures ok { OnOk result
            (self.new.progress.counts ≡ counted self.old.progress.counts piece.file) }
        ensures err { OnErr result (self.new.progress.counts ≡ self.old.progress.counts) }
        ensures device { result ≡ Err ReaderFault.Device
            → self.new.progress.faults ≡ self.old.progress.faults + 1 }
        ensures memory { result ≡ Err ReaderFault.Memory
            → self.new.progress.faults ≡ self.old.progress.faults }
        ensures whole_lines { result ≡ Err ReaderFault.Memory
            → AppendsWhole self.old.written self.new.written }
        ensures no_fault { OnOk result (self.new.progress.faults ≡ self.old.progress.faults) }
        ensures failed { OnErr result (self.new.progress.failed ≡ true) }
        ensures working { OnOk result (self.new.progress.failed ≡ false) }
        ensures stopped { self.old.progress.failed ≡ true → result ≡ Err ReaderFault.Device }
    {
        self.queue.take(self.plan, shown_piece(self.plan, piece))
    }

    fn faults(&self) -> u64 {
        self.queue.faults()
    }

    fn held(&self) -> Held {
        self.queue.held()
    }

    ghost follows_itself = { prints_nothing };

    ghost follows_on = { prints_on };
}
