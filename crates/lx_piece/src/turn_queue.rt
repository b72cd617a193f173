//! Makes the pieces of all files wait for their turn, and passes them on in the plan's order.

ghost use Rattle.std.specs.Prelude.{◌≡◌, ◌<◌, [], OnOk, OnErr, IfOk, IfErr, replicate, false};
ghost use Rattle.lx_piece.specs.Pieces.{top_number};
ghost use Rattle.lx_piece.specs.Plans.{IsPlan, files_of};
ghost use Rattle.lx_piece.specs.NextPiece.{IsNextPieceBy};
ghost use Rattle.lx_piece.specs.Turns.{first_turn};
ghost use Rattle.lx_piece.specs.Waiting.{counted, queued};
ghost use Rattle.lx_piece.specs.Passing.{CountsFaults, PassesOn, StaysFailed};

use crate::{Held, Maker, Piece, Plan, ReaderFault, Taker, place};
use std::alloc::{AllocError, AllocFailed, Global};
use std::collections::VecDeque;
use std::marker::Model;

/// A queue that passes the pieces of a plan's files on in the plan's order, to a taker that holds nothing. Pieces of the first open file go on at
/// once. Pieces of later files go on once the files before them are closed. After a fault of either kind it passes nothing on. Each call then returns
/// Device, which is counted. Each call gets the plan, so that the maker of a queue over a borrowed writer may keep the plan next to it.
#[derive(Drop)]
pub struct TurnQueue<M: Maker, T: Taker<M>> {
    taker: T,
    // Number of the first open file, or the number of files.
    first: u32,
    // For each file after the first open one, the pieces that came.
    waiting: Vec<VecDeque<Piece<M::Made>>>,
    // For each file, the number of pieces that came.
    counts: Vec<u64>,
    // Number of bytes that wait.
    bytes: u64,
    faults: u64,
    failed: bool,
}

impl<M: Maker, T: Taker<M>> Model for TurnQueue<M, T> {
    ghost use Rattle.lx_piece.specs.Waiting.{queued};
    ghost use Rattle.lx_piece.specs.Passing.{IsInOrder, Passing};

    ghost Value = { Passing T };

    ghost view = { λ s.
        record { taker = s.taker; counts = s.counts.items; faults = s.faults; failed = s.failed } };

    ghost invariant = { λ s.
        IsInOrder M.made (T.plan s.taker) (T.turn s.taker) s.counts.items s.first
        (queued s.waiting.items) s.failed };
}

// Makes an empty queue for each file.
fn empty_queues<C: Drop>(alloc: Global, files: u32) -> Result<Vec<VecDeque<Piece<C>>>, AllocError>
    ensures { IfOk result (λ queues. queued queues.items ≡ replicate files []) }
{
    let mut queues = Vec::with_capacity(alloc, files as usize)?;
    for _file in 0..files {
        queues.push_reserved(VecDeque::new(alloc));
    }
    Ok(queues)
}

impl<M: Maker, T: Taker<M>> TurnQueue<M, T> {
    /// Returns a queue to which no piece has come, over a taker that took nothing. If an allocation fails, the taker comes back unchanged.
    pub fn new(alloc: Global, plan: &Plan, taker: T) -> Result<TurnQueue<M, T>, AllocFailed<T>>
        requires plan { T.plan taker ≡ plan.now }
        requires turn { T.turn taker ≡ first_turn }
        ensures valid { IsPlan plan.now }
        ensures ok { IfOk result (λ queue.
            queue ≡ record
            { taker = taker; counts = replicate (files_of plan.now) 0; faults = 0; failed = false }) }
        ensures back { IfErr result (λ refused. refused.value ≡ taker) }
    {
        let files = plan.files();
        let Ok(waiting) = empty_queues(alloc, files) else {
            return Err(AllocFailed { value: taker });
        };
        let Ok(counts) = vec![in alloc; 0; files as usize] else {
            return Err(AllocFailed { value: taker });
        };
        Ok(TurnQueue {
            taker,
            first: 0,
            waiting,
            counts,
            bytes: 0,
            faults: 0,
            failed: false,
        })
    }

    /// Returns the taker in its present state.
    pub fn into_taker(self) -> T
        ensures { result ≡ self.taker }
    {
        self.taker
    }

    /// Takes the next piece of a file. After a fault of either kind the queue has failed: it returns Device from then on.
    pub fn take(&mut self, plan: &Plan, piece: Piece<M::Made>) -> Result<(), ReaderFault>
        requires same { plan.now ≡ T.plan self.old.taker }
        requires next { IsNextPieceBy M.made (T.plan self.old.taker) self.old.counts piece }
        requires countable { self.old.faults < top_number }
        ensures plan { T.plan self.new.taker ≡ T.plan self.old.taker }
        ensures follows { PassesOn T.plan T.turn T.follows T.fails self.old self.new }
        ensures ok { OnOk result (self.new.counts ≡ counted self.old.counts piece.file) }
        ensures err { OnErr result (self.new.counts ≡ self.old.counts) }
        ensures faults { CountsFaults result self.old.faults self.new.faults }
        ensures stays { StaysFailed T.fails result self.old self.new }
    {
        if self.failed {
            self.faults += 1;
            return Err(ReaderFault::Device);
        }
        let file = piece.file;
        match place::<M, T>(
            &mut self.taker,
            plan,
            self.first,
            &mut self.waiting,
            &mut self.bytes,
            piece,
        ) {
            Ok(first) => {
                self.first = first;
                self.counts[file as usize] += 1;
                Ok(())
            }
            Err(ReaderFault::Device) => {
                self.failed = true;
                self.faults += 1;
                Err(ReaderFault::Device)
            }
            Err(ReaderFault::Memory) => {
                self.failed = true;
                Err(ReaderFault::Memory)
            }
        }
    }

    /// Returns the number of failures of the taker's device, and of later calls after a fault.
    pub fn faults(&self) -> u64
        ensures { result ≡ self.now.faults }
    {
        self.faults
    }

    /// Returns the amount that waits for its turn.
    pub fn held(&self) -> Held {
        Held {
            file: self.first,
            bytes: self.bytes,
        }
    }
}
