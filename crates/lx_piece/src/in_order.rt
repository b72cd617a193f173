//! A reader that passes the pieces of all files on in the plan's order.

ghost use Rattle.std.specs.Prelude.{◌≡◌, ◌<◌, OnOk, OnErr, IfOk, IfErr, replicate, false};
ghost use Rattle.lx_piece.specs.Waiting.{counted};
ghost use Rattle.lx_piece.specs.Passing.{CountsFaults, PassesOn, StaysFailed};
ghost use Rattle.lx_piece.specs.Pieces.{top_number};
ghost use Rattle.lx_piece.specs.Plans.{IsPlan, files_of};
ghost use Rattle.lx_piece.specs.NextPiece.{IsNextPieceBy};
ghost use Rattle.lx_piece.specs.Turns.{first_turn};

use crate::turn_queue::TurnQueue;
use crate::{Held, Maker, Piece, Plan, ReaderFault, ReaderOf, Taker};
use std::alloc::{AllocFailed, Global};
use std::marker::Model;

/// A plan with the queue of its pieces. It passes them on in the plan's order, to a taker that holds nothing.
#[derive(Drop)]
pub struct InOrder<'a, M: Maker, T: Taker<M>> {
    plan: &'a Plan,
    queue: TurnQueue<M, T>,
}

impl<'a, M: Maker, T: Taker<M>> Model for InOrder<'a, M, T> {
    ghost use Rattle.std.specs.Prelude.{◌≡◌};
    ghost use Rattle.lx_piece.specs.Passing.{Passing};

    ghost Value = { Passing T };

    ghost view = { λ s. s.queue };

    ghost invariant = { λ s. s.plan.now ≡ T.plan s.queue.taker };
}

impl<'a, M: Maker, T: Taker<M>> InOrder<'a, M, T> {
    /// Returns a reader to which no piece has come, over a taker that took nothing. If an allocation fails, the taker comes back unchanged.
    pub fn new(alloc: Global, plan: &'a Plan, taker: T) -> Result<InOrder<'a, M, T>, AllocFailed<T>>
        requires plan { T.plan taker ≡ plan.now }
        requires turn { T.turn taker ≡ first_turn }
        ensures valid { IsPlan plan.now }
        ensures ok { IfOk result (λ order.
            order ≡ record
            { taker = taker; counts = replicate (files_of plan.now) 0; faults = 0; failed = false }) }
        ensures back { IfErr result (λ refused. refused.value ≡ taker) }
    {
        match TurnQueue::new(alloc, plan, taker) {
            Ok(queue) => Ok(InOrder { plan, queue }),
            Err(refused) => Err(refused),
        }
    }

    /// Returns the taker in its present state.
    pub fn into_taker(self) -> T
        ensures { result ≡ self.entry.taker }
    {
        self.queue.into_taker()
    }
}

impl<'a, M: Maker, T: Taker<M>> ReaderOf<M> for InOrder<'a, M, T> {
    ghost plan = { λ s. T.plan s.taker };

    ghost counts = { λ s. s.counts };

    ghost fault_count = { λ s. s.faults };

    ghost follows = { PassesOn T.plan T.turn T.follows T.fails };

    /// Takes the next piece of a file. After a fault of either kind the reader has failed: it returns Device from then on.
    fn take(&mut self, piece: Piece<M::Made>) -> Result<(), ReaderFault>
        requires next { IsNextPieceBy M.made (T.plan self.old.taker) self.old.counts piece }
        requires countable { self.old.faults < top_number }
        ensures plan { T.plan self.new.taker ≡ T.plan self.old.taker }
        ensures follows { PassesOn T.plan T.turn T.follows T.fails self.old self.new }
        ensures ok { OnOk result (self.new.counts ≡ counted self.old.counts piece.file) }
        ensures err { OnErr result (self.new.counts ≡ self.old.counts) }
        ensures faults { CountsFaults result self.old.faults self.new.faults }
        ensures stays { StaysFailed T.fails result self.old self.new }
    {
        self.queue.take(self.plan, piece)
    }

    fn faults(&self) -> u64 {
        self.queue.faults()
    }

    fn held(&self) -> Held {
        self.queue.held()
    }

    ghost use Rattle.lx_piece.specs.PassingLaws.{passes_itself, passes_on};

    ghost follows_itself = { passes_itself T.plan T.turn T.follows T.fails T.follows_itself };

    ghost follows_on = { passes_on T.plan T.turn T.follows T.fails T.follows_on T.fails_behind };
}
