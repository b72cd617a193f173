//! Cuts the pieces of a plan on one thread.

ghost use Rattle.std.specs.Prelude.{◌≡◌, ◌+◌, ◌<◌, [], ◌∷◌, ◌++◌, Err, IfOk, OnOk, OnErr, MatchOption, false};
ghost use Rattle.lx_piece.specs.declared.delivering.RelayFault.{RelayFault};
ghost use Rattle.lx_piece.specs.Cutting.{IsCutterOf};
ghost use Rattle.lx_piece.specs.Pieces.{IsPieceBy};
ghost use Rattle.lx_piece.specs.PlanPieces.{pieces_before, pieces_below};
ghost use Rattle.lx_piece.specs.Plans.{IsPlan, files_of};
ghost use Rattle.lx_piece.specs.Relayed.{AreAllTaken, TakesAllInOrder, TookNothing};

use crate::arrivals_of::ArrivalsOf;
use crate::relaying::relay_of;
use crate::{Cutter, Maker, Piece, Plan, ReaderOf, RelayFault, plans_are_well_formed};
use std::alloc::{AllocError, Global};
use std::marker::Model;

// Cuts the next piece of a file, or the first one of the next file.
fn cut_next<M: Maker>(
    alloc: Global,
    plan: &Plan,
    maker: &mut M,
    file: &mut u32,
    cutter: &mut Cutter,
) -> Result<Option<Piece<M::Made>>, AllocError>
    requires cutter { IsCutterOf plan.now cutter.old }
    requires file { cutter.old.file ≡ file.old }
    ensures cutter { IsCutterOf plan.now cutter.new }
    ensures file { cutter.new.file ≡ file.new }
    ensures ok { IfOk result (λ next. MatchOption next
        ((pieces_before M.made plan.now cutter.new ≡ pieces_before M.made plan.now cutter.old) × (pieces_before M.made plan.now cutter.new ≡ pieces_below M.made plan.now (files_of plan.now)))
        (λ piece. IsPieceBy M.made plan.now piece × (pieces_before M.made plan.now cutter.new ≡ pieces_before M.made plan.now cutter.old ++ piece ∷ []))) }
    ensures err { OnErr result
        (pieces_before M.made plan.now cutter.new ≡ pieces_before M.made plan.now cutter.old) }
{
    if let Some(piece) = cutter.next_made(plan, maker)? {
        return Ok(Some(piece));
    }
    let files = plan.files();
    if *file + 1 >= files {
        return Ok(None);
    }
    *file += 1;
    *cutter = Cutter::new(alloc, plan, *file);
    cutter.next_made(plan, maker)
}

/// The pieces of all files of a plan, one file after the other, each cut on demand.
#[derive(Drop)]
struct PlanPieces<'a, M: Maker> {
    alloc: Global,
    plan: &'a Plan,
    maker: M,
    file: u32,
    cutter: Cutter,
    /// True once an allocation failed for a piece. No further piece comes then.
    refused: bool,
}

impl<'a, M: Maker> Model for PlanPieces<'a, M> {
    ghost use Rattle.std.specs.Prelude.{◌≡◌};
    ghost use Rattle.lx_piece.specs.Cutting.{IsCutterOf};
    ghost use Rattle.lx_piece.specs.PlanPieces.{CutSoFar, pieces_before};

    ghost Value = { CutSoFar M.Made };

    ghost view = { λ s.
        record
        { plan = s.plan.now; cut = pieces_before M.made s.plan.now s.cutter; refused = s.refused } };

    ghost invariant = { λ s. IsCutterOf s.plan.now s.cutter × (s.cutter.file ≡ s.file) };
}

impl<'a, M: Maker> PlanPieces<'a, M> {
    fn new(alloc: Global, plan: &'a Plan, maker: M) -> Self
    where
        M: Drop,
        requires { IsPlan plan.now }
        ensures { result ≡ record { plan = plan.now; cut = []; refused = false } }
    {
        PlanPieces {
            alloc,
            plan,
            maker,
            file: 0,
            cutter: Cutter::new(alloc, plan, 0),
            refused: false,
        }
    }

    fn is_refused(&self) -> bool
        ensures { result ≡ self.now.refused }
    {
        self.refused
    }
}

impl<'a, M: Maker> ArrivalsOf<M> for PlanPieces<'a, M> {
    ghost use Rattle.std.specs.Prelude.{◌≡◌, ◌⊎◌, true};
    ghost use Rattle.lx_piece.specs.Plans.{files_of};
    ghost use Rattle.lx_piece.specs.PlanPieces.{Cuts, cuts_nothing, cuts_on, pieces_below};

    ghost plan = { λ s. s.plan };

    ghost leads = { Cuts };

    ghost has_ended = { λ s.
        (s.refused ≡ true) ⊎ (s.cut ≡ pieces_below M.made s.plan (files_of s.plan)) };

    fn next(&mut self) -> Option<Piece<M::Made>> {
        if self.refused {
            return None;
        }
        match cut_next(
            self.alloc,
            self.plan,
            &mut self.maker,
            &mut self.file,
            &mut self.cutter,
        ) {
            Ok(next) => next,
            Err(_) => {
                self.refused = true;
                None
            }
        }
    }

    ghost stays = { cuts_nothing };

    ghost goes_on = { cuts_on };
}

/// Delivers all pieces of a plan to a reader, cut one after the other on this thread. At `Ok` the reader took every piece of every file.
pub fn relay_plan<M: Maker + Drop, R: ReaderOf<M>>(
    alloc: Global,
    plan: &Plan,
    maker: M,
    reader: &mut R,
) -> Result<(), RelayFault>
    requires reader { TookNothing plan.now (R.plan reader.old) (R.counts reader.old)
        (R.fault_count reader.old) }
    ensures ok { OnOk result (AreAllTaken plan.now (R.counts reader.new)) }
    ensures taken { TakesAllInOrder plan.now (R.counts reader.new) }
    ensures follows { R.follows reader.old reader.new }
    ensures plan { R.plan reader.new ≡ R.plan reader.old }
    ensures reader_fault { result ≡ Err RelayFault.Reader
        → R.fault_count reader.old < R.fault_count reader.new }
    ensures no_fault { OnOk result (R.fault_count reader.new ≡ R.fault_count reader.old) }
{
    // a law: there is a first file
    plans_are_well_formed(plan);
    let mut pieces = PlanPieces::new(alloc, plan, maker);
    let _replies = relay_of(alloc, plan, &mut pieces, reader)?;
    if pieces.is_refused() {
        return Err(RelayFault::Memory);
    }
    Ok(())
}
