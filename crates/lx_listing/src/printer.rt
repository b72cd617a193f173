//! The printer of a listing.

ghost use Rattle.std.specs.Prelude.{◌≡◌, ◌<◌, IfErr, OnOk};
ghost use Rattle.lx_piece.specs.Plans.{files_of};
ghost use Rattle.lx_piece.specs.Turns.{HasTurn, turn_after};
ghost use Rattle.lx_listing.specs.Listings.{plainly};
ghost use Rattle.lx_listing.specs.Parts.{WrotePart};
ghost use Rattle.lx_listing.specs.Printing.{PrintsTo, PrintsPart, printing, shown_lines, turn_of};
ghost use Rattle.lx_listing.specs.Shown.{shown};

use crate::shown_lines::{write_cut, write_shown};
use crate::sink::LineSink;
use crate::{LineMaker, Shown, Spares};
use lx_line::{PlainStyle, PlanDraft};
use lx_piece::{Piece, Plan, ReaderFault, Taker, plans_are_well_formed};
use std::alloc::Global;

/// A printer of the lines of a plan's pieces, which arrive in the plan's order. Writes the cut line after those of a file whose reading failed. If an
/// allocation fails, whole lines of the piece were written, or none.
#[derive(Drop)]
pub struct Printer<Y: Spares, S: LineSink> {
    pub(crate) alloc: Global,
    pub(crate) spares: Y,
    pub(crate) sink: S,
    // Ready parts of the plan's lines. Contracts see the plan by it.
    pub(crate) draft: PlanDraft<PlainStyle>,
    // File and number of the piece that comes next.
    pub(crate) file: u32,
    pub(crate) number: u64,
}

// Writes the lines of a piece.
fn write_piece<Y: Spares, S: LineSink>(
    alloc: Global,
    spares: &Y,
    draft: &mut PlanDraft<PlainStyle>,
    plan: &Plan,
    piece: Piece<Shown>,
    sink: &mut S,
) -> Result<(), ReaderFault>
    requires draft { draft.old.plan ≡ plan.now }
    requires plan { piece.items.plan ≡ plan.now }
    requires same_file { piece.items.file ≡ piece.file }
    requires file { piece.file < files_of plan.now }
    ensures draft { draft.new ≡ draft.old }
    ensures ok { OnOk result (S.wrote sink.old (shown_lines piece) sink.new) }
    ensures part { IfErr result
        (λ fault. WrotePart S.wrote sink.old fault (shown_lines piece) sink.new) }
{
    let ends_cut = piece.is_cut_short();
    let Piece { file, items, .. } = piece;
    let mut block = write_shown(items, alloc, spares, draft, plan, file, sink)?;
    write_cut(draft.style(), sink, &mut block, file, ends_cut)?;
    spares.give_block(file, block);
    Ok(())
}

impl<Y: Spares, S: LineSink> Printer<Y, S> {
    /// Returns a printer that has written nothing.
    pub fn new(alloc: Global, plan: &Plan, spares: Y, sink: S) -> Printer<Y, S>
        ensures plan { result.draft.plan ≡ plan.now }
        ensures file { result.file ≡ 0 }
        ensures number { result.number ≡ 0 }
        ensures sink { result.sink ≡ sink }
    {
        Printer {
            alloc,
            spares,
            sink,
            draft: PlanDraft::new(PlainStyle, plan),
            file: 0,
            number: 0,
        }
    }

    /// Returns the sink.
    pub fn into_sink(self) -> S
    where
        Y: Drop,
        ensures { result ≡ self.sink }
    {
        let Printer {
            alloc: _alloc,
            spares: _spares,
            sink,
            draft: _draft,
            file: _file,
            number: _number,
        } = self;
        sink
    }
}

impl<Y: Spares, S: LineSink> Taker<LineMaker<Y>> for Printer<Y, S> {
    ghost use Rattle.lx_listing.specs.Listings.{plainly};
    ghost use Rattle.lx_listing.specs.PrintingLaws.{prints_itself, prints_then, prints_no_more, part_behind};

    ghost plan = { λ s. s.draft.plan };

    ghost turn = { λ s. turn_of s.file s.number };

    ghost follows = { λ s t.
        PrintsTo S.wrote (printing (plainly s.draft.plan) s.file s.number s.sink)
        (printing (plainly t.draft.plan) t.file t.number t.sink) };

    ghost fails = { λ s fault t.
        PrintsPart S.wrote (printing (plainly s.draft.plan) s.file s.number s.sink) fault
        (printing (plainly t.draft.plan) t.file t.number t.sink) };

    fn take(&mut self, whole: &Plan, piece: Piece<Shown>) -> Result<(), ReaderFault>
        requires same { whole.now ≡ self.old.draft.plan }
        requires turn { HasTurn shown self.old.draft.plan (turn_of self.old.file self.old.number) piece }
        ensures plan { self.new.draft.plan ≡ self.old.draft.plan }
        ensures turn { OnOk result (turn_of self.new.file self.new.number
            ≡ turn_after self.old.draft.plan (turn_of self.old.file self.old.number)) }
        ensures follows { OnOk result (PrintsTo S.wrote
            (printing (plainly self.old.draft.plan) self.old.file self.old.number self.old.sink)
            (printing (plainly self.new.draft.plan) self.new.file self.new.number self.new.sink)) }
        ensures fails { IfErr result (λ fault.
            PrintsPart S.wrote
            (printing (plainly self.old.draft.plan) self.old.file self.old.number self.old.sink) fault
            (printing (plainly self.new.draft.plan) self.new.file self.new.number self.new.sink)) }
    {
        self.spares.receive(self.file, self.number);
        // a law: the items of its pieces are items of its files
        plans_are_well_formed(whole);
        let closes = piece.is_closing();
        write_piece(
            self.alloc,
            &self.spares,
            &mut self.draft,
            whole,
            piece,
            &mut self.sink,
        )?;
        if closes {
            self.file += 1;
            self.number = 0;
        } else {
            self.number += 1;
        }
        Ok(())
    }

    ghost follows_itself = { λ s.
        prints_itself S.wrote S.wrote_nothing (printing (plainly s.draft.plan) s.file s.number s.sink) };

    ghost follows_on = { λ s t u f h.
        prints_then S.wrote S.wrote_on (printing (plainly s.draft.plan) s.file s.number s.sink)
        (printing (plainly t.draft.plan) t.file t.number t.sink) (printing (plainly u.draft.plan) u.file u.number u.sink) f
        h };

    ghost fails_behind = { λ s t u fault f h.
        part_behind S.wrote S.wrote_on (printing (plainly s.draft.plan) s.file s.number s.sink)
        (printing (plainly t.draft.plan) t.file t.number t.sink) (printing (plainly u.draft.plan) u.file u.number u.sink)
        fault f h };

    ghost fails_at_once = { λ s.
        prints_no_more S.wrote S.wrote_nothing (printing (plainly s.draft.plan) s.file s.number s.sink) };
}
