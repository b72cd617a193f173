//! Lists a plan's files in a style, by workers or on the calling thread. Workers find the items, and the calling thread makes the lines.

ghost use Rattle.std.specs.Prelude.{◌≡◌, ◌<◌, ◌≤◌, All, IfErr, OnErr, OnOk};
ghost use Rattle.std.specs.Io.KnownBytes.{Appends};
ghost use Rattle.lx_scan.specs.ItemParts.{IsItemOf};
ghost use Rattle.lx_piece.specs.Pieces.{bare};
ghost use Rattle.lx_piece.specs.Plans.{bytes_of, files_of, kinds_of, max_workers};
ghost use Rattle.lx_piece.specs.Turns.{HasTurn, turn_after};
ghost use Rattle.lx_listing.specs.Appending.{AppendsPrefix};
ghost use Rattle.lx_listing.specs.Lines.{piece_lines_by};
ghost use Rattle.lx_listing.specs.Listings.{listed_of, listing_by};
ghost use Rattle.lx_listing.specs.Parts.{WrotePart};
ghost use Rattle.lx_listing.specs.Printing.{PrintsPart, PrintsTo, WrotePrefix, printing, turn_of};

use crate::LineWrites;
use crate::gathering::Gathering;
use crate::printing::print_to;
use crate::shown_lines::write_cut;
use crate::sink::{Lent, LineSink};
use lx_line::{LineBuffer, LineStyle, PlanDraft};
use lx_piece::{InOrder, Maker, Piece, Plan, ReaderFault, Taker, plans_are_well_formed};
use lx_post::{OpenGate, RunFault, scan_made};
use lx_scan::ItemList;
use std::alloc::{AllocError, Global};
use std::io::Write;
use std::sync::Wait;
use std::thread::Threads;

// Size of an item in a list, in bytes.
const FLAT_ITEM: u64 = 32;

/// A maker that leaves the items as they were cut.
#[derive(Clone, Copy, Debug)]
pub struct KeepList;

impl Maker for KeepList {
    ghost use Rattle.lx_piece.specs.Pieces.{bare};

    type Made = ItemList;

    ghost made = { bare };

    fn make(&mut self, _plan: &Plan, _file: u32, items: ItemList) -> Result<ItemList, AllocError> {
        Ok(items)
    }

    fn weight(made: &ItemList) -> u64 {
        FLAT_ITEM.saturating_mul(made.capacity() as u64)
    }
}

/// A printer of the lines of a plan's pieces in a style, which arrive in the plan's order.
#[derive(Drop)]
pub struct StylePrinter<L: LineStyle, S: LineSink> {
    pub(crate) draft: PlanDraft<L>,
    // File and number of the piece that comes next.
    pub(crate) file: u32,
    pub(crate) number: u64,
    // Lines, in reused memory.
    block: Vec<u8>,
    pub(crate) sink: S,
}

// Writes the lines of a piece.
fn write_list<L: LineStyle, S: LineSink>(
    draft: &mut PlanDraft<L>,
    block: &mut Vec<u8>,
    plan: &Plan,
    piece: Piece<ItemList>,
    sink: &mut S,
) -> Result<(), ReaderFault>
    requires draft { draft.old.plan ≡ plan.now }
    requires file { piece.file < files_of plan.now }
    requires items { All (IsItemOf (kinds_of plan.now) (bytes_of plan.now piece.file)) piece.items }
    ensures draft { draft.new ≡ draft.old }
    ensures ok { OnOk result (S.wrote sink.old
        (piece_lines_by (L.style draft.old.style) plan.now piece.file piece) sink.new) }
    ensures part { IfErr result (λ fault. WrotePart S.wrote sink.old fault
        (piece_lines_by (L.style draft.old.style) plan.now piece.file piece) sink.new) }
{
    let ends_cut = piece.is_cut_short();
    let Piece { file, items, .. } = piece;
    sink.write_items(block, draft, plan, file, items.as_slice())?;
    write_cut(draft.style(), sink, block, file, ends_cut)
}

impl<L: LineStyle, S: LineSink> StylePrinter<L, S> {
    /// Returns a printer that has written nothing.
    pub fn new(alloc: Global, plan: &Plan, style: L, sink: S) -> StylePrinter<L, S>
        ensures style { result.draft.style ≡ style }
        ensures plan { result.draft.plan ≡ plan.now }
        ensures file { result.file ≡ 0 }
        ensures number { result.number ≡ 0 }
        ensures sink { result.sink ≡ sink }
    {
        StylePrinter {
            draft: PlanDraft::new(style, plan),
            file: 0,
            number: 0,
            block: Vec::new(alloc),
            sink,
        }
    }

    /// Returns the sink.
    pub fn into_sink(self) -> S
    where
        L: Drop,
        ensures { result ≡ self.sink }
    {
        let StylePrinter {
            draft: _draft,
            file: _file,
            number: _number,
            block: _block,
            sink,
        } = self;
        sink
    }
}

impl<L: LineStyle, S: LineSink> Taker<KeepList> for StylePrinter<L, S> {
    ghost use Rattle.lx_listing.specs.Listings.{listed_of};
    ghost use Rattle.lx_listing.specs.PrintingLaws.{prints_itself, prints_then, prints_no_more, part_behind};

    ghost plan = { λ s. s.draft.plan };

    ghost turn = { λ s. turn_of s.file s.number };

    ghost follows = { λ s t.
        PrintsTo S.wrote (printing (listed_of L.style s.draft) s.file s.number s.sink)
        (printing (listed_of L.style t.draft) t.file t.number t.sink) };

    ghost fails = { λ s fault t.
        PrintsPart S.wrote (printing (listed_of L.style s.draft) s.file s.number s.sink) fault
        (printing (listed_of L.style t.draft) t.file t.number t.sink) };

    fn take(&mut self, whole: &Plan, piece: Piece<ItemList>) -> Result<(), ReaderFault>
        requires same { whole.now ≡ self.old.draft.plan }
        requires turn { HasTurn bare self.old.draft.plan (turn_of self.old.file self.old.number)
            piece }
        ensures plan { self.new.draft.plan ≡ self.old.draft.plan }
        ensures turn { OnOk result (turn_of self.new.file self.new.number
            ≡ turn_after self.old.draft.plan (turn_of self.old.file self.old.number)) }
        ensures follows { OnOk result (PrintsTo S.wrote
            (printing (listed_of L.style self.old.draft) self.old.file self.old.number
            self.old.sink)
            (printing (listed_of L.style self.new.draft) self.new.file self.new.number
            self.new.sink)) }
        ensures fails { IfErr result (λ fault. PrintsPart S.wrote
            (printing (listed_of L.style self.old.draft) self.old.file self.old.number
            self.old.sink) fault
            (printing (listed_of L.style self.new.draft) self.new.file self.new.number
            self.new.sink)) }
    {
        // a law: the items of its pieces are items of its files
        plans_are_well_formed(whole);
        let closes = piece.is_closing();
        write_list(
            &mut self.draft,
            &mut self.block,
            whole,
            piece,
            &mut self.sink,
        )?;
        if closes {
            self.file += 1;
            self.number = 0;
        } else {
            self.number += 1;
        }
        Ok(())
    }

    ghost follows_itself = { λ s.
        prints_itself S.wrote S.wrote_nothing
        (printing (listed_of L.style s.draft) s.file s.number s.sink) };

    ghost follows_on = { λ s t u f h.
        prints_then S.wrote S.wrote_on
        (printing (listed_of L.style s.draft) s.file s.number s.sink)
        (printing (listed_of L.style t.draft) t.file t.number t.sink)
        (printing (listed_of L.style u.draft) u.file u.number u.sink) f h };

    ghost fails_behind = { λ s t u fault f h.
        part_behind S.wrote S.wrote_on
        (printing (listed_of L.style s.draft) s.file s.number s.sink)
        (printing (listed_of L.style t.draft) t.file t.number t.sink)
        (printing (listed_of L.style u.draft) u.file u.number u.sink) fault f h };

    ghost fails_at_once = { λ s.
        prints_no_more S.wrote S.wrote_nothing
        (printing (listed_of L.style s.draft) s.file s.number s.sink) };
}

// Delivers all pieces of the plan to a new printer, as workers cut them. Returns the printer, so that the final contents of a borrowed writer are
// known.
fn scan_all_by<T: Threads + Wait + Sync, L: LineStyle + Drop, S: LineSink + Drop>(
    rt: &T,
    alloc: Global,
    plan: &Plan,
    workers: u8,
    printer: StylePrinter<L, S>,
) -> (StylePrinter<L, S>, Result<(), RunFault>)
    requires some_workers { 0 < workers }
    requires few_workers { workers ≤ max_workers }
    requires plan { printer.draft.plan ≡ plan.now }
    requires file { printer.file ≡ 0 }
    requires number { printer.number ≡ 0 }
    ensures ok { OnOk result.1 (S.wrote printer.sink
        (listing_by (L.style printer.draft.style) plan.now) result.0.sink) }
    ensures part { WrotePrefix S.wrote printer.sink
        (listing_by (L.style printer.draft.style) plan.now) result.0.sink }
{
    match InOrder::<KeepList, StylePrinter<L, S>>::new(alloc, plan, printer) {
        Ok(order) => {
            let (order, answer) = scan_made(rt, alloc, plan, workers, &OpenGate, KeepList, order);
            (order.into_taker(), answer)
        }
        Err(refused) => (refused.value, Err(RunFault::Memory)),
    }
}

// Lists the plan to a sink: by workers, or with none of them on the calling thread.
fn list_by<T: Threads + Wait + Sync, L: LineStyle + Drop, S: LineSink + Drop>(
    rt: &T,
    alloc: Global,
    plan: &Plan,
    workers: u8,
    style: L,
    sink: S,
) -> (S, Result<(), RunFault>)
    requires { workers ≤ max_workers }
    ensures ok { OnOk result.1 (S.wrote sink (listing_by (L.style style) plan.now) result.0) }
    ensures part { WrotePrefix S.wrote sink (listing_by (L.style style) plan.now) result.0 }
{
    if workers == 0 {
        return print_to(alloc, plan, style, sink);
    }
    let printer = StylePrinter::new(alloc, plan, style, sink);
    let (printer, answer) = scan_all_by(rt, alloc, plan, workers, printer);
    (printer.into_sink(), answer)
}

// Does the same as `list_by`, and gathers the lines before they go on. Also after a fault the gathered lines go on, unless the writer failed.
fn list_gathered_by<T: Threads + Wait + Sync, L: LineStyle + Drop, S: LineSink + Drop>(
    rt: &T,
    alloc: Global,
    plan: &Plan,
    workers: u8,
    style: L,
    sink: S,
) -> (S, Result<(), RunFault>)
    requires { workers ≤ max_workers }
    ensures ok { OnOk result.1 (S.wrote sink (listing_by (L.style style) plan.now) result.0) }
    ensures part { WrotePrefix S.wrote sink (listing_by (L.style style) plan.now) result.0 }
{
    let Ok(held) = LineBuffer::new(alloc) else {
        return (sink, Err(RunFault::Memory));
    };
    let gathering = Gathering::new(held, sink);
    let (gathering, answer) = list_by(rt, alloc, plan, workers, style, gathering);
    let (sink, rest) = gathering.finish();
    match rest {
        Ok(()) => (sink, answer),
        Err(_) => (sink, Err(RunFault::Reader)),
    }
}

/// Writes the listing of a plan's files in a style, the lines of each file in order and the files in order. 1 to 8 workers scan them, or with 0 the
/// calling thread. Each line is written by itself, or many are gathered and written at once. After a fault, a prefix of the listing was written.
pub fn list_plan_by<T: Threads + Wait + Sync, L: LineStyle + Drop, W: Write>(
    rt: &T,
    alloc: Global,
    plan: &Plan,
    workers: u8,
    style: L,
    writes: LineWrites,
    out: &mut W,
) -> Result<(), RunFault>
    requires { workers ≤ max_workers }
    ensures ok { OnOk result (Appends (W.contents out.old) (W.contents out.new)
        (listing_by (L.style style) plan.now)) }
    ensures err { OnErr result (AppendsPrefix (W.contents out.old) (W.contents out.new)
        (listing_by (L.style style) plan.now)) }
{
    let sink = Lent { writes, out };
    let (sink, answer) = match writes {
        LineWrites::EachLine => list_by(rt, alloc, plan, workers, style, sink),
        LineWrites::Whole | LineWrites::Flushed => list_gathered_by(
            rt, alloc, plan, workers, style, sink,
        ),
    };
    // taken apart, so that the final contents of the writer are known
    let Lent {
        writes: _writes,
        out: _out,
    } = sink;
    answer
}
