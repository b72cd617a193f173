//! Writes the lines of files that arrive in blocks, as soon as their items are decided.

ghost use Rattle.std.specs.Prelude.{◌≡◌, [], ◌++◌, ℕ, All, IfErr, IfOk, List, OnOk, false, is_err};
ghost use Rattle.lx_scan.specs.ItemParts.{NamesKindAmong};
ghost use Rattle.lx_scan.specs.Streams.{IsDrained, IsFedOf, IsKept, IsOver, first_stream};
ghost use Rattle.lx_piece.specs.Plans.{Planned, bytes_of, input_of, kinds_of};
ghost use Rattle.lx_listing.specs.Gathered.{Gathered, Gathers, gathered};
ghost use Rattle.lx_listing.specs.Lines.{file_lines_by, lines_by};
ghost use Rattle.lx_listing.specs.Streamed.{HasLines, IsPrompt, IsScanning, ListsGiven};

use crate::gathering::Gathering;
use crate::shown_lines::write_cut;
use crate::sink::LineSink;
use lx_line::{LineBuffer, LineStyle, PlanDraft};
use lx_piece::{Plan, ReaderFault, plans_are_well_formed};
use lx_scan::lines::items_have_their_lines;
use lx_scan::{BlockScanner, FlatItem, ItemList};
use std::alloc::{AllocFailed, Global};
use std::marker::Model;

// Number of items that are found at once.
const AT_ONCE: usize = 1024;

/// A reader of a text that arrives in blocks.
pub trait BlockTaker {
    /// These bytes were taken between one state and a later one, in blocks.
    ghost takes: { Self → List ℕ → Self → Type 0 };

    /// Takes the next block.
    fn take_block(&mut self, block: &[u8]) -> Result<(), ReaderFault>
        ensures { OnOk result (takes self.old block.now self.new) };

    ghost takes_nothing: { (s : Self) → takes s [] s };

    ghost takes_on: { (s t u : Self) (xs ys : List ℕ) → takes s xs t → takes t ys u → takes s (xs ++ ys) u };
}

/// Writes the lines of files in a style while the files arrive in blocks, one file after the other. After each block, the lines of all items that are
/// decided go to the sink.
#[derive(Drop)]
pub struct StreamLines<'p, L: LineStyle, S: LineSink> {
    alloc: Global,
    // Only its tables count.
    plan: &'p Plan,
    file: u32,
    // The style, and ready parts of the lines.
    draft: PlanDraft<L>,
    scanner: BlockScanner,
    // Scratch memory: their contents mean nothing.
    items: ItemList,
    block: Vec<u8>,
    sink: Gathering<S>,
}

impl<'p, L: LineStyle, S: LineSink> Model for StreamLines<'p, L, S> {
    ghost use Rattle.std.specs.Prelude.{◌≡◌, false};
    ghost use Rattle.lx_listing.specs.Streamed.{IsScanning, Streamed};

    ghost Value = { Streamed L S };

    ghost view = { λ s. record
        { style = s.draft.style; plan = s.plan.now; file = s.file; stream = s.scanner; sink = s.sink } };

    ghost invariant = { λ s.
        IsScanning s.plan.now.table s.scanner × (s.scanner.has_ended ≡ false)
        × (s.draft.plan ≡ s.plan.now) };
}

// Gathers the lines of items that a scanner keeps.
fn write_kept<L: LineStyle, S: LineSink>(
    draft: &mut PlanDraft<L>,
    plan: &Plan,
    file: u32,
    scanner: &BlockScanner,
    items: &[FlatItem],
    block: &mut Vec<u8>,
    sink: &mut Gathering<S>,
) -> Result<(), ReaderFault>
    requires draft { draft.old.plan ≡ plan.now }
    requires kept { All (IsKept scanner.now) items.now }
    requires named { All (NamesKindAmong (kinds_of plan.now)) items.now }
    ensures draft { draft.new ≡ draft.old }
    ensures lines { OnOk result ((whole : Planned) (rest : List ℕ) → whole.table ≡ plan.now.table
        → IsFedOf scanner.now (bytes_of whole file) rest → Gathers S.wrote sink.old
        (lines_by (L.style draft.old.style) whole file items.now) sink.new) }
{
    let (bytes, base) = scanner.bytes();
    sink.gather_items(block, draft, plan, file, items, bytes, base)
}

// Gathers the lines of all items that are decided.
fn write_decided<L: LineStyle, S: LineSink>(
    draft: &mut PlanDraft<L>,
    plan: &Plan,
    file: u32,
    scanner: &mut BlockScanner,
    items: &mut ItemList,
    block: &mut Vec<u8>,
    sink: &mut Gathering<S>,
) -> Result<(), ReaderFault>
    requires draft { draft.old.plan ≡ plan.now }
    requires scanning { IsScanning plan.now.table scanner.old }
    ensures draft { draft.new ≡ draft.old }
    ensures scanning { IsScanning plan.now.table scanner.new }
    ensures end { scanner.new.has_ended ≡ scanner.old.has_ended }
    ensures lists { OnOk result (ListsGiven S.wrote (L.style draft.old.style) file scanner.old
        sink.old scanner.new sink.new) }
    ensures over { OnOk result (IsOver scanner.new) }
    ensures drained { OnOk result (IsDrained scanner.new) }
{
    // laws: each item has a kind that the tables name
    items_have_their_lines();
    plans_are_well_formed(plan);
    let mut is_full = true;
    'further: while is_full {
        items.clear();
        let Ok(()) = scanner.next_items(plan.tables(), AT_ONCE, items) else {
            return Err(ReaderFault::Memory);
        };
        write_kept(draft, plan, file, scanner, items.as_slice(), block, sink)?;
        is_full = items.len() == AT_ONCE;
    }
    Ok(())
}

impl<'p, L: LineStyle, S: LineSink> StreamLines<'p, L, S> {
    /// Makes a writer of lines before the first byte of file 0. Only the tables of the plan count. Err: an allocation failed; the sink is returned.
    pub fn new(
        alloc: Global,
        plan: &'p Plan,
        style: L,
        sink: S,
    ) -> Result<StreamLines<'p, L, S>, AllocFailed<S>>
    where
        L: Drop,
        S: Drop,
        ensures style { IfOk result (λ lines. lines.style ≡ style) }
        ensures plan { IfOk result (λ lines. lines.plan ≡ plan.now) }
        ensures stream { IfOk result (λ lines. lines.stream ≡ first_stream plan.now.table) }
        ensures sink { IfOk result (λ lines. lines.sink ≡ gathered [] false sink) }
        ensures back { IfErr result (λ refused. refused.value ≡ sink) }
    {
        let Ok(held) = LineBuffer::new(alloc) else {
            return Err(AllocFailed { value: sink });
        };
        Ok(StreamLines {
            alloc,
            plan,
            file: 0,
            draft: PlanDraft::new(style, plan),
            scanner: BlockScanner::new(alloc, plan.tables()),
            items: ItemList::new(alloc),
            block: Vec::new(alloc),
            sink: Gathering::new(held, sink),
        })
    }

    /// Sets the number of the file.
    pub fn begin_file(&mut self, file: u32)
        ensures { self.new ≡ record self.old { file = file } }
    {
        self.file = file;
    }

    /// Ends the file after the bytes that were taken: writes the lines of its last items, and the cut line if its reading failed. Then it is before the
    /// first byte of a further file.
    pub fn end_file(&mut self, is_cut: bool) -> Result<(), ReaderFault>
        ensures style { self.new.style ≡ self.old.style }
        ensures plan { self.new.plan ≡ self.old.plan }
        ensures stream { self.new.stream ≡ first_stream self.old.plan.table }
        ensures lines { OnOk result ((start : Gathered S) (front : List ℕ) (whole : Planned)
            → HasLines S.wrote (L.style self.old.style) self.old.file self.old.stream front start
            self.old.sink
            → whole.table ≡ self.old.plan.table
            → input_of whole self.old.file ≡ record { bytes = front; cut = is_cut }
            → Gathers S.wrote start (file_lines_by (L.style self.old.style) whole self.old.file)
            self.new.sink) }
        ensures prompt { OnOk result (IsPrompt self.new) }
    {
        self.scanner.end();
        let answer = write_decided(
            &mut self.draft,
            self.plan,
            self.file,
            &mut self.scanner,
            &mut self.items,
            &mut self.block,
            &mut self.sink,
        );
        self.scanner = BlockScanner::new(self.alloc, self.plan.tables());
        answer?;
        write_cut(
            self.draft.style(),
            &mut self.sink,
            &mut self.block,
            self.file,
            is_cut,
        )?;
        self.sink.pass_on()
    }

    /// Writes what is held, and returns the sink.
    pub fn finish(self) -> (S, Result<(), ReaderFault>)
    where
        L: Drop,
        ensures { Gathers S.wrote self.entry.sink [] (gathered [] (is_err result.1) result.0) }
    {
        let StreamLines {
            alloc: _alloc,
            plan: _plan,
            file: _file,
            draft: _draft,
            scanner: _scanner,
            items: _items,
            block: _block,
            sink,
        } = self;
        sink.finish()
    }
}

impl<'p, L: LineStyle, S: LineSink> BlockTaker for StreamLines<'p, L, S> {
    ghost use Rattle.lx_listing.specs.Streamed.{TakesBytes};
    ghost use Rattle.lx_listing.specs.StreamedLaws.{takes_nothing, takes_on};

    ghost takes = { TakesBytes L.style S.wrote };

    fn take_block(&mut self, block: &[u8]) -> Result<(), ReaderFault> {
        let Ok(()) = self.scanner.feed(block) else {
            return Err(ReaderFault::Memory);
        };
        write_decided(
            &mut self.draft,
            self.plan,
            self.file,
            &mut self.scanner,
            &mut self.items,
            &mut self.block,
            &mut self.sink,
        )?;
        self.sink.pass_on()
    }

    ghost takes_nothing = { takes_nothing L.style S.wrote };

    ghost takes_on = { takes_on L.style S.wrote };
}
