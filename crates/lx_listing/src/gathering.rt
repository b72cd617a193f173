//! Gathers lines before they go to a sink, so that the sink gets many at once.

ghost use Rattle.std.specs.Prelude.{◌≡◌, ◌<◌, ◌≤◌, [], All, IfErr, IfOk, OnOk, OnErr, false, is_err, length, take, true};
ghost use Rattle.lx_scan.specs.ItemParts.{LiesAt, NamesKindAmong, text_at};
ghost use Rattle.lx_piece.specs.Plans.{kinds_of};
ghost use Rattle.lx_listing.specs.Gathered.{Gathers, gathered};
ghost use Rattle.lx_listing.specs.Lines.{lines_at};
ghost use Rattle.lx_listing.specs.Parts.{WrotePart};
ghost use Rattle.lx_listing.specs.Printing.{WrotePrefix};

use crate::parts::{PART, gather_long};
use crate::sink::LineSink;
use lx_line::{LineBuffer, LineStyle, PlanDraft, push_line_with};
use lx_piece::{Plan, ReaderFault};
use lx_scan::{FlatItem, Item};
use std::marker::Model;

/// A sink with a buffer before it. The lines of items are placed directly in the buffer, and go on together. Once the sink failed it gets nothing
/// more.
#[derive(Drop)]
pub struct Gathering<S: LineSink> {
    held: LineBuffer,
    has_failed: bool,
    sink: S,
}

impl<S: LineSink> Model for Gathering<S> {
    ghost use Rattle.lx_listing.specs.Gathered.{Gathered, gathered};

    ghost Value = { Gathered S };

    ghost view = { λ s. gathered s.held s.has_failed s.sink };
}

impl<S: LineSink> Gathering<S> {
    pub fn new(held: LineBuffer, sink: S) -> Gathering<S>
        ensures { result ≡ gathered held false sink }
    {
        Gathering {
            held,
            has_failed: false,
            sink,
        }
    }

    // Appends a block to the buffer. Returns false, without effect, if the buffer has to go on first.
    fn hold(&mut self, block: &[u8]) -> bool
        ensures held { result ≡ true → Gathers S.wrote self.old block.now self.new }
        ensures not { result ≡ false → self.new ≡ self.old }
    {
        self.held.push(block)
    }

    /// Writes the contents of the buffer to the sink.
    pub(crate) fn pass_on(&mut self) -> Result<(), ReaderFault>
        ensures gathers { Gathers S.wrote self.old [] self.new }
        ensures failed { self.new.failed ≡ is_err result }
        ensures empty { OnOk result (self.new.held ≡ []) }
        ensures device { IfErr result (λ fault. fault ≡ ReaderFault.Device) }
    {
        if self.has_failed {
            return Err(ReaderFault::Device);
        }
        let answer = self.sink.write_lines(self.held.as_slice());
        self.held.clear();
        self.has_failed = answer.is_err();
        answer
    }

    // Writes a block to the sink directly. The buffer is empty.
    fn write_through(&mut self, block: &[u8]) -> Result<(), ReaderFault>
        requires empty { self.old.held ≡ [] }
        ensures ok { OnOk result (Gathers S.wrote self.old block.now self.new) }
        ensures err { OnErr result (WrotePrefix (Gathers S.wrote) self.old block.now self.new) }
        ensures device { IfErr result (λ fault. fault ≡ ReaderFault.Device) }
    {
        if self.has_failed {
            return Err(ReaderFault::Device);
        }
        let answer = self.sink.write_lines(block);
        self.has_failed = answer.is_err();
        answer
    }

    /// Appends a block to the buffer. A long block goes to the sink at once.
    pub(crate) fn gather(&mut self, block: &[u8]) -> Result<(), ReaderFault>
        ensures ok { OnOk result (Gathers S.wrote self.old block.now self.new) }
        ensures err { OnErr result (WrotePrefix (Gathers S.wrote) self.old block.now self.new) }
        ensures device { IfErr result (λ fault. fault ≡ ReaderFault.Device) }
    {
        if self.hold(block) {
            return Ok(());
        }
        self.pass_on()?;
        if self.hold(block) {
            return Ok(());
        }
        self.write_through(block)
    }

    /// Gathers the line of an item with this text. Makes it in the block, or in parts if the text is long. Only the tables of the plan count.
    pub(crate) fn gather_line<L: LineStyle>(
        &mut self,
        style: &L,
        block: &mut Vec<u8>,
        plan: &Plan,
        file: u32,
        item: &Item,
        text: &[u8],
    ) -> Result<(), ReaderFault>
        requires { NamesKindAmong (kinds_of plan.now) item.now }
        ensures ok { OnOk result (Gathers S.wrote self.old
            ((L.style style.now).line_with plan.now.table file item.now text.now) self.new) }
        ensures part { IfErr result (λ fault. WrotePart (Gathers S.wrote) self.old fault
            ((L.style style.now).line_with plan.now.table file item.now text.now) self.new) }
    {
        if text.len() > PART {
            return gather_long(style, self, block, plan, file, item, text);
        }
        block.clear();
        let Ok(()) = push_line_with(style, block, plan, file, item, text) else {
            return Err(ReaderFault::Memory);
        };
        self.gather(block.as_slice())
    }

    // Gathers the line of an item whose text is in these bytes, which begin at position `base` of the file.
    fn gather_item<L: LineStyle>(
        &mut self,
        style: &L,
        block: &mut Vec<u8>,
        plan: &Plan,
        file: u32,
        item: &FlatItem,
        bytes: &[u8],
        base: usize,
    ) -> Result<(), ReaderFault>
        requires text { LiesAt bytes.now base item.now }
        requires named { NamesKindAmong (kinds_of plan.now) item.now }
        ensures ok { OnOk result (Gathers S.wrote self.old
            ((L.style style.now).line_with plan.now.table file item.now
            (text_at bytes.now base item.now)) self.new) }
        ensures part { IfErr result (λ fault. WrotePart (Gathers S.wrote) self.old fault
            ((L.style style.now).line_with plan.now.table file item.now
            (text_at bytes.now base item.now)) self.new) }
    {
        let from = item.start() - base;
        let text = &bytes[from..from + item.len()];
        self.gather_line(style, block, plan, file, &item.item(), text)
    }

    // Gathers the lines of the first items: all those that can be placed at once, or one that can't. Returns their number.
    fn gather_some<L: LineStyle>(
        &mut self,
        block: &mut Vec<u8>,
        draft: &mut PlanDraft<L>,
        plan: &Plan,
        file: u32,
        items: &[FlatItem],
        bytes: &[u8],
        base: usize,
    ) -> Result<usize, ReaderFault>
        requires some { 0 < length items.now }
        requires draft { draft.old.plan ≡ plan.now }
        requires texts { All (LiesAt bytes.now base) items.now }
        requires named { All (NamesKindAmong (kinds_of plan.now)) items.now }
        ensures draft { draft.new ≡ draft.old }
        ensures some { IfOk result (λ count. 0 < count) }
        ensures few { IfOk result (λ count. count ≤ length items.now) }
        ensures ok { IfOk result (λ count. Gathers S.wrote self.old
            (lines_at (L.style draft.old.style) plan.now.table file bytes.now base
            (take count items.now)) self.new) }
        ensures part { IfErr result (λ fault. WrotePart (Gathers S.wrote) self.old fault
            (lines_at (L.style draft.old.style) plan.now.table file bytes.now base items.now)
            self.new) }
    {
        let count = draft.place_lines(&mut self.held, plan, file, items, bytes, base);
        if count == 0 {
            self.gather_item(draft.style(), block, plan, file, &items[0], bytes, base)?;
            return Ok(1);
        }
        Ok(count)
    }

    /// Gathers the lines of items. Their texts are in these bytes, which begin at position `base` of the file. Only the tables of the plan count.
    pub(crate) fn gather_items<L: LineStyle>(
        &mut self,
        block: &mut Vec<u8>,
        draft: &mut PlanDraft<L>,
        plan: &Plan,
        file: u32,
        items: &[FlatItem],
        bytes: &[u8],
        base: usize,
    ) -> Result<(), ReaderFault>
        requires draft { draft.old.plan ≡ plan.now }
        requires texts { All (LiesAt bytes.now base) items.now }
        requires named { All (NamesKindAmong (kinds_of plan.now)) items.now }
        ensures draft { draft.new ≡ draft.old }
        ensures ok { OnOk result (Gathers S.wrote self.old
            (lines_at (L.style draft.old.style) plan.now.table file bytes.now base items.now)
            self.new) }
        ensures part { IfErr result (λ fault. WrotePart (Gathers S.wrote) self.old fault
            (lines_at (L.style draft.old.style) plan.now.table file bytes.now base items.now)
            self.new) }
    {
        let mut done = 0;
        while done < items.len() {
            done += self.gather_some(block, draft, plan, file, &items[done..], bytes, base)?;
        }
        Ok(())
    }

    /// Writes the contents of the buffer, and returns the sink.
    pub fn finish(self) -> (S, Result<(), ReaderFault>)
        ensures { Gathers S.wrote self [] (gathered [] (is_err result.1) result.0) }
    {
        let mut gathering = self;
        let answer = gathering.pass_on();
        let Gathering {
            held: _held,
            has_failed: _has_failed,
            sink,
        } = gathering;
        (sink, answer)
    }
}

impl<S: LineSink> LineSink for Gathering<S> {
    ghost use Rattle.lx_listing.specs.Gathered.{Gathers};
    ghost use Rattle.lx_listing.specs.GatheredLaws.{gathers_nothing, gathers_on};

    ghost wrote = { Gathers S.wrote };

    fn write_lines(&mut self, block: &[u8]) -> Result<(), ReaderFault> {
        self.gather(block)
    }

    fn write_items<L: LineStyle>(
        &mut self,
        block: &mut Vec<u8>,
        draft: &mut PlanDraft<L>,
        plan: &Plan,
        file: u32,
        items: &[FlatItem],
    ) -> Result<(), ReaderFault> {
        self.gather_items(block, draft, plan, file, items, plan.bytes(file), 0)
    }

    ghost wrote_nothing = { gathers_nothing S.wrote S.wrote_nothing };

    ghost wrote_on = { gathers_on S.wrote S.wrote_on };
}
