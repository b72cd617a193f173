//! Sinks for a listing's lines.

ghost use Rattle.std.specs.Prelude.{◌≡◌, ◌<◌, [], ◌++◌, ℕ, All, List, IfErr, OnOk, OnErr};
ghost use Rattle.lx_scan.specs.ItemParts.{IsItemOf};
ghost use Rattle.lx_piece.specs.Plans.{bytes_of, files_of, kinds_of};
ghost use Rattle.lx_listing.specs.Lines.{lines_by};
ghost use Rattle.lx_listing.specs.Parts.{WrotePart};
ghost use Rattle.lx_listing.specs.Printing.{WrotePrefix};

use crate::{LineWrites, write_block};
use lx_line::{LineStyle, PlanDraft};
use lx_piece::{Plan, ReaderFault};
use lx_scan::FlatItem;
use std::io::Write;

/// A sink for lines, a block of them at a time.
pub trait LineSink {
    /// These bytes were written between one state and a later one.
    ghost wrote: { Self → List ℕ → Self → Type 0 };

    /// Writes a block of lines. After a fault, a prefix of it was written.
    fn write_lines(&mut self, block: &[u8]) -> Result<(), ReaderFault>
        ensures ok { OnOk result (wrote self.old block.now self.new) }
        ensures err { OnErr result (WrotePrefix wrote self.old block.now self.new) }
        ensures device { IfErr result (λ fault. fault ≡ ReaderFault.Device) };

    /// Writes the lines of a file's items, which the draft makes. By default it writes them as one block. `block` is scratch memory: its contents
    /// mean nothing before and after. After a fault, a prefix of the lines was written, and whole lines if an allocation failed.
    fn write_items<L: LineStyle>(
        &mut self,
        block: &mut Vec<u8>,
        draft: &mut PlanDraft<L>,
        plan: &Plan,
        file: u32,
        items: &[FlatItem],
    ) -> Result<(), ReaderFault>
        requires draft { draft.old.plan ≡ plan.now }
        requires file { file < files_of plan.now }
        requires items { All (IsItemOf (kinds_of plan.now) (bytes_of plan.now file)) items.now }
        ensures draft { draft.new ≡ draft.old }
        ensures ok { OnOk result (wrote self.old
            (lines_by (L.style draft.old.style) plan.now file items.now) self.new) }
        ensures part { IfErr result (λ fault. WrotePart wrote self.old fault
            (lines_by (L.style draft.old.style) plan.now file items.now) self.new) }
    {
        block.clear();
        let Ok(()) = draft.push_lines(block, plan, file, items) else {
            return Err(ReaderFault::Memory);
        };
        self.write_lines(block.as_slice())
    }

    ghost wrote_nothing: { (s : Self) → wrote s [] s };

    ghost wrote_on: { (s t u : Self) (xs ys : List ℕ) → wrote s xs t → wrote t ys u → wrote s (xs ++ ys) u };
}

/// A sink that owns its writer.
#[derive(Drop)]
pub struct Owned<W: Write> {
    pub out: W,
    pub writes: LineWrites,
}

impl<W: Write> LineSink for Owned<W> {
    ghost use Rattle.std.specs.Io.KnownBytes.{Appends};
    ghost use Rattle.lx_listing.specs.AppendingLaws.{appends_both, appends_nothing};

    ghost wrote = { λ s bytes t. Appends (W.contents s.out) (W.contents t.out) bytes };

    fn write_lines(&mut self, block: &[u8]) -> Result<(), ReaderFault> {
        write_block(&mut self.out, self.writes, block)
    }

    ghost wrote_nothing = { λ s. appends_nothing (W.contents s.out) };

    ghost wrote_on = { λ s t u xs ys f h.
        appends_both (W.contents s.out) (W.contents t.out) (W.contents u.out) xs ys f h };
}

/// A sink that borrows its writer. The writer stays the same one, so that its final contents are known. (It is the last field: the prover loses a
/// writer that comes before another field.)
#[derive(Drop)]
pub struct Lent<'w, W: Write> {
    pub writes: LineWrites,
    pub out: &'w mut W,
}

impl<'w, W: Write> LineSink for Lent<'w, W> {
    ghost use Rattle.std.specs.Prelude.{◌≡◌};
    ghost use Rattle.std.specs.Io.KnownBytes.{Appends};
    ghost use Rattle.std.proofs.Common.{refl, ◌∙◌};
    ghost use Rattle.lx_listing.specs.AppendingLaws.{appends_both, appends_nothing};

    ghost wrote = { λ s bytes t.
        Appends (W.contents s.out.now) (W.contents t.out.now) bytes
        × (t.out.ghost_name ≡ s.out.ghost_name) };

    fn write_lines(&mut self, block: &[u8]) -> Result<(), ReaderFault> {
        write_block(self.out, self.writes, block)
    }

    ghost wrote_nothing = { λ s. (appends_nothing (W.contents s.out.now), refl) };

    ghost wrote_on = { λ s t u xs ys f h. (
      appends_both (W.contents s.out.now) (W.contents t.out.now) (W.contents u.out.now) xs ys f.0
          h.0,
      h.1 ∙ f.1,
    ) };
}
