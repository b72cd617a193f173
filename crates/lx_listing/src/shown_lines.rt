//! Writes the lines of a piece's contents.

ghost use Rattle.std.specs.Prelude.{◌≡◌, ◌<◌, All, IfErr, OnOk};
ghost use Rattle.lx_scan.specs.ItemParts.{IsItemOf};
ghost use Rattle.lx_piece.specs.Plans.{bytes_of, files_of, kinds_of};
ghost use Rattle.lx_listing.specs.Lines.{cut_lines_by, lines_of};
ghost use Rattle.lx_listing.specs.Parts.{WrotePart};

use crate::sink::LineSink;
use crate::{Shown, ShownForm, Spares, emptied};
use lx_line::{LineStyle, PlainStyle, PlanDraft, push_each};
use lx_piece::{Plan, ReaderFault};
use lx_scan::Item;
use std::alloc::Global;

// Writes the lines of items as they were given. If an allocation fails, none was written.
fn write_given<S: LineSink>(
    items: &[Item],
    block: &mut Vec<u8>,
    plan: &Plan,
    file: u32,
    sink: &mut S,
) -> Result<(), ReaderFault>
    requires file { file < files_of plan.now }
    requires items { All (IsItemOf (kinds_of plan.now) (bytes_of plan.now file)) items.now }
    ensures ok { OnOk result (S.wrote sink.old (lines_of plan.now file items.now) sink.new) }
    ensures part { IfErr result
        (λ fault. WrotePart S.wrote sink.old fault (lines_of plan.now file items.now) sink.new) }
{
    block.clear();
    let Ok(()) = push_each(block, plan, file, items) else {
        return Err(ReaderFault::Memory);
    };
    sink.write_lines(block.as_slice())
}

/// Writes the lines of the items, and makes them first if the piece doesn't carry them. Returns a block whose memory can be reused.
pub(crate) fn write_shown<Y: Spares, S: LineSink>(
    shown: Shown,
    alloc: Global,
    spares: &Y,
    draft: &mut PlanDraft<PlainStyle>,
    plan: &Plan,
    file: u32,
    sink: &mut S,
) -> Result<Vec<u8>, ReaderFault>
    requires draft { draft.old.plan ≡ plan.now }
    requires plan { shown.plan ≡ plan.now }
    requires same_file { shown.file ≡ file }
    requires file { file < files_of plan.now }
    ensures draft { draft.new ≡ draft.old }
    ensures ok { OnOk result (S.wrote sink.old (lines_of plan.now file shown.items) sink.new) }
    ensures part { IfErr result
        (λ fault. WrotePart S.wrote sink.old fault (lines_of plan.now file shown.items) sink.new) }
{
    match shown.into_form() {
        ShownForm::Bare(items) => {
            let mut block = emptied(alloc, spares.take_block(file));
            sink.write_items(&mut block, draft, plan, file, items.as_slice())?;
            spares.give_list(file, items);
            Ok(block)
        }
        ShownForm::Given(items) => {
            let mut block = emptied(alloc, spares.take_block(file));
            write_given(items.as_slice(), &mut block, plan, file, sink)?;
            Ok(block)
        }
        ShownForm::Lines { block, .. } => {
            sink.write_lines(block.as_slice())?;
            Ok(block)
        }
    }
}

/// Writes the cut line of a file if its reading failed.
pub(crate) fn write_cut<L: LineStyle, S: LineSink>(
    style: &L,
    sink: &mut S,
    block: &mut Vec<u8>,
    file: u32,
    cut: bool,
) -> Result<(), ReaderFault>
    ensures ok { OnOk result
        (S.wrote sink.old (cut_lines_by (L.style style.now) file cut) sink.new) }
    ensures part { IfErr result (λ fault.
        WrotePart S.wrote sink.old fault (cut_lines_by (L.style style.now) file cut) sink.new) }
{
    if !cut {
        return Ok(());
    }
    block.clear();
    let Ok(()) = style.push_cut_line(block, file) else {
        return Err(ReaderFault::Memory);
    };
    sink.write_lines(block.as_slice())?;
    Ok(())
}
