//! Writes the listing of a plan's files on the calling thread, without cutting pieces.

ghost use Rattle.std.specs.Prelude.{◌≡◌, ◌<◌, IfErr, OnErr, OnOk};
ghost use Rattle.lx_piece.specs.Plans.{IsPlan, files_of, items_of};
ghost use Rattle.lx_listing.specs.Lines.{file_lines_by, lines_by};
ghost use Rattle.lx_listing.specs.Listings.{listing_by};
ghost use Rattle.lx_listing.specs.Parts.{WrotePart};
ghost use Rattle.lx_listing.specs.Printing.{WrotePrefix};

use crate::shown_lines::write_cut;
use crate::sink::LineSink;
use lx_line::{LineStyle, PlanDraft};
use lx_piece::{Plan, ReaderFault};
use lx_scan::{Cursor, ItemList, ScanMemory};
use std::alloc::Global;

// Number of items that are scanned at once. With a quarter of them, a listing of C takes 6 % longer.
const AT_ONCE: usize = 1024;

// Writes the lines of a file's items. `items` and `block` are scratch memory: their contents mean nothing before and after.
fn write_items_of<L: LineStyle, S: LineSink>(
    alloc: Global,
    plan: &Plan,
    file: u32,
    draft: &mut PlanDraft<L>,
    items: &mut ItemList,
    block: &mut Vec<u8>,
    sink: &mut S,
) -> Result<(), ReaderFault>
    requires plan { IsPlan plan.now }
    requires draft { draft.old.plan ≡ plan.now }
    requires file { file < files_of plan.now }
    ensures draft { draft.new ≡ draft.old }
    ensures ok { OnOk result (S.wrote sink.old
        (lines_by (L.style draft.old.style) plan.now file (items_of plan.now file)) sink.new) }
    ensures part { IfErr result (λ fault. WrotePart S.wrote sink.old fault
        (lines_by (L.style draft.old.style) plan.now file (items_of plan.now file)) sink.new) }
{
    let tables = plan.tables();
    let text = plan.bytes(file);
    let mut cursor = Cursor::begin();
    let mut memory = ScanMemory::new(alloc);
    let mut is_full = true;
    'further: while is_full {
        items.clear();
        let Ok(()) = cursor.next_items(tables, text, &mut memory, AT_ONCE, items) else {
            return Err(ReaderFault::Memory);
        };
        sink.write_items(block, draft, plan, file, items.as_slice())?;
        is_full = items.len() == AT_ONCE;
    }
    Ok(())
}

// Writes the lines of a file.
fn write_file<L: LineStyle, S: LineSink>(
    alloc: Global,
    plan: &Plan,
    file: u32,
    draft: &mut PlanDraft<L>,
    items: &mut ItemList,
    block: &mut Vec<u8>,
    sink: &mut S,
) -> Result<(), ReaderFault>
    requires plan { IsPlan plan.now }
    requires draft { draft.old.plan ≡ plan.now }
    requires file { file < files_of plan.now }
    ensures draft { draft.new ≡ draft.old }
    ensures ok { OnOk result (S.wrote sink.old
        (file_lines_by (L.style draft.old.style) plan.now file) sink.new) }
    ensures part { IfErr result (λ fault. WrotePart S.wrote sink.old fault
        (file_lines_by (L.style draft.old.style) plan.now file) sink.new) }
{
    write_items_of(alloc, plan, file, draft, items, block, sink)?;
    write_cut(draft.style(), sink, block, file, plan.is_cut(file))
}

/// Writes the lines of a plan's files in a style, one file after the other. After a fault, a prefix of them was written.
pub(crate) fn write_files<L: LineStyle + Drop, S: LineSink>(
    alloc: Global,
    plan: &Plan,
    style: L,
    sink: &mut S,
) -> Result<(), ReaderFault>
    ensures ok { OnOk result (S.wrote sink.old (listing_by (L.style style) plan.now) sink.new) }
    ensures part { OnErr result
        (WrotePrefix S.wrote sink.old (listing_by (L.style style) plan.now) sink.new) }
{
    let mut draft = PlanDraft::new(style, plan);
    let mut items = ItemList::new(alloc);
    let mut block = Vec::new(alloc);
    for file in 0..plan.files() {
        write_file(alloc, plan, file, &mut draft, &mut items, &mut block, sink)?;
    }
    Ok(())
}
