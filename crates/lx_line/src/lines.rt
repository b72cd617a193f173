//! Makes the lines of items.

ghost use Rattle.std.specs.Prelude.{◌≡◌, ◌<◌, ◌≤◌, ◌++◌, All, IfOk, OnOk, length, take};
ghost use Rattle.lx_scan.specs.ItemParts.{IsItemOf, LiesAt, NamesKindAmong};
ghost use Rattle.lx_piece.specs.Plans.{files_of, bytes_of, kinds_of};
ghost use Rattle.lx_line.specs.Lines.{lines_of};
ghost use Rattle.lx_line.specs.Prefixes.{ArePrefixesOf};
ghost use Rattle.lx_line.specs.Styles.{lines_at, lines_by};

use crate::buffer::LineBuffer;
use crate::draft::{Draft, FirstLines};
use crate::plain::{PlainStyle, push_line};
use crate::style::LineStyle;
use lx_piece::Plan;
use lx_scan::{FlatItem, Item};
use std::alloc::AllocError;
use std::marker::Model;
use std::snapshot::Snapshot;

// Least number of lines that are worth the preparation for them.
const MANY: usize = 8;

// Number of bytes of lines that are placed before they go to a growing block.
const LINES: usize = 2048;

/// Appends the lines of a file's items to the block. If an allocation fails, a part of them was appended.
pub fn push_lines(
    block: &mut Vec<u8>,
    plan: &Plan,
    file: u32,
    items: &[FlatItem],
) -> Result<(), AllocError>
    requires file { file < files_of plan.now }
    requires items { All (IsItemOf (kinds_of plan.now) (bytes_of plan.now file)) items.now }
    ensures { OnOk result (block.new.items ≡ block.old.items ++ lines_of plan.now file items.now) }
{
    let style = PlainStyle;
    if items.len() < MANY {
        push_few(&style, block, plan, file, items)
    } else {
        push_many(
            &style,
            &mut Draft::new(&style, plan, file),
            block,
            plan,
            file,
            items,
        )
    }
}

/// Does the same as `push_lines` for items that are given one by one, field by field.
pub fn push_each(
    block: &mut Vec<u8>,
    plan: &Plan,
    file: u32,
    items: &[Item],
) -> Result<(), AllocError>
    requires file { file < files_of plan.now }
    requires items { All (IsItemOf (kinds_of plan.now) (bytes_of plan.now file)) items.now }
    ensures { OnOk result (block.new.items ≡ block.old.items ++ lines_of plan.now file items.now) }
{
    for item in items {
        push_line(&PlainStyle, block, plan, file, item)?;
    }
    Ok(())
}

// Appends lines field by field.
#[inline(never)]
fn push_few<L: LineStyle>(
    style: &L,
    block: &mut Vec<u8>,
    plan: &Plan,
    file: u32,
    items: &[FlatItem],
) -> Result<(), AllocError>
    requires file { file < files_of plan.now }
    requires items { All (IsItemOf (kinds_of plan.now) (bytes_of plan.now file)) items.now }
    ensures { OnOk result (block.new.items
        ≡ block.old.items ++ lines_by (L.style style.now) plan.now file items.now) }
{
    for item in items {
        push_line(style, block, plan, file, &item.item())?;
    }
    Ok(())
}

// Makes the lines of the first items: all those that can be placed at once, or one that needs the plain way. Returns their number.
fn push_some<L: LineStyle>(
    style: &L,
    draft: &mut Draft,
    lines: &mut [u8],
    block: &mut Vec<u8>,
    plan: &Plan,
    file: u32,
    items: &[FlatItem],
) -> Result<usize, AllocError>
    requires some { 0 < length items.now }
    requires file { file < files_of plan.now }
    requires items { All (IsItemOf (kinds_of plan.now) (bytes_of plan.now file)) items.now }
    requires prefixes { ArePrefixesOf (L.prefix style.now plan.now file) draft.old.prefixes }
    ensures some { IfOk result (λ count. 0 < count) }
    ensures few { IfOk result (λ count. count ≤ length items.now) }
    ensures lines { IfOk result (λ count. block.new.items ≡ block.old.items
        ++ lines_by (L.style style.now) plan.now file (take count items.now)) }
    ensures prefixes { ArePrefixesOf (L.prefix style.now plan.now file) draft.new.prefixes }
{
    let bytes = plan.bytes(file);
    let FirstLines { count, end } = draft.place_lines(style, lines, 0, plan, file, items, bytes, 0);
    if count == 0 {
        push_line(style, block, plan, file, &items[0].item())?;
        return Ok(1);
    }
    block.extend_from_slice(&lines[..end])?;
    Ok(count)
}

// Appends lines from ready parts.
#[inline(never)]
fn push_many<L: LineStyle>(
    style: &L,
    draft: &mut Draft,
    block: &mut Vec<u8>,
    plan: &Plan,
    file: u32,
    items: &[FlatItem],
) -> Result<(), AllocError>
    requires file { file < files_of plan.now }
    requires items { All (IsItemOf (kinds_of plan.now) (bytes_of plan.now file)) items.now }
    requires prefixes { ArePrefixesOf (L.prefix style.now plan.now file) draft.old.prefixes }
    ensures lines { OnOk result (block.new.items
        ≡ block.old.items ++ lines_by (L.style style.now) plan.now file items.now) }
    ensures prefixes { ArePrefixesOf (L.prefix style.now plan.now file) draft.new.prefixes }
{
    let mut lines = [0; LINES];
    let mut done = 0;
    while done < items.len() {
        done += push_some(style, draft, &mut lines, block, plan, file, &items[done..])?;
    }
    Ok(())
}

/// The ready parts of a plan's lines in a style, kept from one piece to the next, so that they aren't prepared for each.
#[derive(Drop)]
pub struct PlanDraft<L: LineStyle> {
    style: L,
    draft: Draft,
    // The file whose prefixes are kept.
    file: u32,
    // The plan, for contracts only.
    plan: Snapshot<Plan>,
}

impl<L: LineStyle> Model for PlanDraft<L> {
    ghost use Rattle.lx_line.specs.Prefixes.{ArePrefixesOf};
    ghost use Rattle.lx_line.specs.Styles.{Drafted};

    ghost Value = { Drafted L };

    ghost view = { λ s. record { style = s.style; plan = s.plan.value } };

    ghost invariant = { λ s.
        ArePrefixesOf (L.prefix s.style s.plan.value s.file) s.draft.prefixes };
}

impl<L: LineStyle> PlanDraft<L> {
    /// Makes a draft for the first file of a plan.
    pub fn new(style: L, plan: &Plan) -> PlanDraft<L>
        ensures style { result.style ≡ style }
        ensures plan { result.plan ≡ plan.now }
    {
        let draft = Draft::new(&style, plan, 0);
        PlanDraft {
            style,
            draft,
            file: 0,
            plan: Snapshot::of(plan),
        }
    }

    /// Returns the style.
    pub fn style(&self) -> &L
        ensures { result.now ≡ self.now.style }
    {
        &self.style
    }

    /// Appends the lines of items of a file of its plan to the block. If an allocation fails, a part of them was appended.
    pub fn push_lines(
        &mut self,
        block: &mut Vec<u8>,
        plan: &Plan,
        file: u32,
        items: &[FlatItem],
    ) -> Result<(), AllocError>
        requires plan { self.old.plan ≡ plan.now }
        requires file { file < files_of plan.now }
        requires items { All (IsItemOf (kinds_of plan.now) (bytes_of plan.now file)) items.now }
        ensures same { self.new ≡ self.old }
        ensures lines { OnOk result (block.new.items
            ≡ block.old.items ++ lines_by (L.style self.old.style) plan.now file items.now) }
    {
        if items.len() < MANY {
            return push_few(&self.style, block, plan, file, items);
        }
        if self.file != file {
            self.file = file;
            self.draft.begin(&self.style, plan, file);
        }
        push_many(&self.style, &mut self.draft, block, plan, file, items)
    }

    /// Appends to the buffer the lines of the first items. Ends before one that has no room or needs the plain way. Returns their number. The texts
    /// are in these bytes, which begin at position `base` of the file. The plan need not have the items: only its tables count.
    pub fn place_lines(
        &mut self,
        buffer: &mut LineBuffer,
        plan: &Plan,
        file: u32,
        items: &[FlatItem],
        bytes: &[u8],
        base: usize,
    ) -> usize
        requires plan { self.old.plan ≡ plan.now }
        requires texts { All (LiesAt bytes.now base) items.now }
        requires named { All (NamesKindAmong (kinds_of plan.now)) items.now }
        ensures same { self.new ≡ self.old }
        ensures few { result ≤ length items.now }
        ensures lines { buffer.new ≡ buffer.old
            ++ lines_at (L.style self.old.style) plan.now.table file bytes.now base
            (take result items.now) }
    {
        if self.file != file && items.len() < MANY {
            return 0;
        }
        if self.file != file {
            self.file = file;
            self.draft.begin(&self.style, plan, file);
        }
        buffer.place_lines(&self.style, &mut self.draft, plan, file, items, bytes, base)
    }
}
