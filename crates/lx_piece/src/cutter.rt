//! Cuts the pieces of a file on demand.

ghost use Rattle.std.specs.Prelude.{if◌then◌else◌, ◌≡◌, ◌+◌, ◌<◌, ◌≤◌, ◌++◌, [], ℕ, List, drop, length, take, IfNone, IfOk, OnErr, OnOk, MatchOption, None};
ghost use Rattle.lx_scan.specs.Cursors.{IsInText, items_left, listed};
ghost use Rattle.lx_scan.specs.Failing.{IsMemoryOf};
ghost use Rattle.lx_scan.specs.declared.item.Item.{Item};
ghost use Rattle.lx_piece.specs.Cutting.{IsCutterOf, items_ahead};
ghost use Rattle.lx_piece.specs.Pieces.{IsPieceBy, IsPieceOf, mark_of, piece_at, piece_by, pieces_of};
ghost use Rattle.lx_piece.specs.Plans.{bytes_of, files_of, is_cut};

use crate::maker::{KeepItems, Maker};
use crate::piece::{Mark, Piece};
use crate::plan::{Plan, plans_are_well_formed};
use lx_scan::{Cursor, Item, ItemList, ScanMemory};
use lx_tables::Tables;
use std::alloc::{AllocError, Global};
use std::marker::Model;
use std::snapshot::Snapshot;

// Appends an item, if there is one.
fn push_some(item: Option<Item>, items: &mut ItemList) -> Result<(), AllocError>
    ensures { OnOk result (items.new ≡ items.old ++ listed item) }
{
    if let Some(item) = item {
        items.push(item)?;
    }
    Ok(())
}

// Removes the item after the first `most`, if there is one.
fn take_further(items: &mut ItemList, most: usize) -> Option<Item>
    requires { length items.old ≤ most + 1 }
    ensures items { items.new ≡ take most items.old }
    ensures behind { listed result ≡ drop most items.old }
{
    if items.len() > most {
        items.pop()
    } else {
        None
    }
}

// Takes at most `most` of the next items. Returns the item after them, which is scanned together with them.
fn take_items(
    tables: &Tables,
    text: &[u8],
    cursor: &mut Cursor,
    memory: &mut ScanMemory,
    first: Option<Item>,
    most: u32,
    items: &mut ItemList,
) -> Result<Option<Item>, AllocError>
    requires in_text { IsInText tables.now text.now cursor.old }
    requires memory { IsMemoryOf tables.now text.now memory.old }
    requires none { items.old ≡ [] }
    ensures in_text { IsInText tables.now text.now cursor.new }
    ensures memory { IsMemoryOf tables.now text.now memory.new }
    ensures items { IfOk result
        (λ _. items.new ≡ take most (items_ahead tables.now text.now first cursor.old)) }
    ensures rest { IfOk result (λ next.
        items_ahead tables.now text.now next cursor.new
        ≡ drop most (items_ahead tables.now text.now first cursor.old)) }
    ensures end { IfOk result
        (λ next. IfNone next (drop most (items_ahead tables.now text.now first cursor.old) ≡ [])) }
{
    let most = most as usize;
    push_some(first, items)?;
    cursor.next_items(tables, text, memory, most + 1, items)?;
    Ok(take_further(items, most))
}

// Returns the mark of a piece. The mark of the last piece is Cut if its file's reading failed, and otherwise Whole.
fn mark(is_last: bool, is_cut: bool) -> Mark
    ensures { result ≡ (if is_last then (if is_cut then Mark.Cut else Mark.Whole) else Mark.More) }
{
    match (is_last, is_cut) {
        (false, _) => Mark::More,
        (true, false) => Mark::Whole,
        (true, true) => Mark::Cut,
    }
}

/// A cutter of a file into its pieces, one after the other. It scans no further than to the first item after the piece.
#[derive(Drop)]
pub struct Cutter {
    alloc: Global,
    // The plan, for contracts only.
    plan: Snapshot<Plan>,
    file: u32,
    // Number of the next piece.
    number: u64,
    cursor: Cursor,
    // The item after the last piece. It was scanned for that piece's mark.
    ahead: Option<Item>,
    // Memory of the scan of this file by the plan's tables.
    memory: ScanMemory,
}

impl Model for Cutter {
    ghost use Rattle.lx_scan.specs.Failing.{IsMemoryOf};
    ghost use Rattle.lx_piece.specs.Cutting.{Cutting};
    ghost use Rattle.lx_piece.specs.Plans.{bytes_of};

    ghost Value = { Cutting };

    ghost view = { λ s.
        record
        { plan = s.plan.value; file = s.file; next = s.number; cursor = s.cursor; ahead = s.ahead } };

    ghost invariant = { λ s.
        IsMemoryOf s.plan.value.table (bytes_of s.plan.value s.file) s.memory };
}

impl Cutter {
    /// Returns a cutter at the first piece of a file. Allocates nothing.
    pub fn new(alloc: Global, plan: &Plan, file: u32) -> Cutter
        requires { file < files_of plan.now }
        ensures cutter { IsCutterOf plan.now result }
        ensures file { result.file ≡ file }
        ensures first { result.next ≡ 0 }
    {
        // a law: the plan's tables have a start condition
        plans_are_well_formed(plan);
        Cutter {
            alloc,
            plan: Snapshot::of(plan),
            file,
            number: 0,
            cursor: Cursor::begin(),
            ahead: None,
            memory: ScanMemory::new(alloc),
        }
    }

    /// Returns the next piece of the file, which carries its items. Returns `None` after the last piece, and from then on. The plan is the one that
    /// the cutter was made with. If an allocation fails, nothing changes.
    pub fn next_piece(&mut self, plan: &Plan) -> Result<Option<Piece>, AllocError>
        requires { IsCutterOf plan.now self.old }
        ensures cutter { IsCutterOf plan.now self.new }
        ensures file { self.new.file ≡ self.old.file }
        ensures piece { IfOk result (λ next. MatchOption next
            ((self.old.next ≡ pieces_of plan.now self.old.file) × (self.new ≡ self.old))
            (λ piece. IsPieceOf plan.now piece × (piece ≡ piece_at plan.now self.old.file self.old.next) × (self.new.next ≡ self.old.next + 1))) }
        ensures err { OnErr result (self.new ≡ self.old) }
    {
        self.next_made(plan, &mut KeepItems)
    }

    /// Does the same as `next_piece` for a piece that carries what the maker makes of its items.
    pub fn next_made<M: Maker>(
        &mut self,
        plan: &Plan,
        maker: &mut M,
    ) -> Result<Option<Piece<M::Made>>, AllocError>
        requires { IsCutterOf plan.now self.old }
        ensures cutter { IsCutterOf plan.now self.new }
        ensures file { self.new.file ≡ self.old.file }
        ensures piece { IfOk result (λ next. MatchOption next
            ((self.old.next ≡ pieces_of plan.now self.old.file) × (self.new ≡ self.old))
            (λ piece. IsPieceBy M.made plan.now piece × (piece ≡ piece_by M.made plan.now self.old.file self.old.next) × (self.new.next ≡ self.old.next + 1))) }
        ensures err { OnErr result (self.new ≡ self.old) }
    {
        let most = plan.per_piece();
        if self.number > 0 && self.ahead.is_none() {
            return Ok(None);
        }
        // no piece has this number
        if self.number == u64::MAX {
            return Err(AllocError);
        }
        let text = plan.bytes(self.file);
        let mut cursor = self.cursor;
        // few bytes left mean few items, except for items that are echoed more than once
        let expected = (most as usize + 1).min(text.len() - cursor.offset() + 1);
        let mut items = maker.room(self.alloc, expected)?;
        let ahead = take_items(
            plan.tables(),
            text,
            &mut cursor,
            &mut self.memory,
            self.ahead,
            most,
            &mut items,
        )?;
        let carried = maker.make(plan, self.file, items)?;
        let piece = Piece {
            run: plan.run(),
            file: self.file,
            number: self.number,
            mark: mark(ahead.is_none(), plan.is_cut(self.file)),
            items: carried,
        };
        self.number += 1;
        self.cursor = cursor;
        self.ahead = ahead;
        Ok(Some(piece))
    }
}
