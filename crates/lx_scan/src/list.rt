//! Lists of items that are reused.

ghost use Rattle.std.specs.Prelude.{◌≡◌, ◌<◌, ◌≤◌, ◌+◌, ◌-◌, ◌^◌, [], ◌∷◌, ◌++◌, ℕ, IfNone, IfOk, OnOk, if◌then◌else◌, length, nat_eq, slice_index, take};
ghost use Rattle.lx_tables.specs.Joined.{AreLabels};
ghost use Rattle.lx_tables.specs.Model.{Table};
ghost use Rattle.lx_scan.specs.Cursors.{listed};
ghost use Rattle.lx_scan.specs.Ends.{AreEnds, end_of, ends_from, items_of_ends, line_of};

use crate::ends::End;
use crate::flat::FlatItem;
use crate::item::Item;
use crate::place::Place;
use lx_tables::Tables;
use std::alloc::{AllocError, Global};
use std::marker::Model;

/// A list of items. It keeps its memory when it is cleared.
#[derive(Drop)]
pub struct ItemList {
    // Items after the first `len` mean nothing.
    room: Vec<FlatItem>,
    len: usize,
}

impl Model for ItemList {
    ghost use Rattle.std.specs.Prelude.{◌≤◌, List, length, take};
    ghost use Rattle.lx_scan.specs.declared.item.Item.{Item};

    ghost Value = { List Item };

    ghost view = { λ s. take s.len s.room.items };

    ghost invariant = { λ s. s.len ≤ length s.room.items };
}

// Makes room for `count` items.
fn make_room(room: &mut Vec<FlatItem>, count: usize) -> Result<(), AllocError>
    ensures same { (n : ℕ) → n ≤ length room.old.items
        → take n room.new.items ≡ take n room.old.items }
    ensures more { length room.old.items ≤ length room.new.items }
    ensures enough { OnOk result (count ≤ length room.new.items) }
{
    if count > room.len() {
        room.reserve(count - room.len())?;
    }
    while room.len() < count {
        room.push(FlatItem {
            line: 0,
            start: 0,
            len: 0,
            label: 0,
        })?;
    }
    Ok(())
}

// Returns 1 for the label of an item, otherwise 0.
#[inline(always)]
fn item_count(label: u64) -> usize
    ensures value { result ≡ (if nat_eq label 0 then 0 else 1) }
    ensures few { result ≤ 1 }
{
    if label == 0 { 0 } else { 1 }
}

// The result of placing items: their end in the room, and the position and line after the last match.
#[derive(Clone, Copy)]
struct Placed {
    len: usize,
    offset: usize,
    line: u64,
}

// Places the items of matches one after the other, whose ends are counted from a place. Each match writes an item after the last one, which counts only
// if the match has one. So no jump depends on that.
fn place_items(
    tables: &Tables,
    labels: &[u64],
    ends: &[End],
    from: Place,
    room: &mut [FlatItem],
    at: usize,
) -> Placed
    requires labels { AreLabels tables.now labels.now }
    requires ends { AreEnds tables.now from.offset (ends_from from ends.now) }
    requires end { end_of from.offset (ends_from from ends.now) + 1 < 2 ^ 64 }
    requires line { 1 ≤ from.line }
    requires room { at + length ends.now ≤ length room.old }
    ensures items { take result.len room.new ≡ take at room.old
        ++ items_of_ends tables.now from.offset from.line (ends_from from ends.now) }
    ensures few { result.len ≤ at + length ends.now }
    ensures within { result.len ≤ length room.new }
    ensures offset { result.offset ≡ end_of from.offset (ends_from from ends.now) }
    ensures line { result.line ≡ line_of from.line (ends_from from ends.now) }
{
    let lines = from.line - 1;
    let mut rest = ends;
    let mut start = from.offset;
    let mut line = from.line;
    let mut len = at;
    while let Some((end, more)) = rest.split_first() {
        let label = labels[end.code];
        let offset = from.offset + end.offset;
        room[len] = FlatItem {
            line,
            start,
            len: offset - start,
            label,
        };
        len += item_count(label);
        start = offset;
        line = lines + end.line;
        rest = more;
    }
    Placed {
        len,
        offset: start,
        line,
    }
}

impl ItemList {
    /// Returns an empty list. Allocates nothing.
    pub fn new(alloc: Global) -> ItemList
        ensures { result ≡ [] }
    {
        ItemList {
            room: Vec::new(alloc),
            len: 0,
        }
    }

    pub fn len(&self) -> usize
        ensures { result ≡ length self.now }
    {
        self.len
    }

    /// Returns the number of items for which there is memory.
    pub fn capacity(&self) -> usize {
        self.room.capacity()
    }

    pub fn as_slice(&self) -> &[FlatItem]
        ensures { result.now ≡ self.now }
    {
        &self.room[..self.len]
    }

    pub fn clear(&mut self)
        ensures { self.new ≡ [] }
    {
        self.len = 0;
    }

    /// Makes room for `count` items in total.
    pub fn reserve(&mut self, count: usize) -> Result<(), AllocError>
        ensures { self.new ≡ self.old }
    {
        make_room(&mut self.room, count)
    }

    /// Appends an item.
    pub fn push(&mut self, item: Item) -> Result<(), AllocError>
        ensures { OnOk result (self.new ≡ self.old ++ item ∷ []) }
    {
        make_room(&mut self.room, self.len + 1)?;
        self.room[self.len] = FlatItem::of(item);
        self.len += 1;
        Ok(())
    }

    /// Removes the last item.
    pub fn pop(&mut self) -> Option<Item>
        ensures items { self.old ≡ self.new ++ listed result }
        ensures none { IfNone result (self.old ≡ []) }
    {
        if self.len == 0 {
            return None;
        }
        self.len -= 1;
        Some(self.room[self.len].item())
    }

    /// Appends the items of matches, whose ends are counted from a place. Returns the position where the last match ended, and the line there.
    pub(crate) fn push_ends(
        &mut self,
        tables: &Tables,
        labels: &[u64],
        ends: &[End],
        from: Place,
    ) -> Result<(usize, u64), AllocError>
        requires labels { AreLabels tables.now labels.now }
        requires ends { AreEnds tables.now from.offset (ends_from from ends.now) }
        requires end { end_of from.offset (ends_from from ends.now) + 1 < 2 ^ 64 }
        requires line { 1 ≤ from.line }
        ensures items { OnOk result (self.new ≡ self.old
            ++ items_of_ends tables.now from.offset from.line (ends_from from ends.now)) }
        ensures few { OnOk result (length self.new ≤ length self.old + length ends.now) }
        ensures offset { IfOk result
            (λ end. end.0 ≡ end_of from.offset (ends_from from ends.now)) }
        ensures line { IfOk result (λ end. end.1 ≡ line_of from.line (ends_from from ends.now)) }
    {
        make_room(&mut self.room, self.len + ends.len())?;
        let placed = place_items(tables, labels, ends, from, &mut self.room, self.len);
        self.len = placed.len;
        Ok((placed.offset, placed.line))
    }

    /// Appends its items to a `Vec`. If an allocation fails, some of them were appended.
    pub fn append_to(&self, items: &mut Vec<Item>) -> Result<(), AllocError>
        ensures { OnOk result (items.new.items ≡ items.old.items ++ self.now) }
    {
        for item in self.as_slice() {
            items.push(item.item())?;
        }
        Ok(())
    }

    /// Returns the items as a `Vec`.
    pub fn to_vec(&self) -> Result<Vec<Item>, AllocError>
        ensures { IfOk result (λ items. items.items ≡ self.now) }
    {
        let mut items = Vec::with_capacity(*self.room.allocator(), self.len)?;
        self.append_to(&mut items)?;
        Ok(items)
    }
}
