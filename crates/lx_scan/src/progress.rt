//! The progress of a scanner in a text that arrives in blocks.

ghost use Rattle.std.specs.Prelude.{◌≡◌, ◌<◌, ◌≤◌, ◌+◌, ◌-◌, ◌^◌, ℕ, List, [], None, true, false, IfNone, IfOk, IfSome, OnOk, drop, length};
ghost use Rattle.lx_tables.specs.Joined.{IsJoined};
ghost use Rattle.lx_scan.specs.Cursors.{IsInText, listed};
ghost use Rattle.lx_scan.specs.Streams.{Gives, GivesTo, IsDrained, IsKept, IsOpenMemory, IsProgress, first_stream, stream_at};

use crate::cursor::{Cursor, steps_of_match};
use crate::ends::find_ends;
use crate::item::Item;
use crate::list::ItemList;
use crate::memory::ScanMemory;
use crate::place::Place;
use crate::walk::{Walk, decide, has_step};
use lx_tables::well_formed::tables_are_well_formed;
use lx_tables::{Joined, Tables};
use std::alloc::AllocError;

/// The progress in the bytes that are kept of a text: the number of them up to the end of the last match, the cursor after that match, and the walk
/// over the match in progress. `has_ended` is true if the text ends after these bytes.
#[derive(Clone, Copy)]
pub(crate) struct Progress {
    pub(crate) start: usize,
    pub(crate) cursor: Cursor,
    pub(crate) walk: Walk,
    pub(crate) has_ended: bool,
}

impl Progress {
    /// Returns the progress before the first byte of a text.
    pub(crate) fn begin(tables: &Tables) -> Progress
        ensures progress { IsProgress tables.now [] result }
        ensures stream { stream_at tables.now [] result ≡ first_stream tables.now }
    {
        // a law: there is a condition
        tables_are_well_formed(tables);
        let place = Place::begin();
        Progress {
            start: 0,
            cursor: Cursor::at(place),
            walk: Walk::begin(tables, place),
            has_ended: false,
        }
    }

    /// Returns the progress at a cursor in a text that is whole.
    pub(crate) fn in_text(tables: &Tables, text: &[u8], cursor: Cursor) -> Progress
        requires { IsInText tables.now text.now cursor }
        ensures progress { IsProgress tables.now text.now result }
        ensures cursor { result.cursor ≡ cursor }
        ensures start { result.start ≡ cursor.place.offset }
        ensures ended { result.has_ended ≡ true }
    {
        // for contracts only
        let _ = text;
        Progress {
            start: cursor.place.offset,
            cursor,
            walk: Walk::begin(tables, cursor.place),
            has_ended: true,
        }
    }

    // Finds the next match, if no further byte could change it. Returns false if it isn't decided, or if no bytes are held.
    fn find_match(&mut self, tables: &Tables, bytes: &[u8], memory: &mut ScanMemory) -> bool
        requires progress { IsProgress tables.now bytes.now self.old }
        requires none_due { (stream_at tables.now bytes.now self.old).due ≡ [] }
        requires memory { IsOpenMemory tables.now bytes.now self.old.has_ended memory.old }
        ensures progress { IsProgress tables.now bytes.now self.new }
        ensures gives { Gives (stream_at tables.now bytes.now self.old)
            (stream_at tables.now bytes.now self.new) [] }
        ensures further { result ≡ true → self.old.start < self.new.start }
        ensures drained { result ≡ false → IsDrained (stream_at tables.now bytes.now self.new) }
        ensures memory { IsOpenMemory tables.now bytes.now self.old.has_ended memory.new }
    {
        if self.start == bytes.len() {
            return false;
        }
        let place = self.cursor.place;
        let (walk, is_stopped) = self
            .walk
            .over(tables, place, bytes, self.start, self.has_ended, memory);
        self.walk = walk;
        if !is_stopped && !self.has_ended && has_step(tables, walk.state) {
            return false;
        }
        walk.remember(tables, bytes, self.start, self.has_ended, memory);
        let held = &bytes[self.start..];
        let (found, next) = decide(tables, place, held, self.has_ended, walk.found.last);
        *self = Progress {
            start: self.start + found.len,
            cursor: Cursor {
                found,
                line: place.line,
                done: 0,
                place: next,
            },
            walk: Walk::begin(tables, next),
            has_ended: self.has_ended,
        };
        true
    }

    // Returns the next item of the last match, if one is left.
    fn next_due(&mut self, tables: &Tables, bytes: &[u8]) -> Option<Item>
        requires progress { IsProgress tables.now bytes.now self.old }
        ensures progress { IsProgress tables.now bytes.now self.new }
        ensures gives { Gives (stream_at tables.now bytes.now self.old)
            (stream_at tables.now bytes.now self.new) (listed result) }
        ensures kept { IfSome result
            (λ item. IsKept (stream_at tables.now bytes.now self.new) item) }
        ensures none { IfNone result
            ((stream_at tables.now bytes.now self.new).due ≡ []) }
        ensures start { self.new.start ≡ self.old.start }
    {
        // for contracts only
        let _ = bytes;
        self.cursor.next_at_match(tables)
    }

    /// Returns the next item, or None if none is decided by the bytes.
    pub(crate) fn next_item(
        &mut self,
        tables: &Tables,
        bytes: &[u8],
        memory: &mut ScanMemory,
    ) -> Option<Item>
        requires progress { IsProgress tables.now bytes.now self.old }
        requires memory { IsOpenMemory tables.now bytes.now self.old.has_ended memory.old }
        ensures progress { IsProgress tables.now bytes.now self.new }
        ensures memory { IsOpenMemory tables.now bytes.now self.old.has_ended memory.new }
        ensures gives { Gives (stream_at tables.now bytes.now self.old)
            (stream_at tables.now bytes.now self.new) (listed result) }
        ensures kept { IfSome result
            (λ item. IsKept (stream_at tables.now bytes.now self.new) item) }
        ensures drained { IfNone result
            (IsDrained (stream_at tables.now bytes.now self.new)) }
    {
        let mut item = self.next_due(tables, bytes);
        while item.is_none() {
            if !self.find_match(tables, bytes, memory) {
                return None;
            }
            item = self.next_due(tables, bytes);
        }
        item
    }

    // Returns true if it is between two matches, and bytes are held.
    fn is_between(&self, tables: &Tables, bytes: &[u8]) -> bool
        requires progress { IsProgress tables.now bytes.now self.now }
        ensures none_due { result ≡ true → (stream_at tables.now bytes.now self.now).due ≡ [] }
        ensures more { result ≡ true → self.now.start < length bytes.now }
    {
        self.walk.read == 0
            && self.start < bytes.len()
            && self.cursor.done >= steps_of_match(tables, self.cursor.found).len()
    }

    // Appends the items of the matches that a run over the joined table finds, at most `most` matches. Returns true if it stopped only for lack of room.
    fn run(
        &mut self,
        tables: &Tables,
        joined: &Joined,
        bytes: &[u8],
        memory: &mut ScanMemory,
        most: usize,
        items: &mut ItemList,
    ) -> Result<bool, AllocError>
        requires progress { IsProgress tables.now bytes.now self.old }
        requires joined { IsJoined tables.now joined.now.columns.items joined.now.entries.items
            joined.now.labels.items }
        requires memory { IsOpenMemory tables.now bytes.now self.old.has_ended memory.old }
        requires none_due { (stream_at tables.now bytes.now self.old).due ≡ [] }
        requires more { self.old.start < length bytes.now }
        ensures progress { IsProgress tables.now bytes.now self.new }
        ensures memory { IsOpenMemory tables.now bytes.now self.old.has_ended memory.new }
        ensures gives { OnOk result (GivesTo (stream_at tables.now bytes.now self.old)
            (stream_at tables.now bytes.now self.new) items.old items.new) }
        ensures few { OnOk result (length items.new ≤ length items.old + most) }
        ensures further { IfOk result
            (λ is_full. is_full ≡ true → self.old.start < self.new.start) }
    {
        let at = self.cursor.place;
        let held = &bytes[self.start..];
        let from = Place {
            offset: 0,
            condition: at.condition,
            at_line_begin: at.at_line_begin,
            line: 1,
        };
        let room = memory.ends.len().min(most);
        let run = find_ends(tables, joined, held, from, room, &mut memory.ends);
        let is_full = run.count == room;
        memory.stop = if is_full {
            0
        } else {
            self.start.saturating_add(run.stop)
        };
        if run.count == 0 {
            return Ok(false);
        }
        let (offset, line) = items.push_ends(
            tables,
            &joined.labels,
            &memory.ends[..run.count],
            at,
        )?;
        let place = Place {
            offset,
            condition: run.condition,
            at_line_begin: held[offset - at.offset - 1] == b'\n',
            line,
        };
        *self = Progress {
            start: self.start + (offset - at.offset),
            cursor: Cursor::at(place),
            walk: Walk::begin(tables, place),
            has_ended: self.has_ended,
        };
        Ok(is_full)
    }

    // Appends the items of the matches that the joined table determines, until the list has `most`. Does nothing before the byte at which the last run
    // stopped, so each match that the joined table doesn't determine is tried only once.
    fn run_on(
        &mut self,
        tables: &Tables,
        bytes: &[u8],
        memory: &mut ScanMemory,
        most: usize,
        items: &mut ItemList,
    ) -> Result<(), AllocError>
        requires progress { IsProgress tables.now bytes.now self.old }
        requires memory { IsOpenMemory tables.now bytes.now self.old.has_ended memory.old }
        requires few { length items.old ≤ most }
        ensures progress { IsProgress tables.now bytes.now self.new }
        ensures memory { IsOpenMemory tables.now bytes.now self.old.has_ended memory.new }
        ensures gives { OnOk result (GivesTo (stream_at tables.now bytes.now self.old)
            (stream_at tables.now bytes.now self.new) items.old items.new) }
        ensures most { OnOk result (length items.new ≤ most) }
    {
        let Some(joined) = tables.joined_table() else {
            return Ok(());
        };
        if self.start < memory.stop {
            return Ok(());
        }
        while items.len() < most && self.is_between(tables, bytes) {
            let left = most - items.len();
            if !self.run(tables, joined, bytes, memory, left, items)? {
                return Ok(());
            }
        }
        Ok(())
    }

    /// Appends the next items to a list until it has `most`, or all that are decided.
    pub(crate) fn next_items(
        &mut self,
        tables: &Tables,
        bytes: &[u8],
        memory: &mut ScanMemory,
        most: usize,
        items: &mut ItemList,
    ) -> Result<(), AllocError>
        requires progress { IsProgress tables.now bytes.now self.old }
        requires memory { IsOpenMemory tables.now bytes.now self.old.has_ended memory.old }
        requires few { length items.old ≤ most }
        ensures progress { IsProgress tables.now bytes.now self.new }
        ensures memory { IsOpenMemory tables.now bytes.now self.old.has_ended memory.new }
        ensures gives { OnOk result (GivesTo (stream_at tables.now bytes.now self.old)
            (stream_at tables.now bytes.now self.new) items.old items.new) }
        ensures most { OnOk result (length items.new ≤ most) }
        ensures drained { OnOk result (length items.new < most
            → IsDrained (stream_at tables.now bytes.now self.new)) }
    {
        'further: while items.len() < most {
            self.run_on(tables, bytes, memory, most, items)?;
            if items.len() == most {
                return Ok(());
            }
            let Some(item) = self.next_item(tables, bytes, memory) else {
                return Ok(());
            };
            items.push(item)?;
        }
        Ok(())
    }

    /// Appends all items that are decided to a list.
    pub(crate) fn all_items(
        &mut self,
        tables: &Tables,
        bytes: &[u8],
        memory: &mut ScanMemory,
        items: &mut ItemList,
    ) -> Result<(), AllocError>
        requires progress { IsProgress tables.now bytes.now self.old }
        requires memory { IsOpenMemory tables.now bytes.now self.old.has_ended memory.old }
        ensures progress { IsProgress tables.now bytes.now self.new }
        ensures memory { IsOpenMemory tables.now bytes.now self.old.has_ended memory.new }
        ensures gives { OnOk result (GivesTo (stream_at tables.now bytes.now self.old)
            (stream_at tables.now bytes.now self.new) items.old items.new) }
        ensures drained { OnOk result
            (IsDrained (stream_at tables.now bytes.now self.new)) }
    {
        'further: while let Some(item) = self.next_item(tables, bytes, memory) {
            items.push(item)?;
        }
        Ok(())
    }
}
