//! Reads the items of a text one after the other.

ghost use Rattle.std.specs.Prelude.{◌≡◌, ◌<◌, ◌≤◌, ◌++◌, ℕ, List, [], length, IfNone, OnErr, OnOk};
ghost use Rattle.std.specs.Option.{ForSome};
ghost use Rattle.lx_tables.specs.Model.{IsTable, Table};
ghost use Rattle.lx_scan.specs.Cursors.{IsInText, items_left, item_of_step, listed, steps_left};
ghost use Rattle.lx_scan.specs.Ends.{Appends, IsPlace};
ghost use Rattle.lx_scan.specs.Failing.{IsMemoryOf};
ghost use Rattle.lx_scan.specs.Items.{items_after, items_of, steps_at};
ghost use Rattle.lx_scan.specs.Matching.{choice_in};
ghost use Rattle.lx_scan.specs.Steps.{items_of_steps};
ghost use Rattle.lx_scan.specs.Streams.{IsAfter};

use crate::item::Item;
use crate::list::ItemList;
use crate::memory::ScanMemory;
use crate::place::{Match, Place};
use crate::progress::Progress;
use crate::scanner::next_match;
use lx_rules::rule::Step;
use lx_tables::Tables;
use std::alloc::AllocError;

/// A position between two items of a text. It is at a match of which some steps of the rule's action are done, and before the place after the match.
#[derive(Clone, Copy, Debug, PartialEq, Eq)]
pub struct Cursor {
    // The match. Before the first one, it is a match of no rule.
    pub(crate) found: Match,
    // Line on which the match begins.
    pub(crate) line: u64,
    // Number of steps of the match that are done.
    pub(crate) done: usize,
    // The place after the match.
    pub(crate) place: Place,
}

// Returns the steps of a match. A byte that no rule matches is echoed.
pub(crate) fn steps_of_match(tables: &Tables, found: Match) -> &[Step]
    requires { ForSome found.rule (λ i. i < length tables.now.rules) }
    ensures { result.now ≡ steps_at tables.now (choice_in found) }
{
    match found.rule {
        Some(rule) => tables.steps(rule),
        None => &[Step::Echo],
    }
}

// Returns the item of a step for `len` bytes from `start` on this line, if the step has one.
pub(crate) fn item_of(step: Step, line: u64, start: usize, len: usize) -> Option<Item>
    ensures { result ≡ item_of_step step line start len }
{
    match step {
        Step::Echo => Some(Item::Echo { line, start, len }),
        Step::Begin(_) => None,
        Step::Return(kind) => Some(Item::Token {
            kind,
            line,
            start,
            len,
        }),
    }
}

impl Cursor {
    /// Returns the cursor before the first item of a text.
    pub fn begin() -> Cursor
        ensures items { (table : Table) (text : List ℕ)
            → items_left table text result ≡ items_of table text }
        ensures in_text { (table : Table) (text : List ℕ) → IsTable table
            → IsInText table text result }
    {
        Cursor::at(Place::begin())
    }

    // Returns the cursor before the first item from a place on.
    pub(crate) fn at(place: Place) -> Cursor
        ensures after { IsAfter result place }
        ensures items { (table : Table) (text : List ℕ)
            → items_left table text result ≡ items_after table text place }
        ensures in_text { (table : Table) (text : List ℕ) → IsPlace table text place
            → IsInText table text result }
    {
        Cursor {
            found: Match {
                rule: None,
                start: place.offset,
                len: 0,
            },
            line: place.line,
            done: 1,
            place,
        }
    }

    /// Returns the number of bytes before the next part of the text that it will read.
    pub fn offset(&self) -> usize
        ensures place { result ≡ self.now.place.offset }
        ensures within { (table : Table) (text : List ℕ) → IsInText table text self.now
            → result ≤ length text }
    {
        self.place.offset
    }

    // Returns the next item of the match, if a step that is left has one.
    pub(crate) fn next_at_match(&mut self, tables: &Tables) -> Option<Item>
        requires { ForSome self.old.found.rule (λ i. i < length tables.now.rules) }
        ensures same { self.new ≡ record self.old { done = self.new.done } }
        ensures items { items_of_steps (steps_left tables.now self.old) self.old.line self.old.found.start self.old.found.len
            ≡ listed result ++ items_of_steps (steps_left tables.now self.new) self.old.line self.old.found.start self.old.found.len }
        ensures none { IfNone result (items_of_steps (steps_left tables.now self.new) self.old.line
            self.old.found.start self.old.found.len ≡ []) }
    {
        let steps = steps_of_match(tables, self.found);
        while self.done < steps.len() {
            let step = steps[self.done];
            self.done += 1;
            let item = item_of(step, self.line, self.found.start, self.found.len);
            if item.is_some() {
                return item;
            }
        }
        None
    }

    /// Returns the next item, or None after the last one. Allocates nothing.
    pub fn next_item(&mut self, tables: &Tables, text: &[u8]) -> Option<Item>
        requires { IsInText tables.now text.now self.old }
        ensures in_text { IsInText tables.now text.now self.new }
        ensures items { items_left tables.now text.now self.old
            ≡ listed result ++ items_left tables.now text.now self.new }
        ensures end { IfNone result (items_left tables.now text.now self.new ≡ []) }
    {
        let mut item = self.next_at_match(tables);
        while item.is_none() {
            let (found, next) = next_match(tables, text, self.place)?;
            *self = Cursor {
                found,
                line: self.place.line,
                done: 0,
                place: next,
            };
            item = self.next_at_match(tables);
        }
        item
    }

    /// Does the same as `next_item`, with a memory of the text, so that no part of the text is read again and again.
    pub fn next_item_by(
        &mut self,
        tables: &Tables,
        text: &[u8],
        memory: &mut ScanMemory,
    ) -> Option<Item>
        requires in_text { IsInText tables.now text.now self.old }
        requires memory { IsMemoryOf tables.now text.now memory.old }
        ensures in_text { IsInText tables.now text.now self.new }
        ensures memory { IsMemoryOf tables.now text.now memory.new }
        ensures items { items_left tables.now text.now self.old
            ≡ listed result ++ items_left tables.now text.now self.new }
        ensures end { IfNone result (items_left tables.now text.now self.new ≡ []) }
    {
        let mut progress = Progress::in_text(tables, text, *self);
        let item = progress.next_item(tables, text, memory);
        *self = progress.cursor;
        item
    }

    /// Appends the next items to a list until it has `most`, or all items if fewer are left. Finds most of them by the joined table, without a jump
    /// for each match. `memory` has to belong to these tables and this text, and still does afterwards. AllocError if an allocation fails: then the
    /// cursor is unchanged, the list may have some of the items, and `memory` may have grown.
    pub fn next_items(
        &mut self,
        tables: &Tables,
        text: &[u8],
        memory: &mut ScanMemory,
        most: usize,
        items: &mut ItemList,
    ) -> Result<(), AllocError>
        requires in_text { IsInText tables.now text.now self.old }
        requires few { length items.old ≤ most }
        requires memory { IsMemoryOf tables.now text.now memory.old }
        ensures in_text { IsInText tables.now text.now self.new }
        ensures memory { IsMemoryOf tables.now text.now memory.new }
        ensures items { OnOk result (Appends items.old items.new
            (items_left tables.now text.now self.old)
            (items_left tables.now text.now self.new)) }
        ensures most { OnOk result (length items.new ≤ most) }
        ensures end { OnOk result
            (length items.new < most → items_left tables.now text.now self.new ≡ []) }
        ensures err { OnErr result (self.new ≡ self.old) }
    {
        let mut progress = Progress::in_text(tables, text, *self);
        progress.next_items(tables, text, memory, most, items)?;
        *self = progress.cursor;
        Ok(())
    }
}
