//! The scanner: finds the items of a text, match by match.

ghost use Rattle.std.specs.Prelude.{◌≡◌, ◌<◌, ◌≤◌, ◌+◌, ◌-◌, ◌^◌, ◌++◌, length, nat_eq, slice_index, take, drop, None, IfOk, OnOk, MatchOption};
ghost use Rattle.std.specs.Option.{ForSome, option_map};
ghost use Rattle.lx_tables.specs.Model.{IsTable};
ghost use Rattle.lx_scan.specs.Items.{items_of, steps_at};
ghost use Rattle.lx_scan.specs.Matching.{GoesOn, IsFound, choice_in};
ghost use Rattle.lx_scan.specs.Steps.{condition_after, items_of_steps, newlines};

use crate::choice::choose;
use crate::cursor::{Cursor, steps_of_match};
use crate::item::Item;
use crate::list::ItemList;
use crate::memory::ScanMemory;
use crate::place::{Match, Place};
use lx_rules::rule::Step;
use lx_tables::Tables;
use lx_tables::well_formed::tables_are_well_formed;
use std::alloc::{AllocError, Global};

// Number of items that are found at once.
const AT_ONCE: usize = 1024;

/// Returns the condition after the steps of an action that begins in a condition.
pub fn condition_behind(steps: &[Step], condition: u16) -> u16
    ensures { result ≡ condition_after steps.now condition }
{
    let mut now = condition;
    for step in steps {
        if let Step::Begin(next) = step {
            now = *next;
        }
    }
    now
}

// Counts the newlines among the bytes.
fn newlines_in(bytes: &[u8]) -> u64
    ensures count { result ≡ newlines bytes.now }
    ensures few { result ≤ length bytes.now }
{
    let mut count = 0;
    for byte in bytes {
        if *byte == b'\n' {
            count += 1;
        }
    }
    count
}

// Returns the match of a choice at a position. If no rule is chosen, a single byte is echoed.
pub(crate) fn match_of(start: usize, choice: Option<(u16, usize)>) -> Match
    ensures start { result.start ≡ start }
    ensures choice { choice_in result ≡ choice }
    ensures alone { result.rule ≡ None → result.len ≡ 1 }
{
    let (rule, len) = match choice {
        Some((rule, len)) => (Some(rule), len),
        None => (None, 1),
    };
    Match { rule, start, len }
}

// Returns the match at a place with this rest of the text.
fn match_at(tables: &Tables, rest: &[u8], place: Place) -> Match
    requires known { place.condition < length tables.now.machine.starts }
    requires more { 0 < length rest.now }
    ensures table { IsTable tables.now }
    ensures found { IsFound tables.now rest.now place result }
{
    let choice = choose(tables, place.condition, place.at_line_begin, rest);
    match_of(place.offset, choice)
}

// Returns the place after a match. It is at line begin exactly if the match's last byte is a newline.
pub(crate) fn place_after(tables: &Tables, rest: &[u8], place: Place, found: Match) -> Place
    requires some { 0 < found.len }
    requires within { found.len ≤ length rest.now }
    requires rule { ForSome found.rule (λ i. i < length tables.now.rules) }
    requires line { place.line ≤ place.offset + 1 }
    requires room { place.offset + length rest.now + 1 < 2 ^ 64 }
    ensures offset { result.offset ≡ place.offset + found.len }
    ensures condition { result.condition
        ≡ condition_after (steps_at tables.now (choice_in found)) place.condition }
    ensures begin { result.at_line_begin ≡ nat_eq (slice_index rest.now (found.len - 1)) 10 }
    ensures line { result.line ≡ place.line + newlines (take found.len rest.now) }
    ensures few { result.line ≤ place.line + found.len }
{
    Place {
        offset: place.offset + found.len,
        condition: condition_behind(steps_of_match(tables, found), place.condition),
        at_line_begin: rest[found.len - 1] == b'\n',
        line: place.line + newlines_in(&rest[..found.len]),
    }
}

/// Returns the match at a place and the place after it, or None only at the end of the text. Allocates nothing. The place has to be in the text, with
/// a condition of the tables. Its line is at least 1, and at most one more than its offset. The next place is such a place too. Keeps nothing between
/// calls: a call repeats a failed lookahead of an earlier one.
pub fn next_match(tables: &Tables, text: &[u8], place: Place) -> Option<(Match, Place)>
    requires within { place.offset ≤ length text.now }
    requires known { place.condition < length tables.now.machine.starts }
    requires line_some { 1 ≤ place.line }
    requires line_few { place.line ≤ place.offset + 1 }
    ensures { MatchOption result (place.offset ≡ length text.now)
        (λ found. GoesOn tables.now text.now place found.0 found.1) }
{
    if place.offset == text.len() {
        return None;
    }
    let rest = &text[place.offset..];
    let found = match_at(tables, rest, place);
    let next = place_after(tables, rest, place, found);
    Some((found, next))
}

/// Returns the items of a text by the tables (XCU `lex`, "Rules in lex" and "Actions in lex"). AllocError if an allocation fails.
pub fn scan(alloc: Global, tables: &Tables, text: &[u8]) -> Result<Vec<Item>, AllocError>
    ensures { IfOk result (λ items. items.items ≡ items_of tables.now text.now) }
{
    // a law: there is a condition
    tables_are_well_formed(tables);
    let mut cursor = Cursor::begin();
    let mut memory = ScanMemory::new(alloc);
    let mut list = ItemList::new(alloc);
    let mut items = Vec::new(alloc);
    let mut is_full = true;
    'further: while is_full {
        list.clear();
        cursor.next_items(tables, text, &mut memory, AT_ONCE, &mut list)?;
        list.append_to(&mut items)?;
        is_full = list.len() == AT_ONCE;
    }
    Ok(items)
}
