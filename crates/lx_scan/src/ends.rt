//! Finds the ends of matches by the joined table: one look-up a byte, and no jump that depends on the text except where a run stops.

ghost use Rattle.std.specs.Prelude.{if◌then◌else◌, ◌≡◌, ◌<◌, ◌≤◌, ◌+◌, ◌++◌, ℕ, List, length, nat_eq, nat_le, slice_index, take};
ghost use Rattle.lx_tables.specs.Joined.{IsJoined, transition_at};
ghost use Rattle.lx_tables.specs.Model.{IsTable};
ghost use Rattle.lx_scan.specs.Ends.{IsPlace, LeadTo, place_behind};

use crate::place::Place;
use lx_tables::{Joined, Tables, Transition, UNTOLD};

/// The end of a match: the code of the ended match, the position after its last byte, and the line there.
#[derive(Clone, Copy, Debug, PartialEq, Eq)]
pub struct End {
    pub code: usize,
    pub offset: usize,
    pub line: u64,
}

impl End {
    /// The value of an entry before an end is found.
    pub(crate) const NONE: End = End {
        code: 0,
        offset: 0,
        line: 0,
    };
}

/// The result of a run: the number of matches that ended, the condition after the last one, and the byte before which the run stopped.
#[derive(Clone, Copy, Debug)]
pub(crate) struct Run {
    pub(crate) count: usize,
    pub(crate) condition: u16,
    pub(crate) stop: usize,
}

// Returns the entry of a row in a column. Adds the column first, since the row is known last.
#[inline(always)]
fn entry_at(entries: &[Transition], row: usize, column: u8) -> &Transition
    requires { row + column < length entries.now }
    ensures { result.now ≡ transition_at entries.now (row + column) }
{
    let entries = &entries[column as usize..];
    &entries[row]
}

// Returns 1 for a newline, which has the last column alone. A test for below takes three instructions less than a test for equality.
#[inline(always)]
fn newline(column: u8, last: u8) -> u64
    ensures value { result ≡ (if nat_le last column then 1 else 0) }
    ensures few { result ≤ 1 }
{
    if column < last { 0 } else { 1 }
}

// Returns 1 for a code of an ended match, otherwise 0.
#[inline(always)]
fn ending(code: usize) -> usize
    ensures value { result ≡ (if nat_eq code 0 then 0 else 1) }
    ensures few { result ≤ 1 }
{
    if code == 0 { 0 } else { 1 }
}

/// Finds the ends of the matches from a place on, at most `most`, up to the first one that the joined table doesn't determine. Each byte writes an
/// end after the last one, which counts only if a match has ended. They are the same, whatever bytes follow the text.
#[inline(never)]
pub(crate) fn find_ends(
    tables: &Tables,
    joined: &Joined,
    text: &[u8],
    place: Place,
    most: usize,
    ends: &mut [End],
) -> Run
    requires table { IsTable tables.now }
    requires joined { IsJoined tables.now joined.now.columns.items joined.now.entries.items
        joined.now.labels.items }
    requires place { IsPlace tables.now text.now place }
    requires more { place.offset < length text.now }
    requires room { most ≤ length ends.old }
    ensures count { result.count ≤ most }
    ensures within { result.count ≤ length ends.new }
    ensures ends { 0 < result.count → (rest : List ℕ) → LeadTo tables.now (text.now ++ rest) place
        (take result.count ends.new)
        (place_behind (text.now ++ rest) place (take result.count ends.new) result.condition) }
{
    let columns = joined.columns.as_slice();
    let entries = joined.entries.as_slice();
    let first = text[place.offset];
    let class = tables.class(first);
    let begun = tables.first_state(place.condition, place.at_line_begin, class, first == b'\n');
    let mut row = tables.row(begun);
    let last = columns[b'\n' as usize];
    let mut line = place.line + newline(columns[first as usize], last);
    let mut count = 0;
    let mut offset = place.offset + 1;
    'bytes: while offset < text.len() && count < most {
        let column = columns[text[offset] as usize];
        let entry = entry_at(entries, row, column);
        let code = entry.code as usize;
        if code == UNTOLD {
            break;
        }
        ends[count] = End { code, offset, line };
        count += ending(code);
        line += newline(column, last);
        row = entry.row as usize;
        offset += 1;
    }
    Run {
        count,
        condition: tables.condition_of_row(row),
        stop: offset,
    }
}
