//! The memory of a scanner for a text: the states in which lookahead failed (Reps 1998, "Maximal-munch tokenization in linear time").

ghost use Rattle.std.specs.Prelude.{◌≡◌, ℕ, ◌+◌, ◌*◌, ◌/◌, ◌%◌, ◌<◌, List, IfSome, IsTrue, drop, length, slice_index};
ghost use Rattle.lx_tables.specs.Model.{Table};
ghost use Rattle.lx_scan.specs.Failing.{IsAmong, IsFailed, IsMarked, IsMemoryOf};

use crate::ends::End;
use lx_tables::State;
use std::alloc::Global;

// Distance between positions for which states are kept: the multiples of this number.
const SPACING: usize = 32;

// Number of states that are kept for a position.
const STATES: usize = 4;

// Number of further states that are kept for all positions together, if their positions have no room.
const OTHERS: usize = 65_536;

// Number of ends of matches that are found at once.
const ENDS: usize = 256;

/// A state from which nothing more is accepted before a byte of the text.
#[derive(Clone, Copy, Debug, PartialEq, Eq)]
pub struct FailedState {
    pub place: usize,
    pub state: u32,
}

/// The memory of a scanner for one text and one table, so that it doesn't read any part of the text again and again. Without it the items are the
/// same, only slower. It allocates after a failed lookahead: 8 bytes for each 32 of the text. If an allocation fails, it keeps less.
#[derive(Drop)]
pub struct ScanMemory {
    // Four numbers for each position: one more than a state, or 0.
    marks: Vec<u16>,
    others: Vec<Option<FailedState>>,
    // Byte before which the last run over the joined table stopped.
    pub(crate) stop: usize,
    // Scratch memory for the ends of matches. It is here so that it isn't cleared for each call. Its contents mean nothing between calls.
    pub(crate) ends: [End; 256],
}

// Returns a kept number, or 0 if there is none.
#[inline(always)]
fn mark_at(marks: &[u16], slot: usize) -> u16
    ensures { result ≡ slice_index marks.now slot }
{
    if slot < marks.len() { marks[slot] } else { 0 }
}

// Returns true if a number is kept for a position.
fn is_marked(marks: &[u16], place: usize, number: u16) -> bool
    requires { place % 32 ≡ 0 }
    ensures { IsTrue result → IsMarked marks.now place number }
{
    let first = place / SPACING * STATES;
    for slot in first..first + STATES {
        if mark_at(marks, slot) == number {
            return true;
        }
    }
    false
}

// Returns the slot in which a number of a position is kept, or may be.
fn slot_for(marks: &[u16], place: usize, number: u16) -> Option<usize>
    requires { place % 32 ≡ 0 }
    ensures { IfSome result (λ slot. (slot < length marks.now) × (slot / 4 * 32 ≡ place)) }
{
    let first = place / SPACING * STATES;
    for slot in first..first + STATES {
        if slot < marks.len() && (marks[slot] == 0 || marks[slot] == number) {
            return Some(slot);
        }
    }
    None
}

// Returns the index of a state at a position among the further states. States of one position are far from each other, so they aren't in the way of
// other positions.
fn index_of(place: usize, state: State) -> usize
    ensures { result < 65536 }
{
    (place / SPACING + state.0 as usize * 40_503) % OTHERS
}

// Returns true if a state is among the further states.
fn is_among(others: &[Option<FailedState>], place: usize, state: State) -> bool
    ensures { IsTrue result → IsAmong others.now place state.0 }
{
    let index = index_of(place, state);
    if index >= others.len() {
        return false;
    }
    match others[index] {
        Some(found) => found.place == place && found.state == state.0,
        None => false,
    }
}

// Returns true if the kept state is for a position before this one, or if none is kept.
fn is_before(kept: Option<FailedState>, from: usize) -> bool {
    match kept {
        Some(found) => found.place < from,
        None => true,
    }
}

impl ScanMemory {
    /// Returns an empty memory. Allocates nothing.
    pub fn new(alloc: Global) -> ScanMemory
        ensures { (table : Table) (text : List ℕ) → IsMemoryOf table text result }
    {
        ScanMemory {
            marks: Vec::new(alloc),
            others: Vec::new(alloc),
            stop: 0,
            ends: [End::NONE; ENDS],
        }
    }

    // Returns true if it remembers that nothing more is accepted from a state before a byte.
    #[inline(always)]
    pub(crate) fn has_failed(&self, place: usize, state: State) -> bool
        requires { state.0 < 65535 }
        ensures { IsTrue result → (table : Table) (text : List ℕ) → IsMemoryOf table text self.now
            → IsFailed table.machine (drop place text) state.0 }
    {
        place % SPACING == 0 && !self.marks.is_empty() && self.is_kept(place, state)
    }

    // Returns true if a state is kept for a position.
    #[inline(never)]
    fn is_kept(&self, place: usize, state: State) -> bool
        requires place { place % 32 ≡ 0 }
        requires state { state.0 < 65535 }
        ensures { IsTrue result → (table : Table) (text : List ℕ) → IsMemoryOf table text self.now
            → IsFailed table.machine (drop place text) state.0 }
    {
        is_marked(&self.marks, place, state.0 as u16 + 1) || is_among(&self.others, place, state)
    }

    /// Forgets all, also where the last run stopped, and keeps its memory.
    pub(crate) fn clear(&mut self)
        ensures { (table : Table) (text : List ℕ) → IsMemoryOf table text self.new }
    {
        self.marks.clear();
        self.others.clear();
        self.stop = 0;
    }

    /// Makes room for the numbers of a text with this many bytes, unless an allocation fails.
    pub(crate) fn grow(&mut self, len: usize)
        ensures { (table : Table) (text : List ℕ) → IsMemoryOf table text self.old
            → IsMemoryOf table text self.new }
    {
        let wanted = (len / SPACING + 1) * STATES;
        if self.marks.len() < wanted {
            let _ = self.marks.resize(wanted, 0);
        }
    }

    // Makes room for the further states, unless an allocation fails.
    fn make_room_for_further(&mut self)
        ensures { (table : Table) (text : List ℕ) → IsMemoryOf table text self.old
            → IsMemoryOf table text self.new }
    {
        if self.others.is_empty() {
            let _ = self.others.resize(OTHERS, None);
        }
    }

    // Keeps a state among the further ones, if the one that is kept there is for a position before `from`.
    fn keep_further(&mut self, place: usize, state: State, from: usize)
        ensures { (table : Table) (text : List ℕ) → IsMemoryOf table text self.old
            → IsFailed table.machine (drop place text) state.0 → IsMemoryOf table text self.new }
    {
        self.make_room_for_further();
        let index = index_of(place, state);
        if index < self.others.len() && is_before(self.others[index], from) {
            self.others[index] = Some(FailedState {
                place,
                state: state.0,
            });
        }
    }

    // Keeps that nothing more is accepted from a state before a byte, if such a position is kept. States of positions before `from` may be replaced.
    #[inline(always)]
    pub(crate) fn keep(&mut self, place: usize, state: State, from: usize)
        requires { state.0 < 65535 }
        ensures { (table : Table) (text : List ℕ) → IsMemoryOf table text self.old
            → IsFailed table.machine (drop place text) state.0 → IsMemoryOf table text self.new }
    {
        if place % SPACING != 0 {
            return;
        }
        let number = state.0 as u16 + 1;
        match slot_for(&self.marks, place, number) {
            Some(slot) => self.marks[slot] = number,
            None => self.keep_further(place, state, from),
        }
    }
}
