//! Prefixes of lines. Each is made once and kept for later lines.

ghost use Rattle.std.specs.Prelude.{◌≡◌, ◌+◌, ◌<◌, ◌≤◌, MatchOption, length, take};
ghost use Rattle.lx_tables.specs.Labels.{kind_of_label};
ghost use Rattle.lx_line.specs.Prefixes.{ArePrefixesOf, IsKindOf, IsPrefixOf};
ghost use Rattle.lx_line.specs.Placed.{Placed};

use crate::place::{place_32, place_64, place_all};
use crate::style::LinePrefix;
use lx_piece::Plan;
use lx_tables::{ECHO_LABEL, kind_of_label};

// Greatest length of a kept prefix.
const PREFIX: usize = 128;

// Room for a prefix that is made. A part of it may be escaped.
const ROOM: usize = 1024;

// Number of kept prefixes.
const SLOTS: usize = 32;

/// The prefix of a line. A length above 128 means that it isn't kept.
#[derive(Clone, Copy, Drop)]
pub struct Prefix {
    len: usize,
    text: [u8; 128],
}

/// The prefix of the lines of items with a label.
#[derive(Clone, Copy, Drop)]
pub struct Slot {
    label: u64,
    prefix: Prefix,
}

impl Prefix {
    fn none() -> Prefix
        ensures { 128 < result.len }
    {
        Prefix {
            len: PREFIX + 1,
            text: [0; PREFIX],
        }
    }

    // Keeps a text, unless it is too long.
    fn of(text: &[u8]) -> Prefix
        ensures { IsPrefixOf text.now result }
    {
        if text.len() > PREFIX {
            return Prefix::none();
        }
        let mut kept = [0; PREFIX];
        let len = place_all(&mut kept, 0, text);
        Prefix { len, text: kept }
    }

    // Makes the prefix of the lines of items with a label.
    fn of_label<L: LinePrefix>(style: &L, plan: &Plan, file: u32, label: u64) -> Prefix
        requires { IsKindOf plan.now (kind_of_label label) }
        ensures { IsPrefixOf (L.prefix style.now plan.now file (kind_of_label label)) result }
    {
        let mut room = [0; ROOM];
        match style.place_prefix(&mut room, plan, file, kind_of_label(label)) {
            Some(len) => Prefix::of(&room[..len]),
            None => Prefix::none(),
        }
    }

    // Places a prefix of more than 32 bytes, if it is kept.
    #[inline(always)]
    fn place_long(&self, buf: &mut [u8], at: usize) -> Option<usize>
        requires { at + 128 ≤ length buf.old }
        ensures placed { MatchOption result (buf.new ≡ buf.old) (λ end.
            (self.now.len ≤ 128)
            × Placed buf.old buf.new at (take self.now.len self.now.text) end) }
        ensures short { MatchOption result (Unit {0}) (λ end. end ≤ at + 128) }
    {
        if self.len <= 64 {
            return Some(place_64(buf, at, &self.text, 0, self.len));
        }
        if self.len <= PREFIX {
            return Some(place_all(buf, at, &self.text[..self.len]));
        }
        None
    }

    // Places the prefix, if it is kept, and if it is short or the style has long ones.
    #[inline(always)]
    fn place<L: LinePrefix>(&self, buf: &mut [u8], at: usize) -> Option<usize>
        requires { at + 128 ≤ length buf.old }
        ensures placed { MatchOption result (buf.new ≡ buf.old) (λ end.
            (self.now.len ≤ 128)
            × Placed buf.old buf.new at (take self.now.len self.now.text) end) }
        ensures short { MatchOption result (Unit {0}) (λ end. end ≤ at + 128) }
    {
        if self.len <= 32 {
            return Some(place_32(buf, at, &self.text, 0, self.len));
        }
        if !L::are_long() {
            return None;
        }
        self.place_long(buf, at)
    }
}

// Returns the slot of a label. Several labels share a slot, and the last one has it.
#[inline(always)]
fn slot_of(label: u64) -> usize
    ensures { result < 32 }
{
    (label / 2) as usize % SLOTS
}

/// Prefixes of the lines of one file.
#[derive(Clone, Copy, Drop)]
pub struct Prefixes {
    slots: [Slot; 32],
}

impl Prefixes {
    /// Returns the prefixes of a file, so far only that of an Echo.
    #[inline(always)]
    pub fn new<L: LinePrefix>(style: &L, plan: &Plan, file: u32) -> Prefixes
        ensures { ArePrefixesOf (L.prefix style.now plan.now file) result }
    {
        let slot = Slot {
            label: ECHO_LABEL,
            prefix: Prefix::of_label(style, plan, file, ECHO_LABEL),
        };
        Prefixes {
            slots: [slot; SLOTS],
        }
    }

    // Makes a new prefix, places it, and keeps it.
    #[cold]
    #[inline(never)]
    fn place_new<L: LinePrefix>(
        &mut self,
        style: &L,
        buf: &mut [u8],
        at: usize,
        plan: &Plan,
        file: u32,
        label: u64,
    ) -> Option<usize>
        requires room { at + 128 ≤ length buf.old }
        requires kind { IsKindOf plan.now (kind_of_label label) }
        requires prefixes { ArePrefixesOf (L.prefix style.now plan.now file) self.old }
        ensures placed { MatchOption result (buf.new ≡ buf.old) (λ end.
            Placed buf.old buf.new at (L.prefix style.now plan.now file (kind_of_label label))
            end) }
        ensures short { MatchOption result (Unit {0}) (λ end. end ≤ at + 128) }
        ensures prefixes { ArePrefixesOf (L.prefix style.now plan.now file) self.new }
    {
        let prefix = Prefix::of_label(style, plan, file, label);
        self.slots[slot_of(label)] = Slot { label, prefix };
        prefix.place::<L>(buf, at)
    }

    /// Places the prefix of the line of an item with a label. Returns `None` if it is too long.
    #[inline(always)]
    pub fn place<L: LinePrefix>(
        &mut self,
        style: &L,
        buf: &mut [u8],
        at: usize,
        plan: &Plan,
        file: u32,
        label: u64,
    ) -> Option<usize>
        requires room { at + 128 ≤ length buf.old }
        requires kind { IsKindOf plan.now (kind_of_label label) }
        requires prefixes { ArePrefixesOf (L.prefix style.now plan.now file) self.old }
        ensures placed { MatchOption result (buf.new ≡ buf.old) (λ end.
            Placed buf.old buf.new at (L.prefix style.now plan.now file (kind_of_label label))
            end) }
        ensures short { MatchOption result (Unit {0}) (λ end. end ≤ at + 128) }
        ensures prefixes { ArePrefixesOf (L.prefix style.now plan.now file) self.new }
    {
        let slot = &self.slots[slot_of(label)];
        if slot.label == label {
            return slot.prefix.place::<L>(buf, at);
        }
        self.place_new(style, buf, at, plan, file, label)
    }
}
