//! Places the fields of a line from ready parts.

ghost use Rattle.std.specs.Prelude.{◌≡◌, ◌+◌, ◌<◌, ◌≤◌, IsTrue, decimal, drop, length, take};
ghost use Rattle.lx_scan.specs.ItemParts.{kind_of_item, line_of, start_of, len_of};
ghost use Rattle.lx_line.specs.Fields.{AreKept, AreReady, rest_with, text_in};
ghost use Rattle.lx_line.specs.Placed.{Placed};

use crate::decimals::place_short;
use crate::escape::TextEscape;
use crate::place::place_byte;
use crate::shared::SharedDigits;
use crate::texts::place_text;
use lx_rules::rule::Kind;
use lx_scan::{FlatItem, Item};

// Greatest length of a text that is placed. It has two digits.
const TEXT: usize = 96;

/// The position of an item: its line, start and length.
#[derive(Clone, Copy, Drop)]
pub struct Numbers {
    pub line: u64,
    pub start: usize,
    pub len: usize,
}

/// Returns the kind of a token, or `None` for an Echo.
#[inline(always)]
pub fn kind_of(item: &Item) -> Option<Kind>
    ensures { result ≡ kind_of_item item.now }
{
    match *item {
        Item::Token { kind, .. } => Some(kind),
        Item::Echo { .. } => None,
    }
}

/// Returns the numbers of an item.
#[inline(always)]
pub fn numbers_of(item: &Item) -> Numbers
    ensures line { result.line ≡ line_of item.now }
    ensures start { result.start ≡ start_of item.now }
    ensures len { result.len ≡ len_of item.now }
{
    match *item {
        Item::Token {
            line,
            start,
            len,
            ..
        }
        | Item::Echo { line, start, len } => { Numbers { line, start, len } }
    }
}

/// Returns the numbers of a flat item.
#[inline(always)]
pub fn numbers_in(item: &FlatItem) -> Numbers
    ensures line { result.line ≡ line_of item.now }
    ensures start { result.start ≡ start_of item.now }
    ensures len { result.len ≡ len_of item.now }
{
    Numbers {
        line: item.line(),
        start: item.start(),
        len: item.len(),
    }
}

/// The digits of line and start that nearby items share.
#[derive(Clone, Copy, Drop)]
pub struct Digits {
    line: SharedDigits,
    start: SharedDigits,
}

impl Digits {
    /// Returns the digits of 0.
    pub fn new() -> Digits {
        Digits {
            line: SharedDigits::new(),
            start: SharedDigits::new(),
        }
    }

    /// Keeps the digits of an item's numbers. Returns false if there are too many.
    #[inline(always)]
    pub fn follow(&mut self, numbers: Numbers) -> bool
        ensures { IsTrue result → AreKept self.new numbers }
    {
        self.line.follow(numbers.line) && self.start.follow(numbers.start as u64)
    }

    /// Places the number of the line.
    #[inline(always)]
    pub fn place_line(&self, buf: &mut [u8], at: usize, numbers: Numbers) -> usize
        requires kept { AreKept self.now numbers }
        requires room { at + 20 ≤ length buf.old }
        ensures placed { Placed buf.old buf.new at (decimal numbers.line) result }
        ensures short { result ≤ at + 18 }
    {
        self.line.place(buf, at, numbers.line) - 1
    }

    /// Places the position of the start.
    #[inline(always)]
    pub fn place_start(&self, buf: &mut [u8], at: usize, numbers: Numbers) -> usize
        requires kept { AreKept self.now numbers }
        requires room { at + 20 ≤ length buf.old }
        ensures placed { Placed buf.old buf.new at (decimal numbers.start) result }
        ensures short { result ≤ at + 18 }
    {
        self.start.place(buf, at, numbers.start as u64) - 1
    }
}

/// Places a number below 100.
#[inline(always)]
pub fn place_small(buf: &mut [u8], at: usize, number: usize) -> usize
    requires room { at + 4 ≤ length buf.old }
    requires number { number < 100 }
    ensures placed { Placed buf.old buf.new at (decimal number) result }
    ensures short { result ≤ at + 2 }
{
    place_short(buf, at, number) - 1
}

/// The parts of a line after its prefix: the digits that it shares with nearby lines, its numbers, and its text, which begins at position `from` of
/// these bytes.
#[derive(Clone, Copy, Drop)]
pub struct RestParts<'a> {
    pub digits: &'a Digits,
    pub numbers: Numbers,
    pub bytes: &'a [u8],
    pub from: usize,
}

/// Places the part of a line after its prefix as fields with a space between each two: line, start and length, and if texts are printed the text.
#[inline(always)]
pub fn place_fields(buf: &mut [u8], at: usize, is_printed: bool, parts: RestParts) -> usize
    requires ready { AreReady parts }
    requires room { at + 640 ≤ length buf.old }
    ensures placed { Placed buf.old buf.new at (rest_with is_printed parts.entry.numbers.line
        parts.entry.numbers.start parts.entry.numbers.len (text_in parts.entry)) result }
    ensures short { result ≤ at + 640 }
{
    let RestParts {
        digits,
        numbers,
        bytes,
        from,
    } = parts;
    let Numbers { line, start, len } = numbers;
    let at = digits.line.place(buf, at, line);
    let at = digits.start.place(buf, at, start as u64);
    if !is_printed {
        let at = place_small(buf, at, len);
        return place_byte(buf, at, b'\n');
    }
    let at = place_short(buf, at, len);
    let at = place_text::<TextEscape>(buf, at, bytes, from, len);
    place_byte(buf, at, b'\n')
}

/// Returns true if a text of this length at position `from` of these bytes is short enough, and 16 bytes can be read after it.
#[inline(always)]
pub fn fits(len: usize, bytes: &[u8], from: usize) -> bool
    requires { from + len ≤ length bytes.now }
    ensures len { IsTrue result → len ≤ 96 }
    ensures text { IsTrue result → from + len + 16 ≤ length bytes.now }
{
    len <= TEXT && from + len < bytes.len().saturating_sub(15)
}
