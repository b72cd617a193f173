//! Places lines one after the other from ready parts.

ghost use Rattle.std.specs.Prelude.{◌≡◌, ◌+◌, ◌<◌, ◌≤◌, ◌++◌, All, MatchOption, drop, length, take};
ghost use Rattle.lx_scan.specs.ItemParts.{LiesAt, NamesKindAmong, len_of};
ghost use Rattle.lx_piece.specs.Plans.{kinds_of};
ghost use Rattle.lx_line.specs.Prefixes.{ArePrefixesOf};
ghost use Rattle.lx_line.specs.Styles.{lines_at};

use crate::fields::{Digits, RestParts, fits, numbers_in};
use crate::prefixes::Prefixes;
use crate::style::{LinePrefix, LineStyle};
use lx_piece::Plan;
use lx_scan::FlatItem;

// Greatest length of a line. It has a prefix of 128 bytes, three numbers, a text in which each byte may take six, and what lies between them. 16 bytes
// that are copied after the text come to it.
const LINE: usize = 800;

/// Some first items whose lines were placed: their number, and the position where the lines end.
#[derive(Clone, Copy, Drop)]
pub(crate) struct FirstLines {
    pub count: usize,
    pub end: usize,
}

/// The ready parts of a file's lines, and those that later lines can reuse.
#[derive(Drop)]
pub struct Draft {
    pub prefixes: Prefixes,
    pub digits: Digits,
}

impl Draft {
    /// Makes a draft for the lines of a file.
    #[inline(always)]
    pub fn new<L: LinePrefix>(style: &L, plan: &Plan, file: u32) -> Draft
        ensures { ArePrefixesOf (L.prefix style.now plan.now file) result.prefixes }
    {
        Draft {
            prefixes: Prefixes::new(style, plan, file),
            digits: Digits::new(),
        }
    }

    /// Prepares for the lines of another file.
    #[cold]
    #[inline(never)]
    pub fn begin<L: LinePrefix>(&mut self, style: &L, plan: &Plan, file: u32)
        ensures { ArePrefixesOf (L.prefix style.now plan.now file) self.new.prefixes }
    {
        self.prefixes = Prefixes::new(style, plan, file);
    }

    /// Places the line of an item, or nothing for an item without one. Its text begins at position `from` of these bytes. Returns `None` if the line
    /// needs the plain way: it is long, or its text is near the end of the bytes, after which 16 bytes can't be read.
    #[inline(always)]
    fn place_line<L: LineStyle>(
        &mut self,
        style: &L,
        buf: &mut [u8],
        at: usize,
        plan: &Plan,
        file: u32,
        item: &FlatItem,
        bytes: &[u8],
        from: usize,
    ) -> Option<usize>
        requires room { at + 800 ≤ length buf.old }
        requires text { from + len_of item.now ≤ length bytes.now }
        requires item { NamesKindAmong (kinds_of plan.now) item.now }
        requires prefixes { ArePrefixesOf (L.prefix style.now plan.now file) self.old.prefixes }
        ensures placed { MatchOption result (buf.new ≡ buf.old) (λ end. take end buf.new
            ≡ take at buf.old ++ (L.style style.now).line_with plan.now.table file item.now
            (take (len_of item.now) (drop from bytes.now))) }
        ensures short { MatchOption result (Unit {0}) (λ end. end ≤ at + 800) }
        ensures len { length buf.new ≡ length buf.old }
        ensures prefixes { ArePrefixesOf (L.prefix style.now plan.now file) self.new.prefixes }
    {
        if !style.has_line(item) {
            return Some(at);
        }
        let numbers = numbers_in(item);
        if !fits(numbers.len, bytes, from)
            || !style.can_place(bytes, from, numbers.len)
            || !self.digits.follow(numbers)
        {
            return None;
        }
        let Some(at) = self
            .prefixes
            .place(style, buf, at, plan, file, item.label())
        else {
            return None;
        };
        let parts = RestParts {
            digits: &self.digits,
            numbers,
            bytes,
            from,
        };
        Some(style.place_rest(buf, at, parts))
    }

    /// Places the lines of the first items, up to one that has no room or needs the plain way. Their texts are in these bytes, which begin at
    /// position `base` of the file.
    #[inline(never)]
    pub(crate) fn place_lines<L: LineStyle>(
        &mut self,
        style: &L,
        buf: &mut [u8],
        at: usize,
        plan: &Plan,
        file: u32,
        items: &[FlatItem],
        bytes: &[u8],
        base: usize,
    ) -> FirstLines
        requires room { at ≤ length buf.old }
        requires texts { All (LiesAt bytes.now base) items.now }
        requires named { All (NamesKindAmong (kinds_of plan.now)) items.now }
        requires prefixes { ArePrefixesOf (L.prefix style.now plan.now file) self.old.prefixes }
        ensures few { result.count ≤ length items.now }
        ensures lines { take result.end buf.new ≡ take at buf.old
            ++ lines_at (L.style style.now) plan.now.table file bytes.now base
            (take result.count items.now) }
        ensures within { result.end ≤ length buf.new }
        ensures len { length buf.new ≡ length buf.old }
        ensures prefixes { ArePrefixesOf (L.prefix style.now plan.now file) self.new.prefixes }
    {
        let mut end = at;
        let mut count = 0;
        for item in items {
            if end + LINE > buf.len() {
                return FirstLines { count, end };
            }
            let from = item.start() - base;
            let Some(next) = self.place_line(style, buf, end, plan, file, item, bytes, from) else {
                return FirstLines { count, end };
            };
            end = next;
            count += 1;
        }
        FirstLines { count, end }
    }
}
