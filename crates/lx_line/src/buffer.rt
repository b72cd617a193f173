//! Gathers lines in memory of fixed length.

ghost use Rattle.std.specs.Prelude.{◌≡◌, ◌<◌, ◌≤◌, [], ◌++◌, All, IfOk, false, length, take, true};
ghost use Rattle.lx_scan.specs.ItemParts.{LiesAt, NamesKindAmong};
ghost use Rattle.lx_piece.specs.Plans.{kinds_of};
ghost use Rattle.lx_line.specs.Prefixes.{ArePrefixesOf};
ghost use Rattle.lx_line.specs.Styles.{lines_at};

use crate::draft::Draft;
use crate::place::place_all;
use crate::style::LineStyle;
use lx_piece::Plan;
use lx_scan::FlatItem;
use std::alloc::{AllocError, Global};
use std::marker::Model;

// Number of bytes that are worth a write.
const FULL: usize = 98_304;

// Greatest length of a block that is copied to the buffer. A longer block is worth its own write. Copying a shorter one takes less time than a system
// call.
const SHORT: usize = 32_768;

// Length of the buffer. A short block has room until the bytes before it are worth a write.
const ROOM: usize = FULL + SHORT;

/// Lines, and parts of lines, gathered in memory of fixed length.
#[derive(Drop)]
pub struct LineBuffer {
    bytes: Vec<u8>,
    len: usize,
}

impl Model for LineBuffer {
    ghost use Rattle.std.specs.Prelude.{ℕ, ◌≡◌, ◌≤◌, List, length, take};

    ghost Value = { List ℕ };

    ghost view = { λ s. take s.len s.bytes.items };

    ghost invariant = { λ s. (length s.bytes.items ≡ 131072) × (s.len ≤ 131072) };
}

impl LineBuffer {
    /// Returns an empty buffer.
    pub fn new(alloc: Global) -> Result<LineBuffer, AllocError>
        ensures { IfOk result (λ buffer. buffer ≡ []) }
    {
        Ok(LineBuffer {
            bytes: vec![in alloc; 0; ROOM]?,
            len: 0,
        })
    }

    pub fn as_slice(&self) -> &[u8]
        ensures { result.now ≡ self.now }
    {
        &self.bytes[..self.len]
    }

    pub fn clear(&mut self)
        ensures { self.new ≡ [] }
    {
        self.len = 0;
    }

    /// Appends a block. Returns false, without effect, if the block or the contents are worth a write.
    pub fn push(&mut self, block: &[u8]) -> bool
        ensures pushed { result ≡ true → self.new ≡ self.old ++ block.now }
        ensures not { result ≡ false → self.new ≡ self.old }
    {
        if block.len() > SHORT || self.len > FULL {
            return false;
        }
        self.len = place_all(&mut self.bytes, self.len, block);
        true
    }

    /// Appends the lines of the first items, up to one that has no room or needs the plain way. Returns their number. Their texts are in these bytes,
    /// which begin at position `base` of the file.
    pub(crate) fn place_lines<L: LineStyle>(
        &mut self,
        style: &L,
        draft: &mut Draft,
        plan: &Plan,
        file: u32,
        items: &[FlatItem],
        bytes: &[u8],
        base: usize,
    ) -> usize
        requires texts { All (LiesAt bytes.now base) items.now }
        requires named { All (NamesKindAmong (kinds_of plan.now)) items.now }
        requires prefixes { ArePrefixesOf (L.prefix style.now plan.now file) draft.old.prefixes }
        ensures few { result ≤ length items.now }
        ensures lines { self.new ≡ self.old
            ++ lines_at (L.style style.now) plan.now.table file bytes.now base (take result items.now) }
        ensures prefixes { ArePrefixesOf (L.prefix style.now plan.now file) draft.new.prefixes }
    {
        let lines = draft.place_lines(
            style,
            &mut self.bytes,
            self.len,
            plan,
            file,
            items,
            bytes,
            base,
        );
        self.len = lines.end;
        lines.count
    }
}
