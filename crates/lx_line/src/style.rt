//! Styles of lines.

ghost use Rattle.std.specs.Prelude.{◌≡◌, ◌+◌, ◌<◌, ◌≤◌, ◌++◌, ℕ, Bool, IfOk, IsTrue, List, MatchOption, OnOk, Option, codes, drop, false, length, take, true};
ghost use Rattle.std.specs.List.{flat_map};
ghost use Rattle.lx_rules.specs.declared.rule.Kind.{Kind};
ghost use Rattle.lx_scan.specs.declared.item.Item.{Item};
ghost use Rattle.lx_scan.specs.ItemParts.{NamesKindAmong};
ghost use Rattle.lx_piece.specs.Plans.{Planned, kinds_of};
ghost use Rattle.lx_line.specs.Escapes.{escaped};
ghost use Rattle.lx_line.specs.Fields.{AreReady, text_in};
ghost use Rattle.lx_line.specs.Placed.{Placed};
ghost use Rattle.lx_line.specs.Prefixes.{IsKindOf};
ghost use Rattle.lx_line.specs.Styles.{HasParts, HasWholeLines, NeedsText, Style};

use crate::fields::RestParts;
use lx_piece::Plan;
use lx_rules::rule::Kind;
use lx_scan::{FlatItem, Item};
use std::alloc::AllocError;

/// The prefixes of a style's lines.
pub trait LinePrefix {
    /// The part of a line before the number of the line. Items of a kind share it.
    ghost prefix: { Self → Planned → ℕ → Option Kind → List ℕ };

    /// Returns true if prefixes of more than 32 bytes are worth keeping. Where they are rare, each line would pay for the test.
    fn are_long() -> bool;

    /// Places a prefix at the front of a buffer. Returns `None` if it is too long.
    fn place_prefix(
        &self,
        buf: &mut [u8],
        plan: &Plan,
        file: u32,
        kind: Option<Kind>,
    ) -> Option<usize>
        requires room { 1024 ≤ length buf.old }
        requires kind { IsKindOf plan.now kind }
        ensures { MatchOption result (Unit {0})
            (λ end. Placed buf.old buf.new 0 (prefix self.now plan.now file kind) end) };
}

/// The style of a listing's lines, and the two ways to make them: placed from ready parts, or appended field by field.
pub trait LineStyle: LinePrefix {
    /// The line of an item, or nothing for an item without one, and the line of a file whose reading failed.
    ghost style: { Self → Style };

    /// True for an item that has a line.
    ghost lists: { Self → Item → Bool };

    /// The texts after which the rest of a line can be placed.
    ghost places: { Self → List ℕ → Type 0 };

    /// The part of a line after its prefix, by line, start and length of an item, and its text.
    ghost rest: { Self → ℕ → ℕ → ℕ → List ℕ → List ℕ };

    /// Returns true if an item has a line.
    fn has_line(&self, item: &FlatItem) -> bool
        ensures { result ≡ lists self.now item.now };

    /// Returns true if a text of this length, which begins at position `from` of these bytes, can be placed. 16 bytes after it can be read too.
    fn can_place(&self, bytes: &[u8], from: usize, len: usize) -> bool
        requires { from + len + 16 ≤ length bytes.now }
        ensures { IsTrue result → places self.now (take len (drop from bytes.now)) };

    /// Places the part of a line after its prefix.
    fn place_rest(&self, buf: &mut [u8], at: usize, parts: RestParts) -> usize
        requires ready { AreReady parts }
        requires places { places self.now (text_in parts) }
        requires room { at + 672 ≤ length buf.old }
        ensures placed { Placed buf.old buf.new at (rest self.now parts.entry.numbers.line
            parts.entry.numbers.start parts.entry.numbers.len (text_in parts.entry)) result }
        ensures short { result ≤ at + 672 };

    /// Appends the line of an item with this text, up to the text. The plan need not have the item: only its tables count. Returns true if the line
    /// goes on with the text, escaped, and a line feed, and false if it is whole. If an allocation fails, a part of it was appended.
    fn push_start(
        &self,
        block: &mut Vec<u8>,
        plan: &Plan,
        file: u32,
        item: &Item,
        text: &[u8],
    ) -> Result<bool, AllocError>
        requires { NamesKindAmong (kinds_of plan.now) item.now }
        ensures start { IfOk result (λ goes_on. goes_on ≡ true
            → (block.new.items ++ flat_map escaped text.now) ++ codes "\n" ≡ block.old.items
            ++ (style self.now).line_with plan.now.table file item.now text.now) }
        ensures whole { IfOk result (λ goes_on. goes_on ≡ false
            → block.new.items ≡ block.old.items
            ++ (style self.now).line_with plan.now.table file item.now text.now) };

    /// Appends the line of a file whose reading failed.
    fn push_cut_line(&self, block: &mut Vec<u8>, file: u32) -> Result<(), AllocError>
        ensures { OnOk result
            (block.new.items ≡ block.old.items ++ (style self.now).cut_line file) };

    ghost whole: { (s : Self) → HasWholeLines (style s) };

    ghost by_text: { (s : Self) → NeedsText (style s) };

    ghost by_parts: { (s : Self) → HasParts (Self.prefix s) (rest s) (lists s) (places s) (style s) };
}
