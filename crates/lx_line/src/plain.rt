//! Makes lines field by field: the plain way, which works for every line.

ghost use Rattle.std.specs.Prelude.{◌≡◌, ◌+◌, ◌<◌, ◌≤◌, ◌++◌, MatchOption, OnOk, Some, codes, decimal, length};
ghost use Rattle.std.specs.List.{flat_map};
ghost use Rattle.lx_scan.specs.ItemParts.{IsItemOf, IsKindAmong, NamesKindAmong, line_of as line_number, start_of, len_of};
ghost use Rattle.lx_piece.specs.Plans.{files_of, bytes_of, kinds_of};
ghost use Rattle.lx_line.specs.Lines.{class_text, name_text, kind_text, cut_line};
ghost use Rattle.lx_line.specs.Placed.{Placed};
ghost use Rattle.lx_line.specs.Prefixes.{IsKindOf, class_and_kind};

use crate::escape::{Escape, TextEscape};
use crate::fields::{RestParts, numbers_of, place_fields};
use crate::place::{place_all, place_byte};
use crate::shared::place_number;
use crate::style::{LinePrefix, LineStyle};
use crate::texts::place_text;
use itoa::Buffer;
use lx_piece::Plan;
use lx_rules::rule::Kind;
use lx_scan::{FlatItem, Item};
use std::alloc::AllocError;

// Number of bytes of a text that are placed at a time.
const PART: usize = 32;

// Greatest length of the name of a kind in a kept prefix.
const NAME: usize = 120;

// Appends at most 32 bytes of a text, escaped. Works on a copy with 16 more bytes, which can be read too.
fn push_part<E: Escape>(line: &mut Vec<u8>, text: &[u8]) -> Result<(), AllocError>
    requires { length text.now ≤ 32 }
    ensures { OnOk result (line.new.items ≡ line.old.items ++ flat_map E.shown text.now) }
{
    let mut bytes = [0; 48];
    bytes[..text.len()].copy_from_slice(text);
    let mut placed = [0; 208];
    let end = place_text::<E>(&mut placed, 0, &bytes, 0, text.len());
    line.extend_from_slice(&placed[..end])
}

/// Appends a text, escaped. If an allocation fails, a part of it was appended.
pub fn push_text<E: Escape>(line: &mut Vec<u8>, text: &[u8]) -> Result<(), AllocError>
    ensures { OnOk result (line.new.items ≡ line.old.items ++ flat_map E.shown text.now) }
{
    let mut done = 0;
    while done < text.len() {
        let end = done + PART.min(text.len() - done);
        push_part::<E>(line, &text[done..end])?;
        done = end;
    }
    Ok(())
}

/// Appends a number in decimal.
pub fn push_number(line: &mut Vec<u8>, number: u64) -> Result<(), AllocError>
    ensures { OnOk result (line.new.items ≡ line.old.items ++ decimal number) }
{
    let mut buffer = Buffer::new();
    line.extend_from_slice(buffer.format(number).as_bytes())
}

/// Appends a number and a space. Most file numbers and most lengths have one digit.
pub fn push_field(line: &mut Vec<u8>, number: u64) -> Result<(), AllocError>
    ensures { OnOk result (line.new.items ≡ line.old.items ++ decimal number ++ codes " ") }
{
    if number < 10 {
        return line.extend_from_slice(&[b'0' + number as u8, b' ']);
    }
    push_number(line, number)?;
    line.extend_from_slice(b" ")
}

// Appends the kind of a token, and a space.
fn push_name(line: &mut Vec<u8>, plan: &Plan, kind: Kind) -> Result<(), AllocError>
    requires { IsKindAmong (kinds_of plan.now) kind }
    ensures { OnOk result
        (line.new.items ≡ line.old.items ++ name_text plan.now kind ++ codes " ") }
{
    match kind {
        Kind::Name(place) => {
            line.extend_from_slice(plan.kind(place))?;
            line.extend_from_slice(b" ")
        }
        Kind::Number(number) => push_field(line, u64::from(number)),
    }
}

/// Appends the class of an item, T for a token or E for an Echo, and its kind, with a space after each.
pub fn push_kind(line: &mut Vec<u8>, plan: &Plan, item: &Item) -> Result<(), AllocError>
    requires { NamesKindAmong (kinds_of plan.now) item.now }
    ensures { OnOk result (line.new.items
        ≡ line.old.items ++ class_text item.now ++ codes " " ++ kind_text plan.now item.now
        ++ codes " ") }
{
    match item {
        Item::Token { kind, .. } => {
            line.extend_from_slice(b"T ")?;
            push_name(line, plan, *kind)
        }
        Item::Echo { .. } => line.extend_from_slice(b"E - "),
    }
}

// Appends the fields of an item's line before its text to the block. If an allocation fails, a part of them was appended.
fn push_fields(block: &mut Vec<u8>, plan: &Plan, file: u32, item: &Item) -> Result<(), AllocError>
    requires { NamesKindAmong (kinds_of plan.now) item.now }
    ensures { OnOk result (block.new.items
        ≡ block.old.items ++ (decimal file ++ codes " " ++ class_text item.now ++ codes " "
        ++ kind_text plan.now item.now ++ codes " "
        ++ decimal (line_number item.now) ++ codes " "
        ++ decimal (start_of item.now) ++ codes " " ++ decimal (len_of item.now)
        ++ codes " ")) }
{
    let numbers = numbers_of(item);
    push_field(block, u64::from(file))?;
    push_kind(block, plan, item)?;
    push_field(block, numbers.line)?;
    push_field(block, numbers.start as u64)?;
    push_field(block, numbers.len as u64)?;
    Ok(())
}

/// Appends the line of an item of a file to the block, if it has one. If an allocation fails, a part of it was appended.
#[inline(never)]
pub fn push_line<L: LineStyle>(
    style: &L,
    block: &mut Vec<u8>,
    plan: &Plan,
    file: u32,
    item: &Item,
) -> Result<(), AllocError>
    requires file { file < files_of plan.now }
    requires item { IsItemOf (kinds_of plan.now) (bytes_of plan.now file) item.now }
    ensures { OnOk result (block.new.items
        ≡ block.old.items ++ (L.style style.now).line plan.now file item.now) }
{
    push_line_with(style, block, plan, file, item, item.text(plan.bytes(file)))
}

/// Appends the line of an item with this text, if it has one. The plan need not have the item: only its tables count. If an allocation fails, a part of
/// the line was appended.
pub fn push_line_with<L: LineStyle>(
    style: &L,
    block: &mut Vec<u8>,
    plan: &Plan,
    file: u32,
    item: &Item,
    text: &[u8],
) -> Result<(), AllocError>
    requires { NamesKindAmong (kinds_of plan.now) item.now }
    ensures { OnOk result (block.new.items ≡ block.old.items
        ++ (L.style style.now).line_with plan.now.table file item.now text.now) }
{
    if !style.push_start(block, plan, file, item, text)? {
        return Ok(());
    }
    push_text::<TextEscape>(block, text)?;
    block.extend_from_slice(b"\n")
}

// Appends the line of a file whose reading failed to the block.
fn push_cut_line(block: &mut Vec<u8>, file: u32) -> Result<(), AllocError>
    ensures { OnOk result (block.new.items ≡ block.old.items ++ cut_line file) }
{
    push_number(block, u64::from(file))?;
    block.extend_from_slice(b" ! cut\n")
}

// Places a kind and a space. Returns `None` if its name is too long.
fn place_name(buf: &mut [u8], at: usize, plan: &Plan, kind: Kind) -> Option<usize>
    requires room { at + 128 ≤ length buf.old }
    requires kind { IsKindAmong (kinds_of plan.now) kind }
    ensures { MatchOption result (Unit {0})
        (λ end. Placed buf.old buf.new at (name_text plan.now kind ++ codes " ") end) }
{
    match kind {
        Kind::Number(number) => Some(place_number(buf, at, u64::from(number))),
        Kind::Name(place) => {
            let name = plan.kind(place);
            if name.len() > NAME {
                return None;
            }
            let at = place_all(buf, at, name);
            Some(place_byte(buf, at, b' '))
        }
    }
}

// Places the class of a token and a kind, with a space after each. Returns `None` if its name is too long.
fn place_token(buf: &mut [u8], at: usize, plan: &Plan, kind: Kind) -> Option<usize>
    requires room { at + 130 ≤ length buf.old }
    requires kind { IsKindAmong (kinds_of plan.now) kind }
    ensures { MatchOption result (Unit {0})
        (λ end. Placed buf.old buf.new at (class_and_kind plan.now (Some kind)) end) }
{
    let at = place_all(buf, at, b"T ");
    place_name(buf, at, plan, kind)
}

/// Places class and kind, with a space after each. Returns `None` if they are too long.
pub fn place_kind(buf: &mut [u8], at: usize, plan: &Plan, kind: Option<Kind>) -> Option<usize>
    requires room { at + 130 ≤ length buf.old }
    requires kind { IsKindOf plan.now kind }
    ensures { MatchOption result (Unit {0})
        (λ end. Placed buf.old buf.new at (class_and_kind plan.now kind) end) }
{
    match kind {
        Some(kind) => place_token(buf, at, plan, kind),
        None => Some(place_all(buf, at, b"E - ")),
    }
}

/// The style of a listing without options.
#[derive(Clone, Copy, Debug, Drop)]
pub struct PlainStyle;

impl LinePrefix for PlainStyle {
    ghost use Rattle.lx_line.specs.Prefixes.{prefix_text};

    ghost prefix = { λ _ plan file kind. prefix_text plan file kind };

    #[inline(always)]
    fn are_long() -> bool {
        false
    }

    fn place_prefix(
        &self,
        buf: &mut [u8],
        plan: &Plan,
        file: u32,
        kind: Option<Kind>,
    ) -> Option<usize> {
        let at = place_number(buf, 0, u64::from(file));
        place_kind(buf, at, plan, kind)
    }
}

impl LineStyle for PlainStyle {
    ghost use Rattle.std.specs.Prelude.{⊤, true};
    ghost use Rattle.lx_line.specs.Fields.{rest_text};
    ghost use Rattle.lx_line.specs.StyleLaws.{plain_parts, plain_text, plain_whole};
    ghost use Rattle.lx_line.specs.Styles.{plain};

    ghost style = { λ _. plain };

    ghost lists = { λ _ _. true };

    ghost places = { λ _ _. ⊤ };

    ghost rest = { λ _. rest_text };

    #[inline(always)]
    fn has_line(&self, _item: &FlatItem) -> bool {
        true
    }

    #[inline(always)]
    fn can_place(&self, _bytes: &[u8], _from: usize, _len: usize) -> bool {
        true
    }

    #[inline(always)]
    fn place_rest(&self, buf: &mut [u8], at: usize, parts: RestParts) -> usize {
        place_fields(buf, at, true, parts)
    }

    fn push_start(
        &self,
        block: &mut Vec<u8>,
        plan: &Plan,
        file: u32,
        item: &Item,
        _text: &[u8],
    ) -> Result<bool, AllocError> {
        push_fields(block, plan, file, item)?;
        Ok(true)
    }

    fn push_cut_line(&self, block: &mut Vec<u8>, file: u32) -> Result<(), AllocError> {
        push_cut_line(block, file)
    }

    ghost whole = { λ _. plain_whole };

    ghost by_text = { λ _. plain_text };

    ghost by_parts = { λ _. plain_parts };
}
