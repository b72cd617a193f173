//! Makes lines in JSON in a form.

ghost use Rattle.std.specs.Prelude.{◌≡◌, ◌+◌, ◌*◌, ◌^◌, ◌<◌, ◌≤◌, ◌++◌, MatchOption, OnOk, codes, decimal, drop, length, take};
ghost use Rattle.std.specs.List.{flat_map};
ghost use Rattle.lx_rules.specs.declared.rule.Kind.{Kind};
ghost use Rattle.lx_scan.specs.ItemParts.{IsKindAmong, NamesKindAmong};
ghost use Rattle.lx_piece.specs.Plans.{kinds_of};
ghost use Rattle.lx_line.specs.Fields.{AreKept, AreReady, text_in};
ghost use Rattle.lx_line.specs.Placed.{Placed};
ghost use Rattle.lx_line.specs.Prefixes.{IsKindOf};
ghost use Rattle.lx_forms.specs.Forms.{number_in};
ghost use Rattle.lx_forms.specs.JsonFields.{json_rest, numbers_text, string_member};
ghost use Rattle.lx_forms.specs.JsonLines.{bytes_member, file_members, hex_pair, json_cut_line, json_line_with, kind_value, name_member, string_of, text_member};
ghost use Rattle.lx_forms.specs.JsonParts.{json_prefix, rest_with, sort_text};
ghost use Rattle.lx_forms.specs.Views.{form_view};

use crate::form::{Form, name_of};
use crate::strings::{StringEscape, is_text, place_string, small_digit};
use lx_line::{
    Digits, Numbers, RestParts, kind_of, numbers_of, place_4, place_16, place_all, place_byte,
    place_number, place_small, place_text, push_number, push_text,
};
use lx_piece::Plan;
use lx_rules::rule::Kind;
use lx_scan::Item;
use std::alloc::AllocError;

// Greatest length of the name of a file in a kept prefix.
const NAME: usize = 96;

// Greatest length of the name of a kind in a kept prefix.
const KIND: usize = 40;

// Appends a byte as two digits.
fn push_hex_pair(block: &mut Vec<u8>, byte: u8) -> Result<(), AllocError>
    ensures { OnOk result (block.new.items ≡ block.old.items ++ hex_pair byte) }
{
    block.extend_from_slice(&[small_digit(byte / 16), small_digit(byte % 16)])
}

fn push_hex(block: &mut Vec<u8>, bytes: &[u8]) -> Result<(), AllocError>
    ensures { OnOk result (block.new.items ≡ block.old.items ++ flat_map hex_pair bytes.now) }
{
    for byte in bytes {
        push_hex_pair(block, *byte)?;
    }
    Ok(())
}

fn push_string(block: &mut Vec<u8>, bytes: &[u8]) -> Result<(), AllocError>
    ensures { OnOk result (block.new.items ≡ block.old.items ++ string_of bytes.now) }
{
    block.extend_from_slice(b"\"")?;
    push_text::<StringEscape>(block, bytes)?;
    block.extend_from_slice(b"\"")?;
    Ok(())
}

// Appends a member with bytes: a string under the first name if they are UTF-8, otherwise digits under the second name.
fn push_bytes_member(
    block: &mut Vec<u8>,
    name: &[u8],
    hex_name: &[u8],
    bytes: &[u8],
) -> Result<(), AllocError>
    ensures { OnOk result
        (block.new.items ≡ block.old.items ++ bytes_member name.now hex_name.now bytes.now) }
{
    if is_text(bytes) {
        block.extend_from_slice(name)?;
        push_string(block, bytes)?;
        return Ok(());
    }
    block.extend_from_slice(hex_name)?;
    block.extend_from_slice(b"\"")?;
    push_hex(block, bytes)?;
    block.extend_from_slice(b"\"")?;
    Ok(())
}

// Appends the name of a file, if names are printed.
fn push_name(block: &mut Vec<u8>, form: &Form<'_>, file: u32) -> Result<(), AllocError>
    ensures { OnOk result
        (block.new.items ≡ block.old.items ++ name_member (form_view form.now) file) }
{
    match form.names {
        Some(names) => push_bytes_member(
            block,
            b",\"name\":",
            b",\"name_hex\":",
            name_of(names, file),
        ),
        None => Ok(()),
    }
}

// Appends the number of a file, and its name.
fn push_file(block: &mut Vec<u8>, form: &Form<'_>, file: u32) -> Result<(), AllocError>
    ensures { OnOk result
        (block.new.items ≡ block.old.items ++ file_members (form_view form.now) file) }
{
    block.extend_from_slice(b"{\"file\":")?;
    push_number(block, form.number_of(file))?;
    push_name(block, form, file)?;
    Ok(())
}

// Appends the name of a kind, or its number.
fn push_kind_value(block: &mut Vec<u8>, plan: &Plan, kind: Kind) -> Result<(), AllocError>
    requires { IsKindAmong (kinds_of plan.now) kind }
    ensures { OnOk result (block.new.items ≡ block.old.items ++ kind_value plan.now kind) }
{
    match kind {
        Kind::Name(place) => push_string(block, plan.kind(place)),
        Kind::Number(number) => push_number(block, u64::from(number)),
    }
}

// Appends the kind of a token, or `"echo":true`.
fn push_sort(block: &mut Vec<u8>, plan: &Plan, kind: Option<Kind>) -> Result<(), AllocError>
    requires { IsKindOf plan.now kind }
    ensures { OnOk result (block.new.items ≡ block.old.items ++ sort_text plan.now kind) }
{
    match kind {
        Some(kind) => {
            block.extend_from_slice(b",\"kind\":")?;
            push_kind_value(block, plan, kind)?;
            Ok(())
        }
        None => block.extend_from_slice(b",\"echo\":true"),
    }
}

// Appends the part of a line before the number of the line.
fn push_prefix(
    block: &mut Vec<u8>,
    form: &Form<'_>,
    plan: &Plan,
    file: u32,
    kind: Option<Kind>,
) -> Result<(), AllocError>
    requires { IsKindOf plan.now kind }
    ensures { OnOk result
        (block.new.items ≡ block.old.items ++ json_prefix (form_view form.now) plan.now file kind) }
{
    push_file(block, form, file)?;
    push_sort(block, plan, kind)?;
    block.extend_from_slice(b",\"line\":")?;
    Ok(())
}

// Appends line, start and length.
fn push_numbers(block: &mut Vec<u8>, numbers: Numbers) -> Result<(), AllocError>
    ensures { OnOk result
        (block.new.items ≡ block.old.items ++ numbers_text numbers.line numbers.start numbers.len) }
{
    push_number(block, numbers.line)?;
    block.extend_from_slice(b",\"start\":")?;
    push_number(block, numbers.start as u64)?;
    block.extend_from_slice(b",\"len\":")?;
    push_number(block, numbers.len as u64)?;
    Ok(())
}

// Appends a text, if texts are printed.
fn push_printed(block: &mut Vec<u8>, form: &Form<'_>, text: &[u8]) -> Result<(), AllocError>
    ensures { OnOk result
        (block.new.items ≡ block.old.items ++ text_member (form_view form.now) text.now) }
{
    if !form.text {
        return Ok(());
    }
    push_bytes_member(block, b",\"text\":", b",\"hex\":", text)
}

// Appends the part of a line after the prefix.
fn push_rest(
    block: &mut Vec<u8>,
    form: &Form<'_>,
    item: &Item,
    text: &[u8],
) -> Result<(), AllocError>
    ensures { OnOk result (block.new.items
        ≡ block.old.items ++ rest_with (form_view form.now) item.now text.now) }
{
    push_numbers(block, numbers_of(item))?;
    push_printed(block, form, text)?;
    block.extend_from_slice(b"}\n")?;
    Ok(())
}

/// Appends the line of an item with this text.
pub(crate) fn push_json_line(
    block: &mut Vec<u8>,
    form: &Form<'_>,
    plan: &Plan,
    file: u32,
    item: &Item,
    text: &[u8],
) -> Result<(), AllocError>
    requires { NamesKindAmong (kinds_of plan.now) item.now }
    ensures { OnOk result (block.new.items ≡ block.old.items
        ++ json_line_with (form_view form.now) plan.now.table file item.now text.now) }
{
    push_prefix(block, form, plan, file, kind_of(item))?;
    push_rest(block, form, item, text)?;
    Ok(())
}

/// Appends the line of a file whose reading failed.
#[tactic(auto, unfolding(crate::specs::JsonLines::json_cut_line))]
pub(crate) fn push_json_cut_line(
    block: &mut Vec<u8>,
    form: &Form<'_>,
    file: u32,
) -> Result<(), AllocError>
    ensures { OnOk result
        (block.new.items ≡ block.old.items ++ json_cut_line (form_view form.now) file) }
{
    push_file(block, form, file)?;
    block.extend_from_slice(b",\"cut\":true}\n")?;
    Ok(())
}

// Places a number.
fn place_decimal(buf: &mut [u8], at: usize, number: u64) -> usize
    requires room { at + 20 ≤ length buf.old }
    requires few { number < 10 ^ 18 }
    ensures placed { Placed buf.old buf.new at (decimal number) result }
    ensures short { result ≤ at + 18 }
{
    place_number(buf, at, number) - 1
}

// Places the number of a file.
fn place_head(buf: &mut [u8], form: &Form<'_>, file: u32) -> usize
    requires { 1024 ≤ length buf.old }
    ensures placed { Placed buf.old buf.new 0
        (codes "{\"file\":" ++ decimal (number_in (form_view form.now) file)) result }
    ensures short { result ≤ 32 }
{
    let at = place_all(buf, 0, b"{\"file\":");
    place_decimal(buf, at, form.number_of(file))
}

// Places the name of a file. Returns `None` if it is too long, or not UTF-8.
fn place_name_string(buf: &mut [u8], at: usize, name: &[u8]) -> Option<usize>
    requires { at + 640 ≤ length buf.old }
    ensures placed { MatchOption result (Unit {0}) (λ end. Placed buf.old buf.new at
        (bytes_member (codes ",\"name\":") (codes ",\"name_hex\":") name.now) end) }
    ensures short { MatchOption result (Unit {0}) (λ end. end ≤ at + 640) }
{
    if name.len() > NAME || !is_text(name) {
        return None;
    }
    let at = place_all(buf, at, b",\"name\":");
    Some(place_string(buf, at, name))
}

// Places the name of a file, if names are printed. Returns `None` if it is too long, or not UTF-8.
fn place_name(buf: &mut [u8], at: usize, form: &Form<'_>, file: u32) -> Option<usize>
    requires { at + 640 ≤ length buf.old }
    ensures placed { MatchOption result (Unit {0})
        (λ end. Placed buf.old buf.new at (name_member (form_view form.now) file) end) }
    ensures short { MatchOption result (Unit {0}) (λ end. end ≤ at + 640) }
{
    match form.names {
        Some(names) => place_name_string(buf, at, name_of(names, file)),
        None => Some(at),
    }
}

// Places the name of a kind, or its number. Returns `None` if the name is too long.
fn place_kind_value(buf: &mut [u8], at: usize, plan: &Plan, kind: Kind) -> Option<usize>
    requires room { at + 280 ≤ length buf.old }
    requires kind { IsKindAmong (kinds_of plan.now) kind }
    ensures placed { MatchOption result (Unit {0})
        (λ end. Placed buf.old buf.new at (kind_value plan.now kind) end) }
    ensures short { MatchOption result (Unit {0}) (λ end. end ≤ at + 280) }
{
    match kind {
        Kind::Number(number) => Some(place_decimal(buf, at, u64::from(number))),
        Kind::Name(place) => {
            let name = plan.kind(place);
            if name.len() > KIND {
                return None;
            }
            Some(place_string(buf, at, name))
        }
    }
}

// Places the kind of a token. Returns `None` if its name is too long.
fn place_token(buf: &mut [u8], at: usize, plan: &Plan, kind: Kind) -> Option<usize>
    requires room { at + 288 ≤ length buf.old }
    requires kind { IsKindAmong (kinds_of plan.now) kind }
    ensures placed { MatchOption result (Unit {0})
        (λ end. Placed buf.old buf.new at (codes ",\"kind\":" ++ kind_value plan.now kind) end) }
    ensures short { MatchOption result (Unit {0}) (λ end. end ≤ at + 288) }
{
    let at = place_all(buf, at, b",\"kind\":");
    let Some(at) = place_kind_value(buf, at, plan, kind) else {
        return None;
    };
    Some(at)
}

// Places the kind of a token, or `"echo":true`. Returns `None` if the name of the kind is too long.
fn place_sort(buf: &mut [u8], at: usize, plan: &Plan, kind: Option<Kind>) -> Option<usize>
    requires room { at + 288 ≤ length buf.old }
    requires kind { IsKindOf plan.now kind }
    ensures placed { MatchOption result (Unit {0})
        (λ end. Placed buf.old buf.new at (sort_text plan.now kind) end) }
    ensures short { MatchOption result (Unit {0}) (λ end. end ≤ at + 288) }
{
    match kind {
        Some(kind) => place_token(buf, at, plan, kind),
        None => Some(place_all(buf, at, b",\"echo\":true")),
    }
}

/// Places the part of a line before the number of the line. Returns `None` if it is too long.
pub(crate) fn place_json_prefix(
    form: &Form<'_>,
    buf: &mut [u8],
    plan: &Plan,
    file: u32,
    kind: Option<Kind>,
) -> Option<usize>
    requires room { 1024 ≤ length buf.old }
    requires kind { IsKindOf plan.now kind }
    ensures { MatchOption result (Unit {0}) (λ end.
        Placed buf.old buf.new 0 (json_prefix (form_view form.now) plan.now file kind) end) }
{
    let at = place_head(buf, form, file);
    let Some(at) = place_name(buf, at, form, file) else {
        return None;
    };
    let Some(at) = place_sort(buf, at, plan, kind) else {
        return None;
    };
    Some(place_all(buf, at, b",\"line\":"))
}

// Places line, start and length. A copy of 16 bytes takes less time than one of fewer.
#[inline(always)]
fn place_numbers(buf: &mut [u8], at: usize, digits: &Digits, numbers: Numbers) -> usize
    requires digits { AreKept digits.now numbers }
    requires len { numbers.len ≤ 96 }
    requires room { at + 64 ≤ length buf.old }
    ensures placed { Placed buf.old buf.new at (numbers_text numbers.line numbers.start numbers.len)
        result }
    ensures short { result ≤ at + 54 }
{
    let at = digits.place_line(buf, at, numbers);
    let at = place_16(buf, at, b",\"start\":       ", 0, 9);
    let at = digits.place_start(buf, at, numbers);
    let at = place_16(buf, at, b",\"len\":         ", 0, 7);
    place_small(buf, at, numbers.len)
}

// Places a text that is UTF-8, if texts are printed. It begins at position `from` of these bytes.
#[inline(always)]
fn place_printed(
    buf: &mut [u8],
    at: usize,
    is_printed: bool,
    bytes: &[u8],
    from: usize,
    len: usize,
) -> usize
    requires text { from + len + 16 ≤ length bytes.now }
    requires room { at + 6 * len + 26 ≤ length buf.old }
    ensures placed { Placed buf.old buf.new at
        (string_member is_printed (take len (drop from bytes.now))) result }
    ensures short { result ≤ at + 6 * len + 10 }
{
    if !is_printed {
        return at;
    }
    let at = place_16(buf, at, b",\"text\":\"       ", 0, 9);
    let at = place_text::<StringEscape>(buf, at, bytes, from, len);
    place_byte(buf, at, b'"')
}

/// Places the part of a line after its prefix, with a text that is UTF-8 or without one.
#[inline(always)]
pub(crate) fn place_json_rest(
    buf: &mut [u8],
    at: usize,
    is_printed: bool,
    parts: RestParts,
) -> usize
    requires ready { AreReady parts }
    requires room { at + 672 ≤ length buf.old }
    ensures placed { Placed buf.old buf.new at (json_rest is_printed parts.entry.numbers.line
        parts.entry.numbers.start parts.entry.numbers.len (text_in parts.entry)) result }
    ensures short { result ≤ at + 672 }
{
    let at = place_numbers(buf, at, parts.digits, parts.numbers);
    let at = place_printed(
        buf,
        at,
        is_printed,
        parts.bytes,
        parts.from,
        parts.numbers.len,
    );
    place_4(buf, at, b"}\n  ", 0, 2)
}
