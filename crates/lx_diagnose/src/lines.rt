//! Lines of a text, and places in them.

ghost use Rattle.std.specs.Prelude.{◌≡◌, ◌+◌, ◌-◌, ◌<◌, ◌≤◌, length, min, take};
ghost use Rattle.std.specs.List.{prefix_len};
ghost use Rattle.lx_diagnose.specs.Places as specs;

use crate::places::{Span, TextPlace};

fn line_len(text: &[u8]) -> usize
    ensures value { result ≡ prefix_len specs.is_no_newline text.now }
    ensures within { result ≤ length text.now }
{
    text.iter().take_while(|c| **c != b'\n').count()
}

fn skip_line(text: &[u8]) -> &[u8]
    ensures { result.now ≡ specs.behind_line text.now }
{
    let n = line_len(text);
    if n < text.len() { &text[n + 1..] } else { &[] }
}

// Returns the text from a line on.
fn from_line(text: &[u8], line: u32) -> &[u8]
    ensures { result.now ≡ specs.behind_lines (line - 1) text.now }
{
    let mut rest = text;
    for _ in 1..line {
        rest = skip_line(rest);
    }
    rest
}

fn unknown_place(start: usize, line: u32) -> TextPlace
    ensures start { result.start ≡ start }
    ensures line { result.line ≡ line }
    ensures column { result.column ≡ 0 }
    ensures width { result.width ≡ 0 }
{
    TextPlace {
        start,
        line,
        column: 0,
        width: 0,
    }
}

// Returns the place of `width` bytes after the first `before` bytes of a line.
fn place_after(start: usize, line: u32, before: usize, width: usize, len: usize) -> TextPlace
    requires within { before ≤ len }
    requires fits { len < 9223372036854775808 }
    ensures start { result.start ≡ start }
    ensures line { result.line ≡ line }
    ensures column { result.column ≡ before + 1 }
    ensures width { result.width ≡ min width (len - before) }
    ensures within { result.column + result.width ≤ len + 1 }
{
    let left = len - before;
    TextPlace {
        start,
        line,
        column: before + 1,
        width: if width < left { width } else { left },
    }
}

/// Returns the place of a part of the text within this line. Cuts the part off at the line's end. The column is 0 if the part doesn't begin in the
/// line.
pub(crate) fn place_in(text: &[u8], line: u32, span: Span) -> TextPlace
    ensures start { result.start ≡ span.start }
    ensures line { result.line ≡ line }
    ensures known { 0 < line → line ≤ length text.now → specs.line_start line text.now ≤ span.start
        → span.start ≤ specs.line_start line text.now + specs.line_len line text.now → 0 < result.column }
    ensures width { 0 < result.column
        → result.width ≡ min span.len (specs.line_len line text.now + 1 - result.column) }
    ensures place { specs.IsInText text.now result }
{
    if line == 0 || line as usize > text.len() {
        return unknown_place(span.start, line);
    }
    let rest = from_line(text, line);
    let start = text.len().saturating_sub(rest.len());
    let len = line_len(rest);
    if start <= span.start && span.start - start <= len {
        place_after(span.start, line, span.start - start, span.len, len)
    } else {
        unknown_place(span.start, line)
    }
}

fn newline_count(text: &[u8]) -> usize
    ensures { result ≡ specs.newlines text.now }
{
    text.iter().filter(|c| **c == b'\n').count()
}

fn front(text: &[u8], len: usize) -> &[u8]
    ensures { result.now ≡ take len text.now }
{
    if len < text.len() { &text[..len] } else { text }
}

/// Returns the number of the line that has this byte of the text. Lines from `u32::MAX` on have this number.
pub(crate) fn line_number(text: &[u8], at: usize) -> u32
    ensures { result ≡ min (specs.newlines (take at text.now) + 1) 4294967295 }
{
    let newlines = newline_count(front(text, at));
    u32::try_from(newlines)
        .unwrap_or(u32::MAX)
        .saturating_add(1)
}

/// Returns the place of a part of the text. Cuts the part off at the end of its first byte's line.
pub fn place_of(text: &[u8], span: Span) -> TextPlace
    ensures place { specs.IsInText text.now result }
    ensures exact { specs.IsPlaceOf text.now span.start span.len result }
{
    place_in(text, line_number(text, span.start), span)
}

/// Returns the position of all bytes of a line. The result is empty if the text has no such line.
pub(crate) fn line_span(text: &[u8], line: u32) -> Span {
    if line == 0 || line as usize > text.len() {
        return Span { start: 0, len: 0 };
    }
    let rest = from_line(text, line);
    Span {
        start: text.len().saturating_sub(rest.len()),
        len: line_len(rest),
    }
}

/// Returns the bytes of a line, without its newline. Lines are counted from 1. The result is empty if the text has no such line.
pub fn line_bytes(text: &[u8], line: u32) -> &[u8] {
    if line == 0 || line as usize > text.len() {
        return &[];
    }
    let rest = from_line(text, line);
    &rest[..line_len(rest)]
}
