//! A position in a file.

ghost use Rattle.std.specs.Prelude.{◌≡◌, drop, length, nat_eq, slice_get, take};
ghost use Rattle.std.specs.Char.{is_ascii_whitespace};
ghost use Rattle.std.specs.List.{prefix_len};
ghost use Rattle.lx_ere.specs.Brackets.{begins_with};
ghost use Rattle.lx_flex.specs.ConditionLists.{starts};
ghost use Rattle.lx_flex.specs.RulesSections.{after_line, begins_blank, is_blank, is_blank_line, is_in_line, is_newline, is_line_end, IsFurther, unblanked};
ghost use Rattle.lx_flex.specs.States.{left};

/// Returns the text without its first n bytes.
pub(crate) fn skip(n: usize, text: &[u8]) -> &[u8]
    ensures { result.now ≡ drop n text.now }
{
    if n <= text.len() { &text[n..] } else { &[] }
}

/// Returns the first n bytes of the text, or all of it.
pub(crate) fn front(n: usize, text: &[u8]) -> &[u8]
    ensures { result.now ≡ take n text.now }
{
    if n <= text.len() { &text[..n] } else { text }
}

/// Returns the bytes from one position up to another.
pub(crate) fn between(from: usize, to: usize, text: &[u8]) -> &[u8] {
    skip(from, front(to, text))
}

pub(crate) fn is_blank(byte: u8) -> bool
    ensures { result ≡ is_blank byte }
{
    byte == b' ' || byte == b'\t'
}

/// Returns true if the first byte is a blank.
pub(crate) fn begins_blank(text: &[u8]) -> bool
    ensures { result ≡ begins_blank text.now }
{
    match text {
        [first, ..] => is_blank(*first),
        [] => false,
    }
}

/// Returns the number of blanks at the start.
pub(crate) fn blank_run(text: &[u8]) -> usize
    ensures { result ≡ prefix_len is_blank text.now }
{
    let mut count: usize = 0;
    for byte in text {
        if !is_blank(*byte) {
            break;
        }
        count = count.saturating_add(1);
    }
    count
}

/// Returns the number of bytes of white space at the start.
pub(crate) fn space_run(text: &[u8]) -> usize
    ensures { result ≡ prefix_len is_ascii_whitespace text.now }
{
    let mut count: usize = 0;
    for byte in text {
        if !byte.is_ascii_whitespace() {
            break;
        }
        count = count.saturating_add(1);
    }
    count
}

/// Returns the text without the blanks at its end.
pub(crate) fn trim_end(text: &[u8]) -> &[u8] {
    let mut end: usize = 0;
    let mut at: usize = 0;
    for byte in text {
        at = at.saturating_add(1);
        if !is_blank(*byte) {
            end = at;
        }
    }
    front(end, text)
}

/// Returns true if the text is empty or begins with a newline.
fn is_newline(text: &[u8]) -> bool
    ensures { result ≡ is_newline text.now }
{
    match text {
        [first, ..] => *first == b'\n',
        [] => true,
    }
}

/// Returns true if nothing is left of the line, but a carriage return.
fn is_line_end(text: &[u8]) -> bool
    ensures { result ≡ is_line_end text.now }
{
    match text.split_first() {
        Some((first, rest)) => *first == b'\n' || (*first == b'\r' && is_newline(rest)),
        None => true,
    }
}

/// Returns the number of bytes before the first newline.
fn line_length(text: &[u8]) -> usize
    ensures { result ≡ prefix_len is_in_line text.now }
{
    let mut count: usize = 0;
    for byte in text {
        if *byte == b'\n' {
            break;
        }
        count = count.saturating_add(1);
    }
    count
}

/// Returns the position of the first occurrence of these bytes.
pub(crate) fn place_of(text: &[u8], part: &[u8]) -> Option<usize> {
    let mut at: usize = 0;
    for _ in text {
        if front(part.len(), skip(at, text)) == part {
            return Some(at);
        }
        at = at.saturating_add(1);
    }
    None
}

/// A line and a column of a file, both counted from 1. Columns count bytes. Both are 0 if the whole file is meant.
#[derive(Debug, Clone, Copy, PartialEq, Eq)]
pub struct FilePlace {
    pub line: u32,
    pub column: u32,
}

impl FilePlace {
    /// The place that means the whole file.
    pub const WHOLE: FilePlace = FilePlace { line: 0, column: 0 };

    /// Returns the start of a line.
    pub(crate) fn line_start(line: u32) -> FilePlace {
        FilePlace { line, column: 1 }
    }
}

/// A part of a file's text, by the positions of its bytes.
#[derive(Debug, Clone, Copy, PartialEq, Eq)]
pub struct TextRange {
    pub from: usize,
    pub to: usize,
    /// Line on which the part begins.
    pub line: u32,
}

impl TextRange {
    /// Returns the bytes of the part.
    pub fn of<'a>(&self, text: &'a [u8]) -> &'a [u8] {
        between(self.from, self.to, text)
    }
}

/// A position in a text, with its line, counted from 1.
#[derive(Clone, Copy)]
pub(crate) struct TextCursor<'a> {
    pub(crate) text: &'a [u8],
    pub(crate) at: usize,
    pub(crate) line: u32,
    /// Position at which the line begins.
    line_start: usize,
}

impl<'a> TextCursor<'a> {
    pub(crate) fn new(text: &'a [u8]) -> TextCursor<'a>
        ensures { result.text.now ≡ text.now }
    {
        TextCursor {
            text,
            at: 0,
            line: 1,
            line_start: 0,
        }
    }

    /// Returns the line and the column.
    pub(crate) fn place(&self) -> FilePlace {
        let before = self.at.saturating_sub(self.line_start);
        FilePlace {
            line: self.line,
            column: u32::try_from(before).unwrap_or(u32::MAX).saturating_add(1),
        }
    }

    /// Returns the part of the text from an earlier cursor to here.
    pub(crate) fn since(&self, start: TextCursor) -> TextRange {
        TextRange {
            from: start.at,
            to: self.at,
            line: start.line,
        }
    }

    /// Returns the rest of the text.
    pub(crate) fn rest(&self) -> &'a [u8]
        ensures { result.now ≡ left self.now }
    {
        skip(self.at, self.text)
    }

    pub(crate) fn is_at_end(&self) -> bool
        ensures { result ≡ nat_eq (length (left self.now)) 0 }
    {
        self.rest().is_empty()
    }

    /// Returns the byte `n` bytes ahead.
    pub(crate) fn peek_at(&self, n: usize) -> Option<u8>
        ensures { result ≡ slice_get (left self.now) n }
    {
        self.rest().get(n).copied()
    }

    pub(crate) fn is_at(&self, byte: u8) -> bool
        ensures { result ≡ begins_with byte (left self.now) }
    {
        match self.rest() {
            [first, ..] => *first == byte,
            [] => false,
        }
    }

    pub(crate) fn begins_with(&self, prefix: &[u8]) -> bool
        ensures { result ≡ starts prefix.now (left self.now) }
    {
        front(prefix.len(), self.rest()) == prefix
    }

    /// Returns the rest of the line, without its end.
    pub(crate) fn line_rest(&self) -> &'a [u8] {
        let rest = self.rest();
        let line = front(line_length(rest), rest);
        match line.split_last() {
            Some((last, before)) => { if *last == b'\r' { before } else { line } }
            None => line,
        }
    }

    /// Advances by `n` bytes.
    pub(crate) fn advance(&mut self, n: usize)
        ensures left { left self.new ≡ drop n (left self.old) }
        ensures text { self.new.text.now ≡ self.old.text.now }
    {
        let mut at = self.at;
        for byte in front(n, self.rest()) {
            at = at.saturating_add(1);
            if *byte == b'\n' {
                self.line = self.line.saturating_add(1);
                self.line_start = at;
            }
        }
        self.at = self.at.saturating_add(n).min(self.text.len());
    }

    /// Advances to the next line.
    pub(crate) fn skip_line(&mut self)
        ensures further { IsFurther (left self.old) (left self.new) }
        ensures line { left self.new ≡ after_line (left self.old) }
        ensures text { self.new.text.now ≡ self.old.text.now }
    {
        let length = line_length(self.rest());
        self.advance(length.saturating_add(1));
    }

    pub(crate) fn skip_blanks(&mut self)
        ensures left { left self.new ≡ unblanked (left self.old) }
        ensures text { self.new.text.now ≡ self.old.text.now }
    {
        let count = blank_run(self.rest());
        self.advance(count);
    }

    /// Returns true if the rest of the line has only blanks.
    pub(crate) fn is_blank_line(&self) -> bool
        ensures { result ≡ is_blank_line (left self.now) }
    {
        let rest = self.rest();
        is_line_end(skip(blank_run(rest), rest))
    }
}
