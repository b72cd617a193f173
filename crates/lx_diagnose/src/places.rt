//! Places in a text.

/// A part of the text: its start, and its number of bytes.
#[derive(Clone, Copy)]
pub struct Span {
    pub start: usize,
    pub len: usize,
}

impl Span {
    /// Returns the position after its last byte.
    pub fn end(self) -> usize {
        self.start.saturating_add(self.len)
    }
}

/// A place: the number of bytes before it in the text, its line and column, both counted from 1, and its number of bytes. A column of 0 is unknown,
/// and a line of 0 is none.
#[derive(Clone, Copy)]
pub struct TextPlace {
    pub start: usize,
    pub line: u32,
    pub column: usize,
    pub width: usize,
}

/// Returns the part from `start` up to `end`.
pub fn between(start: usize, end: usize) -> Span {
    Span {
        start,
        len: end.saturating_sub(start),
    }
}

/// Returns the part of one byte.
pub fn one_byte(start: usize) -> Span {
    Span { start, len: 1 }
}
