//! Splits C text into words and marks, without blanks, comments and quoted text.

use crate::cursor::{between, front, skip};

/// A word or a mark of C text.
#[derive(Clone, Copy, PartialEq, Eq)]
pub(crate) enum Token<'a> {
    /// A longest run of letters, digits and `_`.
    Word(&'a [u8]),
    /// A character constant with its quotes.
    Character(&'a [u8]),
    /// A string.
    Text,
    /// Any other byte.
    Mark(u8),
}

fn is_word_byte(byte: u8) -> bool {
    byte.is_ascii_alphanumeric() || byte == b'_'
}

fn word_length(text: &[u8]) -> usize {
    let mut count: usize = 0;
    for byte in text {
        if !is_word_byte(*byte) {
            break;
        }
        count = count.saturating_add(1);
    }
    count
}

/// Returns the number of bytes of a quoted text, from after its opening quote to after its closing one or to the line's end.
fn quoted_length(text: &[u8], quote: u8) -> usize {
    let mut count: usize = 0;
    let mut escaped = false;
    for byte in text {
        if *byte == b'\n' && !escaped {
            return count;
        }
        count = count.saturating_add(1);
        if *byte == quote && !escaped {
            return count;
        }
        escaped = *byte == b'\\' && !escaped;
    }
    count
}

/// Returns the number of bytes of a comment with its end. Returns 0 if there is none.
fn comment_length(text: &[u8]) -> usize {
    let start = front(2, text);
    if start == b"//".as_slice() {
        let mut count: usize = 0;
        for byte in text {
            if *byte == b'\n' {
                break;
            }
            count = count.saturating_add(1);
        }
        return count;
    }
    if start != b"/*".as_slice() {
        return 0;
    }
    let mut count: usize = 2;
    let mut star = false;
    for byte in skip(2, text) {
        count = count.saturating_add(1);
        if *byte == b'/' && star {
            return count;
        }
        star = *byte == b'*';
    }
    count
}

fn blank_length(text: &[u8]) -> usize {
    let mut count: usize = 0;
    for byte in text {
        if !byte.is_ascii_whitespace() {
            break;
        }
        count = count.saturating_add(1);
    }
    count
}

/// The words and marks of a text, one after the other.
#[derive(Clone, Copy)]
pub(crate) struct Tokens<'a> {
    text: &'a [u8],
    at: usize,
}

impl<'a> Tokens<'a> {
    pub(crate) fn new(text: &'a [u8]) -> Tokens<'a> {
        Tokens { text, at: 0 }
    }

    fn take(&mut self, length: usize) -> &'a [u8] {
        let start = self.at;
        self.at = self.at.saturating_add(length);
        between(start, self.at, self.text)
    }

    /// Returns the line on which the last word or mark ends, if the text begins on line `first`.
    pub(crate) fn line_from(&self, first: u32) -> u32 {
        let mut line = first;
        for byte in front(self.at, self.text) {
            if *byte == b'\n' {
                line = line.saturating_add(1);
            }
        }
        line
    }

    /// Skips blanks and comments.
    fn skip_blanks_and_comments(&mut self) {
        for _ in 0..self.text.len() {
            let rest = skip(self.at, self.text);
            let length = blank_length(rest).saturating_add(comment_length(skip(
                blank_length(rest),
                rest,
            )));
            if length == 0 {
                return;
            }
            self.at = self.at.saturating_add(length);
        }
    }

    /// Returns the next word or mark.
    pub(crate) fn next(&mut self) -> Option<Token<'a>> {
        self.skip_blanks_and_comments();
        let rest = skip(self.at, self.text);
        let (first, more) = rest.split_first()?;
        let byte = *first;
        if is_word_byte(byte) {
            return Some(Token::Word(self.take(word_length(rest))));
        }
        if byte == b'\'' {
            let length = quoted_length(more, b'\'').saturating_add(1);
            return Some(Token::Character(self.take(length)));
        }
        if byte == b'"' {
            let length = quoted_length(more, b'"').saturating_add(1);
            let _text = self.take(length);
            return Some(Token::Text);
        }
        let _mark = self.take(1);
        Some(Token::Mark(byte))
    }
}

/// Returns true if a text has this word.
pub fn has_word(text: &[u8], word: &[u8]) -> bool {
    let mut tokens = Tokens::new(text);
    for _ in 0..text.len() {
        match tokens.next() {
            None => return false,
            Some(Token::Word(found)) => {
                if found == word {
                    return true;
                }
            }
            Some(_) => {}
        }
    }
    false
}
