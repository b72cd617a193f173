//! Scans the bytes of a text by their positions. A position outside the text has no byte.

use crate::places::Span;
use lx_rules::identifier::is_word_byte;

/// Returns the bytes of a part of the text.
pub fn part(text: &[u8], span: Span) -> &[u8] {
    if span.start <= text.len() && span.len <= text.len() - span.start {
        &text[span.start..span.start + span.len]
    } else {
        &[]
    }
}

/// Returns true if this byte is at this position.
pub fn is_at(text: &[u8], at: usize, byte: u8) -> bool {
    at < text.len() && text[at] == byte
}

/// Returns true if these bytes are at this position.
pub fn begins_at(text: &[u8], at: usize, word: &[u8]) -> bool {
    part(
        text,
        Span {
            start: at,
            len: word.len(),
        },
    ) == word
}

/// Returns true if a space or a tab is at this position.
pub fn is_blank_at(text: &[u8], at: usize) -> bool {
    is_at(text, at, b' ') || is_at(text, at, b'\t')
}

/// Returns true if a letter, a digit or `_` is at this position.
pub fn is_word_at(text: &[u8], at: usize) -> bool {
    at < text.len() && is_word_byte(text[at])
}

/// Returns true if a digit is at this position.
pub fn is_digit_at(text: &[u8], at: usize) -> bool {
    at < text.len() && text[at].is_ascii_digit()
}

/// Returns the first position from `from` up to `end` that has no blank.
pub fn skip_blanks(text: &[u8], from: usize, end: usize) -> usize {
    for at in from..end {
        if !is_blank_at(text, at) {
            return at;
        }
    }
    end
}

/// Returns the first position from `from` up to `end` that has a blank.
pub fn next_blank(text: &[u8], from: usize, end: usize) -> usize {
    for at in from..end {
        if is_blank_at(text, at) {
            return at;
        }
    }
    end
}

/// Returns the first position from `from` up to `end` that has no letter, digit or `_`.
pub fn skip_name(text: &[u8], from: usize, end: usize) -> usize {
    for at in from..end {
        if !is_word_at(text, at) {
            return at;
        }
    }
    end
}

/// Returns the first position from `from` up to `end` that has no digit.
pub fn skip_digits(text: &[u8], from: usize, end: usize) -> usize {
    for at in from..end {
        if !is_digit_at(text, at) {
            return at;
        }
    }
    end
}

/// Returns the first position from `from` up to `end` where these bytes begin.
pub fn find(text: &[u8], from: usize, end: usize, word: &[u8]) -> Option<usize> {
    for at in from..end {
        if begins_at(text, at, word) {
            return Some(at);
        }
    }
    None
}

/// Returns the position after the last byte from `from` up to `end` that isn't a blank.
pub fn trim_blanks_end(text: &[u8], from: usize, end: usize) -> usize {
    let mut last = from;
    for at in from..end {
        if !is_blank_at(text, at) {
            last = at + 1;
        }
    }
    last
}

/// Returns true if the word is in the list, in which each word has a blank on both sides.
pub fn is_listed(list: &[u8], word: &[u8]) -> bool {
    for at in 0..list.len() {
        if is_at(list, at, b' ')
            && begins_at(list, at + 1, word)
            && is_at(list, (at + 1).saturating_add(word.len()), b' ')
        {
            return true;
        }
    }
    false
}
