//! Escapes that may not mean what their writer intended.

use crate::kinds::{KindSet, WarningKind};
use crate::suspects::{SuspectSearch, push_part};
use lx_diagnose::Span;
use lx_diagnose::places::between;
use lx_diagnose::scan::is_at;
use std::alloc::AllocError;

// Least number of hexadecimal digits that are more than those of a byte.
const LONG: usize = 3;

fn is_hexadecimal_at(text: &[u8], at: usize) -> bool {
    at < text.len() && text[at].is_ascii_hexdigit()
}

// Returns the first position from `from` up to `end` without a hexadecimal digit.
fn skip_hexadecimal(text: &[u8], from: usize, end: usize) -> usize {
    for at in from..end {
        if !is_hexadecimal_at(text, at) {
            return at;
        }
    }
    end
}

// Returns the warning on a backslash and this byte, if the byte is a letter or digit without its own escape.
fn letter_phrase(byte: u8) -> Option<&'static str> {
    match byte {
        b'a' | b'b' | b't' | b'n' | b'v' | b'f' | b'r' | b'x' => None,
        b'd' => Some("`@` is the letter d; for digits write [0-9]"),
        b'D' => Some("`@` is the letter D; for all but digits write [^0-9]"),
        b'w' => Some("`@` is the letter w; for letters, digits and _ write [A-Za-z0-9_]"),
        b'W' => Some("`@` is the letter W; for all but letters, digits and _ write [^A-Za-z0-9_]"),
        b's' => Some("`@` is the letter s; for blanks write [ \\t\\r\\n\\f\\v]"),
        b'S' => Some("`@` is the letter S; for all but blanks write [^ \\t\\r\\n\\f\\v]"),
        b'u' | b'U' => Some(
            "`@` is the letter alone; write a character by its bytes, as \"\\xC3\\xA9\"",
        ),
        b'8' | b'9' => Some("`@` is the digit alone: no octal number begins with it"),
        _ => if byte.is_ascii_alphabetic() {
            Some("`@` is the letter alone")
        } else {
            None
        },
    }
}

// Examines an escape with `digits` hexadecimal digits.
fn look_at_hexadecimal(
    search: &mut SuspectSearch<'_>,
    allowed: &KindSet,
    at: Span,
    digits: usize,
) -> Result<(), AllocError> {
    if digits == 0 {
        let phrase = "`@` is the letter alone: no hexadecimal digit follows it";
        push_part(search, allowed, WarningKind::LetterEscape, at, phrase)
    } else if digits >= LONG {
        let phrase =
            "all digits of `@` are its number; where two are meant, put what follows them in quotes of its own";
        push_part(search, allowed, WarningKind::LongHex, at, phrase)
    } else {
        Ok(())
    }
}

// Examines the escape whose backslash is at this position.
fn look_at_escape(
    search: &mut SuspectSearch<'_>,
    allowed: &KindSet,
    start: usize,
    end: usize,
) -> Result<(), AllocError> {
    let text = search.text;
    let first = start.saturating_add(1);
    let behind = start.saturating_add(2);
    if first >= end || first >= text.len() {
        return Ok(());
    }
    if text[first] == b'x' {
        let last = skip_hexadecimal(text, behind, end);
        let digits = last.saturating_sub(behind);
        return look_at_hexadecimal(search, allowed, between(start, last), digits);
    }
    match letter_phrase(text[first]) {
        Some(phrase) => {
            let letter = between(start, behind);
            push_part(search, allowed, WarningKind::LetterEscape, letter, phrase)
        }
        None => Ok(()),
    }
}

/// Examines the escapes of a lexeme.
pub(crate) fn look_at_escapes(
    search: &mut SuspectSearch<'_>,
    allowed: &KindSet,
    lexeme: Span,
) -> Result<(), AllocError> {
    let text = search.text;
    let mut next = lexeme.start;
    for at in lexeme.start..lexeme.end() {
        if at >= next && is_at(text, at, b'\\') {
            look_at_escape(search, allowed, at, lexeme.end())?;
            next = at.saturating_add(2);
        }
    }
    Ok(())
}
