//! Prints patterns in lx's syntax.

use itoa::Buffer;
use lx_ere::{ByteSet, Expr, Pattern};
use std::alloc::{AllocError, Global};

/// The place of a part in a pattern.
#[derive(Clone, Copy, PartialEq, Eq)]
enum Level {
    /// A place where alternatives are allowed.
    Alternation,
    /// The start of an alternative.
    Branch,
    /// The place of a unit.
    Unit,
}

fn push(text: &mut Vec<u8>, bytes: &[u8]) -> Result<(), AllocError> {
    text.extend_from_slice(bytes)
}

fn push_number(text: &mut Vec<u8>, number: u8) -> Result<(), AllocError> {
    let mut digits = Buffer::new();
    text.extend_from_slice(digits.format(number).as_bytes())
}

/// Returns the letter that represents a byte after a backslash.
fn escape_letter(byte: u8) -> Option<u8> {
    match byte {
        7 => Some(b'a'),
        8 => Some(b'b'),
        9 => Some(b't'),
        10 => Some(b'n'),
        11 => Some(b'v'),
        12 => Some(b'f'),
        13 => Some(b'r'),
        _ => None,
    }
}

fn octal_digit(value: u8) -> u8 {
    b'0'.saturating_add(value & 7)
}

/// Appends an unprintable byte: a backslash with a letter or three octal digits.
fn push_escape(text: &mut Vec<u8>, byte: u8) -> Result<(), AllocError> {
    push(text, b"\\")?;
    if let Some(letter) = escape_letter(byte) {
        return push(text, &[letter]);
    }
    push(
        text,
        &[
            octal_digit(byte >> 6),
            octal_digit(byte >> 3),
            octal_digit(byte),
        ],
    )
}

fn is_printed(byte: u8) -> bool {
    32 <= byte && byte < 127
}

fn is_one_of(byte: u8, bytes: &[u8]) -> bool {
    bytes.iter().any(|b| *b == byte)
}

/// Appends a byte as itself, with a backslash before it if it is special.
fn push_byte(text: &mut Vec<u8>, byte: u8, special: &[u8]) -> Result<(), AllocError> {
    if !is_printed(byte) {
        return push_escape(text, byte);
    }
    if is_one_of(byte, special) {
        push(text, b"\\")?;
    }
    push(text, &[byte])
}

/// Bytes that need a backslash to represent themselves, outside quotes and brackets. `%` and `<` need it at the start of a line.
const SPECIAL: &[u8] = b"\\\"[(){.*+?|^$/%<";

/// Appends a single byte.
fn push_single(text: &mut Vec<u8>, byte: u8) -> Result<(), AllocError> {
    if byte == b' ' {
        return push(text, b"\" \"");
    }
    push_byte(text, byte, SPECIAL)
}

fn push_point(text: &mut Vec<u8>, byte: u8) -> Result<(), AllocError> {
    push_byte(text, byte, b"]\\-^[")
}

fn push_range(text: &mut Vec<u8>, low: u8, high: u8) -> Result<(), AllocError> {
    push_point(text, low)?;
    if low == high {
        return Ok(());
    }
    if high.saturating_sub(low) > 1 {
        push(text, b"-")?;
    }
    push_point(text, high)
}

/// Appends the ranges of the bytes that are in the set, or of those that aren't.
fn push_ranges(text: &mut Vec<u8>, set: &ByteSet, inside: bool) -> Result<(), AllocError> {
    let mut first: Option<u8> = None;
    for byte in 0..=255u8 {
        if set.has(byte) == inside {
            if first.is_none() {
                first = Some(byte);
            }
        } else if let Some(low) = first {
            push_range(text, low, byte.saturating_sub(1))?;
            first = None;
        }
    }
    match first {
        Some(low) => push_range(text, low, 255),
        None => Ok(()),
    }
}

/// Returns the number of bytes of a set.
fn size(set: &ByteSet) -> u16 {
    let mut count: u16 = 0;
    for byte in 0..=255u8 {
        if set.has(byte) {
            count = count.saturating_add(1);
        }
    }
    count
}

/// Returns the byte of a set that has no other one.
fn single_byte(set: &ByteSet) -> Option<u8> {
    if size(set) != 1 {
        return None;
    }
    for byte in 0..=255u8 {
        if set.has(byte) {
            return Some(byte);
        }
    }
    None
}

/// Appends a set: a byte, a period, or brackets. Those exclude the bytes that the set hasn't if there are fewer of them.
fn push_set(text: &mut Vec<u8>, set: &ByteSet) -> Result<(), AllocError> {
    if let Some(byte) = single_byte(set) {
        return push_single(text, byte);
    }
    let count = size(set);
    if count == 255 && !set.has(b'\n') {
        return push(text, b".");
    }
    let inside = count != 0 && (count <= 128 || count == 256);
    push(text, if inside { b"[" } else { b"[^" })?;
    push_ranges(text, set, inside)?;
    push(text, b"]")
}

fn tree_byte(tree: &Expr) -> Option<u8> {
    match tree {
        Expr::Set(set) => single_byte(set),
        _ => None,
    }
}

/// Appends the bytes of a string tree, from the last to the first. Returns false if the tree is anything else.
fn string_backwards(string: &mut Vec<u8>, tree: &Expr) -> Result<bool, AllocError> {
    match tree {
        Expr::Then(before, last) => {
            let Some(byte) = tree_byte(last) else {
                return Ok(false);
            };
            string.push(byte)?;
            string_backwards(string, before)
        }
        _ => {
            let Some(byte) = tree_byte(tree) else {
                return Ok(false);
            };
            string.push(byte)?;
            Ok(true)
        }
    }
}

/// Returns the bytes of a string tree, or `None` if the tree is anything else.
fn string_of(alloc: Global, tree: &Expr) -> Result<Option<Vec<u8>>, AllocError> {
    let mut string = Vec::new(alloc);
    if !string_backwards(&mut string, tree)? {
        return Ok(None);
    }
    string.reverse();
    Ok(Some(string))
}

/// Returns true if quotes help: one of the bytes would otherwise need a backslash or its own quotes.
fn wants_quotes(string: &[u8]) -> bool {
    string.iter().any(|b| *b == b' ' || is_one_of(*b, SPECIAL))
}

fn push_string(text: &mut Vec<u8>, string: &[u8]) -> Result<(), AllocError> {
    push(text, b"\"")?;
    for byte in string {
        push_byte(text, *byte, b"\"\\")?;
    }
    push(text, b"\"")
}

fn push_bounds(text: &mut Vec<u8>, low: u8, high: Option<u8>) -> Result<(), AllocError> {
    push(text, b"{")?;
    push_number(text, low)?;
    match high {
        Some(high) => {
            if high != low {
                push(text, b",")?;
                push_number(text, high)?;
            }
        }
        None => push(text, b",")?,
    }
    push(text, b"}")
}

/// Returns the operator for the bounds, if there is one.
fn operator(low: u8, high: Option<u8>) -> Option<u8> {
    match (low, high) {
        (0, None) => Some(b'*'),
        (1, None) => Some(b'+'),
        (0, Some(1)) => Some(b'?'),
        _ => None,
    }
}

fn push_if(text: &mut Vec<u8>, wanted: bool, bytes: &[u8]) -> Result<(), AllocError> {
    if wanted { push(text, bytes) } else { Ok(()) }
}

/// Appends the tree. Adds parentheses if it has to be one unit and isn't.
fn push_tree(
    tree: &Expr,
    text: &mut Vec<u8>,
    alloc: Global,
    level: Level,
) -> Result<(), AllocError> {
    match tree {
        Expr::Nil => {
            push_if(text, level == Level::Unit, b"(")?;
            push(text, b"a{0}")?;
            push_if(text, level == Level::Unit, b")")
        }
        Expr::Set(set) => push_set(text, set),
        Expr::Then(first, second) => {
            if let Some(string) = string_of(alloc, tree)? {
                if level == Level::Unit || wants_quotes(string.as_slice()) {
                    return push_string(text, string.as_slice());
                }
            }
            push_if(text, level == Level::Unit, b"(")?;
            push_tree(first, text, alloc, Level::Branch)?;
            push_tree(second, text, alloc, Level::Unit)?;
            push_if(text, level == Level::Unit, b")")
        }
        Expr::Or(this, that) => {
            push_if(text, level != Level::Alternation, b"(")?;
            push_tree(this, text, alloc, Level::Alternation)?;
            push(text, b"|")?;
            push_tree(that, text, alloc, Level::Branch)?;
            push_if(text, level != Level::Alternation, b")")
        }
        Expr::Times { body, low, high } => {
            if let Some(byte) = operator(*low, *high) {
                push_tree(body, text, alloc, Level::Unit)?;
                return push(text, &[byte]);
            }
            push_if(text, level == Level::Unit, b"(")?;
            push_tree(body, text, alloc, Level::Unit)?;
            push_bounds(text, *low, *high)?;
            push_if(text, level == Level::Unit, b")")
        }
        Expr::Name(name) => {
            push(text, b"{")?;
            push(text, name.as_slice())?;
            push(text, b"}")
        }
    }
}

/// Prints the tree in lx's syntax.
pub(crate) fn printed_tree(alloc: Global, tree: &Expr) -> Result<Vec<u8>, AllocError> {
    let mut text = Vec::new(alloc);
    push_tree(tree, &mut text, alloc, Level::Alternation)?;
    Ok(text)
}

/// Prints the pattern in lx's syntax.
pub(crate) fn print_pattern(alloc: Global, pattern: &Pattern) -> Result<Vec<u8>, AllocError> {
    let mut text = Vec::new(alloc);
    push_if(&mut text, pattern.line_begin, b"^")?;
    push_tree(&pattern.expr, &mut text, alloc, Level::Alternation)?;
    push_if(&mut text, pattern.line_end, b"$")?;
    Ok(text)
}
