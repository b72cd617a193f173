//! Bytes that no rule takes.

ghost use Rattle.std.specs.Prelude.{◌<◌, length};

use lx_tables::Tables;
use std::alloc::{AllocError, Global};

// Returns true if a match may begin with this byte, at the start of a line or elsewhere. Every state leads to an accepting one.
fn is_taken(tables: &Tables, condition: u16, byte: u8) -> bool
    requires { condition < length tables.now.machine.starts }
{
    tables.step(tables.start(condition, false), byte).is_some()
        || tables.step(tables.start(condition, true), byte).is_some()
}

// Returns true if a range of bytes that no rule takes begins with this one.
fn opens(tables: &Tables, condition: u16, byte: u8) -> bool
    requires { condition < length tables.now.machine.starts }
{
    !is_taken(tables, condition, byte) && (byte == 0 || is_taken(tables, condition, byte - 1))
}

// Returns true if such a range ends with this byte.
fn closes(tables: &Tables, condition: u16, byte: u8) -> bool
    requires { condition < length tables.now.machine.starts }
{
    !is_taken(tables, condition, byte) && (byte == 255 || is_taken(tables, condition, byte + 1))
}

// Returns true if a byte has a special meaning in brackets.
fn is_bracket_operator(byte: u8) -> bool {
    matches!(byte, b'\\' | b'[' | b']' | b'^' | b'-')
}

// Returns true if a digit after the set would continue an escape.
fn ends_with_escape(set: &[u8]) -> bool {
    match set {
        [.., b'\\', b'x', _, _] => true,
        _ => false,
    }
}

fn digit(n: u8) -> u8
    requires { n < 16 }
{
    if n < 10 { b'0' + n } else { b'A' + (n - 10) }
}

// Appends a byte in the syntax of brackets. A hexadecimal digit after an escape is escaped too, because it would be read as a part of the number.
fn push_point(set: &mut Vec<u8>, byte: u8) -> Result<(), AllocError> {
    if is_bracket_operator(byte) {
        set.push(b'\\')?;
        set.push(byte)?;
        return Ok(());
    }
    let is_printed = 32 <= byte && byte < 127;
    if is_printed && !(byte.is_ascii_hexdigit() && ends_with_escape(set)) {
        set.push(byte)?;
        return Ok(());
    }
    set.extend_from_slice(b"\\x")?;
    set.push(digit(byte / 16))?;
    set.push(digit(byte % 16))?;
    Ok(())
}

/// Returns the bytes that no rule takes in a condition, in the syntax between `[` and `]`. Each range has its first and its last byte, with a `-`
/// between them if they differ.
pub fn untaken_bytes(alloc: Global, tables: &Tables, condition: u16) -> Result<Vec<u8>, AllocError>
    requires { condition < length tables.now.machine.starts }
{
    let mut bytes = Vec::new(alloc);
    for byte in 0..=255 {
        let is_first = opens(tables, condition, byte);
        let is_last = closes(tables, condition, byte);
        if is_last && !is_first {
            bytes.push(b'-')?;
        }
        if is_first || is_last {
            push_point(&mut bytes, byte)?;
        }
    }
    Ok(bytes)
}
