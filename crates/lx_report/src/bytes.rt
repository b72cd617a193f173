//! Appends bytes to a text. If an allocation fails, a part of them was appended.

ghost use Rattle.std.specs.Prelude.{◌≡◌, ◌<◌, ◌++◌, OnOk, decimal};
ghost use Rattle.std.specs.List.{flat_map};
ghost use Rattle.lx_report.specs.Bytes as specs;

use itoa::Buffer;
use std::alloc::AllocError;

pub(crate) fn push(text: &mut Vec<u8>, bytes: &[u8]) -> Result<(), AllocError>
    ensures { OnOk result (text.new.items ≡ text.old.items ++ bytes.now) }
{
    text.extend_from_slice(bytes)
}

/// Appends a number in decimal. Err: an allocation failed.
pub fn push_number(text: &mut Vec<u8>, number: u64) -> Result<(), AllocError>
    ensures { OnOk result (text.new.items ≡ text.old.items ++ decimal number) }
{
    let mut digits = Buffer::new();
    text.extend_from_slice(digits.format(number).as_bytes())
}

/// Appends bytes and then a number.
pub(crate) fn push_numbered(
    text: &mut Vec<u8>,
    before: &[u8],
    number: u64,
) -> Result<(), AllocError>
    ensures { OnOk result (text.new.items ≡ text.old.items ++ (before.now ++ decimal number)) }
{
    push(text, before)?;
    push_number(text, number)
}

/// Appends a byte `times` times.
pub(crate) fn push_times(text: &mut Vec<u8>, byte: u8, times: usize) -> Result<(), AllocError>
    ensures { OnOk result (text.new.items ≡ text.old.items ++ specs.times byte times) }
{
    for _ in 0..times {
        push(text, &[byte])?;
    }
    Ok(())
}

fn digit(n: u8) -> u8
    requires { n < 16 }
    ensures { result ≡ specs.digit n }
{
    if n < 10 { b'0' + n } else { b'A' + (n - 10) }
}

/// Appends two hexadecimal digits.
pub(crate) fn push_pair(text: &mut Vec<u8>, byte: u8) -> Result<(), AllocError>
    ensures { OnOk result (text.new.items ≡ text.old.items ++ specs.pair byte) }
{
    text.extend_from_slice(&[digit(byte / 16), digit(byte % 16)])
}

// Appends a byte as it is shown: a byte outside 32 to 126 as two digits.
fn push_shown_byte(text: &mut Vec<u8>, byte: u8) -> Result<(), AllocError>
    ensures { OnOk result (text.new.items ≡ text.old.items ++ specs.shown_byte byte) }
{
    if 32 <= byte && byte < 127 {
        return text.extend_from_slice(&[byte]);
    }
    push(text, b"\\x")?;
    push_pair(text, byte)
}

/// Appends bytes as they are shown: those outside 32 to 126 as two hexadecimal digits. Err: an allocation failed.
pub fn push_shown(text: &mut Vec<u8>, bytes: &[u8]) -> Result<(), AllocError>
    ensures { OnOk result (text.new.items ≡ text.old.items ++ flat_map specs.shown_byte bytes.now) }
{
    for byte in bytes {
        push_shown_byte(text, *byte)?;
    }
    Ok(())
}

// Appends a byte of a source line. A tab becomes a blank.
fn push_source_byte(text: &mut Vec<u8>, byte: u8) -> Result<(), AllocError>
    ensures { OnOk result (text.new.items ≡ text.old.items ++ specs.source_byte byte) }
{
    if byte == b'\t' {
        push(text, b" ")
    } else {
        push_shown_byte(text, byte)
    }
}

/// Appends a part of a source line.
pub(crate) fn push_source(text: &mut Vec<u8>, bytes: &[u8]) -> Result<(), AllocError>
    ensures { OnOk result
        (text.new.items ≡ text.old.items ++ flat_map specs.source_byte bytes.now) }
{
    for byte in bytes {
        push_source_byte(text, *byte)?;
    }
    Ok(())
}

// Appends a byte of a JSON string. A quote and a backslash get a backslash before them. Unprintable bytes become two digits.
fn push_string_byte(text: &mut Vec<u8>, byte: u8) -> Result<(), AllocError>
    ensures { OnOk result (text.new.items ≡ text.old.items ++ specs.string_byte byte) }
{
    if byte == b'"' || byte == b'\\' {
        return text.extend_from_slice(&[b'\\', byte]);
    }
    if 32 <= byte && byte < 127 {
        return text.extend_from_slice(&[byte]);
    }
    push(text, b"\\\\x")?;
    push_pair(text, byte)
}

fn push_string_bytes(text: &mut Vec<u8>, bytes: &[u8]) -> Result<(), AllocError>
    ensures { OnOk result
        (text.new.items ≡ text.old.items ++ flat_map specs.string_byte bytes.now) }
{
    for byte in bytes {
        push_string_byte(text, *byte)?;
    }
    Ok(())
}

/// Appends a JSON string of bytes as they are shown.
pub(crate) fn push_string_of_shown(text: &mut Vec<u8>, bytes: &[u8]) -> Result<(), AllocError>
    ensures { OnOk result (text.new.items ≡ text.old.items ++ specs.shown_string bytes.now) }
{
    push(text, b"\"")?;
    push_string_bytes(text, bytes)?;
    push(text, b"\"")
}

fn is_plain_in_uri(byte: u8) -> bool
    ensures { result ≡ specs.is_plain_in_uri byte }
{
    matches!(byte, b'0'..=b'9' | b'A'..=b'Z' | b'a'..=b'z' | b'-' | b'.' | b'/' | b'_' | b'~')
}

// Appends a byte of a name in a URI (RFC 3986, 2.1 and 2.3).
fn push_uri_byte(text: &mut Vec<u8>, byte: u8) -> Result<(), AllocError>
    ensures { OnOk result (text.new.items ≡ text.old.items ++ specs.uri_byte byte) }
{
    if is_plain_in_uri(byte) {
        return text.extend_from_slice(&[byte]);
    }
    push(text, b"%")?;
    push_pair(text, byte)
}

/// Appends a file name in a URI.
pub(crate) fn push_uri(text: &mut Vec<u8>, name: &[u8]) -> Result<(), AllocError>
    ensures { OnOk result (text.new.items ≡ text.old.items ++ flat_map specs.uri_byte name.now) }
{
    for byte in name {
        push_uri_byte(text, *byte)?;
    }
    Ok(())
}
