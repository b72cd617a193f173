//! Strings of JSON.

ghost use Rattle.std.specs.Prelude.{◌≡◌, ◌+◌, ◌*◌, ◌<◌, ◌≤◌, ℕ, IsTrue, length, take, drop, true};
ghost use Rattle.std.specs.Str.{is_utf8};
ghost use Rattle.lx_line.specs.Placed.{Placed};
ghost use Rattle.lx_forms.specs.JsonLines.{small_digit, string_of};

use lx_line::{Escape, place_all, place_any_text, place_byte};
use std::simd::prelude::*;

/// Returns a lower-case hexadecimal digit.
pub(crate) fn small_digit(n: u8) -> u8
    requires { n < 16 }
    ensures { result ≡ small_digit n }
{
    if n < 10 { b'0' + n } else { b'a' + (n - 10) }
}

/// The escape of the bytes between the quotes of a string.
pub(crate) struct StringEscape;

impl Escape for StringEscape {
    ghost use Rattle.lx_forms.specs.JsonLines.{string_escaped};

    ghost shown = { string_escaped };

    #[inline(always)]
    fn plain_16(src: &[u8], from: usize) -> usize {
        let bytes = u8x16::from_slice(&src[from..]);
        let is_escaped = bytes.simd_lt(u8x16::splat(b' '))
            | bytes.simd_eq(u8x16::splat(b'"'))
            | bytes.simd_eq(u8x16::splat(b'\\'));
        // an extra bit after theirs, so that there always is a first
        (is_escaped.to_bitmask() + 0x1_0000).trailing_zeros() as usize
    }

    fn place_shown(buf: &mut [u8], at: usize, byte: u8) -> usize {
        if byte == b'"' || byte == b'\\' {
            let at = place_byte(buf, at, b'\\');
            return place_byte(buf, at, byte);
        }
        if byte >= b' ' {
            return place_byte(buf, at, byte);
        }
        let at = place_all(buf, at, b"\\u00");
        let at = place_byte(buf, at, small_digit(byte / 16));
        place_byte(buf, at, small_digit(byte % 16))
    }
}

/// Places a string after which no bytes need be readable.
pub(crate) fn place_string(buf: &mut [u8], at: usize, text: &[u8]) -> usize
    requires { at + 6 * length text.now + 18 ≤ length buf.old }
    ensures placed { Placed buf.old buf.new at (string_of text.now) result }
    ensures short { result ≤ at + 6 * length text.now + 2 }
{
    let at = place_byte(buf, at, b'"');
    let at = place_any_text::<StringEscape>(buf, at, text);
    place_byte(buf, at, b'"')
}

// Returns the number of bytes before the first one above 127 among 16.
#[inline(always)]
fn ascii_16(src: &[u8], from: usize) -> usize
    requires { from + 16 ≤ length src.now }
    ensures { (n : ℕ) → n ≤ 16 → n ≤ result → is_utf8 (take n (drop from src.now)) ≡ true }
{
    let bytes = u8x16::from_slice(&src[from..]);
    let is_high = bytes.simd_gt(u8x16::splat(127));
    is_high.to_bitmask().trailing_zeros() as usize
}

/// Returns true if the bytes are UTF-8.
pub(crate) fn is_text(bytes: &[u8]) -> bool
    ensures { result ≡ is_utf8 bytes.now }
{
    match str::from_utf8(bytes) {
        Ok(_) => true,
        Err(_) => false,
    }
}

// Returns true only if a text that is long, or isn't ASCII, is UTF-8.
#[inline(never)]
fn is_long_text(bytes: &[u8], start: usize, len: usize) -> bool
    requires { start + len ≤ length bytes.now }
    ensures { IsTrue result → is_utf8 (take len (drop start bytes.now)) ≡ true }
{
    is_text(&bytes[start..start + len])
}

/// Returns true only if a text is UTF-8. 16 bytes can be read after it.
#[inline(always)]
pub(crate) fn is_text_at(bytes: &[u8], start: usize, len: usize) -> bool
    requires { start + len + 16 ≤ length bytes.now }
    ensures { IsTrue result → is_utf8 (take len (drop start bytes.now)) ≡ true }
{
    if len <= 16 && len <= ascii_16(bytes, start) {
        return true;
    }
    is_long_text(bytes, start, len)
}
