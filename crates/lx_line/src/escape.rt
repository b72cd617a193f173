//! Escapes of bytes.

ghost use Rattle.std.specs.Prelude.{◌≡◌, ◌+◌, ◌<◌, ◌≤◌, ℕ, List, length, take, drop};
ghost use Rattle.std.specs.List.{flat_map};
ghost use Rattle.lx_line.specs.Escapes.{ShowsPlain, escaped, hex_digit};
ghost use Rattle.lx_line.specs.Placed.{Placed};

use crate::place::{place_all, place_byte};
use std::simd::prelude::*;

/// A way to show each byte of a text, by at most six bytes.
pub trait Escape {
    /// The bytes that show a byte.
    ghost shown: { ℕ → List ℕ };

    /// Returns the number of bytes among 16 before the first that isn't shown as it is.
    fn plain_16(src: &[u8], from: usize) -> usize
        requires { from + 16 ≤ length src.now }
        ensures few { result ≤ 16 }
        ensures plain { (n : ℕ) → n ≤ result
            → flat_map shown (take n (drop from src.now)) ≡ take n (drop from src.now) };

    /// Places what shows a byte.
    fn place_shown(buf: &mut [u8], at: usize, byte: u8) -> usize
        requires { at + 6 ≤ length buf.old }
        ensures placed { Placed buf.old buf.new at (shown byte) result }
        ensures short { result ≤ at + 6 };
}

/// The escape of texts.
pub struct TextEscape;

/// The escape of names: that of texts, and a blank is escaped too.
pub struct NameEscape;

fn hex_digit(n: u8) -> u8
    requires { n < 16 }
    ensures { result ≡ hex_digit n }
{
    if n < 10 { b'0' + n } else { b'A' + (n - 10) }
}

// Places a byte of a text.
#[inline(always)]
fn place_escaped(buf: &mut [u8], at: usize, byte: u8) -> usize
    requires { at + 4 ≤ length buf.old }
    ensures placed { Placed buf.old buf.new at (escaped byte) result }
    ensures short { result ≤ at + 4 }
{
    if byte != b'\\' && matches!(byte, b' '..=b'~') {
        return place_byte(buf, at, byte);
    }
    let at = place_byte(buf, at, b'\\');
    if byte == b'\\' {
        return place_byte(buf, at, b'\\');
    }
    let at = place_byte(buf, at, b'x');
    let at = place_byte(buf, at, hex_digit(byte / 16));
    place_byte(buf, at, hex_digit(byte % 16))
}

// Returns the number of bytes among 16 before the first that is below the least one or above 126, or a backslash.
#[inline(always)]
fn plain_from(src: &[u8], from: usize, least: u8) -> usize
    requires { from + 16 ≤ length src.now }
    ensures few { result ≤ 16 }
    ensures plain { (shown : ℕ → List ℕ) → ShowsPlain least shown → (n : ℕ) → n ≤ result
        → flat_map shown (take n (drop from src.now)) ≡ take n (drop from src.now) }
{
    let bytes = u8x16::from_slice(&src[from..]);
    let is_escaped = bytes.simd_lt(u8x16::splat(least))
        | bytes.simd_gt(u8x16::splat(b'~'))
        | bytes.simd_eq(u8x16::splat(b'\\'));
    // an extra bit after theirs, so that there always is a first
    (is_escaped.to_bitmask() + 0x1_0000).trailing_zeros() as usize
}

impl Escape for TextEscape {
    ghost use Rattle.lx_line.specs.Escapes.{escaped};

    ghost shown = { escaped };

    #[inline(always)]
    fn plain_16(src: &[u8], from: usize) -> usize {
        plain_from(src, from, b' ')
    }

    #[inline(always)]
    fn place_shown(buf: &mut [u8], at: usize, byte: u8) -> usize {
        place_escaped(buf, at, byte)
    }
}

impl Escape for NameEscape {
    ghost use Rattle.lx_line.specs.Escapes.{name_escaped};

    ghost shown = { name_escaped };

    #[inline(always)]
    fn plain_16(src: &[u8], from: usize) -> usize {
        plain_from(src, from, b'!')
    }

    fn place_shown(buf: &mut [u8], at: usize, byte: u8) -> usize {
        if byte == b' ' {
            return place_all(buf, at, b"\\x20");
        }
        place_escaped(buf, at, byte)
    }
}
