//! Places bytes in a buffer that has room. A function may write more bytes than count, so that every copy has a constant length. `put_16` and `put_4`
//! don't take the count. If it comes from memory, the caller reads it after the copy and adds it to the place.

ghost use Rattle.std.specs.Prelude.{◌≡◌, ◌+◌, ◌<◌, ◌≤◌, ℕ, [], ◌∷◌, length, take, drop};
ghost use Rattle.lx_line.specs.Placed.{Placed};

use std::simd::prelude::*;

#[inline(always)]
pub fn place_byte(buf: &mut [u8], at: usize, byte: u8) -> usize
    requires { at < length buf.old }
    ensures { Placed buf.old buf.new at (byte ∷ []) result }
{
    buf[at] = byte;
    at + 1
}

/// Places a whole text.
#[inline(always)]
pub fn place_all(buf: &mut [u8], at: usize, text: &[u8]) -> usize
    requires { at + length text.now ≤ length buf.old }
    ensures { Placed buf.old buf.new at text.now result }
{
    let end = at + text.len();
    buf[at..end].copy_from_slice(text);
    end
}

/// Copies 4 bytes from a position of the source. Any number of the first ones may count.
#[inline(always)]
pub fn put_4(buf: &mut [u8], at: usize, src: &[u8], from: usize)
    requires room { at + 4 ≤ length buf.old }
    requires source { from + 4 ≤ length src.now }
    ensures { (len : ℕ) → len ≤ 4
        → Placed buf.old buf.new at (take len (drop from src.now)) (at + len) }
{
    u8x4::from_slice(&src[from..]).copy_to_slice(&mut buf[at..]);
}

/// Places the first `len` of 4 bytes from a position of the source.
#[inline(always)]
pub fn place_4(buf: &mut [u8], at: usize, src: &[u8], from: usize, len: usize) -> usize
    requires room { at + 4 ≤ length buf.old }
    requires source { from + 4 ≤ length src.now }
    requires part { len ≤ 4 }
    ensures { Placed buf.old buf.new at (take len (drop from src.now)) result }
{
    put_4(buf, at, src, from);
    at + len
}

/// Copies 16 bytes from a position of the source. Any number of the first ones may count.
#[inline(always)]
pub fn put_16(buf: &mut [u8], at: usize, src: &[u8], from: usize)
    requires room { at + 16 ≤ length buf.old }
    requires source { from + 16 ≤ length src.now }
    ensures { (len : ℕ) → len ≤ 16
        → Placed buf.old buf.new at (take len (drop from src.now)) (at + len) }
{
    u8x16::from_slice(&src[from..]).copy_to_slice(&mut buf[at..]);
}

/// Places the first `len` of 16 bytes from a position of the source.
#[inline(always)]
pub fn place_16(buf: &mut [u8], at: usize, src: &[u8], from: usize, len: usize) -> usize
    requires room { at + 16 ≤ length buf.old }
    requires source { from + 16 ≤ length src.now }
    requires part { len ≤ 16 }
    ensures { Placed buf.old buf.new at (take len (drop from src.now)) result }
{
    put_16(buf, at, src, from);
    at + len
}

/// Places the first `len` of 32 bytes from a position of the source.
#[inline(always)]
pub fn place_32(buf: &mut [u8], at: usize, src: &[u8], from: usize, len: usize) -> usize
    requires room { at + 32 ≤ length buf.old }
    requires source { from + 32 ≤ length src.now }
    requires part { len ≤ 32 }
    ensures { Placed buf.old buf.new at (take len (drop from src.now)) result }
{
    u8x32::from_slice(&src[from..]).copy_to_slice(&mut buf[at..]);
    at + len
}

/// Places the first `len` of 64 bytes from a position of the source.
#[inline(always)]
pub fn place_64(buf: &mut [u8], at: usize, src: &[u8], from: usize, len: usize) -> usize
    requires room { at + 64 ≤ length buf.old }
    requires source { from + 64 ≤ length src.now }
    requires part { len ≤ 64 }
    ensures { Placed buf.old buf.new at (take len (drop from src.now)) result }
{
    u8x64::from_slice(&src[from..]).copy_to_slice(&mut buf[at..]);
    at + len
}
