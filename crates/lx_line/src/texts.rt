//! Places texts, with bytes escaped.

ghost use Rattle.std.specs.Prelude.{◌≡◌, ◌+◌, ◌*◌, ◌<◌, ◌≤◌, ℕ, length, take, drop};
ghost use Rattle.std.specs.List.{flat_map};
ghost use Rattle.lx_line.specs.Placed.{Placed};

use crate::escape::Escape;
use crate::place::{place_16, put_16};

// A placed part of a text: the position where it ends, and the number of text bytes in it.
#[derive(Clone, Copy, Drop)]
struct PlacedPart {
    end: usize,
    count: usize,
}

// Places 16 bytes of a longer text of which some first ones are shown as they are: all of them, or those and what shows the next one. Where it's all,
// the next place is known before they are counted.
#[inline(always)]
fn place_part<E: Escape>(
    buf: &mut [u8],
    at: usize,
    bytes: &[u8],
    from: usize,
    plain: usize,
) -> PlacedPart
    requires plain { (n : ℕ) → n ≤ plain
        → flat_map E.shown (take n (drop from bytes.now)) ≡ take n (drop from bytes.now) }
    requires few { plain ≤ 16 }
    requires text { from + plain + 17 ≤ length bytes.now }
    requires room { at + 22 ≤ length buf.old }
    ensures placed { Placed buf.old buf.new at
        (flat_map E.shown (take result.count (drop from bytes.now))) result.end }
    ensures some { 0 < result.count }
    ensures few { result.count ≤ plain + 1 }
    ensures short { result.end ≤ at + 6 * result.count }
{
    put_16(buf, at, bytes, from);
    if plain == 16 {
        return PlacedPart {
            end: at + 16,
            count: 16,
        };
    }
    let end = E::place_shown(buf, at + plain, bytes[from + plain]);
    PlacedPart {
        end,
        count: plain + 1,
    }
}

// Places a text of more than 16 bytes, or with a byte that is escaped.
#[inline(never)]
fn place_long<E: Escape>(buf: &mut [u8], at: usize, bytes: &[u8], start: usize, len: usize) -> usize
    requires text { start + len + 16 ≤ length bytes.now }
    requires room { at + 6 * len + 16 ≤ length buf.old }
    ensures placed { Placed buf.old buf.new at (flat_map E.shown (take len (drop start bytes.now)))
        result }
    ensures short { result ≤ at + 6 * len }
{
    let mut done = 0;
    let mut end = at;
    while done < len {
        let plain = E::plain_16(bytes, start + done);
        let left = len - done;
        if left <= plain {
            return place_16(buf, end, bytes, start + done, left);
        }
        let part = place_part::<E>(buf, end, bytes, start + done, plain);
        end = part.end;
        done += part.count;
    }
    end
}

/// Places a text after which 16 bytes can be read.
#[inline(always)]
pub fn place_text<E: Escape>(
    buf: &mut [u8],
    at: usize,
    bytes: &[u8],
    start: usize,
    len: usize,
) -> usize
    requires text { start + len + 16 ≤ length bytes.now }
    requires room { at + 6 * len + 16 ≤ length buf.old }
    ensures placed { Placed buf.old buf.new at (flat_map E.shown (take len (drop start bytes.now)))
        result }
    ensures short { result ≤ at + 6 * len }
{
    if len <= E::plain_16(bytes, start) {
        return place_16(buf, at, bytes, start, len);
    }
    place_long::<E>(buf, at, bytes, start, len)
}

// Places a text of at most 16 bytes from a copy with 16 more, which can be read too.
fn place_copied<E: Escape>(buf: &mut [u8], at: usize, text: &[u8]) -> usize
    requires few { length text.now ≤ 16 }
    requires room { at + 6 * length text.now + 16 ≤ length buf.old }
    ensures placed { Placed buf.old buf.new at (flat_map E.shown text.now) result }
    ensures short { result ≤ at + 6 * length text.now }
{
    let mut bytes = [0; 32];
    bytes[..text.len()].copy_from_slice(text);
    place_text::<E>(buf, at, &bytes, 0, text.len())
}

/// Places a text after which no bytes need be readable: its last 16 bytes are placed from a copy.
pub fn place_any_text<E: Escape>(buf: &mut [u8], at: usize, text: &[u8]) -> usize
    requires { at + 6 * length text.now + 16 ≤ length buf.old }
    ensures placed { Placed buf.old buf.new at (flat_map E.shown text.now) result }
    ensures short { result ≤ at + 6 * length text.now }
{
    if text.len() <= 16 {
        return place_copied::<E>(buf, at, text);
    }
    let front = text.len() - 16;
    let end = place_text::<E>(buf, at, text, 0, front);
    place_copied::<E>(buf, end, &text[front..])
}
