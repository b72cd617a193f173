//! File names that aren't UTF-8. The program and `clap` need arguments that are text. So each byte of such a name that isn't text is carried by its
//! own character, from a range for private use. If a name has one of these characters itself, others carry its bytes.

use bstr::decode_utf8;
use std::alloc::{AllocError, Global};
use std::io;
use std::io::Write;

// The character that carries the byte 0. Those for the bytes up to 255 follow it.
const FIRST: u32 = 0x10_FE00;

// First bytes of the UTF-8 of each of these characters.
const LEAD: [u8; 2] = [0xF4, 0x8F];

fn carrier_of(byte: u8) -> char {
    char::from_u32(FIRST + u32::from(byte)).unwrap_or(char::REPLACEMENT_CHARACTER)
}

// Returns the byte that a character carries, if it is one of those.
fn carried_by(c: char) -> Option<u8> {
    u8::try_from(u32::from(c).checked_sub(FIRST)?).ok()
}

fn push_carriers(text: &mut String, bytes: &[u8]) -> Result<(), AllocError> {
    for byte in bytes {
        text.push(carrier_of(*byte))?;
    }
    Ok(())
}

/// Returns the text that represents bytes. It has the same bytes if they are UTF-8 without any of these characters.
pub fn text_of(alloc: Global, bytes: &[u8]) -> Result<String, AllocError> {
    let mut text = String::new(alloc);
    let mut rest = bytes;
    while !rest.is_empty() {
        let (c, len) = decode_utf8(rest);
        let (front, behind) = rest.split_at(len.clamp(1, rest.len()));
        match c {
            Some(c) if carried_by(c).is_none() => text.push(c)?,
            _ => push_carriers(&mut text, front)?,
        }
        rest = behind;
    }
    Ok(text)
}

/// Returns true if a text represents other bytes than its own.
pub fn carries_bytes(text: &str) -> bool {
    text.chars().any(|c| carried_by(c).is_some())
}

/// A writer to stderr. It shows bytes that a text carries as the listing does, as `\xE9`.
#[derive(Drop)]
pub struct ShownNames<W> {
    out: W,
}

impl<W: Write> ShownNames<W> {
    pub fn new(out: W) -> ShownNames<W> {
        ShownNames { out }
    }

    fn show(&mut self, bytes: &[u8]) -> io::Result<()> {
        let mut rest = bytes;
        while !rest.is_empty() {
            let (c, len) = decode_utf8(rest);
            let (front, behind) = rest.split_at(len.clamp(1, rest.len()));
            match c.and_then(carried_by) {
                Some(byte) => write!(self.out, "\\x{byte:02X}")?,
                None => self.out.write_all(front)?,
            }
            rest = behind;
        }
        Ok(())
    }
}

// Returns true if the bytes may have a character that carries a byte.
fn may_carry(bytes: &[u8]) -> bool {
    bytes
        .windows(LEAD.len())
        .any(|pair| pair == LEAD.as_slice())
}

impl<W: Write> Write for ShownNames<W> {
    fn write(&mut self, bytes: &[u8]) -> io::Result<usize> {
        if !may_carry(bytes) {
            return self.out.write(bytes);
        }
        self.show(bytes)?;
        Ok(bytes.len())
    }

    fn flush(&mut self) -> io::Result<()> {
        self.out.flush()
    }
}
