//! Writes the lines of items by the formatter of the standard library.

use lx_scan::Item;
use lx_spec::Kind;
use std::alloc::{AllocError, Global};
use std::fmt::Write;

// Appends a byte as a line shows it.
fn show_byte(out: &mut String, byte: u8) -> Result<(), AllocError> {
    match byte {
        b'\\' => out.push_str("\\\\"),
        32..=126 => out.push(char::from(byte)),
        _ => write!(out, "\\x{byte:02X}"),
    }
}

// Appends the name of a kind, or its number.
fn show_kind(out: &mut String, kinds: &[Vec<u8>], kind: Kind) -> Result<(), AllocError> {
    match kind {
        Kind::Number(number) => write!(out, "{number}"),
        Kind::Name(place) => match kinds.get(place as usize) {
            Some(name) => {
                for byte in name {
                    out.push(char::from(*byte))?;
                }
                Ok(())
            }
            None => out.push_str("no such kind"),
        },
    }
}

/// Returns the lines of the items of a text, the only file.
pub(crate) fn lines_of(
    alloc: Global,
    kinds: &[Vec<u8>],
    text: &[u8],
    items: &[Item],
) -> Result<String, AllocError> {
    let mut out = String::new(alloc);
    for item in items {
        let (line, start, len) = match *item {
            Item::Token {
                kind,
                line,
                start,
                len,
            } => {
                out.push_str("0 T ")?;
                show_kind(&mut out, kinds, kind)?;
                (line, start, len)
            }
            Item::Echo { line, start, len } => {
                out.push_str("0 E -")?;
                (line, start, len)
            }
        };
        write!(out, " {line} {start} {len} ")?;
        for byte in text.iter().skip(start).take(len) {
            show_byte(&mut out, *byte)?;
        }
        out.push('\n')?;
    }
    Ok(out)
}
