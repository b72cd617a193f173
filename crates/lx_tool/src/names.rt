//! File names of any bytes, and the texts that represent them.

ghost use Rattle.std.specs.Prelude.{◌≡◌, IfOk, map, true};
ghost use Rattle.lx_tool.specs.Names.{carried_byte, carries_byte, name_bytes};
ghost use Rattle.lx_tool.specs.Sources.{texts_of};

use std::alloc::{AllocError, Global};

// Bytes of the UTF-8 of a character that carries a byte: the first two, and the least and greatest value of each of the others.
const FIRST: u8 = 0xF4;

const SECOND: u8 = 0x8F;

const THIRD: u8 = 0xB8;

const LAST_THIRD: u8 = 0xBB;

const FOURTH: u8 = 0x80;

const LAST_FOURTH: u8 = 0xBF;

// Number of bytes of such a character.
const LENGTH: usize = 4;

// Returns true if the text begins with a character that carries a byte.
fn carries_byte(text: &[u8]) -> bool
    ensures { result ≡ carries_byte text.now }
{
    match text {
        [first, second, third, fourth, ..] => {
            *first == FIRST
                && *second == SECOND
                && (THIRD <= *third && *third <= LAST_THIRD)
                && (FOURTH <= *fourth && *fourth <= LAST_FOURTH)
        }
        _ => false,
    }
}

// Returns the byte that the first character carries.
fn carried_byte(text: &[u8]) -> u8
    requires { carries_byte text.now ≡ true }
    ensures { result ≡ carried_byte text.now }
{
    match text {
        [_, _, third, fourth, ..] => (*third - THIRD) * 64 + (*fourth - FOURTH),
        _ => 0,
    }
}

/// Returns the bytes of the name that a text represents.
pub fn name_bytes(alloc: Global, text: &str) -> Result<Vec<u8>, AllocError>
    ensures { IfOk result (λ bytes. bytes.items ≡ name_bytes text.now) }
{
    let text = text.as_bytes();
    let mut bytes = Vec::new(alloc);
    let mut passed: usize = 0;
    for i in 0..text.len() {
        if 0 < passed {
            passed -= 1;
        } else if carries_byte(&text[i..]) {
            bytes.push(carried_byte(&text[i..]))?;
            passed = LENGTH - 1;
        } else {
            bytes.push(text[i])?;
        }
    }
    Ok(bytes)
}

/// Returns the bytes of the names that texts represent, in order.
pub(crate) fn bytes_of_names(alloc: Global, texts: &[&str]) -> Result<Vec<Vec<u8>>, AllocError>
    ensures { IfOk result
        (λ names. map (λ name. name.items) names.items ≡ map name_bytes (texts_of texts.now)) }
{
    let mut names = Vec::new(alloc);
    for text in texts {
        names.push(name_bytes(alloc, text)?)?;
    }
    Ok(names)
}
