//! Parts of the text of a scanner, appended.

ghost use Rattle.std.specs.Prelude.{◌≡◌, ◌++◌, OnOk};
ghost use Rattle.lx_c.specs.Rows.{type_text};
ghost use Rattle.lx_c.specs.Templates.{either, filled, number_then, numbered};
ghost use Rattle.lx_tables.specs.Texts.{number};

use crate::options::Options;
use itoa::Buffer;
use std::alloc::AllocError;

/// The result of appending to a text. Err: memory was refused.
pub type PushResult = Result<(), AllocError>;

/// Appends bytes.
pub fn push(text: &mut Vec<u8>, bytes: &[u8]) -> PushResult
    ensures { OnOk result (text.new.items ≡ text.old.items ++ bytes.now) }
{
    text.extend_from_slice(bytes)
}

/// Appends a number.
pub fn push_number(text: &mut Vec<u8>, n: u64) -> PushResult
    ensures { OnOk result (text.new.items ≡ text.old.items ++ number n) }
{
    let mut digits = Buffer::new();
    push(text, digits.format(n).as_bytes())
}

/// Appends a number and the bytes after it.
pub fn push_number_then(text: &mut Vec<u8>, n: u64, after: &[u8]) -> PushResult
    ensures { OnOk result (text.new.items ≡ text.old.items ++ number_then n after.now) }
{
    push_number(text, n)?;
    push(text, after)
}

/// Appends the smallest unsigned type of C that holds all numbers up to the greatest.
pub fn push_type(text: &mut Vec<u8>, most: u64) -> PushResult
    ensures { OnOk result (text.new.items ≡ text.old.items ++ type_text most) }
{
    if most < 256 {
        push(text, b"unsigned char")
    } else if most < 65536 {
        push(text, b"unsigned short")
    } else {
        push(text, b"unsigned int")
    }
}

/// Appends a template, with the prefix for each `@`.
pub(crate) fn push_filled(text: &mut Vec<u8>, options: &Options, template: &[u8]) -> PushResult
    ensures { OnOk result
        (text.new.items ≡ text.old.items ++ filled options.now.prefix template.now) }
{
    for byte in template {
        if *byte == b'@' {
            push(text, options.prefix())?;
        } else {
            push(text, &[*byte])?;
        }
    }
    Ok(())
}

/// Appends one of two templates.
pub(crate) fn push_either(
    text: &mut Vec<u8>,
    options: &Options,
    is_first: bool,
    first: &[u8],
    second: &[u8],
) -> PushResult
    ensures { OnOk result (text.new.items
        ≡ text.old.items ++ either options.now is_first first.now second.now) }
{
    if is_first {
        push_filled(text, options, first)
    } else {
        push_filled(text, options, second)
    }
}

/// Appends a template, a number, and the bytes after it.
pub(crate) fn push_numbered(
    text: &mut Vec<u8>,
    options: &Options,
    template: &[u8],
    n: u32,
    after: &[u8],
) -> PushResult
    ensures { OnOk result
        (text.new.items ≡ text.old.items ++ numbered options.now template.now n after.now) }
{
    push_filled(text, options, template)?;
    push_number_then(text, u64::from(n), after)
}
