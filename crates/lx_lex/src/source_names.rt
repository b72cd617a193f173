//! The names of the files that a scanner is made of, for `#line`.

use crate::template::Output;
use lx_c::pushing::push_number_then;
use std::alloc::AllocError;

/// A file, by its name and the line of the whole text on which it begins.
#[derive(Debug, Clone, Copy, PartialEq, Eq)]
pub struct SourceName<'a> {
    pub name: &'a [u8],
    pub first_line: u32,
}

/// Returns the name of the file that has a line of the whole text, and the line in that file.
pub fn place_in<'a>(names: &[SourceName<'a>], line: u32) -> (&'a [u8], u32) {
    let mut found: &'a [u8] = match names.first() {
        Some(source) => source.name,
        None => b"<stdin>",
    };
    let mut first: u32 = 1;
    for source in names {
        if source.first_line <= line {
            found = source.name;
            first = source.first_line;
        }
    }
    (found, line.saturating_sub(first).saturating_add(1))
}

/// Appends a name in quotes, in C syntax.
fn push_quoted(output: &mut Output, name: &[u8]) -> Result<(), AllocError> {
    output.push(b"\"")?;
    for byte in name {
        match *byte {
            b'"' => output.push(b"\\\"")?,
            b'\\' => output.push(b"\\\\")?,
            b'\n' => output.push(b"\\n")?,
            other => output.push(&[other])?,
        }
    }
    output.push(b"\"")
}

/// Appends a `#line` directive.
pub(crate) fn push_line(output: &mut Output, line: u32, name: &[u8]) -> Result<(), AllocError> {
    output.end_line()?;
    output.push(b"#line ")?;
    push_number_then(&mut output.text, u64::from(line), b" ")?;
    push_quoted(output, name)?;
    output.push(b"\n")
}
