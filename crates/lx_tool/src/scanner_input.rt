//! Reads the files for lex or flex as one text.

use crate::names::name_bytes;
use crate::scanner_fault::ScannerFault;
use crate::source::{STANDARD_INPUT, SourceFault, Sources};
use lx_lex::SourceName;
use std::alloc::{AllocError, Global};

/// The text of all files, one after the other.
#[derive(Drop)]
pub(crate) struct WholeText {
    pub(crate) text: Vec<u8>,
    /// Names of the files, as bytes.
    names: Vec<Vec<u8>>,
    /// Line of the text on which each file begins.
    first_lines: Vec<u32>,
}

fn lines_in(text: &[u8]) -> u32 {
    let mut lines: u32 = 0;
    for byte in text {
        if *byte == b'\n' {
            lines = lines.saturating_add(1);
        }
    }
    lines
}

// Adds a file to the text. A last line without its end gets one, so that the next file begins on a new line.
fn add_file<'a, S: Sources>(
    alloc: Global,
    sources: &mut S,
    name: &'a str,
    whole: &mut WholeText,
) -> Result<(), ScannerFault<'a>> {
    let input = match sources.read(alloc, name) {
        Ok(input) => input,
        Err(SourceFault::NotRead) => return Err(ScannerFault::NotRead(name)),
        Err(SourceFault::Memory) => return Err(ScannerFault::Memory),
    };
    if input.cut {
        return Err(ScannerFault::NotRead(name));
    }
    if let Some(last) = whole.text.last() {
        if *last != b'\n' {
            whole.text.push(b'\n')?;
        }
    }
    whole
        .first_lines
        .push(lines_in(whole.text.as_slice()).saturating_add(1))?;
    whole.text.extend_from_slice(input.bytes.as_slice())?;
    let shown = if name == STANDARD_INPUT {
        "<stdin>"
    } else {
        name
    };
    whole.names.push(name_bytes(alloc, shown)?)?;
    Ok(())
}

/// Reads the files, or standard input if there are none.
pub(crate) fn read_whole_text<'a, S: Sources>(
    alloc: Global,
    sources: &mut S,
    files: &[&'a str],
) -> Result<WholeText, ScannerFault<'a>> {
    let mut whole = WholeText {
        text: Vec::new(alloc),
        names: Vec::new(alloc),
        first_lines: Vec::new(alloc),
    };
    for name in files {
        add_file(alloc, sources, name, &mut whole)?;
    }
    if files.is_empty() {
        add_file(alloc, sources, STANDARD_INPUT, &mut whole)?;
    }
    Ok(whole)
}

/// Returns the names of the files, with their first lines.
pub(crate) fn source_names(
    alloc: Global,
    whole: &WholeText,
) -> Result<Vec<SourceName<'_>>, AllocError> {
    let mut list = Vec::new(alloc);
    let mut place: usize = 0;
    for name in &whole.names {
        let first_line = whole.first_lines.get(place).copied().unwrap_or(1);
        place = place.saturating_add(1);
        list.push(SourceName {
            name: name.as_slice(),
            first_line,
        })?;
    }
    Ok(list)
}
