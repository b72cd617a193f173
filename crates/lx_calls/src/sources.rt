//! Calls of sources of files.

use crate::stop::{Stop, end_of_print, say_fault, unless_refused};
use lx_fixtures::TWO_WORDS;
use lx_tool::{ListSources, SourceFault, Sources};
use std::alloc::Global;

/// Two files by their names.
const FILES: &[(&str, &[u8])] = &[("a", b"a"), ("words", TWO_WORDS)];

fn read_second(rt: &impl Print, alloc: Global, sources: &mut ListSources<'_>) -> Result<(), Stop> {
    match sources.read(alloc, "words") {
        Ok(input) => {
            let (bytes, cut) = (input.bytes.as_slice(), input.cut);
            end_of_print(println!(rt; "{bytes:?}, cut {cut}"))
        }
        Err(SourceFault::Memory) => Err(Stop::Refused),
        Err(fault) => say_fault(rt, &fault),
    }
}

/// Calls `read` for the second file of a list.
pub(crate) fn reads_source(rt: &impl Print, alloc: Global) -> Result<(), Stop> {
    let mut sources = ListSources::new(FILES);
    match unless_refused(rt, read_second(rt, alloc, &mut sources)) {
        Some(ended) => ended,
        None => read_second(rt, alloc, &mut sources),
    }
}
