//! Reports the faults and warnings of a file for lex or flex as lines.

use crate::lines::push_marked;
use lx_diagnose::line_bytes;
use lx_flex::{FilePlace, ImportReport, Reports, Taker};
use lx_lex::{SourceName, place_in};
use std::alloc::{AllocError, Global};
use std::fmt::Display;
use std::io::Write;

// Greatest number of bytes of the source that are marked.
const MOST_MARKED: usize = 60;

/// A text made of files.
#[derive(Clone, Copy)]
pub struct NamedText<'n> {
    pub text: &'n [u8],
    pub names: &'n [SourceName<'n>],
}

// Appends a line: the place, its weight and words.
fn push_line<W: Display>(
    lines: &mut Vec<u8>,
    source: NamedText<'_>,
    place: FilePlace,
    weight: &str,
    words: &W,
) -> Result<(), AllocError> {
    let (name, line) = place_in(source.names, place.line);
    lines.extend_from_slice(name)?;
    let written = if place.line == 0 {
        writeln!(lines, ": {weight}: {words}")
    } else {
        writeln!(lines, ":{line}:{}: {weight}: {words}", place.column)
    };
    // a write to a list fails only for lack of memory
    written.map_err(|_| AllocError)
}

// Appends the line of the source with a mark, if there is one.
fn push_source(
    alloc: Global,
    lines: &mut Vec<u8>,
    source: NamedText<'_>,
    report: &ImportReport,
) -> Result<(), AllocError> {
    let FilePlace { line, column } = report.place;
    let bytes = line_bytes(source.text, line);
    let Some(marked) = bytes.get((column as usize).saturating_sub(1)..) else {
        return Ok(());
    };
    if marked.is_empty() {
        return Ok(());
    }
    let (_, number) = place_in(source.names, line);
    push_marked(
        alloc,
        lines,
        u64::from(number),
        column as usize,
        report.width(marked).min(MOST_MARKED),
        bytes,
    )
}

// Appends what follows the line of a report: the source line, what to do, and the second place.
fn push_details(
    alloc: Global,
    lines: &mut Vec<u8>,
    source: NamedText<'_>,
    report: &ImportReport,
) -> Result<(), AllocError> {
    push_source(alloc, lines, source, report)?;
    if let Some(hint) = report.cause.hint() {
        push_line(lines, source, report.place, "note", &hint)?;
    }
    match report.cause.taker() {
        Some(Taker::One(place)) => push_line(lines, source, place, "note", &"this rule takes them"),
        Some(Taker::Several(place)) if place != FilePlace::WHOLE => {
            push_line(
                lines,
                source,
                place,
                "note",
                &"this rule takes some of them",
            )
        }
        _ => Ok(()),
    }
}

/// Appends the lines of all reports. Leaves out source lines and notes if `quiet`.
pub fn push_reports(
    alloc: Global,
    lines: &mut Vec<u8>,
    source: NamedText<'_>,
    reports: &Reports,
    quiet: bool,
) -> Result<(), AllocError> {
    for report in reports.list.as_slice() {
        let weight = if report.fatal { "error" } else { "warning" };
        push_line(lines, source, report.place, weight, &report.cause)?;
        if !quiet {
            push_details(alloc, lines, source, report)?;
        }
    }
    Ok(())
}
