//! Explains why a text isn't that of tables (B01).

ghost use Rattle.std.specs.Prelude.{◌<◌, IfOk, length};
ghost use Rattle.lx_diagnose.specs.Printed.{ArePrinted};

use crate::places::{Span, between};
use crate::scan::{begins_at, find, is_at, part, skip_digits};
use crate::wording::{Fillings, fill, or_question_mark, shown_bytes};
use crate::words_of;
use std::alloc::{AllocError, Global};

// Start of each text of tables.
const BEGINNING: &[u8] = b"lx-tables ";

/// The reason why a text isn't that of tables.
#[derive(Clone, Copy)]
pub enum TableCause {
    NoTable,
    Newer,
    Specification,
    CarriageReturns,
    Cut,
}

// Returns the position of the version number.
fn version_of(text: &[u8]) -> Span {
    let start = BEGINNING.len();
    between(start, skip_digits(text, start, text.len()))
}

fn is_newer(text: &[u8]) -> bool {
    let version = version_of(text);
    let number = part(text, version);
    let is_whole = is_at(text, version.end(), b'\n') || is_at(text, version.end(), b'\r');
    is_whole && !number.is_empty() && number != b"1".as_slice() && number != b"2".as_slice()
}

fn is_specification(text: &[u8]) -> bool {
    begins_at(text, 0, b"%%") || find(text, 0, text.len(), b"\n%%").is_some()
}

// Returns true if no line is the end of tables.
fn is_truncated(text: &[u8]) -> bool {
    find(text, 0, text.len(), b"\nend\n").is_none()
}

/// Explains why a text isn't that of tables.
pub fn table_cause(text: &[u8]) -> TableCause {
    if text.is_empty() {
        return TableCause::Cut;
    }
    if !begins_at(text, 0, BEGINNING) {
        return if is_specification(text) {
            TableCause::Specification
        } else {
            TableCause::NoTable
        };
    }
    if is_newer(text) {
        return TableCause::Newer;
    }
    let end = find(text, 0, text.len(), b"\n").unwrap_or(text.len());
    if is_at(text, end.saturating_sub(1), b'\r') {
        return TableCause::CarriageReturns;
    }
    if is_truncated(text) {
        TableCause::Cut
    } else {
        TableCause::NoTable
    }
}

/// Returns the word by which `explain` knows a cause: its name, or that of the code.
pub fn table_topic(cause: TableCause) -> &'static str {
    match cause {
        TableCause::NoTable => "B01",
        TableCause::Newer => "newer-tables",
        TableCause::Specification => "specification-given",
        TableCause::CarriageReturns => "carriage-returns",
        TableCause::Cut => "cut-tables",
    }
}

fn table_phrase(cause: TableCause) -> &'static str {
    match cause {
        TableCause::NoTable => "this is no table of lx",
        TableCause::Newer => "tables of version `@`; this lx reads 1 and 2",
        TableCause::Cut => "the text is cut short after line #",
        TableCause::Specification | TableCause::CarriageReturns => "",
    }
}

// Counts the lines that end in a text.
fn count_lines(text: &[u8]) -> u32 {
    let mut lines: u32 = 0;
    for byte in text {
        if *byte == b'\n' {
            lines = lines.saturating_add(1);
        }
    }
    lines
}

/// Explains in one line, without a newline, why a text isn't that of tables. Shows bytes of the text outside 32 to 126 as `\xHH`. Err: an allocation
/// failed.
pub fn table_sentence(alloc: Global, cause: TableCause, text: &[u8]) -> Result<Vec<u8>, AllocError>
    ensures printed { IfOk result (λ words. ArePrinted words.items) }
    ensures some { IfOk result (λ words. 0 < length words.items) }
{
    let phrase = table_phrase(cause).as_bytes();
    if phrase.is_empty() {
        let words = shown_bytes(alloc, words_of(table_topic(cause)).as_bytes())?;
        return or_question_mark(words);
    }
    let fillings = Fillings {
        name: part(text, version_of(text)),
        other: part(text, version_of(text)),
        line: count_lines(text),
    };
    let words = fill(alloc, phrase, &fillings)?;
    or_question_mark(words)
}
