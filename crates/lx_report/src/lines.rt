//! Appends findings as lines, in the form of C compilers. If an allocation fails, a part was appended.

ghost use Rattle.std.specs.Prelude.{◌≡◌, ◌++◌, IfOk, OnOk, decimal, length};
ghost use Rattle.lx_report.specs.Lines as specs;

use crate::bytes::{push, push_numbered, push_shown, push_source, push_times};
use crate::finding::{Finding, ReportPlace, Severity};
use itoa::Buffer;
use std::alloc::{AllocError, Global};

// Limits of a shown source line: number of bytes before the place, and in total.
const MOST_BEFORE: usize = 50;

const MOST_SHOWN: usize = 100;

fn push_column(text: &mut Vec<u8>, column: u64) -> Result<(), AllocError>
    ensures { OnOk result (text.new.items ≡ text.old.items ++ specs.column_text column) }
{
    if column == 0 {
        return Ok(());
    }
    push_numbered(text, b":", column)
}

fn push_place(text: &mut Vec<u8>, place: ReportPlace) -> Result<(), AllocError>
    ensures { OnOk result (text.new.items ≡ text.old.items ++ specs.place_text place) }
{
    if place.line == 0 {
        return Ok(());
    }
    push_numbered(text, b":", place.line)?;
    push_column(text, place.column)
}

fn push_severity(text: &mut Vec<u8>, severity: Severity) -> Result<(), AllocError>
    ensures { OnOk result (text.new.items ≡ text.old.items ++ specs.severity_text severity) }
{
    match severity {
        Severity::Error => push(text, b": error: "),
        Severity::Warning => push(text, b": warning: "),
        Severity::Note => push(text, b": note: "),
    }
}

fn push_code(text: &mut Vec<u8>, code: &[u8]) -> Result<(), AllocError>
    ensures { OnOk result (text.new.items ≡ text.old.items ++ specs.code_text code.now) }
{
    if code.is_empty() {
        return Ok(());
    }
    push_shown(text, code)?;
    push(text, b": ")
}

fn push_tag(text: &mut Vec<u8>, severity: Severity, name: &[u8]) -> Result<(), AllocError>
    ensures { OnOk result (text.new.items ≡ text.old.items ++ specs.tag_text severity name.now) }
{
    match severity {
        Severity::Warning => {
            push(text, b" [")?;
            push_shown(text, name)?;
            push(text, b"]")
        }
        Severity::Error | Severity::Note => Ok(()),
    }
}

/// Appends a finding in the file with this name as a line: place, severity, code, text and name. Err: an allocation failed.
pub fn push_finding(
    text: &mut Vec<u8>,
    file: &[u8],
    finding: &Finding<'_>,
) -> Result<(), AllocError>
    ensures { OnOk result (text.new.items
        ≡ text.old.items ++ specs.finding_line file.now finding.now.severity finding.now.place
        finding.now.code.now finding.now.words.now finding.now.name.now) }
{
    push_shown(text, file)?;
    push_place(text, finding.place)?;
    push_severity(text, finding.severity)?;
    push_code(text, finding.code)?;
    push_shown(text, finding.words)?;
    push_tag(text, finding.severity, finding.name)?;
    push(text, b"\n")
}

// Returns the number of hidden bytes at the start of a line.
fn hidden_bytes(column: usize) -> usize
    ensures { result ≡ specs.hidden column }
{
    column.saturating_sub(1).saturating_sub(MOST_BEFORE)
}

// Returns the part of a line that is shown.
fn part(column: usize, line: &[u8]) -> &[u8]
    ensures { result.now ≡ specs.part column line.now }
{
    let front = hidden_bytes(column).min(line.len());
    let rest = &line[front..];
    &rest[..MOST_SHOWN.min(rest.len())]
}

// Appends dots if bytes are left out.
fn push_cut(text: &mut Vec<u8>, is_cut: bool) -> Result<(), AllocError>
    ensures { OnOk result (text.new.items ≡ text.old.items ++ specs.cut is_cut) }
{
    if is_cut { push(text, b"...") } else { Ok(()) }
}

fn is_cut_before(column: usize) -> bool
    ensures { result ≡ specs.is_cut_before column }
{
    0 < hidden_bytes(column)
}

fn is_cut_after(column: usize, line: &[u8]) -> bool
    ensures { result ≡ specs.is_cut_behind column line.now }
{
    MOST_SHOWN < line.len().saturating_sub(hidden_bytes(column))
}

// Returns the number of columns that are printed before the place.
fn width_before(alloc: Global, column: usize, line: &[u8]) -> Result<usize, AllocError>
    ensures { IfOk result (λ width. width ≡ length (specs.printed_before column line.now)) }
{
    let shown = part(column, line);
    let before = column.saturating_sub(1) - hidden_bytes(column);
    let mut text = Vec::new(alloc);
    push_cut(&mut text, is_cut_before(column))?;
    push_source(&mut text, &shown[..shown.len().min(before)])?;
    Ok(text.len())
}

// Appends the part of a line around the column, with dots where more of the line is left out.
fn push_part(text: &mut Vec<u8>, column: usize, line: &[u8]) -> Result<(), AllocError>
    ensures { OnOk result (text.new.items ≡ text.old.items ++ specs.printed column line.now) }
{
    push_cut(text, is_cut_before(column))?;
    push_source(text, part(column, line))?;
    push_cut(text, is_cut_after(column, line))
}

fn push_source_line(
    text: &mut Vec<u8>,
    number: u64,
    column: usize,
    line: &[u8],
) -> Result<(), AllocError>
    ensures { OnOk result
        (text.new.items ≡ text.old.items ++ specs.source_line number column line.now) }
{
    push_numbered(text, b"    ", number)?;
    push(text, b" | ")?;
    push_part(text, column, line)?;
    push(text, b"\n")
}

fn push_margin(text: &mut Vec<u8>, number: u64) -> Result<(), AllocError>
    ensures { OnOk result (text.new.items ≡ text.old.items ++ specs.margin number) }
{
    push(text, b"    ")?;
    push_times(text, b' ', width_of(number))?;
    push(text, b" | ")
}

fn width_of(number: u64) -> usize
    ensures { result ≡ length (decimal number) }
{
    let mut digits = Buffer::new();
    digits.format(number).len()
}

fn push_mark(text: &mut Vec<u8>, before: usize, width: usize) -> Result<(), AllocError>
    ensures { OnOk result (text.new.items ≡ text.old.items ++ specs.mark before width) }
{
    push_times(text, b' ', before)?;
    push(text, b"^")?;
    push_times(text, b'~', width.saturating_sub(1))?;
    push(text, b"\n")
}

/// Appends a source line with its number before it, and a line with a mark below `width` bytes from the column. Columns are counted from 1. Shows
/// unprintable bytes as `\xHH`, and a tab as a blank. Of a long line, shows only a part around the column, with `...` for the rest. Err: an
/// allocation failed.
pub fn push_marked(
    alloc: Global,
    text: &mut Vec<u8>,
    number: u64,
    column: usize,
    width: usize,
    line: &[u8],
) -> Result<(), AllocError>
    ensures { OnOk result
        (text.new.items ≡ text.old.items ++ specs.marked number column width line.now) }
{
    let before = width_before(alloc, column, line)?;
    push_source_line(text, number, column, line)?;
    push_margin(text, number)?;
    push_mark(text, before, width)
}
