//! Appends parts of a report to a text. If an allocation fails, a part was appended.

ghost use Rattle.std.specs.Prelude.{◌≡◌, ◌==◌, ◌++◌, OnOk, decimal, if◌then◌else◌};
ghost use Rattle.std.specs.List.{flat_map};
ghost use Rattle.lx_report.specs.Said.{Extends};
ghost use Rattle.lx_report.specs.Bytes.{shown_byte};
ghost use Rattle.lx_report.specs.Lines.{finding_line};

use crate::{Finding, ReportPlace, Severity, push_finding, push_marked, push_number, push_shown};
use lx_diagnose::{TextPlace, line_bytes};
use std::alloc::{AllocError, Global};

/// Appends bytes to a text.
pub(crate) fn push(text: &mut Vec<u8>, bytes: &[u8]) -> Result<(), AllocError>
    ensures { OnOk result (text.new.items ≡ text.old.items ++ bytes.now) }
{
    text.extend_from_slice(bytes)
}

/// Appends bytes as they are shown, and then others unchanged.
pub(crate) fn push_shown_and(
    text: &mut Vec<u8>,
    shown: &[u8],
    behind: &[u8],
) -> Result<(), AllocError>
    ensures value { OnOk result
        (text.new.items ≡ text.old.items ++ (flat_map shown_byte shown.now ++ behind.now)) }
    ensures extends { OnOk result (Extends text.old.items text.new.items) }
{
    push_shown(text, shown)?;
    push(text, behind)
}

/// Converts the place of a diagnosis.
pub(crate) fn place_of(place: &TextPlace) -> ReportPlace
    ensures { result.line ≡ place.now.line }
{
    ReportPlace {
        line: u64::from(place.line),
        column: place.column as u64,
        width: place.width as u64,
    }
}

/// Appends a finding as a line.
pub(crate) fn push_line(
    text: &mut Vec<u8>,
    file: &[u8],
    severity: Severity,
    place: ReportPlace,
    code: &[u8],
    words: &[u8],
    name: &[u8],
) -> Result<(), AllocError>
    ensures { OnOk result (text.new.items
        ≡ text.old.items ++ finding_line file.now severity place code.now words.now name.now) }
{
    let finding = Finding {
        severity,
        place,
        code,
        words,
        name,
    };
    push_finding(text, file, &finding)
}

/// Appends a note: what to do, or a second place.
pub(crate) fn push_note(
    text: &mut Vec<u8>,
    file: &[u8],
    place: ReportPlace,
    words: &[u8],
) -> Result<(), AllocError>
    ensures { OnOk result (Extends text.old.items text.new.items) }
{
    push_line(text, file, Severity::Note, place, b"", words, b"")
}

/// Appends a number and a word, which is `one` for 1 and otherwise `more`. Err: an allocation failed.
pub fn push_count(
    text: &mut Vec<u8>,
    count: usize,
    one: &[u8],
    more: &[u8],
) -> Result<(), AllocError>
    ensures value { OnOk result (text.new.items
        ≡ text.old.items ++ (decimal count ++ (if count == 1 then one.now else more.now))) }
    ensures extends { OnOk result (Extends text.old.items text.new.items) }
{
    push_number(text, count as u64)?;
    if count == 1 {
        push(text, one)
    } else {
        push(text, more)
    }
}

/// Appends the source line with a mark, if the column is known.
pub(crate) fn push_source(
    alloc: Global,
    text: &mut Vec<u8>,
    source: &[u8],
    place: &TextPlace,
) -> Result<(), AllocError>
    ensures { OnOk result (Extends text.old.items text.new.items) }
{
    if place.line == 0 || place.column == 0 {
        return Ok(());
    }
    push_marked(
        alloc,
        text,
        u64::from(place.line),
        place.column,
        place.width,
        line_bytes(source, place.line),
    )
}
