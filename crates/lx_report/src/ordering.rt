//! Orders errors and warnings by their lines, except that the first error comes first.

use crate::repeated::new_findings;
use crate::subject::ReportSubject;
use crate::warnings::MOST_TOLD;
use lx_check::TextFault;
use lx_spec::Code;
use lx_warnings::{Warning, Warnings, warnings_of_rejected};
use std::alloc::{AllocError, Global};

/// An entry after the first error of a text that is rejected.
#[derive(Clone, Copy)]
pub(crate) enum Entry {
    Error(TextFault),
    /// Number of a warning.
    Warning(usize),
}

/// All entries after the first error of a text that is rejected.
#[derive(Drop)]
pub(crate) struct Rest {
    /// Entries in the order of the report.
    pub entries: Vec<Entry>,
    /// Number of errors among them.
    pub errors: usize,
    pub warnings: Warnings,
}

/// Returns the line of a finding, or 0 if it has none.
fn line_of(finding: &TextFault) -> u32 {
    match finding {
        TextFault::Specification(fault) => fault.line,
        TextFault::TooManyPositions | TextFault::TooManySets => 0,
    }
}

// Returns true if the sections of the text are well-formed, so that its rules and definitions are known.
fn has_sections(first: TextFault) -> bool {
    match first {
        TextFault::Specification(fault) => matches!(
            fault.code,
            Code::NoReading
                | Code::Undefined
                | Code::TooDeep
                | Code::NoCondition
                | Code::NoAction
                | Code::NoNext
        ),
        TextFault::TooManyPositions | TextFault::TooManySets => true,
    }
}

// Collects the lines of errors.
fn error_lines(
    alloc: Global,
    first: TextFault,
    more: &[TextFault],
) -> Result<Vec<u32>, AllocError> {
    let mut lines = Vec::new(alloc);
    lines.push(line_of(&first))?;
    for finding in more {
        lines.push(line_of(finding))?;
    }
    Ok(lines)
}

// Collects the warnings on lines without an error.
fn warnings_of_refused(
    alloc: Global,
    subject: &ReportSubject<'_>,
    first: TextFault,
    more: &[TextFault],
) -> Result<Warnings, AllocError> {
    if !has_sections(first) {
        return Ok(Warnings {
            told: Vec::new(alloc),
            count: 0,
        });
    }
    let lines = error_lines(alloc, first, more)?;
    warnings_of_rejected(alloc, subject.source, &lines, &subject.asked, MOST_TOLD)
}

// Adds the warnings from number `from` on that come before a line. Returns the number of the first one after them.
fn push_before(
    entries: &mut Vec<Entry>,
    warnings: &[Warning],
    from: usize,
    line: u32,
) -> Result<usize, AllocError> {
    for number in from..warnings.len() {
        if line <= warnings[number].place.line {
            return Ok(number);
        }
        entries.push(Entry::Warning(number))?;
    }
    Ok(warnings.len())
}

// Merges errors and warnings in the order of their lines.
fn entries_of(
    alloc: Global,
    errors: &[TextFault],
    warnings: &[Warning],
) -> Result<Vec<Entry>, AllocError> {
    let mut entries = Vec::new(alloc);
    let mut next = 0;
    for error in errors {
        next = push_before(&mut entries, warnings, next, line_of(error))?;
        entries.push(Entry::Error(*error))?;
    }
    for number in next..warnings.len() {
        entries.push(Entry::Warning(number))?;
    }
    Ok(entries)
}

/// Collects what is reported after the first finding: further errors that say something new, and the warnings on lines without an error.
pub(crate) fn rest_of(
    alloc: Global,
    subject: &ReportSubject<'_>,
    first: TextFault,
    more: &[TextFault],
) -> Result<Rest, AllocError> {
    let new = new_findings(alloc, subject.source, first, more)?;
    let warnings = warnings_of_refused(alloc, subject, first, more)?;
    Ok(Rest {
        entries: entries_of(alloc, &new, &warnings.told)?,
        errors: new.len(),
        warnings,
    })
}
