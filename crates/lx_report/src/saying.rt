//! Reports on a specification as lines.

ghost use Rattle.std.specs.Prelude.{◌≡◌, [], IfOk, OnOk};
ghost use Rattle.lx_check.specs.Findings.{IfAccepted};
ghost use Rattle.lx_report.specs.Said.{Extends, TellsFirst, TellsVerdict, TellsWarnings};
ghost use Rattle.lx_warnings.specs.Kinds.{has_kind};

use crate::errors::push_error;
use crate::ordering::{Entry, Rest, rest_of};
use crate::pieces::{push_count, push_shown_and};
use crate::subject::ReportSubject;
use crate::warnings::{push_accepted, push_warning};
use lx_check::{Report, TextFault};
use std::alloc::{AllocError, Global};

/// The output on a specification.
#[derive(Debug, Drop)]
pub struct Said {
    /// Text of the output.
    pub text: Vec<u8>,
    /// Number of warnings of the specification.
    pub warnings: usize,
}

// Appends an error or a warning after the first error.
fn push_entry(
    alloc: Global,
    text: &mut Vec<u8>,
    subject: &ReportSubject<'_>,
    rest: &Rest,
    entry: Entry,
) -> Result<(), AllocError>
    ensures { OnOk result (Extends text.old.items text.new.items) }
{
    match entry {
        Entry::Error(finding) => push_error(alloc, text, subject, finding),
        Entry::Warning(number) => {
            if number < rest.warnings.told.len() {
                return push_warning(alloc, text, subject, &rest.warnings.told[number]);
            }
            Ok(())
        }
    }
}

// Appends what is reported after the first error.
fn push_further(
    alloc: Global,
    text: &mut Vec<u8>,
    subject: &ReportSubject<'_>,
    rest: &Rest,
) -> Result<(), AllocError>
    ensures { OnOk result (Extends text.old.items text.new.items) }
{
    for entry in &rest.entries {
        push_entry(alloc, text, subject, rest, *entry)?;
    }
    Ok(())
}

// Appends the number of errors, and that of warnings if there are some.
fn push_numbers(text: &mut Vec<u8>, errors: usize, warnings: usize) -> Result<(), AllocError>
    ensures { OnOk result (Extends text.old.items text.new.items) }
{
    if warnings == 0 {
        return push_count(text, errors, b" error\n", b" errors\n");
    }
    push_count(text, errors, b" error, ", b" errors, ")?;
    push_count(text, warnings, b" warning\n", b" warnings\n")
}

// Appends the numbers of errors and warnings, unless the report is quiet.
fn push_end(
    text: &mut Vec<u8>,
    subject: &ReportSubject<'_>,
    errors: usize,
    warnings: usize,
) -> Result<(), AllocError>
    ensures { OnOk result (Extends text.old.items text.new.items) }
{
    if subject.quiet {
        return Ok(());
    }
    push_shown_and(text, subject.file, b": ")?;
    push_numbers(text, errors, warnings)
}

// Appends what is reported after the first error, and the numbers of errors and warnings. Returns the number of warnings.
fn push_rest(
    alloc: Global,
    text: &mut Vec<u8>,
    subject: &ReportSubject<'_>,
    first: TextFault,
    more: &[TextFault],
) -> Result<usize, AllocError>
    ensures { IfOk result (λ _. Extends text.old.items text.new.items) }
{
    let rest = rest_of(alloc, subject, first, more)?;
    push_further(alloc, text, subject, &rest)?;
    let warnings = rest.warnings.count;
    push_end(text, subject, rest.errors.saturating_add(1), warnings)?;
    Ok(warnings)
}

// Appends the findings of a text that is rejected. Returns the number of its warnings.
fn push_errors(
    alloc: Global,
    text: &mut Vec<u8>,
    subject: &ReportSubject<'_>,
    findings: &[TextFault],
) -> Result<usize, AllocError>
    ensures { IfOk result
        (λ _. text.old.items ≡ [] → TellsFirst subject.now.file.now findings.now text.new.items) }
{
    let Some((first, more)) = findings.split_first() else {
        return Ok(0);
    };
    push_error(alloc, text, subject, *first)?;
    push_rest(alloc, text, subject, *first, more)
}

/// Makes the output on a specification's text from its report, as lines. For a rejected text: its faults, each with the source line and what to do,
/// and between them its warnings on other lines. For an accepted one: its warnings, its sizes, and the bytes that no rule takes. Err: an allocation
/// failed.
pub fn report_of(
    alloc: Global,
    subject: &ReportSubject<'_>,
    report: &Report,
) -> Result<Said, AllocError>
    ensures verdict { IfOk result
        (λ said. TellsVerdict subject.now.file.now report.now said.text.items) }
    ensures warnings { IfOk result (λ said.
        IfAccepted (λ accepted.
        TellsWarnings subject.now.file.now subject.now.quiet (has_kind subject.now.asked)
        said.warnings said.text.items) report.now) }
{
    let mut text = Vec::new(alloc);
    let warnings = match report {
        Report::Refused(findings) => push_errors(alloc, &mut text, subject, findings)?,
        Report::Accepted(accepted) => push_accepted(alloc, &mut text, subject, accepted)?,
    };
    Ok(Said { text, warnings })
}
