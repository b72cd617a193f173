//! Reports on a specification as SARIF 2.1.0.

use crate::ordering::{Entry, Rest, rest_of};
use crate::pieces::{place_of, push};
use crate::saying::Said;
use crate::subject::ReportSubject;
use crate::warnings::warnings_in;
use crate::{Finding, ReportPlace, Severity, push_result, push_sarif_end, push_sarif_start};
use lx_check::{Accepted, Report, TextFault};
use lx_diagnose::{code_word, diagnose, name_of as name_of_cause, sentence, words_of};
use lx_spec::SpecFault;
use lx_warnings::{Warning, name_of};
use std::alloc::{AllocError, Global};

fn push_fault_result(
    alloc: Global,
    text: &mut Vec<u8>,
    subject: &ReportSubject<'_>,
    fault: SpecFault,
) -> Result<(), AllocError> {
    let diagnosis = diagnose(alloc, subject.source, fault)?;
    let words = sentence(alloc, &diagnosis, subject.source)?;
    let finding = Finding {
        severity: Severity::Error,
        place: place_of(&diagnosis.place),
        code: code_word(diagnosis.cause).as_bytes(),
        words: &words,
        name: name_of_cause(diagnosis.cause).as_bytes(),
    };
    push_result(text, subject.file, &finding)
}

fn push_large_result(
    text: &mut Vec<u8>,
    subject: &ReportSubject<'_>,
    code: &str,
) -> Result<(), AllocError> {
    let finding = Finding {
        severity: Severity::Error,
        place: ReportPlace {
            line: 0,
            column: 0,
            width: 0,
        },
        code: code.as_bytes(),
        words: words_of(code).as_bytes(),
        name: b"",
    };
    push_result(text, subject.file, &finding)
}

fn push_error_result(
    alloc: Global,
    text: &mut Vec<u8>,
    subject: &ReportSubject<'_>,
    fault: TextFault,
) -> Result<(), AllocError> {
    match fault {
        TextFault::Specification(fault) => push_fault_result(alloc, text, subject, fault),
        TextFault::TooManyPositions => push_large_result(text, subject, "E30"),
        TextFault::TooManySets => push_large_result(text, subject, "E31"),
    }
}

fn push_warning_result(
    text: &mut Vec<u8>,
    subject: &ReportSubject<'_>,
    warning: &Warning,
) -> Result<(), AllocError> {
    let finding = Finding {
        severity: Severity::Warning,
        place: place_of(&warning.place),
        code: b"",
        words: &warning.words,
        name: name_of(warning.kind).as_bytes(),
    };
    push_result(text, subject.file, &finding)
}

fn push_entry_result(
    alloc: Global,
    text: &mut Vec<u8>,
    subject: &ReportSubject<'_>,
    rest: &Rest,
    entry: Entry,
) -> Result<(), AllocError> {
    match entry {
        Entry::Error(fault) => push_error_result(alloc, text, subject, fault),
        Entry::Warning(number) => {
            if number < rest.warnings.told.len() {
                return push_warning_result(text, subject, &rest.warnings.told[number]);
            }
            Ok(())
        }
    }
}

// Appends the errors and warnings of a rejected text. Returns the number of warnings.
fn push_error_results(
    alloc: Global,
    text: &mut Vec<u8>,
    subject: &ReportSubject<'_>,
    faults: &[TextFault],
) -> Result<usize, AllocError> {
    let Some((first, more)) = faults.split_first() else {
        return Ok(0);
    };
    push_error_result(alloc, text, subject, *first)?;
    let rest = rest_of(alloc, subject, *first, more)?;
    for entry in &rest.entries {
        push(text, b",\n")?;
        push_entry_result(alloc, text, subject, &rest, *entry)?;
    }
    Ok(rest.warnings.count)
}

fn push_warning_results(
    alloc: Global,
    text: &mut Vec<u8>,
    subject: &ReportSubject<'_>,
    accepted: &Accepted,
) -> Result<usize, AllocError> {
    let warnings = warnings_in(alloc, subject, accepted)?;
    for i in 0..warnings.told.len() {
        // a comma separates two results
        if 0 < i {
            push(text, b",\n")?;
        }
        push_warning_result(text, subject, &warnings.told[i])?;
    }
    Ok(warnings.count)
}

/// Makes the SARIF 2.1.0 output on a specification's text from its report. `version` is that of the program. Err: an allocation failed.
pub fn sarif_of(
    alloc: Global,
    subject: &ReportSubject<'_>,
    version: &[u8],
    report: &Report,
) -> Result<Said, AllocError> {
    let mut text = Vec::new(alloc);
    push_sarif_start(&mut text, version)?;
    let warnings = match report {
        Report::Refused(faults) => { push_error_results(alloc, &mut text, subject, faults)? }
        Report::Accepted(accepted) => { push_warning_results(alloc, &mut text, subject, accepted)? }
    };
    push_sarif_end(&mut text)?;
    Ok(Said { text, warnings })
}
