//! Reports faults of a specification as lines.

ghost use Rattle.std.specs.Prelude.{◌≡◌, OnOk};
ghost use Rattle.lx_diagnose.specs.Causes as diagnose;
ghost use Rattle.lx_diagnose.specs.CodeWords.{word_of};
ghost use Rattle.lx_report.specs.Said.{Extends, TellsFault, code_of, line_of};

use crate::pieces::{place_of, push_line, push_note, push_source};
use crate::subject::ReportSubject;
use crate::{ReportPlace, Severity};
use lx_check::TextFault;
use lx_diagnose::{
    Diagnosis, advice_of, code_word, diagnose, hint, note_words, sentence, words_of,
};
use lx_spec::SpecFault;
use std::alloc::{AllocError, Global};

// Appends what follows the line of a fault: the source line, what to do, and the second place of the fault.
fn push_details(
    alloc: Global,
    text: &mut Vec<u8>,
    subject: &ReportSubject<'_>,
    diagnosis: &Diagnosis,
) -> Result<(), AllocError>
    ensures { OnOk result (Extends text.old.items text.new.items) }
{
    push_source(alloc, text, subject.source, &diagnosis.place)?;
    push_note(
        text,
        subject.file,
        place_of(&diagnosis.place),
        hint(diagnosis.cause).as_bytes(),
    )?;
    match &diagnosis.note {
        Some(place) => {
            let words = note_words(diagnosis.cause);
            push_note(text, subject.file, place_of(place), words.as_bytes())
        }
        None => Ok(()),
    }
}

// Appends the line of a fault.
fn push_fault_line(
    alloc: Global,
    text: &mut Vec<u8>,
    subject: &ReportSubject<'_>,
    diagnosis: &Diagnosis,
    fault: SpecFault,
) -> Result<(), AllocError>
    requires code { diagnose.code_of diagnosis.now.cause ≡ fault.code }
    requires line { diagnosis.now.place.line ≡ fault.line }
    ensures { OnOk result (TellsFault subject.now.file.now (word_of fault.code) fault.line
        text.old.items text.new.items) }
{
    let words = sentence(alloc, diagnosis, subject.source)?;
    push_line(
        text,
        subject.file,
        Severity::Error,
        place_of(&diagnosis.place),
        code_word(diagnosis.cause).as_bytes(),
        &words,
        b"",
    )
}

// Appends a fault of the text, with its details.
fn push_fault(
    alloc: Global,
    text: &mut Vec<u8>,
    subject: &ReportSubject<'_>,
    fault: SpecFault,
) -> Result<(), AllocError>
    ensures { OnOk result (TellsFault subject.now.file.now (word_of fault.code) fault.line
        text.old.items text.new.items) }
{
    let diagnosis = diagnose(alloc, subject.source, fault)?;
    push_fault_line(alloc, text, subject, &diagnosis, fault)?;
    if subject.quiet {
        return Ok(());
    }
    push_details(alloc, text, subject, &diagnosis)
}

// Appends the fault of a specification that is too large. It has no line number.
fn push_too_large(
    text: &mut Vec<u8>,
    subject: &ReportSubject<'_>,
    code: &str,
) -> Result<(), AllocError>
    ensures { OnOk result (TellsFault subject.now.file.now code.now 0 text.old.items text.new.items) }
{
    let nowhere = ReportPlace {
        line: 0,
        column: 0,
        width: 0,
    };
    push_line(
        text,
        subject.file,
        Severity::Error,
        nowhere,
        code.as_bytes(),
        words_of(code).as_bytes(),
        b"",
    )?;
    if subject.quiet {
        return Ok(());
    }
    push_note(text, subject.file, nowhere, advice_of(code).as_bytes())
}

/// Appends a finding of a text that is rejected.
pub(crate) fn push_error(
    alloc: Global,
    text: &mut Vec<u8>,
    subject: &ReportSubject<'_>,
    finding: TextFault,
) -> Result<(), AllocError>
    ensures { OnOk result (TellsFault subject.now.file.now (code_of finding) (line_of finding)
        text.old.items text.new.items) }
{
    match finding {
        TextFault::Specification(fault) => push_fault(alloc, text, subject, fault),
        TextFault::TooManyPositions => push_too_large(text, subject, "E30"),
        TextFault::TooManySets => push_too_large(text, subject, "E31"),
    }
}
