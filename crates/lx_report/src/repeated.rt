//! Faults that repeat what an earlier one says.

use lx_check::TextFault;
use lx_diagnose::causes::LineCause;
use lx_diagnose::scan::part;
use lx_diagnose::{Cause, Diagnosis, TextPlace, diagnose};
use std::alloc::{AllocError, Global};

fn is_same_place(place: Option<TextPlace>, other: Option<TextPlace>) -> bool {
    match (place, other) {
        (Some(place), Some(other)) => place.line == other.line && place.column == other.column,
        _ => false,
    }
}

// Returns true if both report the same definition as unreadable or nested too deep, or the same name as undefined or undeclared.
fn is_same(source: &[u8], this: &Diagnosis, other: &Diagnosis) -> bool {
    match (this.cause, other.cause) {
        (Cause::NoReading(_), Cause::NoReading(_)) | (Cause::TooDeep(_), Cause::TooDeep(_)) => {
            is_same_place(this.note, other.note)
        }
        (Cause::Undefined(_), Cause::Undefined(_))
        | (Cause::NoCondition(_), Cause::NoCondition(_)) => {
            part(source, this.name) == part(source, other.name)
        }
        _ => false,
    }
}

fn is_among(source: &[u8], told: &[Diagnosis], diagnosis: &Diagnosis) -> bool {
    for other in told {
        if is_same(source, diagnosis, other) {
            return true;
        }
    }
    false
}

// Returns true if a finding says something that wasn't reported yet. Then notes it as reported.
fn note_as_new(
    alloc: Global,
    source: &[u8],
    told: &mut Vec<Diagnosis>,
    finding: TextFault,
) -> Result<bool, AllocError> {
    let TextFault::Specification(fault) = finding else {
        return Ok(true);
    };
    let diagnosis = diagnose(alloc, source, fault)?;
    if is_among(source, told, &diagnosis) {
        return Ok(false);
    }
    told.push(diagnosis)?;
    Ok(true)
}

// Returns true if the text has tables instead of a specification.
fn are_tables(told: &[Diagnosis]) -> bool {
    match told.first() {
        Some(diagnosis) => matches!(diagnosis.cause, Cause::NoForm(LineCause::TablesGiven)),
        None => false,
    }
}

/// Returns the further findings that say something new. An unreadable definition is reported with the first rule that reaches it, and a missing name
/// at its first use. If the text is that of tables, nothing else is reported.
pub(crate) fn new_findings(
    alloc: Global,
    source: &[u8],
    first: TextFault,
    more: &[TextFault],
) -> Result<Vec<TextFault>, AllocError> {
    let mut told = Vec::new(alloc);
    note_as_new(alloc, source, &mut told, first)?;
    let mut new = Vec::new(alloc);
    if are_tables(&told) {
        return Ok(new);
    }
    for finding in more {
        if note_as_new(alloc, source, &mut told, *finding)? {
            new.push(*finding)?;
        }
    }
    Ok(new)
}
