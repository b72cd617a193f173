//! Reports the warnings and the sizes of an accepted specification.

ghost use Rattle.std.specs.Prelude.{◌≡◌, ◌<◌, [], IfOk, OnOk, length, min};
ghost use Rattle.lx_warnings.specs.Kinds.{has_kind};
ghost use Rattle.lx_report.specs.Said.{Extends, AreAsked, BeginsWithWarning, TellsSummary, TellsWarning, TellsWarnings};

use crate::Severity;
use crate::pieces::{place_of, push_count, push_line, push_shown_and, push_source};
use crate::subject::ReportSubject;
use lx_check::{Accepted, Counts};
use lx_warnings::{Known, Warning, Warnings, name_of, untaken_bytes, warnings_of};
use std::alloc::{AllocError, Global};

/// Greatest number of warnings that are reported. Further ones are only counted.
pub(crate) const MOST_TOLD: usize = 100;

/// Collects the warnings that are asked for, ordered by their places.
pub(crate) fn warnings_in(
    alloc: Global,
    subject: &ReportSubject<'_>,
    accepted: &Accepted,
) -> Result<Warnings, AllocError>
    ensures asked { IfOk result (λ warnings. AreAsked subject.now.asked warnings.told.items) }
    ensures most { IfOk result (λ warnings. length warnings.told.items ≡ min warnings.count 100) }
{
    let known = Known {
        spec: &accepted.spec,
        tables: &accepted.tables,
        chosen: &accepted.chosen,
        entered: &accepted.entered,
        takers: &accepted.takers,
    };
    warnings_of(alloc, subject.source, &known, &subject.asked, MOST_TOLD)
}

/// Appends a warning, with the source line.
pub(crate) fn push_warning(
    alloc: Global,
    text: &mut Vec<u8>,
    subject: &ReportSubject<'_>,
    warning: &Warning,
) -> Result<(), AllocError>
    ensures tells { OnOk result
        (TellsWarning subject.now.file.now warning.now.kind text.old.items text.new.items) }
    ensures extends { OnOk result (Extends text.old.items text.new.items) }
{
    push_line(
        text,
        subject.file,
        Severity::Warning,
        place_of(&warning.place),
        b"",
        &warning.words,
        name_of(warning.kind).as_bytes(),
    )?;
    if subject.quiet {
        return Ok(());
    }
    push_source(alloc, text, subject.source, &warning.place)
}

fn push_all(
    alloc: Global,
    text: &mut Vec<u8>,
    subject: &ReportSubject<'_>,
    warnings: &[Warning],
) -> Result<(), AllocError>
    ensures { OnOk result (Extends text.old.items text.new.items) }
{
    for warning in warnings {
        push_warning(alloc, text, subject, warning)?;
    }
    Ok(())
}

// Appends the warnings of a specification. Returns their number.
fn push_warnings(
    alloc: Global,
    text: &mut Vec<u8>,
    subject: &ReportSubject<'_>,
    accepted: &Accepted,
) -> Result<usize, AllocError>
    ensures none { IfOk result (λ count. count ≡ 0 → text.new.items ≡ text.old.items) }
    ensures first { IfOk result (λ count.
        0 < count → text.old.items ≡ []
        → BeginsWithWarning subject.now.file.now (has_kind subject.now.asked) text.new.items) }
{
    let warnings = warnings_in(alloc, subject, accepted)?;
    let Some((first, more)) = warnings.told.split_first() else {
        return Ok(warnings.count);
    };
    push_warning(alloc, text, subject, first)?;
    push_all(alloc, text, subject, more)?;
    Ok(warnings.count)
}

// Appends the sizes of the specification.
#[tactic(auto, using(crate::proofs::Telling::extends_more))]
fn push_counts(text: &mut Vec<u8>, counts: &Counts) -> Result<(), AllocError>
    ensures { OnOk result (Extends text.old.items text.new.items) }
{
    push_count(text, counts.rules as usize, b" rule, ", b" rules, ")?;
    push_count(
        text,
        counts.definitions as usize,
        b" definition, ",
        b" definitions, ",
    )?;
    push_count(
        text,
        counts.conditions as usize,
        b" condition; ",
        b" conditions; ",
    )?;
    push_count(
        text,
        counts.positions as usize,
        b" position, ",
        b" positions, ",
    )?;
    push_count(text, counts.states as usize, b" state, ", b" states, ")?;
    push_count(
        text,
        counts.classes as usize,
        b" byte class; ",
        b" byte classes; ",
    )
}

// Appends the bytes that no rule takes in a condition, if there are some.
fn push_echoed(
    alloc: Global,
    text: &mut Vec<u8>,
    subject: &ReportSubject<'_>,
    accepted: &Accepted,
    condition: u16,
) -> Result<(), AllocError>
    ensures { OnOk result (Extends text.old.items text.new.items) }
{
    if condition >= accepted.tables.conditions()
        || usize::from(condition) >= accepted.spec.conditions.len()
    {
        return Ok(());
    }
    let bytes = untaken_bytes(alloc, &accepted.tables, condition)?;
    if bytes.is_empty() {
        return Ok(());
    }
    let name = &accepted.spec.conditions[usize::from(condition)].name;
    push_shown_and(text, subject.file, b": in ")?;
    push_shown_and(text, name, b" no rule takes [")?;
    push_shown_and(text, &bytes, b"]: such bytes are echoed\n")
}

// Appends the bytes that no rule takes in each condition that is entered.
#[tactic(auto, using(crate::proofs::Telling::extends_itself, crate::proofs::Telling::extends_more))]
fn push_all_echoed(
    alloc: Global,
    text: &mut Vec<u8>,
    subject: &ReportSubject<'_>,
    accepted: &Accepted,
) -> Result<(), AllocError>
    ensures { OnOk result (Extends text.old.items text.new.items) }
{
    for condition in 0..accepted.tables.conditions() {
        if usize::from(condition) < accepted.entered.len()
            && accepted.entered[usize::from(condition)]
        {
            push_echoed(alloc, text, subject, accepted, condition)?;
        }
    }
    Ok(())
}

// Appends that the text is accepted, its sizes, and the echoed bytes.
fn push_summary(
    alloc: Global,
    text: &mut Vec<u8>,
    subject: &ReportSubject<'_>,
    accepted: &Accepted,
    warnings: usize,
) -> Result<(), AllocError>
    ensures { OnOk result (TellsSummary subject.now.file.now text.old.items text.new.items) }
{
    push_shown_and(text, subject.file, b": accepted: ")?;
    push_counts(text, &accepted.counts)?;
    push_count(text, warnings, b" warning\n", b" warnings\n")?;
    push_all_echoed(alloc, text, subject, accepted)
}

/// Appends the output on an accepted specification. Returns the number of its warnings.
pub(crate) fn push_accepted(
    alloc: Global,
    text: &mut Vec<u8>,
    subject: &ReportSubject<'_>,
    accepted: &Accepted,
) -> Result<usize, AllocError>
    ensures { IfOk result (λ count.
        text.old.items ≡ []
        → TellsWarnings subject.now.file.now subject.now.quiet (has_kind subject.now.asked) count
        text.new.items) }
{
    let count = push_warnings(alloc, text, subject, accepted)?;
    if subject.quiet {
        return Ok(count);
    }
    push_summary(alloc, text, subject, accepted, count)?;
    Ok(count)
}
