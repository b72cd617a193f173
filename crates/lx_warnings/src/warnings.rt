//! Warnings, each with its place and its text.

ghost use Rattle.std.specs.Prelude.{◌≡◌, ◌<◌, All, IfOk, length, min, true};
ghost use Rattle.lx_diagnose.specs.Printed.{ArePrinted};
ghost use Rattle.lx_warnings.specs.Kinds.{has_kind};
ghost use Rattle.lx_warnings.specs.Told.{IsTold};

use crate::kinds::{KindSet, WarningKind};
use crate::layout::layout_of;
use crate::never_chosen::phrase_and_example;
use crate::suspects::{Subject, Suspect, SuspectSearch};
use crate::suspicion::{look_at_lines, look_at_text};
use crate::untaken::untaken_bytes;
use lx_diagnose::TextPlace;
use lx_diagnose::lines::place_of;
use lx_diagnose::scan::part;
use lx_diagnose::wording::{Fillings, fill, or_question_mark, shown_bytes};
use lx_reach::Takers;
use lx_spec::Spec;
use lx_tables::Tables;
use std::alloc::{AllocError, Global};

/// Facts about an accepted text.
#[derive(Clone, Copy)]
pub struct Known<'k> {
    /// Specification in the text, and its tables.
    pub spec: &'k Spec,
    pub tables: &'k Tables,
    /// For each rule, true if it is ever chosen.
    pub chosen: &'k [bool],
    /// For each condition, true if it is entered.
    pub entered: &'k [bool],
    /// Rules that take the texts of some rules that are never chosen.
    pub takers: &'k [Takers],
}

/// A warning: its kind, its place, and its text in one line.
#[derive(Drop)]
pub struct Warning {
    pub kind: WarningKind,
    pub place: TextPlace,
    pub words: Vec<u8>,
}

/// The first warnings of a text, and the number of all of them.
#[derive(Drop)]
pub struct Warnings {
    pub told: Vec<Warning>,
    pub count: usize,
}

fn untaken_in(alloc: Global, tables: &Tables, condition: u16) -> Result<Vec<u8>, AllocError> {
    if condition < tables.conditions() {
        untaken_bytes(alloc, tables, condition)
    } else {
        Ok(Vec::new(alloc))
    }
}

fn name_in(spec: &Spec, condition: u16) -> &[u8] {
    let condition = usize::from(condition);
    if condition < spec.conditions.len() {
        &spec.conditions[condition].name
    } else {
        b""
    }
}

// Makes the warning on the bytes that no rule takes in a condition.
fn untaken_words(alloc: Global, known: &Known<'_>, condition: u16) -> Result<Vec<u8>, AllocError>
    ensures { IfOk result (λ words. ArePrinted words.items) }
{
    let mut words = Vec::from_slice(alloc, b"in ")?;
    words.extend_from_slice(name_in(known.spec, condition))?;
    words.extend_from_slice(b" no rule takes [")?;
    words.extend_from_slice(&untaken_in(alloc, known.tables, condition)?)?;
    words.extend_from_slice(b"]: such bytes are echoed")?;
    shown_bytes(alloc, &words)
}

// Fills `@` and `~` of a phrase.
fn filled_with(
    alloc: Global,
    phrase: &[u8],
    name: &[u8],
    other: &[u8],
) -> Result<Vec<u8>, AllocError>
    ensures { IfOk result (λ words. ArePrinted words.items) }
{
    let fillings = Fillings {
        name,
        other,
        line: 0,
    };
    fill(alloc, phrase, &fillings)
}

// Makes the text of a finding. Without known facts, for a rejected text, no phrase needs them.
fn text_of_finding(
    alloc: Global,
    text: &[u8],
    known: Option<&Known<'_>>,
    suspect: &Suspect,
) -> Result<Vec<u8>, AllocError>
    ensures { IfOk result (λ words. ArePrinted words.items) }
{
    let phrase = suspect.phrase.as_bytes();
    match (suspect.subject, known) {
        (Subject::Parts(name, other), _) => {
            filled_with(alloc, phrase, part(text, name), part(text, other))
        }
        (Subject::Byte(byte), _) => filled_with(alloc, phrase, &[byte], b""),
        (Subject::Untaken(condition), Some(known)) => { untaken_words(alloc, known, condition) }
        (Subject::Takers(rule), Some(known)) => {
            let (phrase, example) = phrase_and_example(alloc, known, rule)?;
            filled_with(alloc, &phrase, example, b"")
        }
        _ => filled_with(alloc, phrase, b"", b""),
    }
}

fn warning_of(
    alloc: Global,
    text: &[u8],
    known: Option<&Known<'_>>,
    suspect: &Suspect,
) -> Result<Warning, AllocError>
    ensures told { IfOk result (IsTold text.now) }
    ensures kind { IfOk result (λ warning. warning.kind ≡ suspect.now.kind) }
{
    let words = or_question_mark(text_of_finding(alloc, text, known, suspect)?)?;
    Ok(Warning {
        kind: suspect.kind,
        place: place_of(text, suspect.at),
        words,
    })
}

// Selects the findings of the requested kinds. Returns the first ones with their text, and the number of all of them.
fn first_findings(
    alloc: Global,
    text: &[u8],
    known: Option<&Known<'_>>,
    suspects: &[Suspect],
    asked: &KindSet,
    most: usize,
) -> Result<Warnings, AllocError>
    ensures told { IfOk result (λ warnings. All (IsTold text.now) warnings.told.items) }
    ensures asked { IfOk result
        (λ warnings. All (λ warning. has_kind asked.now warning.kind ≡ true) warnings.told.items) }
    ensures most { IfOk result (λ warnings. length warnings.told.items ≡ min warnings.count most) }
{
    let mut told = Vec::new(alloc);
    let mut count: usize = 0;
    for suspect in suspects {
        if !asked.contains(suspect.kind) {
            continue;
        }
        count = count.saturating_add(1);
        if told.len() < most {
            told.push(warning_of(alloc, text, known, suspect)?)?;
        }
    }
    Ok(Warnings { told, count })
}

/// Returns the warnings of an accepted text, ordered by their places, of the requested kinds: the first `most`, and the number of all of them. Err:
/// an allocation failed.
///
/// If the text isn't accepted, or the facts aren't true of it, the warnings are useless, but their places are in the text.
pub fn warnings_of(
    alloc: Global,
    text: &[u8],
    known: &Known<'_>,
    asked: &KindSet,
    most: usize,
) -> Result<Warnings, AllocError>
    ensures told { IfOk result (λ warnings. All (IsTold text.now) warnings.told.items) }
    ensures asked { IfOk result
        (λ warnings. All (λ warning. has_kind asked.now warning.kind ≡ true) warnings.told.items) }
    ensures most { IfOk result (λ warnings. length warnings.told.items ≡ min warnings.count most) }
{
    let layout = layout_of(alloc, text)?;
    let mut search = SuspectSearch::new(alloc, text);
    look_at_text(&mut search, asked, &layout, known)?;
    search.found.sort_by_key(|suspect| suspect.at.start)?;
    first_findings(alloc, text, Some(known), &search.found, asked, most)
}

// Returns the findings that are on none of these lines.
fn off_lines(
    alloc: Global,
    text: &[u8],
    suspects: &[Suspect],
    lines: &[u32],
) -> Result<Vec<Suspect>, AllocError> {
    let mut kept = Vec::new(alloc);
    for suspect in suspects {
        if !lines.contains(&place_of(text, suspect.at).line) {
            kept.push(*suspect)?;
        }
    }
    Ok(kept)
}

/// Returns the warnings of a rejected text whose sections are well-formed. They need no more than the lines of the text. They are of the requested
/// kinds, ordered by their places, without those on the given lines, which have errors. Returns the first `most`, and the number of all of them. Err:
/// an allocation failed.
pub fn warnings_of_rejected(
    alloc: Global,
    text: &[u8],
    lines: &[u32],
    asked: &KindSet,
    most: usize,
) -> Result<Warnings, AllocError>
    ensures told { IfOk result (λ warnings. All (IsTold text.now) warnings.told.items) }
    ensures asked { IfOk result
        (λ warnings. All (λ warning. has_kind asked.now warning.kind ≡ true) warnings.told.items) }
    ensures most { IfOk result (λ warnings. length warnings.told.items ≡ min warnings.count most) }
{
    let layout = layout_of(alloc, text)?;
    let mut search = SuspectSearch::new(alloc, text);
    look_at_lines(&mut search, &layout, None)?;
    let mut kept = off_lines(alloc, text, &search.found, lines)?;
    kept.sort_by_key(|suspect| suspect.at.start)?;
    first_findings(alloc, text, None, &kept, asked, most)
}
