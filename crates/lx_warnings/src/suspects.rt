//! Findings without their text.

use crate::kinds::{KindSet, WarningKind};
use lx_diagnose::Span;
use lx_diagnose::scan::part;
use std::alloc::{AllocError, Global};

/// The parts that are put into a phrase.
#[derive(Clone, Copy)]
pub(crate) enum Subject {
    /// Two parts of the text, for `@` and for `~`.
    Parts(Span, Span),
    /// One byte, for `@`.
    Byte(u8),
    /// No part: the phrase is about the bytes that no rule takes in the condition with this number.
    Untaken(u16),
    /// No part: the phrase is about the rules that take the texts of the rule with this number.
    Takers(usize),
}

/// A finding: its kind and place, and a phrase with the parts that are put into it.
#[derive(Clone, Copy)]
pub(crate) struct Suspect {
    pub kind: WarningKind,
    pub at: Span,
    pub phrase: &'static str,
    pub subject: Subject,
}

/// A search for what is suspicious in a text.
#[derive(Drop)]
pub(crate) struct SuspectSearch<'t> {
    pub alloc: Global,
    pub text: &'t [u8],
    pub found: Vec<Suspect>,
}

impl<'t> SuspectSearch<'t> {
    /// Returns a search that has found nothing.
    pub fn new(alloc: Global, text: &'t [u8]) -> SuspectSearch<'t> {
        SuspectSearch {
            alloc,
            text,
            found: Vec::new(alloc),
        }
    }
}

/// Returns a finding on a part of the text, which is itself the word in the phrase.
pub(crate) fn suspect_at(kind: WarningKind, at: Span, phrase: &'static str) -> Suspect {
    Suspect {
        kind,
        at,
        phrase,
        subject: Subject::Parts(at, at),
    }
}

/// Adds such a finding, unless its kind is allowed.
pub(crate) fn push_part(
    search: &mut SuspectSearch<'_>,
    allowed: &KindSet,
    kind: WarningKind,
    at: Span,
    phrase: &'static str,
) -> Result<(), AllocError> {
    push_suspect(search, allowed, suspect_at(kind, at, phrase))
}

/// Adds a finding, unless its kind is allowed.
pub(crate) fn push_suspect(
    search: &mut SuspectSearch<'_>,
    allowed: &KindSet,
    suspect: Suspect,
) -> Result<(), AllocError> {
    if !allowed.contains(suspect.kind) {
        search.found.push(suspect)?;
    }
    Ok(())
}

// Returns true if both report the same about the same words. One interval that repeats more than in flex represents all of them.
fn is_again(text: &[u8], suspect: &Suspect, other: &Suspect) -> bool {
    suspect.phrase == other.phrase
        && (matches!(suspect.kind, WarningKind::Interval)
            || part(text, suspect.at) == part(text, other.at))
}

/// Adds a finding, unless the same one is already there from number `first` on.
pub(crate) fn push_once(
    search: &mut SuspectSearch<'_>,
    first: usize,
    suspect: Suspect,
) -> Result<(), AllocError> {
    let text = search.text;
    for i in first..search.found.len() {
        if is_again(text, &suspect, &search.found[i]) {
            return Ok(());
        }
    }
    search.found.push(suspect)?;
    Ok(())
}
