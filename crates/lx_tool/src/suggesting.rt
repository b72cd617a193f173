//! Further lines of an error about an unknown word: the most similar word, and all that are known.

use lx_diagnose::{Nearest, all_topics};
use lx_tables::Tables;
use lx_warnings::{ALL, name_of};
use std::alloc::AllocError;
use std::io::Write;

// Limits of the list of kinds: it ends after this number of names, or once it has this number of bytes.
const MOST_LISTED: u32 = 40;

const MOST_BYTES: usize = 400;

const FORMATS: [&str; 2] = ["text", "json"];

// Adds the known word that is most similar to the unknown one.
fn push_nearest(notes: &mut Vec<u8>, nearest: Nearest<'_>) -> Result<(), AllocError> {
    match nearest.name() {
        Some(name) => {
            notes.extend_from_slice(b"lx: did you mean ")?;
            notes.extend_from_slice(name)?;
            notes.extend_from_slice(b"?\n")
        }
        None => Ok(()),
    }
}

// Returns the name at the start of a paragraph of `explain`.
fn name_of_topic(topic: &str) -> &str {
    let line = topic.trim_start().lines().next().unwrap_or("");
    line.split(" ").next().unwrap_or("")
}

// Returns the cause of a word as `E10/brackets-open`, which reports in JSON have, or the word itself.
fn cause_of(word: &str) -> &str {
    let mut parts = word.split("/");
    match (parts.next(), parts.next()) {
        (Some(_), Some(cause)) => cause,
        _ => word,
    }
}

fn push_topics(notes: &mut Vec<u8>, word: &str) -> Result<(), AllocError> {
    let cause = cause_of(word).as_bytes();
    let mut nearest = Nearest::to(cause);
    for topic in all_topics() {
        nearest = nearest.or(cause, name_of_topic(topic).as_bytes());
    }
    push_nearest(notes, nearest)?;
    notes.extend_from_slice(b"lx: lx explain lists all codes and causes\n")
}

fn nearest_kind<'t>(tables: &'t Tables, word: &str) -> Nearest<'t> {
    let mut nearest = Nearest::to(word.as_bytes());
    for kind in 0..tables.kinds() {
        nearest = nearest.or(word.as_bytes(), tables.kind(kind));
    }
    nearest
}

// Lists the names of the kinds.
fn push_kinds(notes: &mut Vec<u8>, tables: &Tables) -> Result<(), AllocError> {
    let start = notes.len();
    notes.extend_from_slice(b"lx: the named kinds are ")?;
    for kind in 0..tables.kinds() {
        if kind >= MOST_LISTED || notes.len().saturating_sub(start) > MOST_BYTES {
            return notes.extend_from_slice(b", and more\n");
        }
        if 0 < kind {
            notes.extend_from_slice(b", ")?;
        }
        notes.extend_from_slice(tables.kind(kind))?;
    }
    notes.extend_from_slice(b"\n")
}

fn push_kind_lines(notes: &mut Vec<u8>, tables: &Tables, word: &str) -> Result<(), AllocError> {
    push_nearest(notes, nearest_kind(tables, word))?;
    if tables.kinds() == 0 {
        return notes.extend_from_slice(b"lx: no kind has a name\n");
    }
    push_kinds(notes, tables)
}

/// Suggests a code or a cause if the word is none. Leaves the lines out if an allocation fails.
pub(crate) fn note_topics(notes: &mut Vec<u8>, word: &str) {
    if push_topics(notes, word).is_err() {
        notes.clear();
    }
}

/// Suggests a kind of the tables if the word is none, and lists them.
pub(crate) fn note_kinds(notes: &mut Vec<u8>, tables: &Tables, word: &str) {
    if push_kind_lines(notes, tables, word).is_err() {
        notes.clear();
    }
}

// Reports the known word that is most similar to the unknown one.
fn tell_nearest<E: Write>(before: &str, nearest: Nearest<'_>, err: &mut E) {
    if let Some(name) = nearest.name() {
        let _ = writeln!(
            err,
            "lx: did you mean {before}{}?",
            str::from_utf8(name).unwrap_or("")
        );
    }
}

/// Suggests a format if the word is none, and lists them.
pub(crate) fn tell_formats<E: Write>(word: &str, err: &mut E) {
    let mut nearest = Nearest::to(word.as_bytes());
    for format in &FORMATS {
        nearest = nearest.or(word.as_bytes(), format.as_bytes());
    }
    tell_nearest("", nearest, err);
    let _ = writeln!(err, "lx: the formats are text and json");
}

fn tell_nearest_warning<E: Write>(before: &str, name: &str, err: &mut E) {
    let mut nearest = Nearest::to(name.as_bytes());
    for kind in &ALL {
        nearest = nearest.or(name.as_bytes(), name_of(*kind).as_bytes());
    }
    tell_nearest(before, nearest, err);
}

/// Suggests a warning if a word of `-W` names none.
pub(crate) fn tell_warnings<E: Write>(word: &str, err: &mut E) {
    match word.strip_prefix("no-") {
        Some(name) => tell_nearest_warning("no-", name, err),
        None => tell_nearest_warning("", word, err),
    }
    let _ = write!(err, "lx: the warnings are all, error");
    for kind in &ALL {
        let _ = write!(err, ", {}", name_of(*kind));
    }
    let _ = writeln!(err);
}
