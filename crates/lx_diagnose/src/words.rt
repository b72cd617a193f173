//! The words of an action with their places, and the first word that isn't part of a statement.

use crate::places::{Span, between};
use crate::scan::{is_at, part};
use lx_spec::action::{Turn, turn_at};
use lx_spec::word::{Word, WordConstruct, piece_at};
use std::alloc::{AllocError, Global};

/// The words of an action with their places, and the position where the text stops being words, if it does.
#[derive(Drop)]
pub struct PlacedWords<'t> {
    pub words: Vec<Word<'t>>,
    pub places: Vec<Span>,
    pub stop: Option<usize>,
}

// Skips a CR before an LF. The lines of an action are joined by LF only.
fn skip_return<'t>(text: &[u8], at: usize, rest: &'t [u8]) -> Option<&'t [u8]> {
    if is_at(text, at, b'\r') && is_at(text, at.saturating_add(1), b'\n') && !rest.is_empty() {
        Some(&rest[1..])
    } else {
        None
    }
}

/// Splits an action into words.
pub fn words_of<'t>(
    alloc: Global,
    text: &'t [u8],
    action: Span,
) -> Result<PlacedWords<'t>, AllocError> {
    let mut words = Vec::new(alloc);
    let mut places = Vec::new(alloc);
    let mut stop = None;
    let end = action.end();
    let mut rest = part(text, action);
    for _ in 0..=action.len {
        let at = end.saturating_sub(rest.len());
        match piece_at(rest) {
            WordConstruct::Ended => break,
            WordConstruct::Passed(behind) => rest = behind,
            WordConstruct::Found(word, behind) => {
                words.push(word)?;
                places.push(between(at, end.saturating_sub(behind.len())))?;
                rest = behind;
            }
            WordConstruct::NoWord => match skip_return(text, at, rest) {
                Some(behind) => rest = behind,
                None => {
                    stop = Some(at);
                    break;
                }
            },
        }
    }
    Ok(PlacedWords {
        words,
        places,
        stop,
    })
}

/// Returns the number of the first word that begins no statement, if there is one.
pub(crate) fn failing_word(words: &[Word]) -> Option<usize> {
    let mut at: usize = 0;
    let mut depth: usize = 0;
    for _ in 0..words.len() {
        if at >= words.len() {
            return None;
        }
        match turn_at(&words[at..]) {
            Turn::Finished => return None,
            Turn::Opens => {
                depth = depth.saturating_add(1);
                at += 1;
            }
            Turn::Closes => {
                if depth == 0 {
                    return Some(at);
                }
                depth -= 1;
                at += 1;
            }
            Turn::States(_, n) => at = at.saturating_add(n),
            Turn::NoStatement => return Some(at),
        }
    }
    None
}

/// Returns the place of a word. If there is no such word, returns the place where the words stop or end.
pub(crate) fn place_at(words: &PlacedWords, number: usize, end: usize) -> Span {
    if number < words.places.len() {
        return words.places[number];
    }
    match words.stop {
        Some(at) => Span { start: at, len: 1 },
        None => Span { start: end, len: 0 },
    }
}

/// Returns the position after the previous word.
pub(crate) fn end_of_previous(words: &PlacedWords, number: usize) -> usize {
    if number == 0 || number > words.places.len() {
        0
    } else {
        words.places[number - 1].end()
    }
}
