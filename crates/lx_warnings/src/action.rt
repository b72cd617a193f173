//! Suspicious parts of actions.

use crate::kinds::{KindSet, WarningKind};
use crate::suspects::{SuspectSearch, push_part};
use lx_diagnose::Span;
use lx_diagnose::words::words_of;
use lx_spec::action::{Statement, Turn, turn_at};
use lx_spec::word::Word;
use std::alloc::AllocError;

// Returns the number of the first word of a statement that has an effect and comes after a return, if there is one.
fn dead_word(words: &[Word]) -> Option<usize> {
    let mut at: usize = 0;
    let mut has_returned = false;
    for _ in 0..words.len() {
        if at >= words.len() {
            return None;
        }
        match turn_at(&words[at..]) {
            Turn::Finished | Turn::NoStatement => return None,
            Turn::Opens | Turn::Closes => at += 1,
            Turn::States(statement, n) => {
                if has_returned && !matches!(statement, Statement::Nothing) {
                    return Some(at);
                }
                has_returned = has_returned || matches!(statement, Statement::Return(_));
                at = at.saturating_add(n);
            }
        }
    }
    None
}

/// Examines a well-formed action.
pub(crate) fn look_at_action(
    search: &mut SuspectSearch<'_>,
    allowed: &KindSet,
    action: Span,
) -> Result<(), AllocError> {
    let alloc = search.alloc;
    let text = search.text;
    let words = words_of(alloc, text, action)?;
    match dead_word(&words.words) {
        Some(number) if number < words.places.len() => push_part(
            search,
            allowed,
            WarningKind::DeadStatement,
            words.places[number],
            "what comes after a return is never done",
        ),
        _ => Ok(()),
    }
}
