//! Patterns and substitutes, examined lexeme by lexeme.

use crate::branches::{branches_at, take_lexeme};
use crate::kinds::KindSet;
use crate::lexemes::look_at_lexeme;
use crate::suspects::{SuspectSearch, push_once};
use lx_diagnose::Span;
use lx_diagnose::places::between;
use lx_diagnose::scan::{is_at, part};
use lx_ere::lexeme::lexeme_at;
use std::alloc::AllocError;

// Returns the position after the `^` of a pattern, if it has one.
fn skip_caret(text: &[u8], pattern: Span) -> usize {
    if is_at(text, pattern.start, b'^') {
        pattern.start.saturating_add(1)
    } else {
        pattern.start
    }
}

// Adds the suspicious lexemes of a pattern, up to the first unreadable one.
fn look_at_lexemes(
    search: &mut SuspectSearch<'_>,
    allowed: &KindSet,
    pattern: Span,
) -> Result<(), AllocError> {
    let alloc = search.alloc;
    let text = search.text;
    let start = skip_caret(text, pattern);
    let end = pattern.end();
    let mut branches = branches_at(alloc, start);
    let mut rest = part(text, between(start, end));
    for _ in 0..pattern.len {
        let Some((lexeme, behind)) = lexeme_at(alloc, rest)? else {
            break;
        };
        let at = between(
            end.saturating_sub(rest.len()),
            end.saturating_sub(behind.len()),
        );
        look_at_lexeme(search, allowed, &branches, &lexeme, at)?;
        take_lexeme(&mut branches, &lexeme, at)?;
        rest = behind;
    }
    Ok(())
}

/// Examines a pattern or a substitute. Reports repeated findings in it once.
pub(crate) fn look_at_pattern(
    search: &mut SuspectSearch<'_>,
    allowed: &KindSet,
    pattern: Span,
) -> Result<(), AllocError> {
    let mut here = SuspectSearch::new(search.alloc, search.text);
    look_at_lexemes(&mut here, allowed, pattern)?;
    let first = search.found.len();
    for suspect in &here.found {
        push_once(search, first, *suspect)?;
    }
    Ok(())
}
