//! Names in braces of patterns and substitutes, and the definitions to which they lead.

use crate::outline::{DefinitionLine, Outline};
use crate::places::{Span, between};
use crate::scan::{is_at, part};
use crate::sectioning::RuleExtent;
use lx_ere::lexeme::{Lexeme, lexeme_at};
use std::alloc::{AllocError, Global};

/// The number of a definition to which a rule leads, and the name in the rule that leads to it.
#[derive(Clone, Copy)]
pub(crate) struct Visit {
    pub definition: usize,
    pub via: Span,
}

/// Returns the names of an expression, with their braces, up to the first unreadable lexeme.
pub(crate) fn names_in(alloc: Global, text: &[u8], span: Span) -> Result<Vec<Span>, AllocError> {
    let mut names = Vec::new(alloc);
    let end = span.end();
    let mut rest = part(text, span);
    for _ in 0..span.len {
        let Some((lexeme, behind)) = lexeme_at(alloc, rest)? else {
            break;
        };
        if let Lexeme::Name(_) = lexeme {
            names.push(between(
                end.saturating_sub(rest.len()),
                end.saturating_sub(behind.len()),
            ))?;
        }
        rest = behind;
    }
    Ok(names)
}

/// Returns the text inside a name's braces.
pub(crate) fn inside(braces: Span) -> Span {
    Span {
        start: braces.start.saturating_add(1),
        len: braces.len.saturating_sub(2),
    }
}

/// Returns the expression of a rule's pattern, which comes after its `^`.
pub(crate) fn body_of(text: &[u8], pattern: Span) -> Span {
    if pattern.len > 0 && is_at(text, pattern.start, b'^') {
        between(pattern.start.saturating_add(1), pattern.end())
    } else {
        pattern
    }
}

/// Returns the number of the definition that a name in braces means.
pub(crate) fn number_of(outline: &Outline, text: &[u8], braces: Span) -> Option<usize> {
    outline.numbers.get(part(text, inside(braces))).copied()
}

/// Returns the substitute of a definition. The result is empty if there is no such definition.
pub(crate) fn substitute_of(definitions: &[DefinitionLine], number: usize) -> Span {
    if number < definitions.len() {
        definitions[number].substitute
    } else {
        Span { start: 0, len: 0 }
    }
}

// Adds the definitions of an expression's names that weren't visited yet. Without `via`, the expression is the rule's, and each name leads to itself.
fn add_visits(
    alloc: Global,
    outline: &Outline,
    text: &[u8],
    expression: Span,
    via: Option<Span>,
    seen: &mut [bool],
    visits: &mut Vec<Visit>,
) -> Result<(), AllocError> {
    for name in &names_in(alloc, text, expression)? {
        if let Some(definition) = number_of(outline, text, *name)
            && definition < seen.len()
            && !seen[definition]
        {
            seen[definition] = true;
            let via = via.unwrap_or(*name);
            visits.push(Visit { definition, via })?;
        }
    }
    Ok(())
}

/// Returns the definitions to which a rule leads, each once, those with shorter ways first.
pub(crate) fn visits_of(
    alloc: Global,
    outline: &Outline,
    text: &[u8],
    rule: RuleExtent,
) -> Result<Vec<Visit>, AllocError> {
    let count = outline.definitions.len();
    let mut visits = Vec::new(alloc);
    let mut seen = vec![in alloc; false; count]?;
    let body = body_of(text, rule.pattern);
    add_visits(alloc, outline, text, body, None, &mut seen, &mut visits)?;
    for at in 0..count {
        if at >= visits.len() {
            break;
        }
        let visit: Visit = visits[at];
        let substitute = substitute_of(&outline.definitions, visit.definition);
        let via = Some(visit.via);
        add_visits(
            alloc,
            outline,
            text,
            substitute,
            via,
            &mut seen,
            &mut visits,
        )?;
    }
    Ok(visits)
}
