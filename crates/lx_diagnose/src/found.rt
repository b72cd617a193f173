//! The text that a cause refers to.

use crate::places::Span;

/// The part of the text with the fault, the parts that fill its sentence, and a second place.
#[derive(Clone, Copy)]
pub(crate) struct Found {
    pub at: Span,
    pub name: Span,
    pub other: Span,
    pub note: Option<Span>,
}

/// Returns a part of the text that is itself the word in the sentence.
pub(crate) fn found_at(at: Span) -> Found {
    Found {
        at,
        name: at,
        other: Span { start: 0, len: 0 },
        note: None,
    }
}

/// Returns a byte of the text that is itself the word in the sentence.
pub(crate) fn found_byte(at: usize) -> Found {
    found_at(Span { start: at, len: 1 })
}

/// Returns a part of the text with another part as the word in the sentence.
pub(crate) fn found_named(at: Span, name: Span) -> Found {
    Found {
        at,
        name,
        other: Span { start: 0, len: 0 },
        note: None,
    }
}

/// Returns a part of the text that is itself the word in the sentence, with a second place.
pub(crate) fn found_noted(at: Span, note: Span) -> Found {
    Found {
        at,
        name: at,
        other: Span { start: 0, len: 0 },
        note: Some(note),
    }
}
