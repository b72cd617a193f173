//! Explains a code or a cause.

ghost use Rattle.std.specs.Prelude.{◌≡◌, true, nat_eq, IfSome};
ghost use Rattle.std.specs.List.{starts_with};

use crate::topics::TOPICS;
use std::str::Split;

// Marks before the words of a topic, and before what to do.
const INDENT: &str = "    ";

const TO_DO: &str = "    To do: ";

// Returns the first piece of a text that begins with `word` and then `behind`. The separator cuts the text into pieces.
fn piece_of<'a>(text: &'a str, separator: &str, word: &str, behind: &str) -> Option<&'a str>
    ensures { IfSome result (λ piece. starts_with nat_eq piece.now word.now ≡ true) }
{
    for piece in text.split(separator) {
        if piece.starts_with(word) && piece[word.len()..].starts_with(behind) {
            return Some(piece);
        }
    }
    None
}

/// Explains a code with all its causes, or the cause with this name: what is wrong, what to do, and mostly an example. The last line has no newline.
/// The explanation begins with the word. Returns `None` if the word is neither.
pub fn explain(word: &str) -> Option<&'static str>
    ensures { IfSome result (λ said. starts_with nat_eq said.now word.now ≡ true) }
{
    if let Some(code) = piece_of(TOPICS, "\n\n\n", word, "\n") {
        return Some(code);
    }
    piece_of(TOPICS, "\n\n", word, " (")
}

/// Iterates over each code and each cause: its name, and what is wrong.
pub fn all_topics() -> Split<'static, &'static str> {
    TOPICS.split("\n\n")
}

// Returns the rest of the first line that begins with `begin`.
fn rest_of_line(text: &'static str, begin: &str) -> &'static str {
    for line in text.split("\n") {
        if let Some(rest) = line.strip_prefix(begin) {
            return rest;
        }
    }
    ""
}

/// Returns in one line what is wrong, if the word is a code or the name of a cause. Otherwise the result is empty.
pub fn words_of(word: &str) -> &'static str {
    match explain(word) {
        Some(said) => rest_of_line(said, INDENT),
        None => "",
    }
}

/// Returns in one line what to do, if the word is a code or the name of a cause. Otherwise the result is empty.
pub fn advice_of(word: &str) -> &'static str {
    match explain(word) {
        Some(said) => rest_of_line(said, TO_DO),
        None => "",
    }
}
