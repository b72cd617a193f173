//! Finds the end of a rule's pattern (POSIX.1-2017, XCU `lex`, "Rules in lex").

ghost use Rattle.std.specs.Prelude.{◌≡◌, ◌≤◌, ◌&&◌, length, false, nat_eq, List, ℕ, MatchOption};
ghost use Rattle.lx_ere.specs.Brackets.{begins_with, opens_inner};
ghost use Rattle.lx_ere.specs.PatternEnd.{pattern_end};
ghost use Rattle.lx_ere.specs.PatternGrammar.{BehindQuotes, BehindMark, BehindBrackets, BehindPattern, IsPatternEnd, IsInner, skip_first, is_blank};

use crate::prefix::{begins_with, skip};

/// Returns the text after a quoted string, starting after its opening quote.
fn skip_quotes(text: &[u8]) -> &[u8]
    ensures behind { BehindQuotes text.now result.now }
    ensures shorter { length result.now ≤ length text.now }
{
    let mut rest = text;
    while let Some((first, behind)) = rest.split_first() {
        if *first == b'"' {
            return behind;
        }
        if *first == b'\\' {
            rest = skip(1, behind);
            continue;
        }
        rest = behind;
    }
    rest
}

/// Returns true if the byte is the mark, and a `]` follows directly.
fn closes(mark: u8, first: u8, behind: &[u8]) -> bool
    ensures { result ≡ (nat_eq first mark && begins_with 93 behind.now) }
{
    first == mark && begins_with(b']', behind)
}

/// Returns the text after the first mark that a `]` follows directly.
fn skip_to_closing_mark(mark: u8, text: &[u8]) -> &[u8]
    ensures behind { BehindMark mark text.now result.now }
    ensures shorter { length result.now ≤ length text.now }
{
    let mut rest = text;
    while let Some((first, behind)) = rest.split_first() {
        if closes(mark, *first, behind) {
            return skip(1, behind);
        }
        rest = behind;
    }
    rest
}

/// Returns the mark of `[:`, `[.` or `[=`, if one of them begins with this byte.
fn inner_mark(first: u8, behind: &[u8]) -> Option<u8>
    ensures { MatchOption result (opens_inner first behind.now ≡ false)
        (λ mark. IsInner mark first behind.now) }
{
    match behind {
        [mark, ..] if first == b'[' && (*mark == b':' || *mark == b'.' || *mark == b'=') => Some(
            *mark,
        ),
        _ => None,
    }
}

/// Returns the text after brackets, starting after their first `^` and `]`.
fn skip_brackets(text: &[u8]) -> &[u8]
    ensures behind { BehindBrackets text.now result.now }
    ensures shorter { length result.now ≤ length text.now }
{
    let mut rest = text;
    while let Some((first, behind)) = rest.split_first() {
        if *first == b']' {
            return behind;
        }
        if *first == b'\\' {
            rest = skip(1, behind);
            continue;
        }
        rest = match inner_mark(*first, behind) {
            Some(mark) => skip_to_closing_mark(mark, skip(2, behind)),
            None => behind,
        };
    }
    rest
}

/// Skips the byte, if the text begins with it.
fn skip_first(c: u8, text: &[u8]) -> &[u8]
    ensures value { result.now ≡ skip_first c text.now }
    ensures shorter { length result.now ≤ length text.now }
{
    if begins_with(c, text) {
        skip(1, text)
    } else {
        text
    }
}

fn is_blank(c: u8) -> bool
    ensures { result ≡ is_blank c }
{
    c == b' ' || c == b'\t'
}

/// Returns the text from the first blank on that is in no escape, quotes or brackets.
fn skip_pattern(text: &[u8]) -> &[u8]
    ensures behind { BehindPattern text.now result.now }
    ensures shorter { length result.now ≤ length text.now }
{
    let mut rest = text;
    while let Some((first, behind)) = rest.split_first() {
        if is_blank(*first) {
            return rest;
        }
        rest = match *first {
            b'\\' => skip(1, behind),
            b'"' => skip_quotes(behind),
            b'[' => skip_brackets(skip_first(b']', skip_first(b'^', behind))),
            _ => behind,
        };
    }
    rest
}

/// Returns the position of the first space or tab outside quotes, brackets and escapes, or the text's length if there is none.
///
/// A backslash escapes the next byte, a quoted string ends at its closing quote, and brackets end at their closing bracket. An unclosed construct
/// extends to the end. The text may have any length.
#[tactic(auto, using(crate::specs::PatternEndLaws::end_of, crate::proofs::LeastEnd::pattern_end_is))]
pub fn pattern_end(text: &[u8]) -> usize
    ensures value { result ≡ pattern_end text.now }
    ensures end { IsPatternEnd text.now result }
    ensures within { result ≤ length text.now }
{
    text.len() - skip_pattern(text).len()
}

/// States a law: a pattern has one end in a text.
pub fn one_pattern_end()
    ensures { (text : List ℕ) (n m : ℕ) → IsPatternEnd text n → IsPatternEnd text m → n ≡ m }
{}

/// States a law: the pattern at the start of any text ends somewhere, and `pattern_end` is that position.
pub fn some_pattern_end()
    ensures some { (text : List ℕ) → (n : ℕ) × IsPatternEnd text n }
    ensures there { (text : List ℕ) → IsPatternEnd text (pattern_end text) }
{}
