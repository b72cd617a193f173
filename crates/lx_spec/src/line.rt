//! Classifies a line of the definitions section by itself (XCU `lex`, "Definitions in lex").

ghost use Rattle.std.specs.Prelude.{◌≡◌, ◌≤◌, length};
ghost use Rattle.std.specs.List.{list_all, prefix_len};
ghost use Rattle.std.specs.Option.{option_map};
ghost use Rattle.lx_rules.specs.Identifiers.{is_digit, is_identifier};
ghost use Rattle.lx_spec.specs.Bytes as bytes;
ghost use Rattle.lx_spec.specs.Lines as plain;
ghost use Rattle.lx_spec.specs.views.Lines.{line_view};

use crate::bytes::{alphanumeric_len, begins_with, blanks_len, has_pair, is_blank, trim, word_len};
use lx_rules::identifier::{is_digit, is_identifier};

/// The form of a line of the definitions section. The names of conditions are in `names` with blanks between them.
#[derive(Drop)]
pub enum Line<'a> {
    /// The line is empty, code, a comment or a declaration without effect.
    Skipped,
    /// A comment begins, and continues on the next lines.
    OpensComment,
    /// A group `%{` begins.
    OpensGroup,
    /// The line `%%`.
    RulesBegin,
    /// A line `%s` or `%x` with names of conditions.
    Conditions {
        exclusive: bool,
        names: &'a [u8],
    },
    /// A name and its substitute.
    Definition {
        name: &'a [u8],
        substitute: &'a [u8],
    },
    /// No form fits.
    NoForm,
}

// Returns the number of bytes before the first blank.
fn no_blanks_len(text: &[u8]) -> usize
    ensures value { result ≡ prefix_len bytes.is_no_blank text.now }
    ensures within { result ≤ length text.now }
{
    text.iter().take_while(|c| !is_blank(**c)).count()
}

/// Returns the first word of a text, and the text after it. Blanks separate words.
pub fn next_word(text: &[u8]) -> Option<(&[u8], &[u8])>
    ensures { option_map (λ w. (w.0.now, w.1.now)) result ≡ bytes.next_word text.now }
{
    let rest = &text[blanks_len(text)..];
    if rest.is_empty() {
        return None;
    }
    let n = no_blanks_len(rest);
    Some((&rest[..n], &rest[n..]))
}

#[tactic(auto, using(crate::proofs::Words::word_steps))]
fn are_identifiers(text: &[u8]) -> bool
    ensures { result ≡ list_all is_identifier (bytes.words_of text.now) }
{
    let mut rest = text;
    while let Some((word, behind)) = next_word(rest) {
        if !is_identifier(word) {
            return false;
        }
        rest = behind;
    }
    true
}

fn begins_blank(text: &[u8]) -> bool
    ensures { result ≡ bytes.begins bytes.is_blank text.now }
{
    match text {
        [c, ..] => is_blank(*c),
        [] => false,
    }
}

fn plain_line<'a>(has_form: bool) -> Line<'a>
    ensures { line_view result ≡ plain.plain_line has_form }
{
    if has_form {
        Line::Skipped
    } else {
        Line::NoForm
    }
}

fn conditions_line(exclusive: bool, text: &[u8]) -> Line<'_>
    ensures { line_view result ≡ plain.conditions_line exclusive text.now }
{
    let names = &text[blanks_len(text)..];
    if begins_blank(text) && !names.is_empty() && are_identifiers(text) {
        Line::Conditions {
            exclusive,
            names: text,
        }
    } else {
        Line::NoForm
    }
}

fn is_size_word(word: &[u8]) -> bool
    ensures { result ≡ plain.is_size_word word.now }
{
    let Some((c, rest)) = word.split_first() else {
        return false;
    };
    rest.is_empty() && matches!(*c, b'p' | b'n' | b'a' | b'e' | b'k' | b'o')
}

fn are_digits(text: &[u8]) -> bool
    ensures { result ≡ list_all is_digit text.now }
{
    text.iter().all(|c| is_digit(*c))
}

fn size_line<'a>(text: &[u8]) -> Line<'a>
    ensures { line_view result ≡ plain.size_line text.now }
{
    let number = trim(&text[blanks_len(text)..]);
    plain_line(begins_blank(text) && !number.is_empty() && are_digits(number))
}

fn is_option(word: &[u8]) -> bool
    ensures { result ≡ plain.is_option word.now }
{
    word == b"noyywrap".as_slice() || word == b"nounput".as_slice() || word == b"noinput".as_slice()
}

#[tactic(auto, using(crate::proofs::Words::word_steps))]
fn are_options(text: &[u8]) -> bool
    ensures { result ≡ list_all plain.is_option (bytes.words_of text.now) }
{
    let mut rest = text;
    while let Some((word, behind)) = next_word(rest) {
        if !is_option(word) {
            return false;
        }
        rest = behind;
    }
    true
}

fn options_line<'a>(text: &[u8]) -> Line<'a>
    ensures { line_view result ≡ plain.options_line text.now }
{
    let words = &text[blanks_len(text)..];
    plain_line(begins_blank(text) && !words.is_empty() && are_options(text))
}

fn plain_percent_line<'a>(word: &[u8], text: &[u8]) -> Line<'a>
    ensures { line_view result ≡ plain.plain_percent_line word.now text.now }
{
    if word == b"array".as_slice() || word == b"pointer".as_slice() {
        let rest = &text[blanks_len(text)..];
        plain_line(rest.is_empty())
    } else if is_size_word(word) {
        size_line(text)
    } else if word == b"option".as_slice() {
        options_line(text)
    } else {
        Line::NoForm
    }
}

fn percent_line<'a>(word: &[u8], text: &'a [u8]) -> Line<'a>
    ensures { line_view result ≡ plain.percent_line word.now text.now }
{
    match word {
        [b's' | b'S', ..] => conditions_line(false, text),
        [b'x' | b'X', ..] => conditions_line(true, text),
        _ => plain_percent_line(word, text),
    }
}

fn definition_line<'a>(name: &'a [u8], text: &'a [u8]) -> Line<'a>
    ensures { line_view result ≡ plain.definition_line name.now text.now }
{
    let rest = &text[blanks_len(text)..];
    if is_identifier(name) && begins_blank(text) && !rest.is_empty() {
        Line::Definition {
            name,
            substitute: trim(rest),
        }
    } else {
        Line::NoForm
    }
}

fn percent_text(text: &[u8]) -> Line<'_>
    ensures { line_view result ≡ plain.percent_text text.now }
{
    let n = alphanumeric_len(text);
    percent_line(&text[..n], &text[n..])
}

fn named_text(text: &[u8]) -> Line<'_>
    ensures { line_view result ≡ plain.named_text text.now }
{
    let n = word_len(text);
    definition_line(&text[..n], &text[n..])
}

/// Returns the first form of the definitions section that fits the line.
pub fn line_of(text: &[u8]) -> Line<'_>
    ensures { line_view result ≡ plain.line_of text.now }
{
    let Some((c, rest)) = text.split_first() else {
        return Line::Skipped;
    };
    let c = *c;
    if is_blank(c) {
        Line::Skipped
    } else if begins_with(b'/', b'*', text) {
        if has_pair(b'*', b'/', &text[2..]) {
            Line::Skipped
        } else {
            Line::OpensComment
        }
    } else if begins_with(b'%', b'{', text) {
        Line::OpensGroup
    } else if begins_with(b'%', b'%', text) {
        Line::RulesBegin
    } else if c == b'%' {
        percent_text(rest)
    } else {
        named_text(text)
    }
}
