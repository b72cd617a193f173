//! Splits an action into words (XCU `lex`, "Actions in lex").

ghost use Rattle.std.specs.Prelude.{◌≡◌, ◌+◌, ◌<◌, ◌≤◌, length, IfSome, IfOk, MatchOption, List};
ghost use Rattle.std.specs.List.{prefix_len};
ghost use Rattle.std.specs.Option.{option_map};
ghost use Rattle.lx_rules.specs.Identifiers.{is_word_byte};
ghost use Rattle.lx_spec.specs.ActionWords as plain;
ghost use Rattle.lx_spec.specs.ActionWords.{AreWords};
ghost use Rattle.lx_spec.specs.views.Words.{word_view, words_view};
ghost use Rattle.lx_spec.specs.views.Pieces.{piece_view, LeavesLess};

use crate::bytes::{begins_with, is_blank, word_len};
use crate::constant::constant_at;
use lx_rules::identifier::is_word_byte;
use std::alloc::{AllocError, Global};

/// A word of an action.
#[derive(Clone, Copy)]
pub enum Word<'a> {
    /// A longest run of letters, digits and `_`.
    Letters(&'a [u8]),
    /// A character constant, by its byte.
    Byte(u8),
    /// `|`
    Bar,
    /// `;`
    Semicolon,
    /// `{`
    OpenBrace,
    /// `}`
    CloseBrace,
    /// `(`
    OpenGroup,
    /// `)`
    CloseGroup,
}

/// The construct at the start of a text.
#[derive(Drop)]
pub enum WordConstruct<'a> {
    /// The end of the text.
    Ended,
    /// A blank, a line's end or a comment, with the text after it.
    Passed(&'a [u8]),
    /// A word, with the text after it.
    Found(Word<'a>, &'a [u8]),
    /// No word of an action.
    NoWord,
}

fn sign_of<'a>(c: u8) -> Option<Word<'a>>
    ensures { option_map word_view result ≡ plain.sign_of c }
{
    match c {
        b'|' => Some(Word::Bar),
        b';' => Some(Word::Semicolon),
        b'{' => Some(Word::OpenBrace),
        b'}' => Some(Word::CloseBrace),
        b'(' => Some(Word::OpenGroup),
        b')' => Some(Word::CloseGroup),
        _ => None,
    }
}

// Returns the text after the first `*/`.
fn skip_comment(text: &[u8]) -> Option<&[u8]>
    ensures value { option_map (λ r. r.now) result ≡ plain.behind_comment text.now }
    ensures less { IfSome result (λ r. length r.now ≤ length text.now) }
{
    let mut rest = text;
    while let Some((_, behind)) = rest.split_first() {
        if begins_with(b'*', b'/', rest) {
            return Some(&rest[2..]);
        }
        rest = behind;
    }
    None
}

fn line_len(text: &[u8]) -> usize
    ensures value { result ≡ prefix_len plain.is_no_newline text.now }
    ensures within { result ≤ length text.now }
{
    text.iter().take_while(|c| **c != b'\n').count()
}

// Reads a comment of several lines, starting after its `/`.
fn comment_at(text: &[u8]) -> WordConstruct<'_>
    ensures value { piece_view result ≡ plain.comment_at text.now }
    ensures less { LeavesLess result (length text.now + 1) }
{
    let Some((_, rest)) = text.split_first() else {
        return WordConstruct::NoWord;
    };
    match skip_comment(rest) {
        Some(behind) => WordConstruct::Passed(behind),
        None => WordConstruct::NoWord,
    }
}

fn letters_piece(text: &[u8]) -> WordConstruct<'_>
    requires { 0 < prefix_len is_word_byte text.now }
    ensures value { piece_view result ≡ plain.letters_piece text.now }
    ensures less { LeavesLess result (length text.now) }
{
    let n = word_len(text);
    WordConstruct::Found(Word::Letters(&text[..n]), &text[n..])
}

// Reads a piece of one byte, or a constant, starting after its first byte.
fn sign_piece(c: u8, text: &[u8]) -> WordConstruct<'_>
    ensures value { piece_view result ≡ plain.sign_piece c text.now }
    ensures less { LeavesLess result (length text.now + 1) }
{
    if c == b'\'' {
        match constant_at(text) {
            Some((byte, rest)) => WordConstruct::Found(Word::Byte(byte), rest),
            None => WordConstruct::NoWord,
        }
    } else {
        match sign_of(c) {
            Some(word) => WordConstruct::Found(word, text),
            None => WordConstruct::NoWord,
        }
    }
}

/// Returns the first form that fits the start of the text.
pub fn piece_at(text: &[u8]) -> WordConstruct<'_>
    ensures value { piece_view result ≡ plain.piece_at text.now }
    ensures less { LeavesLess result (length text.now) }
{
    let Some((c, rest)) = text.split_first() else {
        return WordConstruct::Ended;
    };
    let c = *c;
    if is_blank(c) || c == b'\n' {
        WordConstruct::Passed(rest)
    } else if begins_with(b'/', b'*', text) {
        comment_at(rest)
    } else if begins_with(b'/', b'/', text) {
        WordConstruct::Passed(&rest[line_len(rest)..])
    } else if is_word_byte(c) {
        letters_piece(text)
    } else {
        sign_piece(c, rest)
    }
}

/// Splits an action into words. Returns `None` if the text isn't words.
pub(crate) fn read_words<'a>(
    alloc: Global,
    text: &'a [u8],
) -> Result<Option<Vec<Word<'a>>>, AllocError>
    ensures { IfOk result (λ o.
        MatchOption o ((ws : List plain.Word) → AreWords text.now ws → ⊥)
        (λ v. AreWords text.now (words_view v.items))) }
{
    let mut words = Vec::new(alloc);
    let mut rest = text;
    'pieces: loop {
        match piece_at(rest) {
            WordConstruct::Ended => return Ok(Some(words)),
            WordConstruct::Passed(behind) => rest = behind,
            WordConstruct::Found(word, behind) => {
                words.push(word)?;
                rest = behind;
            }
            WordConstruct::NoWord => return Ok(None),
        }
    }
}
