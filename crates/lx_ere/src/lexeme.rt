//! Reads the lexemes of a pattern (POSIX.1-2017, XCU `lex`, "Regular Expressions in lex").

ghost use Rattle.std.specs.Prelude.{◌≡◌, IfOk, List, ℕ};
ghost use Rattle.std.specs.Option.{option_map};
ghost use Rattle.lx_ere.specs.Spelling.{is_plain, byte_lexeme};
ghost use Rattle.lx_ere.specs.Lexing.{all_items_at, unescaped_at, quoted_byte_at, string_at, name_at, bound_at, behind_comma_at, behind_low_at, interval_at, starts_digit, brace_at, as_set, as_bracket, as_single, escape_at, bracket_at, lexeme_at};
ghost use Rattle.lx_ere.specs.Lexemes.{lexeme_of};

use crate::bracket::bracket_at;
use crate::escape::{digit_run, escape_at, is_digit, number_at};
use crate::name::{is_identifier, name_run};
use crate::prefix::{begins_with, skip, strip_byte};
use crate::set::ByteSet;
use std::alloc::{AllocError, Global};

/// The meaning of a spelling in a pattern.
#[derive(Drop)]
pub enum Lexeme {
    /// A byte, an escape, a period or a bracket expression.
    Set(ByteSet),
    /// A quoted string: its first byte, and those after it.
    Quoted(u8, Vec<u8>),
    /// A name in braces.
    Name(Vec<u8>),
    /// Bounds in braces, which repeat all of the branch before them.
    Interval(u8, Option<u8>),
    /// `*`, `+` or `?`, and in flex bounds in braces: they repeat the last unit.
    Repeat(u8, Option<u8>),
    /// The empty word, which only flex spells.
    EmptyWord,
    OpenGroup,
    CloseGroup,
    Bar,
}

/// Returns true if the byte represents itself.
fn is_plain(c: u8) -> bool
    ensures { result ≡ is_plain c }
{
    !matches!(
        c,
        b'\n'
            | b'\t'
            | b' '
            | b'"'
            | b'$'
            | b'('
            | b')'
            | b'*'
            | b'+'
            | b'.'
            | b'/'
            | b'?'
            | b'['
            | b'\\'
            | b'^'
            | b'{'
            | b'|'
    )
}

/// Returns the lexeme of a single byte.
fn byte_lexeme(c: u8) -> Option<Lexeme>
    ensures { option_map lexeme_of result ≡ byte_lexeme c }
{
    match c {
        b'(' => Some(Lexeme::OpenGroup),
        b')' => Some(Lexeme::CloseGroup),
        b'*' => Some(Lexeme::Repeat(0, None)),
        b'+' => Some(Lexeme::Repeat(1, None)),
        b'?' => Some(Lexeme::Repeat(0, Some(1))),
        b'|' => Some(Lexeme::Bar),
        b'.' => Some(Lexeme::Set(ByteSet::all_but(b'\n'))),
        _ if is_plain(c) => Some(Lexeme::Set(ByteSet::of(c))),
        _ => None,
    }
}

/// Reads a byte of a quoted string. Returns it with the text after it.
fn quoted_byte_at(text: &[u8]) -> Option<(u8, &[u8])>
    ensures { option_map (λ f. (f.0, f.1.now)) result ≡ quoted_byte_at text.now }
{
    let (first, rest) = text.split_first()?;
    let c = *first;
    if c == b'\\' {
        escape_at(rest)
    } else if c == b'"' || c == b'\n' {
        None
    } else {
        Some((c, rest))
    }
}

/// Reads the bytes of a quoted string up to its closing quote. Returns them with the text after it.
fn quoted_bytes_at(alloc: Global, text: &[u8]) -> Result<Option<(Vec<u8>, &[u8])>, AllocError>
    ensures { IfOk result
        (λ o. option_map (λ f. (f.0.items, f.1.now)) o ≡ all_items_at quoted_byte_at 34 text.now) }
{
    let mut bytes = Vec::new(alloc);
    let mut rest = text;
    while !begins_with(b'"', rest) {
        let Some((byte, behind)) = quoted_byte_at(rest) else {
            return Ok(None);
        };
        bytes.push(byte)?;
        rest = behind;
    }
    Ok(Some((bytes, skip(1, rest))))
}

/// Reads a quoted string, starting after its opening quote.
fn string_at(alloc: Global, text: &[u8]) -> Result<Option<(Lexeme, &[u8])>, AllocError>
    ensures { IfOk result (λ o. option_map (λ f. (lexeme_of f.0, f.1.now)) o ≡ string_at text.now) }
{
    let Some((first, rest)) = quoted_byte_at(text) else {
        return Ok(None);
    };
    match quoted_bytes_at(alloc, rest)? {
        Some((more, behind)) => Ok(Some((Lexeme::Quoted(first, more), behind))),
        None => Ok(None),
    }
}

/// Reads a name and its closing brace.
fn name_at(alloc: Global, text: &[u8]) -> Result<Option<(Lexeme, &[u8])>, AllocError>
    ensures { IfOk result (λ o. option_map (λ f. (lexeme_of f.0, f.1.now)) o ≡ name_at text.now) }
{
    let n = name_run(text);
    let name = &text[..n];
    if !is_identifier(name) {
        return Ok(None);
    }
    match strip_byte(b'}', skip(n, text)) {
        Some(behind) => {
            let name = Vec::from_slice(alloc, name)?;
            Ok(Some((Lexeme::Name(name), behind)))
        }
        None => Ok(None),
    }
}

/// Reads the bound of an interval, a number of at most 255.
pub fn bound_at(text: &[u8]) -> Option<(u8, &[u8])>
    ensures { option_map (λ f. (f.0, f.1.now)) result ≡ bound_at text.now }
{
    let n = digit_run(10, text.len(), text);
    if n == 0 { None } else { number_at(10, n, text) }
}

/// Reads the rest of an interval after its comma.
fn rest_of_interval(low: u8, text: &[u8]) -> Option<(Lexeme, &[u8])>
    ensures { option_map (λ f. (lexeme_of f.0, f.1.now)) result ≡ behind_comma_at low text.now }
{
    if begins_with(b'}', text) {
        return Some((Lexeme::Interval(low, None), skip(1, text)));
    }
    let (high, rest) = bound_at(text)?;
    if low > high {
        return None;
    }
    let behind = strip_byte(b'}', rest)?;
    Some((Lexeme::Interval(low, Some(high)), behind))
}

/// Reads the rest of an interval after its first bound.
fn bounds_after_low(low: u8, text: &[u8]) -> Option<(Lexeme, &[u8])>
    ensures { option_map (λ f. (lexeme_of f.0, f.1.now)) result ≡ behind_low_at (low, text.now) }
{
    if begins_with(b'}', text) {
        Some((Lexeme::Interval(low, Some(low)), skip(1, text)))
    } else {
        rest_of_interval(low, strip_byte(b',', text)?)
    }
}

/// Reads an interval, starting after its opening brace.
fn interval_at(text: &[u8]) -> Option<(Lexeme, &[u8])>
    ensures { option_map (λ f. (lexeme_of f.0, f.1.now)) result ≡ interval_at text.now }
{
    let (low, rest) = bound_at(text)?;
    bounds_after_low(low, rest)
}

/// Returns true if the text begins with a decimal digit.
pub fn starts_digit(text: &[u8]) -> bool
    ensures { result ≡ starts_digit text.now }
{
    match text {
        [first, ..] => is_digit(10, *first),
        [] => false,
    }
}

/// Reads a name or an interval, starting after its opening brace.
fn brace_at(alloc: Global, text: &[u8]) -> Result<Option<(Lexeme, &[u8])>, AllocError>
    ensures { IfOk result (λ o. option_map (λ f. (lexeme_of f.0, f.1.now)) o ≡ brace_at text.now) }
{
    if starts_digit(text) {
        Ok(interval_at(text))
    } else {
        name_at(alloc, text)
    }
}

/// Reads the lexeme at the start. Returns it with the text after it, or `None` if no spelling is at the start.
pub fn lexeme_at(alloc: Global, text: &[u8]) -> Result<Option<(Lexeme, &[u8])>, AllocError>
    ensures { IfOk result (λ o. option_map (λ f. (lexeme_of f.0, f.1.now)) o ≡ lexeme_at text.now) }
{
    let Some((first, rest)) = text.split_first() else {
        return Ok(None);
    };
    match *first {
        b'\\' => Ok(escape_lexeme(rest)),
        b'"' => string_at(alloc, rest),
        b'[' => Ok(bracket_lexeme(rest)),
        b'{' => brace_at(alloc, rest),
        c => Ok(single_lexeme(c, rest)),
    }
}

/// Reads an escape, starting after its backslash.
fn escape_lexeme(text: &[u8]) -> Option<(Lexeme, &[u8])>
    ensures { option_map (λ f. (lexeme_of f.0, f.1.now)) result ≡ as_set (escape_at text.now) }
{
    let (byte, behind) = escape_at(text)?;
    Some((Lexeme::Set(ByteSet::of(byte)), behind))
}

/// Reads a bracket expression, starting after its `[`.
fn bracket_lexeme(text: &[u8]) -> Option<(Lexeme, &[u8])>
    ensures { option_map (λ f. (lexeme_of f.0, f.1.now)) result ≡ as_bracket (bracket_at text.now) }
{
    let (set, behind) = bracket_at(text)?;
    Some((Lexeme::Set(set), behind))
}

/// Returns the lexeme of a single byte, with the text after it.
fn single_lexeme(c: u8, behind: &[u8]) -> Option<(Lexeme, &[u8])>
    ensures { option_map (λ f. (lexeme_of f.0, f.1.now)) result ≡ as_single c behind.now }
{
    let lexeme = byte_lexeme(c)?;
    Some((lexeme, behind))
}
