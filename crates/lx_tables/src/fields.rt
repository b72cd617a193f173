//! Reads the fields of a table text leniently: each function returns a value for every text, with the rest of the text.

ghost use Rattle.std.specs.Prelude.{◌≡◌, ◌<◌, ◌≤◌, ◌==◌, drop, slice_index};
ghost use Rattle.lx_automaton.specs.EncodedOptions.{decoded_option};
ghost use Rattle.lx_automaton.specs.Automata.{max_states};
ghost use Rattle.lx_tables.specs.Readers.{read_digits, read_count, read_start, read_line, read_kind, read_step, read_accepts, read_range, read_entry, read_run, below, within, step_of};

use crate::version::Version;
use lx_rules::limits::{MAX_RULES, MAX_START_CONDITIONS, MAX_STATES};
use lx_rules::rule::{Kind, Step};

/// Reads the number at the start of a text. The number stops growing at 429,496,729, so that it fits.
pub(crate) fn number(text: &[u8]) -> (u32, &[u8])
    ensures value { (result.0, result.1.now) ≡ read_digits 0 text.now }
    ensures small { result.0 < 4294967290 }
{
    let mut n: u32 = 0;
    let mut rest = text;
    while let [digit @ b'0'..=b'9', more @ ..] = rest {
        if n < 429_496_729 {
            n = 10 * n + u32::from(*digit - b'0');
        }
        rest = more;
    }
    (n, rest)
}

/// Returns the text after `count` bytes.
pub(crate) fn skip(text: &[u8], count: usize) -> &[u8]
    ensures { result.now ≡ drop count text.now }
{
    &text[count.min(text.len())..]
}

/// Reads the number after a word of `word` bytes. Returns at most `most`.
pub(crate) fn count(text: &[u8], word: usize, most: u32) -> (u32, &[u8])
    ensures value { (result.0, result.1.now) ≡ read_count most word text.now }
    ensures few { result.0 ≤ most }
{
    let (n, rest) = number(skip(text, word));
    (n.min(most), skip(rest, 1))
}

/// Encodes a number as an option: one more than it if it is below the limit, otherwise 0.
fn encoded_option_below(limit: u32, n: u32) -> u16
    requires { limit < 65536 }
    ensures { decoded_option result ≡ below limit n }
{
    if n < limit { n as u16 + 1 } else { 0 }
}

/// Returns the number, limited to the range from `low` to `high`.
pub(crate) fn clamp(low: u32, high: u32, n: u32) -> u32
    requires { low ≤ high }
    ensures value { result ≡ within low high n }
    ensures from { low ≤ result }
    ensures to { result ≤ high }
{
    n.min(high).max(low)
}

/// Reads the two states of a start.
pub(crate) fn start(text: &[u8]) -> ((u32, u32), &[u8])
    ensures { (result.0, result.1.now) ≡ read_start text.now }
{
    let (elsewhere, rest) = number(skip(text, 6));
    let (at_begin, rest) = number(skip(rest, 1));
    ((elsewhere, at_begin), skip(rest, 1))
}

/// Reads the bytes up to the line's end.
pub(crate) fn line(text: &[u8]) -> (&[u8], &[u8])
    ensures { (result.0.now, result.1.now) ≡ read_line text.now }
{
    let mut end = 0;
    while end < text.len() && text[end] != b'\n' {
        end += 1;
    }
    (&text[..end], skip(&text[end..], 1))
}

/// Reads the name of a kind.
pub(crate) fn kind(text: &[u8]) -> (&[u8], &[u8])
    ensures { (result.0.now, result.1.now) ≡ read_kind text.now }
{
    line(skip(text, 5))
}

/// Returns the byte at a position, or 0 after the end.
pub fn byte_at(text: &[u8], place: usize) -> u8
    ensures { result ≡ slice_index text.now place }
{
    if place < text.len() { text[place] } else { 0 }
}

/// Returns the step of a letter with a number.
fn numbered_step(letter: u8, n: u32) -> Step
    ensures { result ≡ step_of letter n }
{
    match letter {
        b'b' if n < MAX_START_CONDITIONS as u32 => Step::Begin(n as u16),
        b'b' => Step::Echo,
        b'k' => Step::Return(Kind::Name(n)),
        _ => Step::Return(Kind::Number(n)),
    }
}

/// Reads a step after its space.
pub(crate) fn step(text: &[u8]) -> (Step, &[u8])
    ensures { (result.0, result.1.now) ≡ read_step text.now }
{
    let [letter, rest @ ..] = text else {
        return (Step::Echo, text);
    };
    if *letter == b'e' {
        return (Step::Echo, rest);
    }
    let (n, more) = number(rest);
    (numbered_step(*letter, n), more)
}

/// Reads the rule that a state accepts, as an encoded option.
pub(crate) fn accepts(text: &[u8]) -> (u16, &[u8])
    ensures { (decoded_option result.0, result.1.now) ≡ read_accepts text.now }
{
    let (rule, rest) = number(text);
    if byte_at(rest, 0) == b'-' {
        return (0, skip(rest, 1));
    }
    (encoded_option_below(MAX_RULES as u32, rule), rest)
}

/// Reads a range of bytes: its first byte, the one after its last, and its value.
fn range(text: &[u8]) -> ((u32, u32, u32), &[u8])
    ensures { (result.0, result.1.now) ≡ read_range text.now }
{
    let (low, rest) = number(skip(text, 1));
    let (high, rest) = number(skip(rest, 1));
    let (value, rest) = number(skip(rest, 1));
    ((low, high + 1, value), rest)
}

/// Reads an entry: its class, the next class, and its target.
fn entry(text: &[u8]) -> ((u32, u32, u32), &[u8])
    ensures { (result.0, result.1.now) ≡ read_entry text.now }
{
    let (class, rest) = number(skip(text, 1));
    let (target, rest) = number(skip(rest, 1));
    ((class, class + 1, target), rest)
}

/// Reads the next entries with the same value: the first, the one after the last, and the value.
pub(crate) fn run(text: &[u8], version: Version) -> ((u32, u32, u32), &[u8])
    ensures { (result.0, result.1.now) ≡ read_run version text.now }
{
    match version {
        Version::First => range(text),
        Version::Second => entry(text),
    }
}

/// Encodes a run's value as an option, which is 0 if the value isn't the number of a state.
pub(crate) fn encoded_value(value: u32) -> u16
    ensures { decoded_option result ≡ below max_states value }
{
    encoded_option_below(MAX_STATES as u32, value)
}
