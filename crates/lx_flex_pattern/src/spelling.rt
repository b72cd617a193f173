//! Reads the spelling at the front of a flex pattern's text: escapes, strings, names and bounds (flex's manual, "Patterns").

ghost use Rattle.std.specs.Prelude.{◌≡◌, ◌≤◌, IfErr, IfOk, IfSome, length, true};
ghost use Rattle.std.specs.Option.{option_map};
ghost use Rattle.lx_ere.specs.Escapes.{number_of};
ghost use Rattle.lx_ere.specs.Lexing.{run_len};
ghost use Rattle.lx_flex_pattern.specs.Faults.{is_limit};
ghost use Rattle.lx_flex_pattern.specs.Limits.{max_flex_bound};
ghost use Rattle.lx_flex_pattern.specs.Spelling as specs;
ghost use Rattle.lx_flex_pattern.specs.Spelling.{is_inner_name_byte};

use crate::bounds::{Bounds, MAX_FLEX_BOUND};
use crate::fault::PatternFault;
use lx_ere::escape::{digit_of, digit_run, is_digit, letter_byte, number_at};
use lx_ere::name::{is_name_byte, is_name_start};
use lx_ere::prefix::{begins_with, skip, strip_byte};
use std::alloc::{AllocError, Global};

/// Reads an escape, starting after the backslash. Returns its byte with the text after it.
pub(crate) fn escape_at(text: &[u8]) -> Option<(u8, &[u8])>
    ensures { option_map (λ f. (f.0, f.1.now)) result ≡ specs.escape_at text.now }
{
    let (first, rest) = text.split_first()?;
    let c = *first;
    if let Some(byte) = letter_byte(c) {
        Some((byte, rest))
    } else if is_digit(8, c) {
        number_at(8, digit_run(8, 3, text), text)
    } else if c == b'x' {
        number_at(16, digit_run(16, 2, rest), rest)
    } else if c == b'\n' {
        None
    } else {
        Some((c, rest))
    }
}

/// Reads a byte of a quoted string or of brackets.
pub(crate) fn point_at(text: &[u8]) -> Option<(u8, &[u8])>
    ensures { option_map (λ f. (f.0, f.1.now)) result ≡ specs.point_at text.now }
{
    let (first, rest) = text.split_first()?;
    let c = *first;
    if c == b'\\' {
        escape_at(rest)
    } else if c == b'\n' {
        None
    } else {
        Some((c, rest))
    }
}

/// Reads the bytes of a quoted string, starting after its opening quote. Returns them with the text after the closing one.
pub(crate) fn string_at(alloc: Global, text: &[u8]) -> Result<Option<(Vec<u8>, &[u8])>, AllocError>
    ensures { IfOk result
        (λ o. option_map (λ f. (f.0.items, f.1.now)) o ≡ specs.string_at text.now) }
{
    let mut bytes = Vec::new(alloc);
    let mut rest = text;
    // each byte of the string takes at least one of the text
    for _byte in text {
        if begins_with(b'"', rest) {
            return Ok(Some((bytes, skip(1, rest))));
        }
        let Some((byte, behind)) = point_at(rest) else {
            return Ok(None);
        };
        bytes.push(byte)?;
        rest = behind;
    }
    if begins_with(b'"', rest) {
        Ok(Some((bytes, skip(1, rest))))
    } else {
        Ok(None)
    }
}

/// Returns true if the byte may be in a name, which may have hyphens.
pub(crate) fn is_inner_name_byte(c: u8) -> bool
    ensures { result ≡ specs.is_inner_name_byte c }
{
    is_name_byte(c) || c == b'-'
}

// Returns the number of bytes at the start that may be in a name.
#[tactic(auto, using(lx_ere::specs::RunLaws::run_steps))]
fn name_run(text: &[u8]) -> usize
    ensures value { result ≡ run_len is_inner_name_byte (length text.now) text.now }
    ensures within { result ≤ length text.now }
{
    let mut n = 0;
    while n < text.len() && is_inner_name_byte(text[n]) {
        n += 1;
    }
    n
}

// Returns true if a name can begin here.
fn starts_name(text: &[u8]) -> bool
    ensures { result ≡ specs.starts_name text.now }
{
    match text {
        [first, ..] => is_name_start(*first),
        [] => false,
    }
}

/// Reads a definition's name and its closing brace, starting after the opening one.
pub(crate) fn name_at(text: &[u8]) -> Option<(&[u8], &[u8])>
    ensures { option_map (λ f. (f.0.now, f.1.now)) result ≡ specs.name_at text.now }
{
    let n = name_run(text);
    if !starts_name(text) {
        return None;
    }
    let behind = strip_byte(b'}', skip(n, text))?;
    Some((&text[..n], behind))
}

// Returns the number that decimal digits spell. Returns `None` if it's above the limit.
fn bound_of(digits: &[u8]) -> Option<u16>
    ensures value { IfSome result (λ n. n ≡ number_of 10 digits.now) }
    ensures fits { IfSome result (λ n. n ≤ max_flex_bound) }
{
    let mut value: u32 = 0;
    for digit in digits {
        value = value * 10 + u32::from(digit_of(*digit));
        if value > u32::from(MAX_FLEX_BOUND) {
            return None;
        }
    }
    Some(value as u16)
}

// Reads a bound of an interval.
fn bound_at(text: &[u8]) -> Result<Option<(u16, &[u8])>, PatternFault>
    ensures ok { IfOk result
        (λ o. option_map (λ f. (f.0, f.1.now)) o ≡ specs.bound_at text.now) }
    ensures fits { IfOk result (λ o. IfSome o (λ f. f.0 ≤ max_flex_bound)) }
    ensures err { IfErr result (λ fault. is_limit fault ≡ true) }
{
    let n = digit_run(10, text.len(), text);
    if n == 0 {
        return Ok(None);
    }
    match bound_of(&text[..n]) {
        Some(bound) => Ok(Some((bound, &text[n..]))),
        None => Err(PatternFault::LargeInterval),
    }
}

// Reads the end of an interval after its last bound.
fn high_at(low: u16, high: u16, text: &[u8]) -> Option<(Bounds, &[u8])>
    requires { high ≤ max_flex_bound }
    ensures { option_map (λ f. ((f.0.low, f.0.high), f.1.now)) result
        ≡ specs.high_at low (high, text.now) }
{
    if low > high || high == 0 {
        return None;
    }
    let behind = strip_byte(b'}', text)?;
    let bounds = Bounds {
        low,
        high: Some(high),
    };
    Some((bounds, behind))
}

// Reads the rest of an interval after its comma.
fn behind_comma_at(low: u16, text: &[u8]) -> Result<Option<(Bounds, &[u8])>, PatternFault>
    requires { low ≤ max_flex_bound }
    ensures ok { IfOk result (λ o. option_map (λ f. ((f.0.low, f.0.high), f.1.now)) o
        ≡ specs.behind_comma_at low text.now) }
    ensures err { IfErr result (λ fault. is_limit fault ≡ true) }
{
    if begins_with(b'}', text) {
        if low == 0 {
            return Ok(None);
        }
        let bounds = Bounds { low, high: None };
        return Ok(Some((bounds, skip(1, text))));
    }
    let Some((high, rest)) = bound_at(text)? else {
        return Ok(None);
    };
    Ok(high_at(low, high, rest))
}

// Reads the rest of an interval after its first bound.
fn behind_low_at(low: u16, text: &[u8]) -> Result<Option<(Bounds, &[u8])>, PatternFault>
    requires { low ≤ max_flex_bound }
    ensures ok { IfOk result (λ o. option_map (λ f. ((f.0.low, f.0.high), f.1.now)) o
        ≡ specs.behind_low_at (low, text.now)) }
    ensures err { IfErr result (λ fault. is_limit fault ≡ true) }
{
    if begins_with(b'}', text) {
        if low == 0 {
            return Ok(None);
        }
        let bounds = Bounds {
            low,
            high: Some(low),
        };
        return Ok(Some((bounds, skip(1, text))));
    }
    match strip_byte(b',', text) {
        Some(behind) => behind_comma_at(low, behind),
        None => Ok(None),
    }
}

/// Reads the bounds of an interval and its closing brace, starting after the opening one.
///
/// Err: [`PatternFault::LargeInterval`] if a bound is above the limit.
pub(crate) fn interval_at(text: &[u8]) -> Result<Option<(Bounds, &[u8])>, PatternFault>
    ensures ok { IfOk result (λ o. option_map (λ f. ((f.0.low, f.0.high), f.1.now)) o
        ≡ specs.interval_at text.now) }
    ensures err { IfErr result (λ fault. is_limit fault ≡ true) }
{
    let Some((low, rest)) = bound_at(text)? else {
        return Ok(None);
    };
    behind_low_at(low, rest)
}
