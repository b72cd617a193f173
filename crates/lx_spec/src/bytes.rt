//! Tests and counts of bytes at the start of a text.

ghost use Rattle.std.specs.Prelude.{◌≡◌, ◌≤◌, length};
ghost use Rattle.std.specs.List.{prefix_len};
ghost use Rattle.lx_rules.specs.Identifiers.{is_alphanumeric, is_word_byte};
ghost use Rattle.lx_spec.specs.Bytes as bytes;

use lx_rules::identifier::{is_alphanumeric, is_word_byte};

pub(crate) fn is_blank(c: u8) -> bool
    ensures { result ≡ bytes.is_blank c }
{
    c == b' ' || c == b'\t'
}

pub(crate) fn begins_with(a: u8, b: u8, text: &[u8]) -> bool
    ensures { result ≡ bytes.begins_with a b text.now }
{
    match text {
        [c, d, ..] => *c == a && *d == b,
        _ => false,
    }
}

pub(crate) fn has_pair(a: u8, b: u8, text: &[u8]) -> bool
    ensures { result ≡ bytes.has_pair a b text.now }
{
    let mut rest = text;
    while let Some((_, behind)) = rest.split_first() {
        if begins_with(a, b, rest) {
            return true;
        }
        rest = behind;
    }
    false
}

// Returns the number of blanks at the start.
pub(crate) fn blanks_len(text: &[u8]) -> usize
    ensures value { result ≡ prefix_len bytes.is_blank text.now }
    ensures within { result ≤ length text.now }
{
    text.iter().take_while(|c| is_blank(**c)).count()
}

pub(crate) fn word_len(text: &[u8]) -> usize
    ensures value { result ≡ prefix_len is_word_byte text.now }
    ensures within { result ≤ length text.now }
{
    text.iter().take_while(|c| is_word_byte(**c)).count()
}

pub(crate) fn alphanumeric_len(text: &[u8]) -> usize
    ensures value { result ≡ prefix_len is_alphanumeric text.now }
    ensures within { result ≤ length text.now }
{
    text.iter().take_while(|c| is_alphanumeric(**c)).count()
}

#[tactic(auto, using(crate::proofs::Words::trim_steps))]
pub(crate) fn trim(text: &[u8]) -> &[u8]
    ensures { result.now ≡ bytes.trimmed text.now }
{
    let mut front = text;
    while let Some((last, before)) = front.split_last() {
        if !is_blank(*last) {
            break;
        }
        front = before;
    }
    front
}
