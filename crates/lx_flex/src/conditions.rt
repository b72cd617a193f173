//! Start conditions (flex's manual, "Start Conditions").

ghost use Rattle.std.specs.Prelude.{◌≡◌, ◌<◌, IfOk, length, map, take};
ghost use Rattle.std.specs.List.{prefix_len};
ghost use Rattle.lx_flex.specs.Activity.{condition_number, joined};
ghost use Rattle.lx_flex.specs.ConditionLists.{continues_name, name_len, starts_name};

use crate::cursor::front;
use std::alloc::{AllocError, Global};

/// A start condition.
#[derive(Debug, Drop)]
pub struct FlexCondition {
    /// Name in flex, which may have hyphens.
    pub name: Vec<u8>,
    /// Name in lx.
    pub lx_name: Vec<u8>,
    pub exclusive: bool,
}

/// Returns the number of the condition with this name. `INITIAL` and `0` are the first one.
pub(crate) fn place_of(conditions: &[FlexCondition], name: &[u8]) -> Option<u16>
    ensures { length conditions.now < 65536
        → result ≡ condition_number (map (λ c. c.name.items) conditions.now) name.now }
{
    if name == b"0".as_slice() {
        return Some(0);
    }
    let mut place: u16 = 0;
    for condition in conditions {
        if condition.name.as_slice() == name {
            return Some(place);
        }
        place = place.saturating_add(1);
    }
    None
}

fn is_lx_name(conditions: &[FlexCondition], name: &[u8]) -> bool {
    for condition in conditions {
        if condition.lx_name.as_slice() == name {
            return true;
        }
    }
    false
}

/// Returns the name with `_` for each hyphen.
pub(crate) fn without_hyphens(alloc: Global, name: &[u8]) -> Result<Vec<u8>, AllocError> {
    let mut renamed = Vec::new(alloc);
    for byte in name {
        renamed.push(if *byte == b'-' { b'_' } else { *byte })?;
    }
    Ok(renamed)
}

/// Returns a name for lx that no condition has yet.
pub(crate) fn new_name(
    alloc: Global,
    conditions: &[FlexCondition],
    name: &[u8],
) -> Result<Vec<u8>, AllocError> {
    let mut renamed = without_hyphens(alloc, name)?;
    for _ in conditions {
        if !is_lx_name(conditions, renamed.as_slice()) {
            break;
        }
        renamed.push(b'_')?;
    }
    Ok(renamed)
}

fn starts_name(byte: u8) -> bool
    ensures { result ≡ starts_name byte }
{
    byte.is_ascii_alphabetic() || byte == b'_'
}

fn continues_name(byte: u8) -> bool
    ensures { result ≡ continues_name byte }
{
    starts_name(byte) || byte.is_ascii_digit() || byte == b'-'
}

/// Returns the number of bytes at the start that may be in a name, not only as its first byte.
fn continued_length(text: &[u8]) -> usize
    ensures { result ≡ prefix_len continues_name text.now }
{
    let mut count: usize = 0;
    for byte in text {
        if !continues_name(*byte) {
            break;
        }
        count = count.saturating_add(1);
    }
    count
}

/// Returns the number of bytes of the name at the start of a text, or 0.
fn name_length(text: &[u8]) -> usize
    ensures { result ≡ name_len text.now }
{
    match text {
        [first, ..] => {
            if starts_name(*first) {
                continued_length(text)
            } else {
                0
            }
        }
        [] => 0,
    }
}

/// Returns the name at the start of a text: a letter or `_`, then letters, digits, `_` and hyphens. The result is empty if there is none.
pub(crate) fn name_at(text: &[u8]) -> &[u8]
    ensures { result.now ≡ take (name_len text.now) text.now }
{
    front(name_length(text), text)
}

/// Returns the numbers that are in either list, in ascending order.
#[tactic(auto, using(crate::proofs::Joining::joined_with, crate::proofs::Joining::joined_without))]
pub(crate) fn union(
    alloc: Global,
    count: u16,
    one: &[u16],
    other: &[u16],
) -> Result<Vec<u16>, AllocError>
    ensures { IfOk result (λ v. v.items ≡ joined count one.now other.now) }
{
    let mut numbers = Vec::new(alloc);
    for number in 0..count {
        if one.contains(&number) || other.contains(&number) {
            numbers.push(number)?;
        }
    }
    Ok(numbers)
}
