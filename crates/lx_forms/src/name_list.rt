//! Reads lists of names in a text.

ghost use Rattle.std.specs.Prelude.{ℕ, List, ◌≡◌, ◌≢◌, ◌⊎◌, ◌≤◌, ◌<◌, ◌-◌, ◌++◌, [], ◌∷◌, true, false, OnOk, IfErr, MatchOption, length, map, option_map, vec_len};
ghost use Rattle.std.specs.Str.{is_utf8};
ghost use Rattle.lx_forms.specs.NameLists.{AreNamed, AreParts, IsFree, IsFront, IsNoList};
ghost use Rattle.lx_forms.specs.declared.name_list.NameListFault.{NameListFault};

use memchr::memchr;
use std::alloc::{AllocError, AllocFailed};

/// Reason why a text is no list of names.
#[derive(Clone, Copy, Debug, PartialEq, Eq)]
pub enum NameListFault {
    /// The part for the name with this number, counted from 1, is empty or isn't UTF-8 (RFC 3629).
    NoName(usize),
    /// There are more names than the caller accepts.
    TooMany,
    /// An allocation failed.
    Memory,
}

impl From<AllocError> for NameListFault {
    ghost use Rattle.std.specs.Prelude.{◌≡◌};
    ghost use Rattle.lx_forms.specs.declared.name_list.NameListFault.{NameListFault};

    ghost from_gives = { λ _ fault. fault ≡ NameListFault.Memory };

    fn from(_error: AllocError) -> NameListFault {
        NameListFault::Memory
    }
}

impl<T: Drop> From<AllocFailed<T>> for NameListFault {
    ghost use Rattle.std.specs.Prelude.{◌≡◌};
    ghost use Rattle.lx_forms.specs.declared.name_list.NameListFault.{NameListFault};

    ghost from_gives = { λ _ fault. fault ≡ NameListFault.Memory };

    fn from(_error: AllocFailed<T>) -> NameListFault {
        NameListFault::Memory
    }
}

// Splits a text at its first separator: the part before it, and the part after it if there is one.
fn first_part(text: &[u8], separator: u8) -> (&[u8], Option<&[u8]>)
    ensures free { IsFree separator result.0.now }
    ensures parts { AreParts separator text.now result.0.now
        (option_map (λ rest. rest.now) result.1) }
{
    match memchr(separator, text) {
        Some(end) => (&text[..end], Some(&text[end + 1..])),
        None => (text, None),
    }
}

// Reads bytes as a name. Returns `None` if they are empty or not UTF-8.
fn name_in(bytes: &[u8]) -> Option<&str>
    ensures { MatchOption result ((bytes.now ≡ []) ⊎ (is_utf8 bytes.now ≡ false))
        (λ name. (name.now ≡ bytes.now) × (bytes.now ≢ []) × (is_utf8 bytes.now ≡ true)) }
{
    if bytes.is_empty() {
        return None;
    }
    match str::from_utf8(bytes) {
        Ok(name) => Some(name),
        Err(_) => None,
    }
}

/// Appends the names of a text to the list. Each name ends with a separator, which the last one may lack. The list has at most `most` names in the
/// end. After a fault, the names before it were appended. For a front part of a text that has too many names, the result is that for the whole text.
pub fn push_names<'a>(
    names: &mut Vec<&'a str>,
    text: &'a [u8],
    separator: u8,
    most: usize,
) -> Result<(), NameListFault>
    ensures ok { OnOk result (AreNamed separator text.now (map (λ name. name.now) names.old.items)
        (map (λ name. name.now) names.new.items)) }
    ensures few { OnOk result (vec_len names.old ≤ most → vec_len names.new ≤ most) }
    ensures err { IfErr result (IsNoList separator text.now (most - vec_len names.old)) }
    ensures ok_of_front { OnOk result ((whole : List ℕ) → vec_len names.old ≤ most
        → IsFront separator (most - vec_len names.old) whole text.now → whole ≡ text.now) }
    ensures err_of_front { IfErr result (λ fault.
        (whole : List ℕ) → IsFront separator (most - vec_len names.old) whole text.now
        → IsNoList separator whole (most - vec_len names.old) fault) }
{
    let begun = names.len();
    let mut rest = text;
    while !rest.is_empty() {
        if names.len() >= most {
            return Err(NameListFault::TooMany);
        }
        let (bytes, behind) = first_part(rest, separator);
        let Some(name) = name_in(bytes) else {
            return Err(NameListFault::NoName(names.len() - begun + 1));
        };
        names.push(name)?;
        rest = behind.unwrap_or(&[]);
    }
    Ok(())
}
