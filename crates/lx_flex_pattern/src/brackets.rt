//! Bracket expressions (flex's manual, "Patterns").

ghost use Rattle.std.specs.Prelude.{◌≡◌, ◌∷◌, ◌++◌, ◌≤◌, IfErr, IfOk, List, false, length, map, true, ℕ};
ghost use Rattle.std.specs.FinSet.{FinSet};
ghost use Rattle.std.specs.Option.{option_map};
ghost use Rattle.std.specs.Ordering.{nat_cmp};
ghost use Rattle.lx_ere.specs.Lexing.{all_items_at, run_len};
ghost use Rattle.lx_flex_pattern.specs.Faults.{is_limit};
ghost use Rattle.lx_flex_pattern.specs.Members.{member_of};
ghost use Rattle.lx_flex_pattern.specs.Sets as sets;
ghost use Rattle.lx_flex_pattern.specs.Spelling as specs;

use crate::fault::PatternFault;
use crate::sets::{is_letter, members_set};
use crate::spelling::point_at;
use lx_ere::ByteSet;
use lx_ere::bracket::class_ranges;
use lx_ere::prefix::{begins_pair, begins_with, skip};
use std::alloc::{AllocError, Global};

/// A member of brackets.
#[derive(Clone, Copy, Debug)]
pub enum BracketMember {
    /// The bytes from one to another.
    Range(u8, u8),
    /// The bytes of a class.
    Among(&'static [(u8, u8)]),
    /// The bytes that a class hasn't.
    Outside(&'static [(u8, u8)]),
    /// `[:^upper:]` or `[:^lower:]` where case is ignored. flex warns that this is ambiguous, and adds no byte.
    Ambiguous,
}

/// A set in brackets.
#[derive(Drop)]
pub(crate) struct BracketSet {
    pub(crate) set: ByteSet,
    /// True if the set has all bytes except those of the members.
    pub(crate) excluded: bool,
}

// Returns the number of letters at the start.
#[tactic(auto, using(lx_ere::specs::RunLaws::run_steps))]
fn letter_run(text: &[u8]) -> usize
    ensures value { result ≡ run_len sets.is_letter (length text.now) text.now }
    ensures within { result ≤ length text.now }
{
    let mut n = 0;
    while n < text.len() && is_letter(text[n]) {
        n += 1;
    }
    n
}

// Reads the name of a class and its `:]`, starting after `[:` or `[:^`.
fn class_name_at(text: &[u8]) -> Option<(&[u8], &[u8])>
    ensures { option_map (λ f. (f.0.now, f.1.now)) result ≡ specs.class_name_at text.now }
{
    let n = letter_run(text);
    if n != 0 && begins_pair(b':', b']', skip(n, text)) {
        Some((&text[..n], skip(2, skip(n, text))))
    } else {
        None
    }
}

// Reads a class. Returns its name, with a flag that is true if it has a `^`.
fn class_at(text: &[u8]) -> Option<((bool, &[u8]), &[u8])>
    ensures { option_map (λ f. ((f.0.0, f.0.1.now), f.1.now)) result ≡ specs.class_at text.now }
{
    if !begins_pair(b'[', b':', text) {
        return None;
    }
    if begins_with(b'^', skip(2, text)) {
        let (name, behind) = class_name_at(skip(3, text))?;
        Some(((true, name), behind))
    } else {
        let (name, behind) = class_name_at(skip(2, text))?;
        Some(((false, name), behind))
    }
}

// Returns true if the class has letters of one case.
fn is_cased(name: &[u8]) -> bool
    ensures { result ≡ specs.is_cased name.now }
{
    name == b"upper".as_slice() || name == b"lower".as_slice()
}

// Returns the class with this name.
fn class_member(fold: bool, negated: bool, name: &[u8]) -> Option<BracketMember>
    ensures { option_map member_of result ≡ specs.class_member fold negated name.now }
{
    if fold && is_cased(name) {
        if negated {
            return Some(BracketMember::Ambiguous);
        }
        return Some(BracketMember::Among(&[(b'A', b'Z'), (b'a', b'z')]));
    }
    let ranges = class_ranges(name)?;
    if negated {
        Some(BracketMember::Outside(ranges))
    } else {
        Some(BracketMember::Among(ranges))
    }
}

// Returns true if the byte that is next lets a `-` before it mean a range.
fn ends_range(text: &[u8]) -> bool
    ensures { result ≡ specs.ends_range text.now }
{
    match text {
        [first, ..] => !(*first == b']' || *first == b'\n'),
        [] => false,
    }
}

// Returns true if a `-` that means a range is next.
fn starts_range(text: &[u8]) -> bool
    ensures { result ≡ specs.starts_range text.now }
{
    match text.split_first() {
        Some((first, rest)) => *first == b'-' && ends_range(rest),
        None => false,
    }
}

// Reads the last byte of a range, starting after its `-`.
fn range_end_at(text: &[u8]) -> Option<(u8, &[u8])>
    ensures { option_map (λ f. (f.0, f.1.now)) result ≡ specs.range_end_at text.now }
{
    if starts_range(text) || class_at(text).is_some() {
        None
    } else {
        point_at(text)
    }
}

// Returns the member that begins with this byte: the byte itself, or a range.
fn member_from(low: u8, text: &[u8]) -> Option<(BracketMember, &[u8])>
    ensures { option_map (λ f. (member_of f.0, f.1.now)) result ≡ specs.member_from (low, text.now) }
{
    if !starts_range(text) {
        return Some((BracketMember::Range(low, low), text));
    }
    let (high, behind) = range_end_at(skip(1, text))?;
    if low <= high {
        Some((BracketMember::Range(low, high), behind))
    } else {
        None
    }
}

// Reads a byte or a range.
fn bytes_at(first: bool, text: &[u8]) -> Option<(BracketMember, &[u8])>
    ensures { option_map (λ f. (member_of f.0, f.1.now)) result ≡ specs.bytes_at first text.now }
{
    if !first && starts_range(text) {
        return None;
    }
    let (low, rest) = point_at(text)?;
    member_from(low, rest)
}

// Reads a member of brackets: a class, a byte or a range.
fn member_at(first: bool, fold: bool, text: &[u8]) -> Option<(BracketMember, &[u8])>
    ensures { option_map (λ f. (member_of f.0, f.1.now)) result
        ≡ specs.member_at first fold text.now }
{
    match class_at(text) {
        Some(((negated, name), behind)) => {
            let member = class_member(fold, negated, name)?;
            Some((member, behind))
        }
        None => bytes_at(first, text),
    }
}

// Reads the members after the first one, up to the closing bracket. Adds them to the list.
fn more_members_at(
    members: Vec<BracketMember>,
    fold: bool,
    text: &[u8],
) -> Result<Option<(Vec<BracketMember>, &[u8])>, AllocError>
    ensures { IfOk result (λ o.
        option_map (λ f. (map member_of f.0.items, f.1.now)) o
        ≡ option_map {U = List sets.Member × List ℕ} (λ g. (map member_of members.items ++ g.0, g.1))
        (all_items_at (specs.member_at false fold) 93 text.now)) }
{
    let mut members = members;
    let mut rest = text;
    // each member takes at least one byte
    for _byte in text {
        if begins_with(b']', rest) {
            return Ok(Some((members, skip(1, rest))));
        }
        let Some((member, behind)) = member_at(false, fold, rest) else {
            return Ok(None);
        };
        members.push(member)?;
        rest = behind;
    }
    if begins_with(b']', rest) {
        Ok(Some((members, skip(1, rest))))
    } else {
        Ok(None)
    }
}

// Reads the members of brackets, starting after `[` or `[^`.
fn members_at(
    alloc: Global,
    fold: bool,
    text: &[u8],
) -> Result<Option<(Vec<BracketMember>, &[u8])>, AllocError>
    ensures { IfOk result (λ o.
        option_map (λ f. (map member_of f.0.items, f.1.now)) o
        ≡ option_map {U = List sets.Member × List ℕ} (λ g. (g.0 ∷ g.1, g.2))
        (specs.members_at fold text.now)) }
{
    let Some((member, rest)) = member_at(true, fold, text) else {
        return Ok(None);
    };
    let mut members = Vec::new(alloc);
    members.push(member)?;
    more_members_at(members, fold, rest)
}

// Returns true if a `^` is next, with a byte but a newline after it.
fn is_excluding(text: &[u8]) -> bool
    ensures { result ≡ specs.is_excluding text.now }
{
    match text {
        [first, second, ..] => *first == b'^' && *second != b'\n',
        _ => false,
    }
}

// Returns the fault of a text that flex doesn't read as a member of brackets.
fn member_fault(text: &[u8]) -> PatternFault {
    if text.is_empty() || begins_with(b'\n', text) {
        return PatternFault::NotClosed;
    }
    if class_at(text).is_some() {
        return PatternFault::UnknownClass;
    }
    if let Some((low, behind)) = point_at(text) {
        if let Some((high, _)) = range_end_at(skip(1, behind)) {
            if high < low {
                return PatternFault::BackwardRange;
            }
        }
    }
    PatternFault::NoForm
}

/// Returns the fault of a text that flex doesn't read as brackets, starting after the `[`.
pub(crate) fn brackets_fault(fold: bool, text: &[u8]) -> PatternFault {
    let mut rest = if is_excluding(text) {
        skip(1, text)
    } else {
        text
    };
    let mut first = true;
    for _byte in text {
        let Some((_member, behind)) = member_at(first, fold, rest) else {
            break;
        };
        first = false;
        rest = behind;
    }
    member_fault(rest)
}

// Returns true if a member has no clear meaning.
fn are_ambiguous(members: &[BracketMember]) -> bool {
    members
        .iter()
        .any(|it| matches!(it, BracketMember::Ambiguous))
}

// Reads the members of brackets, starting after `[` or `[^`. Returns their set.
fn listed_at(
    alloc: Global,
    fold: bool,
    text: &[u8],
) -> Result<Option<(ByteSet, &[u8])>, PatternFault>
    ensures ok { IfOk result (λ o. option_map (λ f. (f.0, f.1.now)) o
        ≡ option_map {U = FinSet nat_cmp × List ℕ} (λ f. (sets.members_set fold (f.0 ∷ f.1), f.2))
        (specs.members_at fold text.now)) }
    ensures err { IfErr result (λ fault. is_limit fault ≡ true) }
{
    let Some((members, behind)) = members_at(alloc, fold, text)? else {
        return Ok(None);
    };
    if are_ambiguous(members.as_slice()) {
        return Err(PatternFault::AmbiguousClass);
    }
    Ok(Some((members_set(fold, members.as_slice()), behind)))
}

/// Reads brackets, starting after the `[`. Returns the set with the text after it, or `None` if flex has no such brackets.
pub(crate) fn brackets_at(
    alloc: Global,
    fold: bool,
    text: &[u8],
) -> Result<Option<(BracketSet, &[u8])>, PatternFault>
    ensures ok { IfOk result
        (λ o. option_map (λ f. (f.0.set, f.1.now)) o ≡ specs.brackets_at fold text.now) }
    ensures err { IfErr result (λ fault. is_limit fault ≡ true) }
{
    if is_excluding(text) {
        let Some((listed, behind)) = listed_at(alloc, fold, skip(1, text))? else {
            return Ok(None);
        };
        let others = BracketSet {
            set: listed.complement(),
            excluded: true,
        };
        return Ok(Some((others, behind)));
    }
    let Some((set, behind)) = listed_at(alloc, fold, text)? else {
        return Ok(None);
    };
    let listed = BracketSet {
        set,
        excluded: false,
    };
    Ok(Some((listed, behind)))
}
