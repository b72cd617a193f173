//! The sets of bytes of flex's patterns (flex's manual, "Patterns").

ghost use Rattle.std.specs.Prelude.{◌≡◌, ◌||◌, ℕ, Bool, map, not};
ghost use Rattle.lx_ere.specs.Bytes.{bytes_where, in_ranges};
ghost use Rattle.lx_flex_pattern.specs.Lexing.{period_set};
ghost use Rattle.lx_flex_pattern.specs.Members.{member_of};
ghost use Rattle.lx_flex_pattern.specs.Sets as specs;

use crate::brackets::BracketMember;
use lx_ere::ByteSet;

fn is_upper(byte: u8) -> bool
    ensures { result ≡ specs.is_upper byte }
{
    byte.is_ascii_uppercase()
}

fn is_lower(byte: u8) -> bool
    ensures { result ≡ specs.is_lower byte }
{
    byte.is_ascii_lowercase()
}

/// Returns true if the byte is a letter.
pub(crate) fn is_letter(byte: u8) -> bool
    ensures { result ≡ specs.is_letter byte }
{
    is_upper(byte) || is_lower(byte)
}

// Returns the letter of the other case. Returns any other byte unchanged.
fn other_case(byte: u8) -> u8
    ensures { result ≡ specs.other_case byte }
{
    if is_upper(byte) {
        byte + 32
    } else if is_lower(byte) {
        byte - 32
    } else {
        byte
    }
}

// Adds the bytes from one to another, and those of the other case if case is ignored.
fn insert_range(set: &mut ByteSet, fold: bool, low: u8, high: u8)
    ensures { (test : ℕ → Bool) → set.old ≡ bytes_where test
        → set.new ≡ bytes_where (λ b. specs.range_has fold low high b || test b) }
{
    set.insert_range(low, high);
    if fold && is_letter(low) && is_letter(high) {
        set.insert_range(other_case(low), other_case(high));
    }
}

/// Returns the set of a byte, and of its other case if case is ignored.
pub(crate) fn byte_set(fold: bool, byte: u8) -> ByteSet
    ensures { result ≡ specs.byte_set fold byte }
{
    let mut set = ByteSet::empty();
    insert_range(&mut set, fold, byte, byte);
    set
}

/// Returns the set of a period.
pub(crate) fn period_set(dot_all: bool) -> ByteSet
    ensures { result ≡ period_set dot_all }
{
    if dot_all {
        ByteSet::empty().complement()
    } else {
        ByteSet::all_but(b'\n')
    }
}

// Adds the bytes outside the ranges.
fn insert_outside(set: ByteSet, ranges: &[(u8, u8)]) -> ByteSet
    ensures { (test : ℕ → Bool) → set ≡ bytes_where test
        → result ≡ bytes_where (λ b. not (in_ranges ranges.now b) || test b) }
{
    let mut inside = ByteSet::empty();
    inside.insert_ranges(ranges);
    set.union(&inside.complement())
}

// Adds the bytes of a member of brackets.
fn insert_member(set: ByteSet, fold: bool, member: BracketMember) -> ByteSet
    ensures { (test : ℕ → Bool) → set ≡ bytes_where test
        → result ≡ bytes_where (λ b. specs.member_has fold (member_of member) b || test b) }
{
    let mut set = set;
    match member {
        BracketMember::Range(low, high) => insert_range(&mut set, fold, low, high),
        BracketMember::Among(ranges) => set.insert_ranges(ranges),
        BracketMember::Outside(ranges) => return insert_outside(set, ranges),
        BracketMember::Ambiguous => {}
    }
    set
}

/// Returns the set of brackets with these members.
pub(crate) fn members_set(fold: bool, members: &[BracketMember]) -> ByteSet
    ensures { result ≡ specs.members_set fold (map member_of members.now) }
{
    let mut set = ByteSet::empty();
    for member in members {
        set = insert_member(set, fold, *member);
    }
    set
}

/// Returns the bytes of the first set that the second hasn't.
pub(crate) fn difference(set: &ByteSet, other: &ByteSet) -> ByteSet
    ensures { result ≡ specs.difference set.now other.now }
{
    set.complement().union(other).complement()
}
