//! Reads bracket expressions (POSIX.1-2017, XBD 9.3.5, with the escapes of `lex`).

ghost use Rattle.std.specs.Prelude.{◌≡◌, ◌||◌, ℕ, Bool};
ghost use Rattle.std.specs.Option.{option_map};
ghost use Rattle.lx_ere.specs.Bytes.{bytes_where, in_ranges};
ghost use Rattle.lx_ere.specs.Brackets.{inside, is_inside, is_opening, stands_alone, range_follows, class_ranges, in_members};
ghost use Rattle.lx_ere.specs.Spelling.{is_name_byte};
ghost use Rattle.lx_ere.specs.Lexing.{run_len, all_items_at, marked_byte_at, bare_point_at, point_at, range_end_at, member_from, class_at, member_at, members_set, with_members, members_at, bracket_at};
ghost use Rattle.lx_ere.specs.Tokens.{position_of, ranges_of};

use crate::escape::escape_at;
use crate::name::name_run;
use crate::prefix::{begins_pair, begins_with, skip, strip_byte};
use crate::set::ByteSet;

/// A position in the brackets.
#[derive(Clone, Copy)]
enum BracketPosition {
    /// The position directly after `[`.
    Opening,
    /// The position directly after `[^`.
    BehindCaret,
    /// Any later position.
    Inside,
}

/// A member of the brackets.
#[derive(Clone, Copy)]
enum Member {
    /// The bytes from the first one to the second.
    Range(u8, u8),
    /// The ranges of a class.
    Class(&'static [(u8, u8)]),
}

fn is_opening(position: BracketPosition) -> bool
    ensures { result ≡ is_opening (position_of position) }
{
    match position {
        BracketPosition::Opening => true,
        BracketPosition::BehindCaret | BracketPosition::Inside => false,
    }
}

fn is_inside(position: BracketPosition) -> bool
    ensures { result ≡ is_inside (position_of position) }
{
    match position {
        BracketPosition::Opening | BracketPosition::BehindCaret => false,
        BracketPosition::Inside => true,
    }
}

/// Returns true if the byte represents itself here. `behind` is the text after it.
fn stands_alone(position: BracketPosition, c: u8, behind: &[u8]) -> bool
    ensures { result ≡ stands_alone (position_of position) c behind.now }
{
    let special = c == b']' || c == b'\\' || c == b'-' || c == b'\n';
    let caret = is_opening(position) && c == b'^';
    let opens = c == b'['
        && (begins_with(b':', behind) || begins_with(b'.', behind) || begins_with(b'=', behind));
    !(special || caret || opens)
}

/// Returns true if a `-` follows that isn't directly before the closing bracket.
fn range_follows(text: &[u8]) -> bool
    ensures { result ≡ range_follows text.now }
{
    begins_with(b'-', text) && !begins_with(b']', skip(1, text))
}

/// Reads one byte, the mark and `]`, as in `[.c.]`, starting after `[.`.
fn marked_byte_at(mark: u8, text: &[u8]) -> Option<(u8, &[u8])>
    ensures { option_map (λ f. (f.0, f.1.now)) result ≡ marked_byte_at mark text.now }
{
    let (byte, rest) = text.split_first()?;
    if *byte == b'\n' {
        return None;
    }
    let behind = strip_byte(b']', strip_byte(mark, rest)?)?;
    Some((*byte, behind))
}

/// Reads the point that begins with this byte, which isn't a backslash.
fn bare_point_at(position: BracketPosition, c: u8, rest: &[u8]) -> Option<(u8, &[u8])>
    ensures { option_map (λ f. (f.0, f.1.now)) result
        ≡ bare_point_at (position_of position) c rest.now }
{
    if c == b']' {
        if is_inside(position) {
            None
        } else {
            Some((b']', rest))
        }
    } else if c == b'-' {
        if !is_inside(position) || begins_with(b']', rest) {
            Some((b'-', rest))
        } else {
            None
        }
    } else if c == b'[' && begins_with(b'.', rest) {
        marked_byte_at(b'.', skip(1, rest))
    } else if stands_alone(position, c, rest) {
        Some((c, rest))
    } else {
        None
    }
}

/// Reads the point at the start. Returns it with the text after it.
fn point_at(position: BracketPosition, text: &[u8]) -> Option<(u8, &[u8])>
    ensures { option_map (λ f. (f.0, f.1.now)) result ≡ point_at (position_of position) text.now }
{
    let (first, rest) = text.split_first()?;
    if *first == b'\\' {
        escape_at(rest)
    } else {
        bare_point_at(position, *first, rest)
    }
}

/// Reads the end of a range, starting after its `-`.
fn range_end_at(text: &[u8]) -> Option<(u8, &[u8])>
    ensures { option_map (λ f. (f.0, f.1.now)) result ≡ range_end_at text.now }
{
    if begins_with(b'-', text) {
        Some((b'-', skip(1, text)))
    } else {
        point_at(BracketPosition::Inside, text)
    }
}

/// Reads the member that begins with this point.
fn member_from(low: u8, rest: &[u8]) -> Option<(Member, &[u8])>
    ensures { option_map (λ f. (ranges_of f.0, f.1.now)) result ≡ member_from (low, rest.now) }
{
    if !range_follows(rest) {
        return Some((Member::Range(low, low), rest));
    }
    let (high, behind) = range_end_at(skip(1, rest))?;
    if low <= high {
        Some((Member::Range(low, high), behind))
    } else {
        None
    }
}

/// Returns the ranges of a class by its name, in the POSIX locale.
pub fn class_ranges(name: &[u8]) -> Option<&'static [(u8, u8)]>
    ensures { option_map (λ r. r.now) result ≡ class_ranges name.now }
{
    if name == b"upper".as_slice() {
        Some(&[(b'A', b'Z')])
    } else if name == b"lower".as_slice() {
        Some(&[(b'a', b'z')])
    } else if name == b"alpha".as_slice() {
        Some(&[(b'A', b'Z'), (b'a', b'z')])
    } else if name == b"digit".as_slice() {
        Some(&[(b'0', b'9')])
    } else if name == b"alnum".as_slice() {
        Some(&[(b'0', b'9'), (b'A', b'Z'), (b'a', b'z')])
    } else if name == b"xdigit".as_slice() {
        Some(&[(b'0', b'9'), (b'A', b'F'), (b'a', b'f')])
    } else if name == b"space".as_slice() {
        Some(&[(b'\t', b'\r'), (b' ', b' ')])
    } else if name == b"blank".as_slice() {
        Some(&[(b'\t', b'\t'), (b' ', b' ')])
    } else if name == b"punct".as_slice() {
        Some(&[(b'!', b'/'), (b':', b'@'), (b'[', b'`'), (b'{', b'~')])
    } else if name == b"print".as_slice() {
        Some(&[(b' ', b'~')])
    } else if name == b"graph".as_slice() {
        Some(&[(b'!', b'~')])
    } else if name == b"cntrl".as_slice() {
        Some(&[(0, 31), (127, 127)])
    } else {
        None
    }
}

/// Reads a class, starting after its `[:`.
fn class_at(text: &[u8]) -> Option<(Member, &[u8])>
    ensures { option_map (λ f. (ranges_of f.0, f.1.now)) result ≡ class_at text.now }
{
    let n = name_run(text);
    let ranges = class_ranges(&text[..n])?;
    let behind = strip_byte(b']', strip_byte(b':', skip(n, text))?)?;
    Some((Member::Class(ranges), behind))
}

/// Reads the member at the start. Returns it with the text after it.
fn member_at(position: BracketPosition, text: &[u8]) -> Option<(Member, &[u8])>
    ensures { option_map (λ f. (ranges_of f.0, f.1.now)) result
        ≡ member_at (position_of position) text.now }
{
    if begins_pair(b'[', b':', text) {
        class_at(skip(2, text))
    } else if begins_pair(b'[', b'=', text) {
        let (byte, behind) = marked_byte_at(b'=', skip(2, text))?;
        Some((Member::Range(byte, byte), behind))
    } else {
        let (low, behind) = point_at(position, text)?;
        member_from(low, behind)
    }
}

/// Adds the bytes of a member.
fn insert_member(set: &mut ByteSet, member: Member)
    ensures { (test : ℕ → Bool) → set.old ≡ bytes_where test
        → set.new ≡ bytes_where (λ b. in_ranges (ranges_of member) b || test b) }
{
    match member {
        Member::Range(first, last) => set.insert_range(first, last),
        Member::Class(ranges) => set.insert_ranges(ranges),
    }
}

/// Adds the bytes of the members up to the closing bracket to a set.
fn read_members(mut set: ByteSet, text: &[u8]) -> Option<(ByteSet, &[u8])>
    ensures { (test : ℕ → Bool) → set ≡ bytes_where test →
        option_map (λ f. (f.0, f.1.now)) result ≡ option_map (with_members test) (all_items_at (member_at inside) 93 text.now) }
{
    let mut rest = text;
    while !begins_with(b']', rest) {
        let Some((member, behind)) = member_at(BracketPosition::Inside, rest) else {
            return None;
        };
        insert_member(&mut set, member);
        rest = behind;
    }
    Some((set, skip(1, rest)))
}

/// Reads the members up to the closing bracket. Returns their set with the text after it.
fn members_at(position: BracketPosition, text: &[u8]) -> Option<(ByteSet, &[u8])>
    ensures { option_map (λ f. (f.0, f.1.now)) result
        ≡ option_map members_set (members_at (position_of position) text.now) }
{
    let Some((first, rest)) = member_at(position, text) else {
        return None;
    };
    let mut set = ByteSet::empty();
    insert_member(&mut set, first);
    read_members(set, rest)
}

/// Reads a bracket expression, starting after its `[`. Returns its set with the text after it.
pub(crate) fn bracket_at(text: &[u8]) -> Option<(ByteSet, &[u8])>
    ensures { option_map (λ f. (f.0, f.1.now)) result ≡ bracket_at text.now }
{
    if begins_with(b'^', text) {
        match members_at(BracketPosition::BehindCaret, skip(1, text)) {
            Some((set, behind)) => Some((set.complement(), behind)),
            None => None,
        }
    } else {
        members_at(BracketPosition::Opening, text)
    }
}
