//! Compares sets, trees and patterns: other spellings of one reading, a difference in each part, and deep trees that lean either way.

use crate::texts::{holds, put, put_times, unwrap_text};
use lx_ere::{ByteSet, Expr, Pattern, read_pattern, read_substitute};
use std::alloc::AllocError;
use std::process::Abort;

/// The text of a deep tree: a head, a repeated front, a middle, and an equally repeated back. Has a second head and a second middle, which are
/// deepest in the tree.
struct DeepText {
    heads: (&'static str, &'static str),
    front: &'static str,
    times: usize,
    middles: (&'static str, &'static str),
    back: &'static str,
}

/// Trees of texts of 1,023 bytes: `Or`, `Then` and `Times` leaning to the left, `Or` and `Then` leaning to the right.
const SHAPES: &[DeepText] = &[
    DeepText {
        heads: ("a", "b"),
        front: "|a",
        times: 511,
        middles: ("", ""),
        back: "",
    },
    DeepText {
        heads: ("a", "b"),
        front: "a",
        times: 1022,
        middles: ("", ""),
        back: "",
    },
    DeepText {
        heads: ("a", "b"),
        front: "*",
        times: 1022,
        middles: ("", ""),
        back: "",
    },
    DeepText {
        heads: ("", ""),
        front: "a|(",
        times: 255,
        middles: ("abc", "abd"),
        back: ")",
    },
    DeepText {
        heads: ("", ""),
        front: "a(",
        times: 340,
        middles: ("abc", "abd"),
        back: ")",
    },
];

/// Returns the text of a shape with this head and this middle.
fn text_of<R: Abort + AllocGlobal>(rt: &R, shape: &DeepText, head: &str, middle: &str) -> String {
    let mut text = String::new(rt.alloc());
    put(rt, &mut text, head);
    put_times(rt, &mut text, shape.front, shape.times);
    put(rt, &mut text, middle);
    put_times(rt, &mut text, shape.back, shape.times);
    text
}

/// Returns true if `==` and `!=` compare two patterns as expected, either way round, and if `==` holds between a pattern and itself.
fn are_compared(left: &Pattern, right: &Pattern, equal: bool) -> bool {
    (left == right) == equal
        && (right == left) == equal
        && (left != right) != equal
        && (right != left) != equal
        && left == left
}

/// Reads the pattern of a text.
fn pattern_of<R: Abort + AllocGlobal>(rt: &R, text: &str) -> Pattern {
    read_pattern(rt.alloc(), text.as_bytes()).expect(rt, text)
}

/// Reads the tree of a text.
fn tree_of<R: Abort + AllocGlobal>(rt: &R, text: &str) -> Expr {
    read_substitute(rt.alloc(), text.as_bytes()).expect(rt, text)
}

/// Asserts that the patterns of two texts are equal, or that they aren't.
fn compare<R: Abort + AllocGlobal>(rt: &R, first: &str, second: &str, equal: bool) {
    let left = pattern_of(rt, first);
    let right = pattern_of(rt, second);
    expect_compared(rt, are_compared(&left, &right, equal), first, second);
}

/// Asserts that two texts are compared as expected.
fn expect_compared(rt: &impl Abort, is_so: bool, first: &str, second: &str) {
    assert!(rt; is_so, "{first} {second}");
}

/// Asserts that the patterns of each pair of texts are equal, or that they aren't.
fn compare_all<R: Abort + AllocGlobal>(rt: &R, rows: &[(&str, &str)], equal: bool) {
    for (first, second) in rows {
        compare(rt, first, second, equal);
    }
}

/// Spellings of one reading.
const ALIKE: &[(&str, &str)] = &[
    ("a", "a"),
    ("a", "(a)"),
    ("abc", "(ab)c"),
    ("a|b|c", "(a|b)|c"),
    ("\\x61", "a"),
    ("[ba]", "[ab]"),
    ("[a-c]", "[abc]"),
    ("a+", "a{1,}"),
    ("a*", "a{0,}"),
    ("a?", "a{0,1}"),
    ("a{3}", "a{3,3}"),
    ("{Digit}", "({Digit})"),
    ("^a$", "^a/\\n"),
    ("\"ab\"", "ab"),
];

/// Spellings of other readings.
const OTHER: &[(&str, &str)] = &[
    ("a", "b"),
    ("a", "ab"),
    ("ab", "a|b"),
    ("ab", "bb"),
    ("ab", "aa"),
    ("a|b", "b|b"),
    ("a|b", "a|a"),
    ("a(bc)", "abc"),
    ("a|(b|c)", "a|b|c"),
    ("[a-c]", "[a-d]"),
    ("a", "a{1}"),
    ("a*", "b*"),
    ("a*", "a+"),
    ("a+", "a{1}"),
    ("a{1,2}", "a{1,3}"),
    ("{Digit}", "{Digits}"),
    ("{Digit}", "D"),
    ("^a", "a"),
    ("a$", "a"),
    ("^a", "a$"),
];

#[test]
fn patterns_are_equal_where_their_readings_are(rt: HostRuntime) {
    compare_all(&rt, ALIKE, true);
    compare_all(&rt, OTHER, false);
}

/// Compares a text of 1,023 bytes with itself and with another one.
fn compare_with_both<R: Abort + AllocGlobal>(rt: &R, text: &str, other: &str) {
    assert!(rt; text.as_bytes().len() == 1023);
    compare(rt, text, text, true);
    compare(rt, text, other, false);
}

/// Compares the two texts of a shape.
fn compare_shape<R: Abort + AllocGlobal>(rt: &R, shape: &DeepText) {
    let text = text_of(rt, shape, shape.heads.0, shape.middles.0);
    let other = text_of(rt, shape, shape.heads.1, shape.middles.1);
    compare_with_both(rt, text.as_str(), other.as_str());
}

#[test]
fn deep_trees_are_compared(rt: HostRuntime) {
    for shape in SHAPES {
        compare_shape(&rt, shape);
    }
}

/// Asserts that a tree is equal to that of a text, or that it isn't, and that it is equal to itself and not empty.
fn compare_tree<R: Abort + AllocGlobal>(rt: &R, left: &Expr, text: &str, equal: bool) {
    let right = tree_of(rt, text);
    holds(rt, (*left == right) == equal, text);
    holds(rt, (*left != right) != equal, text);
    holds(rt, right == right, text);
}

/// Asserts that a tree differs from the empty one, either way round.
fn is_not_empty(rt: &impl Abort, tree: &Expr) {
    holds(rt, Expr::Nil == Expr::Nil, "nil");
    holds(rt, *tree != Expr::Nil, "tree");
    holds(rt, Expr::Nil != *tree, "tree");
}

#[test]
fn trees_of_substitutes_are_compared(rt: HostRuntime) {
    let left = tree_of(&rt, "a|b{2,}");
    compare_tree(&rt, &left, "(a)|(b{2,})", true);
    compare_tree(&rt, &left, "a|b{3,}", false);
    is_not_empty(&rt, &left);
}

/// Reads the set of a text, if it is one.
fn set_of<R: Abort + AllocGlobal>(rt: &R, text: Result<String, AllocError>) -> Option<ByteSet> {
    let text = unwrap_text(rt, text);
    match tree_of(rt, text.as_str()) {
        Expr::Set(set) => Some(set),
        _other => None,
    }
}

/// Returns the set of a byte, by its octal digits.
fn octal_set<R: Abort + AllocGlobal>(rt: &R, byte: u8) -> Option<ByteSet> {
    set_of(rt, format!(in rt.alloc(); "\\{byte:03o}"))
}

/// Returns the set of a byte, by its hexadecimal digits.
fn hexadecimal_set<R: Abort + AllocGlobal>(rt: &R, byte: u8) -> Option<ByteSet> {
    set_of(rt, format!(in rt.alloc(); "\\x{byte:x}"))
}

/// Returns the set of all bytes except one.
fn rest_set<R: Abort + AllocGlobal>(rt: &R, byte: u8) -> Option<ByteSet> {
    set_of(rt, format!(in rt.alloc(); "[^\\{byte:03o}]"))
}

/// Compares a byte's set with itself, its complement and the set of the opposite byte.
fn compare_sets<R: Abort + AllocGlobal>(rt: &R, byte: u8) {
    let one = octal_set(rt, byte);
    let same = hexadecimal_set(rt, byte);
    let rest = rest_set(rt, byte);
    let other = octal_set(rt, 255 - byte);
    assert!(rt;
        one.is_some() && one == same && one != rest && one != other,
        "{byte}"
    );
}

#[test]
fn sets_are_equal_where_they_have_the_same_bytes(rt: HostRuntime) {
    for byte in 0..=255u8 {
        compare_sets(&rt, byte);
    }
}
