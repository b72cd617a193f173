//! Tests spellings against readings that were derived by hand from the grammar of `lex`, failed allocations, and deep nesting.

use crate::texts::{holds, put, put_name, put_number, put_times, unwrap_text};
use lx_ere::{ByteSet, EreFault, Expr, Pattern, pattern_end, read_pattern, read_substitute};
use std::process::Abort;

/// Appends a range of bytes, as `65` or `65-90`.
fn show_range(rt: &impl Abort, out: &mut String, first: u8, last: u8) {
    if !out.as_str().ends_with('[') {
        put(rt, out, " ");
    }
    put_number(rt, out, u32::from(first));
    if first < last {
        put(rt, out, "-");
        put_number(rt, out, u32::from(last));
    }
}

/// Appends a set by its ranges, as `[65-90 97-122]`.
fn show_set(rt: &impl Abort, out: &mut String, set: &ByteSet) {
    put(rt, out, "[");
    let mut begun: Option<u8> = None;
    let mut last = 0u8;
    for byte in 0..=255u8 {
        if set.has(byte) {
            begun = Some(begun.unwrap_or(byte));
            last = byte;
        } else if let Some(first) = begun {
            show_range(rt, out, first, last);
            begun = None;
        }
    }
    if let Some(first) = begun {
        show_range(rt, out, first, last);
    }
    put(rt, out, "]");
}

/// Appends an interval, as `{1,2}` or `{1,}`.
fn show_interval(rt: &impl Abort, out: &mut String, low: u8, high: Option<u8>) {
    put(rt, out, "{");
    put_number(rt, out, u32::from(low));
    put(rt, out, ",");
    if let Some(most) = high {
        put_number(rt, out, u32::from(most));
    }
    put(rt, out, "}");
}

/// Appends an expression: `(a b)` one then the other, `(a|b)` either, `a{1,2}` and `a{1,}` repeated, `<D>` a name.
pub(crate) fn show(rt: &impl Abort, out: &mut String, expr: &Expr) {
    match expr {
        Expr::Nil => put(rt, out, "nil"),
        Expr::Set(set) => show_set(rt, out, set),
        Expr::Then(left, right) => {
            put(rt, out, "(");
            show(rt, out, left);
            put(rt, out, " ");
            show(rt, out, right);
            put(rt, out, ")");
        }
        Expr::Or(left, right) => {
            put(rt, out, "(");
            show(rt, out, left);
            put(rt, out, "|");
            show(rt, out, right);
            put(rt, out, ")");
        }
        Expr::Times { body, low, high } => {
            show(rt, out, body);
            show_interval(rt, out, *low, *high);
        }
        Expr::Name(name) => {
            put(rt, out, "<");
            put_name(rt, out, name);
            put(rt, out, ">");
        }
    }
}

/// Appends a pattern, with `^ ` before it and ` $` after it if it has these anchors.
pub(crate) fn show_pattern(rt: &impl Abort, out: &mut String, pattern: &Pattern) {
    if pattern.line_begin {
        put(rt, out, "^ ");
    }
    show(rt, out, &pattern.expr);
    if pattern.line_end {
        put(rt, out, " $");
    }
}

/// Returns the reading of a text, or the fault's code.
fn reading<R: Abort + AllocGlobal>(rt: &R, text: &[u8]) -> String {
    match read_pattern(rt.alloc(), text) {
        Ok(pattern) => to_text(rt, &pattern),
        Err(fault) => code(rt, fault),
    }
}

/// Returns a pattern as a text.
fn to_text<R: Abort + AllocGlobal>(rt: &R, pattern: &Pattern) -> String {
    let mut out = String::new(rt.alloc());
    show_pattern(rt, &mut out, pattern);
    out
}

/// Returns a fault's code.
fn code<R: Abort + AllocGlobal>(rt: &R, fault: EreFault) -> String {
    unwrap_text(rt, format!(in rt.alloc(); "{fault}"))
}

/// Asserts that a text with this name was read as expected.
fn expect_reading(rt: &impl Abort, name: &str, got: &str, want: &str) {
    assert!(rt; got == want, "{name} reads as {got}");
}

/// Asserts the reading of a text.
fn expect_pattern<R: Abort + AllocGlobal>(rt: &R, name: &str, text: &[u8], want: &str) {
    let got = reading(rt, text);
    expect_reading(rt, name, got.as_str(), want);
}

/// Asserts the readings of a table, whose lines have a pattern, ` => ` and its reading. Returns the number of lines.
fn expect_table<R: Abort + AllocGlobal>(rt: &R, table: &str) -> usize {
    let mut count = 0usize;
    for line in table.lines() {
        if let Some((pattern, want)) = line.split_once(" => ") {
            expect_pattern(rt, pattern, pattern.as_bytes(), want);
            count = count.saturating_add(1);
        }
    }
    count
}

const ESCAPES: &str = r#"
\a => [7]
\b => [8]
\t => [9]
\n => [10]
\v => [11]
\f => [12]
\r => [13]
\\ => [92]
\0 => [0]
\00 => [0]
\000 => [0]
\0000 => ([0] [48])
\7 => [7]
\012 => [10]
\377 => [255]
\400 => E10
\777 => E10
\08 => ([0] [56])
\18 => ([1] [56])
\8 => [56]
\9 => [57]
\1234 => ([83] [52])
\x => [120]
\xg => ([120] [103])
\xG => ([120] [71])
\x\x => ([120] [120])
\x0 => [0]
\xa => [10]
\x41 => [65]
\x041 => [65]
\x0041 => [65]
\x00000000ff => [255]
\xff => [255]
\xFF => [255]
\xfg => ([15] [103])
\x100 => E10
\X41 => (([88] [52]) [49])
\c => [99]
\e => [101]
\" => [34]
\[ => [91]
\. => [46]
\$ => [36]
\^ => [94]
\/ => [47]
\{ => [123]
\( => [40]
\  => [32]
\ => E10
a\ => E10
"#;

const LEXEMES: &str = r#"
a => [97]
. => [0-9 11-255]
} => [125]
] => [93]
< => [60]
> => [62]
- => [45]
, => [44]
: => [58]
' => [39]
~ => [126]
#! => ([35] [33])
a b => E10
"a" => [97]
"ab" => ([97] [98])
"abc" => (([97] [98]) [99])
"ab"* => ([97] [98]){0,}
"ab"{2} => ([97] [98]){2,2}
c"ab"+ => ([99] ([97] [98]){1,})
"" => E10
"a => E10
a" => E10
" => E10
"a"b => ([97] [98])
"\"" => [34]
"\\" => [92]
"\" => E10
"\ => E10
"\n" => [10]
"\01""1" => ([1] [49])
"\0" => [0]
"\400" => E10
"\x" => [120]
"\x4"1 => ([4] [49])
"\x41" => [65]
"a b" => (([97] [32]) [98])
"[" => [91]
"." => [46]
"*" => [42]
"/" => [47]
"{D}" => (([123] [68]) [125])
{D} => <D>
{_} => <_>
{a1_B} => <a1_B>
{D}* => <D>{0,}
{D}{E} => (<D> <E>)
{D}{1,2} => <D>{1,2}
{1a} => E10
{a-b} => E10
{a b} => E10
{D => E10
{} => E10
{ => E10
"#;

const GRAMMAR: &str = r#"
a* => [97]{0,}
a+ => [97]{1,}
a? => [97]{0,1}
a** => [97]{0,}{0,}
a*+? => [97]{0,}{1,}{0,1}
ab* => ([97] [98]{0,})
abc => (([97] [98]) [99])
* => E10
+a => E10
? => E10
a|b => ([97]|[98])
a|b|c => (([97]|[98])|[99])
ab|c => (([97] [98])|[99])
a| => E10
|a => E10
| => E10
a||b => E10
a|*b => E10
(a) => [97]
((a)) => [97]
(a)(b) => ([97] [98])
(a|b)c => (([97]|[98]) [99])
a(bc) => ([97] ([98] [99]))
(ab)* => ([97] [98]){0,}
() => E10
( => E10
) => E10
(a => E10
a) => E10
(a)) => E10
(|a) => E10
(a|) => E10
(*a) => E10
a{2} => [97]{2,2}
a{2,} => [97]{2,}
a{2,3} => [97]{2,3}
a{0} => [97]{0,0}
a{0,0} => [97]{0,0}
a{0,} => [97]{0,}
a{007} => [97]{7,7}
a{255} => [97]{255,255}
a{000000255} => [97]{255,255}
a{256} => E10
a{0,256} => E10
a{3,2} => E10
a{,2} => E10
a{2 => E10
a{2, => E10
a{2,3 => E10
a{2a} => E10
a{ 2} => E10
a{-1} => E10
a{2,2,2} => E10
a{2}{3} => [97]{2,2}{3,3}
a{2}* => E10
a{2}+ => E10
a{2}? => E10
{2} => E10
a|{2} => E10
({2}) => E10
ab{2} => ([97] [98]){2,2}
ab{2}c{2} => (([97] [98]){2,2} [99]){2,2}
a{2}b => ([97]{2,2} [98])
a{2}b* => ([97]{2,2} [98]{0,})
a|b{2} => ([97]|[98]{2,2})
a|bc{2} => ([97]|([98] [99]){2,2})
a(b{2}) => ([97] [98]{2,2})
a(bc{2}) => ([97] ([98] [99]){2,2})
(ab{2})* => ([97] [98]){2,2}{0,}
a*{2} => [97]{0,}{2,2}
"#;

const ANCHORS: &str = r#"
^a => ^ [97]
a$ => [97] $
^a$ => ^ [97] $
a/\n => [97] $
^a/\n => ^ [97] $
^a|b => ^ ([97]|[98])
a|b$ => ([97]|[98]) $
x*$ => [120]{0,} $
^a(b|"cd"){Digit}[e-f]*x{2}|yz$ => ^ ((((([97] ([98]|([99] [100]))) <Digit>) [101-102]{0,}) [120]){2,2}|([121] [122])) $
{D}$ => <D> $
\n$ => [10] $
a{2}$ => [97]{2,2} $
^ => E10
$ => E10
^$ => E10
/\n => E10
^/\n => E10
a^ => E10
^^a => E10
a|^b => E10
(^a) => E10
(a$) => E10
a$b => E10
a$|b => E10
a$$ => E10
a/b => E10
a/ => E10
/ => E10
a/\t => E10
a/\012 => E10
a/\n$ => E10
a/\nb => E10
"#;

const BRACKETS: &str = r#"
[a] => [97]
[abc] => [97-99]
[a-c] => [97-99]
[a-a] => [97]
[a-z0-9_] => [48-57 95 97-122]
[c-a] => E10
[z-a] => E10
[] => E10
[^] => E10
[ => E10
[a => E10
[^a => E10
[a\] => E10
[]] => [93]
[]a] => [93 97]
[a]] => ([97] [93])
[]-a] => [93-97]
[]-] => [45 93]
[a-]] => ([45 97] [93])
[^]] => [0-92 94-255]
[^]-a] => [0-92 98-255]
[^a] => [0-96 98-255]
[^^] => [0-93 95-255]
[^\n] => [0-9 11-255]
[a^] => [94 97]
[\^] => [94]
[\]] => [93]
[\\] => [92]
[\n] => [10]
[\]-a] => [93-97]
[a-] => [45 97]
[-a] => [45 97]
[-] => [45]
[--] => [45]
[---] => [45]
[---a] => [45 97]
[!--] => [33-45]
[!--a] => [33-45 97]
[+--] => [43-45]
[--@] => [45-64]
[a--] => E10
[a\-z] => [45 97 122]
[a-c-] => [45 97-99]
[a-c-e] => E10
[a-c-e-] => E10
[^-] => [0-44 46-255]
[^-a] => [0-44 46-96 98-255]
[^a-] => [0-44 46-96 98-255]
[\101-\103] => [65-67]
[\x41-\x43] => [65-67]
[\x] => [120]
[\0] => [0]
[\400] => E10
[\n-a] => [10-97]
[a-\n] => E10
["] => [34]
[.] => [46]
[$] => [36]
[/] => [47]
[{] => [123]
[(] => [40]
[*] => [42]
[ ] => [32]
[a b] => [32 97-98]
[{D}] => [68 123 125]
[[] => [91]
[[a] => [91 97]
[a[] => [91 97]
[[-a] => [91-97]
[A-[] => [65-91]
[a-[] => E10
[a]* => [97]{0,}
"#;

const BRACKETED: &str = r#"
[[.a.]] => [97]
[[.-.]] => [45]
[[.].]] => [93]
[[...]] => [46]
[[.\.]] => [92]
[[.a.]-c] => [97-99]
[a-[.c.]] => [97-99]
[[.-.]-a] => [45-97]
[[.ab.]] => E10
[[..]] => E10
[[.a] => E10
[[.a.] => E10
[[.] => E10
[[=a=]] => [97]
[[===]] => [61]
[[=a=]b] => [97-98]
[[=a=]-] => [45 97]
[[=a=]-c] => E10
[a-[=c=]] => E10
[[==]] => E10
[[=ab=]] => E10
[[=] => E10
[[:upper:]] => [65-90]
[[:lower:]] => [97-122]
[[:alpha:]] => [65-90 97-122]
[[:digit:]] => [48-57]
[[:alnum:]] => [48-57 65-90 97-122]
[[:xdigit:]] => [48-57 65-70 97-102]
[[:space:]] => [9-13 32]
[[:blank:]] => [9 32]
[[:punct:]] => [33-47 58-64 91-96 123-126]
[[:print:]] => [32-126]
[[:graph:]] => [33-126]
[[:cntrl:]] => [0-31 127]
[^[:cntrl:]] => [32-126 128-255]
[[:digit:][:upper:]] => [48-57 65-90]
[[:alpha:]_] => [65-90 95 97-122]
[_[:digit:]] => [48-57 95]
[[:digit:]-] => [45 48-57]
[-[:digit:]] => [45 48-57]
[[:digit:]-z] => E10
[a-[:digit:]] => E10
[--[:digit:]] => E10
[[:foo:]] => E10
[[:Digit:]] => E10
[[::]] => E10
[[:digit:] => E10
[[:digit] => E10
[[:digit:a] => E10
[[:] => E10
[a[:] => E10
"#;

/// The tables, and the number of rows of each.
const TABLES: &[(&str, usize)] = &[
    (ESCAPES, 50),
    (LEXEMES, 53),
    (GRAMMAR, 70),
    (ANCHORS, 32),
    (BRACKETS, 72),
    (BRACKETED, 51),
];

/// Asserts the readings of a table's patterns, and their number.
fn expect_rows<R: Abort + AllocGlobal>(rt: &R, table: &str, rows: usize) {
    let count = expect_table(rt, table);
    assert!(rt; count == rows, "{count} rows");
}

#[test]
fn patterns_read_as_the_grammar_says(rt: HostRuntime) {
    for (table, rows) in TABLES {
        expect_rows(&rt, table, *rows);
    }
}

const NO_TEXT: &[(&[u8], &str)] = &[
    (b"\x00", "[0]"),
    (b"\xff", "[255]"),
    (b"[\x80-\xff]", "[128-255]"),
    (b"\"\x00\"", "[0]"),
    (b"\x01\x7f", "([1] [127])"),
    (b"", "E10"),
    (b"a\tb", "E10"),
    (b"a\nb", "E10"),
    (b"[\n]", "E10"),
    (b"\"\n\"", "E10"),
    (b"\\\n", "E10"),
];

#[test]
fn bytes_outside_of_text_are_read(rt: HostRuntime) {
    for (text, want) in NO_TEXT {
        expect_pattern(&rt, want, text, want);
    }
}

const SUBSTITUTES: &[(&str, &str)] = &[
    ("ab", "([97] [98])"),
    ("a|b", "([97]|[98])"),
    ("{D}", "<D>"),
    ("^a", "E10"),
    ("a$", "E10"),
    ("a/\\n", "E10"),
    ("", "E10"),
    ("(", "E10"),
];

/// Returns the reading of a text without anchors, or the fault's code.
fn substitute<R: Abort + AllocGlobal>(rt: &R, text: &[u8]) -> String {
    match read_substitute(rt.alloc(), text) {
        Ok(expr) => shown_expr(rt, &expr),
        Err(fault) => code(rt, fault),
    }
}

/// Returns an expression as a text.
fn shown_expr<R: Abort + AllocGlobal>(rt: &R, expr: &Expr) -> String {
    let mut out = String::new(rt.alloc());
    show(rt, &mut out, expr);
    out
}

/// Asserts the reading of a substitute.
fn expect_substitute<R: Abort + AllocGlobal>(rt: &R, text: &str, want: &str) {
    let got = substitute(rt, text.as_bytes());
    expect_reading(rt, text, got.as_str(), want);
}

#[test]
fn substitutes_have_no_anchors(rt: HostRuntime) {
    for (text, want) in SUBSTITUTES {
        expect_substitute(&rt, text, want);
    }
}

/// Returns a text with a front, a middle and a back. The front and the back are repeated.
fn nest<R: Abort + AllocGlobal>(
    rt: &R,
    front: &str,
    times: usize,
    middle: &str,
    back: &str,
) -> String {
    let mut text = String::new(rt.alloc());
    put_times(rt, &mut text, front, times);
    put(rt, &mut text, middle);
    put_times(rt, &mut text, back, times);
    text
}

/// A front, its number of repetitions, a middle, a back, and true if the text is readable.
type Deep = (&'static str, usize, &'static str, &'static str, bool);

const DEEP: &[Deep] = &[
    ("a", 1024, "", "", true),
    ("a", 1025, "", "", false),
    ("(", 511, "a", ")", true),
    ("(", 512, "a", ")", false),
    ("a(", 341, "a", ")", true),
    ("a|", 511, "a", "", true),
    ("a|(", 255, "a", ")", true),
    ("", 1023, "a", "*", true),
    ("(", 341, "a", "*)", true),
    ("", 255, "aa", "{1}", true),
    ("\\xa", 341, "", "", true),
];

/// Returns true if a text is readable as a pattern.
fn is_pattern<R: AllocGlobal>(rt: &R, text: &[u8]) -> bool {
    read_pattern(rt.alloc(), text).is_ok()
}

/// Returns true if a text is readable as a substitute.
fn is_substitute<R: AllocGlobal>(rt: &R, text: &[u8]) -> bool {
    read_substitute(rt.alloc(), text).is_ok()
}

/// Asserts that a text is readable, or that it isn't.
fn expect_read<R: Abort + AllocGlobal>(rt: &R, text: &[u8], reads: bool, front: &str) {
    holds(rt, is_pattern(rt, text) == reads, front);
    holds(rt, is_substitute(rt, text) == reads, front);
}

/// Asserts that a deep text is readable, or that it isn't.
fn expect_deep<R: Abort + AllocGlobal>(rt: &R, deep: &Deep) {
    let (front, times, middle, back, reads) = *deep;
    let text = nest(rt, front, times, middle, back);
    expect_read(rt, text.as_bytes(), reads, front);
}

#[test]
fn deep_trees_are_read_and_dropped(rt: HostRuntime) {
    for deep in DEEP {
        expect_deep(&rt, deep);
    }
}

/// Texts, and the position where the pattern at their start ends.
const ENDS: &[(&str, usize)] = &[
    ("", 0),
    ("a", 1),
    (" a", 0),
    ("a b", 1),
    ("a\tb", 1),
    ("\\ b c", 3),
    ("a\\", 2),
    ("\\\\ b", 2),
    ("\"a b\" c", 5),
    ("\"a\\\" b\" c", 7),
    ("\"a b", 4),
    ("\"a\\", 3),
    ("[ ] x", 3),
    ("[]] x", 3),
    ("[] ] x", 4),
    ("[^] ] x", 5),
    ("[\\] ] x", 5),
    ("[[: :] ] x", 8),
    ("[[:digit:] ] x", 12),
    ("[[.].] ] x", 8),
    ("[[===] ] x", 8),
    ("[[::] :] ] x", 10),
    ("[[:a b", 6),
    ("[a b", 4),
    ("[\\", 2),
    ("[", 1),
    ("[ \" ] x", 5),
    ("\" [\" x", 4),
    ("(a|b) c", 5),
    ("a{1, 2}", 4),
];

/// Asserts the position where a pattern ends.
fn expect_end(rt: &impl Abort, text: &str, want: usize) {
    holds(rt, pattern_end(text.as_bytes()) == want, text);
}

#[test]
fn patterns_end_at_the_first_blank_outside(rt: HostRuntime) {
    for (text, want) in ENDS {
        expect_end(&rt, text, *want);
    }
}

/// Returns true if an allocation failed during a reading.
fn lacks_memory(read: &Result<Pattern, EreFault>) -> bool {
    matches!(read, Err(EreFault::Memory))
}

/// Returns true if both readings have the same pattern.
fn are_equal(one: &Result<Pattern, EreFault>, other: &Result<Pattern, EreFault>) -> bool {
    match (one, other) {
        (Ok(pattern), Ok(same)) => pattern == same,
        _ => false,
    }
}

/// Asserts that two readings of one text are equal, or that an allocation failed during one.
fn expect_answered(
    rt: &impl Abort,
    one: &Result<Pattern, EreFault>,
    other: &Result<Pattern, EreFault>,
) {
    assert!(rt; lacks_memory(one) || lacks_memory(other) || are_equal(one, other));
}

#[test]
fn refused_memory_is_answered_as_such(rt: HostRuntime) {
    let text = b"^a(b|\"cd\"){Digit}[e-f]*x{2}|yz$";
    let one = read_pattern(rt.alloc(), text);
    let other = read_pattern(rt.alloc(), text);
    expect_answered(&rt, &one, &other);
}
