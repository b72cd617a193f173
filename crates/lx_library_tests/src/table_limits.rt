//! Tests texts of tables at the limits and just above them, and counts that promise more than the text has.

use crate::table_texts::expect_read;
use crate::texts::{put, put_char, put_number, unwrap_text};
use std::process::Abort;

/// Appends a line in which each `#` is replaced by a number.
fn put_line(rt: &impl Abort, text: &mut String, line: &str, number: u32) {
    for letter in line.chars() {
        if letter == '#' {
            put_number(rt, text, number);
        } else {
            put_char(rt, text, letter);
        }
    }
}

/// Appends a line with a count, and then that number of lines with their numbers.
fn put_lines(rt: &impl Abort, text: &mut String, head: &str, count: u32, line: &str) {
    put_line(rt, text, head, count);
    for number in 0..count {
        put_line(rt, text, line, number);
    }
}

/// The lines of a text of tables, one each for a condition, a kind, a rule and a state.
type Lines = [&'static str; 4];

/// Numbers of conditions, kinds, rules and states.
type LimitCounts = [u32; 4];

/// Makes a text of tables. It has version 1 if no lines of classes are given, otherwise version 2.
fn made<R: Abort + AllocGlobal>(
    rt: &R,
    classes: &str,
    counts: LimitCounts,
    lines: Lines,
) -> String {
    let [conditions, kinds, rules, states] = counts;
    let [start, kind, rule, state] = lines;
    let version = if classes.is_empty() { 1 } else { 2 };
    let mut text = String::new(rt.alloc());
    put_line(rt, &mut text, "lx-tables #\n", version);
    put_lines(rt, &mut text, "conditions #\n", conditions, start);
    put_lines(rt, &mut text, "kinds #\n", kinds, kind);
    put_lines(rt, &mut text, "rules #\n", rules, rule);
    put(rt, &mut text, classes);
    put_lines(rt, &mut text, "states #\n", states, state);
    put(rt, &mut text, "end\n");
    text
}

/// One class of all bytes.
const ONE_CLASS: &str = "classes 1\nclass 0-255:0\n";

/// Counts and lines that both versions share, and true if there are such tables.
const BOTH: &[(LimitCounts, Lines, bool)] = &[
    (
        [64, 0, 1, 1],
        ["start 0 0\n", "", "rule 0 b63\n", "state 0\n"],
        true,
    ),
    (
        [64, 0, 1, 1],
        ["start 0 0\n", "", "rule 0 b64\n", "state 0\n"],
        false,
    ),
    ([65, 0, 0, 1], ["start 0 0\n", "", "", "state -\n"], false),
    ([0, 0, 0, 1], ["", "", "", "state -\n"], false),
    (
        [1, 4_096, 1, 1],
        ["start 0 0\n", "kind K#\n", "rule 1 k4095\n", "state 0\n"],
        true,
    ),
    (
        [1, 4_096, 1, 1],
        ["start 0 0\n", "kind K#\n", "rule 1 k4096\n", "state 0\n"],
        false,
    ),
    (
        [1, 4_096, 1, 1],
        ["start 0 0\n", "kind #\n", "rule 1 k4095\n", "state 0\n"],
        false,
    ),
    (
        [1, 4_097, 0, 1],
        ["start 0 0\n", "kind K#\n", "", "state -\n"],
        false,
    ),
    (
        [1, 0, 4_096, 1],
        ["start 0 0\n", "", "rule 0 n#\n", "state 4095\n"],
        true,
    ),
    (
        [1, 0, 4_096, 1],
        ["start 0 0\n", "", "rule 0 n#\n", "state 4096\n"],
        false,
    ),
    (
        [1, 0, 4_097, 1],
        ["start 0 0\n", "", "rule 0 n#\n", "state 4095\n"],
        false,
    ),
    ([1, 0, 0, 0], ["start 0 0\n", "", "", ""], false),
    (
        [1, 0, 0, 16_512],
        ["start 16512 0\n", "", "", "state -\n"],
        false,
    ),
    (
        [1, 0, 0, 16_512],
        ["start 0 16512\n", "", "", "state -\n"],
        false,
    ),
    (
        [1, 0, 0, 16_513],
        ["start 0 0\n", "", "", "state -\n"],
        false,
    ),
];

/// Lines of 16,512 states, their classes, and true if there are such tables.
const STATES: &[(&'static str, &'static str, bool)] = &[
    ("", "state - 0-255:16511\n", true),
    ("", "state - 0-255:16512\n", false),
    (ONE_CLASS, "state - 0:16511\n", true),
    (ONE_CLASS, "state - 0:16512\n", false),
];

/// Asserts that such a text is read, or that it isn't.
fn expect_made<R: Abort + AllocGlobal>(
    rt: &R,
    classes: &str,
    counts: LimitCounts,
    lines: Lines,
    accepted: bool,
) {
    let text = made(rt, classes, counts, lines);
    expect_read(rt, text.as_str(), accepted);
}

/// Asserts the same for the texts in both versions.
fn reads_both<R: Abort + AllocGlobal>(rt: &R) {
    for (counts, lines, accepted) in BOTH {
        expect_made(rt, "", *counts, *lines, *accepted);
        expect_made(rt, ONE_CLASS, *counts, *lines, *accepted);
    }
}

/// Asserts the same for the texts of 16,512 states.
fn reads_states<R: Abort + AllocGlobal>(rt: &R) {
    for (classes, state, accepted) in STATES {
        let lines = ["start 16511 0\n", "", "", *state];
        expect_made(rt, classes, [1, 0, 0, 16_512], lines, *accepted);
    }
}

#[test]
fn counts_and_numbers_are_read_up_to_their_limits(rt: HostRuntime) {
    reads_both(&rt);
    reads_states(&rt);
}

/// Parts of a text of either version: the part before the classes, which are those of all bytes, the part before the states, and a step.
type Full = (&'static str, &'static str, &'static str, &'static str);

const FULL: &[Full] = &[
    (
        "lx-tables 1\nconditions 1\nstart 0 0\nkinds 0\nrules 0\n",
        "",
        "states 256\nstate -",
        " #-#:#",
    ),
    (
        "lx-tables 2\nconditions 1\nstart 0 0\nkinds 0\nrules 0\nclasses 256\nclass",
        " #-#:#",
        "\nstates 256\nstate -",
        " #:#",
    ),
];

/// Makes tables with a class for each byte. On each byte the first state steps to the state with its number.
fn full_classes<R: Abort + AllocGlobal>(rt: &R, full: &Full) -> String {
    let (head, class, states, step) = *full;
    let mut text = String::new(rt.alloc());
    put_lines(rt, &mut text, head, 256, class);
    put_lines(rt, &mut text, states, 256, step);
    put_lines(rt, &mut text, "\n", 255, "state -\n");
    put(rt, &mut text, "end\n");
    text
}

/// Asserts that such tables are read.
fn reads_full<R: Abort + AllocGlobal>(rt: &R, full: &Full) {
    let text = full_classes(rt, full);
    expect_read(rt, text.as_str(), true);
}

#[test]
fn each_byte_may_have_a_class_of_its_own(rt: HostRuntime) {
    for full in FULL {
        reads_full(&rt, full);
    }
}

/// Counts after which the text ends.
const PROMISES: &[&str] = &[
    "conditions 64\n",
    "conditions 4294967295\n",
    "conditions 1\nstart 0 0\nkinds 4096\n",
    "conditions 1\nstart 0 0\nkinds 4294967295\n",
    "conditions 1\nstart 0 0\nkinds 0\nrules 4096\n",
    "conditions 1\nstart 0 0\nkinds 0\nrules 4294967295\n",
    "conditions 1\nstart 0 0\nkinds 0\nrules 0\nstates 16512\n",
    "conditions 1\nstart 0 0\nkinds 0\nrules 0\nstates 4294967295\n",
    "conditions 1\nstart 0 0\nkinds 0\nrules 0\nclasses 256\n",
    "conditions 1\nstart 0 0\nkinds 0\nrules 0\nclasses 4294967295\nclass 0-255:0\nstates 1\nstate -\n",
    "conditions 1\nstart 0 0\nkinds 0\nrules 0\nclasses 1\nclass 0-255:0\nstates 16512\n",
    "conditions 1\nstart 0 0\nkinds 0\nrules 0\nclasses 1\nclass 0-255:0\nstates 99999999999999999999\n",
];

/// Asserts twenty times that a text with such a count is rejected.
fn refuses_promise<R: Abort + AllocGlobal>(rt: &R, head: &str, promise: &str) {
    let text = unwrap_text(rt, format!(in rt.alloc(); "{head}{promise}"));
    for _time in 0..20 {
        expect_read(rt, text.as_str(), false);
    }
}

/// Each is read many times: a large count costs no more than a text of its real size.
#[test]
fn counts_that_promise_too_much_are_refused_at_once(rt: HostRuntime) {
    for promise in PROMISES {
        refuses_promise(&rt, "lx-tables 1\n", promise);
        refuses_promise(&rt, "lx-tables 2\n", promise);
    }
}
