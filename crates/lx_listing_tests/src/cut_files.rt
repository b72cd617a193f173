//! Tests files whose reading failed: the part that was read is listed, and the output and stderr report the failure.

use crate::asserts::{same, same_bytes};
use crate::running::{FILES, Row, expect, status_of};
use crate::writers::{Unflushed, failing_writer};
use lx_tool::ListSources;
use std::io::Write;
use std::process::Abort;
use std::sync::Wait;
use std::thread::Threads;

/// Asserts the results of such runs.
fn expect_all<R: Abort + AllocGlobal + Threads + Wait + Sync>(rt: &R, rows: &[Row]) {
    for row in rows {
        expect(rt, FILES, row);
    }
}

/// Listing of `a`, which is cut, and of `empty` and `lines`.
const FIRST_CUT: &str = "0 T ID 1 0 1 a\n0 ! cut\n2 T NUM 1 0 1 1\n2 T NUM 2 2 1 2\n";

/// Listing of `words`, cut.
const WORDS: &str = "0 T ID 1 0 2 ab\n0 T NUM 1 3 2 12\n0 ! cut\n";

/// Line on stderr if `words` is cut.
const WORDS_CUT: &str = "lx: cut short words\n";

const LISTED: &[Row] = &[
    (&["run", "S", "words"], &["words"], 3, WORDS, WORDS_CUT),
    (
        &["run", "-b", "1", "S", "words"],
        &["words"],
        3,
        WORDS,
        WORDS_CUT,
    ),
    (&["scan", "T", "words"], &["words"], 3, WORDS, WORDS_CUT),
    (
        &["run", "S", "empty"],
        &["empty"],
        3,
        "0 ! cut\n",
        "lx: cut short empty\n",
    ),
];

#[test]
fn a_cut_file_is_listed_as_far_as_it_was_read(rt: HostRuntime) {
    expect_all(&rt, LISTED);
}

const AMONG_OTHERS: &[Row] = &[
    (
        &["scan", "-j", "1", "-b", "1", "T", "a", "empty", "lines"],
        &["a"],
        3,
        FIRST_CUT,
        "lx: cut short a\n",
    ),
    (
        &["scan", "-j", "2", "-b", "1", "T", "a", "empty", "lines"],
        &["a"],
        3,
        FIRST_CUT,
        "lx: cut short a\n",
    ),
    (
        &["scan", "-j", "8", "-b", "1", "T", "a", "empty", "lines"],
        &["a"],
        3,
        FIRST_CUT,
        "lx: cut short a\n",
    ),
    (
        &["run", "S", "a", "empty", "lines"],
        &["lines", "a"],
        3,
        "0 T ID 1 0 1 a\n0 ! cut\n2 T NUM 1 0 1 1\n2 T NUM 2 2 1 2\n2 ! cut\n",
        "lx: cut short a\nlx: cut short lines\n",
    ),
    (
        &["run", "S", "empty", "a", "empty"],
        &["empty"],
        3,
        "0 ! cut\n1 T ID 1 0 1 a\n2 ! cut\n",
        "lx: cut short empty\nlx: cut short empty\n",
    ),
    (&["run", "S", "a"], &["words"], 0, "0 T ID 1 0 1 a\n", ""),
];

#[test]
fn each_cut_file_among_others_is_named_in_order(rt: HostRuntime) {
    expect_all(&rt, AMONG_OTHERS);
}

const NOT_READ: &[Row] = &[
    (&["run", "S", "a"], &["S"], 3, "", "lx: cannot read S\n"),
    (
        &["run", "S", "a"],
        &["a", "S"],
        3,
        "",
        "lx: cannot read S\n",
    ),
    (
        &["run", "refused", "a"],
        &["refused"],
        3,
        "",
        "lx: cannot read refused\n",
    ),
    (&["gen", "S"], &["S"], 3, "", "lx: cannot read S\n"),
    (&["scan", "T", "a"], &["T"], 3, "", "lx: cannot read T\n"),
    (&["up", "T"], &["T"], 3, "", "lx: cannot read T\n"),
];

#[test]
fn a_cut_specification_and_cut_tables_count_as_not_read(rt: HostRuntime) {
    expect_all(&rt, NOT_READ);
}

const OTHER_FAULTS: &[Row] = &[
    (
        &["run", "S", "a", "missing"],
        &["a"],
        3,
        "",
        "lx: cannot read missing\n",
    ),
    (
        &["run", "refused", "a"],
        &["a"],
        1,
        "",
        "lx: E10 at line 2\nlx: refused:2:2: r/s is not read, but for r/\\n\nlx: lx check refused says more\n",
    ),
    (
        &["scan", "S", "a"],
        &["a"],
        1,
        "",
        "lx: B01\nlx: the text is a specification\n",
    ),
];

#[test]
fn other_faults_come_before_cut_files(rt: HostRuntime) {
    expect_all(&rt, OTHER_FAULTS);
}

/// Asserts that a run over the cut file `words` whose output fails reports only that failure.
fn fails<R: Abort + AllocGlobal + Threads + Wait + Sync, O: Write>(rt: &R, out: &mut O) {
    let mut sources = ListSources::with_cut(FILES, &["words"]);
    let mut err: Vec<u8> = Vec::new(rt.alloc());
    let status = status_of(rt, &["run", "S", "words"], &mut sources, out, &mut err);
    same(rt, &status, &4);
    same_bytes(rt, err.as_slice(), b"lx: cannot write\n", &"words");
}

/// The calls at which an output fails, and the bytes that were written by then.
const FRONTS: &[(u64, &str)] = &[
    (1, ""),
    (2, "0 T ID 1 0 2 ab\n"),
    (3, "0 T ID 1 0 2 ab\n0 T NUM 1 3 2 12\n"),
];

/// Asserts the bytes that such a run has written if its output fails at this call.
fn fails_behind<R: Abort + AllocGlobal + Threads + Wait + Sync>(rt: &R, call: u64, written: &str) {
    let mut out = failing_writer(rt.alloc(), 4_096, call, false);
    fails(rt, &mut out);
    same_bytes(rt, out.held.as_slice(), written.as_bytes(), &call);
}

#[test]
fn an_output_that_fails_is_all_that_is_said(rt: HostRuntime) {
    for (call, written) in FRONTS {
        fails_behind(&rt, *call, written);
    }
    let mut out = Unflushed {
        bytes: Vec::new(rt.alloc()),
    };
    fails(&rt, &mut out);
}

/// Listing of `words` and `empty`, both cut.
const BOTH_CUT: &[u8] = b"0 T ID 1 0 2 ab\n0 T NUM 1 3 2 12\n0 ! cut\n1 ! cut\n";

/// Asserts the status and the output of a run over two cut files if stderr fails at this call.
fn says_nothing<R: Abort + AllocGlobal + Threads + Wait + Sync>(rt: &R, call: u64) {
    let mut sources = ListSources::with_cut(FILES, &["words", "empty"]);
    let mut out: Vec<u8> = Vec::new(rt.alloc());
    let mut err = failing_writer(rt.alloc(), 4_096, call, false);
    let words = ["run", "S", "words", "empty"];
    let status = status_of(rt, &words, &mut sources, &mut out, &mut err);
    same(rt, &status, &3);
    same_bytes(rt, out.as_slice(), BOTH_CUT, &call);
}

#[test]
fn an_error_stream_that_fails_changes_no_status(rt: HostRuntime) {
    says_nothing(&rt, 1);
    says_nothing(&rt, 2);
}
