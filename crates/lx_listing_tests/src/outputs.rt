//! Tests outputs that fail at one of their calls: the program ends there with status 4, after a prefix of its output.

use crate::asserts::{holds, same_bytes};
use crate::running::{FILES, status_over};
use crate::writers::{Failing, failing_writer};
use lx_fixtures::{THREE_FILES_LISTING, THREE_RULES_TEXTS};
use lx_tables::Tables;
use std::process::Abort;
use std::sync::Wait;
use std::thread::Threads;

/// The way in which a writer fails: the number of bytes that it accepts at a time, and true if it fails by accepting nothing instead of by an error.
type Way = (usize, bool);

const WAYS: &[Way] = &[(4_096, false), (4_096, true), (1, false), (1, true)];

/// Returns true if a run was done before the call at which its output fails. Otherwise asserts that it reported only that it can't write.
fn is_done(rt: &impl Abort, status: u8, err: &[u8], call: u64) -> bool {
    let done = status == 0;
    let said = if done { "" } else { "lx: cannot write\n" };
    same_bytes(rt, err, said.as_bytes(), &call);
    holds(rt, done || status == 4, call);
    done
}

/// Runs the program with an output that fails at this call. Returns true if the run was done before.
fn run_failing<R: Abort + AllocGlobal + Threads + Wait + Sync>(
    rt: &R,
    words: &[&str],
    out: &mut Failing,
    call: u64,
) -> bool {
    let mut err: Vec<u8> = Vec::new(rt.alloc());
    let status = status_over(rt, words, FILES, out, &mut err);
    is_done(rt, status, err.as_slice(), call)
}

/// Asserts that a writer that fails at this call holds the whole text if it was done before, and otherwise a prefix of it.
fn holds_front(rt: &impl Abort, out: &Failing, most: usize, call: u64, text: &[u8], done: bool) {
    let (held, calls) = (out.held.as_slice(), out.calls);
    let is_whole = held.len() == text.len();
    let is_call = held.len() as u64 == call.saturating_sub(1);
    holds(rt, done == (calls < call) && calls <= call, call);
    holds(rt, text.starts_with(held) && done == is_whole, call);
    holds(rt, done || most != 1 || is_call, call);
}

/// Asserts the same for a run of the program.
fn writes_front<R: Abort + AllocGlobal + Threads + Wait + Sync>(
    rt: &R,
    words: &[&str],
    way: Way,
    call: u64,
    text: &[u8],
) {
    let mut out = failing_writer(rt.alloc(), way.0, call, way.1);
    let done = run_failing(rt, words, &mut out, call);
    holds_front(rt, &out, way.0, call, text, done);
}

/// Asserts the same for each way and each call.
fn writes_fronts<R: Abort + AllocGlobal + Threads + Wait + Sync>(
    rt: &R,
    words: &[&str],
    text: &[u8],
) {
    for way in WAYS {
        for call in 1..=text.len() as u64 + 1 {
            writes_front(rt, words, *way, call, text);
        }
    }
}

/// The ways to list three files, the second of which is empty.
const LISTINGS: &[&[&str]] = &[
    &["run", "S", "a", "empty", "lines"],
    &["scan", "-j", "1", "T", "a", "empty", "lines"],
    &["scan", "-j", "2", "-b", "1", "T", "a", "empty", "lines"],
    &["scan", "-j", "8", "-b", "1", "T", "a", "empty", "lines"],
];

#[test]
fn a_command_whose_output_fails_has_written_a_front(rt: HostRuntime) {
    let tables = THREE_RULES_TEXTS.1.as_bytes();
    writes_fronts(&rt, &["gen", "S"], tables);
    writes_fronts(&rt, &["up", "T"], tables);
    for words in LISTINGS {
        writes_fronts(&rt, words, THREE_FILES_LISTING);
    }
}

/// The first lines of the listing of three files.
const TWO_LINES: &[u8] = b"0 T ID 1 0 1 a\n2 T NUM 1 0 1 1\n";

/// Arguments of a run, the call at which its output fails, and the bytes that were written by then.
const LINES: &[(&[&str], u64, &[u8])] = &[
    (&["run", "S", "a", "empty", "lines"], 1, b""),
    (&["run", "S", "a", "empty", "lines"], 2, b"0 T ID 1 0 1 a\n"),
    (&["run", "S", "a", "empty", "lines"], 3, TWO_LINES),
    (&["scan", "T", "a", "empty", "lines"], 3, TWO_LINES),
    (&["run", "none", "hi"], 1, b""),
    (&["run", "none", "hi"], 2, b"0 E - 1 0 1 h\n"),
    (&["run", "none", "hi"], 3, b"0 E - 1 0 1 h\n0 E - 1 1 1 i\n"),
    (&["--help"], 1, b""),
    (&[], 1, b""),
];

/// Asserts the bytes that a run has written by the call at which its output fails.
fn writes_by<R: Abort + AllocGlobal + Threads + Wait + Sync>(
    rt: &R,
    words: &[&str],
    call: u64,
    written: &[u8],
) {
    let mut out = failing_writer(rt.alloc(), 4_096, call, false);
    let done = run_failing(rt, words, &mut out, call);
    holds(rt, !done, call);
    same_bytes(rt, out.held.as_slice(), written, &words);
}

#[test]
fn a_line_goes_out_in_one_write(rt: HostRuntime) {
    for (words, call, written) in LINES {
        writes_by(&rt, words, *call, written);
    }
}

/// Asserts that printing tables, in their first or second version, to a writer that fails at this call leaves a prefix of the text there.
fn prints_front<R: Abort + AllocGlobal>(rt: &R, tables: &Tables, first: bool, way: Way, call: u64) {
    let (text, other) = THREE_RULES_TEXTS;
    let mut out = failing_writer(rt.alloc(), way.0, call, way.1);
    if first {
        let done = tables.print_first(&mut out).is_ok();
        holds_front(rt, &out, way.0, call, text.as_bytes(), done);
    } else {
        let done = tables.print(&mut out).is_ok();
        holds_front(rt, &out, way.0, call, other.as_bytes(), done);
    }
}

/// Asserts the same for each way and each call.
fn prints_fronts<R: Abort + AllocGlobal>(rt: &R, tables: &Tables, calls: u64) {
    for way in WAYS {
        for call in 1..=calls {
            prints_front(rt, tables, true, *way, call);
            prints_front(rt, tables, false, *way, call);
        }
    }
}

#[test]
fn a_writer_that_fails_has_a_front_of_either_text(rt: HostRuntime) {
    let (first, second) = THREE_RULES_TEXTS;
    let tables = Tables::read(rt.alloc(), first.as_bytes()).expect(&rt, "tables");
    prints_fronts(&rt, &tables, second.len() as u64 + 1);
}
