//! Tests the program over sources and streams of a test's own: its exit statuses and lines. Rows of `tests/rows` test real files and streams.

use crate::asserts::{same, same_bytes};
use crate::running::{FILES, Row, expect, status_of, status_over};
use crate::writers::{Unflushed, failing_writer};
use lx_fixtures::NO_RULES_TEXTS;
use lx_piece::Input;
use lx_tool::{ListSources, SourceFault, Sources, run};
use std::alloc::Global;
use std::process::Abort;
use std::sync::Wait;
use std::thread::Threads;

/// Listing of the text that is stored in the program.
const STORED: &[u8] = b"0 T ID 1 0 2 ab\n0 T NUM 1 3 2 12\n";

#[test]
fn a_command_line_without_a_name_counts_as_the_name_alone(rt: HostRuntime) {
    let mut sources = ListSources::new(&[]);
    let mut out: Vec<u8> = Vec::new(rt.alloc());
    let mut err: Vec<u8> = Vec::new(rt.alloc());
    let status = run(&rt, rt.alloc(), &[], &mut sources, &mut out, &mut err);
    same(&rt, &status, &0);
    same_bytes(&rt, out.as_slice(), STORED, &"output");
    same_bytes(&rt, err.as_slice(), b"", &"error stream");
}

/// Two files with one name.
const TWICE: &[(&str, &[u8])] = &[("S", b"%%\n"), ("F", b"a"), ("F", b"b")];

/// A run that lists the first of them.
const FIRST: Row = (&["run", "S", "F"], &[], 0, "0 E - 1 0 1 a\n", "");

#[test]
fn of_two_files_with_one_name_the_first_is_read(rt: HostRuntime) {
    expect(&rt, TWICE, &FIRST);
}

/// Sources that fail to allocate.
#[derive(Drop)]
struct Exhausted;

impl Sources for Exhausted {
    ghost gives = { λ _ _ _ _. ⊥ };

    fn read(&mut self, _alloc: Global, _name: &str) -> Result<Input, SourceFault> {
        Err(SourceFault::Memory)
    }
}

#[test]
fn says_so_where_memory_is_refused(rt: HostRuntime) {
    let mut out: Vec<u8> = Vec::new(rt.alloc());
    let mut err: Vec<u8> = Vec::new(rt.alloc());
    let status = status_of(&rt, &["run", "S", "F"], &mut Exhausted, &mut out, &mut err);
    same(&rt, &status, &5);
    same_bytes(&rt, out.as_slice(), b"", &"output");
    same_bytes(&rt, err.as_slice(), b"lx: out of memory\n", &"error stream");
}

#[test]
fn an_error_stream_that_fails_changes_nothing(rt: HostRuntime) {
    let mut out: Vec<u8> = Vec::new(rt.alloc());
    let mut err = failing_writer(rt.alloc(), 4_096, 1, false);
    let status = status_over(&rt, &["run", "S", "F"], &[], &mut out, &mut err);
    same(&rt, &status, &3);
    same_bytes(&rt, out.as_slice(), b"", &"output");
    same_bytes(&rt, err.held.as_slice(), b"", &"error stream");
}

/// Asserts that a run whose output isn't flushed reports that it can't write.
fn fails_to_flush<R: Abort + AllocGlobal + Threads + Wait + Sync>(
    rt: &R,
    words: &[&str],
    out: &mut Unflushed,
) {
    let mut err: Vec<u8> = Vec::new(rt.alloc());
    let status = status_over(rt, words, FILES, out, &mut err);
    same(rt, &status, &4);
    same_bytes(rt, err.as_slice(), b"lx: cannot write\n", &words);
}

/// Asserts the same for a run that writes something.
fn fails_behind_some<R: Abort + AllocGlobal + Threads + Wait + Sync>(rt: &R, words: &[&str]) {
    let mut out = Unflushed {
        bytes: Vec::new(rt.alloc()),
    };
    fails_to_flush(rt, words, &mut out);
    same(rt, &out.bytes.is_empty(), &false);
}

#[test]
fn an_output_that_is_not_flushed_has_failed(rt: HostRuntime) {
    fails_behind_some(&rt, &[]);
    fails_behind_some(&rt, &["-h"]);
}

/// Asserts the same for a run that writes the tables without rules.
fn fails_behind_tables<R: Abort + AllocGlobal + Threads + Wait + Sync>(rt: &R, words: &[&str]) {
    let mut out = Unflushed {
        bytes: Vec::new(rt.alloc()),
    };
    fails_to_flush(rt, words, &mut out);
    same_bytes(
        rt,
        out.bytes.as_slice(),
        NO_RULES_TEXTS.1.as_bytes(),
        &words,
    );
}

#[test]
fn tables_that_are_not_flushed_are_not_written(rt: HostRuntime) {
    fails_behind_tables(&rt, &["gen", "none"]);
    fails_behind_tables(&rt, &["up", "no-rules"]);
}
