//! Tests listings of plans: each form of line, pieces of later files, and writers that accept a part or fail.

ghost use Rattle.std.specs.Prelude.{◌<◌, ◌≤◌};
ghost use Rattle.lx_piece.specs.Plans.{IsPlan, max_items};

use crate::asserts::{holds, same, same_bytes};
use crate::plans::{listing_of, made, mixed_files, put, put_times};
use crate::writers::{Failing, failing_writer};
use lx_fixtures::{
    MIXED_FILES, MIXED_LISTING, MIXED_RULES, NO_RULES, inputs, last_file_first, tables_of,
    take_first,
};
use lx_piece::{ListArrivals, Plan, Reader, ReaderFault, relay};
use lx_post::RunFault;
use lx_tool::{LineWrites, Listing, list_files, list_plan, print_listing};
use std::io::Write;
use std::process::Abort;
use std::sync::Wait;
use std::thread::Threads;

/// Asserts the listing of the mixed files, with `per_piece` items a piece.
fn lists_mixed<R: Abort + AllocGlobal>(rt: &R, per_piece: u32)
    requires some_items { 0 < per_piece }
    requires few_items { per_piece ≤ max_items }
{
    let plan = mixed_files(rt, per_piece);
    let out = listing_of(rt, &plan);
    same_bytes(rt, out.as_slice(), MIXED_LISTING.as_bytes(), &per_piece);
}

#[test]
fn lists_each_form_of_line_whatever_the_pieces_are(rt: HostRuntime) {
    lists_mixed(&rt, 1);
    lists_mixed(&rt, 2);
    lists_mixed(&rt, 256);
}

/// Asserts their listing by their tables.
fn lists_by_tables<R: Abort + AllocGlobal + Threads + Wait + Sync>(rt: &R, per_piece: u32)
    requires some_items { 0 < per_piece }
    requires few_items { per_piece ≤ max_items }
{
    let tables = tables_of(rt.alloc(), MIXED_RULES).expect(rt, "tables");
    let files = inputs(rt.alloc(), MIXED_FILES.as_slice()).expect(rt, "memory");
    let mut out = Vec::new(rt.alloc());
    let whole = LineWrites::Whole;
    let listed = list_files(rt, rt.alloc(), tables, files, per_piece, 2, whole, &mut out);
    same(rt, &listed, &Ok(()));
    same_bytes(rt, out.as_slice(), MIXED_LISTING.as_bytes(), &per_piece);
}

#[test]
fn lists_files_by_tables(rt: HostRuntime) {
    lists_by_tables(&rt, 1);
    lists_by_tables(&rt, 256);
}

/// Asserts the written bytes, and the number of calls.
fn wrote(rt: &impl Abort, out: &Failing, wanted: &[u8], calls: u64) {
    same(rt, &out.calls, &calls);
    holds(rt, out.held.as_slice() == wanted, calls);
}

/// Asserts the bytes and the number of calls of a listing by `workers` workers.
fn writes<R: Abort + AllocGlobal + Threads + Wait + Sync>(
    rt: &R,
    plan: &Plan,
    workers: u8,
    writes: LineWrites,
    wanted: &[u8],
    calls: u64,
)
    requires { workers ≤ 8 }
{
    let mut out = failing_writer(rt.alloc(), 1_000_000, 0, false);
    let listed = list_plan(rt, rt.alloc(), plan, workers, writes, &mut out);
    same(rt, &listed, &Ok(()));
    wrote(rt, &out, wanted, calls);
}

/// Asserts the same without workers and with two, if each line is written by itself, and if many are written at once.
fn writes_in<R: Abort + AllocGlobal + Threads + Wait + Sync>(
    rt: &R,
    plan: &Plan,
    wanted: &[u8],
    each: u64,
    whole: u64,
) {
    writes(rt, plan, 0, LineWrites::EachLine, wanted, each);
    writes(rt, plan, 2, LineWrites::EachLine, wanted, each);
    writes(rt, plan, 0, LineWrites::Whole, wanted, whole);
    writes(rt, plan, 2, LineWrites::Whole, wanted, whole);
}

/// Prints a listing by `print_listing`, and asserts that it succeeds.
fn prints<R: Abort + AllocGlobal>(rt: &R, plan: &Plan, out: &mut Failing) {
    same(rt, &print_listing(rt.alloc(), plan, out), &Ok(()));
}

#[test]
fn writes_each_line_by_itself_or_many_at_once(rt: HostRuntime) {
    let plan = mixed_files(&rt, 256);
    writes_in(&rt, &plan, MIXED_LISTING.as_bytes(), 14, 1);
    let mut out = failing_writer(rt.alloc(), 4_096, 0, false);
    prints(&rt, &plan, &mut out);
    same(&rt, &out.calls, &14);
}

/// Number of repetitions in the long text.
const LONG: u32 = 60_000;

/// Appends the line of a long text, escaped.
fn put_long<R: Abort>(rt: &R, wanted: &mut Vec<u8>, front: &[u8]) {
    put(rt, wanted, front);
    put_times(rt, wanted, b"\\x01a", LONG);
    put(rt, wanted, b">\n");
}

/// An Echo and a token have the same text of 120,002 bytes, which is escaped. Its 30 parts have at most 10,240 bytes, and gathered lines are written
/// once they have more than 98,304 bytes. A whole line would be its own write, so that there would be four writes.
#[test]
fn writes_long_texts_in_parts(rt: HostRuntime) {
    let mut text = Vec::new(rt.alloc());
    put(&rt, &mut text, b"ab <");
    put_times(&rt, &mut text, b"\x01a", LONG);
    put(&rt, &mut text, b"> cd");
    let mut wanted = Vec::new(rt.alloc());
    put(&rt, &mut wanted, b"0 T ID 1 0 2 ab\n");
    put_long(&rt, &mut wanted, b"0 E - 1 3 120002 <");
    put_long(&rt, &mut wanted, b"0 T 65 1 3 120002 <");
    put(&rt, &mut wanted, b"0 T ID 1 120006 2 cd\n0 ! cut\n");
    writes_cut(&rt, text.as_slice(), wanted.as_slice());
}

/// Asserts the writes for such a text, which is cut.
fn writes_cut<R: Abort + AllocGlobal + Threads + Wait + Sync>(rt: &R, text: &[u8], wanted: &[u8]) {
    let plan = made(rt, MIXED_RULES, &[(text, true)], 256);
    writes_in(rt, &plan, wanted, 5, 6);
}

/// Asserts the result of a listing by the main thread with two calls, and the number of bytes that it has written. Its writer fails at this call or
/// never.
fn gathers<R: Abort + AllocGlobal + Threads + Wait + Sync>(
    rt: &R,
    plan: &Plan,
    wanted: &[u8],
    fails_at: u64,
    ended: Result<(), RunFault>,
    held: usize,
) {
    let mut out = failing_writer(rt.alloc(), 1_000_000, fails_at, false);
    let answer = list_plan(rt, rt.alloc(), plan, 0, LineWrites::Whole, &mut out);
    same(rt, &(answer, out.calls), &(ended, 2));
    holds(rt, wanted.starts_with(out.held.as_slice()), fails_at);
    same(rt, &out.held.len(), &held);
}

/// Asserts the same for a plan whose listing has 151,890 bytes.
fn gathers_lines<R: Abort + AllocGlobal + Threads + Wait + Sync>(rt: &R, plan: &Plan) {
    let wanted = listing_of(rt, plan);
    same(rt, &wanted.len(), &151_890);
    gathers(rt, plan, &wanted, 0, Ok(()), 151_890);
    gathers(rt, plan, &wanted, 2, Err(RunFault::Reader), 130_283);
}

/// Asserts the same for the plan of these Echoes.
fn gathers_echoes<R: Abort + AllocGlobal + Threads + Wait + Sync>(rt: &R, text: &[u8]) {
    let plan = made(rt, NO_RULES, &[(text, false)], 256);
    gathers_lines(rt, &plan);
}

/// The listing of 9,000 Echoes of one byte has 151,890 bytes. Its first 7,729 lines are written together: after them, 131,072 bytes have less room
/// left than a line may take.
#[test]
fn gathers_lines_until_they_are_worth_a_write(rt: HostRuntime) {
    let mut text = Vec::new(rt.alloc());
    put_times(&rt, &mut text, b"h", 9_000);
    gathers_echoes(&rt, text.as_slice());
}

#[test]
fn writes_the_rest_of_what_was_taken_in_part(rt: HostRuntime) {
    let plan = mixed_files(&rt, 1);
    let mut out = failing_writer(rt.alloc(), 1, 0, true);
    prints(&rt, &plan, &mut out);
    same_bytes(&rt, out.held.as_slice(), MIXED_LISTING.as_bytes(), &1);
}

/// Calls at which a writer fails, and the lines of the text `hi` without rules that were written by then. If the file is cut, a third line follows.
const HI: &[(u64, &str)] = &[
    (1, ""),
    (2, "0 E - 1 0 1 h\n"),
    (3, "0 E - 1 0 1 h\n0 E - 1 1 1 i\n"),
];

/// Asserts what was written if the writer fails at a call.
fn ends_at<R: Abort + AllocGlobal>(
    rt: &R,
    plan: &Plan,
    takes_nothing: bool,
    call: u64,
    lines: &str,
) {
    let mut out = failing_writer(rt.alloc(), 4_096, call, takes_nothing);
    let ended = print_listing(rt.alloc(), plan, &mut out);
    same(rt, &ended, &Err(RunFault::Reader));
    wrote(rt, &out, lines.as_bytes(), call);
}

#[test]
fn ends_where_the_writer_fails(rt: HostRuntime) {
    let plan = made(&rt, NO_RULES, &[(b"hi", true)], 256);
    for (call, lines) in HI {
        ends_at(&rt, &plan, false, *call, lines);
        ends_at(&rt, &plan, true, *call, lines);
    }
}

// The writer's type is a parameter, since the prover doesn't support a listing over a borrowed local.
fn relay_last_file_first<R: Abort + AllocGlobal, W: Write + Drop>(
    rt: &R,
    plan: &Plan,
    out: W,
) -> u64 {
    let pieces = last_file_first(rt.alloc(), plan).expect(rt, "memory");
    let mut listing = Listing::new(rt.alloc(), plan, out).expect(rt, "memory");
    let mut arrivals = ListArrivals::new(plan, pieces);
    let _replies = relay(rt.alloc(), plan, &mut arrivals, &mut listing).expect(rt, "replies");
    listing.faults()
}

/// Asserts the output of such a relay of the mixed files.
fn holds_pieces<R: Abort + AllocGlobal>(rt: &R, per_piece: u32)
    requires some_items { 0 < per_piece }
    requires few_items { per_piece ≤ max_items }
{
    let plan = mixed_files(rt, per_piece);
    let mut out = failing_writer(rt.alloc(), 4_096, 0, false);
    same(rt, &relay_last_file_first(rt, &plan, &mut out), &0);
    wrote(rt, &out, MIXED_LISTING.as_bytes(), 14);
}

/// It writes each line by itself, also if a piece has several.
#[test]
fn holds_the_pieces_of_later_files(rt: HostRuntime) {
    holds_pieces(&rt, 1);
    holds_pieces(&rt, 256);
}

/// Asserts the results of a new listing whose writer fails, at the first piece, and when it gets that piece again.
fn take_twice<R: Abort + AllocGlobal, W: Write + Drop>(rt: &R, plan: &Plan, out: W)
    requires { IsPlan plan.now }
{
    let mut listing = Listing::new(rt.alloc(), plan, out).expect(rt, "memory");
    let first = take_first(rt.alloc(), plan, &mut listing).expect(rt, "memory");
    assert!(rt; first == Err(ReaderFault::Device) && listing.faults() == 1);
    let second = take_first(rt.alloc(), plan, &mut listing).expect(rt, "memory");
    assert!(rt; second == Err(ReaderFault::Device) && listing.faults() == 2);
}

#[test]
fn answers_device_once_it_has_failed(rt: HostRuntime) {
    let plan = mixed_files(&rt, 1);
    let mut out = failing_writer(rt.alloc(), 4_096, 1, false);
    take_twice(&rt, &plan, &mut out);
    wrote(&rt, &out, b"", 1);
}
