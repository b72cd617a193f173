//! Tests listings of files that several threads scan: they have the same bytes as by one thread.

ghost use Rattle.std.specs.Prelude.{◌<◌, ◌≤◌};
ghost use Rattle.lx_piece.specs.Plans.{max_items};

use crate::asserts::{same, same_bytes};
use crate::plans::{listing_of, made, mixed_files};
use lx_fixtures::{MIXED_LISTING, THREE_RULES};
use lx_piece::{Plan, Reader};
use lx_post::{Gate, OpenGate, RunFault, scan_all};
use lx_tool::Listing;
use std::alloc::{AllocError, Global};
use std::io::Write;
use std::process::Abort;
use std::sync::Wait;
use std::thread::Threads;

/// Lists a plan's files by workers. The writer's type is a parameter, since the prover doesn't support a listing over a borrowed local.
pub(crate) fn scan_over<R: Threads + Wait + Sync, G: Gate + Sync, W: Write + Drop>(
    rt: &R,
    alloc: Global,
    plan: &Plan,
    workers: u8,
    gate: &G,
    out: W,
) -> Result<(Result<(), RunFault>, u64), AllocError>
    requires some_workers { 0 < workers }
    requires few_workers { workers ≤ 8 }
{
    let listing = Listing::new(alloc, plan, out)?;
    let (listing, ended) = scan_all(rt, alloc, plan, workers, gate, listing);
    Ok((ended, listing.faults()))
}

/// Asserts the listing of a plan's files by `workers` workers.
fn lists_by<R: Abort + AllocGlobal + Threads + Wait + Sync>(
    rt: &R,
    plan: &Plan,
    workers: u8,
    wanted: &[u8],
)
    requires some_workers { 0 < workers }
    requires few_workers { workers ≤ 8 }
{
    let mut out = Vec::new(rt.alloc());
    let ended = scan_over(rt, rt.alloc(), plan, workers, &OpenGate, &mut out).expect(rt, "memory");
    same(rt, &ended, &(Ok(()), 0));
    same_bytes(rt, out.as_slice(), wanted, &workers);
}

/// Asserts the listing of a plan's files by one thread, and by 1, 2 and 8 workers.
fn lists<R: Abort + AllocGlobal + Threads + Wait + Sync>(rt: &R, plan: &Plan, wanted: &[u8]) {
    let alone = listing_of(rt, plan);
    same_bytes(rt, alone.as_slice(), wanted, &0);
    lists_by(rt, plan, 1, wanted);
    lists_by(rt, plan, 2, wanted);
    lists_by(rt, plan, 8, wanted);
}

/// Files, with a flag for a failed reading, and their listing by the three rules.
type ListingRow = (&'static [(&'static [u8], bool)], &'static [u8]);

const ROWS: &[ListingRow] = &[
    (
        &[(b"a", false), (b"", false), (b"1\n2", false)],
        b"0 T ID 1 0 1 a\n2 T NUM 1 0 1 1\n2 T NUM 2 2 1 2\n",
    ),
    (
        &[(b"a", true), (b"", false), (b"1\n2", false)],
        b"0 T ID 1 0 1 a\n0 ! cut\n2 T NUM 1 0 1 1\n2 T NUM 2 2 1 2\n",
    ),
    (
        &[(b"ab 12\n", false)],
        b"0 T ID 1 0 2 ab\n0 T NUM 1 3 2 12\n",
    ),
    (
        &[(b"ab 12", true)],
        b"0 T ID 1 0 2 ab\n0 T NUM 1 3 2 12\n0 ! cut\n",
    ),
    (&[(b"", false)], b""),
    (&[(b"", true)], b"0 ! cut\n"),
];

/// Asserts the listing of a row, with `per_piece` items a piece.
fn lists_row<R: Abort + AllocGlobal + Threads + Wait + Sync>(
    rt: &R,
    row: &ListingRow,
    per_piece: u32,
)
    requires some_items { 0 < per_piece }
    requires few_items { per_piece ≤ max_items }
{
    let (files, wanted) = *row;
    assert!(rt; !files.is_empty() && files.len() < 9);
    let plan = made(rt, THREE_RULES, files, per_piece);
    lists(rt, &plan, wanted);
}

/// Asserts the listing of the mixed files.
fn lists_mixed<R: Abort + AllocGlobal + Threads + Wait + Sync>(rt: &R, per_piece: u32)
    requires some_items { 0 < per_piece }
    requires few_items { per_piece ≤ max_items }
{
    let plan = mixed_files(rt, per_piece);
    lists(rt, &plan, MIXED_LISTING.as_bytes());
}

/// Asserts the listings of all files, with `per_piece` items a piece.
fn lists_all<R: Abort + AllocGlobal + Threads + Wait + Sync>(rt: &R, per_piece: u32)
    requires some_items { 0 < per_piece }
    requires few_items { per_piece ≤ max_items }
{
    for row in ROWS {
        lists_row(rt, row, per_piece);
    }
    lists_mixed(rt, per_piece);
}

#[test]
fn workers_list_as_one_thread_does(rt: HostRuntime) {
    lists_all(&rt, 1);
    lists_all(&rt, 2);
    lists_all(&rt, 256);
}
