//! Tests the amount of later files that a run holds while an earlier one is held.

use crate::asserts::same;
use crate::thread_listings::scan_over;
use lx_fixtures::{NO_RULES, tables_of};
use lx_piece::{Input, Plan};
use lx_post::Gate;
use std::process::Abort;
use std::sync::Wait;
use std::sync::atomic::{AtomicU64, Ordering};
use std::thread;
use std::thread::Threads;

// Number of items of a piece.
const ITEMS: u32 = 256;

// Number of bytes of a file. Each of them is an item of 40 bytes.
const BYTES: usize = 50_000;

// With many files, the first worker draws no further file once 12 MB are held, and the second one once 6 MB are. The file that it cuts, a piece by
// each of two workers, and 256 pieces between the threads are added.
const MOST_OF_MANY: u64 = (3 << 22) / (40 * 256) + 196 + 2 + 256;

// The bound is reached before the first file is done. A list takes at most twice the memory of its items.
const LEAST_OF_MANY: u64 = (3 << 21) / (2 * 40 * 256);

// Within a file, 24 MB are held.
const MOST_OF_ONE: u64 = (3 << 23) / (40 * 256) + 2 + 256;

const LEAST_OF_ONE: u64 = (3 << 23) / (2 * 40 * 256);

// Number of turns without a pass of another worker after which it counts as waiting.
const TURNS: u32 = 200_000;

const ROUNDS: u32 = 10_000;

/// A gate that holds the first file until the worker of the others waits.
#[derive(Drop)]
struct StillGate {
    others: AtomicU64,
    by_then: AtomicU64,
}

/// Yields until the count hasn't risen for a while. Returns the count.
fn turns_until_still(count: &AtomicU64) -> u64 {
    for _round in 0..ROUNDS {
        let before = count.load(Ordering::SeqCst);
        for _turn in 0..TURNS {
            thread::yield_now();
        }
        if before > 0 && count.load(Ordering::SeqCst) == before {
            return before;
        }
    }
    count.load(Ordering::SeqCst)
}

impl Gate for StillGate {
    fn pass(&self, _worker: u8, file: u32, number: u64) {
        if file > 0 {
            self.others.fetch_add(1, Ordering::SeqCst);
        } else if number == 0 {
            let passed = turns_until_still(&self.others);
            self.by_then.store(passed, Ordering::SeqCst);
        }
    }
}

// Returns a file of this length.
fn file_of<R: Abort + AllocGlobal>(rt: &R, bytes: usize) -> Input {
    Input {
        bytes: vec![in rt.alloc(); b'x'; bytes].expect(rt, "memory"),
        cut: false,
    }
}

// Returns a file of one byte, and `later` files of this length after it.
fn files_of_echoes<R: Abort + AllocGlobal>(rt: &R, later: usize, bytes: usize) -> Vec<Input> {
    let mut files = Vec::new(rt.alloc());
    files.push(file_of(rt, 1)).expect(rt, "memory");
    for _file in 0..later {
        files.push(file_of(rt, bytes)).expect(rt, "memory");
    }
    files
}

// Makes the plan of these files.
fn plan_of_echoes<R: Abort + AllocGlobal>(rt: &R, later: usize, bytes: usize) -> Plan {
    let files = files_of_echoes(rt, later, bytes);
    assert!(rt; !files.is_empty() && files.len() <= 100);
    let tables = tables_of(rt.alloc(), NO_RULES).expect(rt, "tables");
    Plan::new(tables, files, ITEMS, 1)
}

// Returns the number of pieces of a plan's later files that are cut while the first file is held.
fn held_pieces<R: Abort + AllocGlobal + Threads + Wait + Sync>(rt: &R, plan: &Plan) -> u64 {
    let gate = StillGate {
        others: AtomicU64::new(0),
        by_then: AtomicU64::new(0),
    };
    let mut out = Vec::new(rt.alloc());
    let ended = scan_over(rt, rt.alloc(), plan, 2, &gate, &mut out).expect(rt, "memory");
    same(rt, &ended, &(Ok(()), 0));
    gate.by_then.load(Ordering::SeqCst)
}

// Asserts bounds for the number of such pieces.
fn holds_between<R: Abort + AllocGlobal + Threads + Wait + Sync>(
    rt: &R,
    later: usize,
    bytes: usize,
    least: u64,
    most: u64,
) {
    let plan = plan_of_echoes(rt, later, bytes);
    let held = held_pieces(rt, &plan);
    assert!(rt;
        least <= held && held <= most,
        "{held} pieces of {later} files"
    );
}

#[test]
fn few_pieces_of_later_files_are_held(rt: HostRuntime) {
    holds_between(&rt, 40, BYTES, LEAST_OF_MANY, MOST_OF_MANY);
    holds_between(&rt, 1, 40 * BYTES, LEAST_OF_ONE, MOST_OF_ONE);
}
