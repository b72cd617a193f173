//! Tests runs of several threads: how they are held, what they have delivered by then, and how they end.

ghost use Rattle.std.specs.Prelude.{◌<◌, ◌≤◌};

use crate::asserts::{holds, same};
use crate::gates::{FileGate, PieceGate};
use crate::keeper::{Keeper, fresh_keeper, keeper_of};
use crate::plans::echoes;
use lx_piece::{Plan, ReaderFault};
use lx_post::{Gate, MeetingGate, OpenGate, RunFault, scan_all};
use std::process::Abort;
use std::sync::Wait;
use std::thread::Threads;

/// Asserts the end of a test's run with this number, and the number of calls of its reader.
fn expect_end(
    rt: &impl Abort,
    run: u64,
    ended: Result<(), RunFault>,
    wanted: Result<(), RunFault>,
    keeper: &Keeper<'_>,
    calls: u64,
) {
    holds(rt, ended == wanted, run);
    same(rt, &keeper.calls, &calls);
}

/// Asserts that a run by `workers` workers through a gate takes every file to its end, with this number of calls of its reader.
fn expect_whole<R: Abort + AllocGlobal + Threads + Wait + Sync, G: Gate + Sync>(
    rt: &R,
    plan: &Plan,
    workers: u8,
    gate: &G,
    run: u64,
    calls: u64,
)
    requires some_workers { 0 < workers }
    requires few_workers { workers ≤ 8 }
{
    let keeper = fresh_keeper(rt, plan);
    let (keeper, ended) = scan_all(rt, rt.alloc(), plan, workers, gate, keeper);
    expect_end(rt, run, ended, Ok(()), &keeper, calls);
}

#[test]
fn two_workers_meet_before_their_first_pieces(rt: HostRuntime) {
    let plan = echoes(&rt, &[1, 1], 1);
    let gate = MeetingGate::new();
    expect_whole(&rt, &plan, 2, &gate, 0, 2);
    holds(&rt, gate.met(), 0);
}

/// Asserts that two workers begin all other files while one of them is held before one.
fn holds_before<R: Abort + AllocGlobal + Threads + Wait + Sync>(rt: &R, plan: &Plan, held: u32) {
    let gate = FileGate::new(held);
    let run = u64::from(held);
    expect_whole(rt, plan, 2, &gate, run, 3);
    holds(rt, !gate.gave_up(), run);
    same(rt, &gate.passes(), &[1, 1, 1]);
}

#[test]
fn every_other_file_is_begun_while_a_worker_is_held_before_one(rt: HostRuntime) {
    let plan = echoes(&rt, &[1, 1, 1], 1);
    for held in 0..3 {
        holds_before(&rt, &plan, held);
    }
}

/// Asserts that one of two workers delivers a file completely while the other is held in the other file.
fn holds_in<R: Abort + AllocGlobal + Threads + Wait + Sync>(rt: &R, plan: &Plan, gate: &PieceGate) {
    let closed = gate.closed.as_slice();
    let keeper = keeper_of(rt, plan, u64::MAX, ReaderFault::Device, closed);
    let (keeper, ended) = scan_all(rt, rt.alloc(), plan, 2, gate, keeper);
    expect_end(rt, 0, ended, Ok(()), &keeper, 4);
}

/// Asserts the same for one of two files.
fn holds_in_file<R: Abort + AllocGlobal + Threads + Wait + Sync>(rt: &R, plan: &Plan, held: u32) {
    let gate = PieceGate::new(held);
    holds_in(rt, plan, &gate);
    holds(rt, gate.has_held(), u64::from(held));
    same(rt, &gate.passes(), &4);
}

#[test]
fn a_file_is_handed_on_whole_while_a_worker_is_held_in_another(rt: HostRuntime) {
    let plan = echoes(&rt, &[2, 2], 1);
    for held in 0..2 {
        holds_in_file(&rt, &plan, held);
    }
}

/// Lengths of a hundred files.
const HUNDRED: &[usize] = &[300; 100];

#[test]
fn eight_workers_hand_on_every_piece_once(rt: HostRuntime) {
    let plan = echoes(&rt, HUNDRED, 1);
    for time in 0..10 {
        expect_whole(&rt, &plan, 8, &OpenGate, time, 30_000);
    }
}

/// Numbers of pieces that a reader takes before it fails.
const ROOMS: &[u64] = &[0, 1, 777, 29_999];

/// Asserts that a reader that fails after `room` pieces isn't called again, and that the run ends with this fault.
fn fails_behind<R: Abort + AllocGlobal + Threads + Wait + Sync>(
    rt: &R,
    plan: &Plan,
    room: u64,
    fault: ReaderFault,
    answer: RunFault,
) {
    let keeper = keeper_of(rt, plan, room, fault, &[]);
    let (keeper, ended) = scan_all(rt, rt.alloc(), plan, 8, &OpenGate, keeper);
    expect_end(
        rt,
        room,
        ended,
        Err(answer),
        &keeper,
        room.saturating_add(1),
    );
    same(rt, &(keeper.pieces.len() as u64), &room);
}

#[test]
fn a_reader_that_fails_is_handed_nothing_more(rt: HostRuntime) {
    let plan = echoes(&rt, HUNDRED, 1);
    for room in ROOMS {
        fails_behind(&rt, &plan, *room, ReaderFault::Device, RunFault::Reader);
        fails_behind(&rt, &plan, *room, ReaderFault::Memory, RunFault::Memory);
    }
}
