//! Tests the pieces of many files that several threads cut: each file's pieces are delivered in order, as one thread cuts them.

ghost use Rattle.std.specs.Prelude.{◌≡◌, ◌<◌, ◌≤◌, IfSome, length, vec_len};
ghost use Rattle.lx_piece.specs.Plans.{max_items};

use crate::asserts::{holds, same};
use crate::keeper::fresh_keeper;
use crate::plans::plan_by;
use lx_fixtures::{MIXED_RULES, last_file_first};
use lx_piece::{Input, Mark, Piece, Plan};
use lx_post::{OpenGate, scan_all};
use std::process::Abort;
use std::sync::Wait;
use std::thread::Threads;

const FILES: u32 = 60;

/// Words, numbers, blanks, text that yields two items, and text that no rule takes.
const TEXT: &[u8; 17] = b"ab 12<x>\n~z9 <y>c";

/// Returns the bytes of a file, 0 to 2,679 of them.
fn bytes_of<R: Abort + AllocGlobal>(rt: &R, file: u32) -> Vec<u8>
    requires { file < 60 }
{
    let len = file * file % 64 * 47;
    let mut bytes = Vec::new(rt.alloc());
    for index in 0..len {
        let byte = TEXT[(index * (file + 1) + file) as usize % 17];
        bytes.push(byte).expect(rt, "memory");
    }
    bytes
}

/// Returns a file. Each seventh one is cut.
fn file_of<R: Abort + AllocGlobal>(rt: &R, file: u32) -> Input
    requires { file < 60 }
{
    Input {
        bytes: bytes_of(rt, file),
        cut: file % 7 == 3,
    }
}

/// Returns 60 files.
fn many_files<R: Abort + AllocGlobal>(rt: &R) -> Vec<Input>
    ensures { vec_len result ≡ 60 }
{
    let mut files = Vec::new(rt.alloc());
    for file in 0..FILES {
        files.push(file_of(rt, file)).expect(rt, "memory");
    }
    files
}

/// Makes the plan of these files.
fn plan_of_many<R: Abort + AllocGlobal>(rt: &R, per_piece: u32) -> Plan
    requires some_items { 0 < per_piece }
    requires few_items { per_piece ≤ max_items }
{
    let files = many_files(rt);
    plan_by(rt.alloc(), MIXED_RULES, files, per_piece).expect(rt, "memory")
}

/// Returns a piece's run, file, number and mark.
pub(crate) fn head(piece: &Piece) -> (u64, u32, u64, Mark) {
    (piece.run, piece.file, piece.number, piece.mark)
}

/// Asserts that the two are the same piece.
fn expect_same(rt: &impl Abort, found: &Piece, wanted: &Piece) {
    same(rt, &head(found), &head(wanted));
    same(rt, &found.items.as_slice(), &wanted.items.as_slice());
}

/// Returns the index of the first piece of a file from an index on.
fn index_of(pieces: &[Piece], from: usize, file: u32) -> Option<usize>
    ensures { IfSome result (λ index. index < length pieces.now) }
{
    for index in from..pieces.len() {
        if pieces[index].file == file {
            return Some(index);
        }
    }
    None
}

/// Asserts the first piece of a file from an index on. Returns the index after it.
fn expect_next(rt: &impl Abort, found: &[Piece], from: usize, wanted: &Piece) -> usize {
    let index = index_of(found, from, wanted.file).expect(rt, "a piece is missing");
    expect_same(rt, &found[index], wanted);
    index.saturating_add(1)
}

/// Asserts that the pieces of a file are the same, in the same order, in both lists. There is at least one.
fn expect_file(rt: &impl Abort, found: &[Piece], wanted: &[Piece], file: u32) {
    let mut behind = 0usize;
    for piece in wanted {
        if piece.file == file {
            behind = expect_next(rt, found, behind, piece);
        }
    }
    let is_whole = behind != 0 && index_of(found, behind, file).is_none();
    holds(rt, is_whole, u64::from(file));
}

/// Asserts that this number of workers delivers the expected pieces of each file.
fn hands_on_by<R: Abort + AllocGlobal + Threads + Wait + Sync>(
    rt: &R,
    plan: &Plan,
    workers: u8,
    wanted: &[Piece],
)
    requires some_workers { 0 < workers }
    requires few_workers { workers ≤ 8 }
{
    let keeper = fresh_keeper(rt, plan);
    let (keeper, ended) = scan_all(rt, rt.alloc(), plan, workers, &OpenGate, keeper);
    same(rt, &(ended, keeper.pieces.len()), &(Ok(()), wanted.len()));
    expect_files(rt, &keeper.pieces, wanted);
}

/// Asserts that the pieces of each file are the same, in the same order, in both lists.
fn expect_files(rt: &impl Abort, found: &[Piece], wanted: &[Piece]) {
    for file in 0..FILES {
        expect_file(rt, found, wanted, file);
    }
}

/// Asserts the same for one worker, three and eight.
fn hands_on_by_each<R: Abort + AllocGlobal + Threads + Wait + Sync>(rt: &R, plan: &Plan) {
    let wanted = last_file_first(rt.alloc(), plan).expect(rt, "memory");
    hands_on_by(rt, plan, 1, &wanted);
    hands_on_by(rt, plan, 3, &wanted);
    hands_on_by(rt, plan, 8, &wanted);
}

/// Asserts the same for the many files, with `per_piece` items a piece.
fn hands_on_many<R: Abort + AllocGlobal + Threads + Wait + Sync>(rt: &R, per_piece: u32)
    requires some_items { 0 < per_piece }
    requires few_items { per_piece ≤ max_items }
{
    let plan = plan_of_many(rt, per_piece);
    hands_on_by_each(rt, &plan);
}

#[test]
fn workers_hand_on_the_pieces_of_each_file_in_order(rt: HostRuntime) {
    hands_on_many(&rt, 1);
    hands_on_many(&rt, 7);
    hands_on_many(&rt, 256);
}
