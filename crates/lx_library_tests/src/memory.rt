//! Tests failed allocations: the result reports them, what was passed in comes back, and the next try continues as if nothing had failed. With enough
//! memory each call succeeds. `rt try --test --fail-alloc N` fails the Nth allocation of each test. A test that can't allocate itself ends there.

ghost use Rattle.std.specs.Prelude.{◌<◌};
ghost use Rattle.lx_piece.specs.Cutting.{IsCutterOf};
ghost use Rattle.lx_piece.specs.Plans.{IsPlan};

use crate::asserts::{holds, same};
use crate::collector::{expect_delivery, expect_reply};
use crate::plans::echo_plan;
use crate::relay::{fresh_tally, relay_list};
use crate::thread_pieces::head;
use lx_fixtures::{echo, last_file_first};
use lx_piece::{Collector, Cutter, Items, Mark, Piece, Plan, Refused, RelayFault, Reply, Why};
use std::alloc::{AllocError, Global};
use std::process::Abort;

/// Number of files, or pieces of one file, that a collector is offered.
const MANY: u32 = 40;

/// Returns a piece of run 1 with one item, which begins at the piece's number.
fn with_item(alloc: Global, file: u32, number: u32, mark: Mark) -> Result<Piece, AllocError> {
    let start = number as usize;
    let items = vec![in alloc; echo(1, start); 1]?;
    Ok(Piece {
        run: 1,
        file,
        number: u64::from(number),
        mark,
        items: Items::from_vec(items),
    })
}

/// Asserts that a piece is that of `with_item`.
fn expect_with_item(rt: &impl Abort, piece: &Piece, file: u32, number: u64, mark: Mark) {
    same(rt, &head(piece), &(1, file, number, mark));
    let item = echo(1, number as usize);
    same(rt, &piece.items.as_slice(), &[item].as_slice());
}

/// Offers a piece of `with_item`. If it comes back, asserts that this is for lack of memory, and that it is unchanged.
fn offer_again(rt: &impl Abort, collector: &mut Collector, offered: Piece) -> Option<Piece> {
    let (file, number, mark) = (offered.file, offered.number, offered.mark);
    match collector.offer(offered) {
        Ok(()) => None,
        Err(Refused { why, piece }) => {
            same(rt, &why, &Why::Memory);
            expect_with_item(rt, &piece, file, number, mark);
            Some(piece)
        }
    }
}

/// Delivers the first pieces of the files from `from` up to `to`, and then nothing.
fn expect_files(rt: &impl Abort, collector: &mut Collector, from: u32, to: u32) {
    for file in from..to {
        expect_delivery(rt, collector, Some((file, 0)));
    }
    expect_delivery(rt, collector, None);
}

#[test]
fn a_collector_is_made_or_memory_was_refused(rt: HostRuntime) {
    if Collector::new(rt.alloc(), 1, MANY).is_err() {
        holds(&rt, Collector::new(rt.alloc(), 1, MANY).is_ok(), 0);
    }
}

/// Offers a file's piece while the later files up to `end` wait. If it comes back, these are delivered before it is offered again. Returns the end of
/// those that then wait. Err: the test can't allocate.
fn offer_file(
    rt: &impl Abort,
    alloc: Global,
    collector: &mut Collector,
    file: u32,
    end: u32,
) -> Result<u32, AllocError>
    requires { file < 40 }
{
    let offered = with_item(alloc, file, 0, Mark::Whole)?;
    match offer_again(rt, collector, offered) {
        None => Ok(end),
        Some(piece) => {
            expect_files(rt, collector, file + 1, end);
            holds(rt, !collector.all_closed(), u64::from(file));
            expect_reply(rt, collector, piece, Reply::Accepted);
            Ok(file + 1)
        }
    }
}

/// Offers the pieces of all files, the last file first. Returns the end of those that then wait.
fn offer_files(
    rt: &impl Abort,
    alloc: Global,
    collector: &mut Collector,
) -> Result<u32, AllocError> {
    let mut end = MANY;
    for index in 0..MANY {
        end = offer_file(rt, alloc, collector, MANY - 1 - index, end)?;
    }
    Ok(end)
}

#[test]
fn a_file_whose_piece_came_back_has_none_to_deliver(rt: HostRuntime) {
    let Ok(mut collector) = Collector::new(rt.alloc(), 1, MANY) else {
        return;
    };
    if let Ok(end) = offer_files(&rt, rt.alloc(), &mut collector) {
        expect_files(&rt, &mut collector, 0, end);
        holds(&rt, collector.all_closed(), 0);
    }
}

/// Offers the piece of a number. Nothing is delivered after it unless it is the first. Err: the test can't allocate.
fn offer_number(
    rt: &impl Abort,
    alloc: Global,
    collector: &mut Collector,
    number: u32,
    mark: Mark,
) -> Result<(), AllocError> {
    let offered = with_item(alloc, 0, number, mark)?;
    if let Some(piece) = offer_again(rt, collector, offered) {
        expect_delivery(rt, collector, None);
        expect_reply(rt, collector, piece, Reply::Accepted);
    }
    let first = if number == 0 { Some((0, 0)) } else { None };
    expect_delivery(rt, collector, first);
    Ok(())
}

/// Offers the pieces of a file, the last one first.
fn offer_numbers(
    rt: &impl Abort,
    alloc: Global,
    collector: &mut Collector,
) -> Result<(), AllocError> {
    for index in 0..MANY {
        let mark = if index == 0 { Mark::Cut } else { Mark::More };
        offer_number(rt, alloc, collector, MANY - 1 - index, mark)?;
    }
    Ok(())
}

/// Delivers the pieces of a file after its first, which closes it.
fn expect_numbers(rt: &impl Abort, collector: &mut Collector) {
    for number in 1..MANY {
        expect_delivery(rt, collector, Some((0, u64::from(number))));
    }
    expect_delivery(rt, collector, None);
    holds(rt, collector.all_closed(), 0);
}

#[test]
fn a_number_that_came_back_is_not_held(rt: HostRuntime) {
    let Ok(mut collector) = Collector::new(rt.alloc(), 1, 1) else {
        return;
    };
    if offer_numbers(&rt, rt.alloc(), &mut collector).is_ok() {
        expect_numbers(&rt, &mut collector);
    }
}

/// Asserts a piece's number, its number of items, and its mark.
fn expect_cut(rt: &impl Abort, piece: &Piece, number: u64, len: usize, mark: Mark) {
    let found = (piece.number, piece.items.as_slice().len(), piece.mark);
    same(rt, &found, &(number, len, mark));
}

/// Asserts the cutter's next piece. Tries again if the first try failed to allocate.
fn expect_piece<R: Abort>(
    rt: &R,
    cutter: &mut Cutter,
    plan: &Plan,
    number: u64,
    len: usize,
    mark: Mark,
)
    requires { IsCutterOf plan.now cutter.old }
    ensures { IsCutterOf plan.now cutter.new }
{
    let next = match cutter.next_piece(plan) {
        Err(AllocError) => cutter.next_piece(plan),
        next => next,
    };
    match next {
        Ok(Some(piece)) => expect_cut(rt, &piece, number, len, mark),
        _ => holds(rt, false, number),
    }
}

/// Asserts the pieces of a file of 600 items.
fn expect_three(rt: &impl Abort, alloc: Global, plan: &Plan)
    requires { IsPlan plan.now }
{
    let mut cutter = Cutter::new(alloc, plan, 0);
    expect_piece(rt, &mut cutter, plan, 0, 256, Mark::More);
    expect_piece(rt, &mut cutter, plan, 1, 256, Mark::More);
    expect_piece(rt, &mut cutter, plan, 2, 88, Mark::Whole);
    holds(rt, matches!(cutter.next_piece(plan), Ok(None)), 3);
}

#[test]
fn a_cutter_gives_the_piece_that_was_refused(rt: HostRuntime) {
    if let Ok(plan) = echo_plan(rt.alloc(), &[600], 256) {
        expect_three(&rt, rt.alloc(), &plan);
    }
}

/// The outcome of a relay.
#[derive(Clone, Copy, Debug, PartialEq, Eq)]
enum RelayOutcome {
    /// All pieces were taken.
    Whole,
    /// An allocation failed. The files after one that wasn't taken completely have nothing.
    Part,
    /// The test itself can't allocate.
    Untried,
}

/// Numbers of pieces of three files that were taken, after each one except the last.
const FRONTS: &[[u64; 3]] = &[
    [0, 0, 0],
    [0, 0, 1],
    [0, 0, 2],
    [0, 1, 2],
    [1, 1, 2],
    [2, 1, 2],
];

fn is_front(taken: &[u64]) -> bool {
    for front in FRONTS {
        if taken == front.as_slice() {
            return true;
        }
    }
    false
}

/// Asserts that a relay of all six pieces accepted and took each.
fn expect_whole(rt: &impl Abort, replies: &[Reply], taken: &[u64]) {
    same(rt, &replies, &[Reply::Accepted; 6].as_slice());
    same(rt, &taken, &[3, 1, 2].as_slice());
}

/// Asserts that a relay took all pieces, or a part for lack of memory.
fn expect_relayed(
    rt: &impl Abort,
    relayed: Result<Vec<Reply>, RelayFault>,
    taken: &[u64],
) -> RelayOutcome {
    match relayed {
        Ok(replies) => {
            expect_whole(rt, &replies, taken);
            RelayOutcome::Whole
        }
        Err(fault) => {
            holds(rt, fault == RelayFault::Memory && is_front(taken), 0);
            RelayOutcome::Part
        }
    }
}

/// Relays the pieces of a plan of three files of 3, 1 and 2 pieces, the last file first.
fn relay_three(rt: &impl Abort, alloc: Global, plan: &Plan) -> RelayOutcome {
    let Ok(mut tally) = fresh_tally(alloc, plan, u64::MAX) else {
        return RelayOutcome::Untried;
    };
    let Ok(pieces) = last_file_first(alloc, plan) else {
        return RelayOutcome::Untried;
    };
    let relayed = relay_list(alloc, plan, pieces, &mut tally);
    expect_relayed(rt, relayed, &tally.counts)
}

/// Relays them, and all again if only a part was taken.
fn relay_again(rt: &impl Abort, alloc: Global, plan: &Plan) {
    if relay_three(rt, alloc, plan) == RelayOutcome::Part {
        same(rt, &relay_three(rt, alloc, plan), &RelayOutcome::Whole);
    }
}

#[test]
fn a_relay_takes_a_part_where_memory_is_refused(rt: HostRuntime) {
    if let Ok(plan) = echo_plan(rt.alloc(), &[600, 3, 512], 256) {
        relay_again(&rt, rt.alloc(), &plan);
    }
}
