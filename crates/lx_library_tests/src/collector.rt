//! Tests a collector: its replies to arrivals, the order of its deliveries, and the files that it then counts as closed and as cut.

ghost use Rattle.std.specs.Prelude.{◌≡◌, ◌<◌, ◌≤◌, length};

use crate::asserts::{holds, same};
use lx_fixtures::piece;
use lx_piece::{Collector, Mark, Piece, Reply, Why};
use std::process::Abort;

/// Offers a piece, and returns the reply.
fn reply_of(collector: &mut Collector, piece: Piece) -> Reply
    ensures { length collector.new.buffers ≡ length collector.old.buffers }
{
    match collector.offer(piece) {
        Ok(()) => Reply::Accepted,
        Err(refused) => Reply::Refused(refused.why),
    }
}

/// Returns the file and the number of the piece that is delivered next.
fn deliver_next(collector: &mut Collector) -> Option<(u32, u64)>
    ensures { length collector.new.buffers ≡ length collector.old.buffers }
{
    match collector.deliver() {
        Some(piece) => Some((piece.file, piece.number)),
        None => None,
    }
}

/// Asserts the reply to a piece.
pub(crate) fn expect_reply(
    rt: &impl Abort,
    collector: &mut Collector,
    offered: Piece,
    wanted: Reply,
)
    ensures { length collector.new.buffers ≡ length collector.old.buffers }
{
    same(rt, &reply_of(collector, offered), &wanted);
}

/// Asserts what is delivered next.
pub(crate) fn expect_delivery(
    rt: &impl Abort,
    collector: &mut Collector,
    wanted: Option<(u32, u64)>,
)
    ensures { length collector.new.buffers ≡ length collector.old.buffers }
{
    same(rt, &deliver_next(collector), &wanted);
}

/// An arrival at a collector of run 1, by its run, file, number and mark. Also the reply to it, and what is delivered then, if anything is asked for.
type CollectorRow = (u64, u32, u64, Mark, Reply, Option<&'static [(u32, u64)]>);

/// Asserts that these are delivered, and then nothing.
fn expect_deliveries(rt: &impl Abort, collector: &mut Collector, wanted: &[(u32, u64)])
    ensures { length collector.new.buffers ≡ length collector.old.buffers }
{
    for next in wanted {
        expect_delivery(rt, collector, Some(*next));
    }
    expect_delivery(rt, collector, None);
}

/// Asserts the results of a turn.
fn expect_turn<R: Abort + AllocGlobal>(rt: &R, collector: &mut Collector, turn: &CollectorRow)
    ensures { length collector.new.buffers ≡ length collector.old.buffers }
{
    let (run, file, number, mark, reply, delivers) = *turn;
    let offered = piece(rt.alloc(), run, file, number, mark);
    expect_reply(rt, collector, offered, reply);
    if let Some(wanted) = delivers {
        expect_deliveries(rt, collector, wanted);
    }
}

/// Asserts the results of the turns.
fn expect_turns<R: Abort + AllocGlobal>(rt: &R, collector: &mut Collector, turns: &[CollectorRow]) {
    for turn in turns {
        expect_turn(rt, collector, turn);
    }
}

/// Returns a collector of run 1 to which no piece has come.
fn fresh_collector<R: Abort + AllocGlobal>(rt: &R, files: u32) -> Collector
    requires some { 0 < files }
    requires few { files ≤ 65536 }
    ensures { length result.buffers ≡ files }
{
    Collector::new(rt.alloc(), 1, files).expect(rt, "memory")
}

const ACCEPTED: Reply = Reply::Accepted;

const DOUBLE: Reply = Reply::Refused(Why::Double);

const BEHIND: Reply = Reply::Refused(Why::AfterLast);

const CONTRADICTS: Reply = Reply::Refused(Why::Contradicts);

const WRONG_RUN: Reply = Reply::Refused(Why::WrongRun);

/// The pieces of a file in another order, with a duplicate and one after the last.
const ONE_FILE: &[CollectorRow] = &[
    (1, 0, 2, Mark::Whole, ACCEPTED, Some(&[])),
    (1, 0, 0, Mark::More, ACCEPTED, Some(&[(0, 0)])),
    (1, 0, 0, Mark::More, DOUBLE, Some(&[])),
    (1, 0, 1, Mark::More, ACCEPTED, Some(&[(0, 1), (0, 2)])),
    (1, 0, 3, Mark::More, BEHIND, Some(&[])),
];

#[test]
fn orders_the_pieces_of_a_file(rt: HostRuntime) {
    let mut collector = fresh_collector(&rt, 1);
    expect_turns(&rt, &mut collector, ONE_FILE);
    holds(&rt, collector.all_closed(), 1);
}

/// Asserts the results of the turns in a new collector of `files` files.
fn expect_fresh<R: Abort + AllocGlobal>(rt: &R, files: u32, turns: &[CollectorRow])
    requires some { 0 < files }
    requires few { files ≤ 65536 }
{
    let mut collector = fresh_collector(rt, files);
    expect_turns(rt, &mut collector, turns);
}

const WHOLE_BEFORE: &[CollectorRow] = &[
    (1, 0, 2, Mark::More, ACCEPTED, None),
    (1, 0, 0, Mark::Whole, CONTRADICTS, None),
    (1, 0, 0, Mark::More, ACCEPTED, None),
];

const CUT_BEFORE: &[CollectorRow] = &[
    (1, 0, 2, Mark::More, ACCEPTED, None),
    (1, 0, 0, Mark::Cut, CONTRADICTS, None),
    (1, 0, 0, Mark::More, ACCEPTED, None),
];

#[test]
fn refuses_a_marked_piece_before_an_accepted_one(rt: HostRuntime) {
    expect_fresh(&rt, 1, WHOLE_BEFORE);
    expect_fresh(&rt, 1, CUT_BEFORE);
}

const TWO_FILES: &[CollectorRow] = &[
    (1, 1, 0, Mark::Whole, ACCEPTED, None),
    (1, 0, 0, Mark::Whole, ACCEPTED, Some(&[(0, 0), (1, 0)])),
];

#[test]
fn delivers_the_lowest_file_first(rt: HostRuntime) {
    expect_fresh(&rt, 2, TWO_FILES);
}

const GREATEST: &[CollectorRow] = &[
    (1, 0, u64::MAX, Mark::More, BEHIND, None),
    (1, 0, u64::MAX, Mark::Cut, BEHIND, None),
    (2, 0, u64::MAX, Mark::More, WRONG_RUN, None),
];

#[test]
fn refuses_the_greatest_number(rt: HostRuntime) {
    expect_fresh(&rt, 1, GREATEST);
}

/// For each of three files, flags for closed and cut.
type Ends = [(bool, bool); 3];

/// Returns the flags of a file for closed and cut.
fn end_of(collector: &Collector, file: u32) -> (bool, bool)
    requires { file < length collector.now.buffers }
{
    (collector.is_closed(file), collector.is_cut(file))
}

/// Asserts the flags of three files.
fn expect_ends(rt: &impl Abort, collector: &Collector, wanted: &Ends)
    requires { length collector.now.buffers ≡ 3 }
{
    same(rt, &end_of(collector, 0), &wanted[0]);
    same(rt, &end_of(collector, 1), &wanted[1]);
    same(rt, &end_of(collector, 2), &wanted[2]);
}

const OPEN: (bool, bool) = (false, false);

const WHOLE: (bool, bool) = (true, false);

const CUT: (bool, bool) = (true, true);

/// Turns, and the flags of the three files after each.
const THREE_FILES: &[(CollectorRow, Ends)] = &[
    ((1, 0, 0, Mark::Cut, ACCEPTED, None), [OPEN, OPEN, OPEN]),
    (
        (1, 1, 1, Mark::Cut, ACCEPTED, Some(&[(0, 0)])),
        [CUT, OPEN, OPEN],
    ),
    (
        (1, 2, 0, Mark::Whole, ACCEPTED, Some(&[(2, 0)])),
        [CUT, OPEN, WHOLE],
    ),
    ((1, 2, 0, Mark::Cut, DOUBLE, Some(&[])), [CUT, OPEN, WHOLE]),
    (
        (1, 1, 0, Mark::More, ACCEPTED, Some(&[(1, 0), (1, 1)])),
        [CUT, CUT, WHOLE],
    ),
];

#[test]
fn a_file_is_cut_once_its_piece_that_says_so_was_delivered(rt: HostRuntime) {
    let mut collector = fresh_collector(&rt, 3);
    for (turn, ends) in THREE_FILES {
        expect_turn(&rt, &mut collector, turn);
        expect_ends(&rt, &collector, ends);
    }
    holds(&rt, collector.all_closed(), 3);
}

/// The parts of an accepted piece that the plain program below keeps.
#[derive(Clone, Copy)]
struct AcceptedParts {
    file: u32,
    number: u64,
    mark: Mark,
}

/// Returns one of the arrivals of which all lists of six consist. They are the three pieces of a plan of two files, the first of which is cut, a
/// piece that contradicts them, and a foreign piece, of another file or of another run.
fn arrival(symbol: u32, turn: u32) -> (u64, AcceptedParts) {
    let (run, file, number, mark) = match symbol {
        0 => (1, 0, 0, Mark::More),
        1 => (1, 0, 1, Mark::Cut),
        2 => (1, 1, 0, Mark::Whole),
        3 => (1, 0, 2, Mark::More),
        _ if turn < 3 => (1, 2, 0, Mark::Whole),
        _ => (2, 0, 0, Mark::More),
    };
    (run, AcceptedParts { file, number, mark })
}

/// Returns true if a piece of the file with this number was accepted.
fn is_accepted(accepted: &[AcceptedParts], file: u32, number: u64) -> bool {
    for q in accepted {
        if q.file == file && q.number == number {
            return true;
        }
    }
    false
}

/// Returns true if a closing piece of the file below this number was accepted.
fn is_marked_below(accepted: &[AcceptedParts], file: u32, number: u64) -> bool {
    for q in accepted {
        if q.file == file && q.mark != Mark::More && q.number < number {
            return true;
        }
    }
    false
}

/// Returns true if a piece below this number that marks the file as cut was accepted.
fn is_cut_below(accepted: &[AcceptedParts], file: u32, number: u64) -> bool {
    for q in accepted {
        if q.file == file && q.mark == Mark::Cut && q.number < number {
            return true;
        }
    }
    false
}

/// Returns true if a piece of the file above this number was accepted.
fn is_any_above(accepted: &[AcceptedParts], file: u32, number: u64) -> bool {
    for q in accepted {
        if q.file == file && q.number > number {
            return true;
        }
    }
    false
}

/// Returns the first cause that holds against an arrival, in a collector of run 1 and two files.
fn plain_reply(before: &[AcceptedParts], run: u64, p: AcceptedParts) -> Reply {
    if run != 1 {
        Reply::Refused(Why::WrongRun)
    } else if p.file >= 2 {
        Reply::Refused(Why::UnknownFile)
    } else if is_accepted(before, p.file, p.number) {
        Reply::Refused(Why::Double)
    } else if is_marked_below(before, p.file, p.number) {
        Reply::Refused(Why::AfterLast)
    } else if p.mark != Mark::More && is_any_above(before, p.file, p.number) {
        Reply::Refused(Why::Contradicts)
    } else {
        Reply::Accepted
    }
}

/// Returns the next delivery, given the number of delivered pieces of each of two files.
fn plain_delivery(accepted: &[AcceptedParts], counts: (u64, u64)) -> Option<(u32, u64)> {
    if is_accepted(accepted, 0, counts.0) {
        Some((0, counts.0))
    } else if is_accepted(accepted, 1, counts.1) {
        Some((1, counts.1))
    } else {
        None
    }
}

/// Returns the flags of the file for closed and cut, given its number of delivered pieces.
fn plain_end(accepted: &[AcceptedParts], file: u32, count: u64) -> (bool, bool) {
    (
        is_marked_below(accepted, file, count),
        is_cut_below(accepted, file, count),
    )
}

fn raise(counts: (u64, u64), file: u32) -> (u64, u64) {
    if file == 0 {
        (counts.0.wrapping_add(1), counts.1)
    } else {
        (counts.0, counts.1.wrapping_add(1))
    }
}

/// Asserts what is delivered next in a list of arrivals.
fn expect_delivered(
    rt: &impl Abort,
    collector: &mut Collector,
    wanted: Option<(u32, u64)>,
    list: u32,
)
    ensures { length collector.new.buffers ≡ length collector.old.buffers }
{
    holds(rt, deliver_next(collector) == wanted, u64::from(list));
}

/// Asserts that all is delivered as defined, given the number of delivered pieces of each file. Returns the new numbers.
fn delivers_as_defined(
    rt: &impl Abort,
    collector: &mut Collector,
    accepted: &[AcceptedParts],
    counts: (u64, u64),
    list: u32,
) -> (u64, u64)
    ensures { length collector.new.buffers ≡ length collector.old.buffers }
{
    let mut counts = counts;
    for _delivery in 0..4 {
        let delivery = plain_delivery(accepted, counts);
        expect_delivered(rt, collector, delivery, list);
        if let Some((file, _)) = delivery {
            counts = raise(counts, file);
        }
    }
    counts
}

/// Asserts that the two files are closed and cut as defined.
fn ends_as_defined(
    rt: &impl Abort,
    collector: &Collector,
    accepted: &[AcceptedParts],
    counts: (u64, u64),
    list: u32,
)
    requires { length collector.now.buffers ≡ 2 }
{
    let (first, second) = counts;
    let list = u64::from(list);
    holds(
        rt,
        end_of(collector, 0) == plain_end(accepted, 0, first),
        list,
    );
    holds(
        rt,
        end_of(collector, 1) == plain_end(accepted, 1, second),
        list,
    );
}

/// Asserts that the reply to an arrival is as defined, and adds the arrival to the accepted ones if it is accepted.
fn answers_as_defined<R: Abort + AllocGlobal>(
    rt: &R,
    collector: &mut Collector,
    accepted: &mut Vec<AcceptedParts>,
    arrived: (u64, AcceptedParts),
    list: u32,
)
    ensures { length collector.new.buffers ≡ length collector.old.buffers }
{
    let (run, next) = arrived;
    let wanted = plain_reply(accepted, run, next);
    let offered = piece(rt.alloc(), run, next.file, next.number, next.mark);
    holds(rt, reply_of(collector, offered) == wanted, u64::from(list));
    if wanted == Reply::Accepted {
        accepted.push(next).expect(rt, "memory");
    }
}

/// Offers the six arrivals that a number encodes, and delivers all after each, or only after the last.
fn six_turns<R: Abort + AllocGlobal>(
    rt: &R,
    collector: &mut Collector,
    list: u32,
    delivers_at_once: bool,
)
    requires { length collector.old.buffers ≡ 2 }
{
    let mut accepted = Vec::new(rt.alloc());
    let mut counts = (0, 0);
    let mut rest = list;
    for turn in 0..6 {
        let next = arrival(rest % 5, turn);
        rest /= 5;
        answers_as_defined(rt, collector, &mut accepted, next, list);
        if delivers_at_once || turn == 5 {
            counts = delivers_as_defined(rt, collector, &accepted, counts, list);
        }
        ends_as_defined(rt, collector, &accepted, counts, list);
    }
}

/// Offers the six arrivals to a new collector of two files.
fn compares_with_the_plain_program<R: Abort + AllocGlobal>(
    rt: &R,
    list: u32,
    delivers_at_once: bool,
) {
    let mut collector = fresh_collector(rt, 2);
    six_turns(rt, &mut collector, list, delivers_at_once);
}

#[test]
fn answers_every_list_of_six_arrivals_as_defined(rt: HostRuntime) {
    for list in 0..15_625 {
        compares_with_the_plain_program(&rt, list, true);
    }
    for list in 0..3_125 {
        compares_with_the_plain_program(&rt, list, false);
    }
}
