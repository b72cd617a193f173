//! Calls on pieces, and on the collector that puts them in order.

ghost use Rattle.std.specs.Prelude.{◌≡◌, ◌<◌, ◌≤◌, IfOk, length};
ghost use Rattle.lx_piece.specs.Cutting.{IsCutterOf};
ghost use Rattle.lx_piece.specs.Plans.{IsPlan};

use crate::rows::FILE_OF_TWO_WORDS;
use crate::stop::{Stop, end_of_print, refuse_from_here, say, say_fault, unless_refused};
use lx_fixtures::{NO_RULES, THREE_RULES, piece, plan_of};
use lx_piece::{Collector, Cutter, Mark, Piece, Plan, Refused, Why};
use std::alloc::{AllocError, Global};

pub(crate) fn print_piece(rt: &impl Print, piece: &Piece) -> Result<(), Stop> {
    let (file, number, mark) = (piece.file, piece.number, piece.mark);
    let len = piece.items.as_slice().len();
    end_of_print(println!(rt; "file {file} piece {number} {mark:?} {len} items"))
}

fn print_next_once(rt: &impl Print, plan: &Plan, cutter: &mut Cutter) -> Result<(), Stop>
    requires { IsCutterOf plan.now cutter.old }
    ensures { IsCutterOf plan.now cutter.new }
{
    match cutter.next_piece(plan) {
        Ok(Some(piece)) => print_piece(rt, &piece),
        Ok(None) => say(rt, "no piece"),
        Err(AllocError) => Err(Stop::Refused),
    }
}

/// Prints a cutter's next piece.
fn print_next(rt: &impl Print, plan: &Plan, cutter: &mut Cutter) -> Result<(), Stop>
    requires { IsCutterOf plan.now cutter.old }
    ensures { IsCutterOf plan.now cutter.new }
{
    match unless_refused(rt, print_next_once(rt, plan, cutter)) {
        Some(ended) => ended,
        None => print_next_once(rt, plan, cutter),
    }
}

/// Prints the results of three calls of a cutter of the first file.
fn print_first_pieces(rt: &impl Print, alloc: Global, plan: &Plan) -> Result<(), Stop>
    requires { IsPlan plan.now }
{
    let mut cutter = Cutter::new(alloc, plan, 0);
    print_next(rt, plan, &mut cutter)?;
    print_next(rt, plan, &mut cutter)?;
    print_next(rt, plan, &mut cutter)
}

/// Returns the plan of a file of `len` bytes, each of which is an Echo, in pieces of 256.
fn echo_plan(alloc: Global, len: usize) -> Result<Plan, Stop>
    requires { len ≤ 512 }
    ensures { IfOk result IsPlan }
{
    let bytes = [b'x'; 512];
    Ok(plan_of(alloc, NO_RULES, &[(&bytes[..len], false)], 256)?)
}

/// Prints the first pieces of two plans.
fn print_two(rt: &impl Print, alloc: Global, first: &Plan, second: &Plan) -> Result<(), Stop>
    requires first { IsPlan first.now }
    requires second { IsPlan second.now }
{
    print_first_pieces(rt, alloc, first)?;
    print_first_pieces(rt, alloc, second)
}

/// Makes two more plans, and prints the first pieces of all.
fn cuts_with(rt: &impl Print, alloc: Global, full: &Plan, one_more: &Plan) -> Result<(), Stop>
    requires full { IsPlan full.now }
    requires one_more { IsPlan one_more.now }
{
    let two = echo_plan(alloc, 512)?;
    let words = plan_of(alloc, THREE_RULES, FILE_OF_TWO_WORDS, 1)?;
    match print_two(rt, alloc, full, one_more) {
        Ok(()) => print_two(rt, alloc, &two, &words),
        stopped => stopped,
    }
}

/// Calls `next_piece` on files of 256, 257 and 512 bytes, and on two words one by one.
pub(crate) fn cuts(rt: &impl Print, alloc: Global) -> Result<(), Stop> {
    let full = echo_plan(alloc, 256)?;
    let one_more = echo_plan(alloc, 257)?;
    cuts_with(rt, alloc, &full, &one_more)
}

/// Prints if a collector's first file is closed and cut, and if all files are closed.
fn print_collector(rt: &impl Print, collector: &Collector) -> Result<(), Stop>
    requires { 0 < length collector.now.buffers }
{
    let (closed, cut) = (collector.is_closed(0), collector.is_cut(0));
    let all = collector.all_closed();
    end_of_print(println!(rt; "closed {closed}, cut {cut}, all closed {all}"))
}

fn make_collector_once(rt: &impl Print, alloc: Global) -> Result<(), Stop> {
    match Collector::new(alloc, 1, 3) {
        Ok(collector) => print_collector(rt, &collector),
        Err(AllocError) => Err(Stop::Refused),
    }
}

/// Calls `Collector::new` for three files.
pub(crate) fn makes_collector(rt: &impl Print, alloc: Global) -> Result<(), Stop> {
    match unless_refused(rt, make_collector_once(rt, alloc)) {
        Some(ended) => ended,
        None => make_collector_once(rt, alloc),
    }
}

fn print_reply(rt: &impl Print, reply: Result<(), Refused>) -> Result<(), Stop> {
    match reply {
        Ok(()) => say(rt, "accepted"),
        Err(
            Refused {
                why: Why::Memory,
                piece: _,
            },
        ) => Err(Stop::Refused),
        Err(refused) => say_fault(rt, &refused),
    }
}

/// Offers a piece, and prints the reply.
fn offer(rt: &impl Print, collector: &mut Collector, piece: Piece) -> Result<(), Stop>
    ensures { length collector.new.buffers ≡ length collector.old.buffers }
{
    match collector.offer(piece) {
        Err(
            Refused {
                why: Why::Memory,
                piece,
            },
        ) => {
            say(rt, "refused")?;
            print_reply(rt, collector.offer(piece))
        }
        reply => print_reply(rt, reply),
    }
}

/// Prints a piece that is delivered, if there is one.
fn deliver(rt: &impl Print, collector: &mut Collector) -> Result<(), Stop>
    ensures { length collector.new.buffers ≡ length collector.old.buffers }
{
    match collector.deliver() {
        Some(piece) => print_piece(rt, &piece),
        None => Ok(()),
    }
}

/// Prints the delivered pieces, at most four.
fn print_delivered(rt: &impl Print, collector: &mut Collector) -> Result<(), Stop>
    requires { 0 < length collector.old.buffers }
    ensures { length collector.new.buffers ≡ length collector.old.buffers }
{
    for _piece in 0..4 {
        deliver(rt, collector)?;
    }
    print_collector(rt, collector)
}

/// The pieces of a file in another order, with a duplicate and one after the last.
const TURNS: &[(u64, Mark)] = &[
    (2, Mark::Whole),
    (0, Mark::More),
    (0, Mark::More),
    (1, Mark::More),
    (3, Mark::More),
];

/// Offers pieces in another order, and prints what is delivered after each.
fn offer_turns(rt: &impl Print, alloc: Global, collector: &mut Collector) -> Result<(), Stop>
    requires { 0 < length collector.old.buffers }
{
    for (number, mark) in TURNS {
        offer(rt, collector, piece(alloc, 1, 0, *number, *mark))?;
        print_delivered(rt, collector)?;
    }
    Ok(())
}

/// Calls `offer` with pieces in another order, and delivers after each.
pub(crate) fn offers(rt: &impl Print, alloc: Global) -> Result<(), Stop> {
    match Collector::new(alloc, 1, 1) {
        Ok(mut collector) => offer_turns(rt, alloc, &mut collector),
        Err(AllocError) => Err(Stop::NotBegun),
    }
}

/// The three pieces of a cut file.
const CUT_FILE: &[(u64, Mark)] = &[(2, Mark::Cut), (0, Mark::More), (1, Mark::More)];

fn prepare(alloc: Global) -> Result<Collector, Stop>
    ensures { IfOk result (λ collector. length collector.buffers ≡ 1) }
{
    let Ok(mut collector) = Collector::new(alloc, 1, 1) else {
        return Err(Stop::NotBegun);
    };
    for (number, mark) in CUT_FILE {
        if collector.offer(piece(alloc, 1, 0, *number, *mark)).is_err() {
            return Err(Stop::NotBegun);
        }
    }
    Ok(collector)
}

/// Calls `deliver`, `is_closed`, `is_cut` and `all_closed` on a collector that holds the three pieces of a cut file.
pub(crate) fn delivers(rt: &impl Print, alloc: Global) -> Result<(), Stop> {
    let mut collector = prepare(alloc)?;
    refuse_from_here(alloc);
    match print_collector(rt, &collector) {
        Ok(()) => print_delivered(rt, &mut collector),
        stopped => stopped,
    }
}
