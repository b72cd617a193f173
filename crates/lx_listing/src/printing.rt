//! Lists a plan's files, by workers or on the calling thread.

ghost use Rattle.std.specs.Prelude.{◌≡◌, ◌<◌, ◌≤◌, OnOk, OnErr};
ghost use Rattle.std.specs.Io.KnownBytes.{Appends};
ghost use Rattle.lx_piece.specs.Plans.{max_workers};
ghost use Rattle.lx_listing.specs.Appending.{AppendsPrefix};
ghost use Rattle.lx_listing.specs.Listings.{listing_by, listing_of};
ghost use Rattle.lx_listing.specs.Printing.{WrotePrefix};

use crate::direct::write_files;
use crate::gathering::Gathering;
use crate::printer::Printer;
use crate::sink::{Lent, LineSink};
use crate::spares::Shared;
use crate::styled::list_plan_by;
use crate::{LineMaker, LineWrites, Spares};
use lx_line::{LineBuffer, LineStyle, PlainStyle};
use lx_piece::{InOrder, Plan, ReaderFault};
use lx_post::{OpenGate, RunFault, scan_made};
use std::alloc::Global;
use std::io::Write;
use std::sync::Wait;
use std::thread::Threads;

/// Writes the lines of the plan's files in a style on this thread.
pub(crate) fn print_to<L: LineStyle + Drop, S: LineSink + Drop>(
    alloc: Global,
    plan: &Plan,
    style: L,
    sink: S,
) -> (S, Result<(), RunFault>)
    ensures ok { OnOk result.1 (S.wrote sink (listing_by (L.style style) plan.now) result.0) }
    ensures part { WrotePrefix S.wrote sink (listing_by (L.style style) plan.now) result.0 }
{
    let mut sink = sink;
    let answer = match write_files(alloc, plan, style, &mut sink) {
        Ok(()) => Ok(()),
        Err(ReaderFault::Memory) => Err(RunFault::Memory),
        Err(ReaderFault::Device) => Err(RunFault::Reader),
    };
    (sink, answer)
}

// Delivers all pieces of the plan to a new printer, as workers cut them. Returns the printer, so that the final contents of a borrowed writer are
// known.
fn scan_all_to<T: Threads + Wait + Sync, Y: Spares + Copy + Drop + Sync, S: LineSink + Drop>(
    rt: &T,
    alloc: Global,
    plan: &Plan,
    workers: u8,
    maker: LineMaker<Y>,
    printer: Printer<Y, S>,
) -> (Printer<Y, S>, Result<(), RunFault>)
    requires some_workers { 0 < workers }
    requires few_workers { workers ≤ max_workers }
    requires plan { printer.draft.plan ≡ plan.now }
    requires file { printer.file ≡ 0 }
    requires number { printer.number ≡ 0 }
    ensures ok { OnOk result.1 (S.wrote printer.sink (listing_of plan.now) result.0.sink) }
    ensures part { WrotePrefix S.wrote printer.sink (listing_of plan.now) result.0.sink }
{
    match InOrder::<LineMaker<Y>, Printer<Y, S>>::new(alloc, plan, printer) {
        Ok(order) => {
            let (order, answer) = scan_made(rt, alloc, plan, workers, &OpenGate, maker, order);
            (order.into_taker(), answer)
        }
        Err(refused) => (refused.value, Err(RunFault::Memory)),
    }
}

// Makes workers cut all pieces of the plan for a new printer.
fn scan_to<T: Threads + Wait + Sync, S: LineSink + Drop>(
    rt: &T,
    alloc: Global,
    plan: &Plan,
    workers: u8,
    sink: S,
) -> (S, Result<(), RunFault>)
    requires some_workers { 0 < workers }
    requires few_workers { workers ≤ max_workers }
    ensures ok { OnOk result.1 (S.wrote sink (listing_of plan.now) result.0) }
    ensures part { WrotePrefix S.wrote sink (listing_of plan.now) result.0 }
{
    let Ok(spares) = Shared::new(alloc) else {
        return (sink, Err(RunFault::Memory));
    };
    let printer = Printer::new(alloc, plan, &spares, sink);
    let maker = LineMaker::new(alloc, &spares);
    let (printer, answer) = scan_all_to(rt, alloc, plan, workers, maker, printer);
    (printer.into_sink(), answer)
}

// Does the same as `scan_to`, and gathers the lines before they go on. Also after a fault the gathered lines go on, unless the writer failed.
fn scan_gathered<T: Threads + Wait + Sync, S: LineSink + Drop>(
    rt: &T,
    alloc: Global,
    plan: &Plan,
    workers: u8,
    sink: S,
) -> (S, Result<(), RunFault>)
    requires some_workers { 0 < workers }
    requires few_workers { workers ≤ max_workers }
    ensures ok { OnOk result.1 (S.wrote sink (listing_of plan.now) result.0) }
    ensures part { WrotePrefix S.wrote sink (listing_of plan.now) result.0 }
{
    let Ok(held) = LineBuffer::new(alloc) else {
        return (sink, Err(RunFault::Memory));
    };
    let (gathering, answer) = scan_to(rt, alloc, plan, workers, Gathering::new(held, sink));
    let (sink, rest) = gathering.finish();
    match rest {
        Ok(()) => (sink, answer),
        Err(_) => (sink, Err(RunFault::Reader)),
    }
}

/// Writes the listing of a plan's files, the lines of each file in order and the files in order. 1 to 8 workers scan them, or with 0 the calling
/// thread. Each line is written by itself, or many are gathered and written at once. After a fault, a prefix of the listing was written.
pub fn list_plan<T: Threads + Wait + Sync, W: Write>(
    rt: &T,
    alloc: Global,
    plan: &Plan,
    workers: u8,
    writes: LineWrites,
    out: &mut W,
) -> Result<(), RunFault>
    requires { workers ≤ max_workers }
    ensures ok { OnOk result
        (Appends (W.contents out.old) (W.contents out.new) (listing_of plan.now)) }
    ensures err { OnErr result
        (AppendsPrefix (W.contents out.old) (W.contents out.new) (listing_of plan.now)) }
{
    if workers == 0 {
        return list_plan_by(rt, alloc, plan, workers, PlainStyle, writes, out);
    }
    let sink = Lent { writes, out };
    let (sink, answer) = match writes {
        LineWrites::EachLine => scan_to(rt, alloc, plan, workers, sink),
        LineWrites::Whole | LineWrites::Flushed => scan_gathered(rt, alloc, plan, workers, sink),
    };
    // taken apart, so that the final contents of the writer are known
    let Lent {
        writes: _writes,
        out: _out,
    } = sink;
    answer
}

/// Writes the listing of a plan's files on one thread, the lines of each file in order and the files in order. Each line has its own write. After a
/// fault, a prefix of the listing was written.
pub fn print_listing<W: Write>(alloc: Global, plan: &Plan, out: &mut W) -> Result<(), RunFault>
    ensures ok { OnOk result
        (Appends (W.contents out.old) (W.contents out.new) (listing_of plan.now)) }
    ensures err { OnErr result
        (AppendsPrefix (W.contents out.old) (W.contents out.new) (listing_of plan.now)) }
{
    let sink = Lent {
        writes: LineWrites::EachLine,
        out,
    };
    let (sink, answer) = print_to(alloc, plan, PlainStyle, sink);
    // taken apart, so that the final contents of the writer are known
    let Lent {
        writes: _writes,
        out: _out,
    } = sink;
    answer
}
