//! Calls of runs with several threads, and of the gates that they pass.

ghost use Rattle.std.specs.Prelude.{◌<◌, ◌≤◌};

use crate::listings::{print_part, print_written, room_for_listing};
use crate::stop::{Stop, end_of_print, refuse_from_here, say};
use lx_fixtures::{THREE_FILES, THREE_RULES, plan_of};
use lx_piece::Plan;
use lx_post::{Gate, MeetingGate, OpenGate, RunFault, scan_all};
use lx_tool::Listing;
use std::alloc::Global;
use std::io::Write;
use std::sync::Wait;
use std::thread;
use std::thread::Threads;

/// Lists the files of a plan by `workers` workers.
fn list_once<R: Threads + Wait + Sync, W: Write + Drop>(
    rt: &R,
    alloc: Global,
    plan: &Plan,
    workers: u8,
    written: W,
) -> Result<Result<(), RunFault>, Stop>
    requires some_workers { 0 < workers }
    requires few_workers { workers ≤ 8 }
{
    let Ok(listing) = Listing::new(alloc, plan, written) else {
        return Err(Stop::NotBegun);
    };
    let (_listing, ended) = scan_all(rt, alloc, plan, workers, &OpenGate, listing);
    Ok(ended)
}

/// Calls `scan_all` with three files and `workers` workers.
pub(crate) fn scans_all<R: Print + Threads + Wait + Sync>(
    rt: &R,
    alloc: Global,
    workers: u8,
) -> Result<(), Stop>
    requires some_workers { 0 < workers }
    requires few_workers { workers ≤ 8 }
{
    let plan = plan_of(alloc, THREE_RULES, THREE_FILES.as_slice(), 1)?;
    let mut written = room_for_listing(alloc)?;
    let ended = list_once(rt, alloc, &plan, workers, &mut written)?;
    if ended != Err(RunFault::Memory) {
        return print_written(rt, &written, ended);
    }
    print_part(rt, &written)?;
    written.clear();
    let ended = list_once(rt, alloc, &plan, workers, &mut written)?;
    print_written(rt, &written, ended)
}

/// Calls `pass` on an open gate.
pub(crate) fn passes_open(rt: &impl Print, alloc: Global) -> Result<(), Stop> {
    refuse_from_here(alloc);
    OpenGate.pass(0, 0, 0);
    say(rt, "passed")
}

/// Calls `pass` on a meeting gate by two threads, and `met`.
pub(crate) fn meets<R: Print + Threads>(rt: &R, alloc: Global) -> Result<(), Stop> {
    let gate = MeetingGate::new();
    let ((), ()) = thread::join(
        rt,
        || gate.pass(1, 0, 0),
        || {
            refuse_from_here(alloc);
            gate.pass(0, 0, 0);
        },
    );
    let met = gate.met();
    end_of_print(println!(rt; "met {met}"))
}
