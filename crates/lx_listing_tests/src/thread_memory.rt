//! Tests failed allocations in a run of several threads. The run reports them, every worker is joined, and what was listed by then is a prefix of the
//! listing. The next run continues as if nothing had failed. With enough memory each run succeeds. `rt try --test --fail-alloc N` fails the Nth
//! allocation of each test. A test that can't allocate itself ends there.

ghost use Rattle.std.specs.Prelude.{◌<◌, ◌≤◌};

use crate::asserts::same;
use crate::thread_listings::scan_over;
use lx_fixtures::{THREE_FILES, THREE_FILES_LISTING, THREE_RULES, plan_of};
use lx_piece::Plan;
use lx_post::{OpenGate, RunFault};
use std::alloc::Global;
use std::process::Abort;
use std::sync::Wait;
use std::thread::Threads;

/// The outcome of a run.
#[derive(Clone, Copy, Debug, PartialEq, Eq)]
enum RunOutcome {
    /// All was listed.
    Whole,
    /// An allocation failed, and a prefix was listed.
    Part,
    /// The test itself can't allocate.
    Untried,
}

/// Asserts that a run which wrote this listed all, or a prefix for lack of memory.
fn outcome_of(rt: &impl Abort, ended: Result<(), RunFault>, written: &[u8]) -> RunOutcome {
    match ended {
        Ok(()) => {
            same(rt, &written, &THREE_FILES_LISTING);
            RunOutcome::Whole
        }
        Err(fault) => {
            same(rt, &fault, &RunFault::Memory);
            same(rt, &THREE_FILES_LISTING.starts_with(written), &true);
            RunOutcome::Part
        }
    }
}

/// Lists these files by `workers` workers, into reserved memory.
fn list_three<R: Threads + Wait + Abort + Sync>(
    rt: &R,
    alloc: Global,
    plan: &Plan,
    workers: u8,
) -> RunOutcome
    requires some_workers { 0 < workers }
    requires few_workers { workers ≤ 8 }
{
    let Ok(mut out) = Vec::with_capacity(alloc, THREE_FILES_LISTING.len()) else {
        return RunOutcome::Untried;
    };
    let Ok((ended, faults)) = scan_over(rt, alloc, plan, workers, &OpenGate, &mut out) else {
        return RunOutcome::Untried;
    };
    same(rt, &faults, &0);
    outcome_of(rt, ended, out.as_slice())
}

/// Lists them, and all again if only a part was listed.
fn list_again<R: Threads + Wait + Abort + Sync>(rt: &R, alloc: Global, plan: &Plan, workers: u8)
    requires some_workers { 0 < workers }
    requires few_workers { workers ≤ 8 }
{
    if list_three(rt, alloc, plan, workers) == RunOutcome::Part {
        same(
            rt,
            &list_three(rt, alloc, plan, workers),
            &RunOutcome::Whole,
        );
    }
}

/// Lists them by one worker, by two and by eight.
fn list_by_each<R: Threads + Wait + Abort + Sync>(rt: &R, alloc: Global, plan: &Plan) {
    list_again(rt, alloc, plan, 1);
    list_again(rt, alloc, plan, 2);
    list_again(rt, alloc, plan, 8);
}

#[test]
fn a_run_lists_a_prefix_where_memory_is_refused(rt: HostRuntime) {
    if let Ok(plan) = plan_of(rt.alloc(), THREE_RULES, THREE_FILES.as_slice(), 1) {
        list_by_each(&rt, rt.alloc(), &plan);
    }
}
