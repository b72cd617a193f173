//! Scans every file of a plan by several threads.
ghost use Rattle.std.specs.Prelude.{◌≡◌, ◌<◌, ◌≤◌, [], Err, OnOk, All, IfOk};
ghost use Rattle.lx_piece.specs.Plans.{max_workers};
ghost use Rattle.lx_piece.specs.Relayed.{TakesAllInOrder, TookNothing};
ghost use Rattle.lx_post.specs.Claimed.{fresh_seat};
ghost use Rattle.lx_post.specs.Collected.{HasRun, IsPrepared, IsWhole, TellsFaults, TellsFaultsOf};
ghost use Rattle.lx_post.specs.Posted.{fresh_send};
ghost use Rattle.lx_post.specs.Working.{IsReady};

use crate::gate::Gate;
use crate::job::{Job, Ran};
use crate::joining::{Parts, settle_all};
use crate::run_context::RunContext;
use crate::run_fault::RunFault;
use crate::signals::Signals;
use crate::starting::{Workers, start_all};
use crate::{ClaimSeat, Claims, Post, SendPass, TakePass};
use lx_piece::{KeepItems, Maker, Plan, Reader, ReaderOf, relay_plan};
use std::alloc::{AllocError, Global};
use std::sync::Wait;
use std::thread;
use std::thread::{Scope, Threads};

// Capacity of the post, in notes. More of them only take memory. With few, the workers wait while the held pieces of a file are delivered at once.
const ROOM: usize = 256;

/// The behaviour of a run if a worker can't be started.
#[derive(Clone, Copy, PartialEq, Eq)]
pub enum Unstarted {
    /// The run fails with `Memory`.
    Fails,
    /// The run goes on with the other workers, and without any on the calling thread.
    GoesOn,
}

// Makes a job for each worker.
#[tactic(auto, using(crate::proofs::NothingLost::all_pushed))]
fn jobs_of<M: Maker>(
    alloc: Global,
    mut seats: Vec<ClaimSeat>,
    passes: Vec<SendPass<M::Made>>,
    claims: &Claims,
    post: &Post<M>,
    plan: &Plan,
) -> Result<Vec<Job<M::Made>>, AllocError>
    requires seats { All (λ seat. seat ≡ fresh_seat claims.now) seats.items }
    requires passes { All (λ pass.
        (pass ≡ fresh_send post.now plan.now pass.worker) × (pass.worker < post.now.workers))
        passes.items }
    ensures { IfOk result
        (λ jobs. All (λ job. IsReady claims.now post.now plan.now job) jobs.items) }
{
    let mut jobs = Vec::with_capacity(alloc, passes.len())?;
    for pass in passes {
        if let Some(seat) = seats.pop() {
            jobs.push(Job { seat, pass })?;
        }
    }
    Ok(jobs)
}

/// The parts with which a run starts. Room is reserved for all that it keeps.
#[derive(Drop)]
struct Start<M: Maker> {
    take: TakePass<M::Made>,
    jobs: Vec<Job<M::Made>>,
    workers: Workers<M>,
    parts: Parts<M::Made>,
}

// Makes the state that the threads share, and a job for each worker.
fn prepare<'a, W: Wait, G, M: Maker + Drop>(
    rt: &'a W,
    alloc: Global,
    plan: &'a Plan,
    workers: u8,
    gate: &'a G,
    maker: M,
) -> Result<(RunContext<'a, W, G, M>, Start<M>), AllocError>
    requires { (0 < workers) × (workers ≤ max_workers) }
    ensures plan { IfOk result (λ r. r.0.plan.now ≡ plan.now) }
    ensures prepared { IfOk result
        (λ r. IsPrepared plan.now r.0.claims r.0.post r.1.take r.1.jobs.items) }
    ensures workers { IfOk result (λ r.
        (r.1.workers.handles.items ≡ []) × (r.1.workers.ended.items ≡ [])
        × (r.1.workers.idle.items ≡ [])) }
    ensures parts { IfOk result
        (λ r. (r.1.parts.seats.items ≡ []) × (r.1.parts.passes.items ≡ [])) }
{
    let count = usize::from(workers);
    let (claims, seats) = Claims::new(alloc, plan.files(), workers)?;
    let (post, passes, take) = Post::<M>::of(rt, alloc, plan, workers, ROOM)?;
    let jobs = jobs_of(alloc, seats, passes, &claims, &post, plan)?;
    let workers = Workers {
        handles: Vec::with_capacity(alloc, count)?,
        ended: Vec::with_capacity(alloc, count)?,
        idle: Vec::with_capacity(alloc, count)?,
    };
    let parts = Parts {
        seats: Vec::with_capacity(alloc, count)?,
        passes: Vec::with_capacity(alloc, count)?,
    };
    let context = RunContext {
        rt,
        alloc,
        plan,
        claims,
        post,
        gate,
        signals: Signals::new(),
        maker,
    };
    let start = Start {
        take,
        jobs,
        workers,
        parts,
    };
    Ok((context, start))
}

// Delivers all pieces on the calling thread.
fn run_alone<W, G, M: Maker + Copy + Drop, R: ReaderOf<M>>(
    context: &RunContext<'_, W, G, M>,
    reader: &mut R,
) -> Ran<M::Made>
    requires reader { TookNothing context.now.plan.now (R.plan reader.old) (R.counts reader.old)
        (R.fault_count reader.old) }
    ensures ran { HasRun M.made context.now.plan.now context.now.claims context.now.post
        (R.counts reader.new) result }
    ensures taken { TakesAllInOrder context.now.plan.now (R.counts reader.new) }
    ensures follows { R.follows reader.old reader.new }
    ensures plan { R.plan reader.new ≡ R.plan reader.old }
    ensures faults { TellsFaultsOf result (R.fault_count reader.old) (R.fault_count reader.new) }
{
    match relay_plan(context.alloc, context.plan, context.maker, reader) {
        Ok(()) => Ran::Whole,
        Err(fault) => Ran::Failed(RunFault::from(fault)),
    }
}

// Starts the workers, delivers what they send, and joins them.
#[tactic(auto, using(crate::proofs::Received::none_taken))]
fn run<
    's,
    'a,
    E,
    W: Threads + Wait + Sync,
    G: Gate + Sync,
    M: Maker<Made: Send> + Copy + Drop + Sync,
    R: ReaderOf<M> + Drop,
>(
    context: &'s RunContext<'a, W, G, M>,
    scope: &Scope<'s, E>,
    jobs: Vec<Job<M::Made>>,
    mut take: TakePass<M::Made>,
    mut workers: Workers<M>,
    unstarted: Unstarted,
    mut reader: R,
) -> (R, Ran<M::Made>)
    requires prepared { IsPrepared context.now.plan.now context.now.claims context.now.post take
        jobs.items }
    requires none { (workers.handles.items ≡ []) × (workers.ended.items ≡ [])
        × (workers.idle.items ≡ []) }
    requires reader { TookNothing context.now.plan.now (R.plan reader) (R.counts reader)
        (R.fault_count reader) }
    ensures ran { HasRun M.made context.now.plan.now context.now.claims context.now.post
        (R.counts result.0) result.1 }
    ensures taken { TakesAllInOrder context.now.plan.now (R.counts result.0) }
    ensures follows { R.follows reader result.0 }
    ensures plan { R.plan result.0 ≡ R.plan reader }
    ensures faults { TellsFaultsOf result.1 (R.fault_count reader) (R.fault_count result.0) }
{
    start_all(context, scope, jobs, &mut workers);
    let Workers {
        handles,
        mut ended,
        idle,
    } = workers;
    if !idle.is_empty() && unstarted == Unstarted::Fails {
        context.drain(&mut take);
        context.join_all(handles, &mut ended);
        return (reader, Ran::Failed(RunFault::Memory));
    }
    if handles.is_empty() {
        let ran = run_alone(context, &mut reader);
        return (reader, ran);
    }
    let (take, answer) = context.receive_all(take, &mut reader);
    context.join_all(handles, &mut ended);
    match answer {
        Ok(()) => (reader, Ran::Received { take, ended, idle }),
        Err(fault) => (reader, Ran::Failed(fault)),
    }
}

// Runs the workers in a scope of their own.
fn run_scoped<
    W: Threads + Wait + Sync,
    G: Gate + Sync,
    M: Maker<Made: Send> + Copy + Drop + Sync,
    R: ReaderOf<M> + Drop,
>(
    context: &RunContext<'_, W, G, M>,
    jobs: Vec<Job<M::Made>>,
    take: TakePass<M::Made>,
    workers: Workers<M>,
    unstarted: Unstarted,
    reader: R,
) -> (R, Ran<M::Made>)
    requires prepared { IsPrepared context.now.plan.now context.now.claims context.now.post take
        jobs.items }
    requires none { (workers.handles.items ≡ []) × (workers.ended.items ≡ [])
        × (workers.idle.items ≡ []) }
    requires reader { TookNothing context.now.plan.now (R.plan reader) (R.counts reader)
        (R.fault_count reader) }
    ensures ran { HasRun M.made context.now.plan.now context.now.claims context.now.post
        (R.counts result.0) result.1 }
    ensures taken { TakesAllInOrder context.now.plan.now (R.counts result.0) }
    ensures follows { R.follows reader result.0 }
    ensures plan { R.plan result.0 ≡ R.plan reader }
    ensures faults { TellsFaultsOf result.1 (R.fault_count reader) (R.fault_count result.0) }
{
    thread::scope(
        thread::scope_env(),
        context.rt,
        |scope| -> (R, Ran<M::Made>)
            requires { IsPrepared context.now.plan.now context.now.claims context.now.post take jobs.items
                × (workers.handles.items ≡ []) × (workers.ended.items ≡ []) × (workers.idle.items ≡ [])
                × TookNothing context.now.plan.now (R.plan reader) (R.counts reader) (R.fault_count reader) }
            ensures { HasRun M.made context.entry.now.plan.now context.entry.now.claims context.entry.now.post (R.counts result.0) result.1
                × TakesAllInOrder context.entry.now.plan.now (R.counts result.0)
                × R.follows reader result.0
                × (R.plan result.0 ≡ R.plan reader)
                × TellsFaultsOf result.1 (R.fault_count reader) (R.fault_count result.0) }
        { run(context, scope, jobs, take, workers, unstarted, reader) },
    )
}

/// Scans the files of a plan by 1 to 8 workers, and delivers what a maker makes of their pieces to the reader. Each file's pieces come in order.
/// Every worker is joined, also after a fault. Returns the reader with the result. At `Ok` the reader took every file up to its closing piece. Err:
/// `Memory` if an allocation failed, or if a worker couldn't be started and `unstarted` is `Fails`. `Reader` if the reader's device failed.
pub fn scan<
    W: Threads + Wait + Sync,
    G: Gate + Sync,
    M: Maker<Made: Send> + Copy + Drop + Sync,
    R: ReaderOf<M> + Drop,
>(
    rt: &W,
    alloc: Global,
    plan: &Plan,
    workers: u8,
    gate: &G,
    maker: M,
    reader: R,
    unstarted: Unstarted,
) -> (R, Result<(), RunFault>)
    requires some_workers { 0 < workers }
    requires few_workers { workers ≤ max_workers }
    requires reader { TookNothing plan.now (R.plan reader) (R.counts reader)
        (R.fault_count reader) }
    ensures ok { OnOk result.1 (IsWhole plan.now (R.counts result.0)) }
    ensures taken { TakesAllInOrder plan.now (R.counts result.0) }
    ensures follows { R.follows reader result.0 }
    ensures plan { R.plan result.0 ≡ R.plan reader }
    ensures faults { TellsFaults result.1 (R.fault_count reader) (R.fault_count result.0) }
{
    let Ok((context, start)) = prepare(rt, alloc, plan, workers, gate, maker) else {
        return (reader, Err(RunFault::Memory));
    };
    let Start {
        take,
        jobs,
        workers,
        parts,
    } = start;
    let (reader, ran) = run_scoped(&context, jobs, take, workers, unstarted, reader);
    match ran {
        Ran::Whole => (reader, Ok(())),
        Ran::Received { take, ended, idle } => {
            let settled = settle_all(context, take, ended, idle, parts);
            (reader, settled)
        }
        Ran::Failed(fault) => (reader, Err(fault)),
    }
}
