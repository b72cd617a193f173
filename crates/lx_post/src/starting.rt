//! Starts the workers.
ghost use Rattle.std.specs.Prelude.{◌≡◌, ◌<◌, ◌≤◌, All, IfErr, IfOk, [], None};
ghost use Rattle.lx_piece.specs.Plans.{max_workers};
ghost use Rattle.lx_post.specs.Claimed.{AreClaimsOf};
ghost use Rattle.lx_post.specs.Working.{IsDone, IsIdle, IsOutcome, IsReady};

use crate::Note;
use crate::gate::Gate;
use crate::job::{Job, Outcome};
use crate::run_context::RunContext;
use lx_piece::Maker;
use std::snapshot::Snapshot;
use std::sync::Wait;
use std::thread::{Promise, PromisedHandle, Scope};

/// The promise of a worker's outcome: it belongs to the job that the worker was given.
#[derive(Drop)]
pub struct OutcomeOf<M: Maker> {
    pub job: Snapshot<Job<M::Made>>,
}

impl<M: Maker> Promise<Outcome<M::Made>> for OutcomeOf<M> {
    ghost use Rattle.lx_post.specs.Working.{IsOutcome};

    ghost kept_by = { λ p r. IsOutcome M.made p.job.value r };
}

/// The handle of a worker's thread.
pub type Worker<M> = PromisedHandle<Outcome<<M as Maker>::Made>, OutcomeOf<M>>;

/// The workers of a run, and their jobs.
#[derive(Drop)]
pub struct Workers<M: Maker> {
    /// Handles of the workers that were started.
    pub handles: Vec<Worker<M>>,
    /// Jobs of the workers that ended.
    pub ended: Vec<Job<M::Made>>,
    /// Jobs of the workers that never began, and whose ends were sent.
    pub idle: Vec<Job<M::Made>>,
}

impl<'a, W: Wait, G: Gate, M: Maker + Copy> RunContext<'a, W, G, M> {
    // Does the job, or returns it if it is to come back.
    fn begin(&self, job: Job<M::Made>) -> Outcome<M::Made>
        requires ready { IsReady self.now.claims self.now.post self.now.plan.now job }
        requires few_workers { self.now.post.workers ≤ max_workers }
        requires files { AreClaimsOf self.now.plan.now self.now.claims }
        ensures { IsOutcome M.made job result }
    {
        if self.signals.is_refused(job.pass.worker()) {
            return Outcome::Back(job);
        }
        Outcome::Done(self.work(job))
    }

    // Sends the end of a worker that never began.
    fn send_end(&self, job: Job<M::Made>) -> Job<M::Made>
        requires { IsReady self.now.claims self.now.post self.now.plan.now job }
        ensures { IsIdle self.now.claims self.now.post self.now.plan.now result }
    {
        let Job { seat, mut pass } = job;
        let worker = pass.worker();
        self.post.send(
            self.rt,
            &mut pass,
            Note::End {
                worker,
                files: 0,
                fault: None,
            },
        );
        Job { seat, pass }
    }
}

// Starts a worker. If no thread can be made, its job comes back.
fn start<'s, 'a, E, W: Wait + Sync, G: Gate + Sync, M: Maker<Made: Send> + Copy + Sync>(
    context: &'s RunContext<'a, W, G, M>,
    scope: &Scope<'s, E>,
    job: Job<M::Made>,
) -> Result<Worker<M>, Outcome<M::Made>>
    requires ready { IsReady context.now.claims context.now.post context.now.plan.now job }
    requires few_workers { context.now.post.workers ≤ max_workers }
    requires files { AreClaimsOf context.now.plan.now context.now.claims }
    ensures ok { IfOk result (λ handle. handle.promise.job.value ≡ job) }
    ensures err { IfErr result (λ outcome. IsOutcome M.made job outcome) }
{
    let promise = OutcomeOf {
        job: Snapshot::of(&job),
    };
    let worker = job.pass.worker();
    let run = move || -> Outcome<M::Made>
        requires { IsReady context.now.claims context.now.post context.now.plan.now job
            × (context.now.post.workers ≤ max_workers)
            × AreClaimsOf context.now.plan.now context.now.claims }
        ensures { IsOutcome M.made job result }
    { context.begin(job) };
    match scope.spawn_with(promise, run) {
        Ok(handle) => Ok(handle),
        Err(back) => {
            // the closure owns the job, and returns it at once
            context.signals.refuse(worker);
            Err((back.value)())
        }
    }
}

// Starts a worker. If it can't be started, sends its end for it, and adds its job to the idle ones.
#[tactic(auto, using(crate::proofs::NothingLost::all_pushed))]
fn start_or_idle<'s, 'a, E, W: Wait + Sync, G: Gate + Sync, M: Maker<Made: Send> + Copy + Sync>(
    context: &'s RunContext<'a, W, G, M>,
    scope: &Scope<'s, E>,
    job: Job<M::Made>,
    workers: &mut Workers<M>,
)
    requires ready { IsReady context.now.claims context.now.post context.now.plan.now job }
    requires few_workers { context.now.post.workers ≤ max_workers }
    requires files { AreClaimsOf context.now.plan.now context.now.claims }
    ensures handles { All (λ handle. IsReady context.now.claims context.now.post context.now.plan.now handle.promise.job.value) workers.old.handles.items
        → All (λ handle. IsReady context.now.claims context.now.post context.now.plan.now handle.promise.job.value) workers.new.handles.items }
    ensures ended { All (λ job. IsDone M.made context.now.claims context.now.post context.now.plan.now job) workers.old.ended.items
        → All (λ job. IsDone M.made context.now.claims context.now.post context.now.plan.now job) workers.new.ended.items }
    ensures idle { All (λ job. IsIdle context.now.claims context.now.post context.now.plan.now job) workers.old.idle.items
        → All (λ job. IsIdle context.now.claims context.now.post context.now.plan.now job) workers.new.idle.items }
{
    // room was reserved, so no push fails
    let _pushed = match start(context, scope, job) {
        Ok(handle) => workers.handles.push(handle).is_ok(),
        Err(Outcome::Done(job)) => workers.ended.push(job).is_ok(),
        Err(Outcome::Back(job)) => workers.idle.push(context.send_end(job)).is_ok(),
    };
}

/// Starts a worker for each job. For a worker that can't be started, sends its end, and adds its job to the idle ones.
pub fn start_all<'s, 'a, E, W: Wait + Sync, G: Gate + Sync, M: Maker<Made: Send> + Copy + Sync>(
    context: &'s RunContext<'a, W, G, M>,
    scope: &Scope<'s, E>,
    jobs: Vec<Job<M::Made>>,
    workers: &mut Workers<M>,
)
    requires ready { All
        (λ job. IsReady context.now.claims context.now.post context.now.plan.now job) jobs.items }
    requires few_workers { context.now.post.workers ≤ max_workers }
    requires files { AreClaimsOf context.now.plan.now context.now.claims }
    requires none { (workers.old.handles.items ≡ []) × (workers.old.ended.items ≡ [])
        × (workers.old.idle.items ≡ []) }
    ensures handles { All (λ handle.
        IsReady context.now.claims context.now.post context.now.plan.now
        handle.promise.job.value) workers.new.handles.items }
    ensures ended { All
        (λ job. IsDone M.made context.now.claims context.now.post context.now.plan.now job)
        workers.new.ended.items }
    ensures idle { All (λ job. IsIdle context.now.claims context.now.post context.now.plan.now job)
        workers.new.idle.items }
{
    for job in jobs {
        start_or_idle(context, scope, job, workers);
    }
    context.signals.signal_start();
}
