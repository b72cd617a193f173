//! Joins the workers, and concludes from their jobs that every piece was received.
ghost use Rattle.std.specs.Prelude.{◌≡◌, ◌<◌, ◌≤◌, [], All, IfErr, IfOk, IfSome, None, OnOk, map};
ghost use Rattle.lx_piece.specs.Plans.{files_of};
ghost use Rattle.lx_post.specs.Collected.{AreAllReceived};
ghost use Rattle.lx_post.specs.Notes.{first_fault};
ghost use Rattle.lx_post.specs.declared.run_fault.RunFault.{RunFault};
ghost use Rattle.lx_post.specs.Posted.{IsTakePassOf};
ghost use Rattle.lx_post.specs.Working.{IsDone, IsIdle, IsReady};

use crate::job::{Job, Outcome};
use crate::run_context::RunContext;
use crate::run_fault::RunFault;
use crate::starting::Worker;
use crate::{ClaimSeat, SendPass, TakePass, finish};
use lx_piece::Maker;
use std::alloc::AllocError;
use std::sync::Wait;
use std::thread::Threads;

impl<'a, W: Threads, G, M: Maker> RunContext<'a, W, G, M> {
    // Joins a worker, and keeps its job.
    fn join_one(&self, handle: Worker<M>, ended: &mut Vec<Job<M::Made>>)
        requires handle { IsReady self.now.claims self.now.post self.now.plan.now
            handle.promise.job.value }
        ensures ended { All (λ job. IsDone M.made self.now.claims self.now.post self.now.plan.now job) ended.old.items
            → All (λ job. IsDone M.made self.now.claims self.now.post self.now.plan.now job) ended.new.items }
    {
        // a worker that was started never returns its job unused
        if let Outcome::Done(job) = handle.join(self.rt) {
            // room was reserved
            let _pushed = ended.push(job).is_ok();
        }
    }

    /// Joins each worker, and keeps its job.
    pub fn join_all(&self, handles: Vec<Worker<M>>, ended: &mut Vec<Job<M::Made>>)
        requires handles { All (λ handle.
            IsReady self.now.claims self.now.post self.now.plan.now handle.promise.job.value)
            handles.items }
        requires ended { All
            (λ job. IsDone M.made self.now.claims self.now.post self.now.plan.now job)
            ended.old.items }
        ensures { All (λ job. IsDone M.made self.now.claims self.now.post self.now.plan.now job)
            ended.new.items }
    {
        for handle in handles {
            self.join_one(handle, ended);
        }
    }
}

impl<'a, W: Wait, G, M: Maker> RunContext<'a, W, G, M> {
    // Draws with the seat of a worker that never began. Returns `None` if the draw yields a file.
    #[tactic(auto, using(crate::proofs::NothingLost::done_idle))]
    fn draw_for(&self, job: Job<M::Made>) -> Option<Job<M::Made>>
        requires { IsIdle self.now.claims self.now.post self.now.plan.now job }
        ensures { IfSome result
            (λ done. IsDone M.made self.now.claims self.now.post self.now.plan.now done) }
    {
        let Job { mut seat, pass } = job;
        match self.claims.draw(&mut seat) {
            Some(_file) => None,
            None => Some(Job { seat, pass }),
        }
    }

    // Draws with the seat of each worker that never began. The others drew all files, so each of these seats learns that none is left.
    #[tactic(auto, using(crate::proofs::NothingLost::all_pushed))]
    fn draw_for_all(
        &self,
        idle: Vec<Job<M::Made>>,
        ended: &mut Vec<Job<M::Made>>,
    ) -> Result<(), AllocError>
        requires idle { All (λ job. IsIdle self.now.claims self.now.post self.now.plan.now job)
            idle.items }
        requires ended { All
            (λ job. IsDone M.made self.now.claims self.now.post self.now.plan.now job)
            ended.old.items }
        ensures { All (λ job. IsDone M.made self.now.claims self.now.post self.now.plan.now job)
            ended.new.items }
    {
        for job in idle {
            let Some(job) = self.draw_for(job) else {
                return Err(AllocError);
            };
            ended.push(job)?;
        }
        Ok(())
    }
}

/// The seats and the passes of the jobs that ended.
#[derive(Drop)]
pub struct Parts<C> {
    pub seats: Vec<ClaimSeat>,
    pub passes: Vec<SendPass<C>>,
}

// Takes jobs apart into their seats and passes.
fn take_apart<C: Drop>(jobs: Vec<Job<C>>, parts: &mut Parts<C>) -> Result<(), AllocError>
    requires none { (parts.old.seats.items ≡ []) × (parts.old.passes.items ≡ []) }
    ensures seats { OnOk result (parts.new.seats.items ≡ map (λ job. job.seat) jobs.items) }
    ensures passes { OnOk result (parts.new.passes.items ≡ map (λ job. job.pass) jobs.items) }
{
    for job in jobs {
        let Job { seat, pass } = job;
        parts.seats.push(seat)?;
        parts.passes.push(pass)?;
    }
    Ok(())
}

/// Proves that every piece of every file was received, from the jobs of all workers, none of which named a fault. The only error is `Memory`.
pub fn settle_all<W: Wait, G, M: Maker + Drop>(
    context: RunContext<'_, W, G, M>,
    take: TakePass<M::Made>,
    mut ended: Vec<Job<M::Made>>,
    idle: Vec<Job<M::Made>>,
    mut parts: Parts<M::Made>,
) -> Result<(), RunFault>
    requires take { IsTakePassOf context.post take }
    requires faultless { first_fault take.received ≡ None }
    requires files { context.claims.files ≡ files_of context.plan.now }
    requires ended { All (λ job. IsDone M.made context.claims context.post context.plan.now job)
        ended.items }
    requires idle { All (λ job. IsIdle context.claims context.post context.plan.now job)
        idle.items }
    requires none { (parts.seats.items ≡ []) × (parts.passes.items ≡ []) }
    ensures ok { OnOk result (AreAllReceived M.made context.entry.plan.now take) }
    ensures err { IfErr result (λ fault. fault ≡ RunFault.Memory) }
{
    context.draw_for_all(idle, &mut ended)?;
    take_apart(ended, &mut parts)?;
    let RunContext {
        rt,
        claims,
        post,
        ..
    } = context;
    let Parts { seats, passes } = parts;
    let Ok(_files) = claims.settle(seats) else {
        return Err(RunFault::Memory);
    };
    let Ok(()) = finish(rt, post, take, passes) else {
        return Err(RunFault::Memory);
    };
    Ok(())
}
