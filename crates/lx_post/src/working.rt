//! The work of a worker: it draws files, cuts them, and sends their pieces.
ghost use Rattle.std.specs.Prelude.{◌≡◌, ◌<◌, ◌≤◌, [], true, None, OnOk};
ghost use Rattle.lx_piece.specs.Plans.{files_of};
ghost use Rattle.lx_post.specs.Claimed.{AreClaimsOf, IsSeatOf};
ghost use Rattle.lx_post.specs.Working.{HasDrawn, HasSent, HasWorked, IsGoing, IsReady, SendsPieces};

use crate::gate::Gate;
use crate::job::Job;
use crate::run_context::RunContext;
use crate::{ClaimSeat, Note, SendPass, WorkerFault};
use lx_piece::{Cutter, Maker};
use std::alloc::AllocError;
use std::sync::Wait;

impl<'a, W: Wait, G: Gate, M: Maker + Copy> RunContext<'a, W, G, M> {
    // Cuts a file, and sends each piece as soon as it is cut.
    #[tactic(auto, using(crate::proofs::Sendings::sends_nothing, crate::proofs::Sendings::sends_piece, crate::proofs::Sendings::may_send_piece, crate::proofs::Sendings::sent_none, crate::proofs::Sendings::sent_one, crate::proofs::Sendings::sent_all, crate::proofs::Sendings::sent_last))]
    fn send_file(
        &self,
        maker: &mut M,
        pass: &mut SendPass<M::Made>,
        file: u32,
    ) -> Result<(), AllocError>
        requires pass { IsGoing self.now.post self.now.plan.now pass.old }
        requires file { file < files_of self.now.plan.now }
        ensures pass { SendsPieces pass.old pass.new }
        ensures sent { OnOk result (HasSent M.made self.now.plan.now file pass.new) }
    {
        let plan = self.plan;
        let worker = pass.worker();
        let mut cutter = Cutter::new(self.alloc, plan, file);
        for number in 0..u64::MAX {
            self.signals.pace.wait(self.rt, file);
            self.gate.pass(worker, file, number);
            let Some(piece) = cutter.next_made(plan, maker)? else {
                return Ok(());
            };
            let is_last = piece.is_closing();
            self.signals.wait_for_start(self.rt);
            self.post.send(self.rt, pass, Note::Piece { worker, piece });
            if is_last {
                return Ok(());
            }
        }
        // no piece has the greatest number
        Err(AllocError)
    }

    // Draws files until none is left, and sends their pieces. Returns the number of files that it finished, and the fault that ended it early.
    #[tactic(auto, using(crate::proofs::Sendings::sends_nothing, crate::proofs::Sendings::sends_on, crate::proofs::Sendings::goes_on, crate::proofs::Sendings::drawn_none, crate::proofs::Sendings::drawn_same, crate::proofs::Sendings::drawn_one))]
    fn send_drawn(
        &self,
        seat: &mut ClaimSeat,
        pass: &mut SendPass<M::Made>,
    ) -> (u32, Option<WorkerFault>)
        requires seat { IsSeatOf self.now.claims seat.old × (seat.old.drawn ≡ []) }
        requires pass { IsGoing self.now.post self.now.plan.now pass.old }
        requires files { AreClaimsOf self.now.plan.now self.now.claims }
        ensures seat { IsSeatOf self.now.claims seat.new }
        ensures pass { SendsPieces pass.old pass.new }
        ensures done { result.1 ≡ None → (seat.new.done ≡ true)
            × HasDrawn M.made self.now.plan.now result.0 seat.new pass.new }
    {
        let mut maker = self.maker;
        let mut files = 0;
        for _ in self.rt.forever() {
            self.signals.pace.wait_to_draw(self.rt, pass.worker());
            let Some(file) = self.claims.draw(seat) else {
                return (files, None);
            };
            let Ok(()) = self.send_file(&mut maker, pass, file) else {
                return (files, Some(WorkerFault::Memory));
            };
            files += 1;
        }
        unreachable!()
    }

    /// Draws files until none is left, sends their pieces, and at last the worker's end.
    pub fn work(&self, job: Job<M::Made>) -> Job<M::Made>
        requires ready { IsReady self.now.claims self.now.post self.now.plan.now job }
        requires files { AreClaimsOf self.now.plan.now self.now.claims }
        ensures { HasWorked M.made job result }
    {
        let Job { mut seat, mut pass } = job;
        let (files, fault) = self.send_drawn(&mut seat, &mut pass);
        // one of its files stays open, so nobody must wait for it
        if fault.is_some() {
            self.signals.pace.end();
        }
        let worker = pass.worker();
        self.post.send(
            self.rt,
            &mut pass,
            Note::End {
                worker,
                files,
                fault,
            },
        );
        Job { seat, pass }
    }
}
