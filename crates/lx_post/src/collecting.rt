//! Delivers what workers send, on the calling thread.
ghost use Rattle.std.specs.Prelude.{◌≡◌, OnOk};
ghost use Rattle.lx_piece.specs.Relayed.{TakesAllInOrder, TookNothing};
ghost use Rattle.lx_post.specs.Collected.{IsCollected, TellsFaults};
ghost use Rattle.lx_post.specs.Posted.{IsTakePassOf, fresh_take};

use crate::run_context::RunContext;
use crate::run_fault::RunFault;
use crate::{NoteArrivals, TakePass};
use lx_piece::{Maker, ReaderOf, relay_of};
use std::sync::Wait;

impl<'a, W: Wait, G, M: Maker> RunContext<'a, W, G, M> {
    // Receives pieces and delivers them to the reader. Ends when every worker ended, the reader fails, or an allocation of this thread fails. Returns
    // the first fault that it met.
    fn collect<R: ReaderOf<M>>(
        &self,
        take: TakePass<M::Made>,
        reader: &mut R,
    ) -> (TakePass<M::Made>, Result<(), RunFault>)
        requires take { take ≡ fresh_take self.now.post self.now.plan.now }
        requires reader { TookNothing self.now.plan.now (R.plan reader.old) (R.counts reader.old)
            (R.fault_count reader.old) }
        ensures take { IsTakePassOf self.now.post result.0 }
        ensures ok { OnOk result.1
            (IsCollected M.made self.now.plan.now result.0 (R.counts reader.new)) }
        ensures taken { TakesAllInOrder self.now.plan.now (R.counts reader.new) }
        ensures follows { R.follows reader.old reader.new }
        ensures plan { R.plan reader.new ≡ R.plan reader.old }
        ensures faults { TellsFaults result.1 (R.fault_count reader.old)
            (R.fault_count reader.new) }
    {
        let mut arrivals = NoteArrivals::new(self.rt, &self.post, take, Some(&self.signals.pace));
        let relayed = relay_of::<M, NoteArrivals<'_, W, M>, R>(
            self.alloc,
            self.plan,
            &mut arrivals,
            reader,
        );
        let (take, fault) = arrivals.into_pass();
        // the arrivals noted this fault before the relay ended
        if fault.is_some() {
            return (take, Err(RunFault::Memory));
        }
        match relayed {
            Ok(_replies) => (take, Ok(())),
            Err(fault) => (take, Err(RunFault::from(fault))),
        }
    }

    /// Receives every note that is left, so that no worker waits for room forever.
    pub fn drain(&self, take: &mut TakePass<M::Made>)
        requires { IsTakePassOf self.now.post take.old }
        ensures { IsTakePassOf self.now.post take.new }
    {
        self.signals.pace.end();
        for _ in self.rt.forever() {
            if self.post.receive(self.rt, take).is_none() {
                return;
            }
        }
        unreachable!()
    }

    /// Receives every note of all workers. Delivers their pieces to the reader until it fails or an allocation of this thread fails.
    pub fn receive_all<R: ReaderOf<M>>(
        &self,
        take: TakePass<M::Made>,
        reader: &mut R,
    ) -> (TakePass<M::Made>, Result<(), RunFault>)
        requires take { take ≡ fresh_take self.now.post self.now.plan.now }
        requires reader { TookNothing self.now.plan.now (R.plan reader.old) (R.counts reader.old)
            (R.fault_count reader.old) }
        ensures take { IsTakePassOf self.now.post result.0 }
        ensures ok { OnOk result.1
            (IsCollected M.made self.now.plan.now result.0 (R.counts reader.new)) }
        ensures taken { TakesAllInOrder self.now.plan.now (R.counts reader.new) }
        ensures follows { R.follows reader.old reader.new }
        ensures plan { R.plan reader.new ≡ R.plan reader.old }
        ensures faults { TellsFaults result.1 (R.fault_count reader.old)
            (R.fault_count reader.new) }
    {
        let (mut take, answer) = self.collect(take, reader);
        if let Err(fault) = answer {
            self.drain(&mut take);
            return (take, Err(fault));
        }
        (take, Ok(()))
    }
}
