//! The bounded queue in which workers send notes.
ghost use Rattle.std.specs.Prelude.{◌≡◌, ◌<◌, ◌≤◌, ◌+◌, [], ℕ, Some, vec_len, slice_get, IfOk, IfErr, IfSome, IfNone};
ghost use Rattle.crossbeam_queue.specs.Passes.{view, IsPassOf};
ghost use Rattle.lx_piece.specs.Plans.{max_workers};
ghost use Rattle.lx_post.specs.Posted.{IsTakePassOf, MayCome, MaySend, AllEnded, fresh_send, fresh_take, with_received, with_sent};
ghost use Rattle.lx_post.specs.Posting.{blank, no_worker, opened, taker};

use crate::backoff::Backoff;
use crate::note::Note;
use crate::passes::{SendPass, TakePass, WORKER_SLOTS};
use crate::post_rule::{Naming, NextWorker, Opening, PassView, PostRule, Sending, Taking};
use crossbeam_queue::{Pass, RuledArrayQueue};
use lx_piece::{KeepItems, Maker, Plan};
use std::alloc::{AllocError, Global};
use std::marker::{Brand, Model};
use std::sync::Wait;

/// A bounded queue of the notes of workers.
#[derive(Drop)]
pub struct Post<M: Maker = KeepItems> {
    pub(crate) queue: RuledArrayQueue<Note<M::Made>, PassView<M::Made>, PostRule<M>>,
    workers: u8,
}

impl<M: Maker> Model for Post<M> {
    ghost use Rattle.lx_post.specs.Posted.{Posted};

    ghost Value = { Posted };

    ghost view = { λ p. record { queue = p.queue.table.shared.table_id; workers = p.workers } };
}

// Names the plan in the first pass.
fn name_plan<J: Naming, M: Maker>(
    queue: &RuledArrayQueue<Note<M::Made>, PassView<M::Made>, PostRule<M>>,
    pass: &mut Pass<Note<M::Made>, PassView<M::Made>>,
    plan: &Plan,
)
    requires plan { plan.now ≡ J.plan }
    requires blank { IsPassOf queue.now pass.old × (view pass.old ≡ blank) }
    ensures queue { IsPassOf queue.now pass.new }
    ensures opened { view pass.new ≡ opened plan.now }
{
    let _spent = queue.another::<Opening<J>>(pass);
}

impl Post {
    /// Returns a post with room for `room` notes, a pass for each of 1 to 8 workers, in their order, and a pass to receive with.
    pub fn new<R: Wait>(
        rt: &R,
        alloc: Global,
        plan: &Plan,
        workers: u8,
        room: usize,
    ) -> Result<(Post, Vec<SendPass>, TakePass), AllocError>
        requires some_workers { 0 < workers }
        requires few_workers { workers ≤ max_workers }
        requires room { 0 < room }
        ensures post { IfOk result (λ r. r.0.workers ≡ workers) }
        ensures count { IfOk result (λ r. vec_len r.1 ≡ workers) }
        ensures passes { IfOk result (λ r.
            (w : ℕ) → w < workers → slice_get r.1.items w ≡ Some (fresh_send r.0 plan.now w)) }
        ensures pass { IfOk result (λ r. r.2 ≡ fresh_take r.0 plan.now) }
    {
        Post::of(rt, alloc, plan, workers, room)
    }
}

impl<M: Maker> Post<M> {
    /// Does the same as `new` for pieces that carry what a maker makes of their items.
    pub fn of<R: Wait>(
        _rt: &R,
        alloc: Global,
        plan: &Plan,
        workers: u8,
        room: usize,
    ) -> Result<(Post<M>, Vec<SendPass<M::Made>>, TakePass<M::Made>), AllocError>
        requires some_workers { 0 < workers }
        requires few_workers { workers ≤ max_workers }
        requires room { 0 < room }
        ensures post { IfOk result (λ r. r.0.workers ≡ workers) }
        ensures count { IfOk result (λ r. vec_len r.1 ≡ workers) }
        ensures passes { IfOk result (λ r.
            (w : ℕ) → w < workers → slice_get r.1.items w ≡ Some (fresh_send r.0 plan.now w)) }
        ensures pass { IfOk result (λ r. r.2 ≡ fresh_take r.0 plan.now) }
    {
        let mut passes = Vec::with_capacity(alloc, usize::from(workers))?;
        let (post, mut pass) = Post::open(alloc, plan, workers, room)?;
        for worker in 0..workers {
            let other = post.add_worker(&mut pass, worker);
            passes.push_reserved(other);
        }
        let pass = TakePass {
            pass,
            workers,
            ended: [false; WORKER_SLOTS],
        };
        Ok((post, passes, pass))
    }

    // Makes a post to which no worker has a pass, and the pass that takes.
    fn open(
        alloc: Global,
        plan: &Plan,
        workers: u8,
        room: usize,
    ) -> Result<(Post<M>, Pass<Note<M::Made>, PassView<M::Made>>), AllocError>
        requires { 0 < room }
        ensures post { IfOk result (λ r. r.0.workers ≡ workers) }
        ensures pass { IfOk result
            (λ r. (r.1.table_id ≡ r.0.queue) × (r.1.me.1 ≡ []) × (view r.1 ≡ opened plan.now)) }
    {
        let (queue, mut pass) = RuledArrayQueue::ruled(alloc, room)?;
        name_plan::<Brand, M>(&queue, &mut pass, plan);
        Ok((Post { queue, workers }, pass))
    }

    // Makes the pass of the next worker.
    fn add_worker(
        &self,
        pass: &mut Pass<Note<M::Made>, PassView<M::Made>>,
        worker: u8,
    ) -> SendPass<M::Made>
        requires post { (pass.old.table_id ≡ self.now.queue) × (pass.old.me.1 ≡ []) }
        requires next { (view pass.old ≡ taker (view pass.old).plan worker [] no_worker [])
            × (worker < max_workers) }
        ensures post { (pass.new.table_id ≡ self.now.queue) × (pass.new.me.1 ≡ []) }
        ensures next { view pass.new ≡ taker (view pass.old).plan (worker + 1) [] no_worker [] }
        ensures pass { result ≡ fresh_send self.now (view pass.old).plan worker }
    {
        let pass = self.queue.another::<NextWorker>(pass);
        SendPass { pass, worker }
    }

    // Sends a note if there is room. Returns the note if there is none.
    pub(crate) fn try_send<R: Wait>(
        &self,
        rt: &R,
        pass: &mut SendPass<M::Made>,
        note: Note<M::Made>,
    ) -> Result<(), Note<M::Made>>
        requires post { pass.old.queue ≡ self.now.queue }
        requires note { MaySend M.made pass.old note }
        ensures sent { IfOk result (λ _. pass.new ≡ with_sent pass.old note) }
        ensures full { IfErr result (λ back. (back ≡ note) × (pass.new ≡ pass.old)) }
    {
        self.queue.push_as::<Sending, R>(rt, &mut pass.pass, note)
    }

    /// Sends a note, and waits for room if there is none. Allocates nothing. The note belongs to the pass's worker, which hasn't ended. A piece
    /// belongs to the plan if it has the plan's run and one of its files.
    pub fn send<R: Wait>(&self, rt: &R, pass: &mut SendPass<M::Made>, note: Note<M::Made>)
        requires post { pass.old.queue ≡ self.now.queue }
        requires note { MaySend M.made pass.old note }
        ensures { pass.new ≡ with_sent pass.old note }
    {
        let mut left = note;
        let mut backoff = Backoff::new();
        for _ in rt.forever() {
            match self.try_send(rt, pass, left) {
                Ok(()) => return,
                Err(back) => {
                    backoff.turn(rt);
                    left = back;
                }
            }
        }
        unreachable!()
    }

    // Receives a note if there is one.
    fn try_receive<R: Wait>(&self, rt: &R, pass: &mut TakePass<M::Made>) -> Option<Note<M::Made>>
        requires { IsTakePassOf self.now pass.old }
        ensures some { IfSome result
            (λ note. MayCome M.made pass.old note × (pass.new ≡ with_received pass.old note)) }
        ensures none { IfNone result (pass.new ≡ pass.old) }
    {
        let note = self.queue.pop_as::<Taking<M>, R>(rt, &mut pass.pass)?;
        if let Note::End { worker, .. } = &note {
            pass.ended[usize::from(*worker)] = true;
        }
        Some(note)
    }

    /// Receives a note, and waits for one if there is none. Returns `None` once every worker's end was received. Allocates nothing.
    pub fn receive<R: Wait>(&self, rt: &R, pass: &mut TakePass<M::Made>) -> Option<Note<M::Made>>
        requires { IsTakePassOf self.now pass.old }
        ensures some { IfSome result
            (λ note. MayCome M.made pass.old note × (pass.new ≡ with_received pass.old note)) }
        ensures none { IfNone result ((pass.new ≡ pass.old) × AllEnded pass.old) }
    {
        if pass.all_ended() {
            return None;
        }
        let mut backoff = Backoff::new();
        for _ in rt.forever() {
            if let Some(note) = self.try_receive(rt, pass) {
                return Some(note);
            }
            backoff.turn(rt);
        }
        unreachable!()
    }
}
