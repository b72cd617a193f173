//! The queue's send and receive handles.
ghost use Rattle.std.specs.Prelude.{◌≡◌, ◌↔◌, IsTrue};
ghost use Rattle.lx_post.specs.Posted.{AllEnded};

use crate::note::Note;
use crate::post_rule::PassView;
use crossbeam_queue::Pass;
use lx_piece::{Items, MAX_WORKERS};
use std::marker::Model;

/// Greatest number of workers of a run, as the length of a list.
pub const WORKER_SLOTS: usize = MAX_WORKERS as usize;

/// The right of one worker to send notes. Contracts see what it sent.
#[derive(Drop)]
pub struct SendPass<C = Items> {
    pub(crate) pass: Pass<Note<C>, PassView<C>>,
    pub(crate) worker: u8,
}

impl<C> Model for SendPass<C> {
    ghost use Rattle.std.specs.Prelude.{◌≡◌, []};
    ghost use Rattle.crossbeam_queue.specs.Passes.{view as known};
    ghost use Rattle.lx_post.specs.Posting.{sender};
    ghost use Rattle.lx_post.specs.Posted.{Sent};

    ghost Value = { Sent C };

    ghost view = { λ p.
        record
        { queue = p.pass.table_id; plan = (known p.pass).plan; worker = p.worker; sent = (known p.pass).sent } };

    ghost invariant = { λ p.
        (p.pass.me.1 ≡ [])
        × (known p.pass ≡ sender (known p.pass).plan p.worker (known p.pass).sent) };
}

/// The right to receive notes. Contracts see what was received.
#[derive(Drop)]
pub struct TakePass<C = Items> {
    pub(crate) pass: Pass<Note<C>, PassView<C>>,
    pub(crate) workers: u8,
    // For each worker, true once its end was received.
    pub(crate) ended: [bool; WORKER_SLOTS],
}

impl<C> Model for TakePass<C> {
    ghost use Rattle.std.specs.Prelude.{◌≡◌, ◌≤◌, ◌<◌, ℕ, [], false, slice_index_or};
    ghost use Rattle.crossbeam_queue.specs.Passes.{view as known};
    ghost use Rattle.lx_piece.specs.Plans.{max_workers};
    ghost use Rattle.lx_post.specs.Notes.{notes_of, has_end};
    ghost use Rattle.lx_post.specs.Posting.{taker};
    ghost use Rattle.lx_post.specs.Posted.{Taken};

    ghost Value = { Taken C };

    ghost view = { λ p.
        record
        { queue = p.pass.table_id; plan = (known p.pass).plan; workers = p.workers; received = (known p.pass).received } };

    ghost invariant = { λ p.
        (p.pass.me.1 ≡ [])
        × (known p.pass ≡ taker (known p.pass).plan p.workers (known p.pass).received (known p.pass).worker (known p.pass).sent)
        × (p.workers ≤ max_workers)
        × ((w : ℕ) → w < max_workers → slice_index_or p.ended w false ≡ has_end (notes_of w (known p.pass).received)) };
}

impl<C> SendPass<C> {
    /// Returns the number of the worker whose notes it sends.
    pub fn worker(&self) -> u8
        ensures { result ≡ self.now.worker }
    {
        self.worker
    }
}

impl<C> TakePass<C> {
    // Returns true once every worker's end was received.
    pub(crate) fn all_ended(&self) -> bool
        ensures { IsTrue result ↔ AllEnded self.now }
    {
        for w in 0..usize::from(self.workers) {
            if !self.ended[w] {
                return false;
            }
        }
        true
    }
}
