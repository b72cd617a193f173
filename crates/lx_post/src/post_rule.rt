//! The rule of the queue of notes, and what each step on it reveals.

use crate::note::Note;
use crossbeam_queue::protocol::{Join, Lesson, Outcome, Protocol, Split};
use lx_piece::{Maker, Plan};
use std::collections::LinkedList;
use std::marker::{Brand, PhantomData};

/// The purpose of a pass.
pub enum Role {
    /// The first pass, which names no plan yet.
    Blank,
    /// The pass sends the notes of a worker.
    Sends,
    /// The pass takes notes.
    Takes,
    /// The pass does nothing any more.
    Spent,
}

/// The knowledge of a pass. No value of it is made.
pub struct PassView<C> {
    pub role: Role,
    pub plan: Plan,
    /// Number of the worker whose notes it sends. In the pass that takes: of the worker whose pass was joined to it last.
    pub worker: u16,
    /// Notes that this worker sent.
    pub sent: LinkedList<Note<C>>,
    /// Number of workers that have a pass.
    pub given: u8,
    /// Notes that were received.
    pub received: LinkedList<Note<C>>,
}

/// The rule of the post: for each worker, its received notes followed by its queued ones are the notes that it sent.
pub struct PostRule<M: Maker> {
    of: PhantomData<M>,
}

impl<M: Maker> Protocol<Note<M::Made>, PassView<M::Made>> for PostRule<M> {
    ghost use Rattle.lx_post.specs.Posting.{IsPosting, blank};

    ghost holds = { IsPosting M.made };

    ghost first = { blank };
}

/// A name for the plan in the passes. The rule's first view is a constant, so a call picks the plan.
pub trait Naming {
    ghost use Rattle.lx_piece.specs.Plans.{Planned};

    ghost plan: { Planned };
}

impl Naming for Brand {
    ghost use Rattle.lx_post.specs.Posting.{no_plan};

    ghost plan = { no_plan };
}

/// A split that turns the first pass into the one that takes. The pass that is split off is spent.
pub struct Opening<J: Naming> {
    of: PhantomData<J>,
}

impl<J: Naming, C> Split<PassView<C>> for Opening<J> {
    ghost use Rattle.lx_post.specs.Posting.{opened, spent_pass};

    ghost left = { λ _. opened J.plan };

    ghost right = { λ _. spent_pass };
}

/// A split that gives the next worker a pass, from the pass that takes.
pub struct NextWorker;

impl<C> Split<PassView<C>> for NextWorker {
    ghost use Rattle.lx_post.specs.Posting.{with_next_worker, next_worker};

    ghost left = { with_next_worker };

    ghost right = { next_worker };
}

/// A join of a worker's pass to the one that takes.
pub struct Joining;

impl<C> Join<PassView<C>> for Joining {
    ghost use Rattle.lx_post.specs.Posting.{joined, spent_pass};

    ghost both = { joined };

    ghost spent = { spent_pass };
}

/// The sending of a note.
pub struct Sending;

impl<C> Outcome<Note<C>, PassView<C>> for Sending {
    ghost use Rattle.lx_post.specs.Posting.{Sending};

    ghost then = { Sending };
}

impl<C> Lesson<Note<C>, PassView<C>> for Sending {
    ghost fact = { λ v items. Unit {0} };
}

/// The taking of a note.
pub struct Taking<M: Maker> {
    of: PhantomData<M>,
}

impl<M: Maker> Outcome<Note<M::Made>, PassView<M::Made>> for Taking<M> {
    ghost use Rattle.lx_post.specs.Posting.{Taking};

    ghost then = { Taking M.made };
}

impl<M: Maker> Lesson<Note<M::Made>, PassView<M::Made>> for Taking<M> {
    ghost fact = { λ v items. Unit {0} };
}

/// The lesson that all notes of the worker that joined last were received, once its end was.
pub struct Whole;

impl<C> Lesson<Note<C>, PassView<C>> for Whole {
    ghost use Rattle.lx_post.specs.Posting.{IsWhole};

    ghost fact = { λ v items. IsWhole v };
}
