//! Pieces that arrive by a post, for a relay.
ghost use Rattle.std.specs.Prelude.{◌≡◌, [], IfNone, IfSome};
ghost use Rattle.lx_post.specs.Notes.{fault_with, first_fault};
ghost use Rattle.lx_post.specs.Posted.{AllEnded, IsTakePassOf, MayCome, with_arrival};

use crate::note::{Note, WorkerFault};
use crate::pace::Pace;
use crate::passes::TakePass;
use crate::post::Post;
use lx_piece::{Arrivals, ArrivalsOf, Held, KeepItems, Maker, Piece};
use std::marker::Model;
use std::snapshot::Snapshot;
use std::sync::Wait;

// Returns the first fault, given the one before and the next note.
fn fault_with<C>(fault: Option<WorkerFault>, note: &Note<C>) -> Option<WorkerFault>
    ensures { result ≡ fault_with fault note.now }
{
    match note {
        Note::Piece { .. } => fault,
        Note::End { fault: named, .. } => fault.or(*named),
    }
}

/// The pieces that a post receives. They end once every worker's end was received. The pace informs workers of what the reader holds.
#[derive(Drop)]
pub struct NoteArrivals<'a, R: Wait, M: Maker> {
    rt: &'a R,
    post: &'a Post<M>,
    pass: TakePass<M::Made>,
    // The pass at the time of `new`.
    first: Snapshot<TakePass<M::Made>>,
    // The first fault that an end has named since `new`.
    fault: Option<WorkerFault>,
    pace: Option<&'a Pace>,
}

impl<'a, R: Wait, M: Maker> Model for NoteArrivals<'a, R, M> {
    ghost use Rattle.std.specs.Prelude.{◌≡◌, ◌++◌, drop, length};
    ghost use Rattle.lx_post.specs.Notes.{first_fault};
    ghost use Rattle.lx_post.specs.Posted.{Arriving, IsTakePassOf};

    ghost Value = { Arriving M.Made };

    ghost view = { λ s.
        record { pass = s.pass; since = drop (length s.first.value.received) s.pass.received } };

    ghost invariant = { λ s.
        IsTakePassOf s.post.now s.pass
        × (s.pass.received ≡ s.first.value.received ++ drop (length s.first.value.received) s.pass.received)
        × (s.fault ≡ first_fault (drop (length s.first.value.received) s.pass.received)) };
}

impl<'a, R: Wait, M: Maker> NoteArrivals<'a, R, M> {
    /// Returns the arrivals of what this pass receives from now on. Allocates nothing.
    pub fn new(
        rt: &'a R,
        post: &'a Post<M>,
        pass: TakePass<M::Made>,
        pace: Option<&'a Pace>,
    ) -> Self
        requires { IsTakePassOf post.now pass }
        ensures pass { result.pass ≡ pass }
        ensures none { result.since ≡ [] }
    {
        let first = Snapshot::of(&pass);
        NoteArrivals {
            rt,
            post,
            pass,
            first,
            fault: None,
            pace,
        }
    }

    /// Returns the pass, and the first fault that an end among these arrivals named.
    pub fn into_pass(self) -> (TakePass<M::Made>, Option<WorkerFault>)
        ensures pass { result.0 ≡ self.entry.pass }
        ensures fault { result.1 ≡ first_fault self.entry.since }
    {
        (self.pass, self.fault)
    }

    // Receives a note. Returns `None` once every worker's end was received.
    fn next_note(&mut self) -> Option<Note<M::Made>>
        ensures some { IfSome result
            (λ note. MayCome M.made self.old.pass note × (self.new ≡ with_arrival self.old note)) }
        ensures none { IfNone result ((self.new ≡ self.old) × AllEnded self.old.pass) }
    {
        let note = self.post.receive(self.rt, &mut self.pass)?;
        self.fault = fault_with(self.fault, &note);
        Some(note)
    }
}

impl<'a, R: Wait, M: Maker> ArrivalsOf<M> for NoteArrivals<'a, R, M> {
    ghost use Rattle.lx_post.specs.Arrived.{nothing_came, came_on};
    ghost use Rattle.lx_post.specs.Posted.{AllEnded, CameBetween};

    ghost plan = { λ s. s.pass.plan };

    ghost leads = { CameBetween };

    ghost has_ended = { λ s. AllEnded s.pass };

    #[tactic(auto, using(crate::proofs::Comings::came_piece, crate::proofs::Comings::came_end))]
    fn next(&mut self) -> Option<Piece<M::Made>> {
        let rt = self.rt;
        for _ in rt.forever() {
            if let Note::Piece { piece, .. } = self.next_note()? {
                return Some(piece);
            }
        }
        unreachable!()
    }

    fn hear(&mut self, held: Held) {
        if let Some(pace) = self.pace {
            pace.note(held);
        }
    }

    ghost stays = { nothing_came };

    ghost goes_on = { came_on };
}

/// The pieces that a post receives, if they carry their items.
#[derive(Drop)]
pub struct PostArrivals<'a, R: Wait> {
    notes: NoteArrivals<'a, R, KeepItems>,
}

impl<'a, R: Wait> Model for PostArrivals<'a, R> {
    ghost use Rattle.std.specs.Prelude.{List};
    ghost use Rattle.lx_scan.specs.declared.item.Item.{Item};
    ghost use Rattle.lx_post.specs.Posted.{Arriving};

    ghost Value = { Arriving (List Item) };

    ghost view = { λ s. s.notes };
}

impl<'a, R: Wait> PostArrivals<'a, R> {
    /// Returns the arrivals of what this pass receives from now on. Allocates nothing.
    pub fn new(rt: &'a R, post: &'a Post, pass: TakePass) -> Self
        requires { IsTakePassOf post.now pass }
        ensures pass { result.pass ≡ pass }
        ensures none { result.since ≡ [] }
    {
        PostArrivals {
            notes: NoteArrivals::new(rt, post, pass, None),
        }
    }

    /// Returns the pass, and the first fault that an end among these arrivals named.
    pub fn into_pass(self) -> (TakePass, Option<WorkerFault>)
        ensures pass { result.0 ≡ self.entry.pass }
        ensures fault { result.1 ≡ first_fault self.entry.since }
    {
        self.notes.into_pass()
    }
}

impl<'a, R: Wait> Arrivals for PostArrivals<'a, R> {
    ghost use Rattle.lx_post.specs.Arrived.{nothing_came, came_on};
    ghost use Rattle.lx_post.specs.Posted.{AllEnded, CameBetween};

    ghost plan = { λ s. s.pass.plan };

    ghost leads = { CameBetween };

    ghost has_ended = { λ s. AllEnded s.pass };

    fn next(&mut self) -> Option<Piece> {
        self.notes.next()
    }

    ghost stays = { nothing_came };

    ghost goes_on = { came_on };
}
