//! A reader that keeps what it takes.

ghost use Rattle.std.specs.Prelude.{◌≡◌, length, replicate};
ghost use Rattle.lx_piece.specs.Plans.{files_of};

use lx_piece::{Piece, Plan, Reader, ReaderFault};
use std::process::Abort;
use std::sync::atomic::{AtomicBool, Ordering};

/// A reader that keeps the pieces that it takes, and fails at each call after the first `room`.
#[derive(Drop)]
pub(crate) struct Keeper<'a> {
    plan: &'a Plan,
    counts: Vec<u64>,
    pub(crate) pieces: Vec<Piece>,
    pub(crate) calls: u64,
    room: u64,
    fault: ReaderFault,
    faults: u64,
    /// For each of the first files, true once its last piece was taken.
    closed: &'a [AtomicBool],
    ghost each_count: { length counts.items ≡ files_of plan.now },
}

/// Returns a keeper that takes `room` pieces and then fails with `fault`. It sets a flag in `closed` when it takes the last piece of a file.
pub(crate) fn keeper_of<'a, R: Abort + AllocGlobal>(
    rt: &R,
    plan: &'a Plan,
    room: u64,
    fault: ReaderFault,
    closed: &'a [AtomicBool],
) -> Keeper<'a>
    ensures plan { result.plan.now ≡ plan.now }
    ensures counts { result.counts.items ≡ replicate (files_of plan.now) 0 }
    ensures faults { result.faults ≡ 0 }
{
    Keeper {
        plan,
        counts: vec![in rt.alloc(); 0; plan.files() as usize].expect(rt, "memory"),
        pieces: Vec::new(rt.alloc()),
        calls: 0,
        room,
        fault,
        faults: 0,
        closed,
    }
}

/// Returns a keeper that takes all pieces.
pub(crate) fn fresh_keeper<'a, R: Abort + AllocGlobal>(rt: &R, plan: &'a Plan) -> Keeper<'a>
    ensures plan { result.plan.now ≡ plan.now }
    ensures counts { result.counts.items ≡ replicate (files_of plan.now) 0 }
    ensures faults { result.faults ≡ 0 }
{
    keeper_of(rt, plan, u64::MAX, ReaderFault::Device, &[])
}

impl<'a> Reader for Keeper<'a> {
    ghost use Rattle.std.specs.Prelude.{ℕ};

    ghost plan = { λ s. s.plan.now };

    ghost counts = { λ s. s.counts.items };

    ghost fault_count = { λ s. s.faults };

    ghost follows = { λ _ _. Unit {0} };

    fn take(&mut self, piece: Piece) -> Result<(), ReaderFault> {
        let is_full = self.calls >= self.room;
        self.calls = self.calls.saturating_add(1);
        if is_full {
            return match self.fault {
                ReaderFault::Device => {
                    self.faults += 1;
                    Err(ReaderFault::Device)
                }
                ReaderFault::Memory => Err(ReaderFault::Memory),
            };
        }
        let file = piece.file as usize;
        let is_closing = piece.is_closing();
        if self.pieces.push(piece).is_err() {
            return Err(ReaderFault::Memory);
        }
        self.counts[file] += 1;
        if is_closing {
            if let Some(closed) = self.closed.get(file) {
                closed.store(true, Ordering::SeqCst);
            }
        }
        Ok(())
    }

    fn faults(&self) -> u64 {
        self.faults
    }

    ghost follows_itself = { λ _. tt };

    ghost follows_on = { λ _ _ _ _ _. tt };
}
