//! Signals between the threads of a run, apart from the post.

ghost use Rattle.std.specs.Prelude.{◌<◌};
ghost use Rattle.lx_piece.specs.Plans.{max_workers};

use crate::{Backoff, Pace, WORKER_SLOTS};
use std::sync::Wait;
use std::sync::atomic::{AtomicBool, Ordering};

/// The signals between the threads of a run, apart from the post. No contract speaks of them.
#[derive(Drop)]
pub struct Signals {
    // For each worker, true once its thread couldn't be made, so that its job comes back.
    refused: [AtomicBool; WORKER_SLOTS],
    /// The pace that follows what the reader holds.
    pub pace: Pace,
    // True once each worker was started, or its end was sent.
    all_started: AtomicBool,
}

impl Signals {
    /// Returns the signals before a run.
    pub fn new() -> Signals {
        Signals {
            refused: std::array::from_fn(|_| AtomicBool::new(false)),
            pace: Pace::new(),
            all_started: AtomicBool::new(false),
        }
    }

    /// Makes the job of this worker come back.
    pub fn refuse(&self, worker: u8)
        requires { worker < max_workers }
    {
        self.refused[usize::from(worker)].store(true, Ordering::SeqCst);
    }

    /// Returns true if the job of this worker is to come back.
    pub fn is_refused(&self, worker: u8) -> bool
        requires { worker < max_workers }
    {
        self.refused[usize::from(worker)].load(Ordering::SeqCst)
    }

    /// Signals that each worker was started, or its end was sent.
    pub fn signal_start(&self) {
        self.all_started.store(true, Ordering::SeqCst);
    }

    /// Waits until each worker was started, or its end was sent. No piece is sent before, so that there is room for the ends of workers that can't be
    /// started.
    pub fn wait_for_start<W: Wait>(&self, rt: &W) {
        let mut backoff = Backoff::new();
        for _ in rt.forever() {
            if self.all_started.load(Ordering::SeqCst) {
                return;
            }
            backoff.turn(rt);
        }
        unreachable!()
    }
}
