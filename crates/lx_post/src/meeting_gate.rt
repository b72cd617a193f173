//! A gate for tests at which two workers meet.

ghost use Rattle.std.specs.Prelude.{◌<◌};

use crate::gate::Gate;
use std::sync::atomic::{AtomicBool, Ordering};
use std::thread;

// Number of turns that a worker waits for the other one.
const TURNS: u32 = 10_000_000;

/// A gate at which workers 0 and 1 meet. The first of the two to pass is held until the other one comes to the gate. It is held for at most
/// 10,000,000 turns, each of which yields the processor. Other workers aren't held.
#[derive(Drop)]
pub struct MeetingGate {
    // For each of the two workers, true once it came.
    came: [AtomicBool; 2],
    // True once one of them reached the limit of turns.
    gave_up: AtomicBool,
}

impl MeetingGate {
    /// Returns a gate to which no worker came yet.
    pub fn new() -> MeetingGate {
        MeetingGate {
            came: [AtomicBool::new(false), AtomicBool::new(false)],
            gave_up: AtomicBool::new(false),
        }
    }

    /// Returns true if both workers came and neither reached the limit of turns.
    pub fn met(&self) -> bool {
        self.came[0].load(Ordering::SeqCst)
            && self.came[1].load(Ordering::SeqCst)
            && !self.gave_up.load(Ordering::SeqCst)
    }

    // Yields until the other worker comes, or the limit of turns is reached.
    fn turn_until_came(&self, other: usize)
        requires { other < 2 }
    {
        for _ in 0..TURNS {
            if self.came[other].load(Ordering::SeqCst) {
                return;
            }
            thread::yield_now();
        }
        self.gave_up.store(true, Ordering::SeqCst);
    }
}

impl Gate for MeetingGate {
    fn pass(&self, worker: u8, _file: u32, _number: u64) {
        if worker >= 2 {
            return;
        }
        let own = usize::from(worker);
        let came_before = self.came[own].swap(true, Ordering::SeqCst);
        if !came_before {
            self.turn_until_came(1 - own);
        }
    }
}
