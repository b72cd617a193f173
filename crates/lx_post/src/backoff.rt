//! Backoff of a thread that waits for another one.

use std::sync::Wait;
use std::sync::atomic::AtomicU64;
use std::thread;
use std::time::Duration;

// Number of turns that yield the processor before the first sleep.
const YIELDS: u32 = 8;

// Default length of a sleep, in microseconds.
const NAP: u64 = 50;

/// Backoff of a call that found no room or no note. It first yields the processor, and then sleeps for short times. A thread that only yields takes
/// processor time from the threads that work. Waking other threads at each note takes longer than the note itself.
#[derive(Drop)]
pub struct Backoff {
    turns: u32,
    // Length of a sleep, in microseconds.
    nap: u64,
    // Word to sleep on. No thread wakes it, so every sleep ends by its timeout.
    never: AtomicU64,
}

impl Backoff {
    #[inline]
    pub fn new() -> Backoff {
        Backoff {
            turns: 0,
            nap: NAP,
            never: AtomicU64::new(0),
        }
    }

    /// Returns the backoff of a thread that has time: it sleeps `nap` microseconds at each turn.
    pub fn of_naps(nap: u64) -> Backoff {
        Backoff {
            turns: YIELDS,
            nap,
            never: AtomicU64::new(0),
        }
    }

    /// Yields the processor, or sleeps once the yields are used up.
    #[cold]
    #[inline(never)]
    pub fn turn<R: Wait>(&mut self, rt: &R) {
        if self.turns < YIELDS {
            self.turns += 1;
            thread::yield_now();
        } else {
            self.never
                .park_timeout(rt, 0, Duration::from_micros(self.nap));
        }
    }
}
