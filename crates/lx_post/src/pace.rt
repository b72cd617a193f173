//! Makes workers wait while the reader holds much.

ghost use Rattle.std.specs.Prelude.{◌≡◌, ◌<◌, ◌≤◌, ◌↔◌, IsTrue, false};

use crate::backoff::Backoff;
use lx_piece::{Held, MAX_WORKERS};
use std::sync::Wait;
use std::sync::atomic::{AtomicBool, AtomicU64, Ordering};

// Number of bytes that the reader may hold of later files before workers wait. Later files are those after the one that it waits for.
const MOST_HELD: u64 = 3 << 23;

// Number of held bytes at which the first worker draws no further file. The second worker stops at half of it, the third at a quarter, and so on.
const ENOUGH_HELD: u64 = MOST_HELD / 2;

// Length of a sleep of a worker that draws no file, in microseconds. What the reader holds lasts longer than that.
const NAP: u64 = 500;

/// The amount that a reader holds. A reader that needs the files in order holds what it takes of files after the one that it waits for. If that file
/// is slow, it holds nearly everything. So a worker that cuts such a later file waits while much is held. The worker of the awaited file never waits.
/// Files are drawn in order, so that this worker makes progress. If workers are faster than the reader, the last ones draw no further file for a
/// while. Threads that aren't needed would take the processor of the thread that reads. A pace affects only time, so no contract here speaks of what
/// is read. The contract of `is_to_wait` says who waits. The worker of the awaited file never does, and nobody does once the pace is ended.
#[derive(Drop)]
pub struct Pace {
    // Number of the file that the reader waits for.
    file: AtomicU64,
    // Number of bytes that the reader holds of later files.
    bytes: AtomicU64,
    // True once no worker waits any more: the reader takes nothing more, or a file stays open.
    is_over: AtomicBool,
}

// A worker's view of a pace.
#[derive(Clone, Copy)]
struct Seen {
    file: u64,
    bytes: u64,
    is_over: bool,
}

// Returns true if the worker of `file` waits: its file comes after the awaited one, much is held, and the pace isn't ended.
fn is_to_wait(seen: Seen, file: u32) -> bool
    ensures { IsTrue result
        ↔ ((seen.file < file) × (MOST_HELD ≤ seen.bytes) × (seen.is_over ≡ false)) }
{
    seen.file < u64::from(file) && seen.bytes >= MOST_HELD && !seen.is_over
}

// Returns true if a worker waits before it draws a file: enough is held, and the pace isn't ended.
fn is_to_wait_to_draw(seen: Seen, enough: u64) -> bool
    ensures { IsTrue result ↔ ((enough ≤ seen.bytes) × (seen.is_over ≡ false)) }
{
    seen.bytes >= enough && !seen.is_over
}

// Stores a number if it differs from the present one. Without a store, the word stays in the caches of the threads that read it.
fn note_in(noted: &AtomicU64, number: u64) {
    if noted.load(Ordering::Relaxed) != number {
        noted.store(number, Ordering::SeqCst);
    }
}

impl Pace {
    /// Returns the pace of a reader that holds nothing.
    pub fn new() -> Pace {
        Pace {
            file: AtomicU64::new(0),
            bytes: AtomicU64::new(0),
            is_over: AtomicBool::new(false),
        }
    }

    /// Notes what the reader holds. Only one thread calls it.
    pub fn note(&self, held: Held) {
        note_in(&self.file, u64::from(held.file));
        note_in(&self.bytes, held.bytes);
    }

    /// Lets all workers go on, now and later.
    pub fn end(&self) {
        self.is_over.store(true, Ordering::SeqCst);
    }

    /// Waits while much is held and `file` comes after the awaited file.
    pub fn wait<W: Wait>(&self, rt: &W, file: u32) {
        let mut backoff = Backoff::new();
        for _ in rt.forever() {
            if !is_to_wait(self.look(), file) {
                return;
            }
            backoff.turn(rt);
        }
        unreachable!()
    }

    /// Makes a worker wait before it draws a file, while enough is held. The reader waits for no file of this worker.
    pub fn wait_to_draw<W: Wait>(&self, rt: &W, worker: u8) {
        let mut backoff = Backoff::of_naps(NAP);
        for _ in rt.forever() {
            if !is_to_wait_to_draw(self.look(), ENOUGH_HELD >> worker.min(MAX_WORKERS)) {
                return;
            }
            backoff.turn(rt);
        }
        unreachable!()
    }

    fn look(&self) -> Seen {
        Seen {
            file: self.file.load(Ordering::SeqCst),
            bytes: self.bytes.load(Ordering::SeqCst),
            is_over: self.is_over.load(Ordering::SeqCst),
        }
    }
}
