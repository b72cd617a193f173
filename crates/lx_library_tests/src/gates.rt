//! Gates that hold a worker until some event. They yield the processor at most 10,000,000 times.

use lx_post::Gate;
use std::sync::atomic::{AtomicBool, AtomicU64, Ordering};
use std::thread;

const TURNS: u32 = 10_000_000;

/// Returns true if all of these flags are set, except for the one at index `but`.
fn are_set(flags: &[AtomicBool], but: usize) -> bool {
    for (index, flag) in flags.iter().enumerate() {
        if index != but && !flag.load(Ordering::SeqCst) {
            return false;
        }
    }
    true
}

/// Yields until all of these flags are set, except for the one at index `but`. Returns false at the limit of turns.
fn turns_until_set(flags: &[AtomicBool], but: usize) -> bool {
    for _ in 0..TURNS {
        if are_set(flags, but) {
            return true;
        }
        thread::yield_now();
    }
    false
}

/// A gate that holds the pass for one of three files until the two others were passed.
#[derive(Drop)]
pub(crate) struct FileGate {
    held: u32,
    passed: [AtomicBool; 3],
    passes: [AtomicU64; 3],
    gave_up: AtomicBool,
}

impl FileGate {
    pub(crate) fn new(held: u32) -> FileGate {
        FileGate {
            held,
            passed: [
                AtomicBool::new(false),
                AtomicBool::new(false),
                AtomicBool::new(false),
            ],
            passes: [AtomicU64::new(0), AtomicU64::new(0), AtomicU64::new(0)],
            gave_up: AtomicBool::new(false),
        }
    }

    /// Returns the number of passes of each file.
    pub(crate) fn passes(&self) -> [u64; 3] {
        [
            self.passes[0].load(Ordering::SeqCst),
            self.passes[1].load(Ordering::SeqCst),
            self.passes[2].load(Ordering::SeqCst),
        ]
    }

    pub(crate) fn gave_up(&self) -> bool {
        self.gave_up.load(Ordering::SeqCst)
    }
}

impl Gate for FileGate {
    fn pass(&self, _worker: u8, file: u32, _number: u64) {
        let index = file as usize;
        if file == self.held && !turns_until_set(self.passed.as_slice(), index) {
            self.gave_up.store(true, Ordering::SeqCst);
        }
        if index < 3 {
            self.passed[index].store(true, Ordering::SeqCst);
            self.passes[index].fetch_add(1, Ordering::SeqCst);
        }
    }
}

/// A gate that holds the pass for piece 1 of one of two files, until a reader has taken the other file's last piece.
#[derive(Drop)]
pub(crate) struct PieceGate {
    held: u32,
    pub(crate) closed: [AtomicBool; 2],
    passes: AtomicU64,
    has_held: AtomicBool,
    gave_up: AtomicBool,
}

impl PieceGate {
    pub(crate) fn new(held: u32) -> PieceGate {
        PieceGate {
            held,
            closed: [AtomicBool::new(false), AtomicBool::new(false)],
            passes: AtomicU64::new(0),
            has_held: AtomicBool::new(false),
            gave_up: AtomicBool::new(false),
        }
    }

    /// Returns the number of passes.
    pub(crate) fn passes(&self) -> u64 {
        self.passes.load(Ordering::SeqCst)
    }

    /// Returns true if a pass was held, and went on when the other file was closed.
    pub(crate) fn has_held(&self) -> bool {
        self.has_held.load(Ordering::SeqCst) && !self.gave_up.load(Ordering::SeqCst)
    }
}

impl Gate for PieceGate {
    fn pass(&self, _worker: u8, file: u32, number: u64) {
        self.passes.fetch_add(1, Ordering::SeqCst);
        if (file, number) == (self.held, 1) {
            self.has_held.store(true, Ordering::SeqCst);
            if !turns_until_set(self.closed.as_slice(), file as usize) {
                self.gave_up.store(true, Ordering::SeqCst);
            }
        }
    }
}
