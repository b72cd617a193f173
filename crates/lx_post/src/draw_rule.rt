//! The rule of the word from which file numbers are drawn, and what each step on it reveals.

use atomic_table::{Join, Play, Split, TableRule};
use std::collections::LinkedList;

/// The knowledge of a seat. No value of it is made.
pub struct SeatView {
    /// Number of files.
    pub files: u64,
    /// Number of parts. A seat with one part for each worker knows what all seats drew.
    pub parts: u64,
    /// Number of draws that found no file.
    pub past: u64,
    /// Numbers of the files that the seat drew.
    pub drawn: LinkedList<u32>,
}

/// The number of files, and of the workers that draw them.
#[derive(Drop)]
pub struct DrawBounds {
    pub files: u32,
    pub workers: u8,
}

/// The rule of drawing: the numbers below both the word and the number of files are drawn, each once.
pub struct DrawRule;

impl TableRule<(), SeatView, DrawBounds> for DrawRule {
    ghost use Rattle.std.specs.Prelude.{[]};
    ghost use Rattle.lx_post.specs.Draws.{seat_view, AreDrawnOnce};

    ghost holds = { λ b s. AreDrawnOnce b.files b.workers s };

    ghost first = { λ b. seat_view b.files b.workers 0 [] };
}

/// A split that gives one part of a seat to a new seat.
pub struct OnePart;

impl Split<SeatView> for OnePart {
    ghost use Rattle.lx_post.specs.Draws.{one_part_less, one_part};

    ghost left = { one_part_less };

    ghost right = { one_part };
}

/// A join of two seats, with all that they drew.
pub struct Together;

impl Join<SeatView> for Together {
    ghost use Rattle.lx_post.specs.Draws.{together, spent_seat};

    ghost both = { together };

    ghost spent = { spent_seat };
}

/// A draw.
pub struct Draw;

impl Play<(), SeatView> for Draw {
    ghost use Rattle.lx_post.specs.Draws.{Draws};

    ghost then = { Draws };
}

/// A read of the word by the seat that has all parts.
pub struct DrawCount;

impl Play<(), SeatView> for DrawCount {
    ghost use Rattle.lx_post.specs.Draws.{Counts};

    ghost then = { Counts };
}
