//! The pieces of one file that wait for earlier pieces.

ghost use Rattle.std.specs.Prelude.{◌≡◌, ◌<◌, ◌≤◌, ℕ, List, OnOk, IfErr, IfNone, IfSome, IsTrue, IsSome, None, false};
ghost use Rattle.lx_piece.specs.declared.piece.Piece.{Piece};
ghost use Rattle.lx_piece.specs.Arrivals.{cause_among};
ghost use Rattle.lx_piece.specs.Pieces.{top_number};
ghost use Rattle.lx_piece.specs.Kept.{BufferStandsFor, held_at, has_number, is_ready, Advances, HoldsPiece, KeepsPiece, closed_before, is_buffer_closed, is_buffer_truncated, fresh_buffer};

use crate::Piece;
use crate::reply::Why;
use std::alloc::Global;
use std::collections::BTreeMap;
use std::marker::Model;

/// Returns true if a number is known and is below `number`.
fn is_below(known: Option<u64>, number: u64) -> bool
    ensures { result ≡ closed_before known number }
{
    match known {
        Some(known) => known < number,
        None => false,
    }
}

/// The state that a collector keeps for one file.
#[derive(Drop)]
pub(crate) struct ReorderBuffer<C> {
    /// Number of pieces that were delivered, which is the number of the next piece.
    next: u64,
    /// Number of the closing piece, once it was accepted.
    closing: Option<u64>,
    /// Number of the closing piece, once it was accepted, if it is marked Cut.
    truncated: Option<u64>,
    /// The next piece, if it was accepted when it was the next one. Mostly each piece is, and then none needs memory.
    ready: Option<Piece<C>>,
    /// The other accepted pieces that weren't delivered yet, by their numbers.
    later: BTreeMap<u64, Piece<C>>,
}

impl<C> Model for ReorderBuffer<C> {
    ghost use Rattle.std.specs.Prelude.{ℕ, ◌<◌, ◌≡◌, IsSome, None};
    ghost use Rattle.std.specs.Ordering.{nat_cmp};
    ghost use Rattle.std.specs.BTreeMap.{get};
    ghost use Rattle.lx_piece.specs.Pieces.{top_number};
    ghost use Rattle.lx_piece.specs.Kept.{Buffered, with_next};

    ghost Value = { Buffered C };

    ghost view = { λ s.
        record
        { next = s.next; closing = s.closing; truncated = s.truncated; held = with_next s.next s.ready s.later.entries } };

    ghost invariant = { λ s.
        ((n : ℕ) → IsSome (get nat_cmp s.later n) → n < top_number)
        × (IsSome s.ready → s.next < top_number)
        × (IsSome s.ready → get nat_cmp s.later s.next ≡ None) };
}

impl<C: Drop> ReorderBuffer<C> {
    /// Returns the buffer of a file of which no piece has come.
    pub(crate) fn new(alloc: Global) -> Self
        ensures { result ≡ fresh_buffer }
    {
        ReorderBuffer {
            next: 0,
            closing: None,
            truncated: None,
            ready: None,
            later: BTreeMap::new(alloc),
        }
    }

    /// Returns true if the piece of this number was delivered or is held.
    fn has(&self, number: u64) -> bool
        ensures { result ≡ has_number self.now number }
    {
        number < self.next
            || (number == self.next && self.ready.is_some())
            || self.later.contains_key(&number)
    }

    /// Returns true if the closing number is known and below this one.
    fn is_closed_before(&self, number: u64) -> bool
        ensures { result ≡ closed_before self.now.closing number }
    {
        is_below(self.closing, number)
    }

    /// Returns true if a piece of a greater number is held. The piece of this number wasn't delivered.
    fn holds_later(&self, number: u64) -> bool
        requires { self.now.next ≤ number }
        ensures yes { IsTrue result
            → (later : ℕ) × (number < later) × IsSome (held_at self.now later) }
        ensures no { result ≡ false → (later : ℕ) → number < later → held_at self.now later ≡ None }
    {
        match self.later.last_key_value() {
            Some((greatest, _)) => number < *greatest,
            None => false,
        }
    }

    /// Returns the first cause against a piece of this file.
    pub(crate) fn cause(&self, piece: &Piece<C>) -> Option<Why>
        ensures first { (accepted : List (Piece C))
            → BufferStandsFor self.now piece.now.file accepted
            → result ≡ cause_among accepted piece.now }
        ensures countable { IfNone result (piece.now.number < top_number) }
        ensures new { IfNone result (has_number self.now piece.now.number ≡ false) }
    {
        if self.has(piece.number) {
            return Some(Why::Double);
        }
        if piece.number == u64::MAX || self.is_closed_before(piece.number) {
            return Some(Why::AfterLast);
        }
        if piece.is_closing() && self.holds_later(piece.number) {
            return Some(Why::Contradicts);
        }
        None
    }

    // Adds the piece to the held ones. If an allocation fails, returns the piece and changes nothing.
    fn hold(&mut self, piece: Piece<C>) -> Result<(), Piece<C>>
        requires countable { piece.number < top_number }
        requires new { has_number self.old piece.number ≡ false }
        ensures ok { OnOk result (HoldsPiece self.old piece self.new) }
        ensures err { IfErr result (λ back. (back ≡ piece) × (self.new ≡ self.old)) }
    {
        if piece.number == self.next {
            self.ready = Some(piece);
            return Ok(());
        }
        match self.later.insert(piece.number, piece) {
            Ok(_) => Ok(()),
            Err(refused) => Err(refused.value.1),
        }
    }

    /// Holds the piece, and notes whether it closes the file. If an allocation fails, returns the piece and changes nothing.
    pub(crate) fn keep(&mut self, piece: Piece<C>) -> Result<(), Piece<C>>
        requires countable { piece.number < top_number }
        requires new { has_number self.old piece.number ≡ false }
        ensures ok { OnOk result (KeepsPiece self.old piece self.new) }
        ensures err { IfErr result (λ back. (back ≡ piece) × (self.new ≡ self.old)) }
    {
        let number = piece.number;
        let closes = piece.is_closing();
        let is_truncated = piece.is_cut_short();
        self.hold(piece)?;
        if closes {
            self.closing = Some(number);
        }
        if is_truncated {
            self.truncated = Some(number);
        }
        Ok(())
    }

    /// Takes out the next piece, if it is held.
    pub(crate) fn deliver(&mut self) -> Option<Piece<C>>
        ensures piece { result ≡ held_at self.old self.old.next }
        ensures none { IfNone result (self.new ≡ self.old) }
        ensures some { IfSome result (λ _. Advances self.old self.new) }
    {
        let piece = match self.ready.take() {
            Some(piece) => piece,
            None => self.later.remove(&self.next)?,
        };
        self.next += 1;
        Some(piece)
    }

    /// Returns the number of the piece that is delivered next.
    pub(crate) fn next(&self) -> u64
        ensures { result ≡ self.now.next }
    {
        self.next
    }

    /// Returns true if the next piece is held.
    pub(crate) fn is_ready(&self) -> bool
        ensures { result ≡ is_ready self.now }
    {
        self.ready.is_some() || self.later.contains_key(&self.next)
    }

    /// Returns true once the closing piece was delivered.
    pub(crate) fn is_closed(&self) -> bool
        ensures { result ≡ is_buffer_closed self.now }
    {
        self.is_closed_before(self.next())
    }

    /// Returns true once the closing piece was delivered, if it is marked Cut.
    pub(crate) fn is_truncated(&self) -> bool
        ensures { result ≡ is_buffer_truncated self.now }
    {
        is_below(self.truncated, self.next)
    }
}
