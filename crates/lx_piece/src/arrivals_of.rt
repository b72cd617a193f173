//! Arrivals of pieces that carry what a maker made of their items.

ghost use Rattle.std.specs.Prelude.{◌≡◌, List, [], ◌∷◌, ◌++◌, MatchOption, IfSome};
ghost use Rattle.lx_piece.specs.declared.piece.Piece.{Piece};
ghost use Rattle.lx_piece.specs.Plans.{Planned};
ghost use Rattle.lx_piece.specs.Arrivals.{IsHonestBy};

use crate::arrivals::Arrivals;
use crate::{Held, Items, KeepItems, Maker, Piece};

/// A source of pieces, in any order, that carry what a maker made of their items.
pub trait ArrivalsOf<M: Maker> {
    /// The plan to which the pieces belong.
    ghost plan: { Self → Planned };

    /// The pieces of the list come, in this order, between one state and a later one.
    ghost leads: { Self → List (Piece M.Made) → Self → Type 0 };

    /// No piece comes any more.
    ghost has_ended: { Self → Type 0 };

    /// Returns the next arrival, or `None` at the end. If it has the plan's run and one of its files, it is the plan's piece of that file and number.
    fn next(&mut self) -> Option<Piece<M::Made>>
        ensures plan { plan self.new ≡ plan self.old }
        ensures honest { IfSome result (λ p. IsHonestBy M.made (plan self.old) p) }
        ensures leads { MatchOption result (leads self.old [] self.new × has_ended self.new)
            (λ p. leads self.old (p ∷ []) self.new) };

    /// Learns what the reader holds. Called after each arrival.
    fn hear(&mut self, _held: Held)
        ensures { self.new ≡ self.old }
    {}

    ghost stays: { (s : Self) → leads s [] s };

    ghost goes_on: { (s t u : Self) (xs ys : List (Piece M.Made)) → leads s xs t → leads t ys u → leads s (xs ++ ys) u };
}

// Arrivals of pieces that carry their items.
impl<A: Arrivals> ArrivalsOf<KeepItems> for A {
    ghost plan = { A.plan };

    ghost leads = { A.leads };

    ghost has_ended = { A.has_ended };

    fn next(&mut self) -> Option<Piece<Items>> {
        Arrivals::next(self)
    }

    ghost stays = { A.stays };

    ghost goes_on = { A.goes_on };
}
