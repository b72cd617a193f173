//! Sources of pieces.

ghost use Rattle.std.specs.Prelude.{◌≡◌, List, [], ◌∷◌, ◌++◌, MatchOption, IfSome};
ghost use Rattle.lx_piece.specs.Pieces.{ItemPiece};
ghost use Rattle.lx_piece.specs.Plans.{Planned};
ghost use Rattle.lx_piece.specs.Arrivals.{IsHonest};

use crate::Piece;

/// A source of pieces, in any order. Pieces may come again, and pieces of other runs or files may come.
pub trait Arrivals {
    /// The plan to which the pieces belong.
    ghost plan: { Self → Planned };

    /// The pieces of the list come, in this order, between one state and a later one.
    ghost leads: { Self → List ItemPiece → Self → Type 0 };

    /// No piece comes any more.
    ghost has_ended: { Self → Type 0 };

    /// Returns the next arrival, or `None` at the end. If it has the plan's run and one of its files, it is the plan's piece of that file and number.
    fn next(&mut self) -> Option<Piece>
        ensures plan { plan self.new ≡ plan self.old }
        ensures honest { IfSome result (λ p. IsHonest (plan self.old) p) }
        ensures leads { MatchOption result (leads self.old [] self.new × has_ended self.new)
            (λ p. leads self.old (p ∷ []) self.new) };

    ghost stays: { (s : Self) → leads s [] s };

    ghost goes_on: { (s t u : Self) (xs ys : List ItemPiece) → leads s xs t → leads t ys u → leads s (xs ++ ys) u };
}
