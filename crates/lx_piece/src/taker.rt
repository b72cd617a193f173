//! Takers, to which pieces are passed on in the plan's order.

ghost use Rattle.std.specs.Prelude.{◌≡◌, OnOk, IfErr};
ghost use Rattle.lx_piece.specs.declared.reader.ReaderFault.{ReaderFault};
ghost use Rattle.lx_piece.specs.Plans.{Planned};
ghost use Rattle.lx_piece.specs.Turns.{HasTurn, Turn, turn_after};

use crate::reader::ReaderFault;
use crate::{Maker, Piece, Plan};

/// A taker of the pieces of a plan in the plan's order, with what a maker made of their items. It holds none back.
pub trait Taker<M: Maker> {
    /// The plan whose pieces it takes.
    ghost plan: { Self → Planned };

    /// The turn of the piece that it takes next.
    ghost turn: { Self → Turn };

    /// Its effect between one state and a later one, if it took each piece that it was given.
    ghost follows: { Self → Self → Type 0 };

    /// Its effect if it took all but the last piece.
    ghost fails: { Self → ReaderFault → Self → Type 0 };

    /// Takes the piece whose turn it is, of this plan. After an error it gets nothing more.
    fn take(&mut self, whole: &Plan, piece: Piece<M::Made>) -> Result<(), ReaderFault>
        requires same { whole.now ≡ plan self.old }
        requires turn { HasTurn M.made (plan self.old) (turn self.old) piece }
        ensures plan { plan self.new ≡ plan self.old }
        ensures turn { OnOk result (turn self.new ≡ turn_after (plan self.old) (turn self.old)) }
        ensures follows { OnOk result (follows self.old self.new) }
        ensures fails { IfErr result (λ fault. fails self.old fault self.new) };

    ghost follows_itself: { (s : Self) → follows s s };

    ghost follows_on: { (s t u : Self) → follows s t → follows t u → follows s u };

    ghost fails_behind: { (s t u : Self) (fault : ReaderFault) → follows s t → fails t fault u → fails s fault u };

    /// Its effect if an allocation fails before it gets a piece.
    ghost fails_at_once: { (s : Self) → fails s ReaderFault.Memory s };
}
