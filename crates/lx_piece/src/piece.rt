//! A piece of a file, and its mark.

ghost use Rattle.std.specs.Prelude.{◌≡◌};

use crate::items::Items;

/// The mark of a piece: it is the last one of its file or not, and the file was read to its end or not.
#[derive(Clone, Copy, Debug, PartialEq, Eq)]
pub enum Mark {
    /// Further pieces of the file follow.
    More,
    /// The last piece of a file that was read to its end.
    Whole,
    /// The last piece of a file whose reading failed after these bytes.
    Cut,
}

/// A part of the items of a file.
#[derive(Debug, Drop)]
pub struct Piece<C = Items> {
    /// Number of the run to which the piece belongs.
    pub run: u64,
    /// Number of the file, from 0.
    pub file: u32,
    /// Number of the piece in its file, from 0.
    pub number: u64,
    pub mark: Mark,
    /// The items, or what a maker made of them.
    pub items: C,
}

impl<C> Piece<C> {
    ghost use Rattle.lx_piece.specs.Pieces.{is_closing, is_cut_short};

    /// Returns true if no piece of the file follows.
    pub fn is_closing(&self) -> bool
        ensures { result ≡ is_closing self.now }
    {
        match self.mark {
            Mark::More => false,
            Mark::Whole | Mark::Cut => true,
        }
    }

    /// Returns true if no piece of the file follows and the file's reading failed.
    pub fn is_cut_short(&self) -> bool
        ensures { result ≡ is_cut_short self.now }
    {
        match self.mark {
            Mark::More | Mark::Whole => false,
            Mark::Cut => true,
        }
    }
}
