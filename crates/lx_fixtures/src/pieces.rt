//! Pieces of plans, and foreign pieces among them.

ghost use Rattle.std.specs.Prelude.{◌≡◌, ◌<◌, IfOk};
ghost use Rattle.lx_piece.specs.Arrivals.{AreHonest};
ghost use Rattle.lx_piece.specs.Pieces.{IsPieceOf};
ghost use Rattle.lx_piece.specs.Plans.{files_of};

use lx_piece::{Cutter, Items, Mark, Piece, Plan};
use std::alloc::{AllocError, Global};

/// Returns a piece without items.
pub fn piece(alloc: Global, run: u64, file: u32, number: u64, mark: Mark) -> Piece
    ensures run { result.run ≡ run }
    ensures file { result.file ≡ file }
{
    Piece {
        run,
        file,
        number,
        mark,
        items: Items::from_vec(Vec::new(alloc)),
    }
}

/// Returns the first piece of a file.
pub fn first_piece(alloc: Global, plan: &Plan, file: u32) -> Result<Piece, AllocError>
    requires { file < files_of plan.now }
    ensures { IfOk result (IsPieceOf plan.now) }
{
    match Cutter::new(alloc, plan, file).next_piece(plan)? {
        Some(piece) => Ok(piece),
        None => unreachable!(),
    }
}

/// Returns the pieces of two files of one piece each, with a piece of another run and one of another file between them.
pub fn among_strangers(alloc: Global, plan: &Plan) -> Result<Vec<Piece>, AllocError>
    requires run { plan.now.run ≡ 1 }
    requires files { files_of plan.now ≡ 2 }
    ensures { IfOk result (λ pieces. AreHonest plan.now pieces.items) }
{
    let mut pieces = Vec::new(alloc);
    pieces.push(first_piece(alloc, plan, 1)?)?;
    pieces.push(piece(alloc, 2, 0, 0, Mark::Whole))?;
    pieces.push(piece(alloc, 1, 9, 0, Mark::Whole))?;
    pieces.push(first_piece(alloc, plan, 0)?)?;
    Ok(pieces)
}
