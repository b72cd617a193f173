//! Pieces of later files. They wait, and are passed on once the files before them are closed.

ghost use Rattle.std.specs.Prelude.{◌≡◌, ◌<◌, ◌≤◌, ◌==◌, ◌∷◌, [], ◌++◌, ℕ, List, OnOk, IfOk, IfErr, length, slice_set};
ghost use Rattle.lx_piece.specs.Pieces.{pieces_of};
ghost use Rattle.lx_piece.specs.Plans.{IsPlan, files_of};
ghost use Rattle.lx_piece.specs.NextPiece.{IsNextPieceBy};
ghost use Rattle.lx_piece.specs.Turns.{turn_at};
ghost use Rattle.lx_piece.specs.Waiting.{AreFirstPieces, KeepsUp, TookWaiting, Waits, counted, queued, waiting_of};
ghost use Rattle.lx_piece.specs.declared.reader.ReaderFault.{ReaderFault};

use crate::reader::ReaderFault;
use crate::taker::Taker;
use crate::{Maker, Piece, Plan};
use std::collections::VecDeque;

// Passes on the waiting pieces of a file. Returns true if its closing piece was among them.
fn take_queue<M: Maker, T: Taker<M>>(
    taker: &mut T,
    plan: &Plan,
    file: u32,
    queue: &mut VecDeque<Piece<M::Made>>,
    bytes: &mut u64,
) -> Result<bool, ReaderFault>
    requires same { plan.now ≡ T.plan taker.old }
    requires file { file < files_of (T.plan taker.old) }
    requires queue { AreFirstPieces M.made (T.plan taker.old) file queue.old.items }
    requires turn { T.turn taker.old ≡ record { file = file; number = 0 } }
    ensures plan { T.plan taker.new ≡ T.plan taker.old }
    ensures closed { IfOk result
        (λ closed. closed ≡ (length queue.old.items == pieces_of (T.plan taker.old) file)) }
    ensures turn { OnOk result
        (T.turn taker.new ≡ turn_at (T.plan taker.old) file (length queue.old.items)) }
    ensures follows { OnOk result (T.follows taker.old taker.new) }
    ensures fails { IfErr result (λ fault. T.fails taker.old fault taker.new) }
{
    let mut closed = false;
    while let Some(piece) = queue.pop_front() {
        *bytes = bytes.saturating_sub(M::weight(&piece.items));
        closed = piece.is_closing();
        taker.take(plan, piece)?;
    }
    Ok(closed)
}

// Passes on the waiting pieces of the files from `from` on, up to the first file that this doesn't close. Returns that file, or the number of files.
fn take_waiting<M: Maker, T: Taker<M>>(
    taker: &mut T,
    plan: &Plan,
    from: u32,
    waiting: &mut Vec<VecDeque<Piece<M::Made>>>,
    bytes: &mut u64,
) -> Result<u32, ReaderFault>
    requires same { plan.now ≡ T.plan taker.old }
    requires from { from ≤ files_of (T.plan taker.old) }
    requires few { files_of (T.plan taker.old) < 4294967296 }
    requires waits { Waits M.made (T.plan taker.old) from (queued waiting.old.items) }
    requires turn { T.turn taker.old ≡ record { file = from; number = 0 } }
    ensures plan { T.plan taker.new ≡ T.plan taker.old }
    ensures took { IfOk result (λ next.
        TookWaiting (T.plan taker.old) from (queued waiting.old.items) next
        (queued waiting.new.items) (T.turn taker.new)) }
    ensures follows { OnOk result (T.follows taker.old taker.new) }
    ensures fails { IfErr result (λ fault. T.fails taker.old fault taker.new) }
{
    let mut file = from;
    while (file as usize) < waiting.len() {
        if !take_queue::<M, T>(taker, plan, file, &mut waiting[file as usize], bytes)? {
            return Ok(file);
        }
        file += 1;
    }
    Ok(file)
}

// Keeps a piece of a later file.
fn hold<M: Maker>(
    waiting: &mut Vec<VecDeque<Piece<M::Made>>>,
    piece: Piece<M::Made>,
    bytes: &mut u64,
) -> Result<(), ReaderFault>
    requires { piece.file < length waiting.old.items }
    ensures held { OnOk result (queued waiting.new.items
        ≡ slice_set (queued waiting.old.items) piece.file
        (waiting_of (queued waiting.old.items) piece.file ++ piece ∷ [])) }
    ensures memory { IfErr result (λ fault. fault ≡ ReaderFault.Memory) }
{
    let weight = M::weight(&piece.items);
    let queue = &mut waiting[piece.file as usize];
    match queue.push_back(piece) {
        Ok(()) => {
            *bytes = bytes.saturating_add(weight);
            Ok(())
        }
        Err(_) => Err(ReaderFault::Memory),
    }
}

/// Takes the next piece of a file. If its file comes after the first open one, keeps the piece. Otherwise passes it on. After a closing piece, also
/// passes on the waiting pieces of the next files, up to the first file that stays open. Returns the first open file. Keeps `bytes` up to date with
/// what waits.
pub fn place<M: Maker, T: Taker<M>>(
    taker: &mut T,
    plan: &Plan,
    first: u32,
    waiting: &mut Vec<VecDeque<Piece<M::Made>>>,
    bytes: &mut u64,
    piece: Piece<M::Made>,
) -> Result<u32, ReaderFault>
    requires same { plan.now ≡ T.plan taker.old }
    requires plan { IsPlan (T.plan taker.old) }
    requires next { (counts : List ℕ)
        × KeepsUp M.made (T.plan taker.old) (T.turn taker.old) counts first
        (queued waiting.old.items) × IsNextPieceBy M.made (T.plan taker.old) counts piece }
    ensures plan { T.plan taker.new ≡ T.plan taker.old }
    ensures placed { (counts : List ℕ) → KeepsUp M.made (T.plan taker.old) (T.turn taker.old) counts first (queued waiting.old.items) → IsNextPieceBy M.made (T.plan taker.old) counts piece →
        IfOk result (λ next. KeepsUp M.made (T.plan taker.old) (T.turn taker.new) (counted counts piece.file) next (queued waiting.new.items)) }
    ensures follows { OnOk result (T.follows taker.old taker.new) }
    ensures fails { IfErr result (λ fault. T.fails taker.old fault taker.new) }
{
    if piece.file != first {
        hold::<M>(waiting, piece, bytes)?;
        return Ok(first);
    }
    let closes = piece.is_closing();
    taker.take(plan, piece)?;
    if !closes {
        return Ok(first);
    }
    take_waiting::<M, T>(taker, plan, first + 1, waiting, bytes)
}
