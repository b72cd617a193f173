//! Puts the pieces of a run in order.

ghost use Rattle.std.specs.Prelude.{◌≡◌, ◌<◌, ◌≤◌, ◌⊎◌, ℕ, List, [], ◌∷◌, ◌++◌, length, MatchOption, MatchResult, OnOk, IfErr, IfOk, IfNone, IsTrue, slice_get, slice_index, false, true, All, replicate, ◌↔◌, Some, None};
ghost use Rattle.lx_piece.specs.declared.piece.Piece.{Piece};
ghost use Rattle.lx_piece.specs.Arrivals.{IsClosedBelow, IsTruncatedBelow};
ghost use Rattle.lx_piece.specs.Pieces.{top_number};
ghost use Rattle.lx_piece.specs.Plans.{max_files};
ghost use Rattle.lx_piece.specs.Kept.{Buffered, StandsFor, Delivers, NoneReady, KeepsIn, IsReadySet, fresh_buffer, has_number, is_buffer_closed, is_buffer_truncated, delivered_counts, accepted_by, cause_by};

use crate::ready_files::ReadyFiles;
use crate::reorder_buffer::ReorderBuffer;
use crate::reply::{Refused, Why};
use crate::{Items, Piece};
use std::alloc::{AllocError, Global};
use std::marker::Model;

/// Holds the piece in its file's buffer. Returns the piece if an allocation fails.
fn keep_in<C: Drop>(
    buffers: &mut Vec<ReorderBuffer<C>>,
    ready: &mut ReadyFiles,
    piece: Piece<C>,
) -> Result<(), Piece<C>>
    requires file { piece.file < length buffers.old.items }
    requires countable { piece.number < top_number }
    requires ready_set { IsReadySet buffers.old.items ready.old }
    requires new { (buffer : Buffered C) → slice_get buffers.old.items piece.file ≡ Some buffer
        → has_number buffer piece.number ≡ false }
    ensures ok { OnOk result (KeepsIn buffers.old.items piece buffers.new.items) }
    ensures err { IfErr result (λ back. (back ≡ piece) × (buffers.new.items ≡ buffers.old.items)) }
    ensures ready_set { IsReadySet buffers.new.items ready.new }
{
    let file = piece.file;
    let buffer = &mut buffers[file as usize];
    let is_next = piece.number == buffer.next();
    if is_next && ready.insert(file).is_err() {
        return Err(piece);
    }
    match buffer.keep(piece) {
        Ok(()) => Ok(()),
        Err(piece) => {
            if is_next {
                ready.remove(file);
            }
            Err(piece)
        }
    }
}

/// Takes out the next piece of the lowest file that holds it.
fn deliver_lowest<C: Drop>(
    buffers: &mut Vec<ReorderBuffer<C>>,
    ready: &mut ReadyFiles,
) -> Option<Piece<C>>
    requires { IsReadySet buffers.old.items ready.old }
    ensures delivered { MatchOption result
        (NoneReady buffers.old.items × (buffers.new.items ≡ buffers.old.items))
        (λ p. (file : ℕ) × Delivers buffers.old.items file p buffers.new.items) }
    ensures ready_set { IsReadySet buffers.new.items ready.new }
{
    let file = ready.first()?;
    let buffer = &mut buffers[file as usize];
    let piece = buffer.deliver()?;
    if !buffer.is_ready() {
        ready.remove(file);
    }
    Some(piece)
}

fn fresh_buffers<C: Drop>(alloc: Global, files: u32) -> Result<Vec<ReorderBuffer<C>>, AllocError>
    ensures { IfOk result (λ buffers. buffers.items ≡ replicate files fresh_buffer) }
{
    let mut buffers = Vec::new(alloc);
    for _file in 0..files {
        buffers.push(ReorderBuffer::new(alloc))?;
    }
    Ok(buffers)
}

/// A collector, which puts the pieces of a run's files in order.
#[derive(Drop)]
pub struct Collector<C = Items> {
    run: u64,
    buffers: Vec<ReorderBuffer<C>>,
    ready: ReadyFiles,
}

impl<C> Model for Collector<C> {
    ghost use Rattle.lx_piece.specs.Kept.{Kept, IsReadySet};

    ghost Value = { Kept C };

    ghost view = { λ s. record { run = s.run; buffers = s.buffers.items } };

    ghost invariant = { λ s. IsReadySet s.buffers.items s.ready };
}

impl Collector {
    /// Returns a collector of pieces that carry their items. No piece has come to it.
    pub fn new(alloc: Global, run: u64, files: u32) -> Result<Collector, AllocError>
        requires some { 0 < files }
        requires few { files ≤ max_files }
        ensures kept { IfOk result
            (λ c. c ≡ record { run = run; buffers = replicate files fresh_buffer }) }
        ensures stands { IfOk result (λ c. StandsFor c []) }
    {
        Collector::of(alloc, run, files)
    }
}

impl<C: Drop> Collector<C> {
    /// Returns a collector to which no piece has come.
    pub fn of(alloc: Global, run: u64, files: u32) -> Result<Collector<C>, AllocError>
        requires some { 0 < files }
        requires few { files ≤ max_files }
        ensures kept { IfOk result
            (λ c. c ≡ record { run = run; buffers = replicate files fresh_buffer }) }
        ensures stands { IfOk result (λ c. StandsFor c []) }
    {
        Ok(Collector {
            run,
            buffers: fresh_buffers(alloc, files)?,
            ready: ReadyFiles::new(alloc),
        })
    }

    /// Returns the first cause against a piece.
    fn cause(&self, piece: &Piece<C>) -> Option<Why>
        ensures first { (came : List (Piece C)) → StandsFor self.now came
            → result ≡ cause_by self.now came piece.now }
        ensures file { IfNone result (piece.now.file < length self.now.buffers) }
        ensures countable { IfNone result (piece.now.number < top_number) }
        ensures new { IfNone result ((buffer : Buffered C)
            → slice_get self.now.buffers piece.now.file ≡ Some buffer
            → has_number buffer piece.now.number ≡ false) }
    {
        if piece.run != self.run {
            return Some(Why::WrongRun);
        }
        if piece.file as usize >= self.buffers.len() {
            return Some(Why::UnknownFile);
        }
        let buffer = &self.buffers[piece.file as usize];
        buffer.cause(piece)
    }

    /// Accepts a piece, or returns it with the cause. A rejected piece changes nothing.
    pub fn offer(&mut self, piece: Piece<C>) -> Result<(), Refused<C>>
        // Apart from memory, the reply is the one to this piece after all that came before.
        ensures reply { (came : List (Piece C)) → StandsFor self.old came → MatchResult result
            (λ _. cause_by self.old came piece ≡ None)
            (λ refused. (refused.why ≡ Why.Memory) ⊎ (cause_by self.old came piece ≡ Some refused.why)) }
        // Memory is the last cause in the order.
        ensures memory { (came : List (Piece C)) → StandsFor self.old came → IfErr result
            (λ refused. refused.why ≡ Why.Memory → cause_by self.old came piece ≡ None) }
        ensures ok { (came : List (Piece C)) → StandsFor self.old came
            → OnOk result (StandsFor self.new (came ++ piece ∷ [])) }
        ensures kept { OnOk result (KeepsIn self.old.buffers piece self.new.buffers) }
        ensures run { self.new.run ≡ self.old.run }
        ensures err { IfErr result (λ refused. (refused.piece ≡ piece) × (self.new ≡ self.old)) }
    {
        if let Some(why) = self.cause(&piece) {
            return Err(Refused { why, piece });
        }
        match keep_in(&mut self.buffers, &mut self.ready, piece) {
            Ok(()) => Ok(()),
            Err(piece) => Err(Refused {
                why: Why::Memory,
                piece,
            }),
        }
    }

    /// Takes out the next piece of the lowest file that holds it, if there is one.
    pub fn deliver(&mut self) -> Option<Piece<C>>
        ensures delivered { MatchOption result (NoneReady self.old.buffers × (self.new ≡ self.old))
            (λ p. (file : ℕ) × Delivers self.old.buffers file p self.new.buffers) }
        ensures run { self.new.run ≡ self.old.run }
        ensures stands { (came : List (Piece C)) → StandsFor self.old came
            → StandsFor self.new came }
    {
        deliver_lowest(&mut self.buffers, &mut self.ready)
    }

    /// Returns true once the closing piece of the file was delivered.
    pub fn is_closed(&self, file: u32) -> bool
        requires { file < length self.now.buffers }
        ensures buffer { (buffer : Buffered C) → slice_get self.now.buffers file ≡ Some buffer
            → result ≡ is_buffer_closed buffer }
        ensures closed { (came : List (Piece C)) → StandsFor self.now came → IsTrue result ↔
            IsClosedBelow (accepted_by self.now came) file (slice_index (delivered_counts self.now) file) }
    {
        let buffer = &self.buffers[file as usize];
        buffer.is_closed()
    }

    /// Returns true once the closing piece of the file was delivered, if it is marked Cut.
    pub fn is_cut(&self, file: u32) -> bool
        requires { file < length self.now.buffers }
        ensures buffer { (buffer : Buffered C) → slice_get self.now.buffers file ≡ Some buffer
            → result ≡ is_buffer_truncated buffer }
        ensures cut { (came : List (Piece C)) → StandsFor self.now came → IsTrue result ↔
            IsTruncatedBelow (accepted_by self.now came) file (slice_index (delivered_counts self.now) file) }
    {
        let buffer = &self.buffers[file as usize];
        buffer.is_truncated()
    }

    /// Returns true once the closing piece of each file was delivered.
    pub fn all_closed(&self) -> bool
        ensures buffers { IsTrue result
            ↔ All (λ buffer. is_buffer_closed buffer ≡ true) self.now.buffers }
        ensures closed { (came : List (Piece C)) → StandsFor self.now came → IsTrue result ↔ ((file : ℕ) → file < length self.now.buffers →
            IsClosedBelow (accepted_by self.now came) file (slice_index (delivered_counts self.now) file)) }
    {
        all_buffers_closed(&self.buffers)
    }
}

fn all_buffers_closed<C: Drop>(buffers: &[ReorderBuffer<C>]) -> bool
    ensures { IsTrue result ↔ All (λ buffer. is_buffer_closed buffer ≡ true) buffers.now }
{
    buffers.iter().all(|buffer| buffer.is_closed())
}
