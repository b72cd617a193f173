//! Steps from the marked positions of blocks to those positions of theirs that can be read next.

ghost use Rattle.std.specs.Prelude.{◌≡◌, ◌+◌, ◌-◌, ◌<◌, ◌≤◌, ℕ, List, [], ◌∷◌, IfOk, OnOk, Bool, false, length, map};
ghost use Rattle.lx_auto.specs.Blocks.{IsBlock, AreBlocks, HasEnds, HaveEnds, IsClear, last_flag, shifted};
ghost use Rattle.lx_auto.specs.Marking as plain;
ghost use Rattle.lx_auto.specs.Outlines as outlines;
ghost use Rattle.lx_auto.specs.Passing.{read_list};
ghost use Rattle.lx_auto.specs.Unfolded.{Unfolded};

use crate::rules::block::Block;
use crate::sets::marking::{ends_of, flag, has_flag, mark_reads, set_flag};
use std::alloc::{AllocError, Global};

impl Block<'_> {
    // Returns true if a position of the block is marked.
    fn is_touched(&self, marks: &[bool]) -> bool
        ensures { result ≡ false → (q : ℕ) → self.now.base ≤ q → q < self.now.base + self.now.count
            → plain.flag marks.now q ≡ false }
    {
        has_flag(marks, self.base, self.count)
    }

    // Tests, for a sequence, if a marked position can be its last one: its last position is marked.
    fn find_last(&self, alloc: Global, marks: &[bool]) -> Result<Vec<bool>, AllocError>
        ensures { IfOk result
            (λ ends. ends.items ≡ plain.flag marks.now (self.now.base + self.now.count - 1) ∷ []) }
    {
        let last = (self.base + self.count).saturating_sub(1);
        let mut ends = Vec::new(alloc);
        ends.push(flag(marks, last))?;
        Ok(ends)
    }

    // Tests for each node if a marked position can be the last one in it. The result has only the last node of a sequence. It is empty if no position
    // of the block is marked.
    fn find_ends(&self, alloc: Global, marks: &[bool]) -> Result<Vec<bool>, AllocError>
        ensures { (e : Unfolded) → IsBlock self.now e
            → IfOk result (λ ends. HasEnds marks.now ends.items self.now e) }
    {
        if !self.is_touched(marks) {
            return Ok(Vec::new(alloc));
        }
        if self.is_sequence {
            let last = self.find_last(alloc, marks)?;
            return Ok(last);
        }
        let ends = ends_of(alloc, &self.nodes, &self.nulls, marks, self.base)?;
        Ok(ends)
    }

    // Marks the next positions of a sequence: its first position if it is entered, and each other one after a marked position.
    fn read_sequence(&self, marks: &[bool], entered: bool, reads: &mut Vec<bool>)
        ensures set { reads.new.items
            ≡ shifted marks.now entered self.now.base self.now.count reads.old.items }
        ensures long { length reads.new.items ≡ length reads.old.items }
    {
        let mut rest = self.count;
        'down: while 1 < rest {
            rest -= 1;
            set_flag(reads, self.base + rest, flag(marks, self.base + rest - 1));
        }
        if 0 < rest {
            set_flag(reads, self.base, entered);
        }
    }

    // Sets for each position of the block if it can be read next. None can be if the block isn't entered and no position of it is marked.
    fn read(
        &self,
        alloc: Global,
        marks: &[bool],
        ends: &[bool],
        entered: bool,
        reads: &mut Vec<bool>,
    ) -> Result<(), AllocError>
        ensures set { (e : Unfolded) → IsBlock self.now e → HasEnds marks.now ends.now self.now e
            → IsClear reads.old.items self.now.base (self.now.base + self.now.count) → OnOk result
            (reads.new.items ≡ read_list marks.now e entered self.now.base reads.old.items) }
        ensures long { OnOk result (length reads.new.items ≡ length reads.old.items) }
    {
        if !entered && ends.is_empty() {
            return Ok(());
        }
        if self.is_sequence {
            self.read_sequence(marks, entered, reads);
            return Ok(());
        }
        let nodes = self.nodes.as_slice();
        let nulls = self.nulls.as_slice();
        let end = self.base + self.count;
        mark_reads(alloc, nodes, nulls, ends, entered, end, reads)?;
        Ok(())
    }
}

/// Tests for each block, and each node of it, if a marked position can be the last one.
pub(crate) fn find_all_ends(
    alloc: Global,
    blocks: &[Block],
    marks: &[bool],
) -> Result<Vec<Vec<bool>>, AllocError>
    ensures { IfOk result (λ ends. HaveEnds marks.now blocks.now ends.items (length blocks.now)) }
{
    let mut ends = Vec::with_capacity(alloc, blocks.len())?;
    for i in 0..blocks.len() {
        ends.push(blocks[i].find_ends(alloc, marks)?)?;
    }
    Ok(ends)
}

/// Tests for each block if a marked position can be its last one.
pub(crate) fn last_flags(alloc: Global, ends: &[Vec<bool>]) -> Result<Vec<bool>, AllocError>
    ensures { IfOk result (λ flags. flags.items ≡ map last_flag ends.now) }
{
    let mut flags = Vec::with_capacity(alloc, ends.len())?;
    for i in 0..ends.len() {
        let own = ends[i].as_slice();
        flags.push(flag(own, own.len().saturating_sub(1)))?;
    }
    Ok(flags)
}

/// Sets for each position of the blocks if it can be read next. `entered` has a flag for each block.
pub(crate) fn read_blocks(
    alloc: Global,
    blocks: &[Block],
    marks: &[bool],
    ends: &[Vec<bool>],
    entered: &[bool],
    reads: &mut Vec<bool>,
) -> Result<(), AllocError>
    requires { length ends.now ≡ length blocks.now }
    ensures set { (es : List Unfolded) (k : ℕ) → AreBlocks blocks.now es k
        → HaveEnds marks.now blocks.now ends.now (length blocks.now)
        → IsClear reads.old.items k (k + outlines.positions_of es) → OnOk result
        (reads.new.items ≡ outlines.read_blocks marks.now entered.now es 0 k reads.old.items) }
    ensures long { OnOk result (length reads.new.items ≡ length reads.old.items) }
{
    let mut rest = blocks.len();
    'down: while 0 < rest {
        rest -= 1;
        blocks[rest].read(alloc, marks, &ends[rest], flag(entered, rest), reads)?;
    }
    Ok(())
}
