//! Steps from the marked positions of a rule to those that can be read next.

ghost use Rattle.std.specs.Prelude.{◌≡◌, ◌+◌, ◌<◌, ◌≤◌, ◌^◌, ◌↔◌, [], ◌∷◌, ℕ, IfOk, OnOk, true, false, length, reverse};
ghost use Rattle.lx_auto.specs.Marking as plain;
ghost use Rattle.lx_auto.specs.NodeViews.{nodes_view};
ghost use Rattle.lx_auto.specs.PositionSets.{NumberedRule};
ghost use Rattle.lx_auto.specs.Positions.{CanEnd};
ghost use Rattle.lx_auto.specs.RuleParts.{IsPartOf, AreReadsOf};
ghost use Rattle.lx_auto.specs.Blocks.{IsClear};
ghost use Rattle.lx_auto.specs.Counts.{newline_count};
ghost use Rattle.lx_auto.specs.Following.{FollowsMarked, EndsMarked, ReadsRule};

use crate::rules::block_steps::{find_all_ends, last_flags, read_blocks};
use crate::rules::rule_part::RulePart;
use crate::sets::marking::{ends_of, flag, has_flag, mark_reads, set_flag};
use crate::unfolding::node::Node;
use std::alloc::{AllocError, Global};

// Tests for each node of an outline if a word that ends in one of its blocks can end there. If none ends in a block, as in most sets, all flags are
// false.
fn outline_ends(
    alloc: Global,
    outline: &[Node],
    nulls: &[bool],
    at_blocks: &[bool],
) -> Result<Vec<bool>, AllocError>
    ensures { IfOk result (λ ends.
        ends.items ≡ plain.ends_from nulls.now at_blocks.now 0 (nodes_view outline.now) []) }
{
    if has_flag(at_blocks, 0, at_blocks.len()) {
        return ends_of(alloc, outline, nulls, at_blocks, 0);
    }
    vec![in alloc; false; outline.len()]
}

// Sets for each block of an outline if it is entered. None is if the outline isn't entered and nothing ends in it.
fn mark_entered(
    alloc: Global,
    outline: &[Node],
    nulls: &[bool],
    ends: &[bool],
    entered: bool,
    end: usize,
    enters: &mut Vec<bool>,
) -> Result<(), AllocError>
    requires clear { (q : ℕ) → plain.flag enters.old.items q ≡ false }
    ensures long { OnOk result (length enters.new.items ≡ length enters.old.items) }
    ensures set { OnOk result (enters.new.items
        ≡ plain.reads_from nulls.now ends.now (reverse (nodes_view outline.now)) (entered ∷ [])
        end enters.old.items) }
{
    if entered || has_flag(ends, 0, ends.len()) {
        return mark_reads(alloc, outline, nulls, ends, entered, end, enters);
    }
    Ok(())
}

impl RulePart<'_> {
    /// Returns true if a position of the rule is marked.
    pub(crate) fn is_touched(&self, marks: &[bool]) -> bool
        ensures { result ≡ false → (q : ℕ) → self.now.base ≤ q
            → q < self.now.base + self.now.count + 1 → plain.flag marks.now q ≡ false }
    {
        has_flag(marks, self.base, self.count + 1)
    }

    /// Sets for each position of the pattern if it can be read next: after a marked one, or at the pattern's start if that is entered. Returns true
    /// if a marked position can be the last one in the pattern.
    pub(crate) fn follow(
        &self,
        alloc: Global,
        marks: &[bool],
        entered: bool,
        reads: &mut Vec<bool>,
    ) -> Result<bool, AllocError>
        ensures long { OnOk result (length reads.new.items ≡ length reads.old.items) }
        ensures ended { (r : NumberedRule) → IsPartOf self.now r → IfOk result (λ ended.
            (ended ≡ true) ↔ CanEnd (λ p. plain.flag marks.now p ≡ true) r.tree r.base) }
        ensures reads { (r : NumberedRule) → IsPartOf self.now r
            → self.now.base + self.now.count ≤ length reads.old.items
            → IsClear reads.old.items self.now.base (self.now.base + self.now.count)
            → OnOk result (AreReadsOf r marks.now entered reads.old.items reads.new.items) }
    {
        // Most sets touch few blocks. Only these are visited node by node, and the outline determines which other blocks are entered.
        let blocks = self.blocks.as_slice();
        let at_nodes = find_all_ends(alloc, blocks, marks)?;
        let at_blocks = last_flags(alloc, &at_nodes)?;
        let outline = self.outline.as_slice();
        let nulls = self.nulls.as_slice();
        let at_outline = outline_ends(alloc, outline, nulls, &at_blocks)?;
        let ends = at_outline.as_slice();
        let mut enters = vec![in alloc; false; blocks.len()]?;
        mark_entered(
            alloc,
            outline,
            nulls,
            ends,
            entered,
            blocks.len(),
            &mut enters,
        )?;
        read_blocks(alloc, blocks, marks, &at_nodes, &enters, reads)?;
        Ok(flag(ends, ends.len().saturating_sub(1)))
    }

    /// Sets for each position of the rule, including the newline of a line end, if it can be read next after a marked one. Returns true if a marked
    /// position ends a word of the rule.
    pub(crate) fn step(
        &self,
        alloc: Global,
        marks: &[bool],
        reads: &mut Vec<bool>,
    ) -> Result<bool, AllocError>
        ensures long { OnOk result (length reads.new.items ≡ length reads.old.items) }
        ensures matched { (r : NumberedRule) → IsPartOf self.now r
            → IfOk result (λ matched. (matched ≡ true) ↔ EndsMarked marks.now r) }
        ensures reads { (r : NumberedRule) → IsPartOf self.now r
            → self.now.base + (self.now.count + newline_count self.now.line_end)
            ≤ length reads.old.items
            → IsClear reads.old.items self.now.base (self.now.base + self.now.count)
            → OnOk result (ReadsRule (FollowsMarked marks.now) r reads.old.items reads.new.items) }
    {
        let ended = self.follow(alloc, marks, false, reads)?;
        if !self.line_end {
            return Ok(ended);
        }
        let newline = self.base + self.count;
        set_flag(reads, newline, ended);
        Ok(flag(marks, newline))
    }
}
