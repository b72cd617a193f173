//! Finds the positions after a set of positions, and those with which a start begins.

ghost use Rattle.std.specs.Prelude.{◌≡◌, ◌≤◌, ◌<◌, ◌+◌, ℕ, Bool, true, false, List, IfOk, OnOk, length};
ghost use Rattle.lx_rules.specs.Plain.{PlainSpec};
ghost use Rattle.lx_auto.specs.Blocks.{IsClear};
ghost use Rattle.lx_auto.specs.Marking as plain;
ghost use Rattle.lx_auto.specs.PositionSets.{NumberedRule};
ghost use Rattle.lx_auto.specs.RuleParts.{IsPartOf, ArePartsOf, AreReadsOf};
ghost use Rattle.lx_rules.specs.Starts.{AreActive};
ghost use Rattle.lx_auto.specs.Following.{AreNumbered};
ghost use Rattle.lx_auto.specs.Sets.{AreFollowing, AreFirst, IsEarliestMatched};

use crate::rules::rule_part::RulePart;
use crate::sets::marking::flag;
use crate::sets::set_steps::{clear_flags, mark, places_of, step_rules, unmark};
use std::alloc::{AllocError, Global};

/// The positions after a set of positions, and the rule that it matches.
#[derive(Drop)]
pub(crate) struct Followers {
    /// Positions that can come after those of the set, in ascending order.
    pub(crate) next: Vec<u16>,
    /// Earliest rule of which a position of the set ends a word.
    pub(crate) matched: Option<usize>,
}

/// Finds the positions after a set of positions, and the rule that it matches. `rules_at` has the rule of each position, only as a hint. The flags
/// are of all positions. None is set before and after, so that they can be reused for each set.
pub(crate) fn follow(
    alloc: Global,
    parts: &[RulePart],
    rules_at: &[u16],
    set: &[u16],
    marks: &mut Vec<bool>,
    reads: &mut Vec<bool>,
) -> Result<Followers, AllocError>
    requires few { length reads.old.items ≤ 65536 }
    requires long { length marks.old.items ≡ length reads.old.items }
    requires clear { (q : ℕ) → plain.flag marks.old.items q ≡ false }
    ensures next { (spec : PlainSpec) (rules : List NumberedRule) → AreNumbered spec rules
        → ArePartsOf parts.now rules (length reads.old.items)
        → ((q : ℕ) → plain.flag reads.old.items q ≡ false)
        → IfOk result (λ found. AreFollowing rules set.now found.next.items) }
    ensures matched { (spec : PlainSpec) (rules : List NumberedRule) → AreNumbered spec rules
        → ArePartsOf parts.now rules (length reads.old.items)
        → IfOk result (λ found. IsEarliestMatched rules set.now found.matched) }
    ensures long_marks { OnOk result (length marks.new.items ≡ length marks.old.items) }
    ensures long_reads { OnOk result (length reads.new.items ≡ length reads.old.items) }
    ensures clear_marks { OnOk result ((q : ℕ) → plain.flag marks.new.items q ≡ false) }
    ensures clear_reads { (spec : PlainSpec) (rules : List NumberedRule) → AreNumbered spec rules
        → ArePartsOf parts.now rules (length reads.old.items)
        → ((q : ℕ) → plain.flag reads.old.items q ≡ false)
        → OnOk result ((q : ℕ) → plain.flag reads.new.items q ≡ false) }
{
    mark(marks, set);
    let mut next = Vec::new(alloc);
    let matched = step_rules(alloc, parts, rules_at, set, marks, reads, &mut next)?;
    unmark(marks, set);
    unmark(reads, &next);
    Ok(Followers { next, matched })
}

/// Finds the positions with which the rules that are active at a start can begin, in ascending order. `active` has a flag for each rule.
pub(crate) fn begin(
    alloc: Global,
    parts: &[RulePart],
    total: usize,
    active: &[bool],
) -> Result<Vec<u16>, AllocError>
    requires { total ≤ 65536 }
    ensures { (spec : PlainSpec) (condition : ℕ) (begin : Bool) (rules : List NumberedRule)
        → AreNumbered spec rules → ArePartsOf parts.now rules total
        → AreActive spec condition begin active.now
        → IfOk result (λ first. AreFirst spec rules condition begin first.items) }
{
    let marks = clear_flags(alloc, total)?;
    let mut reads = clear_flags(alloc, total)?;
    for i in 0..parts.len() {
        begin_rule(alloc, &parts[i], flag(active, i), &marks, &mut reads)?;
    }
    let first = places_of(alloc, &reads)?;
    Ok(first)
}

// Marks the first positions of a rule, if it is active.
fn begin_rule(
    alloc: Global,
    part: &RulePart,
    is_active: bool,
    marks: &[bool],
    reads: &mut Vec<bool>,
) -> Result<(), AllocError>
    ensures long { OnOk result (length reads.new.items ≡ length reads.old.items) }
    ensures inactive { is_active ≡ false → OnOk result (reads.new.items ≡ reads.old.items) }
    ensures active { is_active ≡ true → (r : NumberedRule) → IsPartOf part.now r
        → part.now.base + part.now.count ≤ length reads.old.items
        → IsClear reads.old.items part.now.base (part.now.base + part.now.count)
        → OnOk result (AreReadsOf r marks.now true reads.old.items reads.new.items) }
{
    if is_active {
        part.follow(alloc, marks, true, reads)?;
    }
    Ok(())
}
