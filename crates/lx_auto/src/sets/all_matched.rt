//! Finds all rules that a set of positions matches.

ghost use Rattle.std.specs.Prelude.{◌≡◌, ◌<◌, ◌≤◌, ℕ, List, IfOk, OnOk, false, length};
ghost use Rattle.lx_auto.specs.Following.{IsMatchedAt};
ghost use Rattle.lx_auto.specs.Marking as plain;
ghost use Rattle.lx_auto.specs.PositionSets.{NumberedRule};
ghost use Rattle.lx_auto.specs.RuleLists.{AreMatchedAt, AreMatchedBy};
ghost use Rattle.lx_auto.specs.RuleParts.{ArePartsOf};
ghost use Rattle.lx_auto.specs.SetSteps.{IsMatchedBy};

use crate::rules::rule_part::RulePart;
use crate::sets::bare::NOWHERE;
use crate::sets::set_steps::{mark, step_rule, unmark};
use crate::sets::set_table::RuleList;
use smallvec::SmallVec;
use std::alloc::{AllocError, Global};

// Returns the rules from `first` on of which a marked position ends a word, in ascending order. Keeps no flags of positions that can be read next.
fn matched_from(
    alloc: Global,
    parts: &[RulePart],
    first: usize,
    marks: &[bool],
) -> Result<RuleList, AllocError>
    requires few { length parts.now ≤ 65536 }
    ensures { (rules : List NumberedRule) (total : ℕ) → ArePartsOf parts.now rules total
        → ((i : ℕ) → i < first → IsMatchedAt rules marks.now i → ⊥)
        → IfOk result (λ found. AreMatchedAt rules marks.now (length rules) found.items) }
{
    let mut found = SmallVec::new(alloc);
    let mut reads = Vec::new(alloc);
    for i in first..parts.len() {
        let matched = step_rule(alloc, &parts[i], marks, NOWHERE, &mut reads)?;
        if !matched {
            continue;
        }
        found.push(i as u16)?;
    }
    Ok(found)
}

/// Returns all rules of which a position of the set ends a word, in ascending order. `first` is the earliest of them. No flag is set before and after.
pub(crate) fn matched_rules(
    alloc: Global,
    parts: &[RulePart],
    first: usize,
    set: &[u16],
    marks: &mut Vec<bool>,
) -> Result<RuleList, AllocError>
    requires few { length parts.now ≤ 65536 }
    requires clear { (q : ℕ) → plain.flag marks.old.items q ≡ false }
    ensures matched { (rules : List NumberedRule)
        → ArePartsOf parts.now rules (length marks.old.items)
        → ((i : ℕ) → i < first → IsMatchedBy rules set.now i → ⊥)
        → IfOk result (λ found. AreMatchedBy rules set.now found.items) }
    ensures long { OnOk result (length marks.new.items ≡ length marks.old.items) }
    ensures clear { OnOk result ((q : ℕ) → plain.flag marks.new.items q ≡ false) }
{
    mark(marks, set);
    let found = matched_from(alloc, parts, first, marks)?;
    unmark(marks, set);
    Ok(found)
}
