//! Steps from a set of positions to those that can be read next, and to the rule that it matches.

ghost use Rattle.std.specs.Prelude.{◌≡◌, ◌+◌, ◌++◌, ◌<◌, ◌≤◌, ◌↔◌, [], ℕ, List, IfOk, OnOk, Contains, true, false, length, take, drop, min, if◌then◌else◌};
ghost use Rattle.lx_rules.specs.Plain.{PlainSpec};
ghost use Rattle.lx_auto.specs.Blocks.{IsClear};
ghost use Rattle.lx_auto.specs.Counts.{newline_count};
ghost use Rattle.lx_auto.specs.Marking as plain;
ghost use Rattle.lx_auto.specs.Members.{has_member, places_from};
ghost use Rattle.lx_auto.specs.PositionSets.{NumberedRule};
ghost use Rattle.lx_auto.specs.RuleParts.{IsPartOf, ArePartsOf, EndBefore};
ghost use Rattle.lx_auto.specs.Following.{AreNumbered, FollowsMarked, EndsMarked, ReadsOrStays, AreReadBelow, IsFirstMatchedBelow, first_or};

use crate::rules::rule_part::RulePart;
use crate::sets::bare::{Bare, NOWHERE, bare_at, is_rising};
use crate::sets::marking::{has_flag, set_flag};
use std::alloc::{AllocError, Global};

// Number of flags that are tested together. In most sets few are set, so that there are long stretches without one.
const STRETCH: usize = 64;

const LONG_STRETCH: usize = 1_024;

// Limit of the flags that are tested for all rules at once.
const MOST_POSITIONS: usize = 65_536;

// Skips whole unmarked strides. Returns the start of the first stride with a mark, or the end. No flag from `from` up to there is set.
fn skip_unmarked(marks: &[bool], from: usize, stretch: usize) -> usize
    requires some { 0 < stretch }
    requires few { stretch ≤ 1024 }
    ensures later { from ≤ result }
    ensures within { from ≤ length marks.now → result ≤ length marks.now }
    ensures bare { (q : ℕ) → from ≤ q → q < result → plain.flag marks.now q ≡ false }
{
    let mut until = from;
    'stretches: while until < marks.len() && until < MOST_POSITIONS {
        let count = (marks.len() - until).min(stretch);
        if has_flag(marks, until, count) {
            return until;
        }
        until += count;
    }
    until
}

// Skips unmarked flags by strides that fit: short ones near marks, and long ones far from them.
fn bare_until(marks: &[bool], from: usize) -> usize
    ensures later { from ≤ result }
    ensures within { from ≤ length marks.now → result ≤ length marks.now }
    ensures bare { (q : ℕ) → from ≤ q → q < result → plain.flag marks.now q ≡ false }
{
    if from < marks.len() && has_flag(marks, from, STRETCH.min(marks.len() - from)) {
        return from;
    }
    let far = skip_unmarked(marks, from, LONG_STRETCH);
    skip_unmarked(marks, far, STRETCH)
}

// Returns the number of rules from `from` on that can be skipped together, or 0: those before the rule of the range's last position. `rules_at` has
// the rule of each position.
fn untouched_count(parts: &[RulePart], rules_at: &[u16], from: usize, bare: Bare) -> usize
    requires within { from < length parts.now }
    ensures within { from + result ≤ length parts.now }
    ensures bare { 0 < result → EndBefore parts.now (from + result) bare.until }
{
    let wanted = match rules_at.get(bare.until.saturating_sub(1)) {
        Some(rule) => *rule as usize,
        None => parts.len(),
    };
    let end = wanted.min(parts.len());
    if end <= from {
        return 0;
    }
    let last = &parts[end - 1];
    if last.base + last.count < bare.until {
        end - from
    } else {
        0
    }
}

// Returns true if no position of a rule is marked.
fn is_untouched(part: &RulePart, marks: &[bool], bare: Bare) -> bool
    requires bare { (q : ℕ) → bare.from ≤ q → q < bare.until → plain.flag marks.now q ≡ false }
    requires from { bare.from ≤ part.now.base }
    ensures { result ≡ true → (q : ℕ) → part.now.base ≤ q → q < part.now.base + part.now.count + 1
        → plain.flag marks.now q ≡ false }
{
    if part.base + part.count < bare.until {
        return true;
    }
    !part.is_touched(marks)
}

/// Steps one rule. Does nothing if none of its positions is marked. Returns true if a marked position ends a word of the rule.
pub(crate) fn step_rule(
    alloc: Global,
    part: &RulePart,
    marks: &[bool],
    bare: Bare,
    reads: &mut Vec<bool>,
) -> Result<bool, AllocError>
    requires bare { (q : ℕ) → bare.from ≤ q → q < bare.until → plain.flag marks.now q ≡ false }
    requires from { bare.from ≤ part.now.base }
    ensures long { OnOk result (length reads.new.items ≡ length reads.old.items) }
    ensures matched { (r : NumberedRule) → IsPartOf part.now r
        → IfOk result (λ matched. (matched ≡ true) ↔ EndsMarked marks.now r) }
    ensures reads { (r : NumberedRule) → IsPartOf part.now r
        → part.now.base + (part.now.count + newline_count part.now.line_end)
        ≤ length reads.old.items
        → IsClear reads.old.items part.now.base (part.now.base + part.now.count)
        → OnOk result (ReadsOrStays (FollowsMarked marks.now) r reads.old.items reads.new.items) }
{
    if is_untouched(part, marks, bare) {
        return Ok(false);
    }
    let matched = part.step(alloc, marks, reads)?;
    Ok(matched)
}

// Returns the first rule that has matched, given the first one before rule `i`.
fn first_matched(found: Option<usize>, matched: bool, i: usize) -> Option<usize>
    ensures { result ≡ (if matched then first_or found i else found) }
{
    match found {
        Some(first) => Some(first),
        None if matched => Some(i),
        None => None,
    }
}

// Appends the positions of a rule that can be read next, including its newline.
fn push_read(part: &RulePart, reads: &[bool], next: &mut Vec<u16>) -> Result<(), AllocError>
    requires { length reads.now ≤ 65536 }
    ensures { part.now.base ≤ length reads.now → OnOk result (next.new.items
        ≡ next.old.items ++ places_from part.now.base (drop part.now.base (take
        (min (part.now.base + part.now.count + 1) (length reads.now))
        reads.now))) }
{
    let end = (part.base + part.count + 1).min(reads.len());
    let own = &reads[..end];
    push_places_from(own, part.base.min(end), next)?;
    Ok(())
}

/// Sets for each position if it can be read next after a marked one, and appends those positions. All marked positions are members of the set.
/// Returns the first rule of which a marked position ends a word.
pub(crate) fn step_rules(
    alloc: Global,
    parts: &[RulePart],
    rules_at: &[u16],
    set: &[u16],
    marks: &[bool],
    reads: &mut Vec<bool>,
    next: &mut Vec<u16>,
) -> Result<Option<usize>, AllocError>
    requires few { length reads.old.items ≤ 65536 }
    requires members { (q : ℕ) → plain.flag marks.now q ≡ true → Contains set.now q }
    ensures reads { (spec : PlainSpec) (rules : List NumberedRule) → AreNumbered spec rules
        → ArePartsOf parts.now rules (length reads.old.items)
        → ((q : ℕ) → plain.flag reads.old.items q ≡ false) → OnOk result
        (AreReadBelow (FollowsMarked marks.now) rules (length rules) reads.new.items) }
    ensures next { (spec : PlainSpec) (rules : List NumberedRule) → AreNumbered spec rules
        → ArePartsOf parts.now rules (length reads.old.items)
        → ((q : ℕ) → plain.flag reads.old.items q ≡ false) → next.old.items ≡ []
        → OnOk result (next.new.items ≡ places_from 0 reads.new.items) }
    ensures matched { (spec : PlainSpec) (rules : List NumberedRule) → AreNumbered spec rules
        → ArePartsOf parts.now rules (length reads.old.items)
        → IfOk result (λ found. IsFirstMatchedBelow rules marks.now (length rules) found) }
    ensures long { OnOk result (length reads.new.items ≡ length reads.old.items) }
{
    let rising = is_rising(set);
    let mut found = None;
    let mut bare = NOWHERE;
    let mut i = 0;
    'rules: while i < parts.len() {
        let part = &parts[i];
        bare = bare_at(set, rising, bare, part.base);
        let untouched = untouched_count(parts, rules_at, i, bare);
        if untouched > 0 {
            i += untouched;
            continue;
        }
        let matched = step_rule(alloc, part, marks, bare, reads)?;
        push_read(part, reads, next)?;
        found = first_matched(found, matched, i);
        i += 1;
    }
    Ok(found)
}

/// Returns `total` flags, none of them set.
pub(crate) fn clear_flags(alloc: Global, total: usize) -> Result<Vec<bool>, AllocError>
    ensures long { IfOk result (λ flags. length flags.items ≡ total) }
    ensures clear { IfOk result (λ flags. (q : ℕ) → plain.flag flags.items q ≡ false) }
{
    vec![in alloc; false; total]
}

/// Sets the flags of a set of positions. None is set before.
pub(crate) fn mark(marks: &mut Vec<bool>, set: &[u16])
    requires clear { (q : ℕ) → plain.flag marks.old.items q ≡ false }
    ensures long { length marks.new.items ≡ length marks.old.items }
    ensures marks { (q : ℕ) → q < length marks.old.items
        → plain.flag marks.new.items q ≡ has_member set.now q }
{
    for q in set {
        set_flag(marks, *q as usize, true);
    }
}

/// Clears the flags of a set of positions. If no others are set, none is set after it.
pub(crate) fn unmark(flags: &mut Vec<bool>, set: &[u16])
    ensures long { length flags.new.items ≡ length flags.old.items }
    ensures clear { ((q : ℕ) → plain.flag flags.old.items q ≡ true → Contains set.now q) → (q : ℕ)
        → plain.flag flags.new.items q ≡ false }
{
    for q in set {
        set_flag(flags, *q as usize, false);
    }
}

// Appends the numbers of the set flags from `from` up to `end`.
fn push_places(
    flags: &[bool],
    from: usize,
    end: usize,
    places: &mut Vec<u16>,
) -> Result<(), AllocError>
    requires few { length flags.now ≤ 65536 }
    requires order { from ≤ end }
    requires within { end ≤ length flags.now }
    ensures { OnOk result (places.new.items ++ places_from end (drop end flags.now)
        ≡ places.old.items ++ places_from from (drop from flags.now)) }
{
    for i in from..end {
        if flags[i] {
            places.push(i as u16)?;
        }
    }
    Ok(())
}

// Appends the numbers of the set flags from `from` on, in ascending order.
fn push_places_from(flags: &[bool], from: usize, places: &mut Vec<u16>) -> Result<(), AllocError>
    requires few { length flags.now ≤ 65536 }
    requires within { from ≤ length flags.now }
    ensures { OnOk result
        (places.new.items ≡ places.old.items ++ places_from from (drop from flags.now)) }
{
    let mut at = bare_until(flags, from);
    'stretches: while at < flags.len() {
        let end = at + STRETCH.min(flags.len() - at);
        push_places(flags, at, end, places)?;
        at = bare_until(flags, end);
    }
    Ok(())
}

/// Returns the numbers of the set flags, in ascending order.
pub(crate) fn places_of(alloc: Global, flags: &[bool]) -> Result<Vec<u16>, AllocError>
    requires { length flags.now ≤ 65536 }
    ensures { IfOk result (λ places. places.items ≡ places_from 0 flags.now) }
{
    let mut places = Vec::new(alloc);
    push_places_from(flags, 0, &mut places)?;
    Ok(places)
}
