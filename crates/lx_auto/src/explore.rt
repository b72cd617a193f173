//! Explores the position sets that are reached from the starts (Rabin and Scott 1959: the subset construction).

ghost use Rattle.std.specs.Prelude.{◌≡◌, ◌≢◌, ◌+◌, ◌*◌, ◌<◌, ◌≤◌, ◌⊎◌, [], ℕ, List, IfOk, IfErr, OnOk, length, true, false};
ghost use Rattle.lx_ere.specs.Regex.{Regex};
ghost use Rattle.lx_rules.specs.Plain.{PlainSpec};
ghost use Rattle.lx_rules.specs.views.Specs.{spec_view};
ghost use Rattle.lx_auto.specs.PositionTables.{AreStatesOf, ArePositionsOf, IsExploredBy};
ghost use Rattle.lx_auto.specs.Sets.{IsEarliestMatched};
ghost use Rattle.lx_auto.specs.Unfolded.{Unfolded};
ghost use Rattle.lx_auto.specs.Leaves as plain_leaves;
ghost use Rattle.lx_auto.specs.LeafViews.{leaves_view};
ghost use Rattle.lx_auto.specs.Marking as plain_flags;
ghost use Rattle.lx_auto.specs.PositionSets.{numbered};
ghost use Rattle.lx_auto.specs.SetTable.{IsExtendedBy, IsNumbering, IsTarget, set_of};
ghost use Rattle.lx_auto.specs.Exploring as plain;
ghost use Rattle.lx_auto.specs.Exploring.{AddsTarget, AreReachedSets, HasMoreSets, HaveSteps, IsRowOf, start_count, start_number};

use crate::explored::Explored;
use crate::fault::BuildFault;
use crate::rules::rule_numbers::rules_by_position;
use crate::sets::follow::{begin, follow};
use crate::sets::leaf::{Leaf, has};
use crate::sets::position_table::PositionTable;
use crate::sets::set_numbering::{empty_table, number_of};
use crate::sets::set_steps::clear_flags;
use crate::sets::set_table::{PositionSet, SetTable};
use lx_rules::active::active_rules;
use lx_rules::spec::Spec;
use smallvec::SmallVec;
use std::alloc::{AllocError, Global};

// Returns true if a position has the byte.
fn has_byte(leaves: &[Leaf], position: u16, byte: u8) -> bool
    ensures { result ≡ plain_leaves.has_byte (leaves_view leaves.now) position byte }
{
    match leaves.get(position as usize) {
        Some(leaf) => has(leaf, byte),
        None => false,
    }
}

// Returns the positions that have the byte.
fn positions_with_byte(
    alloc: Global,
    leaves: &[Leaf],
    byte: u8,
    from: &[u16],
) -> Result<PositionSet, AllocError>
    ensures { IfOk result
        (λ set. set.items ≡ plain.positions_with_byte (leaves_view leaves.now) byte from.now) }
{
    let mut set = SmallVec::new(alloc);
    for position in from {
        if has_byte(leaves, *position, byte) {
            set.push(*position)?;
        }
    }
    Ok(set)
}

// Adds the target of a state on a byte: the number of the set of those positions that have the byte.
fn add_target(
    alloc: Global,
    leaves: &[Leaf],
    byte: u8,
    from: &[u16],
    table: &mut SetTable,
    targets: &mut Vec<Option<usize>>,
    limit: usize,
) -> Result<(), BuildFault>
    requires numbering { IsNumbering table.old.sets.items table.old.numbers }
    requires room { length table.old.sets.items ≤ limit }
    ensures numbering { OnOk result (IsNumbering table.new.sets.items table.new.numbers) }
    ensures room { OnOk result (length table.new.sets.items ≤ limit) }
    ensures extended_by { OnOk result (IsExtendedBy table.old.sets.items table.new.sets.items
        (plain.positions_with_byte (leaves_view leaves.now) byte from.now)) }
    ensures fresh { OnOk result (length table.new.sets.items ≡ length table.old.sets.items
        ⊎ (plain.positions_with_byte (leaves_view leaves.now) byte from.now ≢ [])
        × ((i : ℕ) → i < length table.old.sets.items → set_of table.old.sets.items i
        ≢ plain.positions_with_byte (leaves_view leaves.now) byte from.now)) }
    ensures target { OnOk result (AddsTarget table.new.sets.items targets.old.items
        targets.new.items (plain.positions_with_byte (leaves_view leaves.now) byte from.now)) }
    ensures many { IfErr result (λ e.
        e ≡ BuildFault.TooManySets → (length table.old.sets.items ≡ limit)
        × (plain.positions_with_byte (leaves_view leaves.now) byte from.now ≢ [])
        × ((i : ℕ) → i < length table.old.sets.items → set_of table.old.sets.items i
        ≢ plain.positions_with_byte (leaves_view leaves.now) byte
        from.now)) }
    ensures few { IfErr result (λ e. e ≢ BuildFault.TooManyPositions) }
{
    let Ok(set) = positions_with_byte(alloc, leaves, byte, from) else {
        return Err(BuildFault::Memory);
    };
    let target = target_of(alloc, table, set, last_number(targets), limit)?;
    let Ok(()) = targets.push(target) else {
        return Err(BuildFault::Memory);
    };
    Ok(())
}

// Returns the number of the set to which the last step leads, if it leads to one.
fn last_number(targets: &[Option<usize>]) -> Option<usize> {
    match targets.last() {
        Some(last) => *last,
        None => None,
    }
}

// Returns true if two sets have the same members.
fn are_equal(set: &PositionSet, other: &PositionSet) -> bool
    ensures { result ≡ true → set.now.items ≡ other.now.items }
{
    set.as_slice() == other.as_slice()
}

// Returns true if a set has this number.
fn has_number(table: &SetTable, set: &PositionSet, number: usize) -> bool
    ensures at { result ≡ true → number < length table.now.sets.items }
    ensures same { result ≡ true → set_of table.now.sets.items number ≡ set.now.items }
{
    match table.sets.get(number) {
        Some(own) => are_equal(own, set),
        None => false,
    }
}

// Returns the target of a step to a set: its number, or none if the set is empty. Tries the likely number first, since many steps of a state lead to
// one set.
fn target_of(
    alloc: Global,
    table: &mut SetTable,
    set: PositionSet,
    likely: Option<usize>,
    limit: usize,
) -> Result<Option<usize>, BuildFault>
    requires numbering { IsNumbering table.old.sets.items table.old.numbers }
    requires room { length table.old.sets.items ≤ limit }
    ensures numbering { OnOk result (IsNumbering table.new.sets.items table.new.numbers) }
    ensures room { OnOk result (length table.new.sets.items ≤ limit) }
    ensures extended_by { OnOk result
        (IsExtendedBy table.old.sets.items table.new.sets.items set.items) }
    ensures fresh { OnOk result (length table.new.sets.items ≡ length table.old.sets.items
        ⊎ (set.items ≢ []) × ((i : ℕ) → i < length table.old.sets.items
        → set_of table.old.sets.items i ≢ set.items)) }
    ensures target { IfOk result (λ t. IsTarget table.new.sets.items t set.items) }
    ensures many { IfErr result (λ e.
        e ≡ BuildFault.TooManySets → (length table.old.sets.items ≡ limit) × (set.items ≢ [])
        × ((i : ℕ) → i < length table.old.sets.items
        → set_of table.old.sets.items i ≢ set.items)) }
    ensures few { IfErr result (λ e. e ≢ BuildFault.TooManyPositions) }
{
    if set.is_empty() {
        return Ok(None);
    }
    if let Some(number) = likely {
        if has_number(table, &set, number) {
            return Ok(Some(number));
        }
    }
    let number = number_of(alloc, table, set, limit)?;
    Ok(Some(number))
}

/// Adds the targets of a state, one for each group of bytes. `from` are the positions that can be read next there.
pub(crate) fn add_row(
    alloc: Global,
    leaves: &[Leaf],
    representatives: &[u8],
    from: &[u16],
    table: &mut SetTable,
    targets: &mut Vec<Option<usize>>,
    limit: usize,
) -> Result<(), BuildFault>
    requires numbering { IsNumbering table.old.sets.items table.old.numbers }
    requires room { length table.old.sets.items ≤ limit }
    ensures numbering { OnOk result (IsNumbering table.new.sets.items table.new.numbers) }
    ensures room { OnOk result (length table.new.sets.items ≤ limit) }
    ensures more { OnOk result (length table.old.sets.items ≤ length table.new.sets.items) }
    ensures long { OnOk result
        (length targets.new.items ≡ length targets.old.items + length representatives.now) }
    ensures few { IfErr result (λ e. e ≢ BuildFault.TooManyPositions) }
    ensures kept { OnOk result ((i : ℕ) → i < length table.old.sets.items
        → set_of table.new.sets.items i ≡ set_of table.old.sets.items i) }
    ensures reached { (spec : PlainSpec) (tree_of : Regex → Unfolded) (state : ℕ)
        → IsRowOf spec tree_of (leaves_view leaves.now) representatives.now state from.now
        table.old.sets.items targets.old.items
        → OnOk result (AreReachedSets spec (numbered tree_of 0 spec.rules) table.new.sets.items) }
    ensures steps { (spec : PlainSpec) (tree_of : Regex → Unfolded) (state : ℕ)
        → IsRowOf spec tree_of (leaves_view leaves.now) representatives.now state from.now
        table.old.sets.items targets.old.items
        → OnOk result (HaveSteps spec (numbered tree_of 0 spec.rules) (leaves_view leaves.now)
        representatives.now table.new.sets.items targets.new.items
        ((state + 1) * length representatives.now)) }
    ensures many { (spec : PlainSpec) (tree_of : Regex → Unfolded) (state : ℕ)
        → IsRowOf spec tree_of (leaves_view leaves.now) representatives.now state from.now
        table.old.sets.items targets.old.items → IfErr result (λ e.
        e ≡ BuildFault.TooManySets
        → HasMoreSets spec (numbered tree_of 0 spec.rules) limit) }
{
    for class in 0..representatives.len() {
        add_target(
            alloc,
            leaves,
            representatives[class],
            from,
            table,
            targets,
            limit,
        )?;
    }
    Ok(())
}

// Adds the targets of a start.
fn add_start(
    alloc: Global,
    spec: &Spec,
    positions: &PositionTable,
    condition: u16,
    at_line_begin: bool,
    table: &mut SetTable,
    targets: &mut Vec<Option<usize>>,
    limit: usize,
) -> Result<(), BuildFault>
    requires condition { condition < length (spec_view spec.now).conditions }
    requires numbering { IsNumbering table.old.sets.items table.old.numbers }
    requires room { length table.old.sets.items ≤ limit }
    ensures numbering { OnOk result (IsNumbering table.new.sets.items table.new.numbers) }
    ensures room { OnOk result (length table.new.sets.items ≤ limit) }
    ensures few { IfErr result (λ e. e ≢ BuildFault.TooManyPositions) }
    ensures explored { (tree_of : Regex → Unfolded)
        → ArePositionsOf (spec_view spec.now) tree_of positions.now
        → IsExploredBy (spec_view spec.now) tree_of positions.now table.old.sets.items
        targets.old.items (start_number condition at_line_begin)
        → OnOk result (IsExploredBy (spec_view spec.now) tree_of positions.now table.new.sets.items
        targets.new.items (start_number condition at_line_begin + 1)) }
    ensures many { (tree_of : Regex → Unfolded)
        → ArePositionsOf (spec_view spec.now) tree_of positions.now
        → IsExploredBy (spec_view spec.now) tree_of positions.now table.old.sets.items
        targets.old.items (start_number condition at_line_begin) → IfErr result (λ e.
        e ≡ BuildFault.TooManySets → HasMoreSets (spec_view spec.now)
        (numbered tree_of 0 (spec_view spec.now).rules) limit) }
{
    let Ok(active) = active_rules(alloc, spec, condition, at_line_begin) else {
        return Err(BuildFault::Memory);
    };
    let Ok(first) = begin(alloc, &positions.parts, positions.total, &active) else {
        return Err(BuildFault::Memory);
    };
    let leaves = positions.leaves.as_slice();
    let representatives = positions.groups.representatives.as_slice();
    add_row(
        alloc,
        leaves,
        representatives,
        &first,
        table,
        targets,
        limit,
    )?;
    Ok(())
}

// Adds the targets of a set. Returns the rule that it matches.
fn add_set_row(
    alloc: Global,
    positions: &PositionTable,
    rules_at: &[u16],
    number: usize,
    marks: &mut Vec<bool>,
    reads: &mut Vec<bool>,
    table: &mut SetTable,
    targets: &mut Vec<Option<usize>>,
    limit: usize,
) -> Result<Option<usize>, BuildFault>
    requires number { number < length table.old.sets.items }
    requires marks { length marks.old.items ≡ positions.now.total }
    requires reads { length reads.old.items ≡ positions.now.total }
    requires clear { (q : ℕ) → plain_flags.flag marks.old.items q ≡ false }
    requires numbering { IsNumbering table.old.sets.items table.old.numbers }
    requires room { length table.old.sets.items ≤ limit }
    ensures numbering { OnOk result (IsNumbering table.new.sets.items table.new.numbers) }
    ensures room { OnOk result (length table.new.sets.items ≤ limit) }
    ensures more { OnOk result (length table.old.sets.items ≤ length table.new.sets.items) }
    ensures kept { OnOk result ((i : ℕ) → i < length table.old.sets.items
        → set_of table.new.sets.items i ≡ set_of table.old.sets.items i) }
    ensures few { IfErr result (λ e. e ≢ BuildFault.TooManyPositions) }
    ensures matched { (spec : PlainSpec) (tree_of : Regex → Unfolded)
        → ArePositionsOf spec tree_of positions.now → IfOk result (λ found.
        IsEarliestMatched (numbered tree_of 0 spec.rules)
        (set_of table.old.sets.items number) found) }
    ensures long_marks { OnOk result (length marks.new.items ≡ length marks.old.items) }
    ensures long_reads { OnOk result (length reads.new.items ≡ length reads.old.items) }
    ensures clear_marks { OnOk result ((q : ℕ) → plain_flags.flag marks.new.items q ≡ false) }
    ensures clear_reads { (spec : PlainSpec) (tree_of : Regex → Unfolded)
        → ArePositionsOf spec tree_of positions.now
        → ((q : ℕ) → plain_flags.flag reads.old.items q ≡ false)
        → OnOk result ((q : ℕ) → plain_flags.flag reads.new.items q ≡ false) }
    ensures explored { (spec : PlainSpec) (tree_of : Regex → Unfolded)
        → ArePositionsOf spec tree_of positions.now
        → ((q : ℕ) → plain_flags.flag reads.old.items q ≡ false)
        → IsExploredBy spec tree_of positions.now table.old.sets.items targets.old.items
        (start_count spec + number)
        → OnOk result (IsExploredBy spec tree_of positions.now table.new.sets.items
        targets.new.items (start_count spec + number + 1)) }
    ensures many { (spec : PlainSpec) (tree_of : Regex → Unfolded)
        → ArePositionsOf spec tree_of positions.now
        → ((q : ℕ) → plain_flags.flag reads.old.items q ≡ false)
        → IsExploredBy spec tree_of positions.now table.old.sets.items targets.old.items
        (start_count spec + number) → IfErr result (λ e.
        e ≡ BuildFault.TooManySets
        → HasMoreSets spec (numbered tree_of 0 spec.rules) limit) }
{
    let set = table.sets[number].as_slice();
    let Ok(found) = follow(alloc, &positions.parts, rules_at, set, marks, reads) else {
        return Err(BuildFault::Memory);
    };
    let leaves = positions.leaves.as_slice();
    let representatives = positions.groups.representatives.as_slice();
    add_row(
        alloc,
        leaves,
        representatives,
        &found.next,
        table,
        targets,
        limit,
    )?;
    Ok(found.matched)
}

/// Reaches all sets from the starts, at most `limit` of them, and finds the steps of all starts and sets.
///
/// # Errors
///
/// `TooManySets` if there are more. `Memory`.
pub(crate) fn explore(
    alloc: Global,
    spec: &Spec,
    positions: &PositionTable,
    limit: usize,
) -> Result<Explored, BuildFault>
    ensures room { IfOk result (λ explored. length explored.table.sets.items ≤ limit) }
    ensures few { IfErr result (λ e. e ≢ BuildFault.TooManyPositions) }
    ensures explored { (tree_of : Regex → Unfolded)
        → ArePositionsOf (spec_view spec.now) tree_of positions.now → IfOk result
        (λ explored. AreStatesOf (spec_view spec.now) tree_of positions.now explored) }
    ensures many { (tree_of : Regex → Unfolded)
        → ArePositionsOf (spec_view spec.now) tree_of positions.now → IfErr result (λ e.
        e ≡ BuildFault.TooManySets → HasMoreSets (spec_view spec.now)
        (numbered tree_of 0 (spec_view spec.now).rules) limit) }
{
    let mut table = empty_table(alloc);
    let mut targets = Vec::new(alloc);
    'starts: for condition in 0..spec.conditions.len() {
        let number = condition as u16;
        add_start(
            alloc,
            spec,
            positions,
            number,
            false,
            &mut table,
            &mut targets,
            limit,
        )?;
        add_start(
            alloc,
            spec,
            positions,
            number,
            true,
            &mut table,
            &mut targets,
            limit,
        )?;
    }
    let rules_at = rules_by_position(alloc, &positions.parts, positions.total)?;
    let mut marks = clear_flags(alloc, positions.total)?;
    let mut reads = clear_flags(alloc, positions.total)?;
    let mut matched = Vec::new(alloc);
    'sets: while matched.len() < table.sets.len() {
        let number = matched.len();
        let found = add_set_row(
            alloc,
            positions,
            &rules_at,
            number,
            &mut marks,
            &mut reads,
            &mut table,
            &mut targets,
            limit,
        )?;
        matched.push(found)?;
    }
    Ok(Explored {
        table,
        targets,
        matched,
    })
}
