//! Numbers the lists of the rules that sets of positions match.

ghost use Rattle.std.specs.Prelude.{◌≡◌, ◌≢◌, ◌<◌, ◌≤◌, ◌⊎◌, ℕ, IfOk, IfErr, OnOk, length};
ghost use Rattle.lx_ere.specs.Regex.{Regex};
ghost use Rattle.lx_rules.specs.Limits.{max_rules};
ghost use Rattle.lx_rules.specs.Plain.{PlainSpec};
ghost use Rattle.lx_auto.specs.PositionSets.{numbered};
ghost use Rattle.lx_auto.specs.PositionTables.{AreMatchedBelow, ArePositionsOf};
ghost use Rattle.lx_auto.specs.RuleLists.{AddsList, AreListed, AreUnmarked, HasMoreSetLists, HasNoRoomForList, IsListTable, plain_lists};
ghost use Rattle.lx_auto.specs.Sets.{IsEarliestMatched};
ghost use Rattle.lx_auto.specs.SetTable.{IsExtendedBy, set_of};
ghost use Rattle.lx_auto.specs.Unfolded.{Unfolded};

use crate::explored::Explored;
use crate::fault::{BuildFault, ListFault};
use crate::sets::all_matched::matched_rules;
use crate::sets::position_table::PositionTable;
use crate::sets::set_numbering::{empty_table, number_of};
use crate::sets::set_steps::clear_flags;
use crate::sets::set_table::{RuleList, SetTable};
use lx_automaton::RuleLists;
use lx_rules::limits::MAX_RULES;
use std::alloc::{AllocError, Global};

/// The lists of the rules that sets match, and the number of each set's list.
#[derive(Drop)]
pub(crate) struct ListedSets {
    pub(crate) lists: SetTable,
    /// For each set, the number of the list of all rules that it matches.
    pub(crate) numbers: Vec<Option<usize>>,
}

// Returns the number of a list. Adds the list if it isn't in the table.
fn number_of_list(alloc: Global, lists: &mut SetTable, list: RuleList) -> Result<usize, ListFault>
    requires table { IsListTable lists.old.sets.items lists.old.numbers }
    ensures table { OnOk result (IsListTable lists.new.sets.items lists.new.numbers) }
    ensures at { IfOk result (λ n. n < length lists.new.sets.items) }
    ensures found { IfOk result (λ n. set_of lists.new.sets.items n ≡ list.items) }
    ensures extended_by { OnOk result
        (IsExtendedBy lists.old.sets.items lists.new.sets.items list.items) }
    ensures many { IfErr result (λ e.
        e ≡ ListFault.TooManyLists
        → (length lists.old.sets.items ≡ max_rules) × ((k : ℕ) → k < length lists.old.sets.items
        → set_of lists.old.sets.items k ≢ list.items)) }
    ensures memory { IfErr result (λ e.
        (e ≡ ListFault.TooManyLists) ⊎ (e ≡ ListFault.Build BuildFault.Memory)) }
{
    match number_of(alloc, lists, list, MAX_RULES) {
        Ok(number) => Ok(number),
        Err(BuildFault::TooManySets) => Err(ListFault::TooManyLists),
        Err(_) => Err(ListFault::Build(BuildFault::Memory)),
    }
}

// Returns the number of the list of all rules that a set matches, or none if it matches no rule. `first` is the earliest of them.
fn list_number(
    alloc: Global,
    positions: &PositionTable,
    set: &[u16],
    first: Option<usize>,
    marks: &mut Vec<bool>,
    lists: &mut SetTable,
) -> Result<Option<usize>, ListFault>
    requires few { length positions.now.parts.items ≤ 65536 }
    requires unmarked { AreUnmarked marks.old.items positions.now.total }
    requires table { IsListTable lists.old.sets.items lists.old.numbers }
    ensures unmarked { OnOk result (AreUnmarked marks.new.items positions.now.total) }
    ensures table { OnOk result (IsListTable lists.new.sets.items lists.new.numbers) }
    ensures number { (spec : PlainSpec) (tree_of : Regex → Unfolded)
        → ArePositionsOf spec tree_of positions.now
        → IsEarliestMatched (numbered tree_of 0 spec.rules) set.now first → IfOk result (λ found.
        AddsList (numbered tree_of 0 spec.rules) set.now lists.old.sets.items
        lists.new.sets.items found) }
    ensures many { (spec : PlainSpec) (tree_of : Regex → Unfolded)
        → ArePositionsOf spec tree_of positions.now
        → IsEarliestMatched (numbered tree_of 0 spec.rules) set.now first → IfErr result (λ e.
        e ≡ ListFault.TooManyLists
        → HasNoRoomForList (numbered tree_of 0 spec.rules) set.now lists.old.sets.items
        max_rules) }
    ensures memory { IfErr result (λ e.
        (e ≡ ListFault.TooManyLists) ⊎ (e ≡ ListFault.Build BuildFault.Memory)) }
{
    let Some(earliest) = first else {
        return Ok(None);
    };
    let list = matched_rules(alloc, &positions.parts, earliest, set, marks)?;
    let number = number_of_list(alloc, lists, list)?;
    Ok(Some(number))
}

/// Finds for each set the list of all rules that it matches. Equal lists have one number.
///
/// # Errors
///
/// `TooManyLists` if there are more than 4,096 different lists. `Build(Memory)`.
pub(crate) fn list_rules(
    alloc: Global,
    positions: &PositionTable,
    explored: &Explored,
) -> Result<ListedSets, ListFault>
    requires few { length positions.now.parts.items ≤ 65536 }
    requires matched { length explored.now.matched.items
        ≡ length explored.now.table.sets.items }
    ensures table { IfOk result
        (λ listed. IsListTable listed.lists.sets.items listed.lists.numbers) }
    ensures listed { (spec : PlainSpec) (tree_of : Regex → Unfolded)
        → ArePositionsOf spec tree_of positions.now
        → AreMatchedBelow spec tree_of explored.now.table.sets.items explored.now.matched.items
        (length explored.now.table.sets.items) → IfOk result (λ listed.
        AreListed (numbered tree_of 0 spec.rules) explored.now.table.sets.items
        listed.lists.sets.items listed.numbers.items (length explored.now.table.sets.items)) }
    ensures many { (spec : PlainSpec) (tree_of : Regex → Unfolded)
        → ArePositionsOf spec tree_of positions.now
        → AreMatchedBelow spec tree_of explored.now.table.sets.items explored.now.matched.items
        (length explored.now.table.sets.items) → IfErr result (λ e.
        e ≡ ListFault.TooManyLists → HasMoreSetLists (numbered tree_of 0 spec.rules)
        explored.now.table.sets.items max_rules) }
    ensures memory { IfErr result (λ e.
        (e ≡ ListFault.TooManyLists) ⊎ (e ≡ ListFault.Build BuildFault.Memory)) }
{
    let mut lists = empty_table(alloc);
    let mut marks = clear_flags(alloc, positions.total)?;
    let mut numbers = Vec::new(alloc);
    for j in 0..explored.table.sets.len() {
        let set = explored.table.sets[j].as_slice();
        let first = explored.matched[j];
        let number = list_number(alloc, positions, set, first, &mut marks, &mut lists)?;
        numbers.push(number)?;
    }
    Ok(ListedSets { lists, numbers })
}

/// Copies lists, one after the other.
pub(crate) fn copy_lists(alloc: Global, lists: &[RuleList]) -> Result<RuleLists, AllocError>
    ensures { IfOk result (λ copied. copied ≡ plain_lists lists.now) }
{
    let mut copied = RuleLists::new(alloc);
    for list in lists {
        copied.push(list.as_slice())?;
    }
    Ok(copied)
}
