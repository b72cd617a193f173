//! Numbers the sets in a table.

ghost use Rattle.std.specs.Prelude.{◌≡◌, ◌≢◌, ◌<◌, ◌≤◌, ◌⊎◌, ◌++◌, ◌∷◌, [], ℕ, None, IfOk, IfErr, OnOk, length};
ghost use Rattle.std.specs.HashMap.{get};
ghost use Rattle.lx_auto.specs.SetTable.{IsExtendedBy, IsNumbering, same, set_of};

use crate::fault::BuildFault;
use crate::sets::set_table::{PositionSet, SetTable};
use smallvec::SmallVec;
use std::alloc::Global;
use std::collections::HashMap;

/// Returns a table without sets.
pub(crate) fn empty_table(alloc: Global) -> SetTable
    ensures sets { result.sets.items ≡ [] }
    ensures numbering { IsNumbering result.sets.items result.numbers }
{
    SetTable {
        sets: Vec::new(alloc),
        numbers: HashMap::new(alloc),
    }
}

// Returns the number of a set, if it is in the table.
fn known_number(table: &SetTable, set: &PositionSet) -> Option<usize>
    ensures { result ≡ get same table.now.numbers set.now }
{
    table.numbers.get(set).copied()
}

// Adds a new set to the table.
fn add_set(alloc: Global, table: &mut SetTable, set: PositionSet) -> Result<(), BuildFault>
    requires numbering { IsNumbering table.old.sets.items table.old.numbers }
    requires absent { get same table.old.numbers set ≡ None }
    ensures numbering { OnOk result (IsNumbering table.new.sets.items table.new.numbers) }
    ensures added { OnOk result (table.new.sets.items ≡ table.old.sets.items ++ set ∷ []) }
    ensures memory { IfErr result (λ e. e ≡ BuildFault.Memory) }
{
    let number = table.sets.len();
    let Ok(key) = SmallVec::from_slice(alloc, set.as_slice()) else {
        return Err(BuildFault::Memory);
    };
    let Ok(_) = table.numbers.insert(key, number) else {
        return Err(BuildFault::Memory);
    };
    let Ok(()) = table.sets.push(set) else {
        return Err(BuildFault::Memory);
    };
    Ok(())
}

/// Returns the number of a set in the table. Adds it if it isn't there. The table has at most `limit` sets.
pub(crate) fn number_of(
    alloc: Global,
    table: &mut SetTable,
    set: PositionSet,
    limit: usize,
) -> Result<usize, BuildFault>
    requires numbering { IsNumbering table.old.sets.items table.old.numbers }
    requires room { length table.old.sets.items ≤ limit }
    ensures numbering { OnOk result (IsNumbering table.new.sets.items table.new.numbers) }
    ensures at { IfOk result (λ n. n < length table.new.sets.items) }
    ensures found { IfOk result (λ n. set_of table.new.sets.items n ≡ set.items) }
    ensures extended_by { OnOk result
        (IsExtendedBy table.old.sets.items table.new.sets.items set.items) }
    ensures room { OnOk result (length table.new.sets.items ≤ limit) }
    ensures fresh { OnOk result (length table.new.sets.items ≡ length table.old.sets.items
        ⊎ ((i : ℕ) → i < length table.old.sets.items
        → set_of table.old.sets.items i ≢ set.items)) }
    ensures many { IfErr result (λ e.
        e ≡ BuildFault.TooManySets
        → (length table.old.sets.items ≡ limit) × ((i : ℕ) → i < length table.old.sets.items
        → set_of table.old.sets.items i ≢ set.items)) }
    ensures few { IfErr result (λ e. e ≢ BuildFault.TooManyPositions) }
{
    if let Some(number) = known_number(table, &set) {
        return Ok(number);
    }
    let number = table.sets.len();
    if number == limit {
        return Err(BuildFault::TooManySets);
    }
    add_set(alloc, table, set)?;
    Ok(number)
}
