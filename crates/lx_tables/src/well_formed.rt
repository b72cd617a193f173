//! A law that all tables obey.

ghost use Rattle.lx_tables.specs.Model.{IsTable};

use crate::tables::Tables;

/// States a law: tables are well formed, by the invariant of their type.
pub fn tables_are_well_formed(tables: &Tables)
    ensures { IsTable tables.now }
{
    // the access to a field opens the invariant
    let _automaton = &tables.automaton;
}
