//! A law: by the tables of a specification, the chosen rules are those that its rules choose.

ghost use Rattle.std.specs.Prelude.{◌<◌, ◌↔◌, ℕ, length};
ghost use Rattle.lx_rules.specs.Plain.{PlainSpec};
ghost use Rattle.lx_tables.specs.Model.{AreTablesOf, Table};
ghost use Rattle.lx_reach.specs.Chosen.{IsChosenBy, IsChosenIn, IsEverChosen, IsEverChosenBy};

use lx_scan::ruling::{choice_is_by_rules, one_choice};

/// States a law: by the tables of a specification, a rule is chosen in a condition exactly if it is by the rules. The same holds for some condition.
pub fn chosen_is_by_rules()
    ensures one { (spec : PlainSpec) (table : Table) (condition rule : ℕ) → AreTablesOf spec table
        → condition < length spec.conditions
        → IsChosenIn table condition rule ↔ IsChosenBy spec condition rule }
    ensures some { (spec : PlainSpec) (table : Table) (rule : ℕ) → AreTablesOf spec table
        → IsEverChosen table rule ↔ IsEverChosenBy spec rule }
{
    choice_is_by_rules();
    one_choice();
}
