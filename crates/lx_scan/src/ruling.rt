//! Laws: by the tables of a specification, the choice and the items of a text are those by its rules, and there is one list of items.

ghost use Rattle.std.specs.Prelude.{◌≡◌, ◌<◌, ℕ, All, Bool, List, Option, length};
ghost use Rattle.lx_rules.specs.Choice.{IsChoice};
ghost use Rattle.lx_rules.specs.Plain.{PlainSpec};
ghost use Rattle.lx_tables.specs.Model.{AreTablesOf, IsTable, Table};
ghost use Rattle.lx_scan.specs.Answers.{choice_of};
ghost use Rattle.lx_scan.specs.ByRules.{AreItemsBy};
ghost use Rattle.lx_scan.specs.Items.{items_of};

use crate::item::Item;

/// States a law: by the tables of a specification, the choice is the one among its rules. This holds in each condition, for every text of bytes, at
/// line begin or not.
pub fn choice_is_by_rules()
    ensures { (spec : PlainSpec) (table : Table) (condition : ℕ) (begin : Bool) (text : List ℕ) → AreTablesOf spec table → condition < length spec.conditions →
        All (λ b. b < 256) text → IsChoice spec condition begin text (choice_of table condition begin text) }
{}

/// States a law: by the rules of a specification there is one choice for a text, in each condition, at line begin or not.
pub fn one_choice()
    ensures { (spec : PlainSpec) (condition : ℕ) (begin : Bool) (text : List ℕ)
        (x y : Option (ℕ × ℕ)) → IsChoice spec condition begin text x
        → IsChoice spec condition begin text y → x ≡ y }
{}

/// States a law: by the tables of a specification, every text of bytes has its items by the rules.
pub fn items_are_by_rules()
    ensures { (spec : PlainSpec) (table : Table) (text : List ℕ) → IsTable table → AreTablesOf spec table → All (λ b. b < 256) text →
        AreItemsBy spec text (items_of table text) }
{}

/// States a law: by the rules of a specification, a text has one list of items.
pub fn one_list_of_items()
    ensures { (spec : PlainSpec) (text : List ℕ) (xs ys : List Item) → AreItemsBy spec text xs
        → AreItemsBy spec text ys → xs ≡ ys }
{}

/// States a law: by the rules of a specification each text has a list of items, and a choice in each condition, at line begin or not. This also holds
/// if no automaton of the specification is within the limits.
pub fn some_list_of_items()
    ensures choice { (spec : PlainSpec) (condition : ℕ) (begin : Bool) (text : List ℕ)
        → (choice : Option (ℕ × ℕ)) × IsChoice spec condition begin text choice }
    ensures items { (spec : PlainSpec) (text : List ℕ)
        → (items : List Item) × AreItemsBy spec text items }
{}
