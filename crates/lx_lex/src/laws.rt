//! Laws of the printed arrays, as C reads them, and of the parts of matches.

ghost use Rattle.std.specs.Prelude.{◌≡◌, ◌≤◌, ◌↔◌, true, List, Option, ℕ, length, reverse};
ghost use Rattle.lx_automaton.specs.Automata.{IsMachine, Machine};
ghost use Rattle.lx_automaton.specs.Lists.{IsListAutomatonOf};
ghost use Rattle.lx_ere.specs.Matching.{Matches, no_names};
ghost use Rattle.lx_ere.specs.Regex.{Regex};
ghost use Rattle.lx_lex.specs.Cuts.{IsCutSpec, reversed};
ghost use Rattle.lx_lex.specs.Lists.{FindAllRules, HasSmallPlaces};
ghost use Rattle.lx_c.specs.StateSteps.{StepsAlike};
ghost use Rattle.lx_lex.specs.Translation.{FileRule};
ghost use Rattle.lx_lex.specs.Walking.{FindParts, FindRules};
ghost use Rattle.lx_rules.specs.Limits.{max_rules};
ghost use Rattle.lx_rules.specs.Plain.{PlainSpec};
ghost use Rattle.lx_tables.specs.Model.{AreTablesOf, IsTable, Table};

/// States a law: after each text, the walk over the numbers of the arrays finds the earliest rule of the specification that matches the text.
pub fn arrays_find_rules()
    ensures { (spec : PlainSpec) (table : Table) → IsTable table → AreTablesOf spec table
        → FindRules spec table }
{}

/// States a law: after each text, the walk over the numbers of the arrays for `REJECT` finds all rules of the specification that match the text, in
/// ascending order (POSIX.1-2017, XCU `lex`, "Actions in lex": `REJECT`).
pub fn arrays_find_all_rules()
    ensures { (spec : PlainSpec) (m : Machine) (lists : List (List ℕ)) → IsMachine m
        → IsListAutomatonOf spec m lists → length spec.rules ≤ max_rules → HasSmallPlaces lists
        → FindAllRules spec m lists }
{}

/// States a law: the walk over the arrays for the ends of tokens tells, for each text that isn't empty, whether the token of a rule matches it, and
/// whether its trailing context, from its last byte to its first, does.
pub fn arrays_find_parts()
    ensures { (rules : List FileRule) (spec : PlainSpec) (table : Table) → IsTable table
        → IsCutSpec rules spec → AreTablesOf spec table → FindParts rules table }
{}

/// States a law: the reversed expression matches a text from its last byte to its first exactly if the expression matches the text.
pub fn reversal_matches()
    ensures { (tree : Regex) (text : List ℕ) → Matches no_names (reversed tree) (reverse text)
        ↔ Matches no_names tree text }
{}

/// States a law: the code of each state steps on each byte but 0 as the automaton does, by its loop and its tests in their order; and on byte 0,
/// which ends what was read, it doesn't step.
pub fn code_steps_alike()
    ensures { (m : Machine) → IsMachine m → StepsAlike true m }
{}
