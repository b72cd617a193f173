//! Laws of the arrays, as C reads them, and of the code for states.

ghost use Rattle.std.specs.Prelude.{◌≡◌, Bool, None};
ghost use Rattle.lx_automaton.specs.Automata.{Machine, IsMachine};
ghost use Rattle.lx_tables.specs.Model.{Table, IsTable};
ghost use Rattle.lx_c.specs.Numbers.{AreApart};
ghost use Rattle.lx_c.specs.Options.{Options};
ghost use Rattle.lx_c.specs.StateSteps.{StepsAlike};
ghost use Rattle.lx_c.specs.Reading.{HaveTheWords, HaveTheActions, IsOneToOne};

/// A law: the numbers between the braces of the arrays of the automaton are its classes, rows and
/// starts, in their order.
pub fn arrays_have_the_words()
    ensures { (m : Machine) → IsMachine m → HaveTheWords m }
{}

/// A law: automata with the same number of classes and the same arrays are the same.
pub fn arrays_are_one_to_one()
    ensures { IsOneToOne }
{}

/// A law: if no file declares the kinds, the numbers between the braces of the arrays of actions
/// are what the steps of the rules say.
pub fn arrays_have_the_actions()
    ensures { (o : Options) (table : Table) → IsTable table → o.include ≡ None
        → HaveTheActions o table }
{}

/// A law: the numbers of kinds are above all bytes, and above all numbers that actions return.
pub fn kinds_are_apart()
    ensures { (table : Table) → AreApart table }
{}

/// A law: the code of each state steps on each byte as the automaton does, by its loop and its tests in their order; but not on a byte 0 that ends the
/// text.
pub fn code_steps_alike()
    ensures { (m : Machine) → IsMachine m → (nul_ends : Bool) → StepsAlike nul_ends m }
{}
