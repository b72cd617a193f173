//! Makes the tables of a specification.

ghost use Rattle.std.specs.Prelude.{IfOk};
ghost use Rattle.lx_rules.specs.views.Specs.{spec_view};
ghost use Rattle.lx_automaton.specs.Equivalence.{AreEquivalentMachines};
ghost use Rattle.lx_automaton.specs.Leading.{AreAllLedTo};
ghost use Rattle.lx_automaton.specs.Meaning.{IsAutomatonOf};
ghost use Rattle.lx_tables.specs.Model.{AreTablesOf, IsTable};

use crate::copying::{kinds_of, rules_of};
use crate::tables::Tables;
use lx_automaton::{Automaton, accepted_of, classes_of, rows_of, starts_of, state_order_of};
use lx_rules::spec::Spec;
use lx_rules::well_formed::specs_are_well_formed;
use std::alloc::{AllocError, Global};

impl Tables {
    /// Makes the tables of a specification from its automaton, with the states in the order of `lx gen`.
    ///
    /// Each state has its place when it is first met. The starts are met first, in the order of the conditions, for each condition without and then
    /// at line begin. Then come the targets of the states, in the order of their numbers, by ascending byte. The states to which no text leads come
    /// last.
    pub fn of(alloc: Global, spec: &Spec, automaton: &Automaton) -> Result<Tables, AllocError>
        requires { IsAutomatonOf (spec_view spec.now) automaton.now }
        ensures tables { IfOk result (λ tables. AreTablesOf (spec_view spec.now) tables) }
        ensures table { IfOk result (λ tables. IsTable tables) }
        ensures answers { IfOk result
            (λ tables. AreEquivalentMachines automaton.now tables.machine) }
        ensures led_to { IfOk result
            (λ tables. AreAllLedTo automaton.now → AreAllLedTo tables.machine) }
    {
        let tables = Tables::unjoined_of(alloc, spec, automaton)?;
        tables.with_joined(alloc)
    }

    /// Makes the tables without the joined table, for tables that are only printed. The joined table makes scans fast.
    pub fn unjoined_of(
        alloc: Global,
        spec: &Spec,
        automaton: &Automaton,
    ) -> Result<Tables, AllocError>
        requires { IsAutomatonOf (spec_view spec.now) automaton.now }
        ensures tables { IfOk result (λ tables. AreTablesOf (spec_view spec.now) tables) }
        ensures table { IfOk result (λ tables. IsTable tables) }
        ensures answers { IfOk result
            (λ tables. AreEquivalentMachines automaton.now tables.machine) }
        ensures led_to { IfOk result
            (λ tables. AreAllLedTo automaton.now → AreAllLedTo tables.machine) }
    {
        specs_are_well_formed();
        let state_order = state_order_of(alloc, automaton)?;
        let starts = starts_of(alloc, automaton, &state_order)?;
        let classes = classes_of(alloc, automaton)?;
        let accepted = accepted_of(alloc, automaton, &state_order, spec.rules.len() as u16)?;
        let targets = rows_of(alloc, automaton, &state_order)?;
        let kinds = kinds_of(alloc, spec)?;
        let rules = rules_of(alloc, spec)?;
        let width = usize::from(automaton.classes());
        let reordered = Automaton::of(starts, classes, width, accepted, targets);
        Ok(Tables::of_parts(reordered, kinds, rules))
    }
}
