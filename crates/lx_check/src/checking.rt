//! Checks the text of a specification.

ghost use Rattle.std.specs.Prelude.{◌≡◌, ◌≤◌, IfOk, length};
ghost use Rattle.lx_auto.specs.Counts.{count_of_spec};
ghost use Rattle.lx_rules.specs.views.Specs.{spec_view};
ghost use Rattle.lx_rules.specs.Limits.{max_positions};
ghost use Rattle.lx_tables.specs.Model.{AreTablesOf};
ghost use Rattle.lx_reach.specs.Chosen.{AreFlagsOf, IsEverChosenBy};
ghost use Rattle.lx_reach.specs.Entered.{IsEntered};
ghost use Rattle.lx_check.specs.Findings.{AreCounts, IfAccepted, IsVerdict, TellsChosen};
ghost use Rattle.lx_check.specs.Further.{AreFindings, IfRefused};

use crate::further::{findings_from, too_large};
use crate::report::{Accepted, Counts, Report};
use crate::takers::takers_in;
use crate::{read, tables_of};
use lx_auto::count_positions;
use lx_reach::ruling::chosen_is_by_rules;
use lx_reach::{Takers, chosen_rules, entered_conditions};
use lx_spec::Spec;
use lx_tables::Tables;
use std::alloc::{AllocError, Global};

// Counts the parts of a specification and of its tables.
fn counts_of(alloc: Global, spec: &Spec, tables: &Tables) -> Result<Counts, AllocError>
    requires { count_of_spec (spec_view spec.now) ≤ max_positions }
    ensures { IfOk result (AreCounts (spec_view spec.now) tables.now) }
{
    let positions = count_positions(alloc, spec)?;
    Ok(Counts {
        rules: spec.rules.len() as u32,
        definitions: spec.definitions.len() as u32,
        conditions: spec.conditions.len() as u32,
        positions,
        states: tables.states(),
        classes: u32::from(tables.classes()),
    })
}

// The facts about a specification that has tables, as [`Accepted`] holds them.
#[derive(Drop)]
struct LookedUp {
    counts: Counts,
    chosen: Vec<bool>,
    entered: Vec<bool>,
    takers: Vec<Takers>,
}

fn looked_up(
    alloc: Global,
    text: &[u8],
    spec: &Spec,
    tables: &Tables,
) -> Result<LookedUp, AllocError>
    requires tables { AreTablesOf (spec_view spec.now) tables.now }
    requires few_positions { count_of_spec (spec_view spec.now) ≤ max_positions }
    ensures counts { IfOk result
        (λ looked. AreCounts (spec_view spec.now) tables.now looked.counts) }
    ensures chosen { IfOk result (λ looked.
        AreFlagsOf (length (spec_view spec.now).rules) (IsEverChosenBy (spec_view spec.now))
        looked.chosen.items) }
    ensures entered { IfOk result (λ looked.
        AreFlagsOf (length (spec_view spec.now).conditions) (IsEntered tables.now)
        looked.entered.items) }
{
    chosen_is_by_rules();
    let counts = counts_of(alloc, spec, tables)?;
    let chosen = chosen_rules(alloc, tables)?;
    let entered = entered_conditions(alloc, tables)?;
    let takers = takers_in(alloc, text, tables, &chosen)?;
    Ok(LookedUp {
        counts,
        chosen,
        entered,
        takers,
    })
}

// Makes the report on a specification that has tables.
fn report_accepted(
    alloc: Global,
    text: &[u8],
    spec: Spec,
    tables: Tables,
) -> Result<Accepted, AllocError>
    requires tables { AreTablesOf (spec_view spec) tables }
    requires few_positions { count_of_spec (spec_view spec) ≤ max_positions }
    ensures spec { IfOk result (λ accepted. spec_view accepted.spec ≡ spec_view spec) }
    ensures tables { IfOk result
        (λ accepted. AreTablesOf (spec_view accepted.spec) accepted.tables) }
    ensures chosen { IfOk result TellsChosen }
    ensures counts { IfOk result
        (λ accepted. AreCounts (spec_view accepted.spec) accepted.tables accepted.counts) }
{
    let LookedUp {
        counts,
        chosen,
        entered,
        takers,
    } = looked_up(alloc, text, &spec, &tables)?;
    Ok(Accepted {
        spec,
        tables,
        counts,
        chosen,
        entered,
        takers,
    })
}

/// Checks the text of a specification. Returns its faults, or if it is accepted, the specification and the rules that are chosen.
pub fn check(alloc: Global, text: &[u8], most: usize) -> Result<Report, AllocError>
    ensures first { IfOk result (IsVerdict text.now) }
    ensures each { IfOk result (IfRefused (AreFindings most text.now)) }
    ensures chosen { IfOk result (IfAccepted TellsChosen) }
    ensures counts { IfOk result (IfAccepted
        (λ accepted. AreCounts (spec_view accepted.spec) accepted.tables accepted.counts)) }
{
    let spec = match read(alloc, text)? {
        Ok(spec) => spec,
        Err(fault) => return Ok(Report::Refused(findings_from(alloc, text, fault, most)?)),
    };
    match tables_of(alloc, &spec)? {
        Ok(tables) => Ok(Report::Accepted(report_accepted(alloc, text, spec, tables)?)),
        Err(finding) => Ok(Report::Refused(too_large(alloc, text, finding, most)?)),
    }
}
