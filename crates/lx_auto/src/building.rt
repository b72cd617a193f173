//! Builds the automaton of a specification (Rabin and Scott 1959: the subset construction, over sets of positions).

ghost use Rattle.std.specs.Prelude.{◌≡◌, ◌<◌, ◌≤◌, IfOk, IfErr};
ghost use Rattle.lx_rules.specs.views.Specs.{spec_view};
ghost use Rattle.lx_rules.specs.Limits.{max_positions, max_reached_sets};
ghost use Rattle.lx_automaton.specs.Automata.{IsMachine};
ghost use Rattle.lx_automaton.specs.Equivalence.{HasLiveSteps, IsMinimal};
ghost use Rattle.lx_auto.specs.Counts.{count_of_spec};
ghost use Rattle.lx_automaton.specs.Meaning.{IsAutomatonOf};
ghost use Rattle.lx_automaton.specs.Leading.{AreAllLedTo};
ghost use Rattle.lx_auto.specs.PositionSets.{HasMoreReachedSets};
ghost use Rattle.lx_auto.specs.TooLarge.{HasTooManyPositions, HasTooManySets};

use crate::drafting::draft_of;
use crate::explore::explore;
use crate::fault::BuildFault;
use crate::sets::spec_positions::positions_of;
use lx_automaton::{Automaton, AutomatonDraft, with_byte_classes};
use lx_minimize::merge;
use lx_rules::limits::MAX_POSITION_SETS;
use lx_rules::spec::Spec;
use lx_rules::well_formed::specs_are_well_formed;
use std::alloc::Global;

// Builds the automaton over provisional classes.
fn draft(alloc: Global, spec: &Spec) -> Result<AutomatonDraft, BuildFault>
    ensures machine { IfOk result (λ a. IsMachine a) }
    ensures automaton { IfOk result (λ a. IsAutomatonOf (spec_view spec.now) a) }
    ensures led_to { IfOk result (λ a. AreAllLedTo a) }
    ensures few_positions { IfOk result (λ _. count_of_spec (spec_view spec.now) ≤ max_positions) }
    ensures few_sets { IfOk result
        (λ _. HasMoreReachedSets (spec_view spec.now) max_reached_sets → ⊥) }
    ensures positions { IfErr result
        (λ e. e ≡ BuildFault.TooManyPositions → HasTooManyPositions (spec_view spec.now)) }
    ensures sets { IfErr result
        (λ e. e ≡ BuildFault.TooManySets → HasTooManySets (spec_view spec.now)) }
{
    specs_are_well_formed();
    let positions = positions_of(alloc, spec)?;
    let explored = explore(alloc, spec, &positions, MAX_POSITION_SETS)?;
    let draft = draft_of(alloc, spec.conditions.len(), &positions.groups, &explored)?;
    Ok(draft)
}

/// Builds the automaton of a specification. From each start condition, at line begin or elsewhere, a word of bytes leads to a state. The state
/// accepts the earliest rule that fits the word so that the rule's reach is the whole word, or none if there is no such rule. Each state is a start
/// or a reached set of positions, so that some text leads to it. `merge` reduces them to the least number.
///
/// # Errors
///
/// `TooManyPositions` (E30) if the specification has more than 16,384 positions, which is tested first. `TooManySets` (E31) if there are more than
/// 16,384 reached sets. `Memory`.
pub fn build(alloc: Global, spec: &Spec) -> Result<Automaton, BuildFault>
    ensures automaton { IfOk result (λ a. IsAutomatonOf (spec_view spec.now) a) }
    ensures led_to { IfOk result (λ a. AreAllLedTo a) }
    ensures few_positions { IfOk result (λ _. count_of_spec (spec_view spec.now) ≤ max_positions) }
    ensures few_sets { IfOk result
        (λ _. HasMoreReachedSets (spec_view spec.now) max_reached_sets → ⊥) }
    ensures positions { IfErr result
        (λ e. e ≡ BuildFault.TooManyPositions → HasTooManyPositions (spec_view spec.now)) }
    ensures sets { IfErr result
        (λ e. e ≡ BuildFault.TooManySets → HasTooManySets (spec_view spec.now)) }
{
    let draft = draft(alloc, spec)?;
    let automaton = with_byte_classes(alloc, &draft)?;
    Ok(automaton)
}

/// Builds the automaton of a specification with the least number of states. `build` and `merge` at once.
///
/// # Errors
///
/// Those of `build`.
pub fn build_merged(alloc: Global, spec: &Spec) -> Result<Automaton, BuildFault>
    ensures automaton { IfOk result (λ a. IsAutomatonOf (spec_view spec.now) a) }
    ensures minimal { IfOk result (λ a. IsMinimal a) }
    ensures live { IfOk result (λ a. HasLiveSteps a) }
    ensures few_positions { IfOk result (λ _. count_of_spec (spec_view spec.now) ≤ max_positions) }
    ensures positions { IfErr result
        (λ e. e ≡ BuildFault.TooManyPositions → HasTooManyPositions (spec_view spec.now)) }
    ensures sets { IfErr result
        (λ e. e ≡ BuildFault.TooManySets → HasTooManySets (spec_view spec.now)) }
{
    let built = build(alloc, spec)?;
    Ok(merge(alloc, &built)?)
}
