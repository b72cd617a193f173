//! Builds the automaton of a specification that accepts lists of all rules, as REJECT needs them.

ghost use Rattle.std.specs.Prelude.{◌≡◌, ◌≤◌, IfOk, IfErr};
ghost use Rattle.lx_rules.specs.views.Specs.{spec_view};
ghost use Rattle.lx_rules.specs.Limits.{max_positions, max_rules};
ghost use Rattle.lx_automaton.specs.Automata.{IsMachine};
ghost use Rattle.lx_automaton.specs.Equivalence.{HasLiveSteps, IsMinimal};
ghost use Rattle.lx_automaton.specs.Leading.{AreAllLedTo};
ghost use Rattle.lx_automaton.specs.Lists.{HasMoreLists, IsListAutomatonOf};
ghost use Rattle.lx_auto.specs.Counts.{count_of_spec};
ghost use Rattle.lx_auto.specs.TooLarge.{HasTooManyPositions, HasTooManySets};

use crate::drafting::draft_of;
use crate::explore::explore;
use crate::explored::Explored;
use crate::fault::{BuildFault, ListFault};
use crate::list_numbers::{copy_lists, list_rules};
use crate::sets::spec_positions::positions_of;
use lx_automaton::{AutomatonDraft, ListAutomaton, RuleLists, with_byte_classes};
use lx_minimize::merge;
use lx_rules::limits::MAX_POSITION_SETS;
use lx_rules::spec::Spec;
use lx_rules::well_formed::specs_are_well_formed;
use std::alloc::Global;

// An automaton over provisional classes that accepts numbers of lists, and these lists.
#[derive(Drop)]
struct ListDraft {
    draft: AutomatonDraft,
    lists: RuleLists,
}

// Builds the automaton over provisional classes, and its lists.
fn draft_lists(alloc: Global, spec: &Spec) -> Result<ListDraft, ListFault>
    ensures machine { IfOk result (λ a. IsMachine a.draft) }
    ensures automaton { IfOk result (λ a. IsListAutomatonOf (spec_view spec.now) a.draft a.lists) }
    ensures led_to { IfOk result (λ a. AreAllLedTo a.draft) }
    ensures few_positions { IfOk result (λ _. count_of_spec (spec_view spec.now) ≤ max_positions) }
    ensures positions { IfErr result (λ e.
        e ≡ ListFault.Build BuildFault.TooManyPositions
        → HasTooManyPositions (spec_view spec.now)) }
    ensures sets { IfErr result (λ e.
        e ≡ ListFault.Build BuildFault.TooManySets → HasTooManySets (spec_view spec.now)) }
    ensures many { IfErr result
        (λ e. e ≡ ListFault.TooManyLists → HasMoreLists (spec_view spec.now) max_rules) }
{
    specs_are_well_formed();
    let positions = positions_of(alloc, spec)?;
    let explored = explore(alloc, spec, &positions, MAX_POSITION_SETS)?;
    let listed = list_rules(alloc, &positions, &explored)?;
    let lists = copy_lists(alloc, &listed.lists.sets)?;
    let numbered = Explored {
        table: explored.table,
        targets: explored.targets,
        matched: listed.numbers,
    };
    let draft = draft_of(alloc, spec.conditions.len(), &positions.groups, &numbered)?;
    Ok(ListDraft { draft, lists })
}

/// Builds the automaton of a specification that accepts lists of rules, with the least number of states, and these lists. From each start condition, at
/// line begin or elsewhere, a word of bytes leads to a state. The state accepts the number of the list of all rules that fit the word so that their
/// reach is the whole word, in ascending order, or none if there is no such rule. REJECT goes from a rule of the list to the next one, and after the
/// last to the next shorter word that is accepted (POSIX.1-2017, XCU lex, Actions in lex). The first rule of a list is the one that `build` gives.
///
/// # Errors
///
/// `Build` with the faults of `build`. `TooManyLists` if texts have more than 4,096 different lists.
pub fn build_lists(alloc: Global, spec: &Spec) -> Result<ListAutomaton, ListFault>
    ensures automaton { IfOk result
        (λ a. IsListAutomatonOf (spec_view spec.now) a.automaton a.lists) }
    ensures minimal { IfOk result (λ a. IsMinimal a.automaton) }
    ensures live { IfOk result (λ a. HasLiveSteps a.automaton) }
    ensures led_to { IfOk result (λ a. AreAllLedTo a.automaton) }
    ensures few_positions { IfOk result (λ _. count_of_spec (spec_view spec.now) ≤ max_positions) }
    ensures positions { IfErr result (λ e.
        e ≡ ListFault.Build BuildFault.TooManyPositions
        → HasTooManyPositions (spec_view spec.now)) }
    ensures sets { IfErr result (λ e.
        e ≡ ListFault.Build BuildFault.TooManySets → HasTooManySets (spec_view spec.now)) }
    ensures many { IfErr result
        (λ e. e ≡ ListFault.TooManyLists → HasMoreLists (spec_view spec.now) max_rules) }
{
    let drafted = draft_lists(alloc, spec)?;
    let built = with_byte_classes(alloc, &drafted.draft)?;
    let automaton = merge(alloc, &built)?;
    Ok(ListAutomaton {
        automaton,
        lists: drafted.lists,
    })
}
