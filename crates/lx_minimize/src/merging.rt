//! Merges equivalent states (Moore 1956, Hopcroft 1971).

ghost use Rattle.std.specs.Prelude.{◌≡◌, IfOk, length};
ghost use Rattle.lx_rules.specs.Plain.{PlainSpec};
ghost use Rattle.lx_automaton.specs.Equivalence.{AreEquivalentMachines, IsMinimal, HasLiveSteps};
ghost use Rattle.lx_automaton.specs.Leading.{AreAllLedTo};
ghost use Rattle.lx_automaton.specs.Meaning.{IsAutomatonOf};

use crate::quotient::quotient;
use crate::split::refine;
use crate::{by_labels, completion_of};
use lx_automaton::{Automaton, with_byte_classes};
use std::alloc::{AllocError, Global};

/// Returns the minimal automaton with the same answers, which is one of the same specification. No two of its states are equivalent, and each of its
/// steps leads to a state from which some word leads to an accepting one. A start from which nothing is ever accepted is a state without steps. If
/// some text leads to each state of the given automaton, the same holds for the minimal one.
pub fn merge(alloc: Global, automaton: &Automaton) -> Result<Automaton, AllocError>
    ensures conditions { IfOk result (λ m. length m.starts ≡ length automaton.now.starts) }
    ensures answers { IfOk result (λ m. AreEquivalentMachines automaton.now m) }
    ensures specification { IfOk result
        (λ m. (spec : PlainSpec) → IsAutomatonOf spec automaton.now → IsAutomatonOf spec m) }
    ensures minimal { IfOk result (λ m. IsMinimal m) }
    ensures live { IfOk result (λ m. HasLiveSteps m) }
    ensures led_to { IfOk result (λ m. AreAllLedTo automaton.now → AreAllLedTo m) }
{
    let m = completion_of(alloc, automaton)?;
    let start = by_labels(alloc, &m)?;
    let p = refine(alloc, &m, start)?;
    let draft = quotient(alloc, automaton, &m, &p)?;
    with_byte_classes(alloc, &draft)
}
