//! Automata in which no step is missing.

ghost use Rattle.std.specs.Prelude.{◌≡◌, ◌<◌, ◌+◌, ◌*◌, ◌++◌, ◌∷◌, IfOk, length, replicate};
ghost use Rattle.lx_minimize.specs.Completion.{total, step_of, label_of, IsComplete, IsCompletion};

use lx_automaton::Automaton;
use std::alloc::{AllocError, Global};

/// An automaton that has a step on every class from every state. State 0 represents a missing step, and s + 1 the state s.
#[derive(Drop)]
pub struct Complete {
    pub width: usize,
    /// Targets row by row. The target of state s on class c is at s * width + c.
    pub next: Vec<u16>,
    /// For each state, 0 or one more than the rule that it accepts.
    pub labels: Vec<u16>,
}

/// Returns the target of a state on a class.
#[inline]
pub fn step(m: &Complete, state: usize, class: usize) -> usize
    requires complete { IsComplete m.now }
    requires state { state < total m.now }
    requires class { class < m.now.width }
    ensures target { result ≡ step_of m.now state class }
    ensures closed { result < total m.now }
{
    m.next[state * m.width + class] as usize
}

/// Returns the completion of an automaton.
pub fn completion_of(alloc: Global, automaton: &Automaton) -> Result<Complete, AllocError>
    ensures { IfOk result (λ m. IsCompletion automaton.now m) }
{
    let width = automaton.classes() as usize;
    let mut next = vec![in alloc; 0; width]?;
    next.extend_from_slice(automaton.encoded_targets())?;
    let mut labels = vec![in alloc; 0; 1]?;
    labels.extend_from_slice(automaton.encoded_rules())?;
    Ok(Complete {
        width,
        next,
        labels,
    })
}
