//! Questions about states, for the code of each.

ghost use Rattle.lx_automaton.specs.Automata.{class_target, state_count, target_of};
ghost use Rattle.lx_c.specs.StateCode as states;
ghost use Rattle.std.specs.Prelude.{IfSome, ◌<◌, ◌≡◌};

use crate::options::Options;
use lx_tables::{State, Tables};

/// The states of tables, as code that is printed: in a text with an end of its own, or in one that ends with a NUL.
#[derive(Clone, Copy)]
pub struct CodedStates<'a> {
    pub options: &'a Options,
    pub tables: &'a Tables,
    pub nul_ends: bool,
}

impl<'a> CodedStates<'a> {
    /// Returns the states of these tables.
    pub fn new(options: &'a Options, tables: &'a Tables, nul_ends: bool) -> CodedStates<'a>
        ensures options { result.options.now ≡ options.now }
        ensures tables { result.tables.now ≡ tables.now }
        ensures end { result.nul_ends ≡ nul_ends }
    {
        CodedStates {
            options,
            tables,
            nul_ends,
        }
    }
}

/// Returns the target of a state's step on a byte.
pub fn target_of(tables: &Tables, state: u32, byte: u8) -> Option<u32>
    requires { state < state_count tables.now.machine }
    ensures target { result ≡ target_of tables.now.machine state byte }
    ensures below { IfSome result (λ t. t < state_count tables.now.machine) }
{
    class_target(tables, state, tables.class(byte))
}

/// Returns the step of a state in its code: byte 0 leads nowhere if it ends the text.
pub(crate) fn step_of(code: CodedStates<'_>, state: u32, byte: u16) -> Option<u32>
    requires state { state < state_count code.tables.now.machine }
    requires byte { byte < 256 }
    ensures step { result ≡ states.step_of code.entry.nul_ends code.entry.tables.now.machine state byte }
    ensures below { IfSome result (λ t. t < state_count code.entry.tables.now.machine) }
{
    if code.nul_ends && byte == 0 {
        return None;
    }
    target_of(code.tables, state, byte as u8)
}

/// Returns the target of a state's step on a class.
pub fn class_target(tables: &Tables, state: u32, class: u8) -> Option<u32>
    requires state { state < state_count tables.now.machine }
    requires class { class < tables.now.machine.width }
    ensures target { result ≡ class_target tables.now.machine state class }
    ensures below { IfSome result (λ t. t < state_count tables.now.machine) }
{
    match tables.class_step(State(state), class) {
        Some(target) => Some(target.0),
        None => None,
    }
}

/// Returns true if there is a step, and it leads to the wanted state, if one is.
pub fn leads(wanted: Option<u32>, target: Option<u32>) -> bool
    ensures { result ≡ states.leads wanted target }
{
    match (wanted, target) {
        (_, None) => false,
        (None, Some(_)) => true,
        (Some(state), Some(target)) => target == state,
    }
}

/// Returns the number of classes on which a state has such a step.
pub fn step_count(tables: &Tables, state: u32, wanted: Option<u32>) -> u32
    requires { state < state_count tables.now.machine }
    ensures { result ≡ states.step_count tables.now.machine state wanted }
{
    let mut count: u32 = 0;
    for class in 0..tables.classes() {
        let target = class_target(tables, state, class as u8);
        count += u32::from(leads(wanted, target));
    }
    count
}

/// Returns true if matches begin in a state.
pub(crate) fn is_start(tables: &Tables, state: u32) -> bool
    ensures { result ≡ states.is_start tables.now.machine state }
{
    for condition in 0..tables.conditions() {
        if tables.start(condition, false).0 == state || tables.start(condition, true).0 == state {
            return true;
        }
    }
    false
}

/// Returns true if some state has a step to a state.
pub(crate) fn is_entered(tables: &Tables, state: u32) -> bool
    ensures { result
        ≡ states.is_entered_by tables.now.machine state (state_count tables.now.machine) }
{
    let mut is_entered = false;
    for other in 0..tables.states() {
        is_entered = is_entered || step_count(tables, other, Some(state)) != 0;
    }
    is_entered
}
