//! Targets of a state: those that are tested by marks, the others, and the one to which most bytes lead.

ghost use Rattle.lx_automaton.specs.Automata.{class_target, state_count};
ghost use Rattle.lx_c.specs.StateCode as states;
ghost use Rattle.std.specs.Prelude.{IfSome, ℕ, ◌<◌, ◌≡◌, ◌≤◌};

use crate::stepping::{CodedStates, class_target, is_start, leads, step_count, step_of};
use lx_tables::Tables;

// Returns true if the marks of a target are wrong on a class of bytes. The test by them comes after all others, or, if `comes_last` is false, first.
fn is_misfit(tables: &Tables, state: u32, comes_last: bool, target: u32, class: u8) -> bool
    requires state { state < state_count tables.now.machine }
    requires target { target < state_count tables.now.machine }
    requires class { class < tables.now.machine.width }
    ensures { result ≡ states.is_misfit tables.now.machine state comes_last target class }
{
    let step = class_target(tables, state, class);
    if !leads(Some(target), class_target(tables, target, class)) {
        return comes_last && leads(Some(target), step);
    }
    if comes_last {
        !leads(None, step)
    } else {
        !leads(Some(target), step)
    }
}

fn misfit_count(tables: &Tables, state: u32, comes_last: bool, target: u32) -> u32
    requires state { state < state_count tables.now.machine }
    requires target { target < state_count tables.now.machine }
    ensures { result ≡ states.misfit_count tables.now.machine state comes_last target }
{
    let mut count: u32 = 0;
    for class in 0..tables.classes() {
        count += u32::from(is_misfit(tables, state, comes_last, target, class as u8));
    }
    count
}

// Returns true if the steps to a target can be tested by its marks.
fn fits(tables: &Tables, state: u32, comes_last: bool, target: u32) -> bool
    requires state { state < state_count tables.now.machine }
    requires target { target < state_count tables.now.machine }
    ensures { result ≡ states.fits tables.now.machine state comes_last target }
{
    target != state
        && (step_count(tables, target, Some(target)) != 0
            && misfit_count(tables, state, comes_last, target) == 0)
}

// Returns the earlier one of such targets.
fn earlier_fit(
    tables: &Tables,
    state: u32,
    comes_last: bool,
    best: Option<u32>,
    target: Option<u32>,
) -> Option<u32>
    requires state { state < state_count tables.now.machine }
    requires best { IfSome best (λ t. t < state_count tables.now.machine) }
    requires target { IfSome target (λ t. t < state_count tables.now.machine) }
    ensures earlier { result ≡ states.earlier_fit tables.now.machine state comes_last best target }
    ensures below { IfSome result (λ t. t < state_count tables.now.machine) }
{
    if best.is_some() {
        return best;
    }
    let Some(other) = target else {
        return best;
    };
    if fits(tables, state, comes_last, other) {
        target
    } else {
        best
    }
}

// Returns the first one of such targets.
fn fitting_target(tables: &Tables, state: u32, comes_last: bool) -> Option<u32>
    requires { state < state_count tables.now.machine }
    ensures target { result ≡ states.fitting_target tables.now.machine state comes_last }
    ensures below { IfSome result (λ t. t < state_count tables.now.machine) }
{
    let mut best = None;
    for class in 0..tables.classes() {
        let target = class_target(tables, state, class as u8);
        best = earlier_fit(tables, state, comes_last, best, target);
    }
    best
}

/// Returns the target of the step that is tested before all cases.
pub(crate) fn first_target(tables: &Tables, state: u32) -> Option<u32>
    requires { state < state_count tables.now.machine }
    ensures target { result ≡ states.first_target tables.now.machine state }
    ensures below { IfSome result (λ t. t < state_count tables.now.machine) }
{
    if is_start(tables, state) {
        fitting_target(tables, state, false)
    } else {
        None
    }
}

/// Returns the target of the steps that are tested by marks, after all others.
pub(crate) fn marked_target(tables: &Tables, state: u32) -> Option<u32>
    requires { state < state_count tables.now.machine }
    ensures target { result ≡ states.marked_target tables.now.machine state }
    ensures below { IfSome result (λ t. t < state_count tables.now.machine) }
{
    fitting_target(tables, state, true)
}

// Returns a target that is neither the state itself nor the marked one.
fn other_of(state: u32, marked: Option<u32>, target: Option<u32>) -> Option<u32>
    ensures other { result ≡ states.other_of state marked target }
    ensures below { (n : ℕ) → IfSome target (λ t. t < n) → IfSome result (λ t. t < n) }
{
    let Some(other) = target else {
        return None;
    };
    if other == state {
        return None;
    }
    if marked == Some(other) {
        return None;
    }
    target
}

/// Returns such a target of a byte.
pub(crate) fn other_target(
    code: CodedStates<'_>,
    state: u32,
    marked: Option<u32>,
    byte: u16,
) -> Option<u32>
    requires state { state < state_count code.tables.now.machine }
    requires byte { byte < 256 }
    ensures target { result
        ≡ states.other_target code.entry.nul_ends code.entry.tables.now.machine state marked byte }
    ensures below { IfSome result (λ t. t < state_count code.entry.tables.now.machine) }
{
    other_of(state, marked, step_of(code, state, byte))
}

/// Returns the number of bytes that lead to other states.
pub(crate) fn single_count(code: CodedStates<'_>, state: u32, marked: Option<u32>) -> u32
    requires { state < state_count code.tables.now.machine }
    ensures { result
        ≡ states.single_count code.entry.nul_ends code.entry.tables.now.machine state marked }
{
    let mut count: u32 = 0;
    for byte in 0..256 {
        count += u32::from(leads(None, other_target(code, state, marked, byte)));
    }
    count
}

/// Returns true for the bytes that lead to another state, or, for None, for those that lead nowhere.
pub(crate) fn in_group(code: CodedStates<'_>, state: u32, group: Option<u32>, byte: u16) -> bool
    requires state { state < state_count code.tables.now.machine }
    requires byte { byte < 256 }
    ensures { result ≡ states.in_group code.entry.nul_ends code.entry.tables.now.machine state group byte }
{
    match group {
        None => !leads(None, step_of(code, state, byte)),
        Some(target) => leads(Some(target), other_target(code, state, None, byte)),
    }
}

/// Returns the number of such bytes below one.
pub(crate) fn group_count(code: CodedStates<'_>, state: u32, group: Option<u32>, below: u16) -> u32
    requires state { state < state_count code.tables.now.machine }
    requires below { below ≤ 256 }
    ensures { result ≡ states.group_count code.entry.nul_ends code.entry.tables.now.machine state group below }
{
    let mut count: u32 = 0;
    for byte in 0..below {
        count += u32::from(in_group(code, state, group, byte));
    }
    count
}

// Returns a target if more than half of all bytes lead there.
fn most_of(code: CodedStates<'_>, state: u32, target: Option<u32>) -> Option<u32>
    requires state { state < state_count code.tables.now.machine }
    requires target { IfSome target (λ t. t < state_count code.tables.now.machine) }
    ensures most { result ≡ states.most_of code.entry.nul_ends code.entry.tables.now.machine state target }
    ensures below { IfSome result (λ t. t < state_count code.entry.tables.now.machine) }
{
    let Some(_) = target else {
        return None;
    };
    if 128 < group_count(code, state, target, 256) {
        target
    } else {
        None
    }
}

/// Returns the state to which more than half of all bytes lead, byte 255 among them.
pub(crate) fn main_target(code: CodedStates<'_>, state: u32) -> Option<u32>
    requires { state < state_count code.tables.now.machine }
    ensures target { result ≡ states.main_target code.entry.nul_ends code.entry.tables.now.machine state }
    ensures below { IfSome result (λ t. t < state_count code.entry.tables.now.machine) }
{
    most_of(code, state, other_target(code, state, None, 255))
}
