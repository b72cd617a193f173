//! Byte classes: two bytes are in one class exactly if every state has equal steps on both.

ghost use Rattle.std.specs.Prelude.{◌≡◌, ◌<◌, ◌≤◌, ◌+◌, ◌*◌, ◌↔◌, ℕ, IsTrue, IfOk, OnOk, IfSome, IfNone, MatchOption, length, slice_index, vec_len};
ghost use Rattle.lx_automaton.specs.Automata.{IsMachine, HasByteClasses, HasSameSteps, state_count};
ghost use Rattle.lx_automaton.specs.Classing.{HasSameColumns, AreNumbersBelow, IsNumberFor, AreRows};
ghost use Rattle.lx_automaton.specs.EncodedOptions.{machine_of};

use crate::automaton::Automaton;
use crate::draft::AutomatonDraft;
use std::alloc::{AllocError, Global};

// Number of bytes.
const BYTES: usize = 256;

/// Returns true if one of these states has different steps on the two classes.
fn are_distinguished(
    draft: &AutomatonDraft,
    class: usize,
    other: usize,
    distinguishing_states: &[usize],
) -> bool
    requires class { class < draft.now.width }
    requires other { other < draft.now.width }
    ensures { IsTrue result → HasSameColumns draft.now class other → ⊥ }
{
    for state in distinguishing_states {
        if *state < draft.states()
            && draft.encoded_target(*state, class) != draft.encoded_target(*state, other)
        {
            return true;
        }
    }
    false
}

/// Returns the first state with different steps on the two classes.
fn first_distinguishing_state(draft: &AutomatonDraft, class: usize, other: usize) -> Option<usize>
    requires class { class < draft.now.width }
    requires other { other < draft.now.width }
    ensures { MatchOption result (HasSameColumns draft.now class other)
        (λ _. HasSameColumns draft.now class other → ⊥) }
{
    for state in 0..draft.states() {
        if draft.encoded_target(state, class) != draft.encoded_target(state, other) {
            return Some(state);
        }
    }
    None
}

/// Returns true if every state has equal steps on the two classes. Tries the states that distinguish classes first. Each one of them splits the
/// classes further, so there are at most 255, and seldom are all states tried.
fn has_same_columns(
    draft: &AutomatonDraft,
    class: usize,
    other: usize,
    distinguishing_states: &mut Vec<usize>,
) -> Result<bool, AllocError>
    requires class { class < draft.now.width }
    requires other { other < draft.now.width }
    ensures { IfOk result (λ same. IsTrue same ↔ HasSameColumns draft.now class other) }
{
    if are_distinguished(draft, class, other, distinguishing_states) {
        return Ok(false);
    }
    match first_distinguishing_state(draft, class, other) {
        None => Ok(true),
        Some(state) => {
            distinguishing_states.push(state)?;
            Ok(false)
        }
    }
}

/// Returns the first byte below this one that has the same provisional class.
fn earlier_byte(draft: &AutomatonDraft, byte: usize) -> Option<usize>
    requires { byte < 256 }
    ensures below { IfSome result (λ b. b < byte) }
    ensures same { IfSome result
        (λ b. slice_index draft.now.classes b ≡ slice_index draft.now.classes byte) }
{
    let class = draft.class(byte);
    for earlier in 0..byte {
        if draft.class(earlier) == class {
            return Some(earlier);
        }
    }
    None
}

/// Returns the number of the representative with the class's column, or the next number if there is none.
fn number_for(
    draft: &AutomatonDraft,
    representatives: &[u8],
    class: usize,
    distinguishing_states: &mut Vec<usize>,
) -> Result<usize, AllocError>
    requires class { class < draft.now.width }
    requires classes { (j : ℕ) → j < length representatives.now
        → slice_index representatives.now j < draft.now.width }
    ensures { IfOk result (IsNumberFor draft.now representatives.now class) }
{
    for number in 0..representatives.len() {
        if has_same_columns(
            draft,
            representatives[number] as usize,
            class,
            distinguishing_states,
        )? {
            return Ok(number);
        }
    }
    Ok(representatives.len())
}

/// Numbers one more byte.
fn add_byte(
    draft: &AutomatonDraft,
    byte: usize,
    numbers: &mut Vec<u8>,
    representatives: &mut Vec<u8>,
    distinguishing_states: &mut Vec<usize>,
) -> Result<(), AllocError>
    requires byte { byte < 256 }
    requires numbers { AreNumbersBelow draft.now byte numbers.old.items representatives.old.items }
    ensures { OnOk result
        (AreNumbersBelow draft.now (byte + 1) numbers.new.items representatives.new.items) }
{
    if let Some(earlier) = earlier_byte(draft, byte) {
        let number = numbers[earlier];
        numbers.push(number)?;
        return Ok(());
    }
    let class = draft.class(byte);
    let number = number_for(draft, representatives, class, distinguishing_states)?;
    numbers.push(number as u8)?;
    if number < representatives.len() {
        return Ok(());
    }
    representatives.push(class as u8)?;
    Ok(())
}

/// Adds the row of a state over the representatives.
fn add_row(
    draft: &AutomatonDraft,
    representatives: &[u8],
    state: usize,
    encoded: &mut Vec<u16>,
) -> Result<(), AllocError>
    requires state { state < state_count draft.now }
    requires classes { (j : ℕ) → j < length representatives.now
        → slice_index representatives.now j < draft.now.width }
    requires rows { AreRows draft.now representatives.now encoded.old.items
        (state * length representatives.now) }
    ensures { OnOk result (AreRows draft.now representatives.now encoded.new.items
        ((state + 1) * length representatives.now)) }
{
    for number in 0..representatives.len() {
        let target = draft.encoded_target(state, representatives[number] as usize);
        encoded.push(target)?;
    }
    Ok(())
}

/// Makes the rows of all states over the representatives.
fn rows_over(
    alloc: Global,
    draft: &AutomatonDraft,
    representatives: &[u8],
) -> Result<Vec<u16>, AllocError>
    requires classes { (j : ℕ) → j < length representatives.now
        → slice_index representatives.now j < draft.now.width }
    ensures { IfOk result (λ encoded.
        AreRows draft.now representatives.now encoded.items
        (state_count draft.now * length representatives.now)) }
{
    let mut encoded = Vec::new(alloc);
    for state in 0..draft.states() {
        add_row(draft, representatives, state, &mut encoded)?;
    }
    Ok(encoded)
}

impl Automaton {
    /// Makes an automaton of these lists, like `of`, over its byte classes. The given classes may be finer.
    pub fn over_byte_classes(
        alloc: Global,
        starts: Vec<(u32, u32)>,
        classes: Vec<u8>,
        width: usize,
        accepted: Vec<u16>,
        targets: Vec<u16>,
    ) -> Result<Automaton, AllocError>
        requires { IsMachine
            (machine_of starts.items classes.items width accepted.items targets.items) }
        ensures machine { IfOk result (λ a. IsMachine a) }
        ensures classes { IfOk result (λ a. HasByteClasses a) }
        ensures steps { IfOk result (λ a.
            HasSameSteps
            (machine_of starts.items classes.items width accepted.items targets.items) a) }
    {
        let draft = AutomatonDraft::of(starts, classes, width, accepted, targets);
        with_byte_classes(alloc, &draft)
    }
}

/// Makes the automaton with equal steps over byte classes.
pub fn with_byte_classes(alloc: Global, draft: &AutomatonDraft) -> Result<Automaton, AllocError>
    ensures machine { IfOk result (λ a. IsMachine a) }
    ensures classes { IfOk result (λ a. HasByteClasses a) }
    ensures steps { IfOk result (λ a. HasSameSteps draft.now a) }
{
    let mut numbers = Vec::new(alloc);
    let mut representatives = Vec::new(alloc);
    let mut distinguishing_states = Vec::new(alloc);
    for byte in 0..BYTES {
        add_byte(
            draft,
            byte,
            &mut numbers,
            &mut representatives,
            &mut distinguishing_states,
        )?;
    }
    let targets = rows_over(alloc, draft, &representatives)?;
    let starts = Vec::from_slice(alloc, &draft.starts)?;
    let accepted = Vec::from_slice(alloc, &draft.accepted)?;
    Ok(Automaton::of(starts, numbers, representatives.len(), accepted, targets))
}
