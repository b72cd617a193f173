//! The loop of a state: the marks of the bytes on which it steps to itself, or the ranges of these.

ghost use Rattle.lx_automaton.specs.Automata.{state_count};
ghost use Rattle.lx_c.specs.StateCode as states;
ghost use Rattle.std.specs.Prelude.{OnOk, ◌++◌, ◌<◌, ◌≡◌, ◌≤◌};

use crate::pushing::{PushResult, push, push_filled, push_number, push_number_then, push_numbered};
use crate::row_numbers::rule_word;
use crate::state_templates::{HIGH, LOOP, LOW, MARKS, NEXT, RANGES, READ};
use crate::stepping::{CodedStates, is_entered, is_start, leads, step_count, step_of};

/// Returns 1 for a byte on which a state steps to itself.
pub(crate) fn mark(code: CodedStates<'_>, state: u32, byte: u16) -> u64
    requires state { state < state_count code.tables.now.machine }
    requires byte { byte < 256 }
    ensures mark { result ≡ states.mark code.entry.nul_ends code.entry.tables.now.machine state byte }
    ensures small { result ≤ 1 }
{
    if leads(Some(state), step_of(code, state, byte)) {
        1
    } else {
        0
    }
}

// Returns the mark of a state, or 0 after the last one.
fn mark_of(code: CodedStates<'_>, state: u32, byte: u16) -> u64
    requires { byte < 256 }
    ensures mark { result ≡ states.mark_of code.entry.nul_ends code.entry.tables.now.machine state byte }
    ensures small { result ≤ 1 }
{
    if state < code.tables.states() {
        mark(code, state, byte)
    } else {
        0
    }
}

// Returns the marks of four states from one on.
fn four_marks(code: CodedStates<'_>, state: u32, byte: u16) -> u64
    requires state { state ≤ 4294967292 }
    requires byte { byte < 256 }
    ensures marks { result ≡ states.four_marks code.entry.nul_ends code.entry.tables.now.machine state byte }
    ensures small { result ≤ 15 }
{
    mark_of(code, state, byte)
        + 2 * mark_of(code, state + 1, byte)
        + 4 * mark_of(code, state + 2, byte)
        + 8 * mark_of(code, state + 3, byte)
}

fn push_mark_line(text: &mut Vec<u8>, code: CodedStates<'_>, group: u32) -> PushResult
    requires { group ≤ states.max_group }
    ensures { OnOk result (text.new.items ≡ text.old.items
        ++ states.mark_line code.entry.nul_ends code.entry.tables.now.machine group) }
{
    for byte in 0..256u16 {
        let marks = four_marks(code, 8 * group, byte) + 16 * four_marks(code, 8 * group + 4, byte);
        push_number_then(text, marks, b",")?;
    }
    push(text, b"\n")
}

/// Appends the marks of all states: for each eight a line of bytes, in which each has a bit.
pub fn push_marks(text: &mut Vec<u8>, code: CodedStates<'_>) -> PushResult
    ensures { OnOk result (text.new.items ≡ text.old.items
        ++ states.marks_text code.entry.options.now code.entry.nul_ends code.entry.tables.now.machine) }
{
    push_filled(text, code.options, MARKS)?;
    for group in 0..code.tables.states() / 8 + 1 {
        push_mark_line(text, code, group)?;
    }
    push(text, b"0};\n")
}

// Returns true if a state steps to itself on a byte; if `staying` is false, true if it doesn't.
fn stays(code: CodedStates<'_>, state: u32, staying: bool, byte: u16) -> bool
    requires state { state < state_count code.tables.now.machine }
    requires byte { byte < 256 }
    ensures { result ≡ states.stays code.entry.nul_ends code.entry.tables.now.machine state staying byte }
{
    let is_loop = leads(Some(state), step_of(code, state, byte));
    if staying { is_loop } else { !is_loop }
}

// Returns true if a range of such bytes begins with a byte.
fn begins(code: CodedStates<'_>, state: u32, staying: bool, byte: u16) -> bool
    requires state { state < state_count code.tables.now.machine }
    requires byte { byte < 256 }
    ensures { result ≡ states.begins code.entry.nul_ends code.entry.tables.now.machine state staying byte }
{
    stays(code, state, staying, byte) && (byte == 0 || !stays(code, state, staying, byte - 1))
}

// Returns true if a range of such bytes ends with a byte.
fn ends(code: CodedStates<'_>, state: u32, staying: bool, byte: u16) -> bool
    requires state { state < state_count code.tables.now.machine }
    requires byte { byte < 256 }
    ensures { result ≡ states.ends code.entry.nul_ends code.entry.tables.now.machine state staying byte }
{
    stays(code, state, staying, byte) && (byte == 255 || !stays(code, state, staying, byte + 1))
}

// Returns the number of ranges of such bytes.
fn range_count(code: CodedStates<'_>, state: u32, staying: bool) -> u32
    requires { state < state_count code.tables.now.machine }
    ensures { result ≡ states.range_count code.entry.nul_ends code.entry.tables.now.machine state staying }
{
    let mut count: u32 = 0;
    for byte in 0..256 {
        count += u32::from(begins(code, state, staying, byte));
    }
    count
}

// Appends the test that a range of bytes begins with.
fn push_low_bound(
    text: &mut Vec<u8>,
    code: CodedStates<'_>,
    state: u32,
    staying: bool,
    byte: u16,
) -> PushResult
    requires state { state < state_count code.tables.now.machine }
    requires byte { byte < 256 }
    ensures { OnOk result (text.new.items ≡ text.old.items
        ++ states.low_bound code.entry.options.now code.entry.nul_ends code.entry.tables.now.machine state staying byte) }
{
    if !begins(code, state, staying, byte) {
        return Ok(());
    }
    if byte == 0 {
        return push(text, b"(1");
    }
    push_filled(text, code.options, LOW)?;
    push_number(text, u64::from(byte))
}

// Appends the test that a range of bytes ends with.
fn push_high_bound(
    text: &mut Vec<u8>,
    code: CodedStates<'_>,
    state: u32,
    staying: bool,
    byte: u16,
) -> PushResult
    requires state { state < state_count code.tables.now.machine }
    requires byte { byte < 256 }
    ensures { OnOk result (text.new.items ≡ text.old.items
        ++ states.high_bound code.entry.options.now code.entry.nul_ends code.entry.tables.now.machine state staying byte) }
{
    if !ends(code, state, staying, byte) {
        return Ok(());
    }
    if byte == 255 {
        return push(text, b") || ");
    }
    push_filled(text, code.options, HIGH)?;
    push_number_then(text, u64::from(byte), b") || ")
}

fn push_ranges(text: &mut Vec<u8>, code: CodedStates<'_>, state: u32, staying: bool) -> PushResult
    requires { state < state_count code.tables.now.machine }
    ensures { OnOk result (text.new.items ≡ text.old.items
        ++ states.ranges_text code.entry.options.now code.entry.nul_ends code.entry.tables.now.machine state staying) }
{
    for byte in 0..256 {
        push_low_bound(text, code, state, staying, byte)?;
        push_high_bound(text, code, state, staying, byte)?;
    }
    push(text, b"0")
}

// Appends the loop of a state up to the rule that it accepts.
fn push_loop_head(text: &mut Vec<u8>, code: CodedStates<'_>, state: u32) -> PushResult
    requires { state < state_count code.tables.now.machine }
    ensures { OnOk result (text.new.items ≡ text.old.items
        ++ states.loop_head code.entry.options.now code.entry.nul_ends code.entry.tables.now.machine state) }
{
    if range_count(code, state, true) < 3 {
        push_numbered(text, code.options, RANGES, state, b", ")?;
        return push_ranges(text, code, state, true);
    }
    if range_count(code, state, false) < 3 {
        push_numbered(text, code.options, RANGES, state, b", !(")?;
        push_ranges(text, code, state, false)?;
        return push(text, b")");
    }
    push_numbered(text, code.options, LOOP, state, b"")
}

// Appends the read of the next byte. Before a state in which matches begin, and to which no step leads, the text isn't at its end.
fn push_read(text: &mut Vec<u8>, code: CodedStates<'_>, state: u32) -> PushResult
    requires { state < state_count code.tables.now.machine }
    ensures { OnOk result (text.new.items ≡ text.old.items
        ++ states.read_code code.entry.options.now code.entry.tables.now.machine state) }
{
    if is_start(code.tables, state) && !is_entered(code.tables, state) {
        push_filled(text, code.options, NEXT)
    } else {
        push_numbered(
            text,
            code.options,
            READ,
            rule_word(code.tables, state),
            b")\n",
        )
    }
}

/// Appends the loop of a state, or the read of the next byte if it has none.
pub(crate) fn push_loop(text: &mut Vec<u8>, code: CodedStates<'_>, state: u32) -> PushResult
    requires { state < state_count code.tables.now.machine }
    ensures { OnOk result (text.new.items ≡ text.old.items
        ++ states.loop_code code.entry.options.now code.entry.nul_ends code.entry.tables.now.machine state) }
{
    if step_count(code.tables, state, Some(state)) == 0 {
        return push_read(text, code, state);
    }
    push_loop_head(text, code, state)?;
    push(text, b", ")?;
    push_number_then(text, u64::from(rule_word(code.tables, state)), b")\n")
}
