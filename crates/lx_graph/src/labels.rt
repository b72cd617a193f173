//! Appends the labels of the graph's nodes and edges to a text. If an allocation fails, a part was appended.

ghost use Rattle.std.specs.Prelude.{◌≡◌, ◌<◌, ◌++◌, OnOk, codes, decimal, length, map, option_map};
ghost use Rattle.std.specs.List.{flat_map};
ghost use Rattle.lx_automaton.specs.Automata.{state_count};
ghost use Rattle.lx_rules.specs.views.Rules.{names_view};
ghost use Rattle.lx_tables.specs.Model.{rule_at};
ghost use Rattle.lx_graph.specs.Labels as specs;

use itoa::Buffer;
use lx_rules::rule::{Kind, Step};
use lx_tables::{State, Tables};
use std::alloc::AllocError;

fn push_number(text: &mut Vec<u8>, number: u64) -> Result<(), AllocError>
    ensures { OnOk result (text.new.items ≡ text.old.items ++ decimal number) }
{
    let mut digits = Buffer::new();
    text.extend_from_slice(digits.format(number).as_bytes())
}

/// Appends bytes and then a number.
pub(crate) fn push_numbered(
    text: &mut Vec<u8>,
    before: &[u8],
    number: u32,
) -> Result<(), AllocError>
    ensures { OnOk result (text.new.items ≡ text.old.items ++ (before.now ++ decimal number)) }
{
    text.extend_from_slice(before)?;
    push_number(text, u64::from(number))
}

fn small_digit(n: u8) -> u8
    requires { n < 16 }
    ensures { result ≡ specs.small_digit n }
{
    if n < 10 { b'0' + n } else { b'a' + (n - 10) }
}

fn is_plain(byte: u8) -> bool
    ensures { result ≡ specs.is_plain byte }
{
    32 < byte
        && (byte < 127
            && !(byte == b'"'
                || (byte == b'-'
                    || (byte == b'^' || (byte == b'[' || (byte == b'\\' || byte == b']'))))))
}

fn push_byte(text: &mut Vec<u8>, byte: u8) -> Result<(), AllocError>
    ensures { OnOk result (text.new.items ≡ text.old.items ++ specs.byte_label byte) }
{
    if is_plain(byte) {
        return text.extend_from_slice(&[byte]);
    }
    text.extend_from_slice(b"\\\\x")?;
    text.extend_from_slice(&[small_digit(byte / 16), small_digit(byte % 16)])
}

fn leads(tables: &Tables, state: u32, target: u32, byte: u8) -> bool
    requires { state < state_count tables.now.machine }
    ensures { result ≡ specs.leads tables.now.machine state target byte }
{
    match tables.step(State(state), byte) {
        None => false,
        Some(next) => next.0 == target,
    }
}

// Returns true if a range of bytes begins with this one.
fn opens(tables: &Tables, state: u32, target: u32, byte: u8) -> bool
    requires { state < state_count tables.now.machine }
    ensures { result ≡ specs.opens (specs.leads tables.now.machine state target) byte }
{
    byte == 0 || !leads(tables, state, target, byte - 1)
}

// Returns true if a range of bytes ends with this one.
fn closes(tables: &Tables, state: u32, target: u32, byte: u8) -> bool
    requires { state < state_count tables.now.machine }
    ensures { result ≡ specs.closes (specs.leads tables.now.machine state target) byte }
{
    byte == 255 || !leads(tables, state, target, byte + 1)
}

fn push_open(text: &mut Vec<u8>, closed: bool, byte: u8) -> Result<(), AllocError>
    ensures { OnOk result (text.new.items ≡ text.old.items ++ specs.open_label closed byte) }
{
    text.extend_from_slice(b"[")?;
    push_byte(text, byte)?;
    if closed {
        text.extend_from_slice(b"]")?;
    }
    Ok(())
}

fn push_close(text: &mut Vec<u8>, closed: bool, byte: u8) -> Result<(), AllocError>
    ensures { OnOk result (text.new.items ≡ text.old.items ++ specs.close_label closed byte) }
{
    if closed {
        text.extend_from_slice(b"-")?;
        push_byte(text, byte)?;
        text.extend_from_slice(b"]")?;
    }
    Ok(())
}

// Appends the part that a byte adds to the ranges on which the state steps to the target.
fn push_range_part(
    text: &mut Vec<u8>,
    tables: &Tables,
    state: u32,
    target: u32,
    byte: u8,
) -> Result<(), AllocError>
    requires { state < state_count tables.now.machine }
    ensures { OnOk result (text.new.items ≡ text.old.items
        ++ specs.range_part (specs.leads tables.now.machine state target) byte) }
{
    if !leads(tables, state, target, byte) {
        return Ok(());
    }
    let closed = closes(tables, state, target, byte);
    if opens(tables, state, target, byte) {
        push_open(text, closed, byte)
    } else {
        push_close(text, closed, byte)
    }
}

fn push_range_at(
    text: &mut Vec<u8>,
    tables: &Tables,
    state: u32,
    target: u32,
    byte: u16,
) -> Result<(), AllocError>
    requires state { state < state_count tables.now.machine }
    requires byte { byte < 256 }
    ensures { OnOk result (text.new.items ≡ text.old.items
        ++ specs.range_part (specs.leads tables.now.machine state target) byte) }
{
    push_range_part(text, tables, state, target, byte as u8)
}

/// Appends the ranges of the bytes on which the state steps to the target.
pub(crate) fn push_ranges(
    text: &mut Vec<u8>,
    tables: &Tables,
    state: u32,
    target: u32,
) -> Result<(), AllocError>
    requires { state < state_count tables.now.machine }
    ensures { OnOk result
        (text.new.items ≡ text.old.items ++ specs.ranges tables.now.machine state target) }
{
    for byte in 0..256 {
        push_range_at(text, tables, state, target, byte)?;
    }
    Ok(())
}

/// Appends the name of a condition, or its number.
pub(crate) fn push_condition(
    text: &mut Vec<u8>,
    names: &[Vec<u8>],
    condition: u16,
) -> Result<(), AllocError>
    ensures { OnOk result (text.new.items
        ≡ text.old.items ++ specs.condition_label (names_view names.now) condition) }
{
    if usize::from(condition) < names.len() {
        text.extend_from_slice(&names[usize::from(condition)])
    } else {
        push_number(text, u64::from(condition))
    }
}

fn push_kind(text: &mut Vec<u8>, tables: &Tables, kind: Kind) -> Result<(), AllocError>
    ensures { OnOk result (text.new.items ≡ text.old.items ++ specs.kind_label tables.now kind) }
{
    match kind {
        Kind::Name(number) => {
            if number < tables.kinds() {
                text.extend_from_slice(tables.kind(number))?;
            }
            Ok(())
        }
        Kind::Number(number) => push_number(text, u64::from(number)),
    }
}

fn push_step(
    text: &mut Vec<u8>,
    tables: &Tables,
    names: &[Vec<u8>],
    step: Step,
) -> Result<(), AllocError>
    ensures { OnOk result (text.new.items
        ≡ text.old.items ++ specs.step_label tables.now (names_view names.now) step) }
{
    match step {
        Step::Echo => text.extend_from_slice(b"\\nECHO"),
        Step::Begin(condition) => {
            text.extend_from_slice(b"\\nBEGIN ")?;
            push_condition(text, names, condition)
        }
        Step::Return(kind) => {
            text.extend_from_slice(b"\\n")?;
            push_kind(text, tables, kind)
        }
    }
}

fn push_steps(
    text: &mut Vec<u8>,
    tables: &Tables,
    names: &[Vec<u8>],
    steps: &[Step],
) -> Result<(), AllocError>
    ensures { OnOk result (text.new.items ≡ text.old.items
        ++ flat_map (specs.step_label tables.now (names_view names.now)) steps.now) }
{
    for step in steps {
        push_step(text, tables, names, *step)?;
    }
    Ok(())
}

/// Appends the action of a rule.
pub(crate) fn push_action(
    text: &mut Vec<u8>,
    tables: &Tables,
    names: &[Vec<u8>],
    rule: u16,
) -> Result<(), AllocError>
    requires { rule < length tables.now.rules }
    ensures { OnOk result (text.new.items ≡ text.old.items
        ++ specs.action_label tables.now (names_view names.now) (rule_at tables.now rule)) }
{
    if tables.cut(rule) {
        text.extend_from_slice(b"\\n$")?;
    }
    let steps = tables.steps(rule);
    if steps.is_empty() {
        text.extend_from_slice(b"\\n;")
    } else {
        push_steps(text, tables, names, steps)
    }
}
