//! The automaton as arrays, in which byte 0 leads nowhere.

ghost use Rattle.std.specs.List.{flat_map, range_with_len};
ghost use Rattle.std.specs.Prelude.{codes, false, length, IfOk, OnOk, ◌++◌, ◌<◌, ◌≡◌};
ghost use Rattle.lx_automaton.specs.Automata.{accepted_by, class_target, start_of, state_count};
ghost use Rattle.lx_c.specs.Words.{rule_word};
ghost use Rattle.lx_lex.specs.Arrays as arrays;

use lx_automaton::{Automaton, State};
use lx_c::pushing::{PushResult, push, push_number_then, push_type};
use lx_tables::Tables;
use std::alloc::{AllocError, Global};

// Returns the place where the row of a state begins.
fn row_of(automaton: &Automaton, state: State) -> u64
    ensures { result ≡ arrays.row_of automaton.now state.0 }
{
    (u64::from(state.0) + 1) * (u64::from(automaton.classes()) + 2)
}

// Returns the place of the row to which a state steps on a class, or 0.
fn target_word(automaton: &Automaton, state: u32, class: u8) -> u64
    requires state { state < state_count automaton.now }
    requires class { class < automaton.now.width }
    ensures { result
        ≡ arrays.target_word automaton.now (class_target automaton.now state class) }
{
    match automaton.class_step(State(state), class) {
        None => 0,
        Some(target) => row_of(automaton, target),
    }
}

// Returns one more than the number that a state accepts, or 0 if it accepts none.
fn accepted_word(automaton: &Automaton, state: u32) -> u64
    requires { state < state_count automaton.now }
    ensures { result ≡ rule_word (accepted_by automaton.now state) }
{
    match automaton.accepts(State(state)) {
        None => 0,
        Some(number) => u64::from(number) + 1,
    }
}

// Returns an upper bound of all words of rows, if the states accept numbers below `numbers`.
fn greatest_word(automaton: &Automaton, numbers: u64) -> u64
    ensures { result ≡ arrays.greatest_word automaton.now numbers }
{
    let words = (u64::from(automaton.classes()) + 2) * u64::from(automaton.states());
    words.max(numbers)
}

fn class_word(automaton: &Automaton, byte: u8) -> u64
    ensures { result ≡ arrays.class_word automaton.now byte }
{
    if byte == 0 {
        u64::from(automaton.classes()) + 1
    } else {
        u64::from(automaton.class(byte))
    }
}

// Appends the classes of the bytes.
fn push_classes(text: &mut Vec<u8>, automaton: &Automaton) -> PushResult
    ensures { OnOk result
        (text.new.items ≡ text.old.items ++ arrays.class_entries automaton.now) }
{
    for byte in 0..256u16 {
        push_number_then(text, class_word(automaton, byte as u8), b",")?;
    }
    Ok(())
}

fn push_zero_entries(text: &mut Vec<u8>, automaton: &Automaton) -> PushResult
    ensures { OnOk result
        (text.new.items ≡ text.old.items ++ arrays.zero_entries automaton.now) }
{
    for class in 0..u32::from(automaton.classes()) + 2 {
        push_number_then(text, 0, b",")?;
    }
    Ok(())
}

fn push_row(text: &mut Vec<u8>, automaton: &Automaton, state: u32) -> PushResult
    requires { state < state_count automaton.now }
    ensures { OnOk result
        (text.new.items ≡ text.old.items ++ arrays.row_text automaton.now state) }
{
    for class in 0..automaton.classes() {
        push_number_then(text, target_word(automaton, state, class as u8), b",")?;
    }
    push_number_then(text, accepted_word(automaton, state), b",")?;
    push(text, b"0,\n")
}

// Appends the rows: one of zeros, and then one for each state.
fn push_rows(text: &mut Vec<u8>, automaton: &Automaton) -> PushResult
    ensures { OnOk result
        (text.new.items ≡ text.old.items ++ arrays.rows_text automaton.now) }
{
    push_zero_entries(text, automaton)?;
    push(text, b"\n")?;
    for state in 0..automaton.states() {
        push_row(text, automaton, state)?;
    }
    Ok(())
}

fn push_start(text: &mut Vec<u8>, automaton: &Automaton, condition: u16) -> PushResult
    requires { condition < length automaton.now.starts }
    ensures { OnOk result
        (text.new.items ≡ text.old.items ++ arrays.start_line automaton.now condition) }
{
    push_number_then(
        text,
        row_of(automaton, automaton.start(condition, false)),
        b",",
    )?;
    push_number_then(
        text,
        row_of(automaton, automaton.start(condition, true)),
        b",",
    )?;
    push(text, b"\n")
}

// Appends the starts of the conditions.
fn push_starts(text: &mut Vec<u8>, automaton: &Automaton) -> PushResult
    ensures { OnOk result
        (text.new.items ≡ text.old.items ++ arrays.start_lines automaton.now) }
{
    for condition in 0..automaton.conditions() {
        push_start(text, automaton, condition)?;
    }
    Ok(())
}

// Appends the beginning of an array whose numbers are at most this.
fn push_head(text: &mut Vec<u8>, most: u64, prefix: &[u8], name: &[u8]) -> PushResult
    ensures { OnOk result (text.new.items
        ≡ text.old.items ++ arrays.head_text most (arrays.named prefix.now name.now)) }
{
    push(text, b"static const ")?;
    push_type(text, most)?;
    push(text, b" ")?;
    push(text, prefix)?;
    push(text, name)?;
    push(text, b"[] = {\n")
}

fn push_class_array(text: &mut Vec<u8>, automaton: &Automaton, prefix: &[u8]) -> PushResult
    ensures { OnOk result
        (text.new.items ≡ text.old.items ++ arrays.class_array prefix.now automaton.now) }
{
    push_head(text, u64::from(automaton.classes()) + 1, prefix, b"class")?;
    push_classes(text, automaton)?;
    push(text, b"0};\n")
}

fn push_row_array(
    text: &mut Vec<u8>,
    automaton: &Automaton,
    numbers: u64,
    prefix: &[u8],
) -> PushResult
    ensures { OnOk result
        (text.new.items ≡ text.old.items ++ arrays.row_array prefix.now automaton.now numbers) }
{
    push_head(text, greatest_word(automaton, numbers), prefix, b"rows")?;
    push_rows(text, automaton)?;
    push(text, b"0};\n")
}

fn push_start_array(
    text: &mut Vec<u8>,
    automaton: &Automaton,
    numbers: u64,
    prefix: &[u8],
) -> PushResult
    ensures { OnOk result
        (text.new.items ≡ text.old.items ++ arrays.start_array prefix.now automaton.now numbers) }
{
    push_head(text, greatest_word(automaton, numbers), prefix, b"first")?;
    push_starts(text, automaton)?;
    push(text, b"0};\n")
}

/// Appends the arrays of an automaton whose states accept numbers below `numbers`. The names of the arrays begin with the prefix.
pub(crate) fn push_arrays(
    text: &mut Vec<u8>,
    automaton: &Automaton,
    numbers: u64,
    prefix: &[u8],
) -> PushResult
    ensures { OnOk result
        (text.new.items ≡ text.old.items ++ arrays.arrays_text prefix.now automaton.now numbers) }
{
    push_class_array(text, automaton, prefix)?;
    push_row_array(text, automaton, numbers, prefix)?;
    push_start_array(text, automaton, numbers, prefix)
}

/// Returns the arrays of the automaton of tables.
pub(crate) fn arrays_of(alloc: Global, tables: &Tables) -> Result<Vec<u8>, AllocError>
    ensures { IfOk result (λ text. text.items
        ≡ arrays.arrays_text (codes "yy_") tables.now.machine (length tables.now.rules)) }
{
    let mut text = Vec::new(alloc);
    let rules = u64::from(tables.rules());
    push_arrays(&mut text, tables.automaton(), rules, b"yy_")?;
    Ok(text)
}

/// Returns the arrays that find the ends of tokens: classes and rows, without the starts of conditions.
pub(crate) fn cut_arrays_of(alloc: Global, tables: &Tables) -> Result<Vec<u8>, AllocError>
    ensures { IfOk result (λ text. text.items ≡ arrays.cut_arrays_text tables.now) }
{
    let automaton = tables.automaton();
    let rules = u64::from(tables.rules());
    let mut text = Vec::new(alloc);
    push_class_array(&mut text, automaton, b"yy_cut_")?;
    push_row_array(&mut text, automaton, rules, b"yy_cut_")?;
    Ok(text)
}

/// Returns the place where the row begins in which a condition starts. Returns 0 for a condition that the tables don't have.
pub(crate) fn start_row(tables: &Tables, condition: u16) -> u64
    ensures { condition < length tables.now.machine.starts
        → result ≡ arrays.row_of tables.now.machine (start_of tables.now.machine condition false) }
{
    if condition < tables.conditions() {
        row_of(tables.automaton(), tables.start(condition, false))
    } else {
        0
    }
}

/// Returns the number of lines that end in a text.
pub(crate) fn lines_in(text: &[u8]) -> u32 {
    let mut lines: u32 = 0;
    for byte in text {
        if *byte == b'\n' {
            lines = lines.saturating_add(1);
        }
    }
    lines
}
