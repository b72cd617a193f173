//! The automaton as arrays.

ghost use Rattle.lx_automaton.specs.Automata.{state_count};
ghost use Rattle.lx_c.specs.Actions.{array_text};
ghost use Rattle.lx_c.specs.Rows as rows;
ghost use Rattle.lx_c.specs.declared.templates.TheConstants.{CLASSES, ROWS, STARTS};
ghost use Rattle.std.specs.List.{list_any};
ghost use Rattle.std.specs.Prelude.{OnOk, length, ◌++◌, ◌<◌, ◌≡◌};

use crate::options::Options;
use crate::pushing::{
    PushResult, push, push_either, push_filled, push_number_then, push_numbered, push_type,
};
use crate::templates::{CLASSES, LINE_BEGIN, NO_LINE_BEGIN, ROWS, STARTS, WIDTH};
use crate::{greatest_word, rule_word, start_word, target_word};
use lx_tables::Tables;

/// Returns true if some condition has another start at line begin.
pub(crate) fn has_line_begin(tables: &Tables) -> bool
    ensures { result ≡ list_any rows.starts_differ tables.now.machine.starts }
{
    for condition in 0..tables.conditions() {
        if tables.start(condition, false).0 != tables.start(condition, true).0 {
            return true;
        }
    }
    false
}

fn push_zero_entries(text: &mut Vec<u8>, tables: &Tables) -> PushResult
    ensures { OnOk result
        (text.new.items ≡ text.old.items ++ rows.zero_entries tables.now.machine) }
{
    for class in 0..u32::from(tables.classes()) + 1 {
        push_number_then(text, 0, b",")?;
    }
    Ok(())
}

fn push_row(text: &mut Vec<u8>, tables: &Tables, state: u32) -> PushResult
    requires { state < state_count tables.now.machine }
    ensures { OnOk result
        (text.new.items ≡ text.old.items ++ rows.row_text tables.now.machine state) }
{
    for class in 0..tables.classes() {
        push_number_then(text, target_word(tables, state, class as u8), b",")?;
    }
    push_number_then(text, u64::from(rule_word(tables, state)), b",")?;
    push(text, b"\n")
}

fn push_start(text: &mut Vec<u8>, tables: &Tables, condition: u16) -> PushResult
    requires { condition < length tables.now.machine.starts }
    ensures { OnOk result
        (text.new.items ≡ text.old.items ++ rows.start_line tables.now.machine condition) }
{
    push_number_then(text, start_word(tables, condition, false), b",")?;
    push_number_then(text, start_word(tables, condition, true), b",")?;
    push(text, b"\n")
}

fn push_classes(text: &mut Vec<u8>, options: &Options, tables: &Tables) -> PushResult
    ensures { OnOk result (text.new.items
        ≡ text.old.items ++ array_text options.now CLASSES.now
        (rows.class_entries tables.now.machine)) }
{
    push_filled(text, options, CLASSES)?;
    for byte in 0..256u16 {
        push_number_then(text, u64::from(tables.class(byte as u8)), b",")?;
    }
    push(text, b"0};\n")
}

fn push_row_entries(text: &mut Vec<u8>, tables: &Tables) -> PushResult
    ensures { OnOk result (text.new.items ≡ text.old.items ++ rows.rows_text tables.now.machine) }
{
    push_zero_entries(text, tables)?;
    push(text, b"\n")?;
    for state in 0..tables.states() {
        push_row(text, tables, state)?;
    }
    Ok(())
}

// Appends the head of an array of words.
fn push_word_array(
    text: &mut Vec<u8>,
    options: &Options,
    tables: &Tables,
    head: &[u8],
) -> PushResult
    ensures { OnOk result (text.new.items
        ≡ text.old.items ++ rows.word_array_head options.now tables.now head.now) }
{
    push(text, b"static const ")?;
    push_type(text, greatest_word(tables))?;
    push_filled(text, options, head)
}

fn push_rows(text: &mut Vec<u8>, options: &Options, tables: &Tables) -> PushResult
    ensures { OnOk result (text.new.items ≡ text.old.items
        ++ rows.word_array options.now tables.now ROWS.now (rows.rows_text tables.now.machine)) }
{
    push_word_array(text, options, tables, ROWS)?;
    push_row_entries(text, tables)?;
    push(text, b"0};\n")
}

fn push_start_array(text: &mut Vec<u8>, options: &Options, tables: &Tables) -> PushResult
    ensures { OnOk result (text.new.items
        ≡ text.old.items ++ rows.word_array options.now tables.now STARTS.now
        (rows.start_lines tables.now.machine)) }
{
    push_word_array(text, options, tables, STARTS)?;
    for condition in 0..tables.conditions() {
        push_start(text, tables, condition)?;
    }
    push(text, b"0};\n")
}

/// Appends the arrays of the automaton.
pub(crate) fn push_automaton(text: &mut Vec<u8>, options: &Options, tables: &Tables) -> PushResult
    ensures { OnOk result
        (text.new.items ≡ text.old.items ++ rows.automaton_text options.now tables.now) }
{
    push_either(
        text,
        options,
        has_line_begin(tables),
        LINE_BEGIN,
        NO_LINE_BEGIN,
    )?;
    push_numbered(text, options, WIDTH, u32::from(tables.classes()), b"\n")?;
    push_classes(text, options, tables)?;
    push_rows(text, options, tables)?;
    push_start_array(text, options, tables)
}
