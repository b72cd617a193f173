//! A scanner as code for each state, of a text with an end of its own.

ghost use Rattle.lx_automaton.specs.Automata.{start_of};
ghost use Rattle.lx_c.specs.DirectCode as direct;
ghost use Rattle.std.specs.List.{list_any};
ghost use Rattle.std.specs.Prelude.{OnOk, length, ◌++◌, ◌<◌, ◌≡◌};

use crate::direct_templates::{
    AT_LINE_BEGIN, BACK, BEGIN_MATCH, BEGIN_STATES, BEHIND_LINE_END, END_MATCH, GOTO_RULE_OF,
    GOTO_STATE, MATCHED, MAY_BE_EMPTY, NO_RULE, NONE_IS_EMPTY, RULE_LABEL, SKIPPED,
};
use crate::loops::push_marks;
use crate::options::Options;
use crate::pushing::{PushResult, push, push_either, push_filled, push_number, push_numbered};
use crate::row_numbers::rule_word;
use crate::rows::has_line_begin;
use crate::state_code::push_state_codes;
use crate::state_templates::CASE;
use crate::stepping::CodedStates;
use crate::templates::{LINE_BEGIN, NO_LINE_BEGIN};
use lx_tables::Tables;

// Returns true if a match may be empty: some condition starts in a state that accepts a rule.
fn may_be_empty(tables: &Tables) -> bool
    ensures { result
        ≡ list_any (direct.accepts_at_once tables.now.machine) tables.now.machine.starts }
{
    for condition in 0..tables.conditions() {
        if rule_word(tables, tables.start(condition, false).0) != 0
            || rule_word(tables, tables.start(condition, true).0) != 0
        {
            return true;
        }
    }
    false
}

/// Appends the arrays and macros of code for each state: the marks of the states, if line begins make
/// a difference, and if a match may be empty.
pub(crate) fn push_direct_arrays(
    text: &mut Vec<u8>,
    options: &Options,
    tables: &Tables,
) -> PushResult
    ensures { OnOk result
        (text.new.items ≡ text.old.items ++ direct.direct_arrays_text options.now tables.now) }
{
    push_either(
        text,
        options,
        has_line_begin(tables),
        LINE_BEGIN,
        NO_LINE_BEGIN,
    )?;
    push_either(
        text,
        options,
        may_be_empty(tables),
        MAY_BE_EMPTY,
        NONE_IS_EMPTY,
    )?;
    push_marks(text, CodedStates::new(options, tables, false))
}

// Appends the start of a condition, by a test for line begin.
fn push_start(
    text: &mut Vec<u8>,
    options: &Options,
    test: &[u8],
    tables: &Tables,
    condition: u16,
) -> PushResult
    requires { condition < length tables.now.machine.starts }
    ensures { OnOk result (text.new.items ≡ text.old.items
        ++ direct.start_code options.now test.now tables.now.machine condition) }
{
    push(text, CASE)?;
    push_number(text, u64::from(condition))?;
    push_numbered(text, options, test, tables.start(condition, true).0, b";")?;
    push_numbered(
        text,
        options,
        GOTO_STATE,
        tables.start(condition, false).0,
        b";\n",
    )
}

fn push_starts(text: &mut Vec<u8>, options: &Options, test: &[u8], tables: &Tables) -> PushResult
    ensures { OnOk result (text.new.items
        ≡ text.old.items ++ direct.start_codes options.now test.now tables.now.machine) }
{
    for condition in 0..tables.conditions() {
        push_start(text, options, test, tables, condition)?;
    }
    Ok(())
}

fn push_rule_cases(text: &mut Vec<u8>, options: &Options, tables: &Tables) -> PushResult
    ensures { OnOk result
        (text.new.items ≡ text.old.items ++ direct.rule_cases options.now tables.now) }
{
    for rule in 0..tables.rules() {
        let word = u32::from(rule) + 1;
        push(text, CASE)?;
        push_number(text, u64::from(word))?;
        push_numbered(text, options, GOTO_RULE_OF, word, b";\n")?;
    }
    Ok(())
}

fn push_rule_codes(text: &mut Vec<u8>, options: &Options, tables: &Tables) -> PushResult
    ensures { OnOk result
        (text.new.items ≡ text.old.items ++ direct.rule_codes options.now tables.now) }
{
    for rule in 0..tables.rules() {
        let word = u32::from(rule) + 1;
        push_numbered(text, options, RULE_LABEL, word, b":\n")?;
        push_numbered(text, options, MATCHED, word, b")\n")?;
    }
    Ok(())
}

fn push_states(text: &mut Vec<u8>, options: &Options, tables: &Tables) -> PushResult
    ensures { OnOk result
        (text.new.items ≡ text.old.items ++ direct.states_text options.now tables.now.machine) }
{
    push_filled(text, options, BEGIN_MATCH)?;
    push_starts(text, options, AT_LINE_BEGIN, tables)?;
    push_filled(text, options, BEGIN_STATES)?;
    push_state_codes(text, CodedStates::new(options, tables, false))
}

fn push_rules(text: &mut Vec<u8>, options: &Options, tables: &Tables) -> PushResult
    ensures { OnOk result
        (text.new.items ≡ text.old.items ++ direct.rules_text options.now tables.now) }
{
    push_filled(text, options, BACK)?;
    push_rule_cases(text, options, tables)?;
    push_filled(text, options, NO_RULE)?;
    push_rule_codes(text, options, tables)?;
    push_filled(text, options, SKIPPED)
}

/// Appends what looks for the next match.
pub(crate) fn push_direct_walk(text: &mut Vec<u8>, options: &Options, tables: &Tables) -> PushResult
    ensures { OnOk result
        (text.new.items ≡ text.old.items ++ direct.direct_walk_text options.now tables.now) }
{
    push_states(text, options, tables)?;
    push_rules(text, options, tables)?;
    push_starts(text, options, BEHIND_LINE_END, tables)?;
    push_filled(text, options, END_MATCH)
}
