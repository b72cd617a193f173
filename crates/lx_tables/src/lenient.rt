//! Reads a table text leniently: each function returns lists for every text. If the text is that of tables, they are its lists.

ghost use Rattle.std.specs.Prelude.{◌≡◌, ◌++◌, ◌≤◌, ◌/◌, IfOk, OnOk, length, map, min, replicate};
ghost use Rattle.lx_rules.specs.views.Rules.{names_view};
ghost use Rattle.lx_rules.specs.Limits.{max_kinds, max_rules, max_start_conditions};
ghost use Rattle.lx_automaton.specs.EncodedOptions.{decoded_option};
ghost use Rattle.lx_tables.specs.Readers.{onto, state_onto, read_list, read_start, read_kind, read_rule, read_steps, read_front, read_row, read_state, read_lines, read_states, read_1, read_2, read_text, read_classes, class_of};
ghost use Rattle.lx_tables.specs.Texts.{all_bytes};
ghost use Rattle.lx_tables.specs.Views.{rule_view, rules_view, front_view, raw_view};

use crate::fields::{accepts, byte_at, clamp, count, encoded_value, kind, run, skip, start, step};
use crate::raw::{RawFront, RawTables};
use crate::table_rule::TableRule;
use crate::version::Version;
use lx_rules::limits::{MAX_KINDS, MAX_RULES, MAX_START_CONDITIONS, MAX_STATES};
use lx_rules::rule::Step;
use lx_rules::steps::Steps;
use std::alloc::{AllocError, Global};

/// Reads a count of conditions and their starts.
fn starts(alloc: Global, text: &[u8]) -> Result<(Vec<(u32, u32)>, &[u8]), AllocError>
    ensures { IfOk result
        (λ r. (r.0.items, r.1.now) ≡ read_list max_start_conditions 11 read_start text.now) }
{
    let (many, first) = count(text, 11, MAX_START_CONDITIONS as u32);
    let mut starts = Vec::new(alloc);
    let mut rest = first;
    for _ in 0..many {
        let (next, more) = start(rest);
        starts.push(next)?;
        rest = more;
    }
    Ok((starts, rest))
}

/// Reads a count of kinds and their names.
fn kinds(alloc: Global, text: &[u8]) -> Result<(Vec<Vec<u8>>, &[u8]), AllocError>
    ensures { IfOk result
        (λ r. (names_view r.0.items, r.1.now) ≡ read_list max_kinds 6 read_kind text.now) }
{
    let (many, first) = count(text, 6, MAX_KINDS as u32);
    let mut kinds = Vec::new(alloc);
    let mut rest = first;
    for _ in 0..many {
        let (name, more) = kind(rest);
        kinds.push(Vec::from_slice(alloc, name)?)?;
        rest = more;
    }
    Ok((kinds, rest))
}

/// Reads steps up to the line's end, at most `most`.
fn steps(alloc: Global, text: &[u8], most: usize) -> Result<(Vec<Step>, &[u8]), AllocError>
    ensures { IfOk result (λ r. (r.0.items, r.1.now) ≡ read_steps most text.now) }
{
    let mut steps = Vec::new(alloc);
    let mut rest = text;
    let mut left = most;
    while left > 0 && byte_at(rest, 0) == b' ' {
        let (next, more) = step(skip(rest, 1));
        steps.push(next)?;
        rest = more;
        left -= 1;
    }
    Ok((steps, skip(rest, 1)))
}

/// Reads the line of a rule.
fn rule(alloc: Global, text: &[u8]) -> Result<(TableRule, &[u8]), AllocError>
    ensures { IfOk result (λ r. (rule_view r.0, r.1.now) ≡ read_rule text.now) }
{
    let line_end = byte_at(text, 5) == b'1';
    let (steps, rest) = steps(alloc, skip(text, 6), text.len())?;
    let steps = Steps::from_vec(steps)?;
    Ok((TableRule { line_end, steps }, rest))
}

/// Reads a count of rules and their lines.
fn rules(alloc: Global, text: &[u8]) -> Result<(Vec<TableRule>, &[u8]), AllocError>
    ensures { IfOk result
        (λ r. (rules_view r.0.items, r.1.now) ≡ read_list max_rules 6 read_rule text.now) }
{
    let (many, first) = count(text, 6, MAX_RULES as u32);
    let mut rules = Vec::new(alloc);
    let mut rest = first;
    for _ in 0..many {
        let (next, more) = rule(alloc, rest)?;
        rules.push(next)?;
        rest = more;
    }
    Ok((rules, rest))
}

/// Reads conditions, kinds and rules.
fn front(alloc: Global, text: &[u8]) -> Result<(RawFront, &[u8]), AllocError>
    ensures { IfOk result (λ r. (front_view r.0, r.1.now) ≡ read_front text.now) }
{
    let (starts, rest) = starts(alloc, text)?;
    let (kinds, rest) = kinds(alloc, rest)?;
    let (rules, rest) = rules(alloc, rest)?;
    Ok((
        RawFront {
            starts,
            kinds,
            rules,
        },
        rest,
    ))
}

/// Adds an encoded option `times` times.
fn push_many(
    encoded_options: &mut Vec<u16>,
    times: u32,
    encoded_option: u16,
) -> Result<(), AllocError>
    ensures { OnOk result
        (encoded_options.new.items ≡ encoded_options.old.items ++ replicate times encoded_option) }
{
    for _ in 0..times {
        encoded_options.push(encoded_option)?;
    }
    Ok(())
}

/// Adds the encoded options of a row of this width. Returns the rest of the text.
fn row<'a>(
    text: &'a [u8],
    version: Version,
    width: u32,
    encoded_options: &mut Vec<u16>,
) -> Result<&'a [u8], AllocError>
    ensures { IfOk result (λ rest.
        (map decoded_option encoded_options.new.items, rest.now)
        ≡ onto (map decoded_option encoded_options.old.items)
        (read_row version width width 0 text.now)) }
{
    let mut from = 0;
    let mut rest = text;
    let mut left = width;
    while left > 0 && byte_at(rest, 0) == b' ' {
        let ((first, last, value), more) = run(rest, version);
        let low = clamp(from, width, first);
        let end = clamp(low, width, last);
        push_many(encoded_options, low - from, 0)?;
        push_many(encoded_options, end - low, encoded_value(value))?;
        from = end;
        rest = more;
        left -= 1;
    }
    push_many(encoded_options, width - from, 0)?;
    Ok(rest)
}

/// Adds the rule that a state accepts, and its row. Returns the text after its line.
fn state<'a>(
    text: &'a [u8],
    version: Version,
    width: u32,
    accepted: &mut Vec<u16>,
    targets: &mut Vec<u16>,
) -> Result<&'a [u8], AllocError>
    ensures { IfOk result (λ rest.
        (map decoded_option accepted.new.items, map decoded_option targets.new.items, rest.now)
        ≡ state_onto (map decoded_option accepted.old.items)
        (map decoded_option targets.old.items) (read_state version width text.now)) }
{
    let (encoded_option, rest) = accepts(skip(text, 6));
    accepted.push(encoded_option)?;
    let rest = row(rest, version, width, targets)?;
    Ok(skip(rest, 1))
}

/// Reads a count of states and their lines. Returns the encoded options of the rules that they accept, and their rows.
fn states(
    alloc: Global,
    text: &[u8],
    version: Version,
    width: u32,
) -> Result<(Vec<u16>, Vec<u16>), AllocError>
    ensures { IfOk result (λ r.
        (map decoded_option r.0.items, map decoded_option r.1.items)
        ≡ read_states version width text.now) }
{
    let (many, first) = count(text, 7, (text.len() / 8).min(MAX_STATES) as u32);
    let mut accepted = Vec::new(alloc);
    let mut targets = Vec::new(alloc);
    let mut rest = first;
    for _ in 0..many {
        rest = state(rest, version, width, &mut accepted, &mut targets)?;
    }
    Ok((accepted, targets))
}

/// Returns the class of an encoded option.
fn class_of_encoded_option(encoded_option: u16) -> u8
    ensures { result ≡ class_of (decoded_option encoded_option) }
{
    if encoded_option == 0 || encoded_option > 256 {
        0
    } else {
        (encoded_option - 1) as u8
    }
}

/// Returns the classes of encoded options.
fn classes_of_encoded_options(alloc: Global, encoded_options: &[u16]) -> Result<Vec<u8>, AllocError>
    ensures { IfOk result
        (λ classes. classes.items ≡ map class_of (map decoded_option encoded_options.now)) }
{
    let mut classes = Vec::new(alloc);
    for encoded_option in encoded_options {
        classes.push(class_of_encoded_option(*encoded_option))?;
    }
    Ok(classes)
}

/// Reads the class of each byte.
fn classes(alloc: Global, text: &[u8]) -> Result<(Vec<u8>, &[u8]), AllocError>
    ensures { IfOk result (λ r. (r.0.items, r.1.now) ≡ read_classes text.now) }
{
    let mut encoded_options = Vec::new(alloc);
    let rest = row(text, Version::First, 256, &mut encoded_options)?;
    Ok((classes_of_encoded_options(alloc, &encoded_options)?, rest))
}

/// Returns the bytes, each as its own class.
fn bytes_as_classes(alloc: Global) -> Result<Vec<u8>, AllocError>
    ensures { IfOk result (λ classes. classes.items ≡ all_bytes) }
{
    let mut classes = Vec::new(alloc);
    for byte in 0..256_u32 {
        classes.push(byte as u8)?;
    }
    Ok(classes)
}

/// Reads a text of version 1.
fn first_version(alloc: Global, text: &[u8]) -> Result<RawTables, AllocError>
    ensures { IfOk result (λ raw. raw_view raw ≡ read_1 text.now) }
{
    let (front, rest) = front(alloc, skip(text, 12))?;
    let (accepted, targets) = states(alloc, rest, Version::First, 256)?;
    let classes = bytes_as_classes(alloc)?;
    Ok(RawTables {
        starts: front.starts,
        classes,
        width: 256,
        accepted,
        targets,
        kinds: front.kinds,
        rules: front.rules,
    })
}

/// Reads a text of version 2.
fn second_version(alloc: Global, text: &[u8]) -> Result<RawTables, AllocError>
    ensures { IfOk result (λ raw. raw_view raw ≡ read_2 text.now) }
{
    let (front, rest) = front(alloc, skip(text, 12))?;
    let (width, rest) = count(rest, 8, 256);
    let (classes, rest) = classes(alloc, skip(rest, 5))?;
    let (accepted, targets) = states(alloc, skip(rest, 1), Version::Second, width)?;
    Ok(RawTables {
        starts: front.starts,
        classes,
        width: width as usize,
        accepted,
        targets,
        kinds: front.kinds,
        rules: front.rules,
    })
}

/// Reads the lists of any text. If the text is that of tables, they are its lists, and for version 1 those of the tables by bytes.
pub fn read_leniently(alloc: Global, text: &[u8]) -> Result<RawTables, AllocError>
    ensures { IfOk result (λ raw. raw_view raw ≡ read_text text.now) }
{
    if byte_at(text, 10) == b'2' {
        second_version(alloc, text)
    } else {
        first_version(alloc, text)
    }
}
