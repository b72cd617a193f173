//! The definitions section (flex's manual, "Format of the Definitions Section").

ghost use Rattle.std.specs.Prelude.{◌≡◌, ◌<◌, IfOk, OnOk, vec_len};
ghost use Rattle.lx_flex.specs.RulesSections.{IsAfterMark};
ghost use Rattle.lx_flex.specs.States.{left};

use crate::c_code::{take_braces, take_comment, take_line, take_lines};
use crate::conditions::{FlexCondition, name_at, new_name, place_of};
use crate::cursor::{FilePlace, TextCursor, TextRange, blank_run, front, is_blank, skip, trim_end};
use crate::options::{FlexOptions, read_options};
use crate::report::{ImportCause, ReadFault, Reports, stop};
use lx_rules::limits::{MAX_DEFINITIONS, MAX_START_CONDITIONS};
use std::alloc::{AllocError, Global};

/// A definition, as it is written.
#[derive(Debug, Drop)]
pub struct FlexDefinition {
    pub place: FilePlace,
    pub name: Vec<u8>,
    pub text: Vec<u8>,
}

/// The declarations of the definitions section.
#[derive(Debug, Drop)]
pub struct Declared {
    /// `INITIAL`, and then the conditions in the order of their declaration.
    pub conditions: Vec<FlexCondition>,
    pub definitions: Vec<FlexDefinition>,
    pub options: FlexOptions,
    /// C text for the scanner's first lines, of `%top`.
    pub top: Vec<TextRange>,
    /// C text for its declarations: blocks, indented lines and comments.
    pub code: Vec<TextRange>,
}

/// Returns the declarations before any line is read: only `INITIAL`, with the options of the command line.
pub(crate) fn nothing_declared(alloc: Global, options: FlexOptions) -> Result<Declared, AllocError>
    ensures { IfOk result (λ d. vec_len d.conditions < 65536) }
{
    let mut conditions = Vec::new(alloc);
    conditions.push(FlexCondition {
        name: Vec::from_slice(alloc, b"INITIAL")?,
        lx_name: Vec::from_slice(alloc, b"INITIAL")?,
        exclusive: false,
    })?;
    Ok(Declared {
        conditions,
        definitions: Vec::new(alloc),
        options,
        top: Vec::new(alloc),
        code: Vec::new(alloc),
    })
}

fn is_condition(declared: &Declared, name: &[u8]) -> bool {
    place_of(declared.conditions.as_slice(), name).is_some()
}

fn is_definition(declared: &Declared, name: &[u8]) -> bool {
    for definition in declared.definitions.as_slice() {
        if definition.name.as_slice() == name {
            return true;
        }
    }
    false
}

fn add_condition(
    alloc: Global,
    declared: &mut Declared,
    reports: &mut Reports,
    place: FilePlace,
    name: &[u8],
    exclusive: bool,
) -> Result<(), ReadFault>
    requires { vec_len declared.old.conditions < 65536 }
    ensures { OnOk result (vec_len declared.new.conditions < 65536) }
{
    if is_condition(declared, name) {
        reports.add(place, ImportCause::Twice, true)?;
        return Ok(());
    }
    if declared.conditions.len() >= MAX_START_CONDITIONS {
        return stop(place, ImportCause::TooMany);
    }
    let lx_name = new_name(alloc, declared.conditions.as_slice(), name)?;
    declared.conditions.push(FlexCondition {
        name: Vec::from_slice(alloc, name)?,
        lx_name,
        exclusive,
    })?;
    Ok(())
}

/// Reads the names after `%s` or `%x`.
fn read_conditions(
    alloc: Global,
    cursor: &mut TextCursor,
    declared: &mut Declared,
    reports: &mut Reports,
    exclusive: bool,
) -> Result<(), ReadFault>
    requires { vec_len declared.old.conditions < 65536 }
    ensures few { OnOk result (vec_len declared.new.conditions < 65536) }
    ensures text { OnOk result (cursor.new.text.now ≡ cursor.old.text.now) }
{
    if trim_end(cursor.line_rest()).is_empty() {
        reports.add(cursor.place(), ImportCause::BadDefinitionLine, true)?;
    }
    for _ in cursor.line_rest() {
        cursor.skip_blanks();
        let rest = cursor.line_rest();
        if rest.is_empty() {
            break;
        }
        let name = name_at(rest);
        if name.is_empty() {
            reports.add(cursor.place(), ImportCause::BadDefinitionLine, true)?;
            break;
        }
        add_condition(alloc, declared, reports, cursor.place(), name, exclusive)?;
        cursor.advance(name.len());
    }
    cursor.skip_line();
    Ok(())
}

/// Reads the line of a definition.
fn read_definition(
    alloc: Global,
    cursor: &mut TextCursor,
    declared: &mut Declared,
    reports: &mut Reports,
) -> Result<(), ReadFault>
    requires { vec_len declared.old.conditions < 65536 }
    ensures few { OnOk result (vec_len declared.new.conditions < 65536) }
    ensures text { OnOk result (cursor.new.text.now ≡ cursor.old.text.now) }
{
    let place = cursor.place();
    let line = cursor.line_rest();
    let name = name_at(line);
    let rest = skip(name.len(), line);
    let text = trim_end(skip(blank_run(rest), rest));
    if name.is_empty() || text.is_empty() {
        reports.add(place, ImportCause::BadDefinitionLine, true)?;
    } else if is_definition(declared, name) {
        reports.add(place, ImportCause::Twice, true)?;
    } else if declared.definitions.len() >= MAX_DEFINITIONS {
        return stop(place, ImportCause::TooMany);
    } else {
        declared.definitions.push(FlexDefinition {
            place,
            name: Vec::from_slice(alloc, name)?,
            text: Vec::from_slice(alloc, text)?,
        })?;
    }
    cursor.skip_line();
    Ok(())
}

/// Adds C text. It is part of the last one if it follows that without a gap.
pub(crate) fn add_code(list: &mut Vec<TextRange>, code: TextRange) -> Result<(), ReadFault> {
    if let Some(last) = list.last_mut() {
        if last.to == code.from {
            last.to = code.to;
            return Ok(());
        }
    }
    list.push(code)?;
    Ok(())
}

/// Returns true if a letter after `%` begins a line that flex skips, as that of a size of lex's tables.
fn is_skipped_letter(letter: Option<u8>) -> bool {
    match letter {
        Some(letter) => matches!(
            letter.to_ascii_lowercase(),
            b'a' | b'c' | b'e' | b'k' | b'n' | b'o' | b'p' | b'r'
        ),
        None => false,
    }
}

/// Returns true if flex skips what follows such a letter: a number, or a blank and any text.
fn is_skipped_rest(rest: &[u8]) -> bool {
    if blank_run(rest) > 0 {
        return true;
    }
    for byte in trim_end(rest) {
        if !byte.is_ascii_digit() {
            return false;
        }
    }
    true
}

/// Returns the number of bytes of `%s` or `%x`, with the letters after it.
fn directive_length(line: &[u8]) -> usize {
    name_at(skip(1, line)).len().saturating_add(1)
}

/// Reads a line that begins with `%`, but not with `%%`.
fn read_directive(
    alloc: Global,
    cursor: &mut TextCursor,
    declared: &mut Declared,
    reports: &mut Reports,
) -> Result<(), ReadFault>
    requires { vec_len declared.old.conditions < 65536 }
    ensures few { OnOk result (vec_len declared.new.conditions < 65536) }
    ensures text { OnOk result (cursor.new.text.now ≡ cursor.old.text.now) }
{
    if cursor.begins_with(b"%{") {
        let code = take_lines(cursor)?;
        return add_code(&mut declared.code, code);
    }
    if cursor.begins_with(b"%top") {
        let code = take_braces(cursor)?;
        return add_code(&mut declared.top, code);
    }
    if cursor.begins_with(b"%option") {
        cursor.advance(7);
        read_options(alloc, cursor, &mut declared.options, reports)?;
        return Ok(());
    }
    let letter = cursor.peek_at(1);
    if matches!(letter, Some(b's' | b'S' | b'x' | b'X')) {
        let exclusive = matches!(letter, Some(b'x' | b'X'));
        let length = directive_length(cursor.line_rest());
        cursor.advance(length);
        return read_conditions(alloc, cursor, declared, reports, exclusive);
    }
    if cursor.begins_with(b"%array") || cursor.begins_with(b"%pointer") {
        let _known = declared
            .options
            .switch(b"array", letter == Some(b'a'), cursor.place())?;
    } else if !is_skipped_letter(letter) || !is_skipped_rest(skip(2, cursor.line_rest())) {
        reports.add(cursor.place(), ImportCause::BadDefinitionLine, true)?;
    }
    cursor.skip_line();
    Ok(())
}

/// Returns true if the line is a `#line` directive.
fn is_line_directive(line: &[u8]) -> bool {
    if front(1, line) != b"#".as_slice() {
        return false;
    }
    let rest = skip(1, line);
    front(4, skip(blank_run(rest), rest)) == b"line".as_slice()
}

/// Reads one line of the definitions section, or the construct that begins on it.
fn read_line(
    alloc: Global,
    cursor: &mut TextCursor,
    declared: &mut Declared,
    reports: &mut Reports,
) -> Result<(), ReadFault>
    requires { vec_len declared.old.conditions < 65536 }
    ensures few { OnOk result (vec_len declared.new.conditions < 65536) }
    ensures text { OnOk result (cursor.new.text.now ≡ cursor.old.text.now) }
{
    let begins_blank = match cursor.peek_at(0) {
        Some(byte) => is_blank(byte),
        None => true,
    };
    if cursor.is_blank_line() || is_line_directive(cursor.line_rest()) {
        cursor.skip_line();
        return Ok(());
    }
    if begins_blank {
        return add_code(&mut declared.code, take_line(cursor));
    }
    if cursor.begins_with(b"/*") {
        let code = take_comment(cursor)?;
        return add_code(&mut declared.code, code);
    }
    if cursor.is_at(b'%') {
        return read_directive(alloc, cursor, declared, reports);
    }
    read_definition(alloc, cursor, declared, reports)
}

/// Reads the definitions section, up to and including its `%%` line.
pub(crate) fn read_definitions(
    alloc: Global,
    cursor: &mut TextCursor,
    options: FlexOptions,
    reports: &mut Reports,
) -> Result<Declared, ReadFault>
    ensures few { IfOk result (λ d. vec_len d.conditions < 65536) }
    ensures begins { OnOk result (IsAfterMark cursor.old.text.now (left cursor.new)) }
{
    let mut declared = nothing_declared(alloc, options)?;
    for _ in 0..cursor.text.len() {
        if cursor.begins_with(b"%%") {
            cursor.skip_line();
            return Ok(declared);
        }
        if cursor.is_at_end() {
            break;
        }
        read_line(alloc, cursor, &mut declared, reports)?;
    }
    stop(cursor.place(), ImportCause::NoRules)
}
