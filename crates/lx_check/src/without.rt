//! Masks a fault of a text, so that the rest can be checked.

ghost use Rattle.std.specs.Prelude.{◌≡◌, ◌≢◌, ◌≤◌, ◌++◌, ◌∷◌, [], IfOk, OnOk, length, map, option_map, Some, ◌+◌};
ghost use Rattle.lx_rules.specs.Limits.{max_specification_bytes};
ghost use Rattle.lx_scan.specs.Steps.{newlines};
ghost use Rattle.lx_spec.specs.Bytes.{lines, next_word};
ghost use Rattle.lx_spec.specs.Sections.{sections_of};
ghost use Rattle.lx_spec.specs.Whole.{IsFault};
ghost use Rattle.lx_spec.specs.views.Sections.{raw_rule_view};
ghost use Rattle.lx_check.specs.Without as specs;

use bstr::ByteSlice;
use lx_rules::limits::MAX_SPECIFICATION_BYTES;
use lx_spec::line::next_word;
use lx_spec::parsed_sections::RawRule;
use lx_spec::section::read_sections;
use lx_spec::{Code, SpecFault};
use std::alloc::{AllocError, Global};

// Returns the replacement of a line.
fn replacement_of_line<'a>(
    this: &'a [u8],
    first: usize,
    end: usize,
    number: usize,
    line: &'a [u8],
) -> &'a [u8]
    ensures { result.now ≡ specs.line_instead this.now first end number line.now }
{
    if number == first {
        this
    } else if first < number && number < end {
        b"\n"
    } else {
        line
    }
}

fn push_line(
    made: &mut Vec<u8>,
    this: &[u8],
    first: usize,
    end: usize,
    number: usize,
    line: &[u8],
) -> Result<(), AllocError>
    ensures { OnOk result
        (made.new.items ≡ made.old.items ++ specs.line_instead this.now first end number line.now) }
{
    made.extend_from_slice(replacement_of_line(this, first, end, number, line))?;
    Ok(())
}

// Makes a text with `this` instead of line `first`, and with the lines after it emptied up to `end`.
fn text_instead(
    alloc: Global,
    this: &[u8],
    first: usize,
    end: usize,
    text: &[u8],
) -> Result<Vec<u8>, AllocError>
    ensures { IfOk result (λ made. made.items ≡ specs.text_instead this.now first end text.now) }
{
    let mut made = Vec::new(alloc);
    let mut number: usize = 1;
    let mut lines = text.lines_with_terminator();
    while let Some(line) = lines.next() {
        push_line(&mut made, this, first, end, number, line)?;
        number += 1;
    }
    Ok(made)
}

// Counts the newlines of an action.
fn newlines_in(action: &[u8]) -> usize
    ensures count { result ≡ newlines action.now }
    ensures few { result ≤ length action.now }
{
    let mut count = 0;
    for byte in action {
        if *byte == b'\n' {
            count += 1;
        }
    }
    count
}

// Returns the line after the rule that begins on this line.
fn end_of_rule(rules: &[RawRule], line: u32) -> Option<usize>
    ensures { result ≡ specs.end_of_rule (map raw_rule_view rules.now) line }
{
    for rule in rules {
        if rule.line == line {
            return Some(line as usize + 1 + newlines_in(&rule.action));
        }
    }
    None
}

// Returns the line after the rule of a text that begins on this line.
fn rule_end(alloc: Global, text: &[u8], line: u32) -> Result<Option<usize>, AllocError>
    requires { length text.now ≤ max_specification_bytes }
    ensures { IfOk result (λ end. end ≡ specs.end_in (sections_of text.now) line) }
{
    match read_sections(alloc, text) {
        Ok(sections) => Ok(end_of_rule(&sections.rules, line)),
        Err(fault) => {
            if fault.code == Code::Memory {
                Err(AllocError)
            } else {
                Ok(None)
            }
        }
    }
}

// Returns the text if it isn't longer than a specification may be.
fn if_short(text: Vec<u8>) -> Option<Vec<u8>>
    ensures { option_map (λ made. made.items) result ≡ specs.if_short text.items }
{
    if text.len() > MAX_SPECIFICATION_BYTES {
        None
    } else {
        Some(text)
    }
}

// Makes a text in which the rule that begins on this line does nothing.
fn without_rule(alloc: Global, text: &[u8], line: u32) -> Result<Option<Vec<u8>>, AllocError>
    requires { length text.now ≤ max_specification_bytes }
    ensures { IfOk result
        (λ rest. option_map (λ made. made.items) rest ≡ specs.without_rule text.now line) }
{
    let Some(end) = rule_end(alloc, text, line)? else {
        return Ok(None);
    };
    Ok(if_short(text_instead(alloc, b"x ;\n", line as usize, end, text)?))
}

// Makes a text in which this line is empty.
fn without_line(alloc: Global, text: &[u8], line: u32) -> Result<Option<Vec<u8>>, AllocError>
    ensures { IfOk result (λ rest.
        option_map (λ made. made.items) rest
        ≡ specs.without_lines (10 ∷ []) line (Some (line + 1)) text.now) }
{
    let first = line as usize;
    Ok(if_short(text_instead(alloc, b"\n", first, first + 1, text)?))
}

// Returns the line with this number.
fn line_numbered<'a>(text: &'a [u8], line: u32) -> &'a [u8]
    ensures { result.now ≡ specs.line_numbered 1 line (lines text.now) }
{
    let mut number: usize = 1;
    let mut lines = text.lines();
    while let Some(found) = lines.next() {
        if number == line as usize {
            return found;
        }
        number += 1;
    }
    b""
}

fn has_two_words(text: &[u8]) -> bool
    ensures { result ≡ specs.has_two_words (next_word text.now) }
{
    let Some((_, behind)) = next_word(text) else {
        return false;
    };
    let Some((_, last)) = next_word(behind) else {
        return false;
    };
    next_word(last).is_none()
}

// Returns true if a line of the definitions section declares at most one name.
fn declares_one(line: &[u8]) -> bool
    ensures { result ≡ specs.declares_one line.now }
{
    match line.split_first() {
        Some((c, _)) if *c == b'%' => has_two_words(line),
        _ => true,
    }
}

// Makes a text without the declaration on this line, if that declares only one name.
fn without_declaration(alloc: Global, text: &[u8], line: u32) -> Result<Option<Vec<u8>>, AllocError>
    ensures { IfOk result
        (λ rest. option_map (λ made. made.items) rest ≡ specs.without_declaration text.now line) }
{
    if declares_one(line_numbered(text, line)) {
        without_line(alloc, text, line)
    } else {
        Ok(None)
    }
}

/// Masks a fault of a text. Returns `None` if the fault hides the rest of the text. Err: an allocation failed.
pub fn mask_fault(
    alloc: Global,
    text: &[u8],
    fault: SpecFault,
) -> Result<Option<Vec<u8>>, AllocError>
    requires { IsFault text.now fault }
    ensures { IfOk result
        (λ rest. option_map (λ made. made.items) rest ≡ specs.without text.now fault) }
{
    match fault.code {
        Code::NoReading
        | Code::Undefined
        | Code::TooDeep
        | Code::NoCondition
        | Code::NoAction
        | Code::NoNext => without_rule(alloc, text, fault.line),
        Code::NoForm => without_line(alloc, text, fault.line),
        Code::Twice => without_declaration(alloc, text, fault.line),
        Code::TooLong | Code::NoRules | Code::NotClosed | Code::TooMany | Code::Memory => Ok(None),
    }
}
