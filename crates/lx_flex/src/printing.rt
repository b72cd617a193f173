//! Prints the specification for lx, and the C text of actions.

use crate::actions::{ActionStep, FlexAction};
use crate::conditions::FlexCondition;
use crate::definitions::Declared;
use crate::importing::ImportOptions;
use crate::judging::JudgedRule;
use crate::naming::ImportedDefinition;
use itoa::Buffer;
use std::alloc::{AllocError, Global};

fn push(text: &mut Vec<u8>, bytes: &[u8]) -> Result<(), AllocError> {
    text.extend_from_slice(bytes)
}

fn push_all(text: &mut Vec<u8>, parts: &[&[u8]]) -> Result<(), AllocError> {
    for part in parts {
        push(text, part)?;
    }
    Ok(())
}

/// Appends a line with `%s` or `%x` and a name for each condition except `INITIAL`.
fn push_conditions(text: &mut Vec<u8>, conditions: &[FlexCondition]) -> Result<(), AllocError> {
    let mut first = true;
    for condition in conditions {
        if !first {
            push_all(
                text,
                &[
                    if condition.exclusive { b"%x " } else { b"%s " },
                    condition.lx_name.as_slice(),
                    b"\n",
                ],
            )?;
        }
        first = false;
    }
    Ok(())
}

fn push_definitions(
    text: &mut Vec<u8>,
    definitions: &[ImportedDefinition],
) -> Result<(), AllocError> {
    for definition in definitions {
        push_all(
            text,
            &[
                definition.name.as_slice(),
                b"  ",
                definition.text.as_slice(),
                b"\n",
            ],
        )?;
    }
    Ok(())
}

/// Returns the name of a condition in lx.
fn condition_name(conditions: &[FlexCondition], number: u16) -> &[u8] {
    match conditions.get(usize::from(number)) {
        Some(condition) => condition.lx_name.as_slice(),
        None => b"",
    }
}

/// Appends the conditions before a pattern.
fn push_list(
    text: &mut Vec<u8>,
    conditions: &[FlexCondition],
    numbers: &[u16],
) -> Result<(), AllocError> {
    let mut mark: &[u8] = b"<";
    for number in numbers {
        push_all(text, &[mark, condition_name(conditions, *number)])?;
        mark = b",";
    }
    push(text, b">")
}

fn push_step(
    text: &mut Vec<u8>,
    conditions: &[FlexCondition],
    step: &ActionStep,
) -> Result<(), AllocError> {
    match step {
        ActionStep::Echo => push(text, b"ECHO;"),
        ActionStep::Begin(number) => {
            push_all(
                text,
                &[b"BEGIN ", condition_name(conditions, *number), b";"],
            )
        }
        ActionStep::Return(kind) => push_all(text, &[b"return ", kind.as_slice(), b";"]),
    }
}

fn push_steps(
    text: &mut Vec<u8>,
    conditions: &[FlexCondition],
    steps: &[ActionStep],
) -> Result<(), AllocError> {
    let mut first = true;
    for step in steps {
        if !first {
            push(text, b" ")?;
        }
        push_step(text, conditions, step)?;
        first = false;
    }
    Ok(())
}

/// Appends steps as an action: `;` for none, and braces around several.
fn push_action_steps(
    text: &mut Vec<u8>,
    conditions: &[FlexCondition],
    steps: &[ActionStep],
) -> Result<(), AllocError> {
    if steps.is_empty() {
        return push(text, b";");
    }
    if steps.len() == 1 {
        return push_steps(text, conditions, steps);
    }
    push(text, b"{ ")?;
    push_steps(text, conditions, steps)?;
    push(text, b" }")
}

/// Returns the number of letters X between `RULE_` and a digit at the start of a kind. `None` if it begins otherwise.
fn letters_of_rule(kind: &[u8]) -> Option<usize> {
    let rest = kind.strip_prefix(b"RULE_")?;
    let mut letters: usize = 0;
    for byte in rest {
        match *byte {
            b'X' => letters = letters.saturating_add(1),
            b'0'..=b'9' => return Some(letters),
            _ => return None,
        }
    }
    None
}

/// Returns what the kinds of C text begin with, before the number of the rule: `RULE_`. If actions return kinds that begin with it and a digit, more
/// letters X come to it than they have there, so that each kind of C text is its own.
pub(crate) fn code_kind(alloc: Global, rules: &[JudgedRule]) -> Result<Vec<u8>, AllocError> {
    let mut more: usize = 0;
    for judged in rules {
        if let FlexAction::Steps(steps) = &judged.action {
            for step in steps.as_slice() {
                if let ActionStep::Return(kind) = step {
                    if let Some(letters) = letters_of_rule(kind.as_slice()) {
                        more = more.max(letters.saturating_add(1));
                    }
                }
            }
        }
    }
    let mut begin = Vec::from_slice(alloc, b"RULE_")?;
    for _ in 0..more {
        begin.push(b'X')?;
    }
    Ok(begin)
}

/// Appends the action for C text: the conditions that it begins unconditionally, and the rule's number as a kind.
fn push_code(
    text: &mut Vec<u8>,
    conditions: &[FlexCondition],
    begins: &[ActionStep],
    kind: &[u8],
    number: u32,
) -> Result<(), AllocError> {
    let mut digits = Buffer::new();
    let number = digits.format(number).as_bytes();
    if begins.is_empty() {
        return push_all(text, &[b"return ", kind, number, b";"]);
    }
    push(text, b"{ ")?;
    push_steps(text, conditions, begins)?;
    push_all(text, &[b" return ", kind, number, b"; }"])
}

fn push_action(
    text: &mut Vec<u8>,
    conditions: &[FlexCondition],
    action: &FlexAction,
    kind: &[u8],
    number: u32,
) -> Result<(), AllocError> {
    match action {
        FlexAction::Bar => push(text, b"|"),
        FlexAction::Steps(steps) => push_action_steps(text, conditions, steps.as_slice()),
        FlexAction::Code {
            text: _,
            line: _,
            begins,
            problems: _,
        } => push_code(text, conditions, begins.as_slice(), kind, number),
    }
}

fn push_rule(
    text: &mut Vec<u8>,
    conditions: &[FlexCondition],
    judged: &JudgedRule,
    kind: &[u8],
    number: u32,
) -> Result<(), AllocError> {
    if let Some(numbers) = &judged.rule.conditions {
        push_list(text, conditions, numbers.as_slice())?;
    }
    push_all(text, &[judged.text.as_slice(), b"  "])?;
    push_action(text, conditions, &judged.action, kind, number)?;
    push(text, b"\n")
}

/// Prints the specification. The kinds of C text begin with `kind`.
pub(crate) fn specification(
    alloc: Global,
    declared: &Declared,
    definitions: &[ImportedDefinition],
    rules: &[JudgedRule],
    kind: &[u8],
) -> Result<Vec<u8>, AllocError> {
    let conditions = declared.conditions.as_slice();
    let mut text = Vec::new(alloc);
    push_conditions(&mut text, conditions)?;
    push_definitions(&mut text, definitions)?;
    push(&mut text, b"%%\n")?;
    let mut number: u32 = 0;
    for rule in rules {
        number = number.saturating_add(1);
        push_rule(&mut text, conditions, rule, kind, number)?;
    }
    Ok(text)
}

/// Appends the prefix in capitals.
fn push_prefix(text: &mut Vec<u8>, prefix: &[u8]) -> Result<(), AllocError> {
    for byte in prefix {
        text.push(byte.to_ascii_uppercase())?;
    }
    Ok(())
}

/// Appends a file's name in quotes, in C syntax.
fn push_file(text: &mut Vec<u8>, file: &[u8]) -> Result<(), AllocError> {
    text.push(b'"')?;
    for byte in file {
        match *byte {
            b'"' | b'\\' => {
                text.push(b'\\')?;
                text.push(*byte)?;
            }
            b'\n' => push(text, b"\\n")?,
            other => text.push(other)?,
        }
    }
    text.push(b'"')?;
    Ok(())
}

/// Appends the label of a rule's case.
fn push_label(
    text: &mut Vec<u8>,
    prefix: &[u8],
    kind: &[u8],
    number: u32,
) -> Result<(), AllocError> {
    let mut digits = Buffer::new();
    push(text, b"case ")?;
    push_prefix(text, prefix)?;
    push_all(
        text,
        &[b"_", kind, digits.format(number).as_bytes(), b":\n"],
    )
}

/// Appends the `#line` directive with the file and the line of C text.
fn push_place(text: &mut Vec<u8>, file: &[u8], line: u32) -> Result<(), AllocError> {
    let mut digits = Buffer::new();
    push_all(text, &[b"#line ", digits.format(line).as_bytes(), b" "])?;
    push_file(text, file)?;
    push(text, b"\n")
}

/// Appends one case: the C text of a rule, with its line.
fn push_case(
    text: &mut Vec<u8>,
    options: ImportOptions,
    kind: &[u8],
    number: u32,
    line: u32,
    code: &[u8],
) -> Result<(), AllocError> {
    push_label(text, options.prefix, kind, number)?;
    push_place(text, options.file, line)?;
    push_all(text, &[code, b"\n    break;\n"])
}

/// Prints the cases of a switch over kinds: the C text of each rule that returns its number.
pub(crate) fn cases(
    alloc: Global,
    options: ImportOptions,
    rules: &[JudgedRule],
    kind: &[u8],
) -> Result<Vec<u8>, AllocError> {
    let mut text = Vec::new(alloc);
    let mut number: u32 = 0;
    for judged in rules {
        number = number.saturating_add(1);
        if let FlexAction::Code {
            text: code,
            line,
            begins: _,
            problems: _,
        } = &judged.action
        {
            push_case(&mut text, options, kind, number, *line, code.as_slice())?;
        }
    }
    Ok(text)
}
