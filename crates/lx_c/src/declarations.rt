//! The declarations of a scanner in C.

ghost use Rattle.lx_c.specs.Declarations as declarations;
ghost use Rattle.lx_c.specs.Kinds.{capitals, name_in_c};
ghost use Rattle.lx_c.specs.Numbers.{max_first_kind};
ghost use Rattle.std.specs.Prelude.{OnOk, length, ◌++◌, ◌<◌, ◌≡◌, ◌≤◌};

use crate::options::Options;
use crate::pushing::{PushResult, push, push_filled, push_number, push_number_then, push_numbered};
use crate::templates::{CONDITIONS, FIRST_KIND, FUNCTIONS, GUARD, KINDS_END, SPECIAL_KINDS};
use lx_tables::Tables;

fn push_include(text: &mut Vec<u8>, options: &Options) -> PushResult
    ensures { OnOk result
        (text.new.items ≡ text.old.items ++ declarations.include_text options.now.include) }
{
    let Some(file) = options.include() else {
        return Ok(());
    };
    push(text, b"#include \"")?;
    push(text, file)?;
    push(text, b"\"\n")
}

fn push_capitals(text: &mut Vec<u8>, word: &[u8]) -> PushResult
    ensures { OnOk result (text.new.items ≡ text.old.items ++ capitals word.now) }
{
    for letter in word {
        push(text, &[letter.to_ascii_uppercase()])?;
    }
    Ok(())
}

/// Appends the name of a kind in C.
pub(crate) fn push_name(text: &mut Vec<u8>, options: &Options, kind: &[u8]) -> PushResult
    ensures { OnOk result (text.new.items ≡ text.old.items ++ name_in_c options.now kind.now) }
{
    if options.has_include() {
        return push(text, kind);
    }
    push_capitals(text, options.prefix())?;
    push(text, b"_")?;
    push(text, kind)
}

fn push_kind_line(
    text: &mut Vec<u8>,
    options: &Options,
    first: u64,
    kind: &[u8],
    place: u32,
) -> PushResult
    requires { first ≤ max_first_kind }
    ensures { OnOk result (text.new.items
        ≡ text.old.items ++ declarations.kind_line options.now first kind.now place) }
{
    push(text, b",\n    ")?;
    push_name(text, options, kind)?;
    push(text, b" = ")?;
    push_number(text, first + u64::from(place))
}

fn push_kind_list(text: &mut Vec<u8>, options: &Options, first: u64, tables: &Tables) -> PushResult
    requires { first ≤ max_first_kind }
    ensures { OnOk result (text.new.items
        ≡ text.old.items ++ declarations.kind_list options.now first tables.now) }
{
    for place in 0..tables.kinds() {
        push_kind_line(text, options, first, tables.kind(place), place)?;
    }
    Ok(())
}

// Appends the values of a token. The kinds, and the number of the first one, are among them if no
// file declares the kinds.
fn push_kinds(text: &mut Vec<u8>, options: &Options, first: u64, tables: &Tables) -> PushResult
    requires { first ≤ max_first_kind }
    ensures { OnOk result
        (text.new.items ≡ text.old.items ++ declarations.kinds_text options.now first tables.now) }
{
    push_filled(text, options, SPECIAL_KINDS)?;
    if options.has_include() {
        return push_filled(text, options, KINDS_END);
    }
    push_kind_list(text, options, first, tables)?;
    push_filled(text, options, KINDS_END)?;
    push_filled(text, options, FIRST_KIND)?;
    push_number_then(text, first, b"\n")
}

fn push_condition_line(text: &mut Vec<u8>, options: &Options, condition: usize) -> PushResult
    requires { condition < length options.now.conditions }
    ensures { OnOk result
        (text.new.items ≡ text.old.items ++ declarations.condition_line options.now condition) }
{
    push(text, b"#define ")?;
    push(text, options.prefix())?;
    push(text, b"_in_")?;
    push(text, options.condition(condition))?;
    push(text, b" ")?;
    push_number_then(text, condition as u64, b"\n")
}

fn push_condition_lines(text: &mut Vec<u8>, options: &Options) -> PushResult
    ensures { OnOk result
        (text.new.items ≡ text.old.items ++ declarations.condition_lines options.now) }
{
    for condition in 0..options.conditions() {
        push_condition_line(text, options, condition)?;
    }
    Ok(())
}

/// Appends the declarations; the first kind has the number `first`.
pub(crate) fn push_header(
    text: &mut Vec<u8>,
    options: &Options,
    first: u64,
    tables: &Tables,
) -> PushResult
    requires { first ≤ max_first_kind }
    ensures { OnOk result
        (text.new.items ≡ text.old.items ++ declarations.header_from options.now first tables.now) }
{
    push_filled(text, options, GUARD)?;
    push_include(text, options)?;
    push_kinds(text, options, first, tables)?;
    push_numbered(
        text,
        options,
        CONDITIONS,
        u32::from(tables.conditions()),
        b"\n",
    )?;
    push_condition_lines(text, options)?;
    push_filled(text, options, FUNCTIONS)
}
