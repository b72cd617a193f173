//! Makes lines of fields in a form.

ghost use Rattle.std.specs.Prelude.{◌≡◌, ◌+◌, ◌≤◌, ◌++◌, ℕ, IfOk, List, MatchOption, OnOk, codes, decimal, false, length, true};
ghost use Rattle.std.specs.List.{flat_map};
ghost use Rattle.lx_rules.specs.declared.rule.Kind.{Kind};
ghost use Rattle.lx_scan.specs.ItemParts.{NamesKindAmong};
ghost use Rattle.lx_piece.specs.Plans.{kinds_of};
ghost use Rattle.lx_line.specs.Escapes.{escaped, name_escaped};
ghost use Rattle.lx_line.specs.Placed.{Placed};
ghost use Rattle.lx_line.specs.Prefixes.{IsKindOf};
ghost use Rattle.lx_forms.specs.FormStyles.{text_prefix};
ghost use Rattle.lx_forms.specs.TextLines.{fields_of, file_text, text_cut_line, text_line_with};
ghost use Rattle.lx_forms.specs.Views.{form_view};

use crate::form::{Form, name_of};
use lx_line::{
    NameEscape, numbers_of, place_any_text, place_byte, place_kind, place_number, push_field,
    push_kind, push_number, push_text,
};
use lx_piece::Plan;
use lx_rules::rule::Kind;
use lx_scan::Item;
use std::alloc::AllocError;

// Greatest length of a name in a kept prefix.
const NAME: usize = 96;

// Appends the name of a file if names are printed, otherwise its number.
fn push_file(block: &mut Vec<u8>, form: &Form<'_>, file: u32) -> Result<(), AllocError>
    ensures { OnOk result
        (block.new.items ≡ block.old.items ++ file_text (form_view form.now) file) }
{
    match form.names {
        Some(names) => push_text::<NameEscape>(block, name_of(names, file)),
        None => push_number(block, form.number_of(file)),
    }
}

// Appends class, kind, line, start and length.
fn push_fields(block: &mut Vec<u8>, plan: &Plan, item: &Item) -> Result<(), AllocError>
    requires { NamesKindAmong (kinds_of plan.now) item.now }
    ensures { OnOk result (block.new.items ≡ block.old.items ++ fields_of plan.now item.now) }
{
    let numbers = numbers_of(item);
    push_kind(block, plan, item)?;
    push_field(block, numbers.line)?;
    push_field(block, numbers.start as u64)?;
    push_number(block, numbers.len as u64)?;
    Ok(())
}

/// Appends the line of an item up to its text. Returns true if texts are printed. Otherwise the line is whole.
pub(crate) fn push_text_start(
    block: &mut Vec<u8>,
    form: &Form<'_>,
    plan: &Plan,
    file: u32,
    item: &Item,
) -> Result<bool, AllocError>
    requires { NamesKindAmong (kinds_of plan.now) item.now }
    ensures start { IfOk result (λ goes_on. goes_on ≡ true
        → (text : List ℕ) → (block.new.items ++ flat_map escaped text) ++ codes "\n"
        ≡ block.old.items ++ text_line_with (form_view form.now) plan.now.table file item.now text) }
    ensures whole { IfOk result (λ goes_on. goes_on ≡ false
        → (text : List ℕ) → block.new.items
        ≡ block.old.items ++ text_line_with (form_view form.now) plan.now.table file item.now text) }
{
    push_file(block, form, file)?;
    block.extend_from_slice(b" ")?;
    push_fields(block, plan, item)?;
    if form.text {
        block.extend_from_slice(b" ")?;
        return Ok(true);
    }
    block.extend_from_slice(b"\n")?;
    Ok(false)
}

/// Appends the line of a file whose reading failed.
#[tactic(auto, unfolding(crate::specs::TextLines::text_cut_line))]
pub(crate) fn push_text_cut_line(
    block: &mut Vec<u8>,
    form: &Form<'_>,
    file: u32,
) -> Result<(), AllocError>
    ensures { OnOk result
        (block.new.items ≡ block.old.items ++ text_cut_line (form_view form.now) file) }
{
    push_file(block, form, file)?;
    block.extend_from_slice(b" ! cut\n")?;
    Ok(())
}

// Places a name and a space. Returns `None` if the name is too long.
fn place_name(buf: &mut [u8], name: &[u8]) -> Option<usize>
    requires { 640 ≤ length buf.old }
    ensures placed { MatchOption result (Unit {0})
        (λ end. Placed buf.old buf.new 0 (flat_map name_escaped name.now ++ codes " ") end) }
    ensures short { MatchOption result (Unit {0}) (λ end. end ≤ 640) }
{
    if name.len() > NAME {
        return None;
    }
    let at = place_any_text::<NameEscape>(buf, 0, name);
    Some(place_byte(buf, at, b' '))
}

// Places the name of a file if names are printed, otherwise its number, and a space. Returns `None` if the name is too long.
fn place_file(buf: &mut [u8], form: &Form<'_>, file: u32) -> Option<usize>
    requires { 640 ≤ length buf.old }
    ensures placed { MatchOption result (Unit {0}) (λ end.
        Placed buf.old buf.new 0 (file_text (form_view form.now) file ++ codes " ") end) }
    ensures short { MatchOption result (Unit {0}) (λ end. end ≤ 640) }
{
    match form.names {
        Some(names) => place_name(buf, name_of(names, file)),
        None => Some(place_number(buf, 0, form.number_of(file))),
    }
}

/// Places the part of a line before the number of the line. Returns `None` if it is too long.
pub(crate) fn place_text_prefix(
    form: &Form<'_>,
    buf: &mut [u8],
    plan: &Plan,
    file: u32,
    kind: Option<Kind>,
) -> Option<usize>
    requires room { 1024 ≤ length buf.old }
    requires kind { IsKindOf plan.now kind }
    ensures { MatchOption result (Unit {0}) (λ end.
        Placed buf.old buf.new 0 (text_prefix (form_view form.now) plan.now file kind) end) }
{
    let Some(at) = place_file(buf, form, file) else {
        return None;
    };
    place_kind(buf, at, plan, kind)
}
