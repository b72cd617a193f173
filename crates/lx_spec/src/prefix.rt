//! Reads the conditions of a rule (XCU `lex`, "Regular Expressions in lex": `<state>`).

ghost use Rattle.std.specs.Prelude.{◌≡◌, ◌<◌, ◌≤◌, ◌∷◌, [], MatchOption, length, map, nat_eq, is_some, IfOk, IfSome};
ghost use Rattle.std.specs.List.{list_all, prefix_len, position};
ghost use Rattle.std.specs.Cmp.Lexicographic.{pointwise};
ghost use Rattle.lx_spec.specs.Actions.{is_condition_name as names_condition};
ghost use Rattle.lx_spec.specs.Verdict as plain;
ghost use Rattle.lx_spec.specs.views.Sections.{start_condition_view};
ghost use Rattle.lx_spec.specs.views.Fields.{texts_of};

use crate::action::is_condition_name;
use crate::parsed_sections::StartCondition;
use std::alloc::{AllocError, Global};

fn field_len(text: &[u8]) -> usize
    ensures value { result ≡ prefix_len plain.is_no_comma text.now }
    ensures within { result ≤ length text.now }
{
    text.iter().take_while(|c| **c != b',').count()
}

// Splits a text at its first comma.
fn next_field(text: &[u8]) -> (&[u8], Option<&[u8]>)
    ensures { MatchOption result.1 (plain.fields_of text.now ≡ result.0.now ∷ []) (λ rest.
        (plain.fields_of text.now ≡ result.0.now ∷ plain.fields_of rest.now)
        × (length rest.now < length text.now)) }
{
    let n = field_len(text);
    match text[n..].split_first() {
        Some((_, rest)) => (&text[..n], Some(rest)),
        None => (&text[..n], None),
    }
}

/// Splits a text at its commas.
pub(crate) fn read_fields<'a>(alloc: Global, text: &'a [u8]) -> Result<Vec<&'a [u8]>, AllocError>
    ensures { IfOk result (λ fields. texts_of fields.items ≡ plain.fields_of text.now) }
{
    let mut fields = Vec::new(alloc);
    let mut rest = text;
    'fields: loop {
        let (field, next) = next_field(rest);
        fields.push(field)?;
        match next {
            Some(behind) => rest = behind,
            None => return Ok(fields),
        }
    }
}

/// Returns true if each of the texts is the name of a condition, or `0`.
pub(crate) fn are_condition_names(fields: &[&[u8]]) -> bool
    ensures { result ≡ list_all (λ f. names_condition f.now) fields.now }
{
    fields.iter().all(|f| is_condition_name(*f))
}

fn place_in(start_conditions: &[StartCondition], name: &[u8]) -> Option<usize>
    ensures place { result
        ≡ position (λ s. pointwise nat_eq s.name.now name.now) start_conditions.now }
    ensures within { IfSome result (λ i. i < length start_conditions.now) }
{
    start_conditions.iter().position(|s| s.name == name)
}

fn is_zero(name: &[u8]) -> bool
    ensures { result ≡ pointwise nat_eq name.now (48 ∷ []) }
{
    name == b"0".as_slice()
}

/// Returns the number of the condition with this name. `0` is `INITIAL`.
pub(crate) fn condition_number(start_conditions: &[StartCondition], name: &[u8]) -> Option<usize>
    requires { 0 < length start_conditions.now }
    ensures number { result
        ≡ plain.condition_number (map start_condition_view start_conditions.now) name.now }
    ensures within { IfSome result (λ i. i < length start_conditions.now) }
{
    if is_zero(name) {
        Some(0)
    } else {
        place_in(start_conditions, name)
    }
}

fn is_declared(start_conditions: &[StartCondition], name: &[u8]) -> bool
    requires { 0 < length start_conditions.now }
    ensures { result ≡ is_some
        (plain.condition_number (map start_condition_view start_conditions.now) name.now) }
{
    condition_number(start_conditions, name).is_some()
}

/// Returns true if each of the texts names a declared condition.
pub(crate) fn are_declared(start_conditions: &[StartCondition], names: &[&[u8]]) -> bool
    requires { 0 < length start_conditions.now }
    ensures { result ≡ list_all (λ f.
        is_some
        (plain.condition_number (map start_condition_view start_conditions.now) f.now))
        names.now }
{
    names
        .iter()
        .all(|name| is_declared(start_conditions, *name))
}
