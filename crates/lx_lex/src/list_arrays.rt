//! The arrays for `REJECT`: those of an automaton that accepts numbers of lists, and the rules of these lists.

ghost use Rattle.std.specs.Prelude.{length, IfOk, IfSome, OnOk, ◌++◌, ◌+◌, ◌<◌, ◌≡◌};
ghost use Rattle.lx_lex.specs.Lists as lists;
ghost use Rattle.lx_lex.specs.Lists.{HasSmallPlaces, list_arrays_text};

use crate::arrays::push_arrays;
use lx_automaton::{ListAutomaton, RuleLists};
use lx_c::pushing::{PushResult, push, push_number_then};
use std::alloc::{AllocError, Global};

// Appends the rules of a list, each from 1, and a 0 after them.
fn push_list(text: &mut Vec<u8>, rules: &[u16]) -> PushResult
    ensures { OnOk result (text.new.items ≡ text.old.items ++ lists.list_entries rules.now) }
{
    for place in 0..rules.len() {
        push_number_then(text, u64::from(rules[place]) + 1, b",")?;
    }
    push(text, b"0,\n")
}

// Appends the rules of all lists, after an empty list.
fn push_rules(text: &mut Vec<u8>, all: &RuleLists) -> PushResult
    ensures { OnOk result (text.new.items ≡ text.old.items ++ lists.rule_entries all.now) }
{
    push(text, b"0,\n")?;
    for number in 0..all.count() {
        push_list(text, all.list(number))?;
    }
    Ok(())
}

// Returns the place after a list, if it is a number of C.
fn place_after(place: u32, rules: &[u16]) -> Option<u32>
    ensures { IfSome result (λ next. next ≡ place + (length rules.now + 1)) }
{
    let count = u32::try_from(rules.len()).ok()?;
    let next = place.checked_add(count)?;
    next.checked_add(1)
}

// Appends the places of the lists. More rules than places can number count as too large for memory.
fn push_places(text: &mut Vec<u8>, all: &RuleLists) -> PushResult
    ensures places { OnOk result
        (text.new.items ≡ text.old.items ++ lists.place_entries all.now) }
    ensures small { OnOk result (HasSmallPlaces all.now) }
{
    push(text, b"0,")?;
    let mut place: u32 = 1;
    for number in 0..all.count() {
        push_number_then(text, u64::from(place), b",")?;
        let Some(next) = place_after(place, all.list(number)) else {
            return Err(AllocError);
        };
        place = next;
    }
    Ok(())
}

fn push_place_array(text: &mut Vec<u8>, all: &RuleLists) -> PushResult
    ensures places { OnOk result
        (text.new.items ≡ text.old.items ++ lists.place_array all.now) }
    ensures small { OnOk result (HasSmallPlaces all.now) }
{
    push(text, b"static const unsigned int yy_list_places[] = {\n")?;
    push_places(text, all)?;
    push(text, b"0};\n")
}

fn push_rule_array(text: &mut Vec<u8>, all: &RuleLists) -> PushResult
    ensures { OnOk result (text.new.items ≡ text.old.items ++ lists.rule_array all.now) }
{
    push(text, b"static const unsigned short yy_lists[] = {\n")?;
    push_rules(text, all)?;
    push(text, b"0};\n")
}

/// Returns the arrays of an automaton that accepts numbers of lists, and of these lists.
pub(crate) fn list_arrays_of(alloc: Global, made: &ListAutomaton) -> Result<Vec<u8>, AllocError>
    ensures arrays { IfOk result (λ text. text.items
        ≡ list_arrays_text made.now.automaton made.now.lists) }
    ensures small { IfOk result (λ _. HasSmallPlaces made.now.lists) }
{
    let count = made.lists.count() as u64;
    let mut text = Vec::new(alloc);
    push_arrays(&mut text, &made.automaton, count, b"yy_reject_")?;
    push_place_array(&mut text, &made.lists)?;
    push_rule_array(&mut text, &made.lists)?;
    Ok(text)
}
