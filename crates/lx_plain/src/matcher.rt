//! The plain matcher: finds the positions to which the words of an expression lead from a set of positions.

ghost use Rattle.std.specs.Prelude.{◌≡◌, IfOk, map};
ghost use Rattle.lx_ere.specs.Regex.{regex_of};
ghost use Rattle.lx_ere.specs.Matching.{Matches, Repeats};
ghost use Rattle.lx_rules.specs.Names.{NameMatches};
ghost use Rattle.lx_rules.specs.views.Rules.{definition_view};
ghost use Rattle.lx_plain.specs.Places.{AreEnds, AreWithin, AnyNumber, AtMost};

use crate::places::{add_new, copy_of, positions_after_byte};
use lx_ere::expr::Expr;
use lx_rules::definition::Definition;
use std::alloc::{AllocError, Global};
use std::collections::BTreeSet;

/// Returns the positions to which words of the expression lead from the starts. Unfolds names at most `depth` deep.
#[cycle(matcher)]
pub(crate) fn ends(
    alloc: Global,
    definitions: &[Definition],
    depth: u8,
    expr: &Expr,
    text: &[u8],
    starts: &BTreeSet<usize>,
) -> Result<BTreeSet<usize>, AllocError>
    requires { AreWithin text.now starts.now }
    ensures { IfOk result (λ ends.
        AreEnds (Matches (NameMatches (map definition_view definitions.now) depth)
        (regex_of expr.now)) text.now starts.now ends) }
{
    // otherwise nested intervals, and names that double, would be followed many times for nothing
    if starts.is_empty() {
        return Ok(BTreeSet::new(alloc));
    }
    match expr {
        Expr::Nil => copy_of(starts),
        Expr::Set(set) => positions_after_byte(alloc, set, text, starts),
        Expr::Then(first, second) => {
            let middles = ends(alloc, definitions, depth, first, text, starts)?;
            ends(alloc, definitions, depth, second, text, &middles)
        }
        Expr::Or(one, other) => {
            let mut both = ends(alloc, definitions, depth, one, text, starts)?;
            let further = ends(alloc, definitions, depth, other, text, starts)?;
            add_new(alloc, &mut both, &further)?;
            Ok(both)
        }
        Expr::Times { body, low, high } => {
            let owed = exactly(alloc, definitions, depth, body, *low, text, starts)?;
            match high {
                None => any_number(alloc, definitions, depth, body, text, &owed),
                Some(high) if *high < *low => Ok(BTreeSet::new(alloc)),
                Some(high) => reach_of_words(
                    alloc,
                    definitions,
                    depth,
                    body,
                    *high - *low,
                    text,
                    &owed,
                ),
            }
        }
        Expr::Name(name) => reach_of_name(alloc, definitions, depth, name, text, starts),
    }
}

// Returns the positions to which exactly `count` words of the body lead.
#[cycle(matcher)]
fn exactly(
    alloc: Global,
    definitions: &[Definition],
    depth: u8,
    body: &Expr,
    count: u8,
    text: &[u8],
    starts: &BTreeSet<usize>,
) -> Result<BTreeSet<usize>, AllocError>
    requires { AreWithin text.now starts.now }
    ensures { IfOk result (λ ends.
        AreEnds (Repeats (Matches (NameMatches (map definition_view definitions.now) depth)
        (regex_of body.now)) count) text.now starts.now ends) }
{
    let mut places = copy_of(starts)?;
    for _round in 0..count {
        places = ends(alloc, definitions, depth, body, text, &places)?;
    }
    Ok(places)
}

// Returns the positions to which at most `most` words of the body lead.
#[cycle(matcher)]
fn reach_of_words(
    alloc: Global,
    definitions: &[Definition],
    depth: u8,
    body: &Expr,
    most: u8,
    text: &[u8],
    starts: &BTreeSet<usize>,
) -> Result<BTreeSet<usize>, AllocError>
    requires { AreWithin text.now starts.now }
    ensures { IfOk result (λ ends.
        AreEnds (AtMost (Matches (NameMatches (map definition_view definitions.now) depth)
        (regex_of body.now)) most) text.now starts.now ends) }
{
    let mut reached = copy_of(starts)?;
    let mut places = copy_of(starts)?;
    for _round in 0..most {
        places = ends(alloc, definitions, depth, body, text, &places)?;
        add_new(alloc, &mut reached, &places)?;
    }
    Ok(reached)
}

// Returns the positions to which any number of words of the body leads. Continues only from new positions.
#[cycle(matcher)]
fn any_number(
    alloc: Global,
    definitions: &[Definition],
    depth: u8,
    body: &Expr,
    text: &[u8],
    starts: &BTreeSet<usize>,
) -> Result<BTreeSet<usize>, AllocError>
    requires { AreWithin text.now starts.now }
    ensures { IfOk result (λ ends.
        AreEnds (AnyNumber (Matches (NameMatches (map definition_view definitions.now) depth)
        (regex_of body.now))) text.now starts.now ends) }
{
    let mut reached = copy_of(starts)?;
    let mut fresh = copy_of(starts)?;
    'closing: while !fresh.is_empty() {
        let next = ends(alloc, definitions, depth, body, text, &fresh)?;
        fresh = add_new(alloc, &mut reached, &next)?;
    }
    Ok(reached)
}

// Returns the positions to which words of the name's expression lead.
#[cycle(matcher)]
fn reach_of_name(
    alloc: Global,
    definitions: &[Definition],
    depth: u8,
    name: &[u8],
    text: &[u8],
    starts: &BTreeSet<usize>,
) -> Result<BTreeSet<usize>, AllocError>
    requires { AreWithin text.now starts.now }
    ensures { IfOk result (λ ends.
        AreEnds (NameMatches (map definition_view definitions.now) depth name.now) text.now
        starts.now ends) }
{
    let mut found = BTreeSet::new(alloc);
    if depth == 0 {
        return Ok(found);
    }
    for definition in definitions {
        if definition.name.as_slice() == name {
            let further = ends(
                alloc,
                definitions,
                depth - 1,
                &definition.expr,
                text,
                starts,
            )?;
            add_new(alloc, &mut found, &further)?;
        }
    }
    Ok(found)
}
