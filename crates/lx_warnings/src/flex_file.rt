//! Warns of what the rules of a file for lex or flex show by their tables.

use lx_auto::{BuildFault, build_merged};
use lx_automaton::ListAutomaton;
use lx_ere::{Expr, Pattern};
use lx_flex::importing::conditions_of;
use lx_flex::lengths::{has_operator, matches_empty};
use lx_flex::options::FlexOptions;
use lx_flex::rules::{FlexRule, RuleAction};
use lx_flex::{FilePlace, ImportCause, Reports, Taker};
use lx_flex_pattern::PatternReading;
use lx_lex::{FileOutline, specification_of};
use lx_reach::contexts::{CONTEXT, TOKEN, WHOLE};
use lx_reach::{EmptyParts, is_dangerous, is_default_chosen, never_chosen, takers_of};
use lx_rules::{Condition, Rule, Spec};
use lx_tables::Tables;
use std::alloc::{AllocError, Global};

// Greatest number of rules for which the rules that take their texts are looked for.
const MOST_EXPLAINED: usize = 20;

// Names of conditions for the parts of a rule with trailing context.
const PARTS: &[(&[u8], bool)] = &[
    (b"INITIAL", false),
    (b"token", true),
    (b"whole", true),
    (b"context", true),
];

// Makes the tables of rules, unless these are too large.
fn tables_of_rules(
    alloc: Global,
    conditions: Vec<Condition>,
    rules: Vec<FlexRule>,
) -> Result<Option<Tables>, AllocError> {
    let Some(spec) = specification_of(alloc, conditions, rules)? else {
        return Ok(None);
    };
    match build_merged(alloc, &spec) {
        Ok(automaton) => Ok(Some(Tables::unjoined_of(alloc, &spec, &automaton)?)),
        Err(BuildFault::Memory) => Err(AllocError),
        Err(_) => Ok(None),
    }
}

// Makes a rule of an expression and its trailing context.
fn rule_of(
    place: FilePlace,
    conditions: Option<Vec<u16>>,
    line_begin: bool,
    expr: Expr,
    trailing: Option<Expr>,
) -> FlexRule {
    FlexRule {
        place,
        conditions,
        reading: Some(PatternReading {
            pattern: Pattern {
                line_begin,
                line_end: false,
                expr,
            },
            trailing,
            length: 0,
            parts: 0,
        }),
        action: RuleAction::Bar,
    }
}

fn one(alloc: Global, number: u16) -> Result<Option<Vec<u16>>, AllocError> {
    Ok(Some(Vec::from_slice(alloc, &[number])?))
}

fn conditions_of_parts(alloc: Global) -> Result<Vec<Condition>, AllocError> {
    let mut conditions = Vec::new(alloc);
    for (name, exclusive) in PARTS {
        conditions.push(Condition {
            name: Vec::from_slice(alloc, *name)?,
            exclusive: *exclusive,
        })?;
    }
    Ok(conditions)
}

// Makes the tables of a rule with trailing context, with a condition for each of its parts and one for both, unless these are too large.
fn tables_of_parts(
    alloc: Global,
    place: FilePlace,
    token: &Expr,
    context: &Expr,
) -> Result<Option<Tables>, AllocError> {
    let mut rules = Vec::new(alloc);
    let number = one(alloc, TOKEN)?;
    rules.push(rule_of(place, number, false, token.clone()?, None))?;
    let number = one(alloc, WHOLE)?;
    let trailing = Some(context.clone()?);
    rules.push(rule_of(place, number, false, token.clone()?, trailing))?;
    let number = one(alloc, CONTEXT)?;
    rules.push(rule_of(place, number, false, context.clone()?, None))?;
    tables_of_rules(alloc, conditions_of_parts(alloc)?, rules)
}

// Returns true if a scanner by flex would take another text of a rule.
fn is_dangerous_rule(
    alloc: Global,
    place: FilePlace,
    token: &Expr,
    context: &Expr,
) -> Result<bool, AllocError> {
    let parts = EmptyParts {
        token: matches_empty(token),
        context: matches_empty(context),
    };
    match tables_of_parts(alloc, place, token, context)? {
        Some(tables) if CONTEXT < tables.conditions() => is_dangerous(alloc, &tables, parts),
        _ => Ok(false),
    }
}

/// Adds warnings on trailing context of which a scanner by flex would take another text. That can only be where flex doesn't cut by a length: if both
/// parts have an operator, after a rule with the action `|`, or by `lex-compat`.
pub fn warn_of_contexts(
    alloc: Global,
    options: &FlexOptions,
    rules: &[FlexRule],
    reports: &mut Reports,
) -> Result<(), AllocError> {
    if !reports.warns {
        return Ok(());
    }
    let mut has_no_length = options.is_on(b"lex-compat");
    for rule in rules {
        if let Some(
            PatternReading {
                pattern,
                trailing: Some(context),
                length: _,
                parts: _,
            },
        ) = &rule.reading
        {
            let token = &pattern.expr;
            if (has_no_length || (has_operator(token) && has_operator(context)))
                && is_dangerous_rule(alloc, rule.place, token, context)?
            {
                reports.warn(rule.place, ImportCause::DangerousContext)?;
            }
        }
        has_no_length = options.is_on(b"lex-compat") || rule.action == RuleAction::Bar;
    }
    Ok(())
}

// Returns the places of the rules that have patterns.
fn places_of(alloc: Global, outline: &FileOutline<'_>) -> Result<Vec<FilePlace>, AllocError> {
    let mut places = Vec::new(alloc);
    for rule in outline.rules.as_slice() {
        if rule.pattern.is_some() {
            places.push(rule.place)?;
        }
    }
    Ok(places)
}

// Makes the tables of a rule alone.
fn tables_alone(
    alloc: Global,
    outline: &FileOutline<'_>,
    place: FilePlace,
    rule: &Rule,
) -> Result<Option<Tables>, AllocError> {
    let conditions = match &rule.conditions {
        Some(list) => Some(list.clone()?),
        None => None,
    };
    let mut rules = Vec::new(alloc);
    rules.push(rule_of(
        place,
        conditions,
        rule.pattern.line_begin,
        rule.pattern.expr.clone()?,
        None,
    ))?;
    tables_of_rules(alloc, conditions_of(alloc, &outline.declared)?, rules)
}

fn place_at(places: &[FilePlace], number: u16) -> FilePlace {
    match places.get(usize::from(number)) {
        Some(place) => *place,
        None => FilePlace::WHOLE,
    }
}

// Finds what takes the texts of the rule with this number, which is never matched.
fn taker_of(
    alloc: Global,
    outline: &FileOutline<'_>,
    spec: &Spec,
    tables: &Tables,
    number: u16,
    places: &[FilePlace],
) -> Result<Taker, AllocError> {
    let unknown = Taker::Several(FilePlace::WHOLE);
    let Some(rule) = spec.rules.get(usize::from(number)) else {
        return Ok(unknown);
    };
    let Some(alone) = tables_alone(alloc, outline, place_at(places, number), rule)? else {
        return Ok(unknown);
    };
    let takers = takers_of(alloc, &alone, tables, number)?;
    if !takers.is_whole {
        return Ok(unknown);
    }
    let Some(first) = takers.rules.iter().min() else {
        return Ok(Taker::None);
    };
    let place = place_at(places, *first);
    Ok(if takers.rules.len() == 1 {
        Taker::One(place)
    } else {
        Taker::Several(place)
    })
}

// Returns true if `REJECT` can reach the rule with this number.
fn is_listed(lists: Option<&ListAutomaton>, number: u16) -> bool {
    let Some(
        ListAutomaton {
            automaton: _,
            lists,
        },
    ) = lists
    else {
        return false;
    };
    for list in 0..lists.count() {
        if lists.list(list).contains(&number) {
            return true;
        }
    }
    false
}

// Adds warnings on rules that are never matched.
fn warn_of_rules(
    alloc: Global,
    outline: &FileOutline<'_>,
    spec: &Spec,
    tables: &Tables,
    lists: Option<&ListAutomaton>,
    reports: &mut Reports,
) -> Result<(), AllocError> {
    let places = places_of(alloc, outline)?;
    let mut left = MOST_EXPLAINED;
    for number in &never_chosen(alloc, tables)? {
        if is_listed(lists, *number) {
            continue;
        }
        let place = place_at(&places, *number);
        let mut taker = Taker::Several(FilePlace::WHOLE);
        if 0 < left {
            left -= 1;
            taker = taker_of(alloc, outline, spec, tables, *number, &places)?;
        }
        reports.warn(place, ImportCause::NeverMatched(taker))?;
    }
    Ok(())
}

// Adds warnings on rules for the end of the input that earlier ones leave less than they ask for.
fn warn_of_ends(
    alloc: Global,
    outline: &FileOutline<'_>,
    reports: &mut Reports,
) -> Result<(), AllocError> {
    let mut left = Vec::new(alloc);
    let mut number: u16 = 0;
    for _condition in outline.declared.conditions.as_slice() {
        left.push(number)?;
        number = number.saturating_add(1);
    }
    for rule in outline.rules.as_slice() {
        if rule.pattern.is_some() {
            continue;
        }
        let Some(conditions) = &rule.conditions else {
            if left.is_empty() {
                reports.warn(rule.place, ImportCause::UselessEnd)?;
            }
            left.clear();
            continue;
        };
        for number in conditions.as_slice() {
            if !left.contains(number) {
                reports.warn(rule.place, ImportCause::RepeatedEnd)?;
                break;
            }
        }
        left.retain(|number| !conditions.contains(number));
    }
    Ok(())
}

/// Adds warnings on rules that are never matched, on those for the end of the input, and on a missing default rule.
pub fn warn_of_tables(
    alloc: Global,
    outline: &FileOutline<'_>,
    spec: &Spec,
    tables: &Tables,
    lists: Option<&ListAutomaton>,
    reports: &mut Reports,
) -> Result<(), AllocError> {
    if !reports.warns {
        return Ok(());
    }
    warn_of_rules(alloc, outline, spec, tables, lists, reports)?;
    warn_of_ends(alloc, outline, reports)?;
    let options = &outline.declared.options;
    if !options.is_on(b"default") && is_default_chosen(tables) {
        let place = options.place_of(b"default").unwrap_or(FilePlace::WHOLE);
        reports.warn(place, ImportCause::DefaultMatched)?;
    }
    Ok(())
}
