//! Builds the specification of rules without a fault.

ghost use Rattle.std.specs.Prelude.{◌≡◌, [], ◌∷◌, Some, ◌+◌, ◌<◌, ◌≤◌, length, map, IfOk, vec_len};
ghost use Rattle.std.specs.Option.{option_map};
ghost use Rattle.lx_rules.specs.views.Conditions.{condition_view};
ghost use Rattle.lx_rules.specs.Limits.{max_rules, max_start_conditions};
ghost use Rattle.lx_rules.specs.views.Rules.{rule_view, names_view};
ghost use Rattle.lx_rules.specs.views.Specs.{spec_view};
ghost use Rattle.lx_spec.specs.views.Actions.{value_view, statements_view, action_view};
ghost use Rattle.lx_spec.specs.views.Steps.{steps_at_end, steps_before, with_steps};
ghost use Rattle.lx_spec.specs.views.Dictionaries.{dictionary_view, IsDictionary};
ghost use Rattle.lx_spec.specs.First.{HoldsOfNone};
ghost use Rattle.lx_spec.specs.Outcome as plain;
ghost use Rattle.lx_spec.specs.Outcome.{AreResolved, AreSpec};
ghost use Rattle.lx_spec.specs.views.ResolvedRules.{resolved_view};
ghost use Rattle.lx_spec.specs.views.Sections.{raw_rule_view, start_condition_view, raw_definition_view, sections_view};
ghost use Rattle.lx_spec.specs.views.Trees.{trees_view};
ghost use Rattle.lx_spec.specs.Verdict.{Holds, cases};
ghost use Rattle.lx_spec.specs.Verdict.{symbols_of};
ghost use Rattle.lx_spec.specs.WellFormed.{AreWellFormed};

use crate::action::{Action, Statement};
use crate::definition_index::DefinitionIndex;
use crate::dictionary::Dictionary;
use crate::kind_index::{KindIndex, with_name};
use crate::parsed_sections::{ParsedSections, RawRule, StartCondition};
use crate::reach::definitions_of;
use crate::resolved_rule::{ResolvedRule, number_or_first};
use crate::returned_value::Value;
use lx_ere::read::bounds_are_ordered;
use lx_rules::condition::Condition;
use lx_rules::rule::{Kind, Rule, Step};
use lx_rules::spec::Spec;
use lx_rules::steps::Steps;
use std::alloc::{AllocError, Global};

// Returns the value that some statements return.
fn returned_by<'t>(statements: &[Statement<'t>]) -> Option<Value<'t>>
    ensures { option_map value_view result ≡ plain.returned_by (statements_view statements.now) }
{
    for statement in statements {
        if let Statement::Return(value) = statement {
            return Some(*value);
        }
    }
    None
}

// Adds a returned value to the kinds, if it is a name that isn't there yet.
fn with_value(alloc: Global, kinds: KindIndex, value: Value) -> Result<KindIndex, AllocError>
    ensures kinds { IfOk result (λ new.
        names_view new.kinds.items
        ≡ plain.with_kind (names_view kinds.kinds.items) (Some (value_view value.entry))) }
    ensures one { IfOk result (λ new. vec_len new.kinds ≤ vec_len kinds.kinds + 1) }
{
    match value {
        Value::Name(name) => with_name(alloc, kinds, name.text),
        Value::Number(_) => Ok(kinds),
    }
}

// Adds the returned value to the kinds, if there is one.
fn with_returned(
    alloc: Global,
    kinds: KindIndex,
    returned: Option<Value>,
) -> Result<KindIndex, AllocError>
    ensures kinds { IfOk result (λ new.
        names_view new.kinds.items ≡ plain.with_kind (names_view kinds.kinds.items)
        (option_map value_view returned.entry)) }
    ensures one { IfOk result (λ new. vec_len new.kinds ≤ vec_len kinds.kinds + 1) }
{
    match returned {
        Some(value) => with_value(alloc, kinds, value),
        None => Ok(kinds),
    }
}

// Returns the statements of an action. It has none if its action is the next rule's, which returns the same.
fn own_statements<'s, 'r>(action: &'s Action<'r>) -> &'s [Statement<'r>]
    ensures { statements_view result.now ≡ plain.first_own (action_view action.now ∷ []) }
{
    match action {
        Action::Shared => &[],
        Action::Own(statements) => statements,
    }
}

// Collects the names that the rules return, in order of first appearance.
fn kinds_of(alloc: Global, resolved: &[ResolvedRule]) -> Result<KindIndex, AllocError>
    ensures kinds { IfOk result
        (λ kinds. names_view kinds.kinds.items ≡ plain.kinds_of (map resolved_view resolved.now)) }
    ensures few { IfOk result (λ kinds. vec_len kinds.kinds ≤ length resolved.now) }
{
    let mut kinds = KindIndex::new(alloc);
    for i in 0..resolved.len() {
        kinds = with_returned(
            alloc,
            kinds,
            returned_by(own_statements(&resolved[i].action)),
        )?;
    }
    Ok(kinds)
}

fn kind_of(kinds: &KindIndex, value: Value) -> Kind
    requires { vec_len kinds.now.kinds ≤ max_rules }
    ensures { result ≡ plain.kind_of (names_view kinds.now.kinds.items) (value_view value.entry) }
{
    match value {
        Value::Name(name) => Kind::Name(kinds.place_of(name.text).unwrap_or(0) as u32),
        Value::Number(number) => Kind::Number(number.value),
    }
}

// Returns the steps of some statements, up to and including the first return.
fn steps_of(
    alloc: Global,
    start_conditions: &[StartCondition],
    kinds: &KindIndex,
    statements: &[Statement],
) -> Result<Vec<Step>, AllocError>
    requires some { 0 < length start_conditions.now }
    requires few { length start_conditions.now ≤ max_start_conditions }
    requires kinds { vec_len kinds.now.kinds ≤ max_rules }
    ensures { IfOk result (λ steps.
        steps.items ≡ plain.steps_of (map start_condition_view start_conditions.now)
        (names_view kinds.now.kinds.items) (statements_view statements.now)) }
{
    let mut steps = Vec::new(alloc);
    for statement in statements {
        match statement {
            Statement::Nothing => {}
            Statement::Echo => steps.push(Step::Echo)?,
            Statement::Begin(name) => {
                steps.push(Step::Begin(number_or_first(start_conditions, name) as u16))?
            }
            Statement::Return(value) => {
                steps.push(Step::Return(kind_of(kinds, *value)))?;
                return Ok(steps);
            }
        }
    }
    Ok(steps)
}

// Returns the steps of the last rule, shared with it.
fn shared_steps(alloc: Global, rules: &[Rule]) -> Result<Steps, AllocError>
    ensures { IfOk result (λ steps. steps ≡ steps_at_end (map rule_view rules.now)) }
{
    match rules.last() {
        Some(rule) => rule.action.clone(),
        None => Steps::from_vec(Vec::new(alloc)),
    }
}

// Returns the steps of an action, given the rules after it, from the last one to the first.
fn steps_before(
    alloc: Global,
    start_conditions: &[StartCondition],
    kinds: &KindIndex,
    action: &Action,
    rules: &[Rule],
) -> Result<Steps, AllocError>
    requires some { 0 < length start_conditions.now }
    requires few { length start_conditions.now ≤ max_start_conditions }
    requires kinds { vec_len kinds.now.kinds ≤ max_rules }
    ensures { IfOk result (λ steps.
        steps ≡ steps_before (map start_condition_view start_conditions.now)
        (names_view kinds.now.kinds.items) (action_view action.now)
        (steps_at_end (map rule_view rules.now))) }
{
    match action {
        Action::Shared => shared_steps(alloc, rules),
        Action::Own(statements) => {
            let steps = steps_of(alloc, start_conditions, kinds, statements)?;
            Steps::from_vec(steps)
        }
    }
}

fn rule_of(line: u32, rule: ResolvedRule, action: Steps) -> Rule
    ensures { rule_view result ≡ with_steps line (resolved_view rule.entry) action }
{
    let ResolvedRule {
        conditions,
        pattern,
        action: _,
    } = rule;
    Rule {
        line,
        conditions,
        pattern,
        action,
    }
}

// Returns the rules, each with its steps.
fn rules_of(
    alloc: Global,
    start_conditions: &[StartCondition],
    kinds: &KindIndex,
    raws: &[RawRule],
    resolved: Vec<ResolvedRule>,
) -> Result<Vec<Rule>, AllocError>
    requires some { 0 < length start_conditions.now }
    requires few { length start_conditions.now ≤ max_start_conditions }
    requires kinds { vec_len kinds.now.kinds ≤ max_rules }
    requires same { vec_len resolved ≡ length raws.now }
    ensures { IfOk result (λ rules.
        map rule_view rules.items
        ≡ plain.rules_of (map start_condition_view start_conditions.now)
        (names_view kinds.now.kinds.items) (map raw_rule_view raws.now)
        (map resolved_view resolved.entry.items)) }
{
    let mut resolved = resolved;
    let mut rules = Vec::new(alloc);
    while let Some(rule) = resolved.pop() {
        let line = raws[resolved.len()].line;
        let action = steps_before(alloc, start_conditions, kinds, &rule.action, &rules)?;
        rules.push(rule_of(line, rule, action))?;
    }
    rules.reverse();
    Ok(rules)
}

// Returns the conditions, in the order of their declaration.
fn conditions_from(
    alloc: Global,
    start_conditions: &[StartCondition],
) -> Result<Vec<Condition>, AllocError>
    ensures conditions { IfOk result
        (λ v. map condition_view v.items ≡ map start_condition_view start_conditions.now) }
    ensures len { IfOk result (λ v. vec_len v ≡ length start_conditions.now) }
{
    let mut conditions = Vec::new(alloc);
    for start_condition in start_conditions {
        let name = Vec::from_slice(alloc, start_condition.name)?;
        conditions.push(Condition {
            name,
            exclusive: start_condition.exclusive,
        })?;
    }
    Ok(conditions)
}

/// Builds the specification from the sections, their definitions and the rules that were read.
pub fn spec_of(
    alloc: Global,
    sections: &ParsedSections,
    index: &DefinitionIndex,
    dictionary: Dictionary,
    resolved: Vec<ResolvedRule>,
) -> Result<Spec, AllocError>
    requires index { index.now.definitions.now ≡ sections.now.definitions.items }
    requires sections { AreWellFormed (sections_view sections.now) }
    requires dictionary { IsDictionary (map raw_definition_view sections.now.definitions.items)
        (dictionary_view dictionary) }
    requires resolves { AreResolved (map start_condition_view sections.now.start_conditions.items)
        (map raw_rule_view sections.now.rules.items) (map resolved_view resolved.items) }
    requires clean { HoldsOfNone
        (Holds (symbols_of (sections_view sections.now) (trees_view dictionary.trees.items)))
        (cases (map raw_rule_view sections.now.rules.items)) }
    ensures { IfOk result (λ s.
        AreSpec (symbols_of (sections_view sections.now) (trees_view dictionary.trees.items))
        (map raw_rule_view sections.now.rules.items)
        (map resolved_view resolved.entry.items) (spec_view s)) }
{
    bounds_are_ordered();
    let kinds = kinds_of(alloc, &resolved)?;
    let definitions = definitions_of(alloc, index, dictionary, &resolved)?;
    let rules = rules_of(
        alloc,
        &sections.start_conditions,
        &kinds,
        &sections.rules,
        resolved,
    )?;
    let conditions = conditions_from(alloc, &sections.start_conditions)?;
    let KindIndex { kinds, numbers: _ } = kinds;
    Ok(Spec {
        conditions,
        definitions,
        kinds,
        rules,
    })
}
