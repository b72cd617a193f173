//! Checks that lx reads the printed text as it was read from the flex file.

ghost use Rattle.std.specs.Prelude.{◌≡◌, true, map, OnOk};
ghost use Rattle.std.specs.Option.{option_map};
ghost use Rattle.lx_flex.specs.Imported.{AreDefinitions, AreRules, IsDefinition, IsImported, IsRule, IsThis};
ghost use Rattle.lx_flex.specs.views.{definition_of, rule_of};
ghost use Rattle.lx_rules.specs.views.Conditions.{condition_view};
ghost use Rattle.lx_rules.specs.views.Rules.{definition_view, rule_view};

use crate::judging::ImportedRule;
use crate::naming::ImportedDefinition;
use lx_flex_pattern::{has_same_texts, is_read_as};
use lx_rules::{Condition, Definition, Rule};
use lx_spec::{SpecFault, read_spec};
use std::alloc::Global;

/// Reason why the printed text is unusable.
#[derive(Clone, Copy)]
pub(crate) enum CheckFault {
    /// lx rejects it.
    Refused(SpecFault),
    /// lx reads it differently.
    NotTheSame,
}

fn same_bytes(one: &[u8], other: &[u8]) -> bool
    ensures { result ≡ true → one.now ≡ other.now }
{
    one == other
}

fn same_condition(one: &Condition, other: &Condition) -> bool
    ensures { result ≡ true → condition_view one.now ≡ condition_view other.now }
{
    if one.exclusive != other.exclusive {
        return false;
    }
    same_bytes(one.name.as_slice(), other.name.as_slice())
}

fn are_conditions(declared: &[Condition], read: &[Condition]) -> bool
    ensures { result ≡ true → map condition_view read.now ≡ map condition_view declared.now }
{
    let mut left = declared;
    let mut right = read;
    for _ in declared {
        let Some((one, more)) = left.split_first() else {
            return false;
        };
        let Some((other, rest)) = right.split_first() else {
            return false;
        };
        if !same_condition(other, one) {
            return false;
        }
        left = more;
        right = rest;
    }
    if !left.is_empty() {
        return false;
    }
    right.is_empty()
}

fn same_numbers(one: &[u16], other: &[u16]) -> bool
    ensures { result ≡ true → one.now ≡ other.now }
{
    one == other
}

fn same_lists(one: &Option<Vec<u16>>, other: &Option<Vec<u16>>) -> bool
    ensures { result ≡ true
        → option_map (λ v. v.items) one.now ≡ option_map (λ v. v.items) other.now }
{
    match one {
        None => other.is_none(),
        Some(one) => match other {
            None => false,
            Some(other) => same_numbers(one.as_slice(), other.as_slice()),
        },
    }
}

fn is_rule(rule: &ImportedRule, read: &Rule) -> bool
    ensures { result ≡ true → IsRule (rule_of rule.now) (rule_view read.now) }
{
    if !same_lists(&read.conditions, &rule.conditions) {
        return false;
    }
    is_read_as(&rule.pattern, &read.pattern)
}

fn are_rules(rules: &[ImportedRule], read: &[Rule]) -> bool
    ensures { result ≡ true → AreRules (map rule_of rules.now) (map rule_view read.now) }
{
    let mut unmatched = rules;
    let mut unread = read;
    for _ in rules {
        let Some((rule, more)) = unmatched.split_first() else {
            return false;
        };
        let Some((found, rest)) = unread.split_first() else {
            return false;
        };
        if !is_rule(rule, found) {
            return false;
        }
        unmatched = more;
        unread = rest;
    }
    if !unmatched.is_empty() {
        return false;
    }
    unread.is_empty()
}

fn is_this_definition(definition: &ImportedDefinition, read: &Definition) -> bool
    ensures { result ≡ true → IsThis (definition_of definition.now) (definition_view read.now) }
{
    if !same_bytes(read.name.as_slice(), definition.name.as_slice()) {
        return false;
    }
    has_same_texts(&definition.tree, &read.expr)
}

fn is_definition(definitions: &[ImportedDefinition], read: &Definition) -> bool
    ensures { result ≡ true
        → IsDefinition (map definition_of definitions.now) (definition_view read.now) }
{
    let mut left = definitions;
    for _ in definitions {
        let Some((definition, more)) = left.split_first() else {
            return false;
        };
        if is_this_definition(definition, read) {
            return true;
        }
        left = more;
    }
    false
}

fn are_definitions(definitions: &[ImportedDefinition], read: &[Definition]) -> bool
    ensures { result ≡ true
        → AreDefinitions (map definition_of definitions.now) (map definition_view read.now) }
{
    let mut right = read;
    for _ in read {
        let Some((found, rest)) = right.split_first() else {
            return false;
        };
        if !is_definition(definitions, found) {
            return false;
        }
        right = rest;
    }
    right.is_empty()
}

/// Reads the printed text as lx does. Err: lx rejects it, or reads other conditions, definitions or rules.
pub(crate) fn check(
    alloc: Global,
    text: &[u8],
    conditions: &[Condition],
    definitions: &[ImportedDefinition],
    rules: &[ImportedRule],
) -> Result<(), CheckFault>
    ensures { OnOk result (IsImported (map condition_view conditions.now)
        (map definition_of definitions.now) (map rule_of rules.now) text.now) }
{
    let spec = match read_spec(alloc, text) {
        Ok(spec) => spec,
        Err(fault) => return Err(CheckFault::Refused(fault)),
    };
    if !are_conditions(conditions, spec.conditions.as_slice()) {
        return Err(CheckFault::NotTheSame);
    }
    if !are_definitions(definitions, spec.definitions.as_slice()) {
        return Err(CheckFault::NotTheSame);
    }
    if !are_rules(rules, spec.rules.as_slice()) {
        return Err(CheckFault::NotTheSame);
    }
    Ok(())
}
