//! Tests of lists that were read: they can be those of tables.

ghost use Rattle.std.specs.Prelude.{◌≡◌, ◌≤◌, ◌↔◌, nat_lt, nat_le, IsTrue, IfOk, length};
ghost use Rattle.std.specs.List.{list_all};
ghost use Rattle.lx_rules.specs.Identifiers.{is_identifier};
ghost use Rattle.lx_rules.specs.Invariant as invariant;
ghost use Rattle.lx_rules.specs.views.Rules.{names_view};
ghost use Rattle.lx_rules.specs.Limits.{max_rules};
ghost use Rattle.lx_automaton.specs.EncodedOptions.{machine_of};
ghost use Rattle.lx_tables.specs.Limits as limits;
ghost use Rattle.lx_tables.specs.Limits.{AreKinds, HasLimits, IsMachineFor};
ghost use Rattle.lx_tables.specs.Views.{raw_view, rules_view};

use crate::raw::RawTables;
use crate::table_rule::TableRule;
use lx_rules::identifier::is_identifier;
use lx_rules::limits::{MAX_KINDS, MAX_RULES, MAX_START_CONDITIONS, MAX_STATES};
use lx_rules::name_table::add_number;
use lx_rules::rule::{Kind, Step};
use std::alloc::{AllocError, Global};
use std::collections::BTreeMap;

// Returns true if the lists have the right lengths. Lists that were read leniently have them, except for the conditions. The test is cheaper than a
// proof.
fn have_lengths(raw: &RawTables) -> bool
    ensures { result ≡ limits.have_lengths raw.now.starts.items raw.now.classes.items raw.now.width
        raw.now.accepted.items raw.now.targets.items }
{
    !raw.starts.is_empty()
        && raw.starts.len() <= MAX_START_CONDITIONS
        && raw.classes.len() == 256
        && raw.width <= 256
        && raw.accepted.len() <= MAX_STATES
        && raw.targets.len() == raw.accepted.len() * raw.width
}

fn are_starts(starts: &[(u32, u32)], states: usize) -> bool
    ensures { result ≡ list_all (limits.is_start states) starts.now }
{
    starts.iter().all(|start| (start.0 as usize) < states && (start.1 as usize) < states)
}

fn are_classes(classes: &[u8], width: usize) -> bool
    ensures { result ≡ list_all (λ class. nat_lt class width) classes.now }
{
    classes.iter().all(|class| usize::from(*class) < width)
}

/// Returns true if each encoded option is 0, or one more than a number below `numbers`.
fn are_encoded_options(encoded_options: &[u16], numbers: usize) -> bool
    ensures { result
        ≡ list_all (λ encoded_option. nat_le encoded_option numbers) encoded_options.now }
{
    encoded_options
        .iter()
        .all(|encoded_option| usize::from(*encoded_option) <= numbers)
}

fn are_in_range(raw: &RawTables) -> bool
    ensures { result ≡ limits.are_in_range (length raw.now.rules.items) raw.now.starts.items
        raw.now.classes.items raw.now.width raw.now.accepted.items raw.now.targets.items }
{
    let states = raw.accepted.len();
    are_starts(&raw.starts, states)
        && are_classes(&raw.classes, raw.width)
        && are_encoded_options(&raw.accepted, raw.rules.len())
        && are_encoded_options(&raw.targets, states)
}

fn is_machine(raw: &RawTables) -> bool
    requires { length raw.now.rules.items ≤ max_rules }
    ensures { IsTrue result ↔ IsMachineFor (length raw.now.rules.items) (raw_view raw.now).machine }
{
    have_lengths(raw) && are_in_range(raw)
}

fn is_kind(kinds: usize, kind: Kind) -> bool
    ensures { result ≡ invariant.is_kind kinds kind }
{
    match kind {
        Kind::Name(name) => (name as usize) < kinds,
        Kind::Number(number) => number < 2_147_483_648,
    }
}

fn are_steps(conditions: usize, kinds: usize, steps: &[Step]) -> bool
    ensures { result ≡ invariant.are_steps conditions kinds steps.now }
{
    let mut rest = steps;
    while let Some((step, more)) = rest.split_first() {
        match step {
            Step::Echo => {}
            Step::Begin(condition) => {
                if usize::from(*condition) >= conditions {
                    return false;
                }
            }
            Step::Return(kind) => return more.is_empty() && is_kind(kinds, *kind),
        }
        rest = more;
    }
    true
}

fn are_rules(conditions: usize, kinds: usize, rules: &[TableRule]) -> bool
    ensures { result
        ≡ list_all (λ rule. invariant.are_steps conditions kinds rule.steps) rules.now }
{
    rules
        .iter()
        .all(|rule| are_steps(conditions, kinds, rule.steps.as_slice()))
}

fn are_identifiers(names: &[Vec<u8>]) -> bool
    ensures { result ≡ list_all (λ name. is_identifier name.items) names.now }
{
    names.iter().all(|name| is_identifier(name))
}

/// Returns true if no two names are the same, from the last one on.
fn are_distinct(alloc: Global, names: &[Vec<u8>]) -> Result<bool, AllocError>
    ensures { IfOk result (λ yes. yes ≡ invariant.are_distinct (names_view names.now)) }
{
    let mut seen = BTreeMap::new(alloc);
    let mut at = names.len();
    while at > 0 {
        at -= 1;
        let name = names[at].as_slice();
        if seen.contains_key(name) {
            return Ok(false);
        }
        add_number(alloc, &mut seen, name, at)?;
    }
    Ok(true)
}

fn are_kinds(alloc: Global, names: &[Vec<u8>]) -> Result<bool, AllocError>
    ensures { IfOk result (λ yes. IsTrue yes ↔ AreKinds (names_view names.now)) }
{
    if names.len() > MAX_KINDS {
        return Ok(false);
    }
    if !are_identifiers(names) {
        return Ok(false);
    }
    are_distinct(alloc, names)
}

/// Returns true if the lists are those of tables. Doesn't test the byte classes.
pub fn has_limits(alloc: Global, raw: &RawTables) -> Result<bool, AllocError>
    ensures { IfOk result (λ yes. IsTrue yes ↔ HasLimits (raw_view raw.now)) }
{
    if raw.rules.len() > MAX_RULES {
        return Ok(false);
    }
    if !is_machine(raw) {
        return Ok(false);
    }
    if !are_rules(raw.starts.len(), raw.kinds.len(), &raw.rules) {
        return Ok(false);
    }
    are_kinds(alloc, &raw.kinds)
}
