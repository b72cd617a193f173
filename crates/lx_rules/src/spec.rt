//! Specifications that were read.

ghost use Rattle.std.specs.Prelude.{◌<◌, ◌≤◌, length, map, IsTrue};
ghost use Rattle.std.specs.List.{list_all};
ghost use Rattle.lx_rules.specs.views.Conditions.{condition_view};
ghost use Rattle.lx_rules.specs.Invariant.{are_start_conditions, are_definitions, are_ordered, are_kinds, is_rule};
ghost use Rattle.lx_rules.specs.Limits.{max_definitions, max_rules, max_start_conditions};
ghost use Rattle.lx_rules.specs.Nesting.{are_nested, expressions_of};
ghost use Rattle.lx_rules.specs.views.Rules.{rule_view, definition_view, names_view};

use crate::condition::Condition;
use crate::definition::Definition;
use crate::rule::Rule;

/// A specification. Its ghost fields state what holds for every value:
/// - the limits hold;
/// - INITIAL is first;
/// - names are distinct, defined, and nested at most 32 deep;
/// - kinds are in the order of their first appearance;
/// - numbers are in range;
/// - a return is last;
/// - the low bound of each interval is at most its high one.
#[derive(Drop)]
pub struct Spec {
    /// `INITIAL`, and then the conditions in the order of their declaration: at most 64.
    pub conditions: Vec<Condition>,
    /// Definitions that rules reach, in the order of the text: at most 1,024.
    pub definitions: Vec<Definition>,
    /// Identifiers that actions return, each once, in the order of their first appearance.
    pub kinds: Vec<Vec<u8>>,
    /// Rules in the order of the text: at most 4,096.
    pub rules: Vec<Rule>,
    pub ghost some_conditions: { 0 < length conditions.items },
    pub ghost few_conditions: { length conditions.items ≤ max_start_conditions },
    pub ghost initial_first: { IsTrue (are_start_conditions (map condition_view conditions.items)) },
    pub ghost distinct: { IsTrue (are_definitions (map definition_view definitions.items)) },
    pub ghost nested: { IsTrue (are_nested (map definition_view definitions.items) (expressions_of (map rule_view rules.items))) },
    pub ghost ordered: { IsTrue (are_ordered (map definition_view definitions.items) (expressions_of (map rule_view rules.items))) },
    pub ghost kinds_in_order: { IsTrue (are_kinds (names_view kinds.items) (map rule_view rules.items)) },
    pub ghost few_definitions: { length definitions.items ≤ max_definitions },
    pub ghost few_rules: { length rules.items ≤ max_rules },
    pub ghost rules_in_range: { IsTrue (list_all (is_rule (length (map condition_view conditions.items)) (length (names_view kinds.items))) (map rule_view rules.items)) },
}
