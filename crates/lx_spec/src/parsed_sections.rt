//! The entries of the sections.

ghost use Rattle.std.specs.Prelude.{◌<◌, ◌≤◌, length};
ghost use Rattle.lx_rules.specs.Limits.{max_definitions, max_rules, max_start_conditions};

use crate::block::Count;
use crate::rule_line::RulePrefix;

/// A start condition.
#[derive(Drop)]
pub struct StartCondition<'a> {
    pub name: &'a [u8],
    pub exclusive: bool,
}

/// A name and its substitute.
#[derive(Drop)]
pub struct RawDefinition<'a> {
    pub name: &'a [u8],
    pub substitute: &'a [u8],
}

/// A rule as it is written. The lines of its action are joined by LF.
#[derive(Drop)]
pub struct RawRule<'a> {
    pub line: u32,
    pub prefix: RulePrefix<'a>,
    pub pattern: &'a [u8],
    pub action: Vec<u8>,
    pub ghost counted: { 0 < line },
}

/// A rule whose action continues, with the braces of its lines.
#[derive(Drop)]
pub struct OpenRule<'a> {
    pub rule: RawRule<'a>,
    pub count: Count,
    pub ghost opened: { count.opened ≤ length rule.action.items },
    pub ghost closed: { count.closed ≤ length rule.action.items },
}

/// The entries of the sections, in order.
#[derive(Drop)]
pub struct ParsedSections<'a> {
    pub start_conditions: Vec<StartCondition<'a>>,
    pub definitions: Vec<RawDefinition<'a>>,
    pub rules: Vec<RawRule<'a>>,
    pub ghost some_start_conditions: { 0 < length start_conditions.items },
    pub ghost few_start_conditions: { length start_conditions.items ≤ max_start_conditions },
    pub ghost few_definitions: { length definitions.items ≤ max_definitions },
    pub ghost few_rules: { length rules.items ≤ max_rules },
}
