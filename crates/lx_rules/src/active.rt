//! Finds the rules that are active at a start: in a condition, at line begin or elsewhere.

ghost use Rattle.std.specs.Prelude.{◌≡◌, ◌<◌, ◌↔◌, true, IfOk, length};
ghost use Rattle.lx_rules.specs.Choice.{IsActive};
ghost use Rattle.lx_rules.specs.views.Rules.{rule_view};
ghost use Rattle.lx_rules.specs.views.Specs.{spec_view};
ghost use Rattle.lx_rules.specs.Starts.{AreActive, IsActiveAt};

use crate::rule::Rule;
use crate::spec::Spec;
use std::alloc::{AllocError, Global};

// Returns true if the rule is active in the condition.
fn is_active(spec: &Spec, rule: &Rule, condition: u16) -> bool
    requires { condition < length (spec_view spec.now).conditions }
    ensures { (result ≡ true) ↔ IsActive (spec_view spec.now) (rule_view rule.now) condition }
{
    match &rule.conditions {
        Some(list) => list.contains(&condition),
        None => !spec.conditions[condition as usize].exclusive,
    }
}

// Returns true if the rule is active in the condition, at line begin or not.
fn is_active_at(spec: &Spec, rule: &Rule, condition: u16, begin: bool) -> bool
    requires { condition < length (spec_view spec.now).conditions }
    ensures { (result ≡ true)
        ↔ IsActiveAt (spec_view spec.now) (rule_view rule.now) condition begin }
{
    is_active(spec, rule, condition) && (begin || !rule.pattern.line_begin)
}

/// Tests for each rule if it is active in the condition, at line begin or not.
pub fn active_rules(
    alloc: Global,
    spec: &Spec,
    condition: u16,
    begin: bool,
) -> Result<Vec<bool>, AllocError>
    requires { condition < length (spec_view spec.now).conditions }
    ensures { IfOk result (λ active. AreActive (spec_view spec.now) condition begin active.items) }
{
    let mut active = Vec::new(alloc);
    for i in 0..spec.rules.len() {
        active.push(is_active_at(spec, &spec.rules[i], condition, begin))?;
    }
    Ok(active)
}
