//! Copies the kinds of a specification, and the line ends and steps of its rules, for tables.

ghost use Rattle.std.specs.Prelude.{◌≡◌, IfOk, map};
ghost use Rattle.lx_rules.specs.views.Specs.{spec_view};
ghost use Rattle.lx_rules.specs.views.Rules.{names_view};
ghost use Rattle.lx_tables.specs.Model.{table_rule};
ghost use Rattle.lx_tables.specs.Views.{rules_view};

use crate::TableRule;
use lx_rules::spec::Spec;
use std::alloc::{AllocError, Global};

/// Copies the names of the kinds.
pub(crate) fn kinds_of(alloc: Global, spec: &Spec) -> Result<Vec<Vec<u8>>, AllocError>
    ensures { IfOk result (λ kinds. names_view kinds.items ≡ (spec_view spec.now).kinds) }
{
    let mut kinds = Vec::new(alloc);
    for kind in &spec.kinds {
        kinds.push(Vec::from_slice(alloc, kind)?)?;
    }
    Ok(kinds)
}

/// Copies the line ends and the steps of the rules.
pub(crate) fn rules_of(alloc: Global, spec: &Spec) -> Result<Vec<TableRule>, AllocError>
    ensures { IfOk result
        (λ rules. rules_view rules.items ≡ map table_rule (spec_view spec.now).rules) }
{
    let mut rules = Vec::new(alloc);
    for rule in &spec.rules {
        let steps = rule.action.clone()?;
        rules.push(TableRule {
            line_end: rule.pattern.line_end,
            steps,
        })?;
    }
    Ok(rules)
}
