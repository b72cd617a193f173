//! The rule of each position, as a hint for where to begin a search for the rule. No proof depends on it.

use crate::rules::rule_part::RulePart;
use std::alloc::{AllocError, Global};

// Greatest number that can be kept. No specification has a rule with this number.
const LAST_RULE: usize = 65_535;

// Adds the number of a rule for each of its positions.
fn push_rule(part: &RulePart, rule: u16, rules_at: &mut Vec<u16>) -> Result<(), AllocError> {
    for _position in 0..part.count {
        rules_at.push(rule)?;
    }
    if part.line_end {
        rules_at.push(rule)?;
    }
    Ok(())
}

/// Returns the rule of each position.
pub(crate) fn rules_by_position(
    alloc: Global,
    parts: &[RulePart],
    total: usize,
) -> Result<Vec<u16>, AllocError> {
    let mut rules_at = Vec::with_capacity(alloc, total)?;
    for rule in 0..parts.len() {
        push_rule(&parts[rule], rule.min(LAST_RULE) as u16, &mut rules_at)?;
    }
    Ok(rules_at)
}
