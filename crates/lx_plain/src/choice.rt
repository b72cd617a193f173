//! Chooses among the rules: matches each one against the text, as far as it goes.

ghost use Rattle.std.specs.Prelude.{◌≡◌, ◌<◌, ◌+◌, ◌^◌, ◌↔◌, ℕ, IsTrue, IfOk, length, nat_eq, slice_get, Some};
ghost use Rattle.std.specs.Ordering.{nat_cmp};
ghost use Rattle.std.specs.BTreeSet.{contains};
ghost use Rattle.lx_ere.specs.Regex.{regex_of};
ghost use Rattle.lx_ere.specs.Matching.{Matches};
ghost use Rattle.lx_rules.specs.Choice.{IsActive, IsChoice, SpecNames, reach};
ghost use Rattle.lx_rules.specs.views.Rules.{rule_view};
ghost use Rattle.lx_rules.specs.views.Specs.{spec_view};
ghost use Rattle.lx_plain.specs.Longest.{IsLongest};
ghost use Rattle.lx_plain.specs.Places.{AreLengths};

use crate::matcher::ends;
use lx_ere::expr::Expr;
use lx_rules::rule::Rule;
use lx_rules::spec::Spec;
use std::alloc::{AllocError, Global};
use std::collections::BTreeSet;

// Greatest depth of a specification's names.
const NESTING: u8 = 32;

/// Returns true if the rule is active in the condition.
pub(crate) fn is_active(spec: &Spec, rule: &Rule, condition: u16) -> bool
    requires { condition < length (spec_view spec.now).conditions }
    ensures { IsTrue result ↔ IsActive (spec_view spec.now) (rule_view rule.now) condition }
{
    match &rule.conditions {
        Some(list) => list.contains(&condition),
        None => !spec.conditions[condition as usize].exclusive,
    }
}

// Returns the set of only the position before the first byte.
fn front(alloc: Global) -> Result<BTreeSet<usize>, AllocError>
    ensures { IfOk result (λ places. (j : ℕ) → contains nat_cmp places j ≡ nat_eq j 0) }
{
    let mut places = BTreeSet::new(alloc);
    places.insert(0)?;
    Ok(places)
}

// Returns the lengths of the words at the start of the text that the expression matches.
fn lengths(
    alloc: Global,
    spec: &Spec,
    expr: &Expr,
    text: &[u8],
) -> Result<BTreeSet<usize>, AllocError>
    ensures { IfOk result (λ found.
        AreLengths (Matches (SpecNames (spec_view spec.now)) (regex_of expr.now)) text.now
        found) }
{
    let front = front(alloc)?;
    ends(alloc, &spec.definitions, NESTING, expr, text, &front)
}

// Returns true if a fit of the rule may begin here: under this condition, at the start of a line or not.
fn may_begin(spec: &Spec, rule: &Rule, condition: u16, begin: bool) -> bool
    requires { condition < length (spec_view spec.now).conditions }
    ensures { IsTrue result ↔ (IsActive (spec_view spec.now) (rule_view rule.now) condition
        × (IsTrue (rule_view rule.now).reading.line_begin → IsTrue begin)) }
{
    is_active(spec, rule, condition) && (begin || !rule.pattern.line_begin)
}

// Returns true if a fit of the rule may end after n bytes.
fn may_end(rule: &Rule, text: &[u8], n: usize) -> bool
    ensures { IsTrue result ↔ ((0 < n)
        × (IsTrue (rule_view rule.now).reading.line_end → slice_get text.now n ≡ Some 10)) }
{
    n > 0 && (!rule.pattern.line_end || text.get(n) == Some(&b'\n'))
}

/// Returns the greatest number of bytes at the start of the text that the rule fits.
pub(crate) fn longest_fit(
    alloc: Global,
    spec: &Spec,
    rule: &Rule,
    condition: u16,
    begin: bool,
    text: &[u8],
) -> Result<Option<usize>, AllocError>
    requires { condition < length (spec_view spec.now).conditions }
    ensures { IfOk result
        (IsLongest (spec_view spec.now) (rule_view rule.now) condition begin text.now) }
{
    if !may_begin(spec, rule, condition, begin) {
        return Ok(None);
    }
    let mut found = lengths(alloc, spec, &rule.pattern.expr, text)?;
    while let Some(n) = found.pop_last() {
        if may_end(rule, text, n) {
            return Ok(Some(n));
        }
    }
    Ok(None)
}

// Returns the reach of a fit of n bytes. If the pattern ends with `$`, the newline counts.
fn reach_of(rule: &Rule, n: usize) -> usize
    requires { n + 1 < 2 ^ 64 }
    ensures { result ≡ reach (rule_view rule.now) n }
{
    if rule.pattern.line_end { n + 1 } else { n }
}

/// Returns the rule and the number of bytes with the greatest reach, and among these the earliest rule.
pub(crate) fn choose(
    alloc: Global,
    spec: &Spec,
    condition: u16,
    begin: bool,
    text: &[u8],
) -> Result<Option<(u16, usize)>, AllocError>
    requires { condition < length (spec_view spec.now).conditions }
    ensures { IfOk result (IsChoice (spec_view spec.now) condition begin text.now) }
{
    let mut best = None;
    let mut best_reach = 0;
    for (i, rule) in spec.rules.iter().enumerate() {
        if let Some(n) = longest_fit(alloc, spec, rule, condition, begin, text)? {
            let reach = reach_of(rule, n);
            if reach > best_reach {
                best = Some((i as u16, n));
                best_reach = reach;
            }
        }
    }
    Ok(best)
}
