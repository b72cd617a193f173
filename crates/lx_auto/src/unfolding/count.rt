//! Counts the positions of a specification before anything is unfolded.

ghost use Rattle.std.specs.Prelude.{◌≡◌, ◌+◌, ◌*◌, ◌≤◌, min, map, get_or, IfOk};
ghost use Rattle.lx_ere.specs.Regex.{regex_of};
ghost use Rattle.lx_ere.specs.Limits.{max_interval_bound};
ghost use Rattle.lx_rules.specs.views.Rules.{definition_view, rule_view};
ghost use Rattle.lx_rules.specs.Limits.{max_positions};
ghost use Rattle.lx_auto.specs.Counts.{copies_of, count_in, count_of_pattern, count_of_rules, newline_count as newline_of};
ghost use Rattle.lx_auto.specs.CountViews.{looked_up, counts_behind, counts_at};

use crate::unfolding::names::Names;
use lx_ere::expr::Expr;
use lx_rules::rule::Rule;
use std::alloc::{AllocError, Global};

/// One more than the greatest number of positions of a specification. No count exceeds it.
pub(crate) const TOO_MANY: u32 = 16_385;

// Adds two counts.
fn sum(left: u32, right: u32) -> u32
    requires left { left ≤ max_positions + 1 }
    requires right { right ≤ max_positions + 1 }
    ensures { result ≡ min (max_positions + 1) (left + right) }
{
    (left + right).min(TOO_MANY)
}

// Returns the number of copies of its body to which a repeat is unfolded.
fn copies(low: u8, high: Option<u8>) -> u32
    ensures value { result ≡ copies_of low high }
    ensures few { result ≤ max_interval_bound }
{
    match high {
        Some(high) => high as u32,
        None => (low as u32).max(1),
    }
}

// Returns the number of positions of this number of copies.
fn product(copies: u32, count: u32) -> u32
    requires copies { copies ≤ max_interval_bound }
    requires count { count ≤ max_positions + 1 }
    ensures { result ≡ min (max_positions + 1) (copies * count) }
{
    (copies * count).min(TOO_MANY)
}

// Counts the positions of an expression, given those of the definitions. A definition that isn't among them has none.
fn count(expr: &Expr, names: &Names<'_>, counts: &[u32]) -> u32
    ensures { result ≡ min (max_positions + 1)
        (count_in (looked_up names.now.definitions.now counts.now) (regex_of expr.now)) }
{
    match expr {
        Expr::Nil => 0,
        Expr::Set(_) => 1,
        Expr::Then(first, second) => sum(count(first, names, counts), count(second, names, counts)),
        Expr::Or(one, other) => sum(count(one, names, counts), count(other, names, counts)),
        Expr::Times { body, low, high } => product(copies(*low, *high), count(body, names, counts)),
        Expr::Name(name) => match names.number_of(name) {
            Some(number) => count_at(counts, number).min(TOO_MANY),
            None => 0,
        },
    }
}

fn count_at(counts: &[u32], number: usize) -> u32
    ensures { result ≡ get_or counts.now number 0 }
{
    match counts.get(number) {
        Some(count) => *count,
        None => 0,
    }
}

// Counts the positions of each definition, given the counts of its names.
fn next_counts(alloc: Global, names: &Names<'_>, counts: &[u32]) -> Result<Vec<u32>, AllocError>
    ensures { IfOk result
        (λ next. next.items ≡ counts_behind names.now.definitions.now counts.now) }
{
    let mut next = Vec::new(alloc);
    for definition in names.definitions {
        next.push(count(&definition.expr, names, counts))?;
    }
    Ok(next)
}

/// Counts the positions of the definitions, each count at most one above the limit.
pub(crate) fn count_definitions(alloc: Global, names: &Names<'_>) -> Result<Vec<u32>, AllocError>
    ensures { IfOk result (λ counts. counts.items ≡ counts_at names.now.definitions.now 31) }
{
    let mut counts = next_counts(alloc, names, &[])?;
    for _round in 0..31u32 {
        let next = next_counts(alloc, names, &counts)?;
        // once nothing changes, nothing changes later
        if next == counts {
            return Ok(counts);
        }
        counts = next;
    }
    Ok(counts)
}

fn newline_count(line_end: bool) -> u32
    ensures { result ≡ newline_of line_end }
{
    if line_end { 1 } else { 0 }
}

/// Counts the positions of these rules, given those of the definitions.
pub(crate) fn count_rules(rules: &[Rule], names: &Names<'_>, counts: &[u32]) -> u32
    requires { counts.now ≡ counts_at names.now.definitions.now 31 }
    ensures { result
        ≡ min (max_positions + 1) (count_of_rules (map definition_view names.now.definitions.now)
        (map rule_view rules.now)) }
{
    let mut total = 0;
    for rule in rules {
        let pattern = &rule.pattern;
        let own = sum(
            count(&pattern.expr, names, counts),
            newline_count(pattern.line_end),
        );
        total = sum(total, own);
    }
    total
}
