//! Unfolds and numbers the rules of a specification.

ghost use Rattle.std.specs.Prelude.{◌≡◌, ◌+◌, ◌≤◌, ◌<◌, ◌^◌, ◌⊎◌, ◌∷◌, [], length, map, IsTrue, IfOk, IfErr};
ghost use Rattle.lx_ere.specs.Regex.{regex_of};
ghost use Rattle.lx_rules.specs.Nesting.{are_nested, expressions_of};
ghost use Rattle.lx_rules.specs.views.Rules.{definition_view, rule_view};
ghost use Rattle.lx_rules.specs.views.Specs.{spec_view};
ghost use Rattle.lx_rules.specs.Limits.{max_positions};
ghost use Rattle.lx_auto.specs.Counts.{count_of_rules, count_of_spec, newline_count};
ghost use Rattle.lx_auto.specs.Nodes.{nodes_of};
ghost use Rattle.lx_auto.specs.NodeLeaves.{leaves_in};
ghost use Rattle.lx_auto.specs.NodeViews.{nodes_view};
ghost use Rattle.lx_auto.specs.PositionSets.{numbered};
ghost use Rattle.lx_auto.specs.RuleParts.{ArePartsOf, IsPartOver, AreNodes};
ghost use Rattle.lx_auto.specs.Simplified.{simplified_pattern};
ghost use Rattle.lx_auto.specs.Unfolding.{AreFragments};
ghost use Rattle.lx_auto.specs.declared.fault.BuildFault.{BuildFault};
ghost use Rattle.lx_auto.specs.TooLarge.{HasTooManyPositions};

use crate::fault::BuildFault;
use crate::rules::blocks::{count_leaves, number_blocks};
use crate::rules::chunking::split_into_blocks;
use crate::rules::rule_part::RulePart;
use crate::sets::marking::nulls_of;
use crate::unfolding::count::{TOO_MANY, count_definitions, count_rules};
use crate::unfolding::fill::fill_fragments;
use crate::unfolding::fragment::Fragment;
use crate::unfolding::names::{Names, index_names};
use crate::unfolding::node::Node;
use crate::unfolding::unfold::unfold;
use crate::unfolding::unfolded_rules::UnfoldedRules;
use lx_rules::rule::Rule;
use lx_rules::spec::Spec;
use std::alloc::{AllocError, Global};

// Unfolds a rule's expression to nodes.
fn unfold_rule<'s>(
    alloc: Global,
    names: &Names<'s>,
    fragments: &[Option<Fragment<'s>>],
    rule: &'s Rule,
) -> Result<Vec<Node<'s>>, AllocError>
    requires fragments { AreFragments names.now.definitions.now fragments.now }
    requires nested { IsTrue (are_nested (map definition_view names.now.definitions.now)
        (regex_of rule.now.pattern.expr ∷ [])) }
    ensures { IfOk result (λ nodes.
        nodes_view nodes.items
        ≡ nodes_of (simplified_pattern (map definition_view names.now.definitions.now)
        (regex_of rule.now.pattern.expr))) }
{
    let mut nodes = Vec::new(alloc);
    unfold(names, fragments, 32, &rule.pattern.expr, &mut nodes)?;
    Ok(nodes)
}

// Makes the part of a rule with these nodes. Its positions are numbered from the base on.
fn part_of(
    alloc: Global,
    nodes: Vec<Node<'_>>,
    base: usize,
    line_end: bool,
) -> Result<RulePart<'_>, AllocError>
    requires small { base < 65536 }
    requires few { length (leaves_in (nodes_view nodes.items)) < 65536 }
    requires whole { AreNodes (nodes_view nodes.items) }
    ensures { IfOk result (λ part. IsPartOver part (nodes_view nodes.entry.items) base line_end) }
{
    let count = count_leaves(&nodes);
    let outlined = split_into_blocks(alloc, &nodes)?;
    let nulls = nulls_of(alloc, &outlined.outline)?;
    let blocks = number_blocks(alloc, &outlined.blocks, base)?;
    Ok(RulePart {
        nodes,
        outline: outlined.outline,
        nulls,
        blocks,
        base,
        count,
        line_end,
    })
}

// Returns the position after all of a rule.
fn end_of(part: &RulePart) -> usize
    ensures { result ≡ part.now.base + part.now.count + newline_count part.now.line_end }
{
    let behind = part.base + part.count;
    if part.line_end { behind + 1 } else { behind }
}

// Unfolds these rules, one after the other, and counts their positions.
fn unfold_each<'s>(
    alloc: Global,
    names: &Names<'s>,
    fragments: &[Option<Fragment<'s>>],
    rules: &'s [Rule],
) -> Result<UnfoldedRules<'s>, AllocError>
    requires fragments { AreFragments names.now.definitions.now fragments.now }
    requires nested { IsTrue (are_nested (map definition_view names.now.definitions.now)
        (expressions_of (map rule_view rules.now))) }
    requires few { count_of_rules (map definition_view names.now.definitions.now)
        (map rule_view rules.now) ≤ max_positions }
    ensures parts { IfOk result (λ u.
        ArePartsOf u.parts.items (numbered
        (simplified_pattern (map definition_view names.now.definitions.now)) 0
        (map rule_view rules.now)) u.total) }
    ensures total { IfOk result (λ u.
        u.total ≡ count_of_rules (map definition_view names.now.definitions.now)
        (map rule_view rules.now)) }
{
    let mut parts = Vec::new(alloc);
    let mut total = 0;
    for i in 0..rules.len() {
        let rule = &rules[i];
        let nodes = unfold_rule(alloc, names, fragments, rule)?;
        let part = part_of(alloc, nodes, total, rule.pattern.line_end)?;
        total = end_of(&part);
        parts.push(part)?;
    }
    Ok(UnfoldedRules { parts, total })
}

/// Unfolds the rules of a specification: unfolds names, writes repeats out, removes what has no position, and numbers the positions rule by rule.
///
/// # Errors
///
/// `TooManyPositions` if there are more than 16,384, before anything is unfolded. `Memory`.
pub(crate) fn unfold_rules<'s>(
    alloc: Global,
    spec: &'s Spec,
) -> Result<UnfoldedRules<'s>, BuildFault>
    ensures too_many { IfErr result
        (λ e. e ≡ BuildFault.TooManyPositions → HasTooManyPositions (spec_view spec.now)) }
    ensures memory { IfErr result
        (λ e. (e ≡ BuildFault.TooManyPositions) ⊎ (e ≡ BuildFault.Memory)) }
    ensures few { IfOk result (λ _. count_of_spec (spec_view spec.now) ≤ max_positions) }
    ensures parts { IfOk result (λ u.
        ArePartsOf u.parts.items (numbered (simplified_pattern (spec_view spec.now).definitions)
        0 (spec_view spec.now).rules) u.total) }
    ensures total { IfOk result (λ u. u.total ≤ max_positions) }
{
    let names = index_names(alloc, &spec.definitions)?;
    let counts = count_definitions(alloc, &names)?;
    if count_rules(&spec.rules, &names, &counts) == TOO_MANY {
        return Err(BuildFault::TooManyPositions);
    }
    let fragments = fill_fragments(alloc, &names, &spec.rules)?;
    Ok(unfold_each(alloc, &names, &fragments, &spec.rules)?)
}
