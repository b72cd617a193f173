//! Unfolds the definitions that rules need.

ghost use Rattle.std.specs.Prelude.{◌≡◌, [], map, IfOk, Some, slice_get};
ghost use Rattle.lx_ere.specs.Regex.{regex_of};
ghost use Rattle.lx_rules.specs.views.Rules.{definition_view};
ghost use Rattle.lx_auto.specs.NodeViews.{nodes_view};
ghost use Rattle.lx_auto.specs.Unfolding.{Unfolds, AreFragments};

use crate::unfolding::definition_order::{Need, find_needs, is_next};
use crate::unfolding::fragment::Fragment;
use crate::unfolding::names::Names;
use crate::unfolding::unfold::unfold;
use lx_ere::expr::Expr;
use lx_rules::rule::Rule;
use std::alloc::{AllocError, Global};

// Unfolds an expression by itself.
fn unfold_fragment<'s>(
    alloc: Global,
    names: &Names<'s>,
    fragments: &[Option<Fragment<'s>>],
    expr: &'s Expr,
) -> Result<Fragment<'s>, AllocError>
    requires { AreFragments names.now.definitions.now fragments.now }
    ensures { IfOk result (λ f.
        Unfolds (map definition_view names.now.definitions.now) 32 (regex_of expr.now) []
        (nodes_view f.nodes.items) f.part) }
{
    let mut nodes = Vec::new(alloc);
    let part = unfold(names, fragments, 32, expr, &mut nodes)?;
    Ok(Fragment { nodes, part })
}

// Unfolds the definition with this number, if it is next.
fn fill<'s>(
    alloc: Global,
    names: &Names<'s>,
    needs: &[Need],
    number: usize,
    fragments: &mut Vec<Option<Fragment<'s>>>,
) -> Result<(), AllocError>
    requires { AreFragments names.now.definitions.now fragments.old.items }
    ensures { AreFragments names.now.definitions.now fragments.new.items }
{
    let Some(definition) = names.definitions.get(number) else {
        return Ok(());
    };
    if number < fragments.len() && is_next(needs, number, &definition.expr, names, fragments) {
        let fragment = unfold_fragment(alloc, names, fragments, &definition.expr)?;
        fragments[number] = Some(fragment);
    }
    Ok(())
}

// Returns a list without nodes of any definition.
fn no_fragments<'s>(
    alloc: Global,
    names: &Names<'s>,
) -> Result<Vec<Option<Fragment<'s>>>, AllocError>
    ensures { IfOk result (λ fragments. AreFragments names.now.definitions.now fragments.items) }
{
    let mut fragments = Vec::new(alloc);
    for _definition in names.definitions {
        fragments.push(None)?;
    }
    Ok(fragments)
}

/// Unfolds the definitions that the rules need, each once.
pub(crate) fn fill_fragments<'s>(
    alloc: Global,
    names: &Names<'s>,
    rules: &[Rule],
) -> Result<Vec<Option<Fragment<'s>>>, AllocError>
    ensures { IfOk result (λ fragments. AreFragments names.now.definitions.now fragments.items) }
{
    let needs = find_needs(alloc, rules, names)?;
    let mut fragments = no_fragments(alloc, names)?;
    for _level in 0..33u32 {
        for number in 0..names.definitions.len() {
            fill(alloc, names, &needs, number, &mut fragments)?;
        }
    }
    Ok(fragments)
}
