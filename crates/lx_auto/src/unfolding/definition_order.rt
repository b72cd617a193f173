//! Orders the unfolding of definitions: a name comes after the names that it uses, so that no unfolding goes from name to name. No contract speaks of
//! the order, since every order yields the same nodes.

use crate::unfolding::fragment::Fragment;
use crate::unfolding::names::Names;
use crate::unfolding::repeat::has_no_copy;
use lx_ere::expr::Expr;
use lx_rules::rule::Rule;
use std::alloc::{AllocError, Global};

/// The need for the nodes of a definition.
#[derive(Clone, Copy)]
pub(crate) enum Need {
    /// No unfolded expression uses it.
    No,
    /// It is used, and the names that it uses aren't marked yet.
    Fresh,
    /// It is used, and the names that it uses are marked.
    Known,
}

// Marks a definition that is used.
fn mark(needs: &mut [Need], number: usize) {
    if let Some(need) = needs.get_mut(number) {
        if let Need::No = *need {
            *need = Need::Fresh;
        }
    }
}

// Marks the definitions that the expression uses when it is unfolded.
fn mark_names(expr: &Expr, names: &Names<'_>, needs: &mut [Need]) {
    match expr {
        Expr::Nil => {}
        Expr::Set(_) => {}
        Expr::Then(first, second) => {
            mark_names(first, names, needs);
            mark_names(second, names, needs);
        }
        Expr::Or(one, other) => {
            mark_names(one, names, needs);
            mark_names(other, names, needs);
        }
        Expr::Times { body, high, .. } => {
            if !has_no_copy(*high) {
                mark_names(body, names, needs);
            }
        }
        Expr::Name(name) => {
            if let Some(number) = names.number_of(name) {
                mark(needs, number);
            }
        }
    }
}

// Marks the names that the definition uses, if it was marked since.
fn mark_further(number: usize, names: &Names<'_>, needs: &mut [Need]) {
    let Some(definition) = names.definitions.get(number) else {
        return;
    };
    if let Some(need) = needs.get_mut(number) {
        let Need::Fresh = *need else {
            return;
        };
        *need = Need::Known;
        mark_names(&definition.expr, names, needs);
    }
}

/// Finds the definitions that have to be unfolded for these rules.
pub(crate) fn find_needs(
    alloc: Global,
    rules: &[Rule],
    names: &Names<'_>,
) -> Result<Vec<Need>, AllocError> {
    let mut needs = Vec::new(alloc);
    for _definition in names.definitions {
        needs.push(Need::No)?;
    }
    for rule in rules {
        mark_names(&rule.pattern.expr, names, &mut needs);
    }
    for _level in 0..32u32 {
        for number in 0..names.definitions.len() {
            mark_further(number, names, &mut needs);
        }
    }
    Ok(needs)
}

/// Returns true if each definition that the expression uses when it is unfolded has its nodes.
pub(crate) fn is_ready(expr: &Expr, names: &Names<'_>, fragments: &[Option<Fragment<'_>>]) -> bool {
    match expr {
        Expr::Nil => true,
        Expr::Set(_) => true,
        Expr::Then(first, second) => {
            is_ready(first, names, fragments) && is_ready(second, names, fragments)
        }
        Expr::Or(one, other) => {
            is_ready(one, names, fragments) && is_ready(other, names, fragments)
        }
        Expr::Times { body, high, .. } => { has_no_copy(*high) || is_ready(body, names, fragments) }
        Expr::Name(name) => match names.number_of(name) {
            Some(number) => matches!(fragments.get(number), Some(Some(_))),
            None => true,
        },
    }
}

/// Returns true if the definition with this number is needed, has no nodes yet, and uses only those that have them.
pub(crate) fn is_next(
    needs: &[Need],
    number: usize,
    expr: &Expr,
    names: &Names<'_>,
    fragments: &[Option<Fragment<'_>>],
) -> bool {
    match needs.get(number) {
        Some(Need::Known) => {
            matches!(fragments.get(number), Some(None)) && is_ready(expr, names, fragments)
        }
        _ => false,
    }
}
