//! Faults to which definitions lead: an unreadable substitute, an undefined name, or a chain of 33 names.

ghost use Rattle.std.specs.Prelude.{◌≡◌, ℕ, ◌<◌, ◌↔◌, length, map, IsTrue, IfOk, Contains, slice_index, nat_le};
ghost use Rattle.lx_rules.specs.Limits.{max_name_depth};
ghost use Rattle.lx_spec.specs.Dictionary.{unreadable_marks};
ghost use Rattle.lx_spec.specs.Graph.{AreBelow, is_marked};
ghost use Rattle.lx_spec.specs.views.Trees.{trees_view};
ghost use Rattle.lx_spec.specs.views.Dictionaries.{dictionary_view};
ghost use Rattle.lx_spec.specs.views.DefinitionFaults.{AreDefinitionFaults};

use crate::dictionary::Dictionary;
use crate::graph::{depths_of, spread};
use lx_ere::expr::Expr;
use lx_rules::limits::MAX_NAME_DEPTH;
use std::alloc::{AllocError, Global};

/// The faults of each definition: it leads to an unreadable substitute, it leads to an undefined name, or `MAX_NAME_DEPTH` names follow it in a
/// chain.
#[derive(Drop)]
pub struct DefinitionFaults {
    pub unreadable: Vec<bool>,
    pub undefined: Vec<bool>,
    pub too_deep: Vec<bool>,
}

fn unreadable_of(alloc: Global, trees: &[Option<Expr>]) -> Result<Vec<bool>, AllocError>
    ensures { IfOk result (λ marks. marks.items ≡ unreadable_marks (trees_view trees.now)) }
{
    let mut marks = Vec::new(alloc);
    for tree in trees {
        marks.push(tree.is_none())?;
    }
    Ok(marks)
}

fn too_deep_of(alloc: Global, depths: &[u8]) -> Result<Vec<bool>, AllocError>
    ensures { IfOk result (λ marks. marks.items ≡ map (λ d. nat_le max_name_depth d) depths.now) }
{
    depths.iter().map(|d| MAX_NAME_DEPTH <= *d).collect(alloc)
}

/// Finds the faults to which each definition leads, once for all rules.
pub fn definition_faults_of(
    alloc: Global,
    dictionary: &Dictionary,
) -> Result<DefinitionFaults, AllocError>
    requires below { AreBelow dictionary.now.mentions.items (length dictionary.now.trees.items) }
    requires same { length dictionary.now.incomplete.items ≡ length dictionary.now.trees.items }
    ensures { IfOk result (λ faults. AreDefinitionFaults (dictionary_view dictionary.now) faults) }
{
    let no_reading = unreadable_of(alloc, &dictionary.trees)?;
    let incomplete = Vec::from_slice(alloc, &dictionary.incomplete)?;
    let depths = depths_of(alloc, dictionary.trees.len(), &dictionary.mentions)?;
    let too_deep = too_deep_of(alloc, &depths)?;
    let unreadable = spread(alloc, &dictionary.mentions, no_reading)?;
    let undefined = spread(alloc, &dictionary.mentions, incomplete)?;
    Ok(DefinitionFaults {
        unreadable,
        undefined,
        too_deep,
    })
}

/// Returns true if one of these numbers is marked.
pub(crate) fn any_marked(numbers: &[usize], marks: &[bool]) -> bool
    requires { (k : ℕ) → k < length numbers.now → slice_index numbers.now k < length marks.now }
    ensures { IsTrue result ↔ ((j : ℕ) × Contains numbers.now j × IsTrue (is_marked marks.now j)) }
{
    for j in numbers {
        if marks[*j] {
            return true;
        }
    }
    false
}
