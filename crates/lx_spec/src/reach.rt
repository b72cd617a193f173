//! Finds the definitions that rules reach.

ghost use Rattle.std.specs.Prelude.{◌≡◌, ℕ, ◌<◌, ◌≤◌, ◌↔◌, false, map, reverse, length, IfOk, OnOk, IsTrue, Contains, vec_len, slice_index};
ghost use Rattle.std.specs.List.{flat_map};
ghost use Rattle.lx_rules.specs.views.Rules.{definition_view};
ghost use Rattle.lx_spec.specs.Dictionary.{row_of, mention_of, is_unreadable, unreadable_marks};
ghost use Rattle.lx_spec.specs.views.Dictionaries.{dictionary_view, IsDictionary};
ghost use Rattle.lx_spec.specs.Graph.{is_marked};
ghost use Rattle.lx_spec.specs.Outcome.{IsReached, AreReached, AreReachedBy, AreReadable, PutsReached, patterns_in};
ghost use Rattle.lx_spec.specs.views.ResolvedRules.{resolved_view};
ghost use Rattle.lx_spec.specs.views.Sections.{raw_definition_view};
ghost use Rattle.lx_spec.specs.views.Trees.{tree_view, trees_view};

use crate::definition_index::DefinitionIndex;
use crate::dictionary::{Dictionary, push_row};
use crate::graph::{Mention, spread};
use crate::parsed_sections::RawDefinition;
use crate::resolved_rule::ResolvedRule;
use lx_ere::expr::Expr;
use lx_rules::definition::Definition;
use std::alloc::{AllocError, Global};

// Returns the numbers of the definitions that the patterns of rules use.
fn row_of_all(
    alloc: Global,
    index: &DefinitionIndex,
    resolved: &[ResolvedRule],
) -> Result<Vec<usize>, AllocError>
    ensures { IfOk result (λ row.
        row.items ≡ flat_map (row_of (map raw_definition_view index.now.definitions.now))
        (patterns_in (map resolved_view resolved.now))) }
{
    let mut row = Vec::new(alloc);
    for i in 0..resolved.len() {
        push_row(index, &resolved[i].pattern.expr, &mut row)?;
    }
    Ok(row)
}

// Reverses each mention.
fn reverse(alloc: Global, mentions: &[Mention]) -> Result<Vec<Mention>, AllocError>
    ensures { IfOk result (λ v. v.items ≡ map (λ m. mention_of m.to m.from) mentions.now) }
{
    let mut turned = Vec::new(alloc);
    for mention in mentions {
        turned.push(Mention {
            from: mention.to,
            to: mention.from,
        })?;
    }
    Ok(turned)
}

// Returns `count` marks, of which those with these numbers are set.
fn marks_at(alloc: Global, count: usize, numbers: &[usize]) -> Result<Vec<bool>, AllocError>
    requires { (k : ℕ) → k < length numbers.now → slice_index numbers.now k < count }
    ensures len { IfOk result (λ marks. vec_len marks ≡ count) }
    ensures set { IfOk result
        (λ marks. (i : ℕ) → IsTrue (is_marked marks.items i) ↔ Contains numbers.now i) }
{
    let mut marks = vec![in alloc; false; count]?;
    for j in numbers {
        marks[*j] = true;
    }
    Ok(marks)
}

// Marks each definition that rules reach.
fn reached_of(
    alloc: Global,
    index: &DefinitionIndex,
    dictionary: &Dictionary,
    resolved: &[ResolvedRule],
) -> Result<Vec<bool>, AllocError>
    requires { IsDictionary (map raw_definition_view index.now.definitions.now)
        (dictionary_view dictionary.now) }
    ensures len { IfOk result (λ marks. vec_len marks ≡ length index.now.definitions.now) }
    ensures reached { IfOk result (λ marks. (i : ℕ) →
        IsTrue (is_marked marks.items i) ↔ IsReached (map raw_definition_view index.now.definitions.now) (trees_view dictionary.now.trees.items) (patterns_in (map resolved_view resolved.now)) i) }
{
    let row = row_of_all(alloc, index, resolved)?;
    let turned = reverse(alloc, &dictionary.mentions)?;
    let marks = marks_at(alloc, index.definitions.len(), &row)?;
    spread(alloc, &turned, marks)
}

// Adds definition i if it is marked. The definitions are added in reverse order.
fn push_marked(
    alloc: Global,
    raw_definitions: &[RawDefinition],
    marks: &[bool],
    i: usize,
    tree: Option<Expr>,
    backwards: &mut Vec<Definition>,
) -> Result<(), AllocError>
    requires raw_definitions { i < length raw_definitions.now }
    requires marks { i < length marks.now }
    requires readable { IsTrue (is_marked marks.now i) → is_unreadable (tree_view tree) ≡ false }
    ensures { OnOk result (PutsReached (λ j. IsTrue (is_marked marks.now j)) (map raw_definition_view raw_definitions.now) i (tree_view tree)
        (map definition_view (reverse backwards.old.items)) (map definition_view (reverse backwards.new.items))) }
{
    if marks[i] {
        if let Some(expr) = tree {
            let name = Vec::from_slice(alloc, raw_definitions[i].name)?;
            backwards.push(Definition { name, expr })?;
        }
    }
    Ok(())
}

// Returns the marked definitions, in the order of the text.
fn marked_of(
    alloc: Global,
    raw_definitions: &[RawDefinition],
    marks: &[bool],
    trees: Vec<Option<Expr>>,
) -> Result<Vec<Definition>, AllocError>
    requires trees { vec_len trees ≡ length raw_definitions.now }
    requires marks { length marks.now ≡ length raw_definitions.now }
    requires readable { (i : ℕ) → IsTrue (is_marked marks.now i)
        → is_marked (unreadable_marks (trees_view trees.items)) i ≡ false }
    ensures { IfOk result (λ v.
        AreReached (λ j. IsTrue (is_marked marks.now j)) 0
        (map raw_definition_view raw_definitions.now) (trees_view trees.items)
        (map definition_view v.items)) }
{
    let mut rest = trees;
    let mut definitions = Vec::new(alloc);
    while let Some(tree) = rest.pop() {
        push_marked(
            alloc,
            raw_definitions,
            marks,
            rest.len(),
            tree,
            &mut definitions,
        )?;
    }
    definitions.reverse();
    Ok(definitions)
}

/// Returns the definitions that rules reach, in the order of the text.
pub(crate) fn definitions_of(
    alloc: Global,
    index: &DefinitionIndex,
    dictionary: Dictionary,
    resolved: &[ResolvedRule],
) -> Result<Vec<Definition>, AllocError>
    requires dictionary { IsDictionary (map raw_definition_view index.now.definitions.now)
        (dictionary_view dictionary) }
    requires readable { AreReadable (map resolved_view resolved.now)
        (map raw_definition_view index.now.definitions.now) (trees_view dictionary.trees.items) }
    ensures definitions { IfOk result (λ v.
        AreReachedBy (map resolved_view resolved.now)
        (map raw_definition_view index.now.definitions.now)
        (trees_view dictionary.trees.items) (map definition_view v.items)) }
    ensures few { IfOk result (λ v. vec_len v ≤ length index.now.definitions.now) }
{
    let marks = reached_of(alloc, index, &dictionary, resolved)?;
    let Dictionary {
        trees,
        mentions: _,
        incomplete: _,
    } = dictionary;
    marked_of(alloc, index.definitions, &marks, trees)
}
