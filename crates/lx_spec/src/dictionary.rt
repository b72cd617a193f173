//! Reads the definitions, and finds the ones that each mentions.

ghost use Rattle.std.specs.Prelude.{◌≡◌, ◌<◌, ◌++◌, Some, None, Ok, Err, map, length, IfOk, OnOk};
ghost use Rattle.lx_ere.specs.Regex.{regex_of};
ghost use Rattle.lx_spec.specs.Dictionary as plain;
ghost use Rattle.lx_spec.specs.Dictionary.{row_of, all_defined};
ghost use Rattle.lx_spec.specs.views.Sections.{raw_definition_view};
ghost use Rattle.lx_spec.specs.views.Trees.{tree_view};
ghost use Rattle.lx_spec.specs.views.Dictionaries.{dictionary_view, AddsTree, IsDictionary};

use crate::definition_index::DefinitionIndex;
use crate::graph::Mention;
use lx_ere::expr::Expr;
use lx_ere::fault::EreFault;
use lx_ere::read::read_substitute;
use std::alloc::{AllocError, Global};

/// The trees of the definitions, in order, `None` for an unreadable substitute. Also has the mentions of definitions by definitions, and a flag for
/// each definition that uses an undefined name.
#[derive(Drop)]
pub struct Dictionary {
    pub trees: Vec<Option<Expr>>,
    pub mentions: Vec<Mention>,
    pub incomplete: Vec<bool>,
}

/// Adds the numbers of the definitions that an expression uses. Returns true if each name in it is defined.
#[tactic(auto, using(crate::proofs::Rows::row_steps))]
pub(crate) fn push_row(
    index: &DefinitionIndex,
    expr: &Expr,
    row: &mut Vec<usize>,
) -> Result<bool, AllocError>
    ensures row { OnOk result (row.new.items ≡ row.old.items
        ++ row_of (map raw_definition_view index.now.definitions.now) (regex_of expr.now)) }
    ensures all { IfOk result (λ all.
        all ≡ all_defined (map raw_definition_view index.now.definitions.now)
        (regex_of expr.now)) }
{
    match expr {
        Expr::Nil | Expr::Set(_) => Ok(true),
        Expr::Then(a, b) | Expr::Or(a, b) => {
            let first = push_row(index, a, row)?;
            let second = push_row(index, b, row)?;
            Ok(first & second)
        }
        Expr::Times { body, .. } => push_row(index, body, row),
        Expr::Name(name) => match index.number_of(name) {
            Some(number) => {
                row.push(number)?;
                Ok(true)
            }
            None => Ok(false),
        },
    }
}

// Reads a substitute. Returns `None` if it is unreadable.
fn read_tree(alloc: Global, substitute: &[u8]) -> Result<Option<Expr>, AllocError>
    ensures { IfOk result (λ t. plain.IsTreeOf substitute.now (tree_view t)) }
{
    match read_substitute(alloc, substitute) {
        Ok(expr) => Ok(Some(expr)),
        Err(EreFault::NoReading) => Ok(None),
        Err(EreFault::Memory) => Err(AllocError),
    }
}

// Returns the numbers of the definitions that a tree uses, and true if it uses an undefined name.
fn row_in(
    alloc: Global,
    index: &DefinitionIndex,
    tree: &Option<Expr>,
) -> Result<(Vec<usize>, bool), AllocError>
    ensures row { IfOk result (λ r.
        r.0.items ≡ plain.row_in (map raw_definition_view index.now.definitions.now)
        (tree_view tree.now)) }
    ensures incomplete { IfOk result (λ r.
        r.1 ≡ plain.is_incomplete (map raw_definition_view index.now.definitions.now)
        (tree_view tree.now)) }
{
    let mut row = Vec::new(alloc);
    match tree {
        Some(expr) => {
            let complete = push_row(index, expr, &mut row)?;
            Ok((row, !complete))
        }
        None => Ok((row, false)),
    }
}

// Adds that definition i mentions those of a row.
fn push_mentions(i: usize, row: &[usize], mentions: &mut Vec<Mention>) -> Result<(), AllocError>
    ensures { OnOk result
        (mentions.new.items ≡ mentions.old.items ++ map (plain.mention_of i) row.now) }
{
    for j in row {
        mentions.push(Mention { from: i, to: *j })?;
    }
    Ok(())
}

// Adds the tree and the mentions of definition i.
fn with_definition(
    alloc: Global,
    index: &DefinitionIndex,
    dictionary: Dictionary,
    i: usize,
) -> Result<Dictionary, AllocError>
    requires { i < length index.now.definitions.now }
    ensures { IfOk result (λ d.
        AddsTree (map raw_definition_view index.now.definitions.now) i
        (dictionary_view dictionary) (dictionary_view d)) }
{
    let Dictionary {
        mut trees,
        mut mentions,
        mut incomplete,
    } = dictionary;
    let tree = read_tree(alloc, index.definitions[i].substitute)?;
    let (row, lacks) = row_in(alloc, index, &tree)?;
    push_mentions(i, &row, &mut mentions)?;
    incomplete.push(lacks)?;
    trees.push(tree)?;
    Ok(Dictionary {
        trees,
        mentions,
        incomplete,
    })
}

/// Reads each definition once.
pub fn read_dictionary(alloc: Global, index: &DefinitionIndex) -> Result<Dictionary, AllocError>
    ensures { IfOk result (λ d.
        IsDictionary (map raw_definition_view index.now.definitions.now) (dictionary_view d)) }
{
    let mut dictionary = Dictionary {
        trees: Vec::new(alloc),
        mentions: Vec::new(alloc),
        incomplete: Vec::new(alloc),
    };
    for i in 0..index.definitions.len() {
        dictionary = with_definition(alloc, index, dictionary, i)?;
    }
    Ok(dictionary)
}
