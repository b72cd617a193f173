//! Makes the text of the graph.

ghost use Rattle.std.specs.Prelude.{◌≡◌, ◌++◌, IfOk, OnOk, length};
ghost use Rattle.std.specs.List.{flat_map, range_with_len};
ghost use Rattle.lx_automaton.specs.Automata.{state_count};
ghost use Rattle.lx_rules.specs.views.Rules.{names_view};
ghost use Rattle.lx_graph.specs.Graph as specs;

use crate::nodes::{push_start, push_state};
use lx_tables::Tables;
use std::alloc::{AllocError, Global};

fn push_starts(text: &mut Vec<u8>, tables: &Tables, names: &[Vec<u8>]) -> Result<(), AllocError>
    ensures { OnOk result (text.new.items ≡ text.old.items
        ++ flat_map (specs.condition_text (names_view names.now) tables.now.machine)
        (range_with_len 0 (length tables.now.machine.starts))) }
{
    for condition in 0..tables.conditions() {
        push_start(text, tables, names, condition)?;
    }
    Ok(())
}

fn push_states(text: &mut Vec<u8>, tables: &Tables, names: &[Vec<u8>]) -> Result<(), AllocError>
    ensures { OnOk result (text.new.items
        ≡ text.old.items ++ flat_map (specs.state_text tables.now (names_view names.now))
        (range_with_len 0 (state_count tables.now.machine))) }
{
    for state in 0..tables.states() {
        push_state(text, tables, names, state)?;
    }
    Ok(())
}

/// Returns the automaton of tables as a graph in DOT, the language of Graphviz.
///
/// Each state is a node with its number. A state that accepts a rule has a second circle, and shows the rule's action. An edge from a state to its
/// target has the ranges of bytes of this step: `[a-z]`, and `\xHH` for unprintable bytes. Each start condition has an edge to the state in which it
/// begins. It has another one with `^` if that state differs at the start of a line.
///
/// `names` are the names of the conditions, identifiers, in order. A condition without a name has its number. Err: an allocation failed.
pub fn graph_of(alloc: Global, tables: &Tables, names: &[Vec<u8>]) -> Result<Vec<u8>, AllocError>
    ensures { IfOk result
        (λ text. text.items ≡ specs.graph_text tables.now (names_view names.now)) }
{
    let mut text = Vec::new(alloc);
    text.extend_from_slice(b"digraph lx {\n    rankdir=LR;\n    node [shape=circle];\n")?;
    push_starts(&mut text, tables, names)?;
    push_states(&mut text, tables, names)?;
    text.extend_from_slice(b"}\n")?;
    Ok(text)
}
