//! Appends the nodes of states and of start conditions.

ghost use Rattle.std.specs.Prelude.{◌≡◌, ◌<◌, ◌++◌, OnOk, decimal, length};
ghost use Rattle.lx_automaton.specs.Automata.{state_count};
ghost use Rattle.lx_rules.specs.views.Rules.{names_view};
ghost use Rattle.lx_tables.specs.Model.{rule_at};
ghost use Rattle.lx_graph.specs.Graph as specs;

use crate::edges::push_edges;
use crate::labels::{push_action, push_condition, push_numbered};
use lx_tables::{State, Tables};
use std::alloc::AllocError;

fn push_accepting_name(text: &mut Vec<u8>, state: u32) -> Result<(), AllocError>
    ensures { OnOk result (text.new.items ≡ text.old.items ++ specs.accepting_name state) }
{
    push_numbered(text, b"    ", state)?;
    push_numbered(text, b" [shape=doublecircle, label=\"", state)
}

fn push_accepting(
    text: &mut Vec<u8>,
    tables: &Tables,
    names: &[Vec<u8>],
    state: u32,
    rule: u16,
) -> Result<(), AllocError>
    requires { rule < length tables.now.rules }
    ensures { OnOk result (text.new.items
        ≡ text.old.items ++ specs.accepting_line tables.now (names_view names.now) state
        (rule_at tables.now rule)) }
{
    push_accepting_name(text, state)?;
    push_action(text, tables, names, rule)?;
    text.extend_from_slice(b"\"];\n")
}

fn push_node(
    text: &mut Vec<u8>,
    tables: &Tables,
    names: &[Vec<u8>],
    state: u32,
) -> Result<(), AllocError>
    requires { state < state_count tables.now.machine }
    ensures { OnOk result (text.new.items
        ≡ text.old.items ++ specs.node_line tables.now (names_view names.now) state) }
{
    match tables.accepts(State(state)) {
        None => {
            push_numbered(text, b"    ", state)?;
            text.extend_from_slice(b";\n")
        }
        Some(rule) => push_accepting(text, tables, names, state, rule),
    }
}

/// Appends a state with its edges.
pub(crate) fn push_state(
    text: &mut Vec<u8>,
    tables: &Tables,
    names: &[Vec<u8>],
    state: u32,
) -> Result<(), AllocError>
    requires { state < state_count tables.now.machine }
    ensures { OnOk result (text.new.items
        ≡ text.old.items ++ specs.state_text tables.now (names_view names.now) state) }
{
    push_node(text, tables, names, state)?;
    push_edges(text, tables, state)
}

fn push_begin(text: &mut Vec<u8>, condition: u16) -> Result<(), AllocError>
    ensures { OnOk result (text.new.items ≡ text.old.items ++ specs.begin_text condition) }
{
    push_numbered(text, b"    begin", u32::from(condition))
}

fn push_begin_edge(text: &mut Vec<u8>, condition: u16, state: u32) -> Result<(), AllocError>
    ensures { OnOk result (text.new.items ≡ text.old.items ++ specs.begin_edge condition state) }
{
    push_begin(text, condition)?;
    push_numbered(text, b" -> ", state)
}

fn push_condition_line(
    text: &mut Vec<u8>,
    names: &[Vec<u8>],
    condition: u16,
) -> Result<(), AllocError>
    ensures { OnOk result
        (text.new.items ≡ text.old.items ++ specs.condition_line (names_view names.now) condition) }
{
    push_begin(text, condition)?;
    text.extend_from_slice(b" [shape=plaintext, label=\"")?;
    push_condition(text, names, condition)?;
    text.extend_from_slice(b"\"];\n")
}

fn push_line_edge(
    text: &mut Vec<u8>,
    condition: u16,
    elsewhere: u32,
    state: u32,
) -> Result<(), AllocError>
    ensures { OnOk result
        (text.new.items ≡ text.old.items ++ specs.line_edge condition elsewhere state) }
{
    if state == elsewhere {
        return Ok(());
    }
    push_begin_edge(text, condition, state)?;
    text.extend_from_slice(b" [label=\"^\"];\n")
}

/// Appends a condition with the edges to the states in which it begins.
pub(crate) fn push_start(
    text: &mut Vec<u8>,
    tables: &Tables,
    names: &[Vec<u8>],
    condition: u16,
) -> Result<(), AllocError>
    requires { condition < length tables.now.machine.starts }
    ensures { OnOk result (text.new.items ≡ text.old.items
        ++ specs.condition_text (names_view names.now) tables.now.machine condition) }
{
    let elsewhere = tables.start(condition, false).0;
    let at_line_begin = tables.start(condition, true).0;
    push_condition_line(text, names, condition)?;
    push_begin_edge(text, condition, elsewhere)?;
    text.extend_from_slice(b";\n")?;
    push_line_edge(text, condition, elsewhere, at_line_begin)
}
