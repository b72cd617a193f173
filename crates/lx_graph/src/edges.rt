//! Appends the edges from a state to others.

ghost use Rattle.std.specs.Prelude.{◌≡◌, ◌<◌, ◌≤◌, ◌++◌, OnOk, option_map, decimal};
ghost use Rattle.std.specs.List.{flat_map};
ghost use Rattle.lx_automaton.specs.Automata.{class_target, state_count};
ghost use Rattle.lx_graph.specs.Graph as specs;
ghost use Rattle.lx_graph.specs.Labels.{is_target};

use crate::labels::{push_numbered, push_ranges};
use lx_tables::{State, Tables};
use std::alloc::AllocError;

fn is_target(tables: &Tables, state: u32, target: u32, class: u16) -> bool
    requires state { state < state_count tables.now.machine }
    requires class { class < tables.now.machine.width }
    requires byte { class < 256 }
    ensures { result ≡ is_target target (class_target tables.now.machine state class) }
{
    match tables.class_step(State(state), class as u8) {
        None => false,
        Some(next) => next.0 == target,
    }
}

// Returns true if the state steps to the target on a class before this one.
fn is_led_before(tables: &Tables, state: u32, target: u32, class: u16) -> bool
    requires state { state < state_count tables.now.machine }
    requires class { class ≤ tables.now.machine.width }
    requires byte { class ≤ 256 }
    ensures { result ≡ specs.is_led_before tables.now.machine state target class }
{
    for before in 0..class {
        if is_target(tables, state, target, before) {
            return true;
        }
    }
    false
}

fn push_edge_line(
    text: &mut Vec<u8>,
    tables: &Tables,
    state: u32,
    target: u32,
) -> Result<(), AllocError>
    requires { state < state_count tables.now.machine }
    ensures { OnOk result
        (text.new.items ≡ text.old.items ++ specs.edge_line tables.now.machine state target) }
{
    push_numbered(text, b"    ", state)?;
    push_numbered(text, b" -> ", target)?;
    text.extend_from_slice(b" [label=\"")?;
    push_ranges(text, tables, state, target)?;
    text.extend_from_slice(b"\"];\n")
}

fn push_edge(text: &mut Vec<u8>, tables: &Tables, state: u32, class: u16) -> Result<(), AllocError>
    requires state { state < state_count tables.now.machine }
    requires class { class < tables.now.machine.width }
    requires byte { class < 256 }
    ensures { OnOk result
        (text.new.items ≡ text.old.items ++ specs.edge_text tables.now.machine state class) }
{
    match tables.class_step(State(state), class as u8) {
        None => Ok(()),
        Some(target) => {
            if is_led_before(tables, state, target.0, class) {
                Ok(())
            } else {
                push_edge_line(text, tables, state, target.0)
            }
        }
    }
}

/// Appends the edges from a state.
pub(crate) fn push_edges(text: &mut Vec<u8>, tables: &Tables, state: u32) -> Result<(), AllocError>
    requires { state < state_count tables.now.machine }
    ensures { OnOk result
        (text.new.items ≡ text.old.items ++ specs.edges_text tables.now.machine state) }
{
    for class in 0..tables.classes() {
        push_edge(text, tables, state, class)?;
    }
    Ok(())
}
