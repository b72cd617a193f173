//! Specifications, automata, tables and items.

ghost use Rattle.std.specs.Prelude.{◌<◌, length};

use crate::rows::three_rules;
use crate::stop::{Stop, end_of_print, say, say_fault, unless_refused};
use lx_auto::{
    Automaton, BuildFault, ListAutomaton, ListFault, RuleLists, build, build_lists, merge,
};
use lx_fixtures::{THREE_RULES, THREE_RULES_TEXTS, TWO_WORDS, tables_of};
use lx_scan::{Item, scan};
use lx_spec::{Code, Rule, Spec, SpecFault, read_spec};
use lx_tables::{TableFault, Tables};
use std::alloc::{AllocError, Global};
use std::io;

fn print_rule(rt: &impl Print, rule: &Rule) -> Result<(), Stop> {
    let (line, action) = (rule.line, rule.action.as_slice());
    end_of_print(println!(rt; "line {line} {action:?}"))
}

fn print_counts(rt: &impl Print, spec: &Spec) -> Result<(), Stop> {
    let (conditions, definitions) = (spec.conditions.len(), spec.definitions.len());
    let kinds = spec.kinds.len();
    end_of_print(println!(rt; "{conditions} conditions, {definitions} definitions, {kinds} kinds"))
}

fn print_spec(rt: &impl Print, spec: &Spec) -> Result<(), Stop> {
    print_counts(rt, spec)?;
    for rule in &spec.rules {
        print_rule(rt, rule)?;
    }
    Ok(())
}

fn read_three_rules(rt: &impl Print, alloc: Global) -> Result<(), Stop> {
    match read_spec(alloc, THREE_RULES.as_bytes()) {
        Ok(spec) => print_spec(rt, &spec),
        Err(
            SpecFault {
                code: Code::Memory,
                line: 0,
            },
        ) => Err(Stop::Refused),
        Err(fault) => say_fault(rt, &fault),
    }
}

/// Calls `read_spec` with the three rules.
pub(crate) fn reads_spec(rt: &impl Print, alloc: Global) -> Result<(), Stop> {
    match unless_refused(rt, read_three_rules(rt, alloc)) {
        Some(ended) => ended,
        None => read_three_rules(rt, alloc),
    }
}

fn print_accepted(rt: &impl Print, byte: u8, rule: Option<u16>) -> Result<(), Stop> {
    end_of_print(println!(rt; "behind {byte}: rule {rule:?}"))
}

fn print_no_step(rt: &impl Print, byte: u8) -> Result<(), Stop> {
    end_of_print(println!(rt; "no step on {byte}"))
}

/// Prints what is accepted after one byte.
fn print_step(rt: &impl Print, automaton: &Automaton, byte: u8) -> Result<(), Stop>
    requires { 0 < length automaton.now.starts }
{
    let start = automaton.start(0, true);
    match automaton.step(start, byte) {
        Some(state) => print_accepted(rt, byte, automaton.accepts(state)),
        None => print_no_step(rt, byte),
    }
}

/// Prints the number of states, and what is accepted after one byte.
pub(crate) fn print_automaton(rt: &impl Print, automaton: &Automaton) -> Result<(), Stop> {
    let (conditions, states) = (automaton.conditions(), automaton.states());
    end_of_print(println!(rt; "{conditions} conditions, {states} states"))?;
    if conditions == 0 {
        return Ok(());
    }
    for byte in b"a1 \n#" {
        print_step(rt, automaton, *byte)?;
    }
    Ok(())
}

fn build_once(rt: &impl Print, alloc: Global, spec: &Spec) -> Result<(), Stop> {
    match build(alloc, spec) {
        Ok(automaton) => print_automaton(rt, &automaton),
        Err(BuildFault::Memory) => Err(Stop::Refused),
        Err(fault) => say_fault(rt, &fault),
    }
}

/// Calls `build` with the three rules.
pub(crate) fn builds(rt: &impl Print, alloc: Global) -> Result<(), Stop> {
    let spec = three_rules(alloc)?;
    match unless_refused(rt, build_once(rt, alloc, &spec)) {
        Some(ended) => ended,
        None => build_once(rt, alloc, &spec),
    }
}

fn print_list(rt: &impl Print, lists: &RuleLists, number: usize) -> Result<(), Stop>
    requires { number < length lists.now }
{
    let list = lists.list(number);
    end_of_print(println!(rt; "list {number}: {list:?}"))
}

/// Prints the number of states and lists, and each list.
fn print_lists(rt: &impl Print, built: &ListAutomaton) -> Result<(), Stop> {
    let (states, count) = (built.automaton.states(), built.lists.count());
    end_of_print(println!(rt; "{states} states, {count} lists"))?;
    for number in 0..count {
        print_list(rt, &built.lists, number)?;
    }
    Ok(())
}

fn build_lists_once(rt: &impl Print, alloc: Global, spec: &Spec) -> Result<(), Stop> {
    match build_lists(alloc, spec) {
        Ok(built) => print_lists(rt, &built),
        Err(ListFault::Build(BuildFault::Memory)) => Err(Stop::Refused),
        Err(fault) => say_fault(rt, &fault),
    }
}

/// Calls `build_lists` with the three rules.
pub(crate) fn builds_lists(rt: &impl Print, alloc: Global) -> Result<(), Stop> {
    let spec = three_rules(alloc)?;
    match unless_refused(rt, build_lists_once(rt, alloc, &spec)) {
        Some(ended) => ended,
        None => build_lists_once(rt, alloc, &spec),
    }
}

/// Builds the automaton of a specification.
pub(crate) fn automaton_of(alloc: Global, spec: &Spec) -> Result<Automaton, Stop> {
    match build(alloc, spec) {
        Ok(automaton) => Ok(automaton),
        Err(_) => Err(Stop::NotBegun),
    }
}

fn merge_once(rt: &impl Print, alloc: Global, automaton: &Automaton) -> Result<(), Stop> {
    match merge(alloc, automaton) {
        Ok(merged) => print_automaton(rt, &merged),
        Err(AllocError) => Err(Stop::Refused),
    }
}

/// Calls `merge` with their automaton.
pub(crate) fn merges(rt: &impl Print, alloc: Global) -> Result<(), Stop> {
    let spec = three_rules(alloc)?;
    let automaton = automaton_of(alloc, &spec)?;
    match unless_refused(rt, merge_once(rt, alloc, &automaton)) {
        Some(ended) => ended,
        None => merge_once(rt, alloc, &automaton),
    }
}

/// Prints tables in their second text.
pub(crate) fn print_tables(rt: &impl Print, tables: &Tables) -> Result<(), Stop> {
    end_of_print(tables.print(&mut io::writer(rt)))
}

fn print_made(rt: &impl Print, made: Result<Tables, AllocError>) -> Result<(), Stop> {
    match made {
        Ok(tables) => print_tables(rt, &tables),
        Err(AllocError) => Err(Stop::Refused),
    }
}

// Only here it is known that the automaton is the specification's, so both calls are made here.
/// Calls `Tables::of` with their merged automaton.
pub(crate) fn makes_tables(rt: &impl Print, alloc: Global) -> Result<(), Stop> {
    let spec = three_rules(alloc)?;
    let Ok(built) = build(alloc, &spec) else {
        return Err(Stop::NotBegun);
    };
    let Ok(automaton) = merge(alloc, &built) else {
        return Err(Stop::NotBegun);
    };
    match Tables::of(alloc, &spec, &automaton) {
        Err(AllocError) => match say(rt, "refused") {
            Ok(()) => print_made(rt, Tables::of(alloc, &spec, &automaton)),
            stopped => stopped,
        },
        made => print_made(rt, made),
    }
}

fn read_tables_once(rt: &impl Print, alloc: Global) -> Result<(), Stop> {
    match Tables::read(alloc, THREE_RULES_TEXTS.0.as_bytes()) {
        Ok(tables) => print_tables(rt, &tables),
        Err(TableFault::Memory) => Err(Stop::Refused),
        Err(fault) => say_fault(rt, &fault),
    }
}

/// Calls `Tables::read` with version 1 of their text.
pub(crate) fn reads_tables(rt: &impl Print, alloc: Global) -> Result<(), Stop> {
    match unless_refused(rt, read_tables_once(rt, alloc)) {
        Some(ended) => ended,
        None => read_tables_once(rt, alloc),
    }
}

fn print_item(rt: &impl Print, item: &Item) -> Result<(), Stop> {
    end_of_print(println!(rt; "{item:?}"))
}

fn print_items(rt: &impl Print, items: &[Item]) -> Result<(), Stop> {
    for item in items {
        print_item(rt, item)?;
    }
    Ok(())
}

fn scan_once(rt: &impl Print, alloc: Global, tables: &Tables) -> Result<(), Stop> {
    match scan(alloc, tables, TWO_WORDS) {
        Ok(items) => print_items(rt, &items),
        Err(AllocError) => Err(Stop::Refused),
    }
}

/// Calls `scan` with two words and the three rules.
pub(crate) fn scans(rt: &impl Print, alloc: Global) -> Result<(), Stop> {
    let tables = tables_of(alloc, THREE_RULES)?;
    match unless_refused(rt, scan_once(rt, alloc, &tables)) {
        Some(ended) => ended,
        None => scan_once(rt, alloc, &tables),
    }
}
