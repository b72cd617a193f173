//! Calls of readers, printers, makers and the scanner's step. They allocate nothing.

ghost use Rattle.std.specs.Prelude.{◌≡◌, ◌<◌, IfOk, length, vec_len};
ghost use Rattle.lx_piece.specs.Plans.{files_of, kinds_of};

use crate::automata::{automaton_of, print_automaton, print_tables};
use crate::collecting::print_piece;
use crate::rows::three_rules;
use crate::stop::{Stop, end_of_print, refuse_from_here, say};
use lx_fixtures::{NO_RULES, THREE_RULES, TWO_WORDS, among_strangers, plan_of, tables_of};
use lx_piece::{Arrivals, Cutter, Input, ListArrivals, Plan};
use lx_scan::{Item, Place, next_match};
use lx_spec::{Kind, Step};
use lx_tables::Tables;
use std::alloc::{AllocError, Global};
use std::io;

/// Calls the readers of an automaton.
pub(crate) fn reads_automaton(rt: &impl Print, alloc: Global) -> Result<(), Stop> {
    let spec = three_rules(alloc)?;
    let automaton = automaton_of(alloc, &spec)?;
    refuse_from_here(alloc);
    print_automaton(rt, &automaton)
}

fn print_rule(rt: &impl Print, cut: bool, steps: &[Step]) -> Result<(), Stop> {
    end_of_print(println!(rt; "{cut} {steps:?}"))
}

fn print_rules(rt: &impl Print, tables: &Tables) -> Result<(), Stop> {
    let rules = tables.rules();
    end_of_print(println!(rt; "{rules} rules"))?;
    for rule in 0..rules {
        print_rule(rt, tables.cut(rule), tables.steps(rule))?;
    }
    Ok(())
}

fn print_kind(rt: &impl Print, kind: &[u8]) -> Result<(), Stop> {
    end_of_print(println!(rt; "{kind:?}"))
}

fn print_kinds(rt: &impl Print, tables: &Tables) -> Result<(), Stop> {
    let kinds = tables.kinds();
    end_of_print(println!(rt; "{kinds} kinds"))?;
    for number in 0..kinds {
        print_kind(rt, tables.kind(number))?;
    }
    Ok(())
}

fn print_class(rt: &impl Print, byte: u8, class: u8) -> Result<(), Stop> {
    end_of_print(println!(rt; "{byte} is of class {class}"))
}

fn print_state(rt: &impl Print, number: u32, rule: Option<u16>) -> Result<(), Stop> {
    end_of_print(println!(rt; "leads to {number}, which accepts {rule:?}"))
}

/// Prints the class of a byte, and its target from the start.
fn print_step(rt: &impl Print, tables: &Tables, byte: u8) -> Result<(), Stop>
    requires { 0 < length tables.now.machine.starts }
{
    print_class(rt, byte, tables.class(byte))?;
    match tables.step(tables.start(0, true), byte) {
        Some(state) => print_state(rt, state.0, tables.accepts(state)),
        None => Ok(()),
    }
}

fn print_steps(rt: &impl Print, tables: &Tables) -> Result<(), Stop> {
    let (conditions, states) = (tables.conditions(), tables.states());
    let classes = tables.classes();
    end_of_print(println!(rt; "{conditions} conditions, {states} states, {classes} classes"))?;
    if conditions == 0 {
        return Ok(());
    }
    for byte in b"a1 \n#" {
        print_step(rt, tables, *byte)?;
    }
    Ok(())
}

fn print_all(rt: &impl Print, tables: &Tables) -> Result<(), Stop> {
    print_steps(rt, tables)?;
    print_rules(rt, tables)?;
    print_kinds(rt, tables)
}

/// Calls the readers of tables.
pub(crate) fn reads_tables(rt: &impl Print, alloc: Global) -> Result<(), Stop> {
    let tables = tables_of(alloc, THREE_RULES)?;
    refuse_from_here(alloc);
    print_all(rt, &tables)
}

/// Calls `print`.
pub(crate) fn prints(rt: &impl Print, alloc: Global) -> Result<(), Stop> {
    let tables = tables_of(alloc, THREE_RULES)?;
    refuse_from_here(alloc);
    print_tables(rt, &tables)
}

/// Calls `print_first`.
pub(crate) fn prints_first(rt: &impl Print, alloc: Global) -> Result<(), Stop> {
    let tables = tables_of(alloc, THREE_RULES)?;
    refuse_from_here(alloc);
    end_of_print(tables.print_first(&mut io::writer(rt)))
}

/// Prints the first match of a text in each condition.
fn print_match(rt: &impl Print, tables: &Tables, text: &[u8]) -> Result<(), Stop> {
    for condition in 0..tables.conditions() {
        let place = Place {
            condition,
            ..Place::begin()
        };
        let found = next_match(tables, text, place);
        end_of_print(println!(rt; "{found:?}"))?;
    }
    Ok(())
}

/// Calls `next_match` from `Place::begin` on, for the first match only.
pub(crate) fn matches(rt: &impl Print, alloc: Global) -> Result<(), Stop> {
    let tables = tables_of(alloc, THREE_RULES)?;
    refuse_from_here(alloc);
    match print_match(rt, &tables, TWO_WORDS) {
        Ok(()) => print_match(rt, &tables, b""),
        stopped => stopped,
    }
}

/// Returns a file of two words.
fn files_of_two_words(alloc: Global) -> Result<Vec<Input>, AllocError>
    ensures { IfOk result (λ files. vec_len files ≡ 1) }
{
    let bytes = Vec::from_slice(alloc, TWO_WORDS)?;
    match vec![in alloc; Input { bytes, cut: false }] {
        Ok(files) => Ok(files),
        Err(_) => Err(AllocError),
    }
}

/// Prints the properties of a plan with one file and some kinds.
fn print_plan(rt: &impl Print, plan: &Plan) -> Result<(), Stop>
    requires file { 0 < files_of plan.now }
    requires kind { 0 < length (kinds_of plan.now) }
{
    let count = plan.files();
    let (bytes, kind) = (plan.bytes(0), plan.kind(0));
    end_of_print(println!(rt; "{count} file, {bytes:?}, {kind:?}"))
}

/// Calls `Plan::new`, its readers, and `Cutter::new`.
pub(crate) fn plans(rt: &impl Print, alloc: Global) -> Result<(), Stop> {
    let tables = tables_of(alloc, THREE_RULES)?;
    if tables.kinds() == 0 {
        return Err(Stop::NotBegun);
    }
    let Ok(files) = files_of_two_words(alloc) else {
        return Err(Stop::NotBegun);
    };
    refuse_from_here(alloc);
    let plan = Plan::new(tables, files, 1, 1);
    let ended = print_plan(rt, &plan);
    let _cutter = Cutter::new(alloc, &plan, 0);
    ended
}

/// Prints the next arrival.
fn print_arrival(rt: &impl Print, arrivals: &mut ListArrivals<'_>) -> Result<(), Stop> {
    match arrivals.next() {
        Some(piece) => print_piece(rt, &piece),
        None => say(rt, "no arrival"),
    }
}

/// Calls `ListArrivals::new` and `next` with the pieces of two files and two foreign pieces.
pub(crate) fn arrives(rt: &impl Print, alloc: Global) -> Result<(), Stop> {
    let plan = plan_of(alloc, NO_RULES, &[(b"", false), (b"", false)], 256)?;
    if plan.files() != 2 {
        return Err(Stop::NotBegun);
    }
    let Ok(pieces) = among_strangers(alloc, &plan) else {
        return Err(Stop::NotBegun);
    };
    refuse_from_here(alloc);
    let mut arrivals = ListArrivals::new(&plan, pieces);
    for _arrival in 0..5 {
        print_arrival(rt, &mut arrivals)?;
    }
    Ok(())
}

/// Calls `text` on a token.
pub(crate) fn lends(rt: &impl Print, alloc: Global) -> Result<(), Stop> {
    let token = Item::Token {
        kind: Kind::Name(1),
        line: 1,
        start: 3,
        len: 2,
    };
    refuse_from_here(alloc);
    let text = token.text(TWO_WORDS);
    end_of_print(println!(rt; "{text:?}"))
}
