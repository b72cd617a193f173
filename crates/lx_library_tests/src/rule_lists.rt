//! Tests lists of all rules that match a text, as REJECT goes through them. The rules overlap, and the lists are worked out by hand.

use crate::texts::holds;
use lx_auto::{ListAutomaton, build_lists};
use lx_spec::read_spec;
use std::process::Abort;

/// Rules that overlap: a word and a class, a rule at line begin, one at line end, and one of another condition.
const OVERLAPPING: &str =
    "%x S\n%%\nab return A;\n[ab]+ return B;\na return C;\n^a return D;\na$ return E;\n<S>a return F;\n";

/// A start, a text, and the rules that match the whole text. A start is a condition, and true at line begin.
type Row = ((u16, bool), &'static str, &'static [u16]);

const ROWS: &[Row] = &[
    ((0, false), "", &[]),
    ((0, false), "a", &[1, 2]),
    ((0, false), "b", &[1]),
    ((0, false), "ab", &[0, 1]),
    ((0, false), "aba", &[1]),
    ((0, false), "a\n", &[4]),
    ((0, false), "b\n", &[]),
    ((0, false), "c", &[]),
    ((0, true), "", &[]),
    ((0, true), "a", &[1, 2, 3]),
    ((0, true), "ab", &[0, 1]),
    ((0, true), "a\n", &[4]),
    ((1, false), "a", &[5]),
    ((1, true), "a", &[5]),
    ((1, true), "ab", &[]),
];

/// The lists of these rules: those of `a` at line begin and elsewhere, of `b`, of `ab`, of `a` before a newline, and of `a` in the other condition.
const DIFFERENT_LISTS: usize = 6;

/// Returns the number of the list after a text, or None if no rule matches the whole text.
fn number_after(built: &ListAutomaton, (condition, begin): (u16, bool), text: &str) -> Option<u16> {
    let automaton = &built.automaton;
    if condition >= automaton.conditions() {
        return None;
    }
    let mut state = automaton.start(condition, begin);
    for byte in text.as_bytes() {
        if state.0 >= automaton.states() {
            return None;
        }
        state = automaton.step(state, *byte)?;
    }
    if state.0 >= automaton.states() {
        return None;
    }
    automaton.accepts(state)
}

/// Returns true if the rules after a text are these.
fn has_rules(built: &ListAutomaton, start: (u16, bool), text: &str, rules: &[u16]) -> bool {
    match number_after(built, start, text) {
        None => rules.is_empty(),
        Some(number) if (number as usize) < built.lists.count() => {
            !rules.is_empty() && built.lists.list(number as usize) == rules
        }
        Some(_) => false,
    }
}

/// Asserts the rules of each row.
fn have_rows(rt: &impl Abort, built: &ListAutomaton) {
    for (start, text, rules) in ROWS {
        holds(rt, has_rules(built, *start, text, rules), text);
    }
}

#[test]
fn lists_have_all_rules_that_match(rt: HostRuntime) {
    let spec = read_spec(rt.alloc(), OVERLAPPING.as_bytes()).expect(&rt, OVERLAPPING);
    let built = build_lists(rt.alloc(), &spec).expect(&rt, "built");
    have_rows(&rt, &built);
    holds(
        &rt,
        built.lists.count() == DIFFERENT_LISTS,
        "number of lists",
    );
}
