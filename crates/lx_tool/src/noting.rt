//! Prints tables, with a further line on the rule that returns a kind which C doesn't allow.

ghost use Rattle.std.specs.Prelude.{◌<◌, IfErr, OnOk};
ghost use Rattle.lx_cli.specs.CommandLine.{plain_c, plain_print};
ghost use Rattle.lx_tool.specs.Printing.{FailsPrinting, PlacesTables, WritesTables};
ghost use Rattle.lx_tool.specs.Statuses.{status_of};

use crate::failure::{CommandFault, PrintFault};
use crate::printing::print_asked;
use crate::target::Targets;
use lx_c::Options;
use lx_cli::PrintWords;
use lx_rules::Spec;
use lx_rules::rule::{Kind, Rule, Step};
use lx_tables::Tables;
use std::alloc::Global;
use std::io::Write;

// Returns true if a rule returns the kind with this name.
fn does_return(spec: &Spec, rule: &Rule, name: &[u8]) -> bool {
    for step in rule.action.as_slice() {
        if let Step::Return(Kind::Name(kind)) = step {
            if let Some(found) = spec.kinds.get(*kind as usize) {
                if found.as_slice() == name {
                    return true;
                }
            }
        }
    }
    false
}

// Returns the first rule that returns the kind with this name.
fn rule_returning<'s>(spec: &'s Spec, name: &[u8]) -> Option<&'s Rule> {
    for rule in &spec.rules {
        if does_return(spec, rule, name) {
            return Some(rule);
        }
    }
    None
}

// Returns the greatest number that a rule returns as a kind, or 0.
fn greatest_number(rule: &Rule) -> u32 {
    let mut greatest = 0;
    for step in rule.action.as_slice() {
        if let Step::Return(Kind::Number(number)) = step {
            greatest = greatest.max(*number);
        }
    }
    greatest
}

// Returns the rule with the greatest number as a kind, the first one of several.
fn rule_of_greatest(spec: &Spec) -> Option<&Rule> {
    let mut found = None;
    let mut greatest = 0;
    for rule in &spec.rules {
        let number = greatest_number(rule);
        if number > greatest {
            greatest = number;
            found = Some(rule);
        }
    }
    found
}

// Adds a line on the rule that returns the kind which C doesn't allow. Leaves the line out if an allocation fails.
fn note_kind(name: &str, spec: &Spec, failure: &CommandFault<'_>, notes: &mut Vec<u8>) {
    let CommandFault::Unprintable(fault) = failure else {
        return;
    };
    let (rule, words) = match fault {
        PrintFault::Reserved(kind) | PrintFault::Declared(kind) => {
            (rule_returning(spec, kind), "this rule returns it")
        }
        PrintFault::Numbers => (
            rule_of_greatest(spec),
            "this rule returns the greatest number",
        ),
        _ => (None, ""),
    };
    if let Some(rule) = rule {
        if writeln!(notes, "lx: {name}:{}: {words}", rule.line).is_err() {
            notes.clear();
        }
    }
}

/// Prints tables as requested, like [`print_asked`]. If a kind isn't allowed in C, `notes` get the line of a rule that returns it.
pub(crate) fn print_noted<'a, T: Targets, O: Write>(
    alloc: Global,
    words: &PrintWords<'a>,
    options: &Options,
    tables: &Tables,
    spec: &Spec,
    targets: &mut T,
    notes: &mut Vec<u8>,
    out: &mut O,
) -> Result<(), CommandFault<'a>>
    ensures ok { OnOk result (WritesTables (plain_c words.now.c) options.now tables.now
        (plain_print words.now).target (O.contents out.old) (O.contents out.new)) }
    ensures placed { OnOk result (PlacesTables T.places (plain_c words.now.c) options.now tables.now
        (plain_print words.now).target targets.old targets.new) }
    ensures err { IfErr result (λ failure.
        status_of failure < 4 → FailsPrinting (plain_c words.now.c) options.now tables.now
        (plain_print words.now).target (O.contents out.old) (O.contents out.new)
        failure) }
{
    let ended = print_asked(alloc, words, options, tables, targets, out);
    if let Err(failure) = &ended {
        note_kind(words.rules, spec, failure, notes);
    }
    ended
}
