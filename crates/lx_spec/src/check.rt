//! Checks a rule for its faults, in the order in which they are reported.

ghost use Rattle.std.specs.Prelude.{◌≡◌, ◌<◌, ◌∷◌, [], length, IfOk, map};
ghost use Rattle.std.specs.List.{list_all};
ghost use Rattle.lx_ere.specs.Regex.{reading_of};
ghost use Rattle.lx_ere.specs.Pattern.{IsPattern};
ghost use Rattle.lx_spec.specs.Actions.{IsAction};
ghost use Rattle.lx_spec.specs.views.Actions.{action_view, statement_view};
ghost use Rattle.lx_spec.specs.views.Sections.{raw_rule_view, start_condition_view};
ghost use Rattle.lx_spec.specs.views.Fields.{texts_of};
ghost use Rattle.lx_spec.specs.Verdict as plain;
ghost use Rattle.lx_spec.specs.Verdict.{Checked, case_of, fields_in, begin_is_declared};
ghost use Rattle.lx_spec.specs.views.SymbolTables.{symbols_view, IsSymbolTable};

use crate::action::{Action, Statement, read_action};
use crate::definition_faults::any_marked;
use crate::dictionary::push_row;
use crate::fault::{Code, SpecFault};
use crate::parsed_sections::{RawRule, StartCondition};
use crate::prefix::{are_condition_names, are_declared, condition_number, read_fields};
use crate::rule_line::RulePrefix;
use crate::symbol_table::SymbolTable;
use lx_ere::expr::Pattern;
use lx_ere::fault::EreFault;
use lx_ere::read::{one_reading, read_pattern};
use std::alloc::Global;

/// Reads the list of conditions in the prefix of a rule.
pub(crate) fn read_prefix<'a>(
    alloc: Global,
    symbols: &SymbolTable,
    rule: &RawRule<'a>,
    is_last: bool,
) -> Result<Vec<&'a [u8]>, SpecFault>
    ensures checked { Checked (symbols_view symbols.now)
        (case_of (raw_rule_view rule.now) is_last plain.prefix_form ∷ []) result }
    ensures names { IfOk result
        (λ names. texts_of names.items ≡ fields_in (raw_rule_view rule.now).prefix) }
{
    match rule.prefix {
        RulePrefix::Absent => Ok(Vec::new(alloc)),
        RulePrefix::Unclosed => Err(SpecFault {
            code: Code::NoReading,
            line: rule.line,
        }),
        RulePrefix::Listed(text) => {
            let names = read_fields(alloc, text)?;
            if are_condition_names(&names) {
                Ok(names)
            } else {
                Err(SpecFault {
                    code: Code::NoReading,
                    line: rule.line,
                })
            }
        }
    }
}

// Checks that the conditions of the prefix are declared.
pub(crate) fn check_names(
    symbols: &SymbolTable,
    rule: &RawRule,
    names: &[&[u8]],
    is_last: bool,
) -> Result<(), SpecFault>
    requires symbols { IsSymbolTable symbols.now }
    requires names { texts_of names.now ≡ fields_in (raw_rule_view rule.now).prefix }
    ensures { Checked (symbols_view symbols.now)
        (case_of (raw_rule_view rule.now) is_last plain.prefix_name ∷ []) result }
{
    if are_declared(symbols.start_conditions, names) {
        Ok(())
    } else {
        Err(SpecFault {
            code: Code::NoCondition,
            line: rule.line,
        })
    }
}

// Checks that the names of the pattern lead to no unreadable substitute, to no undefined name, and along at most 32 names.
fn check_pattern(
    alloc: Global,
    symbols: &SymbolTable,
    rule: &RawRule,
    pattern: &Pattern,
    is_last: bool,
) -> Result<(), SpecFault>
    requires symbols { IsSymbolTable symbols.now }
    requires reading { IsPattern rule.now.pattern.now (reading_of pattern.now) }
    ensures { Checked (symbols_view symbols.now) (case_of (raw_rule_view rule.now) is_last
        plain.reading ∷ case_of (raw_rule_view rule.now) is_last plain.undefined
        ∷ case_of (raw_rule_view rule.now) is_last plain.depth ∷ []) result }
{
    one_reading();
    let mut row = Vec::new(alloc);
    let complete = push_row(symbols.index, &pattern.expr, &mut row)?;
    let unreadable = any_marked(&row, &symbols.faults.unreadable);
    let undefined = any_marked(&row, &symbols.faults.undefined);
    let too_deep = any_marked(&row, &symbols.faults.too_deep);
    if unreadable {
        return Err(SpecFault {
            code: Code::NoReading,
            line: rule.line,
        });
    }
    if !complete | undefined {
        return Err(SpecFault {
            code: Code::Undefined,
            line: rule.line,
        });
    }
    if too_deep {
        return Err(SpecFault {
            code: Code::TooDeep,
            line: rule.line,
        });
    }
    Ok(())
}

// Reads the pattern, and checks the names that it reaches.
pub(crate) fn read_expression(
    alloc: Global,
    symbols: &SymbolTable,
    rule: &RawRule,
    is_last: bool,
) -> Result<Pattern, SpecFault>
    requires { IsSymbolTable symbols.now }
    ensures checked { Checked (symbols_view symbols.now) (case_of (raw_rule_view rule.now) is_last
        plain.reading ∷ case_of (raw_rule_view rule.now) is_last plain.undefined
        ∷ case_of (raw_rule_view rule.now) is_last plain.depth ∷ []) result }
    ensures reading { IfOk result (λ p. IsPattern rule.now.pattern.now (reading_of p)) }
{
    match read_pattern(alloc, rule.pattern) {
        Ok(pattern) => {
            check_pattern(alloc, symbols, rule, &pattern, is_last)?;
            Ok(pattern)
        }
        Err(EreFault::NoReading) => Err(SpecFault {
            code: Code::NoReading,
            line: rule.line,
        }),
        Err(EreFault::Memory) => Err(SpecFault {
            code: Code::Memory,
            line: 0,
        }),
    }
}

// Reads the action, and checks that it is well-formed.
pub(crate) fn read_whole_action<'r>(
    alloc: Global,
    symbols: &SymbolTable,
    rule: &'r RawRule,
    is_last: bool,
) -> Result<Action<'r>, SpecFault>
    ensures checked { Checked (symbols_view symbols.now)
        (case_of (raw_rule_view rule.now) is_last plain.action_form ∷ []) result }
    ensures action { IfOk result (λ a. IsAction rule.now.action.items (action_view a)) }
{
    match read_action(alloc, &rule.action)? {
        Some(action) => Ok(action),
        None => Err(SpecFault {
            code: Code::NoAction,
            line: rule.line,
        }),
    }
}

fn begins_declared(start_conditions: &[StartCondition], statement: Statement) -> bool
    requires { 0 < length start_conditions.now }
    ensures { result ≡ begin_is_declared (map start_condition_view start_conditions.now)
        (statement_view statement.entry) }
{
    match statement {
        Statement::Begin(name) => condition_number(start_conditions, name).is_some(),
        _ => true,
    }
}

fn all_begin_declared(start_conditions: &[StartCondition], statements: &[Statement]) -> bool
    requires { 0 < length start_conditions.now }
    ensures { result ≡ list_all (λ s.
        begin_is_declared (map start_condition_view start_conditions.now)
        (statement_view s)) statements.now }
{
    statements
        .iter()
        .all(|s| begins_declared(start_conditions, *s))
}

// Checks that the conditions that the action begins are declared.
pub(crate) fn check_begins(
    symbols: &SymbolTable,
    rule: &RawRule,
    action: &Action,
    is_last: bool,
) -> Result<(), SpecFault>
    requires symbols { IsSymbolTable symbols.now }
    requires action { IsAction rule.now.action.items (action_view action.now) }
    ensures { Checked (symbols_view symbols.now)
        (case_of (raw_rule_view rule.now) is_last plain.begin_name ∷ []) result }
{
    match action {
        Action::Shared => Ok(()),
        Action::Own(statements) => {
            if all_begin_declared(symbols.start_conditions, statements) {
                Ok(())
            } else {
                Err(SpecFault {
                    code: Code::NoCondition,
                    line: rule.line,
                })
            }
        }
    }
}

// Checks that a rule follows one whose action is that of the next.
pub(crate) fn check_next(
    symbols: &SymbolTable,
    rule: &RawRule,
    action: &Action,
    is_last: bool,
) -> Result<(), SpecFault>
    requires { IsAction rule.now.action.items (action_view action.now) }
    ensures { Checked (symbols_view symbols.now)
        (case_of (raw_rule_view rule.now) is_last plain.no_next ∷ []) result }
{
    match action {
        Action::Shared => if is_last {
            Err(SpecFault {
                code: Code::NoNext,
                line: rule.line,
            })
        } else {
            Ok(())
        },
        Action::Own(_) => Ok(()),
    }
}
