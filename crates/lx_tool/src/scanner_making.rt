//! Makes the tables of a file for lex or flex.

ghost use Rattle.std.specs.Prelude.{IfOk, map};
ghost use Rattle.lx_lex.specs.Translation.{IsScannerSpec};
ghost use Rattle.lx_lex.specs.views.{file_rule};
ghost use Rattle.lx_rules.specs.views.Conditions.{condition_view};
ghost use Rattle.lx_rules.specs.views.Specs.{spec_view};
ghost use Rattle.lx_tables.specs.Model.{AreTablesOf};
ghost use Rattle.lx_tool.specs.Scanners.{FindsEnds, FindsLists, IsMade};

use crate::scanner_fault::ScannerFault;
use lx_auto::{build_lists, build_merged};
use lx_automaton::ListAutomaton;
use lx_flex::Reports;
use lx_flex::file::FlexFile;
use lx_flex::importing::conditions_of;
use lx_flex::rules::FlexRule;
use lx_lex::{FileOutline, cut_specification_of, specification_of, split};
use lx_rules::{Condition, Spec};
use lx_tables::Tables;
use lx_warnings::{warn_of_contexts, warn_of_tables};
use std::alloc::{AllocError, Global};

/// A file with its tables.
#[derive(Drop)]
pub(crate) struct MadeScanner<'a> {
    pub(crate) outline: FileOutline<'a>,
    /// The specification of its rules.
    pub(crate) spec: Spec,
    pub(crate) tables: Tables,
    /// Tables that find the ends of tokens with trailing context of several lengths.
    pub(crate) cut_tables: Option<Tables>,
    /// All rules that match after each text, if the actions use `REJECT`.
    pub(crate) lists: Option<ListAutomaton>,
}

/// Makes the tables of a specification.
pub(crate) fn tables_of<'a>(alloc: Global, spec: &Spec) -> Result<Tables, ScannerFault<'a>>
    ensures { IfOk result (λ tables. AreTablesOf (spec_view spec.now) tables) }
{
    let automaton = build_merged(alloc, spec)?;
    Ok(Tables::unjoined_of(alloc, spec, &automaton)?)
}

// Makes the tables that find the ends of tokens with trailing context of several lengths, if there are such rules.
fn cut_tables_of<'a>(alloc: Global, rules: &[FlexRule]) -> Result<Option<Tables>, ScannerFault<'a>>
    ensures { IfOk result (λ made. FindsEnds (map file_rule rules.now) made) }
{
    let Some(spec) = cut_specification_of(alloc, rules)? else {
        return Err(ScannerFault::Contexts);
    };
    if spec.rules.is_empty() {
        return Ok(None);
    }
    Ok(Some(tables_of(alloc, &spec)?))
}

// Makes the specification of rules.
fn specification_for<'a>(
    alloc: Global,
    conditions: Vec<Condition>,
    rules: Vec<FlexRule>,
) -> Result<Spec, ScannerFault<'a>>
    ensures { IfOk result (λ spec. IsScannerSpec (map condition_view conditions.items)
        (map file_rule rules.items) (spec_view spec)) }
{
    match specification_of(alloc, conditions, rules)? {
        Some(spec) => Ok(spec),
        None => Err(ScannerFault::Faults),
    }
}

// Makes the lists of rules that `REJECT` needs, if the actions use it.
fn lists_of<'a>(
    alloc: Global,
    outline: &FileOutline<'_>,
    spec: &Spec,
) -> Result<Option<ListAutomaton>, ScannerFault<'a>>
    ensures { IfOk result (λ made. FindsLists (spec_view spec.now) made) }
{
    if !outline.has_reject() {
        return Ok(None);
    }
    Ok(Some(build_lists(alloc, spec)?))
}

/// Makes the tables of a file, and adds the faults and warnings that they show.
pub(crate) fn made_of<'a, 's>(
    alloc: Global,
    file: FlexFile<'s>,
    reports: &mut Reports,
) -> Result<MadeScanner<'s>, ScannerFault<'a>>
    ensures rules { IfOk result (λ made. IsMade (spec_view made.spec) made.cut_tables) }
    ensures tables { IfOk result (λ made. AreTablesOf (spec_view made.spec) made.tables) }
    ensures lists { IfOk result (λ made. FindsLists (spec_view made.spec) made.lists) }
{
    let conditions = conditions_of(alloc, &file.declared)?;
    let (outline, rules) = split(alloc, file)?;
    let options = &outline.declared.options;
    warn_of_contexts(alloc, options, rules.as_slice(), reports)?;
    let cut_tables = cut_tables_of(alloc, rules.as_slice())?;
    let spec = specification_for(alloc, conditions, rules)?;
    let tables = tables_of(alloc, &spec)?;
    let lists = lists_of(alloc, &outline, &spec)?;
    warn_of_tables(alloc, &outline, &spec, &tables, lists.as_ref(), reports)?;
    Ok(MadeScanner {
        outline,
        spec,
        tables,
        cut_tables,
        lists,
    })
}
