//! Imports a whole flex file.

ghost use Rattle.std.specs.Prelude.{◌≡◌, ◌<◌, map, length, vec_len, IfErr, IfOk, OnOk};
ghost use Rattle.lx_flex.specs.Faults.{HasReports};
ghost use Rattle.lx_flex.specs.Imported.{IsImported};
ghost use Rattle.lx_flex.specs.views.{definition_of, rule_of};
ghost use Rattle.lx_rules.specs.views.Conditions.{condition_view};

use crate::checking::{CheckFault, check};
use crate::cursor::{FilePlace, TextCursor};
use crate::definitions::{Declared, read_definitions};
use crate::judging::{ImportedRule, JudgedRule, judge_first_code, judge_rules};
use crate::naming::{ImportedDefinition, PatternNames, naming_of};
use crate::options::FlexOptions;
use crate::printing::{cases, code_kind, specification};
use crate::report::{ImportCause, ImportFault, ImportReport, ReadFault, Reports, stop};
use crate::rules::read_rules;
use lx_flex_pattern::NamedPatterns;
use lx_rules::Condition;
use lx_rules::limits::MAX_SPECIFICATION_BYTES;
use std::alloc::{AllocError, Global};

/// The options of an import.
#[derive(Debug, Clone, Copy)]
pub struct ImportOptions<'a> {
    /// True if constructs that lx can't do are left out and reported. Otherwise the file is rejected for them.
    pub lossy: bool,
    /// Prefix of the kinds of the C text, as it is written. The kinds have it in capitals.
    pub prefix: &'a [u8],
    /// Name of the file for the `#line` lines of the C text.
    pub file: &'a [u8],
}

/// An imported file.
#[derive(Drop)]
pub struct Imported {
    /// The specification for lx.
    pub specification: Vec<u8>,
    /// C text of the rules that return their numbers, as cases of a switch.
    pub cases: Vec<u8>,
    /// Remarks for the user. None of them is fatal.
    pub reports: Vec<ImportReport>,
    /// Conditions by their names in lx, `INITIAL` first.
    pub conditions: Vec<Condition>,
    /// Definitions that lx has by a name.
    pub definitions: Vec<ImportedDefinition>,
    /// Rules, in order, without those for `<<EOF>>`.
    pub rules: Vec<ImportedRule>,
}

/// The text that was read and printed, before lx reads it.
#[derive(Drop)]
struct ImportDraft {
    specification: Vec<u8>,
    cases: Vec<u8>,
    conditions: Vec<Condition>,
    definitions: Vec<ImportedDefinition>,
    rules: Vec<ImportedRule>,
}

pub fn conditions_of(alloc: Global, declared: &Declared) -> Result<Vec<Condition>, AllocError> {
    let mut conditions = Vec::new(alloc);
    for condition in declared.conditions.as_slice() {
        conditions.push(Condition {
            name: condition.lx_name.clone()?,
            exclusive: condition.exclusive,
        })?;
    }
    Ok(conditions)
}

fn rules_of(alloc: Global, rules: Vec<JudgedRule>) -> Result<Vec<ImportedRule>, AllocError> {
    let mut list = Vec::new(alloc);
    for judged in rules {
        let JudgedRule {
            rule,
            text: _,
            action: _,
        } = judged;
        list.push(rule)?;
    }
    Ok(list)
}

/// Refuses tables, and a text that is too long.
fn refuse_at_once(text: &[u8]) -> Result<(), ReadFault> {
    if text.starts_with(b"lx-tables ") {
        return stop(FilePlace::WHOLE, ImportCause::Tables);
    }
    if text.len() > MAX_SPECIFICATION_BYTES {
        return stop(FilePlace::WHOLE, ImportCause::TooLong);
    }
    Ok(())
}

/// Reads the definitions, and reports options that are left out.
fn declared_of(
    alloc: Global,
    cursor: &mut TextCursor,
    reports: &mut Reports,
) -> Result<Declared, ReadFault>
    ensures { IfOk result (λ d. vec_len d.conditions < 65536) }
{
    let declared = read_definitions(alloc, cursor, FlexOptions::new(alloc), reports)?;
    if let Some(place) = declared.options.unrelated {
        reports.add(place, ImportCause::OptionsLeftOut, false)?;
    }
    Ok(declared)
}

/// Reads the rules, and judges them.
fn judged_rules(
    alloc: Global,
    text: &[u8],
    cursor: &mut TextCursor,
    declared: &Declared,
    names: &NamedPatterns,
    reports: &mut Reports,
) -> Result<Vec<JudgedRule>, ReadFault>
    requires { vec_len declared.now.conditions < 65536 }
{
    let raw = read_rules(alloc, cursor, declared, names, reports)?;
    judge_first_code(alloc, text, declared, raw.first_code.as_slice(), reports)?;
    judge_rules(alloc, text, declared, raw.list, reports)
}

/// Prints the definitions and rules of a file.
fn printed(
    alloc: Global,
    options: ImportOptions,
    declared: &Declared,
    definitions: Vec<ImportedDefinition>,
    rules: Vec<JudgedRule>,
) -> Result<ImportDraft, AllocError> {
    let kind = code_kind(alloc, rules.as_slice())?;
    Ok(ImportDraft {
        specification: specification(
            alloc,
            declared,
            definitions.as_slice(),
            rules.as_slice(),
            kind.as_slice(),
        )?,
        cases: cases(alloc, options, rules.as_slice(), kind.as_slice())?,
        conditions: conditions_of(alloc, declared)?,
        definitions,
        rules: rules_of(alloc, rules)?,
    })
}

/// Reads and prints the file.
fn draft_of(
    alloc: Global,
    text: &[u8],
    options: ImportOptions,
    reports: &mut Reports,
) -> Result<ImportDraft, ReadFault> {
    refuse_at_once(text)?;
    let mut cursor = TextCursor::new(text);
    let declared = declared_of(alloc, &mut cursor, reports)?;
    let PatternNames { names, definitions } = naming_of(alloc, &declared)?;
    let rules = judged_rules(alloc, text, &mut cursor, &declared, &names, reports)?;
    Ok(printed(alloc, options, &declared, definitions, rules)?)
}

/// Returns the place in the file of the rule that lx rejects. `line` is its line in the printed text, whose last lines are the rules.
fn own_place(draft: &ImportDraft, line: u32) -> FilePlace {
    let mut lines: usize = 0;
    for byte in draft.specification.as_slice() {
        if *byte == b'\n' {
            lines = lines.saturating_add(1);
        }
    }
    let before = lines.saturating_sub(draft.rules.len());
    let at = usize::try_from(line).unwrap_or(0);
    if at <= before {
        return FilePlace::WHOLE;
    }
    match draft.rules.get(at.saturating_sub(before).saturating_sub(1)) {
        Some(rule) => rule.place,
        None => FilePlace::WHOLE,
    }
}

/// Returns the remark on why lx doesn't read the printed text as it should. Returns `None` if an allocation failed.
fn check_report(draft: &ImportDraft, fault: CheckFault) -> Option<(FilePlace, ImportCause)> {
    match fault {
        CheckFault::NotTheSame => Some((FilePlace::WHOLE, ImportCause::NotTheSame)),
        CheckFault::Refused(refused) => {
            if refused.code == lx_spec::Code::Memory {
                None
            } else {
                Some((
                    own_place(draft, refused.line),
                    ImportCause::Refused(refused.code),
                ))
            }
        }
    }
}

fn fault_of(reports: Reports) -> ImportFault
    requires { 0 < length reports.list.items }
    ensures { HasReports result }
{
    ImportFault::Refused(reports.list)
}

/// Returns the draft as an imported file, if lx reads it as it was read from the file.
fn check_draft(alloc: Global, draft: ImportDraft, reports: Reports) -> Result<Imported, ImportFault>
    ensures ok { IfOk result (λ i.
        IsImported (map condition_view i.conditions.items)
        (map definition_of i.definitions.items) (map rule_of i.rules.items)
        i.specification.items) }
    ensures err { IfErr result HasReports }
{
    let outcome = check(
        alloc,
        draft.specification.as_slice(),
        draft.conditions.as_slice(),
        draft.definitions.as_slice(),
        draft.rules.as_slice(),
    );
    if let Err(fault) = outcome {
        let Some((place, cause)) = check_report(&draft, fault) else {
            return Err(ImportFault::Memory);
        };
        let mut reports = reports;
        reports.add(place, cause, true)?;
        return Err(fault_of(reports));
    }
    let ImportDraft {
        specification,
        cases,
        conditions,
        definitions,
        rules,
    } = draft;
    Ok(Imported {
        specification,
        cases,
        reports: reports.list,
        conditions,
        definitions,
        rules,
    })
}

/// Imports a flex specification: makes one for lx (flex's manual, "Format of the Input File").
///
/// At Ok lx accepts the new specification, and reads the same conditions and rules from it, and of the definitions those that rules reach. The rules
/// have the same number and order. Each is active in the same conditions, with the same anchors and the same texts.
///
/// Err: reports, at least one of them fatal, if something can't be imported. With `lossy` it is left out, if there is a replacement, and only
/// reported.
pub fn import(alloc: Global, text: &[u8], options: ImportOptions) -> Result<Imported, ImportFault>
    ensures ok { IfOk result (λ i.
        IsImported (map condition_view i.conditions.items)
        (map definition_of i.definitions.items) (map rule_of i.rules.items)
        i.specification.items) }
    ensures err { IfErr result HasReports }
{
    let mut reports = Reports {
        list: Vec::new(alloc),
        fatal: false,
        lossy: options.lossy,
        warns: false,
    };
    let draft = match draft_of(alloc, text, options, &mut reports) {
        Ok(draft) => draft,
        Err(ReadFault::Memory) => return Err(ImportFault::Memory),
        Err(ReadFault::At(report)) => {
            reports.add(report.place, report.cause, true)?;
            return Err(fault_of(reports));
        }
    };
    if reports.fatal {
        return Err(fault_of(reports));
    }
    check_draft(alloc, draft, reports)
}
