//! Reads a whole file for lex or flex (POSIX.1-2017, XCU `lex`, "Input Files"; flex's manual, "Format of the Input File").

ghost use Rattle.std.specs.Prelude.{◌≡◌, ⊤, IfOk, IfSome, OnOk, false};
ghost use Rattle.std.specs.Option.{is_none};
ghost use Rattle.lx_flex.specs.RulesSections.{HasRules};
ghost use Rattle.lx_flex.specs.States.{IfNoFault, conditions_of, names_of};

use crate::cursor::{FilePlace, TextCursor, TextRange};
use crate::definitions::{Declared, FlexDefinition, read_definitions};
use crate::options::FlexOptions;
use crate::report::{ImportCause, ReadFault, Reports, stop};
use crate::rules::{FlexRules, RuleAction, read_rules};
use lx_flex_pattern::NamedPatterns;
use lx_rules::limits::MAX_SPECIFICATION_BYTES;
use std::alloc::{AllocError, Global};

/// A file for lex or flex.
#[derive(Debug, Drop)]
pub struct FlexFile<'a> {
    pub text: &'a [u8],
    /// The definitions section.
    pub declared: Declared,
    /// The rules section.
    pub rules: FlexRules,
    /// The user's functions after the second `%%`.
    pub functions: TextRange,
}

/// Options that a C scanner can't follow, with the causes that are reported.
const UNSUPPORTED: &[(&[u8], ImportCause)] = &[
    (b"c++", ImportCause::CppScanner),
    (b"yyclass", ImportCause::CppScanner),
    (b"tables-file", ImportCause::SerializedTables),
    (b"tables-verify", ImportCause::SerializedTables),
];

/// Returns the definitions, each expanded where a pattern names it.
fn expanded_names(
    alloc: Global,
    definitions: &[FlexDefinition],
) -> Result<NamedPatterns, AllocError> {
    let mut names = NamedPatterns::new(alloc);
    for definition in definitions {
        names.add(
            alloc,
            definition.name.as_slice(),
            definition.text.as_slice(),
            None,
        )?;
    }
    Ok(names)
}

/// Reports options that a C scanner can't follow.
fn judge_options(options: &FlexOptions, reports: &mut Reports) -> Result<(), AllocError> {
    for (word, cause) in UNSUPPORTED {
        if !options.is_on(*word) && options.value_of(*word).is_none() {
            continue;
        }
        if let Some(place) = options.place_of(*word) {
            reports.add(place, *cause, true)?;
        }
    }
    Ok(())
}

/// Reports a last rule whose action is that of a next one.
fn judge_last_rule(rules: &FlexRules, reports: &mut Reports) -> Result<(), AllocError>
    ensures { OnOk result (IfNoFault reports.old.fatal reports.new.fatal ⊤) }
{
    match rules.list.last() {
        Some(rule) => {
            if rule.action == RuleAction::Bar {
                reports.add(rule.place, ImportCause::DanglingBar, true)?;
            }
            Ok(())
        }
        None => Ok(()),
    }
}

/// Takes the text after the second `%%` line, or the empty text at the file's end.
fn take_functions(cursor: &mut TextCursor) -> TextRange {
    cursor.skip_line();
    let start = *cursor;
    let length = cursor.rest().len();
    cursor.advance(length);
    cursor.since(start)
}

fn read_sections<'a>(
    alloc: Global,
    text: &'a [u8],
    options: FlexOptions,
    reports: &mut Reports,
) -> Result<FlexFile<'a>, ReadFault>
    ensures { IfOk result (λ file. reports.new.fatal ≡ false
        → HasRules (names_of file.declared) text.now (conditions_of file.rules.list.items)) }
{
    if text.len() > MAX_SPECIFICATION_BYTES {
        return stop(FilePlace::WHOLE, ImportCause::TooLong);
    }
    let mut cursor = TextCursor::new(text);
    let declared = read_definitions(alloc, &mut cursor, options, reports)?;
    reports.warns = declared.options.is_on(b"warn");
    judge_options(&declared.options, reports)?;
    let names = expanded_names(alloc, declared.definitions.as_slice())?;
    let rules = read_rules(alloc, &mut cursor, &declared, &names, reports)?;
    judge_last_rule(&rules, reports)?;
    let functions = take_functions(&mut cursor);
    Ok(FlexFile {
        text,
        declared,
        rules,
        functions,
    })
}

/// Reads a file for lex or flex. `options` has those of the command line. Returns the file, unless a report is fatal, and the reports of all faults
/// and warnings. If there is no file, there is a report.
pub fn read_file<'a>(
    alloc: Global,
    text: &'a [u8],
    options: FlexOptions,
) -> Result<(Option<FlexFile<'a>>, Reports), AllocError>
    ensures rules { IfOk result (λ r. IfSome r.0 (λ file. HasRules (names_of file.declared) text.now
        (conditions_of file.rules.list.items))) }
    ensures fatal { IfOk result (λ r. r.1.fatal ≡ is_none r.0) }
{
    let mut reports = Reports {
        list: Vec::new(alloc),
        fatal: false,
        lossy: false,
        warns: false,
    };
    match read_sections(alloc, text, options, &mut reports) {
        Ok(file) => {
            let file = if reports.fatal { None } else { Some(file) };
            Ok((file, reports))
        }
        Err(ReadFault::Memory) => Err(AllocError),
        Err(ReadFault::At(report)) => {
            reports.add(report.place, report.cause, true)?;
            Ok((None, reports))
        }
    }
}
