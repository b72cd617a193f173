//! The command `import`: prints a specification made from one for flex.

ghost use Rattle.std.specs.Prelude.{◌≡◌, ◌<◌, ◌⊎◌, [], IfOk, IfErr, OnOk, Some, option_map};
ghost use Rattle.std.specs.Io.KnownBytes.{Keeps};
ghost use Rattle.lx_cli.specs.CommandLine.{imports, plain_c, plain_import};
ghost use Rattle.lx_tool.specs.Commands.{HasDone, HasFailed, HasPlaced};
ghost use Rattle.lx_tool.specs.Importing.{HasTables, IsOfFlex, IsUnplaced, kinds_words};
ghost use Rattle.lx_tool.specs.Printing.{IsPlaced, IsWritten};
ghost use Rattle.lx_tool.specs.Statuses.{status_of};
ghost use Rattle.lx_tool.specs.Tabling.{AreTablesOfText};
ghost use Rattle.lx_tool.specs.declared.failure.PrintFault.TheVariants.{NotImported};

use crate::failure::{CommandFault, PrintFault};
use crate::given::read_whole;
use crate::output::write_text;
use crate::outputs::judge_outputs_of_import;
use crate::printing::{judge_scanner_words, prefix_of};
use crate::source::Sources;
use crate::tabling::{specification_of, unjoined_tables_of};
use crate::target::Targets;
use lx_auto::BuildFault;
use lx_cli::{CWords, ImportWords};
use lx_diagnose::{advice_of, words_of};
use lx_flex::{ImportFault, ImportOptions, ImportReport, Imported, import};
use lx_tables::Tables;
use std::alloc::{AllocError, Global};
use std::io::Write;

// Returns the options of a C scanner whose kinds have this prefix.
fn scanner_words<'a>(words: &ImportWords<'a>) -> CWords<'a>
    ensures { plain_c result ≡ kinds_words (plain_import words.now) }
{
    CWords {
        scanner: true,
        header: false,
        prefix: words.prefix,
        include: None,
        direct: false,
    }
}

// Appends a line of the report: its place in the file, its severity, and what to do.
fn push_report(notes: &mut Vec<u8>, name: &str, report: &ImportReport) -> Result<(), AllocError> {
    let weight = if report.fatal { "error" } else { "warning" };
    let written = if 0 < report.place.line {
        writeln!(
            notes,
            "{name}:{}: {weight}: {}",
            report.place.line, report.cause
        )
    } else {
        writeln!(notes, "{name}: {weight}: {}", report.cause)
    };
    // a write to a list fails only for lack of memory
    written.map_err(|_| AllocError)
}

fn push_reports(
    notes: &mut Vec<u8>,
    name: &str,
    reports: &[ImportReport],
) -> Result<(), AllocError> {
    for report in reports {
        push_report(notes, name, report)?;
    }
    Ok(())
}

// Makes the tables of the printed text as `gen` does.
fn tables_printed<'a>(alloc: Global, printed: &[u8]) -> Result<Tables, CommandFault<'a>>
    ensures { IfOk result (λ tables. AreTablesOfText printed.now tables) }
{
    let spec = specification_of(alloc, printed)?;
    unjoined_tables_of(alloc, &spec)
}

fn size_code(fault: BuildFault) -> &'static str {
    match fault {
        BuildFault::TooManyPositions => "E30",
        BuildFault::TooManySets => "E31",
        BuildFault::Memory => "E90",
    }
}

// Appends a line on why the printed text has no tables: its automaton is too large. No line of the file is at fault.
fn push_verdict(
    notes: &mut Vec<u8>,
    name: &str,
    failure: &CommandFault<'_>,
) -> Result<(), AllocError> {
    let written = match failure {
        CommandFault::Automaton(fault) => {
            let code = size_code(*fault);
            writeln!(
                notes,
                "{name}: error: {code}: {}; write {}",
                words_of(code),
                advice_of(code)
            )
        }
        other => writeln!(notes, "{name}: error: {other}"),
    };
    // a write to a list fails only for lack of memory
    written.map_err(|_| AllocError)
}

// Rejects a printed text that `gen` would reject, and writes the reason to `notes`.
fn judge_printed<'a>(
    alloc: Global,
    name: &str,
    printed: &[u8],
    notes: &mut Vec<u8>,
) -> Result<(), CommandFault<'a>>
    ensures ok { OnOk result (HasTables printed.now) }
    ensures err { IfErr result
        (λ failure. (failure ≡ CommandFault.Memory) ⊎ (failure ≡ CommandFault.Unprintable NotImported)) }
{
    match tables_printed(alloc, printed) {
        Ok(_tables) => Ok(()),
        Err(CommandFault::Memory) => Err(CommandFault::Memory),
        Err(failure) => {
            push_verdict(notes, name, &failure)?;
            Err(CommandFault::Unprintable(PrintFault::NotImported))
        }
    }
}

// Makes the specification for lx, and writes the remarks on the file to `notes`.
fn imported_of<'a>(
    alloc: Global,
    words: &ImportWords<'a>,
    prefix: &str,
    text: &[u8],
    notes: &mut Vec<u8>,
) -> Result<Imported, CommandFault<'a>>
    ensures ok { IfOk result (λ imported. IsOfFlex imported.specification.items) }
    ensures err { IfErr result
        (λ failure. (failure ≡ CommandFault.Memory) ⊎ (failure ≡ CommandFault.Unprintable NotImported)) }
{
    let options = ImportOptions {
        lossy: words.lossy,
        prefix: prefix.as_bytes(),
        file: words.rules.as_bytes(),
    };
    match import(alloc, text, options) {
        Ok(imported) => {
            push_reports(notes, words.rules, &imported.reports)?;
            judge_printed(alloc, words.rules, &imported.specification, notes)?;
            Ok(imported)
        }
        Err(ImportFault::Refused(reports)) => {
            push_reports(notes, words.rules, &reports)?;
            Err(CommandFault::Unprintable(PrintFault::NotImported))
        }
        Err(ImportFault::Memory) => Err(CommandFault::Memory),
    }
}

// Writes a text to a file, if one is named.
fn place_text<'a, T: Targets>(
    target: Option<&str>,
    text: &[u8],
    targets: &mut T,
) -> Result<(), CommandFault<'a>>
    ensures ok { OnOk result (IsPlaced T.places (option_map (λ name. name.now) target.entry)
        text.now targets.old targets.new) }
    ensures err { IfErr result (IsUnplaced (option_map (λ name. name.now) target.entry)) }
{
    match target {
        Some(name) => {
            targets.place(name, text)?;
            Ok(())
        }
        None => Ok(()),
    }
}

// Writes a text to a file, or to the output if none is named.
fn write_or_place<'a, T: Targets, O: Write>(
    target: Option<&str>,
    text: &[u8],
    targets: &mut T,
    out: &mut O,
) -> Result<(), CommandFault<'a>>
    ensures ok { OnOk result (IsWritten (option_map (λ name. name.now) target.entry) text.now
        (O.contents out.old) (O.contents out.new)) }
    ensures placed { OnOk result (IsPlaced T.places (option_map (λ name. name.now) target.entry)
        text.now targets.old targets.new) }
    ensures err { IfErr result (IsUnplaced (option_map (λ name. name.now) target.entry)) }
    ensures kept { IfErr result
        (λ failure. status_of failure < 4 → Keeps (O.contents out.old) (O.contents out.new)) }
{
    match target {
        Some(_) => place_text(target, text, targets),
        None => write_text(text, out),
    }
}

/// Prints a specification made from one for flex, and writes the actions to a file if one is named. Writes the remarks on the file to `notes`.
pub(crate) fn import_named<'a, S: Sources, T: Targets, O: Write>(
    alloc: Global,
    words: &ImportWords<'a>,
    sources: &mut S,
    targets: &mut T,
    notes: &mut Vec<u8>,
    out: &mut O,
) -> Result<(), CommandFault<'a>>
    ensures ok { OnOk result (HasDone S.gives sources.old sources.new (O.contents out.old)
        (O.contents out.new) [] (imports (plain_import words.now))) }
    ensures placed { OnOk result (HasPlaced S.gives T.places T.same sources.old targets.old
        targets.new (Some (imports (plain_import words.now)))) }
    ensures err { IfErr result (HasFailed S.gives (Some (imports (plain_import words.now)))
        sources.old (O.contents out.old) (O.contents out.new)) }
{
    let kinds = scanner_words(words);
    judge_scanner_words(alloc, &kinds)?;
    judge_outputs_of_import(targets, words)?;
    let text = read_whole(alloc, sources, words.rules)?;
    let imported = imported_of(alloc, words, prefix_of(&kinds), &text, notes)?;
    place_text(words.actions, &imported.cases, targets)?;
    write_or_place(words.target, &imported.specification, targets, out)
}
