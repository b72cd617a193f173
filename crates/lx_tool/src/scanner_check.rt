//! The command `check --flex`: reports on files for lex or flex.

ghost use Rattle.std.specs.Prelude.{◌<◌, ◌≡◌, ◌≤◌, OnOk, is_some};
ghost use Rattle.lx_cli.specs.CommandLine.{words_of};
ghost use Rattle.lx_tool.specs.Scanners.{IsReportWritten, asks_flex_check};

use crate::output::Output;
use crate::remarks::tell_size;
use crate::scanner_fault::ScannerFault;
use crate::scanner_input::{read_whole_text, source_names};
use crate::scanner_making::{MadeScanner, made_of};
use crate::scanners::{ScannerWords, answer_of, report};
use crate::source::Sources;
use crate::target::NoTargets;
use lx_flex::Reports;
use lx_flex::file::{FlexFile, read_file};
use lx_flex::flags::{FlagFault, FlexCommand, read_command};
use lx_flex::options::FlexOptions;
use lx_lex::place_in;
use lx_report::{NamedText, push_count, push_reports};
use std::alloc::{AllocError, Global};
use std::io::Write;

/// Options of `check --flex`, which come before those of flex.
#[derive(Clone, Copy)]
struct CheckOptions {
    quiet: bool,
    // True if a warning is an error.
    are_errors: bool,
}

/// Numbers of the faults and warnings of a file.
#[derive(Clone, Copy)]
struct Counts {
    errors: usize,
    warnings: usize,
}

/// Returns the words after `check --flex`, if the command line begins so.
pub(crate) fn flex_check_words(words: &[String]) -> Option<ScannerWords<'_>>
    ensures { is_some result ≡ asks_flex_check (words_of words.now) }
{
    let (_, words) = words.split_first()?;
    let (command, words) = words.split_first()?;
    let (flag, words) = words.split_first()?;
    if command.as_bytes() == b"check".as_slice() && flag.as_bytes() == b"--flex".as_slice() {
        Some(ScannerWords {
            posix: false,
            words,
        })
    } else {
        None
    }
}

// Returns the options at the start of the words, and the words after them.
fn split_options(words: &[String]) -> (CheckOptions, &[String]) {
    let mut options = CheckOptions {
        quiet: false,
        are_errors: false,
    };
    let mut left = words;
    for _ in words {
        match left {
            [word, rest @ ..] if word.as_str() == "-q" => {
                options.quiet = true;
                left = rest;
            }
            [word, rest @ ..] if word.as_str() == "-Werror" => {
                options.are_errors = true;
                left = rest;
            }
            [word, value, rest @ ..] if word.as_str() == "-W" && value.as_str() == "error" => {
                options.are_errors = true;
                left = rest;
            }
            _ => break,
        }
    }
    (options, left)
}

fn counts_of(reports: &Reports) -> Counts {
    let mut counts = Counts {
        errors: 0,
        warnings: 0,
    };
    for report in reports.list.as_slice() {
        if report.fatal {
            counts.errors = counts.errors.saturating_add(1);
        } else {
            counts.warnings = counts.warnings.saturating_add(1);
        }
    }
    counts
}

// Appends the reason why a file without a fault at a place has no tables. Returns the number of such reasons.
fn push_fault(
    lines: &mut Vec<u8>,
    name: &[u8],
    fault: &ScannerFault<'_>,
) -> Result<usize, AllocError> {
    if matches!(fault, ScannerFault::Faults) {
        return Ok(0);
    }
    lines.extend_from_slice(name)?;
    // a write to a list fails only for lack of memory
    writeln!(lines, ": error: {fault}").map_err(|_| AllocError)?;
    if let ScannerFault::Automaton(fault) = fault {
        tell_size(*fault, lines);
    }
    Ok(1)
}

// Appends the sizes of an accepted file.
fn push_sizes(lines: &mut Vec<u8>, made: &MadeScanner<'_>) -> Result<(), AllocError> {
    lines.extend_from_slice(b"accepted: ")?;
    push_count(
        lines,
        usize::from(made.tables.rules()),
        b" rule, ",
        b" rules, ",
    )?;
    let conditions = made.outline.declared.conditions.len();
    push_count(
        lines,
        conditions,
        b" start condition, ",
        b" start conditions, ",
    )?;
    push_count(
        lines,
        made.tables.states() as usize,
        b" state, ",
        b" states, ",
    )?;
    push_count(
        lines,
        usize::from(made.tables.classes()),
        b" class, ",
        b" classes, ",
    )
}

// Appends the last line: the sizes, or the number of faults, and the number of warnings.
fn push_summary(
    lines: &mut Vec<u8>,
    name: &[u8],
    made: Option<&MadeScanner<'_>>,
    counts: Counts,
) -> Result<(), AllocError> {
    lines.extend_from_slice(name)?;
    lines.extend_from_slice(b": ")?;
    match made {
        Some(made) => push_sizes(lines, made)?,
        None => push_count(lines, counts.errors, b" error, ", b" errors, ")?,
    }
    push_count(lines, counts.warnings, b" warning\n", b" warnings\n")
}

// Appends the last line of an accepted file, unless the report is quiet.
fn accept(
    lines: &mut Vec<u8>,
    name: &[u8],
    made: &MadeScanner<'_>,
    counts: Counts,
    quiet: bool,
) -> Result<Counts, AllocError> {
    if !quiet {
        push_summary(lines, name, Some(made), counts)?;
    }
    Ok(counts)
}

// Appends why a file has no tables, and the last line, unless the report is quiet.
fn refuse<'a>(
    lines: &mut Vec<u8>,
    name: &[u8],
    fault: &ScannerFault<'a>,
    counts: Counts,
    quiet: bool,
) -> Result<Counts, ScannerFault<'a>> {
    if matches!(fault, ScannerFault::Memory) {
        return Err(ScannerFault::Memory);
    }
    let found = push_fault(lines, name, fault)?;
    let counts = Counts {
        errors: counts.errors.saturating_add(found),
        warnings: counts.warnings,
    };
    if !quiet {
        push_summary(lines, name, None, counts)?;
    }
    Ok(counts)
}

// Makes the tables of a file, if it was read.
fn made_if_read<'a, 's>(
    alloc: Global,
    file: Option<FlexFile<'s>>,
    reports: &mut Reports,
) -> Result<MadeScanner<'s>, ScannerFault<'a>> {
    let Some(file) = file else {
        return Err(ScannerFault::Faults);
    };
    made_of(alloc, file, reports)
}

// Checks the text of files, and appends the report. Returns the numbers of faults and warnings.
fn check_text<'a>(
    alloc: Global,
    source: NamedText<'_>,
    flex_options: FlexOptions,
    quiet: bool,
    lines: &mut Vec<u8>,
) -> Result<Counts, ScannerFault<'a>> {
    let (name, _) = place_in(source.names, 1);
    let (file, reports) = read_file(alloc, source.text, flex_options)?;
    let mut reports = reports;
    let made = made_if_read(alloc, file, &mut reports);
    push_reports(alloc, lines, source, &reports, quiet)?;
    let counts = counts_of(&reports);
    match made {
        Ok(made) => Ok(accept(lines, name, &made, counts, quiet)?),
        Err(fault) => refuse(lines, name, &fault, counts, quiet),
    }
}

// Reads the options of flex and the names of files.
fn flex_command_of<'a>(
    alloc: Global,
    words: ScannerWords<'a>,
    posix: bool,
) -> Result<FlexCommand<'a>, ScannerFault<'a>> {
    match read_command(alloc, words.words, posix) {
        Ok(command) => Ok(command),
        Err(FlagFault::Unknown(word)) => Err(ScannerFault::NoCheckOption(word)),
        Err(fault) => Err(fault.into()),
    }
}

// Checks the files that the words name, and appends the report. Returns the numbers of faults and warnings.
fn check_files<'a, S: Sources>(
    alloc: Global,
    words: ScannerWords<'a>,
    quiet: bool,
    sources: &mut S,
    lines: &mut Vec<u8>,
) -> Result<Counts, ScannerFault<'a>> {
    let FlexCommand {
        options,
        files,
        macros: _,
        header: _,
        told,
    } = flex_command_of(alloc, words, words.posix || sources.is_posix())?;
    if let Some(answer) = told {
        let text = answer_of(alloc, answer, words.posix)?;
        lines.extend_from_slice(text.as_slice())?;
        return Ok(Counts {
            errors: 0,
            warnings: 0,
        });
    }
    let whole = read_whole_text(alloc, sources, files.as_slice())?;
    let names = source_names(alloc, &whole)?;
    let source = NamedText {
        text: whole.text.as_slice(),
        names: names.as_slice(),
    };
    check_text(alloc, source, options, quiet, lines)
}

fn status_of(options: CheckOptions, counts: Counts) -> u8
    ensures { result ≤ 1 }
{
    if 0 < counts.errors || (options.are_errors && 0 < counts.warnings) {
        1
    } else {
        0
    }
}

fn write_report<O: Write + Output>(lines: &[u8], out: &mut O) -> Result<(), ScannerFault<'static>>
    ensures written { OnOk result (IsReportWritten (O.contents out.old) (O.contents out.new)) }
    ensures sent { OnOk result (O.sent out.new) }
{
    out.write_all(lines).map_err(|_| ScannerFault::Output)?;
    out.send().map_err(|_| ScannerFault::Output)
}

/// Checks the files that the words of `check --flex` name, as `lex` or `flex` reads them, and writes their faults and warnings to `out`. Returns the
/// exit status:
/// - 0: the files have no fault;
/// - 1: they have faults, or with `-W error` warnings;
/// - 2: the command line was rejected;
/// - 3: a file can't be read;
/// - 4: the output failed;
/// - 5: memory is exhausted.
pub(crate) fn check_scanner<S: Sources, O: Write + Output, E: Write>(
    alloc: Global,
    words: ScannerWords<'_>,
    sources: &mut S,
    out: &mut O,
    err: &mut E,
) -> u8
    ensures known { result ≤ 5 }
    ensures written { result < 2 → IsReportWritten (O.contents out.old) (O.contents out.new) }
    // Nothing is still buffered in the program.
    ensures sent { result < 2 → O.sent out.new }
{
    let (options, left) = split_options(words.words);
    let words = ScannerWords {
        words: left,
        ..words
    };
    let mut lines = Vec::new(alloc);
    let fault = match check_files(alloc, words, options.quiet, sources, &mut lines) {
        Ok(counts) => match write_report(lines.as_slice(), out) {
            Ok(()) => return status_of(options, counts),
            Err(fault) => fault,
        },
        Err(fault) => fault,
    };
    report(&fault, &[], sources, &NoTargets, err);
    // a fault of the files is in the report
    fault.status().max(2)
}
