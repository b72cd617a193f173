//! The commands `lex` and `flex`: print a scanner in C with the actions of a file (POSIX.1-2017, XCU `lex`; flex's manual, "Scanner Options").

ghost use Rattle.std.specs.Prelude.{◌<◌, ◌≡◌, ◌≤◌, IfOk, OnOk, option_map};
ghost use Rattle.lx_rules.specs.views.Specs.{spec_view};
ghost use Rattle.lx_tables.specs.Model.{AreTablesOf};
ghost use Rattle.std.specs.Io.KnownBytes.{Appends};
ghost use Rattle.lx_cli.specs.CommandLine.{words_of};
ghost use Rattle.lx_tool.specs.Printing.{IsPlaced, IsWritten};
ghost use Rattle.lx_tool.specs.Scanners.{FindsLists, IsAnswer, IsAnswered, IsDone, IsMade, IsOutcome, IsScanner, IsScannerPrinted, command_named, part_after, scanner_asked};

use crate::output::Output;
use crate::remarks::tell_size;
use crate::scanner_fault::ScannerFault;
use crate::scanner_help::{FLEX_HEAD, LEX_HEAD, SCANNER_OPTIONS};
use crate::scanner_input::{read_whole_text, source_names};
use crate::scanner_making::{MadeScanner, made_of};
use crate::source::Sources;
use crate::target::Targets;
use lx_cli::VERSION;
use lx_flex::Reports;
use lx_flex::file::{FlexFile, read_file};
use lx_flex::flags::{FlexAnswer, FlexCommand, read_command};
use lx_flex::options::FlexOptions;
use lx_lex::{
    PrintOptions, ScannerTables, SourceName, asked_form, backup_of, form_of, header_of, scanner_of,
};
use lx_report::{NamedText, push_reports};
use std::alloc::{AllocError, Global};
use std::io::Write;

/// The command line of `lex` or of `flex`.
#[derive(Clone, Copy, Debug)]
pub(crate) struct ScannerWords<'a> {
    /// True for `lex`, whose patterns are those of POSIX.
    pub(crate) posix: bool,
    /// Words after the name of the command.
    pub(crate) words: &'a [String],
}

// Returns true for the name of `lex`, false for that of `flex`.
fn is_posix(name: &[u8]) -> Option<bool>
    ensures { result ≡ command_named name.now }
{
    if name == b"lex".as_slice() {
        return Some(true);
    }
    if name == b"flex".as_slice() {
        return Some(false);
    }
    None
}

// Returns the name of a program without its folder.
fn name_in_folder(path: &[u8]) -> &[u8]
    ensures { result.now ≡ part_after path.now path.now }
{
    let mut name = path;
    for place in 0..path.len() {
        if path[place] == b'/' {
            name = &path[place + 1..];
        }
    }
    name
}

/// Returns the words for `lex` or `flex`, if this is the program's name or its command.
pub(crate) fn scanner_words(words: &[String]) -> Option<ScannerWords<'_>>
    ensures { option_map (λ w. w.posix) result ≡ scanner_asked (words_of words.now) }
{
    let (program, rest) = words.split_first()?;
    if let Some(posix) = is_posix(name_in_folder(program.as_bytes())) {
        return Some(ScannerWords { posix, words: rest });
    }
    let (command, rest) = rest.split_first()?;
    let posix = is_posix(command.as_bytes())?;
    Some(ScannerWords { posix, words: rest })
}

/// The names of the files that are written. Without a name, the scanner goes to standard output.
#[derive(Drop)]
struct OutputNames {
    scanner: Option<Vec<u8>>,
    header: Option<Vec<u8>>,
    /// The report that `-b` asks for.
    backup: Option<Vec<u8>>,
}

// Returns `lex.PREFIX` with this ending.
fn name_by_prefix(
    alloc: Global,
    options: &FlexOptions,
    ending: &[u8],
) -> Result<Vec<u8>, AllocError> {
    let mut name = Vec::from_slice(alloc, b"lex.")?;
    name.extend_from_slice(options.value_of(b"prefix").unwrap_or(b"yy"))?;
    name.extend_from_slice(ending)?;
    Ok(name)
}

fn output_names(
    alloc: Global,
    options: &FlexOptions,
    wants_header: bool,
) -> Result<OutputNames, AllocError> {
    let scanner = if options.is_on(b"stdout") {
        None
    } else {
        match options.value_of(b"outfile") {
            Some(name) => Some(Vec::from_slice(alloc, name)?),
            None => Some(name_by_prefix(alloc, options, b".c")?),
        }
    };
    let header = match options.value_of(b"header-file") {
        Some(name) => Some(Vec::from_slice(alloc, name)?),
        None => {
            if wants_header {
                Some(name_by_prefix(alloc, options, b".h")?)
            } else {
                None
            }
        }
    };
    let backup = if options.is_on(b"backup") {
        Some(Vec::from_slice(alloc, b"lex.backup")?)
    } else {
        None
    };
    Ok(OutputNames {
        scanner,
        header,
        backup,
    })
}

/// The same names as text.
#[derive(Clone, Copy)]
struct WrittenNames<'n> {
    scanner: Option<&'n str>,
    header: Option<&'n str>,
    backup: Option<&'n str>,
}

fn name_text<'a, 'n>(name: &'n Option<Vec<u8>>) -> Result<Option<&'n str>, ScannerFault<'a>> {
    match name {
        Some(bytes) => match str::from_utf8(bytes.as_slice()) {
            Ok(text) => Ok(Some(text)),
            Err(_) => Err(ScannerFault::OddName),
        },
        None => Ok(None),
    }
}

// Returns the names as text.
fn names_of<'a, 'n>(written: &'n OutputNames) -> Result<WrittenNames<'n>, ScannerFault<'a>> {
    Ok(WrittenNames {
        scanner: name_text(&written.scanner)?,
        header: name_text(&written.header)?,
        backup: name_text(&written.backup)?,
    })
}

// Rejects an output that is one of the inputs.
fn judge_output<'a, T: Targets>(
    targets: &T,
    output: Option<&str>,
    files: &[&'a str],
) -> Result<(), ScannerFault<'a>> {
    let Some(output) = output else {
        return Ok(());
    };
    for file in files {
        if targets.is_same_file(output, file)? {
            return Err(ScannerFault::Overwrites(file));
        }
    }
    Ok(())
}

// Rejects two outputs that are one file.
fn judge_two<'a, T: Targets>(
    targets: &T,
    output: Option<&str>,
    other: Option<&str>,
) -> Result<(), ScannerFault<'a>> {
    if let (Some(output), Some(other)) = (output, other) {
        if targets.is_same_file(output, other)? {
            return Err(ScannerFault::Overwrites("the other one"));
        }
    }
    Ok(())
}

// Rejects outputs that are inputs, or one another.
fn judge_outputs<'a, T: Targets>(
    targets: &T,
    names: WrittenNames<'_>,
    files: &[&'a str],
) -> Result<(), ScannerFault<'a>> {
    judge_output(targets, names.scanner, files)?;
    judge_output(targets, names.header, files)?;
    judge_output(targets, names.backup, files)?;
    judge_two(targets, names.scanner, names.header)?;
    judge_two(targets, names.scanner, names.backup)?;
    judge_two(targets, names.header, names.backup)
}

// Writes what `-v` asks for to `notes`.
fn push_summary(notes: &mut Vec<u8>, made: &MadeScanner<'_>) -> Result<(), AllocError> {
    let written = writeln!(
        notes,
        "lx: {} rules, {} start conditions, {} states, {} classes of bytes",
        made.tables.rules(),
        made.outline.declared.conditions.len(),
        made.tables.states(),
        made.tables.classes()
    );
    // a write to a list fails only for lack of memory
    written.map_err(|_| AllocError)
}

fn write_all<'a, O: Write>(out: &mut O, text: &[u8]) -> Result<(), ScannerFault<'a>>
    ensures { OnOk result (Appends (O.contents out.old) (O.contents out.new) text.now) }
{
    out.write_all(text).map_err(|_| ScannerFault::Output)
}

// Writes a text to a file, or to the output if none is named.
fn write_or_place<'a, T: Targets, O: Write>(
    name: Option<&str>,
    text: &[u8],
    targets: &mut T,
    out: &mut O,
) -> Result<(), ScannerFault<'a>>
    ensures written { OnOk result (IsWritten (option_map (λ n. n.now) name.entry) text.now
        (O.contents out.old) (O.contents out.new)) }
    ensures placed { OnOk result (IsPlaced T.places (option_map (λ n. n.now) name.entry)
        text.now targets.old targets.new) }
{
    match name {
        Some(_) => place_named(name, text, targets),
        None => write_all(out, text),
    }
}

// Writes a text to a file, if one is named.
fn place_named<'a, T: Targets>(
    name: Option<&str>,
    text: &[u8],
    targets: &mut T,
) -> Result<(), ScannerFault<'a>>
    ensures { OnOk result (IsPlaced T.places (option_map (λ n. n.now) name.entry) text.now
        targets.old targets.new) }
{
    match name {
        Some(name) => {
            targets.place(name, text)?;
            Ok(())
        }
        None => Ok(()),
    }
}

/// Returns the answer to `--help` or `--version`.
pub(crate) fn answer_of(
    alloc: Global,
    answer: FlexAnswer,
    posix: bool,
) -> Result<Vec<u8>, AllocError>
    ensures { IfOk result (λ text. IsAnswer posix text.items) }
{
    match answer {
        FlexAnswer::Help => {
            let mut text = Vec::from_slice(alloc, if posix { LEX_HEAD } else { FLEX_HEAD })?;
            text.extend_from_slice(SCANNER_OPTIONS)?;
            Ok(text)
        }
        FlexAnswer::Version => {
            let mut text = Vec::from_slice(alloc, b"flex 2.6.4 compatible, by lx ")?;
            text.extend_from_slice(VERSION.as_bytes())?;
            text.push(b'\n')?;
            Ok(text)
        }
    }
}

// Returns the scanner as a text. Writes what `-v` asks for to `notes`.
fn scanner_text<'a, 's>(
    alloc: Global,
    made: &MadeScanner<'s>,
    options: PrintOptions<'s>,
    notes: &mut Vec<u8>,
) -> Result<Vec<u8>, ScannerFault<'a>>
    requires rules { IsMade (spec_view made.now.spec) made.now.cut_tables }
    requires tables { AreTablesOf (spec_view made.now.spec) made.now.tables }
    requires lists { FindsLists (spec_view made.now.spec) made.now.lists }
    ensures { IfOk result (λ text. IsScanner text.items) }
{
    if made.outline.declared.options.is_on(b"verbose") {
        push_summary(notes, made)?;
    }
    let tables = ScannerTables {
        tables: &made.tables,
        cut_tables: made.cut_tables.as_ref(),
        lists: made.lists.as_ref(),
    };
    Ok(scanner_of(alloc, &made.outline, tables, options)?)
}

/// The texts that are written. The last is empty if it isn't asked for.
#[derive(Drop)]
struct WrittenTexts {
    scanner: Vec<u8>,
    header: Vec<u8>,
    backup: Vec<u8>,
}

// Returns the texts to be written to files of these names.
fn written_texts<'a, 's>(
    alloc: Global,
    made: &MadeScanner<'s>,
    sources: &'s [SourceName<'s>],
    names: WrittenNames<'s>,
    macros: &'s [&'s str],
    notes: &mut Vec<u8>,
) -> Result<WrittenTexts, ScannerFault<'a>>
    requires rules { IsMade (spec_view made.now.spec) made.now.cut_tables }
    requires tables { AreTablesOf (spec_view made.now.spec) made.now.tables }
    requires lists { FindsLists (spec_view made.now.spec) made.now.lists }
    ensures { IfOk result (λ texts. IsScanner texts.scanner.items) }
{
    let asked = asked_form(&made.outline.declared.options);
    let options = PrintOptions {
        sources,
        printed: names.scanner.unwrap_or("<stdout>").as_bytes(),
        macros,
        form: form_of(made.lists.is_some(), asked, &made.tables),
    };
    Ok(WrittenTexts {
        scanner: scanner_text(alloc, made, options, notes)?,
        header: header_of(alloc, &made.outline, options)?,
        backup: match names.backup {
            Some(_) => backup_of(alloc, &made.tables)?,
            None => Vec::new(alloc),
        },
    })
}

// Writes the scanner, and its header and the report on backing up if they have names.
fn write_outputs<'a, T: Targets, O: Write>(
    names: WrittenNames<'_>,
    texts: &WrittenTexts,
    targets: &mut T,
    out: &mut O,
) -> Result<(), ScannerFault<'a>>
    requires { IsScanner texts.now.scanner.items }
    ensures { OnOk result (IsScannerPrinted T.places targets.old targets.new
        (O.contents out.old) (O.contents out.new)) }
{
    write_or_place(names.scanner, &texts.scanner, targets, out)?;
    place_named(names.header, &texts.header, targets)?;
    place_named(names.backup, &texts.backup, targets)
}

/// Words of the command line about outputs, and the files that these may not be.
#[derive(Clone, Copy)]
struct OutputWords<'w, 'a> {
    files: &'w [&'a str],
    macros: &'w [&'w str],
    header: bool,
}

// Makes the scanner of a file. Writes its faults and warnings to `notes`.
fn made_with_notes<'a, 's>(
    alloc: Global,
    file: FlexFile<'s>,
    reports: Reports,
    source: NamedText<'s>,
    notes: &mut Vec<u8>,
) -> Result<MadeScanner<'s>, ScannerFault<'a>>
    ensures rules { IfOk result (λ made. IsMade (spec_view made.spec) made.cut_tables) }
    ensures tables { IfOk result (λ made. AreTablesOf (spec_view made.spec) made.tables) }
    ensures lists { IfOk result (λ made. FindsLists (spec_view made.spec) made.lists) }
{
    let mut reports = reports;
    let made = made_of(alloc, file, &mut reports);
    push_reports(alloc, notes, source, &reports, false)?;
    made
}

// Prints the scanner of a file and its header. Writes its faults and warnings to `notes`.
fn print_file<'a, 's, T: Targets, O: Write>(
    alloc: Global,
    file: FlexFile<'s>,
    reports: Reports,
    source: NamedText<'s>,
    words: OutputWords<'s, 'a>,
    targets: &mut T,
    notes: &mut Vec<u8>,
    out: &mut O,
) -> Result<(), ScannerFault<'a>>
    ensures { OnOk result (IsScannerPrinted T.places targets.old targets.new
        (O.contents out.old) (O.contents out.new)) }
{
    let written = output_names(alloc, &file.declared.options, words.header)?;
    let names = names_of(&written)?;
    judge_outputs(targets, names, words.files)?;
    let made = made_with_notes(alloc, file, reports, source, notes)?;
    let texts = written_texts(alloc, &made, source.names, names, words.macros, notes)?;
    write_outputs(names, &texts, targets, out)
}

// Does what the words ask for.
fn make_scanner<'a, S: Sources, T: Targets, O: Write>(
    alloc: Global,
    words: ScannerWords<'a>,
    sources: &mut S,
    targets: &mut T,
    notes: &mut Vec<u8>,
    out: &mut O,
) -> Result<(), ScannerFault<'a>>
    ensures { OnOk result (IsOutcome T.places words.entry.posix targets.old targets.new (O.contents out.old)
        (O.contents out.new)) }
{
    let FlexCommand {
        options,
        files,
        macros,
        header,
        told,
    } = read_command(alloc, words.words, words.posix || sources.is_posix())?;
    if let Some(answer) = told {
        let text = answer_of(alloc, answer, words.posix)?;
        return write_all(out, text.as_slice());
    }
    let whole = read_whole_text(alloc, sources, files.as_slice())?;
    let names = source_names(alloc, &whole)?;
    let source = NamedText {
        text: whole.text.as_slice(),
        names: names.as_slice(),
    };
    let (file, reports) = read_file(alloc, source.text, options)?;
    let Some(file) = file else {
        push_reports(alloc, notes, source, &reports, false)?;
        return Err(ScannerFault::Faults);
    };
    let words = OutputWords {
        files: files.as_slice(),
        macros: macros.as_slice(),
        header,
    };
    print_file(alloc, file, reports, source, words, targets, notes, out)
}

/// Reports why no scanner was printed.
pub(crate) fn report<S: Sources, T: Targets, E: Write>(
    fault: &ScannerFault<'_>,
    notes: &[u8],
    sources: &S,
    targets: &T,
    err: &mut E,
) {
    // without memory, notes may be cut short
    if !matches!(fault, ScannerFault::Memory) {
        let _ = err.write_all(notes);
    }
    let _ = writeln!(err, "lx: {fault}");
    match fault {
        ScannerFault::NotRead(_) => {
            if let Some(reason) = sources.reason() {
                let _ = writeln!(err, "lx: {reason}");
            }
        }
        ScannerFault::Automaton(fault) => tell_size(*fault, err),
        ScannerFault::Output => targets.print_fault(err),
        _ => {}
    }
}

/// Prints the scanner in C that the words of `lex` or `flex` ask for: to the file that they name, or with `-t` to `out`. Returns the exit status:
/// - 0: the scanner was printed, whole, or the help or the version;
/// - 1: the file has faults, which are reported, or its automaton is too large;
/// - 2: the command line was rejected;
/// - 3: a file can't be read;
/// - 4: the output failed;
/// - 5: memory is exhausted.
pub(crate) fn print_scanner<S: Sources, T: Targets, O: Write + Output, E: Write>(
    alloc: Global,
    words: ScannerWords<'_>,
    sources: &mut S,
    targets: &mut T,
    out: &mut O,
    err: &mut E,
) -> u8
    ensures known { result ≤ 5 }
    ensures done { result ≡ 0 → IsDone T.places words.entry.posix targets.old targets.new (O.contents out.old)
        (O.contents out.new) }
    // Nothing is still buffered in the program.
    ensures sent { result ≡ 0 → O.sent out.new }
{
    let mut notes = Vec::new(alloc);
    let made = make_scanner(alloc, words, sources, targets, &mut notes, out);
    match made {
        Ok(()) => {
            let _ = err.write_all(notes.as_slice());
            if out.send().is_err() {
                let _ = writeln!(err, "lx: cannot write");
                return 4;
            }
            0
        }
        Err(fault) => {
            report(&fault, notes.as_slice(), sources, targets, err);
            fault.status()
        }
    }
}
