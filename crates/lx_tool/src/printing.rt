//! The output of `gen` and `up`: tables in version 2, or a scanner in C.

ghost use Rattle.std.specs.Prelude.{◌≡◌, ◌<◌, ◌⊎◌, None, IfOk, IfErr, IsTrue, OnOk, codes, map, option_map, unwrap_or};
ghost use Rattle.std.specs.Io.KnownBytes.{Keeps};
ghost use Rattle.lx_c.specs.Options.{named};
ghost use Rattle.lx_rules.specs.views.Rules.{names_view};
ghost use Rattle.lx_rules.specs.views.Specs.{spec_view};
ghost use Rattle.lx_cli.specs.CommandLine.{plain_c, plain_print};
ghost use Rattle.lx_tables.specs.Output.{Wrote};
ghost use Rattle.lx_tool.specs.Commands.{IsPlacingFault};
ghost use Rattle.lx_tool.specs.Printing.{AreKindsRefused, AreScannerWordsRefused, FailsPrinting, IsToldAs, PlacesTables, WritesTables, are_scanner_words, condition_names, is_in_c, kind_named, kinds_fault, options_by, printed_text};
ghost use Rattle.lx_tool.specs.Statuses.{status_of};

use crate::failure::{CommandFault, PrintFault, RequestFault};
use crate::output::write_text;
use crate::target::Targets;
use lx_c::{KindFault, Options, header_of, judge, scanner_of};
use lx_cli::{CWords, PrintWords};
use lx_rules::{Condition, Spec};
use lx_tables::Tables;
use std::alloc::{AllocError, Global};
use std::io::Write;

// Default prefix of a scanner's names.
const PREFIX: &str = "lx";

fn is_in_c(words: &CWords<'_>) -> bool
    ensures { result ≡ is_in_c (plain_c words.now) }
{
    words.scanner || words.header
}

fn bytes_of(alloc: Global, word: Option<&str>) -> Result<Option<Vec<u8>>, AllocError>
    ensures { IfOk result
        (λ bytes. option_map (λ b. b.items) bytes ≡ option_map (λ w. w.now) word.entry) }
{
    match word {
        Some(word) => Ok(Some(Vec::from_slice(alloc, word.as_bytes())?)),
        None => Ok(None),
    }
}

/// Returns the prefix of a scanner's names.
pub(crate) fn prefix_of<'a>(words: &CWords<'a>) -> &'a str
    ensures { result.now ≡ unwrap_or (option_map (λ word. word.now) words.now.prefix) (codes "lx") }
{
    match words.prefix {
        Some(prefix) => prefix,
        None => PREFIX,
    }
}

// Returns the options of a C scanner, without the names of its conditions.
fn options_of<'a>(alloc: Global, words: &CWords<'a>) -> Result<Options, CommandFault<'a>>
    ensures ok { IfOk result (λ options. options ≡ options_by (plain_c words.now)) }
    ensures err { IfErr result (AreScannerWordsRefused (plain_c words.now)) }
{
    let prefix = Vec::from_slice(alloc, prefix_of(words).as_bytes())?;
    let include = bytes_of(alloc, words.include)?;
    match Options::of(prefix, Vec::new(alloc), include) {
        Ok(options) => Ok(options.directly(words.direct)),
        Err(fault) => Err(CommandFault::Refused(RequestFault::Scanner(fault))),
    }
}

/// Checks the arguments for a C scanner. Returns its options, without the names of its conditions.
pub(crate) fn judge_scanner_words<'a>(
    alloc: Global,
    words: &CWords<'a>,
) -> Result<Options, CommandFault<'a>>
    ensures ok { IfOk result (λ options. options ≡ options_by (plain_c words.now)) }
    ensures asked { IfOk result (λ options. IsTrue (are_scanner_words (plain_c words.now))) }
    ensures err { IfErr result (AreScannerWordsRefused (plain_c words.now)) }
{
    if words.scanner && words.header {
        return Err(CommandFault::Refused(RequestFault::ScannerAndHeader));
    }
    if !is_in_c(words) && (words.prefix.is_some() || (words.include.is_some() || words.direct)) {
        return Err(CommandFault::Refused(RequestFault::NoScanner));
    }
    options_of(alloc, words)
}

/// Returns the names of conditions.
pub(crate) fn names_of(alloc: Global, conditions: &[Condition]) -> Result<Vec<Vec<u8>>, AllocError>
    ensures { IfOk result
        (λ names. names_view names.items ≡ map (λ condition. condition.name.items) conditions.now) }
{
    let mut names = Vec::new(alloc);
    for condition in conditions {
        names.push(Vec::from_slice(alloc, &condition.name)?)?;
    }
    Ok(names)
}

/// Returns the options of a C scanner that the arguments ask for, with the names of the specification's conditions.
pub(crate) fn named_options<'a>(
    alloc: Global,
    words: &CWords<'a>,
    spec: &Spec,
) -> Result<Options, CommandFault<'a>>
    ensures ok { IfOk result (λ options.
        options
        ≡ named (options_by (plain_c words.now)) (condition_names (spec_view spec.now))) }
    ensures err { IfErr result (AreScannerWordsRefused (plain_c words.now)) }
{
    let options = options_of(alloc, words)?;
    let names = names_of(alloc, &spec.conditions)?;
    Ok(options.named(names))
}

// Returns the name of the kind with a number.
fn kind_named(alloc: Global, tables: &Tables, number: u32) -> Result<Vec<u8>, AllocError>
    ensures { IfOk result (λ name. name.items ≡ kind_named tables.now number) }
{
    if number < tables.kinds() {
        Vec::from_slice(alloc, tables.kind(number))
    } else {
        Ok(Vec::new(alloc))
    }
}

// Converts the fault of kinds to the fault that is reported.
fn reported_fault(
    alloc: Global,
    tables: &Tables,
    fault: KindFault,
) -> Result<PrintFault, AllocError>
    ensures { IfOk result (IsToldAs tables.now fault) }
{
    match fault {
        KindFault::Numbers => Ok(PrintFault::Numbers),
        KindFault::Reserved(number) => Ok(PrintFault::Reserved(kind_named(alloc, tables, number)?)),
        KindFault::Declared(number) => Ok(PrintFault::Declared(kind_named(alloc, tables, number)?)),
        KindFault::States(states) => Ok(PrintFault::TooManyForCode(states)),
        KindFault::Memory => Err(AllocError),
    }
}

// Rejects tables with kinds that C doesn't allow, or with too many states for direct code, if a C scanner is printed.
fn judge_kinds<'a>(
    alloc: Global,
    words: &CWords<'_>,
    options: &Options,
    tables: &Tables,
) -> Result<(), CommandFault<'a>>
    ensures ok { OnOk result (kinds_fault (plain_c words.now) options.now tables.now ≡ None) }
    ensures err { IfErr result (λ failure.
        (failure ≡ CommandFault.Memory)
        ⊎ AreKindsRefused (plain_c words.now) options.now tables.now failure) }
{
    if !is_in_c(words) {
        return Ok(());
    }
    match judge(alloc, tables, options) {
        Ok(()) => Ok(()),
        Err(fault) => Err(CommandFault::Unprintable(reported_fault(alloc, tables, fault)?)),
    }
}

// Returns the text that the words ask for.
fn printed_text(
    alloc: Global,
    words: &CWords<'_>,
    options: &Options,
    tables: &Tables,
) -> Result<Vec<u8>, AllocError>
    ensures { IfOk result
        (λ text. text.items ≡ printed_text (plain_c words.now) options.now tables.now) }
{
    if words.scanner {
        return scanner_of(alloc, tables, options);
    }
    if words.header {
        return header_of(alloc, tables, options);
    }
    let mut text = Vec::new(alloc);
    // a list refuses a write only if memory is refused
    match tables.print(&mut text) {
        Ok(()) => Ok(text),
        Err(_) => Err(AllocError),
    }
}

fn write_printed<'a, O: Write>(text: &[u8], out: &mut O) -> Result<(), CommandFault<'a>>
    ensures ok { OnOk result (Wrote (O.contents out.old) (O.contents out.new) text.now) }
    ensures err { IfErr result (λ failure. failure ≡ CommandFault.Output) }
{
    write_text(text, out)
}

fn place_printed<'a, T: Targets>(
    target: &str,
    text: &[u8],
    targets: &mut T,
) -> Result<(), CommandFault<'a>>
    ensures ok { OnOk result (T.places targets.old target.now text.now targets.new) }
    ensures err { IfErr result IsPlacingFault }
{
    targets.place(target, text)?;
    Ok(())
}

/// Prints tables as requested, to the output or to a file.
pub(crate) fn print_asked<'a, T: Targets, O: Write>(
    alloc: Global,
    words: &PrintWords<'a>,
    options: &Options,
    tables: &Tables,
    targets: &mut T,
    out: &mut O,
) -> Result<(), CommandFault<'a>>
    ensures ok { OnOk result (WritesTables (plain_c words.now.c) options.now tables.now
        (plain_print words.now).target (O.contents out.old) (O.contents out.new)) }
    ensures placed { OnOk result (PlacesTables T.places (plain_c words.now.c) options.now tables.now
        (plain_print words.now).target targets.old targets.new) }
    ensures err { IfErr result (λ failure.
        status_of failure < 4 → FailsPrinting (plain_c words.now.c) options.now tables.now
        (plain_print words.now).target (O.contents out.old) (O.contents out.new)
        failure) }
{
    judge_kinds(alloc, &words.c, options, tables)?;
    let text = printed_text(alloc, &words.c, options, tables)?;
    match words.target {
        Some(target) => place_printed(target, &text, targets),
        None => write_printed(&text, out),
    }
}
