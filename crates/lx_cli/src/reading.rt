//! Reads command-line arguments as a request.

ghost use Rattle.std.specs.Prelude.{◌≡◌, ◌≢◌, ◌≤◌, ◌<◌, IfOk, Ok, Err, None, codes, length, map, true, is_some, option_and_then, option_map};
ghost use Rattle.clap.specs.Words.{first_of, found_of, kind_of, rows_of, subcommand_rows_of};
ghost use Rattle.lx_piece.specs.Plans.{max_items, max_workers};
ghost use Rattle.lx_cli.specs.Limits.{most_told};
ghost use Rattle.lx_cli.specs.CommandLine.{IsFault, IsTold, PlainWordsAsk, asked_as, asked_by, asked_of, c_in, check_in, first_in, flag_in, form_in, further_of, import_in, items_in, list_in, most_in, request_in, plain_c, plain_check, plain_form, plain_import, plain_list, plain_order, plain_print, plain_show, print_in, rules_in, show_in, target_in, values_in, workers_in, words_of};

use crate::app::command;
use crate::request::{
    ALONE, CWords, CheckWords, FormWords, ITEMS, ImportWords, ListRequest, ListWords, MOST_TOLD,
    PrintWords, Request, ShowWords, TOLD, WordsFault,
};
use clap::error::ErrorKind;
use clap::{ArgMatches, Error};
use lx_piece::{MAX_ITEMS, MAX_WORKERS};
use std::alloc::{AllocError, Global};

// Default number of workers of `scan`.
const WORKERS: u8 = 4;

/// Returns the request of the arguments. The first argument is the program's name.
pub fn read_words(alloc: Global, words: &[String]) -> Result<Request<'_>, WordsFault>
    ensures asked { IfOk result (λ request. asked_by (words_of words.now) ≡ asked_as request) }
    ensures refused { (text : Error) → result ≡ Err (WordsFault.Words text)
        → asked_by (words_of words.now) ≡ None }
    // The help and the version are answers of `clap`. All other errors reject the arguments.
    ensures told { (text : Error) → result ≡ Ok (Request.Told text)
        → IsTold (kind_of text) × IsFault (words_of words.now) (kind_of text) }
    ensures faulty { (text : Error) → result ≡ Err (WordsFault.Words text)
        → (kind_of text ≢ ErrorKind.DisplayHelp) × (kind_of text ≢ ErrorKind.DisplayVersion)
        × IsFault (words_of words.now) (kind_of text) }
    ensures stored { length words.now ≤ 1 → result ≡ Ok Request.Stored }
    // A failed allocation is no fault of the arguments.
    ensures words { (text : Error) → result ≡ Err (WordsFault.Words text)
        → kind_of text ≢ ErrorKind.OutOfMemory }
{
    if words.len() <= 1 {
        return Ok(Request::Stored);
    }
    let command = command(alloc)?;
    match command.try_get_matches_from(words) {
        Ok(matches) => Ok(request_of(alloc, &matches)?),
        Err(error) => match error.kind() {
            ErrorKind::DisplayHelp | ErrorKind::DisplayVersion => Ok(Request::Told(error)),
            ErrorKind::OutOfMemory => Err(WordsFault::Memory),
            _ => Err(WordsFault::Words(error)),
        },
    }
}

// Returns the request of the matches, which have one of the command's subcommands.
fn request_of<'a>(alloc: Global, matches: &ArgMatches<'a>) -> Result<Request<'a>, AllocError>
    requires { is_some (option_and_then asked_of (subcommand_rows_of matches.now)) ≡ true }
    ensures { IfOk result
        (λ request. option_and_then asked_of (subcommand_rows_of matches.now) ≡ asked_as request) }
{
    match matches.subcommand() {
        Some((name, found)) => named_request_of(alloc, name, found),
        None => unreachable!(),
    }
}

// Returns the request of the subcommand with this name.
fn named_request_of<'a>(
    alloc: Global,
    name: &str,
    found: &ArgMatches<'a>,
) -> Result<Request<'a>, AllocError>
    requires { is_some (asked_of (name.now, rows_of (found_of found.now))) ≡ true }
    ensures { IfOk result
        (λ request. asked_of (name.now, rows_of (found_of found.now)) ≡ asked_as request) }
{
    match name {
        "gen" => Ok(Request::Gen(print_words_of(found, "SPEC"))),
        "up" => Ok(Request::Up(print_words_of(found, "TABLES"))),
        "scan" => Ok(Request::Scan(list_request_of(alloc, found, "TABLES", WORKERS)?)),
        "run" => Ok(Request::Run(list_request_of(alloc, found, "SPEC", ALONE)?)),
        _ => further_request_of(alloc, name, found),
    }
}

// Returns the request of one of the further commands.
fn further_request_of<'a>(
    alloc: Global,
    name: &str,
    found: &ArgMatches<'a>,
) -> Result<Request<'a>, AllocError>
    requires { is_some (further_of (name.now, rows_of (found_of found.now))) ≡ true }
    ensures { IfOk result
        (λ request. further_of (name.now, rows_of (found_of found.now)) ≡ asked_as request) }
{
    match name {
        "check" => Ok(Request::Check(check_words_of(alloc, found)?)),
        "explain" => Ok(Request::Explain(value_of(found, "WORD"))),
        "show" => Ok(Request::Show(show_words_of(found))),
        _ => Ok(Request::Import(import_words_of(found))),
    }
}

fn check_words_of<'a>(alloc: Global, found: &ArgMatches<'a>) -> Result<CheckWords<'a>, AllocError>
    ensures { IfOk result (λ words. plain_check words ≡ check_in (rows_of (found_of found.now))) }
{
    Ok(CheckWords {
        rules: rules_of(found, "SPEC"),
        quiet: has_flag(found, "quiet"),
        warnings: values_of(alloc, found, "warnings")?,
        most: most_of(found),
        json: has_flag(found, "json"),
        flex: has_flag(found, "flex"),
    })
}

fn show_words_of<'a>(found: &ArgMatches<'a>) -> ShowWords<'a>
    ensures { plain_show result ≡ show_in (rows_of (found_of found.now)) }
{
    ShowWords {
        rules: rules_of(found, "RULES"),
        all: has_flag(found, "all"),
    }
}

fn import_words_of<'a>(found: &ArgMatches<'a>) -> ImportWords<'a>
    ensures { plain_import result ≡ import_in (rows_of (found_of found.now)) }
{
    ImportWords {
        rules: rules_of(found, "FLEX"),
        target: target_of(found),
        actions: value_of(found, "actions"),
        prefix: value_of(found, "prefix"),
        lossy: has_flag(found, "lossy"),
    }
}

// Reads the input and the output of `gen` or `up`.
fn print_words_of<'a>(found: &ArgMatches<'a>, rules: &str) -> PrintWords<'a>
    ensures { plain_print result ≡ print_in rules.now (rows_of (found_of found.now)) }
{
    PrintWords {
        rules: rules_of(found, rules),
        target: target_of(found),
        c: c_words_of(found),
    }
}

// Reads the options for a C scanner.
fn c_words_of<'a>(found: &ArgMatches<'a>) -> CWords<'a>
    ensures { plain_c result ≡ c_in (rows_of (found_of found.now)) }
{
    CWords {
        scanner: has_flag(found, "c"),
        header: has_flag(found, "header"),
        prefix: value_of(found, "prefix"),
        include: value_of(found, "include"),
        direct: has_flag(found, "direct"),
    }
}

// Reads a listing request. `workers` is the default of `-j`, except with `--stream`.
fn list_request_of<'a>(
    alloc: Global,
    found: &ArgMatches<'a>,
    rules: &str,
    workers: u8,
) -> Result<ListRequest<'a>, AllocError>
    requires { workers ≤ max_workers }
    ensures { IfOk result (λ request.
        plain_order request ≡ request_in rules.now workers (rows_of (found_of found.now))) }
{
    let stream = has_flag(found, "stream");
    let workers = if stream { ALONE } else { workers };
    Ok(ListRequest {
        workers: workers_of(found, workers),
        per_piece: items_of(found),
        stream,
        rules: rules_of(found, rules),
        files: values_of(alloc, found, "FILE")?,
        list: list_of(found),
        form: form_of(found),
    })
}

// Returns the value of an option, if it is given.
fn value_of<'a>(found: &ArgMatches<'a>, id: &str) -> Option<&'a str>
    ensures { option_map (λ value. value.now) result
        ≡ first_of id.now (rows_of (found_of found.now)) }
{
    found.get_str(id)
}

// Returns the file of `-o`. Returns `None` for `-`, which is standard output.
fn target_of<'a>(found: &ArgMatches<'a>) -> Option<&'a str>
    ensures { option_map (λ name. name.now) result ≡ target_in (rows_of (found_of found.now)) }
{
    match value_of(found, "target") {
        Some(name) if name != "-" => Some(name),
        _ => None,
    }
}

// Returns true if a flag is given.
fn has_flag(found: &ArgMatches<'_>, id: &str) -> bool
    ensures { result ≡ flag_in id.now (rows_of (found_of found.now)) }
{
    match value_of(found, id) {
        Some(value) => value == "true",
        None => false,
    }
}

// Returns the file of `--files-from`, which names further files.
fn list_of<'a>(found: &ArgMatches<'a>) -> Option<ListWords<'a>>
    ensures { option_map plain_list result ≡ list_in (rows_of (found_of found.now)) }
{
    let name = value_of(found, "list")?;
    let separator = if has_flag(found, "zeros") { 0 } else { b'\n' };
    Some(ListWords { name, separator })
}

// Returns the number of the first file.
fn first_number_of(found: &ArgMatches<'_>) -> u32
    ensures { result ≡ first_in (rows_of (found_of found.now)) }
{
    match found.get_one::<u32>("first") {
        Some(first) => first,
        None => 0,
    }
}

// Reads the form of the listing.
fn form_of<'a>(found: &ArgMatches<'a>) -> FormWords<'a>
    ensures { plain_form result ≡ form_in (rows_of (found_of found.now)) }
{
    FormWords {
        first: first_number_of(found),
        names: has_flag(found, "names"),
        only: value_of(found, "only"),
        text: !has_flag(found, "no-text"),
        format: value_of(found, "format"),
    }
}

fn rules_of<'a>(found: &ArgMatches<'a>, id: &str) -> &'a str
    ensures { result.now ≡ rules_in id.now (rows_of (found_of found.now)) }
{
    found.get_str(id).unwrap_or("")
}

// Returns all values of an argument, in order.
fn values_of<'a>(
    alloc: Global,
    found: &ArgMatches<'a>,
    id: &str,
) -> Result<Vec<&'a str>, AllocError>
    ensures { IfOk result (λ values.
        map (λ value. value.now) values.items
        ≡ values_in id.now (rows_of (found_of found.now))) }
{
    match found.get_strs(id) {
        Some(names) => Vec::from_slice(alloc, names),
        None => Ok(Vec::new(alloc)),
    }
}

// Returns the number of items of a piece.
fn items_of(found: &ArgMatches<'_>) -> u32
    ensures items { result ≡ items_in (rows_of (found_of found.now)) }
    ensures some { 0 < result }
    ensures few { result ≤ max_items }
{
    match found.get_one::<u32>("items") {
        Some(items) if 0 < items && items <= MAX_ITEMS => items,
        _ => ITEMS,
    }
}

// Returns the greatest number of errors to report.
fn most_of(found: &ArgMatches<'_>) -> u8
    ensures most { result ≡ most_in (rows_of (found_of found.now)) }
    ensures some { 0 < result }
    ensures few { result ≤ most_told }
{
    match found.get_one::<u8>("most") {
        Some(most) if 0 < most && most <= MOST_TOLD => most,
        _ => TOLD,
    }
}

// Returns the number of workers that scan the files.
fn workers_of(found: &ArgMatches<'_>, default: u8) -> u8
    requires { default ≤ max_workers }
    ensures workers { result ≡ workers_in default (rows_of (found_of found.now)) }
    ensures few { result ≤ max_workers }
{
    match found.get_one::<u8>("workers") {
        Some(workers) if 0 < workers && workers <= MAX_WORKERS => workers,
        _ => default,
    }
}

/// States a law: `gen`, `up`, `run` and `scan` ask for what their arguments say, if none of these begins with a hyphen, except for `-b` and `-j`.
pub fn plain_words_ask()
    ensures { PlainWordsAsk }
{}
