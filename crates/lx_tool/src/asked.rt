//! Listings that the command line asks for.

ghost use Rattle.std.specs.Prelude.{◌≡◌, ◌<◌, ◌≤◌, ◌⊎◌, IfOk, IfErr, None, OnOk, Some, true, if◌then◌else◌, length, map, nat_lt, option_map, vec_len};
ghost use Rattle.std.specs.Io.KnownBytes.{Keeps};
ghost use Rattle.lx_piece.specs.Plans.{max_files};
ghost use Rattle.lx_forms.specs.Views.{form_view};
ghost use Rattle.lx_cli.specs.CommandLine.{plain_form, plain_list, plain_order};
ghost use Rattle.lx_tool.specs.Commands.{AreListedAs, AreWordsRefused};
ghost use Rattle.lx_tool.specs.Given.{IsUnread, ListsGiven};
ghost use Rattle.lx_tool.specs.Names.{name_bytes};
ghost use Rattle.lx_tool.specs.Naming.{AreFileNames, AreJudged, AreListNames, AreNamesRefused, AreNamesUnread, IsFormatFault, IsKnownFormat, IsListingRefused, IsListRefused, IsOnly, IsOnlyRefused, format_by, input_count, input_uses, inputs_among, list_input};
ghost use Rattle.lx_tool.specs.Planning.{ListsIn};
ghost use Rattle.lx_tool.specs.Sources.{texts_of};
ghost use Rattle.lx_tool.specs.Statuses.{HidesNoMemory, status_of};
ghost use Rattle.lx_tool.specs.Streaming.{HasStopped, HasStoppedFor};

use crate::failure::{CommandFault, RequestFault};
use crate::given::{read_given, read_name_list};
use crate::names::bytes_of_names;
use crate::planning::list_files_in;
use crate::session::Session;
use crate::source::{STANDARD_INPUT, Sources};
use crate::streaming::stream_files_in;
use crate::suggesting::note_kinds;
use lx_cli::{ALONE, FormWords, ListRequest, ListWords};
use lx_forms::{ChoiceFault, Form, Format, NameListFault, Selection, choose, push_names};
use lx_piece::MAX_FILES;
use lx_tables::Tables;
use std::alloc::{AllocError, Global};
use std::io::Write;
use std::sync::Wait;
use std::thread::Threads;

// One more than the greatest number of a file.
const NUMBERS: u64 = 4_294_967_296;

// Returns 1 for the name of standard input, otherwise 0.
fn input(name: &str) -> usize
    ensures value { result ≡ input_count name.now }
    ensures few { result ≤ 1 }
{
    if name == STANDARD_INPUT { 1 } else { 0 }
}

// Counts the names of standard input.
fn inputs_among(names: &[&str]) -> usize
    ensures count { result ≡ inputs_among (texts_of names.now) }
    ensures few { result ≤ length names.now }
{
    let mut count = 0;
    for name in names {
        count += input(name);
    }
    count
}

// Returns 1 if the list of files is standard input, otherwise 0.
fn list_input(order: &ListRequest<'_>) -> usize
    ensures value { result ≡ list_input (plain_order order.now) }
    ensures few { result ≤ 1 }
{
    match order.list {
        Some(list) => input(list.name),
        None => 0,
    }
}

// Returns true if standard input is named twice: by these files, the specification or the tables, and the list of files.
fn is_input_twice(order: &ListRequest<'_>, names: &[&str]) -> bool
    requires { length names.now ≤ max_files }
    ensures twice { result ≡ nat_lt 1 (input_uses (plain_order order.now) (texts_of names.now)) }
{
    input(order.rules) + list_input(order) + inputs_among(names) > 1
}

// Rejects an unknown format.
fn judge_format<'a>(words: &FormWords<'a>) -> Result<(), RequestFault<'a>>
    ensures ok { OnOk result (IsKnownFormat (plain_form words.now).format) }
    ensures err { IfErr result (IsFormatFault (plain_form words.now)) }
{
    match words.format {
        Some(word) if word != "json" && word != "text" => Err(RequestFault::NoFormat(word)),
        _ => Ok(()),
    }
}

/// Rejects arguments that ask for too many files, for none, for standard input twice, for streams on several threads, or for an unknown format.
pub(crate) fn judge_words<'a>(order: &ListRequest<'a>) -> Result<(), CommandFault<'a>>
    ensures ok { OnOk result (length order.now.files.items ≤ max_files) }
    ensures format { OnOk result (IsKnownFormat (plain_order order.now).form.format) }
    ensures err { IfErr result (λ failure. AreWordsRefused (plain_order order.now) failure) }
{
    if order.files.len() > MAX_FILES {
        return Err(CommandFault::TooManyFiles);
    }
    if order.files.is_empty() && order.list.is_none() {
        return Err(CommandFault::Refused(RequestFault::NoFile));
    }
    if is_input_twice(order, &order.files) {
        return Err(CommandFault::InputTwice);
    }
    if order.stream && order.workers > ALONE {
        return Err(CommandFault::Refused(RequestFault::StreamWorkers));
    }
    match judge_format(&order.form) {
        Ok(()) => Ok(()),
        Err(fault) => Err(CommandFault::Refused(fault)),
    }
}

// Rejects an empty list of names, standard input named twice, and numbers that are too large.
fn judge_names<'a>(order: &ListRequest<'a>, names: &[&str]) -> Result<(), CommandFault<'a>>
    requires few { length names.now ≤ max_files }
    requires format { IsKnownFormat (plain_order order.now).form.format }
    ensures ok { OnOk result (AreJudged (plain_order order.now) (texts_of names.now)) }
    ensures err { IfErr result (AreNamesRefused (plain_order order.now) (texts_of names.now)) }
{
    if names.is_empty() {
        return Err(CommandFault::Refused(RequestFault::NoFile));
    }
    if is_input_twice(order, names) {
        return Err(CommandFault::InputTwice);
    }
    if u64::from(order.form.first) + names.len() as u64 > NUMBERS {
        return Err(CommandFault::Refused(RequestFault::NumberTooLarge));
    }
    Ok(())
}

// Appends the names in the list of files to those of the arguments. Keeps its text in `text`.
fn push_listed<'a, S: Sources>(
    alloc: Global,
    names: &mut Vec<&'a str>,
    list: ListWords<'a>,
    sources: &mut S,
    text: &'a mut Vec<u8>,
) -> Result<(), CommandFault<'a>>
    requires { vec_len names.old ≤ max_files }
    ensures ok { OnOk result (AreListNames S.gives (plain_list list.entry)
        (texts_of names.old.items) sources.old sources.new (texts_of names.new.items)) }
    ensures few { OnOk result (vec_len names.new ≤ max_files) }
    ensures err { IfErr result
        (IsListRefused S.gives (plain_list list.entry) (texts_of names.old.items) sources.old) }
{
    let most = MAX_FILES - names.len();
    *text = read_name_list(alloc, sources, list.name, list.separator, most)?;
    match push_names(names, text, list.separator, MAX_FILES) {
        Ok(()) => Ok(()),
        Err(NameListFault::NoName(line)) => Err(CommandFault::Refused(RequestFault::NoName {
            line,
            list: list.name,
        })),
        Err(NameListFault::TooMany) => Err(CommandFault::TooManyFiles),
        Err(NameListFault::Memory) => Err(CommandFault::Memory),
    }
}

// Returns the names of the files: those of the arguments, then those in the list of files.
fn names_of<'a, S: Sources>(
    alloc: Global,
    order: &ListRequest<'a>,
    sources: &mut S,
    text: &'a mut Vec<u8>,
) -> Result<Vec<&'a str>, CommandFault<'a>>
    requires { length order.now.files.items ≤ max_files }
    ensures ok { IfOk result (λ names.
        AreFileNames S.gives (plain_order order.now) sources.old sources.new
        (texts_of names.items)) }
    ensures few { IfOk result (λ names. vec_len names ≤ max_files) }
    ensures err { IfErr result (AreNamesUnread S.gives (plain_order order.now) sources.old) }
{
    let mut names = Vec::from_slice(alloc, &order.files)?;
    if let Some(list) = order.list {
        push_listed(alloc, &mut names, list, sources, text)?;
    }
    Ok(names)
}

// Returns the selection that `--only` asks for. If it has an unknown kind, writes the known ones to `notes`.
fn selection_of<'a>(
    alloc: Global,
    tables: &Tables,
    only: Option<&'a str>,
    notes: &mut Vec<u8>,
) -> Result<Option<Selection>, CommandFault<'a>>
    ensures ok { IfOk result
        (λ selection. IsOnly tables.now (option_map (λ text. text.now) only.entry) selection) }
    ensures err { IfErr result
        (IsOnlyRefused tables.now (option_map (λ text. text.now) only.entry)) }
{
    let Some(text) = only else {
        return Ok(None);
    };
    match choose(alloc, tables, text) {
        Ok(selection) => Ok(Some(selection)),
        Err(fault) => {
            if let ChoiceFault::NoKind(word) = fault {
                note_kinds(notes, tables, word);
            }
            Err(CommandFault::from(fault))
        }
    }
}

fn format_of(words: &FormWords<'_>) -> Format
    ensures { result ≡ format_by (plain_form words.now).format }
{
    match words.format {
        Some(word) if word == "json" => Format::Json,
        _ => Format::Lines,
    }
}

// Returns the names of the files, of any bytes, if they are printed.
fn names_asked(
    alloc: Global,
    words: &FormWords<'_>,
    names: &[&str],
) -> Result<Vec<Vec<u8>>, AllocError>
    ensures { IfOk result (λ bytes.
        (if words.now.names then Some (map (λ name. name.items) bytes.items) else None)
        ≡ (if words.now.names then Some (map name_bytes (texts_of names.now)) else None)) }
{
    if words.names {
        bytes_of_names(alloc, names)
    } else {
        Ok(Vec::new(alloc))
    }
}

// Returns the form that the arguments ask for.
fn form_of<'f>(words: &FormWords<'_>, names: &'f [Vec<u8>], only: Option<Selection>) -> Form<'f>
    ensures { form_view result ≡ record
        { first = words.now.first; names = if words.now.names then Some (map (λ name. name.items) names.now) else None; only = only; text = words.now.text; format = format_by (plain_form words.now).format } }
{
    Form {
        first: words.first,
        names: if words.names { Some(names) } else { None },
        only,
        text: words.text,
        format: format_of(words),
    }
}

// Lists the files with these names by the tables, in a form. Reads all of them before it writes the first line. Returns the names of those that were
// cut short.
fn list_read<'a, R: Threads + Wait + Sync, S: Sources, O: Write>(
    session: &Session<'_, R>,
    tables: Tables,
    order: &ListRequest<'a>,
    names: &[&'a str],
    form: &Form<'_>,
    sources: &mut S,
    out: &mut O,
) -> Result<Vec<&'a str>, CommandFault<'a>>
    requires some { 0 < length names.now }
    requires few { length names.now ≤ max_files }
    ensures ok { IfOk result (λ cut.
        ListsGiven S.gives (ListsIn (form_view form.now) tables) (texts_of names.now)
        sources.old sources.new (O.contents out.old) (O.contents out.new)
        (texts_of cut.items)) }
    ensures err { IfErr result (λ failure. status_of failure < 4
        → IsUnread (texts_of names.now) failure
        × Keeps (O.contents out.old) (O.contents out.new)) }
{
    let given = read_given(session.alloc, sources, names)?;
    list_files_in(
        session.rt,
        session.alloc,
        tables,
        given.files,
        order.per_piece,
        order.workers,
        form,
        session.writes,
        out,
    )?;
    Ok(given.cut)
}

// Lists them while they are read, with `--stream`, or once all are read.
fn list_or_stream<'a, R: Threads + Wait + Sync, S: Sources, O: Write>(
    session: &Session<'_, R>,
    tables: Tables,
    order: &ListRequest<'a>,
    names: &[&'a str],
    form: &Form<'_>,
    sources: &mut S,
    out: &mut O,
) -> Result<Vec<&'a str>, CommandFault<'a>>
    requires some { 0 < length names.now }
    requires few { length names.now ≤ max_files }
    ensures ok { IfOk result (λ cut.
        ListsGiven S.gives (ListsIn (form_view form.now) tables) (texts_of names.now)
        sources.old sources.new (O.contents out.old) (O.contents out.new)
        (texts_of cut.items)) }
    ensures err { IfErr result (λ failure. status_of failure < 4
        → (IsUnread (texts_of names.now) failure
        × Keeps (O.contents out.old) (O.contents out.new))
        ⊎ ((order.now.stream ≡ true)
        × HasStoppedFor S.gives (λ inputs. ListsIn (form_view form.now) tables inputs
        (O.contents out.old) (O.contents out.new)) (texts_of names.now) sources.old failure)) }
{
    if order.stream {
        stream_files_in(
            session.alloc,
            tables,
            names,
            form,
            sources,
            session.writes,
            out,
        )
    } else {
        list_read(session, tables, order, names, form, sources, out)
    }
}

/// Lists the files that the arguments and the list of files name, by the tables, in the form that the arguments ask for. Reads all files before it
/// writes the first line, except with `--stream`. Keeps the text of the list of files in `text`. Returns the names of the files that were cut short.
pub(crate) fn list_asked<'a, R: Threads + Wait + Sync, S: Sources, O: Write>(
    session: &Session<'_, R>,
    tables: Tables,
    order: &ListRequest<'a>,
    sources: &mut S,
    text: &'a mut Vec<u8>,
    notes: &mut Vec<u8>,
    out: &mut O,
) -> Result<Vec<&'a str>, CommandFault<'a>>
    requires few { length order.now.files.items ≤ max_files }
    requires format { IsKnownFormat (plain_order order.now).form.format }
    ensures ok { IfOk result (λ cut.
        AreListedAs S.gives (plain_order order.now) tables sources.old sources.new
        (O.contents out.old) (O.contents out.new) (texts_of cut.items)) }
    ensures err { IfErr result (λ failure.
        status_of failure < 4
        → (IsListingRefused S.gives (plain_order order.now) tables sources.old failure
        × HidesNoMemory failure × Keeps (O.contents out.old) (O.contents out.new))
        ⊎ HasStopped S.gives (plain_order order.now) tables sources.old
        (O.contents out.old) (O.contents out.new) failure) }
{
    let alloc = session.alloc;
    let only = selection_of(alloc, &tables, order.form.only, notes)?;
    let names = names_of(alloc, order, sources, text)?;
    judge_names(order, &names)?;
    let shown = names_asked(alloc, &order.form, &names)?;
    let form = form_of(&order.form, &shown, only);
    list_or_stream(session, tables, order, &names, &form, sources, out)
}
