//! The program `lx`, without the real files and streams.

ghost use Rattle.std.specs.Prelude.{◌≡◌, ◌<◌, ◌≤◌, [], ◌∷◌, false, true, Some, None, Ok, Err, IfOk, IfErr, OnOk, IfSome, IsOk, length};
ghost use Rattle.std.specs.Io.KnownBytes.{Appends, Keeps};
ghost use Rattle.lx_cli.specs.CommandLine.{asked_as, asked_by, plain_order, plain_print, run as run-asked, scan as scan-asked, gen as gen-asked, up as up-asked, words_of};
ghost use Rattle.lx_tool.specs.Commands.{HasDone, HasEnded, HasFailed, HasFailedOrStopped, HasObeyed, HasPlaced, stored_specification, stored_text};
ghost use Rattle.lx_tool.specs.Helping.{AskForHelp};
ghost use Rattle.lx_tool.specs.Planning.{ListsByRules};
ghost use Rattle.lx_tool.specs.Scanners.{IsDone, IsReportWritten, asks_flex_check, is_for_flex, scanner_asked};
ghost use Rattle.lx_tool.specs.Sources.{texts_of, whole};
ghost use Rattle.lx_tool.specs.Statuses.{HasStatusOfCut, WroteReport, status_of};
ghost use Rattle.lx_tool.specs.Tabling.{HasNoTables};

use crate::asked::{judge_words, list_asked};
use crate::checking::check_named;
use crate::explaining::explain_named;
use crate::failure::{CommandFault, PrintFault, RequestFault};
use crate::given::read_whole;
use crate::importing::import_named;
use crate::noting::print_noted;
use crate::output::{Output, write_text};
use crate::outputs::judge_output;
use crate::planning::{list_files, listings_are_by_rules};
use crate::printing::{judge_scanner_words, named_options, print_asked};
use crate::remarks::{read_tables_named, specification_named, tables_named, tell_size};
use crate::scanner_check::{check_scanner, flex_check_words};
use crate::scanners::{print_scanner, scanner_words};
use crate::session::Session;
use crate::showing::show_named;
use crate::source::{Sources, make_input};
use crate::suggesting::{tell_formats, tell_warnings};
use crate::tabling::{tables_of_text, unjoined_tables_of};
use crate::target::{NoTargets, Targets};
use lx_c::MAX_DIRECT_STATES;
use lx_cli::{ALONE, ITEMS, ListRequest, PrintWords, Request, WordsFault, read_words};
use lx_listing::LineWrites;
use lx_piece::MAX_FILES;
use lx_scan::ruling::items_are_by_rules;
use std::alloc::Global;
use std::io;
use std::io::{Cursor, Write};
use std::sync::Wait;
use std::thread::Threads;

// Exit status if the arguments are rejected. Further lines on stderr follow then, and also if a specification or tables are rejected.
const WORDS_REFUSED: u8 = 2;

// Exit status if all was listed and a file was cut short.
const CUT_SHORT: u8 = 3;

// Greatest length of the system's text for a reason. The real texts are shorter.
const REASON_BYTES: usize = 256;

// Specification of the stored run, and its file.
static STORED_SPECIFICATION: &[u8] = b"%%\n[a-z]+ return ID;\n[0-9]+ return NUM;\n[ \\n]+ ;\n";

static STORED_TEXT: &[u8] = b"ab 12\n";

/// Runs the whole program. `words` are the command line, beginning with the program's name. Reads files from `sources`. Writes the listing, the
/// tables or the help to `out`, which is flushed, and errors to `err`, whose own faults change nothing. Each line of a listing is written separately.
/// No file is made: `-o` is rejected. Returns the exit status:
/// - 0: all was done;
/// - 1: the specification or the tables were rejected, or the specification is too large for an automaton;
/// - 2: the command line was rejected;
/// - 3: a file can't be read, or all was listed and a file was cut short;
/// - 4: the output failed;
/// - 5: memory is exhausted.
pub fn run<R: Threads + Wait + Sync, S: Sources, O: Write, E: Write>(
    rt: &R,
    alloc: Global,
    words: &[String],
    sources: &mut S,
    out: &mut O,
    err: &mut E,
) -> u8
    ensures known { result ≤ 5 }
    ensures done { result ≡ 0 →
        IfSome (asked_by (words_of words.now)) (HasDone S.gives sources.old sources.new (O.contents out.old) (O.contents out.new) []) }
    // If they ask for nothing else, they asked for the help or the version.
    ensures told { result ≡ 0 → asked_by (words_of words.now) ≡ None
        → AskForHelp (words_of words.now) }
    // All was listed and a file was cut short; or the arguments, the specification, the tables or a file were rejected. Then nothing was written but
    // the report of `check`, or with `--stream` the listing of the files before that one.
    ensures ended { 0 < result → result < 4 →
        HasEnded S.gives (asked_by (words_of words.now)) sources.old sources.new (O.contents out.old) (O.contents out.new) result }
{
    let mut list = Vec::new(alloc);
    let mut notes = Vec::new(alloc);
    let mut targets = NoTargets;
    let session = Session {
        rt,
        alloc,
        writes: LineWrites::EachLine,
    };
    let ended = execute(
        &session,
        words,
        sources,
        &mut targets,
        &mut list,
        &mut notes,
        out,
    );
    let ended = write_report_of(ended, out);
    let answer = out.flush();
    let ended = result_after_flush(ended, answer);
    report_end(ended, &notes, sources, &targets, false, err)
}

/// Does the same as `run`, with four differences. `targets` makes files. The lines of a listing are written in blocks. No line reports an output
/// whose other end was closed. Files for flex are served: by the commands `lex` and `flex`, also as the program's name, and by `check --flex`.
pub fn run_with<R: Threads + Wait + Sync, S: Sources, T: Targets, O: Write + Output, E: Write>(
    rt: &R,
    alloc: Global,
    words: &[String],
    sources: &mut S,
    targets: &mut T,
    out: &mut O,
    err: &mut E,
) -> u8
    ensures known { result ≤ 5 }
    // The scanner was printed, or the help of its command, or the version.
    ensures scanner { result ≡ 0 → IfSome (scanner_asked (words_of words.now)) (λ posix.
        IsDone T.places posix targets.old targets.new (O.contents out.old) (O.contents out.new)) }
    // A report on files for flex was written.
    ensures checked { result < 2 → scanner_asked (words_of words.now) ≡ None
        → asks_flex_check (words_of words.now) ≡ true
        → IsReportWritten (O.contents out.old) (O.contents out.new) }
    // Each other command.
    ensures done { result ≡ 0 → is_for_flex (words_of words.now) ≡ false →
        IfSome (asked_by (words_of words.now)) (HasDone S.gives sources.old sources.new (O.contents out.old) (O.contents out.new) []) }
    // If they ask for nothing else, they asked for the help or the version.
    ensures told { result ≡ 0 → is_for_flex (words_of words.now) ≡ false
        → asked_by (words_of words.now) ≡ None → AskForHelp (words_of words.now) }
    // Nothing is still buffered in the program.
    ensures sent { result ≡ 0 → O.sent out.new }
    // The file of `-o` was made.
    ensures placed { result ≡ 0 → is_for_flex (words_of words.now) ≡ false
        → HasPlaced S.gives T.places T.same sources.old targets.old targets.new
        (asked_by (words_of words.now)) }
    // All was listed and a file was cut short; or the arguments, the specification, the tables or a file were rejected. Then nothing was written but
    // the report of `check`, or with `--stream` the listing of the files before that one.
    ensures ended { 0 < result → result < 4 → is_for_flex (words_of words.now) ≡ false →
        HasEnded S.gives (asked_by (words_of words.now)) sources.old sources.new (O.contents out.old) (O.contents out.new) result }
{
    if let Some(asked) = scanner_words(words) {
        return print_scanner(alloc, asked, sources, targets, out, err);
    }
    if let Some(asked) = flex_check_words(words) {
        return check_scanner(alloc, asked, sources, out, err);
    }
    run_command(rt, alloc, words, sources, targets, out, err)
}

// Runs a command that isn't for files for flex.
fn run_command<R: Threads + Wait + Sync, S: Sources, T: Targets, O: Write + Output, E: Write>(
    rt: &R,
    alloc: Global,
    words: &[String],
    sources: &mut S,
    targets: &mut T,
    out: &mut O,
    err: &mut E,
) -> u8
    ensures known { result ≤ 5 }
    ensures done { result ≡ 0 →
        IfSome (asked_by (words_of words.now)) (HasDone S.gives sources.old sources.new (O.contents out.old) (O.contents out.new) []) }
    // If they ask for nothing else, they asked for the help or the version.
    ensures told { result ≡ 0 → asked_by (words_of words.now) ≡ None
        → AskForHelp (words_of words.now) }
    // Nothing is still buffered in the program.
    ensures sent { result ≡ 0 → O.sent out.new }
    // The file of `-o` was made.
    ensures placed { result ≡ 0
        → HasPlaced S.gives T.places T.same sources.old targets.old targets.new
        (asked_by (words_of words.now)) }
    // All was listed and a file was cut short; or the arguments, the specification, the tables or a file were rejected. Then nothing was written but
    // the report of `check`, or with `--stream` the listing of the files before that one.
    ensures ended { 0 < result → result < 4 →
        HasEnded S.gives (asked_by (words_of words.now)) sources.old sources.new (O.contents out.old) (O.contents out.new) result }
{
    let mut list = Vec::new(alloc);
    let mut notes = Vec::new(alloc);
    let session = Session {
        rt,
        alloc,
        writes: LineWrites::Whole,
    };
    let ended = execute(
        &session, words, sources, targets, &mut list, &mut notes, out,
    );
    let ended = write_report_of(ended, out);
    let answer = out.send();
    let ended = result_after_flush(ended, answer);
    report_end(ended, &notes, sources, targets, out.is_closed(), err)
}

// Reports how the command ended, with the further lines. Returns the exit status.
fn report_end<S: Sources, T: Targets, E: Write>(
    ended: Result<Vec<&str>, CommandFault<'_>>,
    notes: &[u8],
    sources: &S,
    targets: &T,
    is_closed: bool,
    err: &mut E,
) -> u8
    ensures ok { IfOk ended.entry (λ cut. HasStatusOfCut result cut.items) }
    ensures err { IfErr ended.entry (λ failure. result ≡ status_of failure) }
{
    match ended {
        Ok(cut) => {
            let _ = err.write_all(notes);
            report_cut(&cut, sources, err)
        }
        Err(failure) => {
            if !(is_closed && matches!(failure, CommandFault::Output)) {
                report_failure(&failure, sources, targets, err);
            }
            if failure.status() <= WORDS_REFUSED {
                let _ = err.write_all(notes);
            }
            failure.status()
        }
    }
}

// Reports why a command failed. Leaves a line out if an allocation fails.
fn report_failure<S: Sources, T: Targets, E: Write>(
    failure: &CommandFault<'_>,
    sources: &S,
    targets: &T,
    err: &mut E,
) {
    let _ = match failure {
        // its text ends with a newline
        CommandFault::Words(error) => write!(err, "{error}"),
        // the report is on the output
        CommandFault::Unprintable(PrintFault::Reported(_)) => Ok(()),
        _ => writeln!(err, "{failure}"),
    };
    match failure {
        CommandFault::Automaton(fault) => tell_size(*fault, err),
        CommandFault::Unprintable(PrintFault::TooManyForCode(states)) => tell_states(*states, err),
        CommandFault::Refused(RequestFault::NoFormat(word)) => tell_formats(word, err),
        CommandFault::Refused(RequestFault::NoWarning(word)) => tell_warnings(word, err),
        CommandFault::NotRead(_) => tell_reason(sources.reason(), err),
        CommandFault::Output => targets.print_fault(err),
        CommandFault::TooManyFiles => {
            let _ = writeln!(
                err,
                "lx: at most {MAX_FILES} at once; the listing of more is that of parts of them, each with --first"
            );
        }
        _ => {}
    }
}

// Reports the number of states, and the greatest number for which code is printed.
fn tell_states<E: Write>(states: u32, err: &mut E) {
    let _ = writeln!(
        err,
        "lx: the automaton has {states} states, and code is printed of at most {MAX_DIRECT_STATES}; without --direct rows are printed of any number"
    );
}

// Reports the system's reason, if it is known.
fn tell_reason<E: Write>(reason: Option<io::Error>, err: &mut E) {
    if let Some(reason) = reason {
        let _ = writeln!(err, "lx: {reason}");
    }
}

// Prints the system's text for a reason, without its number.
fn write_reason<E: Write>(reason: &io::Error, err: &mut E) -> io::Result<()> {
    let mut text = Cursor::new([0u8; REASON_BYTES]);
    // the rest is cut off if it doesn't fit
    let _ = write!(text, "{reason}");
    let bytes = text.into_inner();
    let words = match bytes
        .as_slice()
        .split(|byte| *byte == b'(' || *byte == 0)
        .next()
    {
        Some(words) => words,
        None => &[],
    };
    err.write_all(b": ")?;
    err.write_all(words.trim_ascii_end())
}

// Names a file that was cut short, with the system's reason if it is known.
fn tell_cut_file<E: Write>(name: &str, reason: Option<io::Error>, err: &mut E) {
    let _ = write!(err, "lx: cut short {name}");
    if let Some(reason) = reason {
        let _ = write_reason(&reason, err);
    }
    let _ = writeln!(err, "");
}

// Names the files that were cut short. Returns the exit status.
fn report_cut<S: Sources, E: Write>(cut: &[&str], sources: &S, err: &mut E) -> u8
    ensures { HasStatusOfCut result cut.now }
{
    for i in 0..cut.len() {
        tell_cut_file(cut[i], sources.cut_reason(i), err);
    }
    if cut.is_empty() { 0 } else { CUT_SHORT }
}

// Does what the arguments ask for. Keeps the text of a list of files in `list`, since names borrow from it. Writes further lines for stderr to
// `notes`. Returns the names of the files that were cut short.
fn execute<'a, R: Threads + Wait + Sync, S: Sources, T: Targets, O: Write>(
    session: &Session<'_, R>,
    words: &'a [String],
    sources: &mut S,
    targets: &mut T,
    list: &'a mut Vec<u8>,
    notes: &mut Vec<u8>,
    out: &mut O,
) -> Result<Vec<&'a str>, CommandFault<'a>>
    ensures ok { IfOk result (λ cut.
        HasObeyed S.gives sources.old sources.new (O.contents out.old) (O.contents out.new)
        (texts_of cut.items) (asked_by (words_of words.now))) }
    ensures told { IfOk result
        (λ _. asked_by (words_of words.now) ≡ None → AskForHelp (words_of words.now)) }
    ensures placed { IfOk result (λ _.
        HasPlaced S.gives T.places T.same sources.old targets.old targets.new
        (asked_by (words_of words.now))) }
    ensures err { IfErr result (HasFailedOrStopped S.gives (asked_by (words_of words.now))
        sources.old (O.contents out.old) (O.contents out.new)) }
{
    match read_words(session.alloc, words) {
        Ok(order) => carry_out(session, order, sources, targets, list, notes, out),
        Err(WordsFault::Words(error)) => Err(CommandFault::Words(error)),
        Err(WordsFault::Memory) => Err(CommandFault::Memory),
    }
}

// Writes the report that a failure carries.
fn write_report<'a, O: Write>(
    failure: &CommandFault<'_>,
    out: &mut O,
) -> Result<(), CommandFault<'a>>
    ensures ok { OnOk result (WroteReport failure.now (O.contents out.old) (O.contents out.new)) }
    ensures err { IfErr result (λ other. other ≡ CommandFault.Output) }
{
    match failure.report() {
        Some(report) => write_text(report, out),
        None => Ok(()),
    }
}

// Writes the report of a failure to the output, and returns the same result.
fn write_report_of<'a, O: Write>(
    ended: Result<Vec<&'a str>, CommandFault<'a>>,
    out: &mut O,
) -> Result<Vec<&'a str>, CommandFault<'a>>
    ensures ok { IfOk result
        (λ cut. (ended.entry ≡ Ok cut) × (O.contents out.new ≡ O.contents out.old)) }
    ensures err { IfErr result (λ failure.
        status_of failure < 4 → (ended.entry ≡ Err failure)
        × WroteReport failure (O.contents out.old) (O.contents out.new)) }
{
    match ended {
        Ok(cut) => Ok(cut),
        Err(failure) => {
            write_report(&failure, out)?;
            Err(failure)
        }
    }
}

// Returns the result of the command, or the failure of the output if the flush failed.
fn result_after_flush<'a>(
    ended: Result<Vec<&'a str>, CommandFault<'a>>,
    answer: io::Result<()>,
) -> Result<Vec<&'a str>, CommandFault<'a>>
    ensures ok { IfOk result (λ cut. (ended.entry ≡ Ok cut) × IsOk answer) }
    ensures err { IfErr result (λ failure. status_of failure < 4 → ended.entry ≡ Err failure) }
{
    match ended {
        Ok(cut) => {
            answer.map_err(|_| CommandFault::Output)?;
            Ok(cut)
        }
        Err(failure) if failure.report().is_some() => {
            answer.map_err(|_| CommandFault::Output)?;
            Err(failure)
        }
        Err(failure) => Err(failure),
    }
}

// Does what a request asks for. Only a listing reports files that were cut short.
fn carry_out<'a, R: Threads + Wait + Sync, S: Sources, T: Targets, O: Write>(
    session: &Session<'_, R>,
    order: Request<'a>,
    sources: &mut S,
    targets: &mut T,
    list: &'a mut Vec<u8>,
    notes: &mut Vec<u8>,
    out: &mut O,
) -> Result<Vec<&'a str>, CommandFault<'a>>
    ensures ok { IfOk result (λ cut.
        HasObeyed S.gives sources.old sources.new (O.contents out.old) (O.contents out.new)
        (texts_of cut.items) (asked_as order.entry)) }
    ensures placed { IfOk result (λ _.
        HasPlaced S.gives T.places T.same sources.old targets.old targets.new
        (asked_as order.entry)) }
    ensures err { IfErr result (HasFailedOrStopped S.gives (asked_as order.entry) sources.old
        (O.contents out.old) (O.contents out.new)) }
{
    let alloc = session.alloc;
    match order {
        Request::Stored => {
            list_stored(session, out)?;
            Ok(Vec::new(alloc))
        }
        Request::Told(text) => {
            write!(out, "{text}").map_err(|_| CommandFault::Output)?;
            Ok(Vec::new(alloc))
        }
        Request::Run(order) => { list_by_rules_of(session, &order, sources, list, notes, out) }
        Request::Scan(order) => { list_by_tables_of(session, &order, sources, list, notes, out) }
        Request::Gen(words) => {
            generate_named(alloc, words, sources, targets, notes, out)?;
            Ok(Vec::new(alloc))
        }
        Request::Up(words) => {
            upgrade_named(alloc, words, sources, targets, notes, out)?;
            Ok(Vec::new(alloc))
        }
        Request::Check(words) => {
            check_named(alloc, &words, sources, out)?;
            Ok(Vec::new(alloc))
        }
        Request::Explain(word) => {
            explain_named(alloc, word, notes, out)?;
            Ok(Vec::new(alloc))
        }
        Request::Show(words) => {
            show_named(alloc, words, sources, notes, out)?;
            Ok(Vec::new(alloc))
        }
        Request::Import(words) => {
            import_named(alloc, &words, sources, targets, notes, out)?;
            Ok(Vec::new(alloc))
        }
    }
}

// Lists the stored run.
fn list_stored<'a, R: Threads + Wait + Sync, O: Write>(
    session: &Session<'_, R>,
    out: &mut O,
) -> Result<(), CommandFault<'a>>
    ensures ok { OnOk result (ListsByRules stored_specification (whole stored_text ∷ [])
        (O.contents out.old) (O.contents out.new)) }
    ensures err { IfErr result (λ failure.
        status_of failure < 4 → HasNoTables stored_specification failure
        × Keeps (O.contents out.old) (O.contents out.new)) }
{
    listings_are_by_rules();
    let alloc = session.alloc;
    let tables = tables_of_text(alloc, STORED_SPECIFICATION)?;
    let file = make_input(alloc, STORED_TEXT, false)?;
    list_files(
        session.rt,
        alloc,
        tables,
        vec![in alloc; file]?,
        ITEMS,
        ALONE,
        session.writes,
        out,
    )?;
    Ok(())
}

// Lists the request's files by its specification.
fn list_by_rules_of<'a, R: Threads + Wait + Sync, S: Sources, O: Write>(
    session: &Session<'_, R>,
    order: &ListRequest<'a>,
    sources: &mut S,
    list: &'a mut Vec<u8>,
    notes: &mut Vec<u8>,
    out: &mut O,
) -> Result<Vec<&'a str>, CommandFault<'a>>
    ensures ok { IfOk result (λ cut.
        HasDone S.gives sources.old sources.new (O.contents out.old) (O.contents out.new)
        (texts_of cut.items) (run-asked (plain_order order.now))) }
    ensures err { IfErr result (HasFailedOrStopped S.gives
        (Some (run-asked (plain_order order.now))) sources.old (O.contents out.old)
        (O.contents out.new)) }
{
    items_are_by_rules();
    judge_words(order)?;
    let text = read_whole(session.alloc, sources, order.rules)?;
    let tables = tables_named(session.alloc, order.rules, &text, notes)?;
    list_asked(session, tables, order, sources, list, notes, out)
}

// Lists the request's files by its tables.
fn list_by_tables_of<'a, R: Threads + Wait + Sync, S: Sources, O: Write>(
    session: &Session<'_, R>,
    order: &ListRequest<'a>,
    sources: &mut S,
    list: &'a mut Vec<u8>,
    notes: &mut Vec<u8>,
    out: &mut O,
) -> Result<Vec<&'a str>, CommandFault<'a>>
    ensures ok { IfOk result (λ cut.
        HasDone S.gives sources.old sources.new (O.contents out.old) (O.contents out.new)
        (texts_of cut.items) (scan-asked (plain_order order.now))) }
    ensures err { IfErr result (HasFailedOrStopped S.gives
        (Some (scan-asked (plain_order order.now))) sources.old (O.contents out.old)
        (O.contents out.new)) }
{
    judge_words(order)?;
    let text = read_whole(session.alloc, sources, order.rules)?;
    let tables = read_tables_named(session.alloc, &text, notes)?;
    list_asked(session, tables, order, sources, list, notes, out)
}

// Prints what the arguments ask for of the specification, or writes it to a file.
fn generate_named<'a, S: Sources, T: Targets, O: Write>(
    alloc: Global,
    words: PrintWords<'a>,
    sources: &mut S,
    targets: &mut T,
    notes: &mut Vec<u8>,
    out: &mut O,
) -> Result<(), CommandFault<'a>>
    ensures ok { OnOk result (HasDone S.gives sources.old sources.new (O.contents out.old)
        (O.contents out.new) [] (gen-asked (plain_print words.entry))) }
    ensures placed { OnOk result (HasPlaced S.gives T.places T.same sources.old targets.old
        targets.new (Some (gen-asked (plain_print words.entry)))) }
    ensures err { IfErr result (HasFailed S.gives (Some (gen-asked (plain_print words.entry)))
        sources.old (O.contents out.old) (O.contents out.new)) }
{
    judge_scanner_words(alloc, &words.c)?;
    judge_output(targets, 'o', words.target, words.rules)?;
    let text = read_whole(alloc, sources, words.rules)?;
    let spec = specification_named(alloc, words.rules, &text, notes)?;
    let tables = unjoined_tables_of(alloc, &spec)?;
    let options = named_options(alloc, &words.c, &spec)?;
    print_noted(alloc, &words, &options, &tables, &spec, targets, notes, out)
}

// Prints what the arguments ask for of tables, or writes it to a file.
fn upgrade_named<'a, S: Sources, T: Targets, O: Write>(
    alloc: Global,
    words: PrintWords<'a>,
    sources: &mut S,
    targets: &mut T,
    notes: &mut Vec<u8>,
    out: &mut O,
) -> Result<(), CommandFault<'a>>
    ensures ok { OnOk result (HasDone S.gives sources.old sources.new (O.contents out.old)
        (O.contents out.new) [] (up-asked (plain_print words.entry))) }
    ensures placed { OnOk result (HasPlaced S.gives T.places T.same sources.old targets.old
        targets.new (Some (up-asked (plain_print words.entry)))) }
    ensures err { IfErr result (HasFailed S.gives (Some (up-asked (plain_print words.entry)))
        sources.old (O.contents out.old) (O.contents out.new)) }
{
    let options = judge_scanner_words(alloc, &words.c)?;
    judge_output(targets, 'o', words.target, words.rules)?;
    let text = read_whole(alloc, sources, words.rules)?;
    let tables = read_tables_named(alloc, &text, notes)?;
    print_asked(alloc, &words, &options, &tables, targets, out)
}
