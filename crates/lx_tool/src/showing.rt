//! The command `show`: prints the automaton as a graph.

ghost use Rattle.std.specs.Prelude.{◌≡◌, ◌≤◌, [], IfOk, IfErr, OnOk, Some, false};
ghost use Rattle.std.specs.Io.KnownBytes.{Appends};
ghost use Rattle.lx_automaton.specs.Automata.{state_count};
ghost use Rattle.lx_rules.specs.views.Rules.{names_view};
ghost use Rattle.lx_cli.specs.CommandLine.{plain_show, show as show-asked};
ghost use Rattle.lx_tool.specs.Commands.{HasDone, HasFailed};
ghost use Rattle.lx_tool.specs.Showing.{AreShown, HasManyStates, HasNoneShown, begins_as_tables, max_shown};

use crate::failure::{CommandFault, PrintFault};
use crate::given::read_whole;
use crate::output::write_text;
use crate::printing::names_of;
use crate::remarks::{read_tables_named, specification_named};
use crate::source::Sources;
use crate::tabling::unjoined_tables_of;
use lx_cli::ShowWords;
use lx_graph::graph_of;
use lx_tables::Tables;
use std::alloc::Global;
use std::io::Write;

// Greatest number of states that are shown without `--all`.
const MAX_SHOWN: u32 = 200;

// The parts of a text that are shown.
#[derive(Drop)]
struct ShownParts {
    tables: Tables,
    // Names of the conditions, if they are known.
    names: Vec<Vec<u8>>,
}

fn begins_as_tables(text: &[u8]) -> bool
    ensures { result ≡ begins_as_tables text.now }
{
    text.starts_with(b"lx-tables ")
}

// Makes the tables of a specification, with the names of its conditions.
fn shown_of_specification<'a>(
    alloc: Global,
    name: &str,
    text: &[u8],
    notes: &mut Vec<u8>,
) -> Result<ShownParts, CommandFault<'a>>
    requires { begins_as_tables text.now ≡ false }
    ensures ok { IfOk result
        (λ shown. AreShown text.now shown.tables (names_view shown.names.items)) }
    ensures err { IfErr result (λ failure. HasNoneShown text.now failure) }
{
    let spec = specification_named(alloc, name, text, notes)?;
    let tables = unjoined_tables_of(alloc, &spec)?;
    let names = names_of(alloc, &spec.conditions)?;
    Ok(ShownParts { tables, names })
}

fn shown_of<'a>(
    alloc: Global,
    name: &str,
    text: &[u8],
    notes: &mut Vec<u8>,
) -> Result<ShownParts, CommandFault<'a>>
    ensures ok { IfOk result
        (λ shown. AreShown text.now shown.tables (names_view shown.names.items)) }
    ensures err { IfErr result (λ failure. HasNoneShown text.now failure) }
{
    if !begins_as_tables(text) {
        return shown_of_specification(alloc, name, text, notes);
    }
    let tables = read_tables_named(alloc, text, notes)?;
    let names = Vec::new(alloc);
    Ok(ShownParts { tables, names })
}

// Rejects more states than are shown.
fn judge_size<'a>(words: &ShowWords<'_>, tables: &Tables) -> Result<(), CommandFault<'a>>
    ensures ok { OnOk result (words.now.all ≡ false → state_count tables.now.machine ≤ max_shown) }
    ensures err { IfErr result (HasManyStates words.now.all tables.now) }
{
    if words.all || tables.states() <= MAX_SHOWN {
        return Ok(());
    }
    Err(CommandFault::Unprintable(PrintFault::TooManyStates(tables.states())))
}

/// Prints the automaton of a specification, or of tables, as a graph.
pub(crate) fn show_named<'a, S: Sources, O: Write>(
    alloc: Global,
    words: ShowWords<'a>,
    sources: &mut S,
    notes: &mut Vec<u8>,
    out: &mut O,
) -> Result<(), CommandFault<'a>>
    ensures ok { OnOk result (HasDone S.gives sources.old sources.new (O.contents out.old)
        (O.contents out.new) [] (show-asked (plain_show words.entry))) }
    ensures err { IfErr result (HasFailed S.gives (Some (show-asked (plain_show words.entry)))
        sources.old (O.contents out.old) (O.contents out.new)) }
{
    let text = read_whole(alloc, sources, words.rules)?;
    let shown = shown_of(alloc, words.rules, &text, notes)?;
    judge_size(&words, &shown.tables)?;
    let graph = graph_of(alloc, &shown.tables, &shown.names)?;
    write_text(&graph, out)
}
