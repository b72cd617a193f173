//! Lists files while they are read, on one thread.

ghost use Rattle.std.specs.Prelude.{◌≡◌, ◌<◌, ◌≤◌, [], ◌∷◌, ◌++◌, IfErr, IfOk, OnOk, if◌then◌else◌, length};
ghost use Rattle.lx_piece.specs.Plans.{max_files};
ghost use Rattle.lx_scan.specs.Streams.{first_stream};
ghost use Rattle.lx_forms.specs.Views.{form_view};
ghost use Rattle.lx_tool.specs.Given.{AreListed, ListsGiven};
ghost use Rattle.lx_tool.specs.Planning.{ListsIn};
ghost use Rattle.lx_tool.specs.Sources.{texts_of};
ghost use Rattle.lx_tool.specs.Statuses.{status_of};
ghost use Rattle.lx_tool.specs.Streaming.{GathersFront, HasStoppedFor, IsStreamed, WroteAll};

use crate::failure::CommandFault;
use crate::planning::plan_of_tables;
use crate::source::{BlocksFault, Sources};
use lx_forms::{Form, FormStyle};
use lx_line::LineStyle;
use lx_listing::{Lent, LineSink, LineWrites, StreamLines};
use lx_piece::Plan;
use lx_tables::Tables;
use std::alloc::{AllocError, Global};
use std::io::Write;

// Appends a name if its file was cut short.
fn keep_cut<'a>(cut: &mut Vec<&'a str>, name: &'a str, is_cut: bool) -> Result<(), AllocError>
    ensures { OnOk result (texts_of cut.new.items
        ≡ texts_of cut.old.items ++ (if is_cut then name.now ∷ [] else [])) }
{
    if is_cut {
        cut.push(name)?;
    }
    Ok(())
}

// Lists the file with this name while it is read. Returns true if a read failed.
fn stream_file<'a, S: Sources, L: LineStyle, K: LineSink>(
    alloc: Global,
    name: &'a str,
    file: u32,
    sources: &mut S,
    lines: &mut StreamLines<'_, L, K>,
) -> Result<bool, CommandFault<'a>>
    requires { lines.old.stream ≡ first_stream lines.old.plan.table }
    ensures style { OnOk result (lines.new.style ≡ lines.old.style) }
    ensures plan { OnOk result (lines.new.plan ≡ lines.old.plan) }
    ensures stream { OnOk result (lines.new.stream ≡ first_stream lines.old.plan.table) }
    ensures ok { IfOk result (λ cut.
        IsStreamed S.gives K.wrote (L.style lines.old.style) lines.old.plan.table file name.now
        sources.old sources.new cut lines.old.sink lines.new.sink) }
    ensures err { IfErr result (λ failure. status_of failure < 4
        → (failure ≡ CommandFault.NotRead name.entry) × (lines.new.sink ≡ lines.old.sink)) }
{
    lines.begin_file(file);
    let is_cut = match sources.read_blocks(alloc, name, lines) {
        Ok(is_cut) => is_cut,
        Err(BlocksFault::NotRead) => return Err(CommandFault::NotRead(name)),
        Err(BlocksFault::NotTaken(fault)) => return Err(CommandFault::from(fault)),
    };
    lines.end_file(is_cut)?;
    Ok(is_cut)
}

// Lists the files with these names while they are read, one after the other. Returns the names of those that were cut short.
fn stream_files<'a, S: Sources, L: LineStyle, K: LineSink>(
    alloc: Global,
    names: &[&'a str],
    sources: &mut S,
    lines: &mut StreamLines<'_, L, K>,
) -> Result<Vec<&'a str>, CommandFault<'a>>
    requires first { lines.old.stream ≡ first_stream lines.old.plan.table }
    requires few { length names.now ≤ max_files }
    ensures ok { IfOk result (λ cut.
        AreListed S.gives (λ inputs. GathersFront K.wrote (L.style lines.old.style) lines.old.plan.table inputs lines.old.sink lines.new.sink)
        (texts_of names.now) sources.old sources.new (texts_of cut.items)) }
    ensures err { IfErr result (λ failure. status_of failure < 4
        → HasStoppedFor S.gives (λ inputs. GathersFront K.wrote (L.style lines.old.style) lines.old.plan.table inputs lines.old.sink lines.new.sink)
        (texts_of names.now) sources.old failure) }
{
    let mut cut = Vec::new(alloc);
    let mut file: u32 = 0;
    for name in names {
        let is_cut = stream_file(alloc, name, file, sources, lines)?;
        keep_cut(&mut cut, name, is_cut)?;
        file += 1;
    }
    Ok(cut)
}

// Lists the files with these names to a sink while they are read, by the tables of the plan. Returns the sink, so that the final contents of a borrowed
// writer are known.
fn stream_to<'a, S: Sources, L: LineStyle + Drop, K: LineSink + Drop>(
    alloc: Global,
    plan: &Plan,
    style: L,
    names: &[&'a str],
    sources: &mut S,
    sink: K,
) -> (K, Result<Vec<&'a str>, CommandFault<'a>>)
    requires { length names.now ≤ max_files }
    ensures ok { IfOk result.1 (λ cut.
        AreListed S.gives (λ inputs. WroteAll K.wrote (L.style style) plan.now.table inputs sink result.0)
        (texts_of names.now) sources.old sources.new (texts_of cut.items)) }
    ensures err { IfErr result.1 (λ failure. status_of failure < 4
        → HasStoppedFor S.gives (λ inputs. WroteAll K.wrote (L.style style) plan.now.table inputs sink result.0)
        (texts_of names.now) sources.old failure) }
{
    let mut lines = match StreamLines::new(alloc, plan, style, sink) {
        Ok(lines) => lines,
        Err(refused) => return (refused.value, Err(CommandFault::Memory)),
    };
    let answer = stream_files(alloc, names, sources, &mut lines);
    let (sink, rest) = lines.finish();
    match rest {
        Ok(()) => (sink, answer),
        Err(_) => (sink, Err(CommandFault::Output)),
    }
}

// Returns how lines are written that must not wait.
fn writes_at_once(writes: LineWrites) -> LineWrites {
    match writes {
        LineWrites::EachLine => LineWrites::EachLine,
        LineWrites::Whole | LineWrites::Flushed => LineWrites::Flushed,
    }
}

/// Lists the files with these names by the tables, in a form, while they are read. A file is opened when its turn comes, and each item is listed as
/// soon as it is decided. If a file can't be opened, those before it are listed. Returns the names of the files that were cut short.
pub fn stream_files_in<'a, S: Sources, W: Write>(
    alloc: Global,
    tables: Tables,
    names: &[&'a str],
    form: &Form<'_>,
    sources: &mut S,
    writes: LineWrites,
    out: &mut W,
) -> Result<Vec<&'a str>, CommandFault<'a>>
    requires { length names.now ≤ max_files }
    ensures ok { IfOk result (λ cut.
        ListsGiven S.gives (ListsIn (form_view form.now) tables) (texts_of names.now) sources.old sources.new
        (W.contents out.old) (W.contents out.new) (texts_of cut.items)) }
    ensures err { IfErr result (λ failure. status_of failure < 4
        → HasStoppedFor S.gives (λ inputs. ListsIn (form_view form.now) tables inputs (W.contents out.old) (W.contents out.new))
        (texts_of names.now) sources.old failure) }
{
    let plan = plan_of_tables(alloc, tables)?;
    let sink = Lent {
        writes: writes_at_once(writes),
        out,
    };
    let (sink, answer) = stream_to(alloc, &plan, FormStyle { form }, names, sources, sink);
    // taken apart, so that the final contents of the writer are known
    let Lent {
        writes: _writes,
        out: _out,
    } = sink;
    answer
}
