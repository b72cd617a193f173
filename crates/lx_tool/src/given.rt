//! Reads the files that sources give for names, and lists them.

ghost use Rattle.std.specs.Prelude.{◌≡◌, ◌<◌, ◌≤◌, [], ◌∷◌, All, IfOk, IfErr, length, map, vec_len};
ghost use Rattle.lx_piece.specs.Plans.{input_view, max_files, max_items, max_workers};
ghost use Rattle.lx_tool.specs.Given.{AreRead, FailsGiven, IsNoTable, IsUnread, ListsGiven};
ghost use Rattle.lx_tool.specs.Planning.{AreBytes, ListsBy, ListsPrefixBy, ListsByRules, ListsPrefixByRules, ListsByText, ListsPrefixByText};
ghost use Rattle.lx_tool.specs.Sources.{AreGiven, GivesFront, cut_names, texts_of, whole};
ghost use Rattle.lx_tool.specs.Tabling.{HasNoTables};

use crate::failure::CommandFault;
use crate::planning::list_files;
use crate::source::{SourceFault, Sources, are_bytes};
use crate::tabling::{read_tables, tables_of_text};
use lx_listing::LineWrites;
use lx_piece::Input;
use lx_scan::ruling::items_are_by_rules;
use lx_tables::Tables;
use std::alloc::{AllocError, Global};
use std::io::Write;
use std::sync::Wait;
use std::thread::Threads;

// Reads the file with this name, up to its end or a read error.
fn read_file<'a, S: Sources>(
    alloc: Global,
    sources: &mut S,
    name: &'a str,
) -> Result<Input, CommandFault<'a>>
    ensures ok { IfOk result
        (λ input. S.gives sources.old name.now (input_view input) sources.new) }
    ensures bytes { IfOk result (λ input. All (λ b. b < 256) input.bytes.items) }
    ensures err { IfErr result (λ failure. IsUnread (name.now ∷ []) failure) }
{
    match sources.read(alloc, name) {
        Ok(input) => {
            are_bytes(&input.bytes);
            Ok(input)
        }
        Err(SourceFault::NotRead) => Err(CommandFault::NotRead(name)),
        Err(SourceFault::Memory) => Err(CommandFault::Memory),
    }
}

/// Reads the text with this name. A text that is cut counts as not read, since its meaning isn't known.
pub(crate) fn read_whole<'a, S: Sources>(
    alloc: Global,
    sources: &mut S,
    name: &'a str,
) -> Result<Vec<u8>, CommandFault<'a>>
    ensures ok { IfOk result (λ text. S.gives sources.old name.now (whole text.items) sources.new) }
    ensures err { IfErr result (λ failure. IsUnread (name.now ∷ []) failure) }
{
    let input = read_file(alloc, sources, name)?;
    if input.cut {
        return Err(CommandFault::NotRead(name));
    }
    Ok(input.bytes)
}

/// Reads the list of names with this name, or a front part of it that has more than `most` names. A list that is cut counts as not read.
pub(crate) fn read_name_list<'a, S: Sources>(
    alloc: Global,
    sources: &mut S,
    name: &'a str,
    separator: u8,
    most: usize,
) -> Result<Vec<u8>, CommandFault<'a>>
    ensures ok { IfOk result (λ front.
        GivesFront S.gives sources.old name.now separator most (whole front.items)
        sources.new) }
    ensures err { IfErr result (λ failure. IsUnread (name.now ∷ []) failure) }
{
    match sources.read_names(alloc, name, separator, most) {
        Ok(input) => {
            if input.cut {
                return Err(CommandFault::NotRead(name));
            }
            Ok(input.bytes)
        }
        Err(SourceFault::NotRead) => Err(CommandFault::NotRead(name)),
        Err(SourceFault::Memory) => Err(CommandFault::Memory),
    }
}

// Reads the files with these names, in order.
#[tactic(auto, using(crate::proofs::SourceLemmas::name_steps))]
fn read_files<'a, S: Sources>(
    alloc: Global,
    sources: &mut S,
    names: &[&'a str],
) -> Result<Vec<Input>, CommandFault<'a>>
    ensures ok { IfOk result (λ files.
        AreGiven S.gives sources.old (texts_of names.now) (map input_view files.items)
        sources.new) }
    ensures bytes { IfOk result (λ files. AreBytes (map input_view files.items)) }
    ensures len { IfOk result (λ files. vec_len files ≡ length names.now) }
    ensures err { IfErr result (λ failure. IsUnread (texts_of names.now) failure) }
{
    let mut files = Vec::new(alloc);
    for name in names {
        files.push(read_file(alloc, sources, name)?)?;
    }
    Ok(files)
}

// Collects the names of the files that were cut short.
fn names_of_cut<'a>(
    alloc: Global,
    names: &[&'a str],
    files: &[Input],
) -> Result<Vec<&'a str>, AllocError>
    requires { length files.now ≡ length names.now }
    ensures { IfOk result
        (λ cut. texts_of cut.items ≡ cut_names (texts_of names.now) (map input_view files.now)) }
{
    let mut cut = Vec::new(alloc);
    for i in 0..files.len() {
        if files[i].cut {
            cut.push(names[i])?;
        }
    }
    Ok(cut)
}

/// The files that sources gave for names.
#[derive(Drop)]
pub(crate) struct Given<'a> {
    pub(crate) files: Vec<Input>,
    /// Names of the files that were cut short.
    pub(crate) cut: Vec<&'a str>,
}

/// Reads all files with these names.
pub(crate) fn read_given<'a, S: Sources>(
    alloc: Global,
    sources: &mut S,
    names: &[&'a str],
) -> Result<Given<'a>, CommandFault<'a>>
    ensures ok { IfOk result (λ given.
        AreRead S.gives (texts_of names.now) sources.old sources.new
        (map input_view given.files.items) (texts_of given.cut.items)) }
    ensures len { IfOk result (λ given. vec_len given.files ≡ length names.now) }
    ensures err { IfErr result (λ failure. IsUnread (texts_of names.now) failure) }
{
    let files = read_files(alloc, sources, names)?;
    let cut = names_of_cut(alloc, names, &files)?;
    Ok(Given { files, cut })
}

// Lists the files with these names by the tables. Reads all of them before it writes the first line.
fn list_given<'a, T: Threads + Wait + Sync, S: Sources, W: Write>(
    rt: &T,
    alloc: Global,
    tables: Tables,
    names: &[&'a str],
    workers: u8,
    per_piece: u32,
    sources: &mut S,
    writes: LineWrites,
    out: &mut W,
) -> Result<Vec<&'a str>, CommandFault<'a>>
    requires few_files { length names.now ≤ max_files }
    requires some_items { 0 < per_piece }
    requires few_items { per_piece ≤ max_items }
    requires few_workers { workers ≤ max_workers }
    ensures ok { IfOk result (λ cut.
        ListsGiven S.gives (ListsBy tables) (texts_of names.now) sources.old sources.new
        (W.contents out.old) (W.contents out.new) (texts_of cut.items)) }
    ensures err { IfErr result (FailsGiven S.gives (λ _. ⊥) (ListsPrefixBy tables)
        (texts_of names.now) sources.old sources.new (W.contents out.old)
        (W.contents out.new)) }
{
    let given = read_given(alloc, sources, names)?;
    if given.files.is_empty() {
        return Ok(given.cut);
    }
    list_files(
        rt,
        alloc,
        tables,
        given.files,
        per_piece,
        workers,
        writes,
        out,
    )?;
    Ok(given.cut)
}

/// Lists the files with these names by the specification in `text`, with `per_piece` items a piece. Judges the text before it reads a file, and reads
/// all files before it writes the first line. 1 to 8 workers scan them, or with 0 the calling thread. Returns the names of the files that were cut
/// short, in order.
pub fn list_by_specification<'a, T: Threads + Wait + Sync, S: Sources, W: Write>(
    rt: &T,
    alloc: Global,
    text: &[u8],
    names: &[&'a str],
    workers: u8,
    per_piece: u32,
    sources: &mut S,
    writes: LineWrites,
    out: &mut W,
) -> Result<Vec<&'a str>, CommandFault<'a>>
    requires few_files { length names.now ≤ max_files }
    requires some_items { 0 < per_piece }
    requires few_items { per_piece ≤ max_items }
    requires few_workers { workers ≤ max_workers }
    ensures ok { IfOk result (λ cut.
        ListsGiven S.gives (ListsByRules text.now) (texts_of names.now) sources.old sources.new
        (W.contents out.old) (W.contents out.new) (texts_of cut.items)) }
    ensures err { IfErr result (FailsGiven S.gives (HasNoTables text.now)
        (ListsPrefixByRules text.now) (texts_of names.now) sources.old sources.new
        (W.contents out.old) (W.contents out.new)) }
{
    items_are_by_rules();
    let tables = tables_of_text(alloc, text)?;
    list_given(
        rt, alloc, tables, names, workers, per_piece, sources, writes, out,
    )
}

/// Lists the files with these names by tables, whose text may have either version. Otherwise does the same as `list_by_specification`.
pub fn list_by_tables<'a, T: Threads + Wait + Sync, S: Sources, W: Write>(
    rt: &T,
    alloc: Global,
    text: &[u8],
    names: &[&'a str],
    workers: u8,
    per_piece: u32,
    sources: &mut S,
    writes: LineWrites,
    out: &mut W,
) -> Result<Vec<&'a str>, CommandFault<'a>>
    requires few_files { length names.now ≤ max_files }
    requires some_items { 0 < per_piece }
    requires few_items { per_piece ≤ max_items }
    requires few_workers { workers ≤ max_workers }
    ensures ok { IfOk result (λ cut.
        ListsGiven S.gives (ListsByText text.now) (texts_of names.now) sources.old sources.new
        (W.contents out.old) (W.contents out.new) (texts_of cut.items)) }
    ensures err { IfErr result (FailsGiven S.gives (IsNoTable text.now) (ListsPrefixByText text.now)
        (texts_of names.now) sources.old sources.new (W.contents out.old)
        (W.contents out.new)) }
{
    let tables = read_tables(alloc, text)?;
    list_given(
        rt, alloc, tables, names, workers, per_piece, sources, writes, out,
    )
}
