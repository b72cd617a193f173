//! Compares all ways to the items of a text: by tables with and without merging, by both of their texts read again, in one scan and piece by piece.

ghost use Rattle.std.specs.Prelude.{◌<◌, ◌≤◌};
ghost use Rattle.lx_piece.specs.Plans.{IsPlan, max_items};

use crate::fault::PlainFault;
use lx_auto::{build, merge};
use lx_fixtures::inputs;
use lx_piece::{Cutter, Plan};
use lx_rules::spec::Spec;
use lx_scan::{Item, scan};
use lx_tables::Tables;
use std::alloc::{AllocError, Global};

/// Returns a fault with the name of the difference if `is_same` is false.
fn holds(is_same: bool, what: &'static str) -> Result<(), PlainFault> {
    if is_same {
        Ok(())
    } else {
        Err(PlainFault::Differs(what))
    }
}

/// Returns the items of the pieces of a plan's first file, one piece after the other.
fn items_of_pieces(alloc: Global, plan: &Plan) -> Result<Vec<Item>, AllocError>
    requires { IsPlan plan.now }
{
    let mut items = Vec::new(alloc);
    let mut cutter = Cutter::new(alloc, plan, 0);
    while let Some(piece) = cutter.next_piece(plan)? {
        items.extend_from_slice(piece.items.as_slice())?;
    }
    Ok(items)
}

/// Compares the items of a text in pieces of `per_piece` items, by tables.
fn compare_pieces(
    alloc: Global,
    tables: Tables,
    text: &[u8],
    items: &[Item],
    per_piece: u32,
) -> Result<(), PlainFault>
    requires some_items { 0 < per_piece }
    requires few_items { per_piece ≤ max_items }
{
    let files = inputs(alloc, &[(text, false)])?;
    let plan = Plan::new(tables, files, per_piece, 1);
    let found = items_of_pieces(alloc, &plan)?;
    holds(found.as_slice() == items, "the items of pieces")
}

/// Compares the items in pieces of `per_piece` items, by tables that are read from a printed text.
fn compare_printed_pieces(
    alloc: Global,
    printed: &[u8],
    text: &[u8],
    items: &[Item],
    per_piece: u32,
) -> Result<(), PlainFault>
    requires some_items { 0 < per_piece }
    requires few_items { per_piece ≤ max_items }
{
    let tables = Tables::read(alloc, printed)?;
    compare_pieces(alloc, tables, text, items, per_piece)
}

/// Compares the items by tables that are read from a printed text.
fn compare_printed(
    alloc: Global,
    printed: &[u8],
    text: &[u8],
    items: &[Item],
) -> Result<(), PlainFault> {
    compare_printed_pieces(alloc, printed, text, items, 1)?;
    compare_printed_pieces(alloc, printed, text, items, 2)?;
    compare_printed_pieces(alloc, printed, text, items, 256)?;
    let tables = Tables::read(alloc, printed)?;
    compare_scanned(alloc, &tables, text, items, "the items by printed tables")
}

/// Compares both texts of the tables that are read from a printed text with the printed ones.
fn compare_texts(
    alloc: Global,
    printed: &[u8],
    first: &[u8],
    second: &[u8],
) -> Result<(), PlainFault> {
    let tables = Tables::read(alloc, printed)?;
    compare_first(alloc, &tables, first)?;
    compare_second(alloc, &tables, second)
}

/// Compares the first text of tables with the printed one.
fn compare_first(alloc: Global, tables: &Tables, printed: &[u8]) -> Result<(), PlainFault> {
    let again = first_text_of(alloc, tables)?;
    holds(
        again.as_slice() == printed,
        "the first text of printed tables",
    )
}

/// Compares the second text of tables with the printed one.
fn compare_second(alloc: Global, tables: &Tables, printed: &[u8]) -> Result<(), PlainFault> {
    let again = second_text_of(alloc, tables)?;
    holds(
        again.as_slice() == printed,
        "the second text of printed tables",
    )
}

/// Compares the items of a text by a scan.
fn compare_scanned(
    alloc: Global,
    tables: &Tables,
    text: &[u8],
    items: &[Item],
    what: &'static str,
) -> Result<(), PlainFault> {
    let found = scan(alloc, tables, text)?;
    holds(found.as_slice() == items, what)
}

/// Compares the items by tables of an automaton that isn't merged.
fn compare_unmerged(
    alloc: Global,
    spec: &Spec,
    text: &[u8],
    items: &[Item],
) -> Result<(), PlainFault> {
    let automaton = build(alloc, spec)?;
    let tables = Tables::of(alloc, spec, &automaton)?;
    let what = "the items by tables that aren't merged";
    compare_scanned(alloc, &tables, text, items, what)
}

/// Makes the merged tables of a specification.
fn merged_tables(alloc: Global, spec: &Spec) -> Result<Tables, PlainFault> {
    let automaton = build(alloc, spec)?;
    Ok(Tables::of(alloc, spec, &merge(alloc, &automaton)?)?)
}

/// Prints the first text of tables.
fn first_text_of(alloc: Global, tables: &Tables) -> Result<Vec<u8>, PlainFault> {
    let mut text = Vec::new(alloc);
    tables.print_first(&mut text)?;
    Ok(text)
}

/// Prints the second text of tables.
fn second_text_of(alloc: Global, tables: &Tables) -> Result<Vec<u8>, PlainFault> {
    let mut text = Vec::new(alloc);
    tables.print(&mut text)?;
    Ok(text)
}

/// Compares all results of a printed text of tables, once it is read.
fn compare_read(
    alloc: Global,
    printed: &[u8],
    texts: (&[u8], &[u8]),
    text: &[u8],
    items: &[Item],
) -> Result<(), PlainFault> {
    compare_texts(alloc, printed, texts.0, texts.1)?;
    compare_printed(alloc, printed, text, items)
}

/// Compares the items of a text by tables, and by both of their texts.
fn compare_tables(
    alloc: Global,
    tables: &Tables,
    text: &[u8],
    items: &[Item],
) -> Result<(), PlainFault> {
    compare_scanned(alloc, tables, text, items, "the items by tables")?;
    let first = first_text_of(alloc, tables)?;
    let second = second_text_of(alloc, tables)?;
    let texts = (first.as_slice(), second.as_slice());
    compare_read(alloc, texts.0, texts, text, items)?;
    compare_read(alloc, texts.1, texts, text, items)
}

/// Compares the items of a text by a specification with the items of all ways by tables.
pub(crate) fn compare(
    alloc: Global,
    spec: &Spec,
    text: &[u8],
    items: &[Item],
) -> Result<(), PlainFault> {
    compare_unmerged(alloc, spec, text, items)?;
    let tables = merged_tables(alloc, spec)?;
    compare_tables(alloc, &tables, text, items)
}
