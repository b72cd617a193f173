//! Reads tables from either version of their text.

ghost use Rattle.std.specs.Prelude.{◌≡◌, ◌↔◌, IsTrue, IfOk, IfErr};
ghost use Rattle.lx_tables.specs.Limits.{HasLimits};
ghost use Rattle.lx_tables.specs.Model.{IsTable};
ghost use Rattle.lx_tables.specs.Reading.{IsTextOf, IsNoText, own_text, IsClassed};
ghost use Rattle.lx_tables.specs.Texts.{text_1, text_2};
ghost use Rattle.lx_tables.specs.Views.{raw_view};

use crate::fault::TableFault;
use crate::tables::Tables;
use crate::{RawTables, byte_at, has_limits, read_leniently};
use lx_automaton::Automaton;
use std::alloc::{AllocError, Global};

/// Makes tables over byte classes from tested lists.
fn over_classes(alloc: Global, raw: RawTables) -> Result<Tables, AllocError>
    requires { HasLimits (raw_view raw) }
    ensures classed { IfOk result (λ tables. IsClassed (raw_view raw) tables) }
    ensures table { IfOk result (λ tables. IsTable tables) }
{
    let automaton = Automaton::over_byte_classes(
        alloc,
        raw.starts,
        raw.classes,
        raw.width,
        raw.accepted,
        raw.targets,
    )?;
    Ok(Tables::of_parts(automaton, raw.kinds, raw.rules))
}

/// Prints the text of version 1. `expected` is its expected length.
fn first_text(alloc: Global, tables: &Tables, expected: usize) -> Result<Vec<u8>, AllocError>
    ensures { IfOk result (λ printed. printed.items ≡ text_1 tables.now) }
{
    let mut printed = Vec::with_capacity(alloc, expected)?;
    match tables.print_first(&mut printed) {
        Ok(()) => Ok(printed),
        Err(_) => Err(AllocError),
    }
}

/// Prints the text of version 2. `expected` is its expected length.
fn second_text(alloc: Global, tables: &Tables, expected: usize) -> Result<Vec<u8>, AllocError>
    ensures { IfOk result (λ printed. printed.items ≡ text_2 tables.now) }
{
    let mut printed = Vec::with_capacity(alloc, expected)?;
    match tables.print(&mut printed) {
        Ok(()) => Ok(printed),
        Err(_) => Err(AllocError),
    }
}

/// Returns true if the text is that of the tables, in its own version.
fn is_text_of(alloc: Global, tables: &Tables, text: &[u8]) -> Result<bool, AllocError>
    ensures { IfOk result (λ same. IsTrue same ↔ (text.now ≡ own_text text.now tables.now)) }
{
    if byte_at(text, 10) == b'2' {
        return Ok(second_text(alloc, tables, text.len())?.as_slice() == text);
    }
    Ok(first_text(alloc, tables, text.len())?.as_slice() == text)
}

impl Tables {
    /// Reads tables from a text of either version. Err: [`TableFault::NoTables`], B01, only if the text isn't that of tables, for example because a
    /// number has a leading zero or a byte follows the end. [`TableFault::Memory`], B90, if an allocation failed.
    pub fn read(alloc: Global, text: &[u8]) -> Result<Tables, TableFault>
        ensures tables { IfOk result (λ tables. IsTextOf tables text.now) }
        ensures table { IfOk result (λ tables. IsTable tables) }
        ensures refused { IfErr result (λ fault. fault ≡ TableFault.NoTables → IsNoText text.now) }
    {
        let raw = read_leniently(alloc, text)?;
        if !has_limits(alloc, &raw)? {
            return Err(TableFault::NoTables);
        }
        let tables = over_classes(alloc, raw)?;
        if !is_text_of(alloc, &tables, text)? {
            return Err(TableFault::NoTables);
        }
        let tables = tables.with_joined(alloc)?;
        Ok(tables)
    }
}
