//! Makes tables of the text of a specification, or reads them from their own text.

ghost use Rattle.std.specs.Prelude.{ℕ, List, IfOk, IfErr};
ghost use Rattle.lx_rules.specs.views.Specs.{spec_view};
ghost use Rattle.lx_spec.specs.Whole.{IsRead};
ghost use Rattle.lx_tables.specs.Model.{AreTablesOf, IsTable};
ghost use Rattle.lx_tool.specs.Given.{IsNoTable};
ghost use Rattle.lx_tool.specs.Tabling.{AreTablesIn, AreTablesOfText, HasNoTables};

use crate::failure::CommandFault;
use lx_auto::build_merged;
use lx_spec::{Spec, read_spec};
use lx_tables::Tables;
use std::alloc::Global;

/// Makes the tables of the specification in a text: reads, builds, merges and orders it. Err: E01 to E21 if the text is rejected, E30 and E31 if it
/// is too large.
pub fn tables_of_text<'a>(alloc: Global, text: &[u8]) -> Result<Tables, CommandFault<'a>>
    ensures ok { IfOk result (λ tables. AreTablesOfText text.now tables) }
    ensures table { IfOk result (λ tables. IsTable tables) }
    ensures err { IfErr result (λ failure. HasNoTables text.now failure) }
{
    let spec = specification_of(alloc, text)?;
    tables_of(alloc, &spec)
}

/// Reads the specification in a text. Err: E01 to E21 if the text is rejected.
pub(crate) fn specification_of<'a>(alloc: Global, text: &[u8]) -> Result<Spec, CommandFault<'a>>
    ensures ok { IfOk result (λ spec. IsRead text.now (spec_view spec)) }
    ensures err { IfErr result (λ failure. HasNoTables text.now failure) }
{
    Ok(read_spec(alloc, text)?)
}

/// Makes the tables of a specification. Err: E30 and E31 if it is too large.
pub(crate) fn tables_of<'a>(alloc: Global, spec: &Spec) -> Result<Tables, CommandFault<'a>>
    ensures ok { IfOk result (λ tables. AreTablesOf (spec_view spec.now) tables) }
    ensures table { IfOk result (λ tables. IsTable tables) }
    ensures err { IfErr result
        (λ failure. (text : List ℕ) → IsRead text (spec_view spec.now) → HasNoTables text failure) }
{
    let automaton = build_merged(alloc, spec)?;
    Ok(Tables::of(alloc, spec, &automaton)?)
}

/// Makes the same tables as `tables_of`, for printing only: no text is scanned by them.
pub(crate) fn unjoined_tables_of<'a>(alloc: Global, spec: &Spec) -> Result<Tables, CommandFault<'a>>
    ensures ok { IfOk result (λ tables. AreTablesOf (spec_view spec.now) tables) }
    ensures err { IfErr result
        (λ failure. (text : List ℕ) → IsRead text (spec_view spec.now) → HasNoTables text failure) }
{
    let automaton = build_merged(alloc, spec)?;
    Ok(Tables::unjoined_of(alloc, spec, &automaton)?)
}

/// Reads tables from either version of their text. Err: B01 if the text isn't that of tables.
pub(crate) fn read_tables<'a>(alloc: Global, text: &[u8]) -> Result<Tables, CommandFault<'a>>
    ensures ok { IfOk result (λ tables. AreTablesIn text.now tables) }
    ensures err { IfErr result (λ failure. IsNoTable text.now failure) }
{
    Ok(Tables::read(alloc, text)?)
}
