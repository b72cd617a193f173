//! Further lines of an error: the reason why a specification or tables are rejected.

ghost use Rattle.std.specs.Prelude.{ℕ, List, IfOk, IfErr};
ghost use Rattle.lx_rules.specs.views.Specs.{spec_view};
ghost use Rattle.lx_spec.specs.Whole.{IsRead};
ghost use Rattle.lx_tables.specs.Model.{IsTable};
ghost use Rattle.lx_tool.specs.Given.{IsNoTable};
ghost use Rattle.lx_tool.specs.Tabling.{AreTablesIn, AreTablesOfText, HasNoTables};

use crate::failure::CommandFault;
use crate::tabling::{read_tables, specification_of, tables_of_text};
use lx_auto::BuildFault;
use lx_diagnose::{TextPlace, diagnose, sentence, table_cause, table_sentence, words_of};
use lx_rules::Spec;
use lx_spec::SpecFault;
use lx_tables::Tables;
use std::alloc::{AllocError, Global};
use std::io::{self, Write};

// Writes a file's name, with the line and the column if they are known.
fn write_place(notes: &mut Vec<u8>, name: &str, place: TextPlace) -> Result<(), io::Error> {
    if place.line == 0 {
        return write!(notes, "lx: {name}: ");
    }
    if place.column == 0 {
        return write!(notes, "lx: {name}:{}: ", place.line);
    }
    write!(notes, "lx: {name}:{}:{}: ", place.line, place.column)
}

// Writes why a specification is rejected, and names the command that says more.
fn push_cause(
    alloc: Global,
    name: &str,
    text: &[u8],
    fault: SpecFault,
    notes: &mut Vec<u8>,
) -> Result<(), AllocError> {
    let diagnosis = diagnose(alloc, text, fault)?;
    let words = sentence(alloc, &diagnosis, text)?;
    // a write to a list fails only for lack of memory
    write_place(notes, name, diagnosis.place).map_err(|_| AllocError)?;
    notes.extend_from_slice(&words)?;
    writeln!(notes, "\nlx: lx check {name} says more").map_err(|_| AllocError)
}

// Writes why a text isn't that of tables.
fn push_table_cause(alloc: Global, text: &[u8], notes: &mut Vec<u8>) -> Result<(), AllocError> {
    let words = table_sentence(alloc, table_cause(text), text)?;
    notes.extend_from_slice(b"lx: ")?;
    notes.extend_from_slice(&words)?;
    notes.extend_from_slice(b"\n")
}

// Adds the cause of a specification's fault. Leaves it out if an allocation fails.
fn note_cause(
    alloc: Global,
    name: &str,
    text: &[u8],
    failure: &CommandFault<'_>,
    notes: &mut Vec<u8>,
) {
    if let CommandFault::Specification(fault) = failure {
        if push_cause(alloc, name, text, *fault, notes).is_err() {
            notes.clear();
        }
    }
}

/// Reads the specification in a text, which is the file with this name. If the text is rejected, `notes` get the cause.
pub(crate) fn specification_named<'a>(
    alloc: Global,
    name: &str,
    text: &[u8],
    notes: &mut Vec<u8>,
) -> Result<Spec, CommandFault<'a>>
    ensures ok { IfOk result (λ spec. IsRead text.now (spec_view spec)) }
    ensures err { IfErr result (λ failure. HasNoTables text.now failure) }
{
    let ended = specification_of(alloc, text);
    if let Err(failure) = &ended {
        note_cause(alloc, name, text, failure, notes);
    }
    ended
}

/// Makes the tables of the specification in a text, which is the file with this name. If the text is rejected, `notes` get the cause.
pub(crate) fn tables_named<'a>(
    alloc: Global,
    name: &str,
    text: &[u8],
    notes: &mut Vec<u8>,
) -> Result<Tables, CommandFault<'a>>
    ensures ok { IfOk result (λ tables. AreTablesOfText text.now tables) }
    ensures table { IfOk result (λ tables. IsTable tables) }
    ensures err { IfErr result (λ failure. HasNoTables text.now failure) }
{
    let ended = tables_of_text(alloc, text);
    if let Err(failure) = &ended {
        note_cause(alloc, name, text, failure, notes);
    }
    ended
}

/// Reads the tables in a text. If the text is rejected, `notes` get the cause.
pub(crate) fn read_tables_named<'a>(
    alloc: Global,
    text: &[u8],
    notes: &mut Vec<u8>,
) -> Result<Tables, CommandFault<'a>>
    ensures ok { IfOk result (λ tables. AreTablesIn text.now tables) }
    ensures err { IfErr result (λ failure. IsNoTable text.now failure) }
{
    let ended = read_tables(alloc, text);
    if let Err(CommandFault::Tables(_)) = &ended {
        if push_table_cause(alloc, text, notes).is_err() {
            notes.clear();
        }
    }
    ended
}

/// Reports why a specification is too large for an automaton.
pub(crate) fn tell_size<E: Write>(fault: BuildFault, err: &mut E) {
    let code = match fault {
        BuildFault::TooManyPositions => "E30",
        BuildFault::TooManySets => "E31",
        BuildFault::Memory => return,
    };
    let _ = writeln!(
        err,
        "lx: {}\nlx: lx explain {code} says more",
        words_of(code)
    );
}
