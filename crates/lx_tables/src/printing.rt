//! Prints the text of tables in either version.

ghost use Rattle.std.specs.Prelude.{◌≡◌, OnOk, OnErr, length};
ghost use Rattle.std.specs.List.{flat_map, range_with_len};
ghost use Rattle.lx_automaton.specs.Automata.{state_count};
ghost use Rattle.lx_tables.specs.Lines.{state_line};
ghost use Rattle.lx_tables.specs.Output.{Wrote, WrotePrefix};
ghost use Rattle.lx_tables.specs.Texts.{start_line, kind_line, rule_line, front_text, states_text, text_1, text_2};

use crate::Version;
use crate::lines::{ROW, write_classes, write_kind, write_rule, write_start, write_state};
use crate::tables::Tables;
use crate::writing::{write_bytes, write_count};
use std::io::{self, Write};

fn write_starts<W: Write>(out: &mut W, tables: &Tables) -> Result<(), io::Error>
    ensures ok { OnOk result (Wrote (W.contents out.old) (W.contents out.new)
        (flat_map start_line tables.now.machine.starts)) }
    ensures err { OnErr result (WrotePrefix (W.contents out.old) (W.contents out.new)
        (flat_map start_line tables.now.machine.starts)) }
{
    for condition in 0..tables.conditions() {
        let elsewhere = tables.start(condition, false);
        let at_begin = tables.start(condition, true);
        write_start(out, elsewhere.0, at_begin.0)?;
    }
    Ok(())
}

fn write_kinds<W: Write>(out: &mut W, tables: &Tables) -> Result<(), io::Error>
    ensures ok { OnOk result
        (Wrote (W.contents out.old) (W.contents out.new) (flat_map kind_line tables.now.kinds)) }
    ensures err { OnErr result (WrotePrefix (W.contents out.old) (W.contents out.new)
        (flat_map kind_line tables.now.kinds)) }
{
    for number in 0..tables.kinds() {
        write_kind(out, tables.kind(number))?;
    }
    Ok(())
}

fn write_rules<W: Write>(out: &mut W, tables: &Tables) -> Result<(), io::Error>
    ensures ok { OnOk result
        (Wrote (W.contents out.old) (W.contents out.new) (flat_map rule_line tables.now.rules)) }
    ensures err { OnErr result (WrotePrefix (W.contents out.old) (W.contents out.new)
        (flat_map rule_line tables.now.rules)) }
{
    for rule in 0..tables.rules() {
        write_rule(out, tables.cut(rule), tables.steps(rule))?;
    }
    Ok(())
}

/// Writes the part that both versions have: conditions, kinds and rules.
fn write_front<W: Write>(out: &mut W, tables: &Tables) -> Result<(), io::Error>
    ensures ok { OnOk result
        (Wrote (W.contents out.old) (W.contents out.new) (front_text tables.now)) }
    ensures err { OnErr result
        (WrotePrefix (W.contents out.old) (W.contents out.new) (front_text tables.now)) }
{
    write_count(out, b"conditions ", u32::from(tables.conditions()))?;
    write_starts(out, tables)?;
    write_count(out, b"kinds ", tables.kinds())?;
    write_kinds(out, tables)?;
    write_count(out, b"rules ", u32::from(tables.rules()))?;
    write_rules(out, tables)
}

fn write_state_lines<W: Write>(
    out: &mut W,
    tables: &Tables,
    version: Version,
    row: &mut [u8],
) -> Result<(), io::Error>
    requires { length row.old ≡ 2560 }
    ensures ok { OnOk result (Wrote (W.contents out.old) (W.contents out.new) (flat_map
        (λ s. state_line version tables.now.machine s)
        (range_with_len 0 (state_count tables.now.machine)))) }
    ensures err { OnErr result (WrotePrefix (W.contents out.old) (W.contents out.new) (flat_map
        (λ s. state_line version tables.now.machine s)
        (range_with_len 0 (state_count tables.now.machine)))) }
{
    for state in 0..tables.states() {
        write_state(out, tables, state, version, row)?;
    }
    Ok(())
}

/// Writes the states, and the end.
fn write_states<W: Write>(out: &mut W, tables: &Tables, version: Version) -> Result<(), io::Error>
    ensures ok { OnOk result (Wrote (W.contents out.old) (W.contents out.new)
        (states_text (state_line version) tables.now.machine)) }
    ensures err { OnErr result (WrotePrefix (W.contents out.old) (W.contents out.new)
        (states_text (state_line version) tables.now.machine)) }
{
    write_count(out, b"states ", tables.states())?;
    let mut row = [0u8; ROW];
    write_state_lines(out, tables, version, &mut row)?;
    write_bytes(out, b"end\n")
}

impl Tables {
    /// Writes the text of version 2. Allocates nothing. A write of 0 bytes is an error. After an error, a prefix of the text was written.
    pub fn print<W: Write>(&self, out: &mut W) -> Result<(), io::Error>
        ensures ok { OnOk result
            (Wrote (W.contents out.old) (W.contents out.new) (text_2 self.now)) }
        ensures err { OnErr result
            (WrotePrefix (W.contents out.old) (W.contents out.new) (text_2 self.now)) }
    {
        write_bytes(out, b"lx-tables 2\n")?;
        write_front(out, self)?;
        write_count(out, b"classes ", u32::from(self.classes()))?;
        write_classes(out, self)?;
        write_states(out, self, Version::Second)
    }

    /// Writes the text of version 1. Allocates nothing. A write of 0 bytes is an error. After an error, a prefix of the text was written.
    pub fn print_first<W: Write>(&self, out: &mut W) -> Result<(), io::Error>
        ensures ok { OnOk result
            (Wrote (W.contents out.old) (W.contents out.new) (text_1 self.now)) }
        ensures err { OnErr result
            (WrotePrefix (W.contents out.old) (W.contents out.new) (text_1 self.now)) }
    {
        write_bytes(out, b"lx-tables 1\n")?;
        write_front(out, self)?;
        write_states(out, self, Version::First)
    }
}
