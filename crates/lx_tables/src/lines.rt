//! Writes the lines of a table text.

ghost use Rattle.std.specs.Prelude.{◌≡◌, ◌<◌, ◌≤◌, ◌+◌, ◌++◌, ◌∷◌, ℕ, List, OnOk, OnErr, codes, drop, length};
ghost use Rattle.std.specs.List.{flat_map};
ghost use Rattle.lx_automaton.specs.Automata.{state_count};
ghost use Rattle.lx_automaton.specs.EncodedOptions.{decoded_option};
ghost use Rattle.lx_tables.specs.Lines.{value_of, HasState, targets_text, state_line};
ghost use Rattle.lx_tables.specs.Output.{Wrote, WrotePrefix};
ghost use Rattle.lx_tables.specs.Texts.{number, start_line, kind_line, step_text, line_end_text, range_text, byte_ranges, accepts_text, entries_text, entry_text, class_line};

use crate::Version;
use crate::byte_values::ByteValues;
use crate::tables::Tables;
use crate::writing::{write_bytes, write_numbered, write_parts};
use itoa::{Buffer, write_digits};
use lx_automaton::State;
use lx_rules::rule::{Kind, Step};
use std::io::{self, Write};

pub(crate) fn write_start<W: Write>(
    out: &mut W,
    elsewhere: u32,
    at_begin: u32,
) -> Result<(), io::Error>
    ensures ok { OnOk result
        (Wrote (W.contents out.old) (W.contents out.new) (start_line (elsewhere, at_begin))) }
    ensures err { OnErr result
        (WrotePrefix (W.contents out.old) (W.contents out.new) (start_line (elsewhere, at_begin))) }
{
    let mut first = Buffer::new();
    let mut second = Buffer::new();
    write_parts(
        out,
        &[
            b"start ",
            first.format(elsewhere).as_bytes(),
            b" ",
            second.format(at_begin).as_bytes(),
            b"\n",
        ],
    )
}

pub(crate) fn write_kind<W: Write>(out: &mut W, name: &[u8]) -> Result<(), io::Error>
    ensures ok { OnOk result
        (Wrote (W.contents out.old) (W.contents out.new) (kind_line name.now)) }
    ensures err { OnErr result
        (WrotePrefix (W.contents out.old) (W.contents out.new) (kind_line name.now)) }
{
    write_parts(out, &[b"kind ", name, b"\n"])
}

fn write_step<W: Write>(out: &mut W, step: Step) -> Result<(), io::Error>
    ensures ok { OnOk result (Wrote (W.contents out.old) (W.contents out.new) (step_text step)) }
    ensures err { OnErr result
        (WrotePrefix (W.contents out.old) (W.contents out.new) (step_text step)) }
{
    match step {
        Step::Echo => write_bytes(out, b" e"),
        Step::Begin(condition) => write_numbered(out, b" b", u32::from(condition)),
        Step::Return(Kind::Name(kind)) => write_numbered(out, b" k", kind),
        Step::Return(Kind::Number(n)) => write_numbered(out, b" n", n),
    }
}

fn write_steps<W: Write>(out: &mut W, steps: &[Step]) -> Result<(), io::Error>
    ensures ok { OnOk result
        (Wrote (W.contents out.old) (W.contents out.new) (flat_map step_text steps.now)) }
    ensures err { OnErr result
        (WrotePrefix (W.contents out.old) (W.contents out.new) (flat_map step_text steps.now)) }
{
    for step in steps {
        write_step(out, *step)?;
    }
    Ok(())
}

fn write_line_end<W: Write>(out: &mut W, line_end: bool) -> Result<(), io::Error>
    ensures ok { OnOk result (Wrote (W.contents out.old) (W.contents out.new)
        (codes "rule " ++ line_end_text line_end)) }
    ensures err { OnErr result (WrotePrefix (W.contents out.old) (W.contents out.new)
        (codes "rule " ++ line_end_text line_end)) }
{
    if line_end {
        write_bytes(out, b"rule 1")
    } else {
        write_bytes(out, b"rule 0")
    }
}

/// Writes the line of a rule.
pub(crate) fn write_rule<W: Write>(
    out: &mut W,
    line_end: bool,
    steps: &[Step],
) -> Result<(), io::Error>
    ensures ok { OnOk result (Wrote (W.contents out.old) (W.contents out.new) (codes "rule "
        ++ line_end_text line_end ++ flat_map step_text steps.now ++ codes "\n")) }
    ensures err { OnErr result (WrotePrefix (W.contents out.old) (W.contents out.new) (codes "rule "
        ++ line_end_text line_end ++ flat_map step_text steps.now ++ codes "\n")) }
{
    write_line_end(out, line_end)?;
    write_steps(out, steps)?;
    write_bytes(out, b"\n")
}

/// Returns the value of a byte as an encoded option: 0 for none, or one more than it.
fn encoded_value(tables: &Tables, values: ByteValues, byte: u8) -> u16
    requires { HasState tables.now.machine values }
    ensures { decoded_option result ≡ value_of tables.now.machine values byte }
{
    let class = tables.class(byte);
    match values {
        ByteValues::Classes => u16::from(class) + 1,
        ByteValues::Targets(state) => tables.encoded_option(state, class),
    }
}

fn write_range<W: Write>(
    out: &mut W,
    low: u32,
    high: u32,
    encoded_option: u16,
) -> Result<(), io::Error>
    ensures ok { OnOk result (Wrote (W.contents out.old) (W.contents out.new)
        (range_text low high (decoded_option encoded_option))) }
    ensures err { OnErr result (WrotePrefix (W.contents out.old) (W.contents out.new)
        (range_text low high (decoded_option encoded_option))) }
{
    if encoded_option == 0 {
        return Ok(());
    }
    let mut first = Buffer::new();
    let mut last = Buffer::new();
    let mut value = Buffer::new();
    write_parts(
        out,
        &[
            b" ",
            first.format(low).as_bytes(),
            b"-",
            last.format(high).as_bytes(),
            b":",
            value.format(encoded_option - 1).as_bytes(),
        ],
    )
}

/// Writes the longest ranges of bytes with equal values.
fn write_ranges<W: Write>(out: &mut W, tables: &Tables, values: ByteValues) -> Result<(), io::Error>
    requires { HasState tables.now.machine values }
    ensures ok { OnOk result (Wrote (W.contents out.old) (W.contents out.new)
        (byte_ranges (value_of tables.now.machine values))) }
    ensures err { OnErr result (WrotePrefix (W.contents out.old) (W.contents out.new)
        (byte_ranges (value_of tables.now.machine values))) }
{
    let mut low: u32 = 0;
    let mut value = encoded_value(tables, values, 0);
    let mut at: u32 = 1;
    while at < 256 {
        let next = encoded_value(tables, values, at as u8);
        if next != value {
            write_range(out, low, at - 1, value)?;
            low = at;
            value = next;
        }
        at += 1;
    }
    write_range(out, low, 255, value)
}

// Places a mark and a number before the part of the row from `end` on. Returns the new start of that part.
fn place_number(row: &mut [u8], end: usize, mark: u8, value: u16) -> usize
    requires room { length (number value) < end }
    requires within { end ≤ length row.old }
    ensures placed { drop result row.new ≡ mark ∷ number value ++ drop end row.old }
    ensures begin { result + length (number value) + 1 ≡ end }
    ensures long { length row.new ≡ length row.old }
{
    let digits = write_digits(u64::from(value), row, end);
    row[digits - 1] = mark;
    digits - 1
}

// Places the entry of a class before the part of the row from `end` on. Returns the new start of that part.
fn place_entry(row: &mut [u8], end: usize, class: u16, encoded_option: u16) -> usize
    requires room { 10 ≤ end }
    requires within { end ≤ length row.old }
    requires class { class < 256 }
    ensures placed { drop result row.new
        ≡ entry_text class (decoded_option encoded_option) ++ drop end row.old }
    ensures short { end ≤ result + 10 }
    ensures within { result ≤ end }
    ensures long { length row.new ≡ length row.old }
{
    if encoded_option == 0 {
        return end;
    }
    let target = place_number(row, end, b':', encoded_option - 1);
    place_number(row, target, b' ', class)
}

/// Greatest number of bytes of a state's classes: each has a space, three digits, a colon and five digits.
pub(crate) const ROW: usize = 2_560;

// Places the classes of a state that have a step at the end of the row, the last one first. Returns their start.
fn place_entries(row: &mut [u8], tables: &Tables, state: u32) -> usize
    requires long { length row.old ≡ 2560 }
    requires state { state < state_count tables.now.machine }
    ensures placed { drop result row.new ≡ entries_text tables.now.machine state }
    ensures within { result ≤ length row.new }
    ensures long { length row.new ≡ length row.old }
{
    let mut begin = ROW;
    let mut class = tables.classes();
    'classes: while 0 < class {
        class -= 1;
        begin = place_entry(row, begin, class, tables.encoded_option(state, class as u8));
    }
    begin
}

/// Writes the classes of a state that have a step, in one write.
fn write_entries<W: Write>(
    out: &mut W,
    tables: &Tables,
    state: u32,
    row: &mut [u8],
) -> Result<(), io::Error>
    requires long { length row.old ≡ 2560 }
    requires state { state < state_count tables.now.machine }
    ensures ok { OnOk result
        (Wrote (W.contents out.old) (W.contents out.new) (entries_text tables.now.machine state)) }
    ensures err { OnErr result (WrotePrefix (W.contents out.old) (W.contents out.new)
        (entries_text tables.now.machine state)) }
    ensures long { length row.new ≡ length row.old }
{
    let begin = place_entries(row, tables, state);
    write_bytes(out, &row[begin..])
}

fn write_accepts<W: Write>(out: &mut W, rule: Option<u16>) -> Result<(), io::Error>
    ensures ok { OnOk result
        (Wrote (W.contents out.old) (W.contents out.new) (codes "state " ++ accepts_text rule)) }
    ensures err { OnErr result (WrotePrefix (W.contents out.old) (W.contents out.new)
        (codes "state " ++ accepts_text rule)) }
{
    match rule {
        None => write_bytes(out, b"state -"),
        Some(rule) => write_numbered(out, b"state ", u32::from(rule)),
    }
}

/// Writes the targets of a state.
fn write_targets<W: Write>(
    out: &mut W,
    tables: &Tables,
    state: u32,
    version: Version,
    row: &mut [u8],
) -> Result<(), io::Error>
    requires long { length row.old ≡ 2560 }
    requires state { state < state_count tables.now.machine }
    ensures ok { OnOk result (Wrote (W.contents out.old) (W.contents out.new)
        (targets_text version tables.now.machine state)) }
    ensures err { OnErr result (WrotePrefix (W.contents out.old) (W.contents out.new)
        (targets_text version tables.now.machine state)) }
    ensures long { length row.new ≡ length row.old }
{
    match version {
        Version::First => write_ranges(out, tables, ByteValues::Targets(state)),
        Version::Second => write_entries(out, tables, state, row),
    }
}

/// Writes the line of a state. The contents of `row` don't matter.
pub(crate) fn write_state<W: Write>(
    out: &mut W,
    tables: &Tables,
    state: u32,
    version: Version,
    row: &mut [u8],
) -> Result<(), io::Error>
    requires long { length row.old ≡ 2560 }
    requires state { state < state_count tables.now.machine }
    ensures ok { OnOk result (Wrote (W.contents out.old) (W.contents out.new)
        (state_line version tables.now.machine state)) }
    ensures err { OnErr result (WrotePrefix (W.contents out.old) (W.contents out.new)
        (state_line version tables.now.machine state)) }
    ensures long { length row.new ≡ length row.old }
{
    write_accepts(out, tables.accepts(State(state)))?;
    write_targets(out, tables, state, version, row)?;
    write_bytes(out, b"\n")
}

/// Writes the line that has the class of each byte.
pub(crate) fn write_classes<W: Write>(out: &mut W, tables: &Tables) -> Result<(), io::Error>
    ensures ok { OnOk result
        (Wrote (W.contents out.old) (W.contents out.new) (class_line tables.now.machine)) }
    ensures err { OnErr result
        (WrotePrefix (W.contents out.old) (W.contents out.new) (class_line tables.now.machine)) }
{
    write_bytes(out, b"class")?;
    write_ranges(out, tables, ByteValues::Classes)?;
    write_bytes(out, b"\n")
}
