//! Finds trailing context of which a scanner by flex takes another text.

ghost use Rattle.std.specs.Prelude.{◌≡◌, ◌≢◌, ◌<◌, ◌⊎◌, ◌∷◌, ◌++◌, [], All, IfOk, IfSome, None, OnOk, false, length, true};
ghost use Rattle.lx_automaton.specs.Automata.{accepted_at, state_after};
ghost use Rattle.lx_reach.specs.Contexts.{IsContextReading, IsCutElsewhere, IsNextContext, IsReading, IsState, context_state, has_begun};

use lx_tables::{State, Tables};
use std::alloc::{AllocError, Global};
use std::collections::HashSet;

/// Numbers of the conditions of tables of one rule r/s: r, r followed by s, and s.
pub const TOKEN: u16 = 1;

pub const WHOLE: u16 = 2;

pub const CONTEXT: u16 = 3;

// Greatest number of readings that are examined.
const MAX_READINGS: usize = 20_000;

/// The parts of a rule r/s that match the empty text, which tables don't say.
#[derive(Debug, Clone, Copy, PartialEq, Eq)]
pub struct EmptyParts {
    pub token: bool,
    pub context: bool,
}

// The part of s that was read since the last text of r.
#[derive(Clone, Copy)]
pub(crate) enum ContextReading {
    // There is no text of r yet.
    NotBegun,
    // The last text of r ends here.
    Begins,
    // A state, or `None` if no text of s begins so.
    At(Option<u32>),
}

impl ContextReading {
    fn has_begun(self) -> bool
        ensures { result ≡ has_begun self }
    {
        !matches!(self, ContextReading::NotBegun)
    }
}

// The part of a match that was read.
#[derive(Clone, Copy)]
pub(crate) struct Reading {
    // State of r, or `None` if no text of r begins so.
    pub token: Option<u32>,
    // State of r followed by s.
    pub whole: u32,
    pub context: ContextReading,
}

// Readings, each once, those of shorter texts first.
#[derive(Drop)]
struct Search {
    readings: Vec<Reading>,
    // Numbers of their states.
    known: HashSet<(u32, u32, u32)>,
}

// Returns the state after one more byte.
fn step(tables: &Tables, state: Option<u32>, byte: u8) -> Option<u32>
    requires { IsState tables.now.machine state }
    ensures after { result ≡ state_after tables.now.machine state (byte ∷ []) }
    ensures state { IsState tables.now.machine result }
{
    let next = tables.step(State(state?), byte)?;
    Some(next.0)
}

fn accepts(tables: &Tables, state: Option<u32>) -> bool
    requires { IsState tables.now.machine state }
    ensures yes { result ≡ true → accepted_at tables.now.machine state ≢ None }
    ensures no { result ≡ false → accepted_at tables.now.machine state ≡ None }
{
    match state {
        Some(state) => tables.accepts(State(state)).is_some(),
        None => false,
    }
}

// Returns a number of a state, or 0 for none.
fn number_of(state: Option<u32>) -> u32 {
    match state {
        Some(state) => state.saturating_add(1),
        None => 0,
    }
}

fn meet(
    search: &mut Search,
    tables: &Tables,
    parts: EmptyParts,
    reading: Reading,
) -> Result<(), AllocError>
    requires reading { IsReading tables.now.machine parts reading }
    requires readings { All (IsReading tables.now.machine parts) search.old.readings.items }
    ensures { OnOk result (All (IsReading tables.now.machine parts) search.new.readings.items) }
{
    let context = match reading.context {
        ContextReading::NotBegun => 0,
        ContextReading::Begins => 1,
        ContextReading::At(state) => number_of(state).saturating_add(2),
    };
    let key = (number_of(reading.token), reading.whole, context);
    if search.readings.len() < MAX_READINGS && search.known.insert(key)? {
        search.readings.push(reading)?;
    }
    Ok(())
}

// Returns the state of s after one more byte, if this isn't before the last text of r.
fn next_context(tables: &Tables, context: ContextReading, byte: u8) -> ContextReading
    requires conditions { 3 < length tables.now.machine.starts }
    requires state { IsState tables.now.machine (context_state context) }
    ensures state { IsState tables.now.machine (context_state result) }
    ensures context { IsNextContext tables.now.machine context byte result }
{
    match context {
        ContextReading::NotBegun => ContextReading::NotBegun,
        ContextReading::Begins => {
            ContextReading::At(step(tables, Some(tables.start(CONTEXT, false).0), byte))
        }
        ContextReading::At(state) => ContextReading::At(step(tables, state, byte)),
    }
}

// Returns the reading after one more byte, unless nothing begins so, or the text of r before wasn't the last one.
fn next_reading(tables: &Tables, parts: EmptyParts, reading: Reading, byte: u8) -> Option<Reading>
    requires conditions { 3 < length tables.now.machine.starts }
    requires reading { IsReading tables.now.machine parts reading }
    ensures { IfSome result (IsReading tables.now.machine parts) }
{
    let whole = step(tables, Some(reading.whole), byte)?;
    let token = step(tables, reading.token, byte);
    if reading.context.has_begun() && accepts(tables, token) {
        return None;
    }
    Some(Reading {
        token,
        whole,
        context: next_context(tables, reading.context, byte),
    })
}

// Returns the reading that takes the text up to here for the last text of r, if it is one.
fn begun_reading(tables: &Tables, parts: EmptyParts, reading: Reading) -> Option<Reading>
    requires { IsReading tables.now.machine parts reading }
    ensures { IfSome result (IsReading tables.now.machine parts) }
{
    if reading.context.has_begun() || !accepts(tables, reading.token) {
        return None;
    }
    Some(Reading {
        token: reading.token,
        whole: reading.whole,
        context: ContextReading::Begins,
    })
}

// Returns true if a match ends here, and s doesn't match what is after the last text of r.
fn is_cut_elsewhere(tables: &Tables, parts: EmptyParts, reading: Reading) -> bool
    requires { IsReading tables.now.machine parts reading }
    ensures { result ≡ true → IsCutElsewhere tables.now.machine parts }
{
    let is_context = match reading.context {
        ContextReading::NotBegun => true,
        ContextReading::Begins => parts.context,
        ContextReading::At(state) => accepts(tables, state),
    };
    !is_context && accepts(tables, Some(reading.whole))
}

// Returns the reading of no byte.
fn first_reading(tables: &Tables, parts: EmptyParts, context: ContextReading) -> Reading
    requires conditions { 3 < length tables.now.machine.starts }
    requires context { IsContextReading tables.now.machine parts [] [] context }
    requires state { IsState tables.now.machine (context_state context) }
    ensures { IsReading tables.now.machine parts result }
{
    Reading {
        token: Some(tables.start(TOKEN, false).0),
        whole: tables.start(WHOLE, false).0,
        context,
    }
}

fn meet_first(search: &mut Search, tables: &Tables, parts: EmptyParts) -> Result<(), AllocError>
    requires conditions { 3 < length tables.now.machine.starts }
    requires readings { All (IsReading tables.now.machine parts) search.old.readings.items }
    ensures { OnOk result (All (IsReading tables.now.machine parts) search.new.readings.items) }
{
    let reading = first_reading(tables, parts, ContextReading::NotBegun);
    meet(search, tables, parts, reading)?;
    if parts.token {
        let reading = first_reading(tables, parts, ContextReading::Begins);
        return meet(search, tables, parts, reading);
    }
    Ok(())
}

// Meets the readings after one more byte.
fn meet_next(
    search: &mut Search,
    tables: &Tables,
    parts: EmptyParts,
    reading: Reading,
    byte: u8,
) -> Result<(), AllocError>
    requires conditions { 3 < length tables.now.machine.starts }
    requires reading { IsReading tables.now.machine parts reading }
    requires readings { All (IsReading tables.now.machine parts) search.old.readings.items }
    ensures { OnOk result (All (IsReading tables.now.machine parts) search.new.readings.items) }
{
    let Some(next) = next_reading(tables, parts, reading, byte) else {
        return Ok(());
    };
    meet(search, tables, parts, next)?;
    match begun_reading(tables, parts, next) {
        Some(begun) => meet(search, tables, parts, begun),
        None => Ok(()),
    }
}

// Returns true if this is the least byte of its class, given the number of the classes of lesser bytes.
fn begins_class(tables: &Tables, byte: u8, classes: u16) -> bool {
    u16::from(tables.class(byte)) == classes
}

// Meets the readings after one more byte, of each class one.
fn meet_all_next(
    search: &mut Search,
    tables: &Tables,
    parts: EmptyParts,
    reading: Reading,
) -> Result<(), AllocError>
    requires conditions { 3 < length tables.now.machine.starts }
    requires reading { IsReading tables.now.machine parts reading }
    requires readings { All (IsReading tables.now.machine parts) search.old.readings.items }
    ensures { OnOk result (All (IsReading tables.now.machine parts) search.new.readings.items) }
{
    let mut classes: u16 = 0;
    for byte in 0..=255 {
        if begins_class(tables, byte, classes) {
            classes = classes.saturating_add(1);
            meet_next(search, tables, parts, reading, byte)?;
        }
    }
    Ok(())
}

/// Returns true if a match of r/s is found whose longest text of r is followed by no text of s. There flex takes that text, and warns of dangerous
/// trailing context. `tables` are those of the rule, by the conditions [`TOKEN`], [`WHOLE`] and [`CONTEXT`]. Not all matches are examined if that needs
/// more than 20,000 readings. Err: an allocation failed.
pub fn is_dangerous(alloc: Global, tables: &Tables, parts: EmptyParts) -> Result<bool, AllocError>
    requires conditions { 3 < length tables.now.machine.starts }
    ensures { IfOk result (λ found. found ≡ true → IsCutElsewhere tables.now.machine parts) }
{
    let mut search = Search {
        readings: Vec::new(alloc),
        known: HashSet::new(alloc),
    };
    meet_first(&mut search, tables, parts)?;
    for place in 0..MAX_READINGS {
        if place >= search.readings.len() {
            break;
        }
        let reading = search.readings[place];
        if is_cut_elsewhere(tables, parts, reading) {
            return Ok(true);
        }
        meet_all_next(&mut search, tables, parts, reading)?;
    }
    Ok(false)
}
