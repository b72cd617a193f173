//! Makes the joined table of tables.

ghost use Rattle.std.specs.Prelude.{if◌then◌else◌, ◌≡◌, ◌<◌, ◌≤◌, ◌+◌, ◌*◌, ◌/◌, ℕ, IfOk, OnOk, length, nat_eq, slice_index, Some};
ghost use Rattle.std.specs.Option.{ForSome};
ghost use Rattle.lx_automaton.specs.Automata.{state_count, accepted_at, class_target};
ghost use Rattle.lx_tables.specs.Joined.{AreEntries, AreLabels, IsJoined, IsJoinedState, begun, class_of_column, column_of, condition_behind, condition_behind_rule, encoded, ended, giving, item_count, joined_entry, joined_len, joined_number, joined_state_at, joined_states, joined_step, joined_width, rule_ended, target_from, max_joined_entries};
ghost use Rattle.lx_tables.specs.Labels.{step_of_label};
ghost use Rattle.lx_tables.specs.Model.{IsTable};

use crate::joined::{Joined, JoinedState, Transition, UNTOLD};
use crate::label::label_of;
use crate::tables::Tables;
use lx_automaton::State;
use lx_rules::rule::Step;
use std::alloc::{AllocError, Global};

// Greatest number of entries. They take 4 MB.
const MAX_ENTRIES: usize = 524_288;

fn bit(newline: bool) -> usize
    ensures { result ≡ (if newline then 1 else 0) }
{
    if newline { 1 } else { 0 }
}

fn encode(state: Option<u32>) -> usize
    ensures { result ≡ encoded state }
{
    match state {
        None => 0,
        Some(state) => state as usize + 1,
    }
}

// The match that has ended in a state of the joined table without a further step, and the condition after it.
#[derive(Clone, Copy)]
struct Ending {
    code: u32,
    condition: u16,
}

// Returns the condition after an action.
fn condition_behind_steps(steps: &[Step], condition: u16) -> u16
    ensures { result ≡ condition_behind steps.now condition }
{
    let mut now = condition;
    for step in steps {
        if let Step::Begin(next) = step {
            now = *next;
        }
    }
    now
}

// Returns the number of items of an action.
fn item_count(steps: &[Step]) -> usize
    ensures count { result ≡ item_count steps.now }
    ensures few { result ≤ length steps.now }
{
    let mut count = 0;
    for step in steps {
        match step {
            Step::Begin(_) => {}
            Step::Echo | Step::Return(_) => count += 1,
        }
    }
    count
}

// Returns the label of the first item of an action, or 0 if it has none.
fn label_given(steps: &[Step]) -> u64
    ensures { step_of_label result ≡ giving steps.now }
{
    for step in steps {
        match *step {
            Step::Begin(_) => {}
            Step::Echo => return label_of(None),
            Step::Return(kind) => return label_of(Some(kind)),
        }
    }
    0
}

// Returns the code of a rule that has ended.
fn code_of_rule(tables: &Tables, rule: u16) -> u32
    requires table { IsTable tables.now }
    requires rule { rule < length tables.now.rules }
    ensures { result ≡ rule_ended tables.now (Some rule) }
{
    if !tables.cut(rule) && item_count(tables.steps(rule)) <= 1 {
        u32::from(rule) + 1
    } else {
        UNTOLD as u32
    }
}

fn ending_in(tables: &Tables, q: JoinedState) -> Ending
    requires table { IsTable tables.now }
    requires known { IsJoinedState tables.now q }
    ensures code { result.code ≡ ended tables.now q.state }
    ensures condition { result.condition
        ≡ condition_behind_rule tables.now (accepted_at tables.now.machine q.state) q.condition }
{
    let condition = q.condition;
    let Some(state) = q.state else {
        return Ending {
            code: u32::from(tables.rules()) + 1,
            condition,
        };
    };
    let Some(rule) = tables.accepts(State(state)) else {
        return Ending {
            code: UNTOLD as u32,
            condition,
        };
    };
    Ending {
        code: code_of_rule(tables, rule),
        condition: condition_behind_steps(tables.steps(rule), condition),
    }
}

// Returns the target of a state on a class.
fn target(tables: &Tables, state: Option<u32>, class: u8) -> Option<u32>
    requires state { ForSome state (λ s. s < state_count tables.now.machine) }
    requires class { class < tables.now.machine.width }
    ensures { result ≡ target_from tables.now.machine state class }
{
    match tables.encoded_option(state?, class) {
        0 => None,
        encoded => Some(u32::from(encoded) - 1),
    }
}

// Returns the state with a number.
fn state_at(tables: &Tables, number: usize) -> JoinedState
    requires table { IsTable tables.now }
    requires number { number < joined_states tables.now }
    ensures state { result ≡ joined_state_at tables.now number }
    ensures known { IsJoinedState tables.now result }
{
    let states = tables.states() as usize + 1;
    let start = number / states;
    let encoded = number % states;
    JoinedState {
        condition: (start / 2) as u16,
        newline: start % 2 == 1,
        state: if encoded == 0 {
            None
        } else {
            Some(encoded as u32 - 1)
        },
    }
}

// Returns the state after a byte of a class, which is a newline or not, and the code of the match that ended before it.
fn step(
    tables: &Tables,
    q: JoinedState,
    ending: Ending,
    class: u8,
    newline: bool,
) -> (u32, JoinedState)
    requires table { IsTable tables.now }
    requires known { IsJoinedState tables.now q }
    requires class { class < tables.now.machine.width }
    requires code { ending.code ≡ ended tables.now q.state }
    requires condition { ending.condition
        ≡ condition_behind_rule tables.now (accepted_at tables.now.machine q.state) q.condition }
    ensures step { result ≡ joined_step tables.now q class newline }
    ensures known { IsJoinedState tables.now result.1 }
{
    if let Some(next) = target(tables, q.state, class) {
        let behind = JoinedState {
            condition: q.condition,
            newline,
            state: Some(next),
        };
        return (0, behind);
    }
    (
        ending.code,
        tables.first_state(ending.condition, q.newline, class, newline),
    )
}

// Returns the entry of a state in a column.
fn entry(tables: &Tables, q: JoinedState, ending: Ending, column: u16) -> Transition
    requires table { IsTable tables.now }
    requires room { joined_len tables.now ≤ max_joined_entries }
    requires known { IsJoinedState tables.now q }
    requires column { column < joined_width tables.now }
    requires code { ending.code ≡ ended tables.now q.state }
    requires condition { ending.condition
        ≡ condition_behind_rule tables.now (accepted_at tables.now.machine q.state) q.condition }
    ensures entry { result
        ≡ joined_entry tables.now (joined_step tables.now q (class_of_column tables.now column)
        (nat_eq column tables.now.machine.width)) }
    ensures row { result.row + joined_width tables.now ≤ joined_len tables.now }
{
    let newline = column == tables.classes();
    let class = if newline {
        tables.class(b'\n')
    } else {
        column as u8
    };
    let (code, behind) = step(tables, q, ending, class, newline);
    Transition {
        row: tables.row(behind) as u32,
        code,
    }
}

// Adds the row of a state.
fn add_row(tables: &Tables, number: usize, entries: &mut Vec<Transition>) -> Result<(), AllocError>
    requires table { IsTable tables.now }
    requires room { joined_len tables.now ≤ max_joined_entries }
    requires number { number < joined_states tables.now }
    requires entries { AreEntries tables.now entries.old.items (number * joined_width tables.now) }
    ensures { OnOk result
        (AreEntries tables.now entries.new.items ((number + 1) * joined_width tables.now)) }
{
    let q = state_at(tables, number);
    let ending = ending_in(tables, q);
    for column in 0..tables.classes() + 1 {
        entries.push(entry(tables, q, ending, column))?;
    }
    Ok(())
}

// Makes the entries of all states.
fn entries_of(alloc: Global, tables: &Tables, states: usize) -> Result<Vec<Transition>, AllocError>
    requires table { IsTable tables.now }
    requires room { joined_len tables.now ≤ max_joined_entries }
    requires states { states ≡ joined_states tables.now }
    ensures { IfOk result (λ entries. AreEntries tables.now entries.items (joined_len tables.now)) }
{
    let mut entries = Vec::new(alloc);
    for number in 0..states {
        add_row(tables, number, &mut entries)?;
    }
    Ok(entries)
}

// Makes the column of each byte.
fn columns_of(alloc: Global, tables: &Tables) -> Result<Vec<u8>, AllocError>
    requires { tables.now.machine.width < 256 }
    ensures bytes { IfOk result (λ columns. length columns.items ≡ 256) }
    ensures columns { IfOk result
        (λ columns. (b : ℕ) → b < 256 → slice_index columns.items b ≡ column_of tables.now b) }
{
    let mut columns = Vec::new(alloc);
    for byte in 0..256u16 {
        let column = if byte == 10 {
            tables.classes() as u8
        } else {
            tables.class(byte as u8)
        };
        columns.push(column)?;
    }
    Ok(columns)
}

// Makes the label of each code.
fn labels_of(alloc: Global, tables: &Tables) -> Result<Vec<u64>, AllocError>
    ensures { IfOk result (λ labels. AreLabels tables.now labels.items) }
{
    let mut labels = Vec::new(alloc);
    labels.push(0)?;
    for rule in 0..tables.rules() {
        labels.push(label_given(tables.steps(rule)))?;
    }
    labels.push(label_of(None))?;
    Ok(labels)
}

// Makes the joined table, unless it is too large.
fn joined_of(alloc: Global, tables: &Tables) -> Result<Option<Joined>, AllocError>
    ensures { IfOk result (λ joined.
        ForSome joined
        (λ j. IsJoined tables.now j.columns.items j.entries.items j.labels.items)) }
{
    let width = usize::from(tables.classes());
    let states = usize::from(tables.conditions()) * 2 * (tables.states() as usize + 1);
    if width == 256 || states * (width + 1) > MAX_ENTRIES {
        return Ok(None);
    }
    let columns = columns_of(alloc, tables)?;
    let entries = entries_of(alloc, tables, states)?;
    let labels = labels_of(alloc, tables)?;
    Ok(Some(Joined {
        columns,
        entries,
        labels,
    }))
}

impl Tables {
    /// Returns the state of the joined table after the first byte of a match. The byte has this class, and is a newline or not.
    pub fn first_state(
        &self,
        condition: u16,
        at_line_begin: bool,
        class: u8,
        newline: bool,
    ) -> JoinedState
        requires condition { condition < length self.now.machine.starts }
        requires class { class < self.now.machine.width }
        ensures state { result ≡ begun self.now condition at_line_begin class newline }
        ensures known { IsJoinedState self.now result }
    {
        let start = self.start(condition, at_line_begin);
        JoinedState {
            condition,
            newline,
            state: target(self, Some(start.0), class),
        }
    }

    /// Returns the start of a joined state's row.
    pub fn row(&self, q: JoinedState) -> usize
        requires { IsJoinedState self.now q }
        ensures row { result ≡ joined_number self.now q * joined_width self.now }
        ensures within { result + joined_width self.now ≤ joined_len self.now }
    {
        let start = usize::from(q.condition) * 2 + bit(q.newline);
        let number = start * (self.states() as usize + 1) + encode(q.state);
        number * (usize::from(self.classes()) + 1)
    }

    /// Returns the condition of the state whose row begins at this entry.
    pub fn condition_of_row(&self, row: usize) -> u16
        requires { row < joined_len self.now }
        ensures { (q : JoinedState) → IsJoinedState self.now q
            → row ≡ joined_number self.now q * joined_width self.now → result ≡ q.condition }
    {
        let number = row / (usize::from(self.classes()) + 1);
        (number / (self.states() as usize + 1) / 2) as u16
    }

    /// Adds the joined table to these tables, unless it is too large. AllocError if an allocation fails.
    pub(crate) fn with_joined(self, alloc: Global) -> Result<Tables, AllocError>
        ensures { IfOk result (λ tables. tables ≡ self) }
    {
        let joined = joined_of(alloc, &self)?;
        let mut tables = self;
        tables.joined = joined;
        Ok(tables)
    }
}
