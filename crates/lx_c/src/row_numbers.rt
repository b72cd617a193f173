//! The words of the rows of a scanner in C.

ghost use Rattle.std.specs.Prelude.{◌≡◌, ◌<◌, length};
ghost use Rattle.lx_automaton.specs.Automata.{accepted_by, class_target, start_of, state_count};
ghost use Rattle.lx_c.specs.Words as rows;

use lx_tables::{State, Tables};

// Returns the place where the row of a state begins.
fn row_of(tables: &Tables, state: State) -> u64
    ensures { result ≡ rows.row_of tables.now.machine state.0 }
{
    (u64::from(state.0) + 1) * (u64::from(tables.classes()) + 1)
}

/// Returns the place of the row to which a state steps on a class, or 0.
pub fn target_word(tables: &Tables, state: u32, class: u8) -> u64
    requires state { state < state_count tables.now.machine }
    requires class { class < tables.now.machine.width }
    ensures { result
        ≡ rows.target_word tables.now.machine (class_target tables.now.machine state class) }
{
    match tables.class_step(State(state), class) {
        None => 0,
        Some(target) => row_of(tables, target),
    }
}

/// Returns the number of the rule that a state accepts plus 1, or 0.
pub fn rule_word(tables: &Tables, state: u32) -> u32
    requires { state < state_count tables.now.machine }
    ensures { result ≡ rows.rule_word (accepted_by tables.now.machine state) }
{
    match tables.accepts(State(state)) {
        None => 0,
        Some(rule) => u32::from(rule) + 1,
    }
}

/// Returns the place of the row of the state in which a condition starts.
pub fn start_word(tables: &Tables, condition: u16, at_line_begin: bool) -> u64
    requires { condition < length tables.now.machine.starts }
    ensures { result
        ≡ rows.row_of tables.now.machine (start_of tables.now.machine condition at_line_begin) }
{
    row_of(tables, tables.start(condition, at_line_begin))
}

/// Returns an upper bound of all words of rows.
pub fn greatest_word(tables: &Tables) -> u64
    ensures { result ≡ rows.greatest_word tables.now }
{
    let words = (u64::from(tables.classes()) + 1) * u64::from(tables.states());
    words.max(u64::from(tables.rules()))
}
