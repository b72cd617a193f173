//! Finds out if there is a byte that no rule takes.

ghost use Rattle.std.specs.Prelude.{◌≡◌, ◌≢◌, ◌<◌, ◌∷◌, [], ℕ, Bool, None, false, length, true};
ghost use Rattle.lx_automaton.specs.Automata.{answer, state_count};
ghost use Rattle.lx_reach.specs.Untaken.{IsUntaken, TakesAll};

use lx_tables::{State, Tables};

// Returns true if a rule takes this byte, where it is the whole text.
fn takes(tables: &Tables, condition: u16, at_line_begin: bool, byte: u8) -> bool
    requires { condition < length tables.now.machine.starts }
    ensures yes { result ≡ true
        → answer tables.now.machine condition at_line_begin (byte ∷ []) ≢ None }
    ensures no { result ≡ false
        → answer tables.now.machine condition at_line_begin (byte ∷ []) ≡ None }
{
    match tables.step(tables.start(condition, at_line_begin), byte) {
        Some(state) => tables.accepts(state).is_some(),
        None => false,
    }
}

// Returns true if rules take each byte in a condition.
fn takes_all(tables: &Tables, condition: u16, at_line_begin: bool) -> bool
    requires { condition < length tables.now.machine.starts }
    ensures yes { result ≡ true → TakesAll tables.now.machine condition at_line_begin }
    ensures no { result ≡ false → IsUntaken tables.now.machine }
{
    for byte in 0..256u16 {
        if !takes(tables, condition, at_line_begin, byte as u8) {
            return false;
        }
    }
    true
}

// Returns true if they do at the start of a line and elsewhere.
fn takes_all_bytes(tables: &Tables, condition: u16) -> bool
    requires { condition < length tables.now.machine.starts }
    ensures yes { result ≡ true
        → (begin : Bool) → TakesAll tables.now.machine condition begin }
    ensures no { result ≡ false → IsUntaken tables.now.machine }
{
    takes_all(tables, condition, false) && takes_all(tables, condition, true)
}

/// Returns true if the default rule is chosen for some text: in some condition, no rule takes some byte if the text ends after it.
pub fn is_default_chosen(tables: &Tables) -> bool
    ensures yes { result ≡ true → IsUntaken tables.now.machine }
    ensures no { result ≡ false → (condition : ℕ) (begin : Bool)
        → condition < length tables.now.machine.starts → TakesAll tables.now.machine condition begin }
{
    for condition in 0..tables.conditions() {
        if !takes_all_bytes(tables, condition) {
            return true;
        }
    }
    false
}
