//! Chooses among rules. The tables step byte by byte, and the last position at which a rule with a token is accepted counts.

ghost use Rattle.std.specs.Prelude.{◌≡◌, ◌<◌, length, nat_lt};
ghost use Rattle.std.specs.Option.{option_or};
ghost use Rattle.lx_tables.specs.Model.{IsTable};
ghost use Rattle.lx_automaton.specs.Automata.{accepted_by, state_count};
ghost use Rattle.lx_scan.specs.Answers.{choice_of, furthest, match_after, token_len};

use lx_tables::{State, Tables};

// Returns true if a rule that is accepted after `read` bytes, at least one, has a token. The newline of a `$` alone is none.
#[inline(always)]
pub(crate) fn has_token(tables: &Tables, rule: u16, read: usize) -> bool
    requires rule { rule < length tables.now.rules }
    requires some { 0 < read }
    ensures { result ≡ nat_lt 0 (token_len tables.now rule read) }
{
    read > 1 || !tables.cut(rule)
}

// Returns the last accepted rule with a token, and the number of bytes after which it was accepted, given one more state.
#[inline(always)]
fn latest(
    tables: &Tables,
    state: State,
    read: usize,
    last: Option<(u16, usize)>,
) -> Option<(u16, usize)>
    requires state { state.0 < state_count tables.now.machine }
    requires some { 0 < read }
    ensures { result
        ≡ option_or (match_after tables.now (accepted_by tables.now.machine state.0) read) last }
{
    match tables.accepts(state) {
        Some(rule) if has_token(tables, rule, read) => Some((rule, read)),
        _ => last,
    }
}

// Returns the last accepted rule with a token in the text, and the number of bytes after which it was accepted. Takes one step a byte, until a step
// is missing.
#[tactic(auto, using(crate::proofs::Stepping::scan_steps))]
fn last_accepted(tables: &Tables, condition: u16, begin: bool, text: &[u8]) -> Option<(u16, usize)>
    requires { condition < length tables.now.machine.starts }
    ensures read { result ≡ furthest tables.now condition begin text.now (length text.now) }
    ensures table { IsTable tables.now }
{
    let mut state = tables.start(condition, begin);
    let mut last = None;
    for (i, byte) in text.iter().enumerate() {
        let Some(next) = tables.step(state, *byte) else {
            return last;
        };
        last = latest(tables, next, i + 1, last);
        state = next;
    }
    last
}

// Returns the length of a token whose rule is accepted after `read` bytes. The newline of a `$` isn't a part of it.
pub(crate) fn len_of_token(tables: &Tables, rule: u16, read: usize) -> usize
    requires rule { rule < length tables.now.rules }
    requires some { 0 < read }
    ensures { result ≡ token_len tables.now rule read }
{
    if tables.cut(rule) { read - 1 } else { read }
}

/// Returns the chosen rule for the start of a text, and the length of its token (XCU `lex`, "Rules in lex").
pub(crate) fn choose(
    tables: &Tables,
    condition: u16,
    begin: bool,
    text: &[u8],
) -> Option<(u16, usize)>
    requires { condition < length tables.now.machine.starts }
    ensures choice { result ≡ choice_of tables.now condition begin text.now }
    ensures table { IsTable tables.now }
{
    let (rule, read) = last_accepted(tables, condition, begin, text)?;
    Some((rule, len_of_token(tables, rule, read)))
}
