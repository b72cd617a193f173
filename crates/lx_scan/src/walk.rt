//! Walks over the bytes of a match until nothing more can be accepted, with a memory of where earlier walks have failed. A walk over a text that arrives in
//! blocks goes on when further bytes are there.

ghost use Rattle.std.specs.Prelude.{◌≡◌, ◌<◌, ◌≤◌, ◌+◌, ◌^◌, ℕ, List, MatchOption, None, Some, false, true, drop, length};
ghost use Rattle.std.specs.Option.{ForSome, option_map, option_or};
ghost use Rattle.lx_automaton.specs.Automata.{accepted_by, state_count, target_of};
ghost use Rattle.lx_tables.specs.Model.{IsTable};
ghost use Rattle.lx_scan.specs.Answers.{match_after, token_len};
ghost use Rattle.lx_scan.specs.Streams.{GoesOnBy, IsDecided, IsOpenMemory, IsSilentSince, IsStopped, IsWalked};

use crate::choice::{has_token, len_of_token};
use crate::memory::ScanMemory;
use crate::place::{Match, Place};
use crate::scanner::{match_of, place_after};
use lx_tables::well_formed::tables_are_well_formed;
use lx_tables::{State, Tables};

// Least number of bytes of a failed lookahead that is remembered. Shorter ones are usual, and cost little.
const LONG: usize = 64;

/// The last accepted rule with a token, and the number of bytes after which it was accepted. Also the number of bytes after which none was accepted, with
/// the state there.
#[derive(Clone, Copy)]
pub(crate) struct LongestMatch {
    pub(crate) last: Option<(u16, usize)>,
    pub(crate) since: usize,
    pub(crate) state: State,
}

/// A walk over the bytes of a match in progress: the number of bytes read, the state after them, and the longest match so far.
#[derive(Clone, Copy)]
pub(crate) struct Walk {
    pub(crate) read: usize,
    pub(crate) state: State,
    pub(crate) found: LongestMatch,
}

impl Walk {
    /// Returns the walk before the first byte at a place.
    pub(crate) fn begin(tables: &Tables, place: Place) -> Walk
        requires { place.condition < length tables.now.machine.starts }
        ensures walked { (held : List ℕ)
            → IsWalked tables.now place held result.read result.state.0 result.found.last }
        ensures silent { (held : List ℕ)
            → IsSilentSince tables.now.machine held result.read result.state.0 result.found.since
            result.found.state.0 }
        ensures table { IsTable tables.now }
    {
        let state = tables.start(place.condition, place.at_line_begin);
        Walk {
            read: 0,
            state,
            found: LongestMatch {
                last: None,
                since: 0,
                state,
            },
        }
    }

    /// Walks on over the bytes from a position on, until nothing more can be accepted or all are read. Returns the walk, and true if nothing more can be
    /// accepted.
    #[inline(never)]
    pub(crate) fn over(
        self,
        tables: &Tables,
        place: Place,
        bytes: &[u8],
        start: usize,
        has_ended: bool,
        memory: &ScanMemory,
    ) -> (Walk, bool)
        requires table { IsTable tables.now }
        requires within { start ≤ length bytes.now }
        requires walked { IsWalked tables.now place (drop start bytes.now)
            self.read self.state.0 self.found.last }
        requires silent { IsSilentSince tables.now.machine (drop start bytes.now)
            self.read self.state.0 self.found.since self.found.state.0 }
        requires memory { IsOpenMemory tables.now bytes.now has_ended memory.now }
        ensures walked { IsWalked tables.now place (drop start bytes.now)
            result.0.read result.0.state.0 result.0.found.last }
        ensures silent { IsSilentSince tables.now.machine (drop start bytes.now)
            result.0.read result.0.state.0 result.0.found.since result.0.found.state.0 }
        ensures stopped { result.1 ≡ true
            → IsStopped tables.now.machine (drop start bytes.now) has_ended
            result.0.read result.0.state.0 }
        ensures all { result.1 ≡ false → result.0.read ≡ length (drop start bytes.now) }
    {
        // for contracts only
        let _ = (place, has_ended);
        let mut walk = self;
        while start + walk.read < bytes.len() {
            if memory.has_failed(start + walk.read, walk.state) {
                return (walk, true);
            }
            let Some(next) = tables.step(walk.state, bytes[start + walk.read]) else {
                return (walk, true);
            };
            walk.read += 1;
            accept_at(tables, next, walk.read, &mut walk.found);
            walk.state = next;
        }
        (walk, false)
    }

    /// Remembers the states since it accepted last, if they are many. Nothing more can be accepted from them.
    pub(crate) fn remember(
        &self,
        tables: &Tables,
        bytes: &[u8],
        start: usize,
        has_ended: bool,
        memory: &mut ScanMemory,
    )
        requires table { IsTable tables.now }
        requires within { start + self.now.read ≤ length bytes.now }
        requires silent { IsSilentSince tables.now.machine (drop start bytes.now)
            self.now.read self.now.state.0 self.now.found.since self.now.found.state.0 }
        requires stopped { IsStopped tables.now.machine (drop start bytes.now) has_ended
            self.now.read self.now.state.0 }
        requires memory { IsOpenMemory tables.now bytes.now has_ended memory.old }
        ensures memory { IsOpenMemory tables.now bytes.now has_ended memory.new }
    {
        // for contracts only
        let _ = has_ended;
        if self.read - self.found.since < LONG {
            return;
        }
        memory.grow(bytes.len());
        let from = start + self.found.since;
        let end = start + self.read;
        let mut state = self.found.state;
        for at in from..end {
            memory.keep(at, state, from);
            let Some(next) = tables.step(state, bytes[at]) else {
                return;
            };
            state = next;
        }
    }
}

// Notes the rule that is accepted in a state after `read` bytes. If none is accepted, it writes nothing: a returned value would be copied at each byte.
#[inline(always)]
fn accept_at(tables: &Tables, state: State, read: usize, found: &mut LongestMatch)
    requires state { state.0 < state_count tables.now.machine }
    requires some { 0 < read }
    ensures last { found.new.last
        ≡ option_or (match_after tables.now (accepted_by tables.now.machine state.0) read)
        found.old.last }
    ensures since { MatchOption (accepted_by tables.now.machine state.0)
        ((found.new.since ≡ found.old.since) × (found.new.state.0 ≡ found.old.state.0))
        (λ _. (found.new.since ≡ read) × (found.new.state.0 ≡ state.0)) }
{
    if let Some(rule) = tables.accepts(state) {
        if has_token(tables, rule, read) {
            found.last = Some((rule, read));
        }
        found.since = read;
        found.state = state;
    }
}

/// Returns true if there is a step from a state on some byte.
pub(crate) fn has_step(tables: &Tables, state: State) -> bool
    requires { state.0 < state_count tables.now.machine }
    ensures some { result ≡ true → (byte next : ℕ) × (byte < 256)
        × (target_of tables.now.machine state.0 byte ≡ Some next) }
    ensures none { result ≡ false → (byte : ℕ)
        → target_of tables.now.machine state.0 byte ≡ None }
{
    // a law: a number that is no byte has no step either, which texts of contracts may contain
    tables_are_well_formed(tables);
    for byte in 0..256_u16 {
        if tables.step(state, byte as u8).is_some() {
            return true;
        }
    }
    false
}

// Returns the choice of the last accepted rule, with the length of its token.
fn chosen(tables: &Tables, last: Option<(u16, usize)>) -> Option<(u16, usize)>
    requires { ForSome last (λ f. (f.0 < length tables.now.rules) × (0 < f.1)) }
    ensures { result ≡ option_map (λ f. (f.0, token_len tables.now f.0 f.1)) last }
{
    let (rule, read) = last?;
    Some((rule, len_of_token(tables, rule, read)))
}

/// Returns the match of the last accepted rule at a place, and the place after it.
pub(crate) fn decide(
    tables: &Tables,
    place: Place,
    held: &[u8],
    has_ended: bool,
    last: Option<(u16, usize)>,
) -> (Match, Place)
    requires known { place.condition < length tables.now.machine.starts }
    requires line_some { 1 ≤ place.line }
    requires line_few { place.line ≤ place.offset + 1 }
    requires some { 0 < length held.now }
    requires room { place.offset + length held.now + 1 < 2 ^ 64 }
    requires decided { IsDecided tables.now place held.now has_ended last }
    ensures { GoesOnBy tables.now place held.now has_ended result.0 result.1 }
{
    // a law: the rule of an accepted state exists
    tables_are_well_formed(tables);
    let _ = has_ended;
    let found = match_of(place.offset, chosen(tables, last));
    (found, place_after(tables, held, place, found))
}
