//! Finds the rules that take the texts of a rule that is never chosen.

ghost use Rattle.std.specs.Prelude.{◌≡◌, ◌+◌, ◌<◌, ◌≤◌, All, IfOk, IfSome, OnOk, length};
ghost use Rattle.lx_reach.specs.Takers.{IsPair, IsTaker, max_pairs};

use lx_tables::{State, Tables};
use std::alloc::{AllocError, Global};
use std::collections::HashSet;

/// The rules that take the texts of a rule that is never chosen.
#[derive(Drop)]
pub struct Takers {
    /// Number of that rule.
    pub of: u16,
    /// Each of these rules once. If all texts were examined and none is here, the rule matches no text of a byte.
    pub rules: Vec<u16>,
    /// A shortest text of that rule that the first of these takes.
    pub example: Vec<u8>,
    /// True if all texts were examined.
    pub is_whole: bool,
}

// Greatest number of pairs of states that are examined.
const MAX_PAIRS: usize = 20_000;

// Two states to which one text leads: in the tables of the rule alone, and in those of all rules.
#[derive(Clone, Copy)]
pub(crate) struct Pair {
    pub alone: u32,
    pub all: u32,
    // Number of bytes of the text, or 2 if it has more.
    pub level: u8,
    // Last byte of the text, and the place of the pair to which the bytes before it lead.
    pub byte: u8,
    pub before: usize,
}

// The pairs that were met, each once, those of shorter texts first.
#[derive(Drop)]
struct Search {
    pairs: Vec<Pair>,
    // States and levels of the pairs.
    known: HashSet<(u32, u32, u8)>,
    is_whole: bool,
}

fn meet(search: &mut Search, alone: &Tables, all: &Tables, pair: Pair) -> Result<(), AllocError>
    requires pair { IsPair alone.now.machine all.now.machine pair }
    requires pairs { All (IsPair alone.now.machine all.now.machine) search.old.pairs.items }
    requires few { length search.old.pairs.items ≤ max_pairs }
    ensures pairs { OnOk result
        (All (IsPair alone.now.machine all.now.machine) search.new.pairs.items) }
    ensures few { OnOk result (length search.new.pairs.items ≤ max_pairs) }
    ensures more { OnOk result (length search.old.pairs.items ≤ length search.new.pairs.items) }
{
    if search.pairs.len() >= MAX_PAIRS {
        search.is_whole = false;
        return Ok(());
    }
    if search.known.insert((pair.alone, pair.all, pair.level))? {
        search.pairs.push(pair)?;
    }
    Ok(())
}

// Returns the pair in which a condition begins.
fn first_pair(alone: &Tables, all: &Tables, condition: u16, at_line_begin: bool) -> Pair
    requires alone { condition < length alone.now.machine.starts }
    requires all { condition < length all.now.machine.starts }
    ensures { IsPair alone.now.machine all.now.machine result }
{
    Pair {
        alone: alone.start(condition, at_line_begin).0,
        all: all.start(condition, at_line_begin).0,
        level: 0,
        byte: 0,
        before: 0,
    }
}

fn next_level(level: u8) -> u8
    ensures { result ≤ level + 1 }
{
    if level < 2 { level + 1 } else { 2 }
}

// Returns the pair after one more byte, if both states have a step.
fn step_pair(alone: &Tables, all: &Tables, pair: Pair, place: usize, byte: u8) -> Option<Pair>
    requires { IsPair alone.now.machine all.now.machine pair }
    ensures { IfSome result (IsPair alone.now.machine all.now.machine) }
{
    let next_alone = alone.step(State(pair.alone), byte)?;
    let next_all = all.step(State(pair.all), byte)?;
    Some(Pair {
        alone: next_alone.0,
        all: next_all.0,
        level: next_level(pair.level),
        byte,
        before: place,
    })
}

fn meet_starts(search: &mut Search, alone: &Tables, all: &Tables) -> Result<(), AllocError>
    requires pairs { All (IsPair alone.now.machine all.now.machine) search.old.pairs.items }
    requires few { length search.old.pairs.items ≤ max_pairs }
    ensures pairs { OnOk result
        (All (IsPair alone.now.machine all.now.machine) search.new.pairs.items) }
    ensures few { OnOk result (length search.new.pairs.items ≤ max_pairs) }
{
    let conditions = all.conditions().min(alone.conditions());
    for condition in 0..conditions {
        meet(search, alone, all, first_pair(alone, all, condition, false))?;
        meet(search, alone, all, first_pair(alone, all, condition, true))?;
    }
    Ok(())
}

fn meet_next(
    search: &mut Search,
    alone: &Tables,
    all: &Tables,
    pair: Pair,
    place: usize,
) -> Result<(), AllocError>
    requires pair { IsPair alone.now.machine all.now.machine pair }
    requires pairs { All (IsPair alone.now.machine all.now.machine) search.old.pairs.items }
    requires few { length search.old.pairs.items ≤ max_pairs }
    ensures pairs { OnOk result
        (All (IsPair alone.now.machine all.now.machine) search.new.pairs.items) }
    ensures few { OnOk result (length search.new.pairs.items ≤ max_pairs) }
    ensures more { OnOk result (length search.old.pairs.items ≤ length search.new.pairs.items) }
{
    for byte in 0..=255 {
        if let Some(next) = step_pair(alone, all, pair, place, byte) {
            meet(search, alone, all, next)?;
        }
    }
    Ok(())
}

fn search_pairs(alloc: Global, alone: &Tables, all: &Tables) -> Result<Search, AllocError>
    ensures { IfOk result
        (λ search. All (IsPair alone.now.machine all.now.machine) search.pairs.items) }
{
    let mut search = Search {
        pairs: Vec::new(alloc),
        known: HashSet::new(alloc),
        is_whole: true,
    };
    meet_starts(&mut search, alone, all)?;
    let mut place = 0;
    while place < search.pairs.len() {
        let pair = search.pairs[place];
        meet_next(&mut search, alone, all, pair, place)?;
        place += 1;
    }
    Ok(search)
}

// Returns the rule that takes the text of a pair, if that is a text of the rule alone. The newline of a `$` isn't a part of the token, so the text
// has at least two bytes then.
fn taker(alone: &Tables, all: &Tables, pair: Pair) -> Option<u16>
    requires { IsPair alone.now.machine all.now.machine pair }
    ensures { IfSome result (IsTaker alone.now.machine all.now.machine) }
{
    let own = alone.accepts(State(pair.alone))?;
    let rule = all.accepts(State(pair.all))?;
    let least = if alone.cut(own) { 2 } else { 1 };
    if pair.level < least { None } else { Some(rule) }
}

// Returns the text that leads to the pair at a place.
fn text_of(alloc: Global, pairs: &[Pair], place: usize) -> Result<Vec<u8>, AllocError> {
    let mut text = Vec::new(alloc);
    let mut at = place;
    while at < pairs.len() && 0 < pairs[at].level && pairs[at].before < at {
        text.push(pairs[at].byte)?;
        at = pairs[at].before;
    }
    text.reverse();
    Ok(text)
}

/// Finds the rules that take the texts of the rule with this number. `alone` are the tables of that rule only, with the same conditions, and `all`
/// those of all rules. A rule takes a text if it is chosen for a text of a byte or more that the rule alone matches. Not all are found if more than
/// 20,000 pairs of states would have to be examined. Err: an allocation failed.
pub fn takers_of(alloc: Global, alone: &Tables, all: &Tables, of: u16) -> Result<Takers, AllocError>
    ensures of { IfOk result (λ takers. takers.of ≡ of) }
    ensures rules { IfOk result
        (λ takers. All (IsTaker alone.now.machine all.now.machine) takers.rules.items) }
{
    let search = search_pairs(alloc, alone, all)?;
    let mut rules = Vec::new(alloc);
    let mut example = Vec::new(alloc);
    for place in 0..search.pairs.len() {
        let Some(rule) = taker(alone, all, search.pairs[place]) else {
            continue;
        };
        if rules.is_empty() {
            example = text_of(alloc, &search.pairs, place)?;
        }
        if !rules.contains(&rule) {
            rules.push(rule)?;
        }
    }
    Ok(Takers {
        of,
        rules,
        example,
        is_whole: search.is_whole,
    })
}
