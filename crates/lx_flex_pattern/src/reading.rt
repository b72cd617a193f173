//! Reads flex patterns once from left to right (flex's manual, "Patterns").

ghost use Rattle.std.specs.Prelude.{◌≡◌, ◌≢◌, ◌+◌, ◌-◌, ◌∷◌, ◌++◌, [], IfErr, IfOk, IfSome, IsTrue, List, None, Option, Some, false, length, map, true, ℕ};
ghost use Rattle.std.specs.Option.{option_map};
ghost use Rattle.lx_ere.specs.Groups.{groups_of};
ghost use Rattle.lx_ere.specs.Lexemes.{lexeme_of};
ghost use Rattle.lx_ere.specs.Bounds.{has_ordered_bounds};
ghost use Rattle.lx_ere.specs.Regex.{Regex, regex_of};
ghost use Rattle.lx_ere.specs.Stacks.{Stack, run, step};
ghost use Rattle.lx_flex_pattern.specs.Faults.{is_limit};
ghost use Rattle.lx_flex_pattern.specs.Intervals.{IsKeptAs, KeepsPattern, has_small_bounds};
ghost use Rattle.lx_flex_pattern.specs.KeptStacks.{AreKeptStacks, IsKeptStack};
ghost use Rattle.lx_flex_pattern.specs.Lexing.{Definition};
ghost use Rattle.lx_flex_pattern.specs.Pieces.{interval_of, names_of, state_of};
ghost use Rattle.lx_flex_pattern.specs.Progress.{Reached, ReadsKept, ReadsNothing, Tells, end_of, halts, outcome_of, place_of, stop_of};
ghost use Rattle.lx_flex_pattern.specs.Reading.{EndsAt, FlexReading, IsFlexPattern, Place, at_end, place};
ghost use Rattle.lx_flex_pattern.specs.ReadingOf.{reading_of};
ghost use Rattle.lx_flex_pattern.specs.Translation.{HaveSameTexts};

use crate::bounds::Interval;
use crate::fault::PatternFault;
use crate::interval::repeated;
use crate::lexing::{PatternState, Piece, piece_at};
use crate::names::NamedPatterns;
use crate::options::PatternOptions;
use lx_ere::groups::{
    Groups, finish, no_groups, put_branch, put_unit, step, take_branch, take_unit,
};
use lx_ere::lexeme::Lexeme;
use lx_ere::{Expr, Pattern};
use std::alloc::{AllocError, Global};

/// Greatest number of bytes of a pattern in a file, including comments within `(?x:`.
pub const MAX_FLEX_PATTERN_BYTES: usize = 4096;

// Greatest number of parts of a pattern, with its definitions written out. Trees are gone over by calls that are nested as deep as a chain of parts is
// long, so the stack is the limit: a part takes some 300 bytes of it.
const MAX_PARTS: u16 = 8192;

// Greatest number of bytes that may be left after a definition's text was inserted.
const MAX_INLINED_BYTES: usize = 8192;

// Greatest number of definitions that are inserted for one pattern.
const MAX_INLINED: u16 = 1024;

/// A pattern that was read.
#[derive(Debug, Drop)]
pub struct PatternReading {
    /// The pattern, without the trailing context after a `/`.
    pub pattern: Pattern,
    /// The trailing context.
    pub trailing: Option<Expr>,
    /// Number of bytes of the pattern.
    pub length: usize,
    /// Number of its parts, with definitions written out: bytes, brackets, parentheses, operators. It limits what a file takes.
    pub parts: u16,
}

// The place of a part of a pattern: the text from there on, and the number of its first bytes that definitions inserted.
#[derive(Drop)]
struct PlaceInText {
    state: PatternState,
    text: Vec<u8>,
    inserted: usize,
    // Number of parts that may be read from there on.
    parts: u16,
}

// The stop of a row of parts.
#[derive(Clone, Copy)]
enum RowStop {
    End,
    /// A `$` before the end.
    Dollar,
    /// The `/` before a trailing context.
    Slash,
}

// The end of the parts that were read in one go: a definition's text follows, or the stop of the row.
#[derive(Drop)]
enum RowEnd {
    Inserts(Groups, PlaceInText),
    Stops(Groups, RowStop, PlaceInText),
}

// An alternation that was read, its stop and the place after it.
#[derive(Drop)]
struct Alternation {
    tree: Expr,
    stop: RowStop,
    last: PlaceInText,
}

// Returns the number of inserted bytes that are left.
fn inserted_left(inserted: usize, before: &[u8], after: &[u8]) -> usize
    ensures { result ≡ inserted - (length before.now - length after.now) }
{
    inserted.saturating_sub(before.len().saturating_sub(after.len()))
}

// Hands lexemes to the open groups. Returns `None` if one isn't allowed there.
fn take_lexemes(
    alloc: Global,
    groups: Groups,
    lexemes: Vec<Lexeme>,
) -> Result<Option<Groups>, AllocError>
    ensures { IfOk result (λ o.
        option_map groups_of o ≡ run (map lexeme_of lexemes.items) (groups_of groups)) }
{
    let mut groups = groups;
    for lexeme in lexemes {
        let Some(next) = step(alloc, groups, lexeme)? else {
            return Ok(None);
        };
        groups = next;
    }
    Ok(Some(groups))
}

// Repeats the last unit or the branch. Returns `None` if there is none.
fn repeat(alloc: Global, groups: Groups, interval: Interval) -> Result<Option<Groups>, PatternFault>
    ensures ok { IfOk result (λ o. (written : Stack) → IsKeptStack written (groups_of groups)
        → AreKeptStacks (step (interval_of interval) written) (option_map groups_of o)) }
    ensures err { IfErr result (λ fault. is_limit fault ≡ true) }
{
    if interval.repeats_branch {
        let Some((groups, branch)) = take_branch(alloc, groups)? else {
            return Ok(None);
        };
        let branch = repeated(alloc, branch, interval.bounds)?;
        Ok(Some(put_branch(groups, branch)))
    } else {
        let Some((groups, unit)) = take_unit(groups) else {
            return Ok(None);
        };
        let unit = repeated(alloc, unit, interval.bounds)?;
        Ok(Some(put_unit(groups, unit)))
    }
}

// Hands lexemes and then an interval to the open groups. Returns `None` if one isn't allowed there.
fn take_interval(
    alloc: Global,
    groups: Groups,
    lexemes: Vec<Lexeme>,
    interval: Interval,
) -> Result<Option<Groups>, PatternFault>
    ensures ok { IfOk result (λ o. (written : Stack) → IsKeptStack written (groups_of groups)
        → AreKeptStacks (run (map lexeme_of lexemes.items ++ interval_of interval ∷ []) written)
        (option_map groups_of o)) }
    ensures err { IfErr result (λ fault. is_limit fault ≡ true) }
{
    let Some(groups) = take_lexemes(alloc, groups, lexemes)? else {
        return Ok(None);
    };
    repeat(alloc, groups, interval)
}

// Returns the place at a definition's text.
fn place_at_text(
    alloc: Global,
    state: PatternState,
    front: &[u8],
    inserted: usize,
    rest: &[u8],
) -> Result<PlaceInText, PatternFault>
    ensures ok { IfOk result (λ p. place_of p
        ≡ place (state_of state) (length front.now + inserted) (front.now ++ rest.now)) }
    ensures err { IfErr result (λ fault. is_limit fault ≡ true) }
{
    if front.len() > MAX_INLINED_BYTES || rest.len() > MAX_INLINED_BYTES || inserted > rest.len() {
        return Err(PatternFault::TooLarge);
    }
    let mut text = Vec::from_slice(alloc, front)?;
    text.extend_from_slice(rest)?;
    let inserted = front.len() + inserted;
    Ok(PlaceInText {
        state,
        text,
        inserted,
        parts: 0,
    })
}

// Ends a row of parts.
fn stopped(
    alloc: Global,
    groups: Groups,
    lexemes: Vec<Lexeme>,
    stop: RowStop,
    state: PatternState,
    inserted: usize,
    rest: &[u8],
) -> Result<RowEnd, PatternFault>
    ensures ok { IfOk result (λ end.
        option_map (λ g. halts g (stop_of stop) (place (state_of state) inserted rest.now))
        (run (map lexeme_of lexemes.items) (groups_of groups)) ≡ Some (end_of end)) }
    ensures refused { IfErr result (λ fault. is_limit fault ≡ false
        → run (map lexeme_of lexemes.items) (groups_of groups) ≡ None) }
{
    let Some(groups) = take_lexemes(alloc, groups, lexemes)? else {
        return Err(PatternFault::NoForm);
    };
    let last = PlaceInText {
        state,
        text: Vec::from_slice(alloc, rest)?,
        inserted,
        parts: 0,
    };
    Ok(RowEnd::Stops(groups, stop, last))
}

// One part of a row: the place after it, or the end of what can be read in one go.
#[derive(Drop)]
enum RowPart<'t> {
    Goes(Groups, PatternState, usize, &'t [u8]),
    Done(RowEnd),
}

// Reads a part.
fn read_part<'t>(
    alloc: Global,
    options: PatternOptions,
    names: &NamedPatterns,
    groups: Groups,
    state: PatternState,
    inserted: usize,
    text: &'t [u8],
) -> Result<RowPart<'t>, PatternFault>
    ensures ok { IfOk result (λ part. (from : Place)
        → Reached options (names_of names.now) from (groups_of groups)
        (place (state_of state) inserted text.now)
        → Tells options (names_of names.now) from (outcome_of part)) }
    ensures refused { IfErr result (λ fault. is_limit fault ≡ false → (from : Place)
        → Reached options (names_of names.now) from (groups_of groups)
        (place (state_of state) inserted text.now)
        → ReadsNothing options (names_of names.now) from) }
{
    let piece = piece_at(alloc, options, names, state, text)?;
    match piece {
        Piece::Goes(lexemes, next, rest) => {
            let left = inserted_left(inserted, text, rest);
            let Some(groups) = take_lexemes(alloc, groups, lexemes)? else {
                return Err(PatternFault::NoForm);
            };
            Ok(RowPart::Goes(groups, next, left, rest))
        }
        Piece::Inserts(lexemes, next, front, rest) => {
            let left = inserted_left(inserted, text, rest);
            let Some(groups) = take_lexemes(alloc, groups, lexemes)? else {
                return Err(PatternFault::NoForm);
            };
            let next = place_at_text(alloc, next, front.as_slice(), left, rest)?;
            Ok(RowPart::Done(RowEnd::Inserts(groups, next)))
        }
        Piece::Repeats(lexemes, interval, next, rest) => {
            let left = inserted_left(inserted, text, rest);
            let Some(groups) = take_interval(alloc, groups, lexemes, interval)? else {
                return Err(PatternFault::NoForm);
            };
            Ok(RowPart::Goes(groups, next, left, rest))
        }
        Piece::Ends(lexemes, last, rest) => {
            let left = inserted_left(inserted, text, rest);
            let end = stopped(alloc, groups, lexemes, RowStop::End, last, left, rest)?;
            Ok(RowPart::Done(end))
        }
        Piece::EndsLine(lexemes, last, rest) => {
            let left = inserted_left(inserted, text, rest);
            let end = stopped(alloc, groups, lexemes, RowStop::Dollar, last, left, rest)?;
            Ok(RowPart::Done(end))
        }
        Piece::Slash(lexemes, last, rest) => {
            let left = inserted_left(inserted, text, rest);
            let end = stopped(alloc, groups, lexemes, RowStop::Slash, last, left, rest)?;
            Ok(RowPart::Done(end))
        }
        Piece::Wrong(fault) => Err(fault),
    }
}

// Returns the place with this number of parts that may be read.
fn with_parts(place: PlaceInText, parts: u16) -> PlaceInText
    ensures { place_of result ≡ place_of place }
{
    let PlaceInText {
        state,
        text,
        inserted,
        parts: _parts,
    } = place;
    PlaceInText {
        state,
        text,
        inserted,
        parts,
    }
}

// Returns the end of what was read in one go, with this number of parts that may be read.
fn end_with_parts(end: RowEnd, parts: u16) -> RowEnd
    ensures { end_of result ≡ end_of end }
{
    match end {
        RowEnd::Inserts(groups, place) => RowEnd::Inserts(groups, with_parts(place, parts)),
        RowEnd::Stops(groups, stop, place) => {
            RowEnd::Stops(groups, stop, with_parts(place, parts))
        }
    }
}

// Reads parts up to a definition's text or to the stop of the row.
fn read_row(
    alloc: Global,
    options: PatternOptions,
    names: &NamedPatterns,
    groups: Groups,
    place: PlaceInText,
) -> Result<RowEnd, PatternFault>
    ensures ok { IfOk result (λ end. (from : Place)
        → Reached options (names_of names.now) from (groups_of groups) (place_of place)
        → Tells options (names_of names.now) from (end_of end)) }
    ensures refused { IfErr result (λ fault. is_limit fault ≡ false → (from : Place)
        → Reached options (names_of names.now) from (groups_of groups) (place_of place)
        → ReadsNothing options (names_of names.now) from) }
{
    let PlaceInText {
        state,
        text,
        inserted,
        parts,
    } = place;
    let mut state = state;
    let mut groups = groups;
    let mut inserted = inserted;
    let mut parts = parts;
    let mut rest = text.as_slice();
    while parts > 0 {
        parts -= 1;
        match read_part(alloc, options, names, groups, state, inserted, rest)? {
            RowPart::Goes(next_groups, next_state, left, behind) => {
                groups = next_groups;
                state = next_state;
                inserted = left;
                rest = behind;
            }
            RowPart::Done(end) => return Ok(end_with_parts(end, parts)),
        }
    }
    Err(PatternFault::TooLarge)
}

// Returns the fault of a row that isn't an alternation.
fn unfinished(state: &PatternState) -> PatternFault {
    if state.is_outermost() {
        PatternFault::NoForm
    } else {
        PatternFault::NotClosed
    }
}

// Reads an alternation, up to its stop.
fn read_alternation(
    alloc: Global,
    options: PatternOptions,
    names: &NamedPatterns,
    place: PlaceInText,
) -> Result<Alternation, PatternFault>
    ensures ok { IfOk result (λ a. ReadsKept options (names_of names.now) (place_of place)
        (regex_of a.tree) (stop_of a.stop) (place_of a.last)) }
    ensures refused { IfErr result (λ fault. is_limit fault ≡ false
        → ReadsNothing options (names_of names.now) (place_of place)) }
{
    let mut groups = no_groups(alloc);
    let mut place = place;
    for _ in 0..MAX_INLINED {
        match read_row(alloc, options, names, groups, place)? {
            RowEnd::Inserts(next_groups, next) => {
                groups = next_groups;
                place = next;
            }
            RowEnd::Stops(last_groups, stop, last) => {
                let Some(tree) = finish(alloc, last_groups)? else {
                    return Err(unfinished(&last.state));
                };
                return Ok(Alternation { tree, stop, last });
            }
        }
    }
    Err(PatternFault::TooLarge)
}

// Returns true if a row stops at the end of the pattern.
fn is_end(stop: RowStop) -> bool
    ensures end { result ≡ true → stop_of stop ≡ at_end }
    ensures other { result ≡ false → stop_of stop ≢ at_end }
{
    matches!(stop, RowStop::End)
}

// Returns the reading of a pattern that ends at this place of the text. Returns `None` if it ends in a definition's text.
fn finished(
    text: &[u8],
    line_begin: bool,
    line_end: bool,
    expr: Expr,
    trailing: Option<Expr>,
    last: &PlaceInText,
) -> Option<PatternReading>
    ensures ends { IfSome result (λ r. EndsAt text.now r.length (place_of last.now)) }
    ensures reading { IfSome result (λ r. reading_of r ≡ record {
      line_begin = line_begin;
      line_end = line_end;
      tree = regex_of expr;
      trailing = option_map regex_of trailing;
      length = r.length;
    }) }
    ensures none { result ≡ None → (n : ℕ) → EndsAt text.now n (place_of last.now) → ⊥ }
{
    if last.inserted != 0 || last.text.len() > text.len() {
        return None;
    }
    Some(PatternReading {
        pattern: Pattern {
            line_begin,
            line_end,
            expr,
        },
        trailing,
        length: text.len() - last.text.len(),
        parts: MAX_PARTS.saturating_sub(last.parts),
    })
}

/// Reads the pattern at the start of a text, up to a blank that separates or to the line's end. `names` are the definitions.
///
/// The result is the reading by the grammar of flex (its manual, "Patterns"): an interval applies to the last unit, and a definition's text counts as if
/// it stood in parentheses in the place of its name, with the exceptions of flex. An interval with a bound above 255 is kept as several ones with the
/// same texts, as `r{512}` as `(r{64}){8}`.
///
/// Err: the cause if flex has no such pattern. A limit if it is too long: the text has at most 4,096 bytes, the pattern at most 8,192 parts, at most
/// 1,024 definitions are expanded, a bound of an interval is at most 16,383, and an expression that is copied for one has at most 1,024 parts.
pub fn read_pattern(
    alloc: Global,
    text: &[u8],
    names: &NamedPatterns,
    options: PatternOptions,
) -> Result<PatternReading, PatternFault>
    ensures reading { IfOk result
        (λ r. KeepsPattern options (names_of names.now) text.now (reading_of r)) }
    ensures refused { IfErr result (λ fault. is_limit fault ≡ false → (r : FlexReading)
        → IsFlexPattern options (names_of names.now) text.now r → ⊥) }
{
    if text.len() > MAX_FLEX_PATTERN_BYTES {
        return Err(PatternFault::TooLarge);
    }
    let start = PlaceInText {
        state: PatternState::new(alloc, options),
        text: Vec::from_slice(alloc, text)?,
        inserted: 0,
        parts: MAX_PARTS,
    };
    let Alternation { tree, stop, last } = read_alternation(alloc, options, names, start)?;
    let line_begin = last.state.line_begin;
    match stop {
        RowStop::End => match finished(text, line_begin, false, tree, None, &last) {
            Some(read) => Ok(read),
            None => Err(PatternFault::NotClosed),
        },
        RowStop::Dollar => match finished(text, line_begin, true, tree, None, &last) {
            Some(read) => Ok(read),
            None => Err(PatternFault::NotClosed),
        },
        RowStop::Slash => {
            let Alternation {
                tree: trailing,
                stop,
                last: end,
            } = read_alternation(alloc, options, names, last)?;
            if !is_end(stop) {
                return Err(PatternFault::NoForm);
            }
            match finished(text, line_begin, false, tree, Some(trailing), &end) {
                Some(read) => Ok(read),
                None => Err(PatternFault::NotClosed),
            }
        }
    }
}

/// States a law: a text begins with at most one pattern, and that has at most one reading.
pub fn one_flex_reading()
    ensures { (o : PatternOptions) (names : List ℕ → Option Definition) (text : List ℕ)
        (r s : FlexReading) → IsFlexPattern o names text r → IsFlexPattern o names text s → r ≡ s }
{}

/// States laws of the form in which trees are kept: a tree has the texts of the one that it keeps, is the same if no bound is above 255, and has its
/// bounds in order if that one has.
pub fn kept_trees_mean_the_same()
    ensures texts { (t r : Regex) → IsKeptAs t r → HaveSameTexts t r }
    ensures small { (t r : Regex) → IsTrue (has_small_bounds t) → IsKeptAs t r → t ≡ r }
    ensures ordered { (t r : Regex) → IsTrue (has_ordered_bounds t) → IsKeptAs t r
        → IsTrue (has_ordered_bounds r) }
{}
