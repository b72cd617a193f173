//! Reads the parts of a flex pattern, one after the other (flex's manual, "Patterns").

ghost use Rattle.std.specs.Prelude.{◌≡◌, ◌∷◌, [], IfErr, IfOk, List, Option, Some, if◌then◌else◌, map, true, ℕ};
ghost use Rattle.std.specs.Option.{option_map};
ghost use Rattle.lx_ere.specs.Lexemes.{lexeme_of};
ghost use Rattle.lx_flex_pattern.specs.Faults.{is_limit};
ghost use Rattle.lx_flex_pattern.specs.Lexing as specs;
ghost use Rattle.lx_flex_pattern.specs.Pieces.{definition_of, names_of, pending_of, piece_of, state_of};
ghost use Rattle.lx_flex_pattern.specs.Sets as sets;
ghost use Rattle.lx_flex_pattern.specs.Spelling as spelling;

use crate::bounds::Interval;
use crate::brackets::{BracketSet, brackets_at, brackets_fault};
use crate::fault::PatternFault;
use crate::flags::Flags;
use crate::names::{NamedPattern, NamedPatterns};
use crate::options::PatternOptions;
use crate::sets::{byte_set, difference, period_set};
use crate::spelling::{escape_at, interval_at, name_at, string_at};
use lx_ere::ByteSet;
use lx_ere::lexeme::{Lexeme, starts_digit};
use lx_ere::prefix::{begins_pair, begins_with, skip};
use std::alloc::{AllocError, Global};

/// Brackets after which `{-}` or `{+}` may follow, or that follow one of these.
#[derive(Drop)]
pub(crate) enum Pending {
    Nothing,
    /// The set so far.
    Brackets(BracketSet),
    /// The set so far, and a `{-}` that waits for brackets.
    Without(BracketSet),
    /// The set so far, and a `{+}` that waits for brackets.
    With(BracketSet),
}

/// The state while a pattern is read.
#[derive(Drop)]
pub(crate) struct PatternState {
    /// Flags of the innermost group.
    pub(crate) flags: Flags,
    /// Flags of the groups around it, the outermost first.
    pub(crate) outer: Vec<Flags>,
    /// Brackets that aren't a unit yet.
    pub(crate) pending: Pending,
    /// True if nothing was read.
    pub(crate) fresh: bool,
    /// True if a `^` was read.
    pub(crate) line_begin: bool,
    /// True after the `/` of a trailing context.
    in_context: bool,
}

/// The next part of a pattern. All but the last have lexemes, the state after them and the text after them.
#[derive(Drop)]
pub(crate) enum Piece<'t> {
    Goes(Vec<Lexeme>, PatternState, &'t [u8]),
    /// An interval, which follows the lexemes.
    Repeats(Vec<Lexeme>, Interval, PatternState, &'t [u8]),
    /// A definition's text is read next, before the text after its name.
    Inserts(Vec<Lexeme>, PatternState, Vec<u8>, &'t [u8]),
    /// The end of the pattern.
    Ends(Vec<Lexeme>, PatternState, &'t [u8]),
    /// The end of the pattern, with a `$` before it.
    EndsLine(Vec<Lexeme>, PatternState, &'t [u8]),
    /// The `/` of a trailing context, which follows.
    Slash(Vec<Lexeme>, PatternState, &'t [u8]),
    /// Nothing that flex reads.
    Wrong(PatternFault),
}

impl PatternState {
    /// Returns the state before anything is read.
    pub(crate) fn new(alloc: Global, options: PatternOptions) -> PatternState
        ensures { state_of result ≡ specs.initial options }
    {
        PatternState {
            flags: Flags {
                fold: options.fold,
                dot_all: false,
                extended: false,
            },
            outer: Vec::new(alloc),
            pending: Pending::Nothing,
            fresh: true,
            line_begin: false,
            in_context: false,
        }
    }

    // Returns the state after something was read, with brackets that wait.
    fn waits(self, pending: Pending) -> PatternState
        ensures { state_of result ≡ specs.waits (state_of self) (pending_of pending) }
    {
        let PatternState {
            flags,
            outer,
            pending: _pending,
            fresh: _fresh,
            line_begin,
            in_context,
        } = self;
        PatternState {
            flags,
            outer,
            pending,
            fresh: false,
            line_begin,
            in_context,
        }
    }

    // Returns the state without brackets that wait.
    fn settled(self) -> PatternState
        ensures { state_of result ≡ specs.settled (state_of self) }
    {
        let PatternState {
            flags,
            outer,
            pending: _pending,
            fresh,
            line_begin,
            in_context,
        } = self;
        PatternState {
            flags,
            outer,
            pending: Pending::Nothing,
            fresh,
            line_begin,
            in_context,
        }
    }

    // Returns the state after a `^`.
    fn at_line_begin(self) -> PatternState
        ensures { state_of result ≡ specs.at_line_begin (state_of self) }
    {
        let PatternState {
            flags,
            outer,
            pending,
            fresh: _fresh,
            line_begin: _line_begin,
            in_context,
        } = self;
        PatternState {
            flags,
            outer,
            pending,
            fresh: false,
            line_begin: true,
            in_context,
        }
    }

    // Takes the brackets that wait out of the state.
    fn take_pending(self) -> (PatternState, Pending)
        ensures state { state_of result.0 ≡ specs.settled (state_of self) }
        ensures pending { pending_of result.1 ≡ (state_of self).pending }
    {
        let PatternState {
            flags,
            outer,
            pending,
            fresh,
            line_begin,
            in_context,
        } = self;
        let state = PatternState {
            flags,
            outer,
            pending: Pending::Nothing,
            fresh,
            line_begin,
            in_context,
        };
        (state, pending)
    }

    // Returns the state after the `/` of a trailing context.
    fn after_slash(self) -> PatternState
        ensures { state_of result ≡ specs.after_slash (state_of self) }
    {
        let PatternState {
            flags,
            outer,
            pending: _pending,
            fresh: _fresh,
            line_begin,
            in_context: _in_context,
        } = self;
        PatternState {
            flags,
            outer,
            pending: Pending::Nothing,
            fresh: false,
            line_begin,
            in_context: true,
        }
    }

    // Returns true if a name that this text follows ends a trailing context.
    fn ends_context(&self, behind: &[u8]) -> bool
        ensures { result ≡ specs.ends_context (state_of self.now) behind.now }
    {
        self.in_context && !self.flags.extended && starts_space(behind)
    }

    /// Returns true if no group is open.
    pub(crate) fn is_outermost(&self) -> bool
        ensures { result ≡ specs.is_outermost (state_of self.now) }
    {
        self.outer.is_empty()
    }
}

// Returns the lexemes of the brackets that wait, or `None` if brackets have to follow.
fn flushed(alloc: Global, pending: Pending) -> Result<Option<Vec<Lexeme>>, AllocError>
    ensures { IfOk result
        (λ o. option_map (λ ls. map lexeme_of ls.items) o ≡ specs.flushed (pending_of pending)) }
{
    let mut lexemes = Vec::new(alloc);
    match pending {
        Pending::Nothing => Ok(Some(lexemes)),
        Pending::Brackets(
            BracketSet {
                set,
                excluded: _excluded,
            },
        ) => {
            lexemes.push(Lexeme::Set(set))?;
            Ok(Some(lexemes))
        }
        Pending::Without(_) | Pending::With(_) => Ok(None),
    }
}

// Takes lexemes that follow the brackets that wait.
fn takes_all<'t>(
    alloc: Global,
    state: PatternState,
    lexemes: Vec<Lexeme>,
    behind: &'t [u8],
) -> Result<Piece<'t>, AllocError>
    ensures { IfOk result (λ piece. piece_of piece
        ≡ specs.takes (state_of state) (map lexeme_of lexemes.items) behind.now) }
{
    let (state, pending) = state.take_pending();
    let Some(mut all) = flushed(alloc, pending)? else {
        return Ok(Piece::Wrong(PatternFault::NoForm));
    };
    let mut lexemes = lexemes;
    all.append(&mut lexemes)?;
    Ok(Piece::Goes(all, state.waits(Pending::Nothing), behind))
}

// Takes a lexeme that follows the brackets that wait.
fn takes<'t>(
    alloc: Global,
    state: PatternState,
    lexeme: Lexeme,
    behind: &'t [u8],
) -> Result<Piece<'t>, AllocError>
    ensures { IfOk result (λ piece. piece_of piece
        ≡ specs.takes (state_of state) (lexeme_of lexeme ∷ []) behind.now) }
{
    let mut lexemes = Vec::new(alloc);
    lexemes.push(lexeme)?;
    takes_all(alloc, state, lexemes, behind)
}

// Returns the fault of a text that flex doesn't read as an escape.
fn escape_fault(text: &[u8]) -> PatternFault {
    match text.first() {
        None => PatternFault::NotClosed,
        Some(byte) if byte.is_ascii_digit() => PatternFault::LargeEscape,
        Some(_) => PatternFault::NoForm,
    }
}

// Reads an escape, starting after the backslash.
fn escape_piece<'t>(
    alloc: Global,
    state: PatternState,
    text: &'t [u8],
) -> Result<Piece<'t>, AllocError>
    ensures { IfOk result (λ piece. piece_of piece
        ≡ specs.byte_piece (state_of state) (spelling.escape_at text.now)) }
{
    let Some((byte, behind)) = escape_at(text) else {
        return Ok(Piece::Wrong(escape_fault(text)));
    };
    let set = byte_set(state.flags.fold, byte);
    takes(alloc, state, Lexeme::Set(set), behind)
}

// Returns the lexemes of a quoted string.
fn string_lexemes(alloc: Global, fold: bool, bytes: &[u8]) -> Result<Vec<Lexeme>, AllocError>
    ensures { IfOk result
        (λ ls. map lexeme_of ls.items ≡ specs.string_lexemes fold bytes.now) }
{
    let mut lexemes = Vec::new(alloc);
    if bytes.is_empty() {
        lexemes.push(Lexeme::EmptyWord)?;
        return Ok(lexemes);
    }
    lexemes.push(Lexeme::OpenGroup)?;
    for byte in bytes {
        lexemes.push(Lexeme::Set(byte_set(fold, *byte)))?;
    }
    lexemes.push(Lexeme::CloseGroup)?;
    Ok(lexemes)
}

// Returns the fault of a text that flex doesn't read as a string. If the string is closed, a number in it is too large.
fn string_fault(text: &[u8]) -> PatternFault {
    let mut escaped = false;
    for byte in text {
        if *byte == b'\n' {
            break;
        }
        if *byte == b'"' && !escaped {
            return PatternFault::LargeEscape;
        }
        escaped = *byte == b'\\' && !escaped;
    }
    PatternFault::NotClosed
}

// Reads a quoted string, starting after its opening quote.
fn string_piece<'t>(
    alloc: Global,
    state: PatternState,
    text: &'t [u8],
) -> Result<Piece<'t>, AllocError>
    ensures { IfOk result (λ piece. piece_of piece
        ≡ specs.string_piece (state_of state) (spelling.string_at text.now)) }
{
    let Some((bytes, behind)) = string_at(alloc, text)? else {
        return Ok(Piece::Wrong(string_fault(text)));
    };
    let lexemes = string_lexemes(alloc, state.flags.fold, bytes.as_slice())?;
    takes_all(alloc, state, lexemes, behind)
}

// Returns brackets without those bytes of others that follow a `{-}`.
fn without(left: BracketSet, right: BracketSet) -> BracketSet
    ensures { result.set ≡ sets.difference left.set right.set }
{
    BracketSet {
        set: difference(&left.set, &right.set),
        excluded: false,
    }
}

// Takes brackets that were read.
fn joined<'t>(
    alloc: Global,
    state: PatternState,
    brackets: BracketSet,
    behind: &'t [u8],
) -> Result<Piece<'t>, PatternFault>
    ensures ok { IfOk result (λ piece. piece_of piece
        ≡ specs.joined (state_of state) (state_of state).pending brackets.set behind.now) }
    ensures err { IfErr result (λ fault. is_limit fault ≡ true) }
{
    let (state, pending) = state.take_pending();
    let mut lexemes = Vec::new(alloc);
    let next = match pending {
        Pending::Nothing => brackets,
        Pending::Brackets(left) => {
            lexemes.push(Lexeme::Set(left.set))?;
            brackets
        }
        Pending::Without(left) => without(left, brackets),
        Pending::With(left) => {
            if left.excluded || brackets.excluded {
                return Err(PatternFault::ExcludedUnion);
            }
            BracketSet {
                set: left.set.union(&brackets.set),
                excluded: false,
            }
        }
    };
    Ok(Piece::Goes(lexemes, state.waits(Pending::Brackets(next)), behind))
}

// Reads brackets, starting after the `[`.
fn brackets_piece<'t>(
    alloc: Global,
    state: PatternState,
    text: &'t [u8],
) -> Result<Piece<'t>, PatternFault>
    ensures ok { IfOk result (λ piece. piece_of piece
        ≡ specs.brackets_piece (state_of state) (spelling.brackets_at (state_of state).flags.fold text.now)) }
    ensures err { IfErr result (λ fault. is_limit fault ≡ true) }
{
    let Some((brackets, behind)) = brackets_at(alloc, state.flags.fold, text)? else {
        return Ok(Piece::Wrong(brackets_fault(state.flags.fold, text)));
    };
    joined(alloc, state, brackets, behind)
}

// Returns brackets before a `{-}`, or a `{+}` if the flag is set.
fn operation(adds: bool, set: BracketSet) -> Pending
    ensures { pending_of result ≡ (if adds then specs.with set.set else specs.without set.set) }
{
    if adds {
        Pending::With(set)
    } else {
        Pending::Without(set)
    }
}

// Takes a `{-}`, or a `{+}` if the flag is set.
fn operates<'t>(alloc: Global, state: PatternState, adds: bool, behind: &'t [u8]) -> Piece<'t>
    ensures { piece_of result ≡ specs.operates (state_of state) (state_of state).pending
        (λ s. if adds then specs.with s else specs.without s) behind.now }
{
    let (state, pending) = state.take_pending();
    match pending {
        Pending::Brackets(set) => {
            let pending = operation(adds, set);
            Piece::Goes(Vec::new(alloc), state.waits(pending), behind)
        }
        Pending::Nothing | Pending::Without(_) | Pending::With(_) => {
            Piece::Wrong(PatternFault::NoForm)
        }
    }
}

// Returns the text after the next `)`.
fn behind_paren(text: &[u8]) -> Option<&[u8]>
    ensures { option_map (λ r. r.now) result ≡ specs.behind_paren text.now }
{
    let mut rest = text;
    while let Some((first, behind)) = rest.split_first() {
        if *first == b')' {
            return Some(behind);
        }
        rest = behind;
    }
    None
}

// Returns the text after the next `*/`.
fn behind_comment(text: &[u8]) -> Option<&[u8]>
    ensures { option_map (λ r. r.now) result ≡ specs.behind_comment text.now }
{
    let mut rest = text;
    while let Some((first, behind)) = rest.split_first() {
        if *first == b'*' && begins_with(b'/', behind) {
            return Some(skip(1, behind));
        }
        rest = behind;
    }
    None
}

// Returns the flags with one of them switched.
fn with_flag(flags: Flags, letter: u8, on: bool) -> Option<Flags>
    ensures { result ≡ specs.with_flag flags letter on }
{
    match letter {
        b'i' => Some(Flags {
            fold: on,
            dot_all: flags.dot_all,
            extended: flags.extended,
        }),
        b's' => Some(Flags {
            fold: flags.fold,
            dot_all: on,
            extended: flags.extended,
        }),
        b'x' => Some(Flags {
            fold: flags.fold,
            dot_all: flags.dot_all,
            extended: on,
        }),
        _ => None,
    }
}

// Reads the flags of a group, from after `(?` to after the colon.
fn flags_at(outer: Flags, text: &[u8]) -> Option<(Flags, &[u8])>
    ensures { option_map (λ f. (f.0, f.1.now)) result ≡ specs.flags_at outer true text.now }
{
    let mut flags = outer;
    let mut on = true;
    let mut rest = text;
    while let Some((first, behind)) = rest.split_first() {
        let letter = *first;
        rest = behind;
        if letter == b':' {
            return Some((flags, behind));
        }
        if letter == b'-' && on {
            on = false;
        } else {
            flags = with_flag(flags, letter, on)?;
        }
    }
    None
}

// Opens a group with these flags.
fn opens<'t>(
    alloc: Global,
    state: PatternState,
    flags: Flags,
    behind: &'t [u8],
) -> Result<Piece<'t>, AllocError>
    ensures { IfOk result
        (λ piece. piece_of piece ≡ specs.opens (state_of state) flags behind.now) }
{
    let (state, pending) = state.take_pending();
    let Some(mut lexemes) = flushed(alloc, pending)? else {
        return Ok(Piece::Wrong(PatternFault::NoForm));
    };
    lexemes.push(Lexeme::OpenGroup)?;
    let PatternState {
        flags: around,
        mut outer,
        pending: _pending,
        fresh: _fresh,
        line_begin,
        in_context,
    } = state;
    outer.push(around)?;
    let inner = PatternState {
        flags,
        outer,
        pending: Pending::Nothing,
        fresh: false,
        line_begin,
        in_context,
    };
    Ok(Piece::Goes(lexemes, inner, behind))
}

// Reads the opening of a group, or the comment `(?# )`, starting after the `(`.
fn group_piece<'t>(
    alloc: Global,
    options: PatternOptions,
    state: PatternState,
    text: &'t [u8],
) -> Result<Piece<'t>, AllocError>
    ensures { IfOk result
        (λ piece. piece_of piece ≡ specs.group_piece options (state_of state) text.now) }
{
    let flags = state.flags;
    if options.posix || !begins_with(b'?', text) {
        return opens(alloc, state, flags, text);
    }
    if begins_with(b'#', skip(1, text)) {
        return match behind_paren(skip(2, text)) {
            Some(behind) => Ok(Piece::Goes(Vec::new(alloc), state, behind)),
            None => Ok(Piece::Wrong(PatternFault::NotClosed)),
        };
    }
    match flags_at(flags, skip(1, text)) {
        Some((flags, behind)) => opens(alloc, state, flags, behind),
        None => Ok(Piece::Wrong(PatternFault::NoForm)),
    }
}

// Closes the innermost group.
fn closes<'t>(alloc: Global, state: PatternState, behind: &'t [u8]) -> Result<Piece<'t>, AllocError>
    ensures { IfOk result (λ piece. piece_of piece
        ≡ specs.closes (state_of state) (state_of state).outer behind.now) }
{
    let (state, pending) = state.take_pending();
    let PatternState {
        flags: _flags,
        mut outer,
        pending: _pending,
        fresh: _fresh,
        line_begin,
        in_context,
    } = state;
    let Some(flags) = outer.pop() else {
        return Ok(Piece::Wrong(PatternFault::NoForm));
    };
    let Some(mut lexemes) = flushed(alloc, pending)? else {
        return Ok(Piece::Wrong(PatternFault::NoForm));
    };
    lexemes.push(Lexeme::CloseGroup)?;
    let around = PatternState {
        flags,
        outer,
        pending: Pending::Nothing,
        fresh: false,
        line_begin,
        in_context,
    };
    Ok(Piece::Goes(lexemes, around, behind))
}

// Returns true if the flags are those of the whole file.
fn is_plain(options: PatternOptions, flags: Flags) -> bool
    ensures { result ≡ specs.is_plain options flags }
{
    flags.fold == options.fold && !flags.dot_all && !flags.extended
}

// Returns true if the text ends in `$`.
fn ends_in_dollar(text: &[u8]) -> bool
    ensures { result ≡ specs.ends_in_dollar text.now }
{
    match text.last() {
        Some(last) => *last == b'$',
        None => false,
    }
}

// Returns true if white space is next.
fn starts_space(text: &[u8]) -> bool
    ensures { result ≡ specs.starts_space text.now }
{
    match text {
        [first, ..] => (9 <= *first && *first <= 13) || *first == b' ',
        [] => false,
    }
}

// Returns a definition's text as it is read in the place of its name. `last` is true if the name ends a trailing context.
fn inserted_text(
    alloc: Global,
    options: PatternOptions,
    last: bool,
    text: &[u8],
) -> Result<Vec<u8>, AllocError>
    ensures { IfOk result (λ bytes. bytes.items ≡ specs.inserted_text options last text.now) }
{
    if options.bare_names || begins_with(b'^', text) || ends_in_dollar(text) || last {
        return Vec::from_slice(alloc, text);
    }
    let mut bytes = Vec::new(alloc);
    bytes.push(b'(')?;
    bytes.extend_from_slice(text)?;
    bytes.push(b')')?;
    Ok(bytes)
}

// Inserts a definition's text.
fn insertion<'t>(
    alloc: Global,
    options: PatternOptions,
    state: PatternState,
    text: &[u8],
    behind: &'t [u8],
) -> Result<Piece<'t>, AllocError>
    ensures { IfOk result (λ piece. piece_of piece
        ≡ specs.insertion options (state_of state) text.now behind.now) }
{
    if begins_with(b'^', text) && !state.fresh {
        return Ok(Piece::Wrong(PatternFault::NoForm));
    }
    let last = state.ends_context(behind);
    let (state, pending) = state.take_pending();
    let Some(lexemes) = flushed(alloc, pending)? else {
        return Ok(Piece::Wrong(PatternFault::NoForm));
    };
    let front = inserted_text(alloc, options, last, text)?;
    Ok(Piece::Inserts(lexemes, state, front, behind))
}

// Takes a definition's name, or inserts its text.
fn definition_piece<'t>(
    alloc: Global,
    options: PatternOptions,
    state: PatternState,
    definition: &NamedPattern,
    behind: &'t [u8],
) -> Result<Piece<'t>, AllocError>
    ensures { IfOk result (λ piece. piece_of piece
        ≡ specs.definition_piece options (state_of state) (Some (definition_of definition.now))
        behind.now) }
{
    if is_plain(options, state.flags) && !options.bare_names {
        if let Some(kept) = &definition.lx_name {
            let kept = Vec::from_slice(alloc, kept.as_slice())?;
            return takes(alloc, state, Lexeme::Name(kept), behind);
        }
    }
    insertion(alloc, options, state, definition.text.as_slice(), behind)
}

// Reads a name in braces, starting after the `{`.
fn name_piece<'t>(
    alloc: Global,
    options: PatternOptions,
    names: &NamedPatterns,
    state: PatternState,
    text: &'t [u8],
) -> Result<Piece<'t>, AllocError>
    ensures { IfOk result (λ piece. piece_of piece
        ≡ specs.name_piece options (names_of names.now) (state_of state) (spelling.name_at text.now)) }
{
    let Some((name, behind)) = name_at(text) else {
        return Ok(Piece::Wrong(PatternFault::NoForm));
    };
    match names.get(name) {
        Some(definition) => definition_piece(alloc, options, state, definition, behind),
        None => Ok(Piece::Wrong(PatternFault::Undefined)),
    }
}

// Reads an interval, starting after the `{`.
fn interval_piece<'t>(
    alloc: Global,
    options: PatternOptions,
    state: PatternState,
    text: &'t [u8],
) -> Result<Piece<'t>, PatternFault>
    ensures ok { IfOk result (λ piece. piece_of piece
        ≡ specs.interval_piece options (state_of state) (spelling.interval_at text.now)) }
    ensures err { IfErr result (λ fault. is_limit fault ≡ true) }
{
    let Some((bounds, behind)) = interval_at(text)? else {
        return Ok(Piece::Wrong(PatternFault::BadInterval));
    };
    let interval = Interval {
        bounds,
        repeats_branch: options.posix,
    };
    let (state, pending) = state.take_pending();
    let Some(lexemes) = flushed(alloc, pending)? else {
        return Ok(Piece::Wrong(PatternFault::NoForm));
    };
    Ok(Piece::Repeats(lexemes, interval, state.waits(Pending::Nothing), behind))
}

// Reads the text after a `{`.
fn brace_piece<'t>(
    alloc: Global,
    options: PatternOptions,
    names: &NamedPatterns,
    state: PatternState,
    text: &'t [u8],
) -> Result<Piece<'t>, PatternFault>
    ensures ok { IfOk result (λ piece. piece_of piece
        ≡ specs.brace_piece options (names_of names.now) (state_of state) text.now) }
    ensures err { IfErr result (λ fault. is_limit fault ≡ true) }
{
    if begins_pair(b'-', b'}', text) {
        Ok(operates(alloc, state, false, skip(2, text)))
    } else if begins_pair(b'+', b'}', text) {
        Ok(operates(alloc, state, true, skip(2, text)))
    } else if starts_digit(text) {
        interval_piece(alloc, options, state, text)
    } else {
        Ok(name_piece(alloc, options, names, state, text)?)
    }
}

// Takes the `/` of a trailing context.
fn slash_piece<'t>(
    alloc: Global,
    state: PatternState,
    behind: &'t [u8],
) -> Result<Piece<'t>, AllocError>
    ensures { IfOk result
        (λ piece. piece_of piece ≡ specs.slash_piece (state_of state) behind.now) }
{
    if !state.is_outermost() {
        return Ok(Piece::Wrong(PatternFault::NoForm));
    }
    let (state, pending) = state.take_pending();
    let Some(lexemes) = flushed(alloc, pending)? else {
        return Ok(Piece::Wrong(PatternFault::NoForm));
    };
    Ok(Piece::Slash(lexemes, state.after_slash(), behind))
}

// Reads the part that begins with this byte, which is no end of the pattern. The text follows it.
fn special_piece<'t>(
    alloc: Global,
    options: PatternOptions,
    names: &NamedPatterns,
    state: PatternState,
    byte: u8,
    text: &'t [u8],
) -> Result<Piece<'t>, PatternFault>
    ensures ok { IfOk result (λ piece. piece_of piece
        ≡ specs.special_piece options (names_of names.now) (state_of state) byte text.now) }
    ensures err { IfErr result (λ fault. is_limit fault ≡ true) }
{
    let piece = match byte {
        b'[' => brackets_piece(alloc, state, text)?,
        b'{' => brace_piece(alloc, options, names, state, text)?,
        b'"' => string_piece(alloc, state, text)?,
        b'\\' => escape_piece(alloc, state, text)?,
        b'.' => {
            let set = period_set(state.flags.dot_all);
            takes(alloc, state, Lexeme::Set(set), text)?
        }
        b'(' => group_piece(alloc, options, state, text)?,
        b')' => closes(alloc, state, text)?,
        b'*' => takes(alloc, state, Lexeme::Repeat(0, None), text)?,
        b'+' => takes(alloc, state, Lexeme::Repeat(1, None), text)?,
        b'?' => takes(alloc, state, Lexeme::Repeat(0, Some(1)), text)?,
        b'|' => takes(alloc, state, Lexeme::Bar, text)?,
        b'/' => slash_piece(alloc, state, text)?,
        b'}' => Piece::Wrong(PatternFault::NoForm),
        _ => {
            let set = byte_set(state.flags.fold, byte);
            takes(alloc, state, Lexeme::Set(set), text)?
        }
    };
    Ok(piece)
}

// Returns true if a blank or the end of a line is next.
fn is_gap(byte: u8, text: &[u8]) -> bool
    ensures { result ≡ specs.is_gap byte text.now }
{
    byte == b' ' || byte == b'\t' || byte == b'\n' || (byte == b'\r' && begins_with(b'\n', text))
}

// Returns true if a blank, the end of a line or the end of the text is next.
fn starts_gap(text: &[u8]) -> bool
    ensures { result ≡ specs.starts_gap text.now }
{
    match text.split_first() {
        Some((first, rest)) => is_gap(*first, rest),
        None => true,
    }
}

// Takes the `$` at the end of a pattern.
fn dollar_piece<'t>(
    alloc: Global,
    state: PatternState,
    behind: &'t [u8],
) -> Result<Piece<'t>, AllocError>
    ensures { IfOk result
        (λ piece. piece_of piece ≡ specs.dollar_piece (state_of state) behind.now) }
{
    if !state.is_outermost() {
        return Ok(Piece::Wrong(PatternFault::NoForm));
    }
    let (state, pending) = state.take_pending();
    match flushed(alloc, pending)? {
        Some(lexemes) => Ok(Piece::EndsLine(lexemes, state, behind)),
        None => Ok(Piece::Wrong(PatternFault::NoForm)),
    }
}

// Ends the pattern.
fn end_piece<'t>(
    alloc: Global,
    state: PatternState,
    behind: &'t [u8],
) -> Result<Piece<'t>, AllocError>
    ensures { IfOk result
        (λ piece. piece_of piece ≡ specs.end_piece (state_of state) behind.now) }
{
    let (state, pending) = state.take_pending();
    match flushed(alloc, pending)? {
        Some(lexemes) => Ok(Piece::Ends(lexemes, state, behind)),
        None => Ok(Piece::Wrong(PatternFault::NoForm)),
    }
}

// Reads the part that begins with this byte, outside `(?x:`. `whole` begins with the byte, and the text follows it.
fn plain_piece<'t>(
    alloc: Global,
    options: PatternOptions,
    names: &NamedPatterns,
    state: PatternState,
    whole: &'t [u8],
    byte: u8,
    text: &'t [u8],
) -> Result<Piece<'t>, PatternFault>
    requires whole { whole.now ≡ byte ∷ text.now }
    ensures ok { IfOk result (λ piece. piece_of piece
        ≡ specs.plain_piece options (names_of names.now) (state_of state) byte text.now) }
    ensures err { IfErr result (λ fault. is_limit fault ≡ true) }
{
    if is_gap(byte, text) {
        return Ok(end_piece(alloc, state, whole)?);
    }
    if byte == b'$' && starts_gap(text) {
        return Ok(dollar_piece(alloc, state, text)?);
    }
    if byte == b'^' && state.fresh {
        return Ok(Piece::Goes(Vec::new(alloc), state.at_line_begin(), text));
    }
    special_piece(alloc, options, names, state, byte, text)
}

/// Reads the part at the start of the text.
pub(crate) fn piece_at<'t>(
    alloc: Global,
    options: PatternOptions,
    names: &NamedPatterns,
    state: PatternState,
    text: &'t [u8],
) -> Result<Piece<'t>, PatternFault>
    ensures ok { IfOk result (λ piece. piece_of piece
        ≡ specs.piece_at options (names_of names.now) (state_of state) text.now) }
    ensures err { IfErr result (λ fault. is_limit fault ≡ true) }
{
    let Some((first, rest)) = text.split_first() else {
        return Ok(end_piece(alloc, state, text)?);
    };
    let byte = *first;
    if state.flags.extended {
        if is_gap(byte, rest) {
            return Ok(Piece::Goes(Vec::new(alloc), state, rest));
        }
        if byte == b'/' && begins_with(b'*', rest) {
            return match behind_comment(skip(1, rest)) {
                Some(behind) => Ok(Piece::Goes(Vec::new(alloc), state, behind)),
                None => Ok(Piece::Wrong(PatternFault::NotClosed)),
            };
        }
    }
    plain_piece(alloc, options, names, state, text, byte, rest)
}
