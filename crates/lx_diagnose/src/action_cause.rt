//! Causes of malformed actions (E20).

ghost use Rattle.std.specs.Prelude.{◌≤◌};

use crate::causes::ActionCause;
use crate::found::{Found, found_at, found_byte, found_named};
use crate::places::{Span, between, one_byte};
use crate::scan::{begins_at, find, is_at, is_blank_at, is_digit_at, is_listed, next_blank, part};
use crate::sectioning::{PrefixExtent, RuleExtent};
use crate::words::{PlacedWords, end_of_previous, failing_word, place_at, words_of};
use lx_spec::action::{Action, Statement, Turn, read_action, turn_at};
use lx_spec::word::Word;
use std::alloc::{AllocError, Global};

// Functions of a flex scanner, which an action can't call.
const FLEX_CALLS: &[u8] =
    b" REJECT yymore yyless unput input yyinput yyterminate yy_push_state yy_pop_state yy_top_state yyrestart yy_switch_to_buffer yy_set_bol YY_FLUSH_BUFFER ";

// Variables of a flex scanner, which an action can't use.
const FLEX_VARIABLES: &[u8] = b" yytext yyleng yylval yylloc yylineno yyin yyout YY_START YYSTATE ";

// The first words of statements.
const STATEMENTS: &[u8] = b" return BEGIN ECHO ";

// Greatest number of blanks of a line that are tried as a part of the pattern.
const MAX_BLANKS: usize = 8;

// Greatest number of words of a statement without its `;`.
const MAX_STATEMENT_WORDS: usize = 4;

fn says_anything(statements: &[Statement]) -> bool {
    for statement in statements {
        if !matches!(*statement, Statement::Nothing) {
            return true;
        }
    }
    false
}

// Returns true if the text is a well-formed action that has an effect.
fn is_action(alloc: Global, text: &[u8]) -> Result<bool, AllocError> {
    match read_action(alloc, text)? {
        Some(Action::Shared) => Ok(true),
        Some(Action::Own(statements)) => Ok(says_anything(&statements)),
        None => Ok(false),
    }
}

// Returns true if the words before an action could belong to a pattern.
fn may_be_pattern(text: &[u8], words: Span) -> bool {
    let end = words.end();
    let first = part(
        text,
        between(words.start, next_blank(text, words.start, end)),
    );
    !(is_at(text, words.start, b'|')
        || is_listed(STATEMENTS, first)
        || find(text, words.start, end, b";").is_some()
        || find(text, words.start, end, b"{").is_some()
        || find(text, words.start, end, b"=").is_some())
}

// Returns true if the action is well-formed after some of its words. These words then belong to the pattern.
fn is_pattern_split(alloc: Global, text: &[u8], rule: RuleExtent) -> Result<bool, AllocError> {
    let (start, end) = (rule.action.start, rule.action.end());
    let mut blanks = 0;
    for at in start..rule.line.end() {
        if blanks < MAX_BLANKS && is_blank_at(text, at) && !is_blank_at(text, at + 1) {
            blanks += 1;
            let behind = at + 1;
            if may_be_pattern(text, between(start, at))
                && is_action(alloc, part(text, between(behind, end)))?
            {
                return Ok(true);
            }
        }
    }
    Ok(false)
}

// Returns true if the pattern begins with a string and another quote comes after its end.
fn is_string_split(text: &[u8], rule: RuleExtent) -> bool {
    is_at(text, rule.pattern.start, b'"')
        && find(text, rule.action.start, rule.line.end(), b"\"").is_some()
}

// Finds the first word of the action at the end of the pattern, without a blank before it.
fn joined_word(
    alloc: Global,
    text: &[u8],
    rule: RuleExtent,
    word: &[u8],
) -> Result<Option<Span>, AllocError> {
    let at = rule.pattern.end().saturating_sub(word.len());
    if at > rule.pattern.start
        && begins_at(text, at, word)
        && is_action(alloc, part(text, between(at, rule.action.end())))?
    {
        Ok(Some(Span {
            start: at,
            len: word.len(),
        }))
    } else {
        Ok(None)
    }
}

// Returns the fault between pattern and action.
fn border_cause(
    alloc: Global,
    text: &[u8],
    rule: RuleExtent,
) -> Result<Option<(ActionCause, Found)>, AllocError> {
    if let PrefixExtent::Absent = rule.prefix {
        if is_at(text, rule.pattern.start, b'#') {
            return Ok(Some((ActionCause::CommentHash, found_byte(rule.pattern.start))));
        }
    }
    if begins_at(text, rule.action.start, b"%{") {
        let group = Span {
            start: rule.action.start,
            len: 2,
        };
        return Ok(Some((ActionCause::GroupAsAction, found_at(group))));
    }
    if is_pattern_split(alloc, text, rule)? {
        let blank = one_byte(rule.pattern.end());
        let cause = if is_string_split(text, rule) {
            ActionCause::QuoteSplits
        } else {
            ActionCause::BlankInPattern
        };
        return Ok(Some((cause, found_named(blank, rule.pattern))));
    }
    if let Some(word) = joined_word(alloc, text, rule, b"return")? {
        return Ok(Some((ActionCause::NoBlank, found_at(word))));
    }
    match joined_word(alloc, text, rule, b"BEGIN")? {
        Some(word) => Ok(Some((ActionCause::NoBlank, found_at(word)))),
        None => Ok(None),
    }
}

fn word_at<'t>(words: &PlacedWords<'t>, number: usize) -> Option<Word<'t>> {
    if number < words.words.len() {
        Some(words.words[number])
    } else {
        None
    }
}

// Returns true if `count` words from `number` on, at most four, are a statement once a semicolon follows them.
fn lacks_semicolon(words: &PlacedWords, number: usize, count: usize) -> bool
    requires { count ≤ 4 }
{
    let mut statement = [Word::Semicolon; MAX_STATEMENT_WORDS + 1];
    for i in 0..count {
        match word_at(words, number.saturating_add(i)) {
            Some(word) => statement[i] = word,
            None => return false,
        }
    }
    match turn_at(&statement[..=count]) {
        Turn::States(_, n) => n == count + 1,
        _ => false,
    }
}

// Returns true if a statement could end before this word.
fn may_end_before(words: &PlacedWords, number: usize) -> bool {
    match word_at(words, number) {
        None => words.stop.is_none(),
        Some(Word::CloseBrace) => true,
        Some(Word::Letters(text)) => is_listed(STATEMENTS, text),
        Some(_) => false,
    }
}

// Returns the place where a semicolon is missing in the statement that begins with this word.
fn missing_semicolon(words: &PlacedWords, number: usize) -> Option<Span> {
    for count in 1..=MAX_STATEMENT_WORDS {
        let behind = number.saturating_add(count);
        if may_end_before(words, behind) && lacks_semicolon(words, number, count) {
            return Some(Span {
                start: end_of_previous(words, behind),
                len: 0,
            });
        }
    }
    None
}

// Explains why the text where the words stop can't be returned.
fn stopped_return(text: &[u8], at: usize) -> ActionCause {
    if is_at(text, at, b'"') {
        ActionCause::ReturnString
    } else if is_at(text, at, b'\'') {
        ActionCause::ConstantForm
    } else if is_at(text, at, b'-') && is_digit_at(text, at.saturating_add(1)) {
        ActionCause::ReturnNumber
    } else {
        ActionCause::ReturnExpression
    }
}

// Explains why the text from this word on, directly after `return`, can't be returned.
fn return_cause(
    text: &[u8],
    words: &PlacedWords,
    number: usize,
    end: usize,
) -> (ActionCause, Found) {
    let next = number.saturating_add(1);
    let at = place_at(words, next, end);
    match word_at(words, next) {
        None => match words.stop {
            Some(stop) => (stopped_return(text, stop), found_at(at)),
            None => (
                ActionCause::ReturnAlone,
                found_at(place_at(words, number, end)),
            ),
        },
        Some(Word::Semicolon) => (
            ActionCause::ReturnAlone,
            found_at(place_at(words, number, end)),
        ),
        Some(Word::Letters(_)) => {
            if is_digit_at(text, at.start) {
                (ActionCause::ReturnNumber, found_at(at))
            } else {
                (ActionCause::ReturnExpression, found_at(at))
            }
        }
        Some(_) => (ActionCause::ReturnExpression, found_at(at)),
    }
}

// Explains why no statement begins with this word, which consists of letters.
fn letters_cause(
    text: &[u8],
    words: &PlacedWords,
    letters: &[u8],
    number: usize,
    end: usize,
) -> (ActionCause, Found) {
    let at = place_at(words, number, end);
    if letters == b"return".as_slice() {
        return_cause(text, words, number, end)
    } else if letters == b"BEGIN".as_slice() {
        (ActionCause::BeginForm, found_at(at))
    } else if is_listed(FLEX_CALLS, letters) {
        (ActionCause::FlexCall, found_at(at))
    } else if is_listed(FLEX_VARIABLES, letters) {
        (ActionCause::FlexVariable, found_at(at))
    } else {
        (ActionCause::C, found_at(at))
    }
}

// Returns the text up to the next blank or the end of the line.
fn run_at(text: &[u8], start: usize) -> Span {
    for at in start..text.len() {
        if is_blank_at(text, at) || is_at(text, at, b'\n') || is_at(text, at, b'\r') {
            return between(start, at);
        }
    }
    between(start, text.len())
}

// Explains why the text where the words stop, after complete statements, begins no statement.
fn stop_cause(text: &[u8], at: Span) -> (ActionCause, Found) {
    if is_at(text, at.start, b'\r') && at.end() == text.len() {
        (ActionCause::CarriageReturn, found_at(at))
    } else if is_at(text, at.start, b'\'') {
        (ActionCause::ConstantForm, found_at(at))
    } else {
        (ActionCause::C, found_at(run_at(text, at.start)))
    }
}

// Explains why no statement begins with this word.
fn word_cause(text: &[u8], words: &PlacedWords, number: usize, end: usize) -> (ActionCause, Found) {
    if let Some(at) = missing_semicolon(words, number) {
        return (ActionCause::Semicolon, found_at(at));
    }
    let at = place_at(words, number, end);
    match word_at(words, number) {
        Some(Word::Letters(letters)) => letters_cause(text, words, letters, number, end),
        Some(Word::CloseBrace) => (ActionCause::BraceNotOpen, found_at(at)),
        Some(_) => (ActionCause::C, found_at(at)),
        None => stop_cause(text, at),
    }
}

// Explains why an action of these words is malformed.
fn words_cause(text: &[u8], action: Span, words: &PlacedWords) -> (ActionCause, Found) {
    let end = action.end();
    if matches!(word_at(words, 0), Some(Word::Bar))
        && (words.words.len() > 1 || words.stop.is_some())
    {
        return (ActionCause::BarNotAlone, found_at(place_at(words, 0, end)));
    }
    match failing_word(&words.words) {
        Some(number) => word_cause(text, words, number, end),
        None => match words.stop {
            Some(at) => stop_cause(text, one_byte(at)),
            None => (ActionCause::NoForm, found_at(action)),
        },
    }
}

/// Explains why the action of a rule is malformed.
pub(crate) fn action_cause(
    alloc: Global,
    text: &[u8],
    rule: RuleExtent,
) -> Result<(ActionCause, Found), AllocError> {
    if let Some(cause) = border_cause(alloc, text, rule)? {
        return Ok(cause);
    }
    let words = words_of(alloc, text, rule.action)?;
    Ok(words_cause(text, rule.action, &words))
}
