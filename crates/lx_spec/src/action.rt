//! Reads actions: their statements (XCU `lex`, "Actions in lex").

ghost use Rattle.std.specs.Prelude.{◌≡◌, ◌+◌, ◌≤◌, length, drop, IfSome, OnSome, IfOk, MatchOption, List};
ghost use Rattle.std.specs.List.{list_all};
ghost use Rattle.std.specs.Option.{option_map};
ghost use Rattle.lx_rules.specs.Identifiers.{is_digit};
ghost use Rattle.lx_spec.specs.Actions as plain;
ghost use Rattle.lx_spec.specs.Actions.{AreStatements, IsAction};
ghost use Rattle.lx_spec.specs.views.Words.{word_view, words_view};
ghost use Rattle.lx_spec.specs.views.Actions.{value_view, statement_view, statements_view, action_view};
ghost use Rattle.lx_spec.specs.views.Turns.{turn_view, TakesWords};

use crate::constant::decimal_below;
use crate::returned_value::{Identifier, KindNumber, Value};
use crate::word::{Word, read_words};
use lx_rules::identifier::{is_digit, is_identifier};
use std::alloc::{AllocError, Global};

/// A statement of an action.
#[derive(Clone, Copy)]
pub enum Statement<'a> {
    /// `;`
    Nothing,
    Echo,
    /// `BEGIN`, with the name of a condition or `0`.
    Begin(&'a [u8]),
    Return(Value<'a>),
}

/// An action.
#[derive(Drop)]
pub enum Action<'a> {
    /// `|`: the action of the next rule.
    Shared,
    /// The statements, without braces.
    Own(Vec<Statement<'a>>),
}

/// The construct at the start of some words: nothing, a brace, a statement with its number of words, or no statement.
#[derive(Drop)]
pub enum Turn<'t> {
    Finished,
    Opens,
    Closes,
    States(Statement<'t>, usize),
    NoStatement,
}

fn are_digits(text: &[u8]) -> bool
    ensures { result ≡ list_all is_digit text.now }
{
    text.iter().all(|c| is_digit(*c))
}

fn is_decimal(text: &[u8]) -> bool
    ensures { result ≡ plain.is_decimal text.now }
{
    let Some((c, rest)) = text.split_first() else {
        return false;
    };
    are_digits(text) && (*c != b'0' || rest.is_empty())
}

fn letters_value(text: &[u8]) -> Option<Value<'_>>
    ensures { option_map value_view result ≡ plain.letters_value text.now }
{
    if is_identifier(text) {
        Some(Value::Name(Identifier { text }))
    } else if is_decimal(text) {
        match decimal_below(2147483648, text) {
            Some(value) => Some(Value::Number(KindNumber { value })),
            None => None,
        }
    } else {
        None
    }
}

fn value_of(word: Word<'_>) -> Option<Value<'_>>
    ensures { option_map value_view result ≡ plain.value_of (word_view word.entry) }
{
    match word {
        Word::Letters(text) => letters_value(text),
        Word::Byte(byte) => Some(Value::Number(KindNumber { value: byte as u32 })),
        _ => None,
    }
}

/// Returns true if the text is an identifier, or `0`.
pub(crate) fn is_condition_name(text: &[u8]) -> bool
    ensures { result ≡ plain.is_condition_name text.now }
{
    is_identifier(text) || text == b"0".as_slice()
}

fn condition_of(word: Word<'_>) -> Option<&[u8]>
    ensures { option_map (λ c. c.now) result ≡ plain.condition_of (word_view word.entry) }
{
    match word {
        Word::Letters(text) => if is_condition_name(text) {
            Some(text)
        } else {
            None
        },
        _ => None,
    }
}

// Returns the only word of a group whose parenthesis is open.
fn word_of_group<'t>(words: &[Word<'t>]) -> Option<Word<'t>>
    ensures value { option_map (λ w. (word_view w, words_view (drop 2 words.now))) result
        ≡ plain.in_group (words_view words.now) }
    ensures within { OnSome result (2 ≤ length words.now) }
{
    let Some((word, behind)) = words.split_first() else {
        return None;
    };
    let Some((next, _)) = behind.split_first() else {
        return None;
    };
    match next {
        Word::CloseGroup => Some(*word),
        _ => None,
    }
}

// Returns one word, or one word in parentheses, with the number of words that this takes.
fn operand_at<'t>(words: &[Word<'t>]) -> Option<(Word<'t>, usize)>
    ensures value { option_map (λ r. (word_view r.0, words_view (drop r.1 words.now))) result
        ≡ plain.operand_at (words_view words.now) }
    ensures within { IfSome result (λ r. r.1 ≤ length words.now) }
{
    let Some((word, rest)) = words.split_first() else {
        return None;
    };
    match word {
        Word::OpenGroup => match word_of_group(rest) {
            Some(inner) => Some((inner, 3)),
            None => None,
        },
        _ => Some((*word, 1)),
    }
}

// Returns the statement, if a semicolon follows.
fn end_statement<'t>(statement: Statement<'t>, words: &[Word]) -> Option<Statement<'t>>
    ensures value { option_map (λ s. (statement_view s, words_view (drop 1 words.now))) result
        ≡ plain.ended (statement_view statement.entry) (words_view words.now) }
    ensures within { OnSome result (1 ≤ length words.now) }
{
    let Some((next, _)) = words.split_first() else {
        return None;
    };
    match next {
        Word::Semicolon => Some(statement),
        _ => None,
    }
}

fn return_statement<'t>(word: Word<'t>, words: &[Word]) -> Option<Statement<'t>>
    ensures value { option_map (λ s. (statement_view s, words_view (drop 1 words.now))) result
        ≡ plain.returned (plain.value_of (word_view word.entry)) (words_view words.now) }
    ensures within { OnSome result (1 ≤ length words.now) }
{
    match value_of(word) {
        Some(value) => end_statement(Statement::Return(value), words),
        None => None,
    }
}

fn begin_statement<'t>(word: Word<'t>, words: &[Word]) -> Option<Statement<'t>>
    ensures value { option_map (λ s. (statement_view s, words_view (drop 1 words.now))) result
        ≡ plain.begun (plain.condition_of (word_view word.entry)) (words_view words.now) }
    ensures within { OnSome result (1 ≤ length words.now) }
{
    match condition_of(word) {
        Some(name) => end_statement(Statement::Begin(name), words),
        None => None,
    }
}

// Reads the words after `return`. Returns the statement with the number of these words.
fn return_at<'t>(words: &[Word<'t>]) -> Option<(Statement<'t>, usize)>
    ensures value { option_map (λ r. (statement_view r.0, words_view (drop r.1 words.now))) result
        ≡ plain.return_at (plain.operand_at (words_view words.now)) }
    ensures within { IfSome result (λ r. r.1 ≤ length words.now) }
{
    let Some((word, n)) = operand_at(words) else {
        return None;
    };
    match return_statement(word, &words[n..]) {
        Some(statement) => Some((statement, n + 1)),
        None => None,
    }
}

// Reads the words after `BEGIN`. Returns the statement with the number of these words.
fn begin_at<'t>(words: &[Word<'t>]) -> Option<(Statement<'t>, usize)>
    ensures value { option_map (λ r. (statement_view r.0, words_view (drop r.1 words.now))) result
        ≡ plain.begin_at (plain.operand_at (words_view words.now)) }
    ensures within { IfSome result (λ r. r.1 ≤ length words.now) }
{
    let Some((word, n)) = operand_at(words) else {
        return None;
    };
    match begin_statement(word, &words[n..]) {
        Some(statement) => Some((statement, n + 1)),
        None => None,
    }
}

// Reads a statement whose first word is letters. Returns it with the number of words after that word.
fn letters_at<'t>(text: &[u8], words: &[Word<'t>]) -> Option<(Statement<'t>, usize)>
    ensures value { option_map (λ r. (statement_view r.0, words_view (drop r.1 words.now))) result
        ≡ plain.letters_at text.now (words_view words.now) }
    ensures within { IfSome result (λ r. r.1 ≤ length words.now) }
{
    if text == b"return".as_slice() {
        return_at(words)
    } else if text == b"ECHO".as_slice() {
        match end_statement(Statement::Echo, words) {
            Some(statement) => Some((statement, 1)),
            None => None,
        }
    } else if text == b"BEGIN".as_slice() {
        begin_at(words)
    } else {
        None
    }
}

/// Returns the construct at the start of some words.
pub fn turn_at<'t>(words: &[Word<'t>]) -> Turn<'t>
    ensures value { turn_view words.now result ≡ plain.turn_at (words_view words.now) }
    ensures within { TakesWords result (length words.now) }
{
    let Some((word, rest)) = words.split_first() else {
        return Turn::Finished;
    };
    match word {
        Word::OpenBrace => Turn::Opens,
        Word::CloseBrace => Turn::Closes,
        Word::Semicolon => Turn::States(Statement::Nothing, 1),
        Word::Letters(text) => match letters_at(text, rest) {
            Some((statement, n)) => Turn::States(statement, n + 1),
            None => Turn::NoStatement,
        },
        _ => Turn::NoStatement,
    }
}

// Reads words as statements. Returns `None` if they aren't statements.
fn read_statements<'t>(
    alloc: Global,
    words: &[Word<'t>],
) -> Result<Option<Vec<Statement<'t>>>, AllocError>
    ensures { IfOk result (λ o.
        MatchOption o
        ((ss : List plain.Statement) → AreStatements 0 (words_view words.now) ss → ⊥)
        (λ v. AreStatements 0 (words_view words.now) (statements_view v.items))) }
{
    let mut statements = Vec::new(alloc);
    let mut at: usize = 0;
    let mut depth: usize = 0;
    'words: loop {
        match turn_at(&words[at..]) {
            Turn::Finished => {
                if depth > 0 {
                    return Ok(None);
                }
                return Ok(Some(statements));
            }
            Turn::Opens => {
                depth += 1;
                at += 1;
            }
            Turn::Closes => {
                if depth == 0 {
                    return Ok(None);
                }
                depth -= 1;
                at += 1;
            }
            Turn::States(statement, n) => {
                statements.push(statement)?;
                at += n;
            }
            Turn::NoStatement => return Ok(None),
        }
    }
}

fn is_bar(words: &[Word]) -> bool
    ensures { result ≡ plain.is_bar (words_view words.now) }
{
    let Some((word, rest)) = words.split_first() else {
        return false;
    };
    match word {
        Word::Bar => rest.is_empty(),
        _ => false,
    }
}

/// Reads a text as an action. Returns `None` if it is malformed.
pub fn read_action<'t>(alloc: Global, text: &'t [u8]) -> Result<Option<Action<'t>>, AllocError>
    ensures { IfOk result (λ o.
        MatchOption o ((a : plain.Action) → IsAction text.now a → ⊥)
        (λ a. IsAction text.now (action_view a))) }
{
    let Some(words) = read_words(alloc, text)? else {
        return Ok(None);
    };
    if is_bar(&words) {
        return Ok(Some(Action::Shared));
    }
    match read_statements(alloc, &words)? {
        Some(statements) => Ok(Some(Action::Own(statements))),
        None => Ok(None),
    }
}
