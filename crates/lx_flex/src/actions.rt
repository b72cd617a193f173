//! Actions, with the parts that lx supports (flex's manual, "Actions").

use crate::conditions::{FlexCondition, place_of};
use crate::cursor::front;
use crate::report::ImportCause;
use crate::tokens::{Token, Tokens};
use std::alloc::{AllocError, Global};

/// A step of an action.
#[derive(Drop)]
pub(crate) enum ActionStep {
    /// `ECHO`.
    Echo,
    /// `BEGIN` of the condition with this number.
    Begin(u16),
    /// `return` of a kind, as it is written.
    Return(Vec<u8>),
}

/// An action.
#[derive(Drop)]
pub(crate) enum FlexAction {
    /// `|`, the action of the next rule.
    Bar,
    /// Steps that lx supports too.
    Steps(Vec<ActionStep>),
    /// C text.
    Code {
        text: Vec<u8>,
        /// Line on which the text begins.
        line: u32,
        /// Conditions that the text begins unconditionally.
        begins: Vec<ActionStep>,
        /// Constructs that lx can't do, in the order of the text.
        problems: Vec<Problem>,
    },
}

/// A construct that lx can't do, with its line.
#[derive(Clone, Copy, PartialEq, Eq)]
pub(crate) struct Problem {
    pub(crate) line: u32,
    pub(crate) cause: ImportCause,
}

/// Returns true if the bytes are a decimal number below 2,147,483,648 without a leading zero.
fn is_small_number(word: &[u8]) -> bool {
    if word.len() > 10 || (word.len() > 1 && front(1, word) == b"0".as_slice()) {
        return false;
    }
    let mut number: u64 = 0;
    for byte in word {
        if !byte.is_ascii_digit() {
            return false;
        }
        number = number
            .saturating_mul(10)
            .saturating_add(u64::from(byte.saturating_sub(b'0')));
    }
    number < 2_147_483_648
}

/// Returns true if the word is a name that isn't one of flex's own.
fn is_kind_name(word: &[u8]) -> bool {
    let Some((first, _)) = word.split_first() else {
        return false;
    };
    !first.is_ascii_digit() && front(2, word) != b"yy".as_slice()
}

/// Returns true if the character constant has the same byte in C and in lx: one ASCII byte, or a backslash with a letter or mark of C.
fn is_plain_character(constant: &[u8]) -> bool {
    match constant {
        [b'\'', byte, b'\''] => byte.is_ascii()
            && *byte != b'\\'
            && *byte != b'\n'
            && *byte != b'\'',
        [b'\'', b'\\', byte, b'\''] => matches!(
            *byte,
            b'a' | b'b' | b't' | b'n' | b'v' | b'f' | b'r' | b'\\' | b'\'' | b'"' | b'?' | b'0'
        ),
        _ => false,
    }
}

/// Returns the kind of a `return`, if lx supports it.
fn kind_of(token: Token) -> Option<&[u8]> {
    match token {
        Token::Word(word) => {
            if is_kind_name(word) || is_small_number(word) {
                Some(word)
            } else {
                None
            }
        }
        Token::Character(constant) => {
            if is_plain_character(constant) {
                Some(constant)
            } else {
                None
            }
        }
        Token::Text | Token::Mark(_) => None,
    }
}

/// Takes the single token up to the `;`, with or without parentheses.
fn operand<'a>(tokens: &mut Tokens<'a>) -> Option<Token<'a>> {
    let first = tokens.next()?;
    if first != Token::Mark(b'(') {
        return if tokens.next()? == Token::Mark(b';') {
            Some(first)
        } else {
            None
        };
    }
    let inner = tokens.next()?;
    if tokens.next()? == Token::Mark(b')') && tokens.next()? == Token::Mark(b';') {
        Some(inner)
    } else {
        None
    }
}

/// Returns the condition of a `BEGIN`.
fn begin_target(conditions: &[FlexCondition], token: Token) -> Option<u16> {
    match token {
        Token::Word(word) => place_of(conditions, word),
        _ => None,
    }
}

/// Returns the step of a statement that begins with this word, if lx supports it.
fn step_of(
    alloc: Global,
    tokens: &mut Tokens,
    conditions: &[FlexCondition],
    word: &[u8],
) -> Result<Option<ActionStep>, AllocError> {
    if word == b"ECHO".as_slice() {
        return Ok(if tokens.next() == Some(Token::Mark(b';')) {
            Some(ActionStep::Echo)
        } else {
            None
        });
    }
    if word == b"BEGIN".as_slice() {
        let Some(token) = operand(tokens) else {
            return Ok(None);
        };
        return Ok(begin_target(conditions, token).map(|place| ActionStep::Begin(place)));
    }
    if word != b"return".as_slice() {
        return Ok(None);
    }
    let Some(token) = operand(tokens) else {
        return Ok(None);
    };
    match kind_of(token) {
        Some(kind) => Ok(Some(ActionStep::Return(Vec::from_slice(alloc, kind)?))),
        None => Ok(None),
    }
}

/// Returns the steps of a text, if it has only statements that lx supports.
fn steps_of(
    alloc: Global,
    text: &[u8],
    conditions: &[FlexCondition],
) -> Result<Option<Vec<ActionStep>>, AllocError> {
    let mut tokens = Tokens::new(text);
    let mut steps = Vec::new(alloc);
    let mut open: u32 = 0;
    let mut returned = false;
    for _ in 0..text.len().saturating_add(1) {
        match tokens.next() {
            None => return Ok(if open == 0 { Some(steps) } else { None }),
            Some(Token::Mark(b';')) => {}
            Some(Token::Mark(b'{')) => open = open.saturating_add(1),
            Some(Token::Mark(b'}')) => {
                if open == 0 {
                    return Ok(None);
                }
                open = open.saturating_sub(1);
            }
            Some(Token::Word(word)) => {
                let Some(step) = step_of(alloc, &mut tokens, conditions, word)? else {
                    return Ok(None);
                };
                let last = matches!(step, ActionStep::Return(_));
                if !returned {
                    steps.push(step)?;
                }
                returned = returned || last;
            }
            Some(_) => return Ok(None),
        }
    }
    Ok(None)
}

/// flex functions that lx can't do, with the causes that are reported.
const PROBLEMS: &[(&[u8], ImportCause)] = &[
    (b"yymore", ImportCause::More),
    (b"yyless", ImportCause::Less),
    (b"unput", ImportCause::Unput),
    (b"yyunput", ImportCause::Unput),
    (b"input", ImportCause::Input),
    (b"yyinput", ImportCause::Input),
    (b"yyterminate", ImportCause::Terminate),
    (b"yy_push_state", ImportCause::StateStack),
    (b"yy_pop_state", ImportCause::StateStack),
    (b"yy_top_state", ImportCause::StateStack),
    (b"yyrestart", ImportCause::OtherBuffer),
    (b"yy_switch_to_buffer", ImportCause::OtherBuffer),
    (b"yypush_buffer_state", ImportCause::OtherBuffer),
    (b"yypop_buffer_state", ImportCause::OtherBuffer),
    (b"yy_scan_string", ImportCause::OtherBuffer),
    (b"yy_scan_bytes", ImportCause::OtherBuffer),
    (b"yy_scan_buffer", ImportCause::OtherBuffer),
    (b"yy_flush_buffer", ImportCause::OtherBuffer),
    (b"yy_set_bol", ImportCause::LineBegin),
];

/// flex macros without arguments that lx can't do, with the causes that are reported.
const MACRO_PROBLEMS: &[(&[u8], ImportCause)] = &[
    (b"REJECT", ImportCause::Reject),
    (b"YY_FLUSH_BUFFER", ImportCause::OtherBuffer),
    (b"YY_NEW_FILE", ImportCause::OtherBuffer),
];

/// Returns the cause of a word in a table.
fn cause_in(table: &[(&[u8], ImportCause)], word: &[u8]) -> Option<ImportCause> {
    for (name, cause) in table {
        if word == *name {
            return Some(*cause);
        }
    }
    None
}

/// Returns the cause if lx can't do the flex construct of this word. `called` is true if a parenthesis follows.
fn problem_of(word: &[u8], called: bool) -> Option<ImportCause> {
    match cause_in(MACRO_PROBLEMS, word) {
        Some(cause) => Some(cause),
        None => {
            if called {
                cause_in(PROBLEMS, word)
            } else {
                None
            }
        }
    }
}

/// Words after which C text may be skipped at run time.
const BRANCHING: &[&[u8]] = &[
    b"if",
    b"else",
    b"while",
    b"for",
    b"do",
    b"switch",
    b"case",
    b"default",
    b"goto",
    b"break",
    b"continue",
    b"return",
    b"REJECT",
    b"yyterminate",
];

/// Returns true if the text after the word may be skipped at run time.
fn is_branching(word: &[u8]) -> bool {
    BRANCHING.contains(&word)
}

/// Returns true if the text after this mark may be skipped at run time: `?`, `&`, `|`, or a preprocessor line.
fn is_branching_mark(mark: u8) -> bool {
    mark == b'?' || mark == b'&' || mark == b'|' || mark == b'#'
}

/// The findings in C text.
#[derive(Drop)]
struct CodeFindings {
    /// Line on which the text begins.
    first_line: u32,
    begins: Vec<ActionStep>,
    problems: Vec<Problem>,
    /// True if the rest of the text may be skipped at run time.
    branching: bool,
}

/// Adds a problem, once for each line.
fn note(found: &mut CodeFindings, line: u32, cause: ImportCause) -> Result<(), AllocError> {
    let problem = Problem { line, cause };
    if !found.problems.as_slice().contains(&problem) {
        found.problems.push(problem)?;
    }
    Ok(())
}

/// Notes the effect of a `BEGIN` in C text.
fn note_begin(
    found: &mut CodeFindings,
    tokens: &mut Tokens,
    conditions: &[FlexCondition],
) -> Result<(), AllocError> {
    let line = tokens.line_from(found.first_line);
    let place = match operand(tokens) {
        Some(token) => begin_target(conditions, token),
        None => None,
    };
    let Some(place) = place else {
        return note(found, line, ImportCause::UnknownBegin);
    };
    if found.branching {
        return note(found, line, ImportCause::ConditionalBegin);
    }
    found.begins.push(ActionStep::Begin(place))?;
    Ok(())
}

/// Notes a word of C text. `member` is true if it comes after `.` or `->`.
fn note_word(
    found: &mut CodeFindings,
    tokens: &mut Tokens,
    conditions: &[FlexCondition],
    word: &[u8],
    member: bool,
) -> Result<(), AllocError> {
    if member {
        return Ok(());
    }
    if word == b"BEGIN".as_slice() {
        return note_begin(found, tokens, conditions);
    }
    if is_branching(word) {
        found.branching = true;
    }
    let mut ahead = *tokens;
    let called = ahead.next() == Some(Token::Mark(b'('));
    match problem_of(word, called) {
        Some(cause) => note(found, tokens.line_from(found.first_line), cause),
        None => Ok(()),
    }
}

/// Finds what lx has to do for C text, and what it can't. `branching` is true if all of the text may be skipped at run time.
fn look_through(
    alloc: Global,
    text: &[u8],
    line: u32,
    conditions: &[FlexCondition],
    branching: bool,
) -> Result<CodeFindings, AllocError> {
    let mut found = CodeFindings {
        first_line: line,
        begins: Vec::new(alloc),
        problems: Vec::new(alloc),
        branching,
    };
    let mut tokens = Tokens::new(text);
    let mut before: u8 = 0;
    for _ in 0..text.len() {
        let Some(token) = tokens.next() else {
            break;
        };
        match token {
            Token::Word(word) => {
                let member = before == b'.' || before == b'>';
                note_word(&mut found, &mut tokens, conditions, word, member)?;
                before = 0;
            }
            Token::Mark(mark) => {
                if is_branching_mark(mark) {
                    found.branching = true;
                }
                before = mark;
            }
            _ => before = 0,
        }
    }
    Ok(found)
}

/// Returns the action of a C text.
pub(crate) fn action_of(
    alloc: Global,
    text: &[u8],
    line: u32,
    conditions: &[FlexCondition],
) -> Result<FlexAction, AllocError> {
    if let Some(steps) = steps_of(alloc, text, conditions)? {
        return Ok(FlexAction::Steps(steps));
    }
    let CodeFindings {
        first_line: _,
        begins,
        problems,
        branching: _,
    } = look_through(alloc, text, line, conditions, false)?;
    Ok(FlexAction::Code {
        text: Vec::from_slice(alloc, text)?,
        line,
        begins,
        problems,
    })
}

/// Returns what lx can't do of the code before the first rule. flex runs this code at each call, so no rule can have its BEGIN.
pub(crate) fn problems_before_rules(
    alloc: Global,
    text: &[u8],
    line: u32,
    conditions: &[FlexCondition],
) -> Result<Vec<Problem>, AllocError> {
    let found = look_through(alloc, text, line, conditions, true)?;
    let mut problems = Vec::new(alloc);
    for problem in found.problems.as_slice() {
        let cause = match problem.cause {
            ImportCause::ConditionalBegin | ImportCause::UnknownBegin =>
                ImportCause::BeginBeforeRules,
            other => other,
        };
        problems.push(Problem { cause, ..*problem })?;
    }
    Ok(problems)
}
