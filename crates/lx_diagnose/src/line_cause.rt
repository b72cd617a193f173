//! Causes of malformed lines of the definitions section (E04).

use crate::causes::LineCause;
use crate::found::{Found, found_at, found_byte, found_named};
use crate::places::{Span, between, one_byte};
use crate::scan::{
    begins_at, find, is_at, is_blank_at, is_digit_at, is_listed, is_word_at, next_blank, part,
    skip_blanks, skip_digits, skip_name, trim_blanks_end,
};
use lx_spec::action::read_action;
use lx_spec::rule_line::{RuleLine, rule_line_of};
use std::alloc::{AllocError, Global};

// Words that `%option` accepts.
const OPTIONS: &[u8] = b" noyywrap nounput noinput ";

// Words after `%` that take a number, or nothing.
const SIZES: &[u8] = b" p n a e k o array pointer ";

// Number of bytes at the start that are tested for a NUL at each second one.
const WIDE_BYTES: usize = 8;

// Returns true if every second byte of the first ones, from `first` on, is NUL.
fn has_nuls_from(text: &[u8], first: usize) -> bool {
    for at in 0..WIDE_BYTES {
        if at % 2 == first && !is_at(text, at, 0) {
            return false;
        }
    }
    true
}

fn is_wide(text: &[u8]) -> bool {
    begins_at(text, 0, b"\xFF\xFE")
        || begins_at(text, 0, b"\xFE\xFF")
        || has_nuls_from(text, 0)
        || has_nuls_from(text, 1)
}

// Returns a cause of the whole text that shows in its first line.
fn text_cause(text: &[u8], line: Span) -> Option<(LineCause, Found)> {
    if line.start > 0 {
        return None;
    }
    if begins_at(text, 0, b"\xEF\xBB\xBF") {
        return Some((
            LineCause::ByteOrderMark,
            found_at(Span { start: 0, len: 3 }),
        ));
    }
    if is_wide(text) {
        return Some((LineCause::WideText, found_byte(0)));
    }
    if begins_at(text, 0, b"lx-tables ") {
        return Some((LineCause::TablesGiven, found_at(Span { start: 0, len: 9 })));
    }
    None
}

/// Returns true if the line would be a rule, or is meant as one.
pub(crate) fn is_rule(alloc: Global, text: &[u8], line: Span) -> Result<bool, AllocError> {
    if is_at(text, line.start, b'<') {
        return Ok(true);
    }
    match rule_line_of(part(text, line)) {
        RuleLine::BeginsRule { action, .. } => {
            Ok(!action.is_empty() && read_action(alloc, action)?.is_some())
        }
        RuleLine::Skipped | RuleLine::OpensGroup | RuleLine::RulesEnd => Ok(false),
    }
}

// Returns the first word after `%option` that it doesn't accept.
fn other_option(text: &[u8], start: usize, end: usize) -> Option<Span> {
    let mut next = start;
    for at in start..end {
        if at < next || is_blank_at(text, at) {
            continue;
        }
        next = next_blank(text, at, end);
        let word = between(at, next);
        if !is_listed(OPTIONS, part(text, word)) {
            return Some(word);
        }
    }
    None
}

fn option_cause(text: &[u8], word: Span, end: usize) -> (LineCause, Found) {
    let start = skip_blanks(text, word.end(), end);
    if start >= end || find(text, start, end, b",").is_some() {
        return (LineCause::OptionForm, found_at(word));
    }
    match other_option(text, start, end) {
        Some(option) => (LineCause::OptionWord, found_at(option)),
        None => (LineCause::OptionForm, found_at(word)),
    }
}

fn conditions_cause(text: &[u8], word: Span, end: usize) -> (LineCause, Found) {
    if let Some(comma) = find(text, word.end(), end, b",") {
        return (LineCause::ConditionsComma, found_byte(comma));
    }
    let start = skip_blanks(text, word.end(), end);
    let mut next = start;
    for at in start..end {
        if at < next || is_blank_at(text, at) {
            continue;
        }
        next = next_blank(text, at, end);
        if skip_name(text, at, next) < next || !begins_name(text, at) {
            return (
                LineCause::ConditionsForm,
                found_named(between(at, next), word),
            );
        }
    }
    (LineCause::ConditionsForm, found_at(word))
}

fn begins_name(text: &[u8], at: usize) -> bool {
    is_word_at(text, at) && !is_digit_at(text, at)
}

fn is_size(text: &[u8], letters: Span) -> bool {
    let letter = Span {
        start: letters.start,
        len: 1,
    };
    let end = letters.end();
    is_listed(SIZES, part(text, letters))
        || is_listed(SIZES, part(text, letter))
            && skip_digits(text, letters.start.saturating_add(1), end) == end
}

// Explains a line that begins with `%`.
fn percent_cause(text: &[u8], line: Span) -> (LineCause, Found) {
    let end = line.end();
    let start = line.start.saturating_add(1);
    let word = between(line.start, skip_name(text, start, end));
    let letters = between(start, word.end());
    let name = part(text, letters);
    if begins_at(text, line.start, b"%}") {
        return (
            LineCause::GroupCloses,
            found_at(Span {
                start: line.start,
                len: 2,
            }),
        );
    }
    if name == b"option".as_slice() {
        return option_cause(text, word, end);
    }
    if name == b"top".as_slice() {
        return (LineCause::TopGroup, found_at(word));
    }
    if is_size(text, letters) {
        return (LineCause::SizeForm, found_at(word));
    }
    if let [b's' | b'S' | b'x' | b'X', ..] = name {
        return conditions_cause(text, word, end);
    }
    (LineCause::PercentWord, found_at(word))
}

fn is_c(text: &[u8], line: Span) -> bool {
    let last = trim_blanks_end(text, line.start, line.end()).saturating_sub(1);
    is_at(text, line.start, b'#')
        || begins_at(text, line.start, b"//")
        || is_at(text, last, b';')
        || is_at(text, last, b'{')
        || is_at(text, last, b'}')
}

// Explains a line that begins with a supposed name.
fn named_cause(text: &[u8], line: Span) -> (LineCause, Found) {
    let end = line.end();
    let word = between(line.start, next_blank(text, line.start, end));
    let letters_end = skip_name(text, line.start, end);
    if is_c(text, line) {
        return (
            LineCause::CLine,
            found_at(between(line.start, trim_blanks_end(text, line.start, end))),
        );
    }
    if letters_end == word.end() && begins_name(text, line.start) {
        return (LineCause::NameAlone, found_at(word));
    }
    let bad = if begins_name(text, line.start) {
        letters_end
    } else {
        line.start
    };
    let mut place = found_named(one_byte(bad), word);
    place.other = one_byte(bad);
    (LineCause::NameForm, place)
}

/// Explains why a line of the definitions section is malformed.
pub(crate) fn line_cause(
    alloc: Global,
    text: &[u8],
    line: Span,
) -> Result<(LineCause, Found), AllocError> {
    if let Some(cause) = text_cause(text, line) {
        return Ok(cause);
    }
    if is_rule(alloc, text, line)? {
        return Ok((LineCause::RuleBeforePercent, found_at(line)));
    }
    if is_at(text, line.start, b'%') {
        Ok(percent_cause(text, line))
    } else {
        Ok(named_cause(text, line))
    }
}
