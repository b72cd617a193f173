//! Classifies a line of the rules section by itself (XCU `lex`, "Rules in lex").

ghost use Rattle.std.specs.Prelude.{◌≡◌, ◌≤◌, length};
ghost use Rattle.std.specs.List.{prefix_len};
ghost use Rattle.lx_spec.specs.RuleLines as plain;
ghost use Rattle.lx_spec.specs.views.RuleLines.{prefix_view, rule_line_view};

use crate::bytes::{begins_with, blanks_len, is_blank};
use lx_ere::pattern_end;

/// The text before a pattern.
#[derive(Drop)]
pub enum RulePrefix<'a> {
    /// No prefix.
    Absent,
    /// A `<` without a `>` on its line.
    Unclosed,
    /// The text between `<` and the first `>`.
    Listed(&'a [u8]),
}

/// The form of a line of the rules section.
#[derive(Drop)]
pub enum RuleLine<'a> {
    /// The line is empty or code.
    Skipped,
    /// A group `%{` begins.
    OpensGroup,
    /// The second line `%%`.
    RulesEnd,
    /// A rule begins. The text of its action begins here.
    BeginsRule {
        prefix: RulePrefix<'a>,
        pattern: &'a [u8],
        action: &'a [u8],
    },
}

// Returns the number of bytes before the first `>`.
fn inside_len(text: &[u8]) -> usize
    ensures value { result ≡ prefix_len plain.is_inside text.now }
    ensures within { result ≤ length text.now }
{
    text.iter().take_while(|c| **c != b'>').count()
}

fn closed_prefix<'a>(names: &'a [u8], text: &'a [u8]) -> (RulePrefix<'a>, &'a [u8])
    ensures { (prefix_view result.0, result.1.now) ≡ plain.closed_prefix names.now text.now }
{
    match text.split_first() {
        Some((_, rest)) => (RulePrefix::Listed(names), rest),
        None => (RulePrefix::Unclosed, text),
    }
}

fn split_prefix(text: &[u8]) -> (RulePrefix<'_>, &[u8])
    ensures { (prefix_view result.0, result.1.now) ≡ plain.split_prefix text.now }
{
    let Some((c, rest)) = text.split_first() else {
        return (RulePrefix::Absent, text);
    };
    if *c == b'<' {
        let n = inside_len(rest);
        closed_prefix(&rest[..n], &rest[n..])
    } else {
        (RulePrefix::Absent, text)
    }
}

fn rule_split<'a>(n: usize, prefix: RulePrefix<'a>, text: &'a [u8]) -> RuleLine<'a>
    requires { n ≤ length text.now }
    ensures { rule_line_view result ≡ plain.rule_split n (prefix_view prefix.entry) text.now }
{
    let behind = &text[n..];
    RuleLine::BeginsRule {
        prefix,
        pattern: &text[..n],
        action: &behind[blanks_len(behind)..],
    }
}

fn rule_begins<'a>(prefix: RulePrefix<'a>, text: &'a [u8]) -> RuleLine<'a>
    ensures { rule_line_view result ≡ plain.rule_begins (prefix_view prefix.entry) text.now }
{
    let n = pattern_end(text);
    rule_split(n, prefix, text)
}

/// Returns the first form of the rules section that fits the line.
pub fn rule_line_of(text: &[u8]) -> RuleLine<'_>
    ensures { rule_line_view result ≡ plain.rule_line_of text.now }
{
    let Some((c, _)) = text.split_first() else {
        return RuleLine::Skipped;
    };
    if is_blank(*c) {
        RuleLine::Skipped
    } else if begins_with(b'%', b'{', text) {
        RuleLine::OpensGroup
    } else if begins_with(b'%', b'%', text) {
        RuleLine::RulesEnd
    } else {
        let (prefix, rest) = split_prefix(text);
        rule_begins(prefix, rest)
    }
}
