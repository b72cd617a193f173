//! The kinds of a specification's lines, with their positions.

use crate::places::{Span, between};
use crate::scan::{begins_at, find, is_at, part, skip_blanks};
use lx_spec::block::{Count, Mode, is_closed, with_line};
use lx_spec::line::{Line, line_of};
use lx_spec::rule_line::{RuleLine, RulePrefix, rule_line_of};

/// The section that a line is in.
#[derive(Clone, Copy)]
pub enum Section {
    /// The definitions section, outside of comments and groups.
    Definitions,
    /// A comment in the definitions section.
    Comment,
    /// A group in the definitions section, between `%{` and `%}`.
    Group,
    /// The rules section, at a line on which a rule may begin.
    Rules,
    /// A group in the rules section.
    RulesGroup,
    /// The action of a rule, with the braces that were counted.
    Action(Count),
    /// The part after the rules section.
    Behind,
}

/// The text before a pattern: nothing, a `<` that isn't closed, or the text between `<` and `>`.
#[derive(Clone, Copy)]
pub enum PrefixExtent {
    Absent,
    Unclosed,
    Listed(Span),
}

/// The positions of the parts of a rule: its first line with its prefix and pattern, and the action, which goes on to the end of its last line.
#[derive(Clone, Copy)]
pub struct RuleExtent {
    pub line: Span,
    pub prefix: PrefixExtent,
    pub pattern: Span,
    pub action: Span,
}

/// The kind of a line.
#[derive(Clone, Copy)]
pub enum LineKind {
    /// The line declares nothing: it is in a comment or a group, is malformed, or ends the rules section.
    Silent,
    /// The line declares conditions.
    Conditions,
    /// The line defines a name.
    Definition { name: Span, substitute: Span },
    /// The `%%` that begins the rules section.
    RulesBegin,
    /// A skipped line of the rules section.
    Skipped,
    /// The first line of a rule, whose action may go on.
    Rule(RuleExtent),
    /// A further line of an action.
    MoreAction,
    /// A line after the rules section.
    Behind,
}

// A number of bytes that no text has.
const MAX_BRACES: usize = 4_294_967_296;

impl RuleExtent {
    /// Returns the rule with a further line of its action.
    pub fn with_line(self, line: Span) -> RuleExtent {
        RuleExtent {
            line: self.line,
            prefix: self.prefix,
            pattern: self.pattern,
            action: between(self.action.start, line.end()),
        }
    }
}

fn count_line(count: Count, line: &[u8]) -> Count {
    if count.opened < MAX_BRACES && count.closed < MAX_BRACES && line.len() < MAX_BRACES {
        with_line(count, line)
    } else {
        count
    }
}

fn section_after_action(count: Count) -> Section {
    if is_closed(count) {
        Section::Rules
    } else {
        Section::Action(count)
    }
}

fn kind_in_definitions(text: &[u8], line: Span) -> (LineKind, Section) {
    match line_of(part(text, line)) {
        Line::Skipped | Line::NoForm => (LineKind::Silent, Section::Definitions),
        Line::OpensComment => (LineKind::Silent, Section::Comment),
        Line::OpensGroup => (LineKind::Silent, Section::Group),
        Line::RulesBegin => (LineKind::RulesBegin, Section::Rules),
        Line::Conditions { .. } => (LineKind::Conditions, Section::Definitions),
        Line::Definition { name, substitute } => {
            let name = Span {
                start: line.start,
                len: name.len(),
            };
            let substitute = Span {
                start: skip_blanks(text, name.end(), line.end()),
                len: substitute.len(),
            };
            (
                LineKind::Definition { name, substitute },
                Section::Definitions,
            )
        }
    }
}

// Returns the prefix, and the position where the pattern begins.
fn prefix_and_pattern(line: Span, prefix: &RulePrefix) -> (PrefixExtent, usize) {
    match prefix {
        RulePrefix::Absent => (PrefixExtent::Absent, line.start),
        RulePrefix::Unclosed => (PrefixExtent::Unclosed, line.end()),
        RulePrefix::Listed(names) => {
            let names = Span {
                start: line.start.saturating_add(1),
                len: names.len(),
            };
            (PrefixExtent::Listed(names), names.end().saturating_add(1))
        }
    }
}

fn rule_extent(
    line: Span,
    prefix: &RulePrefix,
    pattern_len: usize,
    action_len: usize,
) -> RuleExtent {
    let (prefix, start) = prefix_and_pattern(line, prefix);
    RuleExtent {
        line,
        prefix,
        pattern: Span {
            start,
            len: pattern_len,
        },
        action: Span {
            start: line.end().saturating_sub(action_len),
            len: action_len,
        },
    }
}

fn kind_in_rules(text: &[u8], line: Span) -> (LineKind, Section) {
    match rule_line_of(part(text, line)) {
        RuleLine::Skipped => (LineKind::Skipped, Section::Rules),
        RuleLine::OpensGroup => (LineKind::Silent, Section::RulesGroup),
        RuleLine::RulesEnd => (LineKind::Silent, Section::Behind),
        RuleLine::BeginsRule {
            prefix,
            pattern,
            action,
        } => {
            let start = Count {
                opened: 0,
                closed: 0,
                mode: Mode::Code,
            };
            let rule = rule_extent(line, &prefix, pattern.len(), action.len());
            (
                LineKind::Rule(rule),
                section_after_action(count_line(start, action)),
            )
        }
    }
}

/// Returns the kind of a line in a section, and the section of the next line.
pub fn kind_of_line(text: &[u8], line: Span, section: Section) -> (LineKind, Section) {
    match section {
        Section::Definitions => kind_in_definitions(text, line),
        Section::Comment => {
            let closed = find(text, line.start, line.end(), b"*/").is_some();
            let next = if closed {
                Section::Definitions
            } else {
                section
            };
            (LineKind::Silent, next)
        }
        Section::Group => {
            let closed = begins_at(text, line.start, b"%}");
            let next = if closed {
                Section::Definitions
            } else {
                section
            };
            (LineKind::Silent, next)
        }
        Section::Rules => kind_in_rules(text, line),
        Section::RulesGroup => {
            let closed = begins_at(text, line.start, b"%}");
            let next = if closed { Section::Rules } else { section };
            (LineKind::Silent, next)
        }
        Section::Action(count) => {
            let more = count_line(count, part(text, line));
            (LineKind::MoreAction, section_after_action(more))
        }
        Section::Behind => (LineKind::Behind, Section::Behind),
    }
}

/// Returns the line from `start` up to `end`, without a CR that comes before its LF.
pub fn line_between(text: &[u8], start: usize, end: usize) -> Span {
    if start < end && is_at(text, end - 1, b'\r') && is_at(text, end, b'\n') {
        between(start, end - 1)
    } else {
        between(start, end)
    }
}
