//! Reads the sections, up to their first fault.

ghost use Rattle.std.specs.Prelude.{◌≡◌, ◌+◌, ◌<◌, ◌≤◌, List, ℕ, length, nat_eq, IfOk, IfErr, Err, []};
ghost use Rattle.std.specs.List.{list_any};
ghost use Rattle.std.specs.Cmp.Lexicographic.{pointwise};
ghost use Rattle.lx_rules.specs.Limits.{max_specification_bytes};
ghost use Rattle.lx_spec.specs.Blocks as blocks;
ghost use Rattle.lx_spec.specs.Bytes.{words_of};
ghost use Rattle.lx_spec.specs.Faults.{out_of_memory};
ghost use Rattle.lx_spec.specs.Sections as plain;
ghost use Rattle.lx_spec.specs.Sections.{Gives, Goes, TakesLine};
ghost use Rattle.lx_spec.specs.views.Sections.{raw_rule_view, sections_view};
ghost use Rattle.lx_spec.specs.views.RuleLines.{prefix_view};
ghost use Rattle.lx_spec.specs.views.Places.{place_view, taken_view};

use crate::block::{Count, Mode, is_closed, with_line};
use crate::bytes::{begins_with, has_pair};
use crate::fault::{Code, SpecFault};
use crate::line::{Line, line_of, next_word};
use crate::parsed_sections::{OpenRule, ParsedSections, RawDefinition, RawRule, StartCondition};
use crate::rule_line::{RuleLine, RulePrefix, rule_line_of};
use bstr::ByteSlice;
use lx_rules::limits::{MAX_DEFINITIONS, MAX_RULES, MAX_START_CONDITIONS};
use std::alloc::Global;

/// The construct that a line is in.
#[derive(Drop)]
pub enum LineContext<'a> {
    /// The definitions section itself.
    Definitions,
    /// A comment of the definitions section that began at this line.
    Comment(u32),
    /// A group of the definitions section that began at this line.
    Group(u32),
    /// The rules section itself.
    Rules,
    /// A group of the rules section that began at this line.
    RulesGroup(u32),
    /// The action of a rule.
    Action(OpenRule<'a>),
}

fn knows_definition(raw_definitions: &[RawDefinition], name: &[u8]) -> bool
    ensures { result ≡ list_any (λ d. pointwise nat_eq d.name.now name.now) raw_definitions.now }
{
    raw_definitions.iter().any(|d| d.name == name)
}

fn knows_start_condition(start_conditions: &[StartCondition], name: &[u8]) -> bool
    ensures { result ≡ list_any (λ s. pointwise nat_eq s.name.now name.now) start_conditions.now }
{
    start_conditions.iter().any(|s| s.name == name)
}

#[tactic(auto, using(std::proofs::lemmas::List::map_push, crate::proofs::Words::any_steps))]
fn with_definition<'a>(
    mut sections: ParsedSections<'a>,
    number: u32,
    name: &'a [u8],
    substitute: &'a [u8],
) -> Result<ParsedSections<'a>, SpecFault>
    ensures { Gives sections_view result
        (plain.with_definition (sections_view sections.entry) number name.now substitute.now) }
{
    if knows_definition(&sections.definitions, name) {
        return Err(SpecFault {
            code: Code::Twice,
            line: number,
        });
    }
    if sections.definitions.len() >= MAX_DEFINITIONS {
        return Err(SpecFault {
            code: Code::TooMany,
            line: number,
        });
    }
    sections
        .definitions
        .push(RawDefinition { name, substitute })?;
    Ok(sections)
}

#[tactic(auto, using(std::proofs::lemmas::List::map_push, crate::proofs::Words::any_steps))]
fn with_start_condition<'a>(
    mut sections: ParsedSections<'a>,
    number: u32,
    exclusive: bool,
    name: &'a [u8],
) -> Result<ParsedSections<'a>, SpecFault>
    ensures { Gives sections_view result
        (plain.with_start_condition (sections_view sections.entry) number exclusive name.now) }
{
    if knows_start_condition(&sections.start_conditions, name) {
        return Err(SpecFault {
            code: Code::Twice,
            line: number,
        });
    }
    if sections.start_conditions.len() >= MAX_START_CONDITIONS {
        return Err(SpecFault {
            code: Code::TooMany,
            line: number,
        });
    }
    sections
        .start_conditions
        .push(StartCondition { name, exclusive })?;
    Ok(sections)
}

#[tactic(auto, using(crate::proofs::Words::word_steps))]
fn with_start_conditions<'a>(
    sections: ParsedSections<'a>,
    number: u32,
    exclusive: bool,
    names: &'a [u8],
) -> Result<ParsedSections<'a>, SpecFault>
    ensures { Gives sections_view result (plain.with_start_conditions (sections_view sections.entry)
        number exclusive (words_of names.now)) }
{
    let mut sections = sections;
    let mut rest = names;
    while let Some((name, behind)) = next_word(rest) {
        sections = with_start_condition(sections, number, exclusive, name)?;
        rest = behind;
    }
    Ok(sections)
}

#[tactic(auto, using(std::proofs::lemmas::List::map_push))]
fn with_rule<'a>(
    mut sections: ParsedSections<'a>,
    rule: RawRule<'a>,
    closed: bool,
) -> Result<ParsedSections<'a>, SpecFault>
    ensures { Gives sections_view result
        (plain.with_rule (sections_view sections.entry) (raw_rule_view rule.entry) closed) }
{
    if sections.rules.len() >= MAX_RULES {
        return Err(SpecFault {
            code: Code::TooMany,
            line: rule.line,
        });
    }
    if !closed {
        return Err(SpecFault {
            code: Code::NotClosed,
            line: rule.line,
        });
    }
    sections.rules.push(rule)?;
    Ok(sections)
}

// Takes a line of the definitions section itself.
fn take_definition<'a>(
    sections: ParsedSections<'a>,
    number: u32,
    line: &'a [u8],
) -> Result<(ParsedSections<'a>, Option<LineContext<'a>>), SpecFault>
    ensures { TakesLine taken_view (sections_view sections.entry) plain.definitions number line.now
        result }
{
    match line_of(line) {
        Line::Skipped => Ok((sections, Some(LineContext::Definitions))),
        Line::OpensComment => Ok((sections, Some(LineContext::Comment(number)))),
        Line::OpensGroup => Ok((sections, Some(LineContext::Group(number)))),
        Line::RulesBegin => Ok((sections, Some(LineContext::Rules))),
        Line::Conditions { exclusive, names } => {
            let sections = with_start_conditions(sections, number, exclusive, names)?;
            Ok((sections, Some(LineContext::Definitions)))
        }
        Line::Definition { name, substitute } => {
            let sections = with_definition(sections, number, name, substitute)?;
            Ok((sections, Some(LineContext::Definitions)))
        }
        Line::NoForm => Err(SpecFault {
            code: Code::NoForm,
            line: number,
        }),
    }
}

// Adds a rule if its action is closed. Otherwise its action continues on the next line.
fn continue_rule<'a>(
    sections: ParsedSections<'a>,
    begun: OpenRule<'a>,
) -> Result<(ParsedSections<'a>, Option<LineContext<'a>>), SpecFault>
    ensures { (number : ℕ) (rest : List (List ℕ)) → Goes taken_view number rest result
        (plain.with_entries (sections_view sections.entry) (plain.entries_behind (raw_rule_view begun.entry.rule) begun.entry.count (number + 1) rest)) }
{
    if is_closed(begun.count) {
        let OpenRule { rule, .. } = begun;
        let sections = with_rule(sections, rule, true)?;
        Ok((sections, Some(LineContext::Rules)))
    } else {
        Ok((sections, Some(LineContext::Action(begun))))
    }
}

// Begins a rule on a line, with the first line of its action.
fn first_line<'a>(
    alloc: Global,
    line: u32,
    prefix: RulePrefix<'a>,
    pattern: &'a [u8],
    text: &'a [u8],
) -> Result<OpenRule<'a>, SpecFault>
    requires { 0 < line }
    ensures rule { IfOk result (λ begun.
        raw_rule_view begun.rule ≡ record
        { line = line; prefix = prefix_view prefix.entry; pattern = pattern.now; action = text.now }) }
    ensures count { IfOk result (λ begun. begun.count ≡ blocks.with_line blocks.start text.now) }
    ensures err { IfErr result (λ f. f ≡ out_of_memory) }
{
    let action = Vec::from_slice(alloc, text)?;
    let count = with_line(
        Count {
            opened: 0,
            closed: 0,
            mode: Mode::Code,
        },
        text,
    );
    Ok(OpenRule {
        rule: RawRule {
            line,
            prefix,
            pattern,
            action,
        },
        count,
    })
}

// Adds one more line to the action of the rule.
fn next_line<'a>(begun: OpenRule<'a>, line: &[u8]) -> Result<OpenRule<'a>, SpecFault>
    ensures rule { IfOk result
        (λ more. raw_rule_view more.rule ≡ plain.longer (raw_rule_view begun.entry.rule) line.now) }
    ensures count { IfOk result (λ more. more.count ≡ blocks.with_line begun.entry.count line.now) }
    ensures err { IfErr result (λ f. f ≡ out_of_memory) }
{
    let OpenRule { mut rule, count } = begun;
    rule.action.push(b'\n')?;
    rule.action.extend_from_slice(line)?;
    let count = with_line(count, line);
    Ok(OpenRule { rule, count })
}

// Takes a line of the rules section itself.
fn take_rule<'a>(
    alloc: Global,
    sections: ParsedSections<'a>,
    number: u32,
    line: &'a [u8],
) -> Result<(ParsedSections<'a>, Option<LineContext<'a>>), SpecFault>
    requires { 0 < number }
    ensures { TakesLine taken_view (sections_view sections.entry) plain.rules number line.now
        result }
{
    match rule_line_of(line) {
        RuleLine::Skipped => Ok((sections, Some(LineContext::Rules))),
        RuleLine::OpensGroup => Ok((sections, Some(LineContext::RulesGroup(number)))),
        RuleLine::RulesEnd => Ok((sections, None)),
        RuleLine::BeginsRule {
            prefix,
            pattern,
            action,
        } => {
            let begun = first_line(alloc, number, prefix, pattern, action)?;
            continue_rule(sections, begun)
        }
    }
}

// Takes one line. Returns the sections and the construct that the next line is in. Returns `None` after the line that ends the rules.
fn take_line<'a>(
    alloc: Global,
    sections: ParsedSections<'a>,
    place: LineContext<'a>,
    number: u32,
    line: &'a [u8],
) -> Result<(ParsedSections<'a>, Option<LineContext<'a>>), SpecFault>
    requires { 0 < number }
    ensures { TakesLine taken_view (sections_view sections.entry) (place_view place.entry) number
        line.now result }
{
    match place {
        LineContext::Definitions => take_definition(sections, number, line),
        LineContext::Comment(since) => {
            let next = if has_pair(b'*', b'/', line) {
                LineContext::Definitions
            } else {
                LineContext::Comment(since)
            };
            Ok((sections, Some(next)))
        }
        LineContext::Group(since) => {
            let next = if begins_with(b'%', b'}', line) {
                LineContext::Definitions
            } else {
                LineContext::Group(since)
            };
            Ok((sections, Some(next)))
        }
        LineContext::Rules => take_rule(alloc, sections, number, line),
        LineContext::RulesGroup(since) => {
            let next = if begins_with(b'%', b'}', line) {
                LineContext::Rules
            } else {
                LineContext::RulesGroup(since)
            };
            Ok((sections, Some(next)))
        }
        LineContext::Action(begun) => {
            let begun = next_line(begun, line)?;
            continue_rule(sections, begun)
        }
    }
}

// Returns the sections at the end of the text.
fn finish_sections<'a>(
    sections: ParsedSections<'a>,
    place: LineContext<'a>,
) -> Result<ParsedSections<'a>, SpecFault>
    ensures { (n : ℕ) → Gives sections_view result
        (plain.sections_behind (sections_view sections.entry) (place_view place.entry) n []) }
{
    match place {
        LineContext::Definitions => Err(SpecFault {
            code: Code::NoRules,
            line: 0,
        }),
        LineContext::Comment(since) | LineContext::Group(since) | LineContext::RulesGroup(since) =>
            Err(SpecFault {
                code: Code::NotClosed,
                line: since,
            }),
        LineContext::Rules => Ok(sections),
        LineContext::Action(begun) => {
            let OpenRule { rule, .. } = begun;
            with_rule(sections, rule, false)
        }
    }
}

fn only_initial<'a>(alloc: Global) -> Result<ParsedSections<'a>, SpecFault>
    ensures ok { IfOk result (λ d. sections_view d ≡ plain.only_initial) }
    ensures err { IfErr result (λ f. f ≡ out_of_memory) }
{
    let mut start_conditions = Vec::new(alloc);
    start_conditions.push(StartCondition {
        name: b"INITIAL",
        exclusive: false,
    })?;
    Ok(ParsedSections {
        start_conditions,
        definitions: Vec::new(alloc),
        rules: Vec::new(alloc),
    })
}

/// Reads the sections of a text. Err: their first fault in the order of the text.
pub fn read_sections<'a>(alloc: Global, text: &'a [u8]) -> Result<ParsedSections<'a>, SpecFault>
    requires { length text.now ≤ max_specification_bytes }
    ensures { Gives sections_view result (plain.sections_of text.now) }
{
    let mut sections = only_initial(alloc)?;
    let mut place = LineContext::Definitions;
    let mut number: u32 = 1;
    let mut lines = text.lines();
    while let Some(line) = lines.next() {
        let (more, next) = take_line(alloc, sections, place, number, line)?;
        sections = more;
        match next {
            Some(found) => place = found,
            None => return Ok(sections),
        }
        number += 1;
    }
    finish_sections(sections, place)
}
