//! The rules of a file, as far as they are printed.

ghost use Rattle.std.specs.Prelude.{◌≡◌, false, Some};
ghost use Rattle.lx_ere.specs.Regex.{regex_of};
ghost use Rattle.lx_flex.specs.Lengths.{HasNoNewline};
ghost use Rattle.lx_flex_pattern.specs.ReadingOf.{reading_of};
ghost use Rattle.lx_lex.specs.Cuts.{IsCut, context_of, cut_of, is_varying};

use lx_ere::Expr;
use lx_flex::definitions::Declared;
use lx_flex::file::FlexFile;
use lx_flex::lengths::{fixed_length, matches_empty, may_have_newline};
use lx_flex::rules::{CodeAfterRules, FlexRule, FlexRules, RuleAction};
use lx_flex::tokens::has_word;
use lx_flex::{FilePlace, TextRange};
use lx_flex_pattern::PatternReading;
use std::alloc::{AllocError, Global};

/// The part of a match that is the token. The rest is trailing context.
#[derive(Debug, Clone, Copy, PartialEq, Eq)]
pub enum MatchCut {
    /// All of it.
    Whole,
    /// All but this number of bytes at its end.
    Before(u32),
    /// This number of bytes at its start.
    First(u32),
    /// Both parts have texts of several lengths. The flags are true if the token, or its context, can be empty.
    Varying { token: bool, context: bool },
}

/// Returns true if both parts of a match have texts of several lengths.
pub(crate) fn is_varying(cut: MatchCut) -> bool
    ensures { result ≡ is_varying cut }
{
    matches!(
        cut,
        MatchCut::Varying {
            token: _,
            context: _
        }
    )
}

/// A pattern, as far as it is printed.
#[derive(Debug, Clone, Copy, PartialEq, Eq)]
pub struct PatternOutline {
    /// True if a match has to begin at the start of a line.
    pub line_begin: bool,
    /// False if no token of the rule has a newline.
    pub has_newline: bool,
    pub cut: MatchCut,
}

/// A rule, as far as it is printed.
#[derive(Debug, Drop)]
pub struct RuleOutline {
    pub place: FilePlace,
    /// Numbers of its conditions, in ascending order. `None` if it names none.
    pub conditions: Option<Vec<u16>>,
    /// Outline of the pattern. `None` for `<<EOF>>`.
    pub pattern: Option<PatternOutline>,
    pub action: RuleAction,
}

/// A file, as far as it is printed.
#[derive(Debug, Drop)]
pub struct FileOutline<'a> {
    pub text: &'a [u8],
    pub declared: Declared,
    pub first_code: Vec<TextRange>,
    pub rules: Vec<RuleOutline>,
    pub code: Vec<CodeAfterRules>,
    pub functions: TextRange,
}

/// Returns the cut of a match of two parts.
pub(crate) fn cut_between(token: &Expr, context: &Expr) -> MatchCut
    ensures form { result ≡ cut_of (regex_of token.now) (Some (regex_of context.now)) }
    ensures meaning { IsCut (regex_of token.now) (Some (regex_of context.now)) result }
{
    match fixed_length(context) {
        Some(length) => MatchCut::Before(length),
        None => match fixed_length(token) {
            Some(length) => MatchCut::First(length),
            None => MatchCut::Varying {
                token: matches_empty(token),
                context: matches_empty(context),
            },
        },
    }
}

/// Returns the outline of a pattern.
pub fn outline_of(reading: &PatternReading) -> PatternOutline
    ensures form { result.cut
        ≡ cut_of (reading_of reading.now).tree (context_of (reading_of reading.now)) }
    ensures meaning { IsCut (reading_of reading.now).tree (context_of (reading_of reading.now)) result.cut }
    ensures newline { result.has_newline ≡ false → HasNoNewline (reading_of reading.now).tree }
    ensures begin { result.line_begin ≡ (reading_of reading.now).line_begin }
{
    let expr = &reading.pattern.expr;
    let line_begin = reading.pattern.line_begin;
    let has_newline = may_have_newline(expr);
    match &reading.trailing {
        Some(context) => PatternOutline {
            line_begin,
            has_newline,
            cut: cut_between(expr, context),
        },
        None => {
            let line_end = reading.pattern.line_end;
            PatternOutline {
                line_begin,
                has_newline,
                cut: if line_end {
                    MatchCut::Before(1)
                } else {
                    MatchCut::Whole
                },
            }
        }
    }
}

/// Returns true if C text has blanks, semicolons, braces and comments alone.
fn is_idle(code: &[u8]) -> bool {
    let mut in_comment = false;
    let mut before = b' ';
    for byte in code {
        let mut after = *byte;
        if in_comment {
            if before == b'*' && *byte == b'/' {
                in_comment = false;
                after = b' ';
            }
        } else if before == b'/' {
            if *byte != b'*' {
                return false;
            }
            in_comment = true;
            after = b' ';
        } else if !b" \t\n\r;{}/".contains(byte) {
            return false;
        }
        before = after;
    }
    before != b'/' && !in_comment
}

fn copy_of(conditions: &Option<Vec<u16>>) -> Result<Option<Vec<u16>>, AllocError> {
    match conditions {
        Some(list) => Ok(Some(list.clone()?)),
        None => Ok(None),
    }
}

fn rule_outline(rule: &FlexRule) -> Result<RuleOutline, AllocError> {
    let pattern = match &rule.reading {
        Some(reading) => Some(outline_of(reading)),
        None => None,
    };
    Ok(RuleOutline {
        place: rule.place,
        conditions: copy_of(&rule.conditions)?,
        pattern,
        action: rule.action,
    })
}

/// Returns the file as far as it is printed, and its rules.
pub fn split(
    alloc: Global,
    file: FlexFile<'_>,
) -> Result<(FileOutline<'_>, Vec<FlexRule>), AllocError> {
    let FlexFile {
        text,
        declared,
        rules,
        functions,
    } = file;
    let FlexRules {
        first_code,
        list,
        code,
    } = rules;
    let mut outlines = Vec::new(alloc);
    for rule in list.as_slice() {
        outlines.push(rule_outline(rule)?)?;
    }
    let outline = FileOutline {
        text,
        declared,
        first_code,
        rules: outlines,
        code,
        functions,
    };
    Ok((outline, list))
}

impl FileOutline<'_> {
    /// Returns true if the C of a rule's action has this word. Comments and texts in quotes don't count.
    pub fn rule_has(&self, rule: &RuleOutline, word: &[u8]) -> bool {
        match rule.action {
            RuleAction::Code(code) => has_word(code.of(self.text), word),
            RuleAction::Bar => false,
        }
    }

    /// Returns a flag for each number of rules: true if code of the file follows that many.
    pub(crate) fn code_follows(&self, alloc: Global) -> Result<Vec<bool>, AllocError> {
        let mut follows = Vec::new(alloc);
        for _ in self.rules.as_slice() {
            follows.push(false)?;
        }
        follows.push(false)?;
        for part in self.code.as_slice() {
            if part.rules < follows.len() {
                follows[part.rules] = true;
            }
        }
        Ok(follows)
    }

    /// Returns true if code between the rules may leave out rules: if it has a directive of the preprocessor.
    pub(crate) fn may_leave_out_rules(&self) -> bool {
        for part in self.code.as_slice() {
            if part.code.of(self.text).contains(&b'#') {
                return true;
            }
        }
        false
    }

    /// Returns the condition in which a rule is active, if it is only one.
    pub(crate) fn only_condition(&self, rule: &RuleOutline) -> Option<u16> {
        match &rule.conditions {
            Some(conditions) if conditions.len() == 1 => Some(conditions[0]),
            Some(_) => None,
            None if self.has_inclusive() => None,
            None => Some(0),
        }
    }

    /// Returns true if rules without a list of conditions are active elsewhere than in `INITIAL`.
    fn has_inclusive(&self) -> bool {
        let mut is_initial = true;
        for condition in self.declared.conditions.as_slice() {
            if !is_initial && !condition.exclusive {
                return true;
            }
            is_initial = false;
        }
        false
    }

    /// Returns true if a rule has a pattern, so that something is done behind a match.
    pub(crate) fn has_pattern(&self) -> bool {
        for rule in self.rules.as_slice() {
            if rule.pattern.is_some() {
                return true;
            }
        }
        false
    }

    /// Returns true if code among the rules may define what is done at each match: if it has a directive of the preprocessor.
    pub(crate) fn may_define_hooks(&self) -> bool {
        for code in self.first_code.as_slice() {
            if code.of(self.text).contains(&b'#') {
                return true;
            }
        }
        self.may_leave_out_rules()
    }

    /// Returns true if the rule at this place, counted from 0, has an action that does nothing. An action `|` goes on with the code of the file that
    /// follows its rule, as these flags say.
    pub(crate) fn is_idle(&self, place: usize, code_follows: &[bool]) -> bool {
        for number in place..self.rules.len() {
            let rule = &self.rules[number];
            match rule.action {
                RuleAction::Bar => {
                    if code_follows.get(number + 1).copied().unwrap_or(true) {
                        return false;
                    }
                }
                RuleAction::Code(code) => {
                    return rule.pattern.is_some() && is_idle(code.of(self.text));
                }
            }
            if rule.pattern.is_none() {
                return false;
            }
        }
        false
    }

    /// Returns true if the C of an action, or that before the first rule, has this word. Comments and texts in quotes don't count.
    pub fn actions_have(&self, word: &[u8]) -> bool {
        for rule in self.rules.as_slice() {
            if self.rule_has(rule, word) {
                return true;
            }
        }
        for code in self.first_code.as_slice() {
            if has_word(code.of(self.text), word) {
                return true;
            }
        }
        false
    }

    /// Returns true if the actions use `REJECT`, or the file has the option of this name. `%option noreject` hides it.
    pub fn has_reject(&self) -> bool {
        let options = &self.declared.options;
        if options.place_of(b"reject").is_some() {
            return options.is_on(b"reject");
        }
        self.actions_have(b"REJECT")
    }

    /// Returns true if a rule has to begin at the start of a line.
    pub fn has_line_begin(&self) -> bool {
        for rule in self.rules.as_slice() {
            if let Some(pattern) = rule.pattern {
                if pattern.line_begin {
                    return true;
                }
            }
        }
        false
    }

    /// Returns true if the end of a rule's token is to be found: neither the token nor its context has one length.
    pub(crate) fn has_varying_cut(&self) -> bool {
        for rule in self.rules.as_slice() {
            if let Some(pattern) = rule.pattern {
                if is_varying(pattern.cut) {
                    return true;
                }
            }
        }
        false
    }

    /// Returns true if a rule has trailing context.
    pub fn has_cut(&self) -> bool {
        for rule in self.rules.as_slice() {
            if let Some(pattern) = rule.pattern {
                if pattern.cut != MatchCut::Whole {
                    return true;
                }
            }
        }
        false
    }
}
