//! Phrases of causes that quote the text: `@` is replaced by the name, `~` by the other name, and `#` by the line of the other name. A phrase is
//! empty if the text of `explain` says all.

use crate::causes::{
    ActionCause, Cause, ConditionCause, DepthCause, LimitCause, LineCause, NameCause, OpenCause,
    PatternCause, RulesCause, TwiceCause,
};

/// Returns the phrase of a cause. It is empty if the text of `explain` says all.
pub(crate) fn phrase_of(cause: Cause) -> &'static str {
    match cause {
        Cause::NoRules(RulesCause::IndentedPercent) => "line # has %% after a blank, so it is code",
        Cause::NoRules(RulesCause::RulesAsDefinitions) =>
            "line # looks like a rule, and there is no line %% before it",
        Cause::NotClosed(OpenCause::HiddenBrace) => "the } of line # is in a comment or in quotes",
        Cause::NoForm(LineCause::OptionWord) => "the option `@` is not known",
        Cause::NoForm(LineCause::SizeForm) => "`@` has another form",
        Cause::NoForm(LineCause::ConditionsForm) => "`@` needs a blank and names after it",
        Cause::NoForm(LineCause::PercentWord) => "`@` is no declaration of lex",
        Cause::NoForm(LineCause::NameAlone) => "`@` is defined as nothing",
        Cause::NoForm(LineCause::NameForm) => "`@` can't be a name: it has `~`",
        Cause::Twice(TwiceCause::Again) => "`@` is declared twice",
        Cause::Twice(TwiceCause::Initial) => "INITIAL is there in any case",
        Cause::TooMany(LimitCause::Definitions) => "more than 1,024 definitions",
        Cause::TooMany(LimitCause::Conditions) => "more than 64 conditions, INITIAL among them",
        Cause::TooMany(LimitCause::Rules) => "more than 4,096 rules",
        Cause::NoReading(PatternCause::IntervalBackwards) => "the interval `@` runs backwards",
        Cause::NoReading(PatternCause::IntervalLarge) => "the bound `@` is above 255",
        Cause::NoReading(PatternCause::IntervalForm) => "`@` is no interval",
        Cause::NoReading(PatternCause::NameHyphen) => "the name `@` has a hyphen",
        Cause::NoReading(PatternCause::ClassUnknown) => "`@` is no class",
        Cause::NoReading(PatternCause::RangeShared) => "`@` ends one range and begins another",
        Cause::NoReading(PatternCause::RangeBackwards) => "the range `@` runs backwards",
        Cause::NoReading(PatternCause::EscapeLarge) => "the number of `@` is above 255",
        Cause::NoReading(PatternCause::RepeatBehindInterval) => "`@` can't follow an interval",
        Cause::NoReading(PatternCause::NothingToRepeat) => "there is nothing before `@`",
        Cause::NoReading(PatternCause::OddByte) => "the byte `@` can't stand here",
        Cause::Undefined(NameCause::NotDefined) => "`@` is not defined",
        Cause::Undefined(NameCause::Similar) => "`@` is not defined; did you mean `~` (line #)?",
        Cause::Undefined(NameCause::Condition) => "`@` is a condition, and not defined",
        Cause::TooDeep(DepthCause::TooDeep) => "the names from `@` on are nested more than 32 deep",
        Cause::TooDeep(DepthCause::Circle) => "`@` leads to itself",
        Cause::NoCondition(ConditionCause::NotDeclared) => "the condition `@` is not declared",
        Cause::NoCondition(ConditionCause::Similar) =>
            "the condition `@` is not declared; did you mean `~` (line #)?",
        Cause::NoCondition(ConditionCause::Tag) =>
            "`<@>` is a list of conditions, and none is declared",
        Cause::NoCondition(ConditionCause::BeginVariable) =>
            "BEGIN takes a condition by its name, and `@` is none",
        Cause::NoAction(ActionCause::BlankInPattern) => "the pattern `@` ends at this blank",
        Cause::NoAction(ActionCause::QuoteSplits) =>
            "a quote ends a string, so that the pattern `@` ends at this blank",
        Cause::NoAction(ActionCause::FlexCall) => "`@` is not there",
        Cause::NoAction(ActionCause::FlexVariable) => "`@` can't be used: an action runs no code",
        Cause::NoAction(ActionCause::C) => "`@` is C, which an action doesn't run",
        _ => "",
    }
}

/// Returns the description of the second place of a cause.
pub fn note_words(cause: Cause) -> &'static str {
    match cause {
        Cause::NotClosed(OpenCause::Group) => "%} has to begin the line",
        Cause::NotClosed(OpenCause::HiddenBrace) => "this } does not count",
        Cause::NotClosed(OpenCause::Action) => "is this the next rule?",
        Cause::Twice(_) => "first here",
        Cause::NoReading(_) => "in this definition",
        Cause::Undefined(_) | Cause::TooDeep(_) => "it is named here",
        Cause::NoCondition(ConditionCause::Similar) => "declared here",
        _ => "here",
    }
}
