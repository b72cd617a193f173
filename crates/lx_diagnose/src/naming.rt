//! Names of causes, as `explain` knows them.

use crate::causes::{
    ActionCause, Cause, ConditionCause, LineCause, NameCause, OpenCause, PatternCause, RulesCause,
};

/// Returns the name of a cause, by which `explain` knows it. The result is empty if `explain` has only the text of the code.
pub fn name_of(cause: Cause) -> &'static str {
    match cause {
        Cause::NoRules(RulesCause::IndentedPercent) => "indented-percent",
        Cause::NoRules(RulesCause::RulesAsDefinitions) => "rules-as-definitions",
        Cause::NotClosed(OpenCause::Group) => "group-open",
        Cause::NotClosed(OpenCause::Comment) => "comment-open",
        Cause::NotClosed(OpenCause::Action) => "action-open",
        Cause::NotClosed(OpenCause::ActionComment) => "action-comment-open",
        Cause::NotClosed(OpenCause::HiddenBrace) => "brace-hidden",
        Cause::NoForm(LineCause::ByteOrderMark) => "byte-order-mark",
        Cause::NoForm(LineCause::WideText) => "wide-text",
        Cause::NoForm(LineCause::TablesGiven) => "tables-given",
        Cause::NoForm(LineCause::RuleBeforePercent) => "rule-before-percent",
        Cause::NoForm(LineCause::OptionWord) => "option-word",
        Cause::NoForm(LineCause::OptionForm) => "option-form",
        Cause::NoForm(LineCause::TopGroup) => "top-group",
        Cause::NoForm(LineCause::SizeForm) => "size-form",
        Cause::NoForm(LineCause::GroupCloses) => "group-closes",
        Cause::NoForm(LineCause::ConditionsComma) => "conditions-comma",
        Cause::NoForm(LineCause::ConditionsForm) => "conditions-form",
        Cause::NoForm(LineCause::PercentWord) => "percent-word",
        Cause::NoForm(LineCause::CLine) => "c-line",
        Cause::NoForm(LineCause::NameAlone) => "name-alone",
        Cause::NoForm(LineCause::NameForm) => "name-form",
        Cause::NoReading(PatternCause::EndOfFile) => "eof-rule",
        Cause::NoReading(PatternCause::AllConditions) => "all-conditions",
        Cause::NoReading(PatternCause::PrefixOperator) => "prefix-operator",
        Cause::NoReading(PatternCause::PrefixBlank) => "prefix-blank",
        Cause::NoReading(PatternCause::PrefixName) => "prefix-name",
        Cause::NoReading(PatternCause::Scope) => "scope",
        Cause::NoReading(PatternCause::PatternMissing) => "pattern-missing",
        Cause::NoReading(PatternCause::CommentLine) => "comment-line",
        Cause::NoReading(PatternCause::TooLong) => "too-long",
        Cause::NoReading(PatternCause::NothingButAnchors) => "nothing-but-anchors",
        Cause::NoReading(PatternCause::DefinitionAnchor) => "definition-anchor",
        Cause::NoReading(PatternCause::DefinitionBlank) => "definition-blank",
        Cause::NoReading(PatternCause::DefinitionEquals) => "definition-equals",
        Cause::NoReading(PatternCause::LookAhead) => "look-ahead",
        Cause::NoReading(PatternCause::Slash) => "slash",
        Cause::NoReading(PatternCause::CaretInside) => "caret-inside",
        Cause::NoReading(PatternCause::DollarInside) => "dollar-inside",
        Cause::NoReading(PatternCause::QuoteEmpty) => "quote-empty",
        Cause::NoReading(PatternCause::QuoteInside) => "quote-inside",
        Cause::NoReading(PatternCause::QuoteOpen) => "quote-open",
        Cause::NoReading(PatternCause::SetOperator) => "set-operator",
        Cause::NoReading(PatternCause::IntervalBackwards) => "interval-backwards",
        Cause::NoReading(PatternCause::IntervalLarge) => "interval-large",
        Cause::NoReading(PatternCause::IntervalLow) => "interval-low",
        Cause::NoReading(PatternCause::IntervalForm) => "interval-form",
        Cause::NoReading(PatternCause::NameHyphen) => "name-hyphen",
        Cause::NoReading(PatternCause::BraceOpen) => "brace-open",
        Cause::NoReading(PatternCause::BracketsOpen) => "brackets-open",
        Cause::NoReading(PatternCause::ClassNegated) => "class-negated",
        Cause::NoReading(PatternCause::ClassUnknown) => "class-unknown",
        Cause::NoReading(PatternCause::ClassRange) => "class-range",
        Cause::NoReading(PatternCause::RangeShared) => "range-shared",
        Cause::NoReading(PatternCause::RangeBackwards) => "range-backwards",
        Cause::NoReading(PatternCause::LongCollation) => "long-collation",
        Cause::NoReading(PatternCause::EscapeLarge) => "escape-large",
        Cause::NoReading(PatternCause::EscapeEnd) => "escape-end",
        Cause::NoReading(PatternCause::GroupOption) => "group-option",
        Cause::NoReading(PatternCause::RepeatBehindInterval) => "repeat-behind-interval",
        Cause::NoReading(PatternCause::NothingToRepeat) => "nothing-to-repeat",
        Cause::NoReading(PatternCause::EmptyAlternative) => "empty-alternative",
        Cause::NoReading(PatternCause::GroupNotOpen) => "group-not-open",
        Cause::NoReading(PatternCause::ParenthesisOpen) => "parenthesis-open",
        Cause::Undefined(NameCause::Condition) => "condition-as-name",
        Cause::NoCondition(ConditionCause::Tag) => "tag",
        Cause::NoCondition(ConditionCause::BeginVariable) => "begin-variable",
        Cause::NoAction(ActionCause::CommentHash) => "comment-hash",
        Cause::NoAction(ActionCause::GroupAsAction) => "group-as-action",
        Cause::NoAction(ActionCause::BlankInPattern) => "blank-in-pattern",
        Cause::NoAction(ActionCause::QuoteSplits) => "quote-splits",
        Cause::NoAction(ActionCause::NoBlank) => "no-blank",
        Cause::NoAction(ActionCause::BarNotAlone) => "bar-not-alone",
        Cause::NoAction(ActionCause::Semicolon) => "semicolon",
        Cause::NoAction(ActionCause::ReturnAlone) => "return-alone",
        Cause::NoAction(ActionCause::ReturnExpression) => "return-expression",
        Cause::NoAction(ActionCause::ReturnString) => "return-string",
        Cause::NoAction(ActionCause::ReturnNumber) => "return-number",
        Cause::NoAction(ActionCause::ConstantForm) => "constant-form",
        Cause::NoAction(ActionCause::BeginForm) => "begin-form",
        Cause::NoAction(ActionCause::FlexCall) => "flex-call",
        Cause::NoAction(ActionCause::FlexVariable) => "flex-variable",
        Cause::NoAction(ActionCause::BraceNotOpen) => "brace-not-open",
        Cause::NoAction(ActionCause::CarriageReturn) => "carriage-return",
        Cause::NoAction(ActionCause::C) => "code",
        Cause::TooLong
        | Cause::NoRules(RulesCause::Missing)
        | Cause::NotClosed(OpenCause::NotClosed)
        | Cause::NoForm(LineCause::NoForm)
        | Cause::Twice(_)
        | Cause::TooMany(_)
        | Cause::NoReading(PatternCause::NoReading | PatternCause::OddByte)
        | Cause::Undefined(NameCause::Unknown | NameCause::NotDefined | NameCause::Similar)
        | Cause::TooDeep(_)
        | Cause::NoCondition(ConditionCause::Unknown)
        | Cause::NoCondition(ConditionCause::NotDeclared | ConditionCause::Similar)
        | Cause::NoAction(ActionCause::NoForm)
        | Cause::NoNext
        | Cause::Memory => "",
    }
}
