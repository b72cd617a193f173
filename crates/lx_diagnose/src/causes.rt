//! Causes why a specification is rejected, one type for each code.

/// The reason why no line begins the rules section.
#[derive(Clone, Copy)]
pub enum RulesCause {
    Missing,
    IndentedPercent,
    RulesAsDefinitions,
}

/// The construct that is open at the end of the text.
#[derive(Clone, Copy)]
pub enum OpenCause {
    NotClosed,
    Group,
    Comment,
    Action,
    ActionComment,
    HiddenBrace,
}

/// The reason why a line of the definitions section is malformed.
#[derive(Clone, Copy)]
pub enum LineCause {
    NoForm,
    ByteOrderMark,
    WideText,
    TablesGiven,
    RuleBeforePercent,
    OptionWord,
    OptionForm,
    TopGroup,
    SizeForm,
    GroupCloses,
    ConditionsComma,
    ConditionsForm,
    PercentWord,
    CLine,
    NameAlone,
    NameForm,
}

/// The name that is declared a second time.
#[derive(Clone, Copy)]
pub enum TwiceCause {
    Again,
    Initial,
}

/// The limit that is exceeded.
#[derive(Clone, Copy)]
pub enum LimitCause {
    Unknown,
    Definitions,
    Conditions,
    Rules,
}

/// The reason why a list of conditions, a pattern or a substitute is unreadable.
#[derive(Clone, Copy)]
pub enum PatternCause {
    NoReading,
    EndOfFile,
    AllConditions,
    PrefixOperator,
    PrefixBlank,
    PrefixName,
    Scope,
    PatternMissing,
    CommentLine,
    TooLong,
    NothingButAnchors,
    DefinitionAnchor,
    DefinitionBlank,
    DefinitionEquals,
    LookAhead,
    Slash,
    CaretInside,
    DollarInside,
    QuoteEmpty,
    QuoteInside,
    QuoteOpen,
    SetOperator,
    IntervalBackwards,
    IntervalLarge,
    IntervalLow,
    IntervalForm,
    NameHyphen,
    BraceOpen,
    BracketsOpen,
    ClassNegated,
    ClassUnknown,
    ClassRange,
    RangeShared,
    RangeBackwards,
    LongCollation,
    EscapeLarge,
    EscapeEnd,
    GroupOption,
    RepeatBehindInterval,
    NothingToRepeat,
    EmptyAlternative,
    GroupNotOpen,
    ParenthesisOpen,
    OddByte,
}

/// The reason why a name isn't defined.
#[derive(Clone, Copy)]
pub enum NameCause {
    Unknown,
    NotDefined,
    Similar,
    Condition,
}

/// The reason why names are nested too deep.
#[derive(Clone, Copy)]
pub enum DepthCause {
    TooDeep,
    Circle,
}

/// The reason why a condition isn't declared.
#[derive(Clone, Copy)]
pub enum ConditionCause {
    Unknown,
    NotDeclared,
    Similar,
    Tag,
    BeginVariable,
}

/// The reason why an action is malformed.
#[derive(Clone, Copy)]
pub enum ActionCause {
    NoForm,
    CommentHash,
    GroupAsAction,
    BlankInPattern,
    QuoteSplits,
    NoBlank,
    BarNotAlone,
    Semicolon,
    ReturnAlone,
    ReturnExpression,
    ReturnString,
    ReturnNumber,
    ConstantForm,
    BeginForm,
    FlexCall,
    FlexVariable,
    BraceNotOpen,
    CarriageReturn,
    C,
}

/// The reason why a specification is rejected: its code, and further details.
#[derive(Clone, Copy)]
pub enum Cause {
    TooLong,
    NoRules(RulesCause),
    NotClosed(OpenCause),
    NoForm(LineCause),
    Twice(TwiceCause),
    TooMany(LimitCause),
    NoReading(PatternCause),
    Undefined(NameCause),
    TooDeep(DepthCause),
    NoCondition(ConditionCause),
    NoAction(ActionCause),
    NoNext,
    Memory,
}
