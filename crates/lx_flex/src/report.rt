//! Reports on constructs that can't be imported, or only with a loss, and on what to do.

ghost use Rattle.std.specs.Prelude.{◌≡◌, ◌<◌, ◌≤◌, ◌||◌, IsErr, OnOk, length, true};

use crate::actions::Problem;
use crate::cursor::FilePlace;
use std::alloc::{AllocError, AllocFailed};
use std::fmt;
use thiserror::Error;

/// The cause of a report.
#[derive(Debug, Clone, Copy, PartialEq, Eq)]
pub enum ImportCause {
    TooLong,
    NoRules,
    NotClosed,
    BadDefinitionLine,
    Twice,
    TooMany,
    LargePatterns,
    UnknownOption,
    CppScanner,
    SerializedTables,
    OptionsLeftOut,
    BadRule,
    UnknownCondition,
    Pattern(lx_flex_pattern::PatternFault),
    DanglingBar,
    EofRule,
    TrailingContext,
    EmptyBeforeDollar,
    DollarBehindBar,
    Reject,
    More,
    Less,
    Unput,
    Input,
    Terminate,
    StateStack,
    OtherBuffer,
    UnknownBegin,
    ConditionalBegin,
    BeginBeforeRules,
    LineBegin,
    Tables,
    Further,
    Refused(lx_spec::Code),
    NotTheSame,
    NeverMatched(Taker),
    DefaultMatched,
    DangerousContext,
    EmptyToken,
    RepeatedEnd,
    UselessEnd,
    IntervalBinding {
        /// True if the command reads the pattern as POSIX does.
        posix: bool,
    },
}

impl fmt::Display for ImportCause {
    fn fmt<W: fmt::Write>(&self, f: &mut fmt::Formatter<W>) -> fmt::Result {
        match self {
            ImportCause::Pattern(fault) => write!(f, "the pattern: {fault}; write another one"),
            ImportCause::Refused(code) => write!(f, "lx refuses what would be printed: {code}"),
            ImportCause::NeverMatched(taker) => write!(f, "rule cannot be matched: {taker}"),
            _ => f.write_str(self.words()),
        }
    }
}

impl std::error::Error for ImportCause {}

/// The rules that take the texts of a rule that is never matched.
#[derive(Debug, Clone, Copy, PartialEq, Eq, Error)]
pub enum Taker {
    /// One rule, at this place.
    #[error("an earlier rule takes all its texts")]
    One(FilePlace),
    /// Several rules, the first of them at this place, if it is known.
    #[error("earlier rules take all its texts")]
    Several(FilePlace),
    /// The rule matches the empty text alone.
    #[error("it matches no text of a byte or more")]
    None,
}

impl ImportCause {
    /// Returns the words of a cause that has the same ones at each place, and what to do.
    fn words(&self) -> &'static str {
        match self {
            ImportCause::TooLong => "the file has more than 1,048,576 bytes; split it",
            ImportCause::NoRules => "there is no line %%; write one before the rules",
            ImportCause::NotClosed => {
                "a comment, a code block, a scope or an action isn't closed; close it"
            }
            ImportCause::BadDefinitionLine => "flex has no such line among definitions; delete it",
            ImportCause::Twice => "the name is defined or declared twice; delete one",
            ImportCause::TooMany => {
                "there are more than 1,024 definitions, 63 start conditions, 4,096 rules or 64 nested scopes; split the file"
            }
            ImportCause::LargePatterns => {
                "the patterns before this one have more than 262,144 parts; split the file"
            }
            ImportCause::UnknownOption => "flex has no such %option; delete the word",
            ImportCause::CppScanner => {
                "C++ scanners (%option c++, yyclass) are not supported; a C++ compiler takes the scanner in C, so delete the word"
            }
            ImportCause::SerializedTables => {
                "serialized tables (%option tables-file, tables-verify) are not supported; the scanner has its tables, so delete the word"
            }
            ImportCause::OptionsLeftOut => "words of %option that change no token are left out",
            ImportCause::BadRule => {
                "flex reads no rule here; write a pattern, blanks and an action"
            }
            ImportCause::UnknownCondition => {
                "the start condition isn't declared; declare it with %s or %x"
            }
            ImportCause::DanglingBar => {
                "the last rule has the action of the next; write its action"
            }
            ImportCause::EofRule => {
                "an <<EOF>> rule is left out; do its work at the end of the tokens"
            }
            ImportCause::TrailingContext => {
                "trailing context, r/s; match r alone, or r and s as one token"
            }
            ImportCause::EmptyBeforeDollar => {
                "a pattern before $ that matches nothing; write + for *"
            }
            ImportCause::DollarBehindBar => {
                "$ after a rule with the action |, where flex takes the newline along; give that rule an action of its own"
            }
            ImportCause::Reject => "REJECT; write the other rule's pattern first",
            ImportCause::More => "yymore; join the tokens in what reads them",
            ImportCause::Less => "yyless; write a pattern for what is to be taken",
            ImportCause::Unput => "unput; change the text before it is scanned",
            ImportCause::Input => "input; write a pattern for what it reads",
            ImportCause::Terminate => "yyterminate; stop in what reads the tokens",
            ImportCause::StateStack => {
                "a stack of start conditions; use BEGIN with a condition's name"
            }
            ImportCause::OtherBuffer => "another buffer is scanned; scan it by a call of its own",
            ImportCause::UnknownBegin => {
                "BEGIN of what is no start condition's name; write the name"
            }
            ImportCause::ConditionalBegin => "BEGIN under a condition; write a rule for each case",
            ImportCause::BeginBeforeRules => {
                "BEGIN in the code before the first rule; call the scanner's begin in the program"
            }
            ImportCause::LineBegin => "yy_set_bol; write a start condition for the line's begin",
            ImportCause::Tables => {
                "the file is tables of lx, and no specification for flex; list files by it with lx scan"
            }
            ImportCause::Further => {
                "there are more than 1,000 of these lines; the others are left out"
            }
            ImportCause::NotTheSame => "lx reads what would be printed otherwise",
            ImportCause::DefaultMatched => {
                "-s option given but default rule can be matched: no rule takes some of the bytes"
            }
            ImportCause::DangerousContext => {
                "dangerous trailing context: the token is the longest text of r such that s matches the rest, and flex may take a longer one"
            }
            ImportCause::EmptyToken => {
                "the token before its context can be empty: the scanner loops if the action neither changes the condition nor reads on"
            }
            ImportCause::RepeatedEnd => {
                "multiple <<EOF>> rules for a start condition: the first one is taken"
            }
            ImportCause::UselessEnd => "all start conditions already have <<EOF>> rules",
            ImportCause::IntervalBinding { posix: _ } => {
                "an interval repeats the unit before it in flex, and all before it in its branch in POSIX"
            }
            ImportCause::Pattern(_) | ImportCause::Refused(_) | ImportCause::NeverMatched(_) => "",
        }
    }

    /// Returns what to do, if the text of the cause doesn't say it.
    pub fn hint(&self) -> Option<&'static str> {
        match self {
            ImportCause::NeverMatched(_) => Some(
                "put it before what takes its texts, or delete it",
            ),
            ImportCause::DefaultMatched => Some("take each other byte by a last rule: <*>.|\\n"),
            ImportCause::DangerousContext => Some(
                "flex takes the same text if r or s has no |, *, +, ? or interval, and the rule before has no action |",
            ),
            ImportCause::EmptyToken => Some("write + for * before the context"),
            ImportCause::IntervalBinding { posix: true } => Some(
                "here ab{2} means (ab){2}; write that, or a(b{2}): flex and POSIX read both alike",
            ),
            ImportCause::IntervalBinding { posix: false } => Some(
                "here ab{2} means a(b{2}); write that, or (ab){2}: flex and POSIX read both alike",
            ),
            _ => None,
        }
    }

    /// Returns what takes the texts of the rule, if it is never matched.
    pub fn taker(&self) -> Option<Taker> {
        match self {
            ImportCause::NeverMatched(taker) => Some(*taker),
            _ => None,
        }
    }

    /// Returns true if it is about a whole pattern.
    fn is_of_pattern(&self) -> bool {
        matches!(
            self,
            ImportCause::Pattern(_)
                | ImportCause::DanglingBar
                | ImportCause::NeverMatched(_)
                | ImportCause::DangerousContext
                | ImportCause::EmptyToken
                | ImportCause::RepeatedEnd
                | ImportCause::UselessEnd
                | ImportCause::IntervalBinding { posix: _ }
        )
    }
}

/// A report on a place.
#[derive(Debug, Clone, Copy, PartialEq, Eq)]
pub struct ImportReport {
    pub place: FilePlace,
    pub cause: ImportCause,
    /// True if it prevents the import of the file.
    pub fatal: bool,
}

impl ImportReport {
    /// Returns the number of bytes that the report is about. `text` begins at its place.
    pub fn width(&self, text: &[u8]) -> usize {
        if self.cause.is_of_pattern() {
            lx_ere::pattern_end(text)
        } else {
            1
        }
    }
}

/// Reason why reading stops.
#[derive(Clone, Copy)]
pub(crate) enum ReadFault {
    At(ImportReport),
    Memory,
}

impl From<AllocError> for ReadFault {
    ghost use Rattle.lx_flex.specs.declared.report.ReadFault.{ReadFault};

    ghost from_gives = { λ _ fault. fault ≡ ReadFault.Memory };

    fn from(_e: AllocError) -> ReadFault {
        ReadFault::Memory
    }
}

impl<T: Drop> From<AllocFailed<T>> for ReadFault {
    ghost use Rattle.lx_flex.specs.declared.report.ReadFault.{ReadFault};

    ghost from_gives = { λ _ fault. fault ≡ ReadFault.Memory };

    fn from(_e: AllocFailed<T>) -> ReadFault {
        ReadFault::Memory
    }
}

/// Reason why a file isn't imported.
#[derive(Debug, Drop)]
pub enum ImportFault {
    /// The reports, in the order of the text. At least one of them is fatal, or one of those that are left out after the first 1,000.
    Refused(Vec<ImportReport>),
    /// An allocation failed.
    Memory,
}

impl From<AllocError> for ImportFault {
    ghost use Rattle.lx_flex.specs.declared.report.ImportFault.{ImportFault};

    ghost from_gives = { λ _ fault. fault ≡ ImportFault.Memory };

    fn from(_e: AllocError) -> ImportFault {
        ImportFault::Memory
    }
}

impl<T: Drop> From<AllocFailed<T>> for ImportFault {
    ghost use Rattle.lx_flex.specs.declared.report.ImportFault.{ImportFault};

    ghost from_gives = { λ _ fault. fault ≡ ImportFault.Memory };

    fn from(_e: AllocFailed<T>) -> ImportFault {
        ImportFault::Memory
    }
}

/// Greatest number of reports that are kept.
const MAX_REPORTS: usize = 1000;

/// Returns the number of reports on this line and on earlier ones.
fn count_up_to(reports: &[ImportReport], line: u32) -> usize {
    let mut count: usize = 0;
    for report in reports {
        if report.place.line <= line {
            count = count.saturating_add(1);
        }
    }
    count
}

/// Inserts a report after those on its line and on earlier ones. Above the limit, the last report says that there are more.
fn insert_report(reports: &mut Vec<ImportReport>, report: ImportReport) -> Result<(), AllocError>
    ensures some { OnOk result (0 < length reports.new.items) }
    ensures kept { length reports.old.items ≤ length reports.new.items }
{
    let count = reports.len();
    if count < MAX_REPORTS {
        let at = count_up_to(reports.as_slice(), report.place.line).min(count);
        reports.insert(at, report)?;
        return Ok(());
    }
    if count == MAX_REPORTS {
        reports.push(ImportReport {
            place: FilePlace::WHOLE,
            cause: ImportCause::Further,
            fatal: report.fatal,
        })?;
    }
    Ok(())
}

/// The reports that were made, in the order of the text.
#[derive(Debug, Drop)]
pub struct Reports {
    pub list: Vec<ImportReport>,
    /// True if one of them is fatal.
    pub fatal: bool,
    /// True if a loss is only reported.
    pub(crate) lossy: bool,
    /// True if warnings are reported.
    pub warns: bool,
    pub ghost some: { fatal ≡ true → 0 < length list.items },
}

impl Reports {
    pub(crate) fn has(&self, cause: ImportCause) -> bool {
        for report in self.list.as_slice() {
            if report.cause == cause {
                return true;
            }
        }
        false
    }

    /// Adds a report, after those on its line and on earlier ones. Above the limit, the last report says that there are more.
    pub fn add(
        &mut self,
        place: FilePlace,
        cause: ImportCause,
        fatal: bool,
    ) -> Result<(), AllocError>
        ensures fatal { OnOk result (self.new.fatal ≡ (self.old.fatal || fatal)) }
        ensures some { OnOk result (0 < length self.new.list.items) }
    {
        let report = ImportReport {
            place,
            cause,
            fatal,
        };
        insert_report(&mut self.list, report)?;
        self.fatal = self.fatal || fatal;
        Ok(())
    }

    /// Adds a warning, if warnings are reported.
    pub fn warn(&mut self, place: FilePlace, cause: ImportCause) -> Result<(), AllocError>
        ensures { OnOk result (self.new.fatal ≡ self.old.fatal) }
    {
        if !self.warns {
            return Ok(());
        }
        self.add(place, cause, false)
    }

    /// Adds a report of a loss. It is fatal unless losses are only reported.
    pub(crate) fn add_loss(
        &mut self,
        place: FilePlace,
        cause: ImportCause,
    ) -> Result<(), AllocError> {
        let fatal = !self.lossy;
        self.add(place, cause, fatal)
    }

    /// Adds a report of each of these losses.
    pub(crate) fn add_losses(&mut self, problems: &[Problem]) -> Result<(), AllocError> {
        for problem in problems {
            self.add_loss(FilePlace::line_start(problem.line), problem.cause)?;
        }
        Ok(())
    }
}

/// Returns a report that stops reading.
pub(crate) fn stop<T>(place: FilePlace, cause: ImportCause) -> Result<T, ReadFault>
    ensures { IsErr result }
{
    Err(ReadFault::At(ImportReport {
        place,
        cause,
        fatal: true,
    }))
}
