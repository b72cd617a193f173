//! Reasons why a command fails.

ghost use Rattle.std.specs.Prelude.{◌≡◌, option_map};
ghost use Rattle.lx_tool.specs.Statuses.{report_in, report_of_print, status_of};

use crate::target::TargetFault;
use clap::Error as WordsError;
use lx_auto::BuildFault;
use lx_c::OptionFault;
use lx_forms::ChoiceFault;
use lx_piece::ReaderFault;
use lx_post::RunFault;
use lx_spec::{Code, SpecFault};
use lx_tables::TableFault;
use std::alloc::{AllocError, AllocFailed};
use std::fmt::{self, Display, Formatter, Write};
use thiserror::Error;

/// Reason why a file is rejected as an output.
#[derive(Clone, Copy, Debug, Error)]
pub enum OutputFault<'a> {
    /// The file of an option is the input, which it would overwrite.
    #[error("-{option} {output} would overwrite the input {input}; name another file")]
    Overwritten {
        option: char,
        output: &'a str,
        input: &'a str,
    },
    /// The files of `-o` and `-c` are one.
    #[error("-o {target} and -c {actions} are one file; name two")]
    Same {
        target: &'a str,
        actions: &'a str,
    },
    /// The actions would go to standard output.
    #[error("-c - isn't supported; name a file")]
    ActionsOnOutput,
}

/// Reason why a request is rejected.
#[derive(Clone, Copy, Debug, Error)]
pub enum RequestFault<'a> {
    /// `--only` lists a kind that no action of the tables returns.
    #[error("no kind {0}")]
    NoKind(&'a str),
    /// `--only` lists nothing, or an empty name.
    #[error("--only has an empty name")]
    EmptyKind,
    /// `--format` has another word than `text` and `json`.
    #[error("no format {0}")]
    NoFormat(&'a str),
    /// No file to list is named.
    #[error("no file is named")]
    NoFile,
    /// This line of the list of files, counted from 1, is empty or isn't UTF-8.
    #[error("line {line} of {list} is no name")]
    NoName { line: usize, list: &'a str },
    /// Both `--stream` and `-j` are given.
    #[error("--stream works on one thread; leave out -j")]
    StreamWorkers,
    /// `-o` is given, and this program can't make files.
    #[error("-o isn't served here")]
    NoTargets,
    /// An output file is another file of the arguments, or isn't allowed.
    #[error("{0}")]
    Outputs(OutputFault<'a>),
    /// Both `--c` and `--header` are given.
    #[error("--c and --header exclude one another")]
    ScannerAndHeader,
    /// `--prefix`, `--include` or `--direct` is given, and neither `--c` nor `--header`.
    #[error("--prefix, --include and --direct go with --c or --header")]
    NoScanner,
    /// The value of `--prefix` or `--include` is rejected.
    #[error("{0}")]
    Scanner(OptionFault),
    /// `-W` has this word, which names no warning.
    #[error("no warning {0}")]
    NoWarning(&'a str),
    /// `--flex` isn't the first word after `check`.
    #[error("--flex comes first: lx check --flex [-q] [-W error] [OPTIONS] [FILE..]")]
    FlexLater,
    /// The last file's number would be above 4,294,967,295.
    #[error("the number of the last file would be above 4294967295")]
    NumberTooLarge,
}

/// Reason why a text that was read isn't printed as requested.
#[derive(Debug, Drop)]
pub enum PrintFault {
    /// The numbers of kinds in C would pass 2,147,483,647.
    Numbers,
    /// The kind with this name is a keyword of C or C++.
    Reserved(Vec<u8>),
    /// The kind with this name would be declared twice, because the scanner's own names have this prefix.
    Declared(Vec<u8>),
    /// Direct code isn't printed for this number of states.
    TooManyForCode(u32),
    /// A graph would have this number of states, and `--all` isn't given.
    TooManyStates(u32),
    /// No code and no cause has the requested name.
    Unexplained,
    /// Parts of the flex specification can't be imported.
    NotImported,
    /// A specification is rejected, or has warnings that are errors. The report goes to the output.
    Reported(Vec<u8>),
}

impl PrintFault {
    // Returns the report that goes to the output.
    fn report(&self) -> Option<&[u8]>
        ensures { option_map (λ report. report.now) result ≡ report_of_print self.now }
    {
        match self {
            PrintFault::Reported(report) => Some(report),
            PrintFault::Numbers
            | PrintFault::Reserved(_)
            | PrintFault::Declared(_)
            | PrintFault::TooManyForCode(_)
            | PrintFault::TooManyStates(_)
            | PrintFault::Unexplained
            | PrintFault::NotImported => None,
        }
    }
}

impl Display for PrintFault {
    fn fmt<W: Write>(&self, f: &mut Formatter<W>) -> Result<(), fmt::Error> {
        match self {
            PrintFault::Numbers => f.write_str("E40"),
            PrintFault::Reserved(name) => { write!(f, "{} is a word of C or C++", text_of(name)) }
            PrintFault::Declared(name) => { write!(f, "{} would be declared twice", text_of(name)) }
            PrintFault::TooManyForCode(_) => f.write_str("E41"),
            PrintFault::TooManyStates(states) => {
                write!(
                    f,
                    "{states} states are more than 200, and shown with --all alone"
                )
            }
            PrintFault::Unexplained => f.write_str("no code and no cause has this name"),
            PrintFault::NotImported => f.write_str("the file isn't brought over"),
            PrintFault::Reported(_) => f.write_str("the specification is refused"),
        }
    }
}

// Returns the name of a kind, which is ASCII.
fn text_of(name: &[u8]) -> &str {
    str::from_utf8(name).unwrap_or("a kind")
}

/// Reason why a command fails. Its text is the line on stderr.
#[derive(Debug, Drop, Error)]
pub enum CommandFault<'a> {
    /// The text of a specification is rejected.
    #[error("lx: {0}")]
    Specification(SpecFault),
    /// A specification is too large for an automaton.
    #[error("lx: {0}")]
    Automaton(BuildFault),
    /// A text isn't that of tables.
    #[error("lx: {0}")]
    Tables(TableFault),
    /// The text that was read can't be printed as requested.
    #[error("lx: {0}")]
    Unprintable(PrintFault),
    /// The arguments don't form a command line, for the reason in the text.
    #[error("{0}")]
    Words(WordsError),
    /// There are more than 65,536 files.
    #[error("lx: too many files")]
    TooManyFiles,
    /// Standard input is named twice.
    #[error("lx: - is named twice, and standard input can be read once")]
    InputTwice,
    /// The request is rejected: the form or the files of a listing, or an output file.
    #[error("lx: {0}")]
    Refused(RequestFault<'a>),
    /// The file with this name can't be read.
    #[error("lx: cannot read {0}")]
    NotRead(&'a str),
    /// The output failed.
    #[error("lx: cannot write")]
    Output,
    /// An allocation failed.
    #[error("lx: out of memory")]
    Memory,
}

impl CommandFault<'_> {
    /// Returns the report that goes to the output.
    pub(crate) fn report(&self) -> Option<&[u8]>
        ensures { option_map (λ report. report.now) result ≡ report_in self.now }
    {
        match self {
            CommandFault::Unprintable(fault) => fault.report(),
            CommandFault::Specification(_)
            | CommandFault::Automaton(_)
            | CommandFault::Tables(_)
            | CommandFault::Words(_)
            | CommandFault::TooManyFiles
            | CommandFault::InputTwice
            | CommandFault::Refused(_)
            | CommandFault::NotRead(_)
            | CommandFault::Output
            | CommandFault::Memory => None,
        }
    }

    /// Returns the exit status.
    pub(crate) fn status(&self) -> u8
        ensures { result ≡ status_of self.now }
    {
        match self {
            CommandFault::Specification(_)
            | CommandFault::Automaton(_)
            | CommandFault::Tables(_)
            | CommandFault::Unprintable(_) => 1,
            CommandFault::Words(_)
            | CommandFault::TooManyFiles
            | CommandFault::InputTwice
            | CommandFault::Refused(_) => 2,
            CommandFault::NotRead(_) => 3,
            CommandFault::Output => 4,
            CommandFault::Memory => 5,
        }
    }
}

impl From<AllocError> for CommandFault<'_> {
    ghost use Rattle.lx_tool.specs.declared.failure.CommandFault.{CommandFault};

    ghost from_gives = { λ _ failure. failure ≡ CommandFault.Memory };

    fn from(_error: AllocError) -> Self {
        CommandFault::Memory
    }
}

impl<T: Drop> From<AllocFailed<T>> for CommandFault<'_> {
    ghost use Rattle.lx_tool.specs.declared.failure.CommandFault.{CommandFault};

    ghost from_gives = { λ _ failure. failure ≡ CommandFault.Memory };

    fn from(_error: AllocFailed<T>) -> Self {
        CommandFault::Memory
    }
}

impl From<ReaderFault> for CommandFault<'_> {
    ghost use Rattle.lx_tool.specs.Statuses.{failure_of_reader};

    ghost from_gives = { λ fault failure. failure ≡ failure_of_reader fault };

    fn from(fault: ReaderFault) -> Self {
        match fault {
            ReaderFault::Memory => CommandFault::Memory,
            ReaderFault::Device => CommandFault::Output,
        }
    }
}

impl From<RunFault> for CommandFault<'_> {
    ghost use Rattle.lx_tool.specs.Statuses.{failure_of_run};

    ghost from_gives = { λ fault failure. failure ≡ failure_of_run fault };

    fn from(fault: RunFault) -> Self {
        match fault {
            RunFault::Memory => CommandFault::Memory,
            RunFault::Reader => CommandFault::Output,
        }
    }
}

impl<'a> From<ChoiceFault<'a>> for CommandFault<'a> {
    ghost use Rattle.lx_tool.specs.Statuses.{failure_of_choice};

    ghost from_gives = { λ fault failure. failure ≡ failure_of_choice fault };

    fn from(fault: ChoiceFault<'a>) -> Self {
        match fault {
            ChoiceFault::NoKind(word) => CommandFault::Refused(RequestFault::NoKind(word)),
            ChoiceFault::NoName => CommandFault::Refused(RequestFault::EmptyKind),
            ChoiceFault::Memory => CommandFault::Memory,
        }
    }
}

impl From<TargetFault> for CommandFault<'_> {
    ghost use Rattle.lx_tool.specs.Statuses.{failure_of_target};

    ghost from_gives = { λ fault failure. failure ≡ failure_of_target fault };

    fn from(fault: TargetFault) -> Self {
        match fault {
            TargetFault::NotServed => CommandFault::Refused(RequestFault::NoTargets),
            TargetFault::NotWritten => CommandFault::Output,
            TargetFault::Memory => CommandFault::Memory,
        }
    }
}

impl From<SpecFault> for CommandFault<'_> {
    ghost use Rattle.lx_tool.specs.Statuses.{AnswersFault};

    ghost from_gives = { λ fault failure. AnswersFault fault failure };

    fn from(fault: SpecFault) -> Self {
        match fault.code {
            Code::Memory => CommandFault::Memory,
            _ => CommandFault::Specification(fault),
        }
    }
}

impl From<BuildFault> for CommandFault<'_> {
    ghost use Rattle.lx_tool.specs.Statuses.{failure_of_build};

    ghost from_gives = { λ fault failure. failure ≡ failure_of_build fault };

    fn from(fault: BuildFault) -> Self {
        match fault {
            BuildFault::Memory => CommandFault::Memory,
            _ => CommandFault::Automaton(fault),
        }
    }
}

impl From<TableFault> for CommandFault<'_> {
    ghost use Rattle.lx_tool.specs.Statuses.{failure_of_table};

    ghost from_gives = { λ fault failure. failure ≡ failure_of_table fault };

    fn from(fault: TableFault) -> Self {
        match fault {
            TableFault::Memory => CommandFault::Memory,
            TableFault::NoTables => CommandFault::Tables(fault),
        }
    }
}
