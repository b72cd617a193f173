//! Requests of the command line.

ghost use Rattle.std.specs.Prelude.{◌<◌, ◌≤◌};
ghost use Rattle.lx_piece.specs.Plans.{max_items, max_workers};
ghost use Rattle.lx_cli.specs.Limits.{most_told};

use clap::Error;
use std::alloc::AllocError;

/// Default number of items of a piece (`-b`).
pub const ITEMS: u32 = 256;

/// Number of workers for scanning on the calling thread, which is the default of `run`.
pub const ALONE: u8 = 0;

/// Default greatest number of errors that `check` reports (`--most`).
pub const TOLD: u8 = 20;

/// Greatest value of `--most`.
pub const MOST_TOLD: u8 = 100;

/// A request of the command line.
#[derive(Drop)]
pub enum Request<'a> {
    /// No arguments: the run that is stored in the program.
    Stored,
    /// The text of the help, or of the version.
    Told(Error),
    /// `run`: the listing of files by a specification.
    Run(ListRequest<'a>),
    /// `scan`: the listing of files by tables.
    Scan(ListRequest<'a>),
    /// `gen`: the tables of a specification, or a scanner in C.
    Gen(PrintWords<'a>),
    /// `up`: tables, printed in version 2 or as a scanner in C.
    Up(PrintWords<'a>),
    /// `check`: the errors of a specification, and its suspicious parts.
    Check(CheckWords<'a>),
    /// `explain`: the meaning of a code or a cause, or a list of all.
    Explain(Option<&'a str>),
    /// `show`: the automaton as a graph.
    Show(ShowWords<'a>),
    /// `import`: a specification made of one for flex.
    Import(ImportWords<'a>),
}

/// The arguments of `check`.
#[derive(Drop)]
pub struct CheckWords<'a> {
    /// Name of the specification.
    pub rules: &'a str,
    /// `-q`: prints the findings without source lines and counts.
    pub quiet: bool,
    /// `-W`: names of warnings, in order.
    pub warnings: Vec<&'a str>,
    /// `--most`: greatest number of errors that are reported.
    pub most: u8,
    /// `--json`: prints the findings as SARIF.
    pub json: bool,
    /// `--flex`: checks files for flex.
    pub flex: bool,
    ghost some: { 0 < most },
    ghost few: { most ≤ most_told },
}

/// The arguments of `show`.
#[derive(Clone, Copy, Debug)]
pub struct ShowWords<'a> {
    /// Name of the specification, or of the tables.
    pub rules: &'a str,
    /// `--all`: also prints automata with more than 200 states.
    pub all: bool,
}

/// The arguments of `import`.
#[derive(Clone, Copy, Debug)]
pub struct ImportWords<'a> {
    /// Name of the specification for flex.
    pub rules: &'a str,
    /// `-o`: file for the specification, instead of standard output.
    pub target: Option<&'a str>,
    /// `-c`: file for the actions.
    pub actions: Option<&'a str>,
    /// `--prefix`: prefix of the names of kinds in it.
    pub prefix: Option<&'a str>,
    /// `--lossy`: leaves out what can't be imported.
    pub lossy: bool,
}

/// The arguments of `gen` and of `up`.
#[derive(Clone, Copy, Debug)]
pub struct PrintWords<'a> {
    /// Name of the specification, or of the tables.
    pub rules: &'a str,
    /// `-o`: file for the text, instead of standard output.
    pub target: Option<&'a str>,
    /// Options for a C scanner.
    pub c: CWords<'a>,
}

/// The options for a C scanner.
#[derive(Clone, Copy, Debug)]
pub struct CWords<'a> {
    /// `--c`: prints the scanner.
    pub scanner: bool,
    /// `--header`: prints the scanner's declarations.
    pub header: bool,
    /// `--prefix`: prefix of the scanner's names.
    pub prefix: Option<&'a str>,
    /// `--include`: file that declares the kinds.
    pub include: Option<&'a str>,
    /// `--direct`: prints code for each state.
    pub direct: bool,
}

/// The arguments of `run` and of `scan`.
#[derive(Drop)]
pub struct ListRequest<'a> {
    /// Number of workers that scan the files. With 0, the calling thread does.
    pub workers: u8,
    /// Number of items of a piece.
    pub per_piece: u32,
    /// `--stream`: lists each file while it is read.
    pub stream: bool,
    /// Name of the specification, or of the tables.
    pub rules: &'a str,
    /// Names of the files.
    pub files: Vec<&'a str>,
    /// File that names further files, if there is one.
    pub list: Option<ListWords<'a>>,
    /// Form of the listing.
    pub form: FormWords<'a>,
    ghost few_workers: { workers ≤ max_workers },
    ghost some_items: { 0 < per_piece },
    ghost few_items: { per_piece ≤ max_items },
}

/// `--files-from` and `-0`: a file that names files.
#[derive(Clone, Copy, Debug)]
pub struct ListWords<'a> {
    /// Name of the file.
    pub name: &'a str,
    /// Byte that ends each name in it.
    pub separator: u8,
}

/// The arguments for the form of a listing.
#[derive(Clone, Copy, Debug)]
pub struct FormWords<'a> {
    /// `--first`: number of the first file.
    pub first: u32,
    /// `--names`: prints the names of files instead of numbers.
    pub names: bool,
    /// `--only`: kinds that are printed, with commas between them.
    pub only: Option<&'a str>,
    /// False with `--no-text`, which prints no texts.
    pub text: bool,
    /// `--format`.
    pub format: Option<&'a str>,
}

/// Reason why the arguments form no request.
#[derive(Drop)]
pub enum WordsFault {
    /// The arguments don't form a command line, for the reason in the text.
    Words(Error),
    /// An allocation failed.
    Memory,
}

impl From<AllocError> for WordsFault {
    ghost use Rattle.std.specs.Prelude.{◌≡◌};
    ghost use Rattle.lx_cli.specs.declared.request.WordsFault.{WordsFault};

    ghost from_gives = { λ _ refusal. refusal ≡ WordsFault.Memory };

    fn from(_error: AllocError) -> WordsFault {
        WordsFault::Memory
    }
}
