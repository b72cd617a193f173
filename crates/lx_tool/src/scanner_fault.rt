//! Reasons why no scanner is printed.

ghost use Rattle.std.specs.Prelude.{◌<◌, ◌≤◌};

use crate::target::TargetFault;
use lx_auto::{BuildFault, ListFault};
use lx_flex::flags::FlagFault;
use std::alloc::{AllocError, AllocFailed};
use thiserror::Error;

/// Reason why no scanner is printed.
#[derive(Debug, Drop, Error)]
pub(crate) enum ScannerFault<'a> {
    /// The command line is rejected.
    #[error("{0}")]
    Flags(FlagFault<'a>),
    /// `check --flex` has no such option.
    #[error("check --flex has no option {0}; lx check --help says more")]
    NoCheckOption(&'a str),
    /// An output is an input, or the other output.
    #[error("an output would overwrite {0}; name another file")]
    Overwrites(&'a str),
    /// The name of an output isn't UTF-8.
    #[error("the name of an output isn't UTF-8")]
    OddName,
    /// The file has faults, which are reported.
    #[error("no scanner is made")]
    Faults,
    /// Too many rules have trailing context of several lengths.
    #[error("more than 31 rules have trailing context r/s where both r and s match texts of several lengths; give one of them a fixed length")]
    Contexts,
    /// The automaton of the rules is too large.
    #[error("{0}")]
    Automaton(BuildFault),
    /// There are too many lists of rules for `REJECT`.
    #[error("REJECT: the rules that match a text form more than 4,096 different lists; write fewer rules that match the same texts")]
    Lists,
    /// A file can't be read.
    #[error("cannot read {0}")]
    NotRead(&'a str),
    /// No files can be made here.
    #[error("-t is wanted here, since no files are made")]
    NoTargets,
    /// The output can't be written.
    #[error("cannot write")]
    Output,
    /// An allocation failed.
    #[error("out of memory")]
    Memory,
}

impl ScannerFault<'_> {
    /// Returns the exit status.
    pub(crate) fn status(&self) -> u8
        ensures some { 0 < result }
        ensures known { result ≤ 5 }
    {
        match self {
            ScannerFault::Faults
            | ScannerFault::Contexts
            | ScannerFault::Automaton(_)
            | ScannerFault::Lists => 1,
            ScannerFault::Flags(_)
            | ScannerFault::NoCheckOption(_)
            | ScannerFault::Overwrites(_)
            | ScannerFault::OddName
            | ScannerFault::NoTargets => 2,
            ScannerFault::NotRead(_) => 3,
            ScannerFault::Output => 4,
            ScannerFault::Memory => 5,
        }
    }
}

impl From<AllocError> for ScannerFault<'_> {
    fn from(_error: AllocError) -> Self {
        ScannerFault::Memory
    }
}

impl<T: Drop> From<AllocFailed<T>> for ScannerFault<'_> {
    fn from(_error: AllocFailed<T>) -> Self {
        ScannerFault::Memory
    }
}

impl From<TargetFault> for ScannerFault<'_> {
    fn from(fault: TargetFault) -> Self {
        match fault {
            TargetFault::NotServed => ScannerFault::NoTargets,
            TargetFault::NotWritten => ScannerFault::Output,
            TargetFault::Memory => ScannerFault::Memory,
        }
    }
}

impl<'a> From<FlagFault<'a>> for ScannerFault<'a> {
    fn from(fault: FlagFault<'a>) -> Self {
        match fault {
            FlagFault::Memory => ScannerFault::Memory,
            _ => ScannerFault::Flags(fault),
        }
    }
}

impl From<BuildFault> for ScannerFault<'_> {
    fn from(fault: BuildFault) -> Self {
        match fault {
            BuildFault::Memory => ScannerFault::Memory,
            _ => ScannerFault::Automaton(fault),
        }
    }
}

impl From<ListFault> for ScannerFault<'_> {
    fn from(fault: ListFault) -> Self {
        match fault {
            ListFault::Build(fault) => ScannerFault::from(fault),
            ListFault::TooManyLists => ScannerFault::Lists,
        }
    }
}
