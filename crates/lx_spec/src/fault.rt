//! Faults of specifications.

ghost use Rattle.std.specs.Prelude.{◌≡◌};
ghost use Rattle.lx_spec.specs.Faults.{out_of_memory};

use std::alloc::{AllocError, AllocFailed};
use thiserror::Error;

/// The code of a specification's fault.
#[derive(Debug, Clone, Copy, PartialEq, Eq, Error)]
pub enum Code {
    /// The text is longer than 1,048,576 bytes.
    #[error("E01")]
    TooLong,
    /// The text ends in the definitions section, without a line `%%`.
    #[error("E02")]
    NoRules,
    /// A group between `%{` and `%}`, a comment or an action isn't closed.
    #[error("E03")]
    NotClosed,
    /// A line of the definitions section is malformed.
    #[error("E04")]
    NoForm,
    /// The name of a definition or of a condition is declared a second time.
    #[error("E05")]
    Twice,
    /// A definition, a condition or a rule exceeds the limit.
    #[error("E06")]
    TooMany,
    /// A list of conditions, a pattern or a substitute is unreadable.
    #[error("E10")]
    NoReading,
    /// A name in braces isn't defined.
    #[error("E11")]
    Undefined,
    /// A chain of names has more than 32 names.
    #[error("E12")]
    TooDeep,
    /// A condition isn't declared.
    #[error("E13")]
    NoCondition,
    /// An action is malformed.
    #[error("E20")]
    NoAction,
    /// No rule follows one whose action is that of the next.
    #[error("E21")]
    NoNext,
    /// An allocation failed.
    #[error("E90")]
    Memory,
}

/// A fault with its line, counted from 1. The line of `TooLong`, `NoRules` and `Memory` is 0.
#[derive(Debug, Clone, Copy, PartialEq, Eq, Error)]
#[error("{code} at line {line}")]
pub struct SpecFault {
    pub code: Code,
    pub line: u32,
}

impl From<AllocError> for SpecFault {
    ghost from_gives = { λ _ e. e ≡ out_of_memory };

    fn from(_e: AllocError) -> SpecFault {
        SpecFault {
            code: Code::Memory,
            line: 0,
        }
    }
}

impl<T: Drop> From<AllocFailed<T>> for SpecFault {
    ghost from_gives = { λ _ e. e ≡ out_of_memory };

    fn from(_e: AllocFailed<T>) -> SpecFault {
        SpecFault {
            code: Code::Memory,
            line: 0,
        }
    }
}
