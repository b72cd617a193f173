//! Why no scanner in C is printed.

ghost use Rattle.std.specs.Prelude.{◌≡◌};
ghost use Rattle.lx_c.specs.declared.fault.KindFault.TheVariants.{Memory};

use std::alloc::{AllocError, AllocFailed};
use thiserror::Error;

/// A fault of options.
#[derive(Debug, Clone, Copy, PartialEq, Eq, Error)]
pub enum OptionFault {
    /// The prefix isn't a small letter, and then up to 31 small letters, digits or `_`.
    #[error("a prefix is a small letter, and then up to 31 small letters, digits or _")]
    Prefix,
    /// The name of a start condition is no identifier.
    #[error("a condition's name is no identifier")]
    Condition,
    /// The name of the file isn't 1 to 255 bytes of 32 to 126 without `"` and `\`.
    #[error("a file to include is named by 1 to 255 characters of ASCII without quotes and backslashes")]
    Include,
}

/// Why no scanner in C is printed of tables. The number of a kind is its place in the tables.
#[derive(Debug, Clone, Copy, PartialEq, Eq, Error)]
pub enum KindFault {
    /// The numbers of the kinds would pass 2,147,483,647.
    #[error("E40")]
    Numbers,
    /// The kind with this number is a word of C or C++.
    #[error("kind {0} is a word of C or C++")]
    Reserved(u32),
    /// The kind with this number would be declared twice, as the scanner's own names begin so.
    #[error("kind {0} would be declared twice")]
    Declared(u32),
    /// Code for each state is asked for, and the tables have this number of states, which is more
    /// than [`MAX_DIRECT_STATES`](crate::MAX_DIRECT_STATES).
    #[error("E41")]
    States(u32),
    /// Memory was refused.
    #[error("B90")]
    Memory,
}

impl From<AllocError> for KindFault {
    ghost from_gives = { λ _ e. e ≡ Memory };

    fn from(_e: AllocError) -> KindFault {
        KindFault::Memory
    }
}

impl<T: Drop> From<AllocFailed<T>> for KindFault {
    ghost from_gives = { λ _ e. e ≡ Memory };

    fn from(_e: AllocFailed<T>) -> KindFault {
        KindFault::Memory
    }
}
