//! Faults of reading an expression.

ghost use Rattle.std.specs.Prelude.{◌≡◌};
ghost use Rattle.lx_ere.specs.declared.fault.EreFault.TheVariants.{Memory};

use std::alloc::{AllocError, AllocFailed};
use thiserror::Error;

/// Reason why a text isn't read as an expression.
#[derive(Debug, Drop, Error)]
pub enum EreFault {
    /// The text is unreadable.
    #[error("E10")]
    NoReading,
    /// An allocation failed.
    #[error("E90")]
    Memory,
}

impl From<AllocError> for EreFault {
    ghost from_gives = { λ _ e. e ≡ Memory };

    fn from(_e: AllocError) -> EreFault {
        EreFault::Memory
    }
}

impl<T: Drop> From<AllocFailed<T>> for EreFault {
    ghost from_gives = { λ _ e. e ≡ Memory };

    fn from(_e: AllocFailed<T>) -> EreFault {
        EreFault::Memory
    }
}
