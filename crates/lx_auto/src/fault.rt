//! Faults of building an automaton.

ghost use Rattle.std.specs.Prelude.{◌≡◌};
ghost use Rattle.lx_auto.specs.declared.fault.BuildFault.TheVariants.{Memory};
ghost use Rattle.lx_auto.specs.declared.fault.ListFault.TheVariants.{Build};

use std::alloc::{AllocError, AllocFailed};
use thiserror::Error;

/// Reason why an automaton isn't built.
#[derive(Debug, Clone, Copy, PartialEq, Eq, Error)]
pub enum BuildFault {
    /// The specification has more than 16,384 positions.
    #[error("E30")]
    TooManyPositions,
    /// There are more than 16,384 reached sets of positions.
    #[error("E31")]
    TooManySets,
    /// An allocation failed.
    #[error("E90")]
    Memory,
}

impl From<AllocError> for BuildFault {
    ghost from_gives = { λ _ e. e ≡ Memory };

    fn from(_e: AllocError) -> BuildFault {
        BuildFault::Memory
    }
}

impl<T: Drop> From<AllocFailed<T>> for BuildFault {
    ghost from_gives = { λ _ e. e ≡ Memory };

    fn from(_e: AllocFailed<T>) -> BuildFault {
        BuildFault::Memory
    }
}

/// Reason why an automaton of lists isn't built.
#[derive(Debug, Clone, Copy, PartialEq, Eq, Error)]
pub enum ListFault {
    /// No automaton of the specification is built, with or without lists.
    #[error("{0}")]
    Build(BuildFault),
    /// Texts have more than 4,096 different lists of rules.
    #[error("more than 4,096 lists of rules")]
    TooManyLists,
}

impl From<BuildFault> for ListFault {
    ghost from_gives = { λ fault e. e ≡ Build fault };

    fn from(fault: BuildFault) -> ListFault {
        ListFault::Build(fault)
    }
}

impl From<AllocError> for ListFault {
    ghost from_gives = { λ _ e. e ≡ Build Memory };

    fn from(_e: AllocError) -> ListFault {
        ListFault::Build(BuildFault::Memory)
    }
}

impl<T: Drop> From<AllocFailed<T>> for ListFault {
    ghost from_gives = { λ _ e. e ≡ Build Memory };

    fn from(_e: AllocFailed<T>) -> ListFault {
        ListFault::Build(BuildFault::Memory)
    }
}
