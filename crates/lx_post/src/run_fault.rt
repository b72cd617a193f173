//! Failures of a run.

use lx_piece::RelayFault;
use std::alloc::AllocError;
use thiserror::Error;

/// Reason why the files weren't all delivered to their closing pieces.
#[derive(Clone, Copy, Debug, PartialEq, Eq, Error)]
pub enum RunFault {
    /// An allocation failed, or a worker couldn't be started.
    #[error("out of memory")]
    Memory,
    /// The reader's device failed.
    #[error("the output failed")]
    Reader,
}

impl From<AllocError> for RunFault {
    ghost use Rattle.std.specs.Prelude.{◌≡◌};
    ghost use Rattle.lx_post.specs.declared.run_fault.RunFault.{RunFault};

    ghost from_gives = { λ _ fault. fault ≡ RunFault.Memory };

    fn from(_error: AllocError) -> Self {
        RunFault::Memory
    }
}

impl From<RelayFault> for RunFault {
    ghost use Rattle.std.specs.Prelude.{◌≡◌};
    ghost use Rattle.lx_post.specs.RunFaults.{run_fault_of};

    ghost from_gives = { λ relayed fault. fault ≡ run_fault_of relayed };

    fn from(fault: RelayFault) -> Self {
        match fault {
            RelayFault::Reader => RunFault::Reader,
            RelayFault::Memory => RunFault::Memory,
        }
    }
}
