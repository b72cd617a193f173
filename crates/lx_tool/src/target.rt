//! Targets, which make the program's output files.

ghost use Rattle.std.specs.Prelude.{◌≡◌, ℕ, Bool, List, IfOk, OnOk, false};

use std::alloc::AllocError;
use std::io::Write;
use thiserror::Error;

/// Reason why a file wasn't made.
#[derive(Clone, Copy, Debug, PartialEq, Eq, Error)]
pub enum TargetFault {
    /// These targets make no files.
    #[error("not served")]
    NotServed,
    /// The file can't be written.
    #[error("not written")]
    NotWritten,
    /// An allocation failed.
    #[error("out of memory")]
    Memory,
}

/// The files that the program makes.
pub trait Targets {
    /// The file with this name got these bytes between one state and a later one.
    ghost places: { Self → List ℕ → List ℕ → Self → Type 0 };

    /// The targets may give this answer, in this state, to the question whether two names are those of one file.
    ghost same: { Self → List ℕ → List ℕ → Bool → Type 0 };

    /// Makes a file with this name and these bytes, or replaces the one that exists. After a fault the file is unchanged.
    fn place(&mut self, name: &str, bytes: &[u8]) -> Result<(), TargetFault>
        ensures { OnOk result (places self.old name.now bytes.now self.new) };

    /// Returns true if two names are those of one regular file, also through links or another path. `-` is standard input.
    fn is_same_file(&self, name: &str, other: &str) -> Result<bool, AllocError>
        ensures { IfOk result (same self.now name.now other.now) };

    /// Prints why the last failing file wasn't made, as a line that names it. By default prints nothing.
    fn print_fault<E: Write>(&self, _err: &mut E) {}
}

/// Targets that make no files.
#[derive(Clone, Copy, Debug)]
pub struct NoTargets;

impl Targets for NoTargets {
    ghost use Rattle.std.specs.Prelude.{◌≡◌, false};

    ghost places = { λ _ _ _ _. ⊥ };

    ghost same = { λ _ _ _ is_same. is_same ≡ false };

    fn is_same_file(&self, _name: &str, _other: &str) -> Result<bool, AllocError> {
        Ok(false)
    }

    fn place(&mut self, _name: &str, _bytes: &[u8]) -> Result<(), TargetFault> {
        Err(TargetFault::NotServed)
    }
}
