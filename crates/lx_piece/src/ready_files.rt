//! A set of file numbers.
ghost use Rattle.std.specs.Prelude.{◌≡◌, ◌≤◌, ℕ, [], ◌||◌, ◌==◌, IfNone, IfSome, OnErr, OnOk, true, false, if◌then◌else◌};
ghost use Rattle.lx_piece.specs.Kept.{has_file};

use std::alloc::{AllocError, Global};
use std::collections::BTreeSet;
use std::marker::Model;

/// The files whose next piece is held. Mostly there is one at a time, and the lowest needs no memory.
#[derive(Drop)]
pub(crate) struct ReadyFiles {
    lowest: Option<u32>,
    /// Files above the lowest.
    others: BTreeSet<u32>,
}

impl Model for ReadyFiles {
    ghost use Rattle.std.specs.Prelude.{ℕ, List};
    ghost use Rattle.lx_piece.specs.Kept.{AreAbove, with_lowest};

    ghost Value = { List ℕ };

    ghost view = { λ s. with_lowest s.lowest s.others.keys };

    ghost invariant = { λ s. AreAbove s.lowest s.others };
}

impl ReadyFiles {
    /// Returns the empty set.
    pub(crate) fn new(alloc: Global) -> Self
        ensures { result ≡ [] }
    {
        ReadyFiles {
            lowest: None,
            others: BTreeSet::new(alloc),
        }
    }

    /// Returns the lowest file, if there is one.
    pub(crate) fn first(&self) -> Option<u32>
        ensures member { IfSome result (λ file. has_file self.now file ≡ true) }
        ensures least { IfSome result
            (λ file. (other : ℕ) → has_file self.now other ≡ true → file ≤ other) }
        ensures none { IfNone result ((file : ℕ) → has_file self.now file ≡ false) }
    {
        self.lowest
    }

    /// Adds a file. If an allocation fails, nothing changes.
    pub(crate) fn insert(&mut self, file: u32) -> Result<(), AllocError>
        ensures ok { OnOk result
            ((other : ℕ) → has_file self.new other ≡ (other == file || has_file self.old other)) }
        ensures err { OnErr result (self.new ≡ self.old) }
    {
        match self.lowest {
            None => self.lowest = Some(file),
            Some(lowest) if file < lowest => {
                self.others.insert(lowest)?;
                self.lowest = Some(file);
            }
            Some(lowest) => {
                if lowest < file {
                    self.others.insert(file)?;
                }
            }
        }
        Ok(())
    }

    /// Removes a file.
    pub(crate) fn remove(&mut self, file: u32)
        ensures { (other : ℕ)
            → has_file self.new other ≡ (if other == file then false else has_file self.old other) }
    {
        if self.lowest == Some(file) {
            self.lowest = self.others.pop_first();
        } else {
            self.others.remove(&file);
        }
    }
}
