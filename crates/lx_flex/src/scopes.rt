//! The scopes of start conditions that are open (flex's manual, "Start Conditions").

ghost use Rattle.std.specs.Prelude.{◌≡◌, [], ◌∷◌, IfNone, IfOk, OnOk, true};
ghost use Rattle.lx_flex.specs.Activity.{joined};
ghost use Rattle.lx_flex.specs.States.{innermost, open_of};

use crate::conditions::union;
use crate::cursor::FilePlace;
use std::alloc::{AllocError, Global};

/// Greatest number of scopes that are open at once.
const MAX_SCOPES: usize = 64;

/// An open scope: its conditions with those around it, and its place.
#[derive(Drop)]
struct Scope {
    conditions: Vec<u16>,
    place: FilePlace,
}

/// The open scopes, the innermost last.
#[derive(Drop)]
pub(crate) struct Scopes {
    list: Vec<Scope>,
}

impl Scopes {
    pub(crate) fn new(alloc: Global) -> Scopes
        ensures { open_of result ≡ [] }
    {
        Scopes {
            list: Vec::new(alloc),
        }
    }

    /// Returns true if no scope more may be opened.
    pub(crate) fn is_full(&self) -> bool {
        self.list.len() >= MAX_SCOPES
    }

    /// Returns the conditions of the innermost scope.
    fn innermost(&self, alloc: Global) -> Result<Vec<u16>, AllocError>
        ensures { IfOk result (λ v. v.items ≡ innermost (open_of self.now)) }
    {
        match self.list.last() {
            Some(scope) => Vec::from_slice(alloc, scope.conditions.as_slice()),
            None => Ok(Vec::new(alloc)),
        }
    }

    /// Returns the conditions of a list in the innermost scope: its own, and those of the scopes. `count` is the number of all conditions.
    pub(crate) fn conditions_inside(
        &self,
        alloc: Global,
        count: u16,
        own: &[u16],
    ) -> Result<Vec<u16>, AllocError>
        ensures { IfOk result (λ v. v.items ≡ joined count (innermost (open_of self.now)) own.now) }
    {
        let outer = self.innermost(alloc)?;
        union(alloc, count, outer.as_slice(), own)
    }

    /// Opens a scope with these conditions, which include those around it.
    pub(crate) fn open(&mut self, conditions: Vec<u16>, place: FilePlace) -> Result<(), AllocError>
        ensures { OnOk result (open_of self.new ≡ conditions.items ∷ open_of self.old) }
    {
        self.list.push(Scope { conditions, place })?;
        Ok(())
    }

    /// Closes the innermost scope. Returns false if none is open.
    pub(crate) fn close(&mut self) -> bool
        ensures { result ≡ true → open_of self.old ≡ innermost (open_of self.old) ∷ open_of self.new }
    {
        self.list.pop().is_some()
    }

    /// Returns the place of the innermost scope.
    pub(crate) fn innermost_place(&self) -> Option<FilePlace>
        ensures { IfNone result (open_of self.now ≡ []) }
    {
        match self.list.last() {
            Some(scope) => Some(scope.place),
            None => None,
        }
    }
}
