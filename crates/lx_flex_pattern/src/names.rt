//! Definitions that patterns name.

ghost use Rattle.std.specs.Prelude.{◌≡◌};
ghost use Rattle.std.specs.Option.{option_map};
ghost use Rattle.lx_flex_pattern.specs.Pieces.{definition_of, names_of};

use std::alloc::{AllocError, Global};
use std::collections::BTreeMap;

/// A definition.
#[derive(Drop)]
pub struct NamedPattern {
    /// Text of the definition, as flex has it.
    pub text: Vec<u8>,
    /// Name of the definition in lx. `None` if its text is expanded at each use.
    pub lx_name: Option<Vec<u8>>,
}

/// The definitions by their names.
#[derive(Drop)]
pub struct NamedPatterns {
    entries: BTreeMap<Vec<u8>, NamedPattern>,
}

impl NamedPatterns {
    /// Returns an empty map.
    pub fn new(alloc: Global) -> NamedPatterns {
        NamedPatterns {
            entries: BTreeMap::new(alloc),
        }
    }

    /// Returns the definition of a name.
    pub fn get(&self, name: &[u8]) -> Option<&NamedPattern>
        ensures { option_map (λ d. definition_of d.now) result ≡ names_of self.now name.now }
    {
        self.entries.get(name)
    }

    /// Returns true if the name is defined.
    pub fn has(&self, name: &[u8]) -> bool {
        self.entries.get(name).is_some()
    }

    /// Adds a definition.
    pub fn add(
        &mut self,
        alloc: Global,
        name: &[u8],
        text: &[u8],
        lx_name: Option<Vec<u8>>,
    ) -> Result<(), AllocError> {
        let definition = NamedPattern {
            text: Vec::from_slice(alloc, text)?,
            lx_name,
        };
        let key = Vec::from_slice(alloc, name)?;
        self.entries.insert(key, definition)?;
        Ok(())
    }
}
