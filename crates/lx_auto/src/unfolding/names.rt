//! Definitions by their names.

ghost use Rattle.std.specs.Prelude.{◌≡◌, ℕ, List, IfOk};
ghost use Rattle.lx_rules.specs.views.NameTables.{number_at};
ghost use Rattle.lx_auto.specs.NameViews.{place_of};

use lx_rules::definition::Definition;
use lx_rules::name_table::add_number;
use std::alloc::{AllocError, Global};
use std::collections::BTreeMap;

/// The definitions, and the number of each by its name, so that a use of a name needs no walk over them.
#[derive(Drop)]
pub(crate) struct Names<'s> {
    pub(crate) definitions: &'s [Definition],
    pub(crate) numbers: BTreeMap<Vec<u8>, usize>,
    pub ghost exact: { (name : List ℕ) → number_at numbers name ≡ place_of definitions.now name },
}

impl Names<'_> {
    /// Returns the number of the first definition with this name.
    pub(crate) fn number_of(&self, name: &[u8]) -> Option<usize>
        ensures { result ≡ place_of self.now.definitions.now name.now }
    {
        self.numbers.get(name).copied()
    }
}

/// Indexes these definitions by their names.
pub(crate) fn index_names(
    alloc: Global,
    definitions: &[Definition],
) -> Result<Names<'_>, AllocError>
    ensures { IfOk result (λ names. names.definitions.now ≡ definitions.now) }
{
    let mut numbers = BTreeMap::new(alloc);
    for i in 0..definitions.len() {
        add_number(alloc, &mut numbers, &definitions[i].name, i)?;
    }
    Ok(Names {
        definitions,
        numbers,
    })
}
