//! Definitions by their names.

ghost use Rattle.std.specs.Prelude.{◌≡◌, ℕ, List, map, IfOk};
ghost use Rattle.lx_rules.specs.views.NameTables.{number_at};
ghost use Rattle.lx_spec.specs.Dictionary as plain;
ghost use Rattle.lx_spec.specs.views.Sections.{raw_definition_view};

use crate::parsed_sections::RawDefinition;
use lx_rules::name_table::add_number;
use std::alloc::{AllocError, Global};
use std::collections::BTreeMap;

/// The definitions, and the number of each by its name, so that a use of a name needs no walk over them.
#[derive(Drop)]
pub struct DefinitionIndex<'s, 'a> {
    pub definitions: &'s [RawDefinition<'a>],
    pub numbers: BTreeMap<Vec<u8>, usize>,
    pub ghost exact: { (name : List ℕ) → number_at numbers name ≡ plain.number_of (map raw_definition_view definitions.now) name },
}

impl DefinitionIndex<'_, '_> {
    /// Returns the number of the first definition with this name.
    pub(crate) fn number_of(&self, name: &[u8]) -> Option<usize>
        ensures { result
            ≡ plain.number_of (map raw_definition_view self.now.definitions.now) name.now }
    {
        self.numbers.get(name).copied()
    }
}

/// Indexes these definitions by their names.
pub fn definition_index_of<'s, 'a>(
    alloc: Global,
    definitions: &'s [RawDefinition<'a>],
) -> Result<DefinitionIndex<'s, 'a>, AllocError>
    ensures { IfOk result (λ index. index.definitions.now ≡ definitions.now) }
{
    let mut numbers = BTreeMap::new(alloc);
    for i in 0..definitions.len() {
        add_number(alloc, &mut numbers, definitions[i].name, i)?;
    }
    Ok(DefinitionIndex {
        definitions,
        numbers,
    })
}
