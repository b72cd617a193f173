//! The symbol table, by which rules are read.

use crate::definition_faults::DefinitionFaults;
use crate::definition_index::DefinitionIndex;
use crate::dictionary::Dictionary;
use crate::parsed_sections::StartCondition;

/// The conditions, the definitions, their trees, and the faults to which they lead.
#[derive(Clone, Copy)]
pub struct SymbolTable<'s, 'a> {
    pub start_conditions: &'s [StartCondition<'a>],
    pub index: &'s DefinitionIndex<'s, 'a>,
    pub dictionary: &'s Dictionary,
    pub faults: &'s DefinitionFaults,
}
