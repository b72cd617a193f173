//! Names that rules return.

ghost use Rattle.std.specs.Prelude.{◌≡◌, ◌+◌, ◌≤◌, ℕ, List, [], Some, nat_eq, IfOk, vec_len};
ghost use Rattle.std.specs.Cmp.Lexicographic.{pointwise};
ghost use Rattle.std.specs.List.{position};
ghost use Rattle.lx_rules.specs.views.NameTables.{number_at};
ghost use Rattle.lx_rules.specs.views.Rules.{names_view};
ghost use Rattle.lx_spec.specs.Actions.{name};
ghost use Rattle.lx_spec.specs.Outcome.{with_kind};

use lx_rules::name_table::add_number;
use std::alloc::{AllocError, Global};
use std::collections::BTreeMap;

/// The names, and the place of each, so that a return needs no walk over them.
#[derive(Drop)]
pub struct KindIndex {
    pub kinds: Vec<Vec<u8>>,
    pub numbers: BTreeMap<Vec<u8>, usize>,
    pub ghost exact: { (text : List ℕ) → number_at numbers text ≡ position (λ k. pointwise nat_eq k text) (names_view kinds.items) },
}

impl KindIndex {
    /// Returns an empty index.
    pub(crate) fn new(alloc: Global) -> KindIndex
        ensures { names_view result.kinds.items ≡ [] }
    {
        KindIndex {
            kinds: Vec::new(alloc),
            numbers: BTreeMap::new(alloc),
        }
    }

    /// Returns the place of this name.
    pub(crate) fn place_of(&self, text: &[u8]) -> Option<usize>
        ensures { result
            ≡ position (λ k. pointwise nat_eq k text.now) (names_view self.now.kinds.items) }
    {
        self.numbers.get(text).copied()
    }
}

/// Adds this name, if it isn't there yet.
pub(crate) fn with_name(
    alloc: Global,
    index: KindIndex,
    text: &[u8],
) -> Result<KindIndex, AllocError>
    ensures kinds { IfOk result (λ new.
        names_view new.kinds.items
        ≡ with_kind (names_view index.kinds.items) (Some (name text.now))) }
    ensures one { IfOk result (λ new. vec_len new.kinds ≤ vec_len index.kinds + 1) }
{
    if index.place_of(text).is_some() {
        return Ok(index);
    }
    let KindIndex {
        mut kinds,
        mut numbers,
    } = index;
    add_number(alloc, &mut numbers, text, kinds.len())?;
    kinds.push(Vec::from_slice(alloc, text)?)?;
    Ok(KindIndex { kinds, numbers })
}
