//! Tables of numbers by name, for definitions and for kinds.
ghost use Rattle.std.specs.Prelude.{◌≡◌, ℕ, List, Some, None, nat_eq, cond, OnOk};
ghost use Rattle.std.specs.Cmp.Lexicographic.{pointwise};
ghost use Rattle.std.specs.Option.{option_or};
ghost use Rattle.lx_rules.specs.views.NameTables.{number_at};

use std::alloc::{AllocError, Global};
use std::collections::BTreeMap;

/// Adds the number of a name, if the name has none yet.
pub fn add_number(
    alloc: Global,
    numbers: &mut BTreeMap<Vec<u8>, usize>,
    name: &[u8],
    number: usize,
) -> Result<(), AllocError>
    ensures { OnOk result ((q : List ℕ)
        → number_at numbers.new q ≡ option_or (number_at numbers.old q)
        (cond (pointwise nat_eq name.now q) (Some number) None)) }
{
    if !numbers.contains_key(name) {
        numbers.insert(Vec::from_slice(alloc, name)?, number)?;
    }
    Ok(())
}
