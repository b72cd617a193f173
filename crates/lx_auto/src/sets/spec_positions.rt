//! The positions of a specification.

ghost use Rattle.std.specs.Prelude.{◌≡◌, ◌+◌, ◌<◌, ◌≤◌, ◌⊎◌, min, IfOk, IfErr};
ghost use Rattle.lx_rules.specs.views.Specs.{spec_view};
ghost use Rattle.lx_rules.specs.Limits.{max_positions};
ghost use Rattle.lx_auto.specs.Counts.{count_of_spec};
ghost use Rattle.lx_auto.specs.PositionTables.{ArePositionsOf};
ghost use Rattle.lx_auto.specs.Simplified.{simplified_pattern};
ghost use Rattle.lx_auto.specs.TooLarge.{HasTooManyPositions};

use crate::fault::BuildFault;
use crate::rules::rule_unfolding::unfold_rules;
use crate::sets::groups::groups_of;
use crate::sets::leaf::leaves_of;
use crate::sets::position_table::PositionTable;
use crate::unfolding::count::{count_definitions, count_rules};
use crate::unfolding::names::index_names;
use lx_rules::spec::Spec;
use std::alloc::{AllocError, Global};

/// Finds the positions of a specification's rules, the bytes of each, and the groups of bytes.
///
/// # Errors
///
/// `TooManyPositions` if there are more than 16,384. `Memory`.
pub(crate) fn positions_of<'s>(
    alloc: Global,
    spec: &'s Spec,
) -> Result<PositionTable<'s>, BuildFault>
    ensures too_many { IfErr result
        (λ e. e ≡ BuildFault.TooManyPositions → HasTooManyPositions (spec_view spec.now)) }
    ensures memory { IfErr result
        (λ e. (e ≡ BuildFault.TooManyPositions) ⊎ (e ≡ BuildFault.Memory)) }
    ensures few { IfOk result (λ _. count_of_spec (spec_view spec.now) ≤ max_positions) }
    ensures stands { IfOk result (λ it.
        ArePositionsOf (spec_view spec.now)
        (simplified_pattern (spec_view spec.now).definitions) it) }
{
    let unfolded = unfold_rules(alloc, spec)?;
    let parts = unfolded.parts;
    let leaves = leaves_of(alloc, parts.as_slice())?;
    let groups = groups_of(alloc, leaves.as_slice())?;
    Ok(PositionTable {
        parts,
        total: unfolded.total,
        leaves,
        groups,
    })
}

/// Returns the number of positions of a specification, before anything is unfolded. The result 16,385 represents all numbers above 16,384. Err: an
/// allocation failed.
pub fn count_positions(alloc: Global, spec: &Spec) -> Result<u32, AllocError>
    ensures { IfOk result
        (λ count. count ≡ min (max_positions + 1) (count_of_spec (spec_view spec.now))) }
{
    let names = index_names(alloc, &spec.definitions)?;
    let counts = count_definitions(alloc, &names)?;
    Ok(count_rules(&spec.rules, &names, &counts))
}
