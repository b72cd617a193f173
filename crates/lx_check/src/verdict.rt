//! Judges a text: reads it, and makes tables of its specification. Fails if an allocation does.

ghost use Rattle.std.specs.Prelude.{◌≡◌, ◌<◌, ◌≤◌, ℕ, List, IfOk, IfErr};
ghost use Rattle.lx_auto.specs.Counts.{count_of_spec};
ghost use Rattle.lx_rules.specs.views.Specs.{spec_view};
ghost use Rattle.lx_rules.specs.Limits.{max_positions};
ghost use Rattle.lx_spec.specs.Whole.{IsFault, IsRead};
ghost use Rattle.lx_tables.specs.Model.{AreTablesOf};
ghost use Rattle.lx_check.specs.Verdicts.{IsTooLarge};

use crate::text_fault::TextFault;
use lx_auto::{BuildFault, build_merged};
use lx_spec::{Code, Spec, SpecFault, read_spec};
use lx_tables::Tables;
use std::alloc::{AllocError, Global};

/// Returns the specification in a text, or its first fault. Err: an allocation failed.
pub fn read(alloc: Global, text: &[u8]) -> Result<Result<Spec, SpecFault>, AllocError>
    ensures ok { IfOk result (λ read. IfOk read (λ spec. IsRead text.now (spec_view spec))) }
    ensures err { IfOk result (λ read. IfErr read (λ fault. IsFault text.now fault)) }
{
    match read_spec(alloc, text) {
        Ok(spec) => Ok(Ok(spec)),
        Err(fault) => {
            if fault.code == Code::Memory {
                Err(AllocError)
            } else {
                Ok(Err(fault))
            }
        }
    }
}

/// Makes the tables of a specification, or returns the fault that it is too large. Err: an allocation failed.
pub fn tables_of(alloc: Global, spec: &Spec) -> Result<Result<Tables, TextFault>, AllocError>
    ensures ok { IfOk result
        (λ made. IfOk made (λ tables. AreTablesOf (spec_view spec.now) tables)) }
    ensures few_positions { IfOk result
        (λ made. IfOk made (λ _. count_of_spec (spec_view spec.now) ≤ max_positions)) }
    ensures err { IfOk result (λ made. IfErr made (IsTooLarge (spec_view spec.now))) }
{
    match build_merged(alloc, spec) {
        Ok(automaton) => Ok(Ok(Tables::of(alloc, spec, &automaton)?)),
        Err(BuildFault::TooManyPositions) => Ok(Err(TextFault::TooManyPositions)),
        Err(BuildFault::TooManySets) => Ok(Err(TextFault::TooManySets)),
        Err(BuildFault::Memory) => Err(AllocError),
    }
}
