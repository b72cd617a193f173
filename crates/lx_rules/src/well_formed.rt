//! A law that every specification obeys.

ghost use Rattle.lx_rules.specs.Invariant.{IsWellFormed};
ghost use Rattle.lx_rules.specs.views.Specs.{spec_view};

use crate::spec::Spec;

/// States a law: the invariants of every specification, for its plain values.
pub fn specs_are_well_formed()
    ensures { (spec : Spec) → IsWellFormed (spec_view spec) }
{}
