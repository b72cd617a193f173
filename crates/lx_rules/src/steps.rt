//! The steps of rules, which several rules may share.

ghost use Rattle.std.specs.Prelude.{◌≡◌, IfOk};

use crate::rule::Step;
use std::alloc::AllocError;
use std::marker::Model;
use std::sync::ArcSlice;

/// The steps of an action in order. They are in memory once, regardless of the number of rules that have them: a clone shares them.
#[derive(Drop)]
pub struct Steps {
    shared: ArcSlice<Step>,
}

impl Model for Steps {
    ghost use Rattle.std.specs.Prelude.{List};
    ghost use Rattle.std.specs.Arc.{arc_slice_items};
    ghost use Rattle.lx_rules.specs.declared.rule.Step.{Step};

    ghost Value = { List Step };

    ghost view = { λ s. arc_slice_items s.shared };
}

impl Steps {
    /// Makes steps of a list.
    pub fn from_vec(steps: Vec<Step>) -> Result<Steps, AllocError>
        ensures { IfOk result (λ s. s ≡ steps.items) }
    {
        let shared = ArcSlice::from_vec(steps)?;
        Ok(Steps { shared })
    }

    /// Returns the steps in order.
    pub fn as_slice(&self) -> &[Step]
        ensures { result.now ≡ self.now }
    {
        self.shared.as_slice()
    }
}

impl Clone for Steps {
    ghost is_clone = { λ s copy. copy ≡ s };

    fn clone(&self) -> Result<Steps, AllocError> {
        let shared = self.shared.clone()?;
        Ok(Steps { shared })
    }
}
