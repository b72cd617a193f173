//! Faults of patterns that can't be imported.

use std::alloc::{AllocError, AllocFailed};
use thiserror::Error;

/// The fault of a pattern.
#[derive(Debug, Clone, Copy, PartialEq, Eq, Error)]
pub enum PatternFault {
    /// flex doesn't support this form.
    #[error("flex has no such pattern")]
    NoForm,
    /// A group, quotes or brackets aren't closed.
    #[error("a group, quotes or brackets aren't closed")]
    NotClosed,
    /// A class in brackets that flex doesn't have.
    #[error("brackets name a class that flex doesn't have")]
    UnknownClass,
    /// A range in brackets that ends before it begins.
    #[error("a range in brackets ends before it begins")]
    BackwardRange,
    /// A name in braces isn't defined.
    #[error("a name isn't defined")]
    Undefined,
    /// flex doesn't accept the bounds of an interval.
    #[error("the bounds of an interval are none that flex takes")]
    BadInterval,
    /// A bound of an interval is above 16,383.
    #[error("a bound of an interval is above 16383")]
    LargeInterval,
    /// A number after a backslash is above 255.
    #[error("a number after a backslash is above 255")]
    LargeEscape,
    /// `[:^upper:]` or `[:^lower:]` with case ignored, which flex itself calls ambiguous.
    #[error("a class has no meaning where case is ignored")]
    AmbiguousClass,
    /// `{+}` next to brackets with `^`. flex's manual and flex 2.6.4 disagree on its meaning.
    #[error("{{+}} is used with brackets that begin with ^")]
    ExcludedUnion,
    /// The pattern has more parts, groups or names than can be imported.
    #[error("the pattern is too long or too deep")]
    TooLarge,
    /// lx doesn't read the printed text as the same pattern.
    #[error("lx doesn't read the pattern")]
    NotRead,
    /// An allocation failed.
    #[error("out of memory")]
    Memory,
}

impl From<AllocError> for PatternFault {
    ghost use Rattle.std.specs.Prelude.{◌≡◌};
    ghost use Rattle.lx_flex_pattern.specs.declared.fault.PatternFault.{PatternFault};

    ghost from_gives = { λ _ fault. fault ≡ PatternFault.Memory };

    fn from(_e: AllocError) -> PatternFault {
        PatternFault::Memory
    }
}

impl<T: Drop> From<AllocFailed<T>> for PatternFault {
    ghost use Rattle.std.specs.Prelude.{◌≡◌};
    ghost use Rattle.lx_flex_pattern.specs.declared.fault.PatternFault.{PatternFault};

    ghost from_gives = { λ _ fault. fault ≡ PatternFault.Memory };

    fn from(_e: AllocFailed<T>) -> PatternFault {
        PatternFault::Memory
    }
}
