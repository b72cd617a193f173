//! Faults of the text of a specification.

use lx_spec::SpecFault;

/// A fault of the text of a specification.
#[derive(Debug, Clone, Copy, PartialEq, Eq)]
pub enum TextFault {
    /// The text isn't a specification: E01 to E21, with the line.
    Specification(SpecFault),
    /// The specification has more than 16,384 positions: E30.
    TooManyPositions,
    /// The specification has more than 16,384 reached sets of positions: E31.
    TooManySets,
}
