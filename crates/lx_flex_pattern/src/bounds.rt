//! Bounds of intervals.

ghost use Rattle.std.specs.Prelude.{◌≡◌, ◌≤◌, true};
ghost use Rattle.lx_ere.specs.Bounds.{is_ordered};
ghost use Rattle.lx_flex_pattern.specs.Limits.{is_flex_bound, max_flex_bound};

/// Greatest bound of an interval. An automaton has at most 16,384 positions.
pub const MAX_FLEX_BOUND: u16 = 16383;

/// The bounds of an interval.
#[derive(Clone, Copy)]
pub(crate) struct Bounds {
    /// Least number of repetitions.
    pub(crate) low: u16,
    /// Greatest number of repetitions, if there is a bound.
    pub(crate) high: Option<u16>,
    pub ghost ordered: { is_ordered low high ≡ true },
    pub ghost low_fits: { low ≤ max_flex_bound },
    pub ghost high_fits: { is_flex_bound high ≡ true },
}

/// An interval that was read.
#[derive(Clone, Copy)]
pub(crate) struct Interval {
    /// Its bounds.
    pub(crate) bounds: Bounds,
    /// True if it repeats all of the branch before it, as by POSIX, and false if it repeats the last unit.
    pub(crate) repeats_branch: bool,
}
