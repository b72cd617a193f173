//! Assertions that the tests share.

use std::fmt::Debug;
use std::process::Abort;

/// Asserts that two values are equal.
pub(crate) fn same<T: PartialEq + Debug>(rt: &impl Abort, found: &T, wanted: &T) {
    assert_eq!(rt; *found, *wanted);
}

/// Asserts that the condition with this number holds.
pub(crate) fn holds(rt: &impl Abort, is_so: bool, number: u64) {
    assert!(rt; is_so, "at {number}");
}
