//! Versions of the table text.

/// A version of the table text: steps by ranges of bytes, or by classes.
#[derive(Clone, Copy)]
pub enum Version {
    First,
    Second,
}
