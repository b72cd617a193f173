//! Values of bytes in a line of ranges.

/// The value of each byte: its class, or the target of a state's step on it.
#[derive(Clone, Copy)]
pub(crate) enum ByteValues {
    Classes,
    Targets(u32),
}
