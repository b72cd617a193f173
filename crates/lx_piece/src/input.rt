//! The content of a file.

/// The bytes that were read of a file.
#[derive(Debug, Drop)]
pub struct Input {
    pub bytes: Vec<u8>,
    /// True if the reading failed after these bytes.
    pub cut: bool,
}
