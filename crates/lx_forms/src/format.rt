//! The forms that `--format` names.

/// The format of a listing's lines.
#[derive(Clone, Copy, Debug, PartialEq, Eq)]
pub enum Format {
    /// Fields with a blank between each two.
    Lines,
    /// A JSON object a line (RFC 8259).
    Json,
}
