//! Findings in a text.

/// The severity of a finding.
#[derive(Clone, Copy, Debug, Drop)]
pub enum Severity {
    /// The text is rejected for it.
    Error,
    /// The text is valid, but suspicious.
    Warning,
    /// An addition to the finding before it: what to write, or a second place.
    Note,
}

/// A place in a text. Lines and columns are counted from 1, columns in bytes.
#[derive(Clone, Copy, Debug, Drop)]
pub struct ReportPlace {
    /// Line number; 0 if the place is the whole text.
    pub line: u64,
    /// Column number; 0 if it isn't known.
    pub column: u64,
    /// Number of bytes; 0 is the same as 1.
    pub width: u64,
}

/// A finding in a text, with its place.
#[derive(Clone, Copy, Debug, Drop)]
pub struct Finding<'a> {
    /// Severity of the finding.
    pub severity: Severity,
    /// Place of the finding.
    pub place: ReportPlace,
    /// Code of an error, otherwise empty.
    pub code: &'a [u8],
    /// Text of the finding: what is wrong, or what to do.
    pub words: &'a [u8],
    /// Name of the warning or of the cause, if it has one.
    pub name: &'a [u8],
}
