//! The subject of a report.

use lx_warnings::KindSet;

/// The specification that a report is about, the form of findings, and the warnings that are asked for.
#[derive(Clone, Copy, Debug, Drop)]
pub struct ReportSubject<'a> {
    /// Name of the specification.
    pub file: &'a [u8],
    /// Text of the specification.
    pub source: &'a [u8],
    /// True if findings are printed without source lines, notes and counts.
    pub quiet: bool,
    /// Kinds of warnings that are asked for.
    pub asked: KindSet,
}
