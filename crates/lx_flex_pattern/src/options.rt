//! The options of a flex file that its patterns are read by (flex's manual, "Scanner Options").

/// The options for reading a file's patterns.
#[derive(Debug, Clone, Copy, PartialEq, Eq)]
pub struct PatternOptions {
    /// True if case is ignored: `%option case-insensitive`.
    pub fold: bool,
    /// True if an interval repeats all to its left, and `(?` has no special meaning: `%option posix-compat` and `lex-compat`.
    pub posix: bool,
    /// True if a definition's text is inserted without parentheses: `%option lex-compat`.
    pub bare_names: bool,
}
