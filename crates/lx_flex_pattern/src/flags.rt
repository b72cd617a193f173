//! The flags that groups of a flex pattern switch (flex's manual, "Patterns").

/// The flags that `(?i:`, `(?s:` and `(?x:` switch.
#[derive(Clone, Copy, PartialEq, Eq, Debug)]
pub struct Flags {
    /// True if case is ignored.
    pub fold: bool,
    /// True if `.` also matches a newline.
    pub dot_all: bool,
    /// True if blanks and comments are skipped.
    pub extended: bool,
}
