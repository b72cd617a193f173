//! The version of `lx`.

/// The version of `lx`, and of the tables that it reads. `lx --version` prints it after the program's name.
pub const VERSION: &str = "1.6.4 (reads tables of versions 1 and 2)";
