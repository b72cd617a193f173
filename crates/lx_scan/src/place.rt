//! Places of a scanner in a text, and matches.

ghost use Rattle.std.specs.Prelude.{◌≡◌};
ghost use Rattle.lx_scan.specs.Items.{first_place};

/// A place of a scanner: before byte `offset` of the text, from 0, under a start condition, at line begin or not, and on a line, from 1.
#[derive(Clone, Copy, Debug, PartialEq, Eq)]
pub struct Place {
    pub offset: usize,
    pub condition: u16,
    pub at_line_begin: bool,
    pub line: u64,
}

impl Place {
    /// Returns the place before the first byte: in the condition INITIAL, whose number is 0, at line begin, on line 1.
    pub fn begin() -> Place
        ensures { result ≡ first_place }
    {
        Place {
            offset: 0,
            condition: 0,
            at_line_begin: true,
            line: 1,
        }
    }
}

/// A match of a rule, by its number from 0, or of none, for a byte that is echoed. `start` is the position of its first byte, and `len` the number of
/// bytes of its token.
#[derive(Clone, Copy, Debug, PartialEq, Eq)]
pub struct Match {
    pub rule: Option<u16>,
    pub start: usize,
    pub len: usize,
}
