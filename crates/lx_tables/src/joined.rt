//! The joined table: the automaton joined with its own restart, so that matches are found by one look-up a byte.

/// A state of the joined table. It is in a match under a condition, after a newline or another byte, in a state of the automaton. It has no state of
/// the automaton after a first byte on which that has no step.
#[derive(Clone, Copy, Debug, PartialEq, Eq)]
pub struct JoinedState {
    pub condition: u16,
    pub newline: bool,
    pub state: Option<u32>,
}

/// An entry of a joined table: the position of the next state's row, and the code of the match that has ended. The code is 0 for no match, and one
/// more than its number for a rule. The next greater code is that of a byte that no rule matches. The other code is [`UNTOLD`].
#[derive(Clone, Copy, Debug)]
pub struct Transition {
    pub row: u32,
    pub code: u32,
}

/// The lists of a joined table.
#[derive(Drop)]
pub struct Joined {
    /// Column of each of the 256 bytes.
    pub columns: Vec<u8>,
    /// Entries row by row.
    pub entries: Vec<Transition>,
    /// For each code except [`UNTOLD`], the label of the item of such a match, or 0 if it has none.
    pub labels: Vec<u64>,
}

/// Code of endings that the state alone doesn't determine: a match that ended further back, or one of a rule with `$` or with several items.
pub const UNTOLD: usize = 8191;
