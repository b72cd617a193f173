//! The limits of specifications and of the tables that are made of them.

/// Greatest number of bytes of a specification.
pub const MAX_SPECIFICATION_BYTES: usize = 1_048_576;

/// The most start conditions, INITIAL among them.
pub const MAX_START_CONDITIONS: usize = 64;

/// The most definitions.
pub const MAX_DEFINITIONS: usize = 1_024;

/// The most rules.
pub const MAX_RULES: usize = 4_096;

/// The most kinds that have names: a rule returns one at most.
pub const MAX_KINDS: usize = 4_096;

/// The most names in a row: one in a pattern, one in the definition that it stands for, and so on.
pub const MAX_NAME_DEPTH: u8 = 32;

/// The greatest bound of an interval.
pub const MAX_BOUND: usize = 255;

/// The most sets of positions at which a text can be (E31).
pub const MAX_POSITION_SETS: usize = 16_384;

/// The most states of tables: one for each set, and two for each start condition.
pub const MAX_STATES: usize = 16_512;
