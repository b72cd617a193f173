//! Specifications and files for the calls.

use crate::stop::Stop;
use lx_fixtures::THREE_RULES;
use lx_spec::{Spec, read_spec};
use std::alloc::Global;

/// Two words in a file that was read to its end.
pub(crate) const FILE_OF_TWO_WORDS: &[(&[u8], bool)] = &[(lx_fixtures::TWO_WORDS, false)];

/// Reads the specification of the three rules.
pub(crate) fn three_rules(alloc: Global) -> Result<Spec, Stop> {
    match read_spec(alloc, THREE_RULES.as_bytes()) {
        Ok(spec) => Ok(spec),
        Err(_) => Err(Stop::NotBegun),
    }
}
