//! Warnings of patterns that are valid, but may not mean what their author expects.

ghost use Rattle.std.specs.Prelude.{◌≡◌, OnOk};

use crate::cursor::FilePlace;
use crate::lengths::matches_empty;
use crate::report::{ImportCause, Reports};
use lx_flex_pattern::{NamedPatterns, PatternFault, PatternOptions, PatternReading, read_pattern};
use std::alloc::{AllocError, Global};

/// Returns true if POSIX and flex both have this pattern, and read its intervals differently.
fn is_read_in_two_ways(
    alloc: Global,
    text: &[u8],
    reading: &PatternReading,
    names: &NamedPatterns,
    options: PatternOptions,
) -> Result<bool, AllocError> {
    if !text.contains(&b'{') {
        return Ok(false);
    }
    let options = PatternOptions {
        posix: !options.posix,
        ..options
    };
    match read_pattern(alloc, text, names, options) {
        Ok(other) => Ok(
            reading.length == other.length
                && (reading.pattern != other.pattern || reading.trailing != other.trailing),
        ),
        Err(PatternFault::Memory) => Err(AllocError),
        Err(_) => Ok(false),
    }
}

/// Returns true if the pattern has trailing context and its token can be empty. Without context, no token is empty.
fn has_empty_token(reading: &PatternReading) -> bool {
    (reading.pattern.line_end || reading.trailing.is_some()) && matches_empty(&reading.pattern.expr)
}

/// Adds the warnings on a pattern. The one on intervals is given once a file.
pub(crate) fn warn_of_pattern(
    alloc: Global,
    place: FilePlace,
    text: &[u8],
    reading: &PatternReading,
    names: &NamedPatterns,
    options: PatternOptions,
    reports: &mut Reports,
) -> Result<(), AllocError>
    ensures { OnOk result (reports.new.fatal ≡ reports.old.fatal) }
{
    if has_empty_token(reading) {
        reports.warn(place, ImportCause::EmptyToken)?;
    }
    let binding = ImportCause::IntervalBinding {
        posix: options.posix,
    };
    if !reports.has(binding) && is_read_in_two_ways(alloc, text, reading, names, options)? {
        reports.warn(place, binding)?;
    }
    Ok(())
}
