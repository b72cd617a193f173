//! The constant text in the code of a state, with `@` for the prefix. Each form of scanner defines these macros.

/// The marks: the bytes on which each state steps to itself.
pub(crate) const MARKS: &[u8] = br#"static const unsigned char @__mark[] = {
"#;

/// The label of a state; its number comes after it.
pub(crate) const LABEL: &[u8] = b"    @__s";

/// The loop of a state by the marks; its number comes after it.
pub(crate) const LOOP: &[u8] = b"        @__LOOP(";

/// The same by ranges of bytes, which come after the number.
pub(crate) const RANGES: &[u8] = b"        @__RANGES(";

/// The test that a range of bytes begins with; its first byte comes after it.
pub(crate) const LOW: &[u8] = b"(@_byte >= ";

/// The test that it ends with; its last byte comes after it.
pub(crate) const HIGH: &[u8] = b" && @_byte <= ";

/// The read of the next byte in a state that doesn't step to itself; the number of its rule plus 1, or 0, comes after it.
pub(crate) const READ: &[u8] = b"        @__READ(";

/// The same where the text can't be at its end.
pub(crate) const NEXT: &[u8] = b"        @__NEXT\n";

/// A label of a case; its byte or number comes after it.
pub const CASE: &[u8] = b"        case ";

/// The beginning of cases.
pub(crate) const SWITCH: &[u8] = b"        switch (@_byte) {\n";

/// The test if a state is marked for the byte; its number comes after it.
pub(crate) const TEST: &[u8] = b"        if (@__IN(";

/// The test of a single byte, which comes after it.
pub(crate) const SINGLE: &[u8] = b"        if (@_byte == ";

/// The code that keeps the place and the number of a rule plus 1, which comes after it.
pub(crate) const KEEP: &[u8] = b"@__KEEP(";

/// The code before a step that may be one on a newline.
pub(crate) const NEWLINE: &[u8] = b"@__NEWLINE ";

/// A step; the number of its target comes after it.
pub(crate) const GO: &[u8] = b"@__GO(";

/// The end of a walk where no step is left; the numbers of the state and of its rule plus 1, or 0, come after it.
pub(crate) const STOP: &[u8] = b"        @__STOP(";

/// The same in a state without steps that accepts a rule.
pub(crate) const LAST: &[u8] = b"        @__LAST(";
