//! Assertions with a name for the message, and texts that the tests make. If an allocation for one fails, the test ends.

use std::alloc::AllocError;
use std::fmt::Write;
use std::process::Abort;

/// Asserts that the named condition holds.
pub(crate) fn holds(rt: &impl Abort, is_so: bool, name: &str) {
    assert!(rt; is_so, "{name}");
}

/// Appends a text.
pub(crate) fn put(rt: &impl Abort, out: &mut String, text: &str) {
    out.push_str(text).expect(rt, "memory");
}

/// Appends a text `times` times.
pub(crate) fn put_times(rt: &impl Abort, out: &mut String, text: &str, times: usize) {
    for _ in 0..times {
        put(rt, out, text);
    }
}

/// Appends a number.
pub(crate) fn put_number(rt: &impl Abort, out: &mut String, number: u32) {
    write!(out, "{number}").expect(rt, "memory");
}

/// Appends a name.
pub(crate) fn put_name(rt: &impl Abort, out: &mut String, name: &[u8]) {
    for byte in name {
        put_char(rt, out, char::from(*byte));
    }
}

/// Appends a letter.
pub(crate) fn put_char(rt: &impl Abort, out: &mut String, letter: char) {
    out.push(letter).expect(rt, "memory");
}

/// Returns the formatted text.
pub(crate) fn unwrap_text(rt: &impl Abort, text: Result<String, AllocError>) -> String {
    text.expect(rt, "memory")
}
