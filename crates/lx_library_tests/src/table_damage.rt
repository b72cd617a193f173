//! Damages texts of tables: prefixes, and each byte changed in every way.

use crate::table_texts::{SAMPLES, read_text};
use std::process::Abort;

/// Asserts that a prefix of a text isn't read.
fn reads_not<R: Abort + AllocGlobal>(rt: &R, front: &[u8]) {
    let read = read_text(rt, front);
    assert!(rt; read.is_none(), "{front:?}");
}

/// Asserts that no prefix of a text is read.
fn reads_no_front<R: Abort + AllocGlobal>(rt: &R, text: &[u8]) {
    for end in 0..text.len() {
        reads_not(rt, &text[..end]);
    }
}

#[test]
fn no_front_of_a_text_is_read(rt: HostRuntime) {
    for (_, (first, second)) in SAMPLES {
        reads_no_front(&rt, first.as_bytes());
        reads_no_front(&rt, second.as_bytes());
    }
}

/// Appends bytes to a text.
fn put_bytes(rt: &impl Abort, out: &mut Vec<u8>, bytes: &[u8]) {
    out.extend_from_slice(bytes).expect(rt, "memory");
}

/// Joins three parts.
fn join_parts<R: Abort + AllocGlobal>(rt: &R, front: &[u8], middle: &[u8], back: &[u8]) -> Vec<u8> {
    let mut all = Vec::new(rt.alloc());
    put_bytes(rt, &mut all, front);
    put_bytes(rt, &mut all, middle);
    put_bytes(rt, &mut all, back);
    all
}

/// Asserts that a text isn't that of tables, or is printed unchanged.
fn reads_as_itself<R: Abort + AllocGlobal>(rt: &R, text: &[u8]) {
    if let Some(printed) = read_text(rt, text) {
        assert!(rt; printed.as_slice() == text, "{text:?}");
    }
}

/// Asserts that a text with one byte replaced isn't that of tables, or is printed unchanged.
fn reads_nothing_else<R: Abort + AllocGlobal>(rt: &R, front: &[u8], middle: &[u8], back: &[u8]) {
    let damaged = join_parts(rt, front, middle, back);
    reads_as_itself(rt, &damaged);
}

/// Asserts the same for a byte of a text that is changed to each other one, left out, and doubled.
fn reads_no_damaged_byte<R: Abort + AllocGlobal>(rt: &R, front: &[u8], byte: u8, back: &[u8]) {
    for other in 0..=u8::MAX {
        reads_nothing_else(rt, front, &[other], back);
    }
    reads_nothing_else(rt, front, &[], back);
    reads_nothing_else(rt, front, &[byte, byte], back);
}

/// Asserts the same for each byte of a text.
fn reads_no_damage<R: Abort + AllocGlobal>(rt: &R, text: &[u8]) {
    for at in 0..text.len() {
        reads_no_damaged_byte(rt, &text[..at], text[at], &text[at + 1..]);
    }
}

#[test]
fn a_damaged_byte_gives_the_tables_of_that_text_or_none(rt: HostRuntime) {
    for (_, (first, second)) in SAMPLES {
        reads_no_damage(&rt, first.as_bytes());
        reads_no_damage(&rt, second.as_bytes());
    }
}
