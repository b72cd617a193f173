//! Tests reading of readers to their end, or to a read error.

use crate::asserts::{same, same_bytes};
use lx_tool::{SourceFault, read_to_end};
use std::io;
use std::io::{ErrorKind, Read};
use std::process::Abort;

/// The result of one read.
#[derive(Clone, Copy)]
enum ReadResult {
    Gives(&'static [u8]),
    Fails(ErrorKind),
}

/// A reader with these results, one for each read, and then the end.
#[derive(Drop)]
struct Turns {
    rest: &'static [ReadResult],
}

impl Read for Turns {
    fn read(&mut self, buf: &mut [u8]) -> io::Result<usize> {
        let Some((turn, rest)) = self.rest.split_first() else {
            return Ok(0);
        };
        self.rest = rest;
        match *turn {
            ReadResult::Gives(bytes) => {
                let len = bytes.len().min(buf.len());
                buf[..len].copy_from_slice(&bytes[..len]);
                Ok(len)
            }
            ReadResult::Fails(kind) => Err(io::Error::from(kind)),
        }
    }
}

/// The results of a reader, the bytes that are read, true if they are cut, and the number of results that are left.
type ReaderRow = (&'static [ReadResult], &'static [u8], bool, usize);

const ROWS: &[ReaderRow] = &[
    (&[], b"", false, 0),
    (
        &[ReadResult::Gives(b"ab"), ReadResult::Gives(b"c")],
        b"abc",
        false,
        0,
    ),
    (
        &[
            ReadResult::Gives(b"ab"),
            ReadResult::Fails(ErrorKind::Interrupted),
            ReadResult::Gives(b"c"),
        ],
        b"abc",
        false,
        0,
    ),
    (
        &[
            ReadResult::Gives(b"ab"),
            ReadResult::Fails(ErrorKind::Other),
            ReadResult::Gives(b"c"),
        ],
        b"ab",
        true,
        1,
    ),
    (&[ReadResult::Fails(ErrorKind::IsADirectory)], b"", true, 0),
];

/// Asserts what is read by a reader.
fn reads<R: Abort + AllocGlobal>(rt: &R, row: &ReaderRow) {
    let (turns, bytes, cut, left) = *row;
    let mut reader = Turns { rest: turns };
    let input = read_to_end(rt.alloc(), &mut reader).expect(rt, "memory");
    same_bytes(rt, input.bytes.as_slice(), bytes, &left);
    same(rt, &input.cut, &cut);
    same(rt, &reader.rest.len(), &left);
}

#[test]
fn a_reader_is_read_to_its_end_or_to_its_fault(rt: HostRuntime) {
    for row in ROWS {
        reads(&rt, row);
    }
}

/// The results of a reader for which an allocation fails.
const REFUSED: &[ReadResult] = &[
    ReadResult::Gives(b"ab"),
    ReadResult::Fails(ErrorKind::OutOfMemory),
];

#[test]
fn a_reader_for_which_memory_is_refused_gives_no_input(rt: HostRuntime) {
    let read = read_to_end(rt.alloc(), &mut Turns { rest: REFUSED });
    assert!(rt; matches!(read, Err(SourceFault::Memory)));
}
