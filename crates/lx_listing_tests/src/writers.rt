//! Writers that fail.

use std::alloc::Global;
use std::io;
use std::io::{ErrorKind, Write};

/// A writer that accepts at most `most` bytes at a time, and fails at one of its calls.
#[derive(Drop)]
pub(crate) struct Failing {
    pub(crate) held: Vec<u8>,
    most: usize,
    pub(crate) calls: u64,
    fails_at: u64,
    /// True if it fails by accepting nothing, otherwise it fails by an error.
    takes_nothing: bool,
}

impl Write for Failing {
    fn write(&mut self, buf: &[u8]) -> io::Result<usize> {
        self.calls = self.calls.saturating_add(1);
        if self.calls == self.fails_at {
            if self.takes_nothing {
                return Ok(0);
            }
            return Err(io::Error::from(ErrorKind::BrokenPipe));
        }
        let taken = buf.len().min(self.most);
        self.held.extend_from_slice(&buf[..taken])?;
        Ok(taken)
    }

    fn flush(&mut self) -> io::Result<()> {
        Ok(())
    }
}

pub(crate) fn failing_writer(
    alloc: Global,
    most: usize,
    fails_at: u64,
    takes_nothing: bool,
) -> Failing {
    Failing {
        held: Vec::new(alloc),
        most,
        calls: 0,
        fails_at,
        takes_nothing,
    }
}

/// A writer that takes all bytes, and fails when they are flushed.
#[derive(Drop)]
pub(crate) struct Unflushed {
    pub(crate) bytes: Vec<u8>,
}

impl Write for Unflushed {
    fn write(&mut self, bytes: &[u8]) -> io::Result<usize> {
        self.bytes.extend_from_slice(bytes)?;
        Ok(bytes.len())
    }

    fn flush(&mut self) -> io::Result<()> {
        Err(io::Error::from(ErrorKind::Other))
    }
}
