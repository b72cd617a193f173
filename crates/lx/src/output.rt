//! Standard output as the program's output.

ghost use Rattle.std.specs.Prelude.{◌≡◌, [], OnOk};
ghost use Rattle.std.specs.Io.KnownBytes.{Keeps};

use lx_tool::Output;
use std::io;
use std::io::{BufWriter, ErrorKind, Write};

/// A buffered writer that remembers if the other end of its pipe was closed.
#[derive(Drop)]
pub struct PipeOutput<W: Write + Drop> {
    out: BufWriter<W>,
    is_closed: bool,
}

impl<W: Write + Drop> PipeOutput<W> {
    pub fn new(out: BufWriter<W>) -> PipeOutput<W> {
        PipeOutput {
            out,
            is_closed: false,
        }
    }
}

// Returns true if the result says that the other end of a pipe was closed.
fn is_broken<T>(answer: &io::Result<T>) -> bool {
    match answer {
        Ok(_) => false,
        Err(error) => error.kind() == ErrorKind::BrokenPipe,
    }
}

impl<W: Write + Drop> Write for PipeOutput<W> {
    fn write(&mut self, bytes: &[u8]) -> io::Result<usize> {
        let answer = self.out.write(bytes);
        self.is_closed |= is_broken(&answer);
        answer
    }

    fn flush(&mut self) -> io::Result<()> {
        self.send()
    }
}

impl<W: Write + Drop> Output for PipeOutput<W> {
    ghost use Rattle.std.specs.Prelude.{◌≡◌, []};
    ghost use Rattle.std.specs.Io.Buffered.{writer_buffer};

    // the buffer is empty
    ghost sent = { λ output. writer_buffer output.out ≡ [] };

    fn send(&mut self) -> io::Result<()> {
        let answer = self.out.flush();
        self.is_closed |= is_broken(&answer);
        answer
    }

    fn is_closed(&self) -> bool {
        self.is_closed
    }
}
