//! The program's output.

ghost use Rattle.std.specs.Prelude.{◌≡◌, IfErr, OnOk};
ghost use Rattle.std.specs.Io.KnownBytes.{Appends, Keeps};

use crate::failure::CommandFault;
use std::io::{self, Write};

/// An output that can flush all that it holds. It may know that its other end was closed, such as a pipe whose reader has gone.
pub trait Output: Write {
    /// No written byte is still buffered in the program.
    ghost sent: { Self → Type 0 };

    /// Flushes all that was written.
    fn send(&mut self) -> io::Result<()>
        ensures sent { OnOk result (sent self.new) }
        ensures bytes { Keeps (Self.contents self.old) (Self.contents self.new) };

    /// Returns true if a write failed because the other end was closed. By default returns false.
    fn is_closed(&self) -> bool {
        false
    }
}

/// Writes a text.
pub(crate) fn write_text<'a, O: Write>(text: &[u8], out: &mut O) -> Result<(), CommandFault<'a>>
    ensures ok { OnOk result (Appends (O.contents out.old) (O.contents out.new) text.now) }
    ensures err { IfErr result (λ failure. failure ≡ CommandFault.Output) }
{
    out.write_all(text).map_err(|_| CommandFault::Output)
}
