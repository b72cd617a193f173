//! Writes blocks of lines, at once or line by line.

ghost use Rattle.std.specs.Prelude.{◌≡◌, ◌<◌, ◌≤◌, IfErr, OnOk, OnErr, length};
ghost use Rattle.std.specs.Io.KnownBytes.{Appends};
ghost use Rattle.lx_listing.specs.Appending.{AppendsPrefix};

use lx_piece::ReaderFault;
use lx_tables::write_bytes;
use std::io::Write;

/// The way to write a block of lines.
#[derive(Clone, Copy, Debug, PartialEq, Eq)]
pub enum LineWrites {
    /// Each line in its own write.
    EachLine,
    /// The whole block in one write.
    Whole,
    /// The whole block in one write, and then a flush, so that nothing waits in the writer.
    Flushed,
}

// Writes bytes. A write of 0 bytes or an error is a fault. After it, a prefix was written.
fn write_whole<W: Write>(out: &mut W, bytes: &[u8]) -> Result<(), ReaderFault>
    ensures ok { OnOk result (Appends (W.contents out.old) (W.contents out.new) bytes.now) }
    ensures err { OnErr result (AppendsPrefix (W.contents out.old) (W.contents out.new) bytes.now) }
    ensures device { IfErr result (λ fault. fault ≡ ReaderFault.Device) }
{
    match write_bytes(out, bytes) {
        Ok(()) => Ok(()),
        Err(_) => Err(ReaderFault::Device),
    }
}

// Returns the position after the line that begins here.
fn line_end(block: &[u8], from: usize) -> usize
    requires { from < length block.now }
    ensures later { from < result }
    ensures within { result ≤ length block.now }
{
    let mut end = from;
    while end + 1 < block.len() && block[end] != b'\n' {
        end += 1;
    }
    end + 1
}

// Writes a block, each line in its own write.
fn write_each<W: Write>(out: &mut W, block: &[u8]) -> Result<(), ReaderFault>
    ensures ok { OnOk result (Appends (W.contents out.old) (W.contents out.new) block.now) }
    ensures err { OnErr result (AppendsPrefix (W.contents out.old) (W.contents out.new) block.now) }
    ensures device { IfErr result (λ fault. fault ≡ ReaderFault.Device) }
{
    let mut done = 0;
    while done < block.len() {
        let end = line_end(block, done);
        write_whole(out, &block[done..end])?;
        done = end;
    }
    Ok(())
}

// Writes a block, and flushes the writer.
fn write_flushed<W: Write>(out: &mut W, block: &[u8]) -> Result<(), ReaderFault>
    ensures ok { OnOk result (Appends (W.contents out.old) (W.contents out.new) block.now) }
    ensures err { OnErr result (AppendsPrefix (W.contents out.old) (W.contents out.new) block.now) }
    ensures device { IfErr result (λ fault. fault ≡ ReaderFault.Device) }
{
    write_whole(out, block)?;
    match out.flush() {
        Ok(()) => Ok(()),
        Err(_) => Err(ReaderFault::Device),
    }
}

/// Writes a block of lines. After a fault, a prefix of it was written.
pub fn write_block<W: Write>(
    out: &mut W,
    writes: LineWrites,
    block: &[u8],
) -> Result<(), ReaderFault>
    ensures ok { OnOk result (Appends (W.contents out.old) (W.contents out.new) block.now) }
    ensures err { OnErr result (AppendsPrefix (W.contents out.old) (W.contents out.new) block.now) }
    ensures device { IfErr result (λ fault. fault ≡ ReaderFault.Device) }
{
    match writes {
        LineWrites::EachLine => write_each(out, block),
        LineWrites::Whole => write_whole(out, block),
        LineWrites::Flushed => write_flushed(out, block),
    }
}
