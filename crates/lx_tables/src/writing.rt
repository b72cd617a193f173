//! Writes bytes and numbers without allocation. A write of 0 bytes or an error is a fault. After it, a prefix was written.

ghost use Rattle.std.specs.Prelude.{◌++◌, OnOk, OnErr};
ghost use Rattle.std.specs.List.{flat_map};
ghost use Rattle.lx_tables.specs.Output.{Wrote, WrotePrefix};
ghost use Rattle.lx_tables.specs.Texts.{number, count_line};

use itoa::Buffer;
use std::io::{self, Write};

/// Writes bytes in one write, or in further ones for what the device didn't accept. After an error, a prefix was written.
///
/// # Errors
///
/// `WriteZero` if the device accepts no byte. The device's own error.
pub fn write_bytes<W: Write>(out: &mut W, bytes: &[u8]) -> Result<(), io::Error>
    ensures ok { OnOk result (Wrote (W.contents out.old) (W.contents out.new) bytes.now) }
    ensures err { OnErr result (WrotePrefix (W.contents out.old) (W.contents out.new) bytes.now) }
{
    let mut done = 0;
    while done < bytes.len() {
        match out.write(&bytes[done..]) {
            Ok(0) => return Err(io::Error::from(io::ErrorKind::WriteZero)),
            Ok(n) => done += n,
            Err(e) => return Err(e),
        }
    }
    Ok(())
}

/// Writes parts, one after the other.
pub(crate) fn write_parts<W: Write>(out: &mut W, parts: &[&[u8]]) -> Result<(), io::Error>
    ensures ok { OnOk result
        (Wrote (W.contents out.old) (W.contents out.new) (flat_map (λ part. part.now) parts.now)) }
    ensures err { OnErr result (WrotePrefix (W.contents out.old) (W.contents out.new)
        (flat_map (λ part. part.now) parts.now)) }
{
    for part in parts {
        write_bytes(out, part)?;
    }
    Ok(())
}

/// Writes a word and a number.
pub(crate) fn write_numbered<W: Write>(out: &mut W, word: &[u8], n: u32) -> Result<(), io::Error>
    ensures ok { OnOk result
        (Wrote (W.contents out.old) (W.contents out.new) (word.now ++ number n)) }
    ensures err { OnErr result
        (WrotePrefix (W.contents out.old) (W.contents out.new) (word.now ++ number n)) }
{
    let mut digits = Buffer::new();
    write_parts(out, &[word, digits.format(n).as_bytes()])
}

/// Writes a line of a word and a number.
pub(crate) fn write_count<W: Write>(out: &mut W, word: &[u8], n: u32) -> Result<(), io::Error>
    ensures ok { OnOk result
        (Wrote (W.contents out.old) (W.contents out.new) (count_line word.now n)) }
    ensures err { OnErr result
        (WrotePrefix (W.contents out.old) (W.contents out.new) (count_line word.now n)) }
{
    let mut digits = Buffer::new();
    write_parts(out, &[word, digits.format(n).as_bytes(), b"\n"])
}
