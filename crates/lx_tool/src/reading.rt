//! Reads readers to their end.

ghost use Rattle.std.specs.Prelude.{◌≡◌, ◌≢◌, ◌<◌, ◌≤◌, ◌⊎◌, ◌++◌, ℕ, List, false, IfOk, IfErr, IfSome, OnOk, length, take};
ghost use Rattle.std.specs.Io.KnownBytes.{Consumes, IsAtEnd};
ghost use Rattle.lx_forms.specs.NameLists.{separators};
ghost use Rattle.lx_tool.specs.declared.source.SourceFault.{SourceFault};
ghost use Rattle.lx_tool.specs.Sources.{ReadsOn, TakesOn};

use crate::source::{SourceFault, are_bytes};
use lx_listing::BlockTaker;
use lx_piece::{Input, ReaderFault};
use std::alloc::Global;
use std::io::{self, ErrorKind, Read};

// Number of bytes that one read asks for.
const CHUNK: usize = 65_536;

// Greatest number of reads.
const MOST_READS: u64 = 4_294_967_296;

/// The result of a read.
#[derive(Clone, Copy, Debug, PartialEq, Eq)]
enum ReadTurn {
    /// The read gave bytes, or was interrupted: another one may give more.
    More,
    /// The reader is at its end.
    End,
    /// The read failed.
    Failed,
}

// Returns the result of a read with an error, or none if memory was refused.
fn turn_of(error: &io::Error) -> Option<ReadTurn>
    ensures { IfSome result (λ turn. turn ≢ ReadTurn.End) }
{
    match error.kind() {
        ErrorKind::Interrupted => Some(ReadTurn::More),
        ErrorKind::OutOfMemory => None,
        _ => Some(ReadTurn::Failed),
    }
}

// Reads once, and appends the bytes. A short read isn't the end of the file: only a read of 0 bytes is.
fn read_on<R: Read>(
    reader: &mut R,
    chunk: &mut [u8],
    bytes: &mut Vec<u8>,
) -> Result<ReadTurn, SourceFault>
    requires { 0 < length chunk.old }
    ensures bytes { OnOk result (ReadsOn (R.remaining reader.old) (R.remaining reader.new)
        bytes.old.items bytes.new.items) }
    ensures end { IfOk result (λ turn. turn ≡ ReadTurn.End → IsAtEnd (R.remaining reader.new)) }
    ensures memory { IfErr result (λ fault. fault ≡ SourceFault.Memory) }
{
    match reader.read(chunk) {
        Ok(0) => Ok(ReadTurn::End),
        Ok(count) => {
            bytes.extend_from_slice(&chunk[..count])?;
            Ok(ReadTurn::More)
        }
        Err(error) => turn_of(&error).ok_or(SourceFault::Memory),
    }
}

/// Reads all bytes of a reader to its end. If a read fails, keeps the bytes before it, and the input is cut. It is also cut if 4,294,967,296 reads
/// aren't enough. Retries an interrupted read. The only error is a failed allocation.
pub fn read_to_end<R: Read>(alloc: Global, reader: &mut R) -> Result<Input, SourceFault>
    ensures bytes { IfOk result
        (λ input. Consumes (R.remaining reader.old) (R.remaining reader.new) input.bytes.items) }
    ensures end { IfOk result (λ input. input.cut ≡ false → IsAtEnd (R.remaining reader.new)) }
    ensures memory { IfErr result (λ fault. fault ≡ SourceFault.Memory) }
{
    let mut bytes = Vec::new(alloc);
    let mut chunk = vec![in alloc; 0u8; CHUNK]?;
    for _ in 0..MOST_READS {
        match read_on(reader, &mut chunk, &mut bytes)? {
            ReadTurn::More => {}
            ReadTurn::End => return Ok(Input { bytes, cut: false }),
            ReadTurn::Failed => break,
        }
    }
    Ok(Input { bytes, cut: true })
}

// Reads once, and gives the bytes to a taker.
fn take_on<R: Read, B: BlockTaker>(
    reader: &mut R,
    chunk: &mut [u8],
    taker: &mut B,
) -> Result<ReadTurn, ReaderFault>
    requires { 0 < length chunk.old }
    ensures room { length chunk.new ≡ length chunk.old }
    ensures taken { OnOk result (TakesOn B.takes (R.remaining reader.old) (R.remaining reader.new)
        taker.old taker.new) }
    ensures end { IfOk result (λ turn. turn ≡ ReadTurn.End → IsAtEnd (R.remaining reader.new)) }
{
    match reader.read(chunk) {
        Ok(0) => Ok(ReadTurn::End),
        Ok(count) => {
            let block = &chunk[..count];
            are_bytes(block);
            match taker.take_block(block) {
                Ok(()) => Ok(ReadTurn::More),
                Err(fault) => Err(fault),
            }
        }
        Err(error) => turn_of(&error).ok_or(ReaderFault::Memory),
    }
}

/// Reads all bytes of a reader to its end, and gives each block to a taker before the next read. If a read fails, the taker has the bytes before it, and
/// the result is true. It is also true if 4,294,967,296 reads aren't enough. Retries an interrupted read. Err: a block wasn't taken, or an allocation
/// failed.
pub fn read_in_blocks<R: Read, B: BlockTaker>(
    alloc: Global,
    reader: &mut R,
    taker: &mut B,
) -> Result<bool, ReaderFault>
    ensures taken { OnOk result (TakesOn B.takes (R.remaining reader.old) (R.remaining reader.new)
        taker.old taker.new) }
    ensures end { IfOk result (λ cut. cut ≡ false → IsAtEnd (R.remaining reader.new)) }
{
    let Ok(mut chunk) = vec![in alloc; 0u8; CHUNK] else {
        return Err(ReaderFault::Memory);
    };
    for _ in 0..MOST_READS {
        match take_on(reader, &mut chunk, taker)? {
            ReadTurn::More => {}
            ReadTurn::End => return Ok(false),
            ReadTurn::Failed => break,
        }
    }
    Ok(true)
}

// Counts the separators among the bytes.
fn separators_in(bytes: &[u8], separator: u8) -> usize
    ensures { result ≡ separators separator bytes.now }
{
    let mut count = 0;
    for byte in bytes {
        if *byte == separator {
            count += 1;
        }
    }
    count
}

// Adds the separators after the first `first` bytes to a count for these. The result is at most the number of separators among all bytes.
fn count_separators(bytes: &[u8], first: usize, separator: u8, count: usize) -> usize
    requires first { first ≤ length bytes.now }
    requires count { count ≤ separators separator (take first bytes.now) }
    ensures { result ≤ separators separator bytes.now }
{
    count.saturating_add(separators_in(&bytes[first..], separator))
}

/// Reads a list of names like `read_to_end`, but no more than is needed. Once it has read more than `most` names, each with its separator, it stops.
pub fn read_names<R: Read>(
    alloc: Global,
    reader: &mut R,
    separator: u8,
    most: usize,
) -> Result<Input, SourceFault>
    ensures bytes { IfOk result
        (λ input. Consumes (R.remaining reader.old) (R.remaining reader.new) input.bytes.items) }
    ensures end { IfOk result (λ input.
        input.cut ≡ false → IsAtEnd (R.remaining reader.new)
        ⊎ (most < separators separator input.bytes.items)) }
    ensures memory { IfErr result (λ fault. fault ≡ SourceFault.Memory) }
{
    let mut bytes = Vec::new(alloc);
    let mut chunk = vec![in alloc; 0u8; CHUNK]?;
    let mut count: usize = 0;
    for _ in 0..MOST_READS {
        let first = bytes.len();
        match read_on(reader, &mut chunk, &mut bytes)? {
            ReadTurn::More => {}
            ReadTurn::End => return Ok(Input { bytes, cut: false }),
            ReadTurn::Failed => break,
        }
        count = count_separators(&bytes, first, separator, count);
        if count > most {
            return Ok(Input { bytes, cut: false });
        }
    }
    Ok(Input { bytes, cut: true })
}
