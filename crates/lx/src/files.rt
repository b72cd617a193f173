//! Real files as the program's sources.

ghost use Rattle.std.specs.Prelude.{None, OnOk};
ghost use Rattle.lx_tool.specs.Sources.{TakesOn};

use crate::names::text_of;
use lx_piece::{Input, ReaderFault};
use lx_tool::{
    BlockTaker, BlocksFault, STANDARD_INPUT, SourceFault, Sources, name_bytes, read_in_blocks,
    read_names, read_to_end,
};
use std::alloc::{AllocError, Global};
use std::env::FillError;
use std::fs::File;
use std::io;
use std::io::{Error, ErrorKind, Input as StandardInput, Read};
use std::rt::{Env, Files};

// The message of an error has at most 80 bytes.
const NOT_UTF8: &str = "its name isn't UTF-8; name a link to it, or read it as -";

// The part of a file that the program reads.
#[derive(Clone, Copy)]
enum Wanted {
    All,
    /// At most `most` names with this separator.
    Names { separator: u8, most: usize },
}

// Reason why a file couldn't be opened, or wasn't read to its end.
#[derive(Clone, Copy)]
enum Reason {
    // The system's error number.
    System(i32),
    // The standard library doesn't open a file whose name isn't UTF-8.
    NotUtf8,
}

impl Reason {
    fn of(error: &Error) -> Option<Reason> {
        error.raw_os_error().map(Reason::System)
    }

    fn error(self) -> Error {
        match self {
            Reason::System(number) => Error::from_raw_os_error(number),
            Reason::NotUtf8 => Error::new(ErrorKind::InvalidFilename, NOT_UTF8),
        }
    }
}

/// The files of the system, by their paths, and standard input.
#[derive(Drop)]
pub struct FileSources<'a, R> {
    rt: &'a R,
    // Reason for the last file.
    reason: Option<Reason>,
    // Reason for each file that was cut short, in the order in which they were read.
    cut_reasons: Vec<Option<Reason>>,
}

impl<'a, R: AllocGlobal + Env + Files + StandardInput> FileSources<'a, R> {
    /// Returns the files that the runtime reaches.
    pub fn new(rt: &'a R) -> FileSources<'a, R> {
        FileSources {
            rt,
            reason: None,
            cut_reasons: Vec::new(rt.alloc()),
        }
    }

    // Reads the wanted part of a file, and keeps the reason if that fails.
    fn read_file<F: Read + Drop>(
        &mut self,
        alloc: Global,
        file: F,
        wanted: Wanted,
    ) -> Result<Input, SourceFault> {
        let mut noting = Noting { file, reason: None };
        let input = match wanted {
            Wanted::All => read_to_end(alloc, &mut noting),
            Wanted::Names { separator, most } => read_names(alloc, &mut noting, separator, most),
        };
        self.reason = noting.reason;
        let input = input?;
        if input.cut {
            self.cut()?;
        }
        Ok(input)
    }

    // Gives a file in blocks, and keeps the reason if its reading fails.
    fn give_file<F: Read + Drop, B: BlockTaker>(
        &mut self,
        alloc: Global,
        file: F,
        taker: &mut B,
    ) -> Result<bool, ReaderFault>
        ensures { OnOk result (TakesOn B.takes None None taker.old taker.new) }
    {
        let mut noting = Noting { file, reason: None };
        let answer = read_in_blocks(alloc, &mut noting, taker);
        self.reason = noting.reason;
        let is_cut = answer?;
        if is_cut && self.cut().is_err() {
            return Err(ReaderFault::Memory);
        }
        Ok(is_cut)
    }

    // Keeps the reason why a file is cut short.
    fn cut(&mut self) -> Result<(), AllocError> {
        self.cut_reasons.push(self.reason)?;
        Ok(())
    }

    // Opens the file with this name. Returns none for a name that isn't UTF-8: such a file counts as cut before its first byte, so that the other files
    // of a directory are listed.
    fn open(&mut self, alloc: Global, name: &str) -> Result<Option<R::File>, SourceFault> {
        let bytes = name_bytes(alloc, name)?;
        let Ok(path) = str::from_utf8(&bytes) else {
            self.reason = Some(Reason::NotUtf8);
            self.cut()?;
            return Ok(None);
        };
        match File::open(self.rt, path) {
            Ok(file) => Ok(Some(file)),
            Err(error) => {
                self.reason = Reason::of(&error);
                Err(fault_of(&error))
            }
        }
    }

    // Reads the wanted part of the file with this name.
    fn read_wanted(
        &mut self,
        alloc: Global,
        name: &str,
        wanted: Wanted,
    ) -> Result<Input, SourceFault> {
        if name == STANDARD_INPUT {
            let input = self.rt.reader();
            return self.read_file(alloc, input, wanted);
        }
        match self.open(alloc, name)? {
            Some(file) => self.read_file(alloc, file, wanted),
            None => Ok(Input {
                bytes: Vec::new(alloc),
                cut: true,
            }),
        }
    }
}

impl<R: AllocGlobal + Env + Files + StandardInput> Sources for FileSources<'_, R> {
    ghost use Rattle.std.specs.Prelude.{⊤};

    // no claim about what the system gives for a path
    ghost gives = { λ _ _ _ _. ⊤ };

    fn read(&mut self, alloc: Global, name: &str) -> Result<Input, SourceFault> {
        self.read_wanted(alloc, name, Wanted::All)
    }

    fn read_names(
        &mut self,
        alloc: Global,
        name: &str,
        separator: u8,
        most: usize,
    ) -> Result<Input, SourceFault> {
        let mut list = self.read_wanted(alloc, name, Wanted::Names { separator, most })?;
        if str::from_utf8(&list.bytes).is_err() {
            list.bytes = text_of(alloc, &list.bytes)?.into_bytes();
        }
        Ok(list)
    }

    fn read_blocks<B: BlockTaker>(
        &mut self,
        alloc: Global,
        name: &str,
        taker: &mut B,
    ) -> Result<bool, BlocksFault> {
        if name == STANDARD_INPUT {
            let input = self.rt.reader();
            return Ok(self.give_file(alloc, input, taker)?);
        }
        match self.open(alloc, name) {
            Ok(Some(file)) => Ok(self.give_file(alloc, file, taker)?),
            Ok(None) => {
                taker.take_block(&[])?;
                Ok(true)
            }
            Err(SourceFault::NotRead) => Err(BlocksFault::NotRead),
            Err(SourceFault::Memory) => Err(BlocksFault::NotTaken(ReaderFault::Memory)),
        }
    }

    fn reason(&self) -> Option<Error> {
        self.reason.map(Reason::error)
    }

    fn is_posix(&self) -> bool {
        let mut few = [0u8; 1];
        match self.rt.var("POSIXLY_CORRECT", &mut few) {
            Ok(_) | Err(FillError::TooLong) => true,
            Err(FillError::NotPresent) => false,
        }
    }

    fn cut_reason(&self, number: usize) -> Option<Error> {
        match self.cut_reasons.get(number) {
            Some(reason) => reason.map(Reason::error),
            None => None,
        }
    }
}

fn fault_of(error: &Error) -> SourceFault {
    match error.kind() {
        ErrorKind::OutOfMemory => SourceFault::Memory,
        _ => SourceFault::NotRead,
    }
}

/// A reader that keeps the reason why its last read failed.
#[derive(Drop)]
struct Noting<F> {
    file: F,
    reason: Option<Reason>,
}

impl<F: Read> Read for Noting<F> {
    fn read(&mut self, bytes: &mut [u8]) -> io::Result<usize> {
        match self.file.read(bytes) {
            Ok(count) => Ok(count),
            Err(error) => {
                self.reason = Reason::of(&error);
                Err(error)
            }
        }
    }
}
