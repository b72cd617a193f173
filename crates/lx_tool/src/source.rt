//! Sources of the program's files.

ghost use Rattle.std.specs.Prelude.{◌≡◌, ◌<◌, ℕ, All, List, [], IfOk, map, ⊤, Err};
ghost use Rattle.lx_piece.specs.Plans.{PlainInput, input_view};
ghost use Rattle.lx_tool.specs.Sources.{GivesBlocks, GivesFront, inputs_of, is_among};

use lx_listing::BlockTaker;
use lx_piece::{Input, ReaderFault};
use std::alloc::{AllocError, Global};
use std::io;
use std::marker::Model;
use thiserror::Error;

/// Reason why a file wasn't read.
#[derive(Clone, Copy, Debug, PartialEq, Eq, Error)]
pub enum SourceFault {
    /// The file can't be opened.
    #[error("not read")]
    NotRead,
    /// An allocation failed.
    #[error("out of memory")]
    Memory,
}

impl From<AllocError> for SourceFault {
    ghost use Rattle.std.specs.Prelude.{◌≡◌};
    ghost use Rattle.lx_tool.specs.declared.source.SourceFault.{SourceFault};

    ghost from_gives = { λ _ fault. fault ≡ SourceFault.Memory };

    fn from(_error: AllocError) -> SourceFault {
        SourceFault::Memory
    }
}

/// Reason why a file wasn't given in blocks.
#[derive(Clone, Copy, Debug, PartialEq, Eq, Error)]
pub enum BlocksFault {
    /// The file can't be opened.
    #[error("not read")]
    NotRead,
    /// A block wasn't taken, or an allocation failed.
    #[error("not taken")]
    NotTaken(ReaderFault),
}

impl From<AllocError> for BlocksFault {
    ghost use Rattle.std.specs.Prelude.{◌≡◌};
    ghost use Rattle.lx_piece.specs.declared.reader.ReaderFault.{ReaderFault};
    ghost use Rattle.lx_tool.specs.declared.source.BlocksFault.{BlocksFault};

    ghost from_gives = { λ _ fault. fault ≡ BlocksFault.NotTaken ReaderFault.Memory };

    fn from(_error: AllocError) -> BlocksFault {
        BlocksFault::NotTaken(ReaderFault::Memory)
    }
}

impl From<ReaderFault> for BlocksFault {
    ghost use Rattle.std.specs.Prelude.{◌≡◌};
    ghost use Rattle.lx_tool.specs.declared.source.BlocksFault.{BlocksFault};

    ghost from_gives = { λ given fault. fault ≡ BlocksFault.NotTaken given };

    fn from(fault: ReaderFault) -> BlocksFault {
        BlocksFault::NotTaken(fault)
    }
}

/// The name of standard input.
pub const STANDARD_INPUT: &str = "-";

// States a fact: a byte of a slice is below 256.
pub(crate) fn are_bytes(bytes: &[u8])
    ensures { All (λ b. b < 256) bytes.now }
{}

/// Files by name.
pub trait Sources {
    /// This input was given for this name between one state and a later one.
    ghost gives: { Self → List ℕ → PlainInput → Self → Type 0 };

    /// The file with this name can't be opened in this state. By default nothing is known of it, for example of a system's files.
    ghost lacks: { Self → List ℕ → Type 0 } = { λ _ _. ⊤ };

    /// Reads the file with this name, up to its end or a read error. Err: NotRead if it can't be opened.
    fn read(&mut self, alloc: Global, name: &str) -> Result<Input, SourceFault>
        ensures given { IfOk result (λ input. gives self.old name.now (input_view input) self.new) }
        ensures lacks { result ≡ Err SourceFault.NotRead → lacks self.old name.now };

    /// Reads a file that is a list of names with this separator. Returns the file, up to its end or a read error, or a front part of it. A front part
    /// has more than `most` names, each with its separator.
    fn read_names(
        &mut self,
        alloc: Global,
        name: &str,
        separator: u8,
        most: usize,
    ) -> Result<Input, SourceFault>
        ensures given { IfOk result (λ input.
            GivesFront gives self.old name.now separator most (input_view input) self.new) }
        ensures lacks { result ≡ Err SourceFault.NotRead → lacks self.old name.now }
    {
        self.read(alloc, name)
    }

    /// Reads the file with this name, and gives its blocks to a taker as they are read, up to the end or a read error. Returns true if a read failed. By
    /// default gives the whole file as one block. Err: NotRead if it can't be opened; then the taker gets nothing.
    fn read_blocks<B: BlockTaker>(
        &mut self,
        alloc: Global,
        name: &str,
        taker: &mut B,
    ) -> Result<bool, BlocksFault>
        ensures given { IfOk result (λ cut.
            GivesBlocks gives B.takes self.old name.now cut taker.old taker.new self.new) }
        ensures lacks { result ≡ Err BlocksFault.NotRead → lacks self.old name.now }
        ensures nothing { result ≡ Err BlocksFault.NotRead → taker.new ≡ taker.old }
    {
        match self.read(alloc, name) {
            Ok(input) => {
                are_bytes(&input.bytes);
                taker.take_block(&input.bytes)?;
                Ok(input.cut)
            }
            Err(SourceFault::NotRead) => Err(BlocksFault::NotRead),
            Err(SourceFault::Memory) => Err(BlocksFault::NotTaken(ReaderFault::Memory)),
        }
    }

    /// Returns the system's reason why the last failing file wasn't read or wasn't read to its end, if it is known.
    fn reason(&self) -> Option<io::Error> {
        None
    }

    /// Returns true if `flex` has to read patterns as `lex` does, as where the environment has POSIXLY_CORRECT. By default returns false.
    fn is_posix(&self) -> bool {
        false
    }

    /// Returns the reason why a file was cut short, if it is known. Files that were cut short are counted from 0, in the order in which they were
    /// read.
    fn cut_reason(&self, _number: usize) -> Option<io::Error> {
        None
    }
}

/// Files given as a list of names and bytes. Of two with the same name, the first one is read.
#[derive(Drop)]
pub struct ListSources<'a> {
    files: &'a [(&'a str, &'a [u8])],
    // Names of the files whose reading fails after their bytes.
    cut: &'a [&'a str],
}

impl<'a> Model for ListSources<'a> {
    ghost use Rattle.std.specs.Prelude.{ℕ, List, map};
    ghost use Rattle.lx_piece.specs.Plans.{PlainInput};
    ghost use Rattle.lx_tool.specs.Sources.{inputs_of};

    ghost Value = { List (List ℕ × PlainInput) };

    ghost view = { λ s. inputs_of (map (λ name. name.now) s.cut.now) s.files.now };
}

impl<'a> ListSources<'a> {
    /// Returns the files of the list, all complete.
    pub fn new(files: &'a [(&'a str, &'a [u8])]) -> ListSources<'a>
        ensures { result ≡ inputs_of [] files.now }
    {
        ListSources { files, cut: &[] }
    }

    /// Returns the files of the list. Those with a name in `cut` are cut short: their reading fails after their bytes.
    pub fn with_cut(files: &'a [(&'a str, &'a [u8])], cut: &'a [&'a str]) -> ListSources<'a>
        ensures { result ≡ inputs_of (map (λ name. name.now) cut.now) files.now }
    {
        ListSources { files, cut }
    }
}

/// Makes a file with these bytes, cut short or not.
pub(crate) fn make_input(alloc: Global, bytes: &[u8], cut: bool) -> Result<Input, AllocError>
    ensures { IfOk result (λ input. input_view input ≡ record { bytes = bytes.now; cut = cut }) }
{
    Ok(Input {
        bytes: Vec::from_slice(alloc, bytes)?,
        cut,
    })
}

// Returns true if a name is one of these.
fn is_among(names: &[&str], name: &str) -> bool
    ensures { result ≡ is_among (map (λ known. known.now) names.now) name.now }
{
    for known in names {
        if *known == name {
            return true;
        }
    }
    false
}

impl Sources for ListSources<'_> {
    ghost use Rattle.std.specs.Prelude.{◌≡◌, IfOk, Err};
    ghost use Rattle.lx_piece.specs.Plans.{input_view};
    ghost use Rattle.lx_tool.specs.Sources.{IsFirstNamed, NoneIsNamed};

    ghost gives = { λ old name input new. (new ≡ old) × IsFirstNamed old name input };

    ghost lacks = { λ old name. NoneIsNamed old name };

    /// Reads the first file with this name. Err: NotRead exactly if there is none.
    fn read(&mut self, alloc: Global, name: &str) -> Result<Input, SourceFault>
        ensures unchanged { self.new ≡ self.old }
        ensures found { IfOk result
            (λ input. (self.new ≡ self.old) × IsFirstNamed self.old name.now (input_view input)) }
        ensures not_found { NoneIsNamed self.old name.now → result ≡ Err SourceFault.NotRead }
        ensures not_read { result ≡ Err SourceFault.NotRead → NoneIsNamed self.old name.now }
    {
        for (file, bytes) in self.files {
            if *file == name {
                return Ok(make_input(alloc, bytes, is_among(self.cut, name))?);
            }
        }
        Err(SourceFault::NotRead)
    }
}
