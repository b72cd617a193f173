//! The command lines of `lex` (POSIX.1-2017, XCU `lex`, "Options") and of `flex` (flex's manual, "Scanner Options").

use crate::cursor::{FilePlace, front, place_of, skip};
use crate::options::FlexOptions;
use std::alloc::{AllocError, AllocFailed, Global};
use thiserror::Error;

/// The command line of `lex` or `flex`, without the name of the command.
#[derive(Debug, Drop)]
pub struct FlexCommand<'a> {
    pub options: FlexOptions,
    /// Names of the files. Without any, standard input is read.
    pub files: Vec<&'a str>,
    /// Macros of `-D`, each a name or `name=value`.
    pub macros: Vec<&'a str>,
    /// The header's file is asked for without a name.
    pub header: bool,
    /// The version is asked for, or the help.
    pub told: Option<FlexAnswer>,
}

/// A text that the command prints in the place of a scanner.
#[derive(Debug, Clone, Copy, PartialEq, Eq)]
pub enum FlexAnswer {
    Help,
    Version,
}

/// The fault of a command line.
#[derive(Debug, Clone, Copy, PartialEq, Eq, Error)]
pub enum FlagFault<'a> {
    /// There is no such option.
    #[error("no option {0}; --help lists all")]
    Unknown(&'a str),
    /// The option has to have a value.
    #[error("the option {0} needs a value")]
    NoValue(&'a str),
    /// The option is one of flex that isn't supported.
    #[error("the option {0} is not supported; --help lists those that are")]
    Unsupported(&'a str),
    /// An allocation failed.
    #[error("out of memory")]
    Memory,
}

impl From<AllocError> for FlagFault<'_> {
    ghost use Rattle.std.specs.Prelude.{◌≡◌};
    ghost use Rattle.lx_flex.specs.declared.flags.FlagFault.{FlagFault};

    ghost from_gives = { λ _ fault. fault ≡ FlagFault.Memory };

    fn from(_e: AllocError) -> Self {
        FlagFault::Memory
    }
}

impl<T: Drop> From<AllocFailed<T>> for FlagFault<'_> {
    ghost use Rattle.std.specs.Prelude.{◌≡◌};
    ghost use Rattle.lx_flex.specs.declared.flags.FlagFault.{FlagFault};

    ghost from_gives = { λ _ fault. fault ≡ FlagFault.Memory };

    fn from(_e: AllocFailed<T>) -> Self {
        FlagFault::Memory
    }
}

/// Letters of options that switch a word.
const LETTERS: &[(u8, &[u8], bool)] = &[
    (b't', b"stdout", true),
    (b'v', b"verbose", true),
    (b'i', b"case-insensitive", true),
    (b'l', b"lex-compat", true),
    (b'X', b"posix-compat", true),
    (b's', b"default", false),
    (b'd', b"debug", true),
    (b'R', b"reentrant", true),
    (b'L', b"line", false),
    (b'w', b"warn", false),
    (b'7', b"7bit", true),
    (b'8', b"7bit", false),
    (b'I', b"interactive", true),
    (b'B', b"interactive", false),
    (b'f', b"full", true),
    (b'F', b"fast", true),
    (b'b', b"backup", true),
    (b'p', b"perf-report", true),
    (b'+', b"c++", true),
];

/// Letters of options that change nothing.
const IDLE_LETTERS: &[u8] = b"nTc";

/// Letters of options with a value.
const VALUED_LETTERS: &[(u8, &[u8])] = &[
    (b'o', b"outfile"),
    (b'P', b"prefix"),
    (b'D', b"define"),
    (b'S', b"skel"),
];

/// Long options that change nothing.
const IDLE_NAMES: &[&[u8]] = &[
    b"hex",
    b"trace",
    b"perf-report",
    b"noansi-definitions",
    b"noansi-prototypes",
];

/// Letters after `-C` that switch a word alone: `-f` also reads by read(2), and `-Cf` doesn't.
const TABLE_LETTERS: &[(u8, &[u8])] = &[
    (b'r', b"read"),
    (b'f', b"full"),
    (b'F', b"fast"),
    (b'e', b"ecs"),
    (b'm', b"meta-ecs"),
    (b'a', b"align"),
];

/// The words of a command line that are left.
#[derive(Drop)]
struct Words<'a> {
    words: &'a [String],
    at: usize,
}

impl<'a> Words<'a> {
    fn next(&mut self) -> Option<&'a str> {
        let word = self.words.get(self.at)?;
        self.at = self.at.saturating_add(1);
        Some(word.as_str())
    }
}

fn set_value<'a>(
    alloc: Global,
    command: &mut FlexCommand<'a>,
    word: &'a str,
    name: &[u8],
    value: &'a str,
) -> Result<(), FlagFault<'a>> {
    if name == b"define".as_slice() {
        command.macros.push(value)?;
        return Ok(());
    }
    if command
        .options
        .set(alloc, name, value.as_bytes(), FilePlace::WHOLE)?
    {
        return Ok(());
    }
    Err(FlagFault::Unsupported(word))
}

/// Returns the option that a letter switches, and its value.
fn switched_by(letter: u8) -> Option<(&'static [u8], bool)> {
    for (known, word, on) in LETTERS {
        if *known == letter {
            return Some((*word, *on));
        }
    }
    None
}

fn valued_by(letter: u8) -> Option<&'static [u8]> {
    for (known, word) in VALUED_LETTERS {
        if *known == letter {
            return Some(*word);
        }
    }
    None
}

/// Takes the letters after `-C`.
fn take_table_letters<'a>(
    command: &mut FlexCommand<'a>,
    word: &'a str,
    letters: &[u8],
) -> Result<(), FlagFault<'a>> {
    for letter in letters {
        let mut known = false;
        for (table_letter, name) in TABLE_LETTERS {
            if *table_letter == *letter {
                command.options.put(*name, true, FilePlace::WHOLE)?;
                known = true;
            }
        }
        if !known {
            return Err(FlagFault::Unknown(word));
        }
    }
    Ok(())
}

/// Takes one letter without a value.
fn take_letter<'a>(
    command: &mut FlexCommand<'a>,
    word: &'a str,
    letter: u8,
) -> Result<(), FlagFault<'a>> {
    if letter == b'h' || letter == b'?' {
        command.told = Some(FlexAnswer::Help);
        return Ok(());
    }
    if letter == b'V' {
        command.told = Some(FlexAnswer::Version);
        return Ok(());
    }
    if IDLE_LETTERS.contains(&letter) {
        return Ok(());
    }
    let Some((name, on)) = switched_by(letter) else {
        return Err(FlagFault::Unknown(word));
    };
    let _known = command.options.switch(name, on, FilePlace::WHOLE)?;
    Ok(())
}

/// Takes the letters of a word after its `-`.
fn take_letters<'a>(
    alloc: Global,
    command: &mut FlexCommand<'a>,
    words: &mut Words<'a>,
    word: &'a str,
) -> Result<(), FlagFault<'a>> {
    let mut place: usize = 0;
    for letter in word.as_bytes() {
        place = place.saturating_add(1);
        if place == 1 {
            continue;
        }
        let rest = skip(place, word.as_bytes());
        if *letter == b'C' {
            return take_table_letters(command, word, rest);
        }
        if let Some(name) = valued_by(*letter) {
            let value = if rest.is_empty() {
                words.next()
            } else {
                word.get(place..)
            };
            let Some(value) = value else {
                return Err(FlagFault::NoValue(word));
            };
            return set_value(alloc, command, word, name, value);
        }
        take_letter(command, word, *letter)?;
    }
    Ok(())
}

/// The meaning of a long option that is no switch.
#[derive(Clone, Copy)]
enum NameUse {
    Tells(FlexAnswer),
    /// It asks for the header.
    Header,
    /// It has a value.
    Value,
    Unsupported,
}

const NAMES: &[(&[u8], NameUse)] = &[
    (b"help", NameUse::Tells(FlexAnswer::Help)),
    (b"version", NameUse::Tells(FlexAnswer::Version)),
    (b"header-file", NameUse::Header),
    (b"header", NameUse::Header),
    (b"outfile", NameUse::Value),
    (b"prefix", NameUse::Value),
    (b"form", NameUse::Value),
    (b"define", NameUse::Value),
    (b"tables-file", NameUse::Unsupported),
    (b"skel", NameUse::Unsupported),
    (b"yyclass", NameUse::Unsupported),
];

fn use_of(name: &[u8]) -> Option<NameUse> {
    for (known, name_use) in NAMES {
        if *known == name {
            return Some(*name_use);
        }
    }
    None
}

/// Switches the option with this name on, or off where it begins with `no`.
fn switch_name<'a>(
    command: &mut FlexCommand<'a>,
    word: &'a str,
    name: &[u8],
) -> Result<(), FlagFault<'a>> {
    if IDLE_NAMES.contains(&name) {
        return Ok(());
    }
    let (switched, on) = match name {
        [b'n', b'o', rest @ ..] => (rest, false),
        _ => (name, true),
    };
    if command.options.switch(switched, on, FilePlace::WHOLE)? {
        return Ok(());
    }
    Err(FlagFault::Unknown(word))
}

/// Takes a word of `--` and this name. Its value, if it has one, is the next word.
fn take_plain_name<'a>(
    alloc: Global,
    command: &mut FlexCommand<'a>,
    words: &mut Words<'a>,
    word: &'a str,
    name: &[u8],
) -> Result<(), FlagFault<'a>> {
    match use_of(name) {
        Some(NameUse::Tells(answer)) => command.told = Some(answer),
        Some(NameUse::Header) => command.header = true,
        Some(NameUse::Value) => {
            return match words.next() {
                Some(value) => set_value(alloc, command, word, name, value),
                None => Err(FlagFault::NoValue(word)),
            };
        }
        Some(NameUse::Unsupported) => return Err(FlagFault::Unsupported(word)),
        None => return switch_name(command, word, name),
    }
    Ok(())
}

/// Takes a word that begins with `--`.
fn take_name<'a>(
    alloc: Global,
    command: &mut FlexCommand<'a>,
    words: &mut Words<'a>,
    word: &'a str,
) -> Result<(), FlagFault<'a>> {
    let text = skip(2, word.as_bytes());
    let Some(at) = place_of(text, b"=") else {
        return take_plain_name(alloc, command, words, word, text);
    };
    match word.get(at.saturating_add(3)..) {
        Some(value) => set_value(alloc, command, word, front(at, text), value),
        None => Err(FlagFault::NoValue(word)),
    }
}

/// Takes a word. After `--` all further ones are names of files.
fn take_word<'a>(
    alloc: Global,
    command: &mut FlexCommand<'a>,
    left: &mut Words<'a>,
    word: &'a str,
    operands_alone: &mut bool,
) -> Result<(), FlagFault<'a>> {
    let text = word.as_bytes();
    if *operands_alone || text.len() < 2 || front(1, text) != b"-".as_slice() {
        command.files.push(word)?;
        return Ok(());
    }
    if text == b"--".as_slice() {
        *operands_alone = true;
        return Ok(());
    }
    if front(2, text) == b"--".as_slice() {
        take_name(alloc, command, left, word)
    } else {
        take_letters(alloc, command, left, word)
    }
}

/// Reads the words after the name of the command. With `posix`, patterns are those of POSIX.
pub fn read_command<'a>(
    alloc: Global,
    words: &'a [String],
    posix: bool,
) -> Result<FlexCommand<'a>, FlagFault<'a>> {
    let mut command = FlexCommand {
        options: FlexOptions::new(alloc),
        files: Vec::new(alloc),
        macros: Vec::new(alloc),
        header: false,
        told: None,
    };
    let _known = command
        .options
        .switch(b"posix-compat", posix, FilePlace::WHOLE)?;
    let mut left = Words { words, at: 0 };
    let mut operands_alone = false;
    for _ in words {
        let Some(word) = left.next() else {
            break;
        };
        take_word(alloc, &mut command, &mut left, word, &mut operands_alone)?;
    }
    Ok(command)
}
