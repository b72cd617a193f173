//! The words of `%option` (flex's manual, "Scanner Options").

ghost use Rattle.std.specs.Prelude.{◌≡◌, OnOk};

use crate::cursor::{FilePlace, TextCursor, blank_run, front, is_blank, place_of, skip};
use crate::report::{ImportCause, Reports};
use lx_flex_pattern::PatternOptions;
use std::alloc::{AllocError, Global};

/// Words that are off unless they are switched on.
const OFF_AT_FIRST: &[&[u8]] = &[
    b"7bit",
    b"align",
    b"always-interactive",
    b"array",
    b"backup",
    b"bison-bridge",
    b"bison-locations",
    b"c++",
    b"case-insensitive",
    b"debug",
    b"ecs",
    b"fast",
    b"full",
    b"interactive",
    b"lex-compat",
    b"main",
    b"meta-ecs",
    b"never-interactive",
    b"perf-report",
    b"posix-compat",
    b"read",
    b"reentrant",
    b"reject",
    b"stack",
    b"stdinit",
    b"stdout",
    b"tables-verify",
    b"verbose",
    b"yymore",
    b"yylineno",
    b"unsafe-no-m4-sect3-escape",
];

/// Words that are on unless they are switched off.
const ON_AT_FIRST: &[&[u8]] = &[
    b"default",
    b"input",
    b"line",
    b"unistd",
    b"unput",
    b"warn",
    b"yywrap",
    b"yy_push_state",
    b"yy_pop_state",
    b"yy_top_state",
    b"yy_scan_buffer",
    b"yy_scan_bytes",
    b"yy_scan_string",
    b"yyalloc",
    b"yyrealloc",
    b"yyfree",
    b"yyget_debug",
    b"yyset_debug",
    b"yyget_extra",
    b"yyset_extra",
    b"yyget_leng",
    b"yyget_text",
    b"yyget_lineno",
    b"yyset_lineno",
    b"yyget_column",
    b"yyset_column",
    b"yyget_in",
    b"yyset_in",
    b"yyget_out",
    b"yyset_out",
    b"yyget_lval",
    b"yyset_lval",
    b"yyget_lloc",
    b"yyset_lloc",
];

/// Other spellings of words. The flag is false if the spelling switches the word off.
const SPELLINGS: &[(&[u8], &[u8], bool)] = &[
    (b"8bit", b"7bit", false),
    (b"batch", b"interactive", false),
    (b"caseful", b"case-insensitive", false),
    (b"case-sensitive", b"case-insensitive", false),
    (b"caseless", b"case-insensitive", true),
    (b"pointer", b"array", false),
    (b"posix", b"posix-compat", true),
];

/// Words with a value.
const VALUED: &[&[u8]] = &[
    b"extra-type",
    b"form",
    b"header",
    b"header-file",
    b"outfile",
    b"prefix",
    b"tables-file",
    b"yyclass",
];

/// Values of `form`.
const FORMS: &[&[u8]] = &[b"rows", b"states"];

/// Words that are part of others when they are switched on.
const IMPLIED: &[(&[u8], &[u8], bool)] = &[
    (b"bison-locations", b"bison-bridge", true),
    (b"fast", b"read", true),
    (b"full", b"read", true),
    (b"main", b"yywrap", false),
];

/// Words that `lex-compat` switches on, whatever else is said.
const ON_FOR_LEX: &[&[u8]] = &[b"array", b"yylineno"];

/// Words that change the reading of patterns.
const FOR_PATTERNS: &[&[u8]] = &[b"case-insensitive", b"lex-compat", b"posix-compat"];

/// A word, and how it was switched last.
#[derive(Debug, Clone, Copy)]
struct Switch {
    word: &'static [u8],
    on: bool,
    place: FilePlace,
}

/// A word with a value, as it was given last.
#[derive(Debug, Drop)]
struct Setting {
    word: &'static [u8],
    value: Vec<u8>,
    place: FilePlace,
}

/// The options of a file.
#[derive(Debug, Drop)]
pub struct FlexOptions {
    switches: Vec<Switch>,
    settings: Vec<Setting>,
    /// Place of the first line with a word that changes no pattern.
    pub(crate) unrelated: Option<FilePlace>,
}

/// Returns the word of a list that has these letters.
fn word_in(words: &'static [&'static [u8]], name: &[u8]) -> Option<&'static [u8]> {
    for word in words {
        if *word == name {
            return Some(*word);
        }
    }
    None
}

/// Returns the word that a spelling switches, and false if it switches it off.
fn spelled(name: &[u8]) -> Option<(&'static [u8], bool)> {
    for (spelling, word, on) in SPELLINGS {
        if name == *spelling {
            return Some((*word, *on));
        }
    }
    if let Some(word) = word_in(OFF_AT_FIRST, name) {
        return Some((word, true));
    }
    word_in(ON_AT_FIRST, name).map(|word| (word, true))
}

impl FlexOptions {
    /// Returns the options of a file without `%option`.
    pub fn new(alloc: Global) -> FlexOptions {
        FlexOptions {
            switches: Vec::new(alloc),
            settings: Vec::new(alloc),
            unrelated: None,
        }
    }

    /// Returns true if the word was switched on, or is on at first.
    fn is_switched_on(&self, word: &[u8]) -> bool {
        for switch in self.switches.as_slice() {
            if switch.word == word {
                return switch.on;
            }
        }
        word_in(ON_AT_FIRST, word).is_some()
    }

    /// Returns true if the word is on. A word that flex doesn't have is off. With `lex-compat` some words are always on, as in flex.
    pub fn is_on(&self, word: &[u8]) -> bool {
        self.is_switched_on(word)
            || word_in(ON_FOR_LEX, word).is_some() && self.is_switched_on(b"lex-compat")
    }

    /// Returns the place where the word was switched last.
    pub fn place_of(&self, word: &[u8]) -> Option<FilePlace> {
        for switch in self.switches.as_slice() {
            if switch.word == word {
                return Some(switch.place);
            }
        }
        for setting in self.settings.as_slice() {
            if setting.word == word {
                return Some(setting.place);
            }
        }
        None
    }

    /// Returns the value of a word, if it was given.
    pub fn value_of(&self, word: &[u8]) -> Option<&[u8]> {
        for setting in self.settings.as_slice() {
            if setting.word == word {
                return Some(setting.value.as_slice());
            }
        }
        None
    }

    /// Switches a word alone, and none of those that it implies.
    pub(crate) fn put(
        &mut self,
        word: &'static [u8],
        on: bool,
        place: FilePlace,
    ) -> Result<(), AllocError> {
        self.switches.retain(|switch| switch.word != word);
        self.switches.push(Switch { word, on, place })?;
        Ok(())
    }

    /// Switches a word, by any of its spellings. Returns false if flex doesn't have it.
    pub fn switch(&mut self, name: &[u8], on: bool, place: FilePlace) -> Result<bool, AllocError> {
        let Some((word, sense)) = spelled(name) else {
            return Ok(false);
        };
        let on = on == sense;
        self.put(word, on, place)?;
        for (cause, implied, value) in IMPLIED {
            if on && *cause == word {
                self.put(*implied, *value, place)?;
            }
        }
        if self.unrelated.is_none() && !FOR_PATTERNS.contains(&word) {
            self.unrelated = Some(place);
        }
        Ok(true)
    }

    /// Sets the value of a word. Returns false if there is no such word with a value, or no such form.
    pub fn set(
        &mut self,
        alloc: Global,
        name: &[u8],
        value: &[u8],
        place: FilePlace,
    ) -> Result<bool, AllocError> {
        let Some(word) = word_in(VALUED, name) else {
            return Ok(false);
        };
        if word == b"form".as_slice() && word_in(FORMS, value).is_none() {
            return Ok(false);
        }
        let word: &'static [u8] = if word == b"header".as_slice() {
            b"header-file"
        } else {
            word
        };
        let value = Vec::from_slice(alloc, value)?;
        self.settings.retain(|setting| setting.word != word);
        self.settings.push(Setting { word, value, place })?;
        if self.unrelated.is_none() {
            self.unrelated = Some(place);
        }
        Ok(true)
    }

    /// Returns the words that are on.
    pub fn words_on(&self, alloc: Global) -> Result<Vec<&'static [u8]>, AllocError> {
        let mut words = Vec::new(alloc);
        for word in ON_AT_FIRST {
            if self.is_on(*word) {
                words.push(*word)?;
            }
        }
        for word in OFF_AT_FIRST {
            if self.is_on(*word) {
                words.push(*word)?;
            }
        }
        Ok(words)
    }

    /// Returns the options that patterns are read by.
    pub(crate) fn for_patterns(&self) -> PatternOptions {
        let lex = self.is_on(b"lex-compat");
        PatternOptions {
            fold: self.is_on(b"case-insensitive"),
            posix: lex || self.is_on(b"posix-compat"),
            bare_names: lex,
        }
    }
}

/// Returns the number of bytes of an option word.
fn word_length(text: &[u8]) -> usize {
    let mut count: usize = 0;
    for byte in text {
        if is_blank(*byte) || *byte == b'=' || *byte == b'"' {
            break;
        }
        count = count.saturating_add(1);
    }
    count
}

/// Returns the word without its leading `no`s, and true if it is switched on.
fn sense_of(word: &[u8]) -> (&[u8], bool) {
    let mut rest = word;
    let mut on = true;
    for _ in word {
        if front(2, rest) != b"no".as_slice() {
            break;
        }
        rest = skip(2, rest);
        on = !on;
    }
    (rest, on)
}

/// Returns the word in lower case, as flex takes it.
fn to_small_letters(alloc: Global, word: &[u8]) -> Result<Vec<u8>, AllocError> {
    let mut small = Vec::new(alloc);
    for byte in word {
        small.push(byte.to_ascii_lowercase())?;
    }
    Ok(small)
}

fn skip_blanks(text: &[u8]) -> &[u8] {
    skip(blank_run(text), text)
}

/// Returns the quoted value after a `=`, and the text after it.
fn value_at(text: &[u8]) -> Option<(&[u8], &[u8])> {
    let (equals, more) = skip_blanks(text).split_first()?;
    if *equals != b'=' {
        return None;
    }
    let (quote, value) = skip_blanks(more).split_first()?;
    if *quote != b'"' {
        return None;
    }
    let length = place_of(value, b"\"")?;
    Some((front(length, value), skip(length.saturating_add(1), value)))
}

/// Takes one word of a line with its value. Returns the rest of the line, or `None` if flex has no such word.
fn read_word<'a>(
    alloc: Global,
    text: &'a [u8],
    place: FilePlace,
    options: &mut FlexOptions,
) -> Result<Option<&'a [u8]>, AllocError> {
    let length = word_length(text);
    let rest = skip(length, text);
    let small = to_small_letters(alloc, front(length, text))?;
    if word_in(VALUED, small.as_slice()).is_some() {
        let Some((value, after)) = value_at(rest) else {
            return Ok(None);
        };
        let known = options.set(alloc, small.as_slice(), value, place)?;
        return Ok(if known { Some(after) } else { None });
    }
    let (word, on) = sense_of(small.as_slice());
    Ok(if options.switch(word, on, place)? {
        Some(rest)
    } else {
        None
    })
}

/// Reads the words of a line after `%option`.
pub(crate) fn read_options(
    alloc: Global,
    cursor: &mut TextCursor,
    options: &mut FlexOptions,
    reports: &mut Reports,
) -> Result<(), AllocError>
    ensures { OnOk result (cursor.new.text.now ≡ cursor.old.text.now) }
{
    for _ in cursor.line_rest() {
        cursor.skip_blanks();
        let rest = cursor.line_rest();
        if rest.is_empty() {
            break;
        }
        let place = cursor.place();
        let Some(after) = read_word(alloc, rest, place, options)? else {
            reports.add(place, ImportCause::UnknownOption, true)?;
            break;
        };
        cursor.advance(rest.len().saturating_sub(after.len()));
    }
    cursor.skip_line();
    Ok(())
}
