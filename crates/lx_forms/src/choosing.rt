//! Chooses kinds by a text: names and numbers of kinds as a listing shows them, with commas between.

ghost use Rattle.std.specs.Prelude.{◌≡◌, ◌≢◌, ◌++◌, [], true, All, OnOk, IfOk, IfErr, decimal, map};
ghost use Rattle.std.specs.List.{filter, flat_map};
ghost use Rattle.lx_forms.specs.NameLists.{IsListOf};
ghost use Rattle.lx_forms.specs.Choosing.{IsChosen, IsNoWords, IsRefusedChoice, IsUnknownAmong, is_kind_word, is_one_of, number_of_step, numbers_of};

use crate::name_list::{NameListFault, push_names};
use crate::selection::Selection;
use itoa::Buffer;
use lx_rules::rule::{Kind, Step};
use lx_tables::Tables;
use std::alloc::{AllocError, Global};

/// Reason why a text chooses no kinds.
#[derive(Clone, Copy, Debug, PartialEq, Eq)]
pub enum ChoiceFault<'a> {
    /// No action of the tables returns a kind with this name or number.
    NoKind(&'a str),
    /// The list is empty, or a word in it is.
    NoName,
    /// An allocation failed.
    Memory,
}

impl From<AllocError> for ChoiceFault<'_> {
    ghost use Rattle.std.specs.Prelude.{◌≡◌};
    ghost use Rattle.lx_forms.specs.declared.choosing.ChoiceFault.{ChoiceFault};

    ghost from_gives = { λ _ fault. fault ≡ ChoiceFault.Memory };

    fn from(_error: AllocError) -> Self {
        ChoiceFault::Memory
    }
}

// Returns true if a text is one of these words.
fn is_one_of(words: &[&str], text: &[u8]) -> bool
    ensures { result ≡ is_one_of (map (λ word. word.now) words.now) text.now }
{
    for word in words {
        if word.as_bytes() == text {
            return true;
        }
    }
    false
}

// Returns true if a number, in decimal, is one of these words.
fn is_number_among(words: &[&str], number: u32) -> bool
    ensures { result ≡ is_one_of (map (λ word. word.now) words.now) (decimal number) }
{
    let mut buffer = Buffer::new();
    is_one_of(words, buffer.format(number).as_bytes())
}

// Appends the numbers that steps return.
fn push_numbers(numbers: &mut Vec<u32>, steps: &[Step]) -> Result<(), AllocError>
    ensures { OnOk result
        (numbers.new.items ≡ numbers.old.items ++ flat_map number_of_step steps.now) }
{
    for step in steps {
        if let Step::Return(Kind::Number(number)) = step {
            numbers.push(*number)?;
        }
    }
    Ok(())
}

// Collects the numbers that actions of the tables return as kinds.
fn numbers_of(alloc: Global, tables: &Tables) -> Result<Vec<u32>, AllocError>
    ensures { IfOk result (λ numbers. numbers.items ≡ numbers_of tables.now) }
{
    let mut numbers = Vec::new(alloc);
    for rule in 0..tables.rules() {
        push_numbers(&mut numbers, tables.steps(rule))?;
    }
    Ok(numbers)
}

// Returns true if the tables have a kind with this name.
fn is_name(tables: &Tables, word: &str) -> bool
    ensures { result ≡ is_one_of tables.now.kinds word.now }
{
    for kind in 0..tables.kinds() {
        if tables.kind(kind) == word.as_bytes() {
            return true;
        }
    }
    false
}

// Returns true if a word is one of these numbers in decimal.
fn is_number(numbers: &[u32], word: &str) -> bool
    ensures { result ≡ is_one_of (map decimal numbers.now) word.now }
{
    for number in numbers {
        let mut buffer = Buffer::new();
        if buffer.format(*number) == word {
            return true;
        }
    }
    false
}

// Returns true if a word is `-` for echoes, the name of a kind, or the number of one.
fn is_kind_word(tables: &Tables, numbers: &[u32], word: &str) -> bool
    requires { numbers.now ≡ numbers_of tables.now }
    ensures { result ≡ is_kind_word tables.now word.now }
{
    word == "-" || is_name(tables, word) || is_number(numbers, word)
}

// Rejects the first word that is none of these.
fn judge_words<'a>(
    tables: &Tables,
    numbers: &[u32],
    words: &[&'a str],
) -> Result<(), ChoiceFault<'a>>
    requires { numbers.now ≡ numbers_of tables.now }
    ensures ok { OnOk result
        (All (λ word. is_kind_word tables.now word ≡ true) (map (λ word. word.now) words.now)) }
    ensures err { IfErr result
        (λ fault. IsUnknownAmong tables.now (map (λ word. word.now) words.now) fault) }
{
    for word in words {
        if !is_kind_word(tables, numbers, word) {
            return Err(ChoiceFault::NoKind(word));
        }
    }
    Ok(())
}

// Makes a list with an entry for each named kind: true if its name is one of these words.
fn names_among(alloc: Global, tables: &Tables, words: &[&str]) -> Result<Vec<bool>, AllocError>
    ensures { IfOk result (λ names.
        names.items ≡ map (is_one_of (map (λ word. word.now) words.now)) tables.now.kinds) }
{
    let mut names = Vec::new(alloc);
    for kind in 0..tables.kinds() {
        names.push(is_one_of(words, tables.kind(kind)))?;
    }
    Ok(names)
}

// Keeps the numbers that are among these words.
fn numbers_among(alloc: Global, numbers: &[u32], words: &[&str]) -> Result<Vec<u32>, AllocError>
    ensures { IfOk result (λ among.
        among.items ≡ filter (λ n. is_one_of (map (λ word. word.now) words.now) (decimal n))
        numbers.now) }
{
    let mut among = Vec::new(alloc);
    for number in numbers {
        if is_number_among(words, *number) {
            among.push(*number)?;
        }
    }
    Ok(among)
}

// Reads the words of a list. There is at least one.
fn words_of<'a>(alloc: Global, text: &'a str) -> Result<Vec<&'a str>, ChoiceFault<'a>>
    ensures ok { IfOk result
        (λ words. IsListOf 44 text.now (map (λ word. word.now) words.items) × (words.items ≢ [])) }
    ensures err { IfErr result (λ fault. IsNoWords text.now fault) }
{
    let mut words = Vec::new(alloc);
    match push_names(&mut words, text.as_bytes(), b',', usize::MAX) {
        Ok(()) if words.is_empty() => Err(ChoiceFault::NoName),
        Ok(()) => Ok(words),
        Err(NameListFault::NoName(_)) => Err(ChoiceFault::NoName),
        Err(NameListFault::TooMany | NameListFault::Memory) => Err(ChoiceFault::Memory),
    }
}

/// Returns the selection of the items whose kind a listing shows by one of the words of the text. The words are names and numbers of kinds, and `-`
/// for echoes, with a comma between each two.
pub fn choose<'a>(
    alloc: Global,
    tables: &Tables,
    text: &'a str,
) -> Result<Selection, ChoiceFault<'a>>
    ensures ok { IfOk result (λ selection. IsChosen tables.now text.now selection) }
    ensures err { IfErr result (λ fault. IsRefusedChoice tables.now text.now fault) }
{
    let words = words_of(alloc, text)?;
    let numbers = numbers_of(alloc, tables)?;
    judge_words(tables, &numbers, &words)?;
    Ok(Selection::new(
        names_among(alloc, tables, &words)?,
        numbers_among(alloc, &numbers, &words)?,
        is_one_of(&words, b"-"),
    ))
}
