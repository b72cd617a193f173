//! Puts a cause into words.

ghost use Rattle.std.specs.Prelude.{◌≡◌, ◌<◌, ◌++◌, IfOk, OnOk, decimal, length};
ghost use Rattle.lx_diagnose.specs.Printed as specs;
ghost use Rattle.lx_diagnose.specs.Printed.{ArePrinted};

use crate::diagnosing::Diagnosis;
use crate::lines::line_number;
use crate::phrases::phrase_of;
use crate::scan::part;
use crate::topic::topic_of;
use crate::words_of;
use itoa::Buffer;
use std::alloc::{AllocError, Global};

// Greatest number of bytes of a name that are shown.
const MAX_NAME_BYTES: usize = 64;

/// The parts that fill a phrase.
#[derive(Clone, Copy)]
pub struct Fillings<'t> {
    pub name: &'t [u8],
    pub other: &'t [u8],
    pub line: u32,
}

fn is_printed(byte: u8) -> bool
    ensures { result ≡ specs.is_printed byte }
{
    32 <= byte && byte < 127
}

fn digit(n: u8) -> u8
    requires { n < 16 }
    ensures { result ≡ specs.digit n }
{
    if n < 10 { b'0' + n } else { b'A' + (n - 10) }
}

// Appends a printable byte unchanged, and any other one as `\xHH`.
fn push_byte(text: &mut Vec<u8>, byte: u8) -> Result<(), AllocError>
    ensures { OnOk result (text.new.items ≡ text.old.items ++ specs.escaped byte) }
{
    if is_printed(byte) {
        return text.extend_from_slice(&[byte]);
    }
    text.extend_from_slice(b"\\x")?;
    text.extend_from_slice(&[digit(byte / 16), digit(byte % 16)])
}

fn push_printed_byte(text: &mut Vec<u8>, byte: u8) -> Result<(), AllocError>
    ensures value { OnOk result (text.new.items ≡ text.old.items ++ specs.escaped byte) }
    ensures printed { OnOk result (ArePrinted text.old.items → ArePrinted text.new.items) }
{
    push_byte(text, byte)
}

fn push_printed(text: &mut Vec<u8>, bytes: &[u8]) -> Result<(), AllocError>
    ensures value { OnOk result (text.new.items ≡ text.old.items ++ specs.shown bytes.now) }
    ensures printed { OnOk result (ArePrinted text.old.items → ArePrinted text.new.items) }
{
    for byte in bytes {
        push_printed_byte(text, *byte)?;
    }
    Ok(())
}

// Appends a name. Of a name longer than `most`, only the first bytes are shown.
#[tactic(auto, unfolding(crate::specs::Printed::shown_name))]
fn push_name(text: &mut Vec<u8>, name: &[u8], most: usize) -> Result<(), AllocError>
    ensures value { OnOk result
        (text.new.items ≡ text.old.items ++ specs.shown_name most name.now) }
    ensures printed { OnOk result (ArePrinted text.old.items → ArePrinted text.new.items) }
{
    if name.len() <= most {
        return push_printed(text, name);
    }
    push_printed(text, &name[..most])?;
    push_printed(text, b"..")
}

fn push_line(text: &mut Vec<u8>, line: u32) -> Result<(), AllocError>
    ensures value { OnOk result (text.new.items ≡ text.old.items ++ specs.shown (decimal line)) }
    ensures printed { OnOk result (ArePrinted text.old.items → ArePrinted text.new.items) }
{
    let mut digits = Buffer::new();
    push_printed(text, digits.format(line).as_bytes())
}

// Appends a byte of a phrase, or the part that replaces it.
#[tactic(auto, unfolding(crate::specs::Printed::filling))]
fn push_filled(text: &mut Vec<u8>, byte: u8, fillings: &Fillings) -> Result<(), AllocError>
    ensures value { OnOk result (text.new.items ≡ text.old.items
        ++ specs.filling fillings.now.name.now fillings.now.other.now fillings.now.line
        byte) }
    ensures printed { OnOk result (ArePrinted text.old.items → ArePrinted text.new.items) }
{
    if byte == b'@' {
        push_name(text, fillings.name, MAX_NAME_BYTES)
    } else if byte == b'~' {
        push_name(text, fillings.other, MAX_NAME_BYTES)
    } else if byte == b'#' {
        push_line(text, fillings.line)
    } else {
        push_printed_byte(text, byte)
    }
}

fn push_phrase(text: &mut Vec<u8>, phrase: &[u8], fillings: &Fillings) -> Result<(), AllocError>
    ensures value { OnOk result (text.new.items ≡ text.old.items
        ++ specs.filled fillings.now.name.now fillings.now.other.now fillings.now.line
        phrase.now) }
    ensures printed { OnOk result (ArePrinted text.old.items → ArePrinted text.new.items) }
{
    for byte in phrase {
        push_filled(text, *byte, fillings)?;
    }
    Ok(())
}

/// Returns bytes as they are shown. Err: an allocation failed.
pub fn shown_bytes(alloc: Global, bytes: &[u8]) -> Result<Vec<u8>, AllocError>
    ensures value { IfOk result (λ words. words.items ≡ specs.shown bytes.now) }
    ensures printed { IfOk result (λ words. ArePrinted words.items) }
{
    let mut words = Vec::new(alloc);
    push_printed(&mut words, bytes)?;
    Ok(words)
}

/// Fills a phrase.
pub fn fill(alloc: Global, phrase: &[u8], fillings: &Fillings) -> Result<Vec<u8>, AllocError>
    ensures value { IfOk result (λ words.
        words.items
        ≡ specs.filled fillings.now.name.now fillings.now.other.now fillings.now.line
        phrase.now) }
    ensures printed { IfOk result (λ words. ArePrinted words.items) }
{
    let mut words = Vec::new(alloc);
    push_phrase(&mut words, phrase, fillings)?;
    Ok(words)
}

/// Returns the words, or `?` if they are empty.
pub fn or_question_mark(mut words: Vec<u8>) -> Result<Vec<u8>, AllocError>
    requires { ArePrinted words.items }
    ensures printed { IfOk result (λ told. ArePrinted told.items) }
    ensures some { IfOk result (λ told. 0 < length told.items) }
{
    if words.is_empty() {
        words.push(b'?')?;
    }
    Ok(words)
}

/// Puts a diagnosis of a text into one line, without a newline. Shows bytes of the text outside 32 to 126 as `\xHH`. Err: an allocation failed.
pub fn sentence(alloc: Global, diagnosis: &Diagnosis, text: &[u8]) -> Result<Vec<u8>, AllocError>
    ensures printed { IfOk result (λ words. ArePrinted words.items) }
    ensures some { IfOk result (λ words. 0 < length words.items) }
{
    let phrase = phrase_of(diagnosis.cause).as_bytes();
    if phrase.is_empty() {
        let said = words_of(topic_of(diagnosis.cause));
        let words = shown_bytes(alloc, said.as_bytes())?;
        return or_question_mark(words);
    }
    let fillings = Fillings {
        name: part(text, diagnosis.name),
        other: part(text, diagnosis.other),
        line: line_number(text, diagnosis.other.start),
    };
    let words = fill(alloc, phrase, &fillings)?;
    or_question_mark(words)
}
