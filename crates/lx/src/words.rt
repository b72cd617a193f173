//! Reads the command-line arguments, of any bytes.

use crate::names::text_of;
use std::alloc::{AllocError, Global};
use std::env::FillError;
use std::rt::Env;

// Size of the first buffer. No file name is longer. A longer argument is read once more.
const FEW_BYTES: usize = 4_096;

// Greatest length of an argument. The system accepts no longer one.
const MOST_BYTES: usize = 131_072;

/// Returns the arguments. One that isn't UTF-8 becomes a text that represents its bytes.
pub fn read_words<R: Env>(rt: &R, alloc: Global) -> Result<Vec<String>, AllocError> {
    let mut words = Vec::new(alloc);
    for i in 0..usize::MAX {
        match read_word(rt, alloc, i)? {
            Some(word) => words.push(word)?,
            None => break,
        }
    }
    Ok(words)
}

// Returns the argument with this number, from 0, or none if there are fewer.
fn read_word<R: Env>(rt: &R, alloc: Global, number: usize) -> Result<Option<String>, AllocError> {
    let mut few = [0u8; FEW_BYTES];
    match rt.arg(number, &mut few) {
        Ok(len) => Ok(Some(text_of(alloc, &few[..len.min(FEW_BYTES)])?)),
        Err(FillError::NotPresent) => Ok(None),
        Err(FillError::TooLong) => read_long_word(rt, alloc, number),
    }
}

fn read_long_word<R: Env>(
    rt: &R,
    alloc: Global,
    number: usize,
) -> Result<Option<String>, AllocError> {
    let mut bytes = vec![in alloc; 0u8; MOST_BYTES]?;
    match rt.arg(number, &mut bytes) {
        Ok(len) => Ok(Some(text_of(alloc, &bytes[..len.min(MOST_BYTES)])?)),
        Err(_) => Err(AllocError),
    }
}

/// Returns true if arguments ask for workers. Only the size of the output buffer depends on it, since a file may have such a name too.
pub fn want_workers(words: &[String]) -> bool {
    words.iter().any(|word| word.as_str() == "scan" || word.as_str().starts_with("-j"))
}
