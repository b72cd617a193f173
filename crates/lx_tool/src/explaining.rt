//! The command `explain`: prints the meaning of an error code or a cause, or a list of all.

ghost use Rattle.std.specs.Prelude.{◌≡◌, ◌<◌, ◌⊎◌, ◌++◌, ◌∷◌, [], IfOk, IfErr, OnOk, Some, None, nat_eq, true, option_map};
ghost use Rattle.std.specs.Io.KnownBytes.{Appends, Keeps};
ghost use Rattle.std.specs.List.{starts_with};
ghost use Rattle.lx_tool.specs.Explaining.{IsExplained, IsUnexplained};
ghost use Rattle.lx_tool.specs.Statuses.{status_of};
ghost use Rattle.lx_tool.specs.declared.failure.PrintFault.TheVariants.{Unexplained};

use crate::failure::{CommandFault, PrintFault};
use crate::output::write_text;
use crate::suggesting::note_topics;
use lx_diagnose::{all_topics, explain};
use std::alloc::{AllocError, Global};
use std::io::Write;

// Appends the name of a code or a cause, with its first sentence, as a line.
fn push_topic(list: &mut Vec<u8>, topic: &str) -> Result<(), AllocError> {
    let mut lines = topic.trim_start().lines();
    if let Some(name) = lines.next() {
        list.extend_from_slice(name.as_bytes())?;
    }
    if let Some(words) = lines.next() {
        list.extend_from_slice(b": ")?;
        list.extend_from_slice(words.trim_start().as_bytes())?;
    }
    list.push(b'\n')?;
    Ok(())
}

fn list_of_topics(alloc: Global) -> Result<Vec<u8>, AllocError> {
    let mut list = Vec::new(alloc);
    for topic in all_topics() {
        push_topic(&mut list, topic)?;
    }
    Ok(list)
}

fn line_of(alloc: Global, said: &str) -> Result<Vec<u8>, AllocError>
    ensures { IfOk result (λ line. line.items ≡ said.now ++ 10 ∷ []) }
{
    let mut line = Vec::from_slice(alloc, said.as_bytes())?;
    line.push(b'\n')?;
    Ok(line)
}

// Returns the explanation of the word. If there is none, suggests the nearest word in `notes`.
fn said_of<'a>(alloc: Global, word: &str, notes: &mut Vec<u8>) -> Result<Vec<u8>, CommandFault<'a>>
    ensures ok { IfOk result (λ said. starts_with nat_eq said.items word.now ≡ true) }
    ensures err { IfErr result
        (λ failure. (failure ≡ CommandFault.Unprintable Unexplained) ⊎ (failure ≡ CommandFault.Memory)) }
{
    match explain(word) {
        Some(said) => Ok(line_of(alloc, said)?),
        None => {
            note_topics(notes, word);
            Err(CommandFault::Unprintable(PrintFault::Unexplained))
        }
    }
}

/// Prints the meaning of a code or a cause; without a word, prints a line for each of them. Writes further lines for stderr to `notes`.
pub(crate) fn explain_named<'a, O: Write>(
    alloc: Global,
    word: Option<&'a str>,
    notes: &mut Vec<u8>,
    out: &mut O,
) -> Result<(), CommandFault<'a>>
    ensures ok { OnOk result (IsExplained (option_map (λ w. w.now) word.entry) (O.contents out.old)
        (O.contents out.new)) }
    ensures err { IfErr result (λ failure.
        status_of failure < 4 → IsUnexplained (option_map (λ w. w.now) word.entry) failure
        × Keeps (O.contents out.old) (O.contents out.new)) }
{
    let text = match word {
        Some(word) => said_of(alloc, word, notes)?,
        None => list_of_topics(alloc)?,
    };
    write_text(&text, out)
}
