//! Rejects outputs that would overwrite the input, or one another.

ghost use Rattle.std.specs.Prelude.{◌≡◌, IfErr, OnOk, option_map};
ghost use Rattle.lx_cli.specs.CommandLine.{plain_import};
ghost use Rattle.lx_tool.specs.Outputs.{AreApart, AreImportsApart, AreOutputsOfImportRefused, IsApart, IsOverwritten, IsRefusedFor};
ghost use Rattle.lx_tool.specs.declared.failure.RequestFault.TheVariants.{Outputs};

use crate::failure::{CommandFault, OutputFault, RequestFault};
use crate::target::Targets;
use lx_cli::ImportWords;

// The name of standard output.
const STANDARD_OUTPUT: &str = "-";

fn refusal<'a>(fault: OutputFault<'a>) -> CommandFault<'a>
    ensures { result ≡ CommandFault.Refused (Outputs fault.entry) }
{
    CommandFault::Refused(RequestFault::Outputs(fault))
}

/// Rejects the file of an option if it is the input, which it would overwrite.
pub(crate) fn judge_output<'a, T: Targets>(
    targets: &T,
    option: char,
    output: Option<&'a str>,
    input: &'a str,
) -> Result<(), CommandFault<'a>>
    ensures ok { OnOk result
        (IsApart T.same targets.now (option_map (λ name. name.now) output.entry) input.now) }
    ensures err { IfErr result (IsRefusedFor
        (λ fault. IsOverwritten fault (option_map (λ name. name.now) output.entry) input.now)) }
{
    let Some(output) = output else {
        return Ok(());
    };
    if targets.is_same_file(output, input)? {
        return Err(refusal(OutputFault::Overwritten {
            option,
            output,
            input,
        }));
    }
    Ok(())
}

// Rejects the files of `-o` and `-c` if they are the same.
fn judge_both<'a, T: Targets>(targets: &T, words: &ImportWords<'a>) -> Result<(), CommandFault<'a>>
    ensures ok { OnOk result (AreApart T.same targets.now (plain_import words.now)) }
    ensures err { IfErr result (IsRefusedFor (AreOutputsOfImportRefused (plain_import words.now))) }
{
    let (Some(target), Some(actions)) = (words.target, words.actions) else {
        return Ok(());
    };
    if targets.is_same_file(target, actions)? {
        return Err(refusal(OutputFault::Same { target, actions }));
    }
    Ok(())
}

/// Rejects the outputs of `import` if they are the input or the same file, or if the actions go to standard output.
pub(crate) fn judge_outputs_of_import<'a, T: Targets>(
    targets: &T,
    words: &ImportWords<'a>,
) -> Result<(), CommandFault<'a>>
    ensures ok { OnOk result (AreImportsApart T.same targets.now (plain_import words.now)) }
    ensures err { IfErr result (IsRefusedFor (AreOutputsOfImportRefused (plain_import words.now))) }
{
    if words.actions == Some(STANDARD_OUTPUT) {
        return Err(refusal(OutputFault::ActionsOnOutput));
    }
    judge_output(targets, 'o', words.target, words.rules)?;
    judge_output(targets, 'c', words.actions, words.rules)?;
    judge_both(targets, words)
}
