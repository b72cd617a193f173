//! The command `check`: reports on a specification.

ghost use Rattle.std.specs.Prelude.{◌≡◌, ◌≢◌, ◌<◌, ◌⊎◌, ◌++◌, ⊤, ℕ, List, [], IfOk, IfErr, IfNone, IfSome, OnOk, Some, codes, true, false, if◌then◌else◌};
ghost use Rattle.std.specs.Str.{bytes_eq};
ghost use Rattle.lx_check.specs.Findings.{IfAccepted, IsVerdict, TellsChosen};
ghost use Rattle.lx_report.specs.Said.{TellsVerdict, TellsWarnings};
ghost use Rattle.lx_warnings.specs.Kinds.{has_kind};
ghost use Rattle.lx_warnings.specs.Names.{name_text};
ghost use Rattle.lx_warnings.specs.declared.kinds.WarningKind.{WarningKind};
ghost use Rattle.lx_cli.specs.CommandLine.{plain_check, check as check-asked};
ghost use Rattle.lx_tool.specs.Checking.{IsAccepted, IsAcceptedText, IsReported, IsReportOf, IsWarningFault, NamesNoKind, NamesNoWarning, TellsAccepted, has_error};
ghost use Rattle.lx_tool.specs.Switching.{AreKindsAsked, IsAskedBehind, IsSwitched};
ghost use Rattle.lx_tool.specs.Commands.{HasDone, HasFailed};

use crate::failure::{CommandFault, PrintFault, RequestFault};
use crate::given::read_whole;
use crate::output::write_text;
use crate::source::Sources;
use lx_check::{Report, check};
use lx_cli::{CheckWords, VERSION};
use lx_report::{ReportSubject, Said, report_of, sarif_of};
use lx_warnings::{KindSet, kind_named};
use std::alloc::{AllocError, Global};
use std::io::Write;

// The warnings that are asked for.
#[derive(Clone, Copy, Debug)]
struct Asked {
    kinds: KindSet,
    // True if a warning is an error.
    are_errors: bool,
}

// Adds or removes the warning of this name. Returns `None` if there is none.
fn with_named(asked: Asked, name: &[u8], is_in: bool) -> Option<Asked>
    ensures errors { IfSome result (λ new. new.are_errors ≡ asked.are_errors) }
    ensures kinds { IfSome result (λ new. IsSwitched name.now is_in asked.kinds new.kinds) }
    ensures none { IfNone result ((kind : WarningKind) → name_text kind ≢ name.now) }
{
    let kind = kind_named(name)?;
    Some(Asked {
        kinds: asked.kinds.with(kind, is_in),
        are_errors: asked.are_errors,
    })
}

// Returns the name after `no-`, if the word begins with it.
fn switched_off(word: &[u8]) -> Option<&[u8]>
    ensures some { IfSome result (λ name. word.now ≡ codes "no-" ++ name.now) }
    ensures none { IfNone result ((name : List ℕ) → codes "no-" ++ name ≢ word.now) }
{
    word.strip_prefix(b"no-")
}

// Applies one word of `-W` other than `all` and `error`. Returns `None` if it names no warning.
fn with_kind_word(asked: Asked, word: &[u8]) -> Option<Asked>
    ensures errors { IfSome result (λ new. new.are_errors ≡ asked.are_errors) }
    ensures kinds { IfSome result (λ new. IsAskedBehind word.now asked.kinds new.kinds) }
    ensures none { IfNone result (NamesNoKind word.now) }
{
    match switched_off(word) {
        Some(name) => with_named(asked, name, false),
        None => with_named(asked, word, true),
    }
}

// Applies one word of `-W`. Returns `None` if it names no warning.
fn with_word(asked: Asked, word: &str) -> Option<Asked>
    ensures errors { IfSome result (λ new.
        new.are_errors
        ≡ (if asked.are_errors then true else bytes_eq word.now (codes "error"))) }
    ensures kinds { IfSome result (λ new. IsAskedBehind word.now asked.kinds new.kinds) }
    ensures none { IfNone result (NamesNoWarning word.now) }
{
    if word == "all" {
        return Some(Asked {
            kinds: KindSet::all(),
            are_errors: asked.are_errors,
        });
    }
    if word == "error" {
        return Some(Asked {
            kinds: asked.kinds,
            are_errors: true,
        });
    }
    with_kind_word(asked, word.as_bytes())
}

fn warnings_asked<'a>(words: &CheckWords<'a>) -> Result<Asked, CommandFault<'a>>
    ensures errors { IfOk result
        (λ asked. asked.are_errors ≡ has_error (plain_check words.now).warnings) }
    ensures kinds { IfOk result (λ asked. AreKindsAsked (plain_check words.now) asked.kinds) }
    ensures err { IfErr result (λ failure.
        (fault : RequestFault) × (failure ≡ CommandFault.Refused fault)
        × IsWarningFault (plain_check words.now).warnings fault) }
{
    let mut warnings = Asked {
        kinds: KindSet::usual(),
        are_errors: false,
    };
    for word in &words.warnings {
        match with_word(warnings, word) {
            Some(new) => warnings = new,
            None => return Err(CommandFault::Refused(RequestFault::NoWarning(word))),
        }
    }
    Ok(warnings)
}

fn is_refused(report: &Report) -> bool
    ensures accepted { result ≡ false → IsAccepted report.now }
    ensures refused { result ≡ true → IfAccepted (λ accepted. ⊥) report.now }
{
    match report {
        Report::Refused(_) => true,
        Report::Accepted(_) => false,
    }
}

// Returns the number of the version, which is its first word.
fn version_number() -> &'static str {
    match VERSION.split(" ").next() {
        Some(number) => number,
        None => VERSION,
    }
}

// Makes the output on a text from its report.
fn said_by(
    alloc: Global,
    words: &CheckWords<'_>,
    warnings: Asked,
    text: &[u8],
    report: &Report,
) -> Result<Said, AllocError>
    ensures verdict { IfOk result (λ said.
        words.now.json ≡ false → TellsVerdict words.now.rules.now report.now said.text.items) }
    ensures warnings { IfOk result (λ said.
        words.now.json ≡ false → IfAccepted (λ accepted.
        TellsWarnings words.now.rules.now words.now.quiet (has_kind warnings.kinds)
        said.warnings said.text.items) report.now) }
{
    let subject = ReportSubject {
        file: words.rules.as_bytes(),
        source: text,
        quiet: words.quiet,
        asked: warnings.kinds,
    };
    if words.json {
        sarif_of(alloc, &subject, version_number().as_bytes(), report)
    } else {
        report_of(alloc, &subject, report)
    }
}

// Returns true if warnings are errors and there are some.
fn has_errors(are_errors: bool, warnings: usize) -> bool
    ensures yes { result ≡ true → (are_errors ≡ true) × (0 < warnings) }
    ensures no { result ≡ false → are_errors ≡ true → warnings ≡ 0 }
{
    are_errors && 0 < warnings
}

fn said_of<'a>(
    alloc: Global,
    words: &CheckWords<'_>,
    warnings: Asked,
    text: &[u8],
) -> Result<Vec<u8>, CommandFault<'a>>
    requires errors { warnings.are_errors ≡ has_error (plain_check words.now).warnings }
    requires kinds { AreKindsAsked (plain_check words.now) warnings.kinds }
    ensures ok { IfOk result (λ _. IsAcceptedText words.now.most text.now) }
    ensures tells { IfOk result
        (λ said. words.now.json ≡ false → TellsAccepted (plain_check words.now) said.items) }
    ensures err { IfErr result (λ failure.
        (failure ≡ CommandFault.Memory) ⊎ IsReported (plain_check words.now) text.now failure) }
{
    let report = check(alloc, text, usize::from(words.most))?;
    let said = said_by(alloc, words, warnings, text, &report)?;
    if is_refused(&report) {
        return Err(CommandFault::Unprintable(PrintFault::Reported(said.text)));
    }
    if has_errors(warnings.are_errors, said.warnings) {
        return Err(CommandFault::Unprintable(PrintFault::Reported(said.text)));
    }
    Ok(said.text)
}

// Rejects `--flex`, which is another command if it comes first.
fn judge_flex<'a>(words: &CheckWords<'_>) -> Result<(), CommandFault<'a>>
    ensures ok { OnOk result (words.now.flex ≡ false) }
    ensures err { IfErr result (λ failure.
        (failure ≡ CommandFault.Refused RequestFault.FlexLater) × (words.now.flex ≡ true)) }
{
    if words.flex {
        return Err(CommandFault::Refused(RequestFault::FlexLater));
    }
    Ok(())
}

/// Reports the errors and warnings of a specification. If it is rejected, or has warnings that are errors, the failure carries the output.
pub(crate) fn check_named<'a, S: Sources, O: Write>(
    alloc: Global,
    words: &CheckWords<'a>,
    sources: &mut S,
    out: &mut O,
) -> Result<(), CommandFault<'a>>
    ensures ok { OnOk result (HasDone S.gives sources.old sources.new (O.contents out.old)
        (O.contents out.new) [] (check-asked (plain_check words.now))) }
    ensures err { IfErr result (HasFailed S.gives (Some (check-asked (plain_check words.now)))
        sources.old (O.contents out.old) (O.contents out.new)) }
{
    judge_flex(words)?;
    let warnings = warnings_asked(words)?;
    let text = read_whole(alloc, sources, words.rules)?;
    let said = said_of(alloc, words, warnings, &text)?;
    write_text(&said, out)
}
