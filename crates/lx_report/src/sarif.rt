//! Appends findings as SARIF 2.1.0 (OASIS Standard, 27 March 2020). If an allocation fails, a part was appended.

ghost use Rattle.std.specs.Prelude.{◌≡◌, ◌++◌, OnOk, length};
ghost use Rattle.lx_report.specs.Sarif as specs;

use crate::bytes::{push, push_numbered, push_shown, push_string_of_shown, push_uri};
use crate::finding::{Finding, ReportPlace, Severity};
use std::alloc::AllocError;

/// Appends the part before the results. `version` is the program's.
pub fn push_sarif_start(text: &mut Vec<u8>, version: &[u8]) -> Result<(), AllocError>
    ensures { OnOk result (text.new.items ≡ text.old.items ++ specs.start version.now) }
{
    push(
        text,
        b"{\"$schema\":\"https://json.schemastore.org/sarif-2.1.0.json\",\"version\":\"2.1.0\",\"runs\":[{\"tool\":{\"driver\":{\"name\":\"lx\",\"version\":",
    )?;
    push_string_of_shown(text, version)?;
    push(text, b"}},\"results\":[")
}

/// Appends the part after the results.
pub fn push_sarif_end(text: &mut Vec<u8>) -> Result<(), AllocError>
    ensures { OnOk result (text.new.items ≡ text.old.items ++ specs.end) }
{
    push(text, b"]}]}\n")
}

fn push_level(text: &mut Vec<u8>, severity: Severity) -> Result<(), AllocError>
    ensures { OnOk result (text.new.items ≡ text.old.items ++ specs.level severity) }
{
    match severity {
        Severity::Error => push(text, b",\"level\":\"error\""),
        Severity::Warning => push(text, b",\"level\":\"warning\""),
        Severity::Note => push(text, b",\"level\":\"note\""),
    }
}

// Appends the code and the name, with a slash between them if both exist.
fn push_rule(text: &mut Vec<u8>, code: &[u8], name: &[u8]) -> Result<(), AllocError>
    ensures { OnOk result (text.new.items ≡ text.old.items ++ specs.rule code.now name.now) }
{
    push_shown(text, code)?;
    if !code.is_empty() && !name.is_empty() {
        push(text, b"/")?;
    }
    push_shown(text, name)
}

fn push_rule_id(text: &mut Vec<u8>, code: &[u8], name: &[u8]) -> Result<(), AllocError>
    ensures { OnOk result (text.new.items ≡ text.old.items ++ specs.rule_id code.now name.now) }
{
    push(text, b"{\"ruleId\":\"")?;
    push_rule(text, code, name)?;
    push(text, b"\"")
}

fn push_message(text: &mut Vec<u8>, words: &[u8]) -> Result<(), AllocError>
    ensures { OnOk result (text.new.items ≡ text.old.items ++ specs.message words.now) }
{
    push(text, b",\"message\":{\"text\":")?;
    push_string_of_shown(text, words)?;
    push(text, b"}")
}

fn push_artifact(text: &mut Vec<u8>, file: &[u8]) -> Result<(), AllocError>
    ensures { OnOk result (text.new.items ≡ text.old.items ++ specs.artifact file.now) }
{
    push(
        text,
        b",\"locations\":[{\"physicalLocation\":{\"artifactLocation\":{\"uri\":\"",
    )?;
    push_uri(text, file)?;
    push(text, b"\"}")
}

// Appends the columns of a region. The last one is the column after it.
fn push_columns(text: &mut Vec<u8>, column: u64, behind: u64) -> Result<(), AllocError>
    ensures { OnOk result (text.new.items ≡ text.old.items ++ specs.columns column behind) }
{
    if column == 0 {
        return Ok(());
    }
    push_numbered(text, b",\"startColumn\":", column)?;
    push_numbered(text, b",\"endColumn\":", behind)
}

// Returns the column after a place.
fn column_after(place: ReportPlace) -> u64
    ensures { result ≡ specs.behind place }
{
    place.column.saturating_add(place.width.max(1))
}

fn push_region(text: &mut Vec<u8>, place: ReportPlace) -> Result<(), AllocError>
    ensures { OnOk result (text.new.items ≡ text.old.items ++ specs.region place) }
{
    if place.line == 0 {
        return Ok(());
    }
    push_numbered(text, b",\"region\":{\"startLine\":", place.line)?;
    push_columns(text, place.column, column_after(place))?;
    push(text, b"}")
}

/// Appends a finding in the file with this name, as a result. Err: an allocation failed.
pub fn push_result(text: &mut Vec<u8>, file: &[u8], finding: &Finding<'_>) -> Result<(), AllocError>
    ensures { OnOk result (text.new.items
        ≡ text.old.items ++ specs.result_text file.now finding.now.severity finding.now.place
        finding.now.code.now finding.now.words.now finding.now.name.now) }
{
    push_rule_id(text, finding.code, finding.name)?;
    push_level(text, finding.severity)?;
    push_message(text, finding.words)?;
    push_artifact(text, file)?;
    push_region(text, finding.place)?;
    push(text, b"}}]}")
}
