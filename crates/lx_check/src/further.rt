//! Finds faults of a text after its first one.

ghost use Rattle.std.specs.Prelude.{◌≡◌, ◌-◌, ◌∷◌, [], IfOk, length, option_map};
ghost use Rattle.lx_spec.specs.Whole.{IsFault};
ghost use Rattle.lx_check.specs.Verdicts.{SaysTooLarge};
ghost use Rattle.lx_check.specs.Further.{AreFindings, HasFurther};

use crate::without::mask_fault;
use crate::{TextFault, read};
use lx_spec::SpecFault;
use std::alloc::{AllocError, Global};

// Greatest number of bytes that are read in total.
pub(crate) const MAX_READ_BYTES: usize = 2_000_000;

// Appends the faults that are found in a text, if there is one. Finds at most `most` faults, and reads at most `left` bytes.
fn with_further(
    alloc: Global,
    findings: Vec<TextFault>,
    rest: Option<Vec<u8>>,
    most: usize,
    left: usize,
) -> Result<Vec<TextFault>, AllocError>
    ensures { IfOk result (λ found.
        HasFurther most left (option_map (λ text. text.items) rest) findings.items
        found.items) }
{
    let mut findings = findings;
    let mut rest = rest;
    let mut left = left;
    for _count in 0..most {
        let Some(text) = rest else {
            return Ok(findings);
        };
        if text.len() > left {
            return Ok(findings);
        }
        let Err(fault) = read(alloc, &text)? else {
            return Ok(findings);
        };
        findings.push(TextFault::Specification(fault))?;
        left -= text.len();
        rest = mask_fault(alloc, &text, fault)?;
    }
    Ok(findings)
}

/// Returns the faults of a text whose first fault is given. Masks each fault, and then takes the first one of the resulting text. Returns at most
/// `most` faults, and stops once 2,000,000 bytes were read in total.
pub(crate) fn findings_from(
    alloc: Global,
    text: &[u8],
    fault: SpecFault,
    most: usize,
) -> Result<Vec<TextFault>, AllocError>
    requires { IsFault text.now fault }
    ensures { IfOk result (λ findings. AreFindings most text.now findings.items) }
{
    let mut findings = Vec::new(alloc);
    findings.push(TextFault::Specification(fault))?;
    if most < 2 {
        return Ok(findings);
    }
    let rest = mask_fault(alloc, text, fault)?;
    let left = MAX_READ_BYTES.saturating_sub(text.len());
    with_further(alloc, findings, rest, most.saturating_sub(1), left)
}

/// Returns the fault of a specification that is too large.
pub(crate) fn too_large(
    alloc: Global,
    text: &[u8],
    finding: TextFault,
    most: usize,
) -> Result<Vec<TextFault>, AllocError>
    requires { SaysTooLarge text.now finding }
    ensures { IfOk result (λ findings. AreFindings most text.now findings.items) }
{
    let mut findings = Vec::new(alloc);
    findings.push(finding)?;
    Ok(findings)
}
