//! Plans for the tests. Only a lack of memory may prevent one, so this is the only error.

ghost use Rattle.std.specs.Prelude.{◌≡◌, ◌<◌, ◌≤◌, IfOk, length, vec_len};
ghost use Rattle.lx_piece.specs.Plans.{IsPlan, max_items};

use lx_fixtures::{NO_RULES, tables_of};
use lx_piece::{Input, Plan};
use std::alloc::{AllocError, Global};
use std::process::Abort;

/// Makes the plan of run 1 of these files by the tables of a specification.
pub(crate) fn plan_by(
    alloc: Global,
    spec: &str,
    files: Vec<Input>,
    per_piece: u32,
) -> Result<Plan, AllocError>
    requires some_files { 0 < vec_len files }
    requires few_files { vec_len files ≤ 65536 }
    requires some_items { 0 < per_piece }
    requires few_items { per_piece ≤ max_items }
    ensures run { IfOk result (λ plan. plan.run ≡ 1) }
    ensures plan { IfOk result IsPlan }
{
    match tables_of(alloc, spec) {
        Ok(tables) => Ok(Plan::new(tables, files, per_piece, 1)),
        Err(_) => Err(AllocError),
    }
}

/// Returns files with these lengths.
fn inputs_of_lens(alloc: Global, lens: &[usize]) -> Result<Vec<Input>, AllocError>
    ensures { IfOk result (λ inputs. vec_len inputs ≡ length lens.now) }
{
    let mut inputs = Vec::new(alloc);
    for len in lens {
        let bytes = vec![in alloc; b'x'; *len]?;
        inputs.push(Input { bytes, cut: false })?;
    }
    Ok(inputs)
}

/// Makes the plan of run 1 of files with these lengths, each byte of which is an Echo.
pub(crate) fn echo_plan(alloc: Global, lens: &[usize], per_piece: u32) -> Result<Plan, AllocError>
    requires some_files { 0 < length lens.now }
    requires few_files { length lens.now ≤ 65536 }
    requires some_items { 0 < per_piece }
    requires few_items { per_piece ≤ max_items }
    ensures run { IfOk result (λ plan. plan.run ≡ 1) }
    ensures plan { IfOk result IsPlan }
{
    let files = inputs_of_lens(alloc, lens)?;
    plan_by(alloc, NO_RULES, files, per_piece)
}

/// Makes the plan of files of Echoes with these lengths. If an allocation for it fails, the test ends.
pub(crate) fn echoes<R: Abort + AllocGlobal>(rt: &R, lens: &[usize], per_piece: u32) -> Plan
    requires some_files { 0 < length lens.now }
    requires few_files { length lens.now ≤ 65536 }
    requires some_items { 0 < per_piece }
    requires few_items { per_piece ≤ max_items }
    ensures { IsPlan result }
{
    echo_plan(rt.alloc(), lens, per_piece).expect(rt, "memory")
}
