//! Plans of files by the tables of specifications, and their pieces.

ghost use Rattle.std.specs.Prelude.{◌≡◌, ◌<◌, ◌≤◌, IfOk, length, vec_len};
ghost use Rattle.lx_piece.specs.Plans.{IsPlan, max_items};
ghost use Rattle.lx_piece.specs.Arrivals.{AreHonest};

use crate::rules::{MIXED_FILES, MIXED_RULES};
use lx_auto::{BuildFault, build, merge};
use lx_piece::{Cutter, Input, Piece, Plan};
use lx_spec::{SpecFault, read_spec};
use lx_tables::Tables;
use std::alloc::{AllocError, Global};
use thiserror::Error;

/// Reason why there is no plan.
#[derive(Debug, Drop, Error)]
pub enum NoPlan {
    /// The specification is rejected, or an allocation for it failed.
    #[error("{0}")]
    Specification(#[from] SpecFault),
    /// Its automaton is too large, or an allocation for it failed.
    #[error("{0}")]
    Automaton(#[from] BuildFault),
    #[error("out of memory")]
    Memory(#[from] AllocError),
}

/// Returns the merged tables of a specification.
pub fn tables_of(alloc: Global, spec: &str) -> Result<Tables, NoPlan> {
    let spec = read_spec(alloc, spec.as_bytes())?;
    let automaton = merge(alloc, &build(alloc, &spec)?)?;
    Ok(Tables::of(alloc, &spec, &automaton)?)
}

/// Returns files by their bytes. The flag is true if the reading failed after them.
pub fn inputs(alloc: Global, files: &[(&[u8], bool)]) -> Result<Vec<Input>, AllocError>
    ensures { IfOk result (λ inputs. vec_len inputs ≡ length files.now) }
{
    let mut inputs = Vec::new(alloc);
    for (bytes, cut) in files {
        let bytes = Vec::from_slice(alloc, bytes)?;
        inputs.push(Input { bytes, cut: *cut })?;
    }
    Ok(inputs)
}

/// Returns the plan of run 1 of such files by the tables of a specification.
pub fn plan_of(
    alloc: Global,
    spec: &str,
    files: &[(&[u8], bool)],
    per_piece: u32,
) -> Result<Plan, NoPlan>
    requires some_files { 0 < length files.now }
    requires few_files { length files.now ≤ 65536 }
    requires some_items { 0 < per_piece }
    requires few_items { per_piece ≤ max_items }
    ensures run { IfOk result (λ plan. plan.run ≡ 1) }
    ensures plan { IfOk result IsPlan }
{
    let tables = tables_of(alloc, spec)?;
    Ok(Plan::new(tables, inputs(alloc, files)?, per_piece, 1))
}

/// Returns the plan of the mixed files by the mixed rules.
pub fn mixed_plan(alloc: Global, per_piece: u32) -> Result<Plan, NoPlan>
    requires some_items { 0 < per_piece }
    requires few_items { per_piece ≤ max_items }
    ensures run { IfOk result (λ plan. plan.run ≡ 1) }
    ensures plan { IfOk result IsPlan }
{
    plan_of(alloc, MIXED_RULES, MIXED_FILES.as_slice(), per_piece)
}

/// Returns the pieces of all files of a plan, the last file first.
pub fn last_file_first(alloc: Global, plan: &Plan) -> Result<Vec<Piece>, AllocError>
    ensures { IfOk result (λ pieces. AreHonest plan.now pieces.items) }
{
    let mut pieces = Vec::new(alloc);
    let files = plan.files();
    for index in 0..files {
        let mut cutter = Cutter::new(alloc, plan, files - 1 - index);
        while let Some(piece) = cutter.next_piece(plan)? {
            pieces.push(piece)?;
        }
    }
    Ok(pieces)
}
