//! Gives pieces to readers.

ghost use Rattle.std.specs.Prelude.{◌≡◌, ◌+◌, ◌<◌, ◌≤◌, IfOk, OnErr, replicate};
ghost use Rattle.lx_piece.specs.Plans.{IsPlan, files_of};

use lx_piece::{Cutter, Plan, Reader, ReaderFault};
use std::alloc::{AllocError, Global};

/// Gives the first piece of the first file to a reader that took nothing.
pub fn take_first<R: Reader>(
    alloc: Global,
    plan: &Plan,
    reader: &mut R,
) -> Result<Result<(), ReaderFault>, AllocError>
    requires plan { IsPlan plan.now }
    requires same { R.plan reader.old ≡ plan.now }
    requires counts { R.counts reader.old ≡ replicate (files_of plan.now) 0 }
    requires faults { R.fault_count reader.old < 9 }
    ensures plan { R.plan reader.new ≡ plan.now }
    ensures counts { IfOk result
        (λ taken. OnErr taken (R.counts reader.new ≡ replicate (files_of plan.now) 0)) }
    ensures faults { R.fault_count reader.new ≤ R.fault_count reader.old + 1 }
{
    let mut cutter = Cutter::new(alloc, plan, 0);
    match cutter.next_piece(plan)? {
        Some(piece) => Ok(reader.take(piece)),
        None => Ok(Err(ReaderFault::Memory)),
    }
}
