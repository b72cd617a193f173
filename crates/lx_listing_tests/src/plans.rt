//! Plans, their listings, and texts. If an allocation for one fails, the test ends.

ghost use Rattle.std.specs.Prelude.{◌<◌, ◌≤◌, length};
ghost use Rattle.lx_piece.specs.Plans.{IsPlan, max_items};

use lx_fixtures::{mixed_plan, plan_of};
use lx_piece::Plan;
use lx_tool::print_listing;
use std::process::Abort;

/// Makes the plan of such files by the tables of a specification.
pub(crate) fn made<R: Abort + AllocGlobal>(
    rt: &R,
    spec: &str,
    files: &[(&[u8], bool)],
    per_piece: u32,
) -> Plan
    requires some_files { 0 < length files.now }
    requires few_files { length files.now ≤ 65536 }
    requires some_items { 0 < per_piece }
    requires few_items { per_piece ≤ max_items }
    ensures { IsPlan result }
{
    plan_of(rt.alloc(), spec, files, per_piece).expect(rt, "a plan")
}

/// Makes the plan of the mixed files by the mixed rules.
pub(crate) fn mixed_files<R: Abort + AllocGlobal>(rt: &R, per_piece: u32) -> Plan
    requires some_items { 0 < per_piece }
    requires few_items { per_piece ≤ max_items }
    ensures { IsPlan result }
{
    mixed_plan(rt.alloc(), per_piece).expect(rt, "a plan")
}

/// Returns the listing of a plan's files by one thread.
pub(crate) fn listing_of<R: Abort + AllocGlobal>(rt: &R, plan: &Plan) -> Vec<u8> {
    let mut out = Vec::new(rt.alloc());
    print_listing(rt.alloc(), plan, &mut out).expect(rt, "a listing");
    out
}

/// Appends bytes.
pub(crate) fn put(rt: &impl Abort, out: &mut Vec<u8>, bytes: &[u8]) {
    out.extend_from_slice(bytes).expect(rt, "memory");
}

/// Appends bytes `times` times.
pub(crate) fn put_times(rt: &impl Abort, out: &mut Vec<u8>, bytes: &[u8], times: u32) {
    for _ in 0..times {
        put(rt, out, bytes);
    }
}
