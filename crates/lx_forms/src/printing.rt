//! Lists a plan's files in a form, by workers or on the calling thread.

ghost use Rattle.std.specs.Prelude.{◌≡◌, ◌≤◌, OnOk, OnErr};
ghost use Rattle.std.specs.Io.KnownBytes.{Appends};
ghost use Rattle.lx_piece.specs.Plans.{max_workers};
ghost use Rattle.lx_listing.specs.Appending.{AppendsPrefix};
ghost use Rattle.lx_forms.specs.FormListings.{listing_in};
ghost use Rattle.lx_forms.specs.Views.{form_view};

use crate::form::Form;
use crate::style::FormStyle;
use lx_listing::{LineWrites, list_plan_by};
use lx_piece::Plan;
use lx_post::RunFault;
use std::alloc::Global;
use std::io::Write;
use std::sync::Wait;
use std::thread::Threads;

/// Writes the listing of a plan's files in a form, the lines of each file in order and the files in order. 1 to 8 workers scan them, or with 0 the
/// calling thread. Each line is written by itself, or many are gathered and written at once. After a fault, a prefix of the listing was written.
pub fn list_plan_in<T: Threads + Wait + Sync, W: Write>(
    rt: &T,
    alloc: Global,
    plan: &Plan,
    workers: u8,
    form: &Form<'_>,
    writes: LineWrites,
    out: &mut W,
) -> Result<(), RunFault>
    requires { workers ≤ max_workers }
    ensures ok { OnOk result (Appends (W.contents out.old) (W.contents out.new)
        (listing_in (form_view form.now) plan.now)) }
    ensures err { OnErr result (AppendsPrefix (W.contents out.old) (W.contents out.new)
        (listing_in (form_view form.now) plan.now)) }
{
    list_plan_by(rt, alloc, plan, workers, FormStyle { form }, writes, out)
}
