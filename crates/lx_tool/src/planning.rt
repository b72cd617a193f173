//! Lists files by tables.

ghost use Rattle.std.specs.Prelude.{◌≡◌, ◌<◌, ◌≤◌, ℕ, IfOk, List, Option, OnOk, OnErr, map, vec_len};
ghost use Rattle.lx_piece.specs.Plans.{PlainInput, input_view, max_files, max_items, max_workers};
ghost use Rattle.lx_tables.specs.Model.{Table, IsTable};
ghost use Rattle.lx_tables.specs.Reading.{IsTextOf};
ghost use Rattle.lx_forms.specs.Views.{form_view};
ghost use Rattle.lx_tool.specs.Planning.{AreBytes, ListsBy, ListsByRules, ListsIn, ListsPrefixBy, ListsPrefixIn};
ghost use Rattle.lx_tool.specs.Tabling.{AreTablesOfText};

use lx_forms::{Form, bare_listings_are_listings, list_plan_in};
use lx_listing::{LineWrites, list_plan};
use lx_piece::{Input, Plan};
use lx_post::RunFault;
use lx_scan::ruling::items_are_by_rules;
use lx_tables::Tables;
use lx_tables::uniqueness::texts_are_one_to_one;
use std::alloc::{AllocError, Global};
use std::io::Write;
use std::sync::Wait;
use std::thread::Threads;

// Run number that all pieces of this program carry.
const RUN: u64 = 1;

/// Writes the lines of the files' items by the tables, with `per_piece` items a piece. Writes all of them, or after a fault a prefix, possibly empty.
/// 1 to 8 workers scan the files, or with 0 the calling thread.
pub fn list_files<T: Threads + Wait + Sync, W: Write>(
    rt: &T,
    alloc: Global,
    tables: Tables,
    files: Vec<Input>,
    per_piece: u32,
    workers: u8,
    writes: LineWrites,
    out: &mut W,
) -> Result<(), RunFault>
    requires some_files { 0 < vec_len files }
    requires few_files { vec_len files ≤ max_files }
    requires some_items { 0 < per_piece }
    requires few_items { per_piece ≤ max_items }
    requires few_workers { workers ≤ max_workers }
    ensures ok { OnOk result
        (ListsBy tables (map input_view files.items) (W.contents out.old) (W.contents out.new)) }
    ensures err { OnErr result (ListsPrefixBy tables (map input_view files.items)
        (W.contents out.old) (W.contents out.new)) }
{
    let plan = Plan::new(tables, files, per_piece, RUN);
    list_plan(rt, alloc, &plan, workers, writes, out)
}

/// Does the same as `list_files`, in a form.
pub fn list_files_in<T: Threads + Wait + Sync, W: Write>(
    rt: &T,
    alloc: Global,
    tables: Tables,
    files: Vec<Input>,
    per_piece: u32,
    workers: u8,
    form: &Form<'_>,
    writes: LineWrites,
    out: &mut W,
) -> Result<(), RunFault>
    requires some_files { 0 < vec_len files }
    requires few_files { vec_len files ≤ max_files }
    requires some_items { 0 < per_piece }
    requires few_items { per_piece ≤ max_items }
    requires few_workers { workers ≤ max_workers }
    ensures ok { OnOk result (ListsIn (form_view form.now) tables (map input_view files.items)
        (W.contents out.old) (W.contents out.new)) }
    ensures err { OnErr result (ListsPrefixIn (form_view form.now) tables
        (map input_view files.items) (W.contents out.old) (W.contents out.new)) }
{
    let plan = Plan::new(tables, files, per_piece, RUN);
    if form.is_bare() {
        bare_listings_are_listings();
        return list_plan(rt, alloc, &plan, workers, writes, out);
    }
    list_plan_in(rt, alloc, &plan, workers, form, writes, out)
}

/// Makes a plan of one empty file. Only its tables count.
pub(crate) fn plan_of_tables(alloc: Global, tables: Tables) -> Result<Plan, AllocError>
    ensures { IfOk result (λ plan. plan.table ≡ tables) }
{
    let empty = Input {
        bytes: Vec::new(alloc),
        cut: false,
    };
    let files = vec![in alloc; empty]?;
    Ok(Plan::new(tables, files, 1, RUN))
}

/// States a law: a listing by the tables of a specification's text has the items by its rules.
pub fn listings_are_by_rules()
    ensures { (text : List ℕ) (table : Table) (inputs : List PlainInput) (old new : Option (List ℕ)) → IsTable table → AreTablesOfText text table →
        AreBytes inputs → ListsBy table inputs old new → ListsByRules text inputs old new }
{
    items_are_by_rules();
}

/// States a law: printed in either version and read again, the tables of a specification's text also list the items by its rules.
pub fn printed_tables_list_by_rules()
    ensures { (text printed : List ℕ) (table again : Table) (inputs : List PlainInput) (old new : Option (List ℕ)) → IsTable table → AreTablesOfText text table →
        IsTextOf table printed → IsTable again → IsTextOf again printed → AreBytes inputs → ListsBy again inputs old new → ListsByRules text inputs old new }
{
    listings_are_by_rules();
    texts_are_one_to_one();
}
