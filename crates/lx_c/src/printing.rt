//! A scanner in C and its header, as texts.

ghost use Rattle.lx_c.specs.Declarations.{header_text};
ghost use Rattle.lx_c.specs.Scanner.{arrays_text, c_from, c_text, driver_text, walk_text};
ghost use Rattle.lx_c.specs.Numbers.{max_first_kind};
ghost use Rattle.std.specs.Prelude.{IfOk, OnOk, ◌++◌, ◌≡◌, ◌≤◌};

use crate::actions::push_actions;
use crate::declarations::push_header;
use crate::direct::{push_direct_arrays, push_direct_walk};
use crate::direct_templates::{DIRECT_FIRST_LINE, DIRECT_LAST_LINES, MACROS};
use crate::driver::{CALLS, FURTHER_CALLS, HAS_STEP, HELPERS, NAME_OF_KIND, NAME_OF_NUMBER, WALK};
use crate::first_kind;
use crate::options::Options;
use crate::pushing::{PushResult, push_either, push_filled};
use crate::rows::push_automaton;
use crate::templates::{FIRST_LINE, LAST_LINES};
use lx_tables::Tables;
use std::alloc::{AllocError, Global};

fn push_arrays(text: &mut Vec<u8>, options: &Options, tables: &Tables) -> PushResult
    ensures { OnOk result (text.new.items ≡ text.old.items ++ arrays_text options.now tables.now) }
{
    if options.is_direct() {
        push_direct_arrays(text, options, tables)
    } else {
        push_automaton(text, options, tables)
    }
}

fn push_walk(text: &mut Vec<u8>, options: &Options, tables: &Tables) -> PushResult
    ensures { OnOk result (text.new.items ≡ text.old.items ++ walk_text options.now tables.now) }
{
    if options.is_direct() {
        push_direct_walk(text, options, tables)
    } else {
        push_filled(text, options, WALK)
    }
}

fn push_driver(text: &mut Vec<u8>, options: &Options, tables: &Tables) -> PushResult
    ensures { OnOk result (text.new.items ≡ text.old.items ++ driver_text options.now tables.now) }
{
    push_filled(text, options, HELPERS)?;
    push_either(text, options, options.is_direct(), MACROS, HAS_STEP)?;
    push_filled(text, options, CALLS)?;
    push_walk(text, options, tables)?;
    push_filled(text, options, FURTHER_CALLS)?;
    push_either(
        text,
        options,
        options.has_include(),
        NAME_OF_KIND,
        NAME_OF_NUMBER,
    )?;
    push_either(
        text,
        options,
        options.is_direct(),
        DIRECT_LAST_LINES,
        LAST_LINES,
    )
}

fn push_scanner(text: &mut Vec<u8>, options: &Options, first: u64, tables: &Tables) -> PushResult
    requires { first ≤ max_first_kind }
    ensures { OnOk result (text.new.items ≡ text.old.items ++ c_from options.now first tables.now) }
{
    push_either(
        text,
        options,
        options.is_direct(),
        DIRECT_FIRST_LINE,
        FIRST_LINE,
    )?;
    push_header(text, options, first, tables)?;
    push_actions(text, options, first, tables)?;
    push_arrays(text, options, tables)?;
    push_driver(text, options, tables)
}

/// Returns a scanner in C. Err: memory was refused.
pub fn scanner_of(alloc: Global, tables: &Tables, options: &Options) -> Result<Vec<u8>, AllocError>
    ensures { IfOk result (λ text. text.items ≡ c_text options.now tables.now) }
{
    let mut text = Vec::new(alloc);
    push_scanner(&mut text, options, first_kind(tables), tables)?;
    Ok(text)
}

/// Returns the declarations of a scanner in C. Err: memory was refused.
pub fn header_of(alloc: Global, tables: &Tables, options: &Options) -> Result<Vec<u8>, AllocError>
    ensures { IfOk result (λ text. text.items ≡ header_text options.now tables.now) }
{
    let mut text = Vec::new(alloc);
    push_header(&mut text, options, first_kind(tables), tables)?;
    Ok(text)
}
