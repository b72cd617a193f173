//! Lists a file by a plain matcher without an automaton, and compares every other way to the items with it.
//!
//! The arguments are the names of the specification and of the file. If a way has other items, the program names it and exits with status 1. If a
//! file can't be read or is rejected, the status is 2.
#![tactic(auto)]

mod choice;
mod comparison;
mod fault;
mod lines;
mod matcher;
mod places;
mod scanner;

use crate::comparison::compare;
use crate::fault::PlainFault;
use crate::lines::lines_of;
use crate::scanner::plain_items;
use lx_spec::read_spec;
use std::io::{Print, Write};
use std::process::ExitCode;
use std::rt::{Env, Files};
use std::{env, fs, io};

fn main(rt: HostRuntime) -> ExitCode {
    let Err(fault) = list(&rt) else {
        return ExitCode::SUCCESS;
    };
    let _ = eprintln!(rt; "lx_plain: {fault}");
    match fault {
        PlainFault::Differs(_) => ExitCode::from(1),
        _ => ExitCode::from(2),
    }
}

/// Lists the file, and compares its items.
fn list<R: AllocGlobal + Env + Files + Print>(rt: &R) -> Result<(), PlainFault> {
    let alloc = rt.alloc();
    let words: Vec<String> = env::args(rt)?.collect(alloc)?;
    let [_, rules, file] = words.as_slice() else {
        return Err(PlainFault::Words);
    };
    let rules = fs::read(rt, rules.as_str())?;
    let text = fs::read(rt, file.as_str())?;
    let spec = read_spec(alloc, &rules)?;
    let items = plain_items(alloc, &spec, &text)?;
    compare(alloc, &spec, &text, &items)?;
    let listing = lines_of(alloc, &spec.kinds, &text, &items)?;
    Ok(io::writer(rt).write_all(listing.as_bytes())?)
}
