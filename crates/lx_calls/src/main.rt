//! Calls a library by the name of a call, so that `./test refuse-memory` can refuse memory to each.
#![tactic(auto)]

mod automata;
mod call;
mod collecting;
mod expressions;
mod listings;
mod posts;
mod readers;
mod relays;
mod rows;
mod sources;
mod stop;
mod threads;

use crate::call::{drive_all, drive_named};
use std::process::ExitCode;
use std::{env, io};

// Exit status if an argument isn't the name of a call, or if the output fails.
const FAILED: u8 = 1;

fn main(rt: HostRuntime) -> ExitCode {
    let ended = match word(&rt) {
        Ok(Some(name)) => drive_named(&rt, rt.alloc(), name.as_str()),
        Ok(None) => drive_all(&rt, rt.alloc()),
        Err(_) => println!(rt; "not begun"),
    };
    match ended {
        Ok(()) => ExitCode::from(0),
        Err(_) => ExitCode::from(FAILED),
    }
}

// Returns the first argument after the program's name.
fn word(rt: &HostRuntime) -> io::Result<Option<String>> {
    let mut words = env::args(rt)?;
    let _program = words.next();
    Ok(words.next())
}
