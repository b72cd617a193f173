//! The program `lx` over files and the standard streams.
#![tactic(auto)]

mod files;
mod names;
mod output;
mod same_file;
mod targets;
mod words;

use crate::files::FileSources;
use crate::names::ShownNames;
use crate::output::PipeOutput;
use crate::targets::FileTargets;
use crate::words::{read_words, want_workers};
use lx_tool::run_with;
use std::io;
use std::io::{BufWriter, Input, Print, Write};
use std::process::ExitCode;
use std::random::RandomSource;
use std::rt::{Env, Files};
use std::sync::Wait;
use std::thread::Threads;

// Number of output bytes that are buffered if one thread does all the work, so that there are few system calls. The lines of a listing come in writes
// of this size or more, which go to the stream without a copy.
const GATHERED: usize = 65_536;

// Number of output bytes that are buffered if workers make the lines. A block of long lines, which isn't gathered with others, then also goes to the
// stream without a copy.
const GATHERED_OF_WORKERS: usize = 4_096;

// Exit status if the program can't start, because an allocation for the arguments or the buffer failed.
const NO_MEMORY: u8 = 5;

fn main(rt: HostRuntime) -> ExitCode {
    match start(&rt, &mut ShownNames::new(rt.stderr())) {
        Ok(status) => ExitCode::from(status),
        Err(_) => {
            let _ = eprintln!(rt; "lx: out of memory");
            ExitCode::from(NO_MEMORY)
        }
    }
}

// Runs the program over the system's files and streams. The only error is a failed allocation.
fn start<
    R: AllocGlobal + Env + Files + Input + Print + RandomSource + Threads + Wait + Sync,
    E: Write,
>(rt: &R, err: &mut E) -> io::Result<u8> {
    let alloc = rt.alloc();
    let words = read_words(rt, alloc)?;
    let gathered = if want_workers(&words) {
        GATHERED_OF_WORKERS
    } else {
        GATHERED
    };
    let mut out = PipeOutput::new(BufWriter::with_capacity(alloc, gathered, io::writer(rt))?);
    let mut sources = FileSources::new(rt);
    let mut targets = FileTargets::new(rt);
    Ok(run_with(rt, alloc, &words, &mut sources, &mut targets, &mut out, err))
}
