//! Ends of a driver, and their output.

use lx_fixtures::NoPlan;
use std::alloc::{AllocError, Global};
use std::fmt::Display;
use std::io;

/// Reason why a driver stopped early.
#[derive(Clone, Copy)]
pub(crate) enum Stop {
    /// An allocation before the call failed.
    NotBegun,
    /// The call returned that an allocation failed.
    Refused,
    /// The output failed.
    Output,
}

// If tables or a plan can't be made, the call isn't begun.
impl From<NoPlan> for Stop {
    fn from(_fault: NoPlan) -> Stop {
        Stop::NotBegun
    }
}

/// Returns the end of a driver whose last act was to print.
pub(crate) fn end_of_print(ended: io::Result<()>) -> Result<(), Stop> {
    match ended {
        Ok(()) => Ok(()),
        Err(_) => Err(Stop::Output),
    }
}

/// Prints a line.
pub(crate) fn say(rt: &impl Print, line: &str) -> Result<(), Stop> {
    end_of_print(println!(rt; "{line}"))
}

/// Prints why a call failed, if it wasn't for lack of memory.
pub(crate) fn say_fault(rt: &impl Print, fault: &impl Display) -> Result<(), Stop> {
    end_of_print(println!(rt; "{fault}"))
}

/// Returns the end of a driver that made its call once. If an allocation failed, reports that and returns None: the call is then made once more.
pub(crate) fn unless_refused(rt: &impl Print, ended: Result<(), Stop>) -> Option<Result<(), Stop>> {
    match ended {
        Err(Stop::Refused) => match say(rt, "refused") {
            Ok(()) => None,
            stopped => Some(stopped),
        },
        ended => Some(ended),
    }
}

/// A number of bytes that nothing else requests.
const LAST_REQUEST: usize = 1_234_567;

/// Requests a marked number of bytes. After this request, `tests/refuse-memory` fails all others. So the driver may request nothing from here on.
pub(crate) fn refuse_from_here(alloc: Global) {
    let block: Result<Vec<u8>, AllocError> = Vec::with_capacity(alloc, LAST_REQUEST);
    drop(block);
}
