//! Calls that write listings.

ghost use Rattle.lx_piece.specs.Plans.{IsPlan};

use crate::rows::FILE_OF_TWO_WORDS;
use crate::stop::{Stop, end_of_print, refuse_from_here, say_fault, unless_refused};
use lx_fixtures::{THREE_RULES, plan_of, take_first};
use lx_piece::{Plan, Reader, ReaderFault};
use lx_post::RunFault;
use lx_tool::{Listing, print_listing};
use std::alloc::{AllocError, Global};
use std::io;
use std::io::Write;

/// A length that no listing here reaches.
pub(crate) const ROOM: usize = 256;

fn print_part_to(rt: &impl Print, written: &[u8]) -> io::Result<()> {
    let mut out = io::writer(rt);
    let mut begins = true;
    for byte in written {
        if begins {
            out.write_all(b"refused ")?;
        }
        out.write_all(&[*byte])?;
        begins = *byte == b'\n';
    }
    out.write_all(b"refused\n")
}

/// Prints what was written before an allocation failed.
pub(crate) fn print_part(rt: &impl Print, written: &[u8]) -> Result<(), Stop> {
    end_of_print(print_part_to(rt, written))
}

/// Returns memory for a listing.
pub(crate) fn room_for_listing(alloc: Global) -> Result<Vec<u8>, Stop> {
    match Vec::with_capacity(alloc, ROOM) {
        Ok(room) => Ok(room),
        Err(AllocError) => Err(Stop::NotBegun),
    }
}

/// Prints what a run has written, or its fault.
pub(crate) fn print_written(
    rt: &impl Print,
    written: &[u8],
    ended: Result<(), RunFault>,
) -> Result<(), Stop> {
    match ended {
        Ok(()) => end_of_print(io::writer(rt).write_all(written)),
        Err(RunFault::Memory) => Err(Stop::Refused),
        Err(fault) => say_fault(rt, &fault),
    }
}

fn print_listing_into(
    rt: &impl Print,
    alloc: Global,
    plan: &Plan,
    written: &mut Vec<u8>,
) -> Result<(), Stop> {
    let ended = print_listing(alloc, plan, written);
    if ended != Err(RunFault::Memory) {
        return print_written(rt, written, ended);
    }
    print_part(rt, written)?;
    written.clear();
    let ended = print_listing(alloc, plan, written);
    print_written(rt, written, ended)
}

/// Calls `print_listing` with two words and the three rules.
pub(crate) fn prints_listing(rt: &impl Print, alloc: Global) -> Result<(), Stop> {
    let plan = plan_of(alloc, THREE_RULES, FILE_OF_TWO_WORDS, 1)?;
    let mut written = room_for_listing(alloc)?;
    print_listing_into(rt, alloc, &plan, &mut written)
}

// The writer's type is a parameter here and below, since the prover doesn't support a listing over a borrowed local.
fn faults_over<W: Write + Drop>(alloc: Global, plan: &Plan, out: W) -> Result<u64, Stop> {
    match Listing::new(alloc, plan, out) {
        Ok(listing) => Ok(listing.faults()),
        Err(AllocError) => Err(Stop::Refused),
    }
}

fn print_faults(rt: &impl Print, faults: Result<u64, Stop>) -> Result<(), Stop> {
    match faults {
        Ok(faults) => end_of_print(println!(rt; "{faults} faults")),
        Err(stop) => Err(stop),
    }
}

/// Makes a listing over the output, and prints its number of faults.
fn make_listing_once(rt: &impl Print, alloc: Global, plan: &Plan) -> Result<(), Stop> {
    let faults = faults_over(alloc, plan, io::writer(rt));
    print_faults(rt, faults)
}

/// Calls `Listing::new` over the output.
pub(crate) fn makes_listing(rt: &impl Print, alloc: Global) -> Result<(), Stop> {
    let plan = plan_of(alloc, THREE_RULES, FILE_OF_TWO_WORDS, 1)?;
    match unless_refused(rt, make_listing_once(rt, alloc, &plan)) {
        Some(ended) => ended,
        None => make_listing_once(rt, alloc, &plan),
    }
}

/// Gives the only piece to a new listing, which writes its lines.
fn take_once<W: Write + Drop>(
    alloc: Global,
    plan: &Plan,
    written: W,
) -> Result<Result<(), ReaderFault>, Stop>
    requires { IsPlan plan.now }
{
    let Ok(mut listing) = Listing::new(alloc, plan, written) else {
        return Err(Stop::NotBegun);
    };
    match take_first(alloc, plan, &mut listing) {
        Ok(taken) => Ok(taken),
        Err(AllocError) => Err(Stop::NotBegun),
    }
}

/// Prints what was written of a piece, or the fault.
fn print_taken(
    rt: &impl Print,
    written: &[u8],
    taken: Result<(), ReaderFault>,
) -> Result<(), Stop> {
    match taken {
        Ok(()) => end_of_print(io::writer(rt).write_all(written)),
        Err(ReaderFault::Memory) => Err(Stop::Refused),
        Err(fault) => say_fault(rt, &fault),
    }
}

/// Calls `Listing::take` with a piece of two words.
pub(crate) fn takes(rt: &impl Print, alloc: Global) -> Result<(), Stop> {
    let plan = plan_of(alloc, THREE_RULES, FILE_OF_TWO_WORDS, 256)?;
    let mut written = room_for_listing(alloc)?;
    let taken = take_once(alloc, &plan, &mut written)?;
    if taken != Err(ReaderFault::Memory) {
        return print_taken(rt, &written, taken);
    }
    print_part(rt, &written)?;
    written.clear();
    let taken = take_once(alloc, &plan, &mut written)?;
    print_taken(rt, &written, taken)
}

fn faults_unfed<W: Write + Drop>(alloc: Global, plan: &Plan, out: W) -> Result<u64, Stop> {
    let Ok(listing) = Listing::new(alloc, plan, out) else {
        return Err(Stop::NotBegun);
    };
    refuse_from_here(alloc);
    Ok(listing.faults())
}

/// Calls `faults` on a listing.
pub(crate) fn counts_faults(rt: &impl Print, alloc: Global) -> Result<(), Stop> {
    let plan = plan_of(alloc, THREE_RULES, FILE_OF_TWO_WORDS, 1)?;
    let faults = faults_unfed(alloc, &plan, io::writer(rt));
    print_faults(rt, faults)
}
