//! Calls a relay of two files, with foreign pieces among theirs.

ghost use Rattle.std.specs.Prelude.{◌≡◌, IfOk, length, replicate};
ghost use Rattle.lx_piece.specs.Plans.{files_of};

use crate::stop::{Stop, end_of_print, say_fault, unless_refused};
use lx_fixtures::{NO_RULES, among_strangers, plan_of};
use lx_piece::{ListArrivals, Piece, Plan, Reader, ReaderFault, RelayFault, Reply, relay};
use std::alloc::{AllocError, Global};

/// A reader that counts the pieces of each file.
#[derive(Drop)]
struct PieceTally<'a> {
    plan: &'a Plan,
    counts: Vec<u64>,
    ghost each_count: { length counts.items ≡ files_of plan.now },
}

/// Returns a tally that has counted nothing.
fn fresh_tally(alloc: Global, plan: &Plan) -> Result<PieceTally<'_>, AllocError>
    ensures plan { IfOk result (λ tally. tally.plan.now ≡ plan.now) }
    ensures counts { IfOk result (λ tally. tally.counts.items ≡ replicate (files_of plan.now) 0) }
{
    Ok(PieceTally {
        plan,
        counts: vec![in alloc; 0; plan.files() as usize]?,
    })
}

impl<'a> Reader for PieceTally<'a> {
    ghost use Rattle.std.specs.Prelude.{ℕ};

    ghost plan = { λ s. s.plan.now };

    ghost counts = { λ s. s.counts.items };

    ghost fault_count = { λ _. 0 };

    ghost follows = { λ _ _. Unit {0} };

    fn take(&mut self, piece: Piece) -> Result<(), ReaderFault> {
        self.counts[piece.file as usize] += 1;
        Ok(())
    }

    fn faults(&self) -> u64 {
        0
    }

    ghost follows_itself = { λ _. tt };

    ghost follows_on = { λ _ _ _ _ _. tt };
}

/// The result of a relay, and the number of pieces that it delivered.
#[derive(Drop)]
struct Relayed {
    answer: Result<Vec<Reply>, RelayFault>,
    counts: Vec<u64>,
}

fn relay_once(alloc: Global, plan: &Plan) -> Result<Relayed, Stop>
    requires run { plan.now.run ≡ 1 }
    requires files { files_of plan.now ≡ 2 }
{
    let Ok(pieces) = among_strangers(alloc, plan) else {
        return Err(Stop::NotBegun);
    };
    let Ok(mut tally) = fresh_tally(alloc, plan) else {
        return Err(Stop::NotBegun);
    };
    let mut arrivals = ListArrivals::new(plan, pieces);
    let answer = relay(alloc, plan, &mut arrivals, &mut tally);
    let PieceTally { plan: _, counts } = tally;
    Ok(Relayed { answer, counts })
}

fn print_counts(rt: &impl Print, counts: &[u64]) -> Result<(), Stop> {
    end_of_print(println!(rt; "taken {counts:?}"))
}

fn print_reply(rt: &impl Print, reply: Reply) -> Result<(), Stop> {
    end_of_print(println!(rt; "{reply:?}"))
}

fn print_replies(rt: &impl Print, replies: &[Reply]) -> Result<(), Stop> {
    for reply in replies {
        print_reply(rt, *reply)?;
    }
    Ok(())
}

/// Relays the pieces, and prints the replies and the number of delivered pieces.
fn relay_and_print(rt: &impl Print, alloc: Global, plan: &Plan) -> Result<(), Stop>
    requires run { plan.now.run ≡ 1 }
    requires files { files_of plan.now ≡ 2 }
{
    let relayed = relay_once(alloc, plan)?;
    match &relayed.answer {
        Ok(replies) => {
            print_replies(rt, replies)?;
            print_counts(rt, &relayed.counts)
        }
        Err(RelayFault::Memory) => Err(Stop::Refused),
        Err(fault) => say_fault(rt, fault),
    }
}

/// Calls `relay` with two empty files among foreign pieces.
pub(crate) fn relays(rt: &impl Print, alloc: Global) -> Result<(), Stop> {
    let plan = plan_of(alloc, NO_RULES, &[(b"", false), (b"", false)], 256)?;
    if plan.files() != 2 {
        return Err(Stop::NotBegun);
    }
    match unless_refused(rt, relay_and_print(rt, alloc, &plan)) {
        Some(ended) => ended,
        None => relay_and_print(rt, alloc, &plan),
    }
}
