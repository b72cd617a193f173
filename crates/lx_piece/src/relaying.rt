//! Delivers in order the pieces that arrive in any order.

ghost use Rattle.std.specs.Prelude.{◌≡◌, OnOk, OnErr, IfOk};
ghost use Rattle.lx_piece.specs.Relayed.{Relayed, RelayedBy, RelayedInPart, RelayedInPartBy, TellsRelayFaults, TookNothing};

use crate::arrivals::Arrivals;
use crate::arrivals_of::ArrivalsOf;
use crate::{
    Collector, KeepItems, Maker, Plan, Reader, ReaderOf, RelayFault, Reply, deliver_all, offer_to,
};
use std::alloc::Global;

/// Offers each arrival to a collector, and delivers to the reader at once all that is ready. The reader gets the pieces of each file in order, each
/// once. The reply to each arrival takes the earlier arrivals into account.
pub fn relay<A: Arrivals, R: Reader>(
    alloc: Global,
    plan: &Plan,
    arrivals: &mut A,
    reader: &mut R,
) -> Result<Vec<Reply>, RelayFault>
    requires arrivals_plan { A.plan arrivals.old ≡ plan.now }
    requires reader { TookNothing plan.now (R.plan reader.old) (R.counts reader.old)
        (R.fault_count reader.old) }

    // All arrivals came. The replies are those to the list of arrivals. Of each file the reader took the pieces below the least number that wasn't
    // accepted.
    ensures ended { OnOk result (A.has_ended arrivals.new) }
    ensures ok { IfOk result (λ replies.
        Relayed plan.now (λ came. A.leads arrivals.old came arrivals.new) replies.items
        (R.counts reader.new)) }

    // After a fault the reader took at most the ready pieces of the arrivals that came. It took all those that were ready before the last arrival,
    // because each ready piece is delivered before the next arrival comes.
    ensures err { OnErr result (RelayedInPart plan.now
        (λ came. A.leads arrivals.old came arrivals.new) (R.counts reader.new)) }
    ensures follows { R.follows reader.old reader.new }
    ensures plan { R.plan reader.new ≡ R.plan reader.old }
    ensures arrivals_plan { A.plan arrivals.new ≡ A.plan arrivals.old }
    ensures faults { TellsRelayFaults result (R.fault_count reader.old)
        (R.fault_count reader.new) }
{
    relay_of::<KeepItems, A, R>(alloc, plan, arrivals, reader)
}

/// Does the same as `relay` for pieces that carry what a maker made of their items. Informs the arrivals, after each one, of what the reader holds.
pub fn relay_of<M: Maker, A: ArrivalsOf<M>, R: ReaderOf<M>>(
    alloc: Global,
    plan: &Plan,
    arrivals: &mut A,
    reader: &mut R,
) -> Result<Vec<Reply>, RelayFault>
    requires arrivals_plan { A.plan arrivals.old ≡ plan.now }
    requires reader { TookNothing plan.now (R.plan reader.old) (R.counts reader.old)
        (R.fault_count reader.old) }

    // All arrivals came. The replies are those to the list of arrivals. Of each file the reader took the pieces below the least number that wasn't
    // accepted.
    ensures ended { OnOk result (A.has_ended arrivals.new) }
    ensures ok { IfOk result (λ replies.
        RelayedBy M.made plan.now (λ came. A.leads arrivals.old came arrivals.new) replies.items
        (R.counts reader.new)) }

    // After a fault the reader took at most the ready pieces of the arrivals that came. It took all those that were ready before the last arrival,
    // because each ready piece is delivered before the next arrival comes.
    ensures err { OnErr result (RelayedInPartBy M.made plan.now
        (λ came. A.leads arrivals.old came arrivals.new) (R.counts reader.new)) }
    ensures follows { R.follows reader.old reader.new }
    ensures plan { R.plan reader.new ≡ R.plan reader.old }
    ensures arrivals_plan { A.plan arrivals.new ≡ A.plan arrivals.old }
    ensures faults { TellsRelayFaults result (R.fault_count reader.old)
        (R.fault_count reader.new) }
{
    let mut collector = Collector::of(alloc, plan.run(), plan.files())?;
    let mut replies = Vec::new(alloc);
    while let Some(piece) = arrivals.next() {
        let reply = offer_to(&mut collector, piece)?;
        replies.push(reply)?;
        deliver_all::<M, R>(&mut collector, reader)?;
        arrivals.hear(reader.held());
    }
    Ok(replies)
}
