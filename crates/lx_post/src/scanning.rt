//! The calls by which several threads scan the files of a plan.
ghost use Rattle.std.specs.Prelude.{◌≡◌, ◌<◌, ◌≤◌, OnOk};
ghost use Rattle.lx_piece.specs.Plans.{max_workers};
ghost use Rattle.lx_piece.specs.Relayed.{TakesAllInOrder, TookNothing};
ghost use Rattle.lx_post.specs.Collected.{IsWhole, TellsFaults};

use crate::{Gate, RunFault, Unstarted, scan};
use lx_piece::{KeepItems, Maker, Plan, Reader, ReaderOf};
use std::alloc::Global;
use std::sync::Wait;
use std::thread::Threads;

/// Scans the files of a plan by 1 to 8 workers, and delivers their pieces to the reader, those of each file in order. The calling thread delivers
/// them while the workers cut. Every worker is joined, also after a fault. Returns the reader with the result. At `Ok` the reader took every file up
/// to its closing piece. Err: the first fault that the calling thread met. `Memory` if an allocation failed or a worker couldn't be started, `Reader`
/// if the reader's device failed. After a fault the reader gets nothing more.
pub fn scan_all<W: Threads + Wait + Sync, G: Gate + Sync, R: Reader + Drop>(
    rt: &W,
    alloc: Global,
    plan: &Plan,
    workers: u8,
    gate: &G,
    reader: R,
) -> (R, Result<(), RunFault>)
    requires some_workers { 0 < workers }
    requires few_workers { workers ≤ max_workers }
    requires reader { TookNothing plan.now (R.plan reader) (R.counts reader)
        (R.fault_count reader) }
    ensures ok { OnOk result.1 (IsWhole plan.now (R.counts result.0)) }
    ensures taken { TakesAllInOrder plan.now (R.counts result.0) }
    ensures follows { R.follows reader result.0 }
    ensures plan { R.plan result.0 ≡ R.plan reader }
    ensures faults { TellsFaults result.1 (R.fault_count reader) (R.fault_count result.0) }
{
    scan::<W, G, KeepItems, R>(
        rt,
        alloc,
        plan,
        workers,
        gate,
        KeepItems,
        reader,
        Unstarted::Fails,
    )
}

/// Does the same as `scan_all` for pieces that carry what a maker makes of their items. Each worker uses a copy of this maker. If a worker can't be
/// started, the run goes on with the others. If none can, the calling thread cuts and delivers the pieces itself.
pub fn scan_made<
    W: Threads + Wait + Sync,
    G: Gate + Sync,
    M: Maker<Made: Send> + Copy + Drop + Sync,
    R: ReaderOf<M> + Drop,
>(
    rt: &W,
    alloc: Global,
    plan: &Plan,
    workers: u8,
    gate: &G,
    maker: M,
    reader: R,
) -> (R, Result<(), RunFault>)
    requires some_workers { 0 < workers }
    requires few_workers { workers ≤ max_workers }
    requires reader { TookNothing plan.now (R.plan reader) (R.counts reader)
        (R.fault_count reader) }
    ensures ok { OnOk result.1 (IsWhole plan.now (R.counts result.0)) }
    ensures taken { TakesAllInOrder plan.now (R.counts result.0) }
    ensures follows { R.follows reader result.0 }
    ensures plan { R.plan result.0 ≡ R.plan reader }
    ensures faults { TellsFaults result.1 (R.fault_count reader) (R.fault_count result.0) }
{
    scan(
        rt,
        alloc,
        plan,
        workers,
        gate,
        maker,
        reader,
        Unstarted::GoesOn,
    )
}
