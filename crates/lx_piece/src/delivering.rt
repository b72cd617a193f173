//! Offers arrivals to a collector, and delivers what it has ready to a reader.

ghost use Rattle.std.specs.Prelude.{◌≡◌, ◌<◌, List, [], ◌∷◌, ◌++◌, OnOk, OnErr, IfOk, IfErr, Err};
ghost use Rattle.lx_piece.specs.declared.piece.Piece.{Piece};
ghost use Rattle.lx_piece.specs.Pieces.{top_number};
ghost use Rattle.lx_piece.specs.Arrivals.{accepted_of, reply_to};
ghost use Rattle.lx_piece.specs.Kept.{StandsFor, NoneReady, shape_of_kept, delivered_counts};
ghost use Rattle.lx_piece.specs.Delivered.{HoldsPlanned, AreAtMost};

use crate::reader::ReaderFault;
use crate::reader_of::ReaderOf;
use crate::{Collector, Maker, Piece, Reply, Why};
use std::alloc::{AllocError, AllocFailed};
use thiserror::Error;

/// Reason why a relay ended before its arrivals did.
#[derive(Clone, Copy, Debug, PartialEq, Eq, Error)]
pub enum RelayFault {
    /// The reader's device failed.
    #[error("the reader failed")]
    Reader,
    #[error("out of memory")]
    Memory,
}

impl From<AllocError> for RelayFault {
    ghost use Rattle.lx_piece.specs.declared.delivering.RelayFault.{RelayFault};

    ghost from_gives = { λ _ fault. fault ≡ RelayFault.Memory };

    fn from(_error: AllocError) -> Self {
        RelayFault::Memory
    }
}

impl<T: Drop> From<AllocFailed<T>> for RelayFault {
    ghost use Rattle.lx_piece.specs.declared.delivering.RelayFault.{RelayFault};

    ghost from_gives = { λ _ fault. fault ≡ RelayFault.Memory };

    fn from(_error: AllocFailed<T>) -> Self {
        RelayFault::Memory
    }
}

/// Offers an arrival to the collector. The only error is memory, and then nothing has changed.
pub fn offer_to<C: Drop>(collector: &mut Collector<C>, piece: Piece<C>) -> Result<Reply, RelayFault>
    ensures reply { (came : List (Piece C)) → StandsFor collector.old came → IfOk result (λ reply.
        reply ≡ reply_to (shape_of_kept collector.old)
        (accepted_of (shape_of_kept collector.old) came) piece) }
    ensures stands { (came : List (Piece C)) → StandsFor collector.old came
        → OnOk result (StandsFor collector.new (came ++ piece ∷ [])) }
    ensures shape { shape_of_kept collector.new ≡ shape_of_kept collector.old }
    ensures counts { delivered_counts collector.new ≡ delivered_counts collector.old }
    ensures memory { IfErr result (λ fault. fault ≡ RelayFault.Memory) }
    ensures err { OnErr result (collector.new ≡ collector.old) }
{
    match collector.offer(piece) {
        Ok(()) => Ok(Reply::Accepted),
        Err(refused) => match refused.why {
            Why::Memory => Err(RelayFault::Memory),
            why => Ok(Reply::Refused(why)),
        },
    }
}

/// Delivers to the reader all that the collector has ready.
pub fn deliver_all<M: Maker, R: ReaderOf<M>>(
    collector: &mut Collector<M::Made>,
    reader: &mut R,
) -> Result<(), RelayFault>
    requires per_piece { 0 < (R.plan reader.old).per_piece }
    requires planned { HoldsPlanned M.made (R.plan reader.old) collector.old.buffers }
    requires counts { R.counts reader.old ≡ delivered_counts collector.old }
    requires countable { R.fault_count reader.old < top_number }
    ensures plan { R.plan reader.new ≡ R.plan reader.old }
    ensures follows { R.follows reader.old reader.new }
    ensures stands { (came : List (Piece M.Made)) → StandsFor collector.old came
        → StandsFor collector.new came }
    ensures shape { shape_of_kept collector.new ≡ shape_of_kept collector.old }
    ensures ok { OnOk result ((R.counts reader.new ≡ delivered_counts collector.new)
        × NoneReady collector.new.buffers
        × (R.fault_count reader.new ≡ R.fault_count reader.old)) }
    ensures err { OnErr result (AreAtMost (R.counts reader.new) (delivered_counts collector.new)
        × AreAtMost (R.counts reader.old) (R.counts reader.new)) }
    ensures reader { result ≡ Err RelayFault.Reader
        → R.fault_count reader.old < R.fault_count reader.new }
    ensures memory { result ≡ Err RelayFault.Memory
        → R.fault_count reader.new ≡ R.fault_count reader.old }
{
    while let Some(piece) = collector.deliver() {
        match reader.take(piece) {
            Ok(()) => {}
            Err(ReaderFault::Device) => return Err(RelayFault::Reader),
            Err(ReaderFault::Memory) => return Err(RelayFault::Memory),
        }
    }
    Ok(())
}
