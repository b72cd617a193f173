//! Replies of a collector.

use crate::{Items, Piece};
use thiserror::Error;

/// Reason why a collector rejects a piece. The reply is the first cause that holds, in this order.
#[derive(Clone, Copy, Debug, PartialEq, Eq, Error)]
pub enum Why {
    /// C1: its run isn't the collector's.
    #[error("C1: the piece is of another run")]
    WrongRun,
    /// C2: its file isn't one of the collector's.
    #[error("C2: the piece is of an unknown file")]
    UnknownFile,
    /// C3: a piece of this file and number was accepted.
    #[error("C3: a piece of this file and number was accepted before")]
    Double,
    /// C4: a closing piece of this file with a smaller number was accepted, or the number is
    /// 18,446,744,073,709,551,615.
    #[error("C4: the piece comes behind the last one of its file")]
    AfterLast,
    /// C5: it is a closing piece, and a piece of this file with a greater number was accepted.
    #[error("C5: the piece closes its file before a piece that was accepted")]
    Contradicts,
    /// C90: an allocation failed.
    #[error("C90: out of memory")]
    Memory,
}

/// The reply to one arrival.
#[derive(Clone, Copy, Debug, PartialEq, Eq)]
pub enum Reply {
    Accepted,
    Refused(Why),
}

/// A piece that a collector returns, with the reason.
#[derive(Debug, Drop, Error)]
#[error("{why}")]
pub struct Refused<C = Items> {
    pub why: Why,
    pub piece: Piece<C>,
}
