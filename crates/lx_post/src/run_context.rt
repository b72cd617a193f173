//! State that the threads of a run share.

use crate::signals::Signals;
use crate::{Claims, Post};
use lx_piece::{Maker, Plan};
use std::alloc::Global;

/// The state that the threads of a run share.
#[derive(Drop)]
pub struct RunContext<'a, W, G, M: Maker> {
    pub rt: &'a W,
    pub alloc: Global,
    pub plan: &'a Plan,
    pub claims: Claims,
    pub post: Post<M>,
    pub gate: &'a G,
    pub signals: Signals,
    /// Maker of what pieces carry. Each worker uses a copy of it.
    pub maker: M,
}
