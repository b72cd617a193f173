//! Jobs of workers, and their outcomes.

use crate::run_fault::RunFault;
use crate::{ClaimSeat, SendPass, TakePass};

/// The seat and the pass by which a worker draws files and sends notes.
#[derive(Drop)]
pub struct Job<C> {
    pub seat: ClaimSeat,
    pub pass: SendPass<C>,
}

/// The outcome of a job.
#[derive(Drop)]
pub enum Outcome<C> {
    /// The worker ended.
    Done(Job<C>),
    /// The worker never began. Its job comes back.
    Back(Job<C>),
}

/// The outcome of a run's threads.
#[derive(Drop)]
pub enum Ran<C> {
    /// The reader took every file completely.
    Whole,
    /// No fault was met. The jobs prove that all was received: those of the workers that ended, and of those that never began.
    Received {
        take: TakePass<C>,
        ended: Vec<Job<C>>,
        idle: Vec<Job<C>>,
    },
    Failed(RunFault),
}
