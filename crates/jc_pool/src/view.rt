//! What a claimer, with which workers of a pool claim their pieces, knows, as data of contracts.
use std::collections::LinkedList;

/// The numbers of pieces and of workers of one job.
#[derive(Drop)]
pub(crate) struct JobPlan {
    /// The number of pieces.
    pub pieces: usize,
    /// The number of workers.
    pub workers: usize,
}

/// The knowledge of a claimer about the pieces. It is data of contracts: no value of it is ever made.
pub(crate) struct Claims {
    /// The plan of its counter.
    pub plan: JobPlan,
    /// The pieces that it claimed, in the order of claiming.
    pub claimed: LinkedList<usize>,
    /// The number of its workers that haven't ended.
    pub working: usize,
    /// The number of its workers that have ended: each has found, once, that no piece is left.
    pub ended: usize,
}
