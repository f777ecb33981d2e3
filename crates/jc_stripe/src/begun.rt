//! The outcomes of phases: of a first phase, of a step, and of a joiner that asks for its answer.
use crate::ticket::{Join, Ticket};
use jc_model::Cause;
use jc_types::{Key, Refusal};

/// The eviction of an entry that a step had inserted.
#[derive(Clone, Copy, Debug, PartialEq, Eq)]
pub struct Eviction {
    /// The cause of the eviction.
    pub cause: Cause,
    /// The place of the eviction in the stripe's history. Between it and the step are the steps that share its load.
    pub place: u32,
}

/// An appended step without its reply. The phase writes the reply into the caller's buffer, so that a value isn't copied on the
/// way.
#[derive(Clone, Copy, Debug, PartialEq, Eq)]
pub struct Appended {
    /// The place of the step in the stripe's history, from 0.
    pub place: u32,
    /// The key that was evicted directly before the step, if the stripe was full.
    pub victim: Option<Key>,
    /// The eviction of the step's own key after it, if it was evicted.
    pub evicted: Option<Eviction>,
}

/// The outcome of a first phase. The reply, if there is one, is in the caller's buffer.
pub enum Started {
    /// The call is done, and its reply is written.
    Done(Appended),
    /// The key is reserved, and the ticket's reservation names whom to ask next.
    Asks(Ticket),
    /// The key is being loaded by another call: the call has joined that load, and its answer is to be picked up.
    Joined(Join),
    /// Nothing was done.
    Refused(Refusal),
}

/// The answer to a joiner that polls. The reply, if there is one, is in the caller's buffer.
pub enum Picked {
    /// The load was committed, and its reply is written.
    Answer {
        /// The place of the joiner's own step in the stripe's history.
        place: u32,
        /// The place of the step that loaded.
        shared_with: u32,
    },
    /// The load was withdrawn: the call is to be retried. It keeps its number, and no place of the history is reserved for it.
    Again,
    /// The load isn't over: ask later, with the join that is returned.
    NotYet(Join),
}
