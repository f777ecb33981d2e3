//! The answers of a desk.
use jc_types::Refusal;

/// Why a desk was not opened. Nothing of the given contents is kept.
#[derive(Clone, Copy, Debug, PartialEq, Eq)]
pub enum OpenFault {
    /// The shape is out of its limits, or there is no stripe with this number.
    Shape,
    /// The contents have a key twice, a key of another stripe, or more entries than the stripe may keep.
    Contents,
    /// An allocation failed.
    Memory,
}

/// The outcome of a first phase at a desk.
#[derive(Clone, Copy)]
pub enum FirstAnswer {
    /// The call is done: the place of its step in the present generation.
    Done(u32),
    /// The key is reserved: the reservation's number.
    Asks(u64),
    /// The call has joined the load with this number.
    Joined(u64),
    /// The call is refused; nothing was done.
    Refused(Refusal),
    /// The generation is full, and its events are to be taken; nothing was done.
    Full,
    /// The desk is shut: its entries are to be swept; nothing was done.
    Shut,
    /// The call may not begin here; nothing was done.
    Misuse,
}

/// The outcome of a last phase at a desk.
#[derive(Clone, Copy)]
pub struct CommitDone {
    /// The place of the step in the present generation.
    pub place: u32,
    /// How many calls that had joined the load have an answer to pick up.
    pub shared: u32,
}

/// The answer to a joiner at a desk.
#[derive(Clone, Copy)]
pub enum PickUpAnswer {
    /// The load was committed.
    Answer {
        /// The place of the joiner's own step.
        place: u32,
        /// The place of the step that loaded.
        shared_with: u32,
    },
    /// The load was withdrawn: the call is to be retried.
    Again,
    /// The load isn't over; the join is still out.
    NotYet,
    /// No such join is out; nothing was done.
    Misuse,
}

/// The outcome of a sweep.
#[derive(Clone, Copy, Debug, PartialEq, Eq)]
pub enum SweepAnswer {
    /// The desk isn't shut: calls may begin.
    Open,
    /// An entry was evicted: sweep again.
    Evicted,
    /// An entry is left, and the events of the generation are to be taken first.
    Full,
    /// An entry is left, and no place for its eviction until a reservation ends or an answer is picked up.
    NoPlace,
}
