//! The state of one key of a call with many keys.
ghost use Rattle.std.specs.Prelude.{◌≡◌};
ghost use Rattle.jc_rounds.specs.KeyProgress.{failure_at, holds_reservation, refused_if_waiting, waits_for_joined_load, waits_for_round};

use crate::ends::OfEnd;
use jc_model::Reply;
use jc_types::Refusal;

/// The state of one key of a call with many keys.
#[derive(Clone, Copy)]
pub enum KeyProgress {
    /// The key waits for a round: its first phase hasn't been made yet, or has put it off.
    Waiting,
    /// The key is reserved, and the loader, the writer or a processor is to be asked, or has been.
    Reserved,
    /// The key has joined a load of another call, whose answer is to be picked up.
    Joined,
    /// The key is over: its step was made, or it is refused for good.
    Ended(Result<Reply, Refusal>),
}

impl KeyProgress {
    /// Whether the key waits for a round.
    pub(crate) fn waits_for_round(&self) -> bool
        ensures { result ≡ waits_for_round self.now }
    {
        match self {
            KeyProgress::Waiting => true,
            KeyProgress::Reserved | KeyProgress::Joined | KeyProgress::Ended(_) => false,
        }
    }

    /// Whether the key is reserved.
    pub(crate) fn holds_reservation(&self) -> bool
        ensures { result ≡ holds_reservation self.now }
    {
        match self {
            KeyProgress::Reserved => true,
            KeyProgress::Waiting | KeyProgress::Joined | KeyProgress::Ended(_) => false,
        }
    }

    /// Whether the key has joined a load.
    pub(crate) fn waits_for_joined_load(&self) -> bool
        ensures { result ≡ waits_for_joined_load self.now }
    {
        match self {
            KeyProgress::Joined => true,
            KeyProgress::Waiting | KeyProgress::Reserved | KeyProgress::Ended(_) => false,
        }
    }

    /// The fault or the refusal in which the key has ended, if it has.
    pub fn failure(&self) -> Option<Refusal>
        ensures { result ≡ failure_at self.now }
    {
        match self {
            KeyProgress::Ended(ended) => Refusal::of_end(ended),
            KeyProgress::Waiting | KeyProgress::Reserved | KeyProgress::Joined => None,
        }
    }

    /// Refuses the key if it waits, because the allocation of a later round failed. Nobody was asked for it.
    pub(crate) fn refuse_if_waiting(&mut self)
        ensures { self.new ≡ refused_if_waiting self.old }
    {
        match self {
            KeyProgress::Waiting => *self = KeyProgress::Ended(Err(Refusal::OutOfMemory)),
            KeyProgress::Reserved | KeyProgress::Joined | KeyProgress::Ended(_) => {}
        }
    }
}
