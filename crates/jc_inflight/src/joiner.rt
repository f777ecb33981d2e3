//! One joiner, and the state of its load.
ghost use Rattle.std.specs.Prelude.{◌≡◌};
ghost use Rattle.jc_inflight.specs.Joining.{belongs_to, is_waiting, waits_for};

use jc_types::{Caller, Key};

/// The state of a joiner's load.
#[derive(Clone, Copy, Debug, PartialEq, Eq)]
pub enum JoinState {
    /// The load isn't over.
    Waiting,
    /// The load was committed.
    Answered {
        /// The place of the joiner's own shared step in the history of the stripe.
        place: u32,
        /// The place of the step that loaded.
        shared_with: u32,
    },
    /// The load was withdrawn: the call is told to retry.
    Again,
}

impl JoinState {
    /// Whether the load isn't over.
    pub fn is_waiting(&self) -> bool
        ensures { result ≡ is_waiting self.now }
    {
        match self {
            JoinState::Waiting => true,
            JoinState::Answered { .. } | JoinState::Again => false,
        }
    }
}

/// A call that has joined the load of its key.
#[derive(Clone, Copy, Debug, PartialEq, Eq)]
pub struct Joiner {
    /// The session and the number of the call.
    pub caller: Caller,
    /// The key.
    pub key: Key,
    /// The load that it joined: the number of the reservation that loads.
    pub load: u64,
    /// The state of that load.
    pub state: JoinState,
}

/// A joiner that no call made, with which a table fills its free places.
impl Default for Joiner {
    fn default() -> Joiner {
        Joiner {
            caller: Caller {
                session: 0,
                call: 0,
            },
            key: Key::default(),
            load: 0,
            state: JoinState::Waiting,
        }
    }
}

impl Joiner {
    /// Whether it is this caller's, at this key.
    pub fn belongs_to(&self, caller: Caller, key: &Key) -> bool
        ensures { result ≡ belongs_to caller key.now self.now }
    {
        self.caller == caller && *key == self.key
    }

    /// Whether it waits for this load.
    pub fn waits_for(&self, load: u64) -> bool
        ensures { result ≡ waits_for load self.now }
    {
        self.load == load && self.state.is_waiting()
    }
}
