//! Sessions: the callers of a cache.
ghost use Rattle.std.specs.Prelude.{◌≡◌, max};
ghost use Rattle.jc_session.specs.Counting.{one_more, call_before};
ghost use Rattle.jc_session.specs.Sessions.{next_call};

use crate::agent::Agent;
use jc_lock::Seat;
use jc_types::Caller;

/// A caller of a cache: an agent, with a seat at the lock of each stripe. One thread at a time has it.
///
/// The agent calls the session's loader and writer ([`Agent::ask_loader`] and the like); the seats stay as they are.
///
/// Contracts see what the session has seen of each stripe, its own steps there, its calls' numbers, and its loader and writer.
#[derive(Drop)]
pub struct Session {
    /// The seats, by the numbers of the stripes.
    pub seats: Vec<Seat>,
    /// The session without its seats.
    pub agent: Agent,
}

impl Session {
    /// The number of steps that the session has made on the cache, up to `u64::MAX`: one for each key of a call, unless the key
    /// was refused there or is still to be answered.
    pub fn own(&self) -> u64
        ensures { result ≡ self.now.agent.counts.own }
    {
        self.agent.own()
    }

    /// The caller of the call that was begun last: the session's number, and the call's.
    pub fn caller(&self) -> Caller
        ensures { result ≡ self.now.agent.caller }
    {
        self.agent.caller()
    }

    /// Begins a call with the next number, for phase calls. Once the last number, `u64::MAX`, is reached, each further call gets
    /// it; the cache refuses such a call (`HistoryFull`).
    pub fn next_call(&mut self) -> Caller
        requires { Unit {0} }
        ensures caller { result ≡ self.new.agent.caller }
        ensures call { self.new ≡ next_call self.old }
    {
        // The empty condition above makes the proof hold for every loader and writer that the session may have.
        self.agent.next_call()
    }

    /// Raises the number of the next call to `n`. If it is `n` or more already, nothing changes: numbers never fall. A call with
    /// the last number, `u64::MAX`, is refused (`HistoryFull`).
    pub fn skip_to(&mut self, n: u64)
        requires { Unit {0} }
        ensures next { one_more self.new.agent.caller.call ≡ max (one_more self.old.agent.caller.call) n }
        ensures call { self.new ≡ record self.old {
          agent = record self.old.agent {
            caller = record self.old.agent.caller { call = call_before self.old.agent.caller.call n };
          };
        } }
    {
        self.agent.skip_to(n);
    }
}
