//! The joiners of a stripe's loads.
ghost use Rattle.std.specs.Prelude.{◌≡◌, ◌↔◌, ◌<◌, ◌≤◌, ◌+◌, ◌^◌, [], IsTrue, count_by, length, nat_le, position, false};
ghost use Rattle.std.specs.Bool.{OnTrue, OnFalse};
ghost use Rattle.jc_types.specs.declared.limits.TheConstants.{JOINERS_MAX};
ghost use Rattle.jc_inflight.specs.Joining.{belongs_to, has_joined, waits_for, joiners_with};
ghost use Rattle.jc_inflight.specs.Resolving.{after_resolve};
ghost use Rattle.jc_inflight.specs.Dissolving.{after_dissolve};
ghost use Rattle.jc_inflight.specs.Taking.{join_state_of, joiners_after_take};
ghost use Rattle.jc_inflight.specs.IsJoinerList.{IsJoinerList};

use crate::{JoinState, Joiner};
use arrayvec::ArrayVec;
use jc_types::{Caller, JOINERS_MAX, Key};
use std::marker::Model;

/// The calls that have joined a load of their key and haven't taken its answer, in the order of joining: at most [`JOINERS_MAX`],
/// and no two of one caller and key.
///
/// The table is in the value itself: no call allocates.
#[derive(Drop)]
pub struct Joiners {
    joiners: ArrayVec<Joiner, JOINERS_MAX>,
}

impl Model for Joiners {
    ghost use Rattle.std.specs.Prelude.{List};
    ghost use Rattle.jc_inflight.specs.declared.joiner.Joiner.{Joiner};

    ghost Value = { List Joiner };

    ghost use Rattle.jc_inflight.specs.Inside.{joiners_of, HasJoiners};

    ghost view = { joiners_of };

    ghost invariant = { HasJoiners };
}

impl Joiners {
    /// No joiner.
    pub fn new() -> Self
        ensures { result ≡ [] }
    {
        Joiners {
            joiners: ArrayVec::new(),
        }
    }

    /// Removes all joiners: the table is then as [`new`](Joiners::new) makes it.
    pub fn clear(&mut self)
        ensures { self.new ≡ [] }
    {
        self.joiners.clear();
    }

    /// Adds a joiner: a call that waits for the end of the load of its key. `load` is the number of that load's reservation.
    ///
    /// Conditions: the caller has no joiner of this key in [`list`](Joiners::list).
    ///
    /// A `false`, if there are [`JOINERS_MAX`] joiners, leaves the table as it was.
    pub fn join(&mut self, caller: Caller, key: &Key, load: u64) -> bool
        requires { has_joined caller key.now self.old ≡ false }
        ensures room { IsTrue result ↔ (length self.old < JOINERS_MAX) }
        ensures joined { OnTrue result (self.new ≡ joiners_with caller key.now load self.old) }
        ensures full { OnFalse result (self.new ≡ self.old) }
    {
        if self.is_full() {
            return false;
        }
        self.joiners.push(Joiner {
            caller,
            key: *key,
            load,
            state: JoinState::Waiting,
        });
        true
    }

    /// Ends a load that was committed at place `step` of the history. Each joiner that waits for it is answered, in the order of
    /// joining: the first one's shared step has the place `step + 1`, each further one's the next. It returns the number of these
    /// joiners. The other joiners stay as they are.
    ///
    /// Conditions: these places are below 2^32.
    pub fn resolve(&mut self, load: u64, step: u32) -> u32
        requires { step + count_by (waits_for load) self.old < 2 ^ 32 }
        ensures resolved { self.new ≡ after_resolve load step self.old }
        ensures count { result ≡ count_by (waits_for load) self.old }
    {
        answer_each(&mut self.joiners, load, step)
    }

    /// Ends a load that was withdrawn: each joiner that waits for it is told to retry. It returns the number of these joiners.
    /// The other joiners stay as they are.
    pub fn dissolve(&mut self, load: u64) -> u32
        ensures dissolved { self.new ≡ after_dissolve load self.old }
        ensures count { result ≡ count_by (waits_for load) self.old }
    {
        retry_each(&mut self.joiners, load)
    }

    /// How many joiners wait for a load.
    pub fn waiting(&self, load: u64) -> u32
        ensures count { result ≡ count_by (waits_for load) self.now }
        ensures few { result ≤ JOINERS_MAX }
    {
        self.joiners.iter().filter(|j| j.waits_for(load)).count() as u32
    }

    /// Returns the state of the load that a call has joined at a key, and removes the joiner if the load is over.
    ///
    /// A `None`, if the call hasn't joined or has taken its answer, leaves the table as it was. So does [`JoinState::Waiting`].
    pub fn take(&mut self, caller: Caller, key: &Key) -> Option<JoinState>
        ensures state { result ≡ join_state_of caller key.now self.old }
        ensures left { self.new ≡ joiners_after_take caller key.now self.old }
    {
        let place = place_of(&self.joiners, caller, key)?;
        let state = self.joiners[place].state;
        if !state.is_waiting() {
            self.joiners.remove(place);
        }
        Some(state)
    }

    /// The joiners in the order of joining, in which [`Joiners::resolve`] gives out places.
    pub fn list(&self) -> &[Joiner]
        ensures joiners { result.now ≡ self.now }
        ensures list { IsJoinerList self.now }
    {
        &self.joiners
    }

    /// How many joiners there are, at most [`JOINERS_MAX`]: those that wait for a load, and those that have not taken their answer.
    pub fn len(&self) -> usize
        ensures len { result ≡ length self.now }
        ensures list { IsJoinerList self.now }
    {
        self.joiners.len()
    }

    /// Whether nobody has joined.
    pub fn is_empty(&self) -> bool
        ensures { IsTrue result ↔ (length self.now ≡ 0) }
    {
        self.joiners.is_empty()
    }

    /// Whether there are [`JOINERS_MAX`] joiners, so that no further call can join.
    pub fn is_full(&self) -> bool
        ensures { result ≡ nat_le JOINERS_MAX (length self.now) }
    {
        self.joiners.is_full()
    }
}

/// The place of a caller's joiner at a key.
fn place_of(joiners: &[Joiner], caller: Caller, key: &Key) -> Option<usize>
    ensures { result ≡ position (belongs_to caller key.now) joiners.now }
{
    joiners.iter().position(|j| j.belongs_to(caller, key))
}

/// Answers each joiner that waits for the load, which was committed at the place `step`.
fn answer_each(joiners: &mut [Joiner], load: u64, step: u32) -> u32
    requires { step + count_by (waits_for load) joiners.old < 2 ^ 32 }
    ensures resolved { joiners.new ≡ after_resolve load step joiners.old }
    ensures count { result ≡ count_by (waits_for load) joiners.old }
{
    let mut place = step;
    for joiner in joiners.iter_mut() {
        if joiner.waits_for(load) {
            place += 1;
            joiner.state = JoinState::Answered {
                place,
                shared_with: step,
            };
        }
    }
    place - step
}

/// Tells each joiner that waits for the load to retry.
fn retry_each(joiners: &mut [Joiner], load: u64) -> u32
    requires { length joiners.old ≤ JOINERS_MAX }
    ensures dissolved { joiners.new ≡ after_dissolve load joiners.old }
    ensures count { result ≡ count_by (waits_for load) joiners.old }
{
    let mut count = 0;
    for joiner in joiners.iter_mut() {
        if joiner.waits_for(load) {
            count += 1;
            joiner.state = JoinState::Again;
        }
    }
    count
}
