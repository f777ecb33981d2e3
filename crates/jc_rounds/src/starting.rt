//! The first phases of a round of a call with many keys.
ghost use Rattle.std.specs.Prelude.{◌≡◌, ◌⊎◌, ◌<◌, ◌≤◌, ◌+◌, true, false, length, slice_get, vec_capacity, Some};
ghost use Rattle.jc_rounds.specs.declared.progress.KeyProgress.TheVariants.{Waiting};
ghost use Rattle.jc_stripe.specs.Phases.{begun_with};
ghost use Rattle.jc_rounds.specs.SoFar.{IsHeldAt, IsKept};
ghost use Rattle.jc_rounds.specs.Targets.{ops_of};
ghost use Rattle.jc_rounds.specs.KeyProgress.{IsNoted, StillWaits, failures};
ghost use Rattle.jc_rounds.specs.Underway.{Advances, AdvancesUnnoted, CallPast, HasNoRoom, HasRoom, HasStarted, IsBetween, IsStarting, KeepsJoined, KeepsRoom};

use crate::bulk_call::BulkCall;
use crate::key::start_key;
use crate::progress::KeyProgress;
use jc_cache::{Cache, Session};
use jc_model::Reply;
use jc_stripe::Started;
use jc_types::{Key, Value};
use std::sync::Wait;

impl<'a> BulkCall<'a> {
    /// Makes the first phase at each key that waits, in their order and without waiting. A key that is put off still waits
    /// afterwards.
    ///
    /// Conditions: the call is the session's current one, and has nothing out.
    pub(crate) fn start<R: Wait>(&mut self, rt: &R, cache: &Cache, session: &mut Session)
        requires between { (past : CallPast) × IsBetween cache.now past session.old self.old }
        ensures advances { Advances session.old session.new self.old self.new }
        ensures cause { IsNoted self.old.cause (failures self.new.progress.items) self.new.cause }
        ensures started { (past : CallPast) → IsBetween cache.now past session.old self.old
            → HasStarted cache.now past session.old session.new self.new }
    {
        for place in 0..self.progress.len() {
            self.start_at(rt, cache, session, place);
        }
        self.note_failures();
    }

    /// Makes the first phase at the key of this place, if it waits and there is room. No key from there on is reserved or has
    /// joined a load.
    fn start_at<R: Wait>(&mut self, rt: &R, cache: &Cache, session: &mut Session, place: usize)
        requires place { place < length self.old.progress.items }
        requires starting { (past : CallPast) × IsStarting cache.now past session.old self.old place }
        ensures advances { AdvancesUnnoted session.old session.new self.old self.new }
        ensures starting { (past : CallPast) → IsStarting cache.now past session.old self.old place
            → IsStarting cache.now past session.new self.new (place + 1)
            × (length self.old.tickets.items ≤ length self.new.tickets.items)
            × IsHeldAt (StillWaits self.new.progress.items place × HasNoRoom self.new)
            place past.caller cache.now.config.stripes (ops_of self.new.targets.now)
            session.old.seats.items session.new.seats.items self.new.progress.items
            × KeepsJoined past.caller cache.now session.old session.new self.old self.new }
    {
        if self.progress[place].waits_for_round() {
            if self.has_room() {
                self.start_waiting(rt, cache, session, place);
            }
        }
    }

    /// Makes the first phase at the key of this place, which waits. There is room for its ticket or join.
    fn start_waiting<R: Wait>(&mut self, rt: &R, cache: &Cache, session: &mut Session, place: usize)
        requires waits { slice_get self.old.progress.items place ≡ Some Waiting }
        requires room { HasRoom self.old }
        requires starting { (past : CallPast) × IsStarting cache.now past session.old self.old place }
        ensures advances { AdvancesUnnoted session.old session.new self.old self.new }
        ensures starting { (past : CallPast) → IsStarting cache.now past session.old self.old place
            → IsStarting cache.now past session.new self.new (place + 1)
            × (length self.old.tickets.items ≤ length self.new.tickets.items)
            × IsHeldAt ⊥ place past.caller cache.now.config.stripes (ops_of self.new.targets.now)
            session.old.seats.items session.new.seats.items self.new.progress.items
            × KeepsJoined past.caller cache.now session.old session.new self.old self.new }
    {
        let _types: Option<&(Key, Reply, Value)> = None;
        let key = *self.targets.key(place);
        let op = self.targets.op(place);
        let mut reply = Reply::Unit;
        let started = start_key(rt, cache, session, &key, &op, &mut reply);
        let progress = self.keep(started, &reply);
        self.progress[place] = progress;
    }

    /// Whether there is room for the ticket or the join of one more key.
    fn has_room(&self) -> bool
        ensures full { result ≡ false → HasNoRoom self.now }
        ensures room { result ≡ true → HasRoom self.now }
    {
        self.tickets.len() < self.most && self.joins.len() < self.joins.capacity()
    }

    /// The state of a key after its first phase. Its ticket or join, if there is one, is kept in the call.
    fn keep(&mut self, started: Started, reply: &Reply) -> KeyProgress
        requires tickets { length self.old.tickets.items < vec_capacity self.old.tickets }
        requires joins { length self.old.joins.items < vec_capacity self.old.joins }
        ensures kept { IsKept (begun_with started reply.now) result self.old.tickets.items self.new.tickets.items
            self.old.joins.items self.new.joins.items }
        ensures rest { KeepsRoom self.old self.new }
    {
        match started {
            Started::Done(_step) => KeyProgress::Ended(Ok(*reply)),
            Started::Refused(refusal) => {
                if refusal.is_put_off() {
                    KeyProgress::Waiting
                } else {
                    KeyProgress::Ended(Err(refusal))
                }
            }
            Started::Asks(ticket) => {
                self.tickets.push_reserved(ticket);
                KeyProgress::Reserved
            }
            Started::Joined(join) => {
                self.joins.push_reserved(join);
                KeyProgress::Joined
            }
        }
    }
}
