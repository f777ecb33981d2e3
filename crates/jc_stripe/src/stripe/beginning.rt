//! The first phase of a call: a hit, a call that is done at once, a reservation or a join.
ghost use Rattle.std.specs.Prelude.{◌≡◌, ◌↔◌, [], length, true, false, is_some, IsTrue, IfSome, IfNone, None, Some};
ghost use Rattle.std.specs.Bool.{OnTrue, OnFalse};
ghost use Rattle.jc_entries.specs.MostRecent.{most_recent};
ghost use Rattle.jc_stripe.specs.OrderOfUse.{by_use};
ghost use Rattle.jc_model.specs.declared.event.Op.TheVariants.{Get};
ghost use Rattle.jc_model.specs.declared.event.Reply.TheVariants.{Value as ReplyValue};
ghost use Rattle.jc_model.specs.Cache.{entry_at};
ghost use Rattle.jc_model.specs.Group.{nothing_said};
ghost use Rattle.jc_stripe.specs.State.{new_reservation, with_reservation};
ghost use Rattle.jc_stripe.specs.Refusals.{may_hit, first_refusal, first_asked, load_joined, needs_reservation};
ghost use Rattle.jc_stripe.specs.Phases.{MayBegin, Steps, Begins, begun_with, with_joiner, with_reply};
ghost use Rattle.jc_stripe.specs.Hitting.{IsHit};
ghost use Rattle.jc_stripe.specs.declared.ticket.First.TheVariants.{Nobody};
ghost use Rattle.jc_stripe.specs.Outcomes.{Done};

use super::Stripe;
use crate::appending::{NewGroup, append_group, apply_to_entries};
use crate::begun::{Appended, Started};
use crate::call_rules::{answers_at_once, places_needed, write_first_asked};
use crate::ticket::{Join, Ticket};
use jc_model::statistics::statistics_laws;
use jc_model::{Op, Out, Reply};
use jc_types::{Caller, HIT_PLACES, Key, STEP_PLACES, Value};

/// Whether a call is a `get`.
pub(super) fn is_get(op: &Op) -> bool
    ensures { IsTrue result ↔ (op.now ≡ Get) }
{
    matches!(op, Op::Get)
}

/// A step at this place for which no entry is evicted.
pub(crate) fn appended_alone(place: u32) -> Appended
    ensures { result ≡ record { place = place; victim = None; evicted = None } }
{
    Appended {
        place,
        victim: None,
        evicted: None,
    }
}

/// Sets a reply to this value. If the reply is a value already, only the bytes that count are copied.
#[inline(always)]
fn set_value(reply: &mut Reply, value: &Value)
    ensures { reply.new ≡ ReplyValue (Some value.now) }
{
    match &mut *reply {
        Reply::Value(Some(room)) => room.copy_from(value),
        _ => *reply = Reply::Value(Some(*value)),
    }
}

impl Stripe {
    /// The first phase of a call that isn't a `get`, or for whose hit there is no place.
    pub(super) fn begin_at(
        &mut self,
        caller: Caller,
        key: &Key,
        op: &Op,
        reply: &mut Reply,
    ) -> Started
        requires begins { MayBegin self.old caller key.now }
        ensures { Begins self.old caller key.now op.now (begun_with result reply.new) self.new }
    {
        let mut entry = None;
        self.entry_into(key, &mut entry);
        self.begin_on(caller, key, op, &entry, reply)
    }

    /// A `get` that finds its entry: it returns the place of its step, and writes its value to `reply`. `None` says that the call
    /// is no such `get`, or that the history lacks the place. Then nothing is done, and the key's entry is written to `entry`.
    #[inline(always)]
    pub(crate) fn hit_or_entry(
        &mut self,
        caller: Caller,
        key: &Key,
        op: &Op,
        entry: &mut Option<Value>,
        reply: &mut Reply,
    ) -> Option<u32>
        requires begins { MayBegin self.old caller key.now }
        ensures none { IfNone result ((self.new ≡ self.old) × (entry.new ≡ entry_at self.old.cache key.now)) }
        ensures hit { IfSome result (λ place. (op.now ≡ Get) × Begins self.old caller key.now Get
            (Done (with_reply (record { place = place; victim = None; evicted = None }) reply.new)) self.new) }
    {
        if !is_get(op) || !self.may_hit(caller.call, key) {
            self.entry_into(key, entry);
            return None;
        }
        let place = self.next_place();
        if !self.find_and_use(caller, key) {
            *entry = None;
            return None;
        }
        set_value(reply, self.most_recent());
        Some(place)
    }

    /// The first phase at a key that has no entry.
    pub(super) fn begin_missing(
        &mut self,
        caller: Caller,
        key: &Key,
        op: &Op,
        reply: &mut Reply,
    ) -> Started
        requires begins { MayBegin self.old caller key.now }
        requires missing { entry_at self.old.cache key.now ≡ None }
        ensures { Begins self.old caller key.now op.now (begun_with result reply.new) self.new }
    {
        self.begin_on(caller, key, op, &None, reply)
    }

    /// The place of the next event.
    pub(super) fn next_place(&self) -> u32
        ensures { result ≡ length self.now.history }
    {
        self.history.len() as u32
    }

    /// The first phase at a key that has this entry.
    #[inline(never)]
    pub(crate) fn begin_on(
        &mut self,
        caller: Caller,
        key: &Key,
        op: &Op,
        entry: &Option<Value>,
        reply: &mut Reply,
    ) -> Started
        requires begins { MayBegin self.old caller key.now }
        requires entry { entry.now ≡ entry_at self.old.cache key.now }
        ensures { Begins self.old caller key.now op.now (begun_with result reply.new) self.new }
    {
        let found = self.find(key, op, entry);
        if let Some(refusal) = self.refusal(caller, &found) {
            return Started::Refused(refusal);
        }
        if let Some(load) = found.load {
            return Started::Joined(self.join(caller, key, op, load));
        }
        if found.asks {
            return Started::Asks(self.reserve(caller, key, op, entry));
        }
        self.finish_now(caller, key, op, entry, reply)
    }

    /// Makes a `get` if it finds its entry, and returns whether it did. One look-up finds the entry and makes it the most
    /// recently used; the step is appended in a free place. If the entry is missing, nothing is done.
    #[inline(never)]
    pub(super) fn find_and_use(&mut self, caller: Caller, key: &Key) -> bool
        requires may { may_hit self.old caller.call key.now ≡ true }
        requires begins { MayBegin self.old caller key.now }
        ensures missing { OnFalse result ((self.new ≡ self.old) × (entry_at self.old.cache key.now ≡ None)) }
        ensures found { OnTrue result (IsHit self.old caller key.now self.new) }
    {
        if !self.entries.touch(key) {
            return false;
        }
        statistics_laws();
        match self.entries.most_recent() {
            Some(value) => {
                self.history.push_hit(&caller, key, value);
                true
            }
            None => unreachable!(),
        }
    }

    /// The value of the most recently used entry.
    ///
    /// Condition: there is one.
    pub(super) fn most_recent(&self) -> &Value
        requires { is_some (most_recent (by_use self.now.opening self.now.history)) ≡ true }
        ensures { most_recent (by_use self.now.opening self.now.history) ≡ Some result.now }
    {
        match self.entries.most_recent() {
            Some(value) => value,
            None => unreachable!(),
        }
    }

    /// Reserves a key that has this entry, and reserves places in the history for its commit.
    #[inline(never)]
    fn reserve(&mut self, caller: Caller, key: &Key, op: &Op, entry: &Option<Value>) -> Ticket
        requires free { first_refusal self.old caller key.now op.now ≡ None }
        requires alone { load_joined self.old key.now op.now ≡ None }
        requires needs { needs_reservation self.old key.now op.now ≡ true }
        requires entry { entry.now ≡ entry_at self.old.cache key.now }
        requires begins { MayBegin self.old caller key.now }
        ensures ticket { result ≡ record {
          reservation = new_reservation self.old caller key.now op.now (first_asked self.old.config op.now entry.now);
          asked = false;
          writer_asked = false;
        } }
        ensures reserved { self.new ≡ with_reservation self.old
            (new_reservation self.old caller key.now op.now (first_asked self.old.config op.now entry.now)) }
    {
        let mut reservation = self.boxes.take();
        let room = &mut *reservation;
        room.set_call(caller, key, op, self.reservations.next_number());
        write_first_asked(&self.config, op, entry, &mut room.first);
        let _ = self.history.promise(STEP_PLACES);
        let _ = self.reservations.reserve(&reservation);
        Ticket::new(reservation)
    }

    /// Joins a load, and reserves a place in the history for the shared step.
    #[inline(never)]
    fn join(&mut self, caller: Caller, key: &Key, op: &Op, load: u64) -> Join
        requires free { first_refusal self.old caller key.now op.now ≡ None }
        requires load { load_joined self.old key.now op.now ≡ Some load }
        requires begins { MayBegin self.old caller key.now }
        ensures join { result ≡ record { caller = caller; key = key.now; load = load } }
        ensures joined { self.new ≡ with_joiner self.old (record { caller = caller; key = key.now; load = load }) }
    {
        let _ = self.history.promise(HIT_PLACES);
        let _ = self.joiners.join(caller, key, load);
        Join::new(caller, key, load)
    }

    /// Does a call at once that asks nobody. It isn't inlined, so that a call that reserves its key doesn't clear the memory of a
    /// step.
    #[inline(never)]
    fn finish_now(
        &mut self,
        caller: Caller,
        key: &Key,
        op: &Op,
        entry: &Option<Value>,
        reply: &mut Reply,
    ) -> Started
        requires entry { entry.now ≡ entry_at self.old.cache key.now }
        requires free { first_refusal self.old caller key.now op.now ≡ None }
        requires asks { first_asked self.old.config op.now (entry_at self.old.cache key.now) ≡ Nobody }
        requires begins { MayBegin self.old caller key.now }
        ensures { Begins self.old caller key.now op.now (begun_with result reply.new) self.new }
    {
        Started::Done(self.finish(caller, key, op, entry, reply))
    }

    /// The step of a call that asks nobody.
    fn finish(
        &mut self,
        caller: Caller,
        key: &Key,
        op: &Op,
        entry: &Option<Value>,
        reply: &mut Reply,
    ) -> Appended
        requires entry { entry.now ≡ entry_at self.old.cache key.now }
        requires free { first_refusal self.old caller key.now op.now ≡ None }
        requires asks { first_asked self.old.config op.now (entry_at self.old.cache key.now) ≡ Nobody }
        requires begins { MayBegin self.old caller key.now }
        ensures { Steps self.old caller key.now op.now nothing_said [] (with_reply result reply.new) self.new }
    {
        statistics_laws();
        let kept = places_needed(!answers_at_once(&self.config, op, entry));
        let _ = self.history.promise(kept);
        let pinned = self.reservations.keys();
        let out = Out::nothing_said();
        let (victim, evicted) = apply_to_entries(&mut self.entries, pinned, key, entry, op, &out);
        op.reply_into(entry.as_ref(), &out, reply);
        let group = NewGroup {
            caller,
            key,
            op,
            out: &out,
            reply,
            victim,
            evicted,
            found: entry.is_some(),
        };
        append_group(&mut self.history, &self.joiners, None, &group, kept)
    }
}
