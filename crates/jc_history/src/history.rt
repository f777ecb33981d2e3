//! The history of one stripe. Its room is made with it, and places in it can be promised.
//!
//! A promised place is room that is reserved for a later event. Before a call asks the loader or the writer, it gets the places
//! promised that its events need. It pushes its events when it has the answer: such a push is never refused. It gives back the
//! places that it doesn't use.
ghost use Rattle.std.specs.Prelude.{◌≡◌, ◌+◌, ◌<◌, ◌≤◌, true, ◌↔◌, [], length, vec_len, vec_capacity, ◌∷◌, ◌++◌, Some, IsTrue};
ghost use Rattle.std.specs.Prelude.{IfOk, OnOk, OnErr, All, if◌then◌else◌, slice_get, slice_range};
ghost use Rattle.jc_model.specs.Statistics.{statistics_of};
ghost use Rattle.jc_history.specs.Past.{places_used, IsWithinLimit, promise, unpromise, push, no_events, hit_event, reply_in};
ghost use Rattle.jc_history.specs.Values.{IsStorable};
ghost use Rattle.jc_history.specs.Stored.{events_at, IsComplete};
ghost use Rattle.jc_history.specs.HistoryInside.{CanAppend, AppendsEvent};

use crate::codec::decoding::{decode_event, decode_reply_of_step};
use crate::codec::encoding::{encode_event, encode_hit, encode_step};
use crate::lent::LentStep;
use crate::room::EVENT_ROOM;
use jc_model::{Event, Reply, Statistics};
use jc_types::{Caller, HISTORY_MAX, Key, Value};
use std::alloc::{AllocError, Global};
use std::marker::Model;

/// The events of one stripe, and how many places are promised to later ones.
///
/// JSR 107 has no history: here a call's answer is checked against it. The events and the promised places together are at most
/// the limit, which is chosen when the history is made and stays. No method but [`new`](History::new) and
/// [`append_to`](History::append_to) takes memory.
///
/// An event is stored as bytes. Beside its key and its values a hit takes 27 bytes, and the largest step at most 52. An event has
/// at most [`EVENT_VALUES`](crate::EVENT_VALUES) values. A value of the loader or the processor that is also the call's answer is
/// stored once.
#[derive(Drop)]
pub struct History {
    // The events one after another, the earliest first.
    bytes: Vec<u8>,
    // The index in `bytes` at which each event starts.
    starts: Vec<u32>,
    limit: usize,
    promised: usize,
    // The counts of the events.
    statistics: Statistics,
}

impl Model for History {
    ghost use Rattle.jc_history.specs.Past.{Past};

    ghost Value = { Past };

    ghost use Rattle.jc_history.specs.HistoryInside.{past_of, IsStored};

    ghost view = { past_of };

    ghost invariant = { IsStored };
}

impl History {
    /// A history with no event and with room for `limit` events, at most [`HISTORY_MAX`].
    ///
    /// All memory is allocated here, as much as the largest events need: 884 bytes for each place, which are 52 bytes, a key and
    /// [`EVENT_VALUES`](crate::EVENT_VALUES) values of the greatest length. That makes 58 MB for [`HISTORY_MAX`] places. Pages of
    /// it that no event has reached cost nothing if the system gives out a page when it is first written. An `Err` says that an
    /// allocation failed.
    pub fn new(alloc: Global, limit: usize) -> Result<Self, AllocError>
        requires { limit ≤ HISTORY_MAX }
        ensures { IfOk result (λ h. h ≡ record { limit = limit; events = []; promised = 0; statistics = statistics_of [] }) }
    {
        let bytes = Vec::with_capacity(alloc, limit * EVENT_ROOM)?;
        let starts = Vec::with_capacity(alloc, limit)?;
        Ok(History {
            bytes,
            starts,
            limit,
            promised: 0,
            statistics: Statistics::new(),
        })
    }

    /// Whether `n` more places could be promised now. It promises none.
    pub fn has_room(&self, n: usize) -> bool
        ensures { IsTrue result ↔ (places_used self.now + n ≤ self.now.limit) }
    {
        n <= self.limit - self.starts.len() - self.promised
    }

    /// Promises `n` places to later pushes, and returns whether it did.
    ///
    /// A `false` says that fewer than `n` places are free, and leaves the history as it was.
    pub fn promise(&mut self, n: usize) -> bool
        ensures fits { IsTrue result ↔ (places_used self.old + n ≤ self.old.limit) }
        ensures after { self.new ≡ (if result then promise n self.old else self.old) }
        ensures within { IsWithinLimit self.new }
    {
        let fits = self.has_room(n);
        if fits {
            self.promised += n;
        }
        fits
    }

    /// Gives `n` promised places back, which are then free.
    pub fn unpromise(&mut self, n: usize)
        requires { n ≤ self.old.promised }
        ensures after { self.new ≡ unpromise n self.old }
        ensures within { IsWithinLimit self.new }
    {
        self.promised -= n;
    }

    /// Appends an event, in a place that was promised, and counts it. It is never refused, and takes no memory.
    ///
    /// `found` says whether its key had an entry before it.
    pub fn push(&mut self, event: &Event, found: bool)
        requires promised { 0 < self.old.promised }
        requires storable { IsStorable event.now }
        ensures after { self.new ≡ push found event.now self.old }
        ensures within { IsWithinLimit self.new }
    {
        append_event(&mut self.bytes, &mut self.starts, event);
        self.promised -= 1;
        self.statistics = self.statistics.with_event(found, event);
    }

    /// Appends a step, in a place that was promised, as [`push`](History::push) does; but the event needn't be built for it. It
    /// is never refused, and takes no memory.
    pub fn push_step(&mut self, step: &LentStep, found: bool)
        requires promised { 0 < self.old.promised }
        requires storable { IsStorable step.now }
        ensures after { self.new ≡ push found step.now self.old }
        ensures within { IsWithinLimit self.new }
    {
        append_step(&mut self.bytes, &mut self.starts, step);
        self.promised -= 1;
        self.statistics = step.counted_in(found, &self.statistics);
    }

    /// Appends the step of a `get` that found its entry and asked nobody, in a place that is free. It does the same as a promise
    /// of one place and then a [`push`](History::push) of that event. It is never refused, and takes no memory.
    pub fn push_hit(&mut self, caller: &Caller, key: &Key, value: &Value)
        requires { places_used self.old < self.old.limit }
        ensures after { self.new ≡ push true (hit_event caller.now key.now value.now) (promise 1 self.old) }
        ensures within { IsWithinLimit self.new }
    {
        append_hit(&mut self.bytes, &mut self.starts, caller, key, value);
        self.statistics = self.statistics.with_hit();
    }

    /// Forgets all events and their counts. The promised places stay promised, and the room stays.
    pub fn clear(&mut self)
        ensures after { self.new ≡ no_events self.old }
        ensures within { IsWithinLimit self.new }
    {
        self.bytes.clear();
        self.starts.clear();
        self.statistics = Statistics::new();
    }

    /// Forgets all events, their counts, and all promises: the history is then as [`new`](History::new) makes it. The room stays.
    pub fn restart(&mut self)
        ensures { self.new ≡ record { limit = self.old.limit; events = []; promised = 0; statistics = statistics_of [] } }
    {
        self.clear();
        self.promised = 0;
    }

    /// The counts of the events, each counted with the `found` of its push. It reads no event.
    pub fn statistics(&self) -> Statistics
        ensures { result ≡ self.now.statistics }
    {
        self.statistics
    }

    /// How many places are promised to later pushes.
    pub fn promised(&self) -> usize
        ensures promised { result ≡ self.now.promised }
        ensures within { IsWithinLimit self.now }
    {
        self.promised
    }

    /// How many events there are, at most [`HISTORY_MAX`]. Promised places don't count.
    pub fn len(&self) -> usize
        ensures len { result ≡ length self.now.events }
        ensures within { IsWithinLimit self.now }
    {
        self.starts.len()
    }

    /// All events, the earliest first.
    ///
    /// An `Err` says that an allocation failed.
    pub fn events(&self, alloc: Global) -> Result<Vec<Event>, AllocError>
        ensures { IfOk result (λ events. events.items ≡ self.now.events) }
    {
        let mut events = Vec::new(alloc);
        self.append_to(0, self.len(), &mut events)?;
        Ok(events)
    }

    /// The event at a place, as it was pushed. The earliest is at 0.
    pub fn event(&self, place: usize) -> Event
        requires { place < length self.now.events }
        ensures { slice_get self.now.events place ≡ Some result }
    {
        event_of(&self.bytes, &self.starts, place)
    }

    /// The reply of the step at a place, or `None` if no event or an eviction is there.
    ///
    /// It reads the reply alone, and so is quicker than [`event`](History::event).
    pub fn reply(&self, place: usize) -> Option<Reply>
        ensures { result ≡ reply_in (slice_get self.now.events place) }
    {
        reply_of(&self.bytes, &self.starts, place)
    }

    /// Appends to `out` the events from the place `from` up to the place `to`, which is left out.
    ///
    /// An `Err` says that an allocation failed, and leaves `out` as it was.
    pub fn append_to(&self, from: usize, to: usize, out: &mut Vec<Event>) -> Result<(), AllocError>
        requires order { from ≤ to }
        requires within { to ≤ length self.now.events }
        ensures ok { OnOk result (out.new.items ≡ out.old.items ++ slice_range self.now.events from to) }
        ensures err { OnErr result (out.new.items ≡ out.old.items) }
    {
        out.reserve(to - from)?;
        for place in from..to {
            push_copy(out, &self.event(place));
        }
        Ok(())
    }
}

/// Appends the bytes of an event, and the index at which they start.
fn append_event(bytes: &mut Vec<u8>, starts: &mut Vec<u32>, event: &Event)
    requires can { CanAppend bytes.old starts.old }
    requires storable { IsStorable event.now }
    ensures { AppendsEvent bytes.old starts.old event.now bytes.new starts.new }
{
    starts.push_reserved(bytes.len() as u32);
    encode_event(bytes, event);
}

/// Appends the bytes of a step, and the index at which they start.
fn append_step(bytes: &mut Vec<u8>, starts: &mut Vec<u32>, step: &LentStep)
    requires can { CanAppend bytes.old starts.old }
    requires storable { IsStorable step.now }
    ensures { AppendsEvent bytes.old starts.old step.now bytes.new starts.new }
{
    starts.push_reserved(bytes.len() as u32);
    encode_step(bytes, step);
}

/// Appends the bytes of a hit, and the index at which they start.
fn append_hit(bytes: &mut Vec<u8>, starts: &mut Vec<u32>, caller: &Caller, key: &Key, value: &Value)
    requires { CanAppend bytes.old starts.old }
    ensures { AppendsEvent bytes.old starts.old (hit_event caller.now key.now value.now) bytes.new starts.new }
{
    starts.push_reserved(bytes.len() as u32);
    encode_hit(bytes, caller, key, value);
}

/// The event at a place: the one that starts at the place's index.
#[tactic(auto, unfolding(crate::specs::Stored::event_at))]
fn event_of(bytes: &[u8], starts: &[u32], place: usize) -> Event
    requires place { place < length starts.now }
    requires complete { All (IsComplete bytes.now) starts.now }
    ensures { slice_get (events_at bytes.now starts.now) place ≡ Some result }
{
    let start = starts[place] as usize;
    decode_event(&bytes[start..])
}

/// The reply of the step at a place: the one that starts at the place's index.
#[tactic(auto, unfolding(crate::specs::Stored::event_at))]
fn reply_of(bytes: &[u8], starts: &[u32], place: usize) -> Option<Reply>
    requires { All (IsComplete bytes.now) starts.now }
    ensures { result ≡ reply_in (slice_get (events_at bytes.now starts.now) place) }
{
    if place < starts.len() {
        let start = starts[place] as usize;
        decode_reply_of_step(&bytes[start..])
    } else {
        None
    }
}

/// Appends a copy. There is room for it.
fn push_copy<T: Copy>(items: &mut Vec<T>, item: &T)
    requires { vec_len items.old < vec_capacity items.old }
    ensures items { items.new.items ≡ items.old.items ++ item.now ∷ [] }
    ensures len { vec_len items.new ≡ vec_len items.old + 1 }
    ensures capacity { vec_capacity items.new ≡ vec_capacity items.old }
{
    items.push_reserved(*item);
}
