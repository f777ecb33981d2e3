//! A call with many keys, while it is under way.
ghost use Rattle.std.specs.Prelude.{ℕ, false, true, ◌≡◌, ◌==◌, ◌≤◌, ◌<◌, ◌⊎◌, ◌*◌, [], map, length, vec_capacity, Some, None, slice_get, IfOk, IfNone, IfSome};
ghost use Rattle.std.specs.List.{IsDistinct};
ghost use Rattle.std.specs.Map.{keys_of};
ghost use Rattle.std.specs.Option.{option_or};
ghost use Rattle.std.specs.Cmp.Lexicographic.{pointwise};
ghost use Rattle.jc_types.specs.declared.limits.TheConstants.{JOINERS_MAX, RESERVATIONS_MAX};
ghost use Rattle.jc_rounds.specs.KeyProgress.{IsNoted, StillWaits, all_waiting, failures, first_of, refused_if_waiting};
ghost use Rattle.jc_rounds.specs.Starting.{IsRoomFor};
ghost use Rattle.jc_rounds.specs.Targets.{ops_of};
ghost use Rattle.jc_rounds.specs.Underway.{AreRooms, CallPast, IsBetween, IsNew, IsOver};

use crate::progress::KeyProgress;
use crate::targets::Targets;
use jc_cache::{Cache, Session};
use jc_model::Reply;
use jc_stripe::{Join, Ticket};
use jc_types::{JOINERS_MAX, Key, RESERVATIONS_MAX, Refusal, Value};
use std::alloc::{AllocError, Global};
use std::sync::Wait;

/// A call with many keys, while it is under way: the state of each of its keys, and what it has out. It can't be dropped.
pub struct BulkCall<'a> {
    /// Its keys, and the operation at each of them.
    pub(crate) targets: &'a Targets<'a>,
    /// The state of each key.
    pub(crate) progress: Vec<KeyProgress>,
    /// The number of keys that a round may reserve.
    pub(crate) most: usize,
    /// The tickets of the keys that a round has reserved, in their order. Each is used for one call outside.
    pub tickets: Vec<Ticket>,
    /// The joins of the keys that have joined a load, in their order.
    pub(crate) joins: Vec<Join>,
    /// The first fault or refusal that the call has met, if it has met one.
    pub(crate) cause: Option<Refusal>,
}

impl<'a> BulkCall<'a> {
    /// A call for these keys, none of which was started yet. Each round uses the same memory.
    ///
    /// Condition: the memory is for this many keys, in the cache's number of stripes.
    pub fn new(targets: &'a Targets<'a>, rooms: Rooms) -> Self
        requires { (stripes : ℕ) × AreRooms (length (ops_of targets.now)) stripes rooms }
        ensures new { (stripes : ℕ) → AreRooms (length (ops_of targets.now)) stripes rooms
            → IsNew targets.now stripes result }
        ensures most { result.most ≡ rooms.most }
    {
        let Rooms {
            progress,
            most,
            tickets,
            joins,
        } = rooms;
        BulkCall {
            targets,
            progress,
            most,
            tickets,
            joins,
            cause: None,
        }
    }

    /// The number of keys that a round may reserve.
    pub fn most(&self) -> usize
        ensures { result ≡ self.now.most }
    {
        self.most
    }

    /// Notes a fault that the call has met, unless one was noted before.
    pub(crate) fn note(&mut self, fault: Option<Refusal>)
        ensures { self.new ≡ record self.old { cause = option_or self.old.cause fault } }
    {
        self.cause = self.cause.or(fault);
    }

    /// Notes the first of the faults and refusals that keys have ended in, unless one was noted before.
    pub(crate) fn note_failures(&mut self)
        ensures cause { IsNoted self.old.cause (failures self.old.progress.items) self.new.cause }
        ensures rest { self.new ≡ record self.old { cause = self.new.cause } }
    {
        if self.cause.is_none() {
            self.cause = first_failure(&self.progress);
        }
    }

    /// Pauses once if a key waits, with no reservation out, and returns whether one does. It may return though nothing has
    /// changed.
    ///
    /// Condition: nothing of the call is out.
    pub fn wait<R: Wait>(&self, rt: &R, cache: &Cache, session: &Session) -> bool
        requires { (past : CallPast) × IsBetween cache.now past session.now self.now }
        ensures over { result ≡ false → IsOver self.now }
        ensures waits { result ≡ true → (place : ℕ) × StillWaits self.now.progress.items place }
    {
        match first_waiting(&self.progress) {
            Some(place) => {
                cache.wait_for_change(rt, session, self.targets.key(place));
                true
            }
            None => false,
        }
    }

    /// Refuses each key that waits, because the allocation of a later round failed. Nobody was asked for it.
    pub fn refuse_rest(&mut self)
        ensures progress { self.new.progress.items ≡ map refused_if_waiting self.old.progress.items }
        ensures cause { IsNoted self.old.cause (failures self.new.progress.items) self.new.cause }
        ensures rest { self.new ≡ record self.old { progress = self.new.progress; cause = self.new.cause } }
    {
        for place in 0..self.progress.len() {
            self.progress[place].refuse_if_waiting();
        }
        self.note_failures();
    }

    /// Ends a call that has nothing out. It returns the state of each key, and the first fault or refusal that the call has met.
    pub fn end(self) -> (Vec<KeyProgress>, Option<Refusal>)
        requires { (self.tickets.items ≡ []) × (self.joins.items ≡ []) }
        ensures { (result.0 ≡ self.entry.progress) × (result.1 ≡ self.entry.cause) }
    {
        let BulkCall {
            targets: _,
            progress,
            most: _,
            tickets,
            joins,
            cause,
        } = self;
        tickets.destroy_empty();
        joins.destroy_empty();
        (progress, cause)
    }
}

/// The memory that the rounds of a call take before its first phase, without that for their calls outside. It can't be dropped.
pub struct Rooms {
    progress: Vec<KeyProgress>,
    most: usize,
    tickets: Vec<Ticket>,
    joins: Vec<Join>,
}

impl Rooms {
    ghost use Rattle.std.specs.Prelude.{◌≡◌, IfOk};
    ghost use Rattle.jc_rounds.specs.Underway.{AreRooms};

    /// The memory of a call with `keys` keys in a cache of `stripes` stripes. An `Err` says that an allocation failed.
    pub fn new(alloc: Global, keys: usize, stripes: usize) -> Result<Rooms, AllocError>
        ensures { IfOk result (λ rooms. AreRooms keys stripes rooms) }
    {
        let most = room_for(RESERVATIONS_MAX, keys, stripes);
        let progress = all_waiting(alloc, keys)?;
        let tickets = Vec::with_capacity(alloc, most)?;
        match Vec::with_capacity(alloc, room_for(JOINERS_MAX, keys, stripes)) {
            Ok(joins) => Ok(Rooms {
                progress,
                most,
                tickets,
                joins,
            }),
            Err(failed) => {
                tickets.destroy_empty();
                Err(failed)
            }
        }
    }

    /// The number of keys that a round may reserve: all keys, or one more than all stripes may have reserved.
    pub fn most(&self) -> usize
        ensures { result ≡ self.now.most }
    {
        self.most
    }

    /// Frees memory that no call was made of.
    pub fn end(self)
        requires { (self.tickets.items ≡ []) × (self.joins.items ≡ []) }
    {
        let Rooms {
            progress: _,
            most: _,
            tickets,
            joins,
        } = self;
        tickets.destroy_empty();
        joins.destroy_empty();
    }
}

/// Room for all keys, or for one more than all stripes may have out, if each may have `most`.
fn room_for(most: usize, keys: usize, stripes: usize) -> usize
    requires { 0 < most }
    ensures { IsRoomFor most keys stripes result }
{
    if keys / most <= stripes {
        keys
    } else {
        most * stripes + 1
    }
}

/// The states of all keys before the first round: each key waits.
fn all_waiting(alloc: Global, keys: usize) -> Result<Vec<KeyProgress>, AllocError>
    ensures { IfOk result (λ progress. progress.items ≡ all_waiting keys) }
{
    let _types: Option<&(Reply, Refusal, Value)> = None;
    let mut progress = Vec::with_capacity(alloc, keys)?;
    for place in 0..keys {
        progress.push_reserved(KeyProgress::Waiting);
    }
    Ok(progress)
}

/// The place of the first key that waits, if one does.
fn first_waiting(progress: &[KeyProgress]) -> Option<usize>
    ensures none { IfNone result ((place : ℕ) → StillWaits progress.now place → ⊥) }
    ensures first { IfSome result (λ place. StillWaits progress.now place) }
{
    for place in 0..progress.len() {
        if progress[place].waits_for_round() {
            return Some(place);
        }
    }
    None
}

/// The first of the faults and refusals that keys have ended in, if there is one.
fn first_failure(progress: &[KeyProgress]) -> Option<Refusal>
    ensures { result ≡ first_of (failures progress.now) }
{
    for one in progress {
        if let Some(refusal) = one.failure() {
            return Some(refusal);
        }
    }
    None
}
