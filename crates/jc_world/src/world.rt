//! A world: stripes beside a store, driven by a list of events, with what there is to see of it.
ghost use Rattle.std.specs.Prelude.{[], ◌≡◌, ◌≤◌, ◌⊎◌, ◌<◌, true, IsTrue, IfOk, IfErr, IsOk, option_copied, OnErr, OnOk, Ok, is_some};
ghost use Rattle.std.specs.Prelude.{Err, take, length, find, option_map};
ghost use Rattle.std.specs.FinMap as map;
ghost use Rattle.std.specs.List.{list_all};
ghost use Rattle.jc_world.specs.Calls.{is_of_session};
ghost use Rattle.jc_types.specs.Limits.{check};
ghost use Rattle.jc_world.specs.World.{start, is_busy, is_idle, open_call, part_of, has_progress, waits_for_load, waits_for_process};
ghost use Rattle.jc_world.specs.World.{waits_for_report, is_joined, is_untold, with_stored};
ghost use Rattle.jc_world.specs.Fits.{fits, is_being_written, is_new};
ghost use Rattle.jc_world.specs.Runs.{RunAppending};
ghost use Rattle.jc_world.specs.Together.{BeginFits, FitTogether};
ghost use Rattle.jc_world.specs.Coherent.{all_hold, CoherentAsTold};
ghost use Rattle.jc_world.specs.Audit.{IsOrder, HasShares, IsAudit, untold_keys};
ghost use Rattle.jc_world.specs.Sound.{HaveNoneEnded};

use crate::audit::Audit;
use crate::calls::{call_by, find_call, has_call, is_above};
use crate::event::{Part, Premises, Shown, WorldEvent, nothing_shown};
use crate::held_keys::{held_by, list_parts, waits_for_load, waits_for_process, waits_for_report};
use crate::joined::{JoinedLoad, has_join, list_joins};
use crate::machine::Machine;
use crate::open_call::OpenCall;
use jc_model::Event;
use jc_stripe::phase_laws::{keeps_reserved, stays_reached};
use jc_types::{Config, Key, Refusal, Value};
use std::alloc::{AllocError, Global};
use std::marker::Model;

/// A cache in front of a store, driven by a list of events: every interleaving of calls, loaders, writers and others.
///
/// It holds the tickets of reservations that are out, which nobody may let go, so it can't be dropped: `close` ends it.
pub struct World {
    machine: Machine,
    played: usize,
}

impl Model for World {
    ghost use Rattle.std.specs.Coded.{codes};
    ghost use Rattle.std.specs.FinMap.{code};
    ghost use Rattle.jc_world.specs.PlayedWorld.{PlayedWorld};
    ghost use Rattle.jc_world.specs.Sound.{IsSoundWorld};

    ghost Value = { PlayedWorld };

    ghost coded = { Prim.hlevel (codes, code) };

    ghost view = { λ w. record { world = w.machine; taken = w.played } };

    ghost invariant = { λ w. IsSoundWorld w.machine };
}

impl World {
    /// An empty cache of this shape beside an empty store, and no call.
    ///
    /// A shape that `Config::check` refuses is refused with its `BadConfig`, and a failed allocation with `OutOfMemory`.
    pub fn new(alloc: Global, config: &Config) -> Result<World, Refusal>
        ensures made { IfOk result (λ w. w ≡ record { world = start config.now; taken = 0 }) }
        ensures ok { IsOk result → check config.now ≡ Ok tt }
        ensures refused { IfErr result (λ r. (check config.now ≡ Err r)
            ⊎ ((r ≡ Refusal.OutOfMemory) × (check config.now ≡ Ok tt))) }
    {
        config.check()?;
        match Machine::new(alloc, config) {
            Ok(machine) => Ok(World { machine, played: 0 }),
            Err(_) => Err(Refusal::OutOfMemory),
        }
    }

    /// Gives the store a value, before anything has happened. If an allocation fails, nothing changes.
    ///
    /// Conditions: the world is fresh, as [`is_fresh`](World::is_fresh) says.
    pub fn set(&mut self, key: &Key, value: &Value) -> Result<(), AllocError>
        requires { self.old.world.is_fresh ≡ true }
        ensures ok { OnOk result (
            self.new ≡ record self.old { world = with_stored self.old.world key.now value.now }) }
        ensures err { OnErr result (self.new ≡ self.old) }
    {
        self.machine.store(key, value)
    }

    /// Plays events in their order, and appends what each shows to `shown`.
    ///
    /// An event that doesn't fit has the outcome `Unfit` and changes nothing. After a failed allocation exactly the first `played`
    /// events were taken, what they show is appended, and nothing of the others.
    pub fn play(&mut self, events: &[WorldEvent], shown: &mut Vec<Shown>) -> Result<(), AllocError>
        ensures run { OnOk result (
            RunAppending self.old.world events.now shown.old.items shown.new.items self.new.world
            × (self.new.taken ≡ length events.now)) }
        ensures prefix { OnErr result ((self.new.taken ≤ length events.now)
            × RunAppending self.old.world (take self.new.taken events.now)
            shown.old.items shown.new.items self.new.world) }
    {
        stays_reached();
        keeps_reserved();
        self.played = 0;
        shown.try_reserve(events.len())?;
        for event in events {
            // Each shows itself in its place in the list, and isn't copied there.
            let place = shown.len();
            shown.push_reserved(nothing_shown());
            if let Err(failed) = self.machine.step(event, &mut shown[place]) {
                shown.truncate(place);
                return Err(failed);
            }
            self.played += 1;
        }
        Ok(())
    }

    /// How many events of the last list were taken.
    pub fn played(&self) -> usize
        ensures { result ≡ self.now.taken }
    {
        self.played
    }

    /// All events since the world was opened last, over all stripes: one legal history from what it opened with, and what is cached is
    /// what it leaves. The history of each stripe is its part of it: a place in a stripe, as it is shown, counts the events of that
    /// stripe alone.
    ///
    /// The list is built at each call, in one pass. An `Err` says that an allocation failed; the world is as it was.
    pub fn order(&self, alloc: Global) -> Result<Vec<Event>, AllocError>
        ensures order { IfOk result (λ order. order.items ≡ self.now.world.order) }
        ensures legal { IsOrder self.now.world }
        ensures parts { HasShares self.now.world }
    {
        self.machine.stripes.order(alloc)
    }

    /// Whether no call has begun, nobody else has written the store, and nobody has opened the cache again.
    pub fn is_fresh(&self) -> bool
        ensures { result ≡ self.now.world.is_fresh }
    {
        self.machine.is_fresh
    }

    /// Whether a call's number is above that of every call so far.
    pub fn is_new(&self, call: u64) -> bool
        ensures { result ≡ is_new self.now.world.last call }
    {
        is_above(self.machine.last, call)
    }

    /// How many stripes the cache has.
    pub fn stripes(&self) -> usize
        ensures { result ≡ self.now.world.config.stripes }
    {
        self.machine.config.stripes
    }

    /// Whether a session has a call under way.
    pub fn is_busy(&self, session: u32) -> bool
        ensures { result ≡ is_busy self.now.world session }
    {
        has_call(&self.machine.calls, session)
    }

    /// The highest number of a call so far.
    pub fn last(&self) -> Option<u64>
        ensures { result ≡ self.now.world.last }
    {
        self.machine.last
    }

    /// The number of the call that a session has under way.
    pub fn call_of(&self, session: u32) -> Option<u64>
        ensures { result ≡ option_map (λ u. u.caller.call) (find (is_of_session session) self.now.world.calls) }
    {
        match call_by(&self.machine.calls, session) {
            Some(u) => Some(u.caller().call),
            None => None,
        }
    }

    /// The shape of the cache.
    pub fn config(&self) -> &Config
        ensures { result.now ≡ self.now.world.config }
    {
        &self.machine.config
    }

    /// The calls under way, in the order in which they began.
    pub fn calls(&self) -> &[OpenCall]
        ensures { result.now ≡ self.now.world.calls }
    {
        &self.machine.calls
    }

    /// What has held, since the world was opened last, of loaders, writers and other programs, and of that opening.
    pub fn premises(&self) -> Premises
        ensures { result ≡ self.now.world.premises }
    {
        self.machine.premises
    }

    /// The entries of the store, in the byte order of the keys. An `Err` says that an allocation failed.
    pub fn stored_entries(&self, alloc: Global) -> Result<Vec<(Key, Value)>, AllocError>
        ensures { IfOk result (λ entries. entries.items ≡ map.entries self.now.world.store) }
    {
        self.machine.store.entries(alloc)
    }

    /// The foreign keys, in byte order, each with an empty value: others have written them in the store, or a loader or a writer has lied
    /// about them, since this cache last wrote them, reserved them with no entry, or left what the store held of them at a commit. An
    /// `Err` says that an allocation failed.
    pub fn foreign_keys(&self, alloc: Global) -> Result<Vec<(Key, Value)>, AllocError>
        ensures { IfOk result (λ entries. entries.items ≡ map.entries self.now.world.foreign) }
    {
        self.machine.foreign.entries(alloc)
    }

    /// Whether the key is foreign, as [`foreign_keys`](World::foreign_keys) says, and the cache has had something of it ever since: an entry,
    /// or a reservation.
    pub fn is_untold(&self, key: &Key) -> bool
        ensures { result ≡ is_untold self.now.world key.now }
    {
        self.machine.is_untold(key)
    }

    /// The keys that are untold, in byte order: if all premises hold, no other cached value differs from the store's, but for keys whose
    /// writer has changed the store and whose call isn't committed. An `Err` says that an allocation failed.
    pub fn untold_keys(&self, alloc: Global) -> Result<Vec<Key>, AllocError>
        ensures { IfOk result (λ keys. keys.items ≡ untold_keys self.now.world) }
    {
        self.machine.untold_keys(alloc)
    }

    /// Each reserved key, with what its call has asked and heard for it, in no particular order. An `Err` says that an allocation
    /// failed.
    pub fn parts(&self, alloc: Global) -> Result<Vec<(Key, Part)>, AllocError>
        ensures { IfOk result (λ parts. map.from_entries parts.items ≡ self.now.world.parts) }
    {
        list_parts(alloc, &self.machine.held)
    }

    /// The joins of calls that haven't the answer yet, each by its call's number and its key, in no particular order. An `Err` says
    /// that an allocation failed.
    pub fn joins(&self, alloc: Global) -> Result<Vec<((u64, Key), JoinedLoad)>, AllocError>
        ensures { IfOk result (λ joins. map.from_entries joins.items ≡ self.now.world.joins) }
    {
        list_joins(alloc, &self.machine.joins)
    }

    /// The stripes. None of them has ended a generation.
    pub fn stripe_list(&self) -> &[jc_stripe::Stripe]
        ensures stripes { result.now ≡ self.now.world.stripes }
        ensures ended { HaveNoneEnded self.now.world.stripes }
    {
        self.machine.stripes.items()
    }

    /// Whether no call is under way: then the cache may be opened again.
    pub fn is_idle(&self) -> bool
        ensures { result ≡ is_idle self.now.world }
    {
        self.machine.calls.is_empty()
    }

    /// The call with this number, if it is under way.
    pub fn open_call(&self, call: u64) -> Option<&OpenCall>
        ensures { option_copied result ≡ open_call self.now.world call }
    {
        find_call(&self.machine.calls, call)
    }

    /// A key that a call has reserved, with the requests and the answers for it so far.
    pub fn part(&self, call: u64, key: &Key) -> Option<Part>
        ensures { result ≡ part_of self.now.world call key.now }
    {
        match held_by(&self.machine.held, call, key) {
            Some(held) => Some(held.part()),
            None => None,
        }
    }

    /// Whether a call has joined a load of a key, and hasn't its answer.
    pub fn is_joined(&self, call: u64, key: &Key) -> bool
        ensures { result ≡ is_joined self.now.world call key.now }
    {
        has_join(&self.machine.joins, call, key)
    }

    /// Whether a call has reserved a key.
    pub fn is_reserved(&self, call: u64, key: &Key) -> bool
        ensures { result ≡ is_some (part_of self.now.world call key.now) }
    {
        held_by(&self.machine.held, call, key).is_some()
    }

    /// Whether the loader was asked for a key that a call has reserved, and hasn't answered.
    pub fn waits_for_load(&self, call: u64, key: &Key) -> bool
        ensures { result ≡ has_progress waits_for_load (part_of self.now.world call key.now) }
    {
        waits_for_load(&self.machine.held, call, key)
    }

    /// Whether the writer was asked for a key that a call has reserved, and hasn't returned.
    pub fn waits_for_report(&self, call: u64, key: &Key) -> bool
        ensures { result ≡ has_progress waits_for_report (part_of self.now.world call key.now) }
    {
        waits_for_report(&self.machine.held, call, key)
    }

    /// Whether the writer is asked for a key of a call now: it was asked for it, hasn't returned, and doesn't answer for other keys of
    /// the call before. In an `invokeAll` it answers once no key waits for its processor: first for the writes, then for the deletes.
    pub fn is_being_written(&self, call: u64, key: &Key) -> bool
        ensures { result ≡ is_being_written self.now.world call key.now }
    {
        self.machine.is_being_written(call, key)
    }

    /// Whether the entry processor was asked for a key that a call has reserved, and hasn't run.
    pub fn waits_for_process(&self, call: u64, key: &Key) -> bool
        ensures { result ≡ has_progress waits_for_process (part_of self.now.world call key.now) }
    {
        waits_for_process(&self.machine.held, call, key)
    }

    /// Whether an event fits now. One that doesn't would have the outcome `Unfit`, and change nothing.
    pub fn fits(&self, event: &WorldEvent) -> bool
        ensures { result ≡ fits self.now.world event.now }
    {
        self.machine.fits(event)
    }

    /// Events of one kind and call at keys that differ, each of which fits now, fit one after the other: what happens at one key of a
    /// call takes nothing from its others. Changes of the store are such a kind only before the writer's return, which then fits after
    /// them. A call's leaving fits after the withdrawals of all that it has reserved. This does nothing: its contract is the statement.
    pub fn lets_keys_go_together(&self)
        ensures { FitTogether self.now.world }
    {
        stays_reached();
        keeps_reserved();
        let _ = &self.machine;
    }

    /// If a call fits, so do its looks at the stripes directly after it, and then it has reserved no key and joined no load. A call
    /// of one key is then under way. This does nothing: its contract is the statement.
    pub fn lets_calls_begin(&self)
        ensures { BeginFits self.now.world }
    {
        let _ = &self.machine;
    }

    /// What there is to see of the world.
    ///
    /// If write-through is on, and each entry with which the world was opened last was the store's, but for keys that were untold before,
    /// then no key differs but untold ones: those that somebody else has written, or about which a loader or a writer has lied, and of
    /// which the cache has had something ever since, an entry or a reservation. So each other cached value is the store's, but for keys
    /// whose writer has changed the store and whose call isn't committed. It looks at all entries.
    pub fn audit(&self, alloc: Global) -> Result<Audit, AllocError>
        ensures audit { IfOk result (λ a.
            IsAudit self.now.world a.cache.items a.store.items a.differing.items a.events a.is_legal) }
        ensures coherent { IfOk result (λ a. all_hold self.now.world ≡ true
            → CoherentAsTold self.now.world
            × (list_all (is_untold self.now.world) a.differing.items ≡ true)) }
        ensures legal { IfOk result (λ a. IsTrue a.is_legal) }
    {
        self.machine.audit(alloc)
    }

    /// Makes the world as [`new`](World::new) makes it in its present shape: the cache and the store are empty, no call has begun, and
    /// numbers count from the start. Reservations and joins that are out are ended first, as [`close`](World::close) ends them.
    ///
    /// It takes no memory, so it doesn't fail.
    pub fn restart(&mut self)
        ensures made { self.new ≡ record { world = start self.old.world.config; taken = 0 } }
        ensures fits { check self.old.world.config ≡ Ok tt }
    {
        self.machine.restart();
        self.played = 0;
    }

    /// Ends the world: each reservation that was answered is committed, each other one is given back, and each call that has
    /// joined a load picks up its answer. Nothing is left that would have to be ended.
    ///
    /// It takes no memory, so it doesn't fail.
    pub fn close(self) {
        let World { machine, played: _ } = self;
        machine.close();
    }
}
