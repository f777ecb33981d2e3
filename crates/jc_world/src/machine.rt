//! The machine below a world, with a function for each kind of event.
ghost use Rattle.std.specs.Prelude.{◌≡◌, true, false, Ok, IfOk, OnErr, OnOk, Option, None, Some};
ghost use Rattle.jc_types.specs.Limits.{check};
ghost use Rattle.jc_model.specs.Cache.{entry_at};
ghost use Rattle.jc_world.specs.declared.event.WorldEvent.TheVariants as event;
ghost use Rattle.jc_world.specs.World.{start, with_stored};
ghost use Rattle.jc_world.specs.Fits.{fits};
ghost use Rattle.jc_world.specs.Events.{Happens, not_over};
ghost use Rattle.jc_world.specs.Runs.{Step};
ghost use Rattle.jc_world.specs.declared.event.Outcome.TheVariants as outcome;
ghost use Rattle.jc_world.specs.Sound.{IsSoundWorld};

mod answering;
mod auditing;
mod fitting;
mod looking;
mod processing;
mod reopening;

use crate::calls::{begin, drop_call, fault_in, find_call, refuse, settle};
use crate::command::Command;
use crate::ending::{end_all, pick_all};
use crate::event::{JoinAnswer, Outcome, Premises, Shown, WorldEvent, show, show_end};
use crate::foreign::{doubt, forget};
use crate::held_keys::{HeldKeys, hold, is_misled, make_room, take};
use crate::joined::{Joins, make_join_room, put_join, take_join};
use crate::open_call::OpenCall;
use crate::stripes::{Stripes, shown_of};
use jc_model::{Contents, Reply};
use jc_stripe::{Picked, Started};
use jc_types::{Caller, Config, Key, Value, stripe_of};
use std::alloc::{AllocError, Global};
use std::marker::Model;

/// Stripes, a store, and the calls under way.
pub(crate) struct Machine {
    alloc: Global,
    pub(crate) config: Config,
    pub(crate) stripes: Stripes,
    pub(crate) store: Contents,
    // The foreign keys, each with an empty value.
    pub(crate) foreign: Contents,
    pub(crate) last: Option<u64>,
    pub(crate) calls: Vec<OpenCall>,
    pub(crate) held: HeldKeys,
    pub(crate) joins: Joins,
    pub(crate) premises: Premises,
    pub(crate) is_fresh: bool,
}

impl Model for Machine {
    ghost use Rattle.std.specs.Coded.{codes};
    ghost use Rattle.std.specs.FinMap.{code};
    ghost use Rattle.jc_world.specs.World.{WorldState};

    ghost Value = { WorldState };

    ghost coded = { Prim.hlevel (codes, code) };

    ghost use Rattle.jc_world.specs.Inside.{world_of};

    ghost view = { world_of };
}

impl Machine {
    /// Empty stripes beside an empty store, and no call.
    pub(crate) fn new(alloc: Global, config: &Config) -> Result<Self, AllocError>
        requires { check config.now ≡ Ok tt }
        ensures { IfOk result (λ m. m ≡ start config.now) }
    {
        let stripes = Stripes::new(alloc, config)?;
        Ok(Machine {
            alloc,
            config: *config,
            stripes,
            store: Contents::new(alloc),
            foreign: Contents::new(alloc),
            last: None,
            calls: Vec::new(alloc),
            held: HeldKeys::new(alloc),
            joins: Joins::new(alloc),
            premises: Premises {
                writers: true,
                loaders: true,
                opening: true,
            },
            is_fresh: true,
        })
    }

    /// Makes the machine as `new` makes it in its present shape. Reservations and joins that are out are ended first, as by `close`.
    pub(crate) fn restart(&mut self)
        requires { IsSoundWorld self.old }
        ensures { self.new ≡ start self.old.config }
    {
        self.stripes
            .restart(&self.config, &mut self.held, &mut self.joins);
        self.store = Contents::new(self.alloc);
        self.foreign = Contents::new(self.alloc);
        self.last = None;
        self.calls.clear();
        self.premises = Premises {
            writers: true,
            loaders: true,
            opening: true,
        };
        self.is_fresh = true;
    }

    /// The store's value of a key.
    fn stored(&self, key: &Key) -> Option<Value>
        ensures { result ≡ entry_at self.now.store key.now }
    {
        self.store.get(key).copied()
    }

    /// Gives the store a value.
    pub(crate) fn store(&mut self, key: &Key, value: &Value) -> Result<(), AllocError>
        ensures ok { OnOk result (self.new ≡ with_stored self.old key.now value.now) }
        ensures err { OnErr result (self.new ≡ self.old) }
    {
        self.store.set(key, Some(*value))
    }

    /// Plays one event and shows it. An event that doesn't fit is shown as unfit, and changes nothing.
    pub(crate) fn step(&mut self, event: &WorldEvent, seen: &mut Shown) -> Result<(), AllocError>
        requires { IsSoundWorld self.old }
        ensures step { OnOk result (Step self.old event.now seen.new self.new) }
        ensures err { OnErr result (self.new ≡ self.old) }
    {
        if !self.fits(event) {
            show_unfit(seen);
            return Ok(());
        }
        self.apply(event, seen)
    }

    /// Plays one event that fits. Each kind has a function of its own, in the machine code too, because a function clears the room
    /// of all its values when it begins, and an event is to clear only its own.
    fn apply(&mut self, event: &WorldEvent, seen: &mut Shown) -> Result<(), AllocError>
        requires sound { IsSoundWorld self.old }
        requires fits { fits self.old event.now ≡ true }
        ensures ok { OnOk result (Happens self.old event.now seen.new self.new) }
        ensures err { OnErr result (self.new ≡ self.old) }
    {
        match event {
            WorldEvent::Call {
                call,
                session,
                command,
            } => self.begin_call(*call, *session, command, seen),
            WorldEvent::Look { call, stripe } => self.look(*call, *stripe, seen),
            WorldEvent::Start { call, key } => self.start(*call, key, seen),
            WorldEvent::Read { call, key } => Ok(self.read(*call, key, seen)),
            WorldEvent::Say { call, key, answer } => Ok(self.say(*call, key, answer, seen)),
            WorldEvent::Change { call, key } => self.change(*call, key, seen),
            WorldEvent::Report { call, left, fault } => {
                self.writer_returns(*call, left, *fault, seen)
            }
            WorldEvent::Process {
                call,
                key,
                load,
                calls,
                fail,
            } => self.process(*call, key, load, calls, *fail, seen),
            WorldEvent::Commit { call, key } => self.commit(*call, key, seen),
            WorldEvent::Withdraw { call, key } => self.withdraw(*call, key, seen),
            WorldEvent::Leave { call } => Ok(self.leave(*call, seen)),
            WorldEvent::PickUp { call, key } => self.pick_up(*call, key, seen),
            WorldEvent::Foreign { key, value } => self.foreign_write(key, value, seen),
            WorldEvent::Invalidate { key } => self.invalidate(key, seen),
            WorldEvent::Reopen { config } => self.reopen(config, seen),
        }
    }

    /// A call begins.
    fn begin_call(
        &mut self,
        call: u64,
        session: u32,
        command: &Command,
        seen: &mut Shown,
    ) -> Result<(), AllocError>
        ensures ok { OnOk result (
            Happens self.old (event.Call call session command.now) seen.new self.new) }
        ensures err { OnErr result (self.new ≡ self.old) }
    {
        let caller = Caller { session, call };
        begin(self.alloc, &mut self.calls, caller, command, seen)?;
        self.last = Some(call);
        self.is_fresh = false;
        Ok(())
    }

    /// A call leaves.
    #[inline(never)]
    fn leave(&mut self, call: u64, seen: &mut Shown)
        ensures { Happens self.old (event.Leave call) seen.new self.new }
    {
        drop_call(&mut self.calls, call);
        show(seen, Outcome::Left);
    }

    /// The first phase of a key of a call.
    #[inline(never)]
    fn start(&mut self, call: u64, key: &Key, seen: &mut Shown) -> Result<(), AllocError>
        requires sound { IsSoundWorld self.old }
        requires fits { fits self.old (event.Start call key.now) ≡ true }
        ensures ok { OnOk result (Happens self.old (event.Start call key.now) seen.new self.new) }
        ensures err { OnErr result (self.new ≡ self.old) }
    {
        make_room(&mut self.held)?;
        make_join_room(&mut self.joins)?;
        self.stripes.reserve()?;
        let Some(u) = find_call(&self.calls, call) else {
            unreachable!()
        };
        let op = u.op_at_open(key);
        let caller = u.caller();
        let kind = u.kind();
        let number = stripe_of(key, self.config.stripes);
        let is_new = self.stripes.is_missing(number, key);
        let mut reply = Reply::Unit;
        match self.stripes.begin(number, &caller, key, op, &mut reply) {
            Started::Done(done) => {
                let over = settle(&mut self.calls, caller.call, key, fault_in(&reply));
                show_end(seen, Outcome::Stepped(shown_of(number, done, &reply)), over);
            }
            Started::Joined(join) => {
                put_join(&mut self.joins, join);
                show(seen, Outcome::Joins);
            }
            Started::Refused(refusal) => {
                refuse(&mut self.calls, kind, caller.call, key, refusal, seen);
            }
            Started::Asks(ticket) => {
                forget(&mut self.foreign, key, is_new);
                hold(&mut self.held, ticket, seen)
            }
        }
        Ok(())
    }

    /// The last phase of a key.
    #[inline(never)]
    fn commit(&mut self, call: u64, key: &Key, seen: &mut Shown) -> Result<(), AllocError>
        requires sound { IsSoundWorld self.old }
        requires fits { fits self.old (event.Commit call key.now) ≡ true }
        ensures ok { OnOk result (Happens self.old (event.Commit call key.now) seen.new self.new) }
        ensures err { OnErr result (self.new ≡ self.old) }
    {
        self.stripes.reserve()?;
        doubt(&mut self.foreign, key, is_misled(&self.held, key))?;
        let number = stripe_of(key, self.config.stripes);
        let held = take(&mut self.held, key);
        let mut reply = Reply::Unit;
        let done = self.stripes.commit(number, held, &mut reply);
        let agrees = self.stripes.is_agreed(number, key, &self.store);
        forget(&mut self.foreign, key, agrees);
        let over = settle(&mut self.calls, call, key, fault_in(&reply));
        let outcome = Outcome::Stepped(shown_of(number, done, &reply));
        *seen = Shown { outcome, over };
        Ok(())
    }

    /// The reservation of a key is given back.
    #[inline(never)]
    fn withdraw(&mut self, call: u64, key: &Key, seen: &mut Shown) -> Result<(), AllocError>
        requires sound { IsSoundWorld self.old }
        requires fits { fits self.old (event.Withdraw call key.now) ≡ true }
        ensures ok { OnOk result (Happens self.old (event.Withdraw call key.now) seen.new self.new) }
        ensures err { OnErr result (self.new ≡ self.old) }
    {
        self.stripes.reserve()?;
        let number = stripe_of(key, self.config.stripes);
        let held = take(&mut self.held, key);
        let evicted = self.stripes.withdraw(number, held);
        show(seen, Outcome::Withdrawn(evicted));
        Ok(())
    }

    /// The cache forgets a key.
    #[inline(never)]
    fn invalidate(&mut self, key: &Key, seen: &mut Shown) -> Result<(), AllocError>
        requires fits { fits self.old (event.Invalidate key.now) ≡ true }
        requires sound { IsSoundWorld self.old }
        ensures ok { OnOk result (Happens self.old (event.Invalidate key.now) seen.new self.new) }
        ensures err { OnErr result (self.new ≡ self.old) }
    {
        self.stripes.reserve()?;
        let number = stripe_of(key, self.config.stripes);
        let outcome = self.stripes.invalidate(number, key);
        self.is_fresh = false;
        show(seen, outcome);
        Ok(())
    }

    /// A call that has joined a load asks for its answer. If that is too early, the join is put back. Room for that is made first,
    /// since the map doesn't promise that the place of a join that was taken out is free again.
    #[inline(never)]
    fn pick_up(&mut self, call: u64, key: &Key, seen: &mut Shown) -> Result<(), AllocError>
        requires sound { IsSoundWorld self.old }
        requires fits { fits self.old (event.PickUp call key.now) ≡ true }
        ensures ok { OnOk result (Happens self.old (event.PickUp call key.now) seen.new self.new) }
        ensures err { OnErr result (self.new ≡ self.old) }
    {
        make_join_room(&mut self.joins)?;
        let stripe = stripe_of(key, self.config.stripes);
        let join = take_join(&mut self.joins, call, key);
        let mut reply = Reply::Unit;
        match self.stripes.pick_up(stripe, join, &mut reply) {
            Picked::Answer {
                place: step,
                shared_with: shared,
            } => {
                let over = settle(&mut self.calls, call, key, fault_in(&reply));
                let answer = JoinAnswer {
                    reply,
                    stripe,
                    place: step,
                    shared,
                };
                show_end(seen, Outcome::PickedUp(answer), over);
            }
            Picked::Again => show(seen, Outcome::Again),
            Picked::NotYet(join) => {
                put_join(&mut self.joins, join);
                show(seen, Outcome::Waits);
            }
        }
        Ok(())
    }

    /// Ends the machine: answered reservations are committed, the others are given back, and the joins are picked up.
    pub(crate) fn close(self)
        requires { IsSoundWorld self }
    {
        let Machine {
            alloc: _,
            config,
            stripes,
            store: _,
            foreign: _,
            last: _,
            calls: _,
            mut held,
            mut joins,
            premises: _,
            is_fresh: _,
        } = self;
        let mut items = stripes.into_items();
        end_all(&config, &mut items, &mut held, &joins);
        pick_all(&config, &mut items, &mut joins);
        held.destroy_empty();
        joins.destroy_empty();
    }
}

/// Shows that an event doesn't fit. Like each kind of event, it has a function of its own.
#[inline(never)]
fn show_unfit(seen: &mut Shown)
    ensures { seen.new ≡ not_over outcome.Unfit }
{
    show(seen, Outcome::Unfit);
}
