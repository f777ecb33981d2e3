//! A cache of stripes, each under its lock, that threads share.
ghost use Rattle.std.specs.Prelude.{◌≡◌, ◌<◌, false, Result, Ok, length};
ghost use Rattle.jc_types.specs.Stripes.{stripe_of};
ghost use Rattle.jc_types.specs.declared.refusal.Refusal.{Refusal};
ghost use Rattle.jc_model.specs.Table.{is_invoke};
ghost use Rattle.jc_model.specs.declared.event.Reply.{Reply};
ghost use Rattle.jc_stripe.specs.OwnSteps.{OwnNumbers, StepsBehind};
ghost use Rattle.jc_cache.specs.CacheInside.{IsShaped};
ghost use Rattle.jc_cache.specs.Sessions.{MayCall, Completes};
ghost use Rattle.jc_engine.specs.Rows.{PhaseLaws};
ghost use Rattle.jc_engine.specs.Entering.{ended_with};
ghost use Rattle.jc_cache.specs.Calls.{Called, Gets, Tried, Invoked, value_in, value_into};

use crate::calls::value_of;
use jc_engine::laws::one_lending;
use jc_engine::{Access, Invocation};
use jc_lock::HistLock;
use jc_model::{Op, Reply};
use jc_mutentry::EntryProcessor;
use jc_session::Session;
use jc_stripe::phase_laws::{own_numbers, steps_behind};
use jc_types::{Config, Key, Refusal, Value, stripe_of};
use std::marker::Model;
use std::sync::Wait;

/// A cache, which threads share by `&Cache`. Its [owner](crate::CacheOwner) makes it, closes it and gives out its sessions.
///
/// Contracts see its shape, and which locks its stripes are under. They don't state what is in the stripes, since others may
/// change that at any time. What a session has seen is known of the session.
#[derive(Drop)]
pub struct Cache {
    pub(crate) config: Config,
    pub(crate) locks: Vec<HistLock>,
}

impl Model for Cache {
    ghost use Rattle.std.specs.Coded.{codes, coded_list};
    ghost use Rattle.atomic_table.specs.Seated.{table_id_coded};
    ghost use Rattle.jc_cache.specs.Caches.{CacheState};
    ghost use Rattle.jc_cache.specs.CacheInside.{IsShaped};

    ghost Value = { CacheState };

    ghost coded = { Prim.hlevel (codes, coded_list table_id_coded) };

    ghost view = { λ c. record { config = c.config; locks = c.locks.items } };

    ghost invariant = { λ c. IsShaped c.config c.locks.items };
}

impl Cache {
    /// The shape of the cache.
    pub fn config(&self) -> &Config
        ensures config { result.now ≡ self.now.config }
        ensures shaped { IsShaped self.now.config self.now.locks }
    {
        &self.config
    }

    /// The locks of the stripes, by their numbers.
    pub(crate) fn locks(&self) -> &[HistLock]
        ensures locks { result.now ≡ self.now.locks }
        ensures count { length self.now.locks ≡ self.now.config.stripes }
    {
        &self.locks
    }

    /// The number of the key's stripe.
    pub(crate) fn stripe_of(&self, key: &Key) -> usize
        ensures at { result ≡ stripe_of key.now self.now.config.stripes }
        ensures near { result < self.now.config.stripes }
    {
        stripe_of(key, self.config.stripes)
    }

    /// Carries out the session's next call on one key. Its reply is written to `reply`.
    pub(crate) fn call<R: Wait>(
        &self,
        rt: &R,
        session: &mut Session,
        key: &Key,
        op: &Op,
        reply: &mut Reply,
    ) -> Result<(), Refusal>
        requires op { is_invoke op.now ≡ false }
        requires may { MayCall self.now session.old }
        ensures { Completes self.now session.new
            (Called loads load_state writes write_state
            self.now session.old key.now op.now (ended_with result reply.new) session.new) }
    {
        laws();
        let at = self.stripe_of(key);
        session.agent.next_call();
        let mut lock = &self.locks[at];
        let mut access = Access {
            gate: &mut lock,
            token: &mut session.seats[at],
            agent: &mut session.agent,
        };
        access.call(rt, key, op, reply)
    }

    /// Writes the key's value to `value`, as [`get`](Cache::get) reads it, and says whether there is one. If there is none, and
    /// none is loaded, `value` stays. It is for a caller that reuses its memory for values: a hit isn't copied once more.
    ///
    /// An `Err` is `LoaderFailed` or `HistoryFull`, and leaves `value` as it was. It may wait, also as long as the loader does.
    /// Condition: the session may call the cache.
    pub fn get_into<R: Wait>(
        &self,
        rt: &R,
        session: &mut Session,
        key: &Key,
        value: &mut Value,
    ) -> Result<bool, Refusal>
        requires may { MayCall self.now session.old }
        ensures { Completes self.now session.new
            (Gets loads load_state writes write_state
            self.now session.old key.now (value_into value.old) (result, value.new) session.new) }
    {
        laws();
        let at = self.stripe_of(key);
        session.agent.next_call();
        let mut lock = &self.locks[at];
        let mut access = Access {
            gate: &mut lock,
            token: &mut session.seats[at],
            agent: &mut session.agent,
        };
        access.get_into(rt, key, value)
    }

    /// Carries out the session's next call on one key, if it can be done at once. Its reply is written to `reply`.
    pub(crate) fn try_call(
        &self,
        session: &mut Session,
        key: &Key,
        op: &Op,
        reply: &mut Reply,
    ) -> Result<(), Refusal>
        requires may { MayCall self.now session.old }
        ensures { Completes self.now session.new
            (Tried self.now session.old key.now op.now (ended_with result reply.new) session.new) }
    {
        laws();
        let at = self.stripe_of(key);
        session.agent.next_call();
        let mut lock = &self.locks[at];
        let mut access = Access {
            gate: &mut lock,
            token: &mut session.seats[at],
            agent: &mut session.agent,
        };
        access.try_call(key, op, reply)
    }

    /// Runs a processor on one key, as the session's next call (JSR 107, "Entry Processors"). It returns the processor's result,
    /// or none. An `Err` is the first fault of the loader, the processor and the writer, which leaves the entry as it was; or it
    /// is `HistoryFull`, and then nobody was asked and nothing changes.
    ///
    /// It may wait, as long as the processor, the loader and the writer do, and as any call does; it holds no stripe meanwhile.
    /// No other call changes the entry between the moment at which the processor is shown it and the processor's net effect.
    ///
    /// Condition: the session may call the cache.
    pub fn invoke<R: Wait>(
        &self,
        rt: &R,
        session: &mut Session,
        key: &Key,
        processor: &mut Box<dyn EntryProcessor + Send + Drop>,
        args: &[Value],
    ) -> Result<Option<Value>, Refusal>
        requires may { MayCall self.now session.old }
        ensures { Completes self.now session.new
            ((ended : Result Reply Refusal) × Invoked loads load_state writes write_state processes process_state
            self.now session.old key.now args.now processor.old ended session.new processor.new
            × (result ≡ value_in ended)) }
    {
        laws();
        let at = self.stripe_of(key);
        session.agent.next_call();
        let mut lock = &self.locks[at];
        let mut access = Access {
            gate: &mut lock,
            token: &mut session.seats[at],
            agent: &mut session.agent,
        };
        let mut invocation = Invocation { processor, args };
        let mut reply = Reply::Unit;
        let through = self.config.write_through;
        let ended = access.invoke(rt, key, through, &mut invocation, &mut reply);
        value_of(ended, &reply)
    }
}

/// The laws of every stripe on which the contract of a whole call rests.
fn laws()
    ensures lending { PhaseLaws }
    ensures numbers { OwnNumbers }
    ensures behind { StepsBehind }
{
    one_lending();
    own_numbers();
    steps_behind();
}
