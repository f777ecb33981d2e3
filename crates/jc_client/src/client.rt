//! Clients: callers of a cache whose calls have no condition.
ghost use Rattle.std.specs.Prelude.{◌≡◌, ◌<◌, ◌≤◌, Ok, None};
ghost use Rattle.std.proofs.Props.{props};
ghost use Rattle.atomic_table.specs.Seated.{table_id_coded};
ghost use Rattle.jc_session.specs.Counting.{call_before};
ghost use Rattle.jc_model.specs.Statistics.{statistics_of};
ghost use Rattle.jc_cache.specs.Caches.{noted_by};
ghost use Rattle.jc_client.specs.Clients.{OnSameCache};
ghost use Rattle.jc_cache.specs.Counting.{Reads, occurred_in};
ghost use Rattle.jc_cache.specs.Forgetting.{HasInvalidated, HasInvalidatedAll};
ghost use Rattle.jc_cache.specs.Generations.{EndsAt, IsEndOf};
ghost use Rattle.jc_cache.specs.Meeting.{Meets};
ghost use Rattle.jc_cache.specs.Sessions.{IsOf, MayCall};

mod calls;
mod trying;

use jc_cache::{Cache, Session};
use jc_model::{Event, Statistics};
use jc_types::{Caller, Key};
use std::alloc::AllocError;
use std::sync::Wait;

/// A caller of a cache: a session, together with the cache that it may call. The type guarantees that it may, so no call of a
/// client has a condition, and its user states nothing to the prover. One thread at a time has it.
///
/// Calls without a method here, such as those with many keys, take `client.cache` and `&mut client.session`. Afterwards the
/// session must again be one that may call the cache, as each whole call states.
#[derive(Drop)]
pub struct Client<'a> {
    /// The cache.
    pub cache: &'a Cache,
    /// The session.
    pub session: Session,
    pub ghost may: { MayCall cache.now session } by { Prim.hlevel (props, table_id_coded) },
}

impl<'a> Client<'a> {
    /// Makes a client of this cache.
    ///
    /// Condition: the session may call the cache, like one that its owner has given out.
    pub fn new(cache: &'a Cache, session: Session) -> Client<'a>
        requires may { MayCall cache.now session }
        ensures cache { result.cache.now ≡ cache.entry.now }
        ensures session { result.session ≡ session }
    {
        Client { cache, session }
    }

    /// The session. Its cache is closed with all of its sessions.
    pub fn into_session(self) -> Session
        ensures session { result ≡ self.entry.session }
        ensures may { MayCall self.entry.cache.now result }
    {
        let Client { cache: _, session } = self;
        session
    }

    /// The number of steps that the session has made on the cache, up to `u64::MAX`, as by [`Session::own`].
    pub fn own(&self) -> u64
        ensures { result ≡ self.now.session.agent.counts.own }
    {
        self.session.own()
    }

    /// The caller of the call that was begun last: the session's number, and the call's.
    pub fn caller(&self) -> Caller
        ensures { result ≡ self.now.session.agent.caller }
    {
        self.session.caller()
    }

    /// Raises the number of the next call to `n`, as by [`Cache::skip_to`]; does nothing if it is already `n` or more.
    pub fn skip_to(&mut self, n: u64)
        ensures { OnSameCache self.old.cache self.new.cache (self.new.session ≡ record self.old.session {
          agent = record self.old.session.agent {
            caller = record self.old.session.agent.caller {
              call = call_before self.old.session.agent.caller.call n;
            };
          };
        }) }
    {
        self.cache.skip_to(&mut self.session, n);
    }

    /// The statistics of the steps of all sessions so far, in all generations, as by [`Cache::statistics`] (JSR 107,
    /// "Statistics").
    ///
    /// It may wait for a stripe while a phase is made there. It appends nothing to a history and takes no memory.
    pub fn statistics<R: Wait>(&mut self, rt: &R) -> Statistics
        ensures { OnSameCache self.old.cache self.new.cache (Reads self.old.session self.new.session
            × (result ≡ statistics_of (occurred_in (noted_by self.new.session.seats.items)))) }
    {
        self.cache.statistics(rt, &mut self.session)
    }

    /// Ends the present generation of a stripe of a cache that lives on, and appends its events, as by [`Cache::end_generation`].
    /// It returns how many generations of the stripe had ended before. `None` says that there is nothing to end, or no stripe of
    /// this number.
    ///
    /// It may wait for the stripe while a phase is made there, and holds it while the events are copied. An `Err` says that an
    /// allocation failed, and changes nothing.
    pub fn end_generation<R: Wait>(
        &mut self,
        rt: &R,
        stripe: usize,
        out: &mut Vec<Event>,
    ) -> Result<Option<u64>, AllocError>
        ensures cache { self.new.cache ≡ self.old.cache }
        ensures ended { stripe < self.old.cache.now.config.stripes → EndsAt stripe self.old.session
            (λ found left. IsEndOf result out.old.items out.new.items found left) self.new.session }
        ensures beyond { self.old.cache.now.config.stripes ≤ stripe
            → (result ≡ Ok None) × (out.new.items ≡ out.old.items) × (self.new.session ≡ self.old.session) }
    {
        if stripe >= self.cache.config().stripes {
            return Ok(None);
        }
        self.cache
            .end_generation(rt, &mut self.session, stripe, out)
    }

    /// Forgets a key that somebody else has written in the store, as by [`Cache::invalidate`]: no call that begins later is answered
    /// from what is cached or reserved of it now.
    ///
    /// It is never refused, asks nobody and takes no memory. It waits for nothing but the stripe, while a phase is made there.
    pub fn invalidate<R: Wait>(&mut self, rt: &R, key: &Key)
        ensures { OnSameCache self.old.cache self.new.cache
            (HasInvalidated self.old.cache.now self.old.session key.now self.new.session) }
    {
        self.cache.invalidate(rt, &mut self.session, key);
    }

    /// Forgets all keys, as by [`Cache::invalidate_all`].
    ///
    /// It is never refused, asks nobody and takes no memory. It waits for nothing but the stripes, while a phase is made there.
    pub fn invalidate_all<R: Wait>(&mut self, rt: &R)
        ensures { OnSameCache self.old.cache self.new.cache (HasInvalidatedAll self.old.session self.new.session) }
    {
        self.cache.invalidate_all(rt, &mut self.session);
    }

    /// Makes two clients of one cache meet: afterwards the hearer knows all that this client knows of the cache, as by
    /// [`Cache::meet`].
    ///
    /// It may wait for a stripe while a phase is made there. It appends nothing to a history and takes no memory.
    ///
    /// Condition: both are of the same cache.
    pub fn meet<R: Wait>(&mut self, rt: &R, hearer: &mut Client<'_>)
        requires same { hearer.old.cache.now ≡ self.old.cache.now }
        ensures { OnSameCache self.old.cache self.new.cache (OnSameCache hearer.old.cache hearer.new.cache
            (Meets self.old.session hearer.old.session self.new.session hearer.new.session)) }
    {
        self.cache.meet(rt, &mut self.session, &mut hearer.session);
    }
}
