//! The owner of a cache.
ghost use Rattle.std.specs.Prelude.{◌≡◌, ◌⊎◌, ◌+◌, ◌++◌, ◌≤◌, Bool, true, false, List, [], Ok, Err, Some, None, IfOk, IfErr, is_some, map, length, replicate, vec_len, vec_capacity};
ghost use Rattle.atomic_table.specs.Seated.{TableId};
ghost use Rattle.jc_types.specs.Limits.{check};
ghost use Rattle.jc_types.specs.declared.refusal.Refusal.TheVariants.{OutOfMemory};
ghost use Rattle.jc_model.specs.Cache.{Bytes};
ghost use Rattle.jc_model.specs.Listed.{has_distinct_keys};
ghost use Rattle.jc_stripe.specs.Renewal.{live_on};
ghost use Rattle.jc_stripe.specs.Reopening.{dropped};
ghost use Rattle.jc_lock.specs.Views.{after_split, session_view};
ghost use Rattle.jc_lock.specs.declared.view.View.{View};
ghost use Rattle.jc_cache.specs.Caches.{OpensWith, fronts_of, noted_by, session_refusal, stripes_opening};
ghost use Rattle.jc_cache.specs.CacheInside.{IsWhole, GiveNumbers};
ghost use Rattle.jc_cache.specs.Sessions.{IsGivenOut, IsNotGivenOut};

use crate::cache::Cache;
use jc_lock::{HistLock, Seat};
use jc_outside::{CacheLoader, CacheWriter};
use jc_session::{Agent, Session, SessionFault};
use jc_stripe::{Origin, ReopenedStripes, Stripe, reopen};
use jc_types::{Config, Key, Refusal, SESSIONS_MAX, Value};
use std::alloc::{AllocError, Global};
use std::marker::Model;

/// The owner of a cache: creates it, hands out sessions, lends it to threads, and closes it.
///
/// It has a seat of its own at each lock, from which the sessions get their numbers. Threads don't share a seat, so they don't
/// share an owner either, only its cache.
///
/// Contracts see in it what these seats have noted of each stripe, and what they have seen of the history. A session that it
/// gives out begins with that.
#[derive(Drop)]
pub struct CacheOwner {
    pub(crate) cache: Cache,
    pub(crate) given: u32,
    pub(crate) seats: Vec<Seat>,
}

impl Model for CacheOwner {
    ghost use Rattle.std.specs.Coded.{codes, coded_list};
    ghost use Rattle.atomic_table.specs.Seated.{table_id_coded};
    ghost use Rattle.jc_model.specs.Cache.{cache_code};
    ghost use Rattle.jc_cache.specs.Caches.{CacheOwnerState, noted_by, fronts_of, logs_of};
    ghost use Rattle.jc_cache.specs.CacheInside.{IsWhole};

    ghost Value = { CacheOwnerState };

    ghost coded = { Prim.hlevel (codes, cache_code, coded_list table_id_coded) };

    ghost view = { λ o. record {
      cache = o.cache;
      given = o.given;
      noted = noted_by o.seats.items;
      fronts = fronts_of o.seats.items;
      logs = logs_of o.seats.items;
    } };

    ghost invariant = { λ o. IsWhole o.cache.config o.given o.cache.locks o.seats.items };
}

/// Makes locks round these stripes, each with its first seat. An `Err` says that an allocation failed.
///
/// Condition: they are all stripes of a cache of this shape, and nothing has happened in them.
fn locks(
    alloc: Global,
    config: &Config,
    stripes: Vec<Stripe>,
) -> Result<(Vec<HistLock>, Vec<Seat>), AllocError>
    requires fits { check config.now ≡ Ok tt }
    requires opened { (lives : Bool) × (entries : List (Bytes × Bytes)) × (stripes.items ≡ stripes_opening lives config.now entries) }
    ensures { IfOk result (λ r. IsWhole config.now 0 r.0.items r.1.items
        × (noted_by r.1.items ≡ stripes.items)
        × (fronts_of r.1.items ≡ replicate config.now.stripes [])) }
{
    let mut locks = Vec::with_capacity(alloc, config.stripes)?;
    let mut seats = Vec::with_capacity(alloc, config.stripes)?;
    for stripe in stripes {
        let (lock, seat) = HistLock::new(alloc, Box::new(alloc, stripe)?)?;
        locks.push_reserved(lock);
        seats.push_reserved(seat);
    }
    Ok((locks, seats))
}

/// Makes each of these stripes begin a new generation when its history is full.
fn live_on(stripes: &mut [Stripe])
    ensures { stripes.new ≡ map live_on stripes.old }
{
    for stripe in stripes.iter_mut() {
        stripe.live_on();
    }
}

/// Makes the owner of a cache of this shape that opens with these entries, and lives on or doesn't. It also returns the entries
/// that had no room. An `Err` says that an allocation failed.
///
/// Conditions: `config.check()` is `Ok`; each key is there once.
pub(crate) fn open_with(
    alloc: Global,
    config: &Config,
    lives: bool,
    entries: &[(Key, Value)],
) -> Result<(CacheOwner, Vec<(Key, Value)>), AllocError>
    requires fits { check config.now ≡ Ok tt }
    requires once { has_distinct_keys entries.now ≡ true }
    ensures { IfOk result (λ r. OpensWith lives config.now entries.now r.0
        × (r.1.items ≡ dropped config.now entries.now)) }
{
    let ReopenedStripes {
        mut stripes,
        dropped,
    } = reopen(alloc, config, Origin::Live, entries)?;
    if lives {
        live_on(stripes.as_mut_slice());
    }
    let (locks, seats) = locks(alloc, config, stripes)?;
    let cache = Cache {
        config: *config,
        locks,
    };
    let owner = CacheOwner {
        cache,
        given: 0,
        seats,
    };
    Ok((owner, dropped))
}

/// Makes a seat for the next session at each lock.
fn split(locks: &[HistLock], own: &mut Vec<Seat>, seats: &mut Vec<Seat>)
    requires locks { map (λ (seat : TableId × View). seat.0) own.old.items ≡ locks.now }
    requires gives { GiveNumbers own.old.items }
    requires room { vec_len seats.old + length locks.now ≤ vec_capacity seats.old }
    ensures own { own.new.items ≡ map (λ (seat : TableId × View). (seat.0, after_split seat.1)) own.old.items }
    ensures seats { seats.new.items ≡ seats.old.items ++ map (λ (seat : TableId × View). (seat.0, session_view seat.1)) own.old.items }
{
    for i in 0..locks.len() {
        seats.push_reserved(locks[i].split(&mut own[i]));
    }
}

impl CacheOwner {
    /// Makes an empty cache of this shape: each stripe has its first number, and no history. All memory that the cache may need
    /// is taken here, except for entries and sessions.
    ///
    /// It is refused if the shape is out of its limits (`BadConfig`), or if an allocation failed (`OutOfMemory`).
    pub fn new(alloc: Global, config: &Config) -> Result<CacheOwner, Refusal>
        ensures ok { IfOk result (λ o. OpensWith false config.now [] o) }
        ensures err { IfErr result (λ r. (check config.now ≡ Err r) ⊎ ((check config.now ≡ Ok tt) × (r ≡ OutOfMemory))) }
    {
        CacheOwner::empty(alloc, config, false)
    }

    /// Makes an empty cache of this shape that lives on: no call of its sessions is refused because a history is full, up to call
    /// number `u64::MAX`.
    ///
    /// A stripe whose history is full ends its *generation*: its history so far is whole and legal, and is forgotten; the next
    /// generation begins with what is cached, in its order of use. The call that finds the stripe full does this, and takes no
    /// memory for it. A generation can't end while a load's answer is there that nobody has picked up. Calls that need a place in
    /// the history wait so long, and those that never wait are refused as `Busy`.
    ///
    /// It is refused as by [`new`](CacheOwner::new).
    pub fn living(alloc: Global, config: &Config) -> Result<CacheOwner, Refusal>
        ensures ok { IfOk result (λ o. OpensWith true config.now [] o) }
        ensures err { IfErr result (λ r. (check config.now ≡ Err r) ⊎ ((check config.now ≡ Ok tt) × (r ≡ OutOfMemory))) }
    {
        CacheOwner::empty(alloc, config, true)
    }

    /// Makes an empty cache of this shape, which lives on or doesn't.
    fn empty(alloc: Global, config: &Config, lives: bool) -> Result<CacheOwner, Refusal>
        ensures ok { IfOk result (λ o. OpensWith lives config.now [] o) }
        ensures err { IfErr result (λ r. (check config.now ≡ Err r) ⊎ ((check config.now ≡ Ok tt) × (r ≡ OutOfMemory))) }
    {
        config.check()?;
        match open_with(alloc, config, lives, &[]) {
            Ok((owner, _)) => Ok(owner),
            Err(_) => Err(Refusal::OutOfMemory),
        }
    }

    /// Gives out a session with a loader and a writer of its own, and a seat at each stripe.
    ///
    /// It is refused, and hands the boxes back, if `SESSIONS_MAX` sessions were given out (`TooManySessions`), if the cache reads
    /// through and there is no loader (`NoLoader`), if it writes through and there is no writer (`NoWriter`), or if an allocation
    /// failed (`OutOfMemory`), tested in this order. Sessions that were given out before stay as they are.
    ///
    /// The session has made no step, and has seen of each stripe what its owner has: nothing, if neither [`CacheOwner::close`] nor
    /// [`CacheOwner::end`] was refused.
    pub fn session(
        &mut self,
        alloc: Global,
        loader: Option<Box<dyn CacheLoader + Send + Drop>>,
        writer: Option<Box<dyn CacheWriter + Send + Drop>>,
    ) -> Result<Session, SessionFault>
        ensures ok { IfOk result
            (λ s. IsGivenOut self.old self.new (record { loader = loader; writer = writer }) s) }
        ensures err { IfErr result
            (λ f. IsNotGivenOut self.old self.new (record { loader = loader; writer = writer }) f) }
    {
        if let Some(refusal) = self.session_refusal(loader.is_some(), writer.is_some()) {
            return Err(SessionFault {
                refusal,
                loader,
                writer,
            });
        }
        match Vec::with_capacity(alloc, self.cache.locks().len()) {
            Ok(seats) => Ok(self.give_out(seats, loader, writer)),
            Err(_) => Err(SessionFault {
                refusal: Refusal::OutOfMemory,
                loader,
                writer,
            }),
        }
    }

    /// The cache, to be shared with threads.
    pub fn cache(&self) -> &Cache
        ensures { result.now ≡ self.now.cache }
    {
        &self.cache
    }

    /// The refusal of a session with or without a loader and a writer, if it is refused.
    fn session_refusal(&self, has_loader: bool, has_writer: bool) -> Option<Refusal>
        ensures { result ≡ session_refusal self.now has_loader has_writer }
    {
        if self.given >= SESSIONS_MAX {
            return Some(Refusal::TooManySessions);
        }
        if self.cache.config().read_through && !has_loader {
            return Some(Refusal::NoLoader);
        }
        if self.cache.config().write_through && !has_writer {
            return Some(Refusal::NoWriter);
        }
        None
    }

    /// Gives out the next session. The list has room for its seats.
    fn give_out(
        &mut self,
        seats: Vec<Seat>,
        loader: Option<Box<dyn CacheLoader + Send + Drop>>,
        writer: Option<Box<dyn CacheWriter + Send + Drop>>,
    ) -> Session
        requires refused { session_refusal self.old (is_some loader) (is_some writer) ≡ None }
        requires empty { seats.items ≡ [] }
        requires room { length self.old.cache.locks ≤ vec_capacity seats }
        ensures { IsGivenOut self.old self.new (record { loader = loader; writer = writer }) result }
    {
        let mut seats = seats;
        split(self.cache.locks(), &mut self.seats, &mut seats);
        let agent = Agent::new(self.given, loader, writer);
        self.given += 1;
        Session { seats, agent }
    }
}
