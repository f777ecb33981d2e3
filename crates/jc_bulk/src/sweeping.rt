//! `removeAll` without keys, and `clear`: every key of a cache.
ghost use Rattle.std.specs.Prelude.{◌≡◌, ◌==◌, ◌*◌, IfOk};
ghost use Rattle.std.specs.List.{IsDistinct};
ghost use Rattle.std.specs.Cmp.Lexicographic.{pointwise};
ghost use Rattle.jc_cache.specs.Sessions.{Completes, MayCall};
ghost use Rattle.jc_bulk.specs.Bulk.{DoesAll, HasLooked, OnlyLooks, SweepsAll};
ghost use Rattle.jc_bulk.specs.Outside.{AsksAs, bulk_behavior};
ghost use Rattle.jc_bulk.specs.Targets.{clear_ops, remove_ops};
ghost use Rattle.jc_rounds.specs.Targets.{ops_with};

use crate::carrying::call_all;
use crate::fault::BulkFault;
use crate::outside::OutsideKind;
use jc_cache::{Cache, Session};
use jc_model::Op;
use jc_rounds::Targets;
use jc_stripe::phase_laws::is_uniform;
use jc_types::{Key, Refusal};
use std::alloc::{AllocError, Global};
use std::sync::Wait;

/// Removes every entry of the cache, as the session's next call (JSR 107, `javax.cache.Cache.removeAll` without keys). Each key is
/// removed on its own, and the whole isn't atomic.
///
/// Each stripe is looked at once, in their order, and the keys that it has then are removed as [`remove_all`](crate::remove_all)
/// does. There is no limit on their number. On an empty cache the writer isn't called.
///
/// An `Err` names each key that failed, as that of [`remove_all`](crate::remove_all) does. Or the memory for the keys, the first
/// round and the results could not be taken (`OutOfMemory`): then no key is named, and nothing changes.
///
/// It may wait, as long as the writer does and for other calls' reservations, and holds no stripe meanwhile.
///
/// Condition: the session may call the cache.
pub fn remove_every<R: Wait>(
    alloc: Global,
    rt: &R,
    cache: &Cache,
    session: &mut Session,
) -> Result<(), BulkFault>
    requires may { MayCall cache.now session.old }
    ensures { Completes cache.now session.new (SweepsAll cache.now.config.stripes (λ looked keys.
        DoesAll (bulk_behavior loads_all load_state writes_all deletes_all write_state) cache.now looked (remove_ops keys))
        session.old result session.new) }
{
    sweep(alloc, rt, cache, session, Op::Remove, OutsideKind::Delete)
}

/// Removes every entry of the cache, as the session's next call (JSR 107, `javax.cache.Cache.clear`). Neither the loader nor the
/// writer is asked, so nothing of the store changes.
///
/// Each stripe is looked at once, in their order, and each key that it has then is one step of it, with the number of this one
/// call. There is no limit on their number. It fails as [`remove_every`] does, except for the writer's faults.
///
/// It may wait for other calls' reservations, and holds no stripe meanwhile.
///
/// Condition: the session may call the cache.
pub fn clear<R: Wait>(
    alloc: Global,
    rt: &R,
    cache: &Cache,
    session: &mut Session,
) -> Result<(), BulkFault>
    requires may { MayCall cache.now session.old }
    ensures outside { session.new.agent.hands.outside ≡ session.old.agent.hands.outside }
    ensures swept { Completes cache.now session.new (SweepsAll cache.now.config.stripes (λ looked keys.
        DoesAll (bulk_behavior loads_all load_state writes_all deletes_all write_state) cache.now looked (clear_ops keys))
        session.old result session.new) }
{
    sweep(alloc, rt, cache, session, Op::Clear, OutsideKind::Load)
}

/// Carries out an operation at every key of the cache. If the operation asks outside at all, its calls are of this kind.
fn sweep<R: Wait>(
    alloc: Global,
    rt: &R,
    cache: &Cache,
    session: &mut Session,
    op: Op,
    kind: OutsideKind,
) -> Result<(), BulkFault>
    requires may { MayCall cache.now session.old }
    requires asks { AsksAs kind op }
    ensures { Completes cache.now session.new (SweepsAll cache.now.config.stripes (λ looked keys.
        DoesAll (bulk_behavior loads_all load_state writes_all deletes_all write_state) cache.now looked (ops_with op keys))
        session.old result session.new) }
{
    match look_at_all(alloc, rt, cache, session) {
        Err(_failed) => Err(BulkFault::of_whole_call(alloc, Refusal::OutOfMemory)),
        Ok(keys) => {
            let targets = Targets::Each(keys.as_slice(), op);
            call_all(alloc, rt, cache, session, &targets, kind)
        }
    }
}

/// Looks at each stripe once, in their order, and returns the keys of all. Room for as many as the cache may have is taken first.
fn look_at_all<R: Wait>(
    alloc: Global,
    rt: &R,
    cache: &Cache,
    session: &mut Session,
) -> Result<Vec<Key>, AllocError>
    requires may { MayCall cache.now session.old }
    ensures { Completes cache.now session.new (OnlyLooks session.old session.new
        × IfOk result (λ keys. HasLooked cache.now.config.stripes session.old.seats.items session.new.seats.items keys.items
        × IsDistinct (pointwise ◌==◌) keys.items)) }
{
    let mut keys = Vec::with_capacity(alloc, most_entries(cache))?;
    is_uniform();
    for number in 0..cache.config().stripes {
        cache.look(rt, session, number, &mut keys);
    }
    Ok(keys)
}

/// The number of entries that the cache may have.
fn most_entries(cache: &Cache) -> usize
    ensures { result ≡ cache.now.config.stripes * cache.now.config.capacity }
{
    let config = cache.config();
    config.stripes * config.capacity
}
