//! `loadAll` of one session: many keys are loaded.
ghost use Rattle.std.specs.Prelude.{length};
ghost use Rattle.jc_cache.specs.Sessions.{Completes, MayCall};
ghost use Rattle.jc_bulk.specs.Bulk.{DoesAll, OrRefused};
ghost use Rattle.jc_bulk.specs.Outside.{bulk_behavior};
ghost use Rattle.jc_bulk.specs.Targets.{load_ops};

use crate::carrying::call_all;
use crate::fault::BulkFault;
use crate::outside::OutsideKind;
use indexmap::IndexSet;
use jc_cache::{Cache, Session};
use jc_model::Op;
use jc_rounds::Targets;
use jc_types::{BULK_KEYS_MAX, Key, Refusal};
use std::alloc::Global;
use std::sync::Wait;

/// Loads many keys by the session's loader, as its next call (JSR 107, `javax.cache.Cache.loadAll`, for the keys that one session
/// loads), whether or not the cache reads through. A key that has an entry is loaded only if it is to be replaced. A value that is
/// loaded is cached, and not written through; a key for which nothing is found keeps what it has. A session without a loader loads
/// nothing.
///
/// The call works in rounds, asks the loader (`loadAll`), fails and waits as [`get_all`](crate::get_all) does, except that no key
/// joins a load.
///
/// An `Err` names each key that failed, with its fault (`LoaderFailed`) or its refusal; every other key is loaded, if it was to be.
///
/// Condition: the session may call the cache.
pub fn load_keys<R: Wait>(
    alloc: Global,
    rt: &R,
    cache: &Cache,
    session: &mut Session,
    keys: &IndexSet<Key>,
    replace: bool,
) -> Result<(), BulkFault>
    requires may { MayCall cache.now session.old }
    ensures { Completes cache.now session.new
        (OrRefused (DoesAll (bulk_behavior loads_all load_state writes_all deletes_all write_state)
        cache.now session.old (load_ops replace keys.now.keys)) (length keys.now.keys) session.old result session.new) }
{
    if keys.len() > BULK_KEYS_MAX {
        return Err(BulkFault::of_whole_call(alloc, Refusal::TooManyKeys));
    }
    let targets = Targets::Each(keys.as_slice(), Op::LoadAll { replace });
    call_all(alloc, rt, cache, session, &targets, OutsideKind::Load)
}
