//! `putAll` and `removeAll`: many keys are written or deleted.
ghost use Rattle.std.specs.Prelude.{length};
ghost use Rattle.jc_cache.specs.Sessions.{Completes, MayCall};
ghost use Rattle.jc_bulk.specs.Bulk.{DoesAll, OrRefused};
ghost use Rattle.jc_bulk.specs.Outside.{bulk_behavior};
ghost use Rattle.jc_rounds.specs.Targets.{put_ops};
ghost use Rattle.jc_bulk.specs.Targets.{remove_ops};

use crate::carrying::call_all;
use crate::fault::BulkFault;
use crate::outside::OutsideKind;
use indexmap::{IndexMap, IndexSet};
use jc_cache::{Cache, Session};
use jc_model::Op;
use jc_rounds::Targets;
use jc_types::{BULK_KEYS_MAX, Key, Refusal, Value};
use std::alloc::Global;
use std::sync::Wait;

/// Puts many entries, as the session's next call (JSR 107, `javax.cache.Cache.putAll`). Each entry is put on its own, and the whole
/// isn't atomic.
///
/// The call works in rounds. A round begins each key that it can, in their order and without waiting:
///
/// - A key that is reserved, or whose stripe has as many reservations as it may, is put off to a later round.
/// - Without write-through, any other key is done at once.
///
/// With it, the writer is then called once (`writeAll`), for all keys that the round has reserved. A key that it leaves in the
/// collection failed, and every other one is committed. Each key is one step of its stripe, with the number of this one call, and
/// no change is asked for twice. Between two rounds the call waits for a change, with no reservation out. If no key is put off,
/// and each stripe has at most [`RESERVATIONS_MAX`](jc_types::RESERVATIONS_MAX) of the keys, the writer is called at most once.
/// In a cache that lives on, a full history also puts a key off.
///
/// An `Err` names each key that failed, with its fault (`WriterFailed`) or its refusal; every other key is put. The cause is the
/// first fault or refusal that the call met. If the writer failed and left no key, the `Err` names none.
///
/// - A key is refused with `HistoryFull` if its stripe's history is nearly full, or the call's or a reservation's number would
///   overflow.
/// - With write-through, a key is refused with `OutOfMemory` if, once the writer was called, the memory of a later round could
///   not be taken.
/// - The call is refused whole, and nothing changes, if there are more than [`BULK_KEYS_MAX`] keys (`TooManyKeys`), or the memory
///   for the first round and the results could not be taken (`OutOfMemory`).
///
/// It may wait, as long as the writer does and for other calls' reservations. It holds no stripe meanwhile.
///
/// Condition: the session may call the cache.
pub fn put_all<R: Wait>(
    alloc: Global,
    rt: &R,
    cache: &Cache,
    session: &mut Session,
    entries: &IndexMap<Key, Value>,
) -> Result<(), BulkFault>
    requires may { MayCall cache.now session.old }
    ensures { Completes cache.now session.new
        (OrRefused (DoesAll (bulk_behavior loads_all load_state writes_all deletes_all write_state)
        cache.now session.old (put_ops entries.now.entries)) (length entries.now.entries) session.old result session.new) }
{
    if entries.len() > BULK_KEYS_MAX {
        return Err(BulkFault::of_whole_call(alloc, Refusal::TooManyKeys));
    }
    let targets = Targets::Puts(entries);
    call_all(alloc, rt, cache, session, &targets, OutsideKind::Write)
}

/// Removes many keys, as the session's next call (JSR 107, `javax.cache.Cache.removeAll`). Each key is removed on its own, and the
/// whole isn't atomic.
///
/// The call works in rounds, asks the writer (`deleteAll`), fails and waits as [`put_all`] does.
///
/// Condition: the session may call the cache.
pub fn remove_all<R: Wait>(
    alloc: Global,
    rt: &R,
    cache: &Cache,
    session: &mut Session,
    keys: &IndexSet<Key>,
) -> Result<(), BulkFault>
    requires may { MayCall cache.now session.old }
    ensures { Completes cache.now session.new
        (OrRefused (DoesAll (bulk_behavior loads_all load_state writes_all deletes_all write_state)
        cache.now session.old (remove_ops keys.now.keys)) (length keys.now.keys) session.old result session.new) }
{
    if keys.len() > BULK_KEYS_MAX {
        return Err(BulkFault::of_whole_call(alloc, Refusal::TooManyKeys));
    }
    let targets = Targets::Each(keys.as_slice(), Op::Remove);
    call_all(alloc, rt, cache, session, &targets, OutsideKind::Delete)
}
