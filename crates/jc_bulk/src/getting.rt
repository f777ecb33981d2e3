//! `getAll`: the values of many keys.
ghost use Rattle.std.specs.Prelude.{◌≡◌, ◌≤◌, [], length, IfNone, IfOk};
ghost use Rattle.indexmap.specs.IndexMap.{spare};
ghost use Rattle.jc_cache.specs.Sessions.{Completes, MayCall};
ghost use Rattle.jc_bulk.specs.Bulk.{GetsAll, OrRefused, TellsFound};
ghost use Rattle.jc_bulk.specs.Carrying.{IsRoomOf};
ghost use Rattle.jc_bulk.specs.Outside.{bulk_behavior};
ghost use Rattle.jc_bulk.specs.Targets.{get_ops};
ghost use Rattle.jc_bulk.specs.declared.outside.OutsideKind.TheVariants.{Load};

use crate::carrying::{BulkRoom, CallEnd, carry_out};
use crate::fault::BulkFault;
use crate::outside::OutsideKind;
use indexmap::{IndexMap, IndexSet};
use jc_cache::{Cache, Session};
use jc_model::{Op, Reply};
use jc_rounds::{Targets, add_entries};
use jc_types::{BULK_KEYS_MAX, Key, Refusal, Value};
use std::alloc::{AllocError, Global};
use std::sync::Wait;

/// Gets the values of many keys, as the session's next call (JSR 107, `javax.cache.Cache.getAll`). The returned map has each key
/// that has a value, in the order of the keys.
///
/// The call works in rounds. A round begins each key that it can, in their order and without waiting:
///
/// - A key that has an entry is done at once, and so is a missing one without read-through.
/// - A key that another `get` is loading joins that load.
/// - A key that is reserved otherwise, or whose stripe has as many reservations or joins as it may, is put off to a later round.
///
/// The loader is then called once (`loadAll`), for all keys that the round has reserved. Each key is one step of its stripe, with
/// the number of this one call, and no key is asked for twice. Between two rounds the call waits for a change, with no
/// reservation out. If no key is put off or joins a load, and each stripe has at most
/// [`RESERVATIONS_MAX`](jc_types::RESERVATIONS_MAX) of the keys, the loader is called at most once. In a cache that lives on, a
/// full history also puts a key off.
///
/// An `Err` names each key that failed, with its fault (`LoaderFailed`) or its refusal, and has the values of all others. A key
/// is refused with `HistoryFull` if its stripe's history is nearly full, or the call's or a reservation's number would overflow.
/// The cause is the first fault or refusal that the call met. Or the call is refused whole, and nothing changes: there are more
/// than [`BULK_KEYS_MAX`] keys (`TooManyKeys`), or the memory for its rounds and the results could not be taken (`OutOfMemory`).
///
/// It may wait, as long as the loader does and for other calls' reservations and loads. It holds no stripe meanwhile.
///
/// Condition: the session may call the cache.
pub fn get_all<R: Wait>(
    alloc: Global,
    rt: &R,
    cache: &Cache,
    session: &mut Session,
    keys: &IndexSet<Key>,
) -> Result<IndexMap<Key, Value>, BulkFault>
    requires may { MayCall cache.now session.old }
    ensures { Completes cache.now session.new
        (OrRefused (GetsAll (bulk_behavior loads_all load_state writes_all deletes_all write_state)
        cache.now session.old (get_ops keys.now.keys)) (length keys.now.keys) session.old result session.new) }
{
    let _types: Option<&(Reply, Value)> = None;
    if keys.len() > BULK_KEYS_MAX {
        return Err(BulkFault::of_whole_call(alloc, Refusal::TooManyKeys));
    }
    let targets = Targets::Each(keys.as_slice(), Op::Get);
    match get_room(alloc, keys.len(), cache.config().stripes) {
        Err(_failed) => Err(BulkFault::of_whole_call(alloc, Refusal::OutOfMemory)),
        Ok((room, found)) => {
            let mut found = found;
            let outcome = carry_out(alloc, rt, cache, session, &targets, room);
            let CallEnd {
                cause,
                progress,
                failed,
            } = outcome;
            add_entries(&targets, progress.as_slice(), &mut found);
            with_values(cause, failed, found)
        }
    }
}

/// The memory that a call for `keys` keys takes before its first phase, in a cache of `stripes` stripes: for the call, and for
/// the values.
fn get_room(
    alloc: Global,
    keys: usize,
    stripes: usize,
) -> Result<(BulkRoom, IndexMap<Key, Value>), AllocError>
    ensures { IfOk result (λ r. IsRoomOf Load keys stripes r.0 × (r.1.entries ≡ []) × (keys ≤ spare r.1)) }
{
    let found = IndexMap::with_capacity(alloc, keys)?;
    let room = BulkRoom::new(alloc, OutsideKind::Load, keys, stripes)?;
    Ok((room, found))
}

/// The result of a call that has found these values: the values, or its cause with the keys that failed.
fn with_values(
    cause: Option<Refusal>,
    failed: IndexMap<Key, Refusal>,
    found: IndexMap<Key, Value>,
) -> Result<IndexMap<Key, Value>, BulkFault>
    requires { IfNone cause (failed.entries ≡ []) }
    ensures { TellsFound result cause failed.entries found.entries }
{
    match cause {
        None => Ok(found),
        Some(cause) => Err(BulkFault {
            cause,
            failed,
            found,
        }),
    }
}
