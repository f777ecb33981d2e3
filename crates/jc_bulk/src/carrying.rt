//! A bulk call as a whole: its memory, and how it is carried out.
ghost use Rattle.std.specs.Prelude.{◌==◌};
ghost use Rattle.std.specs.List.{IsDistinct};
ghost use Rattle.std.specs.Map.{keys_of};
ghost use Rattle.std.specs.Cmp.Lexicographic.{pointwise};
ghost use Rattle.jc_cache.specs.Sessions.{Completes, MayCall};
ghost use Rattle.jc_rounds.specs.Targets.{ops_of};
ghost use Rattle.jc_bulk.specs.Bulk.{DoesAll, OrNoMemory};
ghost use Rattle.jc_bulk.specs.Carrying.{IsCallEnd, IsRoomOfCall};
ghost use Rattle.jc_bulk.specs.Outside.{bulk_behavior};
ghost use Rattle.jc_bulk.specs.BulkRounds.{KeysAskAs};

use crate::fault::BulkFault;
use crate::outside::{OutsideCall, OutsideKind};
use crate::rounds::run_rounds;
use indexmap::IndexMap;
use jc_cache::{Cache, Session};
use jc_model::Reply;
use jc_rounds::{BulkCall, KeyProgress, Rooms, Targets, add_entries};
use jc_types::{Key, Refusal, Value};
use std::alloc::{AllocError, Global};
use std::sync::Wait;

/// The memory that a call takes before its first phase. It can't be dropped.
pub(crate) struct BulkRoom {
    /// The memory for its rounds.
    rooms: Rooms,
    /// The keys that failed: none yet.
    failed: IndexMap<Key, Refusal>,
    /// The memory for the first round's call outside.
    outside: OutsideCall,
}

impl BulkRoom {
    ghost use Rattle.std.specs.Prelude.{IfOk};
    ghost use Rattle.jc_bulk.specs.Carrying.{IsRoomOf};

    /// Room for `keys` keys, in a cache of `stripes` stripes. An `Err` says that an allocation failed.
    pub(crate) fn new(
        alloc: Global,
        kind: OutsideKind,
        keys: usize,
        stripes: usize,
    ) -> Result<BulkRoom, AllocError>
        ensures { IfOk result (λ room. IsRoomOf kind keys stripes room) }
    {
        let failed = IndexMap::with_capacity(alloc, keys)?;
        let rooms = Rooms::new(alloc, keys, stripes)?;
        match kind.call(alloc, rooms.most()) {
            Ok(outside) => Ok(BulkRoom {
                rooms,
                failed,
                outside,
            }),
            Err(error) => {
                rooms.end();
                Err(error)
            }
        }
    }
}

/// The end of a call.
#[derive(Drop)]
pub(crate) struct CallEnd {
    /// The first fault or refusal that the call has met, if it met one.
    pub(crate) cause: Option<Refusal>,
    /// The end of each key.
    pub(crate) progress: Vec<KeyProgress>,
    /// Each key that failed, with its fault or its refusal, in the order of the keys.
    pub(crate) failed: IndexMap<Key, Refusal>,
}

/// Carries out the session's next call for these keys.
pub(crate) fn carry_out<R: Wait>(
    alloc: Global,
    rt: &R,
    cache: &Cache,
    session: &mut Session,
    targets: &Targets<'_>,
    room: BulkRoom,
) -> CallEnd
    requires may { MayCall cache.now session.old }
    requires room { IsRoomOfCall (ops_of targets.now) cache.now.config.stripes room }
    ensures { Completes cache.now session.new
        (IsCallEnd (bulk_behavior loads_all load_state writes_all deletes_all write_state)
        cache.now session.old (ops_of targets.now) result session.new) }
{
    let _types: Option<&(Reply, Value)> = None;
    let BulkRoom {
        rooms,
        failed,
        outside,
    } = room;
    let mut failed = failed;
    let mut call = BulkCall::new(targets, rooms);
    session.next_call();
    run_rounds(alloc, rt, cache, session, &mut call, outside);
    let (progress, cause) = call.end();
    add_entries(targets, progress.as_slice(), &mut failed);
    CallEnd {
        cause,
        progress,
        failed,
    }
}

/// Carries out a call that returns only the keys that failed. There is no limit on the number of keys.
pub(crate) fn call_all<R: Wait>(
    alloc: Global,
    rt: &R,
    cache: &Cache,
    session: &mut Session,
    targets: &Targets<'_>,
    kind: OutsideKind,
) -> Result<(), BulkFault>
    requires may { MayCall cache.now session.old }
    requires keys { IsDistinct (pointwise ◌==◌) (keys_of (ops_of targets.now)) × KeysAskAs kind (ops_of targets.now) }
    ensures { Completes cache.now session.new
        (OrNoMemory (DoesAll (bulk_behavior loads_all load_state writes_all deletes_all write_state)
        cache.now session.old (ops_of targets.now)) session.old result session.new) }
{
    let _types: Option<&(Reply, Value)> = None;
    match BulkRoom::new(alloc, kind, targets.len(), cache.config().stripes) {
        Err(_failed) => Err(BulkFault::of_whole_call(alloc, Refusal::OutOfMemory)),
        Ok(room) => {
            let outcome = carry_out(alloc, rt, cache, session, targets, room);
            let CallEnd { cause, failed, .. } = outcome;
            BulkFault::unless_done(alloc, cause, failed)
        }
    }
}
