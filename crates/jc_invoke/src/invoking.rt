//! `invoke` and `invokeAll`: entry processors on a cache.
ghost use Rattle.std.specs.Prelude.{◌≡◌, List, Result, IfOk};
ghost use Rattle.jc_types.specs.declared.refusal.Refusal.{Refusal};
ghost use Rattle.jc_model.specs.declared.event.Op.TheVariants.{Invoke};
ghost use Rattle.jc_model.specs.declared.event.Reply.{Reply};
ghost use Rattle.jc_cache.specs.Calls.{Invoked, value_in};
ghost use Rattle.jc_cache.specs.Sessions.{Completes, MayCall};
ghost use Rattle.jc_rounds.specs.Ends.{KeyEnd, result_entries};
ghost use Rattle.jc_rounds.specs.Rounds.{ProcessRound};
ghost use Rattle.jc_rounds.specs.Targets.{ops_of, ops_with};
ghost use Rattle.jc_invoke.specs.Invoke.{InvokesAll, IsInvokedAll};
ghost use Rattle.jc_invoke.specs.Processing.{KeepsProcessing};
ghost use Rattle.jc_invoke.specs.RoundRooms.{IsMemoryFor};
ghost use Rattle.jc_invoke.specs.Runs.{run_behavior};

use crate::room::RoundRoom;
use crate::rounds::run_rounds;
use crate::run::Processing;
use indexmap::{IndexMap, IndexSet};
use jc_cache::{Cache, Session};
use jc_model::{Op, Reply};
use jc_mutentry::EntryProcessor;
use jc_rounds::{BulkCall, Rooms, Targets, add_entries};
use jc_types::{BULK_KEYS_MAX, Config, Key, Refusal, Value};
use std::alloc::{AllocError, Global};
use std::sync::Wait;

/// Runs a processor on one key, as the session's next call (JSR 107, `javax.cache.Cache.invoke`). It returns the processor's
/// result, or none. An `Err` is the first fault of the loader, the processor and the writer, which leaves the entry as it was; or
/// it is `HistoryFull`, and then nobody was asked and nothing changes.
///
/// It may wait, as long as the processor, the loader and the writer do, and for other calls; it holds no stripe meanwhile. No
/// other call changes the entry between the moment at which the processor is shown it and the processor's net effect.
///
/// Condition: the session may call the cache.
pub fn invoke<R: Wait>(
    rt: &R,
    cache: &Cache,
    session: &mut Session,
    key: &Key,
    processor: &mut Box<dyn EntryProcessor + Send + Drop>,
    args: &[Value],
) -> Result<Option<Value>, Refusal>
    requires may { MayCall cache.now session.old }
    ensures { Completes cache.now session.new ((ended : Result Reply Refusal)
        × Invoked loads load_state writes write_state processes process_state
        cache.now session.old key.now args.now processor.old ended session.new processor.new
        × (result ≡ value_in ended)) }
{
    cache.invoke(rt, session, key, processor, args)
}

/// Runs a processor on many keys, as the session's next call (JSR 107, `javax.cache.Cache.invokeAll`). The returned map has each
/// key's result, in the order of the keys: the value that the processor gave, the first fault of the loader, the processor and
/// the writer, which leaves the key's entry as it was, or the key's refusal. A key whose processor gave no value isn't in it.
///
/// The call works in rounds:
///
/// - A round reserves each key that it can, in their order and without waiting. One that is reserved, or whose stripe has as many
///   reservations as it may, is put off to a later round.
/// - The processor is then run on each key that the round has reserved, in order. Each run may call the loader, for its key
///   alone, if that is missing and read-through is on.
/// - With write-through the writer is then called at most twice: once (`writeAll`) for the keys whose net effect is a value, and
///   once (`deleteAll`) for those with a remove, the second also if the first failed. A key that the writer leaves in a
///   collection failed; a fault that leaves none is dropped.
/// - Then the keys are committed, in order. Between two rounds the call waits for a change, with no reservation out.
///
/// Each key is one step of its stripe, with the number of this one call. In all rounds together the processor is run on keys of
/// the call alone, and on none of them twice. If no key is put off, and each stripe has at most
/// [`RESERVATIONS_MAX`](jc_types::RESERVATIONS_MAX) of the keys, at most one round runs it. In a cache that lives on, a full
/// history also puts a key off.
///
/// A key is refused with `HistoryFull` if its stripe's history is nearly full, or the call's or a reservation's number would
/// overflow. With write-through, it is refused with `OutOfMemory` if, once the processor was run, the memory of a later round
/// could not be taken. An `Err` says that the call is refused whole, and nothing changes: there are more than
/// [`BULK_KEYS_MAX`](jc_types::BULK_KEYS_MAX) keys (`TooManyKeys`), or the memory for the first round and the results could not
/// be taken (`OutOfMemory`).
///
/// It may wait, as long as the processor, the loader and the writer do and for other calls' reservations. It holds no stripe
/// meanwhile.
///
/// Condition: the session may call the cache.
pub fn invoke_all<R: Wait>(
    alloc: Global,
    rt: &R,
    cache: &Cache,
    session: &mut Session,
    keys: &IndexSet<Key>,
    processor: &mut Box<dyn EntryProcessor + Send + Drop>,
    args: &[Value],
) -> Result<IndexMap<Key, Result<Value, Refusal>>, Refusal>
    requires may { MayCall cache.now session.old }
    ensures { Completes cache.now session.new
        (InvokesAll (run_behavior loads load_state writes_all deletes_all write_state processes process_state)
        cache.now session.old keys.now.keys args.now processor.old result session.new processor.new) }
{
    if keys.len() > BULK_KEYS_MAX {
        return Err(Refusal::TooManyKeys);
    }
    let targets = Targets::Each(keys.as_slice(), Op::Invoke);
    match memory_for(alloc, cache.config(), &targets) {
        Ok(memory) => {
            let mut processing = Processing {
                alloc,
                processor,
                args,
            };
            Ok(carry_out(rt, cache, session, keys, memory, &mut processing))
        }
        Err(_failed) => Err(Refusal::OutOfMemory),
    }
}

/// Carries out the session's next call for these keys. It returns their results.
fn carry_out<R: Wait>(
    rt: &R,
    cache: &Cache,
    session: &mut Session,
    keys: &IndexSet<Key>,
    memory: Memory<'_>,
    processing: &mut Processing<'_>,
) -> IndexMap<Key, Result<Value, Refusal>>
    requires may { MayCall cache.now session.old }
    requires memory { IsMemoryFor (ops_with Invoke keys.now.keys) cache.now.config memory }
    ensures { Completes cache.now session.new (KeepsProcessing processing.old processing.new
        × (ends : List KeyEnd) × (rounds : List ProcessRound)
        × IsInvokedAll (run_behavior loads load_state writes_all deletes_all write_state processes process_state)
        cache.now session.old keys.now.keys processing.old.args.now processing.old.processor.now
        ends rounds session.new processing.new.processor.now
        × (result.entries ≡ result_entries ends)) }
{
    let _types: Option<&(Reply, Value)> = None;
    let Memory {
        results,
        call,
        room,
    } = memory;
    let mut results = results;
    let mut call = call;
    let slice = keys.as_slice();
    session.next_call();
    run_rounds(rt, cache, session, &mut call, room, processing);
    let (progress, _cause) = call.end();
    let targets = Targets::Each(slice, Op::Invoke);
    add_entries(&targets, progress.as_slice(), &mut results);
    results
}

/// The memory that a call takes before its first phase. It can't be dropped.
struct Memory<'a> {
    results: IndexMap<Key, Result<Value, Refusal>>,
    call: BulkCall<'a>,
    room: RoundRoom,
}

/// The memory of a call for these keys, in a cache of this shape: no key was started. An `Err` says that an allocation failed.
fn memory_for<'a>(
    alloc: Global,
    config: &Config,
    targets: &'a Targets<'a>,
) -> Result<Memory<'a>, AllocError>
    ensures { IfOk result (λ memory. IsMemoryFor (ops_of targets.now) config.now memory) }
{
    let keys = targets.len();
    let results = IndexMap::with_capacity(alloc, keys)?;
    let rooms = Rooms::new(alloc, keys, config.stripes)?;
    let call = BulkCall::new(targets, rooms);
    match RoundRoom::new(alloc, config.write_through, call.most()) {
        Ok(room) => Ok(Memory {
            results,
            call,
            room,
        }),
        Err(failed) => {
            let (_progress, _cause) = call.end();
            Err(failed)
        }
    }
}
