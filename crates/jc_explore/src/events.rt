//! The events of a move.
ghost use Rattle.std.specs.Prelude.{◌≡◌, ◌++◌, ◌∷◌, [], ◌<◌, nat_lt, true, IfOk, OnOk, None, Some};
ghost use Rattle.jc_types.specs.declared.limits.TheConstants.{NUMBER_MAX, SESSIONS_MAX};
ghost use Rattle.jc_model.specs.declared.event.LoadAnswer.TheVariants.{Failed};
ghost use Rattle.jc_world.specs.declared.command.Command.TheVariants.{Single};
ghost use Rattle.jc_world.specs.declared.event.WorldEvent.TheVariants as event;
ghost use Rattle.jc_world.specs.declared.process.LoadSource.TheVariants as source;
ghost use Rattle.jc_explore.specs.Schedule.{act_events, begin_events, call_events, entry_calls, has_number_for, if_failing, move_events_at, next_number, run_processor, under_way};

use crate::moves::{Act, Move};
use crate::program::{Faults, Item, Program};
use crate::scene::Position;
use jc_model::{LoadAnswer, Op};
use jc_types::{Key, NUMBER_MAX};
use jc_world::{Command, EntryCalls, LeftKeys, LoadSource, World, WorldEvent};
use std::alloc::{AllocError, Global};

/// A call at its key.
#[derive(Clone, Copy)]
struct Target {
    call: u64,
    key: Key,
}

fn single(op: &Op, key: &Key) -> Command
    ensures { result ≡ Single op.now key.now }
{
    Command::Single { op: *op, key: *key }
}

/// Appends the beginning of a call, and its first phase.
fn put_call(
    events: &mut Vec<WorldEvent>,
    call: u64,
    session: u32,
    op: &Op,
    key: &Key,
) -> Result<(), AllocError>
    ensures { OnOk result (events.new.items
        ≡ events.old.items ++ (event.Call call session (Single op.now key.now) ∷ event.Start call key.now ∷ [])) }
{
    events.push(WorldEvent::Call {
        call,
        session,
        command: single(op, key),
    })?;
    events.push(WorldEvent::Start { call, key: *key })?;
    Ok(())
}

/// Appends the events of an item that begins.
fn put_begin(
    events: &mut Vec<WorldEvent>,
    number: u64,
    session: u32,
    item: &Item,
) -> Result<(), AllocError>
    ensures { OnOk result (
        events.new.items ≡ events.old.items ++ begin_events number session (Some item.now)) }
{
    match item {
        Item::Call { op, key } => put_call(events, number, session, op, key),
        Item::Invoke { key, calls: _ } => put_call(events, number, session, &Op::Invoke, key),
        Item::Foreign { key, value } => {
            events.push(WorldEvent::Foreign {
                key: *key,
                value: *value,
            })?;
            Ok(())
        }
        Item::Invalidate { key } => {
            events.push(WorldEvent::Invalidate { key: *key })?;
            Ok(())
        }
    }
}

/// The calls of an item's entry processor on its entry.
fn entry_calls(alloc: Global, item: &Item) -> Result<EntryCalls, AllocError>
    ensures { IfOk result (λ calls. calls ≡ entry_calls item.now) }
{
    match item {
        Item::Invoke { key: _, calls } => calls.copy(alloc),
        Item::Call { op: _, key: _ }
        | Item::Foreign { key: _, value: _ }
        | Item::Invalidate { key: _ } => Ok(EntryCalls::new(alloc)),
    }
}

/// Appends a processor's run.
fn put_process(
    events: &mut Vec<WorldEvent>,
    target: Target,
    load: LoadSource,
    calls: EntryCalls,
    fail: Option<u32>,
) -> Result<(), AllocError>
    ensures { OnOk result (
        events.new.items ≡ events.old.items ++ run_processor target.call target.key load calls fail) }
{
    let Target { call, key } = target;
    events.push(WorldEvent::Process {
        call,
        key,
        load,
        calls,
        fail,
    })?;
    Ok(())
}

/// Appends a processor's run with a loader that fails, if the loader may fail.
fn put_process_load_failure(
    events: &mut Vec<WorldEvent>,
    target: Target,
    calls: EntryCalls,
    fault: Option<u32>,
) -> Result<(), AllocError>
    ensures { OnOk result (events.new.items ≡ events.old.items
        ++ if_failing fault (λ code. run_processor target.call target.key (source.Failing code) calls None)) }
{
    if let Some(code) = fault {
        put_process(events, target, LoadSource::Failing(code), calls, None)?;
    }
    Ok(())
}

/// Appends a processor's run that fails after its calls, if it may fail.
fn put_process_failure(
    events: &mut Vec<WorldEvent>,
    target: Target,
    calls: EntryCalls,
    fault: Option<u32>,
) -> Result<(), AllocError>
    ensures { OnOk result (events.new.items ≡ events.old.items
        ++ if_failing fault (λ code. run_processor target.call target.key source.Store calls (Some code))) }
{
    if let Some(code) = fault {
        put_process(events, target, LoadSource::Store, calls, Some(code))?;
    }
    Ok(())
}

/// Appends a change of the store by the writer, and its return.
fn put_write(
    alloc: Global,
    events: &mut Vec<WorldEvent>,
    target: Target,
    fault: Option<u32>,
) -> Result<(), AllocError>
    ensures { OnOk result (events.new.items ≡ events.old.items
        ++ event.Change target.call target.key ∷ event.Report target.call [] fault ∷ []) }
{
    let Target { call, key } = target;
    events.push(WorldEvent::Change { call, key })?;
    put_report(alloc, events, call, fault)
}

/// Appends a return of the writer.
fn put_report(
    alloc: Global,
    events: &mut Vec<WorldEvent>,
    call: u64,
    fault: Option<u32>,
) -> Result<(), AllocError>
    ensures { OnOk result (events.new.items ≡ events.old.items ++ event.Report call [] fault ∷ []) }
{
    let left = LeftKeys::new(alloc);
    events.push(WorldEvent::Report { call, left, fault })?;
    Ok(())
}

/// Appends a failure of the writer that has changed nothing, if it may fail so.
fn put_write_failure(
    alloc: Global,
    events: &mut Vec<WorldEvent>,
    call: u64,
    fault: Option<u32>,
) -> Result<(), AllocError>
    ensures { OnOk result (events.new.items ≡ events.old.items
        ++ if_failing fault (λ code. event.Report call [] (Some code) ∷ [])) }
{
    if let Some(code) = fault {
        put_report(alloc, events, call, Some(code))?;
    }
    Ok(())
}

/// Appends a failure of the writer that has changed the store, if it may fail so.
fn put_lie(
    alloc: Global,
    events: &mut Vec<WorldEvent>,
    target: Target,
    fault: Option<u32>,
) -> Result<(), AllocError>
    ensures { OnOk result (events.new.items ≡ events.old.items
        ++ if_failing fault (λ code. event.Change target.call target.key ∷ event.Report target.call [] (Some code) ∷ [])) }
{
    if let Some(code) = fault {
        put_write(alloc, events, target, Some(code))?;
    }
    Ok(())
}

/// Appends a failure of the loader, if it may fail.
fn put_load_failure(
    events: &mut Vec<WorldEvent>,
    target: Target,
    fault: Option<u32>,
) -> Result<(), AllocError>
    ensures { OnOk result (events.new.items ≡ events.old.items
        ++ if_failing fault (λ code. event.Say target.call target.key (Failed code) ∷ [])) }
{
    let Target { call, key } = target;
    if let Some(code) = fault {
        events.push(WorldEvent::Say {
            call,
            key,
            answer: LoadAnswer::Failed(code),
        })?;
    }
    Ok(())
}

/// Appends the events of an act of a loader or a writer, or of a last phase.
fn put_act(
    alloc: Global,
    events: &mut Vec<WorldEvent>,
    faults: &Faults,
    target: Target,
    calls: EntryCalls,
    act: Act,
) -> Result<(), AllocError>
    ensures { OnOk result (events.new.items
        ≡ events.old.items ++ act_events faults.now target.call target.key calls act) }
{
    let Target { call, key } = target;
    match act {
        Act::Begin => {}
        Act::Read => events.push(WorldEvent::Read { call, key })?,
        Act::LoadFails => put_load_failure(events, target, faults.load)?,
        Act::Process => put_process(events, target, LoadSource::Store, calls, None)?,
        Act::ProcessLoadFails => put_process_load_failure(events, target, calls, faults.load)?,
        Act::ProcessFails => put_process_failure(events, target, calls, faults.process)?,
        Act::Write => put_write(alloc, events, target, None)?,
        Act::WriteFails => put_write_failure(alloc, events, call, faults.write)?,
        Act::WriteLies => put_lie(alloc, events, target, faults.lie)?,
        Act::Commit => events.push(WorldEvent::Commit { call, key })?,
        Act::PickUp => events.push(WorldEvent::PickUp { call, key })?,
    }
    Ok(())
}

/// Appends the events of an act of an item.
fn put_of_call(
    alloc: Global,
    events: &mut Vec<WorldEvent>,
    faults: &Faults,
    call: u64,
    item: &Item,
    act: Act,
) -> Result<(), AllocError>
    ensures { OnOk result (
        events.new.items ≡ events.old.items ++ call_events faults.now call (Some item.now) act) }
{
    match item {
        Item::Call { op: _, key } | Item::Invoke { key, calls: _ } => {
            let calls = entry_calls(alloc, item)?;
            put_act(
                alloc,
                events,
                faults,
                Target { call, key: *key },
                calls,
                act,
            )
        }
        Item::Foreign { key: _, value: _ } | Item::Invalidate { key: _ } => Ok(()),
    }
}

/// Appends the events of an act of the call that its thread has under way.
fn put_under_way(
    alloc: Global,
    events: &mut Vec<WorldEvent>,
    faults: &Faults,
    call: Option<u64>,
    item: &Item,
    act: Act,
) -> Result<(), AllocError>
    ensures { OnOk result (
        events.new.items ≡ events.old.items ++ under_way faults.now call (Some item.now) act) }
{
    match call {
        Some(call) => put_of_call(alloc, events, faults, call, item, act),
        None => Ok(()),
    }
}

/// The number of the next call, if it is small enough.
fn next_number(last: Option<u64>) -> u64
    ensures { nat_lt (next_number last) NUMBER_MAX ≡ true → result ≡ next_number last }
{
    match last {
        Some(last) => last.wrapping_add(1),
        None => 1,
    }
}

/// Whether the next call's number is small enough.
fn is_small(last: Option<u64>) -> bool
    ensures { result ≡ nat_lt (next_number last) NUMBER_MAX }
{
    match last {
        Some(last) => last < NUMBER_MAX - 1,
        None => true,
    }
}

/// Whether an act begins no item, or there is a number for one.
pub(crate) fn has_number_for(last: Option<u64>, position: &Position, act: Act) -> bool
    ensures { result ≡ has_number_for last position.now act }
{
    !act.is_begin() || (is_small(last) && (position.begun as u64) < NUMBER_MAX)
}

/// Appends the events of a move of a thread that is at this position. An `Err` says that an allocation failed; some of the events
/// may have been appended.
pub(crate) fn put_events(
    alloc: Global,
    events: &mut Vec<WorldEvent>,
    program: &Program,
    world: &World,
    step: Move,
    position: Position,
) -> Result<(), AllocError>
    requires { step.thread < SESSIONS_MAX }
    ensures { OnOk result (events.new.items
        ≡ events.old.items ++ move_events_at program.now world.now.world step (Some position)) }
{
    let last = world.last();
    if !has_number_for(last, &position, step.act) {
        return Ok(());
    }
    let session = step.thread as u32 + 1;
    let call = world.call_of(session);
    if !step.act.is_begin() {
        return match program.item(step.thread, position.begun.saturating_sub(1)) {
            Some(item) => put_under_way(alloc, events, &program.faults, call, item, step.act),
            None => Ok(()),
        };
    }
    match call {
        Some(_call) => Ok(()),
        None => match program.item(step.thread, position.begun) {
            Some(item) => put_begin(events, next_number(last), session, item),
            None => Ok(()),
        },
    }
}
