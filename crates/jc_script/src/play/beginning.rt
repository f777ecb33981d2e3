//! The lines that begin a call.
ghost use Rattle.std.specs.Prelude.{◌≡◌, ◌++◌, ◌∷◌, [], List, ℕ, Some, None, true, OnOk, IfOk};
ghost use Rattle.jc_model.specs.Cache.{Bytes};
ghost use Rattle.jc_world.specs.declared.event.WorldEvent.TheVariants as event;
ghost use Rattle.jc_world.specs.World.{open_call};
ghost use Rattle.jc_world.specs.Fits.{fits, is_free, is_playable};
ghost use Rattle.jc_world.specs.Runs.{AllFit};
ghost use Rattle.jc_world.specs.Together.{looks, opening_events};
ghost use Rattle.jc_text.specs.declared.read.line.Line.TheVariants as lines;
ghost use Rattle.jc_script.specs.Faults.{begin_fault};
ghost use Rattle.jc_script.specs.LineEvents.{single, bulk_call, start_events, is_callable};
ghost use Rattle.jc_script.specs.Transcript.{PlaysBegin, PlaysEvents, PlaysLine};

use super::acting::put_key_events;
use super::{LineBuffers, play_events};
use jc_model::{LoadAnswer, Op};
use jc_text::Fault;
use jc_text::read::line::{BulkLine, Operation, ScriptAct};
use jc_types::{Key, Value};
use jc_world::command::Command;
use jc_world::event::{Shown, WorldEvent};
use jc_world::world::World;
use std::alloc::{AllocError, Global};
use std::slice;

/// A line that begins a call of one key, or its fault.
pub(super) fn play_begin(
    alloc: Global,
    world: &mut World,
    number: u32,
    session: u32,
    operation: &Operation,
    buffers: &mut LineBuffers,
    out: &mut Vec<u8>,
) -> Result<Option<Fault>, AllocError>
    requires { is_callable (lines.Begin number session operation.now) ≡ true }
    ensures { IfOk result (λ r. PlaysLine (Some world.old.world) (lines.Begin number session operation.now) r
        out.old.items out.new.items (Some world.new.world)) }
{
    if let Some(fault) = fault_of_begin(world, number, session) {
        return Ok(Some(fault));
    }
    begin_single(world, number, session, operation, buffers, out)?;
    Ok(None)
}

/// A line that begins a call of many keys, or its fault.
pub(super) fn play_bulk(
    alloc: Global,
    world: &mut World,
    number: u32,
    session: u32,
    call: &BulkLine,
    buffers: &mut LineBuffers,
    out: &mut Vec<u8>,
) -> Result<Option<Fault>, AllocError>
    requires { is_callable (lines.BeginBulk number session call.now) ≡ true }
    ensures { IfOk result (λ r. PlaysLine (Some world.old.world) (lines.BeginBulk number session call.now) r
        out.old.items out.new.items (Some world.new.world)) }
{
    if let Some(fault) = fault_of_begin(world, number, session) {
        return Ok(Some(fault));
    }
    let command = command_of(call)?;
    begin_bulk(alloc, world, number, session, command, buffers, out)?;
    Ok(None)
}

fn fault_of_begin(world: &World, number: u32, session: u32) -> Option<Fault>
    ensures { result ≡ begin_fault world.now.world number session }
{
    if !world.is_new(number as u64) {
        return Some(Fault::NotRising);
    }
    if world.is_busy(session) {
        return Some(Fault::CallerBusy);
    }
    None
}

/// The command of a line that begins a call of one key.
fn single(operation: &Operation) -> Command
    ensures { result ≡ single operation.now }
{
    Command::Single {
        op: operation.op,
        key: operation.key,
    }
}

/// The command of a line that begins a call of many keys.
fn command_of(call: &BulkLine) -> Result<Command, AllocError>
    ensures call { IfOk result (λ command. bulk_call command ≡ Some call.now) }
    ensures playable { IfOk result (λ command. is_playable command ≡ true) }
{
    match call {
        BulkLine::GetAll(keys) => Ok(Command::GetAll { keys: keys.copy()? }),
        BulkLine::PutAll(pairs) => {
            let entries = pairs.copy()?;
            Ok(Command::PutAll { entries })
        }
        BulkLine::RemoveAll(keys) => Ok(Command::RemoveAll { keys: keys.copy()? }),
        BulkLine::RemoveEvery => Ok(Command::RemoveEvery),
        BulkLine::Clear => Ok(Command::Clear),
        BulkLine::LoadAll { replace, keys } => {
            let (replace, keys) = (*replace, keys.copy()?);
            Ok(Command::LoadAll { replace, keys })
        }
        BulkLine::InvokeAll(keys) => Ok(Command::InvokeAll { keys: keys.copy()? }),
    }
}

/// A call of one key begins, and makes its first phase.
fn begin_single(
    world: &mut World,
    number: u32,
    session: u32,
    operation: &Operation,
    buffers: &mut LineBuffers,
    out: &mut Vec<u8>,
) -> Result<(), AllocError>
    requires { fits world.old.world (event.Call number session (single operation.now)) ≡ true }
    ensures { OnOk result ((text : List ℕ)
        × PlaysBegin world.old.world number session (single operation.now) text (Some world.new.world)
        × (out.new.items ≡ out.old.items ++ text)) }
{
    world.lets_calls_begin();
    play_opening(world, number, session, operation, &mut buffers.shown, out)?;
    world.lets_keys_go_together();
    play_start(world, number, &operation.key, &mut buffers.shown, out)?;
    Ok(())
}

/// Plays the begin of a call of one key. An event is large, so it is played where it is made, and not moved to a list; and each is let go
/// in one place.
fn play_opening(
    world: &mut World,
    number: u32,
    session: u32,
    operation: &Operation,
    shown: &mut Vec<Shown>,
    out: &mut Vec<u8>,
) -> Result<(), AllocError>
    requires { AllFit world.old.world (event.Call number session (single operation.now) ∷ []) }
    ensures { OnOk result ((text : List ℕ)
        × PlaysEvents world.old.world (event.Call number session (single operation.now) ∷ []) text world.new.world
        × (out.new.items ≡ out.old.items ++ text)) }
{
    let begin = WorldEvent::Call {
        call: number as u64,
        session,
        command: single(operation),
    };
    play_events(world, slice::from_ref(&begin), shown, out)
}

/// Plays the first phase of a call at a key.
fn play_start(
    world: &mut World,
    number: u32,
    key: &Key,
    shown: &mut Vec<Shown>,
    out: &mut Vec<u8>,
) -> Result<(), AllocError>
    requires { AllFit world.old.world (event.Start number key.now ∷ []) }
    ensures { OnOk result ((text : List ℕ)
        × PlaysEvents world.old.world (event.Start number key.now ∷ []) text world.new.world
        × (out.new.items ≡ out.old.items ++ text)) }
{
    let start = WorldEvent::Start {
        call: number as u64,
        key: *key,
    };
    play_events(world, slice::from_ref(&start), shown, out)
}

/// A call of many keys begins, looks at the stripes if it takes the keys that are cached, and starts each of the keys that it has
/// then.
fn begin_bulk(
    alloc: Global,
    world: &mut World,
    number: u32,
    session: u32,
    command: Command,
    buffers: &mut LineBuffers,
    out: &mut Vec<u8>,
) -> Result<(), AllocError>
    requires { fits world.old.world (event.Call number session command) ≡ true }
    ensures { OnOk result ((text : List ℕ)
        × PlaysBegin world.old.world number session command text (Some world.new.world)
        × (out.new.items ≡ out.old.items ++ text)) }
{
    let call = number as u64;
    put_opening(&mut buffers.events, call, session, command, world.stripes())?;
    world.lets_calls_begin();
    buffers.play(world, out)?;
    put_starts(alloc, world, call, buffers)?;
    buffers.play(world, out)?;
    Ok(())
}

/// The begin of a call, and its looks at the stripes.
fn put_opening(
    events: &mut Vec<WorldEvent>,
    call: u64,
    session: u32,
    command: Command,
    stripes: usize,
) -> Result<(), AllocError>
    ensures { OnOk result (events.new.items ≡ opening_events call session command stripes) }
{
    events.clear();
    let is_sweep = command.is_sweep();
    events.push(WorldEvent::Call {
        call,
        session,
        command,
    })?;
    if is_sweep {
        put_looks(events, call, stripes)?;
    }
    Ok(())
}

/// Appends the looks of a call at each of the stripes.
fn put_looks(events: &mut Vec<WorldEvent>, call: u64, stripes: usize) -> Result<(), AllocError>
    ensures { OnOk result (events.new.items ≡ events.old.items ++ looks call 0 stripes) }
{
    for stripe in 0..stripes {
        events.push(WorldEvent::Look { call, stripe })?;
    }
    Ok(())
}

/// The first phases of a call that has just begun: none, if it is over. Each of them fits when it comes.
fn put_starts(
    alloc: Global,
    world: &World,
    call: u64,
    buffers: &mut LineBuffers,
) -> Result<(), AllocError>
    requires { (key : Bytes) → is_free world.now.world call key ≡ true }
    ensures events { OnOk result (
        buffers.new.events.items ≡ start_events world.now.world call (open_call world.now.world call)) }
    ensures fit { AllFit world.now.world (start_events world.now.world call (open_call world.now.world call)) }
{
    world.lets_keys_go_together();
    buffers.events.clear();
    match world.open_call(call) {
        None => Ok(()),
        Some(open_call) => {
            buffers.keys.clear();
            open_call.put_open_keys(&mut buffers.keys)?;
            put_key_events(
                alloc,
                world,
                call,
                &ScriptAct::More,
                &buffers.keys,
                &mut buffers.events,
            )
        }
    }
}
