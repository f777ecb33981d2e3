//! The lines about a call under way.
ghost use Rattle.std.specs.Prelude.{◌≡◌, ◌==◌, ◌&&◌, ◌++◌, ◌∷◌, [], Some, None, true, false, not, find, option_to_list, OnOk, IfOk};
ghost use Rattle.std.specs.List.{IsDistinct, list_all, list_any};
ghost use Rattle.std.specs.Cmp.Lexicographic.{pointwise};
ghost use Rattle.jc_model.specs.Batches.{is_among};
ghost use Rattle.jc_world.specs.declared.event.WorldEvent.TheVariants as event;
ghost use Rattle.jc_world.specs.Calls.{CallState};
ghost use Rattle.jc_world.specs.World.{open_call};
ghost use Rattle.jc_world.specs.World.{is_joined, waits_for_process};
ghost use Rattle.jc_world.specs.Fits.{fits, is_being_written, passes_in};
ghost use Rattle.jc_text.specs.declared.read.line.Line.TheVariants as lines;
ghost use Rattle.jc_script.specs.LineEvents.{is_process, has_but, allows_but, keys_of_act, is_started, is_listed, is_left_failing};
ghost use Rattle.jc_script.specs.LineEvents.{leaves, is_changed, is_meant, is_left, left_keys, event_at, key_events};
ghost use Rattle.jc_script.specs.LineEvents.{end_of_act, is_about_one, is_time, load_code};
ghost use Rattle.jc_script.specs.Transcript.{PlaysLine};

use super::LineBuffers;
use indexmap::IndexSet;
use jc_model::{EntryCall, LoadAnswer, Op};
use jc_text::Fault;
use jc_text::read::keys::Keys;
use jc_text::read::line::ScriptAct;
use jc_types::{Key, Value};
use jc_world::command::Command;
use jc_world::event::WorldEvent;
use jc_world::open_call::OpenCall;
use jc_world::process::{EntryCalls, LoadSource};
use jc_world::reports::LeftKeys;
use jc_world::world::World;
use std::alloc::{AllocError, Global};

/// The next step of a call, or the fault of the line.
#[inline(never)]
pub(super) fn act_on(
    alloc: Global,
    world: &mut World,
    number: u32,
    act: &ScriptAct,
    buffers: &mut LineBuffers,
    out: &mut Vec<u8>,
) -> Result<Option<Fault>, AllocError>
    ensures { IfOk result (λ r. PlaysLine (Some world.old.world) (lines.OfCall number act.now) r out.old.items out.new.items (Some world.new.world)) }
{
    let call = number as u64;
    match world.open_call(call) {
        None => Ok(Some(Fault::NoSuchCall)),
        Some(open_call) => {
            if has_but(act) && !allows_but(open_call) {
                return Ok(Some(Fault::NotNow));
            }
            put_keys(world, call, open_call, act, &mut buffers.keys)?;
            act_at(alloc, world, call, act, buffers, out)
        }
    }
}

/// The same, with the keys that the act may be about.
fn act_at(
    alloc: Global,
    world: &mut World,
    call: u64,
    act: &ScriptAct,
    buffers: &mut LineBuffers,
    out: &mut Vec<u8>,
) -> Result<Option<Fault>, AllocError>
    requires call { (u : CallState) × (open_call world.old.world call ≡ Some u)
        × ((has_but act.now && not (allows_but u)) ≡ false)
        × (buffers.old.keys.items ≡ keys_of_act world.old.world call act.now u) }
    requires distinct { IsDistinct (pointwise ◌==◌) buffers.old.keys.items }
    ensures { IfOk result (λ r. PlaysLine (Some world.old.world) (lines.OfCall call act.now) r out.old.items out.new.items (Some world.new.world)) }
{
    put_key_events(alloc, world, call, act, &buffers.keys, &mut buffers.events)?;
    if !is_time(world, call, act, &buffers.keys, &buffers.events) {
        return Ok(Some(Fault::NotNow));
    }
    put_end_of_act(alloc, world, call, act, &buffers.keys, &mut buffers.events)?;
    world.lets_keys_go_together();
    let fault = load_code(act);
    buffers.play_call(world, call, fault, out)?;
    Ok(None)
}

fn is_process(act: &ScriptAct) -> bool
    ensures { result ≡ is_process act.now }
{
    matches!(act, ScriptAct::Process { .. })
}

/// Whether an act names keys that the writer leaves.
fn has_but(act: &ScriptAct) -> bool
    ensures { result ≡ has_but act.now }
{
    match act {
        ScriptAct::Apply(left) | ScriptAct::ApplyFail(_, left) => left.is_some(),
        _ => false,
    }
}

/// Whether the writer of a call may leave some of its keys and not others. In a call of one key it is asked for one change.
fn allows_but(open_call: &OpenCall) -> bool
    ensures { result ≡ allows_but open_call.now }
{
    open_call.kind().is_bulk()
}

/// The code with which the loader fails, if the act says so.
fn load_code(act: &ScriptAct) -> Option<u32>
    ensures { result ≡ load_code act.now }
{
    match act {
        ScriptAct::ReadFail(code) => Some(*code),
        _ => None,
    }
}

/// The keys of a call that an act may be about.
#[tactic(auto, using(crate::proofs::Fitting::first_differs))]
fn put_keys(
    world: &World,
    call: u64,
    open_call: &OpenCall,
    act: &ScriptAct,
    keys: &mut Vec<Key>,
) -> Result<(), AllocError>
    ensures keys { OnOk result (keys.new.items ≡ keys_of_act world.now.world call act.now open_call.now) }
    ensures distinct { OnOk result (IsDistinct (pointwise ◌==◌) keys.new.items) }
{
    keys.clear();
    open_call.put_open_keys(keys)?;
    if is_process(act) {
        keep_first(world, call, keys)?;
    }
    Ok(())
}

/// Keeps the first key that waits for its processor alone: none, if none does.
fn keep_first(world: &World, call: u64, keys: &mut Vec<Key>) -> Result<(), AllocError>
    ensures { OnOk result (keys.new.items
        ≡ option_to_list (find (passes_in waits_for_process world.now.world.parts call) keys.old.items)) }
{
    let first = first_to_process(world, call, keys);
    keys.clear();
    if let Some(key) = first {
        keys.push(key)?;
    }
    Ok(())
}

/// The first key that waits for its processor.
fn first_to_process(world: &World, call: u64, keys: &[Key]) -> Option<Key>
    ensures { result ≡ find (passes_in waits_for_process world.now.world.parts call) keys.now }
{
    keys.iter()
        .copied()
        .find(|key| world.waits_for_process(call, key))
}

/// The events of an act at each of these keys that it is about.
pub(super) fn put_key_events(
    alloc: Global,
    world: &World,
    call: u64,
    act: &ScriptAct,
    keys: &[Key],
    events: &mut Vec<WorldEvent>,
) -> Result<(), AllocError>
    ensures { OnOk result (events.new.items ≡ key_events world.now.world call act.now keys.now) }
{
    events.clear();
    for key in keys {
        put_if_meant(alloc, world, call, act, key, events)?;
    }
    Ok(())
}

/// The events of an act at a key, if it is about it.
fn put_if_meant(
    alloc: Global,
    world: &World,
    call: u64,
    act: &ScriptAct,
    key: &Key,
    events: &mut Vec<WorldEvent>,
) -> Result<(), AllocError>
    ensures { OnOk result (
        events.new.items ≡ events.old.items ++ key_events world.now.world call act.now (key.now ∷ [])) }
{
    if is_meant(world, call, act, key) {
        put_event_at(alloc, events, call, act, key)?;
    }
    Ok(())
}

/// Whether an act is about a key.
fn is_meant(world: &World, call: u64, act: &ScriptAct, key: &Key) -> bool
    ensures { result ≡ is_meant world.now.world call act.now key.now }
{
    match act {
        ScriptAct::Read | ScriptAct::ReadFail(_) | ScriptAct::Say(_) => world.waits_for_load(
            call, key,
        ),
        ScriptAct::Apply(_) | ScriptAct::ApplyFail(..) => is_changed(world, call, act, key),
        ScriptAct::ApplyLie(_) => world.is_being_written(call, key),
        ScriptAct::End | ScriptAct::Drop => world.is_reserved(call, key),
        ScriptAct::More => true,
        ScriptAct::Take => world.is_joined(call, key),
        ScriptAct::Process { .. } => world.waits_for_process(call, key),
    }
}

/// Whether the writer is asked for a key now, and changes the store there as the act says.
fn is_changed(world: &World, call: u64, act: &ScriptAct, key: &Key) -> bool
    ensures { result ≡ is_changed world.now.world call act.now key.now }
{
    world.is_being_written(call, key) && !leaves(act, key)
}

/// Whether the writer is asked for a key now, and leaves it as the act says.
fn is_left(world: &World, call: u64, act: &ScriptAct, key: &Key) -> bool
    ensures { result ≡ is_left world.now.world call act.now key.now }
{
    world.is_being_written(call, key) && leaves(act, key)
}

/// Whether an act says that the writer leaves a key.
fn leaves(act: &ScriptAct, key: &Key) -> bool
    ensures { result ≡ leaves act.now key.now }
{
    match act {
        ScriptAct::Apply(left) => is_listed(left, key),
        ScriptAct::ApplyFail(_, left) => is_left_failing(left, key),
        ScriptAct::ApplyLie(_) => true,
        _ => false,
    }
}

/// Whether a key is among the keys after `but`.
fn is_listed(left: &Option<Keys>, key: &Key) -> bool
    ensures { result ≡ is_listed left.now key.now }
{
    match left {
        None => false,
        Some(keys) => keys.contains(key),
    }
}

/// The same, of a writer that fails: if it doesn't say what it leaves, it leaves each key.
fn is_left_failing(left: &Option<Keys>, key: &Key) -> bool
    ensures { result ≡ is_left_failing left.now key.now }
{
    match left {
        None => true,
        Some(keys) => keys.contains(key),
    }
}

/// The events of an act at a key.
fn put_event_at(
    alloc: Global,
    events: &mut Vec<WorldEvent>,
    call: u64,
    act: &ScriptAct,
    key: &Key,
) -> Result<(), AllocError>
    ensures { OnOk result (events.new.items ≡ events.old.items ++ event_at call act.now key.now ∷ []) }
{
    events.try_reserve(1)?;
    let key = *key;
    match act {
        ScriptAct::Read => events.push_reserved(WorldEvent::Read { call, key }),
        ScriptAct::ReadFail(code) => {
            let answer = LoadAnswer::Failed(*code);
            events.push_reserved(WorldEvent::Say { call, key, answer })
        }
        ScriptAct::Say(pairs) => {
            let answer = pairs.said(&key);
            events.push_reserved(WorldEvent::Say { call, key, answer })
        }
        ScriptAct::Apply(_) | ScriptAct::ApplyFail(..) | ScriptAct::ApplyLie(_) => {
            events.push_reserved(WorldEvent::Change { call, key })
        }
        ScriptAct::End => events.push_reserved(WorldEvent::Commit { call, key }),
        ScriptAct::Drop => events.push_reserved(WorldEvent::Withdraw { call, key }),
        ScriptAct::More => events.push_reserved(WorldEvent::Start { call, key }),
        ScriptAct::Take => events.push_reserved(WorldEvent::PickUp { call, key }),
        ScriptAct::Process { load, calls, fail } => put_process(
            alloc, events, call, key, load, calls, *fail,
        )?,
    }
    Ok(())
}

fn put_process(
    alloc: Global,
    events: &mut Vec<WorldEvent>,
    call: u64,
    key: Key,
    load: &LoadSource,
    calls: &EntryCalls,
    fail: Option<u32>,
) -> Result<(), AllocError>
    ensures { OnOk result (events.new.items ≡ events.old.items ++ event.Process call key load.now calls.now fail ∷ []) }
{
    let calls = calls.copy(alloc)?;
    events.push(WorldEvent::Process {
        call,
        key,
        load: *load,
        calls,
        fail,
    })?;
    Ok(())
}

/// The event of an act for the call as a whole, after those at its keys.
fn put_end_of_act(
    alloc: Global,
    world: &World,
    call: u64,
    act: &ScriptAct,
    keys: &[Key],
    events: &mut Vec<WorldEvent>,
) -> Result<(), AllocError>
    requires { IsDistinct (pointwise ◌==◌) keys.now }
    ensures { OnOk result (
        events.new.items ≡ events.old.items ++ end_of_act world.now.world call act.now keys.now) }
{
    match act {
        ScriptAct::Apply(_) => {
            let left = left_keys(alloc, world, call, act, keys)?;
            put_report(events, call, left, None)
        }
        ScriptAct::ApplyFail(code, _) | ScriptAct::ApplyLie(code) => {
            let left = left_keys(alloc, world, call, act, keys)?;
            put_report(events, call, left, Some(*code))
        }
        ScriptAct::Drop => put_leave(events, call),
        _ => Ok(()),
    }
}

fn put_report(
    events: &mut Vec<WorldEvent>,
    call: u64,
    left: LeftKeys,
    fault: Option<u32>,
) -> Result<(), AllocError>
    ensures { OnOk result (events.new.items ≡ events.old.items ++ event.Report call left fault ∷ []) }
{
    events.push(WorldEvent::Report { call, left, fault })?;
    Ok(())
}

fn put_leave(events: &mut Vec<WorldEvent>, call: u64) -> Result<(), AllocError>
    ensures { OnOk result (events.new.items ≡ events.old.items ++ event.Leave call ∷ []) }
{
    events.push(WorldEvent::Leave { call })?;
    Ok(())
}

/// The keys that the writer is asked for now and leaves, as an act says.
fn left_keys(
    alloc: Global,
    world: &World,
    call: u64,
    act: &ScriptAct,
    keys: &[Key],
) -> Result<LeftKeys, AllocError>
    requires { IsDistinct (pointwise ◌==◌) keys.now }
    ensures { IfOk result (λ left. left ≡ left_keys world.now.world call act.now keys.now) }
{
    let mut left = IndexSet::new(alloc);
    for key in keys {
        add_if_left(world, call, act, key, &mut left)?;
    }
    Ok(LeftKeys::of(left))
}

fn add_if_left(
    world: &World,
    call: u64,
    act: &ScriptAct,
    key: &Key,
    left: &mut IndexSet<Key>,
) -> Result<(), AllocError>
    requires { is_among left.old.keys key.now ≡ false }
    ensures { OnOk result (
        left.new.keys ≡ left.old.keys ++ left_keys world.now.world call act.now (key.now ∷ [])) }
{
    if is_left(world, call, act, key) {
        left.insert(*key)?;
    }
    Ok(())
}

/// Whether it is the time for an act, by the call's keys and the events at those that it is about.
fn is_time(world: &World, call: u64, act: &ScriptAct, keys: &[Key], events: &[WorldEvent]) -> bool
    ensures { result ≡ is_time world.now.world call act.now keys.now events.now }
{
    match act {
        ScriptAct::Read | ScriptAct::ReadFail(_) | ScriptAct::Say(_) | ScriptAct::Process { .. } =>
            is_about_one(events),
        ScriptAct::Apply(_) | ScriptAct::ApplyFail(..) | ScriptAct::ApplyLie(_) => is_one_asked(
            world, call, keys,
        ),
        ScriptAct::End | ScriptAct::More => is_about_one(events) && all_fit(world, events),
        ScriptAct::Drop => all_fit(world, events) && !is_one_joined(world, call, keys),
        ScriptAct::Take => is_about_one(events) && !is_one_started(world, call, keys),
    }
}

fn is_about_one(events: &[WorldEvent]) -> bool
    ensures { result ≡ is_about_one events.now }
{
    match events {
        [] => false,
        [_, ..] => true,
    }
}

fn all_fit(world: &World, events: &[WorldEvent]) -> bool
    ensures { result ≡ list_all (fits world.now.world) events.now }
{
    events.iter().all(|event| world.fits(event))
}

fn is_one_asked(world: &World, call: u64, keys: &[Key]) -> bool
    ensures { result ≡ list_any (is_being_written world.now.world call) keys.now }
{
    keys.iter().any(|key| world.is_being_written(call, key))
}

fn is_one_joined(world: &World, call: u64, keys: &[Key]) -> bool
    ensures { result ≡ list_any (is_joined world.now.world call) keys.now }
{
    keys.iter().any(|key| world.is_joined(call, key))
}

fn is_one_started(world: &World, call: u64, keys: &[Key]) -> bool
    ensures { result ≡ list_any (is_started world.now.world call) keys.now }
{
    keys.iter().any(|key| world.is_reserved(call, key))
}
