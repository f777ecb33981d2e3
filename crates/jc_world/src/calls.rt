//! The calls under way. A session has one at most, so there are never more than there are sessions.
ghost use Rattle.std.specs.Prelude.{◌≡◌, ◌<◌, ◌++◌, true, Some, Ok, find, length, position, cond, option_copied, slice_get};
ghost use Rattle.std.specs.Prelude.{OnOk, OnErr, IsSomeAnd};
ghost use Rattle.std.specs.List.{list_any, remove};
ghost use Rattle.jc_world.specs.Calls.{has_number, is_of_session, is_going, drop_call, look, meet, new_call, opened, over_of};
ghost use Rattle.jc_world.specs.Calls.{keeps_open, over_settled, settle, with_swept_keys};
ghost use Rattle.jc_world.specs.OpenCalls.{TakesKeys};
ghost use Rattle.jc_world.specs.Calls.{CallState, SweepState};
ghost use Rattle.jc_world.specs.Fits.{is_single, is_playable, is_new};
ghost use Rattle.jc_world.specs.Events.{fault_in, not_over, shown_begun};
ghost use Rattle.jc_world.specs.declared.event.Outcome.TheVariants as outcome;

use crate::command::{CallKind, Command};
use crate::event::{Outcome, Over, Shown, show, show_end};
use crate::open_call::OpenCall;
use jc_model::{Op, OpKind, Reply};
use jc_types::{Caller, Key, Refusal};
use std::alloc::{AllocError, Global};

/// Whether an operation is a call by itself.
fn is_single(op: &Op) -> bool
    ensures { result ≡ is_single op.now }
{
    match op.kind() {
        OpKind::Get | OpKind::ContainsKey | OpKind::Write | OpKind::Clear | OpKind::Invoke => true,
        OpKind::LoadAll { .. } => false,
    }
}

/// Whether a command is played: one operation that is a call by itself, or one on many keys.
pub(crate) fn is_playable(command: &Command) -> bool
    ensures { result ≡ is_playable command.now }
{
    match command {
        Command::Single { op, key: _ } => is_single(op),
        Command::GetAll { keys: _ }
        | Command::PutAll { entries: _ }
        | Command::RemoveAll { keys: _ }
        | Command::RemoveEvery
        | Command::Clear
        | Command::LoadAll {
            replace: _,
            keys: _,
        }
        | Command::InvokeAll { keys: _ } => true,
    }
}

/// Whether a call's number is above all before it.
pub(crate) fn is_above(last: Option<u64>, call: u64) -> bool
    ensures { result ≡ is_new last call }
{
    match last {
        Some(last) => last < call,
        None => true,
    }
}

/// Whether a session has a call under way.
pub(crate) fn has_call(calls: &[OpenCall], session: u32) -> bool
    ensures { result ≡ list_any (is_of_session session) calls.now }
{
    calls.iter().any(|u| u.caller().session == session)
}

/// The call that a session has under way.
pub(crate) fn call_by(calls: &[OpenCall], session: u32) -> Option<&OpenCall>
    ensures { option_copied result ≡ find (is_of_session session) calls.now }
{
    calls.iter().find(|u| u.caller().session == session)
}

/// The call with this number.
pub(crate) fn find_call(calls: &[OpenCall], call: u64) -> Option<&OpenCall>
    ensures { option_copied result ≡ find (has_number call) calls.now }
{
    calls.iter().find(|u| u.caller().call == call)
}

/// The place of the call with this number in the list.
fn place_of(calls: &[OpenCall], call: u64) -> Option<usize>
    ensures { result ≡ position (has_number call) calls.now }
{
    calls.iter().position(|u| u.caller().call == call)
}

/// A call begins. It is then under way, unless it has too many keys or none. An `Err` says that an allocation failed, and then no call
/// has begun.
///
/// A call of one key, the most frequent kind, is made in its place in the list. Any other call is made first and then moved there.
pub(crate) fn begin(
    alloc: Global,
    calls: &mut Vec<OpenCall>,
    caller: Caller,
    command: &Command,
    seen: &mut Shown,
) -> Result<(), AllocError>
    ensures shown { OnOk result (seen.new ≡ shown_begun (new_call caller.call caller.session command.now)) }
    ensures ok { OnOk result (
        calls.new.items ≡ calls.old.items ++ opened (new_call caller.call caller.session command.now)) }
    ensures err { OnErr result (calls.new.items ≡ calls.old.items) }
{
    if let Command::Single { op, key } = command {
        show(seen, Outcome::Begun);
        let place = calls.len();
        calls.push(OpenCall::get(caller, key))?;
        calls[place].set_single(op, key);
        return Ok(());
    }
    begin_any(alloc, calls, caller, command, seen)
}

/// Begins a call with any command. It is a function of its own because a call of one key needn't clear the room of its values.
#[inline(never)]
fn begin_any(
    alloc: Global,
    calls: &mut Vec<OpenCall>,
    caller: Caller,
    command: &Command,
    seen: &mut Shown,
) -> Result<(), AllocError>
    ensures shown { OnOk result (seen.new ≡ shown_begun (new_call caller.call caller.session command.now)) }
    ensures ok { OnOk result (
        calls.new.items ≡ calls.old.items ++ opened (new_call caller.call caller.session command.now)) }
    ensures err { OnErr result (calls.new.items ≡ calls.old.items) }
{
    if command.has_too_many_keys() {
        show(seen, Outcome::Refused(Refusal::TooManyKeys));
        return Ok(());
    }
    let call = OpenCall::new(alloc, caller, command)?;
    show_end(seen, Outcome::Begun, call.over());
    if call.is_going() {
        calls.push(call)?;
    }
    Ok(())
}

/// The first phase of a key of a call was refused. The key is settled, unless it is put off.
pub(crate) fn refuse(
    calls: &mut Vec<OpenCall>,
    kind: CallKind,
    call: u64,
    key: &Key,
    refusal: Refusal,
    seen: &mut Shown,
)
    ensures calls { calls.new.items
        ≡ cond (keeps_open kind refusal) calls.old.items (settle call key.now (Some refusal) calls.old.items) }
    ensures shown { seen.new ≡ cond (keeps_open kind refusal) (not_over (outcome.PutOff refusal))
        (record { outcome = outcome.Refused refusal; over = over_settled call key.now (Some refusal) calls.old.items }) }
{
    if kind.keeps_open(&refusal) {
        show(seen, Outcome::PutOff(refusal));
        return;
    }
    let over = settle(calls, call, key, Some(refusal));
    show_end(seen, Outcome::Refused(refusal), over);
}

/// The fault that a reply is, if it is one.
pub(crate) fn fault_in(reply: &Reply) -> Option<Refusal>
    ensures { result ≡ fault_in reply.now }
{
    match reply {
        Reply::Fault(fault) => Some(*fault),
        Reply::Unit | Reply::Flag(_) | Reply::Value(_) => None,
    }
}

/// A key of a call has its reply or last refusal, and the call has met this fault or refusal by it, or none. The call is taken out if it
/// is over with that. Gives its end, if it has many keys and is over.
pub(crate) fn settle(
    calls: &mut Vec<OpenCall>,
    call: u64,
    key: &Key,
    met: Option<Refusal>,
) -> Option<Over>
    ensures calls { calls.new.items ≡ settle call key.now met calls.old.items }
    ensures over { result ≡ over_settled call key.now met calls.old.items }
{
    let Some(place) = place_of(calls, call) else {
        return None;
    };
    calls[place].settle(key, met);
    end_at(calls, place)
}

/// Takes the call at a place out if it is over. Gives its end, if it has many keys and is over.
fn end_at(calls: &mut Vec<OpenCall>, place: usize) -> Option<Over>
    requires { place < length calls.old.items }
    ensures { (u : CallState) × (slice_get calls.old.items place ≡ Some u) × (result ≡ over_of u)
        × (calls.new.items ≡ cond (is_going u) calls.old.items (remove calls.old.items place)) }
{
    let u = &calls[place];
    let over = u.over();
    if !u.is_going() {
        take_out(calls, place);
    }
    over
}

/// Takes the call at a place out. The last one, which a call of one key mostly is, is let go where it is, and not moved first.
fn take_out(calls: &mut Vec<OpenCall>, place: usize)
    requires { place < length calls.old.items }
    ensures { calls.new.items ≡ remove calls.old.items place }
{
    if place + 1 == calls.len() {
        calls.truncate(place);
    } else {
        let _over = calls.remove(place);
    }
}

/// A call meets this fault, or none.
pub(crate) fn meet(calls: &mut Vec<OpenCall>, call: u64, met: Option<Refusal>)
    ensures { calls.new.items ≡ meet call met calls.old.items }
{
    if let Some(place) = place_of(calls, call) {
        calls[place].meet(met);
    }
}

/// A call takes these keys, which are those of one of the stripes. It is taken out if it is over with that. Gives its end, if it
/// is over. An `Err` says that an allocation failed, and then nothing has changed.
pub(crate) fn look(
    calls: &mut Vec<OpenCall>,
    call: u64,
    stripes: usize,
    stripe: usize,
    keys: &[Key],
) -> Result<Option<Over>, AllocError>
    requires { IsSomeAnd (find (has_number call) calls.old.items) (TakesKeys keys.now) }
    ensures ok { OnOk result ((u : CallState) × (sweep : SweepState)
        × (find (has_number call) calls.old.items ≡ Some u) × (u.sweep ≡ Some sweep)
        × (result ≡ Ok (over_of (with_swept_keys stripes stripe keys.now sweep u)))
        × (calls.new.items ≡ look call stripes stripe keys.now sweep calls.old.items)) }
    ensures err { OnErr result (calls.new.items ≡ calls.old.items) }
{
    let Some(place) = place_of(calls, call) else {
        unreachable!()
    };
    calls[place].look(stripes, stripe, keys)?;
    Ok(end_at(calls, place))
}

/// Takes a call that leaves out.
pub(crate) fn drop_call(calls: &mut Vec<OpenCall>, call: u64)
    ensures { calls.new.items ≡ drop_call call calls.old.items }
{
    calls.retain(|u| u.caller().call != call);
}
