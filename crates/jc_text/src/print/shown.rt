//! The outcomes of events, as lines.
ghost use Rattle.std.specs.Prelude.{◌≡◌, ◌++◌, OnOk};
ghost use Rattle.std.specs.List.{flat_map};
ghost use Rattle.jc_text.specs.Printing.{process_outcome_text, cause_name, evict_line, victim_text, evicted_text, outcome_text};
ghost use Rattle.jc_text.specs.Printing.{stepped_text, picked_line, dropped_line, refused_line, done_name, change_name};
ghost use Rattle.jc_text.specs.Printing.{reported_line, reported_text, returned_text};
ghost use Rattle.jc_text.specs.Printing.{shown_text, begun_text, left_text, foreign_line, invalidate_line, invalidated_text, invalidated_at_text, reopened_text, told, end_text, event_text, texts};

use crate::print::lines::{
    put_answer, put_asks, put_fault_code, put_keys_line, put_over, put_refused_whole,
};
use crate::print::process::{put_process, put_processed, verb};
use crate::print::{Piece, put, put_key_line, put_number, put_pieces};
use jc_model::{Cause, Change, Reply};
use jc_stripe::Eviction;
use jc_types::{Key, Refusal, Value};
use jc_world::event::{EvictionPlace, JoinAnswer, Outcome, Over, Shown, Stepped, WorldEvent};
use jc_world::process::{LoadSource, ShownRun};
use jc_world::reports::{Reported, ReportedKey};
use std::alloc::AllocError;

fn name_of(cause: Cause) -> &'static str
    ensures { result.now ≡ cause_name cause }
{
    match cause {
        Cause::Full => "full",
        Cause::Memory => "memory",
        Cause::Invalidated => "invalidated",
    }
}

#[tactic(auto, unfolding(crate::specs::Printing::evict_line))]
fn put_evict(
    out: &mut Vec<u8>,
    key: &Key,
    cause: Cause,
    stripe: usize,
    place: usize,
) -> Result<(), AllocError>
    ensures { OnOk result (out.new.items ≡ out.old.items ++ evict_line key.now cause stripe place) }
{
    put_pieces(
        out,
        &[
            Piece::Text("evict "),
            Piece::Key(key),
            Piece::Text(" "),
            Piece::Text(name_of(cause)),
            Piece::Place(stripe, place),
            Piece::Text("\n"),
        ],
    )
}

fn put_victim(
    out: &mut Vec<u8>,
    victim: &Option<Key>,
    stripe: usize,
    place: u32,
) -> Result<(), AllocError>
    ensures { OnOk result (out.new.items ≡ out.old.items ++ victim_text victim.now stripe place) }
{
    match victim {
        None => Ok(()),
        Some(victim) => {
            let before = place.saturating_sub(1) as usize;
            put_evict(out, victim, Cause::Full, stripe, before)
        }
    }
}

fn put_evicted(
    out: &mut Vec<u8>,
    key: &Key,
    evicted: &Option<Eviction>,
    stripe: usize,
) -> Result<(), AllocError>
    ensures { OnOk result (out.new.items ≡ out.old.items ++ evicted_text key.now evicted.now stripe) }
{
    match evicted {
        None => Ok(()),
        Some(gone) => put_evict(out, key, gone.cause, stripe, gone.place as usize),
    }
}

/// The eviction of an invalidated key, if its entry was evicted.
fn put_invalidated_at(
    out: &mut Vec<u8>,
    key: &Key,
    evicted: &Option<EvictionPlace>,
) -> Result<(), AllocError>
    ensures { OnOk result (out.new.items ≡ out.old.items ++ invalidated_at_text key.now evicted.now) }
{
    match evicted {
        None => Ok(()),
        Some(at) => put_evict(out, key, Cause::Invalidated, at.stripe, at.place),
    }
}

/// A call's key, and its place.
#[tactic(auto, unfolding(crate::specs::Printing::outcome_text))]
fn put_outcome<'a>(
    out: &mut Vec<u8>,
    call: u64,
    key: &'a Key,
    reply: &'a Reply,
    stripe: usize,
    place: u32,
) -> Result<(), AllocError>
    ensures { OnOk result (out.new.items ≡ out.old.items ++ outcome_text call key.now reply.now stripe place) }
{
    put_pieces(
        out,
        &[
            Piece::Subject(call, key),
            Piece::Text(" is "),
            Piece::Reply(reply),
            Piece::Place(stripe, place as usize),
        ],
    )
}

#[tactic(auto, unfolding(crate::specs::Printing::stepped_text))]
fn put_stepped(out: &mut Vec<u8>, call: u64, key: &Key, seen: &Stepped) -> Result<(), AllocError>
    ensures { OnOk result (out.new.items ≡ out.old.items ++ stepped_text call key.now seen.now) }
{
    put_victim(out, &seen.victim, seen.stripe, seen.place)?;
    put_outcome(out, call, key, &seen.reply, seen.stripe, seen.place)?;
    put(out, "\n")?;
    put_evicted(out, key, &seen.evicted, seen.stripe)
}

#[tactic(auto, unfolding(crate::specs::Printing::picked_line))]
fn put_picked(out: &mut Vec<u8>, call: u64, key: &Key, seen: &JoinAnswer) -> Result<(), AllocError>
    ensures { OnOk result (out.new.items ≡ out.old.items ++ picked_line call key.now seen.now) }
{
    put_outcome(out, call, key, &seen.reply, seen.stripe, seen.place)?;
    put_pieces(
        out,
        &[
            Piece::Text(" shared "),
            Piece::Number(seen.shared as u64),
            Piece::Text("\n"),
        ],
    )
}

#[tactic(auto, unfolding(crate::specs::Printing::dropped_line))]
fn put_dropped(out: &mut Vec<u8>, call: u64) -> Result<(), AllocError>
    ensures { OnOk result (out.new.items ≡ out.old.items ++ dropped_line call) }
{
    put_number(out, call)?;
    put(out, " dropped\n")
}

#[tactic(auto, unfolding(crate::specs::Printing::refused_line))]
fn put_refused(out: &mut Vec<u8>, call: u64, key: &Key, refusal: &Refusal) -> Result<(), AllocError>
    ensures { OnOk result (out.new.items ≡ out.old.items ++ refused_line call key.now refusal.now) }
{
    put_pieces(
        out,
        &[
            Piece::Subject(call, key),
            Piece::Text(" refused "),
            Piece::Text(refusal.name()),
            Piece::Text("\n"),
        ],
    )
}

fn done(change: &Change) -> &'static str
    ensures { result.now ≡ done_name change.now }
{
    match change {
        Change::Write(_) => " written\n",
        Change::Delete => " deleted\n",
    }
}

fn changed(change: &Change, is_changed: bool) -> &'static str
    ensures { result.now ≡ change_name change.now is_changed }
{
    if is_changed { done(change) } else { " left\n" }
}

#[tactic(auto, unfolding(crate::specs::Printing::reported_line))]
fn put_reported_key(out: &mut Vec<u8>, call: u64, one: &ReportedKey) -> Result<(), AllocError>
    ensures { OnOk result (out.new.items ≡ out.old.items ++ reported_line call one.now) }
{
    put_key_line(out, call, &one.key, changed(&one.change, one.is_changed))
}

/// The keys that the writer was asked for.
fn put_reported_keys(out: &mut Vec<u8>, call: u64, keys: &[ReportedKey]) -> Result<(), AllocError>
    ensures { OnOk result (out.new.items ≡ out.old.items ++ flat_map (reported_line call) keys.now) }
{
    for one in keys {
        put_reported_key(out, call, one)?;
    }
    Ok(())
}

fn put_reported(out: &mut Vec<u8>, call: u64, seen: &Reported) -> Result<(), AllocError>
    ensures { OnOk result (out.new.items ≡ out.old.items ++ reported_text call seen.now) }
{
    put_reported_keys(out, call, seen.keys.as_slice())?;
    put_fault_code(out, call, seen.fault)
}

/// The outcome of a processor's run.
fn put_process_shown(
    out: &mut Vec<u8>,
    call: u64,
    key: &Key,
    source: &LoadSource,
    seen: &Outcome,
) -> Result<(), AllocError>
    ensures { OnOk result (out.new.items ≡ out.old.items ++ process_outcome_text call key.now source.now seen.now) }
{
    match seen {
        Outcome::Processed(seen) => put_processed(out, call, key, verb(source), seen),
        _ => put_shown(out, call, key, seen),
    }
}

/// The outcome of an event of a call at a key.
fn put_shown(out: &mut Vec<u8>, call: u64, key: &Key, seen: &Outcome) -> Result<(), AllocError>
    ensures { OnOk result (out.new.items ≡ out.old.items ++ shown_text call key.now seen.now) }
{
    match seen {
        Outcome::Begun => Ok(()),
        Outcome::Looked => Ok(()),
        Outcome::Stepped(seen) => put_stepped(out, call, key, seen),
        Outcome::Loads => put_key_line(out, call, key, " load\n"),
        Outcome::Asks(change) => put_asks(out, call, key, change),
        Outcome::Processes(entry) => put_process(out, call, key, entry),
        Outcome::Processed(_) => Ok(()),
        Outcome::Joins => put_key_line(out, call, key, " joined\n"),
        Outcome::Refused(refusal) => put_refused(out, call, key, refusal),
        Outcome::PutOff(_) => put_key_line(out, call, key, " put off\n"),
        Outcome::Reads(answer) => put_answer(out, call, key, " reads ", answer),
        Outcome::Says(answer) => put_answer(out, call, key, " says ", answer),
        Outcome::Changed => Ok(()),
        Outcome::Reported(_) => Ok(()),
        Outcome::Withdrawn(evicted) => put_invalidated_at(out, key, evicted),
        Outcome::Left => Ok(()),
        Outcome::PickedUp(seen) => put_picked(out, call, key, seen),
        Outcome::Waits => put_key_line(out, call, key, " waits\n"),
        Outcome::Again => put_key_line(out, call, key, " again\n"),
        Outcome::Written => Ok(()),
        Outcome::Invalidated(_) => Ok(()),
        Outcome::Marked => Ok(()),
        Outcome::Reopened(_) => Ok(()),
        Outcome::Unfit => Ok(()),
    }
}

#[tactic(auto, unfolding(crate::specs::Printing::foreign_line))]
fn put_foreign<'a>(
    out: &mut Vec<u8>,
    key: &'a Key,
    value: &'a Option<Value>,
) -> Result<(), AllocError>
    ensures { OnOk result (out.new.items ≡ out.old.items ++ foreign_line key.now value.now) }
{
    put_pieces(
        out,
        &[
            Piece::Text("foreign "),
            Piece::Key(key),
            Piece::Text(" "),
            Piece::ValueOrNone(value),
            Piece::Text("\n"),
        ],
    )
}

#[tactic(auto, unfolding(crate::specs::Printing::invalidate_line))]
fn put_invalidate<'a>(out: &mut Vec<u8>, key: &'a Key, text: &'a str) -> Result<(), AllocError>
    ensures { OnOk result (out.new.items ≡ out.old.items ++ invalidate_line key.now text.now) }
{
    put_pieces(
        out,
        &[
            Piece::Text("invalidate "),
            Piece::Key(key),
            Piece::Text(text),
        ],
    )
}

/// The outcome of an invalidation.
fn put_invalidated(out: &mut Vec<u8>, key: &Key, seen: &Outcome) -> Result<(), AllocError>
    ensures { OnOk result (out.new.items ≡ out.old.items ++ invalidated_text key.now seen.now) }
{
    match seen {
        Outcome::Invalidated(evicted) => {
            put_invalidate(out, key, "\n")?;
            put_invalidated_at(out, key, evicted)
        }
        Outcome::Marked => put_invalidate(out, key, " marked\n"),
        _ => Ok(()),
    }
}

/// The outcome of the beginning of a call.
fn put_begun(out: &mut Vec<u8>, call: u64, seen: &Outcome) -> Result<(), AllocError>
    ensures { OnOk result (out.new.items ≡ out.old.items ++ begun_text call seen.now) }
{
    match seen {
        Outcome::Refused(refusal) => put_refused_whole(out, call, refusal),
        _ => Ok(()),
    }
}

/// The outcome of a call's leaving.
fn put_left(out: &mut Vec<u8>, call: u64, seen: &Outcome) -> Result<(), AllocError>
    ensures { OnOk result (out.new.items ≡ out.old.items ++ left_text call seen.now) }
{
    match seen {
        Outcome::Left => put_dropped(out, call),
        _ => Ok(()),
    }
}

/// The outcome of a writer's return.
fn put_returned(out: &mut Vec<u8>, call: u64, seen: &Outcome) -> Result<(), AllocError>
    ensures { OnOk result (out.new.items ≡ out.old.items ++ returned_text call seen.now) }
{
    match seen {
        Outcome::Reported(seen) => put_reported(out, call, seen),
        _ => Ok(()),
    }
}

/// The outcome of a reopening.
fn put_reopened(out: &mut Vec<u8>, seen: &Outcome) -> Result<(), AllocError>
    ensures { OnOk result (out.new.items ≡ out.old.items ++ reopened_text seen.now) }
{
    match seen {
        Outcome::Reopened(keys) => put_keys_line(out, "reopened", keys.as_slice()),
        _ => Ok(()),
    }
}

/// The outcome of an event, without the end of its call.
fn put_told(out: &mut Vec<u8>, event: &WorldEvent, seen: &Outcome) -> Result<(), AllocError>
    ensures { OnOk result (out.new.items ≡ out.old.items ++ told event.now seen.now) }
{
    match event {
        WorldEvent::Call { call, .. } => put_begun(out, *call, seen),
        WorldEvent::Look { call: _, stripe: _ } => Ok(()),
        WorldEvent::Start { call, key } => put_shown(out, *call, key, seen),
        WorldEvent::Read { call, key } => put_shown(out, *call, key, seen),
        WorldEvent::Say { call, key, .. } => put_shown(out, *call, key, seen),
        WorldEvent::Change { call, key } => put_shown(out, *call, key, seen),
        WorldEvent::Report { call, .. } => put_returned(out, *call, seen),
        WorldEvent::Process {
            call,
            key,
            load,
            ..
        } => put_process_shown(out, *call, key, load, seen),
        WorldEvent::Commit { call, key } => put_shown(out, *call, key, seen),
        WorldEvent::Withdraw { call, key } => put_shown(out, *call, key, seen),
        WorldEvent::Leave { call } => put_left(out, *call, seen),
        WorldEvent::PickUp { call, key } => put_shown(out, *call, key, seen),
        WorldEvent::Foreign { key, value } => put_foreign(out, key, value),
        WorldEvent::Invalidate { key } => put_invalidated(out, key, seen),
        WorldEvent::Reopen { config: _ } => put_reopened(out, seen),
    }
}

/// That a call of many keys is over, if one is.
fn put_end(out: &mut Vec<u8>, over: &Option<Over>) -> Result<(), AllocError>
    ensures { OnOk result (out.new.items ≡ out.old.items ++ end_text over.now) }
{
    match over {
        None => Ok(()),
        Some(over) => put_over(out, over.call, &over.cause),
    }
}

/// The outcome of an event, with the end of its call.
fn put_event(out: &mut Vec<u8>, event: &WorldEvent, seen: &Shown) -> Result<(), AllocError>
    ensures { OnOk result (out.new.items ≡ out.old.items ++ event_text event.now seen.now) }
{
    put_told(out, event, &seen.outcome)?;
    put_end(out, &seen.over)
}

/// The outcomes of events.
pub fn put_texts(out: &mut Vec<u8>, events: &[WorldEvent], seen: &[Shown]) -> Result<(), AllocError>
    ensures { OnOk result (out.new.items ≡ out.old.items ++ texts events.now seen.now) }
{
    for place in 0..events.len().min(seen.len()) {
        put_event(out, &events[place], &seen[place])?;
    }
    Ok(())
}
