//! The keys that calls have reserved, in a map by key.
ghost use Rattle.std.specs.Prelude.{◌≡◌, ◌<◌, ◌≤◌, ◌++◌, ◌+◌, length, vec_len, vec_capacity, true, false, Option, Some};
ghost use Rattle.std.specs.Prelude.{None, is_some, option_copied, [], IsTrue, IfSome, IfNone, IfOk, OnOk, OnErr};
ghost use Rattle.std.specs.FinMap as map;
ghost use Rattle.indexmap.specs.IndexMap.{spare, index_map_len};
ghost use Rattle.jc_model.specs.declared.event.Change.{Change};
ghost use Rattle.jc_model.specs.Cache.{Bytes, with_entry};
ghost use Rattle.jc_model.specs.Table.{is_load_given, is_write_given};
ghost use Rattle.jc_stripe.specs.Refusals.{reserves};
ghost use Rattle.jc_stripe.specs.Effects.{change_due};
ghost use Rattle.jc_world.specs.declared.event.Part.{Part};
ghost use Rattle.jc_world.specs.Premises.{changed_to, is_true_load, is_true_report};
ghost use Rattle.jc_world.specs.World.{has_changed, is_misled, has_progress, of_call, waits_for_load, waits_for_process, waits_for_report};
ghost use Rattle.jc_world.specs.World.{writer_change};
ghost use Rattle.jc_world.specs.Fits.{passes_in, is_in_batch};
ghost use Rattle.jc_world.specs.Events.{asks_as, new_part, new_progress, not_over, with_heard, with_loaded, with_change, with_report, reported_key};
ghost use Rattle.jc_world.specs.Events.{run_answers, run_result, progress_after};
ghost use Rattle.jc_world.specs.Held.{parts_of};

use crate::event::{Part, Shown, show};
use crate::held::HeldKey;
use crate::reports::{ReportedKey, WriterBatch};
use crate::run::{RunPlan, RunShown, asks_as};
use indexmap::IndexMap;
use jc_model::{Change, Contents, EntryAnswer, LoadAnswer, Op, ProcessAnswer, WriteAnswer};
use jc_stripe::{First, Ticket};
use jc_types::{Config, Key, Value};
use std::alloc::{AllocError, Global};

/// The keys that are held, each with its ticket.
pub(crate) type HeldKeys = IndexMap<Key, HeldKey>;

/// Makes room for one more key.
pub(crate) fn make_room(held: &mut HeldKeys) -> Result<(), AllocError>
    ensures room { OnOk result (0 < spare held.new) }
    ensures parts { parts_of held.new ≡ parts_of held.old }
{
    held.reserve(1)
}

/// Puts a key in that isn't there, for which room was made before.
fn put_reserved(held: &mut HeldKeys, key: &Key, one: HeldKey)
    requires room { 0 < spare held.old }
    requires free { map.get (parts_of held.old) key.now ≡ None }
    ensures { parts_of held.new ≡ map.insert (parts_of held.old) key.now one }
{
    match held.insert(*key, one) {
        Ok(None) => {}
        Ok(Some(_former)) => unreachable!(),
        Err(_failed) => unreachable!(),
    }
}

/// A call has reserved its key, for which there is room. Its ticket is held, and what is asked is shown.
///
/// It is a function of its own, so that a call that reserves nothing doesn't clear the room of its tickets.
#[inline(never)]
pub(crate) fn hold(held: &mut HeldKeys, ticket: Ticket, seen: &mut Shown)
    requires room { 0 < spare held.old }
    requires reserves { reserves ticket.reservation.first ≡ true }
    requires unasked { ticket.asked ≡ false }
    requires writer { ticket.writer_asked ≡ false }
    requires free { map.get (parts_of held.old) ticket.reservation.key ≡ None }
    ensures shown { seen.new ≡ not_over (asks_as ticket.reservation.first) }
    ensures parts { parts_of held.new ≡ map.insert (parts_of held.old) ticket.reservation.key
        (new_part (new_progress ticket.reservation.first) ticket.reservation) }
{
    let key = ticket.reservation().key;
    show(seen, asks_as(&ticket.reservation().first));
    put_reserved(held, &key, HeldKey::new(ticket));
}

/// The held key, if it is held. An empty map isn't searched, because hashing a key takes time and most calls hold none.
pub(crate) fn held_at<'a>(held: &'a HeldKeys, key: &Key) -> Option<&'a HeldKey>
    ensures { option_copied result ≡ map.get (parts_of held.now) key.now }
{
    if held.is_empty() { None } else { held.get(key) }
}

/// The held key, if a call holds it.
pub(crate) fn held_by<'a>(held: &'a HeldKeys, call: u64, key: &Key) -> Option<&'a HeldKey>
    ensures { option_copied result ≡ of_call call (map.get (parts_of held.now) key.now) }
{
    match held_at(held, key) {
        Some(one) => { if one.call() == call { Some(one) } else { None } }
        None => None,
    }
}

/// The parts of all held keys, in the order of the map.
pub(crate) fn list_parts(alloc: Global, held: &HeldKeys) -> Result<Vec<(Key, Part)>, AllocError>
    ensures { IfOk result (λ parts. map.from_entries parts.items ≡ parts_of held.now) }
{
    let _types: Option<&(Op, First, Change, LoadAnswer, ProcessAnswer)> = None;
    let mut parts = Vec::new(alloc);
    for (key, one) in held.iter() {
        parts.push((*key, one.part()))?;
    }
    Ok(parts)
}

/// The loader answers for a key, honestly or not.
pub(crate) fn loader_answers(held: &mut HeldKeys, key: &Key, answer: LoadAnswer, honest: bool)
    requires waits { has_progress waits_for_load (map.get (parts_of held.old) key.now) ≡ true }
    requires given { is_load_given answer ≡ true }
    ensures { (part : Part) × (map.get (parts_of held.old) key.now ≡ Some part)
        × (parts_of held.new ≡ map.insert (parts_of held.old) key.now
        (record part { progress = with_heard (with_loaded part.progress answer) (is_misled part) honest })) }
{
    match held.get_mut(key) {
        Some(one) => one.loader_answers(answer, honest),
        None => unreachable!(),
    }
}

/// The writer changes the store at a key, as it was asked.
pub(crate) fn change(held: &mut HeldKeys, store: &mut Contents, key: &Key) -> Result<(), AllocError>
    requires { has_progress waits_for_report (map.get (parts_of held.old) key.now) ≡ true }
    ensures ok { OnOk result ((part : Part) × (change : Change)
        × (map.get (parts_of held.old) key.now ≡ Some part)
        × (writer_change part ≡ Some change)
        × (parts_of held.new ≡ map.insert (parts_of held.old) key.now
        (record part { progress = with_change part.progress }))
        × (store.new ≡ with_entry store.old key.now (changed_to change))) }
    ensures err { OnErr result ((parts_of held.new ≡ parts_of held.old) × (store.new ≡ store.old)) }
{
    match held.get_mut(key) {
        Some(one) => one.change(store, key),
        None => unreachable!(),
    }
}

/// Whether the loader was asked for a key by a call, and hasn't answered.
pub(crate) fn waits_for_load(held: &HeldKeys, call: u64, key: &Key) -> bool
    ensures { result ≡ passes_in waits_for_load (parts_of held.now) call key.now }
{
    held_by(held, call, key).is_some_and(|one| one.waits_for_load())
}

/// Whether the writer was asked for a key by a call, and hasn't returned.
pub(crate) fn waits_for_report(held: &HeldKeys, call: u64, key: &Key) -> bool
    ensures { result ≡ passes_in waits_for_report (parts_of held.now) call key.now }
{
    held_by(held, call, key).is_some_and(|one| one.waits_for_report())
}

/// Whether the entry processor was asked for a key by a call, and hasn't run.
pub(crate) fn waits_for_process(held: &HeldKeys, call: u64, key: &Key) -> bool
    ensures { result ≡ passes_in waits_for_process (parts_of held.now) call key.now }
{
    held_by(held, call, key).is_some_and(|one| one.waits_for_process())
}

/// Whether a key of a call is among those for which the writer is asked at once.
pub(crate) fn is_being_written(held: &HeldKeys, call: u64, key: &Key, batch: WriterBatch) -> bool
    ensures { result ≡ passes_in (is_in_batch batch) (parts_of held.now) call key.now }
{
    match held_by(held, call, key) {
        Some(one) => one.is_in_batch(batch),
        None => false,
    }
}

/// A key of a call as the writer's return shows it, if it is among those for which the writer is asked at once.
pub(crate) fn reported_key(
    held: &HeldKeys,
    call: u64,
    key: &Key,
    batch: WriterBatch,
) -> Option<ReportedKey>
    ensures { result ≡ reported_key batch (parts_of held.now) call key.now }
{
    match held_by(held, call, key) {
        Some(one) => one.reported(key, batch),
        None => None,
    }
}

/// The writer returns with this for a key. Says whether it had changed the store.
pub(crate) fn report(held: &mut HeldKeys, key: &Key, report: WriteAnswer) -> bool
    requires waits { has_progress waits_for_report (map.get (parts_of held.old) key.now) ≡ true }
    requires given { is_write_given report ≡ true }
    ensures { (part : Part) × (map.get (parts_of held.old) key.now ≡ Some part)
        × (result ≡ has_changed part)
        × (parts_of held.new ≡ map.insert (parts_of held.old) key.now
        (record part {
          progress = with_heard (with_report part.progress report) (is_misled part) (is_true_report report (has_changed part));
        })) }
{
    match held.get_mut(key) {
        Some(one) => one.report(report),
        None => unreachable!(),
    }
}

/// The entry processor of a key runs, and the writer is then asked for its net effect if that is due.
pub(crate) fn process(
    held: &mut HeldKeys,
    config: &Config,
    key: &Key,
    plan: &RunPlan<'_>,
    stored: Option<Value>,
    answers: &mut Vec<EntryAnswer>,
) -> RunShown
    requires waits { has_progress waits_for_process (map.get (parts_of held.old) key.now) ≡ true }
    requires given { is_load_given plan.now.load ≡ true }
    requires room { vec_len answers.old + length plan.now.calls.now ≤ vec_capacity answers.old }
    ensures { (part : Part) × (map.get (parts_of held.old) key.now ≡ Some part)
        × (answers.new.items ≡ answers.old.items ++ run_answers part.reservation plan.now.load plan.now.calls.now)
        × (result.load ≡ (run_result part.reservation plan.now.load plan.now.calls.now plan.now.fail).load)
        × (result.change
        ≡ change_due config.now (run_result part.reservation plan.now.load plan.now.calls.now plan.now.fail))
        × (parts_of held.new ≡ map.insert (parts_of held.old) key.now
        (record part {
          progress = with_heard
              (progress_after
              (change_due config.now (run_result part.reservation plan.now.load plan.now.calls.now plan.now.fail))
              (run_result part.reservation plan.now.load plan.now.calls.now plan.now.fail))
              (is_misled part)
              (is_true_load (run_result part.reservation plan.now.load plan.now.calls.now plan.now.fail).load stored);
        })) }
{
    match held.get_mut(key) {
        Some(one) => one.process(config, plan, stored, answers),
        None => unreachable!(),
    }
}

/// Whether the loader or the writer has lied about a key, if it is held.
pub(crate) fn is_misled(held: &HeldKeys, key: &Key) -> bool
    ensures { result ≡ has_progress is_misled (map.get (parts_of held.now) key.now) }
{
    held_at(held, key).is_some_and(|one| one.is_misled())
}

/// Takes a key out. The last one takes its place.
pub(crate) fn take(held: &mut HeldKeys, key: &Key) -> HeldKey
    requires { IsTrue (is_some (map.get (parts_of held.old) key.now)) }
    ensures one { map.get (parts_of held.old) key.now ≡ Some result }
    ensures parts { parts_of held.new ≡ map.remove (parts_of held.old) key.now }
{
    match held.swap_remove(key) {
        Some(one) => one,
        None => unreachable!(),
    }
}

/// Takes any key out.
pub(crate) fn take_any(held: &mut HeldKeys) -> Option<HeldKey>
    ensures some { IfSome result (λ one. (key : Bytes)
        × (map.get (parts_of held.old) key ≡ Some one)
        × (parts_of held.new ≡ map.remove (parts_of held.old) key)) }
    ensures len { IfSome result (λ _. index_map_len held.old ≡ index_map_len held.new + 1) }
    ensures none { IfNone result (held.new.entries ≡ []) }
    ensures empty { IfNone result (parts_of held.old ≡ map.empty) }
{
    match held.pop() {
        Some(entry) => Some(entry.1),
        None => None,
    }
}
