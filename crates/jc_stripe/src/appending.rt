//! A step in the entries, and its events in the history. The functions that a step goes through are inlined, since a group that a
//! function returns would be cleared and copied once more.
//!
//! The events of a step are in a fixed order: the eviction that makes room for it, the step, the shared steps of the calls that
//! joined its load, and the eviction of its own key.
ghost use Rattle.std.specs.Prelude.{◌≡◌, ◌+◌, ◌≤◌, ◌<◌, ◌^◌, [], ◌∷◌, ◌++◌, map, length, Option, None, Some, option_map};
ghost use Rattle.std.specs.FinMap as finite;
ghost use Rattle.jc_model.specs.Cache.{key_cmp};
ghost use Rattle.jc_model.specs.Table.{holds};
ghost use Rattle.jc_model.specs.Group.{victim_events, shared_event, evicted_events};
ghost use Rattle.jc_model.specs.declared.event.Event.TheVariants.{Evict};
ghost use Rattle.jc_history.specs.Past.{push};
ghost use Rattle.jc_history.specs.Values.{IsStorable};
ghost use Rattle.jc_inflight.specs.Joining.{callers_of};
ghost use Rattle.jc_stripe.specs.OrderOfUse.{uses};
ghost use Rattle.jc_stripe.specs.Appending.{AppliesStep, new_step, group_events, callers_in, append_all, append_group, eviction_of};

use crate::begun::{Appended, Eviction};
use crate::stripe_tables::StripeJoiners;
use jc_entries::{Entries, Inserted};
use jc_history::{History, LentStep};
use jc_model::{Cause, Event, LoadAnswer, Op, OpKind, Out, Reply};
use jc_types::{Caller, Key, Value};
use std::marker::Model;

/// A step, and what is evicted before and after it: a group without those that share its load. Its parts are lent.
#[derive(Drop)]
pub(crate) struct NewGroup<'a> {
    /// The caller.
    pub(crate) caller: Caller,
    /// The key.
    pub(crate) key: &'a Key,
    /// The operation.
    pub(crate) op: &'a Op,
    /// The outside answers.
    pub(crate) out: &'a Out,
    /// The reply.
    pub(crate) reply: &'a Reply,
    /// The key that was evicted before the step, since the stripe was full.
    pub(crate) victim: Option<Key>,
    /// The cause for which the step's own key was evicted after it, if it was.
    pub(crate) evicted: Option<Cause>,
    /// Whether its key had an entry before it.
    pub(crate) found: bool,
}

impl<'a> Model for NewGroup<'a> {
    ghost use Rattle.jc_stripe.specs.Appending.{NewGroup, group_in};

    ghost Value = { NewGroup };

    ghost view = { group_in };
}

/// Whether a step without a fault makes the entry that it leaves the most recently used.
fn uses(op: &Op, load: &LoadAnswer) -> bool
    ensures { result ≡ uses op.now load.now }
{
    match op.kind() {
        OpKind::ContainsKey => false,
        OpKind::LoadAll { .. } => match load {
            LoadAnswer::Found(_) => true,
            LoadAnswer::NotAsked | LoadAnswer::Nothing | LoadAnswer::Failed(_) => false,
        },
        OpKind::Get | OpKind::Write | OpKind::Clear | OpKind::Invoke => true,
    }
}

/// Whether an entry has this value already.
#[inline(always)]
fn holds(entry: &Option<Value>, value: &Value) -> bool
    ensures { result ≡ holds entry.now value.now }
{
    match entry {
        Some(held) => *held == *value,
        None => false,
    }
}

/// Makes a step in the entries, at a key that has this entry. It returns the key that was evicted before the step, and the cause
/// for which the step's own key was evicted after it.
#[inline(always)]
pub(crate) fn apply_to_entries(
    entries: &mut Entries,
    pinned: &[Key],
    key: &Key,
    entry: &Option<Value>,
    op: &Op,
    out: &Out,
) -> (Option<Key>, Option<Cause>)
    requires room { length entries.old.list ≤ entries.old.capacity }
    requires entry { entry.now ≡ finite.find key_cmp key.now entries.old.list }
    ensures { AppliesStep entries.old pinned.now key.now op.now out.now result.0 result.1 entries.new }
{
    if out.first_fault().is_some() || !uses(op, &out.load) {
        return (None, None);
    }
    match op.entry_after(entry.as_ref(), out) {
        Some(value) => {
            if holds(entry, value) {
                entries.touch(key);
                return (None, None);
            }
            match entries.insert(key, value, pinned) {
                Inserted::Kept => (None, None),
                Inserted::KeptAfter(victim) => (Some(victim), None),
                Inserted::NotKept(cause, victim) => (victim, Some(cause)),
            }
        }
        None => {
            if entry.is_none() {
                return (None, None);
            }
            entries.remove(key);
            (None, None)
        }
    }
}

/// Appends an eviction. It isn't inlined, since most steps have no eviction, and shouldn't have to clear the memory of an event.
#[inline(never)]
fn append_eviction(history: &mut History, key: &Key, cause: Cause, found: bool)
    requires { 0 < history.old.promised }
    ensures { history.new ≡ push found (Evict key.now cause) history.old }
{
    history.push(&Event::Evict { key: *key, cause }, found);
}

/// Appends the eviction before a step, if there is one, and the step. It returns the place of the step.
#[inline(always)]
fn append_step(history: &mut History, group: &NewGroup) -> u32
    requires few { length history.old.events + 1 < 2 ^ 32 }
    requires places { length (victim_events group.now.victim) + 1 ≤ history.old.promised }
    requires storable { IsStorable (new_step group.now) }
    ensures place { result ≡ length history.old.events + length (victim_events group.now.victim) }
    ensures history { history.new ≡ append_all group.now.found (victim_events group.now.victim ++ new_step group.now ∷ []) history.old }
{
    if let Some(victim) = &group.victim {
        append_eviction(history, victim, Cause::Full, group.found);
    }
    let place = history.len() as u32;
    let step = LentStep {
        caller: &group.caller,
        op: group.op,
        key: group.key,
        out: group.out,
        shared_with: &None,
        reply: group.reply,
    };
    history.push_step(&step, group.found);
    place
}

/// The shared step of a joiner.
fn shared_event(place: u32, key: &Key, answer: LoadAnswer, caller: Caller) -> Event
    ensures { result ≡ shared_event place key.now answer caller }
{
    let op = Op::Get;
    let out = Out::load_only(answer);
    let reply = op.reply_after(None, &out);
    Event::Step {
        caller,
        op,
        key: *key,
        out,
        shared_with: Some(place),
        reply,
    }
}

/// Appends the shared step of a joiner. It isn't inlined, for the reason given at [`append_eviction`].
#[inline(never)]
fn append_shared_step(history: &mut History, place: u32, group: &NewGroup, joiner: Caller)
    requires { 0 < history.old.promised }
    ensures { history.new ≡ push group.now.found (shared_event place group.now.key group.now.out.load joiner) history.old }
{
    history.push(
        &shared_event(place, group.key, group.out.load, joiner),
        group.found,
    );
}

/// Appends the shared step of each joiner that waits for a load, in the order of joining.
fn append_shared(
    history: &mut History,
    joiners: &StripeJoiners,
    load: u64,
    place: u32,
    group: &NewGroup,
)
    requires places { length (callers_of load joiners.now) ≤ history.old.promised }
    ensures history { history.new ≡ append_all group.now.found (map (shared_event place group.now.key group.now.out.load)
        (callers_of load joiners.now)) history.old }
{
    for joiner in joiners.list() {
        if joiner.waits_for(load) {
            append_shared_step(history, place, group, joiner.caller);
        }
    }
}

/// Appends the eviction of the step's own key, if it was evicted, and returns it with its place.
fn append_evicted(history: &mut History, group: &NewGroup) -> Option<Eviction>
    requires few { length history.old.events < 2 ^ 32 }
    requires places { length (evicted_events group.now.key group.now.evicted) ≤ history.old.promised }
    ensures evicted { result ≡ option_map (λ cause. record { cause = cause; place = length history.old.events }) group.now.evicted }
    ensures history { history.new ≡ append_all group.now.found (evicted_events group.now.key group.now.evicted) history.old }
{
    match group.evicted {
        Some(cause) => {
            let place = history.len() as u32;
            append_eviction(history, group.key, cause, group.found);
            Some(Eviction { cause, place })
        }
        None => None,
    }
}

/// Appends a step with all that belongs to it, in places that were reserved for it, and gives back the places that it doesn't
/// use.
#[inline(always)]
pub(crate) fn append_group(
    history: &mut History,
    joiners: &StripeJoiners,
    load: Option<u64>,
    group: &NewGroup,
    kept: usize,
) -> Appended
    requires kept { kept ≤ history.old.promised }
    requires few { length history.old.events + kept < 2 ^ 32 }
    requires places { length (group_events (length history.old.events) group.now (callers_in load joiners.now)) ≤ kept }
    requires storable { IsStorable (new_step group.now) }
    ensures place { result.place ≡ length history.old.events + length (victim_events group.now.victim) }
    ensures victim { result.victim ≡ group.now.victim }
    ensures evicted { result.evicted ≡ eviction_of (length history.old.events) group.now (callers_in load joiners.now) }
    ensures history { history.new ≡ append_group group.now.found
        (group_events (length history.old.events) group.now (callers_in load joiners.now)) kept history.old }
{
    let before = history.len();
    let place = append_step(history, group);
    if let Some(load) = load {
        append_shared(history, joiners, load, place, group);
    }
    let evicted = append_evicted(history, group);
    history.unpromise(kept - (history.len() - before));
    Appended {
        place,
        victim: group.victim,
        evicted,
    }
}
