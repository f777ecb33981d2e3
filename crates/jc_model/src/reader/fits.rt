//! Whether an event may come next.
ghost use Rattle.std.specs.Prelude.{◌≡◌, ◌↔◌, ◌&&◌, IsTrue, is_none, is_some};
ghost use Rattle.jc_model.specs.Cache.{entry_at};
ghost use Rattle.jc_model.specs.Table.{answers_fit, entry_after, reply_after};
ghost use Rattle.jc_model.specs.Group.{without_victim};
ghost use Rattle.jc_model.specs.Lawful.{victim_fits, IsLawfulStep};
ghost use Rattle.jc_model.specs.Reader.{read_group, FitsShared, Fits};

use crate::contents::Contents;
use crate::event::{Event, Op, Out, Reply};
use crate::reader::Stage;
use crate::same::{is_load_only, is_same_reply};
use jc_types::{Config, Key, Value};

/// A step that is read, without its caller and its reply.
#[derive(Clone, Copy)]
pub(super) struct ReadStep<'a> {
    /// The operation.
    pub(super) op: &'a Op,
    /// The key.
    pub(super) key: &'a Key,
    /// The outside answers.
    pub(super) out: &'a Out,
}

/// The entry at a key once the victim, if any, is evicted.
pub(super) fn entry_before(contents: &Contents, victim: &Option<Key>, key: &Key) -> Option<Value>
    ensures { result ≡ entry_at (without_victim contents.now victim.now) key.now }
{
    match victim {
        Some(gone) => {
            if *key == *gone {
                None
            } else {
                contents.get(key).copied()
            }
        }
        None => contents.get(key).copied(),
    }
}

/// Whether a step inserts, at the entry that it found.
pub(super) fn does_insert(entry: &Option<Value>, op: &Op, out: &Out) -> bool
    ensures { result ≡ (is_none entry.now && is_some (entry_after op.now entry.now out.now)) }
{
    entry.is_none() && op.entry_after(entry.as_ref(), out).is_some()
}

/// Whether the victim may be evicted before the step.
fn does_victim_fit(
    config: &Config,
    contents: &Contents,
    victim: &Option<Key>,
    step: &ReadStep,
) -> bool
    ensures { (reply : _) → result ≡ victim_fits config.now contents.now
        (read_group victim.now (record { session = 0; call = 0 }) step.now.op.now step.now.key.now step.now.out.now reply) victim.now }
{
    let entry = entry_before(contents, victim, step.key);
    match victim {
        None => true,
        Some(victim) => {
            contents.len() == config.capacity
                && contents.get(victim).is_some()
                && *victim != *step.key
                && does_insert(&entry, step.op, step.out)
        }
    }
}

/// Whether the step is as the operation table states, at the entry that it found.
fn is_made(config: &Config, entry: Option<Value>, op: &Op, out: &Out, reply: &Reply) -> bool
    ensures { IsTrue result ↔ (IsTrue (answers_fit config.now op.now entry out.now)
        × (reply.now ≡ reply_after op.now entry out.now)) }
{
    op.answers_fit(config, &entry, out)
        && is_same_reply(reply, &op.reply_after(entry.as_ref(), out))
}

/// Whether a group may begin with this step.
fn does_start(
    config: &Config,
    contents: &Contents,
    victim: &Option<Key>,
    step: &ReadStep,
    reply: &Reply,
) -> bool
    ensures { IsTrue result ↔ IsLawfulStep config.now contents.now
        (read_group victim.now (record { session = 0; call = 0 }) step.now.op.now step.now.key.now step.now.out.now reply.now) }
{
    let entry = entry_before(contents, victim, step.key);
    is_made(config, entry, step.op, step.out, reply)
        && does_victim_fit(config, contents, victim, step)
}

/// Whether a step that shares a load may come next.
fn does_shared_fit(
    stage: &Stage,
    op: &Op,
    key: &Key,
    out: &Out,
    shared_with: u32,
    reply: &Reply,
) -> bool
    ensures { (caller : _) → (IsTrue result ↔ FitsShared stage.now
        (Event.Step caller op.now key.now out.now (Some shared_with) reply.now)) }
{
    match stage {
        Stage::Inside(kept) => {
            kept.is_joinable
                && shared_with as usize == kept.place
                && *op == Op::Get
                && *key == kept.key
                && is_load_only(out, &kept.load)
                && is_same_reply(reply, &Op::Get.reply_after(None, out))
        }
        Stage::Outside | Stage::Picked(_) => false,
    }
}

/// Whether an event may come next.
pub(super) fn does_fit(config: &Config, contents: &Contents, stage: &Stage, event: &Event) -> bool
    ensures { IsTrue result ↔ Fits config.now contents.now stage.now event.now }
{
    match event {
        Event::Step {
            op,
            key,
            out,
            shared_with,
            reply,
            ..
        } => match shared_with {
            None => {
                stage.is_within(config, contents)
                    && does_start(
                        config,
                        contents,
                        &stage.victim(),
                        &ReadStep { op, key, out },
                        reply,
                    )
            }
            Some(place) => does_shared_fit(stage, op, key, out, *place, reply),
        },
        Event::Evict { key, cause } => stage.does_evict_fit(config, contents, key, *cause),
    }
}
