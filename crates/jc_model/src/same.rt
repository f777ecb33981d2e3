//! Tests of equality, which ensure that the two are the same.
//!
//! An event and its outside answers are compared field by field, since a proof for all fields at once is too long.
ghost use Rattle.std.specs.Prelude.{◌≡◌, ◌↔◌, IsTrue};
ghost use Rattle.jc_model.specs.Group.{load_only};

use crate::event::{Event, LoadAnswer, Op, Out, ProcessAnswer, Reply, WriteAnswer};

/// Whether two operations are the same.
pub fn is_same_op(first: &Op, second: &Op) -> bool
    ensures { IsTrue result ↔ (first.now ≡ second.now) }
{
    *first == *second
}

/// Whether two replies are the same.
pub fn is_same_reply(first: &Reply, second: &Reply) -> bool
    ensures { IsTrue result ↔ (first.now ≡ second.now) }
{
    *first == *second
}

/// Whether two answers of the loader are the same.
pub fn is_same_load(first: &LoadAnswer, second: &LoadAnswer) -> bool
    ensures { IsTrue result ↔ (first.now ≡ second.now) }
{
    *first == *second
}

/// Whether two answers of the entry processor are the same.
pub fn is_same_process(first: &ProcessAnswer, second: &ProcessAnswer) -> bool
    ensures { IsTrue result ↔ (first.now ≡ second.now) }
{
    *first == *second
}

/// Whether the outside answers of two steps are the same.
pub fn is_same_out(first: &Out, second: &Out) -> bool
    ensures { IsTrue result ↔ (first.now ≡ second.now) }
{
    is_same_load(&first.load, &second.load)
        && first.write == second.write
        && is_same_process(&first.process, &second.process)
}

/// Whether two events are the same.
pub fn is_same_event(first: &Event, second: &Event) -> bool
    ensures { IsTrue result ↔ (first.now ≡ second.now) }
{
    match (first, second) {
        (
            Event::Step {
                caller,
                op,
                key,
                out,
                shared_with,
                reply,
            },
            Event::Step {
                caller: other_caller,
                op: other_op,
                key: other_key,
                out: other_out,
                shared_with: other_shared,
                reply: other_reply,
            },
        ) => {
            *caller == *other_caller
                && is_same_op(op, other_op)
                && *key == *other_key
                && is_same_out(out, other_out)
                && *shared_with == *other_shared
                && is_same_reply(reply, other_reply)
        }
        (
            Event::Evict { key, cause },
            Event::Evict {
                key: other_key,
                cause: other_cause,
            },
        ) => *key == *other_key && *cause == *other_cause,
        _ => false,
    }
}

/// Whether a loader's answer is the only outside answer.
pub(crate) fn is_load_only(out: &Out, load: &LoadAnswer) -> bool
    ensures { IsTrue result ↔ (out.now ≡ load_only load.now) }
{
    is_same_load(&out.load, load)
        && out.write == WriteAnswer::NotAsked
        && out.process == ProcessAnswer::NotAsked
}
