//! Final states of a program.
ghost use Rattle.std.specs.Prelude.{◌≡◌, true, false, IfOk};
ghost use Rattle.jc_explore.specs.Final.{final_of, IsFinal};
ghost use Rattle.jc_explore.specs.Schedule.{scene_state};

use crate::replies::{ThreadReply, same_replies};
use crate::scene::Scene;
use jc_types::{Key, Value};
use jc_world::Audit;
use std::alloc::{AllocError, Global};

/// The end of a run of a program: the replies to the threads, and the entries of the cache and the store when nothing can happen
/// any more. Entries and keys are in the byte order of the keys.
#[derive(Drop)]
pub struct FinalState {
    /// The replies to the threads, thread by thread, each in the order of its calls. A thread that waits for ever has fewer
    /// replies than calls.
    pub replies: Vec<ThreadReply>,
    /// The entries of the cache.
    pub cache: Vec<(Key, Value)>,
    /// The entries of the store.
    pub store: Vec<(Key, Value)>,
    /// The keys whose cached value isn't the store's, except those whose writer has changed the store and whose call isn't
    /// committed.
    pub differing: Vec<Key>,
}

fn is_key(one: &Key, other: &Key) -> bool
    ensures same { result ≡ true → one.now ≡ other.now }
    ensures apart { result ≡ false → one.now ≡ other.now → ⊥ }
{
    *one == *other
}

fn is_value(one: &Value, other: &Value) -> bool
    ensures same { result ≡ true → one.now ≡ other.now }
    ensures apart { result ≡ false → one.now ≡ other.now → ⊥ }
{
    *one == *other
}

fn is_entry(one: &(Key, Value), other: &(Key, Value)) -> bool
    ensures same { result ≡ true → one.now ≡ other.now }
    ensures apart { result ≡ false → one.now ≡ other.now → ⊥ }
{
    is_key(&one.0, &other.0) && is_value(&one.1, &other.1)
}

/// Whether two lists of entries are the same.
fn same_entries(one: &[(Key, Value)], other: &[(Key, Value)]) -> bool
    ensures same { result ≡ true → one.now ≡ other.now }
    ensures apart { result ≡ false → one.now ≡ other.now → ⊥ }
{
    if one.len() != other.len() {
        return false;
    }
    for at in 0..one.len() {
        if !is_entry(&one[at], &other[at]) {
            return false;
        }
    }
    true
}

/// Whether two lists of keys are the same.
fn same_keys(one: &[Key], other: &[Key]) -> bool
    ensures same { result ≡ true → one.now ≡ other.now }
    ensures apart { result ≡ false → one.now ≡ other.now → ⊥ }
{
    if one.len() != other.len() {
        return false;
    }
    for at in 0..one.len() {
        if !is_key(&one[at], &other[at]) {
            return false;
        }
    }
    true
}

impl FinalState {
    /// The final state of a scene. An `Err` says that an allocation failed.
    pub(crate) fn of(alloc: Global, scene: &Scene) -> Result<FinalState, AllocError>
        ensures { IfOk result (λ f. IsFinal (scene_state scene.now) (final_of f)) }
    {
        let replies = Vec::from_slice(alloc, &scene.replies)?;
        let audit = scene.world.audit(alloc)?;
        let Audit {
            cache,
            store,
            differing,
            events: _,
            is_legal: _,
        } = audit;
        Ok(FinalState {
            replies,
            cache,
            store,
            differing,
        })
    }

    /// Whether two final states are the same.
    pub(crate) fn is_same(&self, other: &FinalState) -> bool
        ensures same { result ≡ true → final_of self.now ≡ final_of other.now }
        ensures apart { result ≡ false → final_of self.now ≡ final_of other.now → ⊥ }
    {
        same_replies(&self.replies, &other.replies)
            && same_entries(&self.cache, &other.cache)
            && same_entries(&self.store, &other.store)
            && same_keys(&self.differing, &other.differing)
    }
}
