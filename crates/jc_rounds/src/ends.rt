//! What a call returns of its keys: an entry for each key of whose end there is something to say.
ghost use Rattle.std.specs.Prelude.{◌≡◌, ◌==◌, ◌≤◌, ◌<◌, ◌+◌, ◌++◌, [], false, length, option_map};
ghost use Rattle.std.specs.List.{IsDistinct, cons_option, list_any};
ghost use Rattle.std.specs.Map.{keys_of};
ghost use Rattle.std.specs.Cmp.Lexicographic.{pointwise};
ghost use Rattle.indexmap.specs.IndexMap.{spare};
ghost use Rattle.jc_rounds.specs.Ends.{entries_by, key_ends};
ghost use Rattle.jc_rounds.specs.KeyProgress.{at_end};
ghost use Rattle.jc_rounds.specs.Targets.{ops_of};

use crate::progress::KeyProgress;
use crate::targets::Targets;
use indexmap::IndexMap;
use jc_batch::insert_new;
use jc_model::Reply;
use jc_types::{Key, Refusal, Value};

/// What a call returns of a key, by the key's end: the failure, the value or the result.
pub trait OfEnd: Copy {
    ghost use Rattle.std.specs.Prelude.{◌≡◌, Option, Result};
    ghost use Rattle.jc_types.specs.declared.refusal.Refusal.{Refusal};
    ghost use Rattle.jc_model.specs.declared.event.Reply.{Reply};

    /// What an end says, or nothing.
    ghost said: { Result Reply Refusal → Option Self };

    /// What an end says, or nothing.
    fn of_end(ended: &Result<Reply, Refusal>) -> Option<Self>
        ensures { result ≡ said ended.now };
}

/// The fault or the refusal in which a key has ended.
impl OfEnd for Refusal {
    ghost use Rattle.jc_rounds.specs.KeyProgress.{refusal_in};

    ghost said = { refusal_in };

    fn of_end(ended: &Result<Reply, Refusal>) -> Option<Self> {
        match ended {
            Err(refusal) => Some(*refusal),
            Ok(Reply::Fault(fault)) => Some(*fault),
            Ok(Reply::Value(_) | Reply::Flag(_) | Reply::Unit) => None,
        }
    }
}

/// The value in the reply of a key's step.
impl OfEnd for Value {
    ghost use Rattle.jc_rounds.specs.Ends.{reply_value};

    ghost said = { reply_value };

    fn of_end(ended: &Result<Reply, Refusal>) -> Option<Self> {
        match ended {
            Ok(Reply::Value(value)) => *value,
            Ok(Reply::Flag(_) | Reply::Unit | Reply::Fault(_)) | Err(_) => None,
        }
    }
}

/// The result of a processor at a key. A processor that gives no value has none.
impl OfEnd for Result<Value, Refusal> {
    ghost use Rattle.jc_rounds.specs.Ends.{result_of};

    ghost said = { result_of };

    fn of_end(ended: &Result<Reply, Refusal>) -> Option<Self> {
        match ended {
            Err(refusal) => Some(Err(*refusal)),
            Ok(Reply::Fault(fault)) => Some(Err(*fault)),
            Ok(Reply::Value(Some(value))) => Some(Ok(*value)),
            Ok(Reply::Value(None) | Reply::Flag(_) | Reply::Unit) => None,
        }
    }
}

/// What the end of a key in this state says, or nothing.
fn at_end<V: OfEnd>(progress: &KeyProgress) -> Option<V>
    ensures { result ≡ at_end V.said progress.now }
{
    match progress {
        KeyProgress::Ended(ended) => V::of_end(ended),
        KeyProgress::Waiting | KeyProgress::Reserved | KeyProgress::Joined => None,
    }
}

/// Adds an entry for each key whose end says something, in the order of the keys. It takes no memory.
///
/// Conditions: the keys differ, and each has a state; the map is empty, and has room for all keys.
pub fn add_entries<V: OfEnd>(
    targets: &Targets<'_>,
    progress: &[KeyProgress],
    map: &mut IndexMap<Key, V>,
)
    requires distinct { IsDistinct (pointwise ◌==◌) (keys_of (ops_of targets.now)) }
    requires many { length progress.now ≡ length (ops_of targets.now) }
    requires empty { (map.old.entries ≡ []) × (length (ops_of targets.now) ≤ spare map.old) }
    ensures { map.new.entries ≡ entries_by V.said (key_ends (ops_of targets.now) progress.now) }
{
    for place in 0..progress.len() {
        insert_some(map, targets.key(place), at_end(&progress[place]));
    }
}

/// Adds an entry for a key behind the others, if there is a value. It takes no memory.
///
/// Conditions: there is room, and the key isn't in the map.
pub fn insert_some<V: Copy>(map: &mut IndexMap<Key, V>, key: &Key, value: Option<V>)
    requires new { list_any (pointwise ◌==◌ key.now) (keys_of map.old.entries) ≡ false }
    requires room { 0 < spare map.old }
    ensures entries { map.new.entries ≡ map.old.entries ++ cons_option (option_map (λ v. (key.now, v)) value) [] }
    ensures room { spare map.old ≤ spare map.new + 1 }
{
    match value {
        Some(value) => insert_new(map, key, value),
        None => {}
    }
}
