//! The keys of a call, and the operation at each of them.
ghost use Rattle.std.specs.Prelude.{◌≡◌, ◌<◌, length, slice_get, Some};
ghost use Rattle.std.specs.Map.{keys_of};
ghost use Rattle.jc_model.specs.Cache.{Bytes};
ghost use Rattle.jc_rounds.specs.Targets.{ops_of};

use indexmap::IndexMap;
use jc_model::Op;
use jc_types::{Key, Value};

/// The keys of a call, and the operation at each of them. The keys must all differ for a call.
#[derive(Drop)]
pub enum Targets<'a> {
    /// The same operation at each of these keys.
    Each(&'a [Key], Op),
    /// Each of these keys is put, with its value.
    Puts(&'a IndexMap<Key, Value>),
}

impl<'a> Targets<'a> {
    /// The number of keys.
    pub fn len(&self) -> usize
        ensures { result ≡ length (ops_of self.now) }
    {
        match self {
            Targets::Each(keys, _op) => keys.len(),
            Targets::Puts(entries) => entries.len(),
        }
    }

    /// The key at this place.
    ///
    /// Condition: the place is below the number of keys.
    pub fn key(&self, place: usize) -> &Key
        requires { place < length (ops_of self.now) }
        ensures { slice_get (keys_of (ops_of self.now)) place ≡ Some result.now }
    {
        match self {
            Targets::Each(keys, _op) => key_in(keys, place),
            Targets::Puts(entries) => match entries.get_index(place) {
                Some((key, _value)) => key,
                None => unreachable!(),
            },
        }
    }

    /// The operation at the key of this place.
    ///
    /// Condition: the place is below the number of keys.
    pub fn op(&self, place: usize) -> Op
        requires { place < length (ops_of self.now) }
        ensures { (key : Bytes) → slice_get (keys_of (ops_of self.now)) place ≡ Some key
            → slice_get (ops_of self.now) place ≡ Some (key, result) }
    {
        match self {
            Targets::Each(_keys, op) => *op,
            Targets::Puts(entries) => match entries.get_index(place) {
                Some((_key, value)) => Op::Put(*value),
                None => unreachable!(),
            },
        }
    }
}

/// The key at this place of the list.
fn key_in(keys: &[Key], place: usize) -> &Key
    requires { place < length keys.now }
    ensures { slice_get keys.now place ≡ Some result.now }
{
    match keys.get(place) {
        Some(key) => key,
        None => unreachable!(),
    }
}
