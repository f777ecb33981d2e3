//! The calls that have joined a load and haven't its answer: their joins, in a map by call and key.
ghost use Rattle.std.specs.Prelude.{◌≡◌, ◌↔◌, ◌<◌, ◌≤◌, ◌+◌, true, Option, Some, None, [], IsTrue, IfSome, IfNone, IfOk, OnOk};
ghost use Rattle.std.specs.FinMap as map;
ghost use Rattle.indexmap.specs.IndexMap.{spare, index_map_len};
ghost use Rattle.jc_world.specs.World.{JoinKey, join_key, has_join};
ghost use Rattle.jc_world.specs.Held.{joins_of};

use indexmap::IndexMap;
use jc_stripe::Join;
use jc_types::{Caller, Key};
use std::alloc::{AllocError, Global};
use std::marker::Model;

/// The joins, each by its call's number and its key.
pub(crate) type Joins = IndexMap<(u64, Key), Join>;

/// A call that has joined the load of its key and has no answer yet, as data.
#[derive(Clone, Copy)]
pub struct JoinedLoad {
    caller: Caller,
    key: Key,
    load: u64,
}

impl Model for JoinedLoad {
    ghost use Rattle.jc_stripe.specs.Tickets.{JoinClaim};

    ghost Value = { JoinClaim };

    ghost view = { λ j. record { caller = j.caller; key = j.key; load = j.load } };

    ghost inverse = { λ j. record { caller = j.caller; key = j.key; load = j.load } };
}

impl JoinedLoad {
    /// The join, as data.
    fn new(join: &Join) -> JoinedLoad
        ensures { result ≡ join.now }
    {
        JoinedLoad {
            caller: join.caller(),
            key: *join.key(),
            load: join.load(),
        }
    }

    /// Whether the two are one.
    pub fn is_same(&self, other: &JoinedLoad) -> bool
        ensures { IsTrue result ↔ (self.now ≡ other.now) }
    {
        self.caller == other.caller && self.key == other.key && self.load == other.load
    }
}

/// The joins, in the order of the map.
pub(crate) fn list_joins(
    alloc: Global,
    joins: &Joins,
) -> Result<Vec<((u64, Key), JoinedLoad)>, AllocError>
    ensures { IfOk result (λ list. map.from_entries list.items ≡ joins_of joins.now) }
{
    let mut list = Vec::new(alloc);
    for (at, join) in joins.iter() {
        list.push((*at, JoinedLoad::new(join)))?;
    }
    Ok(list)
}

/// Makes room for one more join.
pub(crate) fn make_join_room(joins: &mut Joins) -> Result<(), AllocError>
    ensures room { OnOk result (0 < spare joins.new) }
    ensures joins { joins_of joins.new ≡ joins_of joins.old }
{
    joins.reserve(1)
}

/// Whether a call has joined a load of a key. An empty map is asked for nothing: to hash a key costs time, and most calls join none.
pub(crate) fn has_join(joins: &Joins, call: u64, key: &Key) -> bool
    ensures { result ≡ has_join (joins_of joins.now) call key.now }
{
    if joins.is_empty() {
        false
    } else {
        joins.contains_key(&(call, *key))
    }
}

/// Puts a join in that isn't there, for which room was made before.
pub(crate) fn put_join(joins: &mut Joins, join: Join)
    requires room { 0 < spare joins.old }
    requires free { map.get (joins_of joins.old) (join_key join) ≡ None }
    ensures { joins_of joins.new ≡ map.insert (joins_of joins.old) (join_key join) join }
{
    let at = (join.caller().call, *join.key());
    match joins.insert(at, join) {
        Ok(None) => {}
        Ok(Some(_former)) => unreachable!(),
        Err(_failed) => unreachable!(),
    }
}

/// Takes a call's join of a key out. The last one takes its place.
pub(crate) fn take_join(joins: &mut Joins, call: u64, key: &Key) -> Join
    requires { has_join (joins_of joins.old) call key.now ≡ true }
    ensures join { map.get (joins_of joins.old) (call, key.now) ≡ Some result }
    ensures joins { joins_of joins.new ≡ map.remove (joins_of joins.old) (call, key.now) }
    ensures room { spare joins.old ≤ spare joins.new }
{
    match joins.swap_remove(&(call, *key)) {
        Some(join) => join,
        None => unreachable!(),
    }
}

/// Takes any join out.
pub(crate) fn take_any_join(joins: &mut Joins) -> Option<Join>
    ensures some { IfSome result (λ join. (at : JoinKey)
        × (map.get (joins_of joins.old) at ≡ Some join)
        × (joins_of joins.new ≡ map.remove (joins_of joins.old) at)) }
    ensures len { IfSome result (λ _. index_map_len joins.old ≡ index_map_len joins.new + 1) }
    ensures none { IfNone result (joins.new.entries ≡ []) }
{
    match joins.pop() {
        Some(entry) => Some(entry.1),
        None => None,
    }
}
