//! The tables of the things that snapshots have met.
ghost use Rattle.jc_snapshot.specs.Snapshot.{AreTables};

use crate::heads::CallHead;
use crate::same::{is_same_cause, is_same_op_found, is_same_part};
use crate::table::{Comparable, Table};
use jc_inflight::Joiner;
use jc_model::same::is_same_event;
use jc_model::{Event, Op};
use jc_stripe::Reservation;
use jc_stripe::same::is_same_reservation;
use jc_types::{Config, Key, Value};
use jc_world::{JoinedLoad, Part, Premises};
use std::alloc::Global;

/// The things that snapshots have met so far, each once: a snapshot names a thing by its number.
#[derive(Drop)]
pub struct Seen {
    /// Shapes of caches.
    pub configs: Table<Config>,
    /// The premises: what has held for loaders, writers and others.
    pub premises: Table<Premises>,
    /// Entries, of caches and of stores.
    pub entries: Table<(Key, Value)>,
    /// Reservations.
    pub reservations: Table<Reservation>,
    /// The joiners of loads.
    pub joiners: Table<Joiner>,
    /// The answers to joiners.
    pub answers: Table<Option<Event>>,
    /// The reserved keys that were invalidated since they were reserved.
    pub marks: Table<Key>,
    /// The asks of calls and their answers, for the keys that the calls have reserved.
    pub parts: Table<(Key, Part)>,
    /// Joins, by call and key.
    pub joins: Table<((u64, Key), JoinedLoad)>,
    /// Calls without their lists.
    pub heads: Table<CallHead>,
    /// The operations of calls at a key.
    pub tasks: Table<(Key, Option<Op>)>,
}

impl Seen {
    /// Tables with nothing in them. They take no memory.
    pub fn new(alloc: Global) -> Self {
        Seen {
            configs: Table::new(alloc),
            premises: Table::new(alloc),
            entries: Table::new(alloc),
            reservations: Table::new(alloc),
            joiners: Table::new(alloc),
            answers: Table::new(alloc),
            marks: Table::new(alloc),
            parts: Table::new(alloc),
            joins: Table::new(alloc),
            heads: Table::new(alloc),
            tasks: Table::new(alloc),
        }
    }

    /// A law: nothing is twice in a table. It does nothing.
    pub(crate) fn are_tables(&self)
        ensures { AreTables self.now }
    {
        self.configs.is_distinct();
        self.premises.is_distinct();
        self.entries.is_distinct();
        self.reservations.is_distinct();
        self.joiners.is_distinct();
        self.answers.is_distinct();
        self.marks.is_distinct();
        self.parts.is_distinct();
        self.joins.is_distinct();
        self.heads.is_distinct();
        self.tasks.is_distinct();
    }
}

impl Comparable for Config {
    fn is_same(&self, other: &Config) -> bool {
        *self == *other
    }
}

impl Comparable for Premises {
    fn is_same(&self, other: &Premises) -> bool {
        *self == *other
    }
}

impl Comparable for (Key, Value) {
    fn is_same(&self, other: &(Key, Value)) -> bool {
        self.0 == other.0 && self.1 == other.1
    }
}

impl Comparable for Reservation {
    fn is_same(&self, other: &Reservation) -> bool {
        is_same_reservation(self, other)
    }
}

impl Comparable for Joiner {
    fn is_same(&self, other: &Joiner) -> bool {
        *self == *other
    }
}

impl Comparable for Option<Event> {
    fn is_same(&self, other: &Option<Event>) -> bool {
        match (self, other) {
            (Some(event), Some(wanted)) => is_same_event(event, wanted),
            (None, None) => true,
            (Some(_), None) | (None, Some(_)) => false,
        }
    }
}

impl Comparable for Key {
    fn is_same(&self, other: &Key) -> bool {
        *self == *other
    }
}

impl Comparable for (Key, Part) {
    fn is_same(&self, other: &(Key, Part)) -> bool {
        self.0 == other.0 && is_same_part(&self.1, &other.1)
    }
}

impl Comparable for ((u64, Key), JoinedLoad) {
    fn is_same(&self, other: &((u64, Key), JoinedLoad)) -> bool {
        self.0.0 == other.0.0 && self.0.1 == other.0.1 && self.1.is_same(&other.1)
    }
}

impl Comparable for CallHead {
    fn is_same(&self, other: &CallHead) -> bool {
        self.caller == other.caller
            && self.kind == other.kind
            && is_same_op_found(&self.op_found, &other.op_found)
            && is_same_cause(&self.cause, &other.cause)
    }
}

impl Comparable for (Key, Option<Op>) {
    fn is_same(&self, other: &(Key, Option<Op>)) -> bool {
        self.0 == other.0 && self.1 == other.1
    }
}
