//! A look at the keys of a stripe.
ghost use Rattle.std.specs.Prelude.{◌≡◌, ◌≤◌, ◌+◌, IsTrue, take, drop, length, count_by, vec_len, vec_capacity};
ghost use Rattle.jc_types.specs.declared.limits.TheConstants.{JOINERS_MAX};
ghost use Rattle.jc_inflight.specs.Joining.{waits_for};
ghost use Rattle.std.specs.List.Sorted.{IsPermutation, IsSorted};
ghost use Rattle.std.specs.FinMap as map;
ghost use Rattle.jc_model.specs.Cache.{key_cmp};
ghost use Rattle.jc_model.specs.Listed.{has_distinct_keys};
ghost use Rattle.jc_stripe.specs.OrderOfUse.{by_use, next_victim};
ghost use Rattle.jc_stripe.specs.Keys.{Looks};
ghost use Rattle.jc_stripe.specs.Reopening.{shares_key};

use super::Stripe;
use crate::ticket::Reservation;
use jc_inflight::Joiner;
use jc_types::Key;

impl Stripe {
    /// The reservations that are out, in the order of reserving.
    pub fn reservations(&self) -> &[Reservation]
        ensures { result.now ≡ self.now.reservations }
    {
        self.reservations.list()
    }

    /// The joiners that haven't picked up their answer, in the order of joining.
    pub fn joiners(&self) -> &[Joiner]
        ensures { result.now ≡ self.now.joiners }
    {
        self.joiners.list()
    }

    /// The reserved keys that were invalidated since they were reserved, in the order of marking.
    pub fn marks(&self) -> &[Key]
        ensures { result.now ≡ self.now.marked }
    {
        self.marks.keys()
    }

    /// The number of the next reservation.
    pub fn next_number(&self) -> u64
        ensures { result ≡ self.now.next }
    {
        self.reservations.next_number()
    }

    /// Appends the keys that have an entry, each once, in byte order. It allocates nothing.
    ///
    /// Condition: the vector has room for as many keys as the stripe may cache.
    pub fn keys(&self, out: &mut Vec<Key>)
        requires { vec_len out.old + self.now.config.capacity ≤ vec_capacity out.old }
        ensures keys { Looks self.now out.old.items out.new.items }
        ensures cache { map.from_entries (by_use self.now.opening self.now.history) ≡ self.now.cache }
        ensures once { IsTrue (has_distinct_keys (by_use self.now.opening self.now.history)) }
        ensures few { vec_len out.new ≤ vec_len out.old + self.now.config.capacity }
        ensures capacity { vec_capacity out.new ≡ vec_capacity out.old }
    {
        let start = out.len();
        let _bounded = self.entries.capacity();
        self.entries.keys(out);
        sort_from(out, start);
    }

    /// The key whose entry is evicted if a call inserts an entry now. There is none if there is room, or if each key is reserved.
    pub fn next_victim(&self) -> Option<Key>
        ensures { result ≡ next_victim self.now }
    {
        if self.entries.len() < self.entries.capacity() {
            return None;
        }
        self.entries.lru_victim(self.reservations.keys())
    }

    /// How many calls wait for a load.
    pub fn waiting(&self, load: u64) -> u32
        ensures count { result ≡ count_by (waits_for load) self.now.joiners }
        ensures few { result ≤ JOINERS_MAX }
    {
        self.joiners.waiting(load)
    }

    /// Whether a key is cached both here and in the other stripe. It allocates nothing, so a repeated key is found before an
    /// allocation can fail.
    ///
    /// Two stripes with different numbers, of caches with equally many stripes, have no key in common, which is known at once.
    /// Otherwise each key of this stripe is looked up in the other.
    pub fn shares_key(&self, other: &Stripe) -> bool
        ensures { result ≡ shares_key self.now other.now }
    {
        if self.config.stripes == other.config.stripes && self.number != other.number {
            return false;
        }
        self.entries.shares_key(&other.entries)
    }
}

/// Sorts the keys from this place on. The others stay.
fn sort_from(keys: &mut Vec<Key>, start: usize)
    requires { start ≤ length keys.old.items }
    ensures before { take start keys.new.items ≡ take start keys.old.items }
    ensures each { IsPermutation (drop start keys.old.items) (drop start keys.new.items) }
    ensures order { IsSorted key_cmp (drop start keys.new.items) }
    ensures len { vec_len keys.new ≡ vec_len keys.old }
    ensures capacity { vec_capacity keys.new ≡ vec_capacity keys.old }
{
    keys[start..].sort_unstable();
}
