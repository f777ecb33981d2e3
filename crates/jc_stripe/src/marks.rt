//! The reserved keys that were invalidated. Their room is made with the stripe.
ghost use Rattle.std.specs.Prelude.{◌≡◌, ◌≤◌, ◌==◌, [], ◌∷◌, ◌++◌, length, filter, nat_lt, not, IfOk};
ghost use Rattle.std.specs.Bool.{OnTrue, OnFalse};
ghost use Rattle.std.specs.List.{list_any};
ghost use Rattle.std.specs.Cmp.Lexicographic.{pointwise};
ghost use Rattle.jc_types.specs.declared.limits.TheConstants.{RESERVATIONS_MAX};

use jc_types::{Key, RESERVATIONS_MAX};
use std::alloc::{AllocError, Global};
use std::marker::Model;

/// Marked keys, in the order of marking.
#[derive(Drop)]
pub(crate) struct Marks {
    keys: Vec<Key>,
}

impl Model for Marks {
    ghost use Rattle.std.specs.Prelude.{◌≤◌, List, vec_capacity};
    ghost use Rattle.jc_types.specs.declared.limits.TheConstants.{RESERVATIONS_MAX};
    ghost use Rattle.jc_model.specs.Cache.{Bytes};

    ghost Value = { List Bytes };

    ghost view = { λ m. m.keys.items };

    ghost invariant = { λ m. RESERVATIONS_MAX ≤ vec_capacity m.keys };
}

impl Marks {
    /// No mark, and room for as many as there may be reservations. An `Err` says that an allocation failed.
    pub(crate) fn new(alloc: Global) -> Result<Self, AllocError>
        ensures { IfOk result (λ m. m ≡ []) }
    {
        Ok(Marks {
            keys: Vec::with_capacity(alloc, RESERVATIONS_MAX)?,
        })
    }

    /// The marked keys, in the order of marking.
    pub(crate) fn keys(&self) -> &[Key]
        ensures { result.now ≡ self.now }
    {
        &self.keys
    }

    /// Whether a key is marked. As a rule there is no mark at all.
    #[inline(always)]
    pub(crate) fn contains(&self, key: &Key) -> bool
        ensures { result ≡ list_any (pointwise ◌==◌ key.now) self.now }
    {
        !self.keys.is_empty() && is_among(&self.keys, key)
    }

    /// Marks one more key, and returns whether there was room.
    pub(crate) fn add(&mut self, key: &Key) -> bool
        ensures room { result ≡ nat_lt (length self.old) RESERVATIONS_MAX }
        ensures added { OnTrue result (self.new ≡ self.old ++ key.now ∷ []) }
        ensures full { OnFalse result (self.new ≡ self.old) }
    {
        if self.keys.len() >= RESERVATIONS_MAX {
            return false;
        }
        self.keys.push_reserved(*key);
        true
    }

    /// Takes a key's mark away.
    pub(crate) fn remove(&mut self, key: &Key)
        ensures { self.new ≡ filter (λ k. not (pointwise ◌==◌ key.now k)) self.old }
    {
        self.keys.retain(|k| !(*key == *k));
    }

    /// Marks these keys, and no others.
    pub(crate) fn set(&mut self, keys: &[Key])
        requires { length keys.now ≤ RESERVATIONS_MAX }
        ensures { self.new ≡ keys.now }
    {
        self.keys.clear();
        for key in keys {
            self.keys.push_reserved(*key);
        }
    }

    /// Takes all marks away.
    pub(crate) fn clear(&mut self)
        ensures { self.new ≡ [] }
    {
        self.keys.clear();
    }
}

/// Whether a key is among these.
#[inline(never)]
fn is_among(keys: &[Key], key: &Key) -> bool
    ensures { result ≡ list_any (pointwise ◌==◌ key.now) keys.now }
{
    keys.iter().any(|k| *key == *k)
}
