//! The store of record.
ghost use Rattle.std.specs.Prelude.{◌≡◌, ◌≤◌, ◌<◌, [], None, Some, Ok, Err, take, length, IfOk, OnOk, OnErr};
ghost use Rattle.std.specs.FinMap as map;
ghost use Rattle.std.specs.Option.{option_copied};
ghost use Rattle.jc_model.specs.Cache.{entry_at, with_entry};
ghost use Rattle.jc_outside.specs.Answers.{no_answers};
ghost use Rattle.jc_store.specs.Store.{answers_from, with_entries, without_keys, WritesAll};

use indexmap::{IndexMap, IndexSet};
use jc_model::Contents;
use jc_outside::Answers;
use jc_types::{Key, Value};
use std::alloc::{AllocError, Global};
use std::marker::Model;

/// The code that a writer returns if an allocation of its store failed.
pub const NO_MEMORY: u32 = 999_999_999;

/// A store of record: a map from keys to values, kept as copies.
#[derive(Drop)]
pub struct Store {
    contents: Contents,
}

impl Model for Store {
    ghost use Rattle.jc_model.specs.Cache.{Cache, cache_code};

    ghost Value = { Cache };

    ghost coded = { cache_code };

    ghost view = { λ s. s.contents };
}

impl Store {
    /// The store with no entry. It takes no memory.
    pub fn new(alloc: Global) -> Self
        ensures { result ≡ map.empty }
    {
        Store {
            contents: Contents::new(alloc),
        }
    }

    /// The store of these entries: if two have the same key, the first counts. An `Err` says that an allocation failed.
    pub fn of(alloc: Global, entries: &[(Key, Value)]) -> Result<Self, AllocError>
        ensures { IfOk result (λ store. store ≡ map.from_entries entries.now) }
    {
        let contents = Contents::of(alloc, entries)?;
        Ok(Store { contents })
    }

    /// The value at a key, or none.
    pub fn read(&self, key: &Key) -> Option<&Value>
        ensures { option_copied result ≡ entry_at self.now key.now }
    {
        self.contents.get(key)
    }

    /// Puts the values of those of these keys that have an entry into `answers` (`loadAll`). It takes no memory.
    ///
    /// Condition: the answers are of these keys, and have no answer yet.
    pub fn read_all(&self, keys: &[Key], answers: &mut Answers)
        requires { answers.old.by_key ≡ no_answers keys.now }
        ensures answers { answers.new.by_key ≡ answers_from self.now keys.now }
        ensures room { answers.new.room ≡ answers.old.room }
    {
        for key in keys {
            if let Some(value) = self.read(key) {
                answers.put(key, value);
            }
        }
    }

    /// Writes a value at a key. An `Err` says that an allocation failed: the store is then as it was.
    pub fn write(&mut self, key: &Key, value: &Value) -> Result<(), AllocError>
        ensures ok { OnOk result (self.new ≡ with_entry self.old key.now (Some value.now)) }
        ensures err { OnErr result (self.new ≡ self.old) }
    {
        self.contents.insert(key, *value)
    }

    /// Deletes the entry of a key, if there is one. It takes no memory.
    pub fn delete(&mut self, key: &Key)
        ensures { self.new ≡ with_entry self.old key.now None }
    {
        self.contents.remove(key);
    }

    /// Writes entries in their order (`writeAll`), and removes each that it has written from the collection. If an allocation
    /// fails, it stops there with an `Err`: that entry and those after it are left.
    pub fn write_all(&mut self, entries: &mut IndexMap<Key, Value>) -> Result<(), AllocError>
        ensures written { WritesAll self.old entries.old.entries entries.new.entries self.new }
        ensures ok { OnOk result (entries.new.entries ≡ []) }
        ensures err { OnErr result (0 < length entries.new.entries) }
    {
        let written = self.write_some(entries);
        entries.drain(..written);
        if entries.is_empty() {
            Ok(())
        } else {
            Err(AllocError)
        }
    }

    /// Deletes the entries of these keys (`deleteAll`), and removes all keys from the collection. It takes no memory.
    pub fn delete_all(&mut self, keys: &mut IndexSet<Key>)
        ensures store { self.new ≡ without_keys self.old keys.old.keys }
        ensures keys { keys.new.keys ≡ [] }
    {
        self.delete_each(keys.as_slice());
        keys.clear();
    }

    /// The entries, in the byte order of the keys. An `Err` says that an allocation failed.
    pub fn entries(&self, alloc: Global) -> Result<Vec<(Key, Value)>, AllocError>
        ensures { IfOk result (λ entries. entries.items ≡ map.entries self.now) }
    {
        self.contents.entries(alloc)
    }

    /// Writes entries up to the first for which an allocation fails, and returns how many.
    fn write_some(&mut self, entries: &IndexMap<Key, Value>) -> usize
        ensures few { result ≤ length entries.now.entries }
        ensures store { self.new ≡ with_entries self.old (take result entries.now.entries) }
    {
        for place in 0..entries.len() {
            match entries.get_index(place) {
                Some((key, value)) => {
                    if self.write(key, value).is_err() {
                        return place;
                    }
                }
                None => unreachable!(),
            }
        }
        entries.len()
    }

    fn delete_each(&mut self, keys: &[Key])
        ensures { self.new ≡ without_keys self.old keys.now }
    {
        for key in keys {
            self.delete(key);
        }
    }
}
