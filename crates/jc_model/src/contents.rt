//! A cache's contents: a map from keys to values (JSR 107, "Fundamentals").
ghost use Rattle.std.specs.Prelude.{◌≡◌, ◌++◌, IsTrue, IfOk, OnOk, OnErr, is_ok, None, Some};
ghost use Rattle.std.specs.FinMap as map;
ghost use Rattle.std.specs.Option.{option_copied};
ghost use Rattle.jc_model.specs.Cache.{entry_at, with_entry};

use jc_types::{Key, Value};
use std::alloc::{AllocError, Global};
use std::collections::BTreeMap;
use std::marker::Model;

/// A map from keys to values, in the byte order of the keys.
///
/// Keys and values are kept as copies (JSR 107, "Store-By-Value").
#[derive(Drop)]
pub struct Contents {
    map: BTreeMap<Key, Value>,
}

impl Model for Contents {
    ghost use Rattle.std.specs.FinMap.{from_entries};
    ghost use Rattle.std.specs.BTreeMap.{IsOrdered};
    ghost use Rattle.jc_model.specs.Cache.{Cache, cache_code, key_cmp};

    ghost Value = { Cache };

    ghost coded = { cache_code };

    ghost view = { λ c. from_entries c.map.entries };

    ghost invariant = { λ c. IsOrdered key_cmp c.map };
}

impl Contents {
    /// The map with no entry. It takes no memory.
    pub fn new(alloc: Global) -> Self
        ensures { result ≡ map.empty }
    {
        Contents {
            map: BTreeMap::new(alloc),
        }
    }

    /// The map of these entries. If two have the same key, the first counts. The only error is that an allocation failed.
    pub fn of(alloc: Global, entries: &[(Key, Value)]) -> Result<Self, AllocError>
        ensures { IfOk result (λ contents. contents ≡ map.from_entries entries.now) }
    {
        let mut contents = Contents::new(alloc);
        for (key, value) in entries.iter().rev() {
            contents.insert(key, *value)?;
        }
        Ok(contents)
    }

    /// The key's value, or none.
    pub fn get(&self, key: &Key) -> Option<&Value>
        ensures { option_copied result ≡ entry_at self.now key.now }
    {
        self.map.get(key)
    }

    /// How many keys there are.
    pub fn len(&self) -> usize
        ensures { result ≡ map.len self.now }
    {
        self.map.len()
    }

    /// Gives the key this value. The other keys keep theirs. The only error is that an allocation failed: the map is
    /// then as it was.
    pub fn insert(&mut self, key: &Key, value: Value) -> Result<(), AllocError>
        ensures ok { OnOk result (self.new ≡ with_entry self.old key.now (Some value)) }
        ensures err { OnErr result (self.new ≡ self.old) }
    {
        self.map.insert(*key, value)?;
        Ok(())
    }

    /// Removes the key's entry, if there is one. The other keys keep theirs. It takes no memory.
    pub fn remove(&mut self, key: &Key)
        ensures { self.new ≡ with_entry self.old key.now None }
    {
        self.map.remove(key);
    }

    /// Inserts a value at the key, or removes the key's entry. An `Err` is that of [`insert`](Self::insert); a removal never
    /// fails.
    pub fn set(&mut self, key: &Key, entry: Option<Value>) -> Result<(), AllocError>
        ensures ok { OnOk result (self.new ≡ with_entry self.old key.now entry) }
        ensures err { OnErr result (self.new ≡ self.old) }
        ensures frees { entry ≡ None → IsTrue (is_ok result) }
    {
        match entry {
            Some(value) => self.insert(key, value),
            None => {
                self.remove(key);
                Ok(())
            }
        }
    }

    /// Appends the entries to a list, in the byte order of the keys. If an allocation fails, the list is as it was.
    pub fn append_to(&self, out: &mut Vec<(Key, Value)>) -> Result<(), AllocError>
        ensures ok { OnOk result (out.new.items ≡ out.old.items ++ map.entries self.now) }
        ensures err { OnErr result (out.new.items ≡ out.old.items) }
    {
        let before = out.len();
        for (key, value) in &self.map {
            if out.push((*key, *value)).is_err() {
                out.truncate(before);
                return Err(AllocError);
            }
        }
        Ok(())
    }

    /// The entries, in the byte order of the keys. The only error is that an allocation failed.
    pub fn entries(&self, alloc: Global) -> Result<Vec<(Key, Value)>, AllocError>
        ensures { IfOk result (λ entries. entries.items ≡ map.entries self.now) }
    {
        let mut entries = Vec::with_capacity(alloc, self.len())?;
        self.append_to(&mut entries)?;
        Ok(entries)
    }
}
