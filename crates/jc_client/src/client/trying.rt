//! The calls of a client that never wait, never join a load, and never ask the loader or the writer.
//!
//! Each is the session's next call, and none has a condition. If it can't be done like this, it is refused as `Busy`, or as
//! `HistoryFull`. It then makes no step and changes no entry, but in a cache that lives on it may have ended a full generation.
ghost use Rattle.std.specs.Prelude.{◌≡◌};
ghost use Rattle.jc_model.specs.declared.event.Op.TheVariants as op;
ghost use Rattle.jc_cache.specs.Calls.{Tries, value_in, flag_in, unit_in};
ghost use Rattle.jc_client.specs.Clients.{OnSameCache};

use crate::client::Client;
use jc_types::{Key, Refusal, Value};

impl<'a> Client<'a> {
    /// The key's value, or none, as by [`Cache::try_get`](jc_cache::Cache::try_get). With read-through on, a missing key is
    /// refused as `Busy`. It never waits.
    pub fn try_get(&mut self, key: &Key) -> Result<Option<Value>, Refusal>
        ensures { OnSameCache self.old.cache self.new.cache
            (Tries self.old.cache.now self.old.session key.now op.Get value_in result self.new.session) }
    {
        self.cache.try_get(&mut self.session, key)
    }

    /// Whether the key has an entry, as by [`Cache::try_contains_key`](jc_cache::Cache::try_contains_key). It never waits.
    pub fn try_contains_key(&mut self, key: &Key) -> Result<bool, Refusal>
        ensures { OnSameCache self.old.cache self.new.cache
            (Tries self.old.cache.now self.old.session key.now op.ContainsKey flag_in result self.new.session) }
    {
        self.cache.try_contains_key(&mut self.session, key)
    }

    /// Gives the key a value, as by [`Cache::try_put`](jc_cache::Cache::try_put). With write-through on it is always refused as
    /// `Busy`. It never waits.
    pub fn try_put(&mut self, key: &Key, value: &Value) -> Result<(), Refusal>
        ensures { OnSameCache self.old.cache self.new.cache
            (Tries self.old.cache.now self.old.session key.now (op.Put value.now) unit_in result self.new.session) }
    {
        self.cache.try_put(&mut self.session, key, value)
    }
}
