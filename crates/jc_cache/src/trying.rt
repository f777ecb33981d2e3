//! The calls that never wait, never join a load, and never ask the loader or the writer.
//!
//! Each is the session's next call. It is refused as `Busy` if another phase is being made on the key's stripe, if the call would
//! have to ask the loader or the writer or to join a load, if another call has reserved a key that the call needs free, or if a
//! full generation can't end yet; and as `HistoryFull` as any call is. A refused call makes no step and changes no entry. It has
//! used its number, and in a cache that lives on it may have ended a full generation.
//!
//! Condition of each call: the session may call the cache.
ghost use Rattle.std.specs.Prelude.{◌≡◌};
ghost use Rattle.jc_model.specs.declared.event.Op.TheVariants as op;
ghost use Rattle.jc_cache.specs.Sessions.{MayCall, Completes};
ghost use Rattle.jc_cache.specs.Calls.{Tried, Tries, value_in, flag_in, unit_in};

use crate::cache::Cache;
use crate::calls::{flag_of, unit_of, value_of};
use jc_model::{Op, Reply};
use jc_session::Session;
use jc_types::{Key, Refusal, Value};

impl Cache {
    /// The key's value, or none, as [`Cache::get`]. With read-through on, a missing key is refused as `Busy`.
    ///
    /// It never waits. Condition: the session may call the cache.
    pub fn try_get(&self, session: &mut Session, key: &Key) -> Result<Option<Value>, Refusal>
        requires may { MayCall self.now session.old }
        ensures { Completes self.now session.new
            (Tries self.now session.old key.now op.Get value_in result session.new) }
    {
        let mut reply = Reply::Unit;
        let ended = self.try_call(session, key, &Op::Get, &mut reply);
        value_of(ended, &reply)
    }

    /// Whether the key has an entry, as [`Cache::contains_key`].
    ///
    /// It never waits. Condition: the session may call the cache.
    pub fn try_contains_key(&self, session: &mut Session, key: &Key) -> Result<bool, Refusal>
        requires may { MayCall self.now session.old }
        ensures { Completes self.now session.new
            (Tries self.now session.old key.now op.ContainsKey flag_in result session.new) }
    {
        let mut reply = Reply::Unit;
        let ended = self.try_call(session, key, &Op::ContainsKey, &mut reply);
        flag_of(ended, &reply)
    }

    /// Gives the key a value, as [`Cache::put`]. With write-through on it is always refused as `Busy`.
    ///
    /// It never waits. Condition: the session may call the cache.
    pub fn try_put(&self, session: &mut Session, key: &Key, value: &Value) -> Result<(), Refusal>
        requires may { MayCall self.now session.old }
        ensures { Completes self.now session.new
            (Tries self.now session.old key.now (op.Put value.now) unit_in result session.new) }
    {
        let mut reply = Reply::Unit;
        let ended = self.try_call(session, key, &Op::Put(*value), &mut reply);
        unit_of(ended, &reply)
    }
}
