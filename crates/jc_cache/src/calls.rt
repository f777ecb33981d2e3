//! The calls on one key, each whole (JSR 107, `javax.cache.Cache`).
//!
//! A call is the session's next one. It is one step of the key's stripe, which is appended to the stripe's history. An `Err` is a
//! fault of the loader or the writer, with its code: then the step was made, with this fault as its reply, and leaves the entry
//! as it was. Or it is `HistoryFull`: the stripe's history has too few free places, or the call's or the next reservation's
//! number would overflow. Then nobody was asked, and nothing changes.
//!
//! Others may call the cache meanwhile, so a call may wait:
//!
//! - while another phase is made on the key's stripe;
//! - until a key that another call has reserved is free (`Busy`);
//! - while the stripe is shut after an invalidation (`Busy`): the call itself evicts its entries, one after another;
//! - until fewer than `RESERVATIONS_MAX` keys of the stripe are reserved (`TooManyInFlight`), or fewer than `JOINERS_MAX` calls
//!   have joined a load there (`TooManyJoiners`);
//! - for the answer of a load that it has joined;
//! - in a cache that lives on, until a full history can end its generation (`Busy`): it can't while an answer of a load is there
//!   that nobody has picked up, nor while it has no event, and its places are promised to calls under way.
//!
//! Neither progress nor fairness is promised.
//!
//! After a call its session has seen the whole history of the key's stripe up to there, all generations one after another. It
//! begins with what the session had seen before, and has the call's own step behind that. Each generation is legal, from what the
//! one before left. The session's own steps there are the former ones and this one.
//!
//! Condition of each call: the session may call the cache. It is one that this cache has given out, and has no reservation and no
//! join out.
ghost use Rattle.std.specs.Prelude.{◌≡◌};
ghost use Rattle.jc_model.specs.declared.event.Op.TheVariants as op;
ghost use Rattle.jc_cache.specs.Sessions.{MayCall, Completes};
ghost use Rattle.jc_engine.specs.Entering.{ended_with};
ghost use Rattle.jc_cache.specs.Calls.{Gets, Returns, value_in, flag_in, unit_in};

use crate::cache::Cache;
use jc_model::{Op, Reply};
use jc_session::Session;
use jc_types::{Key, Refusal, Value};
use std::sync::Wait;

impl Cache {
    /// The key's value, or none (`get`). With read-through on, a missing key is loaded, and kept if the loader finds a value.
    ///
    /// An `Err` is `LoaderFailed` or `HistoryFull`. It may wait, also as long as the loader does.
    /// Condition: the session may call the cache.
    pub fn get<R: Wait>(
        &self,
        rt: &R,
        session: &mut Session,
        key: &Key,
    ) -> Result<Option<Value>, Refusal>
        requires may { MayCall self.now session.old }
        ensures { Completes self.now session.new
            (Gets loads load_state writes write_state
            self.now session.old key.now value_in result session.new) }
    {
        let mut value = Value::default();
        match self.get_into(rt, session, key, &mut value) {
            Ok(true) => Ok(Some(value)),
            Ok(false) => Ok(None),
            Err(fault) => Err(fault),
        }
    }

    /// Whether the key has an entry (`containsKey`). It never loads.
    ///
    /// An `Err` is `HistoryFull`. It may wait, but for a loader, a writer or a load only if the stripe's history is full and the
    /// cache lives on. Condition: the session may call the cache.
    pub fn contains_key<R: Wait>(
        &self,
        rt: &R,
        session: &mut Session,
        key: &Key,
    ) -> Result<bool, Refusal>
        requires may { MayCall self.now session.old }
        ensures { Completes self.now session.new
            (Returns loads load_state writes write_state
            self.now session.old key.now op.ContainsKey flag_in result session.new) }
    {
        let mut reply = Reply::Unit;
        let ended = self.call(rt, session, key, &Op::ContainsKey, &mut reply);
        flag_of(ended, &reply)
    }

    /// Gives the key a value (`put`). With write-through on, the value is written first.
    ///
    /// An `Err` is `WriterFailed` or `HistoryFull`. It may wait, also as long as the writer does.
    /// Condition: the session may call the cache.
    pub fn put<R: Wait>(
        &self,
        rt: &R,
        session: &mut Session,
        key: &Key,
        value: &Value,
    ) -> Result<(), Refusal>
        requires may { MayCall self.now session.old }
        ensures { Completes self.now session.new
            (Returns loads load_state writes write_state
            self.now session.old key.now (op.Put value.now) unit_in result session.new) }
    {
        let mut reply = Reply::Unit;
        let ended = self.call(rt, session, key, &Op::Put(*value), &mut reply);
        unit_of(ended, &reply)
    }

    /// Gives the key a value, and returns the one before, or none (`getAndPut`). With write-through on, the value is written
    /// first. It never loads.
    ///
    /// An `Err` is `WriterFailed` or `HistoryFull`. It may wait, also as long as the writer does.
    /// Condition: the session may call the cache.
    pub fn get_and_put<R: Wait>(
        &self,
        rt: &R,
        session: &mut Session,
        key: &Key,
        value: &Value,
    ) -> Result<Option<Value>, Refusal>
        requires may { MayCall self.now session.old }
        ensures { Completes self.now session.new
            (Returns loads load_state writes write_state
            self.now session.old key.now (op.GetAndPut value.now) value_in result session.new) }
    {
        let mut reply = Reply::Unit;
        let ended = self.call(rt, session, key, &Op::GetAndPut(*value), &mut reply);
        value_of(ended, &reply)
    }

    /// Gives the key a value if it has no entry, and says whether it did (`putIfAbsent`). With write-through on, the value is
    /// written first, if it is to be given.
    ///
    /// An `Err` is `WriterFailed` or `HistoryFull`. It may wait, also as long as the writer does.
    /// Condition: the session may call the cache.
    pub fn put_if_absent<R: Wait>(
        &self,
        rt: &R,
        session: &mut Session,
        key: &Key,
        value: &Value,
    ) -> Result<bool, Refusal>
        requires may { MayCall self.now session.old }
        ensures { Completes self.now session.new
            (Returns loads load_state writes write_state
            self.now session.old key.now (op.PutIfAbsent value.now) flag_in result session.new) }
    {
        let mut reply = Reply::Unit;
        let ended = self.call(rt, session, key, &Op::PutIfAbsent(*value), &mut reply);
        flag_of(ended, &reply)
    }

    /// Removes the key's entry, and says whether there was one (`remove`). With write-through on, the key is deleted in the
    /// store first, whether it has an entry or not.
    ///
    /// An `Err` is `WriterFailed` or `HistoryFull`. It may wait, also as long as the writer does.
    /// Condition: the session may call the cache.
    pub fn remove<R: Wait>(&self, rt: &R, session: &mut Session, key: &Key) -> Result<bool, Refusal>
        requires may { MayCall self.now session.old }
        ensures { Completes self.now session.new
            (Returns loads load_state writes write_state
            self.now session.old key.now op.Remove flag_in result session.new) }
    {
        let mut reply = Reply::Unit;
        let ended = self.call(rt, session, key, &Op::Remove, &mut reply);
        flag_of(ended, &reply)
    }

    /// Removes the key's entry if it has this value, and says whether it did (`remove(key, oldValue)`). With write-through on,
    /// the key is deleted in the store first, if the entry is to be removed.
    ///
    /// An `Err` is `WriterFailed` or `HistoryFull`. It may wait, also as long as the writer does.
    /// Condition: the session may call the cache.
    pub fn remove_if<R: Wait>(
        &self,
        rt: &R,
        session: &mut Session,
        key: &Key,
        old: &Value,
    ) -> Result<bool, Refusal>
        requires may { MayCall self.now session.old }
        ensures { Completes self.now session.new
            (Returns loads load_state writes write_state
            self.now session.old key.now (op.RemoveIf old.now) flag_in result session.new) }
    {
        let mut reply = Reply::Unit;
        let ended = self.call(rt, session, key, &Op::RemoveIf(*old), &mut reply);
        flag_of(ended, &reply)
    }

    /// Removes the key's entry, and returns its value, or none (`getAndRemove`). With write-through on, the key is deleted in
    /// the store first, whether it has an entry or not.
    ///
    /// An `Err` is `WriterFailed` or `HistoryFull`. It may wait, also as long as the writer does.
    /// Condition: the session may call the cache.
    pub fn get_and_remove<R: Wait>(
        &self,
        rt: &R,
        session: &mut Session,
        key: &Key,
    ) -> Result<Option<Value>, Refusal>
        requires may { MayCall self.now session.old }
        ensures { Completes self.now session.new
            (Returns loads load_state writes write_state
            self.now session.old key.now op.GetAndRemove value_in result session.new) }
    {
        let mut reply = Reply::Unit;
        let ended = self.call(rt, session, key, &Op::GetAndRemove, &mut reply);
        value_of(ended, &reply)
    }

    /// Gives the key a value if it has an entry, and says whether it did (`replace(key, value)`). With write-through on, the
    /// value is written first, if it is to be given.
    ///
    /// An `Err` is `WriterFailed` or `HistoryFull`. It may wait, also as long as the writer does.
    /// Condition: the session may call the cache.
    pub fn replace<R: Wait>(
        &self,
        rt: &R,
        session: &mut Session,
        key: &Key,
        value: &Value,
    ) -> Result<bool, Refusal>
        requires may { MayCall self.now session.old }
        ensures { Completes self.now session.new
            (Returns loads load_state writes write_state
            self.now session.old key.now (op.Replace value.now) flag_in result session.new) }
    {
        let mut reply = Reply::Unit;
        let ended = self.call(rt, session, key, &Op::Replace(*value), &mut reply);
        flag_of(ended, &reply)
    }

    /// Gives the key the value `new` if it has the value `old`, and says whether it did (`replace(key, oldValue, newValue)`). With
    /// write-through on, the value is written first, if it is to be given.
    ///
    /// An `Err` is `WriterFailed` or `HistoryFull`. It may wait, also as long as the writer does.
    /// Condition: the session may call the cache.
    pub fn replace_if<R: Wait>(
        &self,
        rt: &R,
        session: &mut Session,
        key: &Key,
        old: &Value,
        new: &Value,
    ) -> Result<bool, Refusal>
        requires may { MayCall self.now session.old }
        ensures { Completes self.now session.new
            (Returns loads load_state writes write_state
            self.now session.old key.now (op.ReplaceIf old.now new.now) flag_in result session.new) }
    {
        let op = Op::ReplaceIf {
            old: *old,
            new: *new,
        };
        let mut reply = Reply::Unit;
        let ended = self.call(rt, session, key, &op, &mut reply);
        flag_of(ended, &reply)
    }

    /// Gives the key a value if it has an entry, and returns the one before, or none (`getAndReplace`). With write-through on,
    /// the value is written first, if it is to be given.
    ///
    /// An `Err` is `WriterFailed` or `HistoryFull`. It may wait, also as long as the writer does.
    /// Condition: the session may call the cache.
    pub fn get_and_replace<R: Wait>(
        &self,
        rt: &R,
        session: &mut Session,
        key: &Key,
        value: &Value,
    ) -> Result<Option<Value>, Refusal>
        requires may { MayCall self.now session.old }
        ensures { Completes self.now session.new
            (Returns loads load_state writes write_state
            self.now session.old key.now (op.GetAndReplace value.now) value_in result session.new) }
    {
        let mut reply = Reply::Unit;
        let ended = self.call(rt, session, key, &Op::GetAndReplace(*value), &mut reply);
        value_of(ended, &reply)
    }
}

/// The result of a call that replies with a value: the value or none, the fault of its step, or its refusal.
///
/// `ended` says whether the call was refused. If it wasn't, `reply` is the reply of its step.
pub(crate) fn value_of(ended: Result<(), Refusal>, reply: &Reply) -> Result<Option<Value>, Refusal>
    ensures { result ≡ value_in (ended_with ended reply.now) }
{
    ended?;
    match reply {
        Reply::Value(value) => Ok(*value),
        Reply::Fault(fault) => Err(*fault),
        Reply::Flag(_) | Reply::Unit => Ok(None),
    }
}

/// The result of a call that replies with yes or no.
pub(crate) fn flag_of(ended: Result<(), Refusal>, reply: &Reply) -> Result<bool, Refusal>
    ensures { result ≡ flag_in (ended_with ended reply.now) }
{
    ended?;
    match reply {
        Reply::Flag(flag) => Ok(*flag),
        Reply::Fault(fault) => Err(*fault),
        Reply::Value(_) | Reply::Unit => Ok(false),
    }
}

/// The result of a call that replies with nothing.
pub(crate) fn unit_of(ended: Result<(), Refusal>, reply: &Reply) -> Result<(), Refusal>
    ensures { result ≡ unit_in (ended_with ended reply.now) }
{
    ended?;
    match reply {
        Reply::Fault(fault) => Err(*fault),
        Reply::Value(_) | Reply::Flag(_) | Reply::Unit => Ok(()),
    }
}
