//! The calls of a client on one key (JSR 107, `javax.cache.Cache`): those of [`Cache`], by the client's session.
//!
//! Each is the session's next call, and none has a condition. An `Err` is a fault of the loader or the writer, with its code:
//! then the call's step was made, and leaves the entry as it was. Or it is `HistoryFull`, and then nobody was asked and nothing
//! changes. They wait, and show the session what was done, as the cache's own calls do.
ghost use Rattle.std.specs.Prelude.{◌≡◌, Result};
ghost use Rattle.jc_types.specs.declared.refusal.Refusal.{Refusal};
ghost use Rattle.jc_model.specs.declared.event.Op.TheVariants as op;
ghost use Rattle.jc_model.specs.declared.event.Reply.{Reply};
ghost use Rattle.jc_cache.specs.Calls.{Gets, Invoked, Returns, value_in, value_into, flag_in, unit_in};
ghost use Rattle.jc_client.specs.Clients.{OnSameCache};

use crate::client::Client;
use jc_mutentry::EntryProcessor;
use jc_types::{Key, Refusal, Value};
use std::sync::Wait;

impl<'a> Client<'a> {
    /// The key's value, or none, as by [`Cache::get`](jc_cache::Cache::get): with read-through on, a missing key is loaded.
    ///
    /// An `Err` is `LoaderFailed` or `HistoryFull`. It may wait, also as long as the loader does.
    pub fn get<R: Wait>(&mut self, rt: &R, key: &Key) -> Result<Option<Value>, Refusal>
        ensures { OnSameCache self.old.cache self.new.cache
            (Gets loads load_state writes write_state
            self.old.cache.now self.old.session key.now value_in result self.new.session) }
    {
        self.cache.get(rt, &mut self.session, key)
    }

    /// Writes the key's value to `value`, as by [`Cache::get_into`](jc_cache::Cache::get_into), and says whether there is one. If
    /// there is none, `value` stays.
    ///
    /// An `Err` is `LoaderFailed` or `HistoryFull`, and leaves `value` as it was. It may wait, also as long as the loader does.
    pub fn get_into<R: Wait>(
        &mut self,
        rt: &R,
        key: &Key,
        value: &mut Value,
    ) -> Result<bool, Refusal>
        ensures { OnSameCache self.old.cache self.new.cache
            (Gets loads load_state writes write_state
            self.old.cache.now self.old.session key.now (value_into value.old) (result, value.new) self.new.session) }
    {
        self.cache.get_into(rt, &mut self.session, key, value)
    }

    /// Whether the key has an entry, as by [`Cache::contains_key`](jc_cache::Cache::contains_key). It never loads.
    ///
    /// An `Err` is `HistoryFull`. It may wait, but for a loader, a writer or a load only if the stripe's history is full and the
    /// cache lives on.
    pub fn contains_key<R: Wait>(&mut self, rt: &R, key: &Key) -> Result<bool, Refusal>
        ensures { OnSameCache self.old.cache self.new.cache
            (Returns loads load_state writes write_state
            self.old.cache.now self.old.session key.now op.ContainsKey flag_in result self.new.session) }
    {
        self.cache.contains_key(rt, &mut self.session, key)
    }

    /// Gives the key a value, as by [`Cache::put`](jc_cache::Cache::put).
    ///
    /// An `Err` is `WriterFailed` or `HistoryFull`. It may wait, also as long as the writer does.
    pub fn put<R: Wait>(&mut self, rt: &R, key: &Key, value: &Value) -> Result<(), Refusal>
        ensures { OnSameCache self.old.cache self.new.cache
            (Returns loads load_state writes write_state
            self.old.cache.now self.old.session key.now (op.Put value.now) unit_in result self.new.session) }
    {
        self.cache.put(rt, &mut self.session, key, value)
    }

    /// Gives the key a value, and returns the one before, or none, as by [`Cache::get_and_put`](jc_cache::Cache::get_and_put). It
    /// never loads.
    ///
    /// An `Err` is `WriterFailed` or `HistoryFull`. It may wait, also as long as the writer does.
    pub fn get_and_put<R: Wait>(
        &mut self,
        rt: &R,
        key: &Key,
        value: &Value,
    ) -> Result<Option<Value>, Refusal>
        ensures { OnSameCache self.old.cache self.new.cache
            (Returns loads load_state writes write_state
            self.old.cache.now self.old.session key.now (op.GetAndPut value.now) value_in result self.new.session) }
    {
        self.cache.get_and_put(rt, &mut self.session, key, value)
    }

    /// Gives the key a value if it has no entry, and says whether it did, as by [`Cache::put_if_absent`](jc_cache::Cache::put_if_absent).
    ///
    /// An `Err` is `WriterFailed` or `HistoryFull`. It may wait, also as long as the writer does.
    pub fn put_if_absent<R: Wait>(
        &mut self,
        rt: &R,
        key: &Key,
        value: &Value,
    ) -> Result<bool, Refusal>
        ensures { OnSameCache self.old.cache self.new.cache
            (Returns loads load_state writes write_state
            self.old.cache.now self.old.session key.now (op.PutIfAbsent value.now) flag_in result self.new.session) }
    {
        self.cache.put_if_absent(rt, &mut self.session, key, value)
    }

    /// Removes the key's entry, and says whether there was one, as by [`Cache::remove`](jc_cache::Cache::remove).
    ///
    /// An `Err` is `WriterFailed` or `HistoryFull`. It may wait, also as long as the writer does.
    pub fn remove<R: Wait>(&mut self, rt: &R, key: &Key) -> Result<bool, Refusal>
        ensures { OnSameCache self.old.cache self.new.cache
            (Returns loads load_state writes write_state
            self.old.cache.now self.old.session key.now op.Remove flag_in result self.new.session) }
    {
        self.cache.remove(rt, &mut self.session, key)
    }

    /// Removes the key's entry if it has this value, and says whether it did, as by [`Cache::remove_if`](jc_cache::Cache::remove_if).
    ///
    /// An `Err` is `WriterFailed` or `HistoryFull`. It may wait, also as long as the writer does.
    pub fn remove_if<R: Wait>(&mut self, rt: &R, key: &Key, old: &Value) -> Result<bool, Refusal>
        ensures { OnSameCache self.old.cache self.new.cache
            (Returns loads load_state writes write_state
            self.old.cache.now self.old.session key.now (op.RemoveIf old.now) flag_in result self.new.session) }
    {
        self.cache.remove_if(rt, &mut self.session, key, old)
    }

    /// Removes the key's entry, and returns its value, or none, as by [`Cache::get_and_remove`](jc_cache::Cache::get_and_remove).
    ///
    /// An `Err` is `WriterFailed` or `HistoryFull`. It may wait, also as long as the writer does.
    pub fn get_and_remove<R: Wait>(&mut self, rt: &R, key: &Key) -> Result<Option<Value>, Refusal>
        ensures { OnSameCache self.old.cache self.new.cache
            (Returns loads load_state writes write_state
            self.old.cache.now self.old.session key.now op.GetAndRemove value_in result self.new.session) }
    {
        self.cache.get_and_remove(rt, &mut self.session, key)
    }

    /// Gives the key a value if it has an entry, and says whether it did, as by [`Cache::replace`](jc_cache::Cache::replace).
    ///
    /// An `Err` is `WriterFailed` or `HistoryFull`. It may wait, also as long as the writer does.
    pub fn replace<R: Wait>(&mut self, rt: &R, key: &Key, value: &Value) -> Result<bool, Refusal>
        ensures { OnSameCache self.old.cache self.new.cache
            (Returns loads load_state writes write_state
            self.old.cache.now self.old.session key.now (op.Replace value.now) flag_in result self.new.session) }
    {
        self.cache.replace(rt, &mut self.session, key, value)
    }

    /// Gives the key the value `new` if it has the value `old`, and says whether it did, as by
    /// [`Cache::replace_if`](jc_cache::Cache::replace_if).
    ///
    /// An `Err` is `WriterFailed` or `HistoryFull`. It may wait, also as long as the writer does.
    pub fn replace_if<R: Wait>(
        &mut self,
        rt: &R,
        key: &Key,
        old: &Value,
        new: &Value,
    ) -> Result<bool, Refusal>
        ensures { OnSameCache self.old.cache self.new.cache
            (Returns loads load_state writes write_state
            self.old.cache.now self.old.session key.now (op.ReplaceIf old.now new.now) flag_in result self.new.session) }
    {
        self.cache.replace_if(rt, &mut self.session, key, old, new)
    }

    /// Gives the key a value if it has an entry, and returns the one before, or none, as by
    /// [`Cache::get_and_replace`](jc_cache::Cache::get_and_replace).
    ///
    /// An `Err` is `WriterFailed` or `HistoryFull`. It may wait, also as long as the writer does.
    pub fn get_and_replace<R: Wait>(
        &mut self,
        rt: &R,
        key: &Key,
        value: &Value,
    ) -> Result<Option<Value>, Refusal>
        ensures { OnSameCache self.old.cache self.new.cache
            (Returns loads load_state writes write_state
            self.old.cache.now self.old.session key.now (op.GetAndReplace value.now) value_in result self.new.session) }
    {
        self.cache
            .get_and_replace(rt, &mut self.session, key, value)
    }

    /// Runs an entry processor on the key, and returns its result, or none, as by [`Cache::invoke`](jc_cache::Cache::invoke) (JSR
    /// 107, "Entry Processors").
    ///
    /// An `Err` is the first fault of the loader, the processor and the writer, or `HistoryFull`. It may wait, also as long as they
    /// do.
    pub fn invoke<R: Wait>(
        &mut self,
        rt: &R,
        key: &Key,
        processor: &mut Box<dyn EntryProcessor + Send + Drop>,
        args: &[Value],
    ) -> Result<Option<Value>, Refusal>
        ensures { OnSameCache self.old.cache self.new.cache
            ((ended : Result Reply Refusal) × Invoked loads load_state writes write_state processes process_state
            self.old.cache.now self.old.session key.now args.now processor.old ended self.new.session processor.new
            × (result ≡ value_in ended)) }
    {
        self.cache
            .invoke(rt, &mut self.session, key, processor, args)
    }
}
