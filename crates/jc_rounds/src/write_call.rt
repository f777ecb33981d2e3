//! One call of the writer (`writeAll` or `deleteAll`) for many keys.
ghost use Rattle.std.specs.Prelude.{◌≡◌, ◌++◌, ◌∷◌, ◌-◌, ◌<◌, [], map, true, false, Some, IfOk, IsSome};
ghost use Rattle.jc_model.specs.Batches.{is_among};
ghost use Rattle.jc_batch.specs.Changes.{changes_of};
ghost use Rattle.jc_stripe.specs.Tickets.{change_asked};
ghost use Rattle.jc_cache.specs.Sessions.{HasAsked, HoldsNothing};
ghost use Rattle.jc_rounds.specs.Answers.{is_change_of};
ghost use Rattle.jc_rounds.specs.OutsideCalls.{WriteCallAsked, asked_keys, batch_room, is_delete, no_writes, with_write};

use jc_batch::{Batch, DeleteBatch, WriteBatch};
use jc_cache::Session;
use jc_model::Change;
use jc_outside::{Ask as OutsideAsk, AskWrite};
use jc_stripe::{Ask, WriteDone};
use jc_types::Key;
use std::alloc::{AllocError, Global};
use std::marker::Model;
use std::sync::Wait;

/// The changes for which the writer is to be called once (`writeAll` or `deleteAll`), with all the memory that this takes. It
/// can't be dropped.
pub struct WriteCall {
    asks: Vec<Ask>,
    batch: Batch,
    done: Vec<WriteDone<Ask>>,
}

impl Model for WriteCall {
    ghost use Rattle.jc_rounds.specs.OutsideCalls.{IsWriteCall, WriteCallState, batch_room, is_delete};

    ghost Value = { WriteCallState };

    ghost view = { λ c. record { deletes = is_delete c.batch; items = c.asks.items; room = batch_room c.batch } };

    ghost invariant = { λ c. IsWriteCall c.asks c.batch c.done };
}

impl WriteCall {
    /// An empty call of `writeAll`, with room for `n` changes. An `Err` says that an allocation failed.
    pub fn writes(alloc: Global, n: usize) -> Result<Self, AllocError>
        ensures { IfOk result (λ call. call ≡ no_writes false n) }
    {
        let batch = Batch::Writes(WriteBatch::with_capacity(alloc, n)?);
        WriteCall::new(alloc, batch, n)
    }

    /// An empty call of `deleteAll`, with room for `n` changes. An `Err` says that an allocation failed.
    pub fn deletes(alloc: Global, n: usize) -> Result<Self, AllocError>
        ensures { IfOk result (λ call. call ≡ no_writes true n) }
    {
        let batch = Batch::Deletes(DeleteBatch::with_capacity(alloc, n)?);
        WriteCall::new(alloc, batch, n)
    }

    /// An empty call, with room for `n` changes, their asks and their done values.
    fn new(alloc: Global, batch: Batch, n: usize) -> Result<Self, AllocError>
        requires room { batch_room batch ≡ n }
        requires none { changes_of batch ≡ [] }
        ensures { IfOk result (λ call. call ≡ no_writes (is_delete batch) n) }
    {
        let asks = Vec::with_capacity(alloc, n)?;
        match Vec::with_capacity(alloc, n) {
            Ok(done) => Ok(WriteCall { asks, batch, done }),
            Err(failed) => {
                asks.destroy_empty();
                Err(failed)
            }
        }
    }

    /// Whether it deletes.
    pub fn is_delete(&self) -> bool
        ensures { result ≡ self.now.deletes }
    {
        match self.batch {
            Batch::Writes(_) => false,
            Batch::Deletes(_) => true,
        }
    }

    /// Adds an ask behind the others. It takes no memory.
    ///
    /// Conditions: there is room; the ask's change is of this call's kind; no other ask has its key.
    pub fn push(&mut self, ask: Ask)
        requires room { 0 < self.old.room }
        requires kind { is_change_of self.old.deletes (change_asked ask.asked) ≡ true }
        requires new { is_among (asked_keys self.old.items) ask.key ≡ false }
        ensures { self.new ≡ with_write self.old ask }
    {
        insert_change(&mut self.batch, *ask.key(), ask.change());
        self.asks.push_reserved(ask);
    }

    /// Calls the session's writer once, for all of these asks, if there are any. It returns the done values, the last ask's
    /// first, and what the writer returned, since a writer may fail and leave no key.
    ///
    /// A key that the writer leaves in the collection failed, with the writer's code, or with 0 if the writer returned normally.
    /// Every other key was written or deleted.
    ///
    /// It may wait, as long as the writer does. It takes no memory of its own.
    ///
    /// Conditions: the session holds no stripe; if anything is asked for, it has a writer.
    pub fn ask<R: Wait>(
        self,
        rt: &R,
        session: &mut Session,
    ) -> (Vec<WriteDone<Ask>>, Result<(), u32>)
        requires nothing { HoldsNothing session.old }
        requires writer { (self.items ≡ [] → ⊥) → IsSome session.old.agent.hands.outside.writer }
        ensures { HasAsked session.old session.new (WriteCallAsked writes_all deletes_all write_state
            session.old self.deletes self.items result.1 result.0.items session.new) }
    {
        let WriteCall { asks, batch, done } = self;
        let mut done = done;
        if asks.len() == 0 {
            asks.destroy_empty();
            return (done, Ok(()));
        }
        let returned = session.agent.ask_writer_all(rt, asks, batch, &mut done);
        done.reverse();
        (done, returned)
    }

    /// Ends an empty call: nobody is asked.
    pub fn end(self)
        requires { self.items ≡ [] }
    {
        let WriteCall {
            asks,
            batch: _,
            done,
        } = self;
        asks.destroy_empty();
        done.destroy_empty();
    }
}

/// Adds a change to a batch of its kind.
fn insert_change(batch: &mut Batch, key: Key, change: Change)
    requires room { 0 < batch_room batch.old }
    requires kind { is_change_of (is_delete batch.old) (Some change) ≡ true }
    requires new { is_among (map (λ c. c.0) (changes_of batch.old)) key ≡ false }
    ensures changes { changes_of batch.new ≡ changes_of batch.old ++ (key, Some change) ∷ [] }
    ensures kind { is_delete batch.new ≡ is_delete batch.old }
    ensures room { batch_room batch.new ≡ batch_room batch.old - 1 }
{
    match batch {
        Batch::Writes(batch) => match change {
            Change::Write(value) => batch.insert(key, value),
            Change::Delete => unreachable!(),
        },
        Batch::Deletes(batch) => match change {
            Change::Write(_) => unreachable!(),
            Change::Delete => batch.insert(key),
        },
    }
}
