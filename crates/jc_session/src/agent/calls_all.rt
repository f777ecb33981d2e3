//! An agent's calls outside for many keys at once.
ghost use Rattle.std.specs.Prelude.{◌≡◌, ◌≤◌, ◌+◌, map, IsSome, vec_len, vec_capacity};
ghost use Rattle.jc_batch.specs.Changes.{changes_of};
ghost use Rattle.jc_outside.specs.CallingAll.{KeepsLoadRoom, asked_changes};
ghost use Rattle.jc_stripe.specs.Tickets.{Claim, change_asked};
ghost use Rattle.jc_session.specs.Asked.{LoaderAskedAll, WriterAskedAll};

use super::Agent;
use jc_batch::Batch;
use jc_outside::{LoadBatch, LoadDone, WriteDone, call_loader_all, call_writer_all};
use jc_stripe::Ask;
use std::sync::Wait;

impl Agent {
    /// Calls the loader once, with the keys of these asks (`loadAll`), and appends a done value for each ask, in their order. If
    /// the call fails, it fails for each of the keys. A key without an answer isn't found. Without a loader nothing is found.
    ///
    /// The asks are taken out, and the batch is returned without keys. Both keep memory for as many as before.
    ///
    /// It may wait, as long as the loader does. It takes no memory of its own.
    ///
    /// Conditions: the agent holds no stripe; the batch is of the asks' keys, in their order; there is room for the done values.
    pub fn ask_loader_all<R: Wait>(
        &mut self,
        rt: &R,
        asks: &mut Vec<Ask>,
        batch: LoadBatch,
        done: &mut Vec<LoadDone<Ask>>,
    ) -> LoadBatch
        requires held { self.old.hands.held ≡ 0 }
        requires batch { batch.items ≡ map (λ (ask : Claim). ask.key) asks.old.items }
        requires room { vec_len done.old + vec_len asks.old ≤ vec_capacity done.old }
        ensures asked { LoaderAskedAll loads_all load_state
            self.old asks.old.items batch.items done.old.items done.new.items self.new }
        ensures room { KeepsLoadRoom asks.old asks.new batch result done.old done.new }
    {
        call_loader_all(rt, &mut self.hands, asks, batch, done)
    }

    /// Calls the writer once, for a whole batch (`writeAll` or `deleteAll`), and appends a done value for each ask, in their
    /// order. A key that the writer leaves in the collection failed, with the writer's code, or with 0 if the writer returned
    /// normally. Every other key was written. It returns what the writer returned, since a writer may fail and leave nothing.
    ///
    /// It may wait, as long as the writer does. It takes no memory of its own.
    ///
    /// Conditions: the agent holds no stripe, and has a writer; the batch has exactly what the asks ask for, in their order;
    /// there is room for the done values.
    pub fn ask_writer_all<R: Wait>(
        &mut self,
        rt: &R,
        asks: Vec<Ask>,
        batch: Batch,
        done: &mut Vec<WriteDone<Ask>>,
    ) -> Result<(), u32>
        requires held { self.old.hands.held ≡ 0 }
        requires writer { IsSome self.old.hands.outside.writer }
        requires batch { changes_of batch
            ≡ asked_changes (λ (ask : Claim). ask.key) (λ (ask : Claim). change_asked ask.asked) asks.items }
        requires room { vec_len done.old + vec_len asks ≤ vec_capacity done.old }
        ensures asked { WriterAskedAll writes_all deletes_all write_state
            self.old asks.items batch result done.old.items done.new.items self.new }
        ensures room { vec_capacity done.new ≡ vec_capacity done.old }
    {
        call_writer_all(rt, &mut self.hands, asks, batch, done)
    }
}
