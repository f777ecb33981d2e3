//! One call of the loader (`loadAll`) for many keys.
ghost use Rattle.std.specs.Prelude.{◌≡◌, ◌<◌, ◌≤◌, ◌+◌, [], length, false, vec_capacity, IfOk};
ghost use Rattle.jc_model.specs.Batches.{is_among};
ghost use Rattle.jc_cache.specs.Sessions.{HasAsked, HoldsNothing};
ghost use Rattle.jc_rounds.specs.OutsideCalls.{AreSpent, LoadCallAsked, asked_keys, no_loads, with_load};

use crate::answers::RoundAnswers;
use jc_batch::LoadBatch;
use jc_cache::Session;
use jc_outside::Ask as OutsideAsk;
use jc_stripe::{Ask, LoadDone};
use std::alloc::{AllocError, Global};
use std::marker::Model;
use std::sync::Wait;

/// The keys for which the loader is to be called once (`loadAll`), with all the memory that this takes. It can't be dropped.
pub struct LoadCall {
    asks: Vec<Ask>,
    batch: LoadBatch,
    done: Vec<LoadDone<Ask>>,
}

impl Model for LoadCall {
    ghost use Rattle.jc_rounds.specs.OutsideCalls.{IsLoadCall, LoadCallState};

    ghost Value = { LoadCallState };

    ghost view = { λ c. record { items = c.asks.items; room = c.batch.room } };

    ghost invariant = { λ c. IsLoadCall c.asks c.batch.items c.batch.room c.done };
}

impl LoadCall {
    /// An empty call, with room for `n` keys. An `Err` says that an allocation failed.
    pub fn new(alloc: Global, n: usize) -> Result<Self, AllocError>
        ensures { IfOk result (λ call. call ≡ no_loads n) }
    {
        let batch = LoadBatch::with_capacity(alloc, n)?;
        let asks = Vec::with_capacity(alloc, n)?;
        match Vec::with_capacity(alloc, n) {
            Ok(done) => Ok(LoadCall { asks, batch, done }),
            Err(failed) => {
                asks.destroy_empty();
                Err(failed)
            }
        }
    }

    /// Adds an ask behind the others. It takes no memory.
    ///
    /// Conditions: there is room; no other ask has its key.
    pub fn push(&mut self, ask: Ask)
        requires room { 0 < self.old.room }
        requires new { is_among (asked_keys self.old.items) ask.key ≡ false }
        ensures { self.new ≡ with_load self.old ask }
    {
        self.batch.insert(*ask.key());
        self.asks.push_reserved(ask);
    }

    /// Calls the session's loader once, for all of these asks. It returns the done values, the last ask's first, and the memory
    /// of the call for a later round.
    ///
    /// A failed call fails for each of the keys. A key without an answer isn't found, and without a loader none is.
    ///
    /// It may wait, as long as the loader does. It takes no memory of its own.
    ///
    /// Condition: the session holds no stripe.
    pub fn ask<R: Wait>(self, rt: &R, session: &mut Session) -> (Vec<LoadDone<Ask>>, SpentLoads)
        requires nothing { HoldsNothing session.old }
        ensures asked { HasAsked session.old session.new
            (LoadCallAsked loads_all load_state session.old self.items result.0.items session.new) }
        ensures spent { AreSpent result.1 }
        ensures room { (result.1.batch.room ≡ length self.items + self.room)
            × (length self.items + self.room ≤ vec_capacity result.0) }
    {
        let LoadCall { asks, batch, done } = self;
        let mut asks = asks;
        let mut done = done;
        let batch = session
            .agent
            .ask_loader_all(rt, &mut asks, batch, &mut done);
        done.reverse();
        (done, SpentLoads { asks, batch })
    }

    /// Ends an empty call: nobody is asked.
    pub fn end(self)
        requires { self.items ≡ [] }
    {
        let LoadCall {
            asks,
            batch: _,
            done,
        } = self;
        asks.destroy_empty();
        done.destroy_empty();
    }
}

/// The memory of a loader's call that was made, without its done values, which were handed out. It can't be dropped.
pub struct SpentLoads {
    asks: Vec<Ask>,
    batch: LoadBatch,
}

impl SpentLoads {
    ghost use Rattle.std.specs.Prelude.{◌≡◌, ◌≤◌, []};
    ghost use Rattle.jc_types.specs.declared.config.Config.{Config};
    ghost use Rattle.jc_rounds.specs.Answers.{AreAnswers, done_room};
    ghost use Rattle.jc_rounds.specs.OutsideCalls.{AreSpent, no_loads};
    ghost use Rattle.jc_rounds.specs.Rounds.{LoadAll, LoadRound};

    /// Makes an empty call for a later round of this memory and that of the answers, with room for as many keys as before. It
    /// takes no memory.
    ///
    /// Condition: none of the answers is left, and there was room for them.
    pub fn again(self, answers: RoundAnswers) -> LoadCall
        requires spent { AreSpent self }
        requires answers { (config : Config) × (round : LoadRound) × AreAnswers config (LoadAll round) answers [] }
        requires room { self.batch.room ≤ done_room answers }
        ensures { result ≡ no_loads self.batch.room }
    {
        let SpentLoads { asks, batch } = self;
        match answers {
            RoundAnswers::Loads(done) => LoadCall { asks, batch, done },
            RoundAnswers::Writes(_done) => unreachable!(),
            RoundAnswers::Processes(_done, _written, _deleted) => unreachable!(),
        }
    }
}
