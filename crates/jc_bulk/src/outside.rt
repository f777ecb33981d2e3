//! The one call outside that a bulk call makes for all keys that a round has reserved.
ghost use Rattle.std.specs.Prelude.{◌≡◌, ◌-◌, ◌<◌, ℕ, [], false, true, IfNone, IfOk, IfSome};
ghost use Rattle.jc_model.specs.Batches.{is_among};
ghost use Rattle.jc_cache.specs.Sessions.{HasAsked};
ghost use Rattle.jc_rounds.specs.OutsideCalls.{asked_keys};
ghost use Rattle.jc_rounds.specs.Rounds.{writer_failure};
ghost use Rattle.jc_rounds.specs.AskingRounds.{KeepsTickets};
ghost use Rattle.jc_bulk.specs.Outside.{Answered, IsSpent, MayAskFor, bulk_behavior, fits_first, no_asks, with_ask};
ghost use Rattle.jc_bulk.specs.declared.outside.OutsideKind.{OutsideKind as KindState};
ghost use Rattle.jc_bulk.specs.declared.outside.OutsideKind.TheVariants.{Load as LoadKind};

use jc_cache::Session;
use jc_rounds::{LoadCall, RoundAnswers, SpentLoads, WriteCall};
use jc_stripe::{Ask, Ticket};
use jc_types::Refusal;
use std::alloc::{AllocError, Global};
use std::marker::Model;
use std::sync::Wait;

/// The kind of a bulk call's calls outside.
#[derive(Clone, Copy)]
pub(crate) enum OutsideKind {
    /// The loader.
    Load,
    /// The writer, for values.
    Write,
    /// The writer, for deletes.
    Delete,
}

/// One call of the loader or the writer, with its asks and all the memory that it takes. It can't be dropped.
pub(crate) struct OutsideCall {
    of: CallOf,
}

/// The loader's or the writer's call.
enum CallOf {
    /// The loader.
    Loads(LoadCall),
    /// The writer.
    Writes(WriteCall),
}

impl Model for OutsideCall {
    ghost use Rattle.jc_bulk.specs.Outside.{OutsideState, items_in, outside_kind, room_in};

    ghost Value = { OutsideState };

    ghost view = { λ c. record { kind = outside_kind c.of; items = items_in c.of; room = room_in c.of } };
}

impl OutsideKind {
    ghost use Rattle.std.specs.Prelude.{IfOk};
    ghost use Rattle.jc_bulk.specs.Outside.{no_asks};

    /// An empty call of this kind, with room for `n` keys. An `Err` says that an allocation failed.
    pub(crate) fn call(self, alloc: Global, n: usize) -> Result<OutsideCall, AllocError>
        ensures { IfOk result (λ call. call ≡ no_asks self n) }
    {
        let of = match self {
            OutsideKind::Load => CallOf::Loads(LoadCall::new(alloc, n)?),
            OutsideKind::Write => CallOf::Writes(WriteCall::writes(alloc, n)?),
            OutsideKind::Delete => CallOf::Writes(WriteCall::deletes(alloc, n)?),
        };
        Ok(OutsideCall { of })
    }
}

impl OutsideCall {
    /// The kind of this call.
    pub(crate) fn kind(&self) -> OutsideKind
        ensures { result ≡ self.now.kind }
    {
        match &self.of {
            CallOf::Loads(_) => OutsideKind::Load,
            CallOf::Writes(call) => {
                if call.is_delete() {
                    OutsideKind::Delete
                } else {
                    OutsideKind::Write
                }
            }
        }
    }

    /// Adds an ask behind the others. It takes no memory.
    ///
    /// Conditions: there is room; the ask is of this kind; no other ask has its key.
    fn push(&mut self, ask: Ask)
        requires room { 0 < self.old.room }
        requires kind { fits_first self.old.kind ask.asked ≡ true }
        requires new { is_among (asked_keys self.old.items) ask.key ≡ false }
        ensures { self.new ≡ with_ask self.old ask }
    {
        match &mut self.of {
            CallOf::Loads(call) => call.push(ask),
            CallOf::Writes(call) => call.push(ask),
        }
    }

    /// Asks the session's loader or writer once, for all of these tickets. It returns the answers, the fault that the writer
    /// returned, if it failed, and the memory of a loader's call for a later round.
    ///
    /// It may wait, as long as the loader or the writer does. It takes no memory of its own.
    ///
    /// Conditions: the session holds no stripe; there are tickets, all of this kind, and none of them has asked; their keys
    /// differ, and there is room for them; if they write or delete, the session has a writer.
    pub(crate) fn ask_for<R: Wait>(
        self,
        rt: &R,
        session: &mut Session,
        tickets: &mut Vec<Ticket>,
    ) -> (RoundAnswers, Option<Refusal>, Option<SpentLoads>)
        requires may { MayAskFor session.old self tickets.old.items }
        ensures tickets { KeepsTickets tickets.old tickets.new }
        ensures asked { HasAsked session.old session.new
            (Answered (bulk_behavior loads_all load_state writes_all deletes_all write_state)
            session.old self.kind self.room tickets.old.items result.0 result.1 result.2 session.new) }
    {
        let mut call = self;
        for place in 0..tickets.len() {
            call.push(tickets[place].ask());
        }
        let OutsideCall { of } = call;
        match of {
            CallOf::Loads(call) => {
                let (loaded, spent) = call.ask(rt, session);
                (RoundAnswers::Loads(loaded), None, Some(spent))
            }
            CallOf::Writes(call) => {
                let (done, returned) = call.ask(rt, session);
                (RoundAnswers::Writes(done), writer_fault(returned), None)
            }
        }
    }

    /// Makes an empty call for a later round of what a round has left, once all its answers were taken. It takes no memory. A
    /// call of the writer leaves none.
    pub(crate) fn again(answers: RoundAnswers, rest: Option<SpentLoads>) -> Option<OutsideCall>
        requires { (kind : KindState) × (room : ℕ) × IsSpent kind room answers rest }
        ensures left { (kind : KindState) (room : ℕ) → IsSpent kind room answers rest
            → IfSome result (λ left. left ≡ no_asks kind room) }
        ensures none { (kind : KindState) (room : ℕ) → IsSpent kind room answers rest
            → IfNone result (kind ≡ LoadKind → ⊥) }
    {
        match rest {
            Some(rest) => Some(OutsideCall {
                of: CallOf::Loads(rest.again(answers)),
            }),
            None => {
                answers.end();
                None
            }
        }
    }

    /// Ends an empty call: nobody is asked.
    pub(crate) fn end(self)
        requires { self.items ≡ [] }
    {
        let OutsideCall { of } = self;
        match of {
            CallOf::Loads(call) => call.end(),
            CallOf::Writes(call) => call.end(),
        }
    }
}

/// The fault that the writer has returned, if it failed.
fn writer_fault(returned: Result<(), u32>) -> Option<Refusal>
    ensures { result ≡ writer_failure returned }
{
    match returned {
        Ok(()) => None,
        Err(code) => Some(Refusal::WriterFailed(code)),
    }
}
