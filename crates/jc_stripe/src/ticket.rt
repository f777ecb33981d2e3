//! Reservations, the tickets that stand for them, and their asks.
//!
//! A ticket is the caller's part of a reservation. It can be neither dropped nor copied: one commit or one withdrawal spends it.
//! It asks the reservation's partner (loader, writer or processor) at most once, by an ask that can't be copied either. A done
//! value of `jc_outside` or `jc_mutentry` is made of that ask and has the answer, and the commit spends ticket and done value.
//! After a processor the ticket may ask the writer, once. A join stands for a call that shares another call's load; picking up
//! its answer spends it. Tickets and joins are two types, so a join can't be committed, and a ticket can't be picked up.
ghost use Rattle.std.specs.Prelude.{◌≡◌, true, false, Some, is_some};
ghost use Rattle.jc_mutentry.specs.Done as processed;
ghost use Rattle.jc_stripe.specs.declared.ticket.First.TheVariants.{Nobody};
ghost use Rattle.jc_stripe.specs.Tickets.{claim_of, entry_seen, report_claim, writer_for};

use jc_model::{Change, Op};
use jc_mutentry::{AskProcess, ProcDone};
use jc_outside::AskWrite;
use jc_reserve::Reserved;
use jc_types::{Caller, Key, Value};
use std::marker::Model;

/// The one whom a call asks first.
#[derive(Clone, Copy, Debug, PartialEq, Eq)]
pub enum First {
    /// Nobody: the call is done at once.
    Nobody,
    /// The loader.
    Loader,
    /// The writer, for this change of the store.
    Writer(Change),
    /// The entry processor.
    Processor {
        /// The entry that the call found. It stays until the commit, since its key is reserved.
        entry: Option<Value>,
        /// Whether the processor may have its key loaded: read-through is on, and the entry is missing.
        may_load: bool,
    },
}

/// A key that a call has reserved.
#[derive(Clone, Copy, Debug, PartialEq, Eq)]
pub struct Reservation {
    /// The caller that reserved the key.
    pub caller: Caller,
    /// The key.
    pub key: Key,
    /// The operation.
    pub op: Op,
    /// The reservation's number. A stripe's numbers rise and are never used again.
    pub number: u64,
    /// The one whom the call asks first.
    pub first: First,
}

/// No reservation: it asks nobody. A table fills its free places with it.
impl Default for Reservation {
    ghost is_default = { λ r. r.first ≡ Nobody };

    fn default() -> Reservation {
        Reservation {
            caller: Caller {
                session: 0,
                call: 0,
            },
            key: Key::default(),
            op: Op::Get,
            number: 0,
            first: First::Nobody,
        }
    }
}

impl Reserved for Reservation {
    ghost key = { λ r. r.key };

    ghost number = { λ r. r.number };

    fn key(&self) -> &Key {
        &self.key
    }
}

impl Reservation {
    /// Makes this the reservation of a call. Its `first` stays.
    #[inline(always)]
    pub(crate) fn set_call(&mut self, caller: Caller, key: &Key, op: &Op, number: u64)
        ensures { self.new ≡ record self.old { caller = caller; key = key.now; op = op.now; number = number } }
    {
        self.caller = caller;
        self.key = *key;
        self.op.copy_from(op);
        self.number = number;
    }
}

impl First {
    /// The writer, for a change, or nobody if there is none.
    fn writer_for(change: Option<Change>) -> Self
        ensures { result ≡ writer_for change }
    {
        match change {
            Some(change) => First::Writer(change),
            None => First::Nobody,
        }
    }

    /// The entry that the processor is asked about, if the processor is asked first.
    pub fn entry(&self) -> Option<Value>
        ensures { result ≡ entry_seen self.now }
    {
        match self {
            First::Processor { entry, may_load: _ } => *entry,
            First::Nobody | First::Loader | First::Writer(_) => None,
        }
    }
}

/// The ticket of a call that has reserved its key, and is to ask the one whom its reservation names.
///
/// It keeps the reservation in a box that its stripe has lent it, so moving it is cheap.
pub struct Ticket {
    reservation: Box<Reservation>,
    is_asked: bool,
    is_writer_asked: bool,
}

impl Model for Ticket {
    ghost use Rattle.jc_stripe.specs.Tickets.{TicketClaim};

    ghost Value = { TicketClaim };

    ghost view = { λ t. record { reservation = t.reservation.value; asked = t.is_asked; writer_asked = t.is_writer_asked } };
}

impl Ticket {
    /// The ticket of a reservation that was made. Nobody was asked yet.
    pub(crate) fn new(reservation: Box<Reservation>) -> Self
        ensures { result ≡ record { reservation = reservation.value; asked = false; writer_asked = false } }
    {
        Ticket {
            reservation,
            is_asked: false,
            is_writer_asked: false,
        }
    }

    /// The reservation that the ticket stands for. Its `first` names whom to ask.
    pub fn reservation(&self) -> &Reservation
        ensures { result.now ≡ self.now.reservation }
    {
        &self.reservation
    }

    /// The ask of the loader, the writer or the processor. A ticket asks once.
    pub fn ask(&mut self) -> Ask
        requires { self.old.asked ≡ false }
        ensures ask { result ≡ claim_of self.old.reservation }
        ensures asked { self.new ≡ record self.old { asked = true } }
    {
        self.is_asked = true;
        Ask::new(&self.reservation, self.reservation.first)
    }

    /// The ask of the writer after the processor: the reservation's key, and the change of the store that is the processor's net
    /// effect. It is used only with write-through on, and at most once for a ticket.
    ///
    /// Conditions: the ticket's processor was asked, and its writer was not. `done` was made of this ticket's ask, and there is a
    /// change to ask for: neither the loader nor the processor failed, and the processor set or removed the entry.
    pub fn ask_writer(&mut self, done: &ProcDone<Ask>) -> Ask
        requires asked { self.old.asked ≡ true }
        requires writer { self.old.writer_asked ≡ false }
        requires claim { done.now.ask ≡ claim_of self.old.reservation }
        requires change { is_some (processed.effect_change done.now.load done.now.process) ≡ true }
        ensures ask { result ≡ report_claim self.old.reservation (processed.effect_change done.now.load done.now.process) }
        ensures writer_asked { self.new ≡ record self.old { writer_asked = true } }
    {
        self.is_writer_asked = true;
        Ask::new(&self.reservation, First::writer_for(done.change()))
    }

    /// Spends the ticket, and returns its box with the reservation.
    pub(crate) fn spend(self) -> Box<Reservation>
        ensures { result.value ≡ self.reservation }
    {
        let Ticket {
            reservation,
            is_asked: _,
            is_writer_asked: _,
        } = self;
        reservation
    }
}

/// An ask of the loader, the writer or the processor. Only a ticket makes one, and one done value is made of it.
///
/// It has the key and the number of its reservation, and whom it asks: the one whom the reservation names as the first, or the
/// writer after a processor.
pub struct Ask {
    key: Key,
    number: u64,
    asked: First,
}

impl Model for Ask {
    ghost use Rattle.jc_stripe.specs.Tickets.{Claim};

    ghost Value = { Claim };

    ghost view = { λ a. record { key = a.key; number = a.number; asked = a.asked } };
}

impl Ask {
    /// The ask of this one, for a reservation.
    fn new(reservation: &Reservation, asked: First) -> Self
        ensures { result ≡ record { key = reservation.now.key; number = reservation.now.number; asked = asked } }
    {
        Ask {
            key: reservation.key,
            number: reservation.number,
            asked,
        }
    }
}

impl jc_outside::Ask for Ask {
    ghost key = { λ a. a.key };

    fn key(&self) -> &Key {
        &self.key
    }

    fn spend(self) {
        let Ask {
            key: _,
            number: _,
            asked: _,
        } = self;
    }
}

impl AskWrite for Ask {
    ghost use Rattle.jc_stripe.specs.Tickets.{change_asked};

    ghost change = { λ a. change_asked a.asked };

    fn change(&self) -> Change {
        match self.asked {
            First::Writer(change) => change,
            First::Nobody | First::Loader | First::Processor { .. } => unreachable!(),
        }
    }
}

impl AskProcess for Ask {
    ghost use Rattle.jc_stripe.specs.Tickets.{entry_seen, is_loadable};

    ghost initial = { λ a. entry_seen a.asked };

    ghost may_load = { λ a. is_loadable a.asked };

    fn initial(&self) -> Option<Value> {
        self.asked.entry()
    }

    fn may_load(&self) -> bool {
        match self.asked {
            First::Processor { entry: _, may_load } => may_load,
            First::Nobody | First::Loader | First::Writer(_) => false,
        }
    }
}

/// The join of a call that has joined the load of its key, and is to pick up its answer.
pub struct Join {
    caller: Caller,
    key: Key,
    load: u64,
}

impl Model for Join {
    ghost use Rattle.jc_stripe.specs.Tickets.{JoinClaim};

    ghost Value = { JoinClaim };

    ghost view = { λ j. record { caller = j.caller; key = j.key; load = j.load } };
}

impl Join {
    /// The join of a call.
    pub(crate) fn new(caller: Caller, key: &Key, load: u64) -> Self
        ensures { result ≡ record { caller = caller; key = key.now; load = load } }
    {
        Join {
            caller,
            key: *key,
            load,
        }
    }

    /// The call that has joined.
    pub fn caller(&self) -> Caller
        ensures { result ≡ self.now.caller }
    {
        self.caller
    }

    /// The key whose load it has joined.
    pub fn key(&self) -> &Key
        ensures { result.now ≡ self.now.key }
    {
        &self.key
    }

    /// The load that it has joined: the number of the reservation that loads.
    pub fn load(&self) -> u64
        ensures { result ≡ self.now.load }
    {
        self.load
    }

    /// The join is spent.
    pub(crate) fn spend(self) {
        let Join {
            caller: _,
            key: _,
            load: _,
        } = self;
    }
}
