//! The last phase of a call that needs an outside answer: the call is committed with the answer, or withdrawn before anybody is
//! asked.
ghost use Rattle.std.specs.Prelude.{◌↔◌, IsTrue};
ghost use Rattle.jc_stripe.specs.State.{IsOut};

use crate::door::Phase;
use jc_model::Reply;
use jc_session::Counted;
use jc_stripe::{Appended, Ask, LoadDone, ProcDone, Stripe, Ticket, WriteDone};

/// An outside answer for a call that has reserved its key: of the loader, the writer, or the processor.
pub trait Answer {
    ghost use Rattle.std.specs.Prelude.{◌≡◌};
    ghost use Rattle.jc_stripe.specs.State.{IsOut};
    ghost use Rattle.jc_stripe.specs.Phases.{with_reply};
    ghost use Rattle.jc_stripe.specs.Invalidating.{Ends};
    ghost use Rattle.jc_session.specs.Counting.{IsCounted};
    ghost use Rattle.jc_session.specs.declared.counts.Counted.TheVariants.{Committed};
    ghost use Rattle.jc_engine.specs.Answered.{CallAnswer, out_of};
    ghost use Rattle.jc_engine.specs.Needs.{CommitsHere};

    /// The answer, among all outside answers.
    ghost answered: { Self → CallAnswer };

    /// Commits the ticket's call, and writes the call's reply to `reply`.
    fn commit(self, stripe: &mut Stripe, ticket: Ticket, reply: &mut Reply) -> Appended
        requires out { IsOut stripe.old ticket.reservation }
        requires here { CommitsHere ticket (answered self) stripe.old }
        ensures ends { Ends stripe.old ticket.reservation (out_of (answered self)) (with_reply result reply.new) stripe.new }
        ensures counted { IsCounted Committed ticket.reservation.caller.session stripe.old stripe.new };
}

impl Answer for LoadDone<Ask> {
    ghost use Rattle.jc_engine.specs.Answered.{Loaded};

    ghost answered = { λ d. Loaded d };

    fn commit(self, stripe: &mut Stripe, ticket: Ticket, reply: &mut Reply) -> Appended {
        stripe.commit_load(ticket, self, reply)
    }
}

impl Answer for WriteDone<Ask> {
    ghost use Rattle.jc_engine.specs.Answered.{Written};

    ghost answered = { λ d. Written d };

    fn commit(self, stripe: &mut Stripe, ticket: Ticket, reply: &mut Reply) -> Appended {
        stripe.commit_write(ticket, self, reply)
    }
}

/// What a processor did, and what the writer reported on it, if the writer was asked. It can't be dropped or copied.
pub struct Processed {
    /// What the processor did.
    pub done: ProcDone<Ask>,
    /// What the writer reported.
    pub report: Option<WriteDone<Ask>>,
}

impl Answer for Processed {
    ghost use Rattle.jc_engine.specs.Answered.{Processed as ProcessedBy};

    ghost answered = { λ p. ProcessedBy p.done p.report };

    fn commit(self, stripe: &mut Stripe, ticket: Ticket, reply: &mut Reply) -> Appended {
        let Processed { done, report } = self;
        stripe.commit_process(ticket, done, report, reply)
    }
}

/// The last phase of a call that has its outside answer. It can be made where the ticket's reservation is out.
pub struct Commit<A> {
    /// The ticket of its reservation.
    pub ticket: Ticket,
    /// The outside answer.
    pub answer: A,
}

impl<A: Answer> Phase for Commit<A> {
    ghost use Rattle.jc_stripe.specs.State.{IsOut};
    ghost use Rattle.jc_stripe.specs.Phases.{with_reply};
    ghost use Rattle.jc_stripe.specs.Invalidating.{Ends};
    ghost use Rattle.jc_session.specs.declared.counts.Counted.TheVariants.{Committed};
    ghost use Rattle.jc_engine.specs.Answered.{out_of};
    ghost use Rattle.jc_engine.specs.Needs.{CommitsHere};
    ghost use Rattle.jc_engine.specs.Stays.{commits-stays};

    type Answer = Appended;

    ghost who = { λ p. p.ticket.reservation.caller.session };

    ghost needs = { λ p a. CommitsHere p.ticket (A.answered p.answer) a };

    ghost due = { λ p a. IsOut a p.ticket.reservation };

    ghost puts_off = { λ p a. ⊥ };

    ghost makes = { λ p a step reply b. Ends a p.ticket.reservation (out_of (A.answered p.answer)) (with_reply step reply) b };

    ghost counts = { λ step. Committed };

    ghost stays = { λ p a b after needs. commits-stays p.ticket (A.answered p.answer) a b after needs };

    fn is_due(&self, stripe: &Stripe) -> bool {
        is_out(stripe, &self.ticket)
    }

    fn make(self, stripe: &mut Stripe, reply: &mut Reply) -> Result<Appended, Self> {
        let Commit { ticket, answer } = self;
        Ok(answer.commit(stripe, ticket, reply))
    }

    fn counted(_step: &Appended) -> Counted {
        Counted::Committed
    }
}

/// The end of a call that has reserved its key and asked nobody: its reservation is withdrawn, and the calls that have joined its
/// load are told to retry. It can be made where the ticket's reservation is out.
pub struct Withdraw {
    /// The ticket of its reservation.
    pub ticket: Ticket,
}

impl Phase for Withdraw {
    ghost use Rattle.std.specs.Prelude.{◌≡◌, false};
    ghost use Rattle.jc_stripe.specs.State.{IsOut};
    ghost use Rattle.jc_stripe.specs.Invalidating.{GivesBack};
    ghost use Rattle.jc_session.specs.declared.counts.Counted.TheVariants.{Withdrawn};

    type Answer = ();

    ghost who = { λ p. p.ticket.reservation.caller.session };

    ghost needs = { λ p a. p.ticket.asked ≡ false };

    ghost due = { λ p a. IsOut a p.ticket.reservation };

    ghost puts_off = { λ p a. ⊥ };

    ghost makes = { λ p a none reply b. GivesBack a p.ticket.reservation b };

    ghost counts = { λ none. Withdrawn };

    ghost stays = { λ p a b after needs. needs };

    fn is_due(&self, stripe: &Stripe) -> bool {
        is_out(stripe, &self.ticket)
    }

    fn make(self, stripe: &mut Stripe, _reply: &mut Reply) -> Result<(), Self> {
        let Withdraw { ticket } = self;
        stripe.withdraw(ticket);
        Ok(())
    }

    fn counted(_none: &()) -> Counted {
        Counted::Withdrawn
    }
}

/// Whether a ticket's reservation is out here.
fn is_out(stripe: &Stripe, ticket: &Ticket) -> bool
    ensures { IsTrue result ↔ IsOut stripe.now ticket.now.reservation }
{
    stripe.holds(ticket.reservation())
}
