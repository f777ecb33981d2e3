//! The first phase of a call.
ghost use Rattle.std.specs.Prelude.{◌≡◌};
ghost use Rattle.jc_model.specs.declared.event.Reply.{Reply as Replied};
ghost use Rattle.jc_stripe.specs.Phases.{begun_with};
ghost use Rattle.jc_engine.specs.Needs.{can_start, is_alone, is_blocked, puts_off};

use crate::door::Phase;
use jc_model::{Op, Reply};
use jc_session::{Agent, Counted};
use jc_stripe::phase_laws::caller_numbers;
use jc_stripe::{Started, Stripe};
use jc_types::{Caller, Key};

/// What a first phase does if it is blocked.
#[derive(Clone, Copy, Debug, PartialEq, Eq)]
pub enum How {
    /// It waits out `Busy`, `TooManyInFlight` and `TooManyJoiners`.
    Waits,
    /// It returns each refusal.
    Now,
    /// It returns each refusal, and is made only if it asks nobody: neither the loader, the writer or a processor, nor another
    /// call's load.
    Alone,
}

impl How {
    /// Whether it asks nobody.
    fn is_alone(self) -> bool
        ensures { result ≡ is_alone self }
    {
        match self {
            How::Waits | How::Now => false,
            How::Alone => true,
        }
    }

    /// Whether a first phase with this outcome is put off.
    fn puts_off(self, started: &Started) -> bool
        ensures { (reply : Replied) → result ≡ puts_off self (begun_with started.now reply) }
    {
        match self {
            How::Waits => is_waited_out(started),
            How::Now | How::Alone => false,
        }
    }
}

/// Whether a first phase was refused for a reason that other calls can end.
fn is_waited_out(started: &Started) -> bool
    ensures { (reply : Replied) → result ≡ puts_off How.Waits (begun_with started.now reply) }
{
    match started {
        Started::Refused(refusal) => refusal.is_put_off(),
        Started::Done(_) | Started::Asks(_) | Started::Joined(_) => false,
    }
}

/// Whether a full generation has to end before a call begins, or a shut stripe has to evict an entry, and has a place for that.
fn is_blocked(stripe: &Stripe) -> bool
    ensures { result ≡ is_blocked stripe.now }
{
    stripe.is_renewable() || (stripe.is_shut() && stripe.has_place())
}

/// The first phase of a call. It runs once nothing on the stripe blocks it: no generation has to end before it, and no entry of a
/// shut stripe has to be evicted.
#[derive(Drop)]
pub struct BeginCall<'a> {
    /// The call.
    pub caller: Caller,
    /// Its key.
    pub key: &'a Key,
    /// Its operation.
    pub op: &'a Op,
    /// What it does if it is blocked.
    pub how: How,
}

impl<'a> BeginCall<'a> {
    /// The first phase of this agent's current call at a key.
    #[inline]
    pub fn of(agent: &Agent, key: &'a Key, op: &'a Op, how: How) -> BeginCall<'a>
        ensures { result ≡ record { caller = agent.now.caller; key = key.entry; op = op.entry; how = how } }
    {
        BeginCall {
            caller: agent.caller(),
            key,
            op,
            how,
        }
    }

    /// Whether the phase may run now, on this stripe.
    fn can_start(&self, stripe: &Stripe) -> bool
        ensures { result ≡ can_start self.now.how stripe.now self.now.caller self.now.key.now self.now.op.now }
    {
        stripe.is_clear(self.caller, self.key)
            && !is_blocked(stripe)
            && !(self.how.is_alone() && stripe.asks_outside(self.key, self.op))
    }
}

impl<'a> Phase for BeginCall<'a> {
    ghost use Rattle.std.specs.Prelude.{IsTrue};
    ghost use Rattle.jc_stripe.specs.Phases.{begun_with};
    ghost use Rattle.jc_session.specs.Counting.{counted_started};
    ghost use Rattle.jc_engine.specs.Needs.{BeginsIfClear, IsPutOff, StartsBy, can_start};
    ghost use Rattle.jc_engine.specs.Stays.{begins-stays};

    type Answer = Started;

    ghost who = { λ p. p.caller.session };

    ghost needs = { λ p a. BeginsIfClear p.caller p.key.now a };

    ghost due = { λ p a. IsTrue (can_start p.how a p.caller p.key.now p.op.now) };

    ghost puts_off = { λ p a. IsPutOff p.how p.caller p.key.now p.op.now a };

    ghost makes = { λ p a started reply b. StartsBy p.how p.caller p.key.now p.op.now (begun_with started reply) a b };

    ghost counts = { λ started. counted_started started };

    ghost stays = { λ p a b after needs. begins-stays p.caller p.key.now a b after needs };

    fn is_due(&self, stripe: &Stripe) -> bool {
        self.can_start(stripe)
    }

    fn make(self, stripe: &mut Stripe, reply: &mut Reply) -> Result<Started, Self> {
        caller_numbers();
        let started = stripe.begin(self.caller, self.key, self.op, reply);
        if !self.how.puts_off(&started) {
            return Ok(started);
        }
        match started {
            Started::Refused(_refusal) => Err(self),
            Started::Done(_step) => unreachable!(),
            Started::Asks(_ticket) => unreachable!(),
            Started::Joined(_join) => unreachable!(),
        }
    }

    fn counted(started: &Started) -> Counted
        ensures { result ≡ counted_started started.now }
    {
        Counted::of_started(started)
    }
}
