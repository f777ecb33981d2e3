//! The door to a stripe, for every phase and every gate: it takes the stripe, makes the phase, gives the stripe back and counts.
ghost use Rattle.std.specs.Prelude.{◌≡◌, IfOk, IfErr};
ghost use Rattle.jc_stripe.specs.State.{State};
ghost use Rattle.jc_stripe.specs.OnePhase.{IsPhaseOf};
ghost use Rattle.jc_stripe.specs.Reached.{IsReached};
ghost use Rattle.jc_session.specs.Counting.{IsCounted, counts_after};
ghost use Rattle.jc_engine.specs.Doors.{FitsGate, HasTried, HasTriedOnce, HasWaited, IsAgain, IsLeft, IsReady, KeepsAccess, MakesPhase, MakesWay, waiting};
ghost use Rattle.jc_engine.specs.Rows.{IsLending, LentPhase};

use crate::access::Access;
use crate::laws::one_lending;
use jc_gate::Gate;
use jc_model::Reply;
use jc_session::Counted;
use jc_stripe::Stripe;
use std::sync::Wait;

/// A phase that a session is to make on a stripe.
pub trait Phase {
    ghost use Rattle.std.specs.Prelude.{◌≡◌, ◌↔◌, ℕ, IsTrue, IfOk, IfErr};
    ghost use Rattle.jc_gate.specs.Lending.{ComesAfter};
    ghost use Rattle.jc_model.specs.declared.event.Reply.{Reply as Replied};
    ghost use Rattle.jc_stripe.specs.State.{State};
    ghost use Rattle.jc_session.specs.Counting.{IsCounted};
    ghost use Rattle.jc_session.specs.declared.counts.Counted.{Counted as CountedBy};

    /// The outcome of the phase.
    type Answer;

    /// The number of the phase's session.
    ghost who: { Self → ℕ };

    /// The condition of the phase on each stripe that it may find.
    ghost needs: { Self → State → Type 0 };

    /// The phase can be made on a stripe in this state.
    ghost due: { Self → State → Type 0 };

    /// The phase can be made on a stripe in this state, but is put off: the refusal isn't returned, the call waits and tries
    /// again.
    ghost puts_off: { Self → State → Type 0 };

    /// The effect of the phase: the state before it, its outcome, the reply that it writes, if any, and the state after it.
    ghost makes: { Self → State → Self.Answer → Replied → State → Type 0 };

    /// The change of the session's counts by the phase.
    ghost counts: { Self.Answer → CountedBy };

    /// Whether the phase may run now, on this stripe.
    fn is_due(&self, stripe: &Stripe) -> bool
        ensures { IsTrue result ↔ due self.now stripe.now };

    /// Makes the phase. If the phase ends its call, it writes the call's reply to `reply`, so that a value isn't copied on the
    /// way. An `Err` gives the phase back: it is put off, and the stripe stays as it was.
    fn make(self, stripe: &mut Stripe, reply: &mut Reply) -> Result<Self::Answer, Self>
        requires needs { needs self stripe.old }
        requires due { due self stripe.old }
        ensures made { IfOk result (λ answer. makes self stripe.old answer reply.new stripe.new
            × IsCounted (counts answer) (who self) stripe.old stripe.new) }
        ensures back { IfErr result (λ back. (back ≡ self) × (stripe.new ≡ stripe.old) × puts_off self stripe.old) };

    /// The change of the session's counts by the phase.
    fn counted(answer: &Self::Answer) -> Counted
        ensures { result ≡ counts answer.now };

    /// Phases of other sessions keep the condition.
    ghost stays: { (p : Self) (a b : State) → ComesAfter (who p) a b → needs p a → needs p b };
}

impl<'a, G: Gate> Access<'a, G> {
    /// Lends a stripe to a phase, as soon as the phase can be made there. If the phase ends its call, the call's reply is written
    /// to `reply`.
    ///
    /// It waits while somebody else holds the stripe. If the phase can't be made on the stripe that it finds, or is put off, it
    /// gives the stripe back and tries again, after a pause if the agent has no reservation out. Before it gives the stripe back,
    /// it ends the stripe's generation if that is full and may end, or evicts an entry of a stripe that is shut. Then it doesn't
    /// pause. It may wait for ever.
    ///
    /// Conditions: the agent holds no stripe; the token has not taken the gate's and speaks for the session, whose phase it is;
    /// each stripe that a take may find has what the phase needs.
    ///
    /// It is inlined, so that a phase that has an outside answer isn't copied once more.
    #[inline(always)]
    pub fn lend<P: Phase, R: Wait>(&mut self, rt: &R, phase: P, reply: &mut Reply) -> P::Answer
        requires ready { IsReady G.is_free G.speaks_for self.old }
        requires fits { FitsGate G.finds (P.needs phase) (P.who phase) self.old }
        ensures { MakesPhase G.is_free G.speaks_for
            self.old (counts_after self.old.agent.now.counts (P.counts result)) self.new
            ((lent : LentPhase G.takes G.gives G.finds
            self.old.agent.now.caller.session self.old.gate.now self.old.token.now
            (waiting (P.due phase) (P.puts_off phase) (λ a b. P.makes phase a result reply.new b))
            self.new.gate.now self.new.token.now)
            × IsCounted (P.counts result) self.old.agent.now.caller.session lent.did.found lent.did.left) }
    {
        let mut next = phase;
        for _ in rt.forever() {
            let mut stripe = self.agent.take(rt, self.gate, self.token);
            if !next.is_due(&stripe) {
                self.leave_and_pause(rt, stripe);
                continue;
            }
            match next.make(&mut stripe, reply) {
                Ok(answer) => {
                    self.agent
                        .give(self.gate, self.token, stripe, P::counted(&answer));
                    return answer;
                }
                Err(back) => {
                    self.leave_and_pause(rt, stripe);
                    next = back;
                }
            }
        }
        unreachable!()
    }

    /// Makes a phase, if the stripe is there and the phase can be made now, or after the end of a generation that stood in its
    /// way. An `Err` gives the phase back: nothing was done, except that the stripe's generation may have ended, or that a stripe
    /// that is shut has evicted an entry. Either the stripe wasn't there, or the phase couldn't be made, or was put off, on each
    /// stripe that was found.
    ///
    /// It never waits. Conditions: those of [`lend`](Access::lend).
    pub fn try_lend<P: Phase>(&mut self, phase: P, reply: &mut Reply) -> Result<P::Answer, P>
        requires ready { IsReady G.is_free G.speaks_for self.old }
        requires fits { FitsGate G.finds (P.needs phase) (P.who phase) self.old }
        ensures ready { KeepsAccess self.old self.new × IsReady G.is_free G.speaks_for self.new }
        ensures made { IfOk result (λ answer. (self.new.agent.now
            ≡ record self.old.agent.now { counts = counts_after self.old.agent.now.counts (P.counts answer) })
            × (lent : LentPhase G.takes G.gives G.finds
            self.old.agent.now.caller.session self.old.gate.now self.old.token.now
            (waiting (P.due phase) (P.puts_off phase) (λ a b. P.makes phase a answer reply.new b))
            self.new.gate.now self.new.token.now)
            × IsAgain lent.did.waits) }
        ensures back { IfErr result (λ back. (back ≡ phase) × (self.new.agent.now ≡ self.old.agent.now)
            × HasTried G.takes G.gives G.finds G.misses self.old.agent.now.caller.session
            (HasWaited (P.due phase) (P.puts_off phase))
            self.old.gate.now self.old.token.now self.new.gate.now self.new.token.now) }
    {
        one_lending();
        let (back, ends) = match self.lend_once(phase, reply) {
            Ok(answer) => return Ok(answer),
            Err(back) => back,
        };
        if !ends {
            return Err(back);
        }
        match self.lend_once(back, reply) {
            Ok(answer) => Ok(answer),
            Err((back, _)) => Err(back),
        }
    }

    /// Makes a phase, if the stripe is there and the phase can be made now. An `Err` gives the phase back: nothing was done,
    /// except that the stripe's generation may have ended. Its flag says whether another try may succeed: the stripe was there,
    /// and its generation was one that may end.
    ///
    /// It never waits. Conditions: those of [`lend`](Access::lend).
    fn lend_once<P: Phase>(&mut self, phase: P, reply: &mut Reply) -> Result<P::Answer, (P, bool)>
        requires ready { IsReady G.is_free G.speaks_for self.old }
        requires fits { FitsGate G.finds (P.needs phase) (P.who phase) self.old }
        ensures ready { KeepsAccess self.old self.new × IsReady G.is_free G.speaks_for self.new }
        ensures made { IfOk result (λ answer. (self.new.agent.now
            ≡ record self.old.agent.now { counts = counts_after self.old.agent.now.counts (P.counts answer) })
            × (found : State) × (left : State) × P.makes phase found answer reply.new left
            × IsPhaseOf self.old.agent.now.caller.session found left
            × IsLending G.takes G.gives G.finds self.old.agent.now.caller.session
            self.old.gate.now self.old.token.now found left self.new.gate.now self.new.token.now) }
        ensures back { IfErr result (λ back. (back.0 ≡ phase) × (self.new.agent.now ≡ self.old.agent.now)
            × HasTriedOnce G.takes G.gives G.finds G.misses self.old.agent.now.caller.session
            (HasWaited (P.due phase) (P.puts_off phase)) back.1
            self.old.gate.now self.old.token.now self.new.gate.now self.new.token.now) }
    {
        let mut stripe = match self.agent.try_take(self.gate, self.token) {
            Some(stripe) => stripe,
            None => return Err((phase, false)),
        };
        let ends = stripe.is_renewable();
        if !phase.is_due(&stripe) {
            self.leave(stripe);
            return Err((phase, ends));
        }
        match phase.make(&mut stripe, reply) {
            Ok(answer) => {
                self.agent
                    .give(self.gate, self.token, stripe, P::counted(&answer));
                Ok(answer)
            }
            Err(back) => {
                self.leave(stripe);
                Err((back, ends))
            }
        }
    }

    /// Gives back a stripe on which no phase was made, as [`leave`](Access::leave) does, and pauses unless it made way.
    ///
    /// Conditions: those of [`leave`](Access::leave).
    #[inline(never)]
    fn leave_and_pause<R: Wait>(&mut self, rt: &R, stripe: Box<Stripe>)
        requires held { (self.old.agent.now.hands.held ≡ 1)
            × G.speaks_for self.old.token.now self.old.agent.now.caller.session }
        requires taken { G.has self.old.gate.now self.old.token.now stripe.value × IsReached stripe.value }
        ensures same { KeepsAccess self.old self.new }
        ensures agent { self.new.agent.now
            ≡ record self.old.agent.now { hands = record self.old.agent.now.hands { held = 0 } } }
        ensures left { IsLeft G.gives G.finds G.is_free G.speaks_for
            self.old.gate.now self.old.token.now stripe.value self.new.gate.now self.new.token.now }
    {
        let has_made_way = self.leave(stripe);
        if has_made_way {
            return;
        }
        self.agent.pause(rt, self.gate, self.token);
    }

    /// Gives back a stripe on which no phase was made, and makes way: it ends the stripe's generation if that is full and may end;
    /// or it evicts an entry of a stripe that is shut. It returns whether it did.
    ///
    /// Conditions: the agent holds the stripe, as the token has taken it; the token speaks for the session.
    fn leave(&mut self, stripe: Box<Stripe>) -> bool
        requires held { (self.old.agent.now.hands.held ≡ 1)
            × G.speaks_for self.old.token.now self.old.agent.now.caller.session }
        requires taken { G.has self.old.gate.now self.old.token.now stripe.value × IsReached stripe.value }
        ensures same { KeepsAccess self.old self.new }
        ensures agent { self.new.agent.now
            ≡ record self.old.agent.now { hands = record self.old.agent.now.hands { held = 0 } } }
        ensures left { IsLeft G.gives G.finds G.is_free G.speaks_for
            self.old.gate.now self.old.token.now stripe.value self.new.gate.now self.new.token.now }
    {
        one_lending();
        let mut stripe = stripe;
        let has_made_way = make_way(&mut stripe);
        self.agent.give_back(self.gate, self.token, stripe);
        has_made_way
    }
}

/// Ends a full generation that may end. Otherwise a stripe that is shut evicts an entry, if it has a place for that, or lets calls
/// begin again, if none is left. `false` says that nothing was evicted and no generation ended.
#[inline(never)]
fn make_way(stripe: &mut Stripe) -> bool
    ensures { MakesWay stripe.old stripe.new }
{
    if stripe.is_renewable() {
        stripe.renew();
        return true;
    }
    let can_sweep = stripe.is_shut() && stripe.has_place();
    stripe.sweep();
    can_sweep
}
