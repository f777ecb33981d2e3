//! A whole `get` on one key: a hit needs one look at the stripe.
ghost use Rattle.std.specs.Prelude.{◌≡◌, Ok, Result};
ghost use Rattle.std.specs.Bool.{OnFalse};
ghost use Rattle.jc_model.specs.declared.event.Op.TheVariants.{Get};
ghost use Rattle.jc_model.specs.declared.event.Reply.{Reply};
ghost use Rattle.jc_types.specs.declared.refusal.Refusal.{Refusal};
ghost use Rattle.jc_session.specs.Counting.{counts_after, IsCounted};
ghost use Rattle.jc_stripe.specs.State.{State};
ghost use Rattle.jc_engine.specs.Needs.{BeginsIfClear, Hits, counted_hit};
ghost use Rattle.jc_engine.specs.Rows.{IsLending};
ghost use Rattle.jc_engine.specs.Turns.{HasLookedFirst};
ghost use Rattle.jc_engine.specs.Values.{value_into};
ghost use Rattle.jc_engine.specs.Calls.{IsCall, MayCallAt};
ghost use Rattle.jc_engine.specs.Doors.{IsReady, MakesCall, MakesPhase};

use crate::access::Access;
use crate::laws::one_lending;
use jc_gate::Gate;
use jc_model::{Op, Reply};
use jc_session::Counted;
use jc_stripe::Stripe;
use jc_stripe::phase_laws::caller_numbers;
use jc_types::{Caller, Key, Refusal, Value};
use std::sync::Wait;

impl<'a, G: Gate> Access<'a, G> {
    /// Carries out the agent's current call as a `get`: a hit at once, anything else as [`call`](Access::call) does. It writes
    /// the key's value to `value`, and says whether there is one; if not, `value` stays. An `Err` is a fault of the loader, or
    /// `HistoryFull`; then `value` stays, too.
    ///
    /// It may wait as any call does. Conditions: those of [`call`](Access::call).
    pub fn get_into<R: Wait>(
        &mut self,
        rt: &R,
        key: &Key,
        value: &mut Value,
    ) -> Result<bool, Refusal>
        requires ready { IsReady G.is_free G.speaks_for self.old }
        requires may { MayCallAt G.finds key.now self.old }
        ensures { MakesCall G.is_free G.speaks_for self.old self.new
            ((ended : Result Reply Refusal)
            × (called : IsCall loads load_state writes write_state G.takes G.gives G.finds
            self.old.agent.now key.now Get self.old.gate.now self.old.token.now ended
            self.new.agent.now self.new.gate.now self.new.token.now)
            × ((result, value.new) ≡ value_into value.old ended)
            × HasLookedFirst self.old.agent.now.caller key.now called.row) }
    {
        one_lending();
        if self.hit(rt, key, value) {
            return Ok(true);
        }
        self.get_in_phases(rt, key, value)
    }

    /// Carries out the agent's current call as a `get` that isn't a hit. It is a function of its own, so that a hit doesn't clear
    /// memory for a reply.
    fn get_in_phases<R: Wait>(
        &mut self,
        rt: &R,
        key: &Key,
        value: &mut Value,
    ) -> Result<bool, Refusal>
        requires ready { IsReady G.is_free G.speaks_for self.old }
        requires may { MayCallAt G.finds key.now self.old }
        ensures { MakesCall G.is_free G.speaks_for self.old self.new
            ((ended : Result Reply Refusal)
            × IsCall loads load_state writes write_state G.takes G.gives G.finds
            self.old.agent.now key.now Get self.old.gate.now self.old.token.now ended
            self.new.agent.now self.new.gate.now self.new.token.now
            × ((result, value.new) ≡ value_into value.old ended)) }
    {
        let mut reply = Reply::Unit;
        self.call(rt, key, &Op::Get, &mut reply)?;
        write_value(&reply, value)
    }

    /// Makes the first phase of the agent's current call, if it is a `get` that finds its entry. It writes the value to `value`,
    /// and says whether it found one. If not, nothing was done, and `value` stays.
    ///
    /// It waits while somebody else holds the stripe, and for nothing else. Conditions: those of [`call`](Access::call).
    fn hit<R: Wait>(&mut self, rt: &R, key: &Key, value: &mut Value) -> bool
        requires ready { IsReady G.is_free G.speaks_for self.old }
        requires may { MayCallAt G.finds key.now self.old }
        ensures made { MakesPhase G.is_free G.speaks_for
            self.old (counts_after self.old.agent.now.counts (counted_hit result)) self.new
            ((found : State) × (left : State)
            × Hits self.old.agent.now.caller key.now result value.new found left
            × IsLending G.takes G.gives G.finds self.old.agent.now.caller.session
            self.old.gate.now self.old.token.now found left self.new.gate.now self.new.token.now) }
        ensures stays { OnFalse result (value.new ≡ value.old) }
    {
        let mut stripe = self.agent.take(rt, self.gate, self.token);
        let is_hit = hit_on(&mut stripe, self.agent.caller(), key, value);
        self.agent
            .give(self.gate, self.token, stripe, counted_hit(is_hit));
        is_hit
    }
}

/// Writes the value of a reply to `value`, if it has one, and says whether it does.
fn write_value(reply: &Reply, value: &mut Value) -> Result<bool, Refusal>
    ensures { (result, value.new) ≡ value_into value.old (Ok reply.now) }
{
    match reply {
        Reply::Value(Some(found)) => {
            value.copy_from(found);
            Ok(true)
        }
        Reply::Value(None) | Reply::Flag(_) | Reply::Unit => Ok(false),
        Reply::Fault(fault) => Err(*fault),
    }
}

/// Answers a hit from a stripe that was taken.
fn hit_on(stripe: &mut Stripe, caller: Caller, key: &Key, value: &mut Value) -> bool
    requires { BeginsIfClear caller key.now stripe.old }
    ensures made { Hits caller key.now result value.new stripe.old stripe.new }
    ensures counted { IsCounted (counted_hit result) caller.session stripe.old stripe.new }
    ensures stays { OnFalse result (value.new ≡ value.old) }
{
    caller_numbers();
    if !stripe.is_clear(caller, key) {
        return false;
    }
    stripe.hit_into(caller, key, value)
}

/// The change of the session's counts.
fn counted_hit(is_hit: bool) -> Counted
    ensures { result ≡ counted_hit is_hit }
{
    if is_hit {
        Counted::Step
    } else {
        Counted::Nothing
    }
}
