//! A whole call on a stripe that nobody else has.
ghost use Rattle.std.specs.Prelude.{◌≡◌, false, Some, IsSome};
ghost use Rattle.jc_model.specs.Table.{is_invoke};
ghost use Rattle.jc_stripe.specs.State.{State, IsIdle};
ghost use Rattle.jc_engine.specs.Calls.{MayCallHere};
ghost use Rattle.jc_engine.specs.Entering.{ended_with};
ghost use Rattle.jc_engine.specs.Owned.{IsOwnedCall, IsOwnedInvocation};

use crate::access::Access;
use crate::invoking::Invocation;
use jc_gate::Owner;
use jc_model::{Op, Reply};
use jc_session::Agent;
use jc_stripe::phase_laws::{joins_only_loads, whole_call};
use jc_types::{Key, Refusal};
use std::sync::Wait;

/// Carries out the agent's current call on a stripe that nobody else has. The call is one step there, whose reply is written to
/// `reply`; or it is refused and changes nothing.
///
/// It waits for the loader or the writer.
///
/// Conditions: those of [`call`](Access::call); the owner has its stripe, which doesn't live on; no reservation and no join is
/// out there.
pub fn call_owned<R: Wait>(
    rt: &R,
    owner: &mut Owner,
    agent: &mut Agent,
    key: &Key,
    op: &Op,
    reply: &mut Reply,
) -> Result<(), Refusal>
    requires ready { (agent.old.hands.held ≡ 0) × IsSome owner.old.here }
    requires may { MayCallHere (λ a. owner.old.here ≡ Some a) key.now agent.old }
    requires idle { (a : State) → owner.old.here ≡ Some a → IsIdle a × (a.lives ≡ false) }
    requires op { is_invoke op.now ≡ false }
    ensures call { IsOwnedCall loads load_state writes write_state
        agent.old key.now op.now owner.old.here (ended_with result reply.new) agent.new owner.new.here }
{
    joins_only_loads();
    whole_call();
    let token = &mut ();
    let mut access = Access {
        gate: owner,
        token,
        agent,
    };
    access.call(rt, key, op, reply)
}

/// Carries out the agent's current call, which runs a processor, on a stripe that nobody else has. The call is one step there, on
/// the entry that the processor was shown, and its reply is written to `reply`; or it is refused and changes nothing.
///
/// It waits for the processor, the loader and the writer.
///
/// Conditions: those of [`call_owned`].
pub fn invoke_owned<R: Wait>(
    rt: &R,
    owner: &mut Owner,
    agent: &mut Agent,
    key: &Key,
    invocation: &mut Invocation<'_>,
    reply: &mut Reply,
) -> Result<(), Refusal>
    requires ready { (agent.old.hands.held ≡ 0) × IsSome owner.old.here }
    requires may { MayCallHere (λ a. owner.old.here ≡ Some a) key.now agent.old }
    requires idle { (a : State) → owner.old.here ≡ Some a → IsIdle a × (a.lives ≡ false) }
    ensures same { invocation.new.processor.ghost_name ≡ invocation.old.processor.ghost_name }
    ensures call { IsOwnedInvocation loads load_state writes write_state processes process_state
        agent.old key.now invocation.old.args.now invocation.old.processor.now owner.old.here (ended_with result reply.new)
        agent.new invocation.new.processor.now owner.new.here }
{
    joins_only_loads();
    whole_call();
    let write_through = owner.stripe().config().write_through;
    let token = &mut ();
    let mut access = Access {
        gate: owner,
        token,
        agent,
    };
    access.invoke(rt, key, write_through, invocation, reply)
}
