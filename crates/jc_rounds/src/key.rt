//! The first phase and the pick-up of a call with many keys, at one of them.
ghost use Rattle.std.specs.Prelude.{◌≡◌, [], true};
ghost use Rattle.jc_model.specs.declared.event.Op.TheVariants.{Get};
ghost use Rattle.jc_lock.specs.declared.view.View.{View};
ghost use Rattle.jc_stripe.specs.Phases.{begun_with, polled_with};
ghost use Rattle.jc_session.specs.Counting.{counted_begun, counted_polled};
ghost use Rattle.jc_cache.specs.Sessions.{IsOf};
ghost use Rattle.jc_rounds.specs.KeyPhases.{IsKeyPhase, MayStep};
ghost use Rattle.jc_rounds.specs.Keys.{HasBegun, HasPicked, IsEarly, IsJoinFor, IsPickedUp};
ghost use Rattle.jc_rounds.specs.Recorded.{steps_of};
ghost use Rattle.jc_rounds.specs.Seats.{AreBefore, HasGrown, view_of};

use jc_cache::{Cache, Session};
use jc_model::{Op, Reply};
use jc_stripe::phase_laws::{is_uniform, own_steps, steps_behind};
use jc_stripe::{Join, Picked, Started};
use jc_types::Key;
use std::sync::Wait;

/// Makes the first phase of the session's current call at one of its keys. It returns each refusal, and waits none out. If the
/// call is done at the key, its reply is written to `reply`.
///
/// Conditions: the session is of this cache; each of its steps is of this call or of a former one, and none is of this call at
/// this key.
pub(crate) fn start_key<R: Wait>(
    rt: &R,
    cache: &Cache,
    session: &mut Session,
    key: &Key,
    op: &Op,
    reply: &mut Reply,
) -> Started
    requires may { MayStep cache.now session.old key.now }
    requires before { AreBefore session.old.agent.caller session.old.seats.items }
    ensures { IsKeyPhase cache.now session.old key.now (counted_begun (begun_with result reply.new)) session.new
        (HasBegun session.old.agent.caller cache.now.config
        (view_of cache.now.config.stripes session.old.seats.items key.now)
        (view_of cache.now.config.stripes session.new.seats.items key.now) key.now op.now (begun_with result reply.new)) }
{
    is_uniform();
    own_steps();
    cache.start(rt, session, key, op, reply)
}

/// Waits for the answer of a load that the session's current call has joined at a key, and writes it to `reply`. `Again` says
/// that the load was withdrawn. It never returns `NotYet`.
///
/// Conditions: the session is of this cache, and has no reservation out; the join is of its current call, which isn't its last and
/// has made no step at the key.
pub(crate) fn pick_key<R: Wait>(
    rt: &R,
    cache: &Cache,
    session: &mut Session,
    join: Join,
    reply: &mut Reply,
) -> Picked
    requires reservations { session.old.agent.counts.reservations ≡ 0 }
    requires may { MayStep cache.now session.old join.key }
    requires caller { (join.caller ≡ session.old.agent.caller) × IsEarly session.old.agent.caller }
    ensures over { IsPickedUp (polled_with result reply.new) }
    ensures phase { IsKeyPhase cache.now session.old join.key (counted_polled (polled_with result reply.new)) session.new
        ((first : View)
        → HasGrown first (view_of cache.now.config.stripes session.old.seats.items join.key)
        → IsJoinFor session.old.agent.caller first join.key Get join
        → HasPicked cache.now.config session.old.agent.caller first
        (view_of cache.now.config.stripes session.new.seats.items join.key) join.key Get (polled_with result reply.new)) }
{
    is_uniform();
    own_steps();
    steps_behind();
    cache.wait_for_load(rt, session, join, reply)
}
