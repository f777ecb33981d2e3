//! The answers that callers were shown, as laws over every run.
ghost use Rattle.jc_world.specs.Replies.{RepliesStand, StepsShownOnce};

use jc_stripe::phase_laws::{grows, keeps_reserved, stays_reached};

/// After every list of events since the last opening: each answer that was shown, of a first phase, a commit or a pick-up, is that
/// of a step of the order. The call whose answer it is had begun before, since that opening. The stripe that was shown is that of
/// the call's key, and at the place that was shown is a step of that caller, with the operation and the key of the call, and with
/// the reply that was shown. A pick-up was also shown the place of the step whose load it shares; every other answer is that of a
/// step that shares no load.
///
/// That every run has a last opening is [`has_last_opening`](crate::openings::has_last_opening).
pub fn replies_stand()
    ensures { RepliesStand }
{
    stays_reached();
    keeps_reserved();
}

/// After every list of events since the last opening: each step of the order was shown exactly once, as the answer with its stripe
/// and its place, unless its answer is parked for a call that has joined a load. Then it wasn't shown yet.
///
/// That each answer went to the call of its step is said by [`replies_stand`].
pub fn steps_are_shown_once()
    ensures { StepsShownOnce }
{
    stays_reached();
    keeps_reserved();
    grows();
}
