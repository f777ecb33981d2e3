//! The answer to a call that has joined a load, as a law over every run.
ghost use Rattle.jc_world.specs.PickUps.{AnswersJoins};

use jc_stripe::phase_laws::{keeps_reserved, stays_reached};

/// A call that has joined a load joined one that was out for its key, and that had asked the loader. From then on until the join
/// ends, whatever happens in between, a pick-up tells what has become of just that load:
///
/// - it was committed since: the call gets an answer, which names the stripe and the place of the step that this commit showed;
/// - it was withdrawn since: the call is told to retry;
/// - neither: the load is still out, and the call waits.
///
/// That a call joins the load of another is this provider's own rule; JSR 107 has none for it. That the call's own step has the
/// same answer of the loader is the rule for shared steps (`jc_model`), and part of what makes a history legal.
pub fn answers_joins()
    ensures { AnswersJoins }
{
    stays_reached();
    keeps_reserved();
}
