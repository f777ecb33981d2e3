//! Laws over every stripe: of one lending, and of what entry processors leave. Each function is empty: its contract is the law.
ghost use Rattle.jc_engine.specs.Rows.{PhaseLaws};
ghost use Rattle.jc_engine.specs.Increments.{EventsByTable, LeavesNext, LeavesSum};

use jc_stripe::phase_laws::{is_uniform, own_steps, renewal};

/// The effect of at most one phase of a session, or of a renewal, on a stripe and on the session's own steps.
pub fn one_lending()
    ensures { PhaseLaws }
{
    is_uniform();
    own_steps();
    renewal();
}

/// If every event of a key, in a stripe's whole history, is a processor's step that sets the next value after the entry on which
/// it was made, then the entry is the first opening's, followed by as many next values as there are events. So no update is lost.
pub fn leaves_next()
    ensures { LeavesNext }
{}

/// If such an entry stands for a number, and each step adds one to the number on which it was made, then N steps add N. From no
/// entry, which stands for 0, they leave N.
pub fn leaves_sum()
    ensures { LeavesSum }
{}

/// Each event of a stripe's whole history follows the operation table: at some entry, its step asks for exactly its outside
/// answers and gives its reply. Only a `Get` shares the load of another step.
pub fn events_by_table()
    ensures { EventsByTable }
{}
