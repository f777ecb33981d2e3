//! What stays while nothing is appended, and while a key is reserved, as laws over every run.
ghost use Rattle.jc_world.specs.Reserved.{OnlyStepsChange, EntryStays};

use jc_stripe::phase_laws::{keeps_reserved, stays_reached};

/// An event changes the order of all events, or what is cached, only if it appends a step or evicts an invalidated key, which
/// it shows then, or opens the cache again. So a call that begins, a refusal, a reservation, a join, a loader's answer, a
/// writer's change or report, a withdrawal of a key that isn't invalidated, a pick-up, a call that leaves and a foreign write
/// change neither: nobody sees anything of a call in the cache before its step (JSR 107, "Default Consistency": most operations
/// behave as if each key had a lock of its own).
pub fn only_steps_change()
    ensures { OnlyStepsChange }
{}

/// If a key is reserved, and later the same reservation is still out, its cached entry is what it was, whatever happened in
/// between: no other call has changed it, and no eviction has taken it out (JSR 107, "Default Consistency": most operations
/// behave as if each key had a lock of its own). Nor was the cache opened again in between: a reopening fits only with no call
/// under way, and numbers of calls rise, so that no later reservation is that one.
pub fn entry_stays()
    ensures { EntryStays }
{
    stays_reached();
    keeps_reserved();
}
