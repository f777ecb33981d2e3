//! Events determine what they show, unless an allocation for a new entry fails.
ghost use Rattle.jc_world.specs.Determinism.{RunsAreDetermined};

/// Two runs of the same events from one world show the same and end in the same world, if no new entry was evicted at once because
/// an allocation for it failed: neither in the one run nor in the other.
///
/// Such an eviction is shown, as `Cause::Memory` in `Stepped::evicted`. Nothing else in a world is left to chance: which entry is
/// evicted from a full stripe, in which order a call takes the keys that are cached, and what a reopening drops follow from the world.
pub fn runs_are_determined()
    ensures { RunsAreDetermined }
{}
