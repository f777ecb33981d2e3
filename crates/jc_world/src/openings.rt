//! A cache that is closed and opened again, as laws over every run.
ghost use Rattle.jc_world.specs.Openings.{HasLastOpening, ReopensOpen};

use jc_stripe::phase_laws::{keeps_reserved, stays_reached};

/// Every run has a last opening: the world at its begin, or the one that its last reopening left. From there on it is a run that
/// opens nothing again. So the laws over what has happened since the last opening speak of every run:
/// [`counts_loads`](crate::headline::counts_loads), [`replies_stand`](crate::replies::replies_stand) and
/// [`steps_are_shown_once`](crate::replies::steps_are_shown_once).
pub fn has_last_opening()
    ensures { HasLastOpening }
{
    stays_reached();
    keeps_reserved();
}

/// A reopening leaves an opening in the new shape, with the store as it was, and the highest number of a call. Of what was cached,
/// stripe by stripe and in each the most recently used first, each stripe keeps the first entries of its keys, as many as it has
/// room for, in this order of use. The keys of the others are shown, and have no entry then; each other key has the entry that it
/// had.
///
/// The premises of coherence count from here on: they hold exactly if write-through is on, and each entry that is kept is the
/// store's. So nothing is claimed of a cache that was filled with write-through off, and opened again with it on.
pub fn reopens_open()
    ensures { ReopensOpen }
{
    stays_reached();
    keeps_reserved();
}
