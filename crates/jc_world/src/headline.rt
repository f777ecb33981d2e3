//! The headline, as laws over every run.
ghost use Rattle.jc_world.specs.Headline.{StartsOpen, StaysLegal, StaysCoherent, StaysCoherentFrom, CountsLoads};
ghost use Rattle.jc_world.specs.Openings.{StaysUnwritten, StaysCoherentAlone};

use jc_stripe::phase_laws::{keeps_reserved, stays_reached};

/// A world at its start, of any shape within its limits, with nothing cached and any values in its store, is an opening: nothing
/// has happened in it yet. The laws over runs start from an opening, which may also cache entries from before. What a reopening
/// leaves is one too: [`reopens_open`](crate::openings::reopens_open).
pub fn starts_open()
    ensures { StartsOpen }
{}

/// After every list of events, from an opening: the order of all events is one legal history over all stripes, each stripe's
/// history is its part of it, and what each stripe caches is what its part leaves. If the cache was opened again meanwhile, that is
/// the order since its last opening, from what it opened with.
///
/// That a reply and a place that are shown are those of a step of that history is the law
/// [`replies_stand`](crate::replies::replies_stand).
pub fn stays_legal()
    ensures { StaysLegal }
{
    stays_reached();
    keeps_reserved();
}

/// After every list of events: if write-through is on, and each entry with which the cache opened last was the store's, then each cached
/// value is the store's, but for
///
/// - keys whose writer has changed the store and whose call isn't committed,
/// - keys that are untold: somebody else has written them, or a loader or a writer has lied about them, and the cache has had an entry
///   or a reservation of them ever since. A key that is cleared is told, and so is one that the cache has written itself since, or
///   whose commit has left what the store holds.
///
/// A loader lies if its answer is neither a failure nor what the store holds then, a writer if it reports success without a change of
/// the store, or a failure with one. An entry with which the cache opened needn't be the store's if its key was untold before.
pub fn stays_coherent()
    ensures { StaysCoherent }
{
    stays_reached();
    keeps_reserved();
}

/// If nobody else has written the store since the last opening, each value that was cached then was the store's, and each loader and
/// each writer has been honest since, no key is untold. In the world at the begin of the run no key is to be foreign, as in a world at its
/// start. A reopening that keeps only what is the store's forgets what others had done before.
pub fn stays_unwritten()
    ensures { StaysUnwritten }
{}

/// So where nobody else has written the store since the last opening, that was coherent, and each loader and each writer has been honest:
/// after every list of events, with write-through on, each cached value is the store's, but for keys whose writer has changed the store
/// and whose call isn't committed.
pub fn stays_coherent_alone()
    ensures { StaysCoherentAlone }
{
    stays_coherent();
    stays_unwritten();
}

/// The same from any moment on, whatever came before. If no key is reserved then, and each cached value but those of some keys is the
/// store's, both stay in step through every further list of events, but for those that are untold of these keys, and of those that
/// somebody else has written, or somebody has lied about, since then. Write-through is to be on.
pub fn stays_coherent_from()
    ensures { StaysCoherentFrom }
{
    stays_reached();
    keeps_reserved();
}

/// After every list of events since the last opening, for each key: the answers that loaders gave for it are as many as the steps
/// of the order that had the loader asked and aren't shared, and the answer that is kept for a commit, if there is one, together.
/// That every run has a last opening is [`has_last_opening`](crate::openings::has_last_opening).
///
/// It is a count, and doesn't say which answer is in which step.
pub fn counts_loads()
    ensures { CountsLoads }
{
    stays_reached();
    keeps_reserved();
}
