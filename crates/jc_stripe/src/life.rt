//! The generations of a stripe. Contracts read their openings and histories; a running program knows only how many have ended,
//! and their counts.
ghost use Rattle.std.specs.Prelude.{◌≡◌, [], ◌∷◌, ◌++◌, length, min};
ghost use Rattle.jc_types.specs.declared.limits.TheConstants.{LAST_NUMBER};
ghost use Rattle.jc_model.specs.Statistics.{statistics_of};
ghost use Rattle.jc_stripe.specs.Occurrences.{occurrences, past_occurrences};

use crate::log::Log;
use jc_entries::Entries;
use jc_history::History;
use jc_model::Statistics;
use jc_model::statistics::statistics_laws;
use std::marker::Model;

/// The entries that the present generation opened with, and the generations that have ended, each with its opening and its
/// history.
#[derive(Drop)]
pub(crate) struct Life {
    opening: Log<Entries, ()>,
    ended: Log<Log<Entries, ()>, History>,
    count: u64,
    // The counts of the generations that have ended.
    statistics: Statistics,
}

impl Model for Life {
    ghost use Rattle.std.specs.Prelude.{◌≡◌, length, min};
    ghost use Rattle.jc_types.specs.declared.limits.TheConstants.{LAST_NUMBER};
    ghost use Rattle.jc_model.specs.Statistics.{statistics_of};
    ghost use Rattle.jc_stripe.specs.Occurrences.{past_occurrences};
    ghost use Rattle.jc_stripe.specs.Life.{Life, noted_in, ended_in};

    ghost Value = { Life };

    ghost view = { λ l. record { opening = noted_in l.opening.items; ended = ended_in l.ended.items } };

    ghost invariant = { λ l. (l.count ≡ min (length l.ended.items) LAST_NUMBER)
        × (l.statistics ≡ statistics_of (past_occurrences (ended_in l.ended.items))) };
}

impl Life {
    /// The first generation, which opens with these entries.
    pub(crate) fn new(entries: &Entries) -> Life
        ensures { result ≡ record { opening = entries.now.list; ended = [] } }
    {
        Life {
            opening: Log::new().and(entries, &()),
            ended: Log::new(),
            count: 0,
            statistics: Statistics::new(),
        }
    }

    /// The life after the present generation has ended with this history, and the next one has opened with these entries.
    ///
    /// Condition: the history has counted its occurrences.
    pub(crate) fn next(&self, history: &History, entries: &Entries) -> Life
        requires { history.now.statistics ≡ statistics_of (occurrences self.now.opening history.now.events) }
        ensures { result ≡ record {
          opening = entries.now.list;
          ended = self.now.ended ++ record { opening = self.now.opening; history = history.now.events } ∷ [];
        } }
    {
        statistics_laws();
        Life {
            opening: Log::new().and(entries, &()),
            ended: self.ended.and(&self.opening, history),
            count: self.count.saturating_add(1),
            statistics: self.statistics.together(&history.statistics()),
        }
    }

    /// How many generations have ended. A count that has reached `u64::MAX` stays there.
    pub(crate) fn count(&self) -> u64
        ensures { result ≡ min (length self.now.ended) LAST_NUMBER }
    {
        self.count
    }

    /// The counts of the events of the generations that have ended.
    pub(crate) fn statistics(&self) -> Statistics
        ensures { result ≡ statistics_of (past_occurrences self.now.ended) }
    {
        self.statistics
    }
}
