//! A stripe that lives on: when its generation ends, and the next one begins.
//!
//! Whether a stripe lives on is in its state, because otherwise no contract could state that a cache made by `new` keeps every
//! event. A live cache takes a stripe for one phase or for one renewal, never for both.
ghost use Rattle.std.specs.Prelude.{◌≡◌, ◌++◌, List, true, length, min, IfOk, IfErr};
ghost use Rattle.std.specs.List.{list_any};
ghost use Rattle.jc_types.specs.declared.limits.TheConstants.{LAST_NUMBER};
ghost use Rattle.jc_model.specs.Statistics.{statistics_of};
ghost use Rattle.jc_model.specs.declared.event.Event.{Event};
ghost use Rattle.jc_stripe.specs.Occurrences.{all_occurrences};
ghost use Rattle.jc_stripe.specs.OnePhase.{is_answered};
ghost use Rattle.jc_stripe.specs.Renewal.{EndsGeneration, Renews, RenewsIfFull, can_renew, is_renewable, live_on};

use super::Stripe;
use jc_inflight::{JoinState, Joiner};
use jc_model::statistics::statistics_laws;
use jc_model::{Event, Statistics};
use jc_types::STEP_PLACES;
use std::alloc::AllocError;

impl Stripe {
    /// Whether a full history of this stripe may end, and the next one begin.
    pub fn lives(&self) -> bool
        ensures { result ≡ self.now.lives }
    {
        self.lives
    }

    /// How many generations have ended. A count that has reached `u64::MAX` stays there.
    pub fn generations_ended(&self) -> u64
        ensures { result ≡ min (length self.now.ended) LAST_NUMBER }
    {
        self.life.count()
    }

    /// Makes the stripe live on: from now on a full history may end, and the next one begin ([`renew`](Stripe::renew)). Nothing
    /// else changes.
    pub fn live_on(&mut self)
        ensures { self.new ≡ live_on self.old }
    {
        self.lives = true;
    }

    /// Whether the present generation may end: the stripe lives on, its history isn't empty, and no answer of a load is parked.
    /// This is the condition of [`renew`](Stripe::renew).
    pub fn can_renew(&self) -> bool
        ensures { result ≡ can_renew self.now }
    {
        self.lives && self.history.len() > 0 && !has_parked(self.joiners.list())
    }

    /// Whether the present generation is full and may end.
    pub fn is_renewable(&self) -> bool
        ensures { result ≡ is_renewable self.now }
    {
        !self.history.has_room(STEP_PLACES) && self.can_renew()
    }

    /// Ends the present generation, and begins a new one, which opens with the cached entries, in their order of use. The history
    /// is then empty, and all its places are free except the promised ones.
    ///
    /// The entries, the order of use, reservations, joiners, promised places and the next reservation's number stay. It takes no
    /// memory.
    ///
    /// Condition: the generation may end ([`can_renew`](Stripe::can_renew)).
    pub fn renew(&mut self)
        requires { can_renew self.old ≡ true }
        ensures { Renews self.old self.new }
    {
        let life = self.life.next(&self.history, &self.entries);
        self.history.clear();
        self.life = life;
    }

    /// Ends the present generation, if it may end ([`can_renew`](Stripe::can_renew)), and appends its events, the oldest first.
    /// It returns how many generations had ended before. `None` says that it may not end, and changes nothing.
    ///
    /// An `Err` says that an allocation failed, and changes nothing.
    pub fn end_generation(&mut self, out: &mut Vec<Event>) -> Result<Option<u64>, AllocError>
        ensures ended { IfOk result (λ ended. (events : List Event) × (out.new.items ≡ out.old.items ++ events)
            × EndsGeneration self.old ended events self.new) }
        ensures err { IfErr result (λ e. (out.new.items ≡ out.old.items) × (self.new ≡ self.old)) }
    {
        if !self.can_renew() {
            return Ok(None);
        }
        let generation = self.generations_ended();
        self.append_events(0, self.events_len(), out)?;
        self.renew();
        Ok(Some(generation))
    }

    /// The counts of the events of all generations, the present one included (JSR 107, "Statistics"). It reads no event.
    pub fn statistics(&self) -> Statistics
        ensures { result ≡ statistics_of (all_occurrences self.now) }
    {
        statistics_laws();
        self.life.statistics().together(&self.history.statistics())
    }

    /// Ends the present generation as [`renew`](Stripe::renew) does, if it is full and may end. Otherwise nothing changes.
    pub fn renew_if_full(&mut self)
        ensures { RenewsIfFull self.old self.new }
    {
        if self.is_renewable() {
            self.renew();
        }
    }
}

/// Whether an answer is parked for one of these joiners.
fn has_parked(joiners: &[Joiner]) -> bool
    ensures { result ≡ list_any (λ j. is_answered j.state) joiners.now }
{
    joiners
        .iter()
        .any(|j| matches!(j.state, JoinState::Answered { .. }))
}
