//! The counter from which the workers of a pool claim their pieces.
ghost use Rattle.std.specs.Prelude.{◌≡◌, ℕ, ◌+◌, ◌-◌, ◌^◌, ◌<◌, ◌≤◌, IfOk, IfSome, IfNone};
ghost use Rattle.jc_pool.specs.Shares.{times, once_below};
ghost use Rattle.jc_pool.specs.Views.{fresh_claims, least_above, after_claim, after_end, claims_after_split, split_off, claims_after_join, IsClaimerOf};

use crate::rule::{Claim, CounterRule, Half};
use crate::view::{Claims, JobPlan};
use atomic_table::Table;
use std::alloc::{AllocError, Global};
use std::marker::Model;

/// The number of the next piece, which threads share by `&Counter`. Contracts see which counter it is, and its plan.
#[derive(Drop)]
pub(crate) struct Counter {
    table: Table<(), Claims, JobPlan, CounterRule, Global>,
    pieces: usize,
}

impl Model for Counter {
    ghost use Rattle.std.specs.Prelude.{◌≡◌};
    ghost use Rattle.atomic_table.specs.Seated.{TableId};
    ghost use Rattle.jc_pool.specs.declared.view.JobPlan.{JobPlan};

    ghost Value = { TableId × JobPlan };

    ghost view = { λ c. (c.table.shared.table_id, c.table.shared.key) };

    ghost invariant = { λ c. (c.table.shared.table_id.words ≡ 1) × (c.table.shared.table_id.slots ≡ 0) × (c.pieces ≡ c.table.shared.key.pieces) };
}

/// The token with which some of the workers claim. Threads don't share it, and it takes no bytes.
///
/// Contracts see its counter, and the [`Claims`] that were made with it.
#[derive(Drop)]
pub(crate) struct Claimer {
    token: atomic_table::Seat<(), Claims>,
}

impl Model for Claimer {
    ghost use Rattle.std.specs.Prelude.{◌≡◌, []};
    ghost use Rattle.atomic_table.specs.Seated.{TableId};
    ghost use Rattle.jc_pool.specs.declared.view.Claims.{Claims};

    ghost Value = { TableId × Claims };

    ghost view = { λ c. (c.token.table_id, c.token.me.0) };

    ghost invariant = { λ c. c.token.me.1 ≡ [] };
}

impl Counter {
    /// A counter of pieces, none of which is claimed, and a claimer for all workers.
    ///
    /// It allocates one word.
    ///
    /// Condition: pieces and workers together are at most `usize::MAX`.
    pub(crate) fn new(alloc: Global, plan: &JobPlan) -> Result<(Counter, Claimer), AllocError>
        requires { plan.now.pieces + plan.now.workers < 2 ^ 64 }
        ensures counter { IfOk result (λ r. r.0.1 ≡ plan.now) }
        ensures claimer { IfOk result (λ r. (r.1.0 ≡ r.0.0) × (r.1.1 ≡ fresh_claims plan.now plan.now.workers)) }
    {
        let (table, token) = Table::of_words(alloc, &[0], plan)?;
        let counter = Counter {
            table,
            pieces: plan.pieces,
        };
        Ok((counter, Claimer { token }))
    }

    /// Claims the next piece, by one atomic step. `None` says that no piece is left: one worker of the claimer has then ended.
    ///
    /// Conditions: the claimer is of this counter, and one of its workers has not ended.
    pub(crate) fn claim(&self, claimer: &mut Claimer) -> Option<usize>
        requires counter { IsClaimerOf self.now claimer.old }
        requires working { 0 < claimer.old.1.working }
        ensures counter { IsClaimerOf self.now claimer.new }
        ensures piece { IfSome result (λ piece. (claimer.new.1 ≡ after_claim claimer.old.1 piece) × (piece < self.now.1.pieces)) }
        ensures later { IfSome result (λ piece. least_above claimer.old.1.claimed ≤ piece) }
        ensures none { IfNone result (claimer.new.1 ≡ after_end claimer.old.1) }
    {
        let found = self
            .table
            .shared
            .fetch_add::<Claim>(&mut claimer.token, 0, 1);
        let piece = found as usize;
        if piece < self.pieces {
            Some(piece)
        } else {
            None
        }
    }

    /// Splits a claimer: the new one is for half of the workers, rounded down.
    ///
    /// Conditions: the claimer is of this counter, and is for at least two workers that haven't ended.
    pub(crate) fn split(&self, claimer: &mut Claimer) -> Claimer
        requires counter { IsClaimerOf self.now claimer.old }
        requires two { 1 < claimer.old.1.working }
        ensures counter { IsClaimerOf self.now claimer.new × IsClaimerOf self.now result }
        ensures claims { (claimer.new.1 ≡ claims_after_split claimer.old.1) × (result.1 ≡ split_off claimer.old.1) }
    {
        let token = self.table.shared.split_seat::<Half>(&mut claimer.token);
        Claimer { token }
    }

    /// Joins the claims of `other` to those of `claimer`.
    ///
    /// Conditions: both are of this counter, and `claimer` is for at least one worker.
    pub(crate) fn join(&self, claimer: &mut Claimer, other: Claimer)
        requires counter { IsClaimerOf self.now claimer.old × IsClaimerOf self.now other }
        requires some { 0 < claimer.old.1.working + claimer.old.1.ended }
        ensures counter { IsClaimerOf self.now claimer.new }
        ensures claims { claimer.new.1 ≡ claims_after_join claimer.old.1 other.1 }
    {
        let Claimer { token } = other;
        self.table
            .shared
            .join_seat::<Half>(&mut claimer.token, token);
    }

    /// Ends the counter, once all workers have ended: each piece was then claimed once.
    ///
    /// Conditions: the claimer is of this counter and for all workers, of whom there is at least one, and all have ended.
    pub(crate) fn close(self, claimer: Claimer)
        requires counter { IsClaimerOf self claimer }
        requires all { (0 < self.1.workers) × (claimer.1.working ≡ 0) × (claimer.1.ended ≡ self.1.workers) }
        ensures { (x : ℕ) → times x claimer.1.claimed ≡ once_below x self.1.pieces }
    {
        let Counter { table, pieces: _ } = self;
        let Claimer { token } = claimer;
        table.close_with(token).free();
    }
}
