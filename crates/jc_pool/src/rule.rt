//! The rule of the counter from which a pool's pieces are claimed, and its steps. The types are for the proofs alone.
use crate::view::{Claims, JobPlan};
use atomic_table::{Join, Play, Split, TableRule};

/// The rule.
pub(crate) struct CounterRule;

impl TableRule<(), Claims, JobPlan> for CounterRule {
    ghost use Rattle.jc_pool.specs.Rule.{CountsClaims};
    ghost use Rattle.jc_pool.specs.Views.{fresh_claims};

    ghost holds = { CountsClaims };

    ghost first = { λ plan. fresh_claims plan plan.workers };
}

/// A claim.
pub(crate) struct Claim;

impl Play<(), Claims> for Claim {
    ghost use Rattle.jc_pool.specs.Rule.{IsClaim};

    ghost then = { IsClaim };
}

/// A split of a claimer, and the join of both halves.
pub(crate) struct Half;

impl Split<Claims> for Half {
    ghost use Rattle.jc_pool.specs.Views.{claims_after_split, split_off};

    ghost left = { claims_after_split };

    ghost right = { split_off };
}

impl Join<Claims> for Half {
    ghost use Rattle.jc_pool.specs.Views.{claims_after_join, spent_claims};

    ghost both = { claims_after_join };

    ghost spent = { spent_claims };
}
