//! Tests of equality, which ensure that the two are the same. They compare field by field, since a proof for all fields at once
//! is too long.
ghost use Rattle.std.specs.Prelude.{◌≡◌, ◌↔◌, IsTrue};

use jc_model::Op;
use jc_model::same::is_same_out;
use jc_stripe::same::is_same_reservation;
use jc_types::Refusal;
use jc_world::{Part, PartProgress};

/// Whether two parts are the same.
pub(crate) fn is_same_part(first: &Part, second: &Part) -> bool
    ensures { IsTrue result ↔ (first.now ≡ second.now) }
{
    is_same_reservation(&first.reservation, &second.reservation)
        && is_same_progress(&first.progress, &second.progress)
}

/// Whether two causes are the same.
pub(crate) fn is_same_cause(first: &Option<Refusal>, second: &Option<Refusal>) -> bool
    ensures { IsTrue result ↔ (first.now ≡ second.now) }
{
    *first == *second
}

/// Whether the operations of two calls at the keys that they still find are the same.
pub(crate) fn is_same_op_found(first: &Option<Op>, second: &Option<Op>) -> bool
    ensures { IsTrue result ↔ (first.now ≡ second.now) }
{
    *first == *second
}

fn is_same_progress(first: &PartProgress, second: &PartProgress) -> bool
    ensures { IsTrue result ↔ (first.now ≡ second.now) }
{
    first.is_changed == second.is_changed
        && first.is_misled == second.is_misled
        && first.change == second.change
        && is_same_out(&first.out, &second.out)
}
