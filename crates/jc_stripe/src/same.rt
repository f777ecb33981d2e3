//! Tests of equality, which ensure that the two are the same. They compare field by field, since a proof for all fields at once
//! is too long.
ghost use Rattle.std.specs.Prelude.{◌≡◌, ◌↔◌, IsTrue};

use crate::ticket::{First, Reservation};
use jc_model::same::is_same_op;

/// Whether two calls ask the same first: the same partner, for the same change or entry.
pub fn is_same_first(first: &First, second: &First) -> bool
    ensures { IsTrue result ↔ (first.now ≡ second.now) }
{
    *first == *second
}

/// Whether two reservations are the same.
pub fn is_same_reservation(first: &Reservation, second: &Reservation) -> bool
    ensures { IsTrue result ↔ (first.now ≡ second.now) }
{
    first.number == second.number
        && first.caller == second.caller
        && first.key == second.key
        && is_same_op(&first.op, &second.op)
        && is_same_first(&first.first, &second.first)
}
