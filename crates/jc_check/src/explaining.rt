//! Whether an order explains a record.
ghost use Rattle.std.specs.Prelude.{◌↔◌, IfOk, IsTrue};
ghost use Rattle.jc_check.specs.Explains.{Explains};

use crate::node::Node;
use crate::order::are_ordered;
use crate::record::{Recorded, Rules, Spot, Turn};
use std::alloc::{AllocError, Global};

/// Whether an order explains a record: its turns can be played from what was there at first, each call that has ended is placed, none
/// twice, no write changes the store twice, and the order of the calls is respected. An `Err` says that an allocation failed.
pub fn does_explain(
    alloc: Global,
    rules: &Rules,
    calls: &[Recorded],
    opening: &Spot,
    turns: &[Turn],
) -> Result<bool, AllocError>
    ensures { IfOk result (λ explains. IsTrue explains ↔ Explains rules.now calls.now opening.now turns.now) }
{
    let is_ordered = are_ordered(calls);
    let mut node = Node::opening(alloc, opening);
    for turn in turns {
        match node.spot_after(rules, calls, is_ordered, *turn) {
            Some(spot) => node = node.next(alloc, rules, calls, is_ordered, *turn, spot)?,
            None => return Ok(false),
        }
    }
    Ok(node.is_whole(calls))
}
