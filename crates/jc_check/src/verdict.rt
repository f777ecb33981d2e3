//! The verdict on what was recorded at one key.
ghost use Rattle.std.specs.Prelude.{◌≡◌, IfOk};
ghost use Rattle.jc_check.specs.Nodes.{opening_node};
ghost use Rattle.jc_check.specs.Verdict.{IsVerdict};
ghost use Rattle.jc_check.specs.States.{AreKnown, IsAt};

use crate::explaining::does_explain;
use crate::exploring::{Ending, explore, survey_of};
use crate::guessing::guess;
use crate::laws::{closed_nodes_refute, whole_nodes_explain};
use crate::node::Node;
use crate::record::{Recorded, Rules, Spot, Turn};
use crate::states::States;
use std::alloc::{AllocError, Global};

/// A verdict.
#[derive(Drop)]
pub enum Verdict {
    /// These turns explain the record.
    Explained(Vec<Turn>),
    /// No turns explain it: these nodes are closed.
    Refuted(States),
    /// The budget is spent: these nodes were met, each once.
    Stopped(States),
}

/// The opening alone.
fn first_states(
    alloc: Global,
    rules: &Rules,
    calls: &[Recorded],
    opening: &Spot,
) -> Result<States, AllocError>
    ensures known { IfOk result (λ states. AreKnown rules.now calls.now states) }
    ensures first { IfOk result (λ states. IsAt states 0 (opening_node opening.now)) }
{
    let mut states = States::new(alloc);
    states.begin(rules, calls, Node::opening(alloc, opening))?;
    Ok(states)
}

/// Whether some order of turns explains what was recorded at a key, where this was there at first: it tries orders until one explains
/// it, or all are tried, or it has met more than `budget` nodes. The calls are in the order of their beginnings, and none ended before
/// it began; otherwise the verdict is right, but it takes longer, and more often the budget is spent.
///
/// An `Err` says that an allocation failed.
pub fn check(
    alloc: Global,
    rules: &Rules,
    calls: &[Recorded],
    opening: &Spot,
    budget: usize,
) -> Result<Verdict, AllocError>
    ensures { IfOk result (λ verdict. IsVerdict rules.now calls.now opening.now budget verdict) }
{
    closed_nodes_refute();
    whole_nodes_explain();
    if let Some(turns) = guess(alloc, rules, calls, opening, budget)? {
        if does_explain(alloc, rules, calls, opening, &turns)? {
            return Ok(Verdict::Explained(turns));
        }
    }
    let survey = survey_of(alloc, calls)?;
    let mut states = first_states(alloc, rules, calls, opening)?;
    match explore(rules, calls, &survey, budget, &mut states)? {
        Ending::Whole(place) => {
            let turns = states.path_to(rules, calls, place)?;
            Ok(Verdict::Explained(turns))
        }
        Ending::Closed => Ok(Verdict::Refuted(states)),
        Ending::Spent => Ok(Verdict::Stopped(states)),
    }
}
