//! The whole answer, as text.
ghost use Rattle.std.specs.Prelude.{◌≡◌, ◌++◌, ◌+◌, ◌<◌, ◌^◌, OnOk, IfOk, IfSome};
ghost use Rattle.jc_litmus.specs.Judging.{IsNumbered};
ghost use Rattle.jc_litmus.specs.Outcomes.{budget_line, closing_text, counts_text, ending_text, exploration_text, fault_text, first_text, outcomes_line, verdict_line, verdicts_text, whole_line};

use crate::judge::{Verdict, verdict_on};
use crate::outcome::put_outcomes;
use crate::program::{Expectation, LineFault};
use jc_explore::{Explored, OUTCOMES_MAX, Program};
use jc_text::print::{Piece, put, put_pieces};
use std::alloc::{AllocError, Global};

/// Appends the numbers of outcomes and of states.
#[tactic(auto, unfolding(crate::specs::Outcomes::counts_text))]
fn put_counts(out: &mut Vec<u8>, outcomes: usize, states: u64) -> Result<(), AllocError>
    ensures { OnOk result (out.new.items ≡ out.old.items ++ counts_text outcomes states) }
{
    put_pieces(
        out,
        &[
            Piece::Number(outcomes as u64),
            Piece::Text(" of "),
            Piece::Number(states),
            Piece::Text(" states\n"),
        ],
    )
}

/// Appends the line with the numbers of outcomes and of states.
fn put_whole_line(out: &mut Vec<u8>, outcomes: usize, states: u64) -> Result<(), AllocError>
    ensures { OnOk result (out.new.items ≡ out.old.items ++ whole_line outcomes states) }
{
    put(out, "all outcomes: ")?;
    put_counts(out, outcomes, states)?;
    Ok(())
}

/// Appends that an exploration has stopped after this number of outcomes.
#[tactic(auto, unfolding(crate::specs::Outcomes::outcomes_line))]
fn put_outcomes_line(out: &mut Vec<u8>, outcomes: usize) -> Result<(), AllocError>
    ensures { OnOk result (out.new.items ≡ out.old.items ++ outcomes_line outcomes) }
{
    put_pieces(
        out,
        &[
            Piece::Text("stopped after "),
            Piece::Number(outcomes as u64),
            Piece::Text(" outcomes\n"),
        ],
    )
}

/// Appends that an exploration has stopped after this number of states.
#[tactic(auto, unfolding(crate::specs::Outcomes::budget_line))]
fn put_budget_line(out: &mut Vec<u8>, states: usize) -> Result<(), AllocError>
    ensures { OnOk result (out.new.items ≡ out.old.items ++ budget_line states) }
{
    put_pieces(
        out,
        &[
            Piece::Text("stopped after "),
            Piece::Number(states as u64),
            Piece::Text(" states\n"),
        ],
    )
}

/// Appends the numbers of outcomes and of states, or after how many the exploration with this budget of states stopped.
fn put_closing(out: &mut Vec<u8>, states: usize, explored: &Explored) -> Result<(), AllocError>
    ensures { OnOk result (out.new.items ≡ out.old.items ++ closing_text states explored.now) }
{
    let outcomes = explored.found.len();
    if explored.is_whole {
        put_whole_line(out, outcomes, explored.states)
    } else if OUTCOMES_MAX < outcomes {
        put_outcomes_line(out, outcomes)
    } else {
        put_budget_line(out, states)
    }
}

/// Appends the outcome that decides an expectation, if one does.
fn put_first(out: &mut Vec<u8>, first: Option<usize>) -> Result<(), AllocError>
    requires { IfSome first (λ place. place + 1 < 2 ^ 64) }
    ensures { OnOk result (out.new.items ≡ out.old.items ++ first_text first) }
{
    match first {
        None => Ok(()),
        Some(place) => put_pieces(
            out,
            &[Piece::Text(", outcome "), Piece::Number(place as u64 + 1)],
        ),
    }
}

/// Appends the verdict on an expectation.
fn put_ending(out: &mut Vec<u8>, verdict: Verdict) -> Result<(), AllocError>
    requires { IsNumbered verdict }
    ensures { OnOk result (out.new.items ≡ out.old.items ++ ending_text verdict) }
{
    match verdict {
        Verdict::Holds(first) => {
            put(out, ": holds")?;
            put_first(out, first)
        }
        Verdict::Fails(first) => {
            put(out, ": fails")?;
            put_first(out, first)
        }
        Verdict::Open => put(out, ": open"),
    }
}

/// Appends an expectation, and its verdict.
#[tactic(auto, unfolding(crate::specs::Outcomes::verdict_line))]
fn put_verdict(
    out: &mut Vec<u8>,
    explored: &Explored,
    expectation: &Expectation,
) -> Result<(), AllocError>
    ensures { OnOk result (out.new.items ≡ out.old.items ++ verdict_line explored.now expectation.now) }
{
    out.extend_from_slice(&expectation.text)?;
    put_ending(out, verdict_on(explored, expectation))?;
    put(out, "\n")
}

/// Appends expectations, each with its verdict.
fn put_verdicts(
    out: &mut Vec<u8>,
    explored: &Explored,
    expectations: &[Expectation],
) -> Result<(), AllocError>
    ensures { OnOk result (out.new.items ≡ out.old.items ++ verdicts_text explored.now expectations.now) }
{
    for expectation in expectations {
        put_verdict(out, explored, expectation)?;
    }
    Ok(())
}

/// The whole answer, of an exploration with this budget of states.
pub fn answer(
    alloc: Global,
    states: usize,
    program: &Program,
    explored: &Explored,
    expectations: &[Expectation],
) -> Result<Vec<u8>, AllocError>
    ensures { IfOk result (λ out. out.items
        ≡ exploration_text states program.now explored.now expectations.now) }
{
    let mut out = Vec::new(alloc);
    put_outcomes(alloc, &mut out, program, &explored.found)?;
    put_closing(&mut out, states, explored)?;
    put_verdicts(&mut out, explored, expectations)?;
    Ok(out)
}

/// The output for a program with a line that is at fault.
#[tactic(auto, unfolding(crate::specs::Outcomes::fault_text))]
pub fn complaint(alloc: Global, line: u64, fault: LineFault) -> Result<Vec<u8>, AllocError>
    ensures { IfOk result (λ out. out.items ≡ fault_text line fault) }
{
    let mut out = Vec::new(alloc);
    put_pieces(
        &mut out,
        &[
            Piece::Text("line "),
            Piece::Number(line),
            Piece::Text(": "),
            Piece::Text(fault.text()),
            Piece::Text("\n"),
        ],
    )?;
    Ok(out)
}
