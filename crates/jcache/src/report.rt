//! The report of a count on threads.
ghost use Rattle.std.specs.Prelude.{◌≡◌, ◌++◌, ◌==◌, OnOk, IfOk, decimal};
ghost use Rattle.std.specs.List.{flat_map, list_all};
ghost use Rattle.jcache.specs.Reports.{is_right, is_count, plan_text, count_text, own_text, counts_text, steps_text, report_text};

use itoa::Buffer;
use jc_commands::plan::Plan;
use jc_text::{put, put_flag, put_number};
use jc_types::Value;
use std::alloc::{AllocError, Global};

/// The numbers found after the threads have counted.
#[derive(Drop)]
pub struct Report {
    /// The plan: the number of threads, and the increments of each.
    pub plan: Plan,
    /// The counter in the cache, as the last session got it.
    pub counter: Option<Value>,
    /// The counter in the store of record.
    pub store: Option<Value>,
    /// The number of steps of each thread's session.
    pub own: Vec<u64>,
    /// Whether the stripe's history is legal.
    pub legal: bool,
}

impl Report {
    /// Whether each number is the plan's, and the history is legal.
    pub fn is_right(&self) -> bool
        ensures { result ≡ is_right self.now }
    {
        let all = self.plan.increments();
        let rounds = u64::from(self.plan.rounds);
        is_count(&self.counter, all)
            && is_count(&self.store, all)
            && all_are(&self.own, rounds)
            && self.legal
    }

    /// The report as five lines. An `Err` says that an allocation failed.
    pub fn text(&self, alloc: Global) -> Result<Vec<u8>, AllocError>
        ensures { IfOk result (λ text. text.items ≡ report_text self.now) }
    {
        let mut out = Vec::new(alloc);
        put_plan(&mut out, &self.plan)?;
        put_counts(&mut out, &self.counter, &self.store)?;
        put_steps(&mut out, &self.own, self.legal)?;
        Ok(out)
    }
}

/// Whether a value spells this number in decimal digits.
fn is_count(value: &Option<Value>, number: u64) -> bool
    ensures { result ≡ is_count value.now number }
{
    match value {
        Some(value) => {
            let mut buffer = Buffer::new();
            value.bytes() == buffer.format(number).as_bytes()
        }
        None => false,
    }
}

/// Whether each of these numbers is this one.
fn all_are(numbers: &[u64], number: u64) -> bool
    ensures { result ≡ list_all (λ n. n == number) numbers.now }
{
    numbers.iter().all(|n| *n == number)
}

#[tactic(auto, unfolding(crate::specs::Reports::plan_text))]
fn put_plan(out: &mut Vec<u8>, plan: &Plan) -> Result<(), AllocError>
    ensures { OnOk result (out.new.items ≡ out.old.items ++ plan_text plan.now) }
{
    put(out, "workers ")?;
    put_number(out, u64::from(plan.workers))?;
    put(out, " rounds ")?;
    put_number(out, u64::from(plan.rounds))?;
    put(out, "\n")
}

/// A counter's value: a dash for none.
fn put_count(out: &mut Vec<u8>, value: &Option<Value>) -> Result<(), AllocError>
    ensures { OnOk result (out.new.items ≡ out.old.items ++ count_text value.now) }
{
    match value {
        Some(value) => {
            out.extend_from_slice(value.bytes())?;
            Ok(())
        }
        None => put(out, "-"),
    }
}

#[tactic(auto, unfolding(crate::specs::Reports::counts_text))]
fn put_counts(
    out: &mut Vec<u8>,
    counter: &Option<Value>,
    store: &Option<Value>,
) -> Result<(), AllocError>
    ensures { OnOk result (out.new.items ≡ out.old.items ++ counts_text counter.now store.now) }
{
    put(out, "counter ")?;
    put_count(out, counter)?;
    put(out, "\nstore ")?;
    put_count(out, store)?;
    put(out, "\n")
}

#[tactic(auto, unfolding(crate::specs::Reports::own_text))]
fn put_own(out: &mut Vec<u8>, own: u64) -> Result<(), AllocError>
    ensures { OnOk result (out.new.items ≡ out.old.items ++ own_text own) }
{
    put(out, " ")?;
    put_number(out, own)
}

fn put_each_own(out: &mut Vec<u8>, counts: &[u64]) -> Result<(), AllocError>
    ensures { OnOk result (out.new.items ≡ out.old.items ++ flat_map own_text counts.now) }
{
    for own in counts {
        put_own(out, *own)?;
    }
    Ok(())
}

#[tactic(auto, unfolding(crate::specs::Reports::steps_text))]
fn put_steps(out: &mut Vec<u8>, own: &[u64], legal: bool) -> Result<(), AllocError>
    ensures { OnOk result (out.new.items ≡ out.old.items ++ steps_text own.now legal) }
{
    put(out, "own")?;
    put_each_own(out, own)?;
    put(out, "\nlegal ")?;
    put_flag(out, legal)?;
    put(out, "\n")
}
