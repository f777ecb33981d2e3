//! Workers that count visits.
use itoa::Buffer;
use jc_client::{Client, EntryProcessor, Key, Refusal, Service, Value, work_all};
use jc_plain::{Update, Updating};
use std::alloc::Global;
use std::str::from_utf8;
use std::sync::Wait;
use std::thread::Threads;

/// The code of a count that is no number, or the last one.
const NO_NUMBER: u32 = 1;

/// A visit: it adds one to a user's count of visits, in decimal digits. A user without a count has 0.
#[derive(Drop)]
struct Visit;

impl Update for Visit {
    fn update(
        &mut self,
        _user: &Key,
        count: &mut Option<Value>,
        _args: &[Value],
    ) -> Result<Option<Value>, u32> {
        *count = Some(next(count).ok_or(NO_NUMBER)?);
        Ok(*count)
    }
}

/// The number after this one.
fn next(count: &Option<Value>) -> Option<Value> {
    let number: u32 = match count {
        Some(count) => from_utf8(count.bytes()).ok()?.parse().ok()?,
        None => 0,
    };
    let mut buffer = Buffer::new();
    Value::new(buffer.format(number.checked_add(1)?).as_bytes()).ok()
}

/// The work of each worker: it counts a visit of each of these users.
#[derive(Clone, Copy)]
struct CountingVisits<'a> {
    alloc: Global,
    visitors: &'a [Key],
}

/// The result of a worker.
#[derive(Clone, Copy)]
struct Tally {
    /// The number of visits that it has counted.
    visits: usize,
    /// The refusal at which it ended before it had counted all, if it did.
    refusal: Option<Refusal>,
}

impl<R: Wait> Service<R, Tally> for CountingVisits<'_> {
    fn work(&self, rt: &R, client: &mut Client<'_>) -> Tally {
        let Ok(visit) = Box::new(self.alloc, Updating { processor: Visit }) else {
            return Tally {
                visits: 0,
                refusal: Some(Refusal::OutOfMemory),
            };
        };
        let mut visit: Box<dyn EntryProcessor + Send + Drop> = visit;
        for (visits, visitor) in self.visitors.iter().enumerate() {
            if let Err(refusal) = client.invoke(rt, visitor, &mut visit, &[]) {
                return Tally {
                    visits,
                    refusal: Some(refusal),
                };
            }
        }
        Tally {
            visits: self.visitors.len(),
            refusal: None,
        }
    }
}

/// Lets each worker count a visit of each visitor, on a thread of its own, and shows the results. An `Err` says why a worker
/// ended too soon.
pub fn count<R: Print + Threads + Wait + Sync>(
    rt: &R,
    alloc: Global,
    workers: Vec<Client<'_>>,
    visitors: &[Key],
) -> anyhow::Result<()> {
    let tallies = work_all(rt, &CountingVisits { alloc, visitors }, workers)?;
    show(rt, &tallies)?;
    check(&tallies)
}

/// Shows the result of each worker.
fn show(rt: &impl Print, tallies: &[Tally]) -> anyhow::Result<()> {
    for tally in tallies {
        match tally.refusal {
            Some(refusal) => println!(rt;
                "a worker has counted {} visits: {refusal}",
                tally.visits
            )?,
            None => println!(rt; "a worker has counted {} visits", tally.visits)?,
        }
    }
    Ok(())
}

/// Tests that no worker ended too soon. An `Err` says why one did.
fn check(tallies: &[Tally]) -> anyhow::Result<()> {
    for tally in tallies {
        if let Some(refusal) = tally.refusal {
            return Err(refusal.into());
        }
    }
    Ok(())
}
