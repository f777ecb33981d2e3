//! The numbers at the end, and the end of the cache.
use jc_client::{CacheOwner, Refusal};
use jc_store::{SharedCounts, SharedStore};
use std::alloc::Global;
use std::sync::Wait;

/// Shows the number of steps of each worker. An `Err` says why a worker's call failed.
pub fn show_steps(
    rt: &impl Print,
    names: &[&str],
    steps: &[Result<u64, Refusal>],
) -> anyhow::Result<()> {
    for (name, steps) in names.iter().zip(steps) {
        println!(rt; "{name:?} has made {} steps", (*steps)?)?;
    }
    Ok(())
}

/// Shows how often the store was called, and its entries.
pub fn show(
    rt: &(impl Print + Wait),
    alloc: Global,
    store: &SharedStore,
    counts: &SharedCounts,
) -> anyhow::Result<()> {
    let asked = counts.now(rt);
    println!(rt;
        "loads {}, writes {}, deletes {}",
        asked.loads, asked.writes, asked.deletes
    )?;
    for (key, value) in &store.entries(rt, alloc)? {
        println!(rt; "the store has {key:?} = {value:?}")?;
    }
    Ok(())
}

/// Closes the cache, and shows the events that its stripes have recorded.
pub fn end(rt: &impl Print, alloc: Global, owner: CacheOwner) -> anyhow::Result<()> {
    match owner.end(alloc) {
        Ok(closed) => {
            for stripe in &closed.stripes {
                println!(rt; "a stripe has recorded {} events", stripe.events_len())?;
            }
            println!(rt; "legal {}", closed.legal)?;
            Ok(())
        }
        Err(fault) => Err(fault.refusal.into()),
    }
}
