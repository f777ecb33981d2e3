//! A tour: a store, a cache in front of it that threads share, and clients of the cache. One client is the guide's, which makes
//! one call after another; the others are the workers', each on a thread of its own.
#![tactic(auto)]

mod ending;
mod visiting;
mod working;

use jc_client::{
    CacheLoader, CacheOwner, CacheWriter, Client, Config, Key, Outside, Value, clients,
};
use jc_store::{SharedCounts, SharedStore, Store};
use std::alloc::Global;
use std::sync::Wait;
use std::thread::Threads;

/// The shape of the cache: no entry is evicted, and no history is full.
const CONFIG: Config = Config {
    stripes: 2,
    capacity: 16,
    history: 1_000,
    read_through: true,
    write_through: true,
};

/// The names of the callers. The last one is the guide.
const NAMES: [&str; 5] = ["ann", "ben", "cid", "dot", "guide"];

fn main(rt: HostRuntime) -> anyhow::Result<()> {
    let alloc = rt.alloc();
    let store = stocked(alloc)?;
    let counts = SharedCounts::new(alloc)?;

    // Each session has a loader and a writer of its own. The calls of all loaders and writers are counted together.
    let mut outside = Vec::new(alloc);
    for _ in &NAMES {
        let loader: Box<dyn CacheLoader + Send + Drop> = Box::new(
            alloc,
            counts.counting(rt, store.loader(rt)?)?,
        )?;
        let writer: Box<dyn CacheWriter + Send + Drop> = Box::new(
            alloc,
            counts.counting(rt, store.writer(rt)?)?,
        )?;
        outside.push(Outside {
            loader: Some(loader),
            writer: Some(writer),
        })?;
    }
    tour(&rt, alloc, &store, &counts, outside)
}

/// The store of record, with two entries.
fn stocked(alloc: Global) -> anyhow::Result<SharedStore> {
    let entries = [
        (Key::new(b"apple")?, Value::new(b"1")?),
        (Key::new(b"plum")?, Value::new(b"3")?),
    ];
    Ok(SharedStore::new(alloc, Store::of(alloc, &entries)?)?)
}

/// Opens a cache, lets all clients call it, and closes it.
fn tour<R: Print + Threads + Wait + Sync>(
    rt: &R,
    alloc: Global,
    store: &SharedStore,
    counts: &SharedCounts,
    outside: Vec<Outside>,
) -> anyhow::Result<()> {
    let mut owner = CacheOwner::new(alloc, &CONFIG)?;
    let sessions = owner.enlist_all(alloc, outside)?;
    let clients = clients(&owner, alloc, sessions)?;
    call_all(rt, alloc, clients)?;
    ending::show(rt, alloc, store, counts)?;
    ending::end(rt, alloc, owner)
}

/// The guide calls the cache, and then all others do, side by side.
fn call_all<R: Print + Threads + Wait + Sync>(
    rt: &R,
    alloc: Global,
    clients: Vec<Client<'_>>,
) -> anyhow::Result<()> {
    let mut clients = clients;
    if let Some(guide) = clients.pop() {
        visiting::visit(rt, alloc, guide)?;
    }
    let steps = working::work(rt, alloc, clients)?;
    ending::show_steps(rt, &NAMES, &steps)
}
