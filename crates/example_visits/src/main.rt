//! A service that counts how often each user came. Four workers count side by side, each on a thread of its own, through a cache
//! in front of a SQLite file, which is the store of record. When it is started again, it continues from the counts in the file.
#![tactic(auto)]

mod counting;
mod desk;

use indexmap::IndexSet;
use jc_client::{CacheLoader, CacheOwner, CacheWriter, Client, Config, Key, Outside, clients};
use jc_sqlite::{Database, DatabaseLoader, DatabaseWriter};
use std::alloc::Global;
use std::sync::Wait;
use std::thread::Threads;

/// The store of record.
const PATH: &str = "visits.db";

/// The shape of the cache.
const CONFIG: Config = Config {
    stripes: 2,
    capacity: 64,
    history: 1_000,
    read_through: true,
    write_through: true,
};

/// The number of clients: four workers, and the desk.
const CLIENTS: usize = 5;

/// The visitors that come to each worker, one after another.
const VISITORS: [&str; 8] = ["ann", "ben", "ann", "cid", "dot", "ann", "ben", "eve"];

fn main(rt: HostRuntime) -> anyhow::Result<()> {
    let alloc = rt.alloc();
    let database = Database::open(&rt, PATH)?;

    // Each session has a loader and a writer of its own.
    let mut outside = Vec::new(alloc);
    for _ in 0..CLIENTS {
        let loader: Box<dyn CacheLoader + Send + Drop> = Box::new(
            alloc,
            DatabaseLoader::new(rt, &database)?,
        )?;
        let writer: Box<dyn CacheWriter + Send + Drop> = Box::new(
            alloc,
            DatabaseWriter::new(rt, &database)?,
        )?;
        bring(&mut outside, loader, writer)?;
    }
    serve_from(&rt, alloc, &database, outside)
}

/// Adds the loader and the writer of one more session.
fn bring(
    outside: &mut Vec<Outside>,
    loader: Box<dyn CacheLoader + Send + Drop>,
    writer: Box<dyn CacheWriter + Send + Drop>,
) -> anyhow::Result<()> {
    outside.push(Outside {
        loader: Some(loader),
        writer: Some(writer),
    })?;
    Ok(())
}

/// Serves from a database, and shows its last failure, if it had one.
fn serve_from<R: Print + Threads + Wait + Sync>(
    rt: &R,
    alloc: Global,
    database: &Database,
    outside: Vec<Outside>,
) -> anyhow::Result<()> {
    let served = serve(rt, alloc, outside);
    show_error(rt, database)?;
    served
}

/// Opens a cache, lets all clients call it, and closes it.
fn serve<R: Print + Threads + Wait + Sync>(
    rt: &R,
    alloc: Global,
    outside: Vec<Outside>,
) -> anyhow::Result<()> {
    let mut owner = CacheOwner::living(alloc, &CONFIG)?;
    let sessions = owner.enlist_all(alloc, outside)?;
    let clients = clients(&owner, alloc, sessions)?;
    call_all(rt, alloc, clients)?;
    match owner.end(alloc) {
        Ok(_) => Ok(()),
        Err(fault) => Err(fault.refusal.into()),
    }
}

/// The desk enters new users, the workers count the visitors, and the desk reports. An `Err` says why a call failed.
fn call_all<R: Print + Threads + Wait + Sync>(
    rt: &R,
    alloc: Global,
    clients: Vec<Client<'_>>,
) -> anyhow::Result<()> {
    let visitors = visitors(alloc)?;
    let users = users(alloc, &visitors)?;
    let mut workers = clients;
    let Some(desk) = workers.pop() else {
        return Ok(());
    };
    let desk = desk::open(rt, alloc, desk, &users)?;
    let counted = counting::count(rt, alloc, workers, &visitors);
    desk::close(rt, alloc, desk, &users)?;
    counted
}

/// The visitors, as keys.
fn visitors(alloc: Global) -> anyhow::Result<Vec<Key>> {
    let mut visitors = Vec::new(alloc);
    for name in &VISITORS {
        visitors.push(Key::new(name.as_bytes())?)?;
    }
    Ok(visitors)
}

/// Each of the visitors once.
fn users(alloc: Global, visitors: &[Key]) -> anyhow::Result<IndexSet<Key>> {
    let mut users = IndexSet::new(alloc);
    for visitor in visitors {
        users.insert(*visitor)?;
    }
    Ok(users)
}

/// Shows the last failure of the database, if any. A call of the cache returns only its code.
fn show_error(rt: &(impl Print + Wait), database: &Database) -> anyhow::Result<()> {
    if let Some(error) = database.last_error(rt) {
        println!(rt; "the database: {error}")?;
    }
    Ok(())
}
