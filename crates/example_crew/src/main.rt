//! Pages are entered, four workers count their visits side by side, and a report follows.
#![tactic(auto)]

use indexmap::IndexMap;
use jc_bulk::put_all;
use jc_client::{
    CacheLoader, CacheOwner, CacheWriter, Client, Config, EntryProcessor, Key, Outside, Service,
    Value, clients, work_all,
};
use jc_store::{Increment, SharedStore, Store};
use std::alloc::Global;
use std::sync::Wait;
use std::thread::Threads;

/// What all clients share: the pages with their first counts, and what each worker puts at its end.
#[derive(Drop)]
struct Shift {
    alloc: Global,
    pages: IndexMap<Key, Value>,
    days: IndexMap<Key, Value>,
}

impl<R: Wait> Service<R, anyhow::Result<()>> for Shift {
    fn work(&self, rt: &R, client: &mut Client<'_>) -> anyhow::Result<()> {
        let mut increment: Box<dyn EntryProcessor + Send + Drop> = Box::new(self.alloc, Increment)?;
        for (page, _count) in &self.pages {
            client.invoke(rt, page, &mut increment, &[])?;
        }
        put_twice(rt, self.alloc, client, &self.days)
    }
}

/// Puts these entries, and those that failed once more.
fn put_twice(
    rt: &impl Wait,
    alloc: Global,
    client: &mut Client<'_>,
    entries: &IndexMap<Key, Value>,
) -> anyhow::Result<()>
    requires { Unit {0} }
{
    let Err(fault) = put_all(alloc, rt, client.cache, &mut client.session, entries) else {
        return Ok(());
    };
    if fault.failed.is_empty() {
        return Err(fault.cause.into());
    }
    let mut again = IndexMap::new(alloc);
    for (key, _why) in &fault.failed {
        if let Some(value) = entries.get(key) {
            again.insert(*key, *value)?;
        }
    }
    put_all(alloc, rt, client.cache, &mut client.session, &again)?;
    Ok(())
}

fn main(rt: HostRuntime) -> anyhow::Result<()> {
    let alloc = rt.alloc();
    let store = SharedStore::new(alloc, Store::new(alloc))?;
    let mut outside = Vec::new(alloc);
    for _ in 0..5 {
        let loader: Box<dyn CacheLoader + Send + Drop> = Box::new(alloc, store.loader(rt)?)?;
        let writer: Box<dyn CacheWriter + Send + Drop> = Box::new(alloc, store.writer(rt)?)?;
        outside.push(Outside {
            loader: Some(loader),
            writer: Some(writer),
        })?;
    }
    serve(&rt, alloc, outside)
}

/// A cache is opened, all clients call it, and it is ended.
fn serve<R: Print + Threads + Wait + Sync>(
    rt: &R,
    alloc: Global,
    outside: Vec<Outside>,
) -> anyhow::Result<()> {
    let config = Config {
        stripes: 4,
        ..Config::default()
    };
    let mut owner = CacheOwner::living(alloc, &config)?;
    let sessions = owner.enlist_all(alloc, outside)?;
    let clients = clients(&owner, alloc, sessions)?;
    call_all(rt, alloc, clients)?;
    owner.end(alloc)?;
    Ok(())
}

/// The last client enters the pages, all others work, and then it reports.
fn call_all<R: Print + Threads + Wait + Sync>(
    rt: &R,
    alloc: Global,
    clients: Vec<Client<'_>>,
) -> anyhow::Result<()> {
    let shift = Shift {
        alloc,
        pages: entries(alloc, &["front", "help"], "0")?,
        days: entries(alloc, &["front day", "help day"], "monday")?,
    };
    let mut workers = clients;
    let Some(desk) = workers.pop() else {
        return Ok(());
    };
    let desk = enter(rt, desk, &shift)?;
    work(rt, workers, &shift)?;
    report(rt, desk, &shift)
}

/// Enters the pages. The client comes back.
fn enter<'a>(rt: &impl Wait, desk: Client<'a>, shift: &Shift) -> anyhow::Result<Client<'a>> {
    let mut desk = desk;
    put_twice(rt, shift.alloc, &mut desk, &shift.pages)?;
    Ok(desk)
}

/// All workers work. An `Err` says why one ended too soon.
fn work<R: Threads + Wait + Sync>(
    rt: &R,
    workers: Vec<Client<'_>>,
    shift: &Shift,
) -> anyhow::Result<()> {
    for done in work_all(rt, shift, workers)? {
        done?;
    }
    Ok(())
}

/// Shows how many visits each page has.
fn report(rt: &(impl Print + Wait), desk: Client<'_>, shift: &Shift) -> anyhow::Result<()> {
    let mut desk = desk;
    for (page, _first) in &shift.pages {
        if let Some(count) = desk.get(rt, page)? {
            println!(rt; "{page:?} has {count:?} visits")?;
        }
    }
    Ok(())
}

/// An entry of this value for each of these keys.
fn entries(alloc: Global, keys: &[&str], value: &str) -> anyhow::Result<IndexMap<Key, Value>> {
    let mut entries = IndexMap::new(alloc);
    for key in keys {
        entries.insert(Key::new(key.as_bytes())?, Value::new(value.as_bytes())?)?;
    }
    Ok(entries)
}
