//! Four workers count the visits of a page, in a cache in front of a store of record.
#![tactic(auto)]

use jc_client::{
    CacheLoader, CacheWriter, Client, Config, EntryProcessor, Key, Outside, Refusal, Service, serve,
};
use jc_store::{Increment, SharedStore, Store};
use std::alloc::Global;
use std::sync::Wait;

#[derive(Drop)]
struct Visits {
    alloc: Global,
    page: Key,
}

impl<R: Wait> Service<R, Result<(), Refusal>> for Visits {
    fn work(&self, rt: &R, client: &mut Client<'_>) -> Result<(), Refusal> {
        let Ok(increment) = Box::new(self.alloc, Increment) else {
            return Err(Refusal::OutOfMemory);
        };
        let mut increment: Box<dyn EntryProcessor + Send + Drop> = increment;
        for _ in 0..25 {
            client.invoke(rt, &self.page, &mut increment, &[])?;
        }
        Ok(())
    }
}

fn main(rt: HostRuntime) -> anyhow::Result<()> {
    let alloc = rt.alloc();
    let store = SharedStore::new(alloc, Store::new(alloc))?;
    let mut outside = Vec::new(alloc);
    for _ in 0..4 {
        let loader: Box<dyn CacheLoader + Send + Drop> = Box::new(alloc, store.loader(rt)?)?;
        let writer: Box<dyn CacheWriter + Send + Drop> = Box::new(alloc, store.writer(rt)?)?;
        outside.push(Outside {
            loader: Some(loader),
            writer: Some(writer),
        })?;
    }
    let visits = Visits {
        alloc,
        page: Key::new(b"front")?,
    };
    let (closed, _returned) = serve(&rt, alloc, &Config::default(), outside, &visits)?;
    for (page, count) in &store.entries(&rt, alloc)? {
        println!(rt; "{page:?} has {count:?} visits")?;
    }
    println!(rt; "{} puts", closed.statistics().puts)?;
    Ok(())
}
