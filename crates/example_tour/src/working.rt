//! Workers, each with its own client, that call one cache, each on its own thread.
use crate::NAMES;
use jc_client::{Client, EntryProcessor, Key, Refusal, Service, Value, work_all};
use jc_store::Increment;
use std::alloc::Global;
use std::sync::Wait;
use std::thread::Threads;

/// The number of rounds of each worker.
const ROUNDS: u32 = 25;

/// The data that all workers share: a key for each of them, by its session's number, the keys that all of them use, and the value
/// that each puts at its own key.
#[derive(Drop)]
struct SharedData {
    alloc: Global,
    names: Vec<Key>,
    plum: Key,
    counter: Key,
    seven: Value,
}

impl SharedData {
    /// The keys and the value.
    fn new(alloc: Global) -> anyhow::Result<SharedData> {
        let mut names = Vec::new(alloc);
        for name in &NAMES {
            names.push(Key::new(name.as_bytes())?)?;
        }
        Ok(SharedData {
            alloc,
            names,
            plum: Key::new(b"plum")?,
            counter: Key::new(b"counter")?,
            seven: Value::new(b"7")?,
        })
    }
}

impl<R: Wait> Service<R, Result<u64, Refusal>> for SharedData {
    /// One worker's work. The keys that all get at first are loaded once, by the first worker that asks. It ends at the first
    /// call that is refused or fails, and returns the number of steps that the worker has made.
    fn work(&self, rt: &R, client: &mut Client<'_>) -> Result<u64, Refusal> {
        let Some(name) = self.names.get(client.caller().session as usize) else {
            return Err(Refusal::TooManySessions);
        };
        let Ok(increment) = Box::new(self.alloc, Increment) else {
            return Err(Refusal::OutOfMemory);
        };
        let mut increment: Box<dyn EntryProcessor + Send + Drop> = increment;
        client.get(rt, &self.plum)?;
        for _ in 0..ROUNDS {
            make_round(rt, self, name, client, &mut increment)?;
        }
        Ok(client.own())
    }
}

/// Runs all workers, each on a thread of its own. It returns the number of steps of each, or why it ended too soon.
pub fn work<R: Threads + Wait + Sync>(
    rt: &R,
    alloc: Global,
    clients: Vec<Client<'_>>,
) -> anyhow::Result<Vec<Result<u64, Refusal>>> {
    let shared = SharedData::new(alloc)?;
    Ok(work_all(rt, &shared, clients)?)
}

/// One round of a worker: it counts at a key that all use, and puts and gets at its own.
fn make_round<R: Wait>(
    rt: &R,
    shared: &SharedData,
    name: &Key,
    client: &mut Client<'_>,
    increment: &mut Box<dyn EntryProcessor + Send + Drop>,
) -> Result<(), Refusal>
    requires { Unit {0} }
{
    client.invoke(rt, &shared.counter, increment, &[])?;
    client.put(rt, name, &shared.seven)?;
    client.get(rt, name)?;
    Ok(())
}
