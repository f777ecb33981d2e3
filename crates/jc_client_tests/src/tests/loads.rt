//! A `loadAll` by clients side by side, before a loader of numbers.
use super::*;
use indexmap::IndexSet;
use jc_client::{CacheLoader, clients};
use jc_loadall::{LoadAllFault, load_all_by_clients};
use jc_plain::{Listen, Listening, Load, Loading};
use std::thread::Threads;

/// The keys are one byte, a number. Each number below 100 is its own value; any other one fails, with the number as the code.
#[derive(Drop)]
struct Numbers;

impl Load for Numbers {
    fn load(&mut self, key: &Key) -> Result<Option<Value>, u32> {
        match key.bytes().first() {
            Some(byte) if *byte < 100 => Ok(Value::new(&[*byte]).ok()),
            Some(byte) => Err(u32::from(*byte)),
            None => Ok(None),
        }
    }
}

/// How often it was told of success, and of a failure, and of which one last.
#[derive(Drop)]
struct Told {
    completions: u32,
    exceptions: u32,
    last: Option<Refusal>,
}

impl Listen for Told {
    fn on_completion(&mut self) {
        self.completions = self.completions.saturating_add(1);
    }

    fn on_exception(&mut self, refusal: Refusal) {
        self.exceptions = self.exceptions.saturating_add(1);
        self.last = Some(refusal);
    }
}

fn nobody_told() -> Listening<Told> {
    Listening {
        listener: Told {
            completions: 0,
            exceptions: 0,
            last: None,
        },
    }
}

fn was_told(rt: &impl Abort, listening: &Listening<Told>, completions: u32, last: Option<Refusal>) {
    let told = &listening.listener;
    let exceptions = if last.is_some() { 1 } else { 0 };
    is(
        rt,
        (told.completions, told.exceptions),
        (completions, exceptions),
    );
    is(rt, told.last, last);
}

fn number(rt: &impl Abort, byte: u8) -> Key {
    Key::new(&[byte]).expect(rt, "a key")
}

/// The keys from one number up to another, without that.
fn keys_between(rt: &impl Abort, alloc: Global, from: u8, end: u8) -> IndexSet<Key> {
    let mut keys = IndexSet::new(alloc);
    for byte in from..end {
        keys.insert(number(rt, byte)).expect(rt, "memory");
    }
    keys
}

/// All numbers below 40 are loaded, in three pieces. The listener is told of success, once.
fn load_well<R: Abort + Wait + Threads + Sync>(rt: &R, alloc: Global, clients: &mut Vec<Client<'_>>)
    requires { Unit {0} }
{
    let keys = keys_between(rt, alloc, 0, 40);
    let mut listening = nobody_told();
    let all = clients.as_mut_slice();
    let loaded = load_all_by_clients(alloc, rt, all, &keys, false, &mut listening);
    is(rt, loaded.is_ok(), true);
    was_told(rt, &listening, 1, None);
}

/// Of the numbers from 80 to 103 the first piece is loaded. In the second one the number 100 fails, and with it each key of its piece.
fn load_badly<R: Abort + Wait + Threads + Sync>(
    rt: &R,
    alloc: Global,
    clients: &mut Vec<Client<'_>>,
)
    requires { Unit {0} }
{
    let keys = keys_between(rt, alloc, 80, 103);
    let mut listening = nobody_told();
    let all = clients.as_mut_slice();
    let loaded = load_all_by_clients(alloc, rt, all, &keys, false, &mut listening);
    was_told(rt, &listening, 0, Some(Refusal::LoaderFailed(100)));
    match loaded {
        Err(LoadAllFault::Failed(fault)) => {
            is(rt, fault.cause, Refusal::LoaderFailed(100));
            is(rt, fault.failed.len(), 7);
            is(rt, fault.failed.contains_key(&number(rt, 95)), false);
            is(rt, fault.failed.contains_key(&number(rt, 96)), true);
        }
        Err(LoadAllFault::NoClient) | Ok(()) => panic!(rt; "no fault"),
    }
}

/// Whether there is an entry.
fn has<R: Abort + Wait>(rt: &R, client: &mut Client<'_>, byte: u8) -> bool
    requires { Unit {0} }
{
    client
        .contains_key(rt, &number(rt, byte))
        .expect(rt, "an answer")
}

/// What was loaded is there, and what failed isn't.
fn find<R: Abort + Wait>(rt: &R, client: &mut Client<'_>)
    requires { Unit {0} }
{
    is(rt, has(rt, client, 0), true);
    is(rt, has(rt, client, 39), true);
    is(rt, has(rt, client, 95), true);
    is(rt, has(rt, client, 96), false);
}

fn load_each<R: Abort + Wait + Threads + Sync>(rt: &R, alloc: Global, clients: Vec<Client<'_>>)
    requires { Unit {0} }
{
    let mut clients = clients;
    load_well(rt, alloc, &mut clients);
    load_badly(rt, alloc, &mut clients);
    match clients.pop() {
        Some(mut client) => find(rt, &mut client),
        None => panic!(rt; "no client"),
    }
}

/// So many sessions bring a loader.
macro_rules! with_loaders {
    ($rt:expr, $alloc:expr, $sessions:expr) => {{
        let mut outside = Vec::new($alloc);
        for _ in 0..$sessions {
            let loader: Box<dyn CacheLoader + Send + Drop> =
                Box::new($alloc, Loading { loader: Numbers })
                    .ok()
                    .expect(&$rt, "memory");
            let one = Outside {
                loader: Some(loader),
                writer: None,
            };
            outside.push(one).expect(&$rt, "memory");
        }
        outside
    }};
}

#[test]
fn loads_side_by_side(rt: HostRuntime) {
    let alloc = rt.alloc();
    let config = Config {
        capacity: 200,
        history: 300,
        ..CONFIG
    };
    let mut owner = CacheOwner::new(alloc, &config).expect(&rt, "a cache");
    let outside = with_loaders!(rt, alloc, 3);
    let sessions = owner.enlist_all(alloc, outside).expect(&rt, "sessions");
    let clients = clients(&owner, alloc, sessions).expect(&rt, "clients");
    load_each(&rt, alloc, clients);
    is(&rt, puts(&rt, alloc, owner), 0);
}

/// Without a client nothing is loaded, and nobody is told.
fn load_by_nobody<R: Abort + Wait + Threads + Sync>(rt: &R, alloc: Global, clients: Vec<Client<'_>>)
    requires { Unit {0} }
{
    let mut nobody = clients;
    let keys = keys_between(rt, alloc, 0, 1);
    let mut listening = nobody_told();
    let all = nobody.as_mut_slice();
    let loaded = load_all_by_clients(alloc, rt, all, &keys, false, &mut listening);
    is(rt, matches!(loaded, Err(LoadAllFault::NoClient)), true);
    was_told(rt, &listening, 0, None);
}

#[test]
fn no_client(rt: HostRuntime) {
    let alloc = rt.alloc();
    let mut owner = CacheOwner::new(alloc, &CONFIG).expect(&rt, "a cache");
    let outside = nothing(&rt, alloc, 0);
    let sessions = owner.enlist_all(alloc, outside).expect(&rt, "sessions");
    let clients = clients(&owner, alloc, sessions).expect(&rt, "clients");
    load_by_nobody(&rt, alloc, clients);
    is(&rt, puts(&rt, alloc, owner), 0);
}
