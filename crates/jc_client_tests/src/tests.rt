mod held;
mod invoking;
mod loads;

use jc_client::{
    CacheOwner, Client, Config, EntryProcessor, Event, Key, Outside, Refusal, Service, Value,
    clients, serve, sessions_of,
};
use jc_store::Increment;
use std::alloc::Global;
use std::fmt::Debug;
use std::process::Abort;
use std::sync::Wait;

/// Two stripes, before no store.
const CONFIG: Config = Config {
    stripes: 2,
    capacity: 8,
    history: 100,
    read_through: false,
    write_through: false,
};

fn is<T: Copy + Debug + PartialEq>(rt: &impl Abort, found: T, want: T) {
    assert_eq!(rt; found, want);
}

/// The keys and values of the tests.
#[derive(Drop)]
struct Texts {
    a: Key,
    b: Key,
    one: Value,
    two: Value,
}

fn make_texts(rt: &impl Abort) -> Texts {
    Texts {
        a: Key::new(b"a").expect(rt, "a key"),
        b: Key::new(b"b").expect(rt, "a key"),
        one: Value::new(b"1").expect(rt, "a value"),
        two: Value::new(b"2").expect(rt, "a value"),
    }
}

/// So many sessions bring nothing.
fn nothing(rt: &impl Abort, alloc: Global, sessions: usize) -> Vec<Outside> {
    let mut outside = Vec::new(alloc);
    for _ in 0..sessions {
        let none = Outside {
            loader: None,
            writer: None,
        };
        outside.push(none).expect(rt, "memory");
    }
    outside
}

/// Four steps: three puts, a hit and two misses among them.
fn put<R: Abort + Wait>(rt: &R, client: &mut Client<'_>, t: &Texts)
    requires { Unit {0} }
{
    is(rt, client.get(rt, &t.a), Ok(None));
    is(rt, client.put(rt, &t.a, &t.one), Ok(()));
    is(rt, client.get_and_put(rt, &t.a, &t.two), Ok(Some(t.one)));
    is(rt, client.put_if_absent(rt, &t.a, &t.one), Ok(false));
    is(rt, client.contains_key(rt, &t.a), Ok(true));
    is(rt, client.get(rt, &t.a), Ok(Some(t.two)));
}

fn replace<R: Abort + Wait>(rt: &R, client: &mut Client<'_>, t: &Texts)
    requires { Unit {0} }
{
    is(rt, client.replace(rt, &t.a, &t.one), Ok(true));
    is(rt, client.replace(rt, &t.b, &t.one), Ok(false));
    is(rt, client.replace_if(rt, &t.a, &t.one, &t.two), Ok(true));
    is(
        rt,
        client.get_and_replace(rt, &t.a, &t.one),
        Ok(Some(t.two)),
    );
}

fn remove<R: Abort + Wait>(rt: &R, client: &mut Client<'_>, t: &Texts)
    requires { Unit {0} }
{
    is(rt, client.remove_if(rt, &t.a, &t.two), Ok(false));
    is(rt, client.remove(rt, &t.a), Ok(true));
    is(rt, client.get_and_remove(rt, &t.a), Ok(None));
}

/// The room keeps its value if there is none.
fn read_into<R: Abort + Wait>(rt: &R, client: &mut Client<'_>, t: &Texts)
    requires { Unit {0} }
{
    let mut room = t.one;
    is(rt, client.get_into(rt, &t.a, &mut room), Ok(false));
    is(rt, room, t.one);
    is(rt, client.get_into(rt, &t.b, &mut room), Ok(true));
    is(rt, room, t.two);
}

fn try_all<R: Abort>(rt: &R, client: &mut Client<'_>, t: &Texts)
    requires { Unit {0} }
{
    is(rt, client.try_put(&t.b, &t.two), Ok(()));
    is(rt, client.try_get(&t.b), Ok(Some(t.two)));
    is(rt, client.try_contains_key(&t.b), Ok(true));
}

/// A key is forgotten, and then all are. It is no step, and isn't counted as an eviction.
fn forget<R: Abort + Wait>(rt: &R, client: &mut Client<'_>, t: &Texts)
    requires { Unit {0} }
{
    client.invalidate(rt, &t.b);
    is(rt, client.try_contains_key(&t.b), Ok(false));
    client.invalidate_all(rt);
    is(rt, client.statistics(rt).evictions, 0);
    is(rt, client.own(), 21);
}

/// What the calls above count, of which `invoke` is one put.
fn count<R: Abort + Wait>(rt: &R, alloc: Global, client: &mut Client<'_>)
    requires { Unit {0} }
{
    let counted = client.statistics(rt);
    is(rt, counted.removals, 1);
    let mut events: Vec<Event> = Vec::new(alloc);
    let ended = client.end_generation(rt, 9, &mut events);
    is(rt, ended.expect(rt, "memory"), None);
    is(rt, events.len(), 0);
    let ended = client.end_generation(rt, 0, &mut events);
    is(rt, ended.expect(rt, "memory").is_some(), !events.is_empty());
}

/// A client makes each call once, and its own steps are counted.
fn call_each<R: Abort + Wait>(
    rt: &R,
    alloc: Global,
    client: &mut Client<'_>,
    increment: &mut Box<dyn EntryProcessor + Send + Drop>,
)
    requires { Unit {0} }
{
    let t = make_texts(rt);
    put(rt, client, &t);
    replace(rt, client, &t);
    remove(rt, client, &t);
    try_all(rt, client, &t);
    read_into(rt, client, &t);
    let three = Value::new(b"3").expect(rt, "a value");
    is(rt, client.invoke(rt, &t.b, increment, &[]), Ok(Some(three)));
    is(rt, client.own(), 19);
    is(rt, client.caller().call, 19);
    client.skip_to(30);
    is(rt, client.get(rt, &t.b), Ok(Some(three)));
    is(rt, client.caller().call, 30);
    forget(rt, client, &t);
    count(rt, alloc, client);
}

/// The client that is made last, if there is one.
fn call_by_last<R: Abort + Wait>(
    rt: &R,
    alloc: Global,
    clients: Vec<Client<'_>>,
    increment: &mut Box<dyn EntryProcessor + Send + Drop>,
)
    requires { Unit {0} }
{
    let mut clients = clients;
    match clients.pop() {
        Some(mut client) => call_each(rt, alloc, &mut client, increment),
        None => panic!(rt; "no client"),
    }
}

/// Ends the cache, and says what it counted.
fn puts<R: Abort>(rt: &R, alloc: Global, owner: CacheOwner) -> u64 {
    match owner.end(alloc) {
        Ok(closed) => closed.statistics().puts,
        Err(fault) => panic!(rt; "{}", fault.refusal),
    }
}

#[test]
fn each_call(rt: HostRuntime) {
    let alloc = rt.alloc();
    let mut increment: Box<dyn EntryProcessor + Send + Drop> = Box::new(alloc, Increment)
        .ok()
        .expect(&rt, "memory");
    let mut owner = CacheOwner::living(alloc, &CONFIG).expect(&rt, "a cache");
    let outside = nothing(&rt, alloc, 2);
    let sessions = owner.enlist_all(alloc, outside).expect(&rt, "sessions");
    let clients = clients(&owner, alloc, sessions).expect(&rt, "clients");
    call_by_last(&rt, alloc, clients, &mut increment);
    is(&rt, puts(&rt, alloc, owner), 7);
}

/// The first of two sessions gets none: it would read through, and has no loader. The cache is ended all the same.
#[test]
fn no_loader(rt: HostRuntime) {
    let alloc = rt.alloc();
    let config = Config {
        read_through: true,
        ..CONFIG
    };
    let mut owner = CacheOwner::new(alloc, &config).expect(&rt, "a cache");
    let outside = nothing(&rt, alloc, 2);
    match owner.enlist_all(alloc, outside) {
        Ok(_) => panic!(&rt; "sessions without a loader"),
        Err(refusal) => is(&rt, refusal, Refusal::NoLoader),
    }
    is(&rt, puts(&rt, alloc, owner), 0);
}

/// The sessions of clients close their cache.
#[test]
fn closes(rt: HostRuntime) {
    let alloc = rt.alloc();
    let mut owner = CacheOwner::new(alloc, &CONFIG).expect(&rt, "a cache");
    let outside = nothing(&rt, alloc, 3);
    let sessions = owner.enlist_all(alloc, outside).expect(&rt, "sessions");
    let clients = clients(&owner, alloc, sessions).expect(&rt, "clients");
    let sessions = sessions_of(&owner, alloc, clients).expect(&rt, "memory");
    match owner.close(alloc, sessions) {
        Ok(closed) => is(&rt, closed.outside.len(), 3),
        Err(fault) => panic!(&rt; "{}", fault.refusal),
    }
}

/// Puts once.
#[derive(Drop)]
struct PutOnce {
    key: Key,
    value: Value,
}

impl<R: Wait> Service<R, Result<(), Refusal>> for PutOnce {
    fn work(&self, rt: &R, client: &mut Client<'_>) -> Result<(), Refusal> {
        client.put(rt, &self.key, &self.value)
    }
}

/// Four clients put, each on a thread of its own.
#[test]
fn serves(rt: HostRuntime) {
    let alloc = rt.alloc();
    let service = PutOnce {
        key: Key::new(b"a").expect(&rt, "a key"),
        value: Value::new(b"1").expect(&rt, "a value"),
    };
    let outside = nothing(&rt, alloc, 4);
    match serve(&rt, alloc, &CONFIG, outside, &service) {
        Ok((closed, returned)) => {
            is(&rt, closed.statistics().puts, 4);
            is(&rt, returned.len(), 4);
        }
        Err(refusal) => panic!(&rt; "{refusal}"),
    }
}
