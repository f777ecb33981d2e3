//! An `invokeAll` by a client, of two keys of which one has an entry.
use super::*;
use indexmap::{IndexMap, IndexSet};
use jc_invoke::invoke_all;

fn both_keys(rt: &impl Abort, alloc: Global, t: &Texts) -> IndexSet<Key> {
    let mut keys = IndexSet::new(alloc);
    keys.insert(t.a).expect(rt, "memory");
    keys.insert(t.b).expect(rt, "memory");
    keys
}

/// Each key has its sum.
fn are_sums(
    rt: &impl Abort,
    returned: Result<IndexMap<Key, Result<Value, Refusal>>, Refusal>,
    t: &Texts,
) {
    let results = returned.ok().expect(rt, "results");
    is(rt, results.len(), 2);
    is(rt, results.get(&t.a).copied(), Some(Ok(t.two)));
    is(rt, results.get(&t.b).copied(), Some(Ok(t.one)));
}

/// The one call is a step at each key.
fn invoke_both<R: Abort + Wait>(
    rt: &R,
    alloc: Global,
    client: &mut Client<'_>,
    increment: &mut Box<dyn EntryProcessor + Send + Drop>,
)
    requires { Unit {0} }
{
    let t = make_texts(rt);
    is(rt, client.put(rt, &t.a, &t.one), Ok(()));
    let keys = both_keys(rt, alloc, &t);
    let returned = invoke_all(
        alloc,
        rt,
        client.cache,
        &mut client.session,
        &keys,
        increment,
        &[],
    );
    are_sums(rt, returned, &t);
    is(rt, (client.own(), client.caller().call), (3, 2));
    is(rt, client.get(rt, &t.b), Ok(Some(t.one)));
}

fn invoke_by_last<R: Abort + Wait>(
    rt: &R,
    alloc: Global,
    clients: Vec<Client<'_>>,
    increment: &mut Box<dyn EntryProcessor + Send + Drop>,
)
    requires { Unit {0} }
{
    let mut clients = clients;
    match clients.pop() {
        Some(mut client) => invoke_both(rt, alloc, &mut client, increment),
        None => panic!(rt; "no client"),
    }
}

#[test]
fn invokes_all(rt: HostRuntime) {
    let alloc = rt.alloc();
    let mut increment: Box<dyn EntryProcessor + Send + Drop> = Box::new(alloc, Increment)
        .ok()
        .expect(&rt, "memory");
    let mut owner = CacheOwner::new(alloc, &CONFIG).expect(&rt, "a cache");
    let outside = nothing(&rt, alloc, 1);
    let sessions = owner.enlist_all(alloc, outside).expect(&rt, "sessions");
    let clients = clients(&owner, alloc, sessions).expect(&rt, "clients");
    invoke_by_last(&rt, alloc, clients, &mut increment);
    is(&rt, puts(&rt, alloc, owner), 3);
}
