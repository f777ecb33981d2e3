//! Calls of owners and clients in which an allocation is refused. Each is made once, on a cache that lives on.
use super::*;
use jc_client::{
    CacheOwner, Client, Closed, ClosedStripe, Event, Outside, Service, clients, serve, sessions_of,
    work_all,
};
use jc_types::Refusal;
use std::sync::Wait;
use std::thread::Threads;

/// The parts of two sessions.
fn pair(rt: &impl Abort, alloc: Global) -> Vec<Outside> {
    let mut outside = Vec::new(alloc);
    for _ in 0..2 {
        let brought = Outside {
            loader: None,
            writer: None,
        };
        outside.push(brought).ok().expect(rt, "memory");
    }
    outside
}

fn owner_of(rt: &impl Abort, alloc: Global) -> CacheOwner {
    CacheOwner::living(alloc, &SHAPE).ok().expect(rt, "memory")
}

/// Closes the cache.
fn ends_well(rt: &impl Abort, alloc: Global, owner: CacheOwner) -> Closed {
    owner.end(alloc).ok().expect(rt, "memory")
}

/// Makes sessions. If an allocation fails, those that were made are dropped, and the cache can be closed.
fn enlists(rt: &(impl Abort + Print), alloc: Global) {
    let mut owner = owner_of(rt, alloc);
    let outside = pair(rt, alloc);
    say(rt, "> enlist_all");
    let given = owner.enlist_all(alloc, outside);
    say(rt, "=");
    say_dropped(rt, given.is_ok());
    match given {
        Ok(sessions) => is(rt, sessions.len(), 2),
        Err(why) => is(rt, why, Refusal::OutOfMemory),
    }
    let _closed = ends_well(rt, alloc, owner);
}

/// Makes clients of two sessions.
fn makes_clients(rt: &(impl Abort + Print), alloc: Global) {
    let mut owner = owner_of(rt, alloc);
    let sessions = owner
        .enlist_all(alloc, pair(rt, alloc))
        .expect(rt, "memory");
    say(rt, "> clients");
    let is_made = clients(&owner, alloc, sessions).is_ok();
    say(rt, "=");
    say_dropped(rt, is_made);
    let _closed = ends_well(rt, alloc, owner);
}

/// Makes clients sessions again.
fn takes_sessions(rt: &(impl Abort + Print), alloc: Global) {
    let mut owner = owner_of(rt, alloc);
    let sessions = owner
        .enlist_all(alloc, pair(rt, alloc))
        .expect(rt, "memory");
    let clients = clients(&owner, alloc, sessions).expect(rt, "memory");
    say(rt, "> sessions_of");
    let is_made = sessions_of(&owner, alloc, clients).is_ok();
    say(rt, "=");
    say_dropped(rt, is_made);
    let _closed = ends_well(rt, alloc, owner);
}

/// Puts once.
#[derive(Drop)]
struct PutOnce {
    key: Key,
    value: Value,
}

impl<R: Wait> Service<R, bool> for PutOnce {
    fn work(&self, rt: &R, client: &mut Client<'_>) -> bool {
        client.put(rt, &self.key, &self.value).is_ok()
    }
}

fn put_once(rt: &impl Abort) -> PutOnce {
    PutOnce {
        key: key(rt),
        value: value(rt),
    }
}

/// Does the clients' work on threads. If an allocation fails, some of them may not have worked.
fn works<R: Abort + Wait + Threads + Sync + Print>(rt: &R, alloc: Global) {
    let service = put_once(rt);
    let mut owner = owner_of(rt, alloc);
    let sessions = owner
        .enlist_all(alloc, pair(rt, alloc))
        .expect(rt, "memory");
    let clients = clients(&owner, alloc, sessions).expect(rt, "memory");
    say(rt, "> work_all");
    let worked = work_all(rt, &service, clients);
    say(rt, "=");
    say_dropped(rt, worked.is_ok());
    let puts = ends_well(rt, alloc, owner).statistics().puts;
    match worked {
        Ok(each) => is(rt, (each.len(), puts), (2, 2)),
        Err(_failed) => assert!(rt; puts <= 2),
    }
}

/// Runs a whole service.
fn serves<R: Abort + Wait + Threads + Sync + Print>(rt: &R, alloc: Global) {
    let service = put_once(rt);
    let outside = pair(rt, alloc);
    say(rt, "> serve");
    let served = serve(rt, alloc, &SHAPE, outside, &service);
    say(rt, "=");
    say_dropped(rt, served.is_ok());
    match served {
        Ok((closed, _each)) => is(rt, closed.statistics().puts, 2),
        Err(why) => is(rt, why, Refusal::OutOfMemory),
    }
}

/// The first client of a cache makes a put.
fn first_puts<R: Abort + Wait>(rt: &R, client: &mut Client<'_>)
    requires { Unit {0} }
{
    let put = put_once(rt);
    is(rt, client.put(rt, &put.key, &put.value), Ok(()));
}

/// Ends a generation of one put. If an allocation fails, the generation continues, and can be ended later.
fn ends_a_generation<R: Abort + Wait + Print>(rt: &R, alloc: Global, client: &mut Client<'_>)
    requires { Unit {0} }
{
    first_puts(rt, client);
    let mut events: Vec<Event> = Vec::new(alloc);
    say(rt, "> end_generation");
    let ended = client.end_generation(rt, 0, &mut events);
    say(rt, "=");
    say_whole(rt, ended.is_ok());
    if ended.is_err() {
        is(rt, events.len(), 0);
        let again = client.end_generation(rt, 0, &mut events);
        is(rt, again.expect(rt, "memory"), Some(0));
    }
    is(rt, events.len(), 1);
}

/// A client's calls, and the history that they leave.
fn calls<R: Abort + Wait + Print>(rt: &R, alloc: Global, clients: Vec<Client<'_>>)
    requires { Unit {0} }
{
    let mut clients = clients;
    match clients.pop() {
        Some(mut client) => {
            ends_a_generation(rt, alloc, &mut client);
            first_puts(rt, &mut client);
        }
        None => panic!(rt; "no client"),
    }
}

/// Lists the stripe's only event. If an allocation fails, nothing is listed.
fn lists_events(rt: &(impl Abort + Print), alloc: Global, stripe: &ClosedStripe) {
    let mut events: Vec<Event> = Vec::new(alloc);
    say(rt, "> append_events");
    let is_listed = stripe.append_events(&mut events).is_ok();
    say(rt, "=");
    say_whole(rt, is_listed);
    is(rt, events.len(), if is_listed { 1 } else { 0 });
}

/// Closes the cache. If an allocation fails, the owner is returned, and can be closed later.
fn ends(rt: &(impl Abort + Print), alloc: Global, owner: CacheOwner) -> Closed {
    say(rt, "> end");
    match owner.end(alloc) {
        Ok(closed) => {
            say(rt, "=");
            say_whole(rt, true);
            closed
        }
        Err(fault) => {
            say(rt, "=");
            say_whole(rt, false);
            is(rt, fault.refusal, Refusal::OutOfMemory);
            ends_well(rt, alloc, fault.owner)
        }
    }
}

#[test]
fn of_sessions(rt: HostRuntime) {
    enlists(&rt, rt.alloc());
    makes_clients(&rt, rt.alloc());
    takes_sessions(&rt, rt.alloc());
}

#[test]
fn of_services(rt: HostRuntime) {
    works(&rt, rt.alloc());
    serves(&rt, rt.alloc());
}

#[test]
fn of_generations(rt: HostRuntime) {
    let alloc = rt.alloc();
    let mut owner = owner_of(&rt, alloc);
    let sessions = owner
        .enlist_all(alloc, pair(&rt, alloc))
        .expect(&rt, "memory");
    let clients = clients(&owner, alloc, sessions).expect(&rt, "memory");
    calls(&rt, alloc, clients);
    let closed = ends(&rt, alloc, owner);
    lists_events(&rt, alloc, closed.stripes.first().expect(&rt, "a stripe"));
}
