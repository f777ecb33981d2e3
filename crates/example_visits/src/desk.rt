//! The desk, which enters new users, and reports. Each of its calls is for many users.
use indexmap::{IndexMap, IndexSet};
use jc_bulk::{get_all, put_all};
use jc_client::{Client, Key, Refusal, Service, Value};
use std::alloc::Global;
use std::sync::Wait;

/// Reads the counts that the cache or the store has of these users.
#[derive(Clone, Copy)]
struct Reading<'a> {
    alloc: Global,
    users: &'a IndexSet<Key>,
}

impl<R: Wait> Service<R, Result<IndexMap<Key, Value>, Refusal>> for Reading<'_> {
    fn work(&self, rt: &R, desk: &mut Client<'_>) -> Result<IndexMap<Key, Value>, Refusal> {
        match get_all(self.alloc, rt, desk.cache, &mut desk.session, self.users) {
            Ok(counts) => Ok(counts),
            Err(fault) => Err(fault.cause),
        }
    }
}

/// Puts these users with their counts.
#[derive(Clone, Copy)]
struct Putting<'a> {
    alloc: Global,
    users: &'a IndexMap<Key, Value>,
}

impl<R: Wait> Service<R, Result<(), Refusal>> for Putting<'_> {
    fn work(&self, rt: &R, desk: &mut Client<'_>) -> Result<(), Refusal> {
        match put_all(self.alloc, rt, desk.cache, &mut desk.session, self.users) {
            Ok(()) => Ok(()),
            Err(fault) => Err(fault.cause),
        }
    }
}

/// Enters those of these users of whom the store has no count, with a count of 0.
#[derive(Clone, Copy)]
struct Entering<'a> {
    alloc: Global,
    users: &'a IndexSet<Key>,
}

impl<R: Print + Wait> Service<R, anyhow::Result<()>> for Entering<'_> {
    fn work(&self, rt: &R, desk: &mut Client<'_>) -> anyhow::Result<()> {
        let Entering { alloc, users } = *self;
        let known = Reading { alloc, users }.work(rt, desk)?;
        enter(rt, alloc, desk, &new_users(rt, alloc, users, &known)?)
    }
}

/// Puts new users.
fn enter(
    rt: &impl Wait,
    alloc: Global,
    desk: &mut Client<'_>,
    users: &IndexMap<Key, Value>,
) -> anyhow::Result<()>
    requires { Unit {0} }
{
    let putting = Putting { alloc, users };
    Ok(putting.work(rt, desk)?)
}

/// Shows how often each of these users came.
#[derive(Clone, Copy)]
struct Reporting<'a> {
    alloc: Global,
    users: &'a IndexSet<Key>,
}

impl<R: Print + Wait> Service<R, anyhow::Result<()>> for Reporting<'_> {
    fn work(&self, rt: &R, desk: &mut Client<'_>) -> anyhow::Result<()> {
        let Reporting { alloc, users } = *self;
        let reading = Reading { alloc, users };
        let counts = reading.work(rt, desk)?;
        for (user, count) in &counts {
            println!(rt; "{user:?} came {count:?} times")?;
        }
        Ok(())
    }
}

/// Opens the desk: it enters new users, and returns the client.
pub fn open<'a>(
    rt: &(impl Print + Wait),
    alloc: Global,
    desk: Client<'a>,
    users: &IndexSet<Key>,
) -> anyhow::Result<Client<'a>> {
    let mut desk = desk;
    Entering { alloc, users }.work(rt, &mut desk)?;
    Ok(desk)
}

/// Closes the desk: it reports.
pub fn close(
    rt: &(impl Print + Wait),
    alloc: Global,
    desk: Client<'_>,
    users: &IndexSet<Key>,
) -> anyhow::Result<()> {
    let mut desk = desk;
    Reporting { alloc, users }.work(rt, &mut desk)
}

/// The users that aren't known, each with no visit. It shows how many there are.
fn new_users(
    rt: &impl Print,
    alloc: Global,
    users: &IndexSet<Key>,
    known: &IndexMap<Key, Value>,
) -> anyhow::Result<IndexMap<Key, Value>> {
    let new = others(alloc, users, known)?;
    println!(rt; "{} users are known, {} are new", known.len(), new.len())?;
    Ok(new)
}

/// The users that aren't known, each with no visit.
fn others(
    alloc: Global,
    users: &IndexSet<Key>,
    known: &IndexMap<Key, Value>,
) -> anyhow::Result<IndexMap<Key, Value>> {
    let mut others = IndexMap::new(alloc);
    let none = Value::new(b"0")?;
    for user in users {
        if !known.contains_key(user) {
            others.insert(*user, none)?;
        }
    }
    Ok(others)
}
