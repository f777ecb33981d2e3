//! The calls of one key, one after another, by one client.
//!
//! Functions that are lent a client have an empty condition: with it they are proved for whatever loader and writer the client has.
use jc_client::{Client, EntryProcessor, Key, Value};
use jc_store::Increment;
use std::alloc::Global;
use std::sync::Wait;

/// Makes some calls of each kind, by the guide.
pub fn visit(rt: &(impl Print + Wait), alloc: Global, guide: Client<'_>) -> anyhow::Result<()> {
    let mut client = guide;
    let mut increment: Box<dyn EntryProcessor + Send + Drop> = Box::new(alloc, Increment)?;
    make_calls(rt, &mut client, &mut increment)
}

/// The calls, of a client that is lent: each `?` of a function that owns it would have to let it go.
fn make_calls(
    rt: &(impl Print + Wait),
    client: &mut Client<'_>,
    increment: &mut Box<dyn EntryProcessor + Send + Drop>,
) -> anyhow::Result<()>
    requires { Unit {0} }
{
    let (apple, pear, two) = (Key::new(b"apple")?, Key::new(b"pear")?, Value::new(b"2")?);
    read(rt, client, &apple)?;
    change(rt, client, &apple, &pear, &two)?;
    count(rt, client, &apple, &pear, increment)?;
    try_both(rt, client, &apple, &two)?;
    println!(rt; "the guide has made {} steps", client.own())?;
    Ok(())
}

/// The first call loads the key, the second one finds its entry.
fn read(rt: &(impl Print + Wait), client: &mut Client<'_>, apple: &Key) -> anyhow::Result<()>
    requires { Unit {0} }
{
    let first = client.get(rt, apple)?;
    let again = client.get(rt, apple)?;
    println!(rt; "get apple: {first:?}, and again: {again:?}")?;
    Ok(())
}

/// Each change is written to the store, or deleted there, before the cache changes.
fn change(
    rt: &(impl Print + Wait),
    client: &mut Client<'_>,
    apple: &Key,
    pear: &Key,
    two: &Value,
) -> anyhow::Result<()>
    requires { Unit {0} }
{
    client.put(rt, pear, two)?;
    let removed = client.remove(rt, apple)?;
    let replaced = client.replace(rt, apple, two)?;
    println!(rt; "put pear, remove apple: {removed}, replace apple: {replaced}")?;
    Ok(())
}

/// An entry processor counts, once with an entry and once without.
fn count(
    rt: &(impl Print + Wait),
    client: &mut Client<'_>,
    apple: &Key,
    pear: &Key,
    increment: &mut Box<dyn EntryProcessor + Send + Drop>,
) -> anyhow::Result<()>
    requires { Unit {0} }
{
    let three = client.invoke(rt, pear, increment, &[])?;
    let one = client.invoke(rt, apple, increment, &[])?;
    println!(rt; "increment pear: {three:?}, and apple: {one:?}")?;
    Ok(())
}

/// These calls don't wait: a `get` of a cached entry succeeds, and a change that has to be written is refused.
fn try_both(
    rt: &impl Print,
    client: &mut Client<'_>,
    apple: &Key,
    two: &Value,
) -> anyhow::Result<()>
    requires { Unit {0} }
{
    let cached = client.try_get(apple)?;
    let put = client.try_put(apple, two);
    println!(rt; "without waiting, get apple: {cached:?}, put apple: {put:?}")?;
    Ok(())
}
