//! One call on a cache, and what it leaves: how many steps the session has made, the entries, and the history.
ghost use Rattle.jc_cache.specs.Sessions.{MayCall};

use super::calls::{Ended, call};
use super::entering::{increment, push};
use super::words::Line;
use super::*;
use indexmap::{IndexMap, IndexSet};
use jc_cache::{Answers, Closed, ClosedStripe, Event};

/// A loader that finds the value 1 at each key, and a writer that does nothing. They take no memory.
#[derive(Drop)]
pub struct Plain;

impl CacheLoader for Plain {
    ghost use Rattle.std.specs.Prelude.{[]};

    ghost load_state = { λ l. [] };

    ghost loads = { λ l key answer after. Unit {0} };

    ghost loads_all = { λ l keys answer answers after. Unit {0} };

    fn load(&mut self, _key: &Key) -> Result<Option<Value>, u32> {
        Ok(Value::new(b"1").ok())
    }

    fn load_all(&mut self, keys: &[Key], answers: &mut Answers) -> Result<(), u32> {
        let Ok(one) = Value::new(b"1") else {
            return Err(0);
        };
        for key in keys {
            let _was_asked = answers.put(key, &one);
        }
        Ok(())
    }
}

impl CacheWriter for Plain {
    ghost use Rattle.std.specs.Prelude.{[]};

    ghost write_state = { λ w. [] };

    ghost writes = { λ w key change answer after. Unit {0} };

    ghost writes_all = { λ w entries answer left after. Unit {0} };

    ghost deletes_all = { λ w keys answer left after. Unit {0} };

    fn write(&mut self, _key: &Key, _value: &Value) -> Result<(), u32> {
        Ok(())
    }

    fn delete(&mut self, _key: &Key) -> Result<(), u32> {
        Ok(())
    }

    fn write_all(&mut self, entries: &mut IndexMap<Key, Value>) -> Result<(), u32> {
        entries.clear();
        Ok(())
    }

    fn delete_all(&mut self, keys: &mut IndexSet<Key>) -> Result<(), u32> {
        keys.clear();
        Ok(())
    }
}

pub fn loader(rt: &impl Abort, alloc: Global) -> Loader {
    Box::new(alloc, Plain).ok().expect(rt, "memory")
}

pub fn writer(rt: &impl Abort, alloc: Global) -> Writer {
    Box::new(alloc, Plain).ok().expect(rt, "memory")
}

/// Whether the call of a scene is made, and printed.
#[derive(Clone, Copy, PartialEq)]
pub enum Way {
    /// It is left out.
    LeftOut,
    /// It is made.
    Made,
    /// It is made. Its word and how many keys it names are printed before it, and a line `=` after it.
    Printed,
}

/// What a scene has left.
#[derive(Drop)]
pub struct State {
    pub own: u64,
    pub entries: Vec<(Key, Value)>,
    pub events: Vec<Event>,
}

impl State {
    pub fn is_as(&self, other: &State) -> bool {
        self.own == other.own
            && self.entries.as_slice() == other.entries.as_slice()
            && self.events.as_slice() == other.events.as_slice()
    }
}

/// What each scene begins with.
const FIRST: &str = "put a=5";

const SECOND: &str = "put b=2";

/// Makes a call by a session, with a processor that counts.
fn make<R: Abort + Wait>(
    rt: &R,
    alloc: Global,
    cache: &Cache,
    session: &mut Session,
    processor: &mut Processor,
    text: &str,
)
    requires { MayCall cache.now session.old }
    ensures { MayCall cache.now session.new }
{
    let line = Line::of(rt, alloc, text);
    let ended = call(rt, alloc, cache, session, processor, &line);
    is(rt, ended.cause, None);
}

/// Makes the call of a scene.
fn make_or_leave<R: Abort + Wait + Print>(
    rt: &R,
    alloc: Global,
    cache: &Cache,
    session: &mut Session,
    line: &Line,
    way: Way,
) -> Option<Ended>
    requires { MayCall cache.now session.old }
    ensures { MayCall cache.now session.new }
{
    let mut processor = increment(rt, alloc);
    make(rt, alloc, cache, session, &mut processor, FIRST);
    make(rt, alloc, cache, session, &mut processor, SECOND);
    if way == Way::LeftOut {
        return None;
    }
    if way == Way::Printed {
        println!(rt; "> {} {}", line.word, line.keys.len())
            .ok()
            .expect(rt, "output");
    }
    let ended = call(rt, alloc, cache, session, &mut processor, line);
    if way == Way::Printed {
        say(rt, "=");
    }
    Some(ended)
}

fn entries_of(rt: &impl Abort, alloc: Global, stripe: &ClosedStripe) -> Vec<(Key, Value)> {
    let mut entries = Vec::new(alloc);
    stripe
        .append_entries(&mut entries)
        .ok()
        .expect(rt, "memory");
    entries
}

fn events_of(rt: &impl Abort, alloc: Global, stripe: &ClosedStripe) -> Vec<Event> {
    let mut events = Vec::new(alloc);
    stripe.append_events(&mut events).ok().expect(rt, "memory");
    events
}

/// What a closed cache of one stripe has.
pub fn state_of(rt: &impl Abort, alloc: Global, closed: &Closed, own: u64) -> State {
    assert!(rt; closed.legal);
    let stripe = closed.stripes.first().expect(rt, "a stripe");
    State {
        own,
        entries: entries_of(rt, alloc, stripe),
        events: events_of(rt, alloc, stripe),
    }
}

/// Ends a cache that has one session.
fn end(rt: &impl Abort, alloc: Global, owner: CacheOwner, session: Session) -> State
    requires { MayCall owner.cache session }
{
    let own = session.own();
    let mut sessions = Vec::new(alloc);
    push(rt, &mut sessions, session);
    let closed = owner.close(alloc, sessions).ok().expect(rt, "memory");
    state_of(rt, alloc, &closed, own)
}

/// What a scene leaves, and how its call has ended, if it was made.
pub fn played<R: Abort + Wait + Print>(
    rt: &R,
    alloc: Global,
    shape: &Config,
    line: &Line,
    way: Way,
) -> (Option<Ended>, State) {
    let mut owner = CacheOwner::new(alloc, shape).ok().expect(rt, "memory");
    let (loader, writer) = (loader(rt, alloc), writer(rt, alloc));
    match owner.session(alloc, Some(loader), Some(writer)) {
        Ok(session) => {
            let mut session = session;
            let cache = owner.cache();
            let ended = make_or_leave(rt, alloc, cache, &mut session, line, way);
            (ended, end(rt, alloc, owner, session))
        }
        Err(_fault) => panic!(rt; "memory"),
    }
}
