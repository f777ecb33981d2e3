//! Calls of sessions, and of caches with their sessions, in which an allocation is refused, and what they leave then. The line before a
//! call is `> CALL KEYS`, with how many keys it names.
ghost use Rattle.std.specs.Prelude.{◌≡◌, ◌∷◌, [], All};
ghost use Rattle.jc_cache.specs.Meeting.{TellEach};
ghost use Rattle.jc_cache.specs.Sessions.{IsOf, MayCall};

mod calls;
mod entering;
mod listening;
mod scenes;
mod words;

use super::{is, say};
use calls::Ended;
use entering::{Brought, bring, entered, push};
use jc_cache::{
    Cache, CacheLoader, CacheOwner, CacheWriter, CloseFault, Closed, EntryProcessor, Event,
    Session, SessionFault,
};
use jc_loadall::load_all;
use jc_model::Cause;
use jc_types::{Config, Key, Refusal, Value};
use listening::Hearing;
use scenes::{State, Way, loader, played, state_of, writer};
use std::alloc::Global;
use std::process::Abort;
use std::sync::Wait;
use std::thread::Threads;
use words::Line;

/// What a session brings, and the processor that its calls run.
pub type Loader = Box<dyn CacheLoader + Send + Drop>;

pub type Writer = Box<dyn CacheWriter + Send + Drop>;

pub type Processor = Box<dyn EntryProcessor + Send + Drop>;

/// One stripe. Both options are on.
const SHAPE: Config = Config {
    stripes: 1,
    capacity: 128,
    history: 400,
    read_through: true,
    write_through: true,
};

/// Both options are off.
const ALONE: Config = Config {
    read_through: false,
    write_through: false,
    ..SHAPE
};

/// The calls of one key. None of them answers that memory is short.
const SINGLE: [&str; 6] = [
    "get a",
    "get c",
    "contains a",
    "put c=1",
    "remove a",
    "invoke c",
];

/// Those that wait for nobody, with both options off.
const TRYING: [&str; 3] = ["tryget a", "trycontains a", "tryput c=1"];

/// The calls with many keys.
const BULK: [&str; 8] = [
    "getall a b c d",
    "putall a=1 c=3 d=4",
    "removeall a c",
    "removeevery",
    "clear",
    "keep a c d",
    "replace a c d",
    "invokeall a c d",
];

/// Those of more keys than a stripe reserves at once: they need a second round.
const ROUNDS: [&str; 5] = ["getall", "putall", "removeall", "replace", "invokeall"];

/// More keys than a stripe reserves at once.
const MANY: &str = "\
k00=1 k01=1 k02=1 k03=1 k04=1 k05=1 k06=1 k07=1 k08=1 k09=1 k10=1 k11=1 k12=1 k13=1 k14=1 k15=1 k16=1 k17=1 k18=1 k19=1 k20=1 \
k21=1 k22=1 k23=1 k24=1 k25=1 k26=1 k27=1 k28=1 k29=1 k30=1 k31=1 k32=1 k33=1 k34=1 k35=1 k36=1 k37=1 k38=1 k39=1 k40=1 k41=1 \
k42=1 k43=1 k44=1 k45=1 k46=1 k47=1 k48=1 k49=1 k50=1 k51=1 k52=1 k53=1 k54=1 k55=1 k56=1 k57=1 k58=1 k59=1 k60=1 k61=1 k62=1 \
k63=1 k64=1 k65=1 k66=1 k67=1 k68=1 k69=1";

/// How many entries were lost for lack of memory.
fn lost_entries(events: &[Event]) -> u64 {
    let mut lost = 0u64;
    for event in events {
        if let Event::Evict {
            cause: Cause::Memory,
            ..
        } = event
        {
            lost = lost.saturating_add(1);
        }
    }
    lost
}

/// How many keys were refused for lack of memory.
fn refused_keys(ended: &Ended) -> u64 {
    let mut refused = 0u64;
    for (_key, why) in &ended.failed {
        if *why == Refusal::OutOfMemory {
            refused = refused.saturating_add(1);
        }
    }
    refused
}

/// How a call has ended, by what it has left, and what is left without it and by one that has all memory.
fn end_of(
    rt: &impl Abort,
    ended: &Ended,
    left: &State,
    without: &State,
    with_all: &State,
) -> &'static str {
    if ended.cause == Some(Refusal::OutOfMemory) && ended.failed.is_empty() {
        assert!(rt;
            left.is_as(without),
            "a call that is refused whole changes nothing"
        );
        return "refused whole";
    }
    let refused = refused_keys(ended);
    if refused > 0 {
        let (own, all) = (left.own.saturating_add(refused), with_all.own);
        assert!(rt; own == all, "a key that is refused has no step");
        return "some keys refused";
    }
    is(rt, ended.cause, None);
    if left.is_as(with_all) {
        return "done";
    }
    is(rt, left.own, with_all.own);
    assert!(rt;
        lost_entries(&left.events) > 0,
        "an entry may be lost, and no more"
    );
    "done, an entry is not kept"
}

/// Plays a scene three times: with its call, without it, and again with it.
fn is_refused_well<R: Abort + Wait + Print>(
    rt: &R,
    alloc: Global,
    shape: &Config,
    line: &Line,
) -> &'static str {
    let (ended, left) = played(rt, alloc, shape, line, Way::Printed);
    let ended = ended.expect(rt, "a call");
    let (_no_call, without) = played(rt, alloc, shape, line, Way::LeftOut);
    let (_all_memory, with_all) = played(rt, alloc, shape, line, Way::Made);
    end_of(rt, &ended, &left, &without, &with_all)
}

/// The calls of a list, each on a cache of its own.
fn plays_each<R: Abort + Wait + Print>(rt: &R, alloc: Global, shape: &Config, texts: &[&str]) {
    for text in texts {
        let line = Line::of(rt, alloc, text);
        say_end(rt, is_refused_well(rt, alloc, shape, &line));
    }
}

fn say_end(rt: &(impl Abort + Print), end: &str) {
    println!(rt; "< {end}").ok().expect(rt, "output");
}

/// The calls of one key. None is refused for lack of memory.
#[test]
fn calls_of_one_key(rt: HostRuntime) {
    let alloc = rt.alloc();
    plays_each(&rt, alloc, &SHAPE, &SINGLE);
    plays_each(&rt, alloc, &ALONE, &TRYING);
}

#[test]
fn calls_with_many_keys(rt: HostRuntime) {
    plays_each(&rt, rt.alloc(), &SHAPE, &BULK);
}

#[test]
fn calls_of_two_rounds(rt: HostRuntime) {
    let alloc = rt.alloc();
    for word in ROUNDS {
        let line = Line::new(&rt, alloc, word, MANY);
        say_end(&rt, is_refused_well(&rt, alloc, &SHAPE, &line));
    }
}

/// A cache that finds no memory isn't made.
#[test]
fn makes_a_cache(rt: HostRuntime) {
    say(&rt, "> new");
    let made = CacheOwner::new(rt.alloc(), &SHAPE).err();
    say(&rt, "=");
    match made {
        None => say_end(&rt, "done"),
        Some(why) => {
            is(&rt, why, Refusal::OutOfMemory);
            say_end(&rt, "refused whole");
        }
    }
}

/// A session is the first one of its cache.
fn is_first(rt: &impl Abort, session: &Session) {
    is(rt, session.caller().session, 0);
    is(rt, session.own(), 0);
}

/// Brings the boxes that came back again.
fn enters_again(rt: &impl Abort, alloc: Global, owner: &mut CacheOwner, fault: SessionFault) {
    let SessionFault {
        refusal,
        loader,
        writer,
    } = fault;
    is(rt, refusal, Refusal::OutOfMemory);
    is(rt, (loader.is_some(), writer.is_some()), (true, true));
    let session = owner.session(alloc, loader, writer).ok();
    is_first(rt, &session.expect(rt, "memory"));
}

/// A session that finds no memory isn't given out, and both boxes come back.
#[test]
fn gives_out_a_session(rt: HostRuntime) {
    let alloc = rt.alloc();
    let mut owner = CacheOwner::new(alloc, &SHAPE).ok().expect(&rt, "memory");
    let (loader, writer) = (loader(&rt, alloc), writer(&rt, alloc));
    say(&rt, "> session");
    let given = owner.session(alloc, Some(loader), Some(writer));
    say(&rt, "=");
    match given {
        Ok(session) => {
            is_first(&rt, &session);
            say_end(&rt, "done");
        }
        Err(fault) => {
            enters_again(&rt, alloc, &mut owner, fault);
            say_end(&rt, "refused whole");
        }
    }
}

/// Closes a cache that was handed back with its session.
fn closes_again(rt: &impl Abort, alloc: Global, fault: CloseFault)
    requires { All (λ s. IsOf fault.owner.cache s) fault.sessions.items }
{
    let CloseFault {
        refusal,
        owner,
        sessions,
    } = fault;
    is(rt, refusal, Refusal::OutOfMemory);
    is(rt, sessions.len(), 1);
    let closed = owner.close(alloc, sessions).ok().expect(rt, "memory");
    has_one_step(rt, &state_of(rt, alloc, &closed, 1));
}

/// What is left of one put.
fn has_one_step(rt: &impl Abort, state: &State) {
    is(rt, (state.entries.len(), state.events.len()), (1, 1));
}

/// A list of one session.
fn only(rt: &impl Abort, alloc: Global, session: Session) -> Vec<Session>
    ensures { result.items ≡ session ∷ [] }
{
    let mut sessions = Vec::new(alloc);
    push(rt, &mut sessions, session);
    sessions
}

fn puts<R: Abort + Wait>(rt: &R, cache: &Cache, session: &mut Session)
    requires { MayCall cache.now session.old }
    ensures { MayCall cache.now session.new }
{
    let (a, one) = (words::key(rt, "a"), words::value(rt, "1"));
    is(rt, cache.put(rt, session, &a, &one), Ok(()));
}

/// Closes a cache with its one session, which has made a put.
fn closes_once<R: Abort + Print>(rt: &R, alloc: Global, owner: CacheOwner, session: Session)
    requires { MayCall owner.cache session }
{
    let sessions = only(rt, alloc, session);
    say(rt, "> close");
    match owner.close(alloc, sessions) {
        Ok(closed) => {
            say(rt, "=");
            has_one_step(rt, &state_of(rt, alloc, &closed, 1));
            say_end(rt, "done");
        }
        Err(fault) => {
            say(rt, "=");
            closes_again(rt, alloc, fault);
            say_end(rt, "refused whole");
        }
    }
}

/// Makes a put, and closes the cache.
fn puts_and_closes<R: Abort + Wait + Print>(
    rt: &R,
    alloc: Global,
    owner: CacheOwner,
    session: Session,
)
    requires { MayCall owner.cache session }
{
    let mut session = session;
    puts(rt, owner.cache(), &mut session);
    closes_once(rt, alloc, owner, session);
}

/// A cache that finds no memory to be closed comes back with its sessions, as it was.
#[test]
fn closes(rt: HostRuntime) {
    let alloc = rt.alloc();
    let mut owner = CacheOwner::new(alloc, &SHAPE).ok().expect(&rt, "memory");
    let (loader, writer) = (loader(&rt, alloc), writer(&rt, alloc));
    match owner.session(alloc, Some(loader), Some(writer)) {
        Ok(session) => puts_and_closes(&rt, alloc, owner, session),
        Err(_fault) => panic!(rt; "memory"),
    }
}

/// Opens a closed cache again, whose one session has made a put.
fn opens_closed<R: Abort + Print>(rt: &R, alloc: Global, closed: Closed) {
    say(rt, "> reopen");
    let again = CacheOwner::reopen(alloc, closed, &SHAPE);
    say(rt, "=");
    match again {
        Ok(reopened) => {
            is(rt, (reopened.dropped.len(), reopened.outside.len()), (0, 1));
            say_end(rt, "done");
        }
        Err(fault) => {
            is(rt, fault.refusal, Refusal::OutOfMemory);
            is(rt, fault.closed.outside.len(), 1);
            has_one_step(rt, &state_of(rt, alloc, &fault.closed, 1));
            say_end(rt, "refused whole");
        }
    }
}

/// Makes a put, closes the cache, and opens it again.
fn puts_and_opens_again<R: Abort + Wait + Print>(
    rt: &R,
    alloc: Global,
    owner: CacheOwner,
    session: Session,
)
    requires { MayCall owner.cache session }
{
    let mut session = session;
    puts(rt, owner.cache(), &mut session);
    let sessions = only(rt, alloc, session);
    let closed = owner.close(alloc, sessions).ok().expect(rt, "memory");
    opens_closed(rt, alloc, closed);
}

/// A closed cache that finds no memory to be opened again comes back as it was.
#[test]
fn opens_again(rt: HostRuntime) {
    let alloc = rt.alloc();
    let mut owner = CacheOwner::new(alloc, &SHAPE).ok().expect(&rt, "memory");
    let (loader, writer) = (loader(&rt, alloc), writer(&rt, alloc));
    match owner.session(alloc, Some(loader), Some(writer)) {
        Ok(session) => puts_and_opens_again(&rt, alloc, owner, session),
        Err(_fault) => panic!(rt; "memory"),
    }
}

/// Keys of two pieces: c, d and more are missing.
const PIECES: &str = "a b c d e f g h i j k l m n o p q r s t";

/// What each of so many sessions brings.
fn brought(rt: &impl Abort, alloc: Global, count: usize) -> Vec<Brought> {
    let mut all = Vec::new(alloc);
    for _ in 0..count {
        bring(rt, &mut all, loader(rt, alloc), writer(rt, alloc));
    }
    all
}

/// Loads keys of two pieces by all sessions together. The listener is told once.
fn loads<R: Abort + Wait + Threads + Sync + Print>(
    rt: &R,
    alloc: Global,
    cache: &Cache,
    sessions: &mut Vec<Session>,
) -> Ended
    requires { All (MayCall cache.now) sessions.old.items }
    ensures { All (MayCall cache.now) sessions.new.items }
{
    let count = sessions.len();
    assert!(rt; count > 0, "no session");
    let line = Line::new(rt, alloc, "loadall", PIECES);
    let hearing = Hearing::new(rt, alloc);
    let mut listener = hearing.listener(rt, alloc);
    say_loads(rt, count);
    let all = sessions.as_mut_slice();
    let loaded = load_all(alloc, rt, cache, all, &line.keys, false, &mut listener);
    say(rt, "=");
    let ended = Ended::of(alloc, loaded);
    hearing.told_once(rt, ended.cause.is_none());
    ended
}

fn say_loads(rt: &(impl Abort + Print), sessions: usize) {
    println!(rt; "> loadall 20 by {sessions}")
        .ok()
        .expect(rt, "output");
}

/// How many steps sessions have made.
fn own_of(sessions: &[Session]) -> u64 {
    let mut own = 0u64;
    for session in sessions {
        own = own.saturating_add(session.own());
    }
    own
}

/// How a `loadAll` of 20 keys has ended. Each key that isn't refused is a step of a session, which is in the history, and an entry,
/// unless that was lost for lack of memory. Nothing else is there: so one that is refused whole leaves the cache empty.
fn loaded_end(rt: &impl Abort, ended: &Ended, left: &State) -> &'static str {
    let lost = lost_entries(&left.events);
    let steps = (left.events.len() as u64).saturating_sub(lost);
    let entries = (left.entries.len() as u64).saturating_add(lost);
    is(rt, (steps, entries), (left.own, left.own));
    if ended.cause.is_none() {
        is(rt, left.own, 20);
        return "done";
    }
    is(rt, ended.cause, Some(Refusal::OutOfMemory));
    if ended.failed.is_empty() {
        is(rt, (left.own, left.events.len()), (0, 0));
        return "refused whole";
    }
    is(rt, left.own.saturating_add(refused_keys(ended)), 20);
    "some keys refused"
}

/// A `loadAll` by so many sessions, in two pieces, and what it leaves. A piece that finds no memory has its keys refused, and the
/// others are loaded.
fn loads_by<R: Abort + Wait + Threads + Sync + Print>(rt: &R, alloc: Global, count: usize) {
    let mut owner = CacheOwner::new(alloc, &SHAPE).ok().expect(rt, "memory");
    let brought = brought(rt, alloc, count);
    let mut sessions = entered(rt, alloc, &mut owner, brought);
    let ended = loads(rt, alloc, owner.cache(), &mut sessions);
    let own = own_of(&sessions);
    let closed = owner.close(alloc, sessions).ok().expect(rt, "memory");
    let left = state_of(rt, alloc, &closed, own);
    say_end(rt, loaded_end(rt, &ended, &left));
}

#[test]
fn loads_by_one(rt: HostRuntime) {
    loads_by(&rt, rt.alloc(), 1);
}

#[test]
fn loads_by_three(rt: HostRuntime) {
    loads_by(&rt, rt.alloc(), 3);
}

/// Two sessions meet, of which the first has put `a`. Both make no step by it, and the entry stays. That the hearer knows then what the
/// teller knows is what the check sees here, and no run: each call looks at the stripe itself.
fn meet<R: Abort + Wait + Print>(rt: &R, cache: &Cache, teller: &mut Session, hearer: &mut Session)
    requires teller { MayCall cache.now teller.old }
    requires hearer { MayCall cache.now hearer.old }
    ensures teller { MayCall cache.now teller.new }
    ensures hearer { MayCall cache.now hearer.new }
    ensures told { TellEach teller.old.seats.items hearer.old.seats.items
        teller.new.seats.items hearer.new.seats.items }
{
    say(rt, "> meet");
    cache.meet(rt, teller, hearer);
    say(rt, "=");
}

/// A session puts `a`, meets another one, and that one gets it: one step each.
fn puts_and_meets<R: Abort + Wait + Print>(
    rt: &R,
    cache: &Cache,
    teller: &mut Session,
    hearer: &mut Session,
)
    requires teller { MayCall cache.now teller.old }
    requires hearer { MayCall cache.now hearer.old }
{
    puts(rt, cache, teller);
    meet(rt, cache, teller, hearer);
    is(rt, (teller.own(), hearer.own()), (1, 0));
    let a = words::key(rt, "a");
    let found = cache.get(rt, hearer, &a);
    is(rt, found, Ok(Some(words::value(rt, "1"))));
    is(rt, (teller.own(), hearer.own()), (1, 1));
    say_end(rt, "done");
}

/// A meeting takes no memory.
#[test]
fn meets(rt: HostRuntime) {
    let alloc = rt.alloc();
    let mut owner = CacheOwner::new(alloc, &ALONE).ok().expect(&rt, "memory");
    let (Ok(mut teller), Ok(mut hearer)) = (
        owner.session(alloc, None, None),
        owner.session(alloc, None, None),
    ) else {
        panic!(rt; "memory");
    };
    puts_and_meets(&rt, owner.cache(), &mut teller, &mut hearer);
}
