//! The calls of a cache that wait for nobody, while another session has the stripe.
//!
//! Nobody outside is called while a stripe is taken, so no loader or listener can keep one. It is taken again and again instead, by a
//! session on another thread that reads what was counted, which appends nothing. With both options off and no key reserved, nothing
//! else makes these calls `Busy`.
use super::*;
use jc_client::{clients, work_all};
use std::sync::atomic::AtomicBool;
use std::sync::atomic::Ordering::SeqCst;
use std::thread::yield_now;

/// One stripe, whose history isn't filled by all tries.
const LONG: Config = Config {
    stripes: 1,
    history: 65_536,
    ..CONFIG
};

/// How often one session takes the stripe, and how often a thread waits for it to begin, before it gives up.
const TURNS: u64 = 1_000_000_000;

/// How often each call is tried before it gives up.
const TRIES: u64 = 20_000;

/// How often a thread rests after a try that found the stripe free.
const REST: u64 = 100;

/// The calls that wait for nobody.
#[derive(Clone, Copy)]
enum Call {
    Put,
    Get,
    ContainsKey,
}

/// Two sessions: the first takes the stripe, and the other one tries.
#[derive(Drop)]
struct Trial {
    key: Key,
    value: Value,
    begun: AtomicBool,
    over: AtomicBool,
}

impl Trial {
    /// Takes the stripe again and again, until the tries are over. It says whether they are.
    fn keeps<R: Wait>(&self, rt: &R, client: &mut Client<'_>) -> bool
        requires { Unit {0} }
    {
        for _ in 0..TURNS {
            let _counted = client.statistics(rt);
            self.begun.store(true, SeqCst);
            if self.over.load(SeqCst) {
                return true;
            }
        }
        false
    }

    /// Waits until the other session takes the stripe.
    fn waits(&self) {
        for _ in 0..TURNS {
            if self.begun.load(SeqCst) {
                return;
            }
            yield_now();
        }
    }

    /// Why a call was refused, if it was.
    fn refusal(&self, client: &mut Client<'_>, call: Call) -> Option<Refusal>
        requires { Unit {0} }
    {
        let (cache, session) = (client.cache, &mut client.session);
        match call {
            Call::Put => cache.try_put(session, &self.key, &self.value).err(),
            Call::Get => cache.try_get(session, &self.key).err(),
            Call::ContainsKey => cache.try_contains_key(session, &self.key).err(),
        }
    }

    /// Whether a call meets the taken stripe. Till then it is done, each time.
    fn is_busy(&self, client: &mut Client<'_>, call: Call) -> bool
        requires { Unit {0} }
    {
        for _ in 0..TRIES {
            if let Some(why) = self.refusal(client, call) {
                return why == Refusal::Busy;
            }
            rest();
        }
        false
    }
}

fn rest() {
    for _ in 0..REST {
        yield_now();
    }
}

impl<R: Wait> Service<R, bool> for Trial {
    fn work(&self, rt: &R, client: &mut Client<'_>) -> bool {
        if client.caller().session == 0 {
            return self.keeps(rt, client);
        }
        self.waits();
        let put = self.is_busy(client, Call::Put);
        let get = self.is_busy(client, Call::Get);
        let contains_key = self.is_busy(client, Call::ContainsKey);
        self.over.store(true, SeqCst);
        put && get && contains_key
    }
}

/// Each is refused as `Busy` while another session has the stripe.
#[test]
fn tries_are_busy_while_another_session_has_the_stripe(rt: HostRuntime) {
    let alloc = rt.alloc();
    let trial = Trial {
        key: Key::new(b"a").expect(&rt, "a key"),
        value: Value::new(b"1").expect(&rt, "a value"),
        begun: AtomicBool::new(false),
        over: AtomicBool::new(false),
    };
    let mut owner = CacheOwner::new(alloc, &LONG).expect(&rt, "a cache");
    let outside = nothing(&rt, alloc, 2);
    let sessions = owner.enlist_all(alloc, outside).expect(&rt, "sessions");
    let clients = clients(&owner, alloc, sessions).expect(&rt, "clients");
    for is_so in work_all(&rt, &trial, clients).expect(&rt, "memory") {
        is(&rt, is_so, true);
    }
}
