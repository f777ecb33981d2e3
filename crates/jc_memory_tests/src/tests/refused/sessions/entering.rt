//! Sessions of a cache, each with a loader and a writer.
ghost use Rattle.std.specs.Prelude.{◌≡◌, ◌++◌, ◌∷◌, [], All};
ghost use Rattle.jc_cache.specs.Sessions.{MayCall};

use super::*;
use jc_store::Increment;

/// What a session brings.
#[derive(Drop)]
pub struct Brought {
    pub loader: Loader,
    pub writer: Writer,
}

/// Adds what one more session brings.
pub fn bring(rt: &impl Abort, brought: &mut Vec<Brought>, loader: Loader, writer: Writer) {
    brought
        .push(Brought { loader, writer })
        .ok()
        .expect(rt, "memory");
}

pub fn push(rt: &impl Abort, sessions: &mut Vec<Session>, session: Session)
    ensures { sessions.new.items ≡ sessions.old.items ++ session ∷ [] }
{
    match sessions.push(session) {
        Ok(()) => {}
        Err(_failed) => panic!(rt; "memory"),
    }
}

/// One more session.
fn enter(
    rt: &impl Abort,
    alloc: Global,
    owner: &mut CacheOwner,
    sessions: &mut Vec<Session>,
    brought: Brought,
)
    requires { All (MayCall owner.old.cache) sessions.old.items }
    ensures { All (MayCall owner.new.cache) sessions.new.items }
{
    let Brought { loader, writer } = brought;
    let Ok(session) = owner.session(alloc, Some(loader), Some(writer)) else {
        panic!(rt; "no session");
    };
    push(rt, sessions, session);
}

/// A session for each of those that bring a loader and a writer.
pub fn entered(
    rt: &impl Abort,
    alloc: Global,
    owner: &mut CacheOwner,
    brought: Vec<Brought>,
) -> Vec<Session>
    ensures { All (MayCall owner.new.cache) result.items }
{
    let mut sessions = Vec::new(alloc);
    for one in brought {
        enter(rt, alloc, owner, &mut sessions, one);
    }
    sessions
}

pub fn increment(rt: &impl Abort, alloc: Global) -> Processor {
    Box::new(alloc, Increment).ok().expect(rt, "memory")
}
