//! A whole service: a cache is opened, its clients work on threads of their own, and it is ended.
ghost use Rattle.std.specs.Prelude.{◌≡◌, length, map, IfOk, IfErr};
ghost use Rattle.jc_cache.specs.Closing.{HasEnded};
ghost use Rattle.jc_client.specs.Clients.{HasServed, HasWorked, IsServeRefusal, WorksEach, client_state};

use crate::client::Client;
use crate::lists::clients;
use jc_cache::{CacheOwner, Closed};
use jc_outside::Outside;
use jc_types::{Config, Refusal};
use std::alloc::{AllocError, Global};
use std::marker::{Send, Sync};
use std::sync::Wait;
use std::thread::{self, Threads};

/// The work of a service with each client of its cache.
///
/// Unless an author gives another relation, it holds of every call. So an author who states nothing leaves out the `ghost` lines.
pub trait Service<R: Wait, X> {
    ghost use Rattle.jc_client.specs.Clients.{ClientState};

    /// One call of `work`: the client's state before it, the returned value, and the client's state after it.
    ghost works: { Self → ClientState → X → ClientState → Type 0 } = { λ service before returned after. Unit {0} };

    /// Does the work of one client, on a thread of its own. The session's number (`client.caller().session`) says which client it
    /// is. [`serve`] returns the result to its caller.
    fn work(&self, rt: &R, client: &mut Client<'_>) -> X
        requires { Unit {0} }
        ensures { works self.now (client_state client.old.session) result (client_state client.new.session) };
}

/// Makes each of these clients do its work once, on a thread of its own if one can be made, and waits until all have ended. It
/// returns their results, in the order of the clients. The clients are dropped after their work, so only [`CacheOwner::end`] can
/// end the cache.
///
/// An `Err` says that an allocation failed; then some of the clients may not have worked. It may wait, as long as the work does.
pub fn work_all<R: Threads + Wait + Sync, X: Send + Drop, S: Service<R, X> + Sync>(
    rt: &R,
    service: &S,
    clients: Vec<Client<'_>>,
) -> Result<Vec<X>, AllocError>
    requires { Unit {0} }
    ensures each { IfOk result (λ v. WorksEach (S.works service.now) (map client_state (map (λ c. c.session) clients.entry.items)) v.items) }
{
    thread::map_vec(
        rt,
        clients,
        &|client: Client<'_>| -> X
            ensures { HasWorked (S.works service.entry.now) (client_state client.entry.session) result }
        { work_by(rt, service, client) },
    )
}

/// Runs a whole service. It opens a cache of this shape that lives on, gives out a session for each loader and writer in
/// `outside`, and runs a client for each session, each on a thread of its own if one can be made. When all have ended, it ends
/// the cache. It returns the clients' results in the order of the sessions, and the closed cache, which has the statistics.
///
/// It is refused as by [`CacheOwner::living`], [`CacheOwner::enlist_all`] and [`CacheOwner::end`], and as `OutOfMemory` if there
/// is no memory for the clients' results; then some of the clients may not have worked.
///
/// It may wait, as long as the clients' work does.
pub fn serve<R: Threads + Wait + Sync, X: Send + Drop, S: Service<R, X> + Sync>(
    rt: &R,
    alloc: Global,
    config: &Config,
    outside: Vec<Outside>,
    service: &S,
) -> Result<(Closed, Vec<X>), Refusal>
    requires { Unit {0} }
    ensures served { IfOk result (λ r. HasServed (S.works service.now) config.now (length outside.items)
        (λ owner. HasEnded owner r.0.stripes.items r.0.outside.items r.0.seats.items r.0.legal) r.1.items) }
    ensures refused { IfErr result (λ r. IsServeRefusal config.now outside.items r) }
{
    let mut owner = CacheOwner::living(alloc, config)?;
    let sessions = owner.enlist_all(alloc, outside)?;
    let Ok(clients) = clients(&owner, alloc, sessions) else {
        return Err(Refusal::OutOfMemory);
    };
    let Ok(returned) = work_all(rt, service, clients) else {
        return Err(Refusal::OutOfMemory);
    };
    match owner.end(alloc) {
        Ok(closed) => Ok((closed, returned)),
        Err(fault) => Err(fault.refusal),
    }
}

/// Makes this client do its work.
fn work_by<R: Wait, X, S: Service<R, X>>(rt: &R, service: &S, client: Client<'_>) -> X
    requires { Unit {0} }
    ensures { HasWorked (S.works service.now) (client_state client.entry.session) result }
{
    let mut client = client;
    service.work(rt, &mut client)
}
