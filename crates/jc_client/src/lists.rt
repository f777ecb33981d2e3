//! Clients made of sessions, and sessions taken from clients, a list at a time.
ghost use Rattle.std.specs.Prelude.{◌≡◌, All, IfOk, map};
ghost use Rattle.jc_cache.specs.Sessions.{IsOf, MayCall};

use crate::client::Client;
use jc_cache::{CacheOwner, Session};
use std::alloc::{AllocError, Global};

/// Makes a client of each of these sessions, in their order. An `Err` says that an allocation failed; then the sessions are
/// dropped.
///
/// Condition: the sessions may call the owner's cache, like those that it has given out.
pub fn clients<'a>(
    owner: &'a CacheOwner,
    alloc: Global,
    sessions: Vec<Session>,
) -> Result<Vec<Client<'a>>, AllocError>
    requires { All (λ s. MayCall owner.now.cache s) sessions.items }
    ensures sessions { IfOk result (λ r. map (λ c. c.session) r.items ≡ sessions.items) }
    ensures cache { IfOk result (λ r. All (λ c. c.cache.now ≡ owner.now.cache) r.items) }
{
    let cache = owner.cache();
    let mut clients = Vec::with_capacity(alloc, sessions.len())?;
    for session in sessions {
        clients.push_reserved(Client::new(cache, session));
    }
    Ok(clients)
}

/// Returns the sessions of these clients, in their order: a cache is [closed](CacheOwner::close) with all of its sessions. An
/// `Err` says that an allocation failed; then the clients are dropped.
///
/// Condition: the clients are of the owner's cache. A function of your own that is lent a client states this by
/// `ensures { client.new.cache ≡ client.old.cache }`.
pub fn sessions_of(
    owner: &CacheOwner,
    alloc: Global,
    clients: Vec<Client<'_>>,
) -> Result<Vec<Session>, AllocError>
    requires { All (λ c. c.cache.now ≡ owner.now.cache) clients.items }
    ensures sessions { IfOk result (λ r. r.items ≡ map (λ c. c.session) clients.entry.items) }
    ensures own { IfOk result (λ r. All (λ s. IsOf owner.entry.now.cache s) r.items) }
    ensures may { IfOk result (λ r. All (λ s. MayCall owner.entry.now.cache s) r.items) }
{
    let mut sessions = Vec::with_capacity(alloc, clients.len())?;
    for client in clients {
        sessions.push_reserved(client.into_session());
    }
    Ok(sessions)
}
