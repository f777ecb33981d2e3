//! `loadAll` by many clients.
ghost use Rattle.std.specs.Prelude.{◌≡◌, ◌==◌, ◌≤◌, ◌<◌, [], length, map};
ghost use Rattle.std.specs.List.{IsDistinct};
ghost use Rattle.std.specs.Cmp.Lexicographic.{pointwise};
ghost use Rattle.jc_bulk.specs.Bulk.{OrRefused};
ghost use Rattle.jc_bulk.specs.Outside.{bulk_behavior};
ghost use Rattle.jc_loadall.specs.Loading.{ClientLoadsPiece, EndsInPieces, OnReturn, completion_of, of_clients};
ghost use Rattle.jc_loadall.specs.Notes.{LoadsAndNotes};
ghost use Rattle.jc_loadall.specs.declared.limits.TheConstants.{PIECE_KEYS};

use crate::fault::LoadAllFault;
use crate::loading::load_piece;
use crate::notes::PieceResult;
use crate::team::load_or_refuse;
use indexmap::IndexSet;
use jc_bulk::BulkFault;
use jc_client::Client;
use jc_outside::CompletionListener;
use jc_types::Key;
use std::alloc::Global;
use std::sync::Wait;
use std::thread::Threads;

/// Loads many keys by many clients side by side (JSR 107, `javax.cache.Cache.loadAll`). Each client loads by its own session on
/// its own cache; a service's clients share one. What is loaded, and how the clients share it, is as by
/// [`load_all`](crate::load_all) of sessions. The call has no condition.
///
/// It waits until all clients have ended, each as long as its loader does: the first client on the calling thread, each other one
/// on a thread of its own, if one can be started. It takes memory before the first piece, and for each piece.
///
/// An `Err` is [`Failed`](LoadAllFault::Failed), as the fault of `load_all`: it names each key that failed, and every other key
/// is loaded, if it was to be; or the whole is refused, and nothing changes. Or it is [`NoClient`](LoadAllFault::NoClient), if
/// the list of clients is empty: then there was no call, and the listener hears nothing.
///
/// Otherwise the listener is told once how the call ended, before it returns: of success, or of the cause.
pub fn load_all_by_clients<'a, R: Wait + Threads + Sync, L: CompletionListener>(
    alloc: Global,
    rt: &R,
    clients: &mut [Client<'a>],
    keys: &IndexSet<Key>,
    replace: bool,
    listener: &mut L,
) -> Result<(), LoadAllFault>
    ensures caches { map (λ c. c.cache) clients.new ≡ map (λ c. c.cache) clients.old }
    ensures ended { OnReturn result ((clients.old ≡ []) × (listener.new ≡ listener.old)) (λ ended. (0 < length clients.old)
        × OrRefused (EndsInPieces (ClientLoadsPiece (bulk_behavior loads_all load_state writes_all deletes_all write_state))
        keys.now.keys replace clients.old) (length keys.now.keys) clients.old ended clients.new
        × L.hears listener.old (completion_of ended) (L.listener_state listener.new)) }
{
    if clients.is_empty() {
        return Err(LoadAllFault::NoClient);
    }
    let load = |piece_keys: &IndexSet<Key>, client: &mut Client<'_>| -> PieceResult
        requires { (length piece_keys.now.keys ≤ PIECE_KEYS) × IsDistinct (pointwise ◌==◌) piece_keys.now.keys }
        ensures { LoadsAndNotes (ClientLoadsPiece (bulk_behavior loads_all load_state writes_all deletes_all write_state))
            replace piece_keys.now.keys client.entry.now result client.exit.now }
    { load_client_piece(alloc, rt, client, piece_keys, replace) };
    let ended = load_or_refuse(alloc, rt, &load, clients, keys);
    tell(listener, &ended);
    of_clients(ended)
}

/// The result of a call of clients.
fn of_clients(ended: Result<(), BulkFault>) -> Result<(), LoadAllFault>
    ensures { result ≡ of_clients ended }
{
    match ended {
        Ok(()) => Ok(()),
        Err(fault) => Err(LoadAllFault::Failed(fault)),
    }
}

/// Tells the listener, once, how a call ended.
fn tell<L: CompletionListener>(listener: &mut L, ended: &Result<(), BulkFault>)
    ensures { L.hears listener.old (completion_of ended.now) (L.listener_state listener.new) }
{
    match ended {
        Ok(()) => listener.on_completion(),
        Err(fault) => listener.on_exception(fault.cause),
    }
}

/// Loads the keys of a piece, as the client's next call.
///
/// Conditions: the keys are no more than those of a piece, and they all differ.
fn load_client_piece<R: Wait>(
    alloc: Global,
    rt: &R,
    client: &mut Client<'_>,
    keys: &IndexSet<Key>,
    replace: bool,
) -> PieceResult
    requires { (length keys.now.keys ≤ PIECE_KEYS) × IsDistinct (pointwise ◌==◌) keys.now.keys }
    ensures { LoadsAndNotes (ClientLoadsPiece (bulk_behavior loads_all load_state writes_all deletes_all write_state))
        replace keys.now.keys client.old result client.new }
{
    load_piece(alloc, rt, client.cache, &mut client.session, keys, replace)
}
