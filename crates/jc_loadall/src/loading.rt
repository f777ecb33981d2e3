//! `loadAll` by many sessions.
ghost use Rattle.std.specs.Prelude.{◌≡◌, ◌==◌, ◌≤◌, ◌<◌, All, length};
ghost use Rattle.std.specs.List.{IsDistinct};
ghost use Rattle.std.specs.Cmp.Lexicographic.{pointwise};
ghost use Rattle.jc_cache.specs.Sessions.{Completes, MayCall};
ghost use Rattle.jc_bulk.specs.Bulk.{OrRefused};
ghost use Rattle.jc_bulk.specs.Outside.{bulk_behavior};
ghost use Rattle.jc_loadall.specs.Loading.{EndsInPieces, LoadsPiece, completion_of};
ghost use Rattle.jc_loadall.specs.Notes.{LoadsAndNotes};
ghost use Rattle.jc_loadall.specs.declared.limits.TheConstants.{PIECE_KEYS};

use crate::notes::PieceResult;
use crate::team::load_or_refuse;
use indexmap::IndexSet;
use jc_bulk::{BulkFault, load_keys};
use jc_cache::{Cache, Session};
use jc_outside::CompletionListener;
use jc_types::Key;
use std::alloc::Global;
use std::sync::Wait;
use std::thread::Threads;

/// Loads many keys by many sessions side by side (JSR 107, `javax.cache.Cache.loadAll`), whether or not the cache reads through. A
/// key that has an entry is loaded only if it is to be replaced. A value that is loaded is cached, and not written through; a key for
/// which nothing is found keeps what it has. A session without a loader loads nothing.
///
/// The keys are cut into pieces of [`PIECE_KEYS`](crate::PIECE_KEYS), in their order. Each session loads one piece after another,
/// each by a call of its own ([`load_keys`]), until none is left: the first session on the calling thread, each other one on a
/// thread of its own. A session for which no thread can be started leaves its share to the others. It returns once all have
/// ended.
///
/// An `Err` names each key that ended in a fault (`LoaderFailed`) or was refused, in the order of the keys; every other key is
/// loaded, if it was to be. If the call of a piece was refused whole, because an allocation failed, each key of the piece is
/// refused with `OutOfMemory`. The cause is that of the first piece that has one. Or the whole is refused, and nothing changes:
/// there are more than [`BULK_KEYS_MAX`](jc_types::BULK_KEYS_MAX) keys (`TooManyKeys`), or an allocation before the first piece
/// failed (`OutOfMemory`).
///
/// The listener is told once how the call ended, before it returns: of success, or of the cause.
///
/// Conditions: there is at least one session, and each may call the cache.
pub fn load_all<R: Wait + Threads + Sync>(
    alloc: Global,
    rt: &R,
    cache: &Cache,
    sessions: &mut [Session],
    keys: &IndexSet<Key>,
    replace: bool,
    listener: &mut Box<dyn CompletionListener + Send + Drop>,
) -> Result<(), BulkFault>
    requires some { 0 < length sessions.old }
    requires may { All (λ s. MayCall cache.now s) sessions.old }
    ensures may { All (λ s. MayCall cache.now s) sessions.new }
    ensures ended { OrRefused (EndsInPieces (LoadsPiece (bulk_behavior loads_all load_state writes_all deletes_all write_state) cache.now)
        keys.now.keys replace sessions.old) (length keys.now.keys) sessions.old result sessions.new }
    ensures told { hears listener.old (completion_of result) (listener_state listener.new)
        × (listener.new.vtable ≡ listener.old.vtable) }
{
    let load = |piece_keys: &IndexSet<Key>, session: &mut Session| -> PieceResult
        requires { MayCall cache.now session.now × (length piece_keys.now.keys ≤ PIECE_KEYS) × IsDistinct (pointwise ◌==◌) piece_keys.now.keys }
        ensures { Completes cache.entry.now session.exit.now
            (LoadsAndNotes (LoadsPiece (bulk_behavior loads_all load_state writes_all deletes_all write_state) cache.entry.now)
            replace piece_keys.now.keys session.entry.now result session.exit.now) }
    { load_piece(alloc, rt, cache, session, piece_keys, replace) };
    let ended = load_or_refuse(alloc, rt, &load, sessions, keys);
    tell(listener, &ended);
    ended
}

/// Tells the listener, once, how a call ended.
fn tell(listener: &mut Box<dyn CompletionListener + Send + Drop>, ended: &Result<(), BulkFault>)
    ensures { hears listener.old (completion_of ended.now) (listener_state listener.new)
        × (listener.new.vtable ≡ listener.old.vtable) }
{
    match ended {
        Ok(()) => listener.on_completion(),
        Err(fault) => listener.on_exception(fault.cause),
    }
}

/// Loads the keys of a piece, as the session's next call.
///
/// Conditions: the session may call the cache; the keys are no more than those of a piece, and they all differ.
pub(crate) fn load_piece<R: Wait>(
    alloc: Global,
    rt: &R,
    cache: &Cache,
    session: &mut Session,
    keys: &IndexSet<Key>,
    replace: bool,
) -> PieceResult
    requires may { MayCall cache.now session.old }
    requires keys { (length keys.now.keys ≤ PIECE_KEYS) × IsDistinct (pointwise ◌==◌) keys.now.keys }
    ensures { Completes cache.now session.new
        (LoadsAndNotes (LoadsPiece (bulk_behavior loads_all load_state writes_all deletes_all write_state) cache.now)
        replace keys.now.keys session.old result session.new) }
{
    PieceResult::of(load_keys(alloc, rt, cache, session, keys, replace))
}
