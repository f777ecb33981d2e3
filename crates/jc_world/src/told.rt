//! What a clear and an invalidation of a key leave, as laws over every run.
ghost use Rattle.jc_world.specs.Told.{TellsCleared, TellsLoaded, StaysTold, StaysCoherentTold, StaysCoherentCleared, StaysCoherentLoaded, ForgetsCleared};
ghost use Rattle.jc_world.specs.Invalidated.{TellsInvalidated, MarksReserved, StaysCoherentInvalidated, ForgetsInvalidated};

use jc_stripe::phase_laws::{keeps_reserved, stays_reached};

/// A clear of a key that is done leaves nothing of it in the cache: no entry, and no reservation. So the key isn't untold then, whatever
/// others have written before: if a service clears a key once it is told of a foreign write, what is cached for the key afterwards is
/// the store's, by [`stays_coherent`](crate::headline::stays_coherent). A clear of a reserved key isn't done: it is refused as `Busy`.
pub fn tells_cleared()
    ensures { TellsCleared }
{
    stays_reached();
    keeps_reserved();
}

/// Nor is a key untold once a `loadAll` of it is committed, with `replace` or not, if the store still holds what the loader answered: so
/// a key whose write has failed is told by a load of it.
pub fn tells_loaded()
    ensures { TellsLoaded }
{
    stays_reached();
    keeps_reserved();
}

/// With write-through on, until the cache is opened again: a key that isn't untold, and about which nobody has lied since it was
/// reserved, stays so as long as nobody else writes it, and no loader and no writer that is asked for it lies.
pub fn stays_told()
    ensures { StaysTold }
{
    stays_reached();
    keeps_reserved();
}

/// So from any moment on at which a key isn't untold, as long as nobody else writes it and nobody who is asked for it lies: what is
/// cached for it is the store's, unless its writer has changed the store and its call isn't committed. Write-through is to be on, and
/// the cache isn't opened again. Who lies about other keys, or writes them, doesn't count.
pub fn stays_coherent_told()
    ensures { StaysCoherentTold }
{
    stays_reached();
    keeps_reserved();
}

/// So it is from a clear of a key that is done on. That is what a service rests on that runs as several instances before one store: each
/// foreign write of a key is followed by a clear of it, and from the last clear on the cached value is the store's.
pub fn stays_coherent_cleared()
    ensures { StaysCoherentCleared }
{
    stays_reached();
    keeps_reserved();
}

/// And so it is from a load of the key on whose answer the store still has. That is what a service rests on whose writer has failed, as
/// after a crash of the store: once the keys whose writes failed are loaded anew, with `replace`, all is coherent again.
pub fn stays_coherent_loaded()
    ensures { StaysCoherentLoaded }
{
    stays_reached();
    keeps_reserved();
}

/// Whatever parts of a history came before a clear of a key, what is cached for the key later is what the parts since then leave of an
/// empty cache. So no later step finds, or answers from, what was loaded or put before it.
pub fn forgets_cleared()
    ensures { ForgetsCleared }
{}

/// After an invalidation of a key that isn't reserved, and after the end of a reservation whose key was invalidated meanwhile, the cache
/// has nothing of the key: no entry, and no reservation. So the key isn't untold then, whatever others have written before: a service that
/// invalidates a key once it is told of a foreign write needs no other call. Unlike a clear an invalidation is never refused as `Busy`.
pub fn tells_invalidated()
    ensures { TellsInvalidated }
{
    stays_reached();
    keeps_reserved();
}

/// An invalidation of a reserved key marks it, whatever room the history has.
pub fn marks_reserved()
    ensures { MarksReserved }
{
    stays_reached();
    keeps_reserved();
}

/// So from an invalidation of a key that isn't reserved on, or else from the end of that reservation, as long as nobody else writes the key
/// and nobody who is asked for it lies: what is cached for it is the store's, unless its writer has changed the store and its call isn't
/// committed. Write-through is to be on, and the cache isn't opened again.
pub fn stays_coherent_invalidated()
    ensures { StaysCoherentInvalidated }
{
    stays_reached();
    keeps_reserved();
}

/// Whatever parts of a history came before the eviction of an invalidated key, what is cached for the key later is what the parts since
/// then leave of an empty cache. So no later step finds, or answers from, what was loaded or put before it.
pub fn forgets_invalidated()
    ensures { ForgetsInvalidated }
{}
