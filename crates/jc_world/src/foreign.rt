//! Foreign keys: others have written them in the store, or a loader or a writer has lied about them, and the cache may have something of
//! them that isn't the store's.
ghost use Rattle.std.specs.Prelude.{◌≡◌, is_none, OnOk, OnErr, IfOk};
ghost use Rattle.jc_model.specs.Cache.{entry_at, with_entry};
ghost use Rattle.jc_world.specs.World.{with_foreign, without_foreign, with_doubt};
ghost use Rattle.jc_world.specs.Reopening.{foreign_reopened};

use jc_model::Contents;
use jc_types::{Key, Value};
use std::alloc::{AllocError, Global};

/// Somebody else gives the store a value, and the key is foreign then.
pub(crate) fn write_foreign(
    store: &mut Contents,
    foreign: &mut Contents,
    key: &Key,
    value: &Option<Value>,
) -> Result<(), AllocError>
    ensures store { OnOk result (store.new ≡ with_entry store.old key.now value.now) }
    ensures foreign { OnOk result (foreign.new ≡ with_foreign foreign.old key.now) }
    ensures store_err { OnErr result (store.new ≡ store.old) }
    ensures foreign_err { OnErr result (foreign.new ≡ foreign.old) }
{
    let is_new = mark(foreign, key)?;
    if store.set(key, *value).is_err() {
        forget(foreign, key, is_new);
        return Err(AllocError);
    }
    Ok(())
}

/// Makes a key foreign, and says whether it wasn't before.
fn mark(foreign: &mut Contents, key: &Key) -> Result<bool, AllocError>
    ensures ok { OnOk result (foreign.new ≡ with_foreign foreign.old key.now) }
    ensures new { IfOk result (λ is_new. is_new ≡ is_none (entry_at foreign.old key.now)) }
    ensures err { OnErr result (foreign.new ≡ foreign.old) }
{
    if foreign.get(key).is_some() {
        return Ok(false);
    }
    foreign.insert(key, Value::default())?;
    Ok(true)
}

/// If a loader or a writer has lied about a key, it is foreign then.
pub(crate) fn doubt(foreign: &mut Contents, key: &Key, is_misled: bool) -> Result<(), AllocError>
    ensures ok { OnOk result (foreign.new ≡ with_doubt foreign.old key.now is_misled) }
    ensures err { OnErr result (foreign.new ≡ foreign.old) }
{
    if is_misled {
        mark(foreign, key)?;
    }
    Ok(())
}

/// If what others did counts no longer for a key, it isn't foreign then.
pub(crate) fn forget(foreign: &mut Contents, key: &Key, is_over: bool)
    ensures { foreign.new ≡ without_foreign foreign.old key.now is_over }
{
    if is_over {
        foreign.remove(key);
    }
}

/// If what others did counts no longer at all, no key is foreign then.
pub(crate) fn forget_all(alloc: Global, foreign: &mut Contents, are_over: bool)
    ensures { foreign.new ≡ foreign_reopened foreign.old are_over }
{
    if are_over {
        *foreign = Contents::new(alloc);
    }
}
