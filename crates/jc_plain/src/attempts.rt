//! Calls at each member of a collection, one after another, that leave exactly those that failed.
ghost use Rattle.std.specs.Prelude.{◌≡◌, ◌↔◌, IsOk};
ghost use Rattle.indexmap.specs.IndexMap.{index_map_len};
ghost use Rattle.indexmap.specs.IndexSet.{index_set_len};
ghost use Rattle.std.specs.Map.Calls.{RetainsPairs};
ghost use Rattle.std.specs.List.Retain.{IsFiltered};
ghost use Rattle.jc_plain.specs.Attempts.{FailsAt, FailsAtEntry};

use indexmap::{IndexMap, IndexSet};
use jc_types::{Key, Value};

/// Attempts something at each entry in turn, and leaves exactly those at which it failed, in their order. It is `Ok` exactly if
/// nothing is left; an `Err` is the last failure.
///
/// It may wait, as long as an attempt does. It takes no memory.
///
/// Condition: an attempt can always be made.
pub(crate) fn attempt_entries<F: FnMut(&Key, &Value) -> Result<(), u32>>(
    entries: &mut IndexMap<Key, Value>,
    mut attempt: F,
) -> Result<(), u32>
    requires { (state : F) (key : _) (value : _) → F.pre state key value }
    ensures ok { IsOk result ↔ (index_map_len entries.new ≡ 0) }
    ensures left { RetainsPairs (FailsAtEntry F.FnMut) attempt entries.old.entries entries.new.entries }
{
    // The code of the last failure. It is read only if there was a failure.
    let mut last = 0;
    entries.retain(
        |key: &Key, value: &mut Value| -> bool
            requires { (state : F) (key : _) (value : _) → F.pre state key value }
            ensures { FailsAtEntry F.FnMut attempt.entry
                key.now value.old result value.new attempt.exit }
        {
            match attempt(key, value) {
                Ok(()) => false,
                Err(code) => {
                    last = code;
                    true
                }
            }
        },
    );
    if entries.is_empty() {
        Ok(())
    } else {
        Err(last)
    }
}

/// Attempts something at each key in turn, and leaves exactly those at which it failed, in their order. It is `Ok` exactly if
/// nothing is left; an `Err` is the last failure.
///
/// It may wait, as long as an attempt does. It takes no memory.
///
/// Condition: an attempt can always be made.
pub(crate) fn attempt_keys<F: FnMut(&Key) -> Result<(), u32>>(
    keys: &mut IndexSet<Key>,
    mut attempt: F,
) -> Result<(), u32>
    requires { (state : F) (key : _) → F.pre state key }
    ensures ok { IsOk result ↔ (index_set_len keys.new ≡ 0) }
    ensures left { IsFiltered (FailsAt F.FnMut) attempt keys.old.keys keys.new.keys }
{
    // The code of the last failure. It is read only if there was a failure.
    let mut last = 0;
    keys.retain(
        |key: &Key| -> bool
            requires { (state : F) (key : _) → F.pre state key }
            ensures { FailsAt F.FnMut attempt.entry key.now result attempt.exit }
        {
            match attempt(key) {
                Ok(()) => false,
                Err(code) => {
                    last = code;
                    true
                }
            }
        },
    );
    if keys.is_empty() { Ok(()) } else { Err(last) }
}
