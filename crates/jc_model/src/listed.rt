//! Entries as a plain list, such as the opening of a history.
ghost use Rattle.std.specs.Prelude.{◌≡◌};
ghost use Rattle.std.specs.FinMap as map;
ghost use Rattle.jc_model.specs.Cache.{key_cmp};

use jc_types::{Key, Value};

/// The value of the first entry with this key, or none. It looks at the entries one after another.
pub(crate) fn value_in(entries: &[(Key, Value)], key: &Key) -> Option<Value>
    ensures { result ≡ map.find key_cmp key.now entries.now }
{
    for (k, value) in entries {
        if *key == *k {
            return Some(*value);
        }
    }
    None
}
