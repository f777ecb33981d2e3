//! The meaning of a bulk write for each of its keys (JSR 107, "Integration"; `CacheWriter.writeAll`, `deleteAll`).
//!
//! A writer is given a collection, and takes out each key that it has written or deleted. So a key that is left there when it
//! returns, normally or with a fault, wasn't written; every other key was.
ghost use Rattle.std.specs.Prelude.{◌≡◌};
ghost use Rattle.jc_model.specs.Batches.{is_among, fault_code, batch_answer};

use crate::event::WriteAnswer;
use jc_types::Key;

/// Whether a key is among these keys. It looks at them one after another.
pub fn is_among(keys: &[Key], key: &Key) -> bool
    ensures { result ≡ is_among keys.now key.now }
{
    keys.iter().any(|k| *key == *k)
}

/// The code of a key that is left: the writer's, or 0 if the writer returned normally.
fn fault_code(fault: Option<u32>) -> u32
    ensures { result ≡ fault_code fault }
{
    match fault {
        Some(code) => code,
        None => 0,
    }
}

/// The answer for one key of a bulk write, by whether it is left and by the writer's fault, if any: a key that is left failed, also
/// after a normal return, and every other key was written, also after a fault.
pub fn batch_answer(is_left: bool, fault: Option<u32>) -> WriteAnswer
    ensures { result ≡ batch_answer is_left fault }
{
    if is_left {
        WriteAnswer::Failed(fault_code(fault))
    } else {
        WriteAnswer::Done
    }
}
