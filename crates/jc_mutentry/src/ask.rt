//! Asks of an entry processor, whichever crate makes them.
use jc_outside::Ask;
use jc_types::Value;

/// A permission to run an entry processor once, on one entry.
///
/// It carries what the processor may see: the entry as it was when the key was reserved, and whether `getValue` of a missing
/// entry may ask the loader (JSR 107, "Entry Processors").
pub trait AskProcess: Ask {
    ghost use Rattle.std.specs.Prelude.{◌≡◌, Bool, Option};
    ghost use Rattle.jc_model.specs.Cache.{Bytes};

    /// The value of the entry, or none if it is missing.
    ghost initial: { Self → Option Bytes };

    /// Whether the loader may be asked: the loader table's `IfWanted`.
    ghost may_load: { Self → Bool };

    /// The value of the entry, or none if it is missing.
    fn initial(&self) -> Option<Value>
        ensures { result ≡ initial self.now };

    /// Whether the loader may be asked: read-through is on, and the entry is missing.
    fn may_load(&self) -> bool
        ensures { result ≡ may_load self.now };
}
