//! Laws of the operation table, for every cache and every step. Each function does nothing: its contract is the law.
ghost use Rattle.jc_model.specs.TableLaws.{FaultLeavesCache, OtherKeysStay};

/// A step whose loader, processor or writer failed leaves the whole cache as it was (JSR 107, "Integration").
pub fn fault_leaves_cache()
    ensures { FaultLeavesCache }
{}

/// A step leaves the entry of every other key as it was.
pub fn other_keys_stay()
    ensures { OtherKeysStay }
{}
