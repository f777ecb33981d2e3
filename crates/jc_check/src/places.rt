//! The places of nodes, by their fingerprints.
ghost use Rattle.std.specs.Prelude.{ℕ, IfNone, OnOk};
ghost use Rattle.jc_check.specs.States.{HasPlace};

use std::alloc::{AllocError, Global};
use std::collections::HashMap;

/// For each fingerprint that was noted, the place of the last node with it. Contracts don't promise that the place is this node's: it is
/// enough that no known node has a fingerprint without a place.
#[derive(Drop)]
pub struct Places {
    /// The places.
    pub by_print: HashMap<u64, usize>,
}

impl Places {
    /// No places.
    pub(crate) fn new(alloc: Global) -> Places {
        Places {
            by_print: HashMap::new(alloc),
        }
    }

    /// A place to look at, if the fingerprint was noted.
    pub(crate) fn find(&self, print: u64) -> Option<usize>
        ensures { IfNone result (HasPlace self.now print → ⊥) }
    {
        self.by_print.get(&print).copied()
    }

    /// Notes a fingerprint's place. An `Err` says that an allocation failed.
    pub(crate) fn note(&mut self, print: u64, place: usize) -> Result<(), AllocError>
        ensures there { OnOk result (HasPlace self.new print) }
        ensures others { OnOk result ((n : ℕ) → HasPlace self.old n → HasPlace self.new n) }
    {
        self.by_print.insert(print, place)?;
        Ok(())
    }
}
