//! Calls that take the keys that are cached.
ghost use Rattle.std.specs.Prelude.{◌≡◌, ◌<◌, true, Some, IfOk, OnErr, OnOk, slice_get};
ghost use Rattle.jc_stripe.specs.Keys.{AreKeys};
ghost use Rattle.jc_stripe.specs.State.{State};
ghost use Rattle.jc_world.specs.declared.event.WorldEvent.TheVariants as event;
ghost use Rattle.jc_world.specs.Fits.{fits};
ghost use Rattle.jc_world.specs.Events.{Happens};
ghost use Rattle.jc_world.specs.Sound.{IsSoundWorld};

use crate::calls::look;
use crate::event::{Outcome, Shown, show_end};
use crate::machine::Machine;
use jc_types::Key;
use std::alloc::AllocError;

impl Machine {
    /// A call takes the keys of a stripe at which it hasn't looked yet.
    #[inline(never)]
    pub(super) fn look(
        &mut self,
        call: u64,
        stripe: usize,
        seen: &mut Shown,
    ) -> Result<(), AllocError>
        requires sound { IsSoundWorld self.old }
        requires fits { fits self.old (event.Look call stripe) ≡ true }
        ensures ok { OnOk result (Happens self.old (event.Look call stripe) seen.new self.new) }
        ensures err { OnErr result (self.new ≡ self.old) }
    {
        let keys = self.keys_at(stripe)?;
        let over = look(&mut self.calls, call, self.config.stripes, stripe, &keys)?;
        show_end(seen, Outcome::Looked, over);
        Ok(())
    }

    /// The keys that a stripe caches, in byte order.
    fn keys_at(&self, stripe: usize) -> Result<Vec<Key>, AllocError>
        requires sound { IsSoundWorld self.now }
        requires there { stripe < self.now.config.stripes }
        ensures { IfOk result (λ keys. (from : State)
            × (slice_get self.now.stripes stripe ≡ Some from) × AreKeys from keys.items) }
    {
        let mut keys = Vec::with_capacity(self.alloc, self.config.capacity)?;
        self.stripes.items()[stripe].keys(&mut keys);
        Ok(keys)
    }
}
