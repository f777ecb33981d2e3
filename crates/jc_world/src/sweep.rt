//! The sweep of a call that takes the keys that are cached: at which stripes it has looked.
ghost use Rattle.std.specs.Prelude.{◌≡◌, [], IfOk};
ghost use Rattle.jc_world.specs.Calls.{SweepState, has_looked, has_looked_at_each, next_sweep};

use jc_model::Op;
use std::alloc::{AllocError, Global};
use std::marker::Model;

/// The state of a call that takes the keys that are cached: it looks at each stripe once, in any order. There are at most
/// [`STRIPES_MAX`](jc_types::STRIPES_MAX), so a list of their numbers is short.
#[derive(Drop)]
pub(crate) struct Sweep {
    op: Op,
    looked: Vec<usize>,
}

impl Model for Sweep {
    ghost use Rattle.jc_world.specs.Calls.{SweepState};

    ghost Value = { SweepState };

    ghost view = { λ sweep. record { op = sweep.op; looked = sweep.looked.items } };
}

impl Sweep {
    /// A sweep that has looked at no stripe.
    pub(crate) fn new(alloc: Global, op: Op) -> Sweep
        ensures { result ≡ record { op = op; looked = [] } }
    {
        Sweep {
            op,
            looked: Vec::new(alloc),
        }
    }

    /// The operation of the call at each key that it finds.
    pub(crate) fn op(&self) -> &Op
        ensures { result.now ≡ self.now.op }
    {
        &self.op
    }

    /// The stripes at which it has looked, in the order of its looks.
    pub(crate) fn looked(&self) -> &[usize]
        ensures { result.now ≡ self.now.looked }
    {
        &self.looked
    }

    /// Whether it has looked at the stripe with this number.
    pub(crate) fn has_looked(&self, stripe: usize) -> bool
        ensures { result ≡ has_looked self.now.looked stripe }
    {
        self.looked.contains(&stripe)
    }

    /// The sweep of all stripes behind a look at one more: none once it has looked at each. An `Err` says that an allocation
    /// failed.
    pub(crate) fn next(&self, stripes: usize, stripe: usize) -> Result<Option<Sweep>, AllocError>
        ensures { IfOk result (λ next. next ≡ next_sweep stripes stripe self.now) }
    {
        let mut looked = self.looked.clone()?;
        looked.push(stripe)?;
        if has_looked_at_each(&looked, stripes) {
            return Ok(None);
        }
        Ok(Some(Sweep {
            op: self.op,
            looked,
        }))
    }
}

/// Whether each of `stripes` stripes is in this list.
fn has_looked_at_each(looked: &[usize], stripes: usize) -> bool
    ensures { result ≡ has_looked_at_each looked.now stripes }
{
    for stripe in 0..stripes {
        if !looked.contains(&stripe) {
            return false;
        }
    }
    true
}
