//! How a stripe is made.
ghost use Rattle.std.specs.Prelude.{◌≡◌, [], true, IfOk, Ok};
ghost use Rattle.std.specs.Prelude.{◌==◌};
ghost use Rattle.std.specs.List.{list_all};
ghost use Rattle.jc_types.specs.Limits.{check};
ghost use Rattle.jc_types.specs.Stripes.{stripe_of};
ghost use Rattle.jc_stripe.specs.Reached.{IsReached};
ghost use Rattle.jc_stripe.specs.Reopening.{opened_stripe};

use super::Stripe;
use crate::life::Life;
use crate::marks::Marks;
use crate::stripe_tables::{StripeJoiners, StripeReservations};
use crate::ticket_boxes::TicketBoxes;
use jc_entries::Entries;
use jc_history::History;
use jc_outside::Origin;
use jc_types::Config;
use std::alloc::{AllocError, Global};

impl Stripe {
    /// An empty stripe, with this number among `config.stripes`. Its history and its tables get all the memory that they may
    /// need. An `Err` says that an allocation failed.
    ///
    /// Stripes are numbered from 0. A number at or above `config.stripes` gives a stripe that has no keys.
    ///
    /// Conditions: `config.check()` is `Ok`.
    pub fn new(
        alloc: Global,
        config: &Config,
        number: usize,
        origin: Origin,
    ) -> Result<Self, AllocError>
        requires { check config.now ≡ Ok tt }
        ensures { IfOk result (λ s. s ≡ opened_stripe config.now origin number []) }
    {
        Stripe::new_from(alloc, config, number, origin, 0)
    }

    /// An empty stripe as by `new`, whose first reservation has the number `next`. No reservation gets the last number,
    /// `u64::MAX`: when it is next, every first phase is refused (`HistoryFull`).
    ///
    /// Conditions: `config.check()` is `Ok`.
    pub fn new_from(
        alloc: Global,
        config: &Config,
        number: usize,
        origin: Origin,
        next: u64,
    ) -> Result<Self, AllocError>
        requires { check config.now ≡ Ok tt }
        ensures made { IfOk result (λ s. s ≡ record (opened_stripe config.now origin number []) { next = next }) }
        ensures reached { IfOk result (λ s. IsReached s) }
    {
        let entries = Entries::new(alloc, config.capacity)?;
        Stripe::make(alloc, config, number, origin, entries, next)
    }

    /// A stripe with an empty history, which opens with these entries, in their order of use, and keeps them. An `Err` says that
    /// an allocation failed.
    ///
    /// Conditions: `config.check()` is `Ok`; the entries have the capacity of the config, and only keys of this stripe.
    pub fn open_with(
        alloc: Global,
        config: &Config,
        number: usize,
        origin: Origin,
        entries: Entries,
    ) -> Result<Self, AllocError>
        requires fits { check config.now ≡ Ok tt }
        requires capacity { entries.capacity ≡ config.now.capacity }
        requires own { list_all (λ entry. stripe_of entry.0 config.now.stripes == number) entries.list ≡ true }
        ensures made { IfOk result (λ s. s ≡ opened_stripe config.now origin number entries.list) }
        ensures reached { IfOk result (λ s. IsReached s) }
    {
        Stripe::make(alloc, config, number, origin, entries, 0)
    }

    /// A stripe as by `open_with`, whose first reservation has the number `next`.
    fn make(
        alloc: Global,
        config: &Config,
        number: usize,
        origin: Origin,
        entries: Entries,
        next: u64,
    ) -> Result<Self, AllocError>
        requires fits { check config.now ≡ Ok tt }
        requires capacity { entries.capacity ≡ config.now.capacity }
        requires own { list_all (λ entry. stripe_of entry.0 config.now.stripes == number) entries.list ≡ true }
        ensures made { IfOk result (λ s. s ≡ record (opened_stripe config.now origin number entries.list) { next = next }) }
        ensures reached { IfOk result (λ s. IsReached s) }
    {
        // For its contract: each key is there once, and there are at most `capacity` entries.
        let _ = entries.capacity();
        let reservations = StripeReservations::new_from(alloc, next)?;
        let boxes = TicketBoxes::new(alloc)?;
        let joiners = StripeJoiners::new(alloc)?;
        let history = History::new(alloc, config.history)?;
        let life = Life::new(&entries);
        let marks = Marks::new(alloc)?;
        Ok(Stripe {
            config: *config,
            number,
            origin,
            entries,
            reservations,
            boxes,
            joiners,
            history,
            lives: false,
            life,
            marks,
            is_shut: false,
        })
    }

    /// Makes the stripe as [`new`](Stripe::new) makes one of its shape, number and origin: it is empty, nothing has happened, it
    /// doesn't live on, and reservations are numbered from 0. It takes no memory.
    ///
    /// Conditions: no key is reserved. A join that is out here can't be picked up any more.
    pub fn restart(&mut self)
        requires { self.old.reservations ≡ [] }
        ensures { self.new ≡ opened_stripe self.old.config self.old.origin self.old.stripe [] }
    {
        self.entries.clear();
        self.reservations.restart();
        self.joiners.clear();
        self.history.restart();
        self.lives = false;
        self.life = Life::new(&self.entries);
        self.marks.clear();
        self.is_shut = false;
    }
}
