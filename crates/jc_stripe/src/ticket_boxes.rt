//! The boxes in which tickets keep their reservations.
//!
//! A reservation has the values of its operation inline, and a ticket is handed through many functions before it is spent. So a
//! ticket keeps its reservation in a box, and is as small as a pointer. All boxes are made with the stripe, one for each
//! reservation that may be out, so making a ticket allocates nothing. That is 65 allocations and 54 kB a stripe.
ghost use Rattle.std.specs.Prelude.{◌≡◌, ◌≤◌, ◌<◌, ◌+◌, ℕ, length, vec_capacity, IfOk};
ghost use Rattle.jc_types.specs.declared.limits.TheConstants.{RESERVATIONS_MAX};

use crate::ticket::Reservation;
use jc_types::RESERVATIONS_MAX;
use std::alloc::{AllocError, Global};
use std::marker::Model;

/// The boxes that no ticket has now. Their contents have no meaning.
#[derive(Drop)]
pub(crate) struct TicketBoxes {
    free: Vec<Box<Reservation>>,
}

impl Model for TicketBoxes {
    /// The number of boxes.
    ghost Value = { ℕ };

    ghost view = { λ b. length b.free.items };

    ghost invariant = { λ b. RESERVATIONS_MAX ≤ vec_capacity b.free };
}

impl TicketBoxes {
    /// `RESERVATIONS_MAX` boxes: one for each reservation that may be out.
    pub(crate) fn new(alloc: Global) -> Result<Self, AllocError>
        ensures { IfOk result (λ b. b ≡ RESERVATIONS_MAX) }
    {
        let mut free = Vec::with_capacity(alloc, RESERVATIONS_MAX)?;
        for _ in 0..RESERVATIONS_MAX {
            free.push_reserved(Box::new(alloc, Reservation::default())?);
        }
        Ok(TicketBoxes { free })
    }

    /// One of the boxes.
    pub(crate) fn take(&mut self) -> Box<Reservation>
        requires { 0 < self.old }
        ensures { self.new + 1 ≡ self.old }
    {
        match self.free.pop() {
            Some(free) => free,
            None => unreachable!(),
        }
    }

    /// Gives a box back.
    pub(crate) fn give_back(&mut self, spent: Box<Reservation>)
        requires { self.old < RESERVATIONS_MAX }
        ensures { self.new ≡ self.old + 1 }
    {
        self.free.push_reserved(spent);
    }
}
