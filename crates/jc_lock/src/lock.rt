//! The lock: one word, and one slot with the stripe.
ghost use Rattle.std.specs.Prelude.{◌≡◌, ℕ, true, false, [], Some, IfOk, IfSome, IfNone};
ghost use mathlib.Core.List.{IsPrefix};
ghost use Rattle.jc_stripe.specs.Generations.{whole_history};
ghost use Rattle.jc_lock.specs.Views.{IsTurnBy, first_view, Finds, after_take, after_give, after_miss, after_split, session_view, after_join, front_note};

use crate::rule::{FrontNote, Give, MergeFronts, NewSession, Open, Rule, Slot, Take, Try};
use crate::view::View;
use atomic_table::Table;
use crossbeam_utils::Backoff;
use jc_stripe::{Stripe, phase_laws};
use std::alloc::{AllocError, Global};
use std::marker::Model;
use std::sync::Wait;

/// The word while nobody holds the stripe.
const FREE: u64 = 0;
/// The word while somebody holds the stripe.
const HELD: u64 = 1;

/// A lock round a stripe, which threads share by `&HistLock`. Contracts see only which lock it is: the stripe's state is known to
/// its holder alone. A lock that is dropped drops its stripe.
#[derive(Drop)]
pub struct HistLock {
    table: Table<Slot, View, Stripe, Rule, Global>,
}

impl Model for HistLock {
    ghost use Rattle.std.specs.Prelude.{◌≡◌};
    ghost use Rattle.atomic_table.specs.Seated.{TableId, table_id_coded};

    ghost Value = { TableId };

    ghost coded = { table_id_coded };

    ghost view = { λ l. l.table.shared.table_id };

    ghost invariant = { λ l. (l.table.shared.table_id.words ≡ 1) × (l.table.shared.table_id.slots ≡ 1) };
}

/// The seat of one user of a lock, which each call needs. A seat takes part in one call at a time, and threads don't share it. It
/// takes no bytes.
///
/// Contracts see its lock, and a [`View`] of what it has seen of the lock's stripe.
#[derive(Drop)]
pub struct Seat {
    token: atomic_table::Seat<Slot, View>,
}

impl Model for Seat {
    ghost use Rattle.atomic_table.specs.Seated.{TableId, table_id_coded};
    ghost use Rattle.jc_lock.specs.declared.view.View.{View};
    ghost use Rattle.jc_lock.specs.Views.{IsSeated};
    ghost use Rattle.std.specs.Coded.{codes};
    ghost use Rattle.jc_model.specs.Cache.{cache_code};

    ghost Value = { TableId × View };

    ghost coded = { Prim.hlevel (codes, cache_code, table_id_coded) };

    ghost view = { λ s. (s.token.table_id, s.token.me.0) };

    ghost invariant = { λ s. IsSeated s.token.me };
}

impl HistLock {
    /// A lock round a stripe, and its first seat, which is no session's and gives out session numbers from 0 on.
    ///
    /// It allocates one word and one box. If an allocation fails, the stripe is dropped.
    ///
    /// Condition: nothing has happened in the stripe: its whole history is empty. Its opening may have entries.
    pub fn new(alloc: Global, stripe: Box<Stripe>) -> Result<(HistLock, Seat), AllocError>
        requires { whole_history stripe.value ≡ [] }
        ensures { IfOk result (λ r. (r.1.0 ≡ r.0) × (r.1.1 ≡ first_view stripe.value)) }
    {
        // For its contract: every stripe is reached.
        let _ = stripe.events_len();
        let mut slots = Vec::with_capacity(alloc, 1)?;
        slots.push_reserved(None);
        let Ok((table, mut token)) = Table::new(alloc, &[HELD], slots, &*stripe) else {
            return Err(AllocError);
        };
        table.shared.load::<Open>(&mut token, 0);
        let lock = HistLock { table };
        let mut seat = Seat { token };
        lock.give(&mut seat, stripe);
        Ok((lock, seat))
    }

    /// Takes the stripe, if nobody holds it. Otherwise it returns `None`, and the seat counts that. It never waits and takes no
    /// memory.
    ///
    /// The stripe has the invariant of every stripe: its history is legal from its opening and leaves its entries. The seat's
    /// front is a prefix of the history, and the session's own steps in it are those that the seat knows.
    ///
    /// Conditions: the seat is of this lock, and doesn't hold it.
    pub fn try_take(&self, seat: &mut Seat) -> Option<Box<Stripe>>
        requires { (seat.old.0 ≡ self.now) × (seat.old.1.holds ≡ false) }
        ensures some { IfSome result
            (λ s. (seat.new ≡ (seat.old.0, after_take seat.old.1 s.value)) × Finds seat.old.1 s.value) }
        ensures none { IfNone result (seat.new ≡ (seat.old.0, after_miss seat.old.1)) }
    {
        let token = &mut seat.token;
        if self
            .table
            .shared
            .compare_exchange::<Try>(token, 0, FREE, HELD)
            != FREE
        {
            return None;
        }
        match self.table.shared.exchange(token, 0, None) {
            Some(stripe) => Some(stripe),
            None => unreachable!(),
        }
    }

    /// Takes the stripe as [`HistLock::try_take`] does, and waits as long as somebody else holds it. Neither progress nor
    /// fairness is guaranteed.
    ///
    /// Conditions: the seat is of this lock, and doesn't hold it.
    pub fn take<R: Wait>(&self, rt: &R, seat: &mut Seat) -> Box<Stripe>
        requires { (seat.old.0 ≡ self.now) × (seat.old.1.holds ≡ false) }
        ensures taken { seat.new ≡ (seat.old.0, after_take seat.old.1 result.value) }
        ensures found { Finds seat.old.1 result.value }
    {
        let backoff = Backoff::new();
        for _ in rt.forever() {
            if let Some(stripe) = self.take_if_free(seat) {
                return stripe;
            }
            backoff.snooze();
        }
        unreachable!()
    }

    /// Takes the stripe, if nobody holds it, in one try. `None` leaves the seat as it was.
    #[inline(always)]
    fn take_if_free(&self, seat: &mut Seat) -> Option<Box<Stripe>>
        requires { (seat.old.0 ≡ self.now) × (seat.old.1.holds ≡ false) }
        ensures some { IfSome result
            (λ s. (seat.new ≡ (seat.old.0, after_take seat.old.1 s.value)) × Finds seat.old.1 s.value) }
        ensures none { IfNone result (seat.new ≡ seat.old) }
    {
        let token = &mut seat.token;
        if self
            .table
            .shared
            .compare_exchange::<Take>(token, 0, FREE, HELD)
            != FREE
        {
            return None;
        }
        match self.table.shared.exchange(token, 0, None) {
            Some(stripe) => Some(stripe),
            None => unreachable!(),
        }
    }

    /// Gives the stripe back. The seat has then seen the stripe's whole history, all generations one after another, and has one
    /// more lending: the states in which it found and left the stripe. It never waits and takes no memory.
    ///
    /// Conditions: the seat is of this lock and holds it; the stripe is the one that it took, after at most one phase of the
    /// seat's session, or after a renewal. A seat that is no session's gives it back as it was, or renewed.
    pub fn give(&self, seat: &mut Seat, stripe: Box<Stripe>)
        requires held { (seat.old.0 ≡ self.now) × (seat.old.1.holds ≡ true) }
        requires phase { IsTurnBy seat.old.1.session seat.old.1.noted stripe.value }
        ensures { seat.new ≡ (seat.old.0, after_give seat.old.1 stripe.value) }
    {
        phase_laws::is_uniform();
        phase_laws::renewal();
        let token = &mut seat.token;
        match self.table.shared.exchange(token, 0, Some(stripe)) {
            None => {}
            Some(_) => unreachable!(),
        }
        self.table.shared.store::<Give>(token, 0, FREE);
    }

    /// A seat for a new session, with the next number. It has seen what `seat` has seen.
    ///
    /// Conditions: `seat` is of this lock, and gives out session numbers: only the first seat does.
    pub fn split(&self, seat: &mut Seat) -> Seat
        requires lock { seat.old.0 ≡ self.now }
        requires gives { (session : ℕ) × (seat.old.1.next_session ≡ Some session) }
        ensures seat { seat.new ≡ (seat.old.0, after_split seat.old.1) }
        ensures session { result ≡ (self.now, session_view seat.old.1) }
    {
        let token = self.table.shared.split_seat::<NewSession>(&mut seat.token);
        Seat { token }
    }

    /// Ends `other`, and tells `seat` what `other` has seen: from now on the seat's front is the longer one of both. If the seat
    /// holds the stripe, both fronts are prefixes of that stripe's whole history. The lendings of `other` become the seat's,
    /// after its own.
    ///
    /// Conditions: both seats are of this lock, and `other` doesn't hold it.
    pub fn join(&self, seat: &mut Seat, other: Seat)
        requires lock { (seat.old.0 ≡ self.now) × (other.0 ≡ self.now) }
        requires free { other.1.holds ≡ false }
        ensures seat { seat.new ≡ (seat.old.0, after_join seat.old.1 other.1) }
        ensures fronts { IsPrefix seat.old.1.front seat.new.1.front × IsPrefix other.1.front seat.new.1.front }
        ensures held { seat.old.1.holds ≡ true → IsPrefix seat.new.1.front (whole_history seat.old.1.noted) }
    {
        let Seat { token } = other;
        self.table
            .shared
            .join_seat::<FrontNote>(&mut seat.token, token);
        self.table.shared.load::<MergeFronts>(&mut seat.token, 0);
    }

    /// Tells `to` what `from` has seen: from now on the front of `to` is the longer one of both. `from` stays as it was.
    ///
    /// Conditions: both seats are of this lock.
    pub fn tell(&self, from: &mut Seat, to: &mut Seat)
        requires lock { (from.old.0 ≡ self.now) × (to.old.0 ≡ self.now) }
        ensures from { from.new ≡ from.old }
        ensures to { to.new ≡ (to.old.0, after_join to.old.1 (front_note from.old.1)) }
        ensures fronts { IsPrefix to.old.1.front to.new.1.front × IsPrefix from.old.1.front to.new.1.front }
    {
        let token = self.table.shared.split_seat::<FrontNote>(&mut from.token);
        self.join(to, Seat { token });
    }

    /// Ends the lock, and returns its stripe as a take by `seat` would find it, or `None` if a seat holds the stripe.
    ///
    /// Condition: the seat is of this lock.
    pub fn close(self, seat: Seat) -> Option<Box<Stripe>>
        requires { seat.0 ≡ self }
        ensures { IfSome result (λ s. Finds seat.1 s.value) }
    {
        let HistLock { table } = self;
        let Seat { token } = seat;
        let mut closed = table.close_with(token);
        let word = closed.word(0);
        let stripe = closed.take(0);
        closed.free();
        if word != FREE {
            return None;
        }
        match stripe {
            Some(stripe) => Some(stripe),
            None => unreachable!(),
        }
    }
}
