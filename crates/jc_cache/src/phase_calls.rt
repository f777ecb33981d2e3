//! The phases of calls, one at a time, for code that builds its own calls of them. Between two phases of a call, others may make
//! phases on the same stripe. No stripe is held then, so the session's loader, writer or a processor may be called.
//!
//! Each function takes the key's stripe, makes one phase of the session, and gives the stripe back. It waits while another phase
//! is made there, and until its own phase can be made. A first phase waits until the session has no other call out there. A
//! commit, a withdrawal or a pick-up waits until the ticket or the join is out there, as it always is on the cache that gave it.
//! The session has then seen the stripe up to the phase.
ghost use Rattle.std.specs.Prelude.{◌≡◌, ◌+◌, ◌<◌, ◌≤◌, true, false, vec_len, vec_capacity};
ghost use Rattle.jc_types.specs.Stripes.{stripe_of};
ghost use Rattle.jc_model.specs.Group.{load_only, write_only};
ghost use Rattle.jc_outside.specs.declared.done.Origin.TheVariants.{Live};
ghost use Rattle.jc_stripe.specs.Effects.{HasReport, change_due, process_out};
ghost use Rattle.jc_stripe.specs.Phases.{begun_with, polled_with, with_reply};
ghost use Rattle.jc_stripe.specs.State.{State};
ghost use Rattle.jc_stripe.specs.Tickets.{asks_loader, asks_processor, asks_writer, claim_of};
ghost use Rattle.jc_session.specs.Counting.{counted_picked, counted_started};
ghost use Rattle.jc_session.specs.declared.counts.Counted.TheVariants.{Committed, Nothing, Withdrawn};
ghost use Rattle.jc_engine.specs.Answered.{IsAnswered, out_of};
ghost use Rattle.jc_engine.specs.Doors.{waiting};
ghost use Rattle.jc_engine.specs.Needs.{IsReported};
ghost use Rattle.jc_engine.specs.Turns.{committing};
ghost use Rattle.jc_cache.specs.Sessions.{GoesOn, IsCaller, IsOf};
ghost use Rattle.jc_cache.specs.PhaseCalls.{MayFind, MayStart, PhaseAt};
ghost use Rattle.jc_cache.specs.Turns.{looking, picking_late, picking_now, starting_now, withdrawing};

use crate::cache::Cache;
use jc_engine::laws::one_lending;
use jc_engine::{Access, Answer, BeginCall, Commit, How, Phase, PickUp, Processed, Withdraw};
use jc_model::{Op, Reply};
use jc_session::{Counted, Session};
use jc_stripe::{Appended, Ask, Join, LoadDone, Picked, ProcDone, Started, Ticket, WriteDone};
use jc_types::Key;
use std::sync::Wait;

impl Cache {
    /// Makes the first phase of the session's current call at a key. It returns each refusal, and waits none out. If the call is
    /// done, its reply is written to `reply`.
    ///
    /// Conditions: the session is of this cache, and its own steps allow the call at the key.
    pub fn start<R: Wait>(
        &self,
        rt: &R,
        session: &mut Session,
        key: &Key,
        op: &Op,
        reply: &mut Reply,
    ) -> Started
        requires own { IsOf self.now session.old }
        requires may { MayStart self.now session.old key.now }
        ensures { GoesOn self.now session.new
            (PhaseAt (stripe_of key.now self.now.config.stripes) session.old
            (starting_now session.old.agent.caller key.now op.now (begun_with result reply.new))
            (counted_started result) session.new) }
    {
        let at = self.stripe_of(key);
        let first = BeginCall::of(&session.agent, key, op, How::Now);
        self.phase_at(rt, session, at, first, reply)
    }

    /// Makes the last phase of a call whose loader has answered. The step's reply is written to `reply`.
    ///
    /// Conditions: the session is of this cache, and the ticket is of the session; the done value is the answer to its ask.
    pub fn commit_load<R: Wait>(
        &self,
        rt: &R,
        session: &mut Session,
        ticket: Ticket,
        done: LoadDone<Ask>,
        reply: &mut Reply,
    ) -> Appended
        requires caller { IsCaller self.now session.old ticket.reservation.caller }
        requires done { (asks_loader ticket.reservation.first ≡ true)
            × (done.ask ≡ claim_of ticket.reservation) × (done.origin ≡ Live) }
        ensures { GoesOn self.now session.new
            (PhaseAt (stripe_of ticket.reservation.key self.now.config.stripes) session.old
            (committing ticket.reservation (load_only done.answer) (with_reply result reply.new))
            Committed session.new) }
    {
        self.commit(rt, session, ticket, done, reply)
    }

    /// Makes the last phase of a call whose writer has reported. The step's reply is written to `reply`.
    ///
    /// Conditions: the session is of this cache, and the ticket is of the session; the done value is the answer to its ask.
    pub fn commit_write<R: Wait>(
        &self,
        rt: &R,
        session: &mut Session,
        ticket: Ticket,
        done: WriteDone<Ask>,
        reply: &mut Reply,
    ) -> Appended
        requires caller { IsCaller self.now session.old ticket.reservation.caller }
        requires done { (asks_writer ticket.reservation.first ≡ true)
            × (done.ask ≡ claim_of ticket.reservation) × (done.origin ≡ Live) }
        ensures { GoesOn self.now session.new
            (PhaseAt (stripe_of ticket.reservation.key self.now.config.stripes) session.old
            (committing ticket.reservation (write_only done.answer) (with_reply result reply.new))
            Committed session.new) }
    {
        self.commit(rt, session, ticket, done, reply)
    }

    /// Makes the last phase of a call whose processor has run. The step's reply is written to `reply`.
    ///
    /// Conditions: the session is of this cache, and the ticket is of the session; the done value is the answer to its ask; the
    /// writer's report is there exactly if the cache writes through and the processor has a net effect to be written, and is the
    /// answer to that ask.
    pub fn commit_process<R: Wait>(
        &self,
        rt: &R,
        session: &mut Session,
        ticket: Ticket,
        done: ProcDone<Ask>,
        report: Option<WriteDone<Ask>>,
        reply: &mut Reply,
    ) -> Appended
        requires caller { IsCaller self.now session.old ticket.reservation.caller }
        requires done { (asks_processor ticket.reservation.first ≡ true)
            × (done.ask ≡ claim_of ticket.reservation) × (done.origin ≡ Live) }
        requires report { HasReport Live ticket.reservation (change_due self.now.config done) report }
        ensures { GoesOn self.now session.new
            (PhaseAt (stripe_of ticket.reservation.key self.now.config.stripes) session.old
            (committing ticket.reservation (process_out done report) (with_reply result reply.new))
            Committed session.new) }
    {
        self.commit(rt, session, ticket, Processed { done, report }, reply)
    }

    /// Asks for the answer of a load that a call has joined. The answer is written to `reply`. It does not wait for the answer:
    /// `NotYet` gives the join back.
    ///
    /// Conditions: the session is of this cache, and the join is of the session.
    pub fn pick_up<R: Wait>(
        &self,
        rt: &R,
        session: &mut Session,
        join: Join,
        reply: &mut Reply,
    ) -> Picked
        requires { IsCaller self.now session.old join.caller }
        ensures { GoesOn self.now session.new
            (PhaseAt (stripe_of join.key self.now.config.stripes) session.old
            (picking_now join (polled_with result reply.new)) (counted_picked result) session.new) }
    {
        let at = self.stripe_of(join.key());
        let pick_up = PickUp { join, waits: false };
        self.phase_at(rt, session, at, pick_up, reply)
    }

    /// Waits until a load that a call has joined was answered, and writes the answer to `reply`; or until the load was withdrawn
    /// (`Again`).
    ///
    /// Conditions: the session is of this cache, and has no reservation out, so that nobody waits for it meanwhile; the join is of the
    /// session.
    pub fn wait_for_load<R: Wait>(
        &self,
        rt: &R,
        session: &mut Session,
        join: Join,
        reply: &mut Reply,
    ) -> Picked
        requires caller { IsCaller self.now session.old join.caller }
        requires reservations { session.old.agent.counts.reservations ≡ 0 }
        ensures { GoesOn self.now session.new
            (PhaseAt (stripe_of join.key self.now.config.stripes) session.old
            (picking_late join (polled_with result reply.new)) (counted_picked result) session.new) }
    {
        let at = self.stripe_of(join.key());
        let pick_up = PickUp { join, waits: true };
        self.phase_at(rt, session, at, pick_up, reply)
    }

    /// Withdraws a call that has reserved its key and asked nobody: nothing is appended, and the entry stays. Each call that has
    /// joined its load begins again.
    ///
    /// Conditions: the session is of this cache, and the ticket is of the session and has asked nobody.
    pub fn withdraw<R: Wait>(&self, rt: &R, session: &mut Session, ticket: Ticket)
        requires caller { IsCaller self.now session.old ticket.reservation.caller }
        requires unasked { ticket.asked ≡ false }
        ensures { GoesOn self.now session.new
            (PhaseAt (stripe_of ticket.reservation.key self.now.config.stripes) session.old
            (withdrawing ticket.reservation) Withdrawn session.new) }
    {
        let at = self.stripe_of(&ticket.reservation().key);
        self.phase_at(rt, session, at, Withdraw { ticket }, &mut Reply::Unit);
    }

    /// Pauses once, for a call that has met another call's reservation of this key. It may return though nothing has changed.
    ///
    /// Conditions: the session is of this cache, and has no reservation out, so that nobody waits for it meanwhile.
    pub fn wait_for_change<R: Wait>(&self, rt: &R, session: &Session, key: &Key)
        requires own { IsOf self.now session.now }
        requires reservations { session.now.agent.counts.reservations ≡ 0 }
    {
        let at = self.stripe_of(key);
        session
            .agent
            .wait_for_change(rt, &&self.locks[at], &session.seats[at]);
    }

    /// Appends the keys of one stripe that have an entry, each once, in byte order. It changes no stripe, and takes no memory.
    ///
    /// Conditions: the session is of this cache; there is a stripe of this number, and the vector has room for as many keys as a
    /// stripe may cache.
    pub fn look<R: Wait>(&self, rt: &R, session: &mut Session, number: usize, out: &mut Vec<Key>)
        requires own { IsOf self.now session.old }
        requires stripe { number < self.now.config.stripes }
        requires room { vec_len out.old + self.now.config.capacity ≤ vec_capacity out.old }
        ensures phase { GoesOn self.now session.new
            (PhaseAt number session.old
            (looking out.old.items out.new.items) Nothing session.new) }
        ensures room { (vec_len out.new ≤ vec_len out.old + self.now.config.capacity)
            × (vec_capacity out.new ≡ vec_capacity out.old) }
    {
        one_lending();
        let mut lock = &self.locks[number];
        let seat = &mut session.seats[number];
        let agent = &mut session.agent;
        let stripe = agent.take(rt, &mut lock, seat);
        stripe.keys(out);
        agent.give(&mut lock, seat, stripe, Counted::Nothing);
    }

    /// Makes the last phase of a call that has its outside answer. The step's reply is written to `reply`.
    fn commit<A: Answer, R: Wait>(
        &self,
        rt: &R,
        session: &mut Session,
        ticket: Ticket,
        answer: A,
        reply: &mut Reply,
    ) -> Appended
        requires caller { IsCaller self.now session.old ticket.reservation.caller }
        requires answered { IsAnswered ticket (A.answered answer) }
        requires reported { IsReported self.now.config ticket.reservation (A.answered answer) }
        ensures { GoesOn self.now session.new
            (PhaseAt (stripe_of ticket.reservation.key self.now.config.stripes) session.old
            (committing ticket.reservation (out_of (A.answered answer)) (with_reply result reply.new))
            Committed session.new) }
    {
        let at = self.stripe_of(&ticket.reservation().key);
        self.phase_at(rt, session, at, Commit { ticket, answer }, reply)
    }

    /// Makes a phase of the session on the stripe with this number. If the phase ends its call, the call's reply is written to
    /// `reply`.
    ///
    /// Conditions: the session is of this cache, and the phase is of the session; there is a stripe of this number, and each
    /// state in which the session may find it has what the phase needs.
    ///
    /// It is inlined, as [`Access::lend`] is.
    #[inline(always)]
    fn phase_at<P: Phase, R: Wait>(
        &self,
        rt: &R,
        session: &mut Session,
        number: usize,
        phase: P,
        reply: &mut Reply,
    ) -> P::Answer
        requires own { IsOf self.now session.old }
        requires stripe { number < self.now.config.stripes }
        requires who { P.who phase ≡ session.old.agent.caller.session }
        requires needs { (a : State) → MayFind session.old number a → P.needs phase a }
        ensures { GoesOn self.now session.new
            (PhaseAt number session.old (waiting (P.due phase) (P.puts_off phase) (λ a b. P.makes phase a result reply.new b)) (P.counts result) session.new) }
    {
        one_lending();
        let mut lock = &self.locks[number];
        let mut access = Access {
            gate: &mut lock,
            token: &mut session.seats[number],
            agent: &mut session.agent,
        };
        access.lend(rt, phase, reply)
    }
}
