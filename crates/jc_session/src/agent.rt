//! Agents: a session without its seats.
ghost use Rattle.std.specs.Prelude.{◌≡◌, ◌⊎◌, max, true, is_some, IsSome, IfSome, IfNone};
ghost use Rattle.jc_stripe.specs.State.{State};
ghost use Rattle.jc_stripe.specs.Tickets.{asks_loader, asks_processor, change_asked};
ghost use Rattle.jc_stripe.specs.OnePhase.{Forgetting};
ghost use Rattle.jc_stripe.specs.Renewal.{StaysOrRenews};
ghost use Rattle.jc_session.specs.Asked.{LoaderAsked, WriterAsked, ProcessorRun};
ghost use Rattle.jc_session.specs.Counting.{one_more, call_before, IsCounted};
ghost use Rattle.jc_session.specs.Lending.{Taken, NotTaken, Given};
ghost use Rattle.jc_session.specs.declared.counts.Counted.TheVariants.{Nothing};

mod calls_all;

use crate::counts::{Counted, Counts, one_more};
use crossbeam_utils::Backoff;
use jc_gate::Gate;
use jc_mutentry::{EntryProcessor, ProcDone, run_processor};
use jc_outside::{
    CacheLoader, CacheWriter, Hands, LoadDone, Outside, WriteDone, call_loader, call_writer,
};
use jc_stripe::{Ask, Stripe};
use jc_types::{Caller, Value};
use std::sync::Wait;

/// The steps of a pause: as many as a `Backoff` makes until it advises to block. The first are short spins, the last yield the
/// processor to another thread.
const PAUSE_STEPS: u32 = 11;

/// The core of a session: the numbers of its calls, the counts of what it has begun and not ended, and its hands. A session is an
/// agent with a seat on every stripe.
///
/// An agent reaches its loader and its writer only by its hands, which count the stripes that it has taken and not given back.
/// The hands can't be replaced by others.
#[derive(Drop)]
pub struct Agent {
    caller: Caller,
    counts: Counts,
    hands: Hands<Outside>,
}

impl Agent {
    /// The agent of the session with this number. It holds no stripe, and has begun no call.
    pub fn new(
        session: u32,
        loader: Option<Box<dyn CacheLoader + Send + Drop>>,
        writer: Option<Box<dyn CacheWriter + Send + Drop>>,
    ) -> Agent
        ensures { result ≡ record {
          caller = record { session = session; call = 0 };
          counts = record { reservations = 0; joins = 0; own = 0 };
          hands = record { held = 0; outside = record { loader = loader; writer = writer } };
        } }
    {
        Agent {
            caller: Caller { session, call: 0 },
            counts: Counts {
                reservations: 0,
                joins: 0,
                own: 0,
            },
            hands: Hands::new(Outside { loader, writer }),
        }
    }

    /// Begins a call with the next number. Once the last number, `u64::MAX`, is reached, each further call gets it; the cache
    /// refuses such a call (`HistoryFull`).
    pub fn next_call(&mut self) -> Caller
        ensures caller { result ≡ self.new.caller }
        ensures call { self.new
            ≡ record self.old { caller = record self.old.caller { call = one_more self.old.caller.call } } }
    {
        self.caller.call = one_more(self.caller.call);
        self.caller
    }

    /// Raises the number of the next call to `n`. If it is `n` or more already, nothing changes: numbers never fall.
    pub fn skip_to(&mut self, n: u64)
        ensures next { one_more self.new.caller.call ≡ max (one_more self.old.caller.call) n }
        ensures call { self.new
            ≡ record self.old { caller = record self.old.caller { call = call_before self.old.caller.call n } } }
    {
        self.caller.call = self.caller.call.max(n.saturating_sub(1));
    }

    /// The caller of the latest call: the session's number, and the call's.
    pub fn caller(&self) -> Caller
        ensures { result ≡ self.now.caller }
    {
        self.caller
    }

    /// The number of steps that the agent has made on the cache, up to `u64::MAX`: one for each key of a call that has been
    /// answered there and not refused.
    pub fn own(&self) -> u64
        ensures { result ≡ self.now.counts.own }
    {
        self.counts.own
    }

    /// Ends the agent, and returns its loader and its writer.
    ///
    /// Condition: it holds no stripe.
    pub fn into_outside(self) -> Outside
        requires { self.hands.held ≡ 0 }
        ensures { result ≡ self.hands.outside }
    {
        let Agent {
            caller: _,
            counts: _,
            hands,
        } = self;
        hands.into_outside()
    }

    /// The counts of what the agent has begun and not ended, and of its steps.
    pub fn counts(&self) -> Counts
        ensures { result ≡ self.now.counts }
    {
        self.counts
    }

    /// Takes a stripe, if it is there. `None` says that somebody else has it.
    ///
    /// Conditions: the agent holds no stripe, and the token has not taken the gate's.
    pub fn try_take<G: Gate>(&mut self, gate: &mut G, token: &mut G::Token) -> Option<Box<Stripe>>
        requires { (self.old.hands.held ≡ 0) × G.is_free gate.old token.old }
        ensures some { IfSome result (λ s. Taken G.has G.takes G.finds G.speaks_for
            self.old gate.old token.old s.value self.new gate.new token.new) }
        ensures none { IfNone result (NotTaken G.misses G.finds G.is_free G.speaks_for
            self.old gate.old token.old self.new gate.new token.new) }
    {
        let stripe = gate.try_take(token)?;
        self.hands.hold();
        Some(stripe)
    }

    /// Takes a stripe, and waits as long as somebody else has it. Neither progress nor fairness is guaranteed.
    ///
    /// Conditions: the agent holds no stripe, and the token has not taken the gate's.
    pub fn take<G: Gate, R: Wait>(
        &mut self,
        rt: &R,
        gate: &mut G,
        token: &mut G::Token,
    ) -> Box<Stripe>
        requires { (self.old.hands.held ≡ 0) × G.is_free gate.old token.old }
        ensures { Taken G.has G.takes G.finds G.speaks_for
            self.old gate.old token.old result.value self.new gate.new token.new }
    {
        let stripe = gate.take(rt, token);
        self.hands.hold();
        stripe
    }

    /// Gives back a stripe in which no phase of the session was made. Its generation may have ended; or keys were invalidated, or an
    /// entry of a stripe that is shut was evicted.
    ///
    /// Conditions: the agent holds one stripe, and the token speaks for its session. This is the stripe that the token has taken,
    /// as it was, or after a renewal or a phase of no session.
    pub fn give_back<G: Gate>(&mut self, gate: &mut G, token: &mut G::Token, stripe: Box<Stripe>)
        requires held { (self.old.hands.held ≡ 1) × G.speaks_for token.old self.old.caller.session }
        requires rest { (a : State) × G.has gate.old token.old a
            × (StaysOrRenews a stripe.value ⊎ Forgetting a stripe.value) }
        ensures { Given G.gives G.finds G.is_free G.speaks_for
            Nothing self.old gate.old token.old stripe.value self.new gate.new token.new }
    {
        gate.give(token, stripe);
        self.hands.let_go();
    }

    /// Gives back a stripe, and counts its phase.
    ///
    /// Conditions: the agent holds one stripe, and the token speaks for its session. This is the stripe that the token has taken,
    /// after at most one phase of that session, and `counted` is the change of the agent's counts by that phase.
    pub fn give<G: Gate>(
        &mut self,
        gate: &mut G,
        token: &mut G::Token,
        stripe: Box<Stripe>,
        counted: Counted,
    )
        requires held { (self.old.hands.held ≡ 1) × G.speaks_for token.old self.old.caller.session }
        requires phase { (a : State) × G.has gate.old token.old a
            × IsCounted counted self.old.caller.session a stripe.value }
        ensures { Given G.gives G.finds G.is_free G.speaks_for
            counted self.old gate.old token.old stripe.value self.new gate.new token.new }
    {
        gate.give(token, stripe);
        self.hands.let_go();
        self.counts = self.counts.after(counted);
    }

    /// Pauses once between two takes. It may return though nothing has changed.
    ///
    /// Conditions: the agent has no reservation out, so that no other call waits for this one meanwhile; it holds no stripe; the
    /// token has not taken the gate's.
    pub fn wait_for_change<G: Gate, R: Wait>(&self, _rt: &R, _gate: &G, _token: &G::Token)
        requires reservations { self.now.counts.reservations ≡ 0 }
        requires free { (self.now.hands.held ≡ 0) × G.is_free _gate.now _token.now }
    {
        let backoff = Backoff::new();
        for _ in 0..PAUSE_STEPS {
            backoff.snooze();
        }
    }

    /// Pauses once between two takes, unless the agent has a reservation out: then it returns at once, so that no other call
    /// waits for the reservation meanwhile.
    ///
    /// Conditions: the agent holds no stripe, and the token has not taken the gate's.
    pub fn pause<G: Gate, R: Wait>(&self, rt: &R, gate: &G, token: &G::Token)
        requires { (self.now.hands.held ≡ 0) × G.is_free gate.now token.now }
    {
        if self.counts.reservations == 0 {
            self.wait_for_change(rt, gate, token);
        }
    }

    /// Calls the loader once, with the key of the ask. Without a loader nothing is found.
    ///
    /// It may wait, as long as the loader does.
    ///
    /// Conditions: the agent holds no stripe, and the ask is of the loader.
    pub fn ask_loader<R: Wait>(&mut self, rt: &R, ask: Ask) -> LoadDone<Ask>
        requires held { self.old.hands.held ≡ 0 }
        requires first { asks_loader ask.asked ≡ true }
        ensures { LoaderAsked loads load_state self.old ask result self.new }
    {
        call_loader(rt, &mut self.hands, ask)
    }

    /// Calls the writer once, for the change that is asked for: `write` with the key and the value, or `delete` with the key.
    ///
    /// It may wait, as long as the writer does.
    ///
    /// Conditions: the agent holds no stripe, and has a writer; the ask has a change.
    pub fn ask_writer<R: Wait>(&mut self, rt: &R, ask: Ask) -> WriteDone<Ask>
        requires held { self.old.hands.held ≡ 0 }
        requires change { is_some (change_asked ask.asked) ≡ true }
        requires writer { IsSome self.old.hands.outside.writer }
        ensures { WriterAsked writes write_state self.old ask result self.new }
    {
        call_writer(rt, &mut self.hands, ask)
    }

    /// Runs an entry processor once, on the key and the entry of the ask (`javax.cache.processor.EntryProcessor.process`). The
    /// loader is called at most once, if the processor asks for the value of an entry that it may load; without a loader
    /// nothing is found.
    ///
    /// It may wait, as long as the processor and the loader do.
    ///
    /// Conditions: the agent holds no stripe, and the ask is of the processor.
    pub fn run_processor<R: Wait>(
        &mut self,
        rt: &R,
        ask: Ask,
        processor: &mut Box<dyn EntryProcessor + Send + Drop>,
        args: &[Value],
    ) -> ProcDone<Ask>
        requires held { self.old.hands.held ≡ 0 }
        requires first { asks_processor ask.asked ≡ true }
        ensures { ProcessorRun loads load_state processes process_state
            self.old ask args.now processor.old result self.new processor.new }
    {
        run_processor(rt, &mut self.hands, processor, ask, args)
    }
}
