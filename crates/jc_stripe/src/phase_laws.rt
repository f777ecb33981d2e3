//! The laws of the phases, over every stripe. Each function does nothing: its contract is the law.
ghost use Rattle.jc_stripe.specs.Laws.{StaysReached, OpenedIsReached, ReachedIsLegal, Grows, KeepsReserved};
ghost use Rattle.jc_stripe.specs.OnePhase.{OnePhase};
ghost use Rattle.jc_stripe.specs.Renewal.{LivesOn, Renewal};
ghost use Rattle.jc_stripe.specs.Forgetting.{Forgets};
ghost use Rattle.jc_stripe.specs.OwnSteps.{OwnSteps, CallerNumbers, OwnNumbers, StepsBehind, WholeCall, JoinsOnlyLoads};

/// A stripe in which nothing has happened yet satisfies the invariant of every stripe (`IsReached`), whatever entries it opens
/// with: at most as many as it may cache, of its own keys, each key once.
pub fn opened_is_reached()
    ensures { OpenedIsReached }
{}

/// Every phase of a stripe keeps the invariant of every stripe (`IsReached`). Among other things the history is legal from its
/// opening and leaves the stripe's entries, the tables are within their limits, each reservation still asks what it asked and its
/// step may still come, and each joiner that waits still finds its load.
pub fn stays_reached()
    ensures { StaysReached }
{}

/// A stripe's history is legal from its opening: anyone who takes a stripe from a lock may rely on it.
pub fn is_legal()
    ensures { ReachedIsLegal }
{}

/// Every phase of a stripe keeps its opening and all events of its history, and may only append to them.
pub fn grows()
    ensures { Grows }
{}

/// No phase but a reservation's own commit changes the entry of its key: the entry is neither evicted nor mutated meanwhile.
pub fn keeps_reserved()
    ensures { KeepsReserved }
{}

/// At most one phase of a session keeps the invariant of every stripe and leaves the same stripe, of the same shape, number,
/// origin and opening. The stripe's history grows, and the numbers of its reservations don't fall. The session's own steps, those
/// whose answer isn't parked, are the same or one more, and those of every other session are the same. Other sessions'
/// reservations and joins stay, and so does the entry of a key that stays reserved.
pub fn is_uniform()
    ensures { OnePhase }
{}

/// The effect of each kind of phase on its session's own steps. A call that is done at once, and a commit, add their step at the
/// end. A pick-up that is answered makes the joiner's step an own one, at its place. Every other phase leaves the own steps.
pub fn own_steps()
    ensures { OwnSteps }
{}

/// What follows from a session's rising numbers. If no step, reservation or join of a session has a call number or a later one,
/// the call may begin at any key of the stripe, and once it is done the same holds for the next number. And if the session's own
/// steps and its joiners allow a call to begin, its whole history here does, so nobody needs to scan the history.
pub fn caller_numbers()
    ensures { CallerNumbers }
{}

/// The law of `caller_numbers` on a list of own steps alone, for a caller that knows a session's own steps and no stripe. If they
/// are all of earlier calls, the call may begin at any key. With one more step, which is of this call, they are all of calls
/// before the next one, and stay so with a further step. And if the call may begin at a key, it may still begin there after a
/// step that it has made at another key.
pub fn own_numbers()
    ensures { OwnNumbers }
{}

/// A key is forgotten once it was invalidated, and stays so in every phase of every session, and at the end of a generation, until a
/// call begins at it; that call finds no entry, and joins no load. So it is over any number of phases: no call that begins after an
/// invalidation is answered from what was there before.
pub fn forgets()
    ensures { Forgets }
{}

/// A renewal leaves the whole history, all own steps of each session, and the cached entries as they were; and it keeps the
/// invariant of every stripe.
pub fn renewal()
    ensures { Renewal }
{}

/// A stripe that lives on satisfies the invariant of every stripe. It refuses a call as `HistoryFull` only if the number of the
/// call, or that of the stripe's next reservation, would overflow.
pub fn lives_on()
    ensures { LivesOn }
{}

/// A step that may still come after a history isn't in it: if it is found later, its place is after all of that history.
pub fn steps_behind()
    ensures { StepsBehind }
{}

/// A first phase that reserves its key, and its commit, with nothing between, are one step of that caller, operation and key, as
/// if the call had been done at once.
pub fn whole_call()
    ensures { WholeCall }
{}

/// A first phase that finds no load of its key doesn't join.
pub fn joins_only_loads()
    ensures { JoinsOnlyLoads }
{}
