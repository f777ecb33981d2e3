//! Watches, which are told the progress of a search.
ghost use Rattle.std.specs.Prelude.{None};

/// A watch is told the progress of a search, and decides nothing.
pub trait Watch {
    ghost use Rattle.std.specs.Prelude.{◌∷◌, List, [], Option};
    ghost use Rattle.jc_explore.specs.Watching.{OnEnd, OnStates, Tells, WatchCall};

    /// The calls that it was given, in order. `None` claims nothing, which is so for a watch that shows what it is told.
    ghost told: { Self → Option (List WatchCall) };

    /// The search has followed `followed` of the `known` states, and has found `found` final states. None of the three numbers
    /// gets smaller during a search. This is called before each state that is followed, so it should do little.
    fn on_states(&mut self, followed: u64, known: u64, found: u64)
        ensures { Tells (told self.old) (told self.new)
            (OnStates (record { followed = followed; known = known; found = found }) ∷ []) };

    /// The search is over. There is no further call for it.
    fn on_end(&mut self)
        ensures { Tells (told self.old) (told self.new) (OnEnd ∷ []) };
}

/// Nobody is told anything.
#[derive(Clone, Copy, Debug, PartialEq, Eq)]
pub struct Unwatched;

impl Watch for Unwatched {
    ghost told = { λ _. None };

    fn on_states(&mut self, _followed: u64, _known: u64, _found: u64) {}

    fn on_end(&mut self) {}
}
