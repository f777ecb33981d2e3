//! The rounds of a call with many keys, without their calls outside.
ghost use Rattle.std.specs.Prelude.{◌≡◌, [], true, false};
ghost use Rattle.jc_rounds.specs.Answers.{AreAnswers, done_room};
ghost use Rattle.jc_rounds.specs.Rounds.{Round};
ghost use Rattle.jc_rounds.specs.AskingRounds.{HasReserved, IsRoundTold};
ghost use Rattle.jc_rounds.specs.Running.{HasRun};
ghost use Rattle.jc_rounds.specs.Underway.{Advances, CallPast, IsOver, with_round};

use crate::answers::RoundAnswers;
use crate::bulk_call::BulkCall;
use jc_cache::{Cache, Session};
use jc_types::Refusal;
use std::sync::Wait;

impl<'a> BulkCall<'a> {
    /// Makes rounds until one has reserved keys, or each key has ended, and returns whether one has. If so, the caller asks
    /// outside for these keys, and [`BulkCall::end_round`] ends the round. A round that reserves no key asks nobody.
    ///
    /// A round begins each key that waits, in their order. Between two rounds the call waits for a change on the stripe of a key
    /// that was put off, with no reservation out. It may wait for ever.
    ///
    /// Conditions: the call is the session's current one, and has nothing out.
    pub fn reserve<R: Wait>(&mut self, rt: &R, cache: &Cache, session: &mut Session) -> bool
        requires run { (past : CallPast) × HasRun cache.now past session.old self.old }
        ensures advances { Advances session.old session.new self.old self.new }
        ensures reserved { result ≡ true → (past : CallPast) → HasRun cache.now past session.old self.old
            → HasReserved cache.now past session.new self.new }
        ensures over { result ≡ false → IsOver self.new }
        ensures run { result ≡ false → (past : CallPast) → HasRun cache.now past session.old self.old
            → HasRun cache.now past session.new self.new }
    {
        for _ in rt.forever() {
            self.start(rt, cache, session);
            if self.tickets.len() > 0 {
                return true;
            }
            self.pick_up(rt, cache, session);
            if !self.wait(rt, cache, session) {
                return false;
            }
        }
        unreachable!()
    }

    /// Ends a round that has reserved keys: it commits them by their outside answers, and waits for the loads that the round has
    /// joined. `fault` is what the writer returned, if it failed. It returns the emptied answers, for their memory.
    ///
    /// Condition: these are the answers for the keys of the call that are reserved.
    pub fn end_round<R: Wait>(
        &mut self,
        rt: &R,
        cache: &Cache,
        session: &mut Session,
        answers: RoundAnswers,
        fault: Option<Refusal>,
    ) -> RoundAnswers
        requires told { (past : CallPast) × (round : Round) × IsRoundTold cache.now past round session.old self.old answers fault }
        ensures advances { Advances session.old session.new self.old self.new }
        ensures run { (past : CallPast) (round : Round) → IsRoundTold cache.now past round session.old self.old answers fault
            → HasRun cache.now (with_round past round) session.new self.new }
        ensures spent { (past : CallPast) (round : Round) → IsRoundTold cache.now past round session.old self.old answers fault
            → AreAnswers cache.now.config round result [] }
        ensures room { done_room result ≡ done_room answers }
    {
        self.note(fault);
        let spent = self.commit(rt, cache, session, answers);
        self.pick_up(rt, cache, session);
        spent
    }
}
