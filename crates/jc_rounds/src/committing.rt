//! The last phases of a round of a call with many keys, once the outside answers are there.
ghost use Rattle.std.specs.Prelude.{◌≡◌, ◌+◌, [], Some, reverse, slice_get};
ghost use Rattle.jc_rounds.specs.declared.progress.KeyProgress.TheVariants.{Reserved};
ghost use Rattle.jc_rounds.specs.Answers.{AreAnswers, done_room};
ghost use Rattle.jc_rounds.specs.Rounds.{Round};
ghost use Rattle.jc_rounds.specs.KeyProgress.{IsNoted, failures};
ghost use Rattle.jc_rounds.specs.Underway.{Advances, AdvancesUnnoted, CallPast, HasCommitted, IsAnswered, IsCommitting};

use crate::answers::RoundAnswers;
use crate::bulk_call::BulkCall;
use crate::progress::KeyProgress;
use jc_cache::{Cache, Session};
use jc_model::Reply;
use jc_types::Value;
use std::sync::Wait;

impl<'a> BulkCall<'a> {
    /// Makes the last phase at each key that is reserved, in their order. It returns the emptied answers, for their memory.
    ///
    /// Conditions: the call is the session's current one; these are the round's answers for the keys that are reserved.
    pub(crate) fn commit<R: Wait>(
        &mut self,
        rt: &R,
        cache: &Cache,
        session: &mut Session,
        answers: RoundAnswers,
    ) -> RoundAnswers
        requires answered { (past : CallPast) × (round : Round) × IsAnswered cache.now past round session.old self.old answers }
        ensures advances { Advances session.old session.new self.old self.new }
        ensures cause { IsNoted self.old.cause (failures self.new.progress.items) self.new.cause }
        ensures committed { (past : CallPast) (round : Round) → IsAnswered cache.now past round session.old self.old answers
            → HasCommitted cache.now past session.new self.new }
        ensures spent { (past : CallPast) (round : Round) → IsAnswered cache.now past round session.old self.old answers
            → AreAnswers cache.now.config round result [] }
        ensures room { done_room result ≡ done_room answers }
    {
        let mut left = answers;
        self.tickets.reverse();
        for place in 0..self.progress.len() {
            if !self.progress[place].holds_reservation() {
                continue;
            }
            self.commit_at(rt, cache, session, place, &mut left);
        }
        self.note_failures();
        left
    }

    /// Makes the last phase at the key of this place, the first one that is reserved. Its ticket is the last in the list.
    fn commit_at<R: Wait>(
        &mut self,
        rt: &R,
        cache: &Cache,
        session: &mut Session,
        place: usize,
        answers: &mut RoundAnswers,
    )
        requires there { slice_get self.old.progress.items place ≡ Some Reserved }
        requires answered { (past : CallPast) × (round : Round)
            × IsCommitting cache.now past round session.old self.old (reverse self.old.tickets.items) answers.old place }
        ensures advances { AdvancesUnnoted session.old session.new self.old self.new }
        ensures committed { (past : CallPast) (round : Round)
            → IsCommitting cache.now past round session.old self.old (reverse self.old.tickets.items) answers.old place
            → IsCommitting cache.now past round session.new self.new (reverse self.new.tickets.items) answers.new (place + 1) }
        ensures room { done_room answers.new ≡ done_room answers.old }
    {
        let _types: Option<&(Reply, Value)> = None;
        match self.tickets.pop() {
            Some(ticket) => {
                let mut reply = Reply::Unit;
                answers.commit_next(rt, cache, session, ticket, &mut reply);
                self.progress[place] = KeyProgress::Ended(Ok(reply));
            }
            None => unreachable!(),
        }
    }
}
