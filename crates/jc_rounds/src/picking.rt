//! The pick-ups of a round of a call with many keys.
ghost use Rattle.std.specs.Prelude.{◌≡◌, ◌+◌, Some, reverse, slice_get};
ghost use Rattle.jc_rounds.specs.declared.progress.KeyProgress.TheVariants.{Joined};
ghost use Rattle.jc_stripe.specs.Phases.{polled_with};
ghost use Rattle.jc_rounds.specs.Keys.{IsPickedUp};
ghost use Rattle.jc_rounds.specs.SoFar.{IsPicked};
ghost use Rattle.jc_rounds.specs.KeyProgress.{IsNoted, failures};
ghost use Rattle.jc_rounds.specs.Underway.{Advances, AdvancesUnnoted, CallPast, HasCommitted, IsBetween, IsPicking};

use crate::bulk_call::BulkCall;
use crate::key::pick_key;
use crate::progress::KeyProgress;
use jc_cache::{Cache, Session};
use jc_model::Reply;
use jc_stripe::Picked;
use jc_types::Value;
use std::sync::Wait;

impl<'a> BulkCall<'a> {
    /// Makes the pick-up at each key that has joined a load, in their order. It waits until each load was answered or withdrawn.
    /// Nothing is reserved meanwhile.
    ///
    /// Conditions: the call is the session's current one, and no key of it is reserved.
    pub(crate) fn pick_up<R: Wait>(&mut self, rt: &R, cache: &Cache, session: &mut Session)
        requires committed { (past : CallPast) × HasCommitted cache.now past session.old self.old }
        ensures advances { Advances session.old session.new self.old self.new }
        ensures cause { IsNoted self.old.cause (failures self.new.progress.items) self.new.cause }
        ensures between { (past : CallPast) → HasCommitted cache.now past session.old self.old
            → IsBetween cache.now past session.new self.new }
    {
        self.joins.reverse();
        for place in 0..self.progress.len() {
            if !self.progress[place].waits_for_joined_load() {
                continue;
            }
            self.pick_at(rt, cache, session, place);
        }
        self.note_failures();
    }

    /// Makes the pick-up at the key of this place, the first one that has joined a load. Its join is the last in the list.
    fn pick_at<R: Wait>(&mut self, rt: &R, cache: &Cache, session: &mut Session, place: usize)
        requires there { slice_get self.old.progress.items place ≡ Some Joined }
        requires picking { (past : CallPast)
            × IsPicking cache.now past session.old self.old (reverse self.old.joins.items) place }
        ensures advances { AdvancesUnnoted session.old session.new self.old self.new }
        ensures picking { (past : CallPast)
            → IsPicking cache.now past session.old self.old (reverse self.old.joins.items) place
            → IsPicking cache.now past session.new self.new (reverse self.new.joins.items) (place + 1) }
    {
        let _types: Option<&(Reply, Value)> = None;
        match self.joins.pop() {
            Some(join) => {
                let mut reply = Reply::Unit;
                let picked = pick_key(rt, cache, session, join, &mut reply);
                self.progress[place] = after_pick_up(picked, &reply);
            }
            None => unreachable!(),
        }
    }
}

/// The state of a key after a pick-up that wasn't too early. If it answered, `reply` is the answer.
fn after_pick_up(picked: Picked, reply: &Reply) -> KeyProgress
    requires { IsPickedUp (polled_with picked reply.now) }
    ensures { IsPicked (polled_with picked reply.now) result }
{
    match picked {
        Picked::Answer {
            place: _,
            shared_with: _,
        } => KeyProgress::Ended(Ok(*reply)),
        Picked::Again => KeyProgress::Waiting,
        Picked::NotYet(_join) => unreachable!(),
    }
}
