//! Whether an event fits: whether it may happen in the machine's present state.
ghost use Rattle.std.specs.Prelude.{◌≡◌, ◌&&◌, not, true, false, None, Some};
ghost use Rattle.jc_world.specs.declared.event.WorldEvent.TheVariants as event;
ghost use Rattle.jc_world.specs.World.{is_busy, open_call, stripe_for};
ghost use Rattle.jc_world.specs.Sound.{IsSoundWorld};
ghost use Rattle.jc_types.specs.Limits.{is_session};
ghost use Rattle.jc_world.specs.Fits.{is_playable, is_new, may_start, may_leave, is_free, may_report, fits};
ghost use Rattle.jc_world.specs.Fits.{is_being_written, may_look, may_invalidate};

use crate::calls::{find_call, has_call, is_above, is_playable};
use crate::command::Command;
use crate::event::WorldEvent;
use crate::held_keys::{held_by, waits_for_load, waits_for_process};
use crate::joined::has_join;
use crate::machine::Machine;
use crate::tasks::is_free_at;
use jc_types::{Key, is_session, stripe_of};

impl Machine {
    /// Whether the event fits.
    pub(crate) fn fits(&self, event: &WorldEvent) -> bool
        requires { IsSoundWorld self.now }
        ensures { result ≡ fits self.now event.now }
    {
        match event {
            WorldEvent::Call {
                call,
                session,
                command,
            } => self.may_call(*call, *session, command),
            WorldEvent::Look { call, stripe } => self.may_look(*call, *stripe),
            WorldEvent::Start { call, key } => self.may_start(*call, key),
            WorldEvent::Read { call, key } => waits_for_load(&self.held, *call, key),
            WorldEvent::Say { call, key, answer } => {
                answer.is_given() && waits_for_load(&self.held, *call, key)
            }
            WorldEvent::Change { call, key } => self.is_being_written(*call, key),
            WorldEvent::Report {
                call,
                left: _,
                fault: _,
            } => self.may_report(*call),
            WorldEvent::Process { call, key, .. } => waits_for_process(&self.held, *call, key),
            WorldEvent::Commit { call, key } => {
                held_by(&self.held, *call, key).is_some_and(|held| held.is_all_answered())
            }
            WorldEvent::Withdraw { call, key } => {
                held_by(&self.held, *call, key).is_some_and(|held| held.is_untouched())
            }
            WorldEvent::Leave { call } => self.may_leave(*call),
            WorldEvent::PickUp { call, key } => has_join(&self.joins, *call, key),
            WorldEvent::Foreign { key: _, value: _ } => true,
            WorldEvent::Invalidate { key } => self.may_invalidate(key),
            WorldEvent::Reopen { config } => self.calls.is_empty() && config.check().is_ok(),
        }
    }

    /// Whether a call has the writer asked for a key now.
    pub(crate) fn is_being_written(&self, call: u64, key: &Key) -> bool
        ensures { result ≡ is_being_written self.now call key.now }
    {
        match find_call(&self.calls, call) {
            Some(u) => u.is_being_written(call, key, &self.held),
            None => false,
        }
    }

    /// Whether a key may be invalidated.
    fn may_invalidate(&self, key: &Key) -> bool
        requires { IsSoundWorld self.now }
        ensures { result ≡ may_invalidate (stripe_for self.now key.now) key.now }
    {
        let number = stripe_of(key, self.config.stripes);
        self.stripes.may_invalidate(number, key)
    }

    /// Whether a call has neither a reservation nor a join of a key.
    fn is_free(&self, call: u64, key: &Key) -> bool
        ensures { result ≡ is_free self.now call key.now }
    {
        is_free_at(call, key, &self.held, &self.joins)
    }

    fn may_call(&self, call: u64, session: u32, command: &Command) -> bool
        ensures { result ≡ (is_playable command.now && is_session session
            && is_new self.now.last call && not (is_busy self.now session)) }
    {
        let busy = has_call(&self.calls, session);
        is_playable(command) && is_session(session) && is_above(self.last, call) && !busy
    }

    fn may_look(&self, call: u64, stripe: usize) -> bool
        ensures { result ≡ may_look self.now.config.stripes stripe (open_call self.now call) }
    {
        match find_call(&self.calls, call) {
            Some(u) => stripe < self.config.stripes && u.is_to_look(stripe),
            None => false,
        }
    }

    fn may_start(&self, call: u64, key: &Key) -> bool
        ensures { result ≡ may_start self.now call key.now (open_call self.now call) }
    {
        match find_call(&self.calls, call) {
            Some(u) => u.op_at(key).is_some() && self.is_free(call, key),
            None => false,
        }
    }

    fn may_leave(&self, call: u64) -> bool
        ensures { result ≡ may_leave self.now call (open_call self.now call) }
    {
        match find_call(&self.calls, call) {
            Some(u) => u.is_free(call, &self.held, &self.joins),
            None => false,
        }
    }

    fn may_report(&self, call: u64) -> bool
        ensures { result ≡ may_report self.now call (open_call self.now call) }
    {
        match find_call(&self.calls, call) {
            Some(u) => u.may_report(call, &self.held),
            None => false,
        }
    }
}
