//! The callers' order, as the checker tests it: the numbers of a session's calls never fall, and no step comes twice.
ghost use Rattle.std.specs.Prelude.{◌≡◌, IsTrue};
ghost use Rattle.std.specs.List.{list_all};
ghost use Rattle.jc_model.specs.Legal.{may_come, may_follow, in_order};
ghost use Rattle.jc_model.specs.Reader.{comes_before};

use crate::event::Event;
use jc_types::{Caller, Key};

/// Whether an event may come after another.
fn does_follow(event: &Event, later: &Event) -> bool
    ensures { result ≡ may_follow event.now later.now }
{
    match later {
        Event::Step { caller, key, .. } => event.may_come(caller, key),
        Event::Evict { .. } => true,
    }
}

impl Event {
    /// Whether a step of this caller at this key may come after the event, in the callers' order: the call's number is above the
    /// event's, or they are one call at two keys. Another session's event doesn't matter.
    pub fn may_come(&self, caller: &Caller, key: &Key) -> bool
        ensures { result ≡ may_come self.now caller.now key.now }
    {
        match self {
            Event::Step {
                caller: who,
                key: k,
                ..
            } => {
                who.session != caller.session
                    || who.call < caller.call
                    || (who.call == caller.call && *k != *key)
            }
            Event::Evict { .. } => true,
        }
    }
}

/// Whether an event is a step of the same session with a lower number.
fn comes_before(event: &Event, later: &Event) -> bool
    ensures { result ≡ comes_before event.now later.now }
{
    match event {
        Event::Step { caller: who, .. } => match later {
            Event::Step { caller, .. } => who.session == caller.session && who.call < caller.call,
            Event::Evict { .. } => false,
        },
        Event::Evict { .. } => false,
    }
}

/// Whether an event may come after each of these, which are in order. It looks back only to the session's previous call.
fn does_follow_all(events: &[Event], event: &Event) -> bool
    requires { IsTrue (in_order events.now) }
    ensures { result ≡ list_all (λ earlier. may_follow earlier event.now) events.now }
{
    let mut rest = events;
    while let Some((last, before)) = rest.split_last() {
        if comes_before(last, event) {
            return true;
        }
        if !does_follow(last, event) {
            return false;
        }
        rest = before;
    }
    true
}

/// Whether no session's numbers fall, and no two steps have session, number and key in common.
pub(crate) fn is_in_order(events: &[Event]) -> bool
    ensures { result ≡ in_order events.now }
{
    for (i, event) in events.iter().enumerate() {
        if !does_follow_all(&events[..i], event) {
            return false;
        }
    }
    true
}
