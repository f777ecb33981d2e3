//! What a session's seat knows of the stripe behind its lock, as data of contracts.
use jc_model::Event;
use jc_stripe::Stripe;
use std::collections::LinkedList;

/// The knowledge of a seat about its lock's stripe. It is data of contracts: no value of it is ever made.
pub struct View {
    /// The number of its session, if it is a session's seat.
    pub session: Option<u32>,
    /// The number of the next session, if this is the seat that gives out numbers.
    pub next_session: Option<u32>,
    /// It is no seat: it was joined into another one, or its lock isn't made yet. No call is given such a seat.
    pub spent: bool,
    /// It has taken the stripe, and has not given it back.
    pub holds: bool,
    /// The events that it has seen of the stripe's whole history, all generations one after another: a prefix of that history,
    /// now and later.
    pub front: LinkedList<Event>,
    /// The front of a seat that was joined into it, until the longer one of both has become its own.
    pub joined_front: LinkedList<Event>,
    /// Its session's own steps: those whose answer isn't parked.
    pub own: LinkedList<Event>,
    /// The stripe as it was when this seat took it or gave it back last.
    pub noted: Stripe,
    /// Its lendings, the oldest first: the states in which it found and left the stripe. Only a take and the give after it add
    /// one, so a clause about a call's lendings is about what the call did.
    pub lendings: LinkedList<(Stripe, Stripe)>,
    /// The number of its tries that found the stripe held by somebody else.
    pub misses: u64,
}
